//! A store with four bytes laid over those of another one, at some places.
ghost use Rattle.std.specs.Prelude.{◌≡◌, ◌↔◌, ℕ, ◌+◌, ◌-◌, ◌^◌, ◌<◌, ◌≤◌, length, List, get_or, slice_set, IsTrue};
ghost use Rattle.std.specs.List.{AllWithin};
ghost use Rattle.std.specs.List.Sorted.{IsNonDecreasing};
ghost use Rattle.mp4_store.specs.words.Device.{range};
ghost use Rattle.mp4_store.specs.words.LaidWords.{laid, laid_at, ArePlaces};

use crate::store::{Store, StoreFailed};
use std::alloc::Global;
use std::marker::Model;

/// So many places behind the first that was reached last are looked at before all others.
const NEAR: usize = 8;

// Lays a byte over what was read from a place on, where it is among that.
fn lay_byte(out: &mut [u8], at: u64, place: u64, byte: u8)
    ensures length { length out.new ≡ length out.old }
    ensures bytes { (file : List ℕ) → out.old ≡ range file at (length out.old)
        → out.new ≡ range (slice_set file place byte) at (length out.old) }
{
    if at <= place && place - at < out.len() as u64 {
        out[(place - at) as usize] = byte;
    }
}

// Lays a word over what was read from a place on, as far as it is among that.
fn lay_word(out: &mut [u8], at: u64, place: u64, word: [u8; 4])
    requires { place + 4 < 2 ^ 64 }
    ensures length { length out.new ≡ length out.old }
    ensures bytes { (file : List ℕ) → out.old ≡ range file at (length out.old)
        → out.new ≡ range (laid_at word place file) at (length out.old) }
{
    for k in 0..4 {
        lay_byte(out, at, place + k as u64, word[k]);
    }
}

// The first of these places of which the fourth byte is another place or lies behind it, found by
// halving; so many as there are, where none is.
fn first_from(places: &[u64], at: u64) -> usize
    requires { IsNonDecreasing places.now }
    ensures before { AllWithin (λ place. place + 4 ≤ at) places.now 0 result }
    ensures first { result < length places.now → at < get_or places.now result 0 + 4 }
    ensures within { result ≤ length places.now }
{
    match at.checked_sub(4) {
        Some(before) => places.partition_point(|place| *place <= before),
        None => 0,
    }
}

// Whether four bytes from a place on end at another one or before it.
fn ends_before(place: u64, at: u64) -> bool
    ensures { IsTrue result ↔ (place + 4 ≤ at) }
{
    place <= at && at - place >= 4
}

// Whether there are so many of these places, and all end at another place or before it.
fn all_end_before(places: &[u64], count: usize, at: u64) -> bool
    requires { IsNonDecreasing places.now }
    ensures before { IsTrue result → AllWithin (λ place. place + 4 ≤ at) places.now 0 count }
    ensures within { IsTrue result → count ≤ length places.now }
{
    count == 0 || (count <= places.len() && ends_before(places[count - 1], at))
}

// The same as `first_from`, found near a guess where it is there.
fn first_near(places: &[u64], at: u64, guess: usize) -> usize
    requires { IsNonDecreasing places.now }
    ensures before { AllWithin (λ place. place + 4 ≤ at) places.now 0 result }
    ensures first { result < length places.now → at < get_or places.now result 0 + 4 }
    ensures within { result ≤ length places.now }
{
    let end = guess.saturating_add(NEAR).min(places.len());
    let is_behind = end == places.len() || !ends_before(places[end], at);
    if is_behind && all_end_before(places, guess, at) {
        return guess + first_from(&places[guess..end], at);
    }
    first_from(places, at)
}

// Lays a word at these places over what was read from a place on. The first that a read reaches is
// looked for near a guess, and is the guess for the next one.
fn lay_words(places: &[u64], word: [u8; 4], at: u64, out: &mut [u8], guess: &mut usize)
    requires places { ArePlaces (2 ^ 64 - 1) places.now }
    requires within { at + length out.old < 2 ^ 64 }
    ensures length { length out.new ≡ length out.old }
    ensures bytes { (file : List ℕ) → out.old ≡ range file at (length out.old)
        → out.new ≡ range (laid word places.now file) at (length out.old) }
{
    let end = at + out.len() as u64;
    let mut next = first_near(places, at, *guess);
    *guess = next;
    while next < places.len() && places[next] < end {
        lay_word(out, at, places[next], word);
        next += 1;
    }
}

/// A store over another one, with four bytes in the place of its own at some places. A read is one
/// of the store below; then the word is laid at those places that it reaches, found near those of
/// the read before it, or by halving. A place costs 8 bytes of memory.
///
/// ```rust
/// let places = vec![in alloc; 4u64]?;
/// let mut store = LaidStore::new(MemStore::new(b"....mdat...."), *b"free", places);
/// let mut word = [0; 4];
/// store.read_at(6, &mut word)?; // "ee.."
/// ```
#[derive(Drop)]
pub struct LaidStore<S: Store> {
    store: S,
    word: [u8; 4],
    places: Vec<u64>,
    // The first of them that was reached last.
    near: usize,
}

impl<S: Store> Model for LaidStore<S> {
    ghost use Rattle.std.specs.Prelude.{List, ℕ, length};
    ghost use Rattle.mp4_store.specs.words.LaidWords.{ArePlaces};

    ghost Value = { S × List ℕ × List ℕ };

    ghost view = { λ l. (l.store, l.word, l.places.items) };

    ghost invariant = { λ l. ArePlaces (length (S.file l.store)) l.places.items };
}

impl<S: Store> LaidStore<S> {
    ghost use Rattle.std.specs.Prelude.{◌≡◌, [], length};
    ghost use Rattle.mp4_store.specs.words.LaidWords.{ArePlaces};

    /// Lays a word over the store at each of these places, which rise. No memory is taken.
    pub fn new(store: S, word: [u8; 4], places: Vec<u64>) -> LaidStore<S>
        requires { ArePlaces (length (S.file store)) places.items }
        ensures store { result.0 ≡ store }
        ensures word { result.1 ≡ word }
        ensures places { result.2 ≡ places.items }
    {
        LaidStore {
            store,
            word,
            places,
            near: 0,
        }
    }

    /// Nothing is laid over the store.
    pub fn plain(alloc: Global, store: S) -> LaidStore<S>
        ensures store { result.0 ≡ store }
        ensures places { result.2 ≡ [] }
    {
        LaidStore {
            store,
            word: [0; 4],
            places: Vec::new(alloc),
            near: 0,
        }
    }

    /// The store below.
    pub fn below(&self) -> &S
        ensures { result.now ≡ self.now.0 }
    {
        &self.store
    }
}

impl<S: Store> Store for LaidStore<S> {
    ghost is_honest = { λ s. S.is_honest s.0 };

    ghost file = { λ s. laid s.1 s.2 (S.file s.0) };

    ghost read_failures = { λ s. S.read_failures s.0 };

    fn len(&self) -> u64 {
        self.store.len()
    }

    fn read_at(&mut self, at: u64, out: &mut [u8]) -> Result<(), StoreFailed> {
        let _size = self.store.len();
        self.store.read_at(at, out)?;
        if !self.places.is_empty() {
            lay_words(self.places.as_slice(), self.word, at, out, &mut self.near);
        }
        Ok(())
    }
}
