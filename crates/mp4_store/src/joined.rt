//! Stores one after the other, as one store.
ghost use Rattle.std.specs.Prelude.{◌≡◌, ℕ, ◌+◌, ◌-◌, ◌^◌, ◌<◌, ◌≤◌, min, length, List, take, drop, map, flat_map, IsTrue, None, OnErr, OnOk, IfOk, IfSome, [], get_or};
ghost use Rattle.std.specs.List.{list_all, AllWithin};
ghost use Rattle.std.specs.List.Sorted.{IsNonDecreasing};
ghost use Rattle.mp4_store.specs.words.Device.{Counts, range};
ghost use Rattle.mp4_store.specs.words.Parts.{ends_of, HasFailed, IsPlaceIn};

use crate::store::{Store, StoreFailed};
use std::alloc::{AllocError, Global};
use std::marker::Model;
use std::mem::replace;

/// A place in one of the parts of a [`JoinedStore`].
#[derive(Clone, Copy, Debug, PartialEq, Eq)]
pub struct PartPlace {
    /// Which part it is, from 0 on.
    pub part: usize,
    /// How many bytes of this part lie before the place.
    pub offset: u64,
}

// Where each part ends; `None` where that is more than 2^64 - 1.
fn ends<S: Store>(alloc: Global, parts: &[S]) -> Result<Option<Vec<u64>>, AllocError>
    ensures some { IfOk result (λ ends. IfSome ends (λ ends.
        ends.items ≡ ends_of 0 (map S.file parts.now))) }
    ensures none { IfOk result (λ ends. ends ≡ None → 2 ^ 64 ≤ length (flat_map S.file parts.now)) }
{
    let mut ends = Vec::with_capacity(alloc, parts.len())?;
    let mut end = 0u64;
    for part in parts {
        let Some(next) = end.checked_add(part.len()) else {
            return Ok(None);
        };
        end = next;
        ends.push(end)?;
    }
    Ok(Some(ends))
}

// Reads from a place in one part as many bytes as it has from there on, or as there is room for,
// and says how many.
fn read_part<S: Store>(part: &mut S, from: u64, out: &mut [u8]) -> Result<usize, StoreFailed>
    requires { from ≤ length (S.file part.old) }
    ensures honesty { S.is_honest part.new ≡ S.is_honest part.old }
    ensures file { S.file part.new ≡ S.file part.old }
    ensures length { length out.new ≡ length out.old }
    ensures count { IfOk result (λ n. n ≡ min (length (S.file part.old) - from) (length out.old)) }
    ensures bytes { IfOk result (λ n. IsTrue (S.is_honest part.old)
        → take n out.new ≡ range (S.file part.old) from n) }
    ensures cause { Counts (S.read_failures part.old) (S.read_failures part.new) result }
{
    let count = (part.len() - from).min(out.len() as u64) as usize;
    if count > 0 {
        part.read_at(from, &mut out[..count])?;
    }
    Ok(count)
}

// Fills `out` from a place in one part on, from part to part.
fn read_parts<S: Store>(
    parts: &mut [S],
    place: PartPlace,
    out: &mut [u8],
) -> Result<(), StoreFailed>
    requires part { place.offset ≤ length (get_or (map S.file parts.old) place.part []) }
    requires place { place.offset + length out.old
        ≤ length (flat_map S.file (drop place.part parts.old)) }
    ensures honesty { map S.is_honest parts.new ≡ map S.is_honest parts.old }
    ensures files { map S.file parts.new ≡ map S.file parts.old }
    ensures read { OnOk result (IsTrue (list_all S.is_honest parts.old)
        → out.new ≡ range (flat_map S.file (drop place.part parts.old)) place.offset
        (length out.old)) }
    ensures cause { OnErr result
        (HasFailed (map S.read_failures parts.old) (map S.read_failures parts.new)) }
{
    let mut done = 0usize;
    let mut part = place.part;
    let mut from = place.offset;
    while done < out.len() {
        done += read_part(&mut parts[part], from, &mut out[done..])?;
        part += 1;
        from = 0;
    }
    Ok(())
}

// The first part that ends behind a place, found by halving; so many as there are, where none does.
fn part_behind(ends: &[u64], at: u64) -> usize
    requires { IsNonDecreasing ends.now }
    ensures before { AllWithin (λ end. end ≤ at) ends.now 0 result }
    ensures behind { AllWithin (λ end. at < end) ends.now result (length ends.now) }
    ensures within { result ≤ length ends.now }
{
    ends.partition_point(|end| *end <= at)
}

// Where a part begins.
fn begin_of(ends: &[u64], part: usize) -> u64
    requires { part ≤ length ends.now }
    ensures { (parts : List (List ℕ)) → ends.now ≡ ends_of 0 parts
        → result ≡ length (flat_map (λ bytes. bytes) (take part parts)) }
{
    if part == 0 { 0 } else { ends[part - 1] }
}

// The place in the parts that end at these places; `None` behind the last one.
fn place_in(ends: &[u64], at: u64) -> Option<PartPlace>
    requires { (parts : List (List ℕ)) × (ends.now ≡ ends_of 0 parts) }
    ensures some { IfSome result (λ place. (parts : List (List ℕ)) → ends.now ≡ ends_of 0 parts
        → IsPlaceIn parts at place.part place.offset) }
    ensures none { result ≡ None → (parts : List (List ℕ)) → ends.now ≡ ends_of 0 parts
        → length (flat_map (λ bytes. bytes) parts) ≤ at }
{
    let part = part_behind(ends, at);
    if part == ends.len() {
        return None;
    }
    Some(PartPlace {
        part,
        offset: at - begin_of(ends, part),
    })
}

/// Stores one after the other, as one store: its bytes are those of the first part, then those of
/// the second, and so on. Nothing is copied. A part may have no bytes, and there may be no parts.
/// A read goes to the parts in which its bytes lie, found by halving, and fails where a read of
/// one of them does.
///
/// ```rust
/// let parts = vec![in alloc; MemStore::new(b"moov"), MemStore::new(b""), MemStore::new(b"moof")]?;
/// if let Some(mut store) = JoinedStore::new(alloc, parts)? {
///     let mut word = [0; 4];
///     store.read_at(2, &mut word)?; // "ovmo"
/// }
/// ```
#[derive(Drop)]
pub struct JoinedStore<S: Store> {
    parts: Vec<S>,
    // Where each part ends.
    ends: Vec<u64>,
    failed: u64,
}

impl<S: Store> Model for JoinedStore<S> {
    ghost use Rattle.std.specs.Prelude.{◌≡◌, List, ℕ, map};
    ghost use Rattle.mp4_store.specs.words.Parts.{ends_of};

    ghost Value = { List S × ℕ };

    ghost view = { λ j. (j.parts.items, j.failed) };

    ghost invariant = { λ j. j.ends.items ≡ ends_of 0 (map S.file j.parts.items) };
}

impl<S: Store> JoinedStore<S> {
    ghost use Rattle.std.specs.Prelude.{◌≡◌, ◌^◌, ◌<◌, ◌≤◌, [], length, get_or, map, flat_map, slice_set, IfOk, IfSome, None};
    ghost use Rattle.mp4_store.specs.words.Parts.{IsPlaceIn};

    /// Joins the parts in their order; `None` where they have more than 2^64 - 1 bytes in all.
    /// The room for where each part ends is taken here.
    ///
    /// # Errors
    /// `AllocError` where that room is refused.
    pub fn new(alloc: Global, parts: Vec<S>) -> Result<Option<JoinedStore<S>>, AllocError>
    where
        S: Drop,
        ensures joined { IfOk result (λ joined. IfSome joined (λ joined.
            (joined.0 ≡ parts.items) × (joined.1 ≡ 0))) }
        ensures long { IfOk result (λ joined. joined ≡ None
            → 2 ^ 64 ≤ length (flat_map S.file parts.items)) }
    {
        let Some(ends) = ends(alloc, parts.as_slice())? else {
            return Ok(None);
        };
        Ok(Some(JoinedStore {
            parts,
            ends,
            failed: 0,
        }))
    }

    /// The parts, in their order.
    pub fn parts(&self) -> &[S]
        ensures { result.now ≡ self.now.0 }
    {
        self.parts.as_slice()
    }

    /// Puts another store of the same bytes in the place of a part, and gives that part: one whose
    /// file is closed for one whose file is open, say.
    pub fn replace_part(&mut self, part: usize, store: S) -> S
        requires within { part < length self.old.0 }
        requires bytes { S.file store ≡ get_or (map S.file self.old.0) part [] }
        ensures part { result ≡ get_or self.old.0 part result }
        ensures parts { self.new.0 ≡ slice_set self.old.0 part store }
        ensures count { self.new.1 ≡ self.old.1 }
    {
        replace(&mut self.parts[part], store)
    }

    /// The part in which the byte at a place stands, and where it stands there; `None` where the
    /// place lies behind all parts.
    pub fn place(&self, at: u64) -> Option<PartPlace>
        ensures some { IfSome result (λ place.
            IsPlaceIn (map S.file self.now.0) at place.part place.offset) }
        ensures none { result ≡ None → length (flat_map S.file self.now.0) ≤ at }
    {
        place_in(self.ends.as_slice(), at)
    }

    // Reads as `read_at` does, and counts no failure; it fails only where a read of a part does.
    fn read(&mut self, at: u64, out: &mut [u8]) -> Result<(), StoreFailed>
        requires { at + length out.old ≤ length (flat_map S.file self.old.0) }
        ensures honesty { list_all S.is_honest self.new.0 ≡ list_all S.is_honest self.old.0 }
        ensures file { flat_map S.file self.new.0 ≡ flat_map S.file self.old.0 }
        ensures count { self.new.1 ≡ self.old.1 }
        ensures read { OnOk result (IsTrue (list_all S.is_honest self.old.0)
            → out.new ≡ range (flat_map S.file self.old.0) at (length out.old)) }
        ensures cause { OnErr result
            (HasFailed (map S.read_failures self.old.0) (map S.read_failures self.new.0)) }
    {
        match self.place(at) {
            Some(place) => read_parts(self.parts.as_mut_slice(), place, out),
            None => Ok(()),
        }
    }
}

impl<S: Store> Store for JoinedStore<S> {
    ghost is_honest = { λ s. list_all S.is_honest s.0 };

    ghost file = { λ s. flat_map S.file s.0 };

    ghost read_failures = { λ s. s.1 };

    fn len(&self) -> u64 {
        match self.ends.last() {
            Some(end) => *end,
            None => 0,
        }
    }

    // It fails only where a read of a part did, which that part counted.
    fn read_at(&mut self, at: u64, out: &mut [u8]) -> Result<(), StoreFailed>
        requires { at + length out.old ≤ length (flat_map S.file self.old.0) }
        ensures honesty { list_all S.is_honest self.new.0 ≡ list_all S.is_honest self.old.0 }
        ensures file { flat_map S.file self.new.0 ≡ flat_map S.file self.old.0 }
        ensures read { OnOk result (IsTrue (list_all S.is_honest self.old.0)
            → out.new ≡ range (flat_map S.file self.old.0) at (length out.old)) }
        ensures cause { Counts self.old.1 self.new.1 result }
        ensures below { OnErr result
            (HasFailed (map S.read_failures self.old.0) (map S.read_failures self.new.0)) }
    {
        let answer = self.read(at, out);
        if answer.is_err() {
            self.failed = self.failed.saturating_add(1);
        }
        answer
    }
}
