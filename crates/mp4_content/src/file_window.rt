//! A part of a file in memory, read ahead.
ghost use Rattle.std.specs.Prelude.{◌<◌, ◌≤◌, vec_len};

use mp4_boxes::Refusal;
use mp4_present::read_front;
use mp4_store::Store;
use std::alloc::{AllocError, Global};

// A buffer that shows some bytes of a file: so many, from a place on. It reads twice as many at
// once as before where it goes on, and half as many where it goes elsewhere.
#[derive(Drop)]
pub(crate) struct FileWindow {
    buffer: Vec<u8>,
    at: u64,
    used: usize,
    ahead: usize,
    ghost within: { used ≤ vec_len buffer },
    ghost some: { 0 < ahead },
    ghost fits: { ahead ≤ vec_len buffer },
}

// The fewest bytes that are read at once.
const FEWEST: usize = 4096;

// How many bytes are read at once, by how many were, at most so many.
fn next_ahead(ahead: usize, goes_on: bool, most: usize) -> usize
    requires { 0 < most }
    ensures some { 0 < ahead → 0 < result }
    ensures fits { result ≤ most }
{
    if goes_on {
        ahead.saturating_mul(2).min(most)
    } else {
        (ahead / 2).max(FEWEST).min(most)
    }
}

impl FileWindow {
    ghost use Rattle.std.specs.Prelude.{◌≡◌, ◌+◌, ◌<◌, ◌≤◌, ℕ, List, length, IfOk, IsTrue};
    ghost use Rattle.mp4_store.specs.words.Device.{range};
    ghost use Rattle.mp4_present.specs.words.StoresRead.{OnlyReads, WhereHonest, Refused};
    ghost use Rattle.mp4_present.specs.words.Reading.{RefusesFront};
    ghost use Rattle.mp4_content.specs.words.Windows.{Shows, DoesShow};

    // A window of so many bytes, at least one.
    pub(crate) fn new(alloc: Global, len: usize) -> Result<FileWindow, AllocError>
        requires { 0 < len }
        ensures { IfOk result (λ w. (file : List ℕ) → Shows file w) }
    {
        let buffer = vec![in alloc; 0u8; len]?;
        Ok(FileWindow {
            buffer,
            at: 0,
            used: 0,
            ahead: len,
        })
    }

    // How many bytes it shows from a place on.
    fn shown(&self, at: u64) -> usize
        ensures { 0 < result → (self.now.at ≤ at) × (at + result ≡ self.now.at + self.now.used) }
    {
        if at < self.at {
            return 0;
        }
        let passed = at - self.at;
        if passed < self.used as u64 {
            self.used - passed as usize
        } else {
            0
        }
    }

    // Goes on to a place of the file, where it doesn't show it yet, and says how many bytes from
    // there on it shows: at least one.
    pub(crate) fn show<S: Store>(&mut self, store: &mut S, at: u64) -> Result<usize, Refusal>
        requires place { at < length (S.file store.old) }
        requires shows { WhereHonest S.Store store.old (λ file. Shows file self.old) }
        ensures store { OnlyReads S.Store store.old store.new result }
        ensures shows { WhereHonest S.Store store.old (λ file. Shows file self.new) }
        ensures some { IfOk result (λ n. (0 < n) × DoesShow self.new at n) }
        ensures refusal { Refused S.Store store.old store.new result RefusesFront }
    {
        let shown = self.shown(at);
        if shown > 0 {
            return Ok(shown);
        }
        let goes_on = at == self.at.saturating_add(self.used as u64);
        self.ahead = next_ahead(self.ahead, goes_on, self.buffer.len());
        let left = store.len() - at;
        let room = self.ahead;
        let len = if left < room as u64 {
            left as usize
        } else {
            room
        };
        self.used = 0;
        read_front(store, at, self.buffer.as_mut_slice(), len)?;
        self.at = at;
        self.used = len;
        Ok(len)
    }

    // So many bytes that it shows from a place on.
    pub(crate) fn bytes(&self, at: u64, len: usize) -> &[u8]
        requires { DoesShow self.now at len }
        ensures long { length result.now ≡ len }
        ensures bytes { (file : List ℕ) → Shows file self.now → result.now ≡ range file at len }
    {
        let from = (at - self.at) as usize;
        &self.buffer[from..from + len]
    }

    // Whether both windows show so many bytes from a place on each, and these are the same.
    #[inline(always)]
    pub(crate) fn shows_same(&self, at: u64, other: &FileWindow, other_at: u64, len: usize) -> bool
        ensures { IsTrue result → (file other_file : List ℕ) → Shows file self.now
            → Shows other_file other.now
            → range file at len ≡ range other_file other_at len }
    {
        if len == 0 {
            return true;
        }
        if self.shown(at) < len || other.shown(other_at) < len {
            return false;
        }
        self.bytes(at, len) == other.bytes(other_at, len)
    }
}
