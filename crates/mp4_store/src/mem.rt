//! A store and a sink in memory.
ghost use Rattle.std.specs.Prelude.{◌≡◌, ◌<◌, ◌+◌, ℕ, List, [], ◌++◌, length, vec_len, true, OnOk, OnErr};
ghost use Rattle.std.specs.Vec.{vec_capacity};
ghost use Rattle.mp4_store.specs.words.Device.{Counts, TakesPrefix};

use crate::sink::{Sink, WriteFailed};
use crate::store::{Store, StoreFailed};
use std::alloc::Global;

/// A store over bytes in memory, which never fails.
#[derive(Drop)]
pub struct MemStore<'a> {
    bytes: &'a [u8],
}

impl<'a> MemStore<'a> {
    pub fn new(bytes: &'a [u8]) -> MemStore<'a>
        ensures { ⟦<MemStore<'a> as Store>⟧.file result ≡ bytes.entry.now }
    {
        MemStore { bytes }
    }
}

impl Store for MemStore<'_> {
    ghost is_honest = { λ _. true };

    ghost file = { λ s. s.bytes.now };

    ghost read_failures = { λ _. 0 };

    fn len(&self) -> u64 {
        self.bytes.len() as u64
    }

    fn read_at(&mut self, at: u64, out: &mut [u8]) -> Result<(), StoreFailed> {
        let from = at as usize;
        out.copy_from_slice(&self.bytes[from..from + out.len()]);
        Ok(())
    }
}

/// A sink in memory. A growth that is refused is a failure, and appends nothing.
#[derive(Drop)]
pub struct MemSink {
    held: Vec<u8>,
    failed: u64,
}

impl MemSink {
    /// Empty; it keeps the allocator.
    pub fn new(alloc: Global) -> MemSink
        ensures empty { result.held.items ≡ [] }
        ensures count { ⟦<MemSink as Sink>⟧.put_failures result ≡ 0 }
    {
        MemSink {
            held: Vec::new(alloc),
            failed: 0,
        }
    }

    /// Appends a piece, as `put` does; one that doesn't fit into memory leaves the bytes as they
    /// are. It fails only where there is no room for the piece.
    ///
    /// # Errors
    /// `WriteFailed` where a growth is refused.
    pub fn append(&mut self, piece: &[u8]) -> Result<(), WriteFailed>
        ensures whole { OnOk result (self.new.held.items ≡ self.old.held.items ++ piece.now) }
        ensures nothing { OnErr result (self.new.held.items ≡ self.old.held.items) }
        ensures cause { Counts self.old.failed self.new.failed result }
        ensures full { OnErr result
            (vec_capacity self.old.held < vec_len self.old.held + length piece.now) }
    {
        match self.held.extend_from_slice(piece) {
            Ok(()) => Ok(()),
            Err(_) => {
                self.failed = self.failed.saturating_add(1);
                Err(WriteFailed)
            }
        }
    }

    /// The bytes put so far.
    pub fn bytes(&self) -> &[u8]
        ensures held { result.now ≡ self.now.held.items }
        ensures taken { (empty : MemSink) (bytes : List ℕ) → empty.held.items ≡ []
            → ⟦<MemSink as Sink>⟧.takes empty self.now bytes → result.now ≡ bytes }
    {
        self.held.as_slice()
    }
}

impl Sink for MemSink {
    ghost use Rattle.std.proofs.Common.{◌≡◌, ◌++◌, ◌∙◌, sym, ap, append-nil, append_assoc};

    ghost takes = { λ s t xs. t.held.items ≡ s.held.items ++ xs };

    ghost put_failures = { λ s. s.failed };

    // It fails only where it has no room for the piece, and a growth was refused.
    fn put(&mut self, piece: &[u8]) -> Result<(), WriteFailed>
        ensures appends { OnOk result (self.new.held.items ≡ self.old.held.items ++ piece.now) }
        ensures prefix { OnErr result
            (TakesPrefix (λ xs. self.new.held.items ≡ self.old.held.items ++ xs) piece.now) }
        ensures cause { Counts self.old.failed self.new.failed result }
        ensures full { OnErr result
            (vec_capacity self.old.held < vec_len self.old.held + length piece.now) }
    {
        self.append(piece)
    }

    ghost takes_nothing = { λ s. sym (append-nil s.held.items) };

    ghost takes_on = { λ s t u xs ys p q.
        q ∙ ap (λ bytes. bytes ++ ys) p ∙ append_assoc s.held.items xs ys };
}
