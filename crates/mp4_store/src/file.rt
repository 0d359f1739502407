//! A store over a file of the file system, or over whatever else is read by place.
ghost use Rattle.std.specs.Prelude.{◌≡◌, ◌+◌, ◌<◌, ◌^◌, ◌≤◌, List, ℕ, length, Some, true, false, IfOk, OnErr, IsTrue};
ghost use Rattle.mp4_store.specs.words.Device.{Counts, range};
ghost use Rattle.mp4_store.specs.words.Places.{file_known, is_known};

use crate::placed::Placed;
use crate::store::{Store, StoreFailed};
use std::fs::File;
use std::io;
use std::io::{ErrorKind, Seek, SeekFrom};

/// So many calls of one read are made again, at most.
const MOST_TRIES: u32 = u32::MAX;

/// A store over what is read by place, whose length is taken once: honest where its bytes are known
/// and as many as that. What a file gives isn't known.
#[derive(Drop)]
pub struct FileStore<F> {
    placed: F,
    size: u64,
    failed: u64,
    ghost fits: { size < 2 ^ 64 },
}

impl FileStore<File> {
    /// Takes the length that the file or block device has now, by going to its end; later changes
    /// of it are not seen, but that a read past its end fails.
    pub fn new(mut file: File) -> io::Result<FileStore<File>>
        ensures count { IfOk result
            (λ store. ⟦<FileStore<File> as Store>⟧.read_failures store ≡ 0) }
    {
        let size = file.seek(SeekFrom::End(0))?;
        Ok(FileStore::over(file, size))
    }
}

impl<F: Placed> FileStore<F> {
    /// A store of so many bytes that are read by place.
    pub fn over(placed: F, size: u64) -> FileStore<F>
        ensures honest { ⟦<FileStore<F> as Store>⟧.is_honest result
            ≡ is_known (F.known placed) size }
        ensures file { ⟦<FileStore<F> as Store>⟧.file result ≡ file_known (F.known placed) size }
        ensures count { ⟦<FileStore<F> as Store>⟧.read_failures result ≡ 0 }
    {
        FileStore {
            placed,
            size,
            failed: 0,
        }
    }
}

// Fills `out` with what stands from a place on, by as many reads as it takes. Whether it is full.
fn read_whole<F: Placed>(placed: &mut F, at: u64, out: &mut [u8]) -> bool
    requires { at + length out.old < 2 ^ 64 }
    ensures known { F.known placed.new ≡ F.known placed.old }
    ensures sound { F.is_sound placed.new ≡ F.is_sound placed.old }
    ensures bytes { result ≡ true → (list : List ℕ) → F.known placed.old ≡ Some list
        → out.new ≡ range list at (length out.old) }
    ensures fails { result ≡ false → IsTrue (F.is_sound placed.old)
        → (list : List ℕ) → F.known placed.old ≡ Some list
        → length list < at + length out.old }
{
    let mut done = 0usize;
    let mut tries = MOST_TRIES;
    while done < out.len() {
        match placed.read_some(&mut out[done..], at + done as u64) {
            Ok(n) if n > 0 => done += n,
            Err(error) if tries > 0 && error.kind() == ErrorKind::Interrupted => tries -= 1,
            _ => return false,
        }
    }
    true
}

impl<F: Placed> Store for FileStore<F> {
    ghost use Rattle.std.specs.Prelude.{◌≡◌, ◌+◌, ◌≤◌, length, OnOk, OnErr, IsTrue};
    ghost use Rattle.mp4_store.specs.words.Device.{Counts, range};
    ghost use Rattle.mp4_store.specs.words.Places.{file_known, is_known};

    ghost is_honest = { λ s. is_known (F.known s.placed) s.size };

    ghost file = { λ s. file_known (F.known s.placed) s.size };

    ghost read_failures = { λ s. s.failed };

    fn len(&self) -> u64 {
        self.size
    }

    // A read that ends before `out` is full is a failure. Over bytes that are known, of which no
    // read fails, there is none.
    fn read_at(&mut self, at: u64, out: &mut [u8]) -> Result<(), StoreFailed>
        requires { at + length out.old
            ≤ length (file_known (F.known self.old.placed) self.old.size) }
        ensures honesty { is_known (F.known self.new.placed) self.new.size
            ≡ is_known (F.known self.old.placed) self.old.size }
        ensures file { file_known (F.known self.new.placed) self.new.size
            ≡ file_known (F.known self.old.placed) self.old.size }
        ensures read { OnOk result (IsTrue (is_known (F.known self.old.placed) self.old.size)
            → out.new ≡ range (file_known (F.known self.old.placed) self.old.size) at
            (length out.old)) }
        ensures cause { Counts self.old.failed self.new.failed result }
        ensures sound { OnErr result (IsTrue (is_known (F.known self.old.placed) self.old.size)
            → IsTrue (F.is_sound self.old.placed) → ⊥) }
    {
        if read_whole(&mut self.placed, at, out) {
            return Ok(());
        }
        self.failed = self.failed.saturating_add(1);
        Err(StoreFailed)
    }
}
