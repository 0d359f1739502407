//! Files that are open only now and then: a store over a name.
ghost use Rattle.std.specs.Prelude.{◌≡◌, ◌<◌, length, false, replicate};

use crate::shell::file_change::{State, state_of};
use mp4_store::{JoinedStore, Store, StoreFailed};
use std::alloc::{AllocError, Global};
use std::fs::File;
use std::os::unix::fs::FileExt;

/// At most so many files of a list are open.
const MOST_OPEN: usize = 16;

/// At most so many first bytes of each file are kept.
const LONG_FRONT: u64 = 65_536;

/// So many are kept of each file where there are very many.
const SHORT_FRONT: u64 = 1024;

/// Of fewer files no more than so many bytes are kept in all.
const ROOM: u64 = 1 << 24;

/// A file by its name, and how it was when it was first looked at. While it isn't held open, it is
/// opened for each read; its first bytes, for which there is room, are read once and kept. What it
/// gives isn't known.
#[derive(Drop)]
pub(crate) struct NamedFile<'a> {
    rt: &'a HostRuntime,
    name: String,
    state: State,
    held: Option<File>,
    // Room for its first bytes, and whether they are there.
    room: Vec<u8>,
    is_read: bool,
    failed: u64,
    // Whether the last read failed.
    fails: bool,
}

impl<'a> NamedFile<'a> {
    /// The file of this name, which was so when it was looked at, with this room.
    pub(crate) fn new(
        rt: &'a HostRuntime,
        name: String,
        state: State,
        room: Vec<u8>,
    ) -> NamedFile<'a>
        ensures { result.state ≡ state }
    {
        NamedFile {
            rt,
            name,
            state,
            held: None,
            room,
            is_read: false,
            failed: 0,
            fails: false,
        }
    }

    // Opens the file, if it is still the one that was looked at, and as it was.
    fn open(&self) -> Result<File, StoreFailed> {
        let Ok(file) = File::open(self.rt, self.name.as_str()) else {
            return Err(StoreFailed);
        };
        match state_of(&file) {
            Ok(state) if state == self.state => Ok(file),
            _ => Err(StoreFailed),
        }
    }

    // Reads the bytes that there is room for, the first time.
    fn fill(&mut self) -> Result<(), StoreFailed>
        ensures state { self.new.state ≡ self.old.state }
        ensures count { self.new.failed ≡ self.old.failed }
    {
        if self.is_read {
            return Ok(());
        }
        let file = self.open()?;
        if file.read_exact_at(self.room.as_mut_slice(), 0).is_err() {
            return Err(StoreFailed);
        }
        self.is_read = true;
        Ok(())
    }

    // Reads as `read_at` does, and counts no failure.
    fn read(&mut self, at: u64, out: &mut [u8]) -> Result<(), StoreFailed>
        ensures bytes { length out.new ≡ length out.old }
        ensures state { self.new.state ≡ self.old.state }
        ensures count { self.new.failed ≡ self.old.failed }
    {
        if self.keeps(at, out.len() as u64) {
            self.fill()?;
            return copy_from(self.room.as_slice(), at, out);
        }
        let read = match &self.held {
            Some(file) => file.read_exact_at(out, at),
            None => self.open()?.read_exact_at(out, at),
        };
        read.map_err(|_| StoreFailed)
    }

    // Whether there is room for so many bytes from a place on.
    fn keeps(&self, at: u64, len: u64) -> bool {
        let room = self.room.len() as u64;
        at <= room && len <= room - at
    }
}

/// How many first bytes of each of these files are kept: as many of each, and no fewer than a
/// `moof` often has.
pub(crate) fn front_of(states: &[State]) -> u64 {
    let mut all = 0u64;
    for state in states {
        all = all.saturating_add(state.len.min(LONG_FRONT));
    }
    if all <= ROOM {
        return LONG_FRONT;
    }
    (ROOM / (states.len() as u64).max(1)).clamp(SHORT_FRONT, LONG_FRONT)
}

/// The room for the first bytes of a file of so many, at most so many.
pub(crate) fn room_for(alloc: Global, len: u64, front: u64) -> Result<Vec<u8>, AllocError> {
    vec![in alloc; 0u8; len.min(front) as usize]
}

// Copies the bytes from a place on.
fn copy_from(bytes: &[u8], at: u64, out: &mut [u8]) -> Result<(), StoreFailed>
    ensures { length out.new ≡ length out.old }
{
    let len = out.len();
    let from = bytes.get(at as usize..).and_then(|rest| rest.get(..len));
    match from {
        Some(from) => {
            out.copy_from_slice(from);
            Ok(())
        }
        None => Err(StoreFailed),
    }
}

impl<'a> Store for NamedFile<'a> {
    ghost is_honest = { λ _. false };

    ghost file = { λ s. replicate s.state.len 0 };

    ghost read_failures = { λ s. s.failed };

    fn len(&self) -> u64 {
        self.state.len
    }

    fn read_at(&mut self, at: u64, out: &mut [u8]) -> Result<(), StoreFailed> {
        let answer = self.read(at, out);
        self.fails = answer.is_err();
        if self.fails {
            self.failed = self.failed.saturating_add(1);
        }
        answer
    }
}

/// The files of a list, one after the other. The first bytes of each are kept; at most 16 files are
/// held open, the one used longest ago is closed. What they give isn't known.
#[derive(Drop)]
pub(crate) struct ListStore<'a> {
    alloc: Global,
    files: JoinedStore<NamedFile<'a>>,
    size: u64,
    failed: u64,
    // Those that are held open; the one used last stands last.
    held: Vec<usize>,
    // The one that could not be read last.
    trouble: Option<usize>,
}

impl<'a> ListStore<'a> {
    /// None of these is held open yet; nothing where they have more than 2^64 - 1 bytes in all.
    pub(crate) fn new(
        alloc: Global,
        files: Vec<NamedFile<'a>>,
    ) -> Result<Option<ListStore<'a>>, AllocError> {
        let mut held = Vec::new(alloc);
        held.reserve(MOST_OPEN)?;
        match JoinedStore::new(alloc, files)? {
            Some(files) => Ok(Some(ListStore {
                alloc,
                size: files.len(),
                files,
                failed: 0,
                held,
                trouble: None,
            })),
            None => Ok(None),
        }
    }

    // Holds a file open, or no longer. Meanwhile another one without a name is in its place.
    fn hold(&mut self, part: usize, is_held: bool)
        ensures size { self.new.size ≡ self.old.size }
        ensures count { self.new.failed ≡ self.old.failed }
    {
        if part >= self.files.parts().len() {
            return;
        }
        let (rt, state) = {
            let file = &self.files.parts()[part];
            (file.rt, file.state)
        };
        let hollow = NamedFile::new(rt, String::new(self.alloc), state, Vec::new(self.alloc));
        let mut file = self.files.replace_part(part, hollow);
        file.state = state;
        file.held = if is_held { file.open().ok() } else { None };
        let _hollow = self.files.replace_part(part, file);
    }

    // A file is used.
    fn touch(&mut self, part: usize)
        ensures size { self.new.size ≡ self.old.size }
        ensures count { self.new.failed ≡ self.old.failed }
    {
        if self.held.last() == Some(&part) {
            return;
        }
        match self.held.iter().position(|held| *held == part) {
            Some(at) => {
                self.held.remove(at);
            }
            None => {
                if self.held.len() >= MOST_OPEN {
                    let oldest = self.held.remove(0);
                    self.hold(oldest, false);
                }
                self.hold(part, true);
            }
        }
        let _ = self.held.push(part);
    }

    /// The file that could not be read last, if there is one.
    pub(crate) fn trouble(&self) -> Option<usize> {
        self.trouble
    }

    // The first file from a place on of which the last read failed.
    fn failing_from(&self, at: u64) -> Option<usize> {
        let first = self.files.place(at)?.part;
        let files = self.files.parts().get(first..)?;
        first.checked_add(files.iter().position(|file| file.fails)?)
    }

    // Reads as `read_at` does, and counts no failure.
    fn read(&mut self, at: u64, out: &mut [u8]) -> Result<(), StoreFailed>
        ensures size { self.new.size ≡ self.old.size }
        ensures count { self.new.failed ≡ self.old.failed }
    {
        let len = out.len() as u64;
        self.touch_all(at, len);
        let size = self.files.len();
        if at > size || len > size - at {
            return Err(StoreFailed);
        }
        self.files.read_at(at, out)
    }

    // The files in which some bytes lie are used, but for those that keep them, and for those that
    // would close the first.
    fn touch_all(&mut self, at: u64, len: u64)
        ensures size { self.new.size ≡ self.old.size }
        ensures count { self.new.failed ≡ self.old.failed }
    {
        let end = at.saturating_add(len);
        let mut next = at;
        let mut open = 0;
        for _file in 0..self.files.parts().len() {
            let Some(place) = self.files.place(next) else {
                return;
            };
            let Some(file) = self.files.parts().get(place.part) else {
                return;
            };
            let here = file.len().saturating_sub(place.offset);
            if !file.keeps(place.offset, here.min(end.saturating_sub(next))) {
                if open == MOST_OPEN {
                    return;
                }
                self.touch(place.part);
                open = usize::saturating_add(open, 1);
            }
            next = next.saturating_add(here);
            if next >= end {
                return;
            }
        }
    }
}

impl<'a> Store for ListStore<'a> {
    ghost is_honest = { λ _. false };

    ghost file = { λ s. replicate s.size 0 };

    ghost read_failures = { λ s. s.failed };

    fn len(&self) -> u64 {
        self.size
    }

    fn read_at(&mut self, at: u64, out: &mut [u8]) -> Result<(), StoreFailed> {
        let answer = self.read(at, out);
        if answer.is_err() {
            self.failed = self.failed.saturating_add(1);
            self.trouble = self.failing_from(at);
        }
        answer
    }
}
