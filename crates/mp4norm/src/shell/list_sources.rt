//! The files that a list names, opened as one.
ghost use Rattle.std.specs.Prelude.{true, IfErr};
ghost use Rattle.mp4norm.specs.format.Runs.{HasChanged};

use crate::shell::file_change::State;
use crate::shell::file_names::{shown, word_of};
use crate::shell::lists::{ListFault, listed_names};
use crate::shell::named_files::{ListStore, NamedFile, front_of, room_for};
use crate::shell::near_store::NearStore;
use crate::shell::part_checks::check_parts;
use crate::shell::reports::Report;
use crate::shell::sources::read_whole;
use mp4_boxes::Refusal;
use mp4_store::BufferedStore;
use std::alloc::{AllocError, Global};
use std::fs::File;
use std::io::{ErrorKind, Write};
use std::{fs, io};

// The files of a list: their names as the list has them, those by which they are opened, how they
// were, and where each ends.
#[derive(Drop)]
struct ListedParts {
    names: Vec<Vec<u8>>,
    paths: Vec<String>,
    states: Vec<State>,
    ends: Vec<u64>,
}

/// The files of a list, opened as one.
#[derive(Drop)]
pub(crate) struct ListSource<'a> {
    rt: &'a HostRuntime,
    pub(crate) store: NearStore<BufferedStore<ListStore<'a>>>,
    listed: ListedParts,
}

// Reads a list whole.
fn read_list(rt: &HostRuntime, name: &str, report: &mut Report) -> Result<Vec<u8>, Refusal> {
    if name == "-" {
        return read_whole(rt.alloc(), &mut rt.reader(), report);
    }
    report.concerns(rt, name)?;
    let mut file = report.outcome(File::open(rt, name), Refusal::StoreFailed)?;
    read_whole(rt.alloc(), &mut file, report)
}

/// Says which line of a list is wrong, and in which way.
pub(crate) fn tell_fault(rt: &HostRuntime, name: &str, fault: ListFault) -> Result<(), AllocError> {
    let name = shown(rt.alloc(), name.as_bytes())?;
    let (line, what) = (fault.line, fault.what);
    let text = format!(in rt.alloc(); ": line {line}: {what}\n")?;
    let mut errors = rt.stderr();
    let _ = errors.write_all(name.as_slice());
    let _ = errors.write_all(text.as_str().as_bytes());
    Ok(())
}

// The name of a file by which it is opened: beside the list, unless it is a whole one.
fn path_of(alloc: Global, list: &str, name: &[u8]) -> Result<String, AllocError> {
    let mut path = String::new(alloc);
    if name.first() != Some(&b'/') {
        if let Some((folder, _)) = list.rsplit_once('/') {
            path.push_str(folder)?;
            path.push('/')?;
        }
    }
    path.push_str(word_of(alloc, name)?.as_str())?;
    Ok(path)
}

// What the system tells of a regular file of this name.
fn look(rt: &HostRuntime, path: &str) -> io::Result<State> {
    let metadata = fs::metadata(rt, path)?;
    if metadata.is_dir() {
        return Err(ErrorKind::IsADirectory.into());
    }
    if !metadata.is_file() {
        return Err(ErrorKind::Unsupported.into());
    }
    Ok(State::of(&metadata))
}

/// Reads a list of so many files at most, and looks at all of them. A line of the list that can't
/// be taken is told of on standard error.
pub(crate) fn open_list<'a>(
    rt: &'a HostRuntime,
    list: &str,
    most: u64,
    report: &mut Report,
) -> Result<ListSource<'a>, Refusal> {
    let alloc = rt.alloc();
    let text = read_list(rt, list, report)?;
    let names = match listed_names(alloc, text.as_slice(), most)? {
        Ok(names) => names,
        Err(fault) => {
            tell_fault(rt, list, fault)?;
            return Err(report.failure("a line of the list can't be taken", Refusal::StoreFailed));
        }
    };
    let folder = if list == "-" { "" } else { list };
    let mut listed = ListedParts {
        names,
        paths: Vec::new(alloc),
        states: Vec::new(alloc),
        ends: Vec::new(alloc),
    };
    let mut end = 0u64;
    for name in &listed.names {
        let path = path_of(alloc, folder, name.as_slice())?;
        let looked = look(rt, path.as_str());
        if looked.is_err() {
            report.concerns(rt, path.as_str())?;
        }
        let state = report.outcome(looked, Refusal::StoreFailed)?;
        end = end.saturating_add(state.len);
        listed.ends.push(end)?;
        listed.states.push(state)?;
        listed.paths.push(path)?;
    }
    match ListStore::new(alloc, listed.files(rt)?)? {
        Some(store) => {
            let store = BufferedStore::new(alloc, store)?;
            let store = NearStore::new(alloc, store)?;
            report.concerns_none();
            Ok(ListSource { rt, store, listed })
        }
        None => Err(report.failure("the files are too long together", Refusal::StoreFailed)),
    }
}

impl<'a> ListSource<'a> {
    /// Goes over the headers of the files' own boxes: each file has to end with a box.
    pub(crate) fn check_parts(&mut self) -> Result<(), Refusal> {
        check_parts(&mut self.store, self.listed.ends.as_slice())
    }

    /// The file of the list that could not be read last.
    pub(crate) fn trouble(&self) -> Option<&str> {
        let part = self.store.below().below().trouble()?;
        Some(self.listed.paths.get(part)?.as_str())
    }

    /// The same files, of which nothing is read yet.
    pub(crate) fn again(&self) -> Result<BufferedStore<ListStore<'a>>, Refusal> {
        let alloc = self.rt.alloc();
        match ListStore::new(alloc, self.listed.files(self.rt)?)? {
            Some(store) => Ok(BufferedStore::new(alloc, store)?),
            None => Err(Refusal::StoreFailed),
        }
    }

    /// Whether all files are as they were.
    pub(crate) fn stays(&self) -> Result<(), Refusal>
        ensures { IfErr result (HasChanged true) }
    {
        self.listed.stays(self.rt)
    }

    /// The name of the file in which the byte at a place lies, as the list has it, and where it
    /// lies there; of a place behind all files, the last one.
    pub(crate) fn part_at(&self, at: u64) -> Option<(&[u8], u64)> {
        self.listed.part_at(at)
    }
}

impl ListedParts {
    // The files, of which nothing is read yet.
    fn files<'a>(&self, rt: &'a HostRuntime) -> Result<Vec<NamedFile<'a>>, AllocError> {
        let alloc = rt.alloc();
        let front = front_of(self.states.as_slice());
        let mut files = Vec::new(alloc);
        for (name, state) in self.paths.iter().zip(self.states.iter()) {
            let room = room_for(alloc, state.len, front)?;
            files.push(NamedFile::new(rt, name.clone()?, *state, room))?;
        }
        Ok(files)
    }

    // Whether all files are as they were.
    fn stays(&self, rt: &HostRuntime) -> Result<(), Refusal>
        ensures { IfErr result (HasChanged true) }
    {
        for (path, state) in self.paths.iter().zip(self.states.iter()) {
            match look(rt, path.as_str()) {
                Ok(now) if now == *state => {}
                Ok(_) => return Err(Refusal::StoreChanged),
                Err(error) if error.kind() == ErrorKind::NotFound => {
                    return Err(Refusal::StoreChanged);
                }
                Err(_) => return Err(Refusal::StoreFailed),
            }
        }
        Ok(())
    }

    // The name of the file in which the byte at a place lies, and where it lies there.
    fn part_at(&self, at: u64) -> Option<(&[u8], u64)> {
        let behind = self.ends.as_slice().partition_point(|end| *end <= at);
        let part = behind.min(self.ends.len().checked_sub(1)?);
        let begin = if part == 0 { 0 } else { self.ends[part - 1] };
        let name = self.names.get(part)?;
        Some((name.as_slice(), at.saturating_sub(begin)))
    }
}
