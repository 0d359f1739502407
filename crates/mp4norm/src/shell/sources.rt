//! What a command reads: a file, by place, or standard input, whole.

use crate::running::{KeptStore, settled};
use crate::shell::action::Input;
use crate::shell::file_change::Watched;
use crate::shell::file_names::push_shown;
use crate::shell::input::read_input;
use crate::shell::list_sources::{ListSource, open_list};
use crate::shell::named_files::ListStore;
use crate::shell::near_store::NearStore;
use crate::shell::reports::{NotedStream, Report};
use mp4_answers::commands::sum::sum_bytes;
use mp4_answers::digests::DIGEST;
use mp4_answers::text::difference_lines::say_number;
use mp4_boxes::Refusal;
use mp4_store::{BufferedStore, FileStore, LaidStore, MemStore, Store, StoreFailed};
use std::alloc::{AllocError, Global};
use std::fs::File;
use std::io::{ErrorKind, Read};
use std::os::unix::fs::FileTypeExt;
use std::{fs, io};

/// The most bytes that are read of standard input, or of a list.
const MOST_INPUT: usize = 1 << 30;

/// The cause where there are more.
const TOO_LONG_INPUT: &str = "it has more than 1073741824 bytes, the most that are held in memory";

/// What is read: a file, of which nothing is known, by whatever it has or by the headers of its
/// boxes, or the bytes of standard input. As a store it is honest where it is standard input: all
/// reads are of the bytes that were read.
#[derive(Drop)]
pub(crate) enum Source<'a> {
    File(BufferedStore<FileStore<File>>, Watched),
    Headers(NearStore<FileStore<File>>, Watched),
    Input(Vec<u8>),
    List(ListSource<'a>),
}

/// What is read, with boxes that are free space laid over it, where that is asked for.
pub(crate) type LaidSource<'a> = LaidStore<Source<'a>>;

// Opens a regular file or a block device. Whatever else there is can't be read by place, or its
// length isn't known; its kind is looked at first, since opening a pipe would wait for whoever
// writes it.
fn open_file(rt: &HostRuntime, name: &str) -> io::Result<(FileStore<File>, Watched)> {
    let metadata = fs::metadata(rt, name)?;
    if metadata.is_dir() {
        return Err(ErrorKind::IsADirectory.into());
    }
    if !metadata.is_file() && !metadata.file_type().is_block_device() {
        return Err(ErrorKind::Unsupported.into());
    }
    let file = File::open(rt, name)?;
    let watched = Watched::new(&file)?;
    let store = FileStore::new(file)?;
    Ok((store, watched))
}

/// Reads all that a reader gives, and keeps the cause where that fails.
pub(crate) fn read_whole<R: Read>(
    alloc: Global,
    out: &mut R,
    report: &mut Report,
) -> Result<Vec<u8>, Refusal> {
    let answer = read_input(alloc, &mut NotedStream { out, report }, MOST_INPUT);
    match answer {
        Err(Refusal::StoreFailed) if !report.has_cause() => {
            Err(report.failure(TOO_LONG_INPUT, Refusal::StoreFailed))
        }
        answer => answer,
    }
}

/// Opens what is to be read. Standard input is read to its end.
pub(crate) fn open<'a>(
    rt: &'a HostRuntime,
    input: Input,
    report: &mut Report,
) -> Result<Source<'a>, Refusal> {
    match input {
        Input::Standard => {
            let mut reader = rt.reader();
            let bytes = read_whole(rt.alloc(), &mut reader, report)?;
            Ok(Source::Input(bytes))
        }
        Input::File { name } => {
            let (store, watched) = report.outcome(open_file(rt, name), Refusal::StoreFailed)?;
            Ok(Source::File(BufferedStore::new(rt.alloc(), store)?, watched))
        }
        Input::List { word, most } => {
            let list = word.strip_prefix('@').unwrap_or(word);
            Ok(Source::List(open_list(rt, list, most, report)?))
        }
    }
}

/// Opens what is to be read by the headers of its boxes, and copied.
pub(crate) fn open_by_headers<'a>(
    rt: &'a HostRuntime,
    input: Input,
    report: &mut Report,
) -> Result<Source<'a>, Refusal> {
    let Input::File { name } = input else {
        return open(rt, input, report);
    };
    let (store, watched) = report.outcome(open_file(rt, name), Refusal::StoreFailed)?;
    Ok(Source::Headers(NearStore::new(rt.alloc(), store)?, watched))
}

// Opens a file once more, and looks whether it is still the same.
fn open_again(
    rt: &HostRuntime,
    name: &str,
    watched: &Watched,
    report: &mut Report,
) -> Result<FileStore<File>, Refusal> {
    let (store, now) = report.outcome(open_file(rt, name), Refusal::StoreFailed)?;
    if !now.is_same(watched) {
        return Err(Refusal::StoreChanged);
    }
    Ok(store)
}

/// The SHA-256 of the bytes of a source, whatever is laid over it. It is read once more for that:
/// a file is opened by its name, and so are those of a list.
pub(crate) fn sum_of_source(
    rt: &HostRuntime,
    input: Input,
    source: &Source,
    report: &mut Report,
) -> Result<[u8; DIGEST], Refusal> {
    let alloc = rt.alloc();
    let digest = match source {
        Source::File(_, watched) | Source::Headers(_, watched) => {
            sum_bytes(alloc, &mut open_again(rt, input.name(), watched, report)?)
        }
        Source::Input(bytes) => sum_bytes(alloc, &mut MemStore::new(bytes.as_slice())),
        Source::List(list) => sum_bytes(alloc, &mut list.again()?),
    };
    settled(source, digest)
}

impl<'a> Source<'a> {
    /// Goes over the headers of the file's own boxes where it is of several parts: each part has to
    /// end with a box.
    pub(crate) fn check_parts(&mut self) -> Result<(), Refusal> {
        match self {
            Source::List(list) => list.check_parts(),
            _ => Ok(()),
        }
    }

    /// The file of a list that could not be read last, where the source is one.
    pub(crate) fn trouble(&self) -> Option<&str> {
        match self {
            Source::List(list) => list.trouble(),
            _ => None,
        }
    }

    /// The line that says in which part a place lies, where there are several.
    pub(crate) fn part_text(&self, alloc: Global, at: u64) -> Result<Option<Vec<u8>>, AllocError> {
        let Source::List(list) = self else {
            return Ok(None);
        };
        let Some((name, offset)) = list.part_at(at) else {
            return Ok(None);
        };
        let mut text = Vec::new(alloc);
        text.extend_from_slice(b"part: ")?;
        push_shown(&mut text, name)?;
        text.extend_from_slice(b" at ")?;
        say_number(&mut text, offset)?;
        text.extend_from_slice(b"\n")?;
        Ok(Some(text))
    }
}

impl<'a> Store for Source<'a> {
    ghost use Rattle.mp4norm.specs.words.Sources.{honest_of, file_of, failures_of};

    ghost is_honest = { honest_of ⟦<BufferedStore<FileStore<File>> as Store>⟧
        ⟦<NearStore<FileStore<File>> as Store>⟧
        ⟦<NearStore<BufferedStore<ListStore<'a>>> as Store>⟧ };

    ghost file = { file_of ⟦<BufferedStore<FileStore<File>> as Store>⟧
        ⟦<NearStore<FileStore<File>> as Store>⟧
        ⟦<NearStore<BufferedStore<ListStore<'a>>> as Store>⟧ };

    ghost read_failures = { failures_of ⟦<BufferedStore<FileStore<File>> as Store>⟧
        ⟦<NearStore<FileStore<File>> as Store>⟧
        ⟦<NearStore<BufferedStore<ListStore<'a>>> as Store>⟧ };

    fn len(&self) -> u64 {
        match self {
            Source::File(store, _) => store.len(),
            Source::Headers(store, _) => store.len(),
            Source::Input(bytes) => bytes.len() as u64,
            Source::List(list) => list.store.len(),
        }
    }

    fn read_at(&mut self, at: u64, out: &mut [u8]) -> Result<(), StoreFailed> {
        match self {
            Source::File(store, _) => store.read_at(at, out),
            Source::Headers(store, _) => store.read_at(at, out),
            Source::Input(bytes) => MemStore::new(bytes.as_slice()).read_at(at, out),
            Source::List(list) => list.store.read_at(at, out),
        }
    }
}

impl<'a> KeptStore for Source<'a> {
    ghost use Rattle.mp4norm.specs.words.Sources.{may_change};

    ghost may_change = { may_change };

    // So far as a file's length and the times of its last change tell.
    fn stays(&self) -> Result<(), Refusal> {
        match self {
            Source::File(_, watched) => watched.stays(),
            Source::Headers(_, watched) => watched.stays(),
            Source::Input(_) => Ok(()),
            Source::List(list) => list.stays(),
        }
    }

    fn fails_by_change(&self) -> bool {
        matches!(self, Source::List(_))
    }
}

impl<S: KeptStore> KeptStore for LaidStore<S> {
    ghost may_change = { λ s. S.may_change s.0 };

    fn stays(&self) -> Result<(), Refusal> {
        self.below().stays()
    }

    fn fails_by_change(&self) -> bool {
        self.below().fails_by_change()
    }
}
