//! Whether a file is as it was when it was opened.
ghost use Rattle.std.specs.Prelude.{true, IfErr};
ghost use Rattle.mp4norm.specs.format.Runs.{HasChanged};

use mp4_boxes::Refusal;
use std::fs::{File, Metadata};
use std::io;
use std::os::unix::fs::MetadataExt;

/// What the system tells of a file: which it is, its length, when it was last written to, and when
/// that or its rights were last changed, in seconds and nanoseconds.
#[derive(Clone, Copy, PartialEq)]
pub(crate) struct State {
    device: u64,
    inode: u64,
    pub(crate) len: u64,
    modified: (i64, i64),
    changed: (i64, i64),
}

impl State {
    /// What was told.
    pub(crate) fn of(metadata: &Metadata) -> State {
        State {
            device: metadata.dev(),
            inode: metadata.ino(),
            len: metadata.len(),
            modified: (metadata.mtime(), metadata.mtime_nsec()),
            changed: (metadata.ctime(), metadata.ctime_nsec()),
        }
    }
}

/// What is told of an open file.
pub(crate) fn state_of(file: &File) -> io::Result<State> {
    Ok(State::of(&file.metadata()?))
}

/// A file, and how it was when it was opened.
#[derive(Drop)]
pub(crate) struct Watched {
    file: File,
    first: State,
}

impl Watched {
    /// Looks at a file, by a handle of its own.
    pub(crate) fn new(file: &File) -> io::Result<Watched> {
        let file = file.try_clone()?;
        let first = state_of(&file)?;
        Ok(Watched { file, first })
    }

    /// Whether another is the same file, and was as it was.
    pub(crate) fn is_same(&self, other: &Watched) -> bool {
        self.first == other.first
    }

    /// Whether the file has the length that it had, and was not written to. A change of the same
    /// length is not seen where it has the time of the change before it: times are of a clock that
    /// moves on some hundred times a second.
    pub(crate) fn stays(&self) -> Result<(), Refusal>
        ensures { IfErr result (HasChanged true) }
    {
        match state_of(&self.file) {
            Ok(state) if state == self.first => Ok(()),
            Ok(_) => Err(Refusal::StoreChanged),
            Err(_) => Err(Refusal::StoreFailed),
        }
    }
}
