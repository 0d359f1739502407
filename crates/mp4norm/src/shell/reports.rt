//! What is said on standard error beside the answer: why a file could not be opened, read or
//! written, and how far a job has come.
use crate::shell::action::Telling;
use crate::shell::file_names::{is_text, shown};
use crate::shell::progress::Progress;
use crate::shell::sources::Source;
use mp4_boxes::Refusal;
use std::io;
use std::io::{ErrorKind, IsTerminal, Read, Write};

/// The causes where no file can be opened by a word, since it isn't text.
const NO_FILE: &str = "its name is not UTF-8; give the file as standard input (-)";

const NO_PART: &str = "its name is not UTF-8";

const NO_NEW: &str = "its name is not UTF-8; write to standard output (-)";

// What the system means by a kind of error.
fn text_of(kind: ErrorKind) -> &'static str {
    match kind {
        ErrorKind::NotFound => "there is no such file or directory",
        ErrorKind::AlreadyExists => "it is there already",
        ErrorKind::PermissionDenied => "there is no permission",
        ErrorKind::IsADirectory => "it is a directory",
        ErrorKind::NotADirectory => "what should be a directory is none",
        ErrorKind::StorageFull | ErrorKind::QuotaExceeded => "there is no room",
        ErrorKind::FileTooLarge => "it would be too long",
        ErrorKind::BrokenPipe => "whoever reads it has gone",
        ErrorKind::ReadOnlyFilesystem => "nothing can be written there",
        ErrorKind::Unsupported => "it is no regular file",
        ErrorKind::InvalidFilename => "the name is too long",
        ErrorKind::WouldBlock => "it would have to wait",
        _ => "an error of the system",
    }
}

// Why something failed: the system's error, this program's own reason, or that the answer is longer
// than it may be.
#[derive(Clone, Copy)]
enum Cause {
    System(ErrorKind),
    Said(&'static str),
    TooLong(u64),
}

/// What there is to say beside the answer: the cause of a failure, if the system gave one, and how
/// far the job has come.
#[derive(Drop)]
pub(crate) struct Report<'a> {
    telling: Telling,
    cause: Option<Cause>,
    // The file that the cause is about, where it is another than the one that was asked for.
    concern: Option<String>,
    progress: Option<Progress<'a>>,
    // Whether it was told of two files that samples are not as many.
    is_uneven: bool,
}

impl<'a> Report<'a> {
    /// No failure yet, and nothing done.
    pub(crate) fn new(telling: Telling) -> Report<'a> {
        Report {
            telling,
            cause: None,
            concern: None,
            progress: None,
            is_uneven: false,
        }
    }

    /// Begins to say how far the job has come, where that is asked for, with so many bytes to put.
    pub(crate) fn begin(&mut self, rt: &'a HostRuntime, total: u64) {
        if self.telling.progress {
            self.progress = Some(Progress::new(rt, total));
        }
    }

    /// So many bytes more were put.
    pub(crate) fn pass(&mut self, count: usize) {
        if let Some(progress) = &mut self.progress {
            progress.pass(count);
        }
    }

    /// A put failed, with this error of the system where it gave one.
    pub(crate) fn fails(&mut self, error: Option<ErrorKind>) {
        if let Some(kind) = error {
            self.cause = Some(Cause::System(kind));
        }
    }

    /// The job has come to its end; what is said behind it stands on a line of its own.
    pub(crate) fn end(&mut self) {
        if let Some(mut progress) = self.progress.take() {
            progress.end();
        }
    }

    /// What comes of a step that the system takes. Where it fails, its cause is kept; want of
    /// memory stays that.
    pub(crate) fn outcome<T>(
        &mut self,
        step: io::Result<T>,
        failed: Refusal,
    ) -> Result<T, Refusal> {
        match step {
            Ok(value) => Ok(value),
            Err(error) if error.kind() == ErrorKind::OutOfMemory => Err(Refusal::Memory),
            Err(error) => {
                self.cause = Some(Cause::System(error.kind()));
                Err(failed)
            }
        }
    }

    /// What fails from now on is about the file of this name.
    pub(crate) fn concerns(&mut self, rt: &HostRuntime, name: &str) -> Result<(), Refusal> {
        self.concern = Some(String::from_str(rt.alloc(), name)?);
        Ok(())
    }

    /// What fails from now on is about the file that was asked for.
    pub(crate) fn concerns_none(&mut self) {
        self.concern = None;
    }

    /// A read of this source failed: where that is a list, it is about one of its files.
    pub(crate) fn concerns_part(
        &mut self,
        rt: &HostRuntime,
        source: &Source,
    ) -> Result<(), Refusal> {
        match source.trouble() {
            Some(name) => self.concerns(rt, name),
            None => Ok(()),
        }
    }

    /// Whether a cause is known.
    pub(crate) fn has_cause(&self) -> bool {
        self.cause.is_some()
    }

    /// Whether it failed since there is no such file.
    pub(crate) fn lacks_file(&self) -> bool {
        matches!(self.cause, Some(Cause::System(ErrorKind::NotFound)))
    }

    /// Whether nothing is said of a failed write: whoever reads the answer has gone, and more words
    /// are not asked for.
    pub(crate) fn is_silent(&self) -> bool {
        let has_gone = matches!(self.cause, Some(Cause::System(ErrorKind::BrokenPipe)));
        has_gone && !self.telling.explain
    }

    /// A failure with a cause of its own.
    pub(crate) fn failure(&mut self, cause: &'static str, failed: Refusal) -> Refusal {
        self.cause = Some(Cause::Said(cause));
        failed
    }

    /// An answer would have more bytes than it may.
    pub(crate) fn too_long(&mut self, most: u64) {
        self.cause = Some(Cause::TooLong(most));
    }

    /// It was told of two files that samples are not as many.
    pub(crate) fn finds_uneven(&mut self) {
        self.is_uneven = true;
    }

    /// Whether that was told.
    pub(crate) fn is_uneven(&self) -> bool {
        self.is_uneven
    }

    /// Whether it is asked for to say how far the job has come.
    pub(crate) fn counts(&self) -> bool {
        self.telling.progress
    }

    /// Whether more words are asked for.
    pub(crate) fn explains(&self) -> bool {
        self.telling.explain
    }

    // Whether the cause of a failure is said.
    fn tells_causes(&self, rt: &HostRuntime) -> bool {
        tells_more(rt, self.telling)
    }

    /// Says which file can't be read, and why.
    pub(crate) fn tell_input(&self, rt: &HostRuntime, name: &str) {
        self.tell(rt, name, NO_FILE, "it can't be read");
    }

    /// Says which file can't be made or written, and why.
    pub(crate) fn tell_output(&self, rt: &HostRuntime, name: &str) {
        self.tell(rt, name, NO_NEW, "it can't be written");
    }

    /// Says that one of two files can't be read.
    pub(crate) fn tell_either(&self, rt: &HostRuntime, left: &str, right: &str) {
        if self.tells_causes(rt) {
            tell_name(rt, b"file: ", left);
            tell_name(rt, b"file: ", right);
            tell_name(rt, b"cause: ", "one of them can't be read");
        }
    }

    // Says which file there is trouble with, and why; `not_text` where it can't be opened by its
    // name, `else_cause` where the system gave no cause.
    fn tell(&self, rt: &HostRuntime, name: &str, not_text: &str, else_cause: &str) {
        if !self.tells_causes(rt) || self.is_silent() {
            return;
        }
        let (name, not_text) = match &self.concern {
            Some(concern) => (concern.as_str(), NO_PART),
            None => (name, not_text),
        };
        tell_name(rt, b"file: ", name);
        match self.cause {
            Some(Cause::TooLong(most)) => tell_too_long(rt, most),
            _ if !is_text(name) => tell_name(rt, b"cause: ", not_text),
            Some(Cause::System(kind)) => tell_name(rt, b"cause: ", text_of(kind)),
            Some(Cause::Said(cause)) => tell_name(rt, b"cause: ", cause),
            None => tell_name(rt, b"cause: ", else_cause),
        }
    }
}

/// Whether more is said than a line: where that is asked for, and on a terminal, unless few words
/// are.
pub(crate) fn tells_more(rt: &HostRuntime, telling: Telling) -> bool {
    telling.explain || (!telling.brief && rt.stderr().is_terminal())
}

// Says how many bytes an answer may have.
fn tell_too_long(rt: &HostRuntime, most: u64) {
    if let Ok(text) = format!(in rt.alloc(); "cause: more than {most} bytes\n") {
        let _ = rt.stderr().write_all(text.as_str().as_bytes());
    }
}

/// Says a name, or other words, on a line of standard error, behind this label.
pub(crate) fn tell_name(rt: &HostRuntime, label: &[u8], name: &str) {
    let mut errors = rt.stderr();
    if let Ok(text) = shown(rt.alloc(), name.as_bytes()) {
        let _ = errors.write_all(label);
        let _ = errors.write_all(text.as_slice());
        let _ = errors.write_all(b"\n");
    }
}

/// Says this of a file, behind its name, on a line of standard error.
pub(crate) fn tell_of(rt: &HostRuntime, name: &[u8], text: &[u8]) {
    let mut errors = rt.stderr();
    if let Ok(name) = shown(rt.alloc(), name) {
        let _ = errors.write_all(name.as_slice());
        let _ = errors.write_all(b": ");
    }
    let _ = errors.write_all(text);
    let _ = errors.write_all(b"\n");
}

/// A writer, with the error of its last call, if that failed.
#[derive(Drop)]
pub(crate) struct Heard<W> {
    pub(crate) out: W,
    pub(crate) error: Option<ErrorKind>,
}

impl<W: Write> Write for Heard<W> {
    // What the writer behind it holds, where that is known.
    ghost contents = { λ heard. W.contents heard.out };

    fn write(&mut self, piece: &[u8]) -> io::Result<usize> {
        let written = self.out.write(piece);
        self.error = match &written {
            Ok(_) => None,
            Err(error) => Some(error.kind()),
        };
        written
    }

    fn flush(&mut self) -> io::Result<()> {
        self.out.flush()
    }
}

/// A writer or a reader, and where the cause is kept if it fails.
#[derive(Drop)]
pub(crate) struct NotedStream<'a, 'r, W> {
    pub(crate) out: &'a mut W,
    pub(crate) report: &'a mut Report<'r>,
}

impl<'a, 'r, R: Read> Read for NotedStream<'a, 'r, R> {
    fn read(&mut self, piece: &mut [u8]) -> io::Result<usize> {
        let read = self.out.read(piece);
        if let Err(error) = &read {
            self.report.fails(Some(error.kind()));
        }
        read
    }
}

impl<'a, 'r, W: Write> Write for NotedStream<'a, 'r, W> {
    // What the writer behind it holds, where that is known.
    ghost contents = { λ noted. W.contents noted.out.now };

    fn write(&mut self, piece: &[u8]) -> io::Result<usize> {
        let written = self.out.write(piece);
        if let Err(error) = &written {
            self.report.fails(Some(error.kind()));
        }
        written
    }

    fn flush(&mut self) -> io::Result<()> {
        self.out.flush()
    }
}
