//! Calls of a writer, each of which may fail.
ghost use Rattle.std.specs.Prelude.{◌≡◌, ◌<◌, ◌≤◌, [], length, take, true, None, unwrap_or, OnErr, IfOk, IfSome};
ghost use Rattle.std.specs.Io.KnownBytes.{Appends};
ghost use Rattle.mp4_store.specs.words.Device.{Counts};

use crate::sink::WriteFailed;
use std::io::{ErrorKind, Write};

/// A writer, and how many of its calls failed or took no byte; this stays at 2^64 - 1.
#[derive(Drop)]
pub(crate) struct Calls<W: Write> {
    writer: W,
    failed: u64,
}

impl<W: Write> Calls<W> {
    /// No call is made yet.
    pub(crate) fn new(writer: W) -> Calls<W>
        ensures { result ≡ record { writer = writer; failed = 0 } }
    {
        Calls { writer, failed: 0 }
    }

    /// The writer.
    pub(crate) fn writer(&self) -> &W
        ensures { result.now ≡ self.now.writer }
    {
        &self.writer
    }

    /// One call: how many of the first bytes were taken; or `None` where it was interrupted, and
    /// may be made again.
    pub(crate) fn call(
        &mut self,
        piece: &[u8],
        may_again: bool,
    ) -> Result<Option<usize>, WriteFailed>
        requires { 0 < length piece.now }
        ensures some { IfOk result (λ taken. IfSome taken (λ n. (0 < n) × (n ≤ length piece.now))) }
        ensures again { IfOk result (λ taken. taken ≡ None → may_again ≡ true) }
        ensures bytes { IfOk result (λ taken. Appends (W.contents self.old.writer)
            (W.contents self.new.writer) (take (unwrap_or taken 0) piece.now)) }
        ensures nothing { OnErr result (Appends (W.contents self.old.writer)
            (W.contents self.new.writer) []) }
        ensures cause { Counts self.old.failed self.new.failed result }
    {
        match self.writer.write(piece) {
            Ok(n) if n > 0 => Ok(Some(n)),
            Err(error) if may_again && error.kind() == ErrorKind::Interrupted => Ok(None),
            _ => {
                self.failed = self.failed.saturating_add(1);
                Err(WriteFailed)
            }
        }
    }
}
