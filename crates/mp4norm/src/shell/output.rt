//! Where the answer goes.

ghost use Rattle.std.specs.Prelude.{true};
ghost use Rattle.mp4norm.specs.format.Runs.{RefusesOutlet};

use crate::running::Outlet;
use crate::shell::action::Target;
use crate::shell::part_files::{PartFile, put_in_place, replaced};
use crate::shell::reports::{Heard, Report};
use mp4_boxes::Refusal;
use mp4_store::{IoSink, Sink, WriteFailed};
use std::fs::File;
use std::io;
use std::io::{Stdout, Write};

/// Standard output, a file that was made, or one that takes the place of another once it is whole.
#[derive(Drop)]
pub(crate) enum Out {
    Standard(Stdout),
    File(File),
    PartFile(PartFile),
}

impl Write for Out {
    fn write(&mut self, piece: &[u8]) -> io::Result<usize> {
        match self {
            Out::Standard(output) => output.write(piece),
            Out::File(file) => file.write(piece),
            Out::PartFile(part) => part.file.write(piece),
        }
    }

    fn flush(&mut self) -> io::Result<()> {
        Ok(())
    }
}

/// How far what is written has come: its opening is due, it is open, it was closed with the whole
/// answer in it, or it was given up.
#[derive(Clone, Copy, Debug, PartialEq, Eq)]
enum Stage {
    Due,
    Open,
    Closed,
    GivenUp,
}

/// What the command names, which is opened only once it is known that the answer isn't too long.
#[derive(Drop)]
pub(crate) struct Outgoing<'a, 'r, W: Write> {
    rt: &'a HostRuntime,
    target: Target<'a>,
    report: &'r mut Report<'a>,
    // Where it is open.
    sink: Option<IoSink<Heard<W>>>,
    failed: u64,
    stage: Stage,
}

impl<'a, 'r> Outgoing<'a, 'r, Out> {
    /// Not opened yet.
    pub(crate) fn new(
        rt: &'a HostRuntime,
        target: Target<'a>,
        report: &'r mut Report<'a>,
    ) -> Outgoing<'a, 'r, Out> {
        Outgoing {
            rt,
            target,
            report,
            sink: None,
            failed: 0,
            stage: Stage::Due,
        }
    }
}

// Makes what is to be written.
fn make_out(rt: &HostRuntime, target: Target, report: &mut Report) -> Result<Out, Refusal> {
    match target {
        Target::Standard => Ok(Out::Standard(rt.stdout())),
        Target::New { name } => {
            let made = File::create_new(rt, name);
            Ok(Out::File(report.outcome(made, Refusal::WriteFailed)?))
        }
        Target::Replaced { name } => {
            report.outcome(replaced(rt, name), Refusal::WriteFailed)?;
            Ok(Out::PartFile(PartFile::new(rt, name, report)?))
        }
    }
}

// The file that is to take the place of another, where that is open.
fn part_of(sink: &Option<IoSink<Heard<Out>>>) -> Option<&PartFile> {
    match sink {
        Some(sink) => match &sink.get_ref().out {
            Out::PartFile(part) => Some(part),
            _ => None,
        },
        None => None,
    }
}

// Want of memory stays that; whatever else went wrong, the answer can't be written.
fn of_outlet(refusal: Refusal) -> Refusal
    ensures { RefusesOutlet true result }
{
    match refusal {
        Refusal::Memory => Refusal::Memory,
        _ => Refusal::WriteFailed,
    }
}

impl<'a, 'r, W: Write> Sink for Outgoing<'a, 'r, W> {
    ghost use Rattle.mp4norm.specs.words.Outgoing.{TakesOn, TakesOn-nil, TakesOn-trans};

    ghost takes = { λ s t. TakesOn W.contents s.sink t.sink };

    ghost put_failures = { λ s. s.failed };

    fn put(&mut self, piece: &[u8]) -> Result<(), WriteFailed> {
        let put = match &mut self.sink {
            Some(sink) => sink.put(piece),
            None => Err(WriteFailed),
        };
        if put.is_ok() {
            self.report.pass(piece.len());
            return put;
        }
        self.failed = self.failed.saturating_add(1);
        if let Some(sink) = &self.sink {
            self.report.fails(sink.get_ref().error);
        }
        put
    }

    ghost takes_nothing = { λ s. TakesOn-nil _ s.sink };

    ghost takes_on = { λ s t u xs ys. TakesOn-trans _ s.sink t.sink u.sink xs ys };
}

impl<'a, 'r> Outlet for Outgoing<'a, 'r, Out> {
    ghost use Rattle.std.specs.Prelude.{true};
    ghost use Rattle.mp4norm.specs.words.Outgoing.{stands_closed, stands_open};

    ghost may_fail = { λ s. true };

    ghost is_open = { λ s. stands_open s.stage };

    ghost is_closed = { λ s. stands_closed s.stage };

    fn asks_length(&self) -> bool {
        self.report.counts()
    }

    fn open(&mut self, len: Option<u64>) -> Result<(), Refusal> {
        if let Some(len) = len {
            self.report.begin(self.rt, len);
        }
        self.stage = Stage::Due;
        let out = make_out(self.rt, self.target, self.report).map_err(of_outlet)?;
        self.sink = Some(IoSink::new(Heard { out, error: None }));
        self.stage = Stage::Open;
        Ok(())
    }

    fn note_length(&mut self, most: u64) {
        self.report.too_long(most);
    }

    fn close(&mut self) -> Result<(), Refusal> {
        self.stage = Stage::GivenUp;
        if let (Some(part), Target::Replaced { name }) = (part_of(&self.sink), self.target)
            && let Err(refusal) = put_in_place(self.rt, part, name, self.report)
        {
            part.take_away(self.rt);
            return Err(of_outlet(refusal));
        }
        self.stage = Stage::Closed;
        Ok(())
    }

    fn give_up(&mut self) {
        self.stage = Stage::GivenUp;
        if let Some(part) = part_of(&self.sink) {
            part.take_away(self.rt);
        }
    }
}
