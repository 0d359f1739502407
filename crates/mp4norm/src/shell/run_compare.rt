//! Comparing, from the names of two files to what is printed.
use crate::running::{KeptStore, comparison_status, is_of_file};
use crate::shell::action::{ComparedInputs, Input, Telling};
use crate::shell::file_names::push_shown;
use crate::shell::foreign::{Opened, Told, lay_free};
use crate::shell::reports::{NotedStream, Report, tells_more};
use crate::shell::run_command::explain_refusal;
use crate::shell::sources::{LaidSource, Source, open};
use mp4_answers::commands::compare::{Asked, Failure, LineForm, Listing, Side, compare_files};
use mp4_answers::text::fault_text::fault_line;
use mp4_boxes::{Refusal, Steps};
use mp4_store::{IoSink, MemSink, MemStore};
use std::alloc::{AllocError, Global};
use std::io;
use std::io::Write;
use std::process::ExitCode;
use std::sync::ledger::Ledger;

const ALIGN_HINT: &[u8] = b"hint: --align says which samples one file has alone\n";

// What comes of a step over the file of this side.
fn on_side<R>(step: Result<R, Refusal>, side: Side) -> Result<R, Failure> {
    match step {
        Ok(result) => Ok(result),
        Err(refusal) => Err(Failure { side, refusal }),
    }
}

// Whether an answer says something of the files, and not of what failed.
fn is_settled(answer: &Result<bool, Failure>) -> bool {
    match answer {
        Ok(_) => true,
        Err(failure) => is_of_file(&failure.refusal),
    }
}

// Opens what is to be read, or says why it can't be.
fn open_side<'a>(
    rt: &'a HostRuntime,
    input: Input,
    telling: Telling,
    side: Side,
) -> Result<Source<'a>, Failure> {
    let mut report = Report::new(telling);
    let opened = open(rt, input, &mut report);
    if matches!(opened, Err(Refusal::StoreFailed)) {
        report.tell_input(rt, input.name());
    }
    on_side(opened, side)
}

// What is read of a side, and what is to be said of boxes that are read as free space.
fn as_asked<'a>(
    rt: &HostRuntime,
    asked: ComparedInputs,
    input: Input,
    source: Source<'a>,
) -> Opened<'a> {
    let told = Told {
        name: Some(input.name()),
        is_told: true,
        telling: asked.telling,
    };
    lay_free(rt.alloc(), told, asked.freeing, source)
}

// Says why reading or writing failed, once both files are open.
fn tell_cause(
    rt: &HostRuntime,
    asked: ComparedInputs,
    failure: &Failure,
    first: &LaidSource,
    second: &LaidSource,
    report: &Report,
) {
    let (left, right) = (asked.left.name(), asked.right.name());
    match (&failure.refusal, failure.side) {
        (Refusal::StoreFailed, Side::First) => {
            report.tell_input(rt, first.below().trouble().unwrap_or(left));
        }
        (Refusal::StoreFailed, Side::Second) => {
            report.tell_input(rt, second.below().trouble().unwrap_or(right));
        }
        (Refusal::StoreFailed, _) => report.tell_either(rt, left, right),
        (Refusal::WriteFailed, _) => report.tell_output(rt, "-"),
        _ => {}
    }
}

// The longest line that tells of one difference is shorter.
const LONGEST: usize = 1_024;

// Whether a line tells that two tracks have not as many samples.
fn tells_counts(line: &[u8]) -> bool {
    if line.len() > LONGEST {
        return false;
    }
    for at in 0..line.len() {
        if line[at..].starts_with(b": samples ") {
            return true;
        }
    }
    false
}

// A writer of what a comparison tells. It is noted where that is a number of samples.
#[derive(Drop)]
struct ToldStream<'a, 'r, W> {
    out: NotedStream<'a, 'r, W>,
}

impl<'a, 'r, W: Write> Write for ToldStream<'a, 'r, W> {
    // What the writer behind it holds, where that is known.
    ghost contents = { λ told. W.contents told.out.out.now };

    fn write(&mut self, piece: &[u8]) -> io::Result<usize> {
        if tells_counts(piece) {
            self.out.report.finds_uneven();
        }
        self.out.write(piece)
    }

    fn flush(&mut self) -> io::Result<()> {
        self.out.flush()
    }
}

// Judges the first file where the second can't be compared: as beside a file of no bytes, which is
// refused behind it.
fn judge_first<L: Ledger, M: Ledger>(
    alloc: Global,
    looks: Asked,
    first: &mut LaidSource,
    steps: &mut Steps<L, M>,
) -> Result<(), Failure> {
    let nothing = &mut MemStore::new(&[]);
    let sink = &mut MemSink::new(alloc);
    match compare_files(alloc, first, nothing, looks, sink, steps) {
        Err(failure) if matches!(failure.side, Side::First) => Err(failure),
        _ => Ok(()),
    }
}

// Compares two opened files.
fn compared<L: Ledger, M: Ledger>(
    rt: &HostRuntime,
    asked: ComparedInputs,
    first: &mut Opened,
    second: &mut Opened,
    report: &mut Report,
    steps: &mut Steps<L, M>,
) -> Result<bool, Failure> {
    on_side(first.readable(rt), Side::First)?;
    let looks = Asked {
        first: asked.first,
        second: asked.second,
        leaving: asked.leaving,
        listing: asked.listing,
    };
    if !second.is_readable() {
        judge_first(rt.alloc(), looks, &mut first.source, steps)?;
    }
    on_side(second.readable(rt), Side::Second)?;
    let out = &mut rt.stdout();
    let mut sink = IoSink::new(ToldStream {
        out: NotedStream { out, report },
    });
    let (left, right) = (&mut first.source, &mut second.source);
    compare_files(rt.alloc(), left, right, looks, &mut sink, steps)
}

// Compares two opened files. Then it looks whether either has changed meanwhile.
fn answer_of<L: Ledger, M: Ledger>(
    rt: &HostRuntime,
    asked: ComparedInputs,
    first: &mut Opened,
    second: &mut Opened,
    report: &mut Report,
    steps: &mut Steps<L, M>,
) -> Result<bool, Failure> {
    let answer = compared(rt, asked, first, second, report, steps);
    if is_settled(&answer) {
        on_side(first.source.stays(), Side::First)?;
        on_side(second.source.stays(), Side::Second)?;
    }
    if answer.is_ok() {
        first.tell(rt);
        second.tell(rt);
    }
    answer
}

// Names the option that says which samples one file has alone, where the one difference that is
// told is that they are not as many.
fn hint(rt: &HostRuntime, asked: ComparedInputs, answer: &Result<bool, Failure>, report: &Report) {
    let is_line = matches!(
        asked.listing,
        Listing::First(LineForm::Text | LineForm::Timed)
    );
    let differ = matches!(answer, Ok(false));
    if is_line && differ && report.is_uneven() && tells_more(rt, asked.telling) {
        let _ = rt.stderr().write_all(ALIGN_HINT);
    }
}

// Opens both, and compares them. What is wrong is explained where that is asked for.
fn answer<L: Ledger, M: Ledger>(
    rt: &HostRuntime,
    asked: ComparedInputs,
    report: &mut Report,
    steps: &mut Steps<L, M>,
) -> Result<bool, Failure> {
    let (left, right, telling) = (asked.left, asked.right, asked.telling);
    let first = open_side(rt, left, telling, Side::First)?;
    let second = open_side(rt, right, telling, Side::Second)?;
    let mut first = as_asked(rt, asked, left, first);
    // Where the first is refused, nothing is looked for in the second.
    let mut second = if first.is_readable() {
        as_asked(rt, asked, right, second)
    } else {
        Opened::plain(rt.alloc(), second)
    };
    let answer = answer_of(rt, asked, &mut first, &mut second, report, steps);
    hint(rt, asked, &answer, report);
    if let Err(failure) = &answer {
        let refusal = &failure.refusal;
        tell_cause(rt, asked, failure, &first.source, &second.source, report);
        if matches!(failure.side, Side::First) {
            let name = Some(left.name());
            explain_refusal(rt, name, refusal, telling, first.source, steps);
        } else {
            let name = Some(right.name());
            explain_refusal(rt, name, refusal, telling, second.source, steps);
        }
    }
    answer
}

// The names of the files that a failure is about, as people are shown them; both where it is about
// neither.
fn names_of(alloc: Global, left: Input, right: Input, side: Side) -> Result<Vec<u8>, AllocError> {
    let mut text = Vec::new(alloc);
    if !matches!(side, Side::Second) {
        push_shown(&mut text, left.name().as_bytes())?;
    }
    if matches!(side, Side::Both | Side::Neither) {
        text.extend_from_slice(b", ")?;
    }
    if !matches!(side, Side::First) {
        push_shown(&mut text, right.name().as_bytes())?;
    }
    text.extend_from_slice(b": ")?;
    Ok(text)
}

// Says why there is no answer, behind the names of the files that it is about; nothing where
// whoever reads the answer has gone.
fn tell(rt: &HostRuntime, left: Input, right: Input, failure: Failure, report: &Report) {
    if report.is_silent() && matches!(failure.refusal, Refusal::WriteFailed) {
        return;
    }
    let mut errors = rt.stderr();
    if let Ok(names) = names_of(rt.alloc(), left, right, failure.side) {
        let _ = errors.write_all(names.as_slice());
    }
    let _ = errors.write_all(fault_line(&failure.refusal).as_bytes());
    let _ = errors.write_all(b"\n");
}

/// Compares two files, prints where they differ, and gives the status.
pub(crate) fn compare_named<L: Ledger, M: Ledger>(
    rt: &HostRuntime,
    asked: ComparedInputs,
    steps: &mut Steps<L, M>,
) -> ExitCode {
    let mut report = Report::new(asked.telling);
    let answer = answer(rt, asked, &mut report, steps);
    let status = comparison_status(&answer);
    if let Err(failure) = answer {
        tell(rt, asked.left, asked.right, failure, &report);
    }
    ExitCode::from(status)
}
