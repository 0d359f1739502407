//! Many files, judged or summed one after the other.
use crate::judging::{Judge, judge_all};
use crate::running::{FoundSum, find, is_of_file, settled};
use crate::shell::action::{Finding, Freeing, Input, Telling};
use crate::shell::file_names::{push_shown, shown, word_of};
use crate::shell::foreign::{Opened, Told, lay_free};
use crate::shell::gathered::GatheredLines;
use crate::shell::reports::{NotedStream, Report, tell_of};
use crate::shell::run_command::explain_refusal;
use crate::shell::sources::{open, read_whole, sum_of_source};
use crate::shell::track_sums::header_of;
use mp4_answers::digests::DIGEST;
use mp4_answers::jobs::{Syntax, VerdictStyle};
use mp4_answers::text::fault_text::fault_line;
use mp4_answers::text::json_text::name_json;
use mp4_answers::text::plain_names::push_plain;
use mp4_answers::text::sum_lines::{SumOf, bytes_header, sum_line, sum_object};
use mp4_answers::text::verdicts::put_verdict;
use mp4_boxes::{Refusal, Steps};
use mp4_store::{IoSink, Sink};
use std::alloc::{AllocError, Global};
use std::fs::File;
use std::io::IsTerminal;
use std::sync::ledger::Ledger;

// What is named by a word, or by a name of a list: and whether it is a file, and neither standard
// input nor a list.
#[derive(Clone, Copy)]
struct GivenName<'a> {
    name: &'a [u8],
    is_file: bool,
}

/// How files are judged: what is found of each, how it is written, which boxes are read as free
/// space, what is said beside that, and whether the file is named there.
#[derive(Clone, Copy)]
pub(crate) struct Manner {
    finding: Finding,
    style: VerdictStyle,
    freeing: Freeing,
    telling: Telling,
    is_named: bool,
}

impl Manner {
    /// Of these files and this list.
    pub(crate) fn of(
        files: &[Input],
        list: Option<Input>,
        finding: Finding,
        style: VerdictStyle,
        freeing: Freeing,
        telling: Telling,
    ) -> Manner {
        let is_named = files.len() != 1 || list.is_some();
        Manner {
            finding,
            style,
            freeing,
            telling,
            is_named,
        }
    }

    // Whether what is found is of the bytes of a file, whatever they say.
    fn is_of_bytes(&self) -> bool {
        matches!(
            self.finding,
            Finding::Sum {
                what: SumOf::Bytes,
                ..
            }
        )
    }

    // Whether the bytes of a file are summed that has no sum for this reason.
    fn sums_bytes(&self, refusal: &Refusal) -> bool {
        matches!(self.finding, Finding::Sum { bytes: true, .. }) && is_of_file(refusal)
    }
}

/// What was found of a file; the sum of its bytes, where it is refused and that is asked for; and
/// whether it isn't there.
#[derive(Drop)]
pub(crate) struct JudgedFile {
    pub(crate) found: FoundSum,
    bytes: Option<[u8; DIGEST]>,
    is_missing: bool,
}

impl JudgedFile {
    // Of a file of which no more is asked for.
    fn of(found: FoundSum) -> JudgedFile {
        JudgedFile {
            found,
            bytes: None,
            is_missing: false,
        }
    }
}

// Judges what is read, and explains a fault where that is asked for. What is refused is read once
// more where the sum of its bytes is asked for.
fn judged<L: Ledger, M: Ledger>(
    rt: &HostRuntime,
    input: Input,
    manner: Manner,
    report: &mut Report,
    steps: &mut Steps<L, M>,
) -> Result<JudgedFile, Refusal> {
    let source = open(rt, input, report)?;
    let told = Told {
        name: manner.is_named.then_some(input.name()),
        is_told: manner.telling.explain,
        telling: manner.telling,
    };
    let mut opened = if manner.is_of_bytes() {
        Opened::plain(rt.alloc(), source)
    } else {
        lay_free(rt.alloc(), told, manner.freeing, source)
    };
    let answer = match opened.readable(rt) {
        Ok(()) => find(rt.alloc(), manner.finding, &mut opened.source, steps),
        Err(refusal) => Err(refusal),
    };
    let answer = settled(&opened.source, answer);
    let Err(refusal) = &answer else {
        opened.tell(rt);
        return Ok(JudgedFile::of(answer));
    };
    let bytes = if manner.sums_bytes(refusal) {
        Some(sum_of_source(rt, input, opened.source.below(), report)?)
    } else {
        None
    };
    if matches!(refusal, Refusal::StoreFailed) {
        report.concerns_part(rt, opened.source.below())?;
    }
    explain_refusal(rt, told.name, refusal, manner.telling, opened.source, steps);
    Ok(JudgedFile {
        bytes,
        ..JudgedFile::of(answer)
    })
}

/// Judges what is read, and says why it can't be read.
pub(crate) fn answer_of<L: Ledger, M: Ledger>(
    rt: &HostRuntime,
    input: Input,
    manner: Manner,
    steps: &mut Steps<L, M>,
) -> JudgedFile {
    let mut report = Report::new(manner.telling);
    let mut answer = match judged(rt, input, manner, &mut report, steps) {
        Ok(answer) => answer,
        Err(refusal) => JudgedFile::of(Err(refusal)),
    };
    if matches!(answer.found, Err(Refusal::StoreFailed)) {
        answer.is_missing = report.lacks_file();
        report.tell_input(rt, input.name());
    }
    answer
}

// Judges a file of a list.
fn answer_of_listed<L: Ledger, M: Ledger>(
    rt: &HostRuntime,
    name: &[u8],
    manner: Manner,
    steps: &mut Steps<L, M>,
) -> JudgedFile {
    let word = match word_of(rt.alloc(), name) {
        Ok(word) => word,
        Err(failed) => return JudgedFile::of(Err(Refusal::from(failed))),
    };
    let name = word.as_str();
    answer_of(rt, Input::File { name }, manner, steps)
}

/// Reads a list whole. It may come through a pipe.
pub(crate) fn read_list(
    rt: &HostRuntime,
    list: Option<Input>,
    report: &mut Report,
) -> Result<Vec<u8>, Refusal> {
    match list {
        None => Ok(Vec::new(rt.alloc())),
        Some(Input::Standard) => read_whole(rt.alloc(), &mut rt.reader(), report),
        Some(Input::File { name } | Input::List { word: name, .. }) => {
            let mut file = report.outcome(File::open(rt, name), Refusal::StoreFailed)?;
            read_whole(rt.alloc(), &mut file, report)
        }
    }
}

/// Reads a list of names whole, and says why it can't be read.
pub(crate) fn read_names(
    rt: &HostRuntime,
    list: Option<Input>,
    report: &mut Report,
) -> Result<Vec<u8>, Refusal> {
    match (read_list(rt, list, report), list) {
        (Ok(names), _) => Ok(names),
        (Err(refusal), Some(list)) if matches!(refusal, Refusal::StoreFailed) => {
            report.tell_input(rt, list.name());
            Err(refusal)
        }
        (Err(refusal), _) => Err(refusal),
    }
}

// A name as it stands in a verdict: as a string of JSON, as it is where a zero byte ends it, else
// as people are shown it.
fn named(alloc: Global, name: &[u8], style: VerdictStyle) -> Result<Vec<u8>, AllocError> {
    if matches!(style.syntax, Syntax::Json) {
        return name_json(alloc, name);
    }
    if style.end != 0 {
        return shown(alloc, name);
    }
    let mut plain = Vec::new(alloc);
    push_plain(&mut plain, name)?;
    Ok(plain)
}

// Puts the verdict on a file of this name.
fn put_answer<K: Sink>(
    alloc: Global,
    name: &[u8],
    answer: &Result<(), Refusal>,
    style: VerdictStyle,
    lines: &mut GatheredLines<K>,
) -> Result<(), Refusal> {
    let name = named(alloc, name, style)?;
    put_verdict(alloc, name.as_slice(), answer, style, lines.sink()?)
}

// Puts the object of a file of this name that isn't there.
fn put_missing<K: Sink>(
    alloc: Global,
    name: &[u8],
    end: u8,
    lines: &mut GatheredLines<K>,
) -> Result<(), Refusal> {
    let mut line = Vec::new(alloc);
    line.extend_from_slice(b"{\"failed\":\"store\",\"file\":")?;
    line.extend_from_slice(name_json(alloc, name)?.as_slice())?;
    line.extend_from_slice(b",\"missing\":true,\"status\":3}")?;
    line.push(end)?;
    lines.sink()?.put(line.as_slice())?;
    Ok(())
}

/// The name of a file in a line of its sum. Where it would name standard input or a list there, it
/// stands behind `./`.
pub(crate) fn name_in_list(
    alloc: Global,
    name: &[u8],
    is_file: bool,
) -> Result<Vec<u8>, AllocError> {
    let mut text = Vec::new(alloc);
    if is_file && (name == b"-".as_slice() || name.starts_with(b"@")) {
        text.extend_from_slice(b"./")?;
    }
    text.extend_from_slice(name)?;
    Ok(text)
}

// The line of a sum; on a terminal with the name as people are shown it.
fn line_of_sum(
    rt: &HostRuntime,
    named: GivenName,
    digest: &[u8; DIGEST],
    end: u8,
) -> Result<Vec<u8>, AllocError> {
    let name = name_in_list(rt.alloc(), named.name, named.is_file)?;
    if end == 0 || !rt.stdout().is_terminal() {
        return sum_line(rt.alloc(), name.as_slice(), digest, end);
    }
    // The digits and the spaces behind them.
    let mut line = sum_line(rt.alloc(), &[], digest, 0)?;
    line.pop();
    push_shown(&mut line, name.as_slice())?;
    line.push(end)?;
    Ok(line)
}

// Puts the sum of a file of this name.
fn put_sum<K: Sink>(
    rt: &HostRuntime,
    named: GivenName,
    digest: &[u8; DIGEST],
    style: VerdictStyle,
    lines: &mut GatheredLines<K>,
) -> Result<(), Refusal> {
    let line = match style.syntax {
        Syntax::Text => line_of_sum(rt, named, digest, style.end)?,
        Syntax::Json => sum_object(rt.alloc(), named.name, digest, style.end)?,
    };
    lines.add(line.as_slice())
}

// Puts what was found of a file of this name. A file that has no sum is told of on standard error,
// but in JSON.
fn put_named<K: Sink>(
    rt: &HostRuntime,
    named: GivenName,
    answer: &JudgedFile,
    manner: Manner,
    lines: &mut GatheredLines<K>,
) -> Result<(), Refusal> {
    let (alloc, style, name) = (rt.alloc(), manner.style, named.name);
    match (&answer.found, manner.finding) {
        (Ok(Some(digest)), _) => put_sum(rt, named, digest, style, lines),
        (Ok(None), _) => put_answer(alloc, name, &Ok(()), style, lines),
        (Err(_), _) if answer.is_missing && matches!(style.syntax, Syntax::Json) => {
            put_missing(alloc, name, style.end, lines)
        }
        (Err(refusal), Finding::Sum { .. }) if matches!(style.syntax, Syntax::Text) => {
            lines.flush()?;
            tell_of(rt, name, fault_line(refusal).as_bytes());
            Ok(())
        }
        (Err(refusal), _) => put_answer(alloc, name, &Err(*refusal), style, lines),
    }
}

// Adds the line of the sum of the bytes of a file, if there is one.
fn hold_bytes(
    rt: &HostRuntime,
    named: GivenName,
    answer: &JudgedFile,
    end: u8,
    held: &mut Vec<u8>,
) -> Result<(), AllocError> {
    let Some(digest) = &answer.bytes else {
        return Ok(());
    };
    let line = line_of_sum(rt, named, digest, end)?;
    held.extend_from_slice(line.as_slice())
}

// Judges files one after the other, and puts what is found of each. The lines of sums of bytes are
// held.
#[derive(Drop)]
struct FileJudge<'a, 'c, K, L: Ledger, M: Ledger> {
    rt: &'a HostRuntime,
    manner: Manner,
    lines: GatheredLines<'a, K>,
    held: Vec<u8>,
    steps: &'c mut Steps<L, M>,
}

impl<'a, 'c, K: Sink, L: Ledger, M: Ledger> FileJudge<'a, 'c, K, L, M> {
    // Puts what was found of a file of this name, and holds the sum of its bytes.
    fn note(&mut self, named: GivenName, answer: JudgedFile) -> Result<FoundSum, Refusal> {
        let end = self.manner.style.end;
        put_named(self.rt, named, &answer, self.manner, &mut self.lines)?;
        hold_bytes(self.rt, named, &answer, end, &mut self.held)?;
        Ok(answer.found)
    }

    // Puts the sums of bytes, behind the line before them, if there are any; and what is gathered.
    fn end(&mut self) -> Result<(), Refusal> {
        if !self.held.is_empty() {
            let header = bytes_header(self.rt.alloc())?;
            self.lines.add(header.as_slice())?;
            self.lines.add(self.held.as_slice())?;
        }
        self.lines.flush()
    }
}

impl<'a, 'c, K: Sink, L: Ledger, M: Ledger> Judge for FileJudge<'a, 'c, K, L, M> {
    ghost finds_word = { λ from to input found. Unit {0} };

    ghost finds_name = { λ from to name found. Unit {0} };

    ghost refuses = { λ to refusal. Unit {0} };

    fn judge_word(&mut self, input: Input) -> Result<FoundSum, Refusal> {
        let answer = answer_of(self.rt, input, self.manner, self.steps);
        let named = GivenName {
            name: input.name().as_bytes(),
            is_file: matches!(input, Input::File { .. }),
        };
        self.note(named, answer)
    }

    fn judge_name(&mut self, name: &[u8]) -> Result<FoundSum, Refusal> {
        let answer = answer_of_listed(self.rt, name, self.manner, self.steps);
        let is_file = true;
        self.note(GivenName { name, is_file }, answer)
    }
}

// Puts what stands before the sums of files, where that is asked for.
fn put_header<K: Sink>(
    alloc: Global,
    manner: Manner,
    lines: &mut GatheredLines<K>,
) -> Result<(), Refusal> {
    if let Finding::Sum {
        what: SumOf::Form(leaving),
        track,
        header: true,
        ..
    } = manner.finding
    {
        let header = header_of(alloc, track, leaving)?;
        lines.add(header.as_slice())?;
    }
    Ok(())
}

// Judges these files and then those of a list, and puts what is found of each, and then the sums of
// bytes. Lines of sums are written together.
fn put_each<K: Sink + Drop, L: Ledger, M: Ledger>(
    rt: &HostRuntime,
    files: &[Input],
    list: &[u8],
    manner: Manner,
    sink: K,
    steps: &mut Steps<L, M>,
) -> Result<u8, Refusal> {
    let gathers = matches!(manner.finding, Finding::Sum { .. }) && !manner.telling.explain;
    let mut lines = GatheredLines::new(rt, sink, gathers)?;
    put_header(rt.alloc(), manner, &mut lines)?;
    let mut judge = FileJudge {
        rt,
        manner,
        lines,
        held: Vec::new(rt.alloc()),
        steps,
    };
    match judge_all(files, list, &mut judge) {
        Ok(worst) => {
            judge.end()?;
            Ok(worst)
        }
        Err(refusal) => {
            let _ = judge.lines.flush();
            Err(refusal)
        }
    }
}

// The same, to standard output.
fn check_each<L: Ledger, M: Ledger>(
    rt: &HostRuntime,
    files: &[Input],
    list: &[u8],
    manner: Manner,
    report: &mut Report,
    steps: &mut Steps<L, M>,
) -> Result<u8, Refusal> {
    let out = &mut rt.stdout();
    let sink = IoSink::new(NotedStream { out, report });
    put_each(rt, files, list, manner, sink, steps)
}

/// Judges each of these files and then those of a list, or sums them, puts what is found of each to
/// standard output, and gives the greatest status. Where the list can't be read, or no verdict be
/// put, the cause is said.
pub(crate) fn check_all<L: Ledger, M: Ledger>(
    rt: &HostRuntime,
    files: &[Input],
    list: Option<Input>,
    manner: Manner,
    report: &mut Report,
    steps: &mut Steps<L, M>,
) -> Result<u8, Refusal> {
    let names = read_names(rt, list, report)?;
    let names = names.as_slice();
    let worst = check_each(rt, files, names, manner, report, steps);
    if matches!(worst, Err(Refusal::WriteFailed)) {
        report.tell_output(rt, "-");
    }
    worst
}
