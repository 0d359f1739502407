//! Lists of sums: whether each file that is named has the sum that stands there, and which files
//! are not named.
ghost use Rattle.std.specs.Prelude.{◌+◌, ◌≤◌, length, IfOk};

use crate::judging::{ListedFile, SumJudge, Tally, check_listed, has_another, tally_status};
use crate::running::{DIFFER, FoundSum};
use crate::shell::action::{Finding, Input, SumCheck};
use crate::shell::check_files::{Manner, answer_of, name_in_list, read_list, read_names};
use crate::shell::command_line::input_of;
use crate::shell::file_names::{push_shown, word_of};
use crate::shell::list_sources::tell_fault;
use crate::shell::lists::{ListFault, first_line, first_name, without_return};
use crate::shell::reports::{NotedStream, Report, tell_of};
use crate::shell::track_sums::listed_line;
use mp4_answers::jobs::{Syntax, VerdictStyle};
use mp4_answers::text::fault_text::fault_line;
use mp4_answers::text::new_names::new_lines;
use mp4_answers::text::plain_names::push_plain;
use mp4_answers::text::sum_lines::{ListedSum, SumOf, tally_line};
use mp4_boxes::{Refusal, Steps};
use mp4_content::Without;
use mp4_store::{IoSink, Sink};
use std::alloc::{AllocError, Global};
use std::io::{IsTerminal, Write};
use std::sync::ledger::Ledger;

/// The status of a list that can't be taken.
const NO_LIST: u8 = 64;

// The files of a list, in their order; or which line can't be taken, and why.
fn files_of(alloc: Global, list: &[u8]) -> Result<Result<Vec<ListedFile>, ListFault>, AllocError> {
    let mut files = Vec::new(alloc);
    let (mut track, mut what) = (None, SumOf::Form(Without::NOTHING));
    let mut left = list;
    let mut line = 0u64;
    while !left.is_empty() {
        let (own, rest) = first_line(left);
        line = line.saturating_add(1);
        let (alone, said) = listed_line(alloc, without_return(own))?;
        match said {
            ListedSum::Header(said) => (track, what) = (alone, said),
            ListedSum::Sum { digest, name } => files.push(ListedFile {
                name,
                digest,
                what,
                track,
            })?,
            ListedSum::Passed => {}
            ListedSum::Odd(what) => return Ok(Err(ListFault { line, what })),
        }
        left = rest;
    }
    Ok(Ok(files))
}

// Sums a file, or those of a list, and explains why there is no sum where that is asked for.
fn sum_of<L: Ledger, M: Ledger>(
    rt: &HostRuntime,
    file: &ListedFile,
    how: SumCheck,
    steps: &mut Steps<L, M>,
) -> FoundSum {
    let word = word_of(rt.alloc(), file.name.as_slice())?;
    let input = input_of(word.as_str(), how.most_parts);
    let finding = Finding::Sum {
        what: file.what,
        track: file.track,
        header: false,
        bytes: false,
    };
    let style = VerdictStyle {
        syntax: Syntax::Text,
        end: b'\n',
    };
    let manner = Manner::of(&[], Some(input), finding, style, how.freeing, how.telling);
    answer_of(rt, input, manner, steps).found
}

// What is said of a file; nothing where it has its sum and that isn't told, or none was found.
fn verdict_on(file: &ListedFile, found: &FoundSum, is_quiet: bool) -> Option<&'static str> {
    match found {
        Ok(_) if has_another(&file.digest, found) => Some("FAILED"),
        Ok(_) => (!is_quiet).then_some("OK"),
        Err(_) => None,
    }
}

// The line that tells of a file, if there is one to tell.
fn line_of(
    alloc: Global,
    file: &ListedFile,
    found: &FoundSum,
    is_quiet: bool,
) -> Result<Vec<u8>, AllocError> {
    let mut line = Vec::new(alloc);
    let said = verdict_on(file, found, is_quiet);
    if said.is_none() && found.is_ok() {
        return Ok(line);
    }
    let name = word_of(alloc, file.name.as_slice())?;
    push_shown(&mut line, name.as_str().as_bytes())?;
    line.extend_from_slice(b": ")?;
    match (said, found) {
        (Some(said), _) => line.extend_from_slice(said.as_bytes())?,
        (None, Err(refusal)) => line.extend_from_slice(fault_line(refusal).as_bytes())?,
        (None, Ok(_)) => {}
    }
    line.extend_from_slice(b"\n")?;
    Ok(line)
}

// Sums files one after the other, and puts what is said of each.
#[derive(Drop)]
struct SumChecker<'a, 'c, K, L: Ledger, M: Ledger> {
    rt: &'a HostRuntime,
    how: SumCheck,
    sink: K,
    steps: &'c mut Steps<L, M>,
}

impl<'a, 'c, K: Sink, L: Ledger, M: Ledger> SumJudge for SumChecker<'a, 'c, K, L, M> {
    ghost finds = { λ from to file found. Unit {0} };

    ghost refuses = { λ to refusal. Unit {0} };

    fn judge_sum(&mut self, file: &ListedFile) -> Result<FoundSum, Refusal> {
        let found = sum_of(self.rt, file, self.how, self.steps);
        let line = line_of(self.rt.alloc(), file, &found, self.how.quiet)?;
        if !line.is_empty() {
            self.sink.put(line.as_slice())?;
        }
        Ok(found)
    }
}

// Sums the files, puts what is said of each, and says how they came out.
fn put_each<K: Sink + Drop, L: Ledger, M: Ledger>(
    rt: &HostRuntime,
    files: &[ListedFile],
    how: SumCheck,
    sink: K,
    steps: &mut Steps<L, M>,
) -> Result<Tally, Refusal>
    ensures { IfOk result (λ t. t.other + t.without ≤ length files.now) }
{
    let mut judge = SumChecker {
        rt,
        how,
        sink,
        steps,
    };
    check_listed(files, &mut judge)
}

// The same, to standard output.
fn check_files<L: Ledger, M: Ledger>(
    rt: &HostRuntime,
    files: &[ListedFile],
    how: SumCheck,
    report: &mut Report,
    steps: &mut Steps<L, M>,
) -> Result<Tally, Refusal>
    ensures { IfOk result (λ t. t.other + t.without ≤ length files.now) }
{
    let out = &mut rt.stdout();
    let sink = IoSink::new(NotedStream { out, report });
    put_each(rt, files, how, sink, steps)
}

// Counts on standard error how so many files came out, where that is asked for; on a terminal also
// where not all have their sum, unless few words are.
fn tell_tally(rt: &HostRuntime, files: usize, tally: Tally, how: SumCheck)
    requires { tally.other + tally.without ≤ files }
{
    let is_told = !how.quiet && !how.telling.brief && rt.stderr().is_terminal();
    if !how.summary && (tally_status(tally) == 0 || !is_told) {
        return;
    }
    let (files, other, without) = (files as u64, tally.other as u64, tally.without as u64);
    if let Ok(line) = tally_line(rt.alloc(), files, other, without) {
        let _ = rt.stderr().write_all(line.as_slice());
    }
}

// Reads a list of sums whole. Where a line can't be taken, or none has a sum, that is said, and
// there are no files.
fn read_sums(
    rt: &HostRuntime,
    list: Input,
    report: &mut Report,
) -> Result<Vec<ListedFile>, Refusal> {
    let alloc = rt.alloc();
    let text = match read_list(rt, Some(list), report) {
        Ok(text) => text,
        Err(refusal) => {
            if matches!(refusal, Refusal::StoreFailed) {
                report.tell_input(rt, list.name());
            }
            return Err(refusal);
        }
    };
    match files_of(alloc, text.as_slice())? {
        Ok(files) => {
            if files.is_empty() {
                tell_of(rt, list.name().as_bytes(), b"no checksum");
            }
            Ok(files)
        }
        Err(fault) => {
            tell_fault(rt, list.name(), fault)?;
            Ok(Vec::new(alloc))
        }
    }
}

/// Reads a list of sums whole, says of each file that it names whether it has its sum, and gives
/// the status. Where a line can't be taken, or none has a sum, no file is opened.
pub(crate) fn check_sums<L: Ledger, M: Ledger>(
    rt: &HostRuntime,
    list: Input,
    how: SumCheck,
    report: &mut Report,
    steps: &mut Steps<L, M>,
) -> Result<u8, Refusal> {
    let files = read_sums(rt, list, report)?;
    if files.is_empty() {
        return Ok(NO_LIST);
    }
    let files = files.as_slice();
    match check_files(rt, files, how, report, steps) {
        Ok(tally) => {
            tell_tally(rt, files.len(), tally, how);
            Ok(tally_status(tally))
        }
        Err(refusal) => {
            if matches!(refusal, Refusal::WriteFailed) {
                report.tell_output(rt, "-");
            }
            Err(refusal)
        }
    }
}

// Names as a list of sums has them: those of words, and those of a list whose names are ended by
// zero bytes.
fn names_given(alloc: Global, words: &[Input], list: &[u8]) -> Result<Vec<Vec<u8>>, AllocError> {
    let mut names = Vec::new(alloc);
    for input in words {
        let is_file = matches!(input, Input::File { .. });
        names.push(listed_name(alloc, input.name().as_bytes(), is_file)?)?;
    }
    let mut left = list;
    while !left.is_empty() {
        let (name, rest) = first_name(left);
        names.push(listed_name(alloc, name, true)?)?;
        left = rest;
    }
    Ok(names)
}

// A name as a list of sums has it, once it is read.
fn listed_name(alloc: Global, name: &[u8], is_file: bool) -> Result<Vec<u8>, AllocError> {
    let mut plain = Vec::new(alloc);
    push_plain(&mut plain, name_in_list(alloc, name, is_file)?.as_slice())?;
    Ok(plain)
}

/// Which files are looked for in a list: those of words, those of a list of names; and which byte
/// ends each name that is put.
#[derive(Clone, Copy)]
pub(crate) struct Sought<'a> {
    pub(crate) words: &'a [Input<'a>],
    pub(crate) names: Option<Input<'a>>,
    pub(crate) end: u8,
}

// The lines of those that a list of sums has not; nothing where that can't be taken.
fn lines_of_new(
    rt: &HostRuntime,
    list: Input,
    sought: Sought,
    report: &mut Report,
) -> Result<Option<Vec<u8>>, Refusal> {
    let alloc = rt.alloc();
    let files = read_sums(rt, list, report)?;
    if files.is_empty() {
        return Ok(None);
    }
    let mut listed = Vec::new(alloc);
    for file in files {
        listed.push(file.name)?;
    }
    let names = read_names(rt, sought.names, report)?;
    let given = names_given(alloc, sought.words, names.as_slice())?;
    let (listed, given) = (listed.as_slice(), given.as_slice());
    if sought.end == 0 || !rt.stdout().is_terminal() {
        return Ok(Some(new_lines(alloc, listed, given, sought.end)?));
    }
    let names = new_lines(alloc, listed, given, 0)?;
    Ok(Some(shown_lines(alloc, names.as_slice())?))
}

// Names that are ended by zero bytes, each as a person is shown it, on a line of its own.
fn shown_lines(alloc: Global, names: &[u8]) -> Result<Vec<u8>, AllocError> {
    let mut lines = Vec::new(alloc);
    let mut left = names;
    while !left.is_empty() {
        let (name, rest) = first_name(left);
        push_shown(&mut lines, name)?;
        lines.push(b'\n')?;
        left = rest;
    }
    Ok(lines)
}

/// Reads a list of sums whole, and puts the names of those files that it has not. No file is
/// opened. The status says whether there are any.
pub(crate) fn tell_new(
    rt: &HostRuntime,
    list: Input,
    sought: Sought,
    report: &mut Report,
) -> Result<u8, Refusal> {
    let Some(lines) = lines_of_new(rt, list, sought, report)? else {
        return Ok(NO_LIST);
    };
    if lines.is_empty() {
        return Ok(0);
    }
    let put = put_noted(rt, lines.as_slice(), report);
    if matches!(put, Err(Refusal::WriteFailed)) {
        report.tell_output(rt, "-");
    }
    put?;
    Ok(DIFFER)
}

/// Puts lines to standard output.
pub(crate) fn put_noted(
    rt: &HostRuntime,
    lines: &[u8],
    report: &mut Report,
) -> Result<(), Refusal> {
    let out = &mut rt.stdout();
    IoSink::new(NotedStream { out, report }).put(lines)?;
    Ok(())
}
