//! `mp4norm`: the normal form of an MP4 file; its boxes, what it denotes as one line, the samples
//! of a track, their bytes; and whether two files say the same.
//!
//! With no words it reads standard input, at most 2^30 bytes, and lists the boxes on standard
//! output. The status is 0, 1 where the file is refused, 2 without memory, 3 where reading or
//! writing failed, 4 where no track has the ID, 5 where two files differ, 64 for words that it
//! doesn't know.
#![tactic(auto)]

ghost use Rattle.std.specs.Prelude.{◌≡◌};
ghost use Rattle.std.specs.Process.{exit_status};
ghost use Rattle.mp4_answers.specs.format.Verdicts.{verdict_status};
ghost use Rattle.mp4_answers.specs.words.StoreAndSink.{IsOf};

mod copies;
mod judging;
mod running;
mod shell;

pub use mp4_answers::{
    Asked, Failure, Form, Job, Line, LineForm, Lines, Listing, Name, Side, Syntax, VerdictStyle,
    Way, answer_laws, boxes, boxes_as, boxes_with_fields, check, check_counted, compare_files,
    count_named, extract, extract_counted, fault_line, laws, normalise, normalise_counted,
    normalise_reduced, perform, print, put_lines, put_verdict, samples, samples_as,
    samples_counted, say_difference, show, show_counted, show_text, status, strip, sum_file,
    text_laws, text_len, verdict_status, way_to,
};
use mp4_boxes::{Refusal, Steps};
use mp4_store::IoSink;
use running::ended;
pub use shell::action::{
    Action, CommandFault, ComparedInputs, Finding, Freeing, Input, Order, SumCheck, Target, Telling,
};
use shell::check_files::{Manner, check_all};
pub use shell::command_line::action;
use shell::descriptors::take_closed;
use shell::file_names::{shown_word, word_of};
use shell::reports::Report;
use shell::run_command::run;
use shell::run_compare::compare_named;
use shell::sum_checks::{Sought, check_sums, put_noted, tell_new};
use std::alloc::{AllocError, Global};
use std::io::{IsTerminal, Write};
use std::marker::Brand;
use std::process::ExitCode;
use std::rt::Env;
use std::sync::ledger::{Blank, Ledger};

/// The status for words that are not known.
const USAGE: u8 = 64;

/// What is said where an answer that is no text would go to a terminal.
const TO_TERMINAL: &[u8] = b"\
error: the answer is no text, and standard output is a terminal: name a file with '--out <NEW>', \
or put the answer into a pipe\n\nFor more information, try '--help'.\n";

/// What stands behind the first lines of the help.
const MORE_HELP: &[u8] = b"\nFor more information, try '--help'.\n";

/// The most bytes that a word of a command line has in Linux, with the zero byte that ends it.
const MOST_OF_WORD: usize = 131_072;

// The words behind the program's name.
fn words(rt: &HostRuntime) -> Result<Vec<String>, AllocError> {
    let alloc = rt.alloc();
    let mut words = Vec::new(alloc);
    let mut room = vec![in alloc; 0u8; MOST_OF_WORD]?;
    for number in 1..usize::MAX {
        let Ok(len) = rt.arg(number, room.as_mut_slice()) else {
            break;
        };
        words.push(word_of(alloc, &room[..len])?)?;
    }
    Ok(words)
}

// The words as people are shown them.
fn shown_words(alloc: Global, words: &[String]) -> Result<Vec<String>, AllocError> {
    let mut all = Vec::new(alloc);
    for word in words {
        all.push(shown_word(alloc, word.as_str())?)?;
    }
    Ok(all)
}

// What is wrong with the words, said of these as people are shown them.
fn shown_fault(rt: &HostRuntime, words: &[String], fault: CommandFault) -> CommandFault {
    if !matches!(fault, CommandFault::Usage(_)) {
        return fault;
    }
    match shown_words(rt.alloc(), words) {
        Ok(words) => match action(rt.alloc(), words.as_slice()) {
            Err(CommandFault::Usage(text)) => CommandFault::Usage(text),
            _ => fault,
        },
        Err(_) => CommandFault::Memory,
    }
}

// Says what there is to say of an answer, and gives the status.
fn end(rt: &HostRuntime, answer: Result<(), Refusal>) -> ExitCode
    ensures { exit_status result ≡ verdict_status answer }
{
    ended(&mut IoSink::new(rt.stderr()), &answer)
}

// The same, but nothing is said where whoever reads the answer has gone.
fn end_heard(rt: &HostRuntime, answer: Result<(), Refusal>, report: &Report) -> ExitCode
    ensures { exit_status result ≡ verdict_status answer }
{
    if report.is_silent() && matches!(answer, Err(Refusal::WriteFailed)) {
        return ExitCode::from(verdict_status(&answer));
    }
    end(rt, answer)
}

// The status of verdicts, or what there is to say where these could not be given.
fn end_verdicts(rt: &HostRuntime, worst: Result<u8, Refusal>, report: &Report) -> ExitCode {
    match worst {
        Ok(status) => ExitCode::from(status),
        Err(refusal) => end_heard(rt, Err(refusal), report),
    }
}

// Whether the answer is no text, and would go to a terminal.
fn fills_terminal(rt: &HostRuntime, job: &Job, order: Order) -> bool {
    let is_text = !matches!(
        job,
        Job::Normalise | Job::Reduce { .. } | Job::Extract { .. } | Job::Strip { .. }
    );
    !is_text && matches!(order.target, Target::Standard) && rt.stdout().is_terminal()
}

// Does a job, unless its answer would fill a terminal, and says what there is to say of it.
fn do_job<L: Ledger, M: Ledger>(
    rt: &HostRuntime,
    job: Job,
    order: Order,
    steps: &mut Steps<L, M>,
) -> ExitCode {
    if fills_terminal(rt, &job, order) {
        let _ = rt.stderr().write_all(TO_TERMINAL);
        return ExitCode::from(USAGE);
    }
    let mut report = Report::new(order.telling);
    let answer = run(rt, job, order, steps, &mut report);
    end_heard(rt, answer, &report)
}

// Does what the words ask for. Steps and looks are counted in these ledgers.
fn act<L: Ledger, M: Ledger>(
    rt: &HostRuntime,
    action: Action,
    steps: Blank,
    looks: Blank,
) -> ExitCode
    requires steps { IsOf L.Ledger steps }
    requires looks { IsOf M.Ledger looks }
{
    let mut counted = Steps::<L, M>::new(steps, looks);
    match action {
        Action::Run { job, order } => do_job(rt, job, order, &mut counted),
        Action::Strip { names, order } => {
            let names = names.as_slice();
            do_job(rt, Job::Strip { names }, order, &mut counted)
        }
        Action::CheckSums { list, how } => {
            let mut report = Report::new(how.telling);
            let worst = check_sums(rt, list, how, &mut report, &mut counted);
            end_verdicts(rt, worst, &report)
        }
        Action::NewNames {
            list,
            files,
            names,
            end,
            telling,
        } => {
            let words = files.as_slice();
            let sought = Sought { words, names, end };
            let mut report = Report::new(telling);
            let worst = tell_new(rt, list, sought, &mut report);
            end_verdicts(rt, worst, &report)
        }
        Action::Compare(comparison) => compare_named(rt, comparison, &mut counted),
        Action::Check {
            files,
            list,
            finding,
            style,
            freeing,
            telling,
        } => {
            let files = files.as_slice();
            let manner = Manner::of(files, list, finding, style, freeing, telling);
            let mut report = Report::new(telling);
            let worst = check_all(rt, files, list, manner, &mut report, &mut counted);
            end_verdicts(rt, worst, &report)
        }
    }
}

// Says why there is nothing to do.
fn tell(rt: &HostRuntime, fault: CommandFault) -> ExitCode {
    match fault {
        CommandFault::Help(text) => {
            let mut report = Report::new(Telling::NOTHING);
            let put = put_noted(rt, text.as_str().as_bytes(), &mut report);
            end_heard(rt, put, &report)
        }
        CommandFault::Usage(text) | CommandFault::Shown(text) => {
            let _ = rt.stderr().write_all(text.as_str().as_bytes());
            ExitCode::from(USAGE)
        }
        CommandFault::Memory => end(rt, Err(Refusal::Memory)),
    }
}

// What is said where no word is given and no file comes, since standard input is a terminal: the
// help, up to its options.
fn first_help(alloc: Global) -> Result<Vec<u8>, AllocError> {
    let mut text = Vec::new(alloc);
    let words = vec![in alloc; String::from_str(alloc, "--help")?]?;
    if let Err(CommandFault::Help(help)) = action(alloc, words.as_slice()) {
        let (first, _) = help
            .as_str()
            .split_once("\nOptions:")
            .unwrap_or((help.as_str(), ""));
        text.extend_from_slice(first.as_bytes())?;
    }
    text.extend_from_slice(MORE_HELP)?;
    Ok(text)
}

// Says how the program is used.
fn tell_usage(rt: &HostRuntime) -> ExitCode {
    match first_help(rt.alloc()) {
        Ok(text) => {
            let _ = rt.stderr().write_all(text.as_slice());
            ExitCode::from(USAGE)
        }
        Err(_) => end(rt, Err(Refusal::Memory)),
    }
}

fn main(rt: HostRuntime) -> ExitCode {
    let _taken = take_closed(&rt);
    let Ok(words) = words(&rt) else {
        return end(&rt, Err(Refusal::Memory));
    };
    let words = words.as_slice();
    if words.is_empty() && rt.stdin().is_terminal() {
        return tell_usage(&rt);
    }
    match action(rt.alloc(), words) {
        Ok(action) => act::<Brand, Brand>(&rt, action, Blank::new(1), Blank::new(1)),
        Err(fault) => tell(&rt, shown_fault(&rt, words, fault)),
    }
}
