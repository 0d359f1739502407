//! A command from what is read to where its answer goes.
use crate::running::{run_job, settled};
use crate::shell::action::{Freeing, Input, Order, Target, Telling};
use crate::shell::explaining::{explain_briefly, explanation, look_at, name_tracks};
use crate::shell::foreign::{Opened, Told, lay_free, tell_losses};
use crate::shell::output::{Out, Outgoing};
use crate::shell::remedies::remedy_of;
use crate::shell::reports::{Report, tells_more};
use crate::shell::sources::{LaidSource, open, open_by_headers};
use mp4_answers::box_names::Name;
use mp4_answers::commands::check::check_counted;
use mp4_answers::commands::freed_boxes::FreedBoxes;
use mp4_answers::commands::strip::count_named;
use mp4_answers::commands::strip_lines::{count_lines, find_told, loss_refusal, warnings};
use mp4_answers::jobs::Job;
use mp4_answers::text::fault_text::fault_line;
use mp4_boxes::{Fault, Kind, Refusal, Steps};
use mp4_store::{IoSink, Sink};
use std::alloc::Global;
use std::io::Write;
use std::sync::ledger::Ledger;

/// What stands before the refusal of a copy.
const COPY: &[u8] = b"strip: warning: NEW is ";

// Does the job, to where its answer goes.
fn write_to<'a, L: Ledger, M: Ledger>(
    rt: &'a HostRuntime,
    job: Job,
    source: &mut LaidSource,
    order: Order<'a>,
    steps: &mut Steps<L, M>,
    report: &mut Report<'a>,
) -> Result<(), Refusal> {
    let mut out = Outgoing::<Out>::new(rt, order.target, report);
    run_job(rt.alloc(), job, order.most, source, &mut out, steps)
}

// Whether it is told how many boxes a name means: those that the profile refuses are told of group
// by group.
fn is_counted(name: &Name) -> bool {
    match name {
        Name::Type { .. } | Name::Uuid { .. } => true,
        Name::Foreign => false,
    }
}

// How many boxes each name means, and what else is told of them. Where no name asks for the first,
// the boxes are gone over once; where they can't be, the first fault is named as it is elsewhere.
fn look_at_boxes(
    alloc: Global,
    names: &[Name],
    source: &mut LaidSource,
) -> Result<(Vec<u64>, FreedBoxes), Refusal> {
    if !names.iter().any(is_counted) {
        match find_told(alloc, source, names) {
            Err(Refusal::Fault(_)) => {}
            found => return Ok((Vec::new(alloc), found?)),
        }
    }
    let counts = count_named(alloc, source, names)?;
    let found = find_told(alloc, source, names)?;
    Ok((counts, found))
}

// Says why the new file is refused, if it is. What was put to standard output isn't read again.
fn tell_of_copy<L: Ledger, M: Ledger>(
    rt: &HostRuntime,
    target: Target,
    steps: &mut Steps<L, M>,
) -> Result<(), Refusal> {
    let (Target::New { name } | Target::Replaced { name }) = target else {
        return Ok(());
    };
    let mut unsaid = Report::new(Telling::NOTHING);
    let mut copy = open(rt, Input::File { name }, &mut unsaid)?;
    if let Err(Refusal::Fault(fault)) = check_counted(rt.alloc(), &mut copy, steps) {
        let mut text = Vec::new(rt.alloc());
        text.extend_from_slice(COPY)?;
        text.extend_from_slice(fault_line(&Refusal::Fault(fault)).as_bytes())?;
        text.push(b'\n')?;
        let _ = rt.stderr().write_all(text.as_slice());
    }
    Ok(())
}

// Copies a file without the boxes of some names, and says which these are. Where something is lost
// with those that the profile refuses, nothing is put, but where that is allowed.
fn strip_and_tell<'a, L: Ledger, M: Ledger>(
    rt: &'a HostRuntime,
    names: &[Name],
    source: &mut LaidSource,
    order: Order<'a>,
    steps: &mut Steps<L, M>,
    report: &mut Report<'a>,
) -> Result<(), Refusal> {
    let alloc = rt.alloc();
    let looked = look_at_boxes(alloc, names, source);
    let (counts, found) = settled(source, looked)?;
    if let Some(refusal) = loss_refusal(&found, order.freeing.lossy) {
        tell_losses(rt, &found, order.telling)?;
        return Err(refusal);
    }
    let warnings = warnings(alloc, names, &found)?;
    let lines = count_lines(alloc, names, counts.as_slice(), &found)?;
    let job = Job::Strip { names };
    write_to(rt, job, source, order, steps, report)?;
    report.end();
    let mut errors = rt.stderr();
    let _ = errors.write_all(warnings.as_slice());
    // The copy is made: where it can't be judged, that changes nothing.
    let _ = tell_of_copy(rt, order.target, steps);
    let _ = errors.write_all(lines.as_slice());
    Ok(())
}

// Opens what is read, as the job asks for it.
fn opened_for<'a>(
    rt: &'a HostRuntime,
    job: &Job,
    order: Order<'a>,
    report: &mut Report<'a>,
) -> Result<Opened<'a>, Refusal> {
    let (source, freeing) = match job {
        Job::Strip { .. } => {
            let source = open_by_headers(rt, order.input, report)?;
            (source, Freeing::NOTHING)
        }
        _ => (open(rt, order.input, report)?, order.freeing),
    };
    let told = Told {
        name: None,
        is_told: true,
        telling: order.telling,
    };
    Ok(lay_free(rt.alloc(), told, freeing, source))
}

// Opens what is read, and does the job. A fault is explained where that is asked for.
fn open_and_answer<'a, L: Ledger, M: Ledger>(
    rt: &'a HostRuntime,
    job: Job,
    order: Order<'a>,
    steps: &mut Steps<L, M>,
    report: &mut Report<'a>,
) -> Result<(), Refusal> {
    let mut opened = opened_for(rt, &job, order, report)?;
    let answer = match (opened.readable(rt), job) {
        (Err(refusal), _) => Err(refusal),
        (Ok(()), Job::Strip { names }) => {
            strip_and_tell(rt, names, &mut opened.source, order, steps, report)
        }
        (Ok(()), job) => write_to(rt, job, &mut opened.source, order, steps, report),
    };
    report.end();
    let Err(refusal) = &answer else {
        opened.tell(rt);
        return answer;
    };
    if matches!(refusal, Refusal::StoreFailed) {
        report.concerns_part(rt, opened.source.below())?;
    }
    explain_refusal(rt, None, refusal, order.telling, opened.source, steps);
    answer
}

// Puts what there is to say of a fault in full; of a file that was put together, also in which part
// it lies.
fn explain<K: Sink, L: Ledger, M: Ledger>(
    alloc: Global,
    name: Option<&str>,
    fault: &Fault,
    source: LaidSource,
    errors: &mut K,
    steps: &mut Steps<L, M>,
) -> Result<(), Refusal> {
    let mut source = source;
    let part = source.below().part_text(alloc, fault.offset)?;
    let look = look_at(alloc, fault, &mut source, steps)?;
    let remedy = if matches!(fault.kind, Kind::BoxNotInProfile) {
        remedy_of(alloc, source, steps)?
    } else {
        Vec::new(alloc)
    };
    let text = explanation(alloc, name, fault, &look, remedy.as_slice())?;
    errors.put(text.as_slice())?;
    if let Some(part) = part {
        errors.put(part.as_slice())?;
    }
    Ok(())
}

/// Explains on standard error why a file is refused, or which tracks there are where one is asked
/// for that isn't there, behind the file's name if it is given: in full where that is asked for; on
/// a terminal, unless few words are, what the line of the refusal lacks.
pub(crate) fn explain_refusal<L: Ledger, M: Ledger>(
    rt: &HostRuntime,
    name: Option<&str>,
    refusal: &Refusal,
    telling: Telling,
    source: LaidSource,
    steps: &mut Steps<L, M>,
) {
    if !tells_more(rt, telling) {
        return;
    }
    let (alloc, mut source) = (rt.alloc(), source);
    let mut errors = IoSink::new(rt.stderr());
    let _ = match refusal {
        Refusal::Fault(fault) if telling.explain => {
            explain(alloc, name, fault, source, &mut errors, steps)
        }
        Refusal::Fault(fault) => {
            explain_briefly(alloc, name, fault, &mut source, &mut errors, steps)
        }
        Refusal::NoSuchTrack => name_tracks(alloc, name, &mut source, &mut errors, steps),
        _ => Ok(()),
    };
}

/// Does a job from what is read to where its answer goes. What is wrong is explained where that is
/// asked for: a fault, and which file can't be opened, read or written, with the system's cause.
/// How far the job has come is said where that is.
pub(crate) fn run<'a, L: Ledger, M: Ledger>(
    rt: &'a HostRuntime,
    job: Job,
    order: Order<'a>,
    steps: &mut Steps<L, M>,
    report: &mut Report<'a>,
) -> Result<(), Refusal> {
    let answer = open_and_answer(rt, job, order, steps, report);
    match answer {
        Err(Refusal::StoreFailed) => report.tell_input(rt, order.input.name()),
        Err(Refusal::WriteFailed) => report.tell_output(rt, order.target.name()),
        _ => {}
    }
    answer
}
