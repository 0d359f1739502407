//! The program over whatever it reads and writes: what it answers, and with which status it ends.
//! The shell adds names, descriptors, clocks, and what is said beside an answer.
ghost use Rattle.std.specs.Prelude.{◌≡◌, [], ◌∷◌, ◌++◌, Bool, true, false, IfErr, MatchResult, OnErr, OnOk};
ghost use Rattle.std.specs.Process.{exit_status};
ghost use Rattle.mp4_store.specs.words.Device.{HasRisen, TakesPrefix};
ghost use Rattle.mp4_present.specs.words.StoresRead.{OnlyReads, WhereHonest, WhereRead};
ghost use Rattle.mp4_answers.specs.format.Sums.{Summed};
ghost use Rattle.mp4_answers.specs.format.Run.{KeepsFile, look_of};
ghost use Rattle.mp4_answers.specs.format.Texts.{fault_line};
ghost use Rattle.mp4_answers.specs.format.Verdicts.{verdict_status};
ghost use Rattle.mp4_answers.specs.words.WholePut.{JobPutsWhole};
ghost use Rattle.mp4norm.specs.format.Runs.{comparison_status, is_of_file, refusal_text, EndsJob, FitsIn, HasChanged, IsFound, IsMeasured, IsNoLonger, IsSettled, RefusesMeasure, RefusesOpening, RefusesOutlet, Says};

use crate::shell::action::Finding;
use mp4_answers::commands::answer_len::text_len;
use mp4_answers::commands::check::check_counted;
use mp4_answers::commands::compare::Failure;
use mp4_answers::commands::perform::perform;
use mp4_answers::commands::sum::{sum_bytes, sum_file};
use mp4_answers::digests::DIGEST;
use mp4_answers::jobs::Job;
use mp4_answers::selection::Selection;
use mp4_answers::text::fault_text::{fault_line, status};
use mp4_answers::text::sum_lines::SumOf;
use mp4_answers::text::verdicts::verdict_status;
use mp4_boxes::{Refusal, Steps};
use mp4_content::Without;
use mp4_store::{Sink, Store, WriteFailed};
use std::alloc::Global;
use std::process::ExitCode;
use std::sync::ledger::Ledger;

/// What is read, of which it can be told whether it is as it was when it was opened.
pub(crate) trait KeptStore: Store {
    /// It may be another by now.
    ghost may_change: { Self → Bool };

    /// Whether it is as it was; a failure where it isn't, or where that can't be told.
    fn stays(&self) -> Result<(), Refusal>
        ensures { IfErr result (HasChanged (may_change self.now)) };

    /// Whether a failed read may come from a change.
    fn fails_by_change(&self) -> bool;
}

/// Where an answer goes: opened before the first byte, and closed behind the last one. Neither puts
/// anything.
pub(crate) trait Outlet: Sink {
    /// It may fail to open or to close.
    ghost may_fail: { Self → Bool };

    /// It was opened, and neither closed nor given up.
    ghost is_open: { Self → Bool };

    /// It was closed, and what it has is kept.
    ghost is_closed: { Self → Bool };

    /// Whether it is to be told how many bytes come.
    fn asks_length(&self) -> bool;

    /// Opens it, with so many bytes to come, where that is known.
    fn open(&mut self, len: Option<u64>) -> Result<(), Refusal>
        ensures nothing { Self.takes self.old self.new [] }
        ensures open { MatchResult result (λ _. is_open self.new ≡ true)
            (λ _. is_open self.new ≡ false) }
        ensures closed { is_closed self.new ≡ false }
        ensures refusal { IfErr result (RefusesOutlet (may_fail self.new)) };

    /// Keeps for what is said that the answer has more bytes than it may.
    fn note_length(&mut self, most: u64)
        ensures nothing { Self.takes self.old self.new [] }
        ensures open { is_open self.new ≡ is_open self.old }
        ensures closed { is_closed self.new ≡ is_closed self.old };

    /// Closes it, with the whole answer in it.
    fn close(&mut self) -> Result<(), Refusal>
        ensures nothing { Self.takes self.old self.new [] }
        ensures open { is_open self.new ≡ false }
        ensures closed { MatchResult result (λ _. is_closed self.new ≡ true)
            (λ _. is_closed self.new ≡ false) }
        ensures refusal { IfErr result (RefusesOutlet (may_fail self.new)) };

    /// Gives it up, since there is no answer.
    fn give_up(&mut self)
        ensures nothing { Self.takes self.old self.new [] }
        ensures open { is_open self.new ≡ false }
        ensures closed { is_closed self.new ≡ false };
}

/// Whether a refusal says something of the file, and not of what failed.
pub(crate) fn is_of_file(refusal: &Refusal) -> bool
    ensures { result ≡ is_of_file refusal.now }
{
    matches!(refusal, Refusal::Fault(_) | Refusal::NoSuchTrack)
}

// Whether an answer stands only if what was read is as it was.
fn asks_again<S: KeptStore, T>(store: &S, answer: &Result<T, Refusal>) -> bool {
    match answer {
        Ok(_) => true,
        Err(Refusal::StoreFailed) => store.fails_by_change(),
        Err(refusal) => is_of_file(refusal),
    }
}

/// An answer that says something of the file, if the file is still as it was; else that it has
/// changed. A failure stays as it is.
pub(crate) fn settled<S: KeptStore, T: Drop>(
    store: &S,
    answer: Result<T, Refusal>,
) -> Result<T, Refusal>
    ensures { IsSettled (S.may_change store.now) answer result }
{
    if asks_again(store, &answer) {
        store.stays()?;
    }
    answer
}

// How many bytes the text has, where that is to be told, or may be too many.
fn measured<S: KeptStore, L: Ledger, M: Ledger>(
    alloc: Global,
    job: Job,
    most: Option<u64>,
    is_told: bool,
    store: &mut S,
    steps: &mut Steps<L, M>,
) -> Result<Option<u64>, Refusal>
    ensures store { OnlyReads S.Store store.old store.new result }
    ensures length { WhereRead S.Store store.old result (IsMeasured most job.entry) }
    ensures refusal { IfErr result
        (RefusesMeasure S.Store (S.may_change store.new) job.entry store.old store.new) }
{
    if most.is_none() && !is_told {
        return Ok(None);
    }
    let total = text_len(alloc, job, store, steps);
    let total = settled(store, total)?;
    Ok(Some(total))
}

// Opens where the answer goes, unless that has more bytes than it may.
fn open_for<K: Outlet>(out: &mut K, len: Option<u64>, most: Option<u64>) -> Result<(), Refusal>
    ensures nothing { K.takes out.old out.new [] }
    ensures short { OnOk result (IsNoLonger len most) }
    ensures open { OnErr result (K.is_open out.new ≡ true → K.is_open out.old ≡ true) }
    ensures closed { OnErr result (K.is_closed out.new ≡ true → K.is_closed out.old ≡ true) }
    ensures refusal { IfErr result (RefusesOpening len most (K.may_fail out.new)) }
{
    if let (Some(len), Some(most)) = (len, most)
        && len > most
    {
        out.note_length(most);
        return Err(Refusal::WriteFailed);
    }
    out.open(len)
}

/// Does a job: measures its text, where that is asked for, opens what is written, does the job,
/// looks whether what was read has changed, and closes what was written: that stays only where the
/// whole answer is in it, and is given up else. No text is put that has more bytes than `most`, and
/// such a text alone is refused for its length.
pub(crate) fn run_job<S: KeptStore, K: Outlet, L: Ledger, M: Ledger>(
    alloc: Global,
    job: Job,
    most: Option<u64>,
    store: &mut S,
    out: &mut K,
    steps: &mut Steps<L, M>,
) -> Result<(), Refusal>
    ensures store { KeepsFile S.Store store.old store.new }
    ensures answer { EndsJob S.Store K.Sink most (S.may_change store.new) (K.may_fail out.new)
        job.entry store.old store.new out.old out.new result }
    ensures whole { OnOk result (JobPutsWhole job.entry (K.takes out.old out.new)) }
    ensures short { OnOk result (WhereHonest S.Store store.old (FitsIn most job.entry)) }
    ensures open { K.is_open out.new ≡ true → K.is_open out.old ≡ true }
    ensures closed { MatchResult result (λ _. K.is_closed out.new ≡ true)
        (λ _. K.is_closed out.new ≡ true → K.is_closed out.old ≡ true) }
{
    let is_told = out.asks_length();
    let len = measured(alloc, job, most, is_told, store, steps)?;
    open_for(out, len, most)?;
    let answer = perform(alloc, job, store, out, steps);
    match settled(store, answer) {
        Ok(()) => out.close(),
        Err(refusal) => {
            out.give_up();
            Err(refusal)
        }
    }
}

// Puts the line of a refusal.
fn put_refusal<E: Sink>(errors: &mut E, refusal: &Refusal) -> Result<(), WriteFailed>
    ensures line { TakesPrefix (E.takes errors.old errors.new)
        (fault_line refusal.now ++ 10 ∷ []) }
    ensures whole { OnOk result
        (E.takes errors.old errors.new (fault_line refusal.now ++ 10 ∷ [])) }
    ensures cause { OnErr result
        (HasRisen (E.put_failures errors.old) (E.put_failures errors.new)) }
{
    errors.put(fault_line(refusal).as_bytes())?;
    errors.put(b"\n")
}

/// Says why there is no answer, in a line, as far as that can be put, and gives the status that the
/// program ends with.
pub(crate) fn ended<E: Sink>(errors: &mut E, answer: &Result<(), Refusal>) -> ExitCode
    ensures status { exit_status result ≡ verdict_status answer.now }
    ensures line { TakesPrefix (E.takes errors.old errors.new) (refusal_text answer.now) }
    ensures said { Says (E.takes errors.old errors.new) (refusal_text answer.now)
        (E.put_failures errors.old) (E.put_failures errors.new) }
{
    if let Err(refusal) = answer {
        let _ = put_refusal(errors, refusal);
    }
    ExitCode::from(verdict_status(answer))
}

/// What was found of a file: its sum, where that was asked for, or that it is accepted.
pub(crate) type FoundSum = Result<Option<[u8; DIGEST]>, Refusal>;

// The sum of what is left of a file, or of its track with this ID alone.
fn form_sum<S: Store, L: Ledger, M: Ledger>(
    alloc: Global,
    track: Option<u32>,
    leaving: Without,
    store: &mut S,
    steps: &mut Steps<L, M>,
) -> Result<[u8; DIGEST], Refusal>
    ensures store { KeepsFile S.Store store.old store.new }
    ensures answer { Summed (record { track = track; leaving = leaving })
        (look_of S.Store store.old store.new) result }
{
    let selection = Selection { track, leaving };
    sum_file(alloc, store, selection, steps)
}

/// Finds what is asked for of what is read.
pub(crate) fn find<S: Store, L: Ledger, M: Ledger>(
    alloc: Global,
    finding: Finding,
    store: &mut S,
    steps: &mut Steps<L, M>,
) -> FoundSum
    ensures store { KeepsFile S.Store store.old store.new }
    ensures answer { IsFound finding (look_of S.Store store.old store.new) result }
{
    match finding {
        Finding::Verdict => {
            check_counted(alloc, store, steps)?;
            Ok(None)
        }
        Finding::Sum {
            what: SumOf::Form(leaving),
            track,
            ..
        } => {
            let digest = form_sum(alloc, track, leaving, store, steps)?;
            Ok(Some(digest))
        }
        Finding::Sum {
            what: SumOf::Bytes,
            ..
        } => {
            let digest = sum_bytes(alloc, store)?;
            Ok(Some(digest))
        }
    }
}

/// The status of what was found of a file.
pub(crate) fn found_status(found: &FoundSum) -> u8
    ensures { result ≡ verdict_status found.now }
{
    match found {
        Ok(_) => 0,
        Err(refusal) => status(refusal),
    }
}

/// The status where two files differ, or one has another sum than it should.
pub(crate) const DIFFER: u8 = 5;

/// The status of a comparison: whether the files are the same, or why that isn't known.
pub(crate) fn comparison_status(answer: &Result<bool, Failure>) -> u8
    ensures { result ≡ comparison_status answer.now }
{
    match answer {
        Ok(true) => 0,
        Ok(false) => DIFFER,
        Err(failure) => status(&failure.refusal),
    }
}
