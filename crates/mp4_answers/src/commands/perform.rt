//! What a command does over a store.
ghost use Rattle.std.specs.Prelude.{OnOk};
ghost use Rattle.mp4_answers.specs.format.Answers.{Performed};
ghost use Rattle.mp4_answers.specs.format.Run.{KeepsFile, run_of};
ghost use Rattle.mp4_answers.specs.words.Jobs.{JobWorksWithin, JobLooksWithin, JobTakesEach};
ghost use Rattle.mp4_answers.specs.words.WholePut.{JobPutsWhole};
ghost use Rattle.mp4_present.specs.words.StoresRead.{WhereHonest};
ghost use Rattle.mp4_answers.specs.words.StoreAndSink.{IsOf};

use crate::commands::boxes::{boxes_as, boxes_with_fields};
use crate::commands::extract::extract_counted;
use crate::commands::normalise::normalise_counted;
use crate::commands::normalise_reduced::normalise_reduced;
use crate::commands::print::print;
use crate::commands::samples::samples_counted;
use crate::commands::show::show_counted;
use crate::commands::strip::strip;
use crate::jobs::Job;
use mp4_boxes::{Refusal, Steps};
use mp4_store::{Sink, Store};
use std::alloc::Global;
use std::sync::ledger::{Blank, Ledger};

/// Does a job: all that is put is the job's own text of the file. The steps are counted, and
/// are those of one run; those of `boxes` and `strip` are not.
pub fn perform<S: Store, K: Sink, L: Ledger, M: Ledger>(
    alloc: Global,
    job: Job,
    store: &mut S,
    sink: &mut K,
    steps: &mut Steps<L, M>,
) -> Result<(), Refusal>
    ensures store { KeepsFile S.Store store.old store.new }
    ensures answer { Performed job.entry
        (run_of S.Store store.old store.new K.Sink sink.old sink.new)
        result }
    ensures whole { OnOk result
        (JobPutsWhole job.entry (K.takes sink.old sink.new)) }
    ensures work { WhereHonest S.Store store.old
        (λ file. JobWorksWithin job.entry file steps.old.passed steps.new.passed) }
    ensures least { OnOk result (WhereHonest S.Store store.old
        (λ file. JobTakesEach job.entry file steps.old.passed steps.new.passed)) }
    ensures looks { WhereHonest S.Store store.old
        (λ file. JobLooksWithin job.entry file steps.old.looks steps.new.looks) }
{
    match job {
        Job::Boxes { syntax } => boxes_as(alloc, store, syntax, sink),
        Job::Fields { syntax, rows } => boxes_with_fields(alloc, store, syntax, rows, sink),
        Job::Show => show_counted(alloc, store, sink, steps),
        Job::Samples { track, form } => samples_counted(alloc, store, track, form, sink, steps),
        Job::Extract { track } => extract_counted(alloc, store, track, sink, steps),
        Job::Strip { names } => strip(alloc, store, names, sink),
        Job::Normalise => normalise_counted(alloc, store, sink, steps),
        Job::Print { selection } => print(alloc, store, sink, selection, steps),
        Job::Reduce { selection } => normalise_reduced(alloc, store, sink, selection, steps),
    }
}

/// As `perform`; steps and looks are counted in these ledgers, for nobody.
pub(crate) fn perform_blank<S: Store, K: Sink, L: Ledger, M: Ledger>(
    alloc: Global,
    job: Job,
    store: &mut S,
    sink: &mut K,
    steps: Blank,
    looks: Blank,
) -> Result<(), Refusal>
    requires steps { IsOf L.Ledger steps }
    requires looks { IsOf M.Ledger looks }
    ensures store { KeepsFile S.Store store.old store.new }
    ensures answer { Performed job.entry
        (run_of S.Store store.old store.new K.Sink sink.old sink.new)
        result }
    ensures whole { OnOk result
        (JobPutsWhole job.entry (K.takes sink.old sink.new)) }
{
    let mut counted = Steps::<L, M>::new(steps, looks);
    perform(alloc, job, store, sink, &mut counted)
}
