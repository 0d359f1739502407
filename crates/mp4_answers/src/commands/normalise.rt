//! The normal form of a file.
ghost use Rattle.std.specs.Prelude.{OnOk};
ghost use Rattle.mp4_answers.specs.format.Answers.{Normalised};
ghost use Rattle.mp4_answers.specs.format.Run.{KeepsFile, run_of};
ghost use Rattle.mp4_answers.specs.format.Steps.{WorksWithin, TurnsWithin, TakesEach};
ghost use Rattle.mp4_answers.specs.words.WholePut.{PutsWhole};
ghost use Rattle.mp4_content.specs.format.ReducedLaws.{nothing};
ghost use Rattle.mp4_present.specs.words.StoresRead.{WhereHonest};

use crate::commands::perform::perform_blank;
use crate::jobs::Job;
use mp4_boxes::{Refusal, Steps};
use mp4_plan::write_normal;
use mp4_present::open_movie;
use mp4_store::{Sink, Store};
use std::alloc::Global;
use std::marker::Brand;
use std::sync::ledger::{Blank, Ledger};

/// As `normalise`, with the steps that it takes counted: one for each table row, `traf`, run and
/// sample that is passed. At most 12 for each sample and each row of a file.
pub fn normalise_counted<S: Store, K: Sink, L: Ledger, M: Ledger>(
    alloc: Global,
    store: &mut S,
    sink: &mut K,
    steps: &mut Steps<L, M>,
) -> Result<(), Refusal>
    ensures store { KeepsFile S.Store store.old store.new }
    ensures answer { Normalised (run_of S.Store store.old store.new K.Sink sink.old sink.new)
        result }
    ensures whole { OnOk result (PutsWhole nothing (K.takes sink.old sink.new)) }
    ensures work { WhereHonest S.Store store.old (λ file.
        WorksWithin nothing file steps.old.passed steps.new.passed) }
    ensures least { OnOk result (WhereHonest S.Store store.old (λ file.
        TakesEach file steps.old.passed steps.new.passed)) }
    ensures looks { WhereHonest S.Store store.old
        (λ file. TurnsWithin file steps.old.looks steps.new.looks) }
{
    let movie = open_movie(alloc, store, steps)?;
    write_normal(alloc, &movie, store, sink, steps)
}

/// Puts the normal form of what the file denotes: one canonical fragmented file. The whole file is
/// judged and planned, and all memory is taken, before the first byte is put.
pub fn normalise<S: Store, K: Sink>(
    alloc: Global,
    store: &mut S,
    sink: &mut K,
) -> Result<(), Refusal>
    ensures store { KeepsFile S.Store store.old store.new }
    ensures answer { Normalised (run_of S.Store store.old store.new K.Sink sink.old sink.new)
        result }
    ensures whole { OnOk result (PutsWhole nothing (K.takes sink.old sink.new)) }
{
    let job = Job::Normalise;
    perform_blank::<S, K, Brand, Brand>(alloc, job, store, sink, Blank::new(1), Blank::new(1))
}
