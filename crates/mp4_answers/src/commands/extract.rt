//! The bytes of a track's samples.
ghost use Rattle.mp4_answers.specs.format.Steps.{WalksWithin, FindsWithin, TakesEach, OnJudged};
ghost use Rattle.mp4_answers.specs.format.Answers.{Extracted};
ghost use Rattle.mp4_answers.specs.format.Run.{KeepsFile, run_of};
ghost use Rattle.mp4_present.specs.words.StoresRead.{WhereHonest};

use crate::commands::perform::perform_blank;
use crate::commands::tracks::track_with;
use crate::jobs::Job;
use mp4_boxes::{Refusal, Steps};
use mp4_present::open_movie;
use mp4_store::{Sink, Store};
use std::alloc::Global;
use std::marker::Brand;
use std::sync::ledger::{Blank, Ledger};

/// As `extract`, with the steps that it takes counted: at most 8 for each sample and each row
/// of the file, however many tracks it has.
pub fn extract_counted<S: Store, K: Sink, L: Ledger, M: Ledger>(
    alloc: Global,
    store: &mut S,
    id: u32,
    sink: &mut K,
    steps: &mut Steps<L, M>,
) -> Result<(), Refusal>
    ensures store { KeepsFile S.Store store.old store.new }
    ensures answer { Extracted id (run_of S.Store store.old store.new K.Sink sink.old sink.new)
        result }
    ensures work { WhereHonest S.Store store.old
        (λ file. WalksWithin file steps.old.passed steps.new.passed) }
    ensures least { OnJudged result (WhereHonest S.Store store.old (λ file.
        TakesEach file steps.old.passed steps.new.passed)) }
    ensures looks { WhereHonest S.Store store.old
        (λ file. FindsWithin file steps.old.looks steps.new.looks) }
{
    let movie = open_movie(alloc, store, steps)?;
    let track = track_with(movie.tracks(), id)?;
    movie.copy_track(alloc, track, store, sink, steps)
}

/// Puts the bytes of the samples of the track with this ID, one after the other. The whole file is
/// judged, and all memory is taken, before the first byte is put.
pub fn extract<S: Store, K: Sink>(
    alloc: Global,
    store: &mut S,
    id: u32,
    sink: &mut K,
) -> Result<(), Refusal>
    ensures store { KeepsFile S.Store store.old store.new }
    ensures answer { Extracted id (run_of S.Store store.old store.new K.Sink sink.old sink.new)
        result }
{
    let job = Job::Extract { track: id };
    perform_blank::<S, K, Brand, Brand>(alloc, job, store, sink, Blank::new(1), Blank::new(1))
}
