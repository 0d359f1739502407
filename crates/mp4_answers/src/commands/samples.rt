//! The samples of a track, a line each.
ghost use Rattle.std.specs.Prelude.{ℕ, ◌≡◌, ◌+◌, ◌≤◌, OnOk};
ghost use Rattle.mp4_present.specs.words.InHand.{left_in_hand};
ghost use Rattle.mp4_present.specs.words.Movies.{IsWalkOf};
ghost use Rattle.mp4_present.specs.words.Carried.{RefusesCarry};
ghost use Rattle.mp4_present.specs.words.TrackWalks.{WhereMayTake};
ghost use Rattle.mp4_answers.specs.format.Texts.{lines_in_fragments};
ghost use Rattle.mp4_answers.specs.format.Steps.{WalksWithin, FindsWithin, TakesEach, OnJudged};
ghost use Rattle.mp4_answers.specs.format.Answers.{Listed};
ghost use Rattle.mp4_answers.specs.format.Run.{KeepsFile, run_of};
ghost use Rattle.mp4_present.specs.words.HandCarried.{StaysBefore, OfHand, HandWork, RefusedByBoth};
ghost use Rattle.mp4_present.specs.words.StoresRead.{OnlyReads, WhereHonest};
ghost use Rattle.mp4_answers.specs.words.StoreAndSink.{NoPutFails, PutsOrFails};
ghost use Rattle.mp4_answers.specs.words.ListedWalks.{IsBegun, IsFragmentOf, PutsAll, PutsLines, WhereFewCome};

use crate::commands::forms::head_of;
use crate::commands::perform::perform_blank;
use crate::commands::tracks::track_with;
use crate::jobs::{Form, Job};
use crate::text::sample_lines::put_lines;
use mp4_boxes::{Refusal, Steps};
use mp4_present::{Movie, OutBuffer, Walk, open_movie};
use mp4_store::{Sink, Store};
use std::alloc::Global;
use std::marker::Brand;
use std::sync::ledger::{Blank, Ledger};

/// How many bytes are put at once: a power of two, so that each put fills whole pages.
const ROOM: usize = 32_768;

// The text that is put: the form of its lines, and what waits of them.
#[derive(Drop)]
struct SampleText {
    form: Form,
    carrier: OutBuffer,
}

// Puts the lines of all samples in hand. The number is that of the next one.
fn put_hand<K: Sink, L: Ledger, M: Ledger>(
    text: &mut SampleText,
    number: &mut u64,
    movie: &Movie,
    walk: &mut Walk,
    sink: &mut K,
    steps: &mut Steps<L, M>,
) -> Result<(), Refusal>
    requires { IsWalkOf movie.now walk.old }
    ensures walk { OnOk result (StaysBefore movie.now walk.old walk.new) }
    ensures form { text.new.form ≡ text.old.form }
    ensures lines { (fragment : ℕ) × IsFragmentOf movie.now walk.old fragment
        × OfHand movie.now walk.old (λ hand. PutsLines K.Sink sink.old sink.new text.old.carrier
        text.new.carrier text.old.form fragment number.old number.new (left_in_hand hand) result) }
    ensures puts { PutsOrFails K.Sink sink.old sink.new result }
    ensures grows { steps.old.passed ≤ steps.new.passed }
    ensures work { HandWork movie.now walk.old walk.new result steps.old.passed steps.new.passed }
    ensures looks { steps.new.looks ≡ steps.old.looks }
{
    let fragment = walk.fragment(movie);
    let place = {
        let mut hand = walk.in_hand(movie);
        put_lines(
            text.form,
            fragment,
            &mut hand,
            number,
            &mut text.carrier,
            sink,
        )?;
        hand.place()
    };
    walk.keep(place, steps);
    Ok(())
}

// Puts the lines of all samples of a walk: at Ok all of them, at Err a front of them. A store that
// doesn't change is not taken as changed.
fn put_walk<S: Store, K: Sink, L: Ledger, M: Ledger>(
    text: &mut SampleText,
    movie: &Movie,
    walk: &mut Walk,
    store: &mut S,
    sink: &mut K,
    steps: &mut Steps<L, M>,
) -> Result<(), Refusal>
    requires walk { IsWalkOf movie.now walk.old }
    requires begun { IsBegun walk.old }
    ensures store { OnlyReads S.Store store.old store.new result }
    ensures puts { NoPutFails K.Sink sink.old sink.new result }
    ensures lines { WhereFewCome S.Store store.old movie.now walk.old (λ fragments samples.
        PutsAll K.Sink sink.old sink.new text.old.carrier
        (lines_in_fragments text.old.form 1 fragments samples) result) }
    ensures refusal { RefusedByBoth S.Store store.old store.new K.Sink sink.old sink.new result
        RefusesCarry }
    ensures grows { steps.old.passed ≤ steps.new.passed }
    ensures work { WhereMayTake S.Store store.old movie.now walk.old
        (λ file tree t n. steps.new.passed ≤ steps.old.passed + n) }
    ensures looks { steps.new.looks ≡ steps.old.looks }
{
    let mut number = 1;
    put_hand(text, &mut number, movie, walk, sink, steps)?;
    while walk.load(movie, store, steps)? {
        put_hand(text, &mut number, movie, walk, sink, steps)?;
    }
    text.carrier.flush(sink)
}

/// As `samples_as`, with the steps that it takes counted: at most 8 for each sample and each row
/// of the file, however many tracks it has.
pub fn samples_counted<S: Store, K: Sink, L: Ledger, M: Ledger>(
    alloc: Global,
    store: &mut S,
    id: u32,
    form: Form,
    sink: &mut K,
    steps: &mut Steps<L, M>,
) -> Result<(), Refusal>
    ensures store { KeepsFile S.Store store.old store.new }
    ensures answer { Listed id form (run_of S.Store store.old store.new K.Sink sink.old sink.new)
        result }
    ensures work { WhereHonest S.Store store.old
        (λ file. WalksWithin file steps.old.passed steps.new.passed) }
    ensures least { OnJudged result (WhereHonest S.Store store.old (λ file.
        TakesEach file steps.old.passed steps.new.passed)) }
    ensures looks { WhereHonest S.Store store.old
        (λ file. FindsWithin file steps.old.looks steps.new.looks) }
{
    let movie = open_movie(alloc, store, steps)?;
    let track = track_with(movie.tracks(), id)?;
    let mut walk = movie.walk(alloc, track)?;
    let carrier = OutBuffer::new(alloc, ROOM)?;
    let mut text = SampleText { form, carrier };
    text.carrier.carry(head_of(form), sink)?;
    put_walk(&mut text, &movie, &mut walk, store, sink, steps)
}

/// Puts a line for each sample of the track with this ID: number, decode time, composition time,
/// duration, flags, description index, size. An object of JSON says too where it lies: the place of
/// its first byte in the file, and the number of its `moof`, 0 for a sample of the tables. The file
/// is judged as a whole, and all memory is taken, before the first line is put.
pub fn samples_as<S: Store, K: Sink>(
    alloc: Global,
    store: &mut S,
    id: u32,
    form: Form,
    sink: &mut K,
) -> Result<(), Refusal>
    ensures store { KeepsFile S.Store store.old store.new }
    ensures answer { Listed id form (run_of S.Store store.old store.new K.Sink sink.old sink.new)
        result }
{
    let job = Job::Samples { track: id, form };
    perform_blank::<S, K, Brand, Brand>(alloc, job, store, sink, Blank::new(1), Blank::new(1))
}

/// Puts the lines of the samples, as `samples_as` does, in the plain form.
pub fn samples<S: Store, K: Sink>(
    alloc: Global,
    store: &mut S,
    id: u32,
    sink: &mut K,
) -> Result<(), Refusal>
    ensures store { KeepsFile S.Store store.old store.new }
    ensures answer { Listed id Form.Plain
        (run_of S.Store store.old store.new K.Sink sink.old sink.new) result }
{
    samples_as(alloc, store, id, Form::Plain, sink)
}
