//! How many samples the next piece of a walk has.
ghost use Rattle.std.specs.Prelude.{◌≡◌, ◌+◌, ◌<◌, ◌≤◌, length, slice_get, IfOk, OnOk};
ghost use Rattle.mp4_present.specs.words.InHand.{AreLast};
ghost use Rattle.mp4_present.specs.words.Movies.{IsWalkOf};
ghost use Rattle.mp4_present.specs.words.StoresRead.{IsUnchanged};
ghost use Rattle.mp4_present.specs.words.TrackWalks.{TakesSteps};
ghost use Rattle.mp4_content.specs.words.ComingLess.{less};
ghost use Rattle.mp4_plan.specs.words.Counting.{CountsFirst, HandCounted, HasCounted, PieceCounted, StopsAt};
ghost use Rattle.mp4_plan.specs.words.Ends.{goes_in};
ghost use Rattle.mp4_content.specs.words.GoneOn.{KeepsOn};
ghost use Rattle.mp4_content.specs.words.Loading.{OnlyLoads};
ghost use Rattle.mp4_plan.specs.words.ReducedWalks.{WhereLess};

use crate::ends::{End, Portion, goes_in, has_ended};
use crate::track_pieces::MOST_SAMPLES;
use mp4_boxes::{Refusal, Steps};
use mp4_content::{Reduced, Reduction};
use mp4_present::{InHand, Movie, Place, Walk};
use mp4_store::Store;
use mp4_tables::{SampleAt, Samples};
use std::sync::ledger::Ledger;

// How many samples a piece has, and the next one behind them.
#[derive(Clone, Copy, Debug, PartialEq, Eq)]
struct Counted {
    count: u32,
    next: Option<SampleAt>,
}

// The same of what is in hand, and where that goes on.
#[derive(Drop)]
struct CountedHand {
    count: u32,
    next: Option<SampleAt>,
    place: Place,
}

// Passes some samples that go into a piece with this end and description, at most so many, and
// counts them: none where the next one doesn't go in. Pieces of the first track end at sync
// samples, so others are passed together.
#[inline(always)]
fn count_some<S: Samples>(samples: &mut S, end: &End, description: u32, most: u32) -> u32
    requires { 0 < most }
    ensures counts { CountsFirst (goes_in end.now description) result (S.rest samples.old)
        (S.rest samples.new) }
    ensures few { result ≤ most }
    ensures stops { result ≡ 0
        → StopsAt (goes_in end.now description) 1 0 (slice_get (S.rest samples.new) 0) }
    ensures later { S.follows samples.old samples.new }
{
    let Some(sample) = samples.peek() else {
        return 0;
    };
    if !goes_in(end, description, &sample) {
        return 0;
    }
    if let End::Sync { .. } = *end
        && sample.flags / 0x1_0000 % 2 == 1
    {
        let count = samples.pass_non_sync(description, most);
        if count > 0 {
            return count;
        }
    }
    samples.pass(&sample);
    1
}

// Passes the samples that go into a piece with this end and description, at most so many, and
// counts them.
#[inline(always)]
fn count_in<S: Samples>(samples: &mut S, end: &End, description: u32, most: u32) -> u32
    ensures counts { CountsFirst (goes_in end.now description) result (S.rest samples.old)
        (S.rest samples.new) }
    ensures few { result ≤ most }
    ensures stops { StopsAt (goes_in end.now description) most result
        (slice_get (S.rest samples.new) 0) }
    ensures later { S.follows samples.old samples.new }
{
    let mut count = 0;
    while count < most {
        let some = count_some(samples, end, description, most - count);
        if some == 0 {
            return count;
        }
        count += some;
    }
    count
}

// Counts what is left of samples, as `count_in` does. Samples that stay as they are have a loop of
// their own, which asks of none what is left of it.
#[inline(always)]
fn count_left<C: Samples>(samples: &mut Reduced<C>, end: &End, description: u32, most: u32) -> u32
    ensures counts { CountsFirst (goes_in end.now description) result
        (less samples.old.reduction (C.rest samples.old.inner))
        (less samples.new.reduction (C.rest samples.new.inner)) }
    ensures few { result ≤ most }
    ensures stops { StopsAt (goes_in end.now description) most result
        (slice_get (less samples.new.reduction (C.rest samples.new.inner)) 0) }
    ensures later { C.follows samples.old.inner samples.new.inner
        × (samples.new.reduction ≡ samples.old.reduction)
        × AreLast (C.rest samples.old.inner) (C.rest samples.new.inner) }
{
    if samples.reduction.keeps_samples() {
        count_in(&mut samples.inner, end, description, most)
    } else {
        count_in(samples, end, description, most)
    }
}

// Counts the samples in hand that go into a piece with this end and description, at most so many.
// Its loop stays apart from that of its one caller, which would make it slower (`bench/samples`).
#[inline(never)]
fn count_hand(
    walk: &Walk,
    reduction: Reduction,
    movie: &Movie,
    end: &End,
    description: u32,
    most: u32,
) -> CountedHand
    requires { IsWalkOf movie.now walk.now }
    ensures counted { HandCounted reduction movie.now walk.now (goes_in end.now description) most
        result.count result.next result.place }
    ensures place { IsWalkOf movie.now (record walk.now { place = result.place }) }
    ensures keeps { KeepsOn movie.now walk.now result.place }
{
    match walk.in_hand(movie) {
        InHand::Tables(inner) => {
            let mut hand = Reduced { inner, reduction };
            let count = count_left(&mut hand, end, description, most);
            CountedHand {
                count,
                next: hand.peek(),
                place: Place::Tables(hand.inner.place()),
            }
        }
        InHand::Fragment(inner) => {
            let mut hand = Reduced { inner, reduction };
            let count = count_left(&mut hand, end, description, most);
            CountedHand {
                count,
                next: hand.peek(),
                place: Place::Fragment(hand.inner.place()),
            }
        }
    }
}

// Passes the samples of a walk that go into a piece with this description, and counts them.
// Where they are more than 2^24, the store has changed.
fn count_piece<S: Store, L: Ledger, M: Ledger>(
    walk: &mut Walk,
    portion: Portion,
    description: u32,
    movie: &Movie,
    store: &mut S,
    steps: &mut Steps<L, M>,
) -> Result<Counted, Refusal>
    requires { IsWalkOf movie.now walk.old }
    ensures loads { OnlyLoads movie.now walk.old walk.new S.Store store.old store.new result }
    ensures counted { WhereLess S.Store store.old movie.now portion.reduction walk.old
        (λ file tree t samples.
        IfOk result (λ c. HasCounted portion.reduction file tree t movie.now walk.new
        (goes_in portion.end description) samples c.count c.next)) }
    ensures unchanged { WhereLess S.Store store.old movie.now portion.reduction walk.old
        (λ file tree t samples. length samples ≤ MOST_SAMPLES → IsUnchanged result) }
    ensures few { IfOk result (λ c. c.count ≤ MOST_SAMPLES) }
    ensures grows { OnOk result (steps.old.passed ≤ steps.new.passed) }
    ensures work { TakesSteps S.Store store.old movie.now walk.old walk.new result
        steps.old.passed steps.new.passed }
    ensures looks { steps.new.looks ≡ steps.old.looks }
{
    let mut count = 0;
    loop {
        let hand = count_hand(
            walk,
            portion.reduction,
            movie,
            &portion.end,
            description,
            MOST_SAMPLES - count,
        );
        walk.keep(hand.place, steps);
        count += hand.count;
        if let Some(sample) = hand.next {
            if goes_in(&portion.end, description, &sample) {
                return Err(Refusal::StoreChanged);
            }
            return Ok(Counted {
                count,
                next: hand.next,
            });
        }
        if !walk.load(movie, store, steps)? {
            return Ok(Counted { count, next: None });
        }
    }
}

/// Counts the samples of the piece of a turn, which may have none, of a walk of which this sample
/// is the next. Where they are more than 2^24, the store has changed.
pub(crate) fn count_turn<S: Store, L: Ledger, M: Ledger>(
    walk: &mut Walk,
    portion: Portion,
    next: &mut Option<SampleAt>,
    movie: &Movie,
    store: &mut S,
    steps: &mut Steps<L, M>,
) -> Result<u32, Refusal>
    requires { IsWalkOf movie.now walk.old }
    ensures loads { OnlyLoads movie.now walk.old walk.new S.Store store.old store.new result }
    ensures counted { WhereLess S.Store store.old movie.now portion.reduction walk.old
        (λ file tree t samples. next.old ≡ slice_get samples 0
        → IfOk result
        (λ n. PieceCounted portion.reduction file tree t movie.now walk.new portion.end samples n
        next.new)) }
    ensures unchanged { WhereLess S.Store store.old movie.now portion.reduction walk.old
        (λ file tree t samples. length samples ≤ MOST_SAMPLES → IsUnchanged result) }
    ensures few { IfOk result (λ n. n ≤ MOST_SAMPLES) }
    ensures grows { OnOk result (steps.old.passed ≤ steps.new.passed) }
    ensures work { TakesSteps S.Store store.old movie.now walk.old walk.new result
        steps.old.passed steps.new.passed }
    ensures looks { steps.new.looks ≡ steps.old.looks }
{
    let Some(first) = *next else {
        return Ok(0);
    };
    if has_ended(&portion.end, &first) {
        return Ok(0);
    }
    let piece = count_piece(walk, portion, first.description, movie, store, steps)?;
    *next = piece.next;
    Ok(piece.count)
}
