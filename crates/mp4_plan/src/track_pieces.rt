//! Samples of a track, taken piece by piece.
ghost use Rattle.std.specs.Prelude.{◌≡◌, ◌+◌, ◌-◌, ◌*◌, ◌^◌, ◌<◌, ◌≤◌, List, length, take, None, slice_get, IfOk, OnOk, MatchResult};
ghost use Rattle.mp4_present.specs.words.InHand.{AreLast};
ghost use Rattle.mp4_present.specs.words.Movies.{IsWalkOf, HasSome, mark_of};
ghost use Rattle.mp4_present.specs.words.StoresRead.{IsUnchanged};
ghost use Rattle.mp4_present.specs.words.TrackWalks.{TakesSteps};
ghost use Rattle.mp4_plan.specs.words.Gathering.{count_of, more_of, planned_of, piece_from, piece_fed, samples_after};
ghost use Rattle.mp4_content.specs.words.GoneOn.{ComesMarked, WentOn};
ghost use Rattle.mp4_plan.specs.words.WriterSteps.{FinishesOn, OnlyPasses, WritesOn};
ghost use Rattle.mp4_plan.specs.words.HandsFed.{stop_of, HandFed, HandNoted, Notes};
ghost use Rattle.mp4_content.specs.words.GoneOn.{KeepsOn};
ghost use Rattle.mp4_content.specs.words.ComingLess.{ComesLess, less};
ghost use Rattle.mp4_plan.specs.words.Stretches.{JoinsOn};
ghost use Rattle.mp4_content.specs.words.Loading.{OnlyLoads};
ghost use Rattle.mp4_plan.specs.words.ReducedWalks.{HasBounds, HasRows, MayNote, WhereLess, WhereMayWrite};
ghost use Rattle.mp4_tables.specs.declared.sample.SampleAt.{SampleAt};

use crate::at_most::Limited;
use crate::ends::{Portion, first_goes};
use crate::noted_rows::{PieceNotes, Row};
use crate::planner::{Planned, Planner};
use crate::stretches::Stretches;
use mp4_boxes::{Refusal, Steps};
use mp4_content::{Reduced, Reduction, peek_sample, reduced_sample};
use mp4_present::{InHand, Movie, Place, Walk};
use mp4_store::Store;
use mp4_tables::{SampleAt, Samples};
use std::sync::ledger::Ledger;

/// The most samples of a presentation.
pub(crate) const MOST_SAMPLES: u32 = 1 << 24;

// What is left of a sample, where there is one.
fn reduced_next(reduction: Reduction, next: Option<SampleAt>) -> Option<SampleAt>
    ensures is { (samples : List SampleAt) → next ≡ slice_get samples 0
        → result ≡ slice_get (less reduction samples) 0 }
    ensures none { next ≡ None → result ≡ None }
{
    match next {
        Some(sample) => Some(reduced_sample(reduction, sample)),
        None => None,
    }
}

/// What is left of the next sample of a walk, which stays the next.
pub(crate) fn next_sample<S: Store, L: Ledger, M: Ledger>(
    walk: &mut Walk,
    reduction: Reduction,
    movie: &Movie,
    store: &mut S,
    steps: &mut Steps<L, M>,
) -> Result<Option<SampleAt>, Refusal>
    requires { IsWalkOf movie.now walk.old }
    ensures loads { OnlyLoads movie.now walk.old walk.new S.Store store.old store.new result }
    ensures went { OnOk result
        (WentOn movie.now walk.old walk.new steps.old.passed steps.new.passed) }
    ensures coming { WhereLess S.Store store.old movie.now reduction walk.old
        (λ file tree t samples. IfOk result (λ next.
        ComesLess reduction file tree t movie.now walk.new samples
        × (next ≡ slice_get samples 0))) }
    ensures some { IfOk result (λ next. (next ≡ None → ⊥) → HasSome movie.now walk.new) }
    ensures unchanged { WhereLess S.Store store.old movie.now reduction walk.old
        (λ file tree t samples. IsUnchanged result) }
    ensures work { TakesSteps S.Store store.old movie.now walk.old walk.new result
        steps.old.passed steps.new.passed }
    ensures looks { steps.new.looks ≡ steps.old.looks }
{
    let next = peek_sample(walk, movie, store, steps)?;
    Ok(reduced_next(reduction, next))
}

/// What is left of the next sample of a walk, which stays the next, and is marked. As many samples
/// are to come as at its mark before.
pub(crate) fn next_marked<S: Store, L: Ledger, M: Ledger>(
    walk: &mut Walk,
    reduction: Reduction,
    movie: &Movie,
    store: &mut S,
    steps: &mut Steps<L, M>,
) -> Result<Option<SampleAt>, Refusal>
    requires { IsWalkOf movie.now walk.old }
    ensures loads { OnlyLoads movie.now walk.old walk.new S.Store store.old store.new result }
    ensures marked { OnOk result (walk.new.mark ≡ mark_of walk.new walk.old.mark.to_come) }
    ensures coming { WhereLess S.Store store.old movie.now reduction walk.old
        (λ file tree t samples. IfOk result (λ next.
        ComesLess reduction file tree t movie.now walk.new samples
        × (next ≡ slice_get samples 0))) }
    ensures unchanged { WhereLess S.Store store.old movie.now reduction walk.old
        (λ file tree t samples. IsUnchanged result) }
    ensures grows { OnOk result (steps.old.passed ≤ steps.new.passed) }
    ensures work { TakesSteps S.Store store.old movie.now walk.old walk.new result
        steps.old.passed steps.new.passed }
    ensures writes { WhereMayWrite S.Store store.old movie.now walk.old (λ file tree t n.
        OnOk result (WritesOn file tree movie.now t n walk.new steps.old.passed steps.new.passed)) }
    ensures looks { steps.new.looks ≡ steps.old.looks }
{
    let left = walk.to_come();
    let next = next_sample(walk, reduction, movie, store, steps)?;
    walk.mark(left);
    Ok(next)
}

// Why feeding the samples in hand came to an end.
#[derive(Clone, Copy, Debug, PartialEq, Eq)]
enum Stop {
    /// None is left.
    Empty,
    /// The next one doesn't go into the piece.
    Ended,
    /// There is no room for the next one.
    Full,
}

// What feeding the samples in hand gave.
#[derive(Drop)]
struct FedHand {
    stop: Stop,
    place: Place,
}

// Why a piece took no more samples than those before this one.
fn stop_at(planner: &Planner, next: Option<SampleAt>) -> Stop
    ensures { result ≡ stop_of planner.now next }
{
    match next {
        Some(sample) if planner.takes(&sample) => Stop::Full,
        Some(_) => Stop::Ended,
        None => Stop::Empty,
    }
}

// Feeds the samples in hand to a planner, at most 2^24 for a piece. Its loop stays apart from that
// of its one caller, as that of `count_hand` does.
#[inline(never)]
fn feed_hand(planner: &mut Planner, walk: &Walk, reduction: Reduction, movie: &Movie) -> FedHand
    requires walk { IsWalkOf movie.now walk.now }
    requires few { count_of planner.old.gathered ≤ MOST_SAMPLES }
    ensures fed { HandFed reduction movie.now walk.now
        (MOST_SAMPLES - count_of planner.old.gathered)
        planner.old planner.new result.stop result.place }
    ensures few { count_of planner.new.gathered ≤ MOST_SAMPLES }
    ensures place { IsWalkOf movie.now (record walk.now { place = result.place }) }
    ensures keeps { KeepsOn movie.now walk.now result.place }
{
    let mut hand = Limited {
        inner: Reduced {
            inner: walk.in_hand(movie),
            reduction,
        },
        left: MOST_SAMPLES - planner.piece().count,
    };
    let _ = planner.feed(&mut hand);
    FedHand {
        stop: stop_at(planner, hand.inner.peek()),
        place: hand.inner.inner.place(),
    }
}

// Notes what is left of samples, as `Planner::note` does. Samples that stay as they are have a loop
// of their own, which asks of none what is left of it.
#[inline(always)]
fn note_left<C: Samples>(
    planner: &mut Planner,
    samples: &mut Reduced<C>,
    rows: &mut [Row],
    stretches: &mut Stretches,
)
    requires { count_of planner.old.gathered + length rows.old < 2 ^ 32 }
    ensures noted { Notes planner.old planner.new
        (less samples.old.reduction (C.rest samples.old.inner))
        (less samples.new.reduction (C.rest samples.new.inner)) rows.old rows.new }
    ensures joined { JoinsOn stretches.old stretches.new
        (take (count_of planner.new.gathered - count_of planner.old.gathered)
        (less samples.old.reduction (C.rest samples.old.inner))) }
    ensures few { count_of planner.new.gathered ≤ count_of planner.old.gathered + length rows.old }
    ensures later { C.follows samples.old.inner samples.new.inner
        × (samples.new.reduction ≡ samples.old.reduction)
        × AreLast (C.rest samples.old.inner) (C.rest samples.new.inner) }
{
    if samples.reduction.keeps_samples() {
        planner.note(&mut samples.inner, rows, stretches);
    } else {
        planner.note(samples, rows, stretches);
    }
}

// Feeds the samples in hand to a planner and notes them, at most as many as there are rows. Its
// loop stays apart, too.
#[inline(never)]
fn note_hand(
    planner: &mut Planner,
    walk: &Walk,
    reduction: Reduction,
    movie: &Movie,
    rows: &mut [Row],
    stretches: &mut Stretches,
) -> FedHand
    requires walk { IsWalkOf movie.now walk.now }
    requires few { count_of planner.old.gathered + length rows.old < 2 ^ 32 }
    ensures fed { HandNoted reduction movie.now walk.now (length rows.old)
        planner.old planner.new result.stop result.place rows.new stretches.old stretches.new }
    ensures few { count_of planner.new.gathered ≤ count_of planner.old.gathered + length rows.old }
    ensures place { IsWalkOf movie.now (record walk.now { place = result.place }) }
    ensures keeps { KeepsOn movie.now walk.now result.place }
{
    match walk.in_hand(movie) {
        InHand::Tables(inner) => {
            let mut hand = Reduced { inner, reduction };
            note_left(planner, &mut hand, rows, stretches);
            FedHand {
                stop: stop_at(planner, hand.peek()),
                place: Place::Tables(hand.inner.place()),
            }
        }
        InHand::Fragment(inner) => {
            let mut hand = Reduced { inner, reduction };
            note_left(planner, &mut hand, rows, stretches);
            FedHand {
                stop: stop_at(planner, hand.peek()),
                place: Place::Fragment(hand.inner.place()),
            }
        }
    }
}

/// Plans the next piece of a walk.
pub(crate) fn plan_piece<S: Store, L: Ledger, M: Ledger>(
    walk: &mut Walk,
    portion: Portion,
    movie: &Movie,
    store: &mut S,
    steps: &mut Steps<L, M>,
) -> Result<Planned, Refusal>
    requires { IsWalkOf movie.now walk.old }
    ensures loads { OnlyLoads movie.now walk.old walk.new S.Store store.old store.new result }
    ensures planned { WhereLess S.Store store.old movie.now portion.reduction walk.old
        (λ file tree t samples. IfOk result (λ p.
        (p ≡ planned_of (piece_fed (piece_from portion.end) samples).gathered)
        × ComesLess portion.reduction file tree t movie.now walk.new
        (samples_after (piece_from portion.end) samples))) }
    ensures unchanged { WhereLess S.Store store.old movie.now portion.reduction walk.old
        (λ file tree t samples. length samples ≤ MOST_SAMPLES → IsUnchanged result) }
    ensures bounds { IfOk result (HasBounds MOST_SAMPLES) }
    ensures grows { OnOk result (steps.old.passed ≤ steps.new.passed) }
    ensures work { TakesSteps S.Store store.old movie.now walk.old walk.new result
        steps.old.passed steps.new.passed }
    ensures looks { steps.new.looks ≡ steps.old.looks }
{
    let mut planner = Planner::new(portion.end);
    loop {
        let hand = feed_hand(&mut planner, walk, portion.reduction, movie);
        walk.keep(hand.place, steps);
        match hand.stop {
            Stop::Full => return Err(Refusal::StoreChanged),
            Stop::Ended => return Ok(planner.piece()),
            Stop::Empty => {
                if !walk.load(movie, store, steps)? {
                    return Ok(planner.piece());
                }
            }
        }
    }
}

/// Plans the piece of a turn, which may have no samples, of a walk of which this sample is the
/// next.
pub(crate) fn plan_turn<S: Store, L: Ledger, M: Ledger>(
    walk: &mut Walk,
    portion: Portion,
    next: &mut Option<SampleAt>,
    movie: &Movie,
    store: &mut S,
    steps: &mut Steps<L, M>,
) -> Result<Planned, Refusal>
    requires { IsWalkOf movie.now walk.old }
    ensures loads { OnlyLoads movie.now walk.old walk.new S.Store store.old store.new result }
    ensures planned { WhereLess S.Store store.old movie.now portion.reduction walk.old
        (λ file tree t samples. next.old ≡ slice_get samples 0
        → IfOk result (λ p. (p ≡ planned_of (piece_fed (piece_from portion.end) samples).gathered)
        × ComesLess portion.reduction file tree t movie.now walk.new
        (samples_after (piece_from portion.end) samples)
        × (next.new ≡ slice_get (samples_after (piece_from portion.end) samples) 0))) }
    ensures unchanged { WhereLess S.Store store.old movie.now portion.reduction walk.old
        (λ file tree t samples. length samples ≤ MOST_SAMPLES → IsUnchanged result) }
    ensures bounds { IfOk result (HasBounds MOST_SAMPLES) }
    ensures grows { OnOk result (steps.old.passed ≤ steps.new.passed) }
    ensures work { TakesSteps S.Store store.old movie.now walk.old walk.new result
        steps.old.passed steps.new.passed }
    ensures looks { steps.new.looks ≡ steps.old.looks }
{
    if !first_goes(&portion.end, next) {
        return Ok(Planner::new(portion.end).piece());
    }
    let planned = plan_piece(walk, portion, movie, store, steps)?;
    *next = next_sample(walk, portion.reduction, movie, store, steps)?;
    Ok(planned)
}

// Plans the next piece of a walk, and notes its samples in the rows, and where their
// bytes lie. Where there is no room for the rows, the store has changed.
fn note_piece<S: Store, L: Ledger, M: Ledger>(
    walk: &mut Walk,
    portion: Portion,
    notes: &mut PieceNotes,
    movie: &Movie,
    store: &mut S,
    steps: &mut Steps<L, M>,
) -> Result<Planned, Refusal>
    requires { MayNote movie.now walk.old notes.old.rows.items }
    ensures loads { OnlyLoads movie.now walk.old walk.new S.Store store.old store.new result }
    ensures went { OnOk result
        (WentOn movie.now walk.old walk.new steps.old.passed steps.new.passed) }
    ensures planned { WhereLess S.Store store.old movie.now portion.reduction walk.old
        (λ file tree t samples. IfOk result (λ p.
        (p ≡ planned_of (piece_fed (piece_from portion.end) samples).gathered)
        × ComesLess portion.reduction file tree t movie.now walk.new
        (samples_after (piece_from portion.end) samples))) }
    ensures noted { WhereLess S.Store store.old movie.now portion.reduction walk.old
        (λ file tree t samples. IfOk result
        (λ p. HasRows p.count samples notes.new.rows.items notes.old.stretches
        notes.new.stretches)) }
    ensures unchanged { WhereLess S.Store store.old movie.now portion.reduction walk.old
        (λ file tree t samples. more_of (piece_from portion.end) samples
        ≤ length notes.old.rows.items
        → IsUnchanged result) }
    ensures room { length notes.new.rows.items ≡ length notes.old.rows.items }
    ensures bounds { IfOk result (HasBounds (length notes.old.rows.items)) }
    ensures work { TakesSteps S.Store store.old movie.now walk.old walk.new result
        steps.old.passed steps.new.passed }
    ensures looks { steps.new.looks ≡ steps.old.looks }
{
    let mut planner = Planner::new(portion.end);
    let rows = notes.rows.as_mut_slice();
    let stretches = &mut notes.stretches;
    loop {
        let noted = planner.piece().count as usize;
        let rows = &mut rows[noted..];
        let hand = note_hand(
            &mut planner,
            walk,
            portion.reduction,
            movie,
            rows,
            stretches,
        );
        walk.keep(hand.place, steps);
        match hand.stop {
            Stop::Full => return Err(Refusal::StoreChanged),
            Stop::Ended => return Ok(planner.piece()),
            Stop::Empty => {
                if !walk.load(movie, store, steps)? {
                    return Ok(planner.piece());
                }
            }
        }
    }
}

/// Plans the next piece of a walk that has marked where it stands, before a sample that goes into
/// it, and notes its samples. Where it has none, or more than are to come, or there is no room for
/// the rows, the store has changed.
pub(crate) fn note_marked<S: Store, L: Ledger, M: Ledger>(
    walk: &mut Walk,
    portion: Portion,
    notes: &mut PieceNotes,
    movie: &Movie,
    store: &mut S,
    steps: &mut Steps<L, M>,
) -> Result<Planned, Refusal>
    requires { MayNote movie.now walk.old notes.old.rows.items }
    ensures loads { OnlyLoads movie.now walk.old walk.new S.Store store.old store.new result }
    ensures planned { WhereLess S.Store store.old movie.now portion.reduction walk.old
        (λ file tree t samples. IfOk result (λ p.
        (p ≡ planned_of (piece_fed (piece_from portion.end) samples).gathered)
        × (walk.old.mark ≡ mark_of walk.old (length samples)
        → ComesMarked portion.reduction file tree t movie.now walk.new p.count samples))) }
    ensures noted { WhereLess S.Store store.old movie.now portion.reduction walk.old
        (λ file tree t samples. IfOk result
        (λ p. HasRows p.count samples notes.new.rows.items notes.old.stretches
        notes.new.stretches)) }
    ensures unchanged { WhereLess S.Store store.old movie.now portion.reduction walk.old
        (λ file tree t samples. walk.old.mark ≡ mark_of walk.old (length samples)
        → 0 < more_of (piece_from portion.end) samples
        → more_of (piece_from portion.end) samples ≤ length notes.old.rows.items
        → IsUnchanged result) }
    ensures some { IfOk result (λ p. 0 < p.count) }
    ensures room { length notes.new.rows.items ≡ length notes.old.rows.items }
    ensures bounds { IfOk result (HasBounds (length notes.old.rows.items)) }
    ensures work { WhereMayWrite S.Store store.old movie.now walk.old (λ file tree t n.
        MatchResult result (λ p. FinishesOn portion.reduction file tree movie.now p.count t n
        walk.new steps.old.passed steps.new.passed)
        (λ r. steps.new.passed ≤ steps.old.passed + n)) }
    ensures steps { OnlyPasses steps.old.passed steps.new.passed steps.old.looks
        steps.new.looks result }
{
    let left = walk.to_come();
    let planned = note_piece(walk, portion, notes, movie, store, steps)?;
    if planned.count == 0 || planned.count > left {
        return Err(Refusal::StoreChanged);
    }
    Ok(planned)
}
