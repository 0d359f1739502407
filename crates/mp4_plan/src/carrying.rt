//! Bytes of a track's samples, copied piece by piece.
ghost use Rattle.std.specs.Prelude.{◌≡◌, ◌+◌, ◌-◌, ◌<◌, ◌≤◌, [], length, take, drop, vec_len, IfOk, MatchResult, OnOk};
ghost use Rattle.std.specs.List.{AllByRecursion};
ghost use Rattle.mp4_present.specs.words.Carried.{GoOnBy, RefusesCarry, waiting};
ghost use Rattle.mp4_content.specs.declared.reduced.Reduction.{Reduction};
ghost use Rattle.mp4_present.specs.words.HandCarried.{RefusedByBoth};
ghost use Rattle.mp4_present.specs.words.SamplesComing.{Comes};
ghost use Rattle.mp4_present.specs.words.InHand.{Follows, left_in_hand};
ghost use Rattle.mp4_present.specs.words.Joined.{IsBelow, sample_bytes};
ghost use Rattle.mp4_present.specs.words.Movies.{IsWalkOf};
ghost use Rattle.mp4_present.specs.words.OutBuffers.{Carries, OnlyCopies};
ghost use Rattle.mp4_present.specs.words.StoresRead.{IsUnchanged, WhereHonest};
ghost use Rattle.mp4_present.specs.words.TrackWalks.{TakesSteps, WhereComes};
ghost use Rattle.mp4_content.specs.words.ComingLess.{ComesLess};
ghost use Rattle.mp4_content.specs.words.GoneOn.{GoesPast, WentOn};
ghost use Rattle.mp4_plan.specs.words.HandsFed.{sizes_of};
ghost use Rattle.mp4_plan.specs.words.CarriedPieces.{CarriesPiece};
ghost use Rattle.mp4_plan.specs.words.CarriedSamples.{AreThere, CarriesFirst, HasMarkInHand, MarksNext, StepsAgain, StepsInHand, StepsMarked, WhereMarkedLess, WhereMayFinish, WhereToldLess};
ghost use Rattle.mp4_plan.specs.words.WriterSteps.{WritesOn};

use crate::stretches::Stretches;
use crate::track_pieces::next_sample;
use mp4_boxes::{Refusal, Steps};
use mp4_content::Reduction;
use mp4_present::{InHand, Movie, OutBuffer, Walk, next_stretch};
use mp4_store::{Sink, Store};
use mp4_tables::SampleAt;
use std::sync::ledger::Ledger;

// How many samples and bytes of a piece are left to be copied.
#[derive(Clone, Copy, Debug, PartialEq, Eq)]
pub(crate) struct Load {
    pub(crate) samples: u32,
    pub(crate) bytes: u64,
}

/// What was noted of the bytes of a piece: where they lie, and of how many samples how many they
/// are.
#[derive(Clone, Copy)]
pub(crate) struct NotedBytes<'a> {
    pub(crate) stretches: &'a Stretches,
    pub(crate) load: Load,
}

// Takes the bytes of samples in hand along, and says what is left then. Where they have more bytes
// than are left, the store has changed.
fn carry_hand<S: Store, K: Sink>(
    hand: &mut InHand,
    load: Load,
    carrier: &mut OutBuffer,
    store: &mut S,
    sink: &mut K,
) -> Result<Load, Refusal>
    ensures later { OnOk result (Follows hand.old hand.new) }
    ensures put { WhereHonest S.Store store.old (λ file.
        CarriesFirst file K.Sink sink.old sink.new carrier.old carrier.new result load
        (left_in_hand hand.old) (left_in_hand hand.new)) }
    ensures many { IfOk result (λ left. (left.bytes ≤ load.bytes)
        × GoOnBy (K.takes sink.old sink.new) (waiting carrier.old)
        (waiting carrier.new) (load.bytes - left.bytes)) }
    ensures ends { IfOk result (λ left. 0 < left.samples → left_in_hand hand.new ≡ []) }
    ensures unchanged { WhereHonest S.Store store.old (λ file.
        AllByRecursion (IsBelow (length file)) (left_in_hand hand.old)
        → sizes_of (take load.samples (left_in_hand hand.old)) ≤ load.bytes
        → IsUnchanged result) }
    ensures room { vec_len carrier.new.buffer ≡ vec_len carrier.old.buffer }
    ensures devices { OnlyCopies S.Store store.old store.new K.Sink sink.old sink.new result }
    ensures refusal { RefusedByBoth S.Store store.old store.new K.Sink sink.old sink.new result
        RefusesCarry }
{
    let mut left = load;
    while let Some(stretch) = next_stretch(hand, left.samples) {
        if stretch.len > left.bytes {
            return Err(Refusal::StoreChanged);
        }
        carrier.carry_stretch(stretch, store, sink)?;
        left = Load {
            samples: left.samples - stretch.samples,
            bytes: left.bytes - stretch.len,
        };
    }
    Ok(left)
}

// Takes the bytes of the next samples of a walk along, so many samples with so many bytes. Where
// these are not as many, the store has changed.
fn carry_piece<S: Store, K: Sink, L: Ledger, M: Ledger>(
    walk: &mut Walk,
    load: Load,
    carrier: &mut OutBuffer,
    movie: &Movie,
    store: &mut S,
    sink: &mut K,
    steps: &mut Steps<L, M>,
) -> Result<(), Refusal>
    requires { IsWalkOf movie.now walk.old }
    ensures piece { CarriesPiece movie.now walk.old walk.new S.Store store.old store.new
        K.Sink sink.old sink.new carrier.old carrier.new load.bytes result }
    ensures went { OnOk result
        (WentOn movie.now walk.old walk.new steps.old.passed steps.new.passed) }
    ensures put { WhereComes S.Store store.old movie.now walk.old (λ file tree t samples.
        Carries K.Sink sink.old sink.new carrier.old carrier.new result
        (sample_bytes file (take load.samples samples))) }
    ensures comes { WhereComes S.Store store.old movie.now walk.old (λ file tree t samples.
        OnOk result (Comes file tree t movie.now walk.new (drop load.samples samples))) }
    ensures unchanged { WhereComes S.Store store.old movie.now walk.old (λ file tree t samples.
        AreThere file load.samples load.bytes samples → IsUnchanged result) }
    ensures work { TakesSteps S.Store store.old movie.now walk.old walk.new result
        steps.old.passed steps.new.passed }
    ensures looks { steps.new.looks ≡ steps.old.looks }
{
    let mut left = load;
    loop {
        let place = {
            let mut hand = walk.in_hand(movie);
            left = carry_hand(&mut hand, left, carrier, store, sink)?;
            hand.place()
        };
        walk.keep(place, steps);
        if left.samples == 0 && left.bytes == 0 {
            return Ok(());
        }
        if left.samples == 0 || !walk.load(movie, store, steps)? {
            return Err(Refusal::StoreChanged);
        }
    }
}

// Takes the bytes of a piece along that a walk has passed since its mark, a place of what is in
// hand. Then it goes on from the farther one of the places before the next sample.
fn carry_in_hand<S: Store, K: Sink, L: Ledger, M: Ledger>(
    walk: &mut Walk,
    load: Load,
    carrier: &mut OutBuffer,
    movie: &Movie,
    store: &mut S,
    sink: &mut K,
    steps: &mut Steps<L, M>,
) -> Result<(), Refusal>
    requires { HasMarkInHand movie.now walk.old }
    ensures piece { CarriesPiece movie.now walk.old walk.new S.Store store.old store.new
        K.Sink sink.old sink.new carrier.old carrier.new load.bytes result }
    ensures put { (l : Reduction) → WhereMarkedLess S.Store store.old movie.now l walk.old
        load.samples (λ file tree t samples.
        Carries K.Sink sink.old sink.new carrier.old carrier.new result
        (sample_bytes file (take load.samples samples))) }
    ensures comes { (l : Reduction) → WhereMarkedLess S.Store store.old movie.now l walk.old
        load.samples (λ file tree t samples. OnOk result
        (ComesLess l file tree t movie.now walk.new (drop load.samples samples))) }
    ensures unchanged { (l : Reduction) → WhereMarkedLess S.Store store.old movie.now l walk.old
        load.samples (λ file tree t samples. AreThere file load.samples load.bytes samples
        → IsUnchanged result) }
    ensures grows { OnOk result (steps.old.passed ≤ steps.new.passed) }
    ensures work { StepsInHand S.Store store.old movie.now walk.old walk.new result
        steps.old.passed steps.new.passed }
    ensures on { OnOk result (walk.old.mark.next ≤ walk.new.next) }
    ensures looks { steps.new.looks ≡ steps.old.looks }
{
    walk.turn_back();
    carry_piece(walk, load, carrier, movie, store, sink, steps)?;
    walk.go_farther();
    Ok(())
}

// Takes the bytes of a piece along that a walk has passed since its mark: it goes back there, and
// copies them.
fn carry_again<S: Store, K: Sink, L: Ledger, M: Ledger>(
    walk: &mut Walk,
    load: Load,
    carrier: &mut OutBuffer,
    movie: &Movie,
    store: &mut S,
    sink: &mut K,
    steps: &mut Steps<L, M>,
) -> Result<(), Refusal>
    requires { IsWalkOf movie.now walk.old }
    ensures piece { CarriesPiece movie.now walk.old walk.new S.Store store.old store.new
        K.Sink sink.old sink.new carrier.old carrier.new load.bytes result }
    ensures put { (l : Reduction) → WhereMarkedLess S.Store store.old movie.now l walk.old
        load.samples (λ file tree t samples.
        Carries K.Sink sink.old sink.new carrier.old carrier.new result
        (sample_bytes file (take load.samples samples))) }
    ensures comes { (l : Reduction) → WhereMarkedLess S.Store store.old movie.now l walk.old
        load.samples (λ file tree t samples. OnOk result
        (ComesLess l file tree t movie.now walk.new (drop load.samples samples))) }
    ensures unchanged { (l : Reduction) → WhereMarkedLess S.Store store.old movie.now l walk.old
        load.samples (λ file tree t samples. AreThere file load.samples load.bytes samples
        → IsUnchanged result) }
    ensures grows { OnOk result (steps.old.passed ≤ steps.new.passed) }
    ensures work { StepsAgain S.Store store.old movie.now walk.old walk.new result
        steps.old.passed steps.new.passed }
    ensures ahead { OnOk result (GoesPast movie.now walk.old.mark.next walk.new) }
    ensures looks { steps.new.looks ≡ steps.old.looks }
{
    walk.go_back(movie, store, steps)?;
    carry_piece(walk, load, carrier, movie, store, sink, steps)
}

// Takes the bytes of a piece along that a walk has passed since its mark, from the stretches where
// these are all.
fn carry_marked<S: Store, K: Sink, L: Ledger, M: Ledger>(
    walk: &mut Walk,
    noted: NotedBytes<'_>,
    carrier: &mut OutBuffer,
    movie: &Movie,
    store: &mut S,
    sink: &mut K,
    steps: &mut Steps<L, M>,
) -> Result<(), Refusal>
    requires { IsWalkOf movie.now walk.old }
    ensures piece { CarriesPiece movie.now walk.old walk.new S.Store store.old store.new
        K.Sink sink.old sink.new carrier.old carrier.new noted.entry.load.bytes result }
    ensures put { (l : Reduction)
        → WhereToldLess S.Store store.old movie.now l walk.old noted.entry.load.samples
        noted.entry.stretches.now (λ file tree t samples.
        Carries K.Sink sink.old sink.new carrier.old carrier.new result
        (sample_bytes file (take noted.entry.load.samples samples))) }
    ensures comes { (l : Reduction) → WhereMarkedLess S.Store store.old movie.now l walk.old
        noted.entry.load.samples (λ file tree t samples. OnOk result
        (ComesLess l file tree t movie.now walk.new (drop noted.entry.load.samples samples))) }
    ensures unchanged { (l : Reduction) → WhereToldLess S.Store store.old movie.now l walk.old
        noted.entry.load.samples noted.entry.stretches.now (λ file tree t samples.
        AreThere file noted.entry.load.samples noted.entry.load.bytes samples
        → IsUnchanged result) }
    ensures grows { OnOk result (steps.old.passed ≤ steps.new.passed) }
    ensures work { StepsMarked S.Store store.old movie.now walk.old walk.new result
        steps.old.passed steps.new.passed }
    ensures on { OnOk result (walk.old.mark.next ≤ walk.new.next) }
    ensures looks { steps.new.looks ≡ steps.old.looks }
{
    if noted.stretches.are_all() {
        noted
            .stretches
            .carry(noted.load.bytes, carrier, store, sink)
    } else if walk.is_mark_in_hand() {
        carry_in_hand(walk, noted.load, carrier, movie, store, sink, steps)
    } else {
        carry_again(walk, noted.load, carrier, movie, store, sink, steps)
    }
}

/// Takes the bytes of a piece along that a walk has noted since its mark, from the stretches where
/// these are all. Then it looks for the next sample, gives what is left of it, and marks its place.
pub(crate) fn carry_noted<S: Store, K: Sink, L: Ledger, M: Ledger>(
    walk: &mut Walk,
    reduction: Reduction,
    noted: NotedBytes<'_>,
    carrier: &mut OutBuffer,
    movie: &Movie,
    store: &mut S,
    sink: &mut K,
    steps: &mut Steps<L, M>,
) -> Result<Option<SampleAt>, Refusal>
    requires { IsWalkOf movie.now walk.old }
    ensures piece { CarriesPiece movie.now walk.old walk.new S.Store store.old store.new
        K.Sink sink.old sink.new carrier.old carrier.new noted.entry.load.bytes result }
    ensures put { WhereToldLess S.Store store.old movie.now reduction walk.old
        noted.entry.load.samples noted.entry.stretches.now (λ file tree t samples.
        Carries K.Sink sink.old sink.new carrier.old carrier.new result
        (sample_bytes file (take noted.entry.load.samples samples))) }
    ensures next { WhereToldLess S.Store store.old movie.now reduction walk.old
        noted.entry.load.samples noted.entry.stretches.now (λ file tree t samples. IfOk result
        (MarksNext reduction file tree t movie.now walk.new
        (drop noted.entry.load.samples samples))) }
    ensures unchanged { WhereToldLess S.Store store.old movie.now reduction walk.old
        noted.entry.load.samples noted.entry.stretches.now (λ file tree t samples.
        AreThere file noted.entry.load.samples noted.entry.load.bytes samples
        → IsUnchanged result) }
    ensures grows { OnOk result (steps.old.passed ≤ steps.new.passed) }
    ensures work { WhereMayFinish S.Store store.old movie.now reduction walk.old
        noted.entry.load.samples (λ file tree t n. MatchResult result
        (λ _. WritesOn file tree movie.now t n walk.new steps.old.passed steps.new.passed)
        (λ _. steps.new.passed ≤ steps.old.passed + n)) }
    ensures looks { steps.new.looks ≡ steps.old.looks }
{
    let left = walk.to_come().saturating_sub(noted.load.samples);
    carry_marked(walk, noted, carrier, movie, store, sink, steps)?;
    let next = next_sample(walk, reduction, movie, store, steps)?;
    walk.mark(left);
    Ok(next)
}
