//! What samples of a movie's tracks are left by, and what is left of them together.
ghost use Rattle.std.specs.Prelude.{◌≡◌, ℕ, ◌+◌, ◌<◌, ◌≤◌, List, length, if◌then◌else◌, false, true, IfOk, OnOk};
ghost use Rattle.mp4_present.specs.format.Denotes.{FileTree};
ghost use Rattle.mp4_present.specs.words.Movies.{IsWalkOf, RefusesLoad};
ghost use Rattle.mp4_present.specs.words.OpenedMovie.{IsOpenedAs};
ghost use Rattle.mp4_present.specs.words.SamplesComing.{Comes, track_samples};
ghost use Rattle.mp4_present.specs.words.StoresRead.{IsUnchanged, OnlyReads, Refused};
ghost use Rattle.mp4_present.specs.words.TrackWalks.{IsWalkStill, TakesSteps, WhereComes, WhereMayTake, WhereTrack};
ghost use Rattle.mp4_present.specs.words.WalkSteps.{walk_steps, walks_steps};
ghost use Rattle.mp4_content.specs.words.ComingLess.{asks_first, reduction_of};
ghost use Rattle.mp4_content.specs.words.Opened.{OverOpened};
ghost use Rattle.mp4_content.specs.words.Measuring.{AreMeasured, is_near, measures, no_total, total_from, total_with};
ghost use Rattle.mp4_content.specs.words.Opened.{RefusesPlan};
ghost use Rattle.mp4_content.specs.words.Scales.{AreScales};

use crate::peeking::peek_sample;
use crate::reduced::{Reduction, asks_first};
use crate::scales::Scales;
use crate::without::{Without, Word};
use mp4_boxes::{Refusal, Steps};
use mp4_present::{Fold, Movie, Walk, fold_samples};
use mp4_store::Store;
use mp4_tables::SampleAt;
use std::alloc::{AllocError, Global};
use std::sync::ledger::Ledger;

/// What samples of a track are left by whose times are divided by this, of a walk over it that
/// stands before its first sample. Where what is left depends on that, it comes to be in hand, and
/// the same samples come.
pub fn reduction_of<S: Store, L: Ledger, M: Ledger>(
    walk: &mut Walk,
    leaving: Without,
    divisor: u64,
    movie: &Movie,
    store: &mut S,
    steps: &mut Steps<L, M>,
) -> Result<Reduction, Refusal>
    requires { IsWalkOf movie.now walk.old }
    ensures walk { IsWalkStill movie.now walk.old walk.new result }
    ensures store { OnlyReads S.Store store.old store.new result }
    ensures coming { WhereComes S.Store store.old movie.now walk.old (λ file tree t samples.
        OnOk result (Comes file tree t movie.now walk.new samples)) }
    ensures reduction { WhereComes S.Store store.old movie.now walk.old (λ file tree t samples.
        samples ≡ track_samples tree t
        → IfOk result (λ reduction. reduction ≡ reduction_of leaving divisor samples)) }
    ensures unchanged { WhereComes S.Store store.old movie.now walk.old (λ file tree t samples.
        IsUnchanged result) }
    ensures grows { steps.old.passed ≤ steps.new.passed }
    ensures work { TakesSteps S.Store store.old movie.now walk.old walk.new result
        steps.old.passed steps.new.passed }
    ensures refusal { Refused S.Store store.old store.new result RefusesLoad }
    ensures looks { steps.new.looks ≡ steps.old.looks }
{
    if !asks_first(leaving) {
        return Ok(Reduction::plain(leaving, divisor));
    }
    let track = walk.track();
    let samples = movie.tracks()[track].samples;
    let first = peek_sample(walk, movie, store, steps)?;
    Ok(Reduction::by_first(leaving, divisor, samples, first))
}

// Whether all samples are walked over for how long what is left of tracks is.
fn asks_samples(leaving: Without) -> bool
    ensures { result ≡ measures leaving }
{
    (asks_first(leaving) || leaving.has(Word::Timescales)) && !leaving.has(Word::Timing)
}

/// What is left of samples of a track together: how long they last, as far as 64 bits go, and
/// whether each composition offset fits its field.
#[derive(Clone, Copy, Debug, PartialEq, Eq)]
pub(crate) struct Total {
    pub(crate) duration: u64,
    pub(crate) is_near: bool,
}

/// For each track what its samples are left by, and what is left of them together.
#[derive(Drop)]
pub(crate) struct Measures {
    pub(crate) of_tracks: Vec<Reduction>,
    pub(crate) totals: Vec<Total>,
}

// Whether a composition offset fits its field.
fn is_near(offset: i64) -> bool
    ensures { result ≡ is_near offset }
{
    offset <= i64::from(i32::MAX) && offset >= i64::from(i32::MIN)
}

// With one more sample.
fn total_with(reduction: Reduction, total: Total, sample: &SampleAt) -> Total
    ensures { result ≡ total_with reduction total sample.now }
{
    let duration = reduction.duration(sample.number, sample.duration);
    let offset = reduction.offset(sample.cto);
    Total {
        duration: total.duration.saturating_add(u64::from(duration)),
        is_near: total.is_near && is_near(offset),
    }
}

// What is left of samples together, added one after the other.
#[derive(Clone, Copy)]
struct Measuring {
    reduction: Reduction,
    total: Total,
}

impl Fold for Measuring {
    ghost use Rattle.std.specs.Prelude.{◌≡◌};
    ghost use Rattle.mp4_content.specs.words.Measuring.{measured_with};

    ghost takes = { λ m s n. n ≡ measured_with m s };

    fn add(&mut self, sample: &SampleAt) {
        self.total = total_with(self.reduction, self.total, sample);
    }
}

// What is left of all samples that a walk has still to come.
fn total_of<S: Store, L: Ledger, M: Ledger>(
    walk: &mut Walk,
    reduction: Reduction,
    movie: &Movie,
    store: &mut S,
    steps: &mut Steps<L, M>,
) -> Result<Total, Refusal>
    requires { IsWalkOf movie.now walk.old }
    ensures store { OnlyReads S.Store store.old store.new result }
    ensures total { WhereComes S.Store store.old movie.now walk.old (λ file tree t samples.
        IfOk result (λ total. total ≡ total_from reduction no_total samples)) }
    ensures unchanged { WhereComes S.Store store.old movie.now walk.old (λ file tree t samples.
        IsUnchanged result) }
    ensures grows { OnOk result (steps.old.passed ≤ steps.new.passed) }
    ensures work { WhereMayTake S.Store store.old movie.now walk.old
        (λ file tree t n. steps.new.passed ≤ steps.old.passed + n) }
    ensures refusal { Refused S.Store store.old store.new result RefusesLoad }
    ensures looks { steps.new.looks ≡ steps.old.looks }
{
    let total = Total {
        duration: 0,
        is_near: true,
    };
    let mut measuring = Measuring { reduction, total };
    fold_samples(walk, &mut measuring, movie, store, steps)?;
    Ok(measuring.total)
}

// Measures the samples of the track at this place, one after the other.
fn measure_track<S: Store, L: Ledger, M: Ledger>(
    alloc: Global,
    track: usize,
    leaving: Without,
    divisor: u64,
    movie: &Movie,
    store: &mut S,
    steps: &mut Steps<L, M>,
) -> Result<(Reduction, Total), Refusal>
    requires { track < length movie.now.tracks }
    ensures store { OnlyReads S.Store store.old store.new result }
    ensures measured { WhereTrack S.Store store.old movie.now track (λ file tree t.
        IfOk result (λ found. (found.0 ≡ reduction_of leaving divisor (track_samples tree t))
        × (found.1 ≡ total_from found.0 no_total (track_samples tree t)))) }
    ensures unchanged { WhereTrack S.Store store.old movie.now track (λ file tree t.
        IsUnchanged result) }
    ensures work { WhereTrack S.Store store.old movie.now track (λ file tree t.
        steps.new.passed ≤ steps.old.passed + walk_steps tree t) }
    ensures grows { OnOk result (steps.old.passed ≤ steps.new.passed) }
    ensures refusal { Refused S.Store store.old store.new result RefusesPlan }
    ensures looks { steps.new.looks ≡ steps.old.looks }
{
    let mut walk = movie.walk(alloc, track)?;
    let reduction = reduction_of(&mut walk, leaving, divisor, movie, store, steps)?;
    let total = total_of(&mut walk, reduction, movie, store, steps)?;
    Ok((reduction, total))
}

// Measures all tracks by their samples.
fn measure_all<S: Store, L: Ledger, M: Ledger>(
    alloc: Global,
    movie: &Movie,
    store: &mut S,
    leaving: Without,
    scales: &Scales,
    steps: &mut Steps<L, M>,
) -> Result<Measures, Refusal>
    ensures store { OnlyReads S.Store store.old store.new result }
    ensures many { IfOk result (λ all. length all.of_tracks.items ≡ length movie.now.tracks) }
    ensures measured { measures leaving ≡ true → OverOpened S.Store store.old movie.now
        (λ file tree. AreScales leaving file tree scales.now
        → IfOk result (AreMeasured leaving file tree movie.now)) }
    ensures unchanged { OverOpened S.Store store.old movie.now (λ file tree. IsUnchanged result) }
    ensures work { OverOpened S.Store store.old movie.now
        (λ file tree. steps.new.passed ≤ steps.old.passed + walks_steps tree) }
    ensures grows { OnOk result (steps.old.passed ≤ steps.new.passed) }
    ensures refusal { Refused S.Store store.old store.new result RefusesPlan }
    ensures looks { steps.new.looks ≡ steps.old.looks }
{
    let mut of_tracks = Vec::with_capacity(alloc, movie.tracks().len())?;
    let mut totals = Vec::with_capacity(alloc, movie.tracks().len())?;
    for track in 0..movie.tracks().len() {
        let divisor = scales.track(track);
        let found = measure_track(alloc, track, leaving, divisor, movie, store, steps)?;
        of_tracks.push(found.0)?;
        totals.push(found.1)?;
    }
    Ok(Measures { of_tracks, totals })
}

// What all tracks come to whose samples needn't be asked: as long as opening counted.
fn measure_at_once(
    alloc: Global,
    movie: &Movie,
    leaving: Without,
    scales: &Scales,
) -> Result<Measures, AllocError>
    ensures many { IfOk result (λ all. length all.of_tracks.items ≡ length movie.now.tracks) }
    ensures measured { measures leaving ≡ false → (file : List ℕ) (tree : FileTree)
        → IsOpenedAs file movie.now tree → AreScales leaving file tree scales.now
        → IfOk result (AreMeasured leaving file tree movie.now) }
{
    let tracks = movie.tracks();
    let mut of_tracks = Vec::with_capacity(alloc, tracks.len())?;
    let mut totals = Vec::with_capacity(alloc, tracks.len())?;
    for track in 0..tracks.len() {
        of_tracks.push(Reduction::plain(leaving, scales.track(track)))?;
        totals.push(Total {
            duration: tracks[track].duration,
            is_near: true,
        })?;
    }
    Ok(Measures { of_tracks, totals })
}

/// Measures all tracks: where what is left depends on the first sample of a track, or on its last,
/// or on by what times are divided, its samples are walked over.
pub(crate) fn measure<S: Store, L: Ledger, M: Ledger>(
    alloc: Global,
    movie: &Movie,
    store: &mut S,
    leaving: Without,
    scales: &Scales,
    steps: &mut Steps<L, M>,
) -> Result<Measures, Refusal>
    ensures store { OnlyReads S.Store store.old store.new result }
    ensures many { IfOk result (λ all. length all.of_tracks.items ≡ length movie.now.tracks) }
    ensures measured { OverOpened S.Store store.old movie.now
        (λ file tree. AreScales leaving file tree scales.now
        → IfOk result (AreMeasured leaving file tree movie.now)) }
    ensures unchanged { OverOpened S.Store store.old movie.now (λ file tree. IsUnchanged result) }
    ensures work { OverOpened S.Store store.old movie.now (λ file tree. steps.new.passed
        ≤ steps.old.passed + (if measures leaving then walks_steps tree else 0)) }
    ensures grows { OnOk result (steps.old.passed ≤ steps.new.passed) }
    ensures refusal { Refused S.Store store.old store.new result RefusesPlan }
    ensures looks { steps.new.looks ≡ steps.old.looks }
{
    if asks_samples(leaving) {
        return measure_all(alloc, movie, store, leaving, scales, steps);
    }
    Ok(measure_at_once(alloc, movie, leaving, scales)?)
}
