//! Two tracks whose samples are not the same, aligned: how many are the same in front, how many at
//! the end, and what stands between.
ghost use Rattle.std.specs.Prelude.{◌≡◌, ◌+◌, ◌-◌, ◌≤◌, ◌*◌, ◌++◌, false, IsTrue, IfOk, OnOk};
ghost use Rattle.mp4_content.specs.format.Alignment.{AreAligned, ArePairAligned, if_there};
ghost use Rattle.mp4_content.specs.format.Remaining.{divided_samples};
ghost use Rattle.mp4_content.specs.words.Aligning.{AreCounts, IsFrontLeft, OfPair, TracksWorkTwice, aligning_steps, front_before};
ghost use Rattle.mp4_content.specs.words.Compared.{HaveTracks, TracksWork, WhereOpenedBoth, WhereTracks};
ghost use Rattle.mp4_content.specs.words.Differing.{RefusedBoth, RefusesSample};
ghost use Rattle.mp4_content.specs.words.Scales.{AreScales};
ghost use Rattle.mp4_content.specs.words.TwoStores.{OnlyReadsBoth};
ghost use Rattle.mp4_present.specs.format.Denotes.{presentation_of};
ghost use Rattle.mp4_present.specs.words.StoresRead.{IsUnchanged, OnlyReads};
ghost use Rattle.mp4_present.specs.words.WalkSteps.{walks_steps};

use crate::common_ends::compare_ends;
use crate::comparing::both_scales::BothScales;
use crate::comparing::differences::{Difference, Subject};
use crate::comparing::movies::Movies;
use crate::comparing::tracks::Tracks;
use crate::comparing::{FirstDifference, compare_track_samples};
use crate::without::Without;
use mp4_boxes::{Memory, Refusal, Steps};
use mp4_store::Store;
use std::alloc::Global;
use std::sync::ledger::Ledger;

/// The samples of a track between those that are the same: how many they are, and the decode time
/// of the sample behind those in front, in parts of a timescale. The time is 0 where there is none.
#[derive(Clone, Copy, Debug, PartialEq, Eq)]
pub struct Between {
    pub samples: u32,
    pub time: u64,
    pub timescale: u32,
}

/// How the samples of two tracks lie beside each other: the number of the tracks, from 1; how many
/// samples in front are the same; of the rest, how many at the end; and what stands between.
#[derive(Clone, Copy, Debug, PartialEq, Eq)]
pub struct Alignment {
    pub track: u64,
    pub front: u32,
    pub end: u32,
    pub left: Between,
    pub right: Between,
}

// How many samples in front are the same, at most so many, where this is the first difference
// between samples.
fn front_before(first: Option<Difference>, most: u32) -> u32
    ensures is { result ≡ front_before first most }
    ensures most { result ≤ most }
{
    match first {
        Some(
            Difference {
                subject: Subject::Sample(_, number),
                ..
            },
        ) => number.saturating_sub(1).min(most),
        _ => most,
    }
}

// How many samples of two tracks there are.
#[derive(Clone, Copy)]
pub(crate) struct SampleCounts {
    pub(crate) left: u32,
    pub(crate) right: u32,
}

// How many samples in front of two tracks are the same.
fn same_in_front<S: Store, T: Store, L: Ledger, M: Ledger>(
    alloc: Global,
    tracks: Tracks,
    counts: SampleCounts,
    left: &mut S,
    right: &mut T,
    steps: &mut Steps<L, M>,
) -> Result<u32, Refusal>
    requires { HaveTracks tracks.place tracks.movies.now.left tracks.movies.now.right }
    ensures stores { OnlyReadsBoth S.Store left.old left.new T.Store right.old right.new result }
    ensures front { OfPair S.Store left.old tracks.entry.movies.now.left T.Store right.old
        tracks.entry.movies.now.right tracks.entry.place (λ t u. AreCounts counts t u
        → IfOk result (IsFrontLeft tracks.entry.leaving tracks.entry.divisors t u)) }
    ensures unchanged { WhereTracks S.Store left.old tracks.entry.movies.now.left T.Store
        right.old tracks.entry.movies.now.right tracks.entry.place
        (λ tree t other u. IsUnchanged result) }
    ensures work { TracksWork S.Store left.old tracks.entry.movies.now.left T.Store right.old
        tracks.entry.movies.now.right tracks.entry.place steps.old.passed steps.new.passed }
    ensures refusal { RefusedBoth S.Store left.old left.new T.Store right.old right.new result
        RefusesSample }
    ensures grows { OnOk result (steps.old.passed ≤ steps.new.passed) }
    ensures looks { steps.new.looks ≡ steps.old.looks }
{
    let mut seen = FirstDifference {
        first: None,
        time: None,
    };
    let _all = compare_track_samples(alloc, tracks, left, right, &mut seen, steps)?;
    Ok(front_before(seen.first, counts.left.min(counts.right)))
}

// Whether so many in front are all samples of both tracks.
fn has_all(counts: SampleCounts, front: u32) -> bool
    ensures all { IsTrue result → (counts.left ≡ counts.right) × (counts.left ≤ front) }
    ensures some { result ≡ false → counts.left ≡ counts.right → counts.left ≤ front → ⊥ }
{
    counts.left == counts.right && front >= counts.left
}

// What a track of so many samples has between those in front and those at the end.
fn stretch(samples: u32, front: u32, end: u32, time: u64, timescale: u32) -> Between
    ensures samples { result.samples ≡ samples - (front + end) }
    ensures time { result.time ≡ time }
    ensures timescale { result.timescale ≡ timescale }
{
    Between {
        samples: samples.saturating_sub(front).saturating_sub(end),
        time,
        timescale,
    }
}

// How two tracks lie beside each other; none where all samples are the same.
fn align_tracks<S: Store, T: Store, L: Ledger, M: Ledger>(
    alloc: Global,
    tracks: Tracks,
    left: &mut S,
    right: &mut T,
    steps: &mut Steps<L, M>,
) -> Result<Option<Alignment>, Refusal>
    requires { HaveTracks tracks.place tracks.movies.now.left tracks.movies.now.right }
    ensures stores { OnlyReadsBoth S.Store left.old left.new T.Store right.old right.new result }
    ensures aligned { OfPair S.Store left.old tracks.entry.movies.now.left T.Store right.old
        tracks.entry.movies.now.right tracks.entry.place (λ t u. IfOk result
        (ArePairAligned (tracks.entry.place + 1) t u
        (divided_samples tracks.entry.leaving tracks.entry.divisors.left t)
        (divided_samples tracks.entry.leaving tracks.entry.divisors.right u))) }
    ensures unchanged { WhereTracks S.Store left.old tracks.entry.movies.now.left T.Store
        right.old tracks.entry.movies.now.right tracks.entry.place
        (λ tree t other u. IsUnchanged result) }
    ensures work { TracksWorkTwice S.Store left.old tracks.entry.movies.now.left T.Store right.old
        tracks.entry.movies.now.right tracks.entry.place steps.old.passed steps.new.passed }
    ensures refusal { RefusedBoth S.Store left.old left.new T.Store right.old right.new result
        RefusesSample }
    ensures grows { OnOk result (steps.old.passed ≤ steps.new.passed) }
    ensures looks { steps.new.looks ≡ steps.old.looks }
{
    let Tracks { movies, place, .. } = tracks;
    let info = movies.left.tracks()[place];
    let other = movies.right.tracks()[place];
    let counts = SampleCounts {
        left: info.samples,
        right: other.samples,
    };
    let front = same_in_front(alloc, tracks, counts, left, right, steps)?;
    if has_all(counts, front) {
        return Ok(None);
    }
    let ends = compare_ends(alloc, tracks, counts, front, left, right, steps)?;
    let end = ends.end;
    Ok(Some(Alignment {
        track: place as u64 + 1,
        front,
        end,
        left: stretch(info.samples, front, end, ends.time, info.timescale),
        right: stretch(other.samples, front, end, ends.other_time, other.timescale),
    }))
}

// Adds how two tracks lie beside each other, where that is said.
fn put_aligned(found: &mut Vec<Alignment>, aligned: Option<Alignment>) -> Result<(), Memory>
    ensures { OnOk result (found.new.items ≡ found.old.items ++ if_there aligned) }
{
    let Some(alignment) = aligned else {
        return Ok(());
    };
    found.push(alignment).map_err(|_| Memory)
}

// How the tracks of two movies lie beside each other of which these are the scales.
fn align_scaled<S: Store, T: Store, L: Ledger, M: Ledger>(
    alloc: Global,
    movies: &Movies,
    left: &mut S,
    right: &mut T,
    leaving: Without,
    scales: &BothScales,
    steps: &mut Steps<L, M>,
) -> Result<Vec<Alignment>, Refusal>
    ensures left { OnlyReads S.Store left.old left.new result }
    ensures right { OnlyReads T.Store right.old right.new result }
    ensures aligned { WhereOpenedBoth S.Store left.old movies.now.left T.Store right.old
        movies.now.right (λ tree other. AreScales leaving (S.file left.old) tree scales.now.left
        → AreScales leaving (T.file right.old) other scales.now.right
        → IfOk result (λ found. AreAligned leaving 1
        (presentation_of (S.file left.old) tree).tracks
        (presentation_of (T.file right.old) other).tracks found.items)) }
    ensures unchanged { WhereOpenedBoth S.Store left.old movies.now.left T.Store right.old
        movies.now.right (λ tree other. IsUnchanged result) }
    ensures work { WhereOpenedBoth S.Store left.old movies.now.left T.Store right.old
        movies.now.right
        (λ tree other. steps.new.passed ≤ steps.old.passed
        + 2 * (walks_steps tree + walks_steps other)) }
    ensures refusal { RefusedBoth S.Store left.old left.new T.Store right.old right.new result
        RefusesSample }
    ensures grows { OnOk result (steps.old.passed ≤ steps.new.passed) }
    ensures looks { steps.new.looks ≡ steps.old.looks }
{
    let mut found = Vec::new(alloc);
    for place in 0..movies.left.tracks().len().min(movies.right.tracks().len()) {
        let tracks = Tracks {
            movies,
            place,
            leaving,
            divisors: scales.of_tracks(place),
        };
        let aligned = align_tracks(alloc, tracks, left, right, steps)?;
        put_aligned(&mut found, aligned)?;
    }
    Ok(found)
}

/// How the tracks of two opened files lie beside each other, of each two whose samples are not the
/// same without what is left out: the longest front that both have, and of the rest the longest
/// end. Tracks are paired by their order.
pub fn align<S: Store, T: Store, L: Ledger, M: Ledger>(
    alloc: Global,
    movies: &Movies,
    left: &mut S,
    right: &mut T,
    leaving: Without,
    steps: &mut Steps<L, M>,
) -> Result<Vec<Alignment>, Refusal>
    ensures left { OnlyReads S.Store left.old left.new result }
    ensures right { OnlyReads T.Store right.old right.new result }
    ensures aligned { WhereOpenedBoth S.Store left.old movies.now.left T.Store right.old
        movies.now.right (λ tree other. IfOk result (λ found. AreAligned leaving 1
        (presentation_of (S.file left.old) tree).tracks
        (presentation_of (T.file right.old) other).tracks found.items)) }
    ensures unchanged { WhereOpenedBoth S.Store left.old movies.now.left T.Store right.old
        movies.now.right (λ tree other. IsUnchanged result) }
    ensures work { WhereOpenedBoth S.Store left.old movies.now.left T.Store right.old
        movies.now.right
        (λ tree other. steps.new.passed ≤ steps.old.passed + aligning_steps leaving tree other) }
    ensures refusal { RefusedBoth S.Store left.old left.new T.Store right.old right.new result
        RefusesSample }
    ensures grows { OnOk result (steps.old.passed ≤ steps.new.passed) }
    ensures looks { steps.new.looks ≡ steps.old.looks }
{
    let scales = BothScales::of(alloc, movies, left, right, leaving, steps)?;
    align_scaled(alloc, movies, left, right, leaving, &scales, steps)
}
