//! Two opened files, compared by what they say.
ghost use Rattle.std.specs.Prelude.{◌≡◌, ◌+◌, ◌<◌, ◌≤◌, ℕ, ◌++◌, ◌&&◌, ◌==◌, not, take, true, option_map, slice_get, IfOk, IfSome, OnOk};
ghost use Rattle.mp4_content.specs.words.Compared.{WhereOpenedBoth, HaveTracks, OfFiles, OfListed, OfScaled, WhereScaled, WhereTracks, comparing_steps, OfSamples, OfTracks, TracksWork};
ghost use Rattle.mp4_content.specs.words.Differing.{RefusesSample, RefusedBoth};
ghost use Rattle.mp4_content.specs.words.HeadsDiffer.{begun_differ};
ghost use Rattle.mp4_content.specs.words.TimesTaken.{HaveTime, IsTimed, KeepsTimes};
ghost use Rattle.mp4_content.specs.words.TwoStores.{HandsOver, OnlyReadsBoth};
ghost use Rattle.mp4_present.specs.format.Denotes.{presentation_of};
ghost use Rattle.mp4_present.specs.format.Presentation.{Presentation};
ghost use Rattle.mp4_present.specs.words.StoresRead.{OnlyReads, IsUnchanged};
ghost use Rattle.mp4_present.specs.words.WalkSteps.{walks_steps};

pub mod both_scales;
pub mod bytes;
pub mod differences;
pub mod entries;
pub mod fields;
pub mod heads;
pub mod movies;
pub mod pairing;
pub mod same_pairs;
pub mod samples;
pub mod tracks;

use crate::comparing::both_scales::BothScales;
use crate::comparing::differences::{DecodeTime, Difference, Differences, Field, Subject};
use crate::comparing::fields::compare_numbers;
use crate::comparing::heads::{movie_differences, track_differences};
use crate::comparing::movies::Movies;
use crate::comparing::same_pairs::{Pause, pass_same};
use crate::comparing::samples::{Next, begin_pairs, compare_pair, refill_both};
use crate::comparing::tracks::{Divisors, Heads, Tracks};
use crate::own_payloads::payloads_left;
use crate::reduced::divided;
use crate::reduced_head::head_left;
use crate::without::Without;
use mp4_boxes::{Memory, Refusal, Steps};
use mp4_present::TrackInfo;
use mp4_store::Store;
use std::alloc::Global;
use std::sync::ledger::Ledger;

// What was found of what is decoded then goes to whoever takes it, and whether a further difference
// is taken.
fn hand_over<D: Differences>(found: &[Difference], time: Option<DecodeTime>, seen: &mut D) -> bool
    requires { D.is_open seen.old ≡ true }
    ensures all { result ≡ true → D.taken seen.new ≡ D.taken seen.old ++ found.now }
    ensures front { (n : ℕ) × (D.taken seen.new ≡ D.taken seen.old ++ take n found.now) }
    ensures timed { (p : Presentation) → HaveTime p time found.now
        → KeepsTimes D.Differences seen.old seen.new p }
    ensures goes { result ≡ D.is_open seen.new }
{
    for k in 0..found.len() {
        let difference = found[k];
        if !seen.take(difference, time) {
            return false;
        }
    }
    true
}

// Compares the samples of two tracks: what differs is handed over until no more is taken.
pub(crate) fn compare_track_samples<S: Store, T: Store, D: Differences, L: Ledger, M: Ledger>(
    alloc: Global,
    tracks: Tracks,
    left: &mut S,
    right: &mut T,
    seen: &mut D,
    steps: &mut Steps<L, M>,
) -> Result<bool, Refusal>
    requires tracks { HaveTracks tracks.place tracks.movies.now.left tracks.movies.now.right }
    requires goes { D.is_open seen.old ≡ true }
    ensures stores { OnlyReadsBoth S.Store left.old left.new T.Store right.old right.new result }
    ensures handed { HandsOver D.Differences seen.old seen.new result (OfSamples S.Store left.old
        tracks.entry.movies.now.left T.Store right.old tracks.entry.movies.now.right
        tracks.entry.place tracks.entry.leaving tracks.entry.divisors) }
    ensures timed { WhereTracks S.Store left.old tracks.entry.movies.now.left T.Store right.old
        tracks.entry.movies.now.right tracks.entry.place (λ tree t other u.
        KeepsTimes D.Differences seen.old seen.new (presentation_of (S.file left.old) tree)) }
    ensures unchanged { WhereTracks S.Store left.old tracks.entry.movies.now.left T.Store
        right.old tracks.entry.movies.now.right tracks.entry.place
        (λ tree t other u. IsUnchanged result) }
    ensures work { TracksWork S.Store left.old tracks.entry.movies.now.left T.Store right.old
        tracks.entry.movies.now.right tracks.entry.place steps.old.passed steps.new.passed }
    ensures refusal { RefusedBoth S.Store left.old left.new T.Store right.old right.new result
        RefusesSample }
    ensures grows { OnOk result (steps.old.passed ≤ steps.new.passed) }
    ensures looks { steps.new.looks ≡ steps.old.looks }
{
    let (by, mut sides) = begin_pairs(alloc, tracks, left, right, steps)?;
    let Tracks { movies, place, .. } = tracks;
    let info = movies.left.tracks()[place];
    let count = info.samples.min(movies.right.tracks()[place].samples);
    let mut pause = Pause::new();
    let mut number = 0;
    while number < count {
        let most = count - number;
        let passed = pass_same(&by, movies, &mut sides, most, &mut pause, steps);
        number += passed.count;
        if number < count {
            if passed.is_used_up {
                let _same = refill_both(movies, &mut sides, left, right, steps)?;
            } else {
                number += 1;
                let next = Next {
                    movies,
                    by: &by,
                    number,
                };
                let found = compare_pair(alloc, next, &mut sides, left, right, steps)?;
                let time = DecodeTime {
                    time: found.time,
                    timescale: info.timescale,
                };
                if !hand_over(found.differences.as_slice(), Some(time), seen) {
                    return Ok(false);
                }
            }
        }
    }
    Ok(true)
}

// Compares two tracks with this number by what is left of their heads and their starts, and by
// their numbers of samples.
fn compare_track_heads(
    alloc: Global,
    leaving: Without,
    divisors: Divisors,
    heads: Heads,
    number: u64,
    info: &TrackInfo,
    other: &TrackInfo,
) -> Result<Vec<Difference>, Memory>
    ensures { IfOk result (λ found. found.items ≡ begun_differ leaving divisors number
        heads.entry.left.now info.now heads.entry.right.now other.now) }
{
    let of = Subject::Track(number);
    let mut found = track_differences(alloc, number, heads.left, heads.right)?;
    let start = divided(leaving.start(info.start), divisors.left);
    let other_start = divided(leaving.start(other.start), divisors.right);
    compare_numbers(of, Field::Start, start, other_start, &mut found)?;
    let samples = u64::from(info.samples);
    let others = u64::from(other.samples);
    compare_numbers(of, Field::Samples, samples, others, &mut found)?;
    Ok(found)
}

// Whether the samples of two tracks are not compared one by one: where tracks are aligned, and
// these are not as many.
fn skips_samples(aligned: bool, samples: u32, others: u32) -> bool
    ensures { result ≡ aligned && not (samples == others) }
{
    aligned && samples != others
}

// Compares two tracks: what differs is handed over until no more is taken. Where tracks are
// aligned, samples are compared only if they are as many.
fn compare_tracks<S: Store, T: Store, D: Differences, L: Ledger, M: Ledger>(
    alloc: Global,
    tracks: Tracks,
    heads: Heads,
    aligned: bool,
    left: &mut S,
    right: &mut T,
    seen: &mut D,
    steps: &mut Steps<L, M>,
) -> Result<bool, Refusal>
    requires tracks { HaveTracks tracks.place tracks.movies.now.left tracks.movies.now.right }
    requires goes { D.is_open seen.old ≡ true }
    ensures stores { OnlyReadsBoth S.Store left.old left.new T.Store right.old right.new result }
    ensures handed { HandsOver D.Differences seen.old seen.new result (OfTracks S.Store left.old
        tracks.entry.movies.now.left heads.entry.left.now T.Store right.old
        tracks.entry.movies.now.right heads.entry.right.now tracks.entry.place aligned
        tracks.entry.leaving tracks.entry.divisors) }
    ensures timed { WhereTracks S.Store left.old tracks.entry.movies.now.left T.Store right.old
        tracks.entry.movies.now.right tracks.entry.place (λ tree t other u.
        KeepsTimes D.Differences seen.old seen.new (presentation_of (S.file left.old) tree)) }
    ensures unchanged { WhereTracks S.Store left.old tracks.entry.movies.now.left T.Store
        right.old tracks.entry.movies.now.right tracks.entry.place
        (λ tree t other u. IsUnchanged result) }
    ensures work { TracksWork S.Store left.old tracks.entry.movies.now.left T.Store right.old
        tracks.entry.movies.now.right tracks.entry.place steps.old.passed steps.new.passed }
    ensures refusal { RefusedBoth S.Store left.old left.new T.Store right.old right.new result
        RefusesSample }
    ensures grows { OnOk result (steps.old.passed ≤ steps.new.passed) }
    ensures looks { steps.new.looks ≡ steps.old.looks }
{
    let Tracks {
        movies,
        place,
        leaving,
        divisors,
    } = tracks;
    let info = movies.left.tracks()[place];
    let other = movies.right.tracks()[place];
    let number = place as u64 + 1;
    let found = compare_track_heads(alloc, leaving, divisors, heads, number, &info, &other)?;
    if !hand_over(found.as_slice(), None, seen) {
        return Ok(false);
    }
    if skips_samples(aligned, info.samples, other.samples) {
        return Ok(true);
    }
    compare_track_samples(alloc, tracks, left, right, seen, steps)
}

// How two movies are compared: what is left out of both, by what times of both are divided, and
// whether tracks are aligned.
#[derive(Clone, Copy)]
struct Compared<'a> {
    leaving: Without,
    scales: &'a BothScales,
    aligned: bool,
}

// Compares two movies of which these are the scales.
fn compare_scaled<S: Store, T: Store, D: Differences, L: Ledger, M: Ledger>(
    alloc: Global,
    movies: &Movies,
    by: Compared,
    left: &mut S,
    right: &mut T,
    seen: &mut D,
    steps: &mut Steps<L, M>,
) -> Result<bool, Refusal>
    requires { D.is_open seen.old ≡ true }
    ensures stores { OnlyReadsBoth S.Store left.old left.new T.Store right.old right.new result }
    ensures handed { HandsOver D.Differences seen.old seen.new result (OfScaled S.Store left.old
        movies.now.left T.Store right.old movies.now.right by.entry.aligned by.entry.leaving
        by.entry.scales.now) }
    ensures timed { WhereScaled S.Store left.old movies.now.left T.Store right.old
        movies.now.right by.entry.leaving by.entry.scales.now (λ tree other.
        KeepsTimes D.Differences seen.old seen.new (presentation_of (S.file left.old) tree)) }
    ensures unchanged { WhereScaled S.Store left.old movies.now.left T.Store right.old
        movies.now.right by.entry.leaving by.entry.scales.now (λ tree other. IsUnchanged result) }
    ensures work { WhereScaled S.Store left.old movies.now.left T.Store right.old
        movies.now.right by.entry.leaving by.entry.scales.now
        (λ tree other. steps.new.passed ≤ steps.old.passed
        + (walks_steps tree + walks_steps other)) }
    ensures refusal { RefusedBoth S.Store left.old left.new T.Store right.old right.new result
        RefusesSample }
    ensures grows { OnOk result (steps.old.passed ≤ steps.new.passed) }
    ensures looks { steps.new.looks ≡ steps.old.looks }
{
    let Compared {
        leaving,
        scales,
        aligned,
    } = by;
    let read = movies.left.head(alloc)?;
    let own = payloads_left(alloc, leaving, read.tracks.as_slice())?;
    let head = head_left(alloc, read, leaving, &scales.left, &own)?;
    let other_read = movies.right.head(alloc)?;
    let other_own = payloads_left(alloc, leaving, other_read.tracks.as_slice())?;
    let other_head = head_left(alloc, other_read, leaving, &scales.right, &other_own)?;
    let found = movie_differences(alloc, &head, &other_head)?;
    if !hand_over(found.as_slice(), None, seen) {
        return Ok(false);
    }
    let count = movies.left.tracks().len().min(movies.right.tracks().len());
    for track in 0..count.min(head.tracks.len()).min(other_head.tracks.len()) {
        let first = &head.tracks[track];
        let second = &other_head.tracks[track];
        let tracks = Tracks {
            movies,
            place: track,
            leaving,
            divisors: scales.of_tracks(track),
        };
        let heads = Heads {
            left: first,
            right: second,
        };
        if !compare_tracks(alloc, tracks, heads, aligned, left, right, seen, steps)? {
            return Ok(false);
        }
    }
    Ok(true)
}

/// The same as [`compare_all`] where tracks are not aligned. Where they are, samples of two tracks
/// are compared only if they are as many; how they lie beside each other is what
/// [`align`](crate::align) says.
pub fn compare_listed<S: Store, T: Store, D: Differences, L: Ledger, M: Ledger>(
    alloc: Global,
    movies: &Movies,
    left: &mut S,
    right: &mut T,
    leaving: Without,
    aligned: bool,
    seen: &mut D,
    steps: &mut Steps<L, M>,
) -> Result<bool, Refusal>
    requires { D.is_open seen.old ≡ true }
    ensures stores { OnlyReadsBoth S.Store left.old left.new T.Store right.old right.new result }
    ensures handed { HandsOver D.Differences seen.old seen.new result (OfListed S.Store left.old
        movies.now.left T.Store right.old movies.now.right aligned leaving) }
    ensures timed { WhereOpenedBoth S.Store left.old movies.now.left T.Store right.old
        movies.now.right (λ tree other.
        KeepsTimes D.Differences seen.old seen.new (presentation_of (S.file left.old) tree)) }
    ensures unchanged { WhereOpenedBoth S.Store left.old movies.now.left T.Store right.old
        movies.now.right (λ tree other. IsUnchanged result) }
    ensures work { WhereOpenedBoth S.Store left.old movies.now.left T.Store right.old
        movies.now.right
        (λ tree other. steps.new.passed ≤ steps.old.passed + comparing_steps leaving tree other) }
    ensures refusal { RefusedBoth S.Store left.old left.new T.Store right.old right.new result
        RefusesSample }
    ensures grows { OnOk result (steps.old.passed ≤ steps.new.passed) }
    ensures looks { steps.new.looks ≡ steps.old.looks }
{
    let scales = BothScales::of(alloc, movies, left, right, leaving, steps)?;
    let by = Compared {
        leaving,
        scales: &scales,
        aligned,
    };
    compare_scaled(alloc, movies, by, left, right, seen, steps)
}

/// Compares two opened files by what they say, without what is left out, and hands each difference
/// over: the movies, the number of their tracks, and then track by track the heads, the start, the
/// number of samples, and the samples. True where all was compared, false where no further
/// difference was taken.
pub fn compare_all<S: Store, T: Store, D: Differences, L: Ledger, M: Ledger>(
    alloc: Global,
    movies: &Movies,
    left: &mut S,
    right: &mut T,
    leaving: Without,
    seen: &mut D,
    steps: &mut Steps<L, M>,
) -> Result<bool, Refusal>
    requires { D.is_open seen.old ≡ true }
    ensures stores { OnlyReadsBoth S.Store left.old left.new T.Store right.old right.new result }
    ensures handed { HandsOver D.Differences seen.old seen.new result (OfFiles S.Store left.old
        movies.now.left T.Store right.old movies.now.right leaving) }
    ensures timed { WhereOpenedBoth S.Store left.old movies.now.left T.Store right.old
        movies.now.right (λ tree other.
        KeepsTimes D.Differences seen.old seen.new (presentation_of (S.file left.old) tree)) }
    ensures unchanged { WhereOpenedBoth S.Store left.old movies.now.left T.Store right.old
        movies.now.right (λ tree other. IsUnchanged result) }
    ensures work { WhereOpenedBoth S.Store left.old movies.now.left T.Store right.old
        movies.now.right
        (λ tree other. steps.new.passed ≤ steps.old.passed + comparing_steps leaving tree other) }
    ensures refusal { RefusedBoth S.Store left.old left.new T.Store right.old right.new result
        RefusesSample }
    ensures grows { OnOk result (steps.old.passed ≤ steps.new.passed) }
    ensures looks { steps.new.looks ≡ steps.old.looks }
{
    compare_listed(alloc, movies, left, right, leaving, false, seen, steps)
}

/// A difference, and when the sample that it is of is decoded in the first file; of what is no
/// sample there is no such time.
#[derive(Clone, Copy, Debug, PartialEq, Eq)]
pub struct Found {
    pub difference: Difference,
    pub time: Option<DecodeTime>,
}

// The first difference that comes.
#[derive(Drop)]
pub(crate) struct FirstDifference {
    pub(crate) first: Option<Difference>,
    pub(crate) time: Option<DecodeTime>,
}

impl FirstDifference {
    ghost use Rattle.std.specs.Prelude.{◌≡◌};
    ghost use Rattle.mp4_content.specs.words.TimesTaken.{found_with};

    // With its decode time.
    fn found(&self) -> Option<Found>
        ensures { result ≡ found_with self.now.first self.now.time }
    {
        match self.first {
            Some(difference) => Some(Found {
                difference,
                time: self.time,
            }),
            None => None,
        }
    }
}

impl Differences for FirstDifference {
    ghost use Rattle.mp4_content.specs.words.Differing.{as_list, is_none_yet};
    ghost use Rattle.mp4_content.specs.words.TimesTaken.{time_as_list};

    ghost taken = { λ s. as_list s.first };

    ghost times = { λ s. time_as_list s.first s.time };

    ghost is_open = { λ s. is_none_yet s.first };

    fn take(&mut self, difference: Difference, time: Option<DecodeTime>) -> bool {
        self.first = Some(difference);
        self.time = time;
        false
    }
}

/// The first difference between two opened files, without what is left out; none where they say
/// the same.
pub fn compare<S: Store, T: Store, L: Ledger, M: Ledger>(
    alloc: Global,
    movies: &Movies,
    left: &mut S,
    right: &mut T,
    leaving: Without,
    steps: &mut Steps<L, M>,
) -> Result<Option<Found>, Refusal>
    ensures left { OnlyReads S.Store left.old left.new result }
    ensures right { OnlyReads T.Store right.old right.new result }
    ensures first { IfOk result (λ first. OfFiles S.Store left.old movies.now.left T.Store
        right.old movies.now.right leaving
        (λ found. option_map (λ f. f.difference) first ≡ slice_get found 0)) }
    ensures timed { IfOk result (λ first. WhereOpenedBoth S.Store left.old movies.now.left T.Store
        right.old movies.now.right
        (λ tree other. IfSome first (IsTimed (presentation_of (S.file left.old) tree)))) }
    ensures unchanged { WhereOpenedBoth S.Store left.old movies.now.left T.Store right.old
        movies.now.right (λ tree other. IsUnchanged result) }
    ensures work { WhereOpenedBoth S.Store left.old movies.now.left T.Store right.old
        movies.now.right
        (λ tree other. steps.new.passed ≤ steps.old.passed + comparing_steps leaving tree other) }
    ensures refusal { RefusedBoth S.Store left.old left.new T.Store right.old right.new result
        RefusesSample }
    ensures grows { OnOk result (steps.old.passed ≤ steps.new.passed) }
    ensures looks { steps.new.looks ≡ steps.old.looks }
{
    let mut seen = FirstDifference {
        first: None,
        time: None,
    };
    let _all = compare_all(alloc, movies, left, right, leaving, &mut seen, steps)?;
    Ok(seen.found())
}
