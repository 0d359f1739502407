//! The samples at the end of two tracks that are the same.
ghost use Rattle.std.specs.Prelude.{◌≡◌, ◌+◌, ◌≤◌, [], drop, length, slice_get, IfOk, OnOk};
ghost use Rattle.mp4_content.specs.format.Alignment.{BothHave};
ghost use Rattle.mp4_content.specs.words.Aligning.{AreCounts, AreEnds, BothLie, BothWithin, IsLast, OfPair, due};
ghost use Rattle.mp4_content.specs.words.Compared.{BothCome, HaveTracks, TracksWork};
ghost use Rattle.mp4_content.specs.words.Differing.{RefusedBoth, RefusesSample};
ghost use Rattle.mp4_content.specs.words.TwoStores.{BothStand, OnlyReadsBoth};
ghost use Rattle.mp4_present.specs.words.Movies.{IsWalkOf, RefusesLoad};
ghost use Rattle.mp4_present.specs.words.SamplesComing.{Comes};
ghost use Rattle.mp4_present.specs.words.StoresRead.{IsUnchanged, OnlyReads, Refused};
ghost use Rattle.mp4_present.specs.words.TrackWalks.{TakesSteps, WhereComes};

use crate::aligning::SampleCounts;
use crate::comparing::differences::Difference;
use crate::comparing::movies::Movies;
use crate::comparing::pairing::Pairing;
use crate::comparing::same_pairs::{Pause, pass_same};
use crate::comparing::samples::{Next, Sides, begin_pairs, compare_pair, refill_both};
use crate::comparing::tracks::Tracks;
use crate::peeking::peek_sample;
use mp4_boxes::{Refusal, Steps};
use mp4_present::{Movie, Walk};
use mp4_store::Store;
use mp4_tables::SampleAt;
use std::alloc::Global;
use std::sync::ledger::Ledger;

// How many samples at the end of two tracks are the same, and the decode times of the first samples
// behind those in front; 0 where there is none.
#[derive(Clone, Copy)]
pub(crate) struct Ends {
    pub(crate) end: u32,
    pub(crate) time: u64,
    pub(crate) other_time: u64,
}

// So many pairs of samples of two movies that come, and what they are compared by.
#[derive(Clone, Copy)]
struct Pairs<'a> {
    movies: &'a Movies,
    by: &'a Pairing,
    count: u32,
}

// Passes so many samples of a walk.
fn pass_samples<S: Store, L: Ledger, M: Ledger>(
    walk: &mut Walk,
    count: u32,
    movie: &Movie,
    store: &mut S,
    steps: &mut Steps<L, M>,
) -> Result<(), Refusal>
    requires { IsWalkOf movie.now walk.old }
    ensures walk { OnOk result (IsWalkOf movie.now walk.new) }
    ensures store { OnlyReads S.Store store.old store.new result }
    ensures coming { WhereComes S.Store store.old movie.now walk.old (λ file tree t samples.
        OnOk result (Comes file tree t movie.now walk.new (drop count samples))) }
    ensures unchanged { WhereComes S.Store store.old movie.now walk.old (λ file tree t samples.
        count ≤ length samples → IsUnchanged result) }
    ensures work { TakesSteps S.Store store.old movie.now walk.old walk.new result
        steps.old.passed steps.new.passed }
    ensures refusal { Refused S.Store store.old store.new result RefusesLoad }
    ensures grows { steps.old.passed ≤ steps.new.passed }
    ensures looks { steps.new.looks ≡ steps.old.looks }
{
    let mut passed = 0;
    while passed < count {
        let _sample = walk.next_sample(movie, store, steps)?;
        passed += 1;
    }
    Ok(())
}

// When a sample is decoded; 0 where there is none.
fn due(next: Option<SampleAt>) -> u64
    ensures { result ≡ due next }
{
    match next {
        Some(sample) => sample.dts,
        None => 0,
    }
}

// Passes so many samples of a walk, and says when the next is decoded, 0 where there is none; and
// then passes some more.
fn pass_to<S: Store, L: Ledger, M: Ledger>(
    walk: &mut Walk,
    front: u32,
    more: u32,
    movie: &Movie,
    store: &mut S,
    steps: &mut Steps<L, M>,
) -> Result<u64, Refusal>
    requires { IsWalkOf movie.now walk.old }
    ensures walk { OnOk result (IsWalkOf movie.now walk.new) }
    ensures store { OnlyReads S.Store store.old store.new result }
    ensures coming { WhereComes S.Store store.old movie.now walk.old (λ file tree t samples.
        OnOk result (Comes file tree t movie.now walk.new (drop (front + more) samples))) }
    ensures time { WhereComes S.Store store.old movie.now walk.old (λ file tree t samples.
        IfOk result (λ time. time ≡ due (slice_get samples front))) }
    ensures unchanged { WhereComes S.Store store.old movie.now walk.old (λ file tree t samples.
        front + more ≤ length samples → IsUnchanged result) }
    ensures work { TakesSteps S.Store store.old movie.now walk.old walk.new result
        steps.old.passed steps.new.passed }
    ensures refusal { Refused S.Store store.old store.new result RefusesLoad }
    ensures grows { OnOk result (steps.old.passed ≤ steps.new.passed) }
    ensures looks { steps.new.looks ≡ steps.old.looks }
{
    pass_samples(walk, front, movie, store, steps)?;
    let next = peek_sample(walk, movie, store, steps)?;
    pass_samples(walk, more, movie, store, steps)?;
    Ok(due(next))
}

// The last pair that differs, with the one of this number, in which this was found.
fn last_with(last: u32, number: u32, found: &[Difference]) -> u32
    ensures same { found.now ≡ [] → result ≡ last }
    ensures differs { (found.now ≡ [] → ⊥) → result ≡ number }
{
    if found.is_empty() { last } else { number }
}

// Of so many pairs that come, the number of the last that differs, from 1; 0 where none does.
fn last_different<S: Store, T: Store, L: Ledger, M: Ledger>(
    alloc: Global,
    pairs: Pairs,
    sides: &mut Sides,
    left: &mut S,
    right: &mut T,
    steps: &mut Steps<L, M>,
) -> Result<u32, Refusal>
    requires { BothStand S.Store left.old pairs.movies.now.left sides.old.left T.Store right.old
        pairs.movies.now.right sides.old.right }
    ensures stores { OnlyReadsBoth S.Store left.old left.new T.Store right.old right.new result }
    ensures few { IfOk result (λ last. last ≤ pairs.entry.count) }
    ensures last { BothCome S.Store left.old pairs.entry.movies.now.left sides.old.left T.Store
        right.old pairs.entry.movies.now.right sides.old.right (λ tree t xs other u ys.
        IfOk result (λ last. IsLast pairs.entry.by.now (S.file left.old) xs (T.file right.old) ys
        last pairs.entry.count)) }
    ensures unchanged { BothCome S.Store left.old pairs.entry.movies.now.left sides.old.left
        T.Store right.old pairs.entry.movies.now.right sides.old.right (λ tree t xs other u ys.
        BothLie (S.file left.old) (T.file right.old) pairs.entry.count xs ys
        → IsUnchanged result) }
    ensures work { BothWithin S.Store left.old pairs.entry.movies.now.left sides.old.left T.Store
        right.old pairs.entry.movies.now.right sides.old.right steps.old.passed steps.new.passed }
    ensures refusal { RefusedBoth S.Store left.old left.new T.Store right.old right.new result
        RefusesSample }
    ensures grows { OnOk result (steps.old.passed ≤ steps.new.passed) }
    ensures looks { steps.new.looks ≡ steps.old.looks }
{
    let Pairs { movies, by, count } = pairs;
    let mut pause = Pause::new();
    let mut number = 0;
    let mut last = 0;
    while number < count {
        let most = count - number;
        let passed = pass_same(by, movies, sides, most, &mut pause, steps);
        number += passed.count;
        if number < count {
            if passed.is_used_up {
                let _same = refill_both(movies, sides, left, right, steps)?;
            } else {
                number += 1;
                let next = Next { movies, by, number };
                let found = compare_pair(alloc, next, sides, left, right, steps)?;
                last = last_with(last, number, found.differences.as_slice());
            }
        }
    }
    Ok(last)
}

// What there is behind so many samples in front of two tracks: the pass over the longer one begins
// where as many are left as of the shorter one.
pub(crate) fn compare_ends<S: Store, T: Store, L: Ledger, M: Ledger>(
    alloc: Global,
    tracks: Tracks,
    counts: SampleCounts,
    front: u32,
    left: &mut S,
    right: &mut T,
    steps: &mut Steps<L, M>,
) -> Result<Ends, Refusal>
    requires { HaveTracks tracks.place tracks.movies.now.left tracks.movies.now.right }
    ensures stores { OnlyReadsBoth S.Store left.old left.new T.Store right.old right.new result }
    ensures ends { OfPair S.Store left.old tracks.entry.movies.now.left T.Store right.old
        tracks.entry.movies.now.right tracks.entry.place (λ t u. AreCounts counts t u
        → BothHave front t.samples u.samples
        → IfOk result (AreEnds tracks.entry.leaving tracks.entry.divisors front t u)) }
    ensures unchanged { OfPair S.Store left.old tracks.entry.movies.now.left T.Store
        right.old tracks.entry.movies.now.right tracks.entry.place (λ t u. AreCounts counts t u
        → BothHave front t.samples u.samples → IsUnchanged result) }
    ensures work { TracksWork S.Store left.old tracks.entry.movies.now.left T.Store right.old
        tracks.entry.movies.now.right tracks.entry.place steps.old.passed steps.new.passed }
    ensures refusal { RefusedBoth S.Store left.old left.new T.Store right.old right.new result
        RefusesSample }
    ensures grows { OnOk result (steps.old.passed ≤ steps.new.passed) }
    ensures looks { steps.new.looks ≡ steps.old.looks }
{
    let movies = tracks.movies;
    let (by, mut sides) = begin_pairs(alloc, tracks, left, right, steps)?;
    let more = counts.left.saturating_sub(counts.right);
    let walk = &mut sides.left.walk;
    let time = pass_to(walk, front, more, &movies.left, left, steps)?;
    let more = counts.right.saturating_sub(counts.left);
    let walk = &mut sides.right.walk;
    let other_time = pass_to(walk, front, more, &movies.right, right, steps)?;
    let count = counts.left.min(counts.right).saturating_sub(front);
    let pairs = Pairs {
        movies,
        by: &by,
        count,
    };
    let last = last_different(alloc, pairs, &mut sides, left, right, steps)?;
    Ok(Ends {
        end: count - last,
        time,
        other_time,
    })
}
