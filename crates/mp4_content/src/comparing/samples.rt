//! Samples of two tracks, compared one by one.
ghost use Rattle.std.specs.Prelude.{◌≡◌, ◌<◌, ◌≤◌, ◌++◌, length, slice_get, IfOk, OnOk};
ghost use Rattle.mp4_tables.specs.words.Keys.{key_place, key_seen, keys_seen};
ghost use Rattle.mp4_content.specs.words.Aligning.{due};
ghost use Rattle.mp4_content.specs.words.Compared.{BothCome, BothWork, HaveTracks, IsPairingAt, PairFound, TracksWork, WhereBothLie, WhereTracks};
ghost use Rattle.mp4_content.specs.words.Differing.{sample_values, index_in, group_differences, differences_at, sample_bytes_differ, RefusedBoth, RefusesSample};
ghost use Rattle.mp4_present.specs.words.Joined.{IsBelow};
ghost use Rattle.mp4_content.specs.words.TwoStores.{BothStand, HaveBegun, OnlyReadsBoth};
ghost use Rattle.mp4_present.specs.words.StoresRead.{WhereBothHonest, IsUnchanged};
ghost use Rattle.mp4_present.specs.words.SamplesComing.{Comes};
ghost use Rattle.mp4_content.specs.words.Windows.{BothShow};

use crate::comparing::bytes::{Ranges, first_difference};
use crate::comparing::differences::{Difference, Field, Subject, Value};
use crate::comparing::fields::{compare_numbers, compare_value, compare_values, number, signed};
use crate::comparing::movies::Movies;
use crate::comparing::pairing::Pairing;
use crate::comparing::tracks::Tracks;
use crate::file_window::FileWindow;
use crate::measures::reduction_of;
use crate::reduced::Reduction;
use mp4_boxes::{Memory, Refusal, Steps};
use mp4_present::{Movie, Walk};
use mp4_store::Store;
use mp4_tables::{GroupKey, Keys, SampleAt};
use std::alloc::Global;
use std::sync::ledger::Ledger;

// What is left by this of what a sample says before its indexes.
fn sample_values(by: Reduction, sample: &SampleAt) -> [(Field, Value); 4]
    ensures { result ≡ sample_values by sample.now }
{
    let duration = by.duration(sample.number, sample.duration);
    [
        number(Field::Duration, u64::from(duration)),
        signed(Field::Offset, by.offset(sample.cto)),
        number(Field::Flags, u64::from(by.flags(sample.flags))),
        number(Field::Description, u64::from(sample.description)),
    ]
}

// The index at a key of a sample with these indexes, 0 where its track doesn't name it.
pub(crate) fn index_at(keys: &Keys, groups: [u16; 4], key: GroupKey) -> u16
    ensures { result ≡ index_in (key_place (key_seen key) (keys_seen keys.now)) groups }
{
    match keys.place(key) {
        Some(place) if place < 4 => groups[place as usize],
        _ => 0,
    }
}

// Adds each index that differs.
fn compare_groups(
    of: Subject,
    by: &Pairing,
    left: &SampleAt,
    right: &SampleAt,
    found: &mut Vec<Difference>,
) -> Result<(), Memory>
    ensures { OnOk result (found.new.items ≡ found.old.items ++ group_differences of
        by.now.keys.items by.now.left left.now by.now.right right.now) }
{
    for k in 0..by.keys.len() {
        let key = by.keys[k];
        let index = u64::from(index_at(&by.left, left.groups, key));
        let other = u64::from(index_at(&by.right, right.groups, key));
        compare_numbers(of, Field::Group(key), index, other, found)?;
    }
    Ok(())
}

// Adds what differs between two samples apart from their bytes.
fn compare_samples(
    of: Subject,
    by: &Pairing,
    left: &SampleAt,
    right: &SampleAt,
    found: &mut Vec<Difference>,
) -> Result<(), Memory>
    ensures { OnOk result (found.new.items
        ≡ found.old.items ++ differences_at by.now of left.now right.now) }
{
    let values = sample_values(by.left_reduction, left);
    let others = sample_values(by.right_reduction, right);
    compare_values(of, &values, &others, found)?;
    compare_groups(of, by, left, right, found)?;
    let size = u64::from(left.size);
    compare_numbers(of, Field::Size, size, u64::from(right.size), found)
}

// How many bytes of a file are read at once, at most.
const WINDOW: u64 = 65_536;

// How long a window on the samples of a track is that has so many bytes: a longer one would be
// cleared for nothing.
fn window_len(bytes: u64) -> usize
    ensures { 0 < result }
{
    bytes.min(WINDOW).max(1) as usize
}

// A track whose samples are compared with those of another: a walk over them, and a window on
// their bytes.
#[derive(Drop)]
pub(crate) struct TrackSide {
    pub(crate) walk: Walk,
    pub(crate) window: FileWindow,
}

impl TrackSide {
    ghost use Rattle.std.specs.Prelude.{◌<◌, length, IfOk};
    ghost use Rattle.mp4_content.specs.words.TwoStores.{Begins};

    // Before the first sample of the track at this place.
    pub(crate) fn new(alloc: Global, movie: &Movie, track: usize) -> Result<TrackSide, Memory>
        requires { track < length movie.now.tracks }
        ensures { IfOk result (Begins movie.now track) }
    {
        let walk = movie.walk(alloc, track)?;
        let len = window_len(movie.tracks()[track].bytes);
        let window = FileWindow::new(alloc, len).map_err(|_| Memory)?;
        Ok(TrackSide { walk, window })
    }
}

// Both tracks.
#[derive(Drop)]
pub(crate) struct Sides {
    pub(crate) left: TrackSide,
    pub(crate) right: TrackSide,
}

// A sample of each track.
#[derive(Clone, Copy)]
struct Pair<'a> {
    left: &'a SampleAt,
    right: &'a SampleAt,
}

// Adds the first byte that differs, where two samples have one size. A sample that doesn't lie in
// its file shows that the store has changed.
fn compare_bytes<S: Store, T: Store>(
    of: Subject,
    pair: Pair,
    sides: &mut Sides,
    left: &mut S,
    right: &mut T,
    found: &mut Vec<Difference>,
) -> Result<(), Refusal>
    requires shows { BothShow S.Store left.old sides.old.left.window T.Store right.old
        sides.old.right.window }
    ensures stores { OnlyReadsBoth S.Store left.old left.new T.Store right.old right.new result }
    ensures shows { BothShow S.Store left.old sides.new.left.window T.Store right.old
        sides.new.right.window }
    ensures walk { sides.new.left.walk ≡ sides.old.left.walk }
    ensures right_walk { sides.new.right.walk ≡ sides.old.right.walk }
    ensures bytes { OnOk result (WhereBothHonest S.Store left.old T.Store right.old
        (λ file other. found.new.items ≡ found.old.items
        ++ sample_bytes_differ of file pair.entry.left.now other pair.entry.right.now)) }
    ensures unchanged { IsBelow (length (S.file left.old)) pair.entry.left.now
        → IsBelow (length (T.file right.old)) pair.entry.right.now → IsUnchanged result }
    ensures refusal { RefusedBoth S.Store left.old left.new T.Store right.old right.new result
        RefusesSample }
{
    let Pair { left: x, right: y } = pair;
    if x.size != y.size {
        return Ok(());
    }
    let size = u64::from(x.size);
    let len = left.len();
    let other = right.len();
    if x.at > len || size > len - x.at || y.at > other || size > other - y.at {
        return Err(Refusal::StoreChanged);
    }
    let ranges = Ranges {
        left: x.at,
        right: y.at,
        len: size,
    };
    let window = &mut sides.right.window;
    let first = first_difference(ranges, &mut sides.left.window, left, window, right)?;
    if let Some((place, byte, other)) = first {
        let field = Field::Byte(place + 1, size);
        compare_value(of, field, Value::Byte(byte), Value::Byte(other), found)?;
    }
    Ok(())
}

// The samples of two movies that are compared next: their number, and what they are compared by.
#[derive(Clone, Copy)]
pub(crate) struct Next<'a> {
    pub(crate) movies: &'a Movies,
    pub(crate) by: &'a Pairing,
    pub(crate) number: u32,
}

// What differs between two samples, and when the left one is decoded.
#[derive(Drop)]
pub(crate) struct PairDiffers {
    pub(crate) differences: Vec<Difference>,
    pub(crate) time: u64,
}

// What differs between the next samples of both tracks, which are taken: both sides go on, and
// what they may take of steps is less by those that were taken.
pub(crate) fn compare_pair<S: Store, T: Store, L: Ledger, M: Ledger>(
    alloc: Global,
    next: Next,
    sides: &mut Sides,
    left: &mut S,
    right: &mut T,
    steps: &mut Steps<L, M>,
) -> Result<PairDiffers, Refusal>
    requires sides { BothStand S.Store left.old next.movies.now.left sides.old.left T.Store
        right.old next.movies.now.right sides.old.right }
    ensures stores { OnlyReadsBoth S.Store left.old left.new T.Store right.old right.new result }
    ensures sides { OnOk result (BothStand S.Store left.old next.entry.movies.now.left
        sides.new.left T.Store right.old next.entry.movies.now.right sides.new.right) }
    ensures found { PairFound next.entry.by.now next.entry.number S.Store left.old
        next.entry.movies.now.left sides.old.left sides.new.left T.Store right.old
        next.entry.movies.now.right sides.old.right sides.new.right
        (λ found. found.differences.items) result }
    ensures time { BothCome S.Store left.old next.entry.movies.now.left sides.old.left T.Store
        right.old next.entry.movies.now.right sides.old.right (λ tree t xs other u ys.
        IfOk result (λ found. found.time ≡ due (slice_get xs 0))) }
    ensures unchanged { WhereBothLie S.Store left.old next.entry.movies.now.left sides.old.left
        T.Store right.old next.entry.movies.now.right sides.old.right (IsUnchanged result) }
    ensures work { BothWork S.Store left.old next.entry.movies.now.left sides.old.left
        sides.new.left T.Store right.old next.entry.movies.now.right sides.old.right
        sides.new.right result steps.old.passed steps.new.passed }
    ensures refusal { RefusedBoth S.Store left.old left.new T.Store right.old right.new result
        RefusesSample }
    ensures grows { OnOk result (steps.old.passed ≤ steps.new.passed) }
    ensures looks { steps.new.looks ≡ steps.old.looks }
{
    let Next { movies, by, number } = next;
    let x = sides.left.walk.next_sample(&movies.left, left, steps)?;
    let y = sides.right.walk.next_sample(&movies.right, right, steps)?;
    let of = Subject::Sample(by.track, number);
    let mut found = Vec::new(alloc);
    compare_samples(of, by, &x, &y, &mut found)?;
    let pair = Pair {
        left: &x,
        right: &y,
    };
    compare_bytes(of, pair, sides, left, right, &mut found)?;
    Ok(PairDiffers {
        differences: found,
        time: x.dts,
    })
}

// Both sides have a sample in hand, where they have not come to the end: the same samples come.
pub(crate) fn refill_both<S: Store, T: Store, L: Ledger, M: Ledger>(
    movies: &Movies,
    sides: &mut Sides,
    left: &mut S,
    right: &mut T,
    steps: &mut Steps<L, M>,
) -> Result<(), Refusal>
    requires sides { BothStand S.Store left.old movies.now.left sides.old.left T.Store right.old
        movies.now.right sides.old.right }
    ensures stores { OnlyReadsBoth S.Store left.old left.new T.Store right.old right.new result }
    ensures sides { OnOk result (BothStand S.Store left.old movies.now.left sides.new.left
        T.Store right.old movies.now.right sides.new.right) }
    ensures coming { BothCome S.Store left.old movies.now.left sides.old.left T.Store right.old
        movies.now.right sides.old.right (λ tree t xs other u ys. OnOk result
        (Comes (S.file left.old) tree t movies.now.left sides.new.left.walk xs
        × Comes (T.file right.old) other u movies.now.right sides.new.right.walk ys)) }
    ensures unchanged { WhereBothLie S.Store left.old movies.now.left sides.old.left T.Store
        right.old movies.now.right sides.old.right (IsUnchanged result) }
    ensures work { BothWork S.Store left.old movies.now.left sides.old.left sides.new.left
        T.Store right.old movies.now.right sides.old.right sides.new.right result steps.old.passed
        steps.new.passed }
    ensures refusal { RefusedBoth S.Store left.old left.new T.Store right.old right.new result
        RefusesSample }
    ensures grows { OnOk result (steps.old.passed ≤ steps.new.passed) }
    ensures looks { steps.new.looks ≡ steps.old.looks }
{
    sides.left.walk.refill(&movies.left, left, steps)?;
    sides.right.walk.refill(&movies.right, right, steps)?;
    Ok(())
}

// Two tracks before their first samples: what these are compared by, and both sides.
pub(crate) fn begin_pairs<S: Store, T: Store, L: Ledger, M: Ledger>(
    alloc: Global,
    tracks: Tracks,
    left: &mut S,
    right: &mut T,
    steps: &mut Steps<L, M>,
) -> Result<(Pairing, Sides), Refusal>
    requires { HaveTracks tracks.place tracks.movies.now.left tracks.movies.now.right }
    ensures stores { OnlyReadsBoth S.Store left.old left.new T.Store right.old right.new result }
    ensures pairing { IfOk result (λ begun. IsPairingAt tracks.entry.leaving tracks.entry.place
        tracks.entry.movies.now.left tracks.entry.movies.now.right begun.0) }
    ensures sides { IfOk result (λ begun. BothStand S.Store left.old tracks.entry.movies.now.left
        begun.1.left T.Store right.old tracks.entry.movies.now.right begun.1.right) }
    ensures begun { WhereTracks S.Store left.old tracks.entry.movies.now.left T.Store right.old
        tracks.entry.movies.now.right tracks.entry.place (λ tree t other u. IfOk result (λ begun.
        HaveBegun tracks.entry.leaving tracks.entry.divisors begun.0 (S.file left.old) tree t
        tracks.entry.movies.now.left begun.1.left.walk (T.file right.old) other u
        tracks.entry.movies.now.right begun.1.right.walk steps.old.passed steps.new.passed)) }
    ensures unchanged { WhereTracks S.Store left.old tracks.entry.movies.now.left T.Store
        right.old tracks.entry.movies.now.right tracks.entry.place
        (λ tree t other u. IsUnchanged result) }
    ensures work { TracksWork S.Store left.old tracks.entry.movies.now.left T.Store right.old
        tracks.entry.movies.now.right tracks.entry.place steps.old.passed steps.new.passed }
    ensures refusal { RefusedBoth S.Store left.old left.new T.Store right.old right.new result
        RefusesSample }
    ensures grows { OnOk result (steps.old.passed ≤ steps.new.passed) }
    ensures looks { steps.new.looks ≡ steps.old.looks }
{
    let movies = tracks.movies;
    let mut left_side = TrackSide::new(alloc, &movies.left, tracks.place)?;
    let mut right_side = TrackSide::new(alloc, &movies.right, tracks.place)?;
    let leaving = tracks.leaving;
    let walk = &mut left_side.walk;
    let first = reduction_of(
        walk,
        leaving,
        tracks.divisors.left,
        &movies.left,
        left,
        steps,
    )?;
    let walk = &mut right_side.walk;
    let second = reduction_of(
        walk,
        leaving,
        tracks.divisors.right,
        &movies.right,
        right,
        steps,
    )?;
    let by = Pairing::new(alloc, tracks, first, second)?;
    let sides = Sides {
        left: left_side,
        right: right_side,
    };
    Ok((by, sides))
}
