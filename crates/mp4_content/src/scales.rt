//! By what times of what remains of a movie are divided.
ghost use Rattle.std.specs.Prelude.{◌≡◌, ◌<◌, ◌≤◌, ◌+◌, [], ◌∷◌, length, map, replicate, slice_get, unwrap_or, pos, false, true, IfOk, IfSome, OnOk};
ghost use Rattle.mp4_head.specs.format.Tree.{track_head_of};
ghost use Rattle.mp4_head.specs.words.Seen.{edit_seen, track_seen, tracks_seen};
ghost use Rattle.mp4_present.specs.format.Denotes.{file_parts, track_of};
ghost use Rattle.mp4_present.specs.words.Movies.{IsWalkOf, RefusesLoad};
ghost use Rattle.mp4_present.specs.words.StoresRead.{IsUnchanged, OnlyReads, Refused};
ghost use Rattle.mp4_present.specs.words.TrackWalks.{WhereComes, WhereMayTake, WhereTrack};
ghost use Rattle.mp4_present.specs.words.WalkSteps.{walk_steps, walks_steps};
ghost use Rattle.mp4_content.specs.format.Remaining.{track_divisor};
ghost use Rattle.mp4_content.specs.format.Timescales.{common_divisor, counted_media_time, counted_timescale};
ghost use Rattle.mp4_content.specs.words.Opened.{OverOpened, RefusesPlan};
ghost use Rattle.mp4_content.specs.words.Scales.{AreOnes, AreScales, divisor_from, divisors_of, head_times_left, media_times_of, movie_times_left, sample_times_left, scaling_steps, segments_of};

use crate::measures::reduction_of;
use crate::reduced::Reduction;
use crate::without::{Without, Word};
use mp4_boxes::{Refusal, Steps};
use mp4_head::{Edit, MovieHead, TrackHead};
use mp4_present::{Fold, Movie, TrackInfo, Walk, fold_samples};
use mp4_store::Store;
use mp4_tables::SampleAt;
use std::alloc::{AllocError, Global};
use std::sync::ledger::Ledger;

// The greatest common divisor of two numbers: by one division where the second divides the first.
fn common_divisor(a: u64, b: u64) -> u64
    ensures { result ≡ common_divisor a b }
{
    let mut x = a;
    let mut y = b;
    while y != 0 {
        let rest = x % y;
        x = y;
        y = rest;
    }
    x
}

// A timescale, where it counts.
fn counted_timescale(leaving: Without, timescale: u32) -> u64
    ensures { result ≡ counted_timescale leaving timescale }
{
    if leaving.has(Word::Timing) {
        return 0;
    }
    u64::from(timescale)
}

// The media time of an edit, as far as it counts: -1 is none, and what is below that is taken as 1,
// so that the track's times stay.
fn counted_media_time(time: i64) -> u64
    ensures { pos result ≡ counted_media_time time }
{
    match time {
        -1 => 0,
        time if time < 0 => 1,
        time => time as u64,
    }
}

// The greatest common divisor of what was found and of how long edits last.
fn with_segments(edits: &[Edit], found: u64) -> u64
    ensures { result ≡ divisor_from found (segments_of (map edit_seen edits.now)) }
{
    let mut divisor = found;
    for k in 0..edits.len() {
        divisor = common_divisor(edits[k].segment_duration, divisor);
    }
    divisor
}

// The same with the media times of edits.
fn with_media_times(edits: &[Edit], found: u64) -> u64
    ensures { result ≡ divisor_from found (media_times_of (map edit_seen edits.now)) }
{
    let mut divisor = found;
    for k in 0..edits.len() {
        divisor = common_divisor(counted_media_time(edits[k].media_time), divisor);
    }
    divisor
}

// By what the times on a movie's own time line are divided.
fn movie_divisor(leaving: Without, head: &MovieHead) -> u64
    ensures { result
        ≡ divisor_from 0 (movie_times_left leaving head.now.timescale (tracks_seen head.now)) }
{
    let mut divisor = counted_timescale(leaving, head.timescale);
    if leaving.has(Word::Edits) {
        return divisor;
    }
    for k in 0..head.tracks.len() {
        divisor = with_segments(head.tracks[k].edits.as_slice(), divisor);
    }
    divisor
}

// The greatest common divisor of the times of a track that are not those of its samples.
fn head_divisor(leaving: Without, info: &TrackInfo, edits: &[Edit]) -> u64
    ensures { result
        ≡ divisor_from 0
        (head_times_left leaving info.now.timescale info.now.start (map edit_seen edits.now)) }
{
    let timescale = counted_timescale(leaving, info.timescale);
    let divisor = common_divisor(leaving.start(info.start), timescale);
    if leaving.has(Word::Edits) {
        return divisor;
    }
    with_media_times(edits, divisor)
}

// The same with the times of one more sample.
fn with_sample(reduction: Reduction, found: u64, sample: &SampleAt) -> u64
    ensures { result ≡ divisor_from found (sample_times_left reduction (sample.now ∷ [])) }
{
    let duration = if reduction.leaves_duration(sample.number) {
        0
    } else {
        u64::from(sample.duration)
    };
    let offset = reduction.own_offset(sample.cto).unsigned_abs();
    common_divisor(offset, common_divisor(duration, found))
}

// What divides the times of samples that are added one after the other.
#[derive(Clone, Copy)]
struct Dividing {
    reduction: Reduction,
    divisor: u64,
}

impl Fold for Dividing {
    ghost use Rattle.std.specs.Prelude.{◌≡◌};
    ghost use Rattle.mp4_content.specs.words.Scales.{divided_with};

    ghost takes = { λ d s n. n ≡ divided_with d s };

    fn add(&mut self, sample: &SampleAt) {
        self.divisor = with_sample(self.reduction, self.divisor, sample);
    }

    fn goes_on(&self) -> bool {
        self.divisor != 1
    }
}

// The same with those of all samples that a walk has still to come. It goes on until no number but
// 1 divides all times.
fn with_samples<S: Store, L: Ledger, M: Ledger>(
    walk: &mut Walk,
    reduction: Reduction,
    found: u64,
    movie: &Movie,
    store: &mut S,
    steps: &mut Steps<L, M>,
) -> Result<u64, Refusal>
    requires { IsWalkOf movie.now walk.old }
    ensures store { OnlyReads S.Store store.old store.new result }
    ensures divisor { WhereComes S.Store store.old movie.now walk.old (λ file tree t samples.
        IfOk result (λ n. n ≡ divisor_from found (sample_times_left reduction samples))) }
    ensures unchanged { WhereComes S.Store store.old movie.now walk.old (λ file tree t samples.
        IsUnchanged result) }
    ensures grows { OnOk result (steps.old.passed ≤ steps.new.passed) }
    ensures work { WhereMayTake S.Store store.old movie.now walk.old
        (λ file tree t n. steps.new.passed ≤ steps.old.passed + n) }
    ensures refusal { Refused S.Store store.old store.new result RefusesLoad }
    ensures looks { steps.new.looks ≡ steps.old.looks }
{
    let mut dividing = Dividing {
        reduction,
        divisor: found,
    };
    fold_samples(walk, &mut dividing, movie, store, steps)?;
    Ok(dividing.divisor)
}

// By what the times of the track at this place are divided, whose head has these edits.
fn track_divisor<S: Store, L: Ledger, M: Ledger>(
    alloc: Global,
    track: usize,
    edits: &[Edit],
    leaving: Without,
    movie: &Movie,
    store: &mut S,
    steps: &mut Steps<L, M>,
) -> Result<u64, Refusal>
    requires { track < length movie.now.tracks }
    ensures store { OnlyReads S.Store store.old store.new result }
    ensures divisor { WhereTrack S.Store store.old movie.now track (λ file tree t.
        leaving.timescales ≡ true → map edit_seen edits.now ≡ (track_head_of t).edits
        → IfOk result (λ n. n ≡ track_divisor leaving (track_of file (file_parts tree) t))) }
    ensures unchanged { WhereTrack S.Store store.old movie.now track (λ file tree t.
        IsUnchanged result) }
    ensures work { WhereTrack S.Store store.old movie.now track (λ file tree t.
        steps.new.passed ≤ steps.old.passed + walk_steps tree t) }
    ensures grows { OnOk result (steps.old.passed ≤ steps.new.passed) }
    ensures refusal { Refused S.Store store.old store.new result RefusesPlan }
    ensures looks { steps.new.looks ≡ steps.old.looks }
{
    let found = head_divisor(leaving, &movie.tracks()[track], edits);
    let mut walk = movie.walk(alloc, track)?;
    let reduction = reduction_of(&mut walk, leaving, 1, movie, store, steps)?;
    with_samples(&mut walk, reduction, found, movie, store, steps)
}

// The edits of the track at this place; none where no such track has a head.
pub(crate) fn edits_at<'a>(heads: &'a [TrackHead], track: usize) -> &'a [Edit]
    ensures { IfSome (slice_get heads.now track) (λ head. result.now ≡ head.edits.items) }
{
    if track < heads.len() {
        return heads[track].edits.as_slice();
    }
    &[]
}

// By what the times of each track are divided.
fn track_divisors<S: Store, L: Ledger, M: Ledger>(
    alloc: Global,
    heads: &[TrackHead],
    movie: &Movie,
    store: &mut S,
    leaving: Without,
    steps: &mut Steps<L, M>,
) -> Result<Vec<u64>, Refusal>
    ensures store { OnlyReads S.Store store.old store.new result }
    ensures many { IfOk result (λ all. length all.items ≡ length movie.now.tracks) }
    ensures divisors { OverOpened S.Store store.old movie.now (λ file tree.
        leaving.timescales ≡ true → map track_seen heads.now ≡ map track_head_of tree.movie.tracks
        → IfOk result (λ all. all.items ≡ divisors_of leaving file tree)) }
    ensures unchanged { OverOpened S.Store store.old movie.now (λ file tree. IsUnchanged result) }
    ensures work { OverOpened S.Store store.old movie.now
        (λ file tree. steps.new.passed ≤ steps.old.passed + walks_steps tree) }
    ensures grows { OnOk result (steps.old.passed ≤ steps.new.passed) }
    ensures refusal { Refused S.Store store.old store.new result RefusesPlan }
    ensures looks { steps.new.looks ≡ steps.old.looks }
{
    let mut divisors = Vec::with_capacity(alloc, movie.tracks().len())?;
    for track in 0..movie.tracks().len() {
        let edits = edits_at(heads, track);
        divisors.push(track_divisor(alloc, track, edits, leaving, movie, store, steps)?)?;
    }
    Ok(divisors)
}

/// By what times of what remains of a movie are divided: those on its own time line, and those of
/// each track; by 1 where timescales count.
#[derive(Drop)]
pub struct Scales {
    pub(crate) movie: u64,
    pub(crate) tracks: Vec<u64>,
}

impl Scales {
    // Those of so many tracks where timescales count.
    fn ones(alloc: Global, tracks: usize) -> Result<Scales, AllocError>
        ensures movie { IfOk result (λ scales. scales.movie ≡ 1) }
        ensures tracks { IfOk result (λ scales. scales.tracks.items ≡ replicate tracks 1) }
    {
        let tracks = vec![in alloc; 1; tracks]?;
        Ok(Scales { movie: 1, tracks })
    }

    /// Those of a movie. Where timescales are left out the samples of all tracks are walked over.
    pub fn of<S: Store, L: Ledger, M: Ledger>(
        alloc: Global,
        movie: &Movie,
        store: &mut S,
        leaving: Without,
        steps: &mut Steps<L, M>,
    ) -> Result<Scales, Refusal>
        ensures store { OnlyReads S.Store store.old store.new result }
        ensures many { IfOk result
            (λ scales. length scales.tracks.items ≡ length movie.now.tracks) }
        ensures ones { leaving.timescales ≡ false → IfOk result AreOnes }
        ensures scales { OverOpened S.Store store.old movie.now
            (λ file tree. IfOk result (AreScales leaving file tree)) }
        ensures unchanged { OverOpened S.Store store.old movie.now
            (λ file tree. IsUnchanged result) }
        ensures grows { OnOk result (steps.old.passed ≤ steps.new.passed) }
        ensures work { OverOpened S.Store store.old movie.now
            (λ file tree. steps.new.passed ≤ steps.old.passed + scaling_steps leaving tree) }
        ensures refusal { Refused S.Store store.old store.new result RefusesPlan }
        ensures looks { steps.new.looks ≡ steps.old.looks }
    {
        if !leaving.has(Word::Timescales) {
            return Ok(Scales::ones(alloc, movie.tracks().len())?);
        }
        let head = movie.head(alloc)?;
        let tracks = track_divisors(alloc, head.tracks.as_slice(), movie, store, leaving, steps)?;
        Ok(Scales {
            movie: movie_divisor(leaving, &head),
            tracks,
        })
    }

    /// By what times of the track at this place are divided; by 1 where there is no such track.
    pub fn track(&self, track: usize) -> u64
        ensures { result ≡ unwrap_or (slice_get self.now.tracks.items track) 1 }
    {
        self.tracks.get(track).copied().unwrap_or(1)
    }
}
