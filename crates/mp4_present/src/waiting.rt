//! Tracks that are told to wait, in the place of their edits.
ghost use Rattle.std.specs.Prelude.{◌≡◌, map, Some, IfOk, OnOk};
ghost use Rattle.mp4_head.specs.words.Seen.{edit_seen, head_seen, track_seen};
ghost use Rattle.mp4_present.specs.format.Waiting.{waiting, waiting_heads};
ghost use Rattle.mp4_present.specs.words.HeadsRead.{places_of, wait_at, waiting_or};
ghost use Rattle.mp4_present.specs.words.Waits.{end_of};

use crate::movie::Movie;
use crate::opening::limit_checks::check_limits;
use crate::track_info::TrackInfo;
use mp4_boxes::{Memory, Refusal};
use mp4_frag::TrackState;
use mp4_head::{Edit, MovieHead, TrackHead};
use std::alloc::{AllocError, Global};

// The edits of a track that waits so many microseconds (8.6.6).
fn waiting(alloc: Global, wait: u64) -> Result<Vec<Edit>, AllocError>
    ensures { IfOk result (λ edits. map edit_seen edits.items ≡ waiting wait) }
{
    let mut edits = Vec::new(alloc);
    if wait == 0 {
        return Ok(edits);
    }
    edits.push(Edit {
        segment_duration: wait,
        media_time: -1,
        rate_integer: 1,
        rate_fraction: 0,
    })?;
    edits.push(Edit {
        segment_duration: 0,
        media_time: 0,
        rate_integer: 1,
        rate_fraction: 0,
    })?;
    Ok(edits)
}

// How long the track at this place waits; not at all where there are no more numbers.
fn wait_at(waits: &[u64], place: usize) -> u64
    ensures { result ≡ wait_at waits.now place }
{
    waits.get(place).copied().unwrap_or(0)
}

// Gives a track these edits.
fn put_edits(track: &mut TrackHead, edits: Vec<Edit>)
    ensures put { track_seen track.new
        ≡ record (track_seen track.old) { edits = map edit_seen edits.items } }
    ensures place { track.new.offset ≡ track.old.offset }
{
    track.edits = edits;
}

// Gives each track the edits by which it waits so many microseconds.
fn tell_tracks(alloc: Global, tracks: &mut Vec<TrackHead>, waits: &[u64]) -> Result<(), AllocError>
    ensures told { OnOk result (map track_seen tracks.new.items
        ≡ waiting_heads waits.now (map track_seen tracks.old.items)) }
    ensures places { OnOk result (places_of tracks.new.items ≡ places_of tracks.old.items) }
{
    for k in 0..tracks.len() {
        let edits = waiting(alloc, wait_at(waits, k))?;
        put_edits(&mut tracks[k], edits);
    }
    Ok(())
}

/// The head in which each track is told to wait so many microseconds, in the place of its edits.
pub(crate) fn told<'a>(
    alloc: Global,
    head: MovieHead<'a>,
    waits: &[u64],
) -> Result<MovieHead<'a>, Memory>
    ensures seen { IfOk result (λ told. head_seen told
        ≡ waiting_or (Some waits.now) (head_seen head.entry)) }
    ensures places { IfOk result (λ told. places_of told.tracks.items
        ≡ places_of head.entry.tracks.items) }
{
    let mut told = head;
    if tell_tracks(alloc, &mut told.tracks, waits).is_err() {
        return Err(Memory);
    }
    told.timescale = 1_000_000;
    Ok(told)
}

// The track behind all of its samples.
fn end_of(track: &TrackInfo) -> TrackState
    ensures { result ≡ end_of track.now }
{
    TrackState {
        id: track.id,
        descriptions: 0,
        trex: None,
        start: track.start,
        count: track.samples,
        time: u128::from(track.start) + u128::from(track.duration),
        bytes: track.bytes,
        keys: track.keys,
    }
}

// The tracks behind all of their samples.
fn ends_of(alloc: Global, tracks: &[TrackInfo]) -> Result<Vec<TrackState>, AllocError>
    ensures { IfOk result (λ ends. ends.items ≡ map end_of tracks.now) }
{
    let mut ends = Vec::with_capacity(alloc, tracks.len())?;
    for k in 0..tracks.len() {
        ends.push(end_of(&tracks[k]))?;
    }
    Ok(ends)
}

impl Movie {
    ghost use Rattle.std.specs.Prelude.{ℕ, ◌≡◌, ◌^◌, ◌<◌, List, None, Some, IfOk, IfErr};
    ghost use Rattle.std.specs.List.{AllByRecursion};
    ghost use Rattle.mp4_boxes.specs.declared.refusal.Refusal.TheVariants as refusals;
    ghost use Rattle.mp4_present.specs.format.Denotes.{FileTree, presentation_of};
    ghost use Rattle.mp4_present.specs.format.Waiting.{waiting_all};
    ghost use Rattle.mp4_present.specs.words.OpenedMovie.{IsOpenedAs};
    ghost use Rattle.mp4_present.specs.words.ToldTrees.{IsFileTold};
    ghost use Rattle.mp4_present.specs.words.Waits.{HasLimits, NamesLimit, NamesLimitOf, PassesNoLimit, RefusesWaits};

    // The length of the longest track, if all is within the limits.
    pub(crate) fn length_within(&self, alloc: Global) -> Result<u64, Refusal>
        ensures within { (file : List ℕ) (tree : FileTree) → HasLimits file self.now tree
            → IfOk result (λ n. PassesNoLimit n (presentation_of file tree)) }
        ensures fault { (file : List ℕ) (tree : FileTree) → HasLimits file self.now tree
            → IfErr result (NamesLimit file tree) }
        ensures unchanged { (file : List ℕ) (tree : FileTree) → HasLimits file self.now tree
            → IfErr result (λ r. r ≡ refusals.StoreChanged → ⊥) }
        ensures refusal { IfErr result RefusesWaits }
    {
        let head = self.head(alloc)?;
        if head.tracks.len() != self.tracks.len() {
            return Err(Refusal::StoreChanged);
        }
        let ends = ends_of(alloc, self.tracks.as_slice())?;
        let moov = self.top.view(self.moov.as_slice());
        Ok(check_limits(moov, &head, ends.as_slice())?)
    }

    /// The movie whose tracks wait so many microseconds each, in the place of their edits. What it
    /// says is within the limits, or a fault names the one that it passes.
    pub fn waiting(self, alloc: Global, waits: Vec<u64>) -> Result<Movie, Refusal>
        ensures movie { (file : List ℕ) (tree : FileTree) → IsOpenedAs file self tree
            → self.waits ≡ None → AllByRecursion (λ n. n < 2 ^ 64) waits.items
            → IfOk result (λ m. (told : FileTree) × IsOpenedAs file m told
            × IsFileTold waits.items tree told
            × (presentation_of file told ≡ waiting_all waits.items (presentation_of file tree))) }
        ensures fault { (file : List ℕ) (tree : FileTree) → IsOpenedAs file self tree
            → self.waits ≡ None → AllByRecursion (λ n. n < 2 ^ 64) waits.items
            → IfErr result (NamesLimitOf file waits.items tree) }
        ensures kept { IfOk result (λ m. m
            ≡ record self { waits = Some waits.items; mehd = m.mehd }) }
        ensures unchanged { (file : List ℕ) (tree : FileTree) → IsOpenedAs file self tree
            → self.waits ≡ None → AllByRecursion (λ n. n < 2 ^ 64) waits.items
            → IfErr result (λ r. r ≡ refusals.StoreChanged → ⊥) }
        ensures refusal { IfErr result RefusesWaits }
    {
        let told = Movie {
            waits: Some(waits),
            ..self
        };
        let mehd = told.length_within(alloc)?;
        Ok(Movie { mehd, ..told })
    }
}
