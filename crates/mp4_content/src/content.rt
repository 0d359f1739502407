//! What remains of an opened movie, as one value.
ghost use Rattle.std.specs.Prelude.{◌≡◌, false};
ghost use Rattle.mp4_content.specs.words.Scales.{AreOnes};

use crate::measures::{Measures, measure};
use crate::own_payloads::{MediaLeft, payloads_left};
use crate::reduced::Reduction;
use crate::reduced_head::head_left;
use crate::reduced_lengths::length_left;
use crate::scales::Scales;
use crate::tracks_left::{TrackLeft, tracks_left};
use crate::without::Without;
use mp4_boxes::{Memory, Refusal, Steps};
use mp4_head::MovieHead;
use mp4_present::Movie;
use mp4_store::Store;
use std::alloc::Global;
use std::sync::ledger::Ledger;

/// What remains of an opened movie: what is left out, by what times are divided, what each track's
/// samples are left by, what remains of the tracks in numbers, and how long the longest is. Where
/// timescales count, times are divided by 1.
#[derive(Drop)]
pub struct Content {
    leaving: Without,
    scales: Scales,
    of_tracks: Vec<Reduction>,
    tracks: Vec<TrackLeft>,
    length: u64,
    pub ghost ones: { leaving.timescales ≡ false → AreOnes scales },
}

impl Content {
    ghost use Rattle.std.specs.Prelude.{◌≡◌, ◌+◌, ◌<◌, ◌≤◌, length, slice_get, Some, true, IfOk, IfErr, OnOk};
    ghost use Rattle.mp4_head.specs.words.Seen.{movie_seen, tracks_seen};
    ghost use Rattle.mp4_present.specs.words.StoresRead.{IsUnchanged, OnlyReads, Refused};
    ghost use Rattle.mp4_content.specs.format.Reduced.{number_heads};
    ghost use Rattle.mp4_content.specs.format.Remaining.{remaining_movie};
    ghost use Rattle.mp4_content.specs.words.Contents.{IsContentOf, IsContentOver, RefusesLeft};
    ghost use Rattle.mp4_content.specs.words.Divided.{remaining_heads};
    ghost use Rattle.mp4_content.specs.words.LeftTimes.{NamesLong};
    ghost use Rattle.mp4_content.specs.words.Measuring.{measuring_steps};
    ghost use Rattle.mp4_content.specs.words.Opened.{OverOpened};
    ghost use Rattle.mp4_content.specs.words.PayloadsLeft.{AreMediaLeft, leaves_payloads};

    /// What remains of a movie. A track that is too long then, or has an offset that doesn't fit,
    /// is a fault.
    pub fn of<S: Store, L: Ledger, M: Ledger>(
        alloc: Global,
        movie: &Movie,
        store: &mut S,
        leaving: Without,
        steps: &mut Steps<L, M>,
    ) -> Result<Content, Refusal>
        ensures store { OnlyReads S.Store store.old store.new result }
        ensures content { IfOk result (IsContentOf movie.now) }
        ensures leaving { IfOk result (λ content. content.leaving ≡ leaving) }
        ensures left { OverOpened S.Store store.old movie.now
            (λ file tree. IfOk result (IsContentOver file tree)) }
        ensures fault { OverOpened S.Store store.old movie.now
            (λ file tree. IfErr result (NamesLong leaving file tree)) }
        ensures unchanged { OverOpened S.Store store.old movie.now
            (λ file tree. IsUnchanged result) }
        ensures refusal { Refused S.Store store.old store.new result (RefusesLeft leaving) }
        ensures grows { OnOk result (steps.old.passed ≤ steps.new.passed) }
        ensures work { OverOpened S.Store store.old movie.now
            (λ file tree. steps.new.passed ≤ steps.old.passed + measuring_steps leaving tree) }
        ensures looks { steps.new.looks ≡ steps.old.looks }
    {
        let scales = Scales::of(alloc, movie, store, leaving, steps)?;
        let Measures { of_tracks, totals } = measure(alloc, movie, store, leaving, &scales, steps)?;
        let length = length_left(alloc, movie, leaving, &scales, totals.as_slice())?;
        let tracks = tracks_left(alloc, leaving, &scales, movie.tracks())?;
        Ok(Content {
            leaving,
            scales,
            of_tracks,
            tracks,
            length,
        })
    }

    /// The tracks in numbers, in the order of the `moov`.
    pub fn tracks(&self) -> &[TrackLeft]
        ensures { result.now ≡ self.now.tracks.items }
    {
        self.tracks.as_slice()
    }

    /// What the samples of a track are left by.
    pub fn reduction(&self, track: usize) -> Reduction
        requires { track < length self.now.of_tracks.items }
        ensures { slice_get self.now.of_tracks.items track ≡ Some result }
    {
        self.of_tracks[track]
    }

    /// The length of the longest track in the timescale of what remains, 0 without tracks.
    pub fn length(&self) -> u64
        ensures { result ≡ self.now.length }
    {
        self.length
    }

    /// What is left of the payloads of a head, in memory of its own, for `head`.
    pub fn payloads(&self, alloc: Global, head: &MovieHead) -> Result<Vec<MediaLeft>, Memory>
        ensures { IfOk result (λ own. leaves_payloads self.now.leaving ≡ true
            → AreMediaLeft self.now.leaving head.now.tracks.items own.items) }
    {
        payloads_left(alloc, self.leaving, head.tracks.as_slice())
    }

    /// What remains of the head of the movie, of which these are its own payloads.
    pub fn head<'a>(
        &self,
        alloc: Global,
        head: MovieHead<'a>,
        own: &'a Vec<MediaLeft>,
    ) -> Result<MovieHead<'a>, Memory>
        requires { leaves_payloads self.now.leaving ≡ true
            → AreMediaLeft self.now.leaving head.tracks.items own.now.items }
        ensures movie { IfOk result (λ left. movie_seen left
            ≡ remaining_movie self.now.leaving self.now.scales.movie (movie_seen head.entry)) }
        ensures tracks { IfOk result (λ left. tracks_seen left ≡ number_heads self.now.leaving 1
            (remaining_heads self.now.leaving self.now.scales.movie
            self.now.scales.tracks.items (tracks_seen head.entry))) }
    {
        head_left(alloc, head, self.leaving, &self.scales, own)
    }
}
