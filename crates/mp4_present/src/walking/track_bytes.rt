//! The bytes of a track's samples, copied.
ghost use Rattle.std.specs.Prelude.{◌≡◌, ◌+◌, ◌<◌, ◌≤◌, length, Some, slice_get, OnOk, OnErr};
ghost use Rattle.mp4_store.specs.words.Device.{TakesPrefix};
ghost use Rattle.mp4_present.specs.words.Carried.{PutsMany, RefusesCarry, RefusesCopy};
ghost use Rattle.mp4_present.specs.words.HandCarried.{HandWork, KeepsHand, RefusedByBoth, StaysBefore, TakesHand};
ghost use Rattle.mp4_present.specs.words.Joined.{sample_bytes};
ghost use Rattle.mp4_present.specs.words.Movies.{IsWalkOf};
ghost use Rattle.mp4_present.specs.words.OutBuffers.{OnlyCopies};
ghost use Rattle.mp4_present.specs.words.StoresRead.{IsUnchanged, OnlyReads};
ghost use Rattle.mp4_present.specs.words.TrackWalks.{WhereTrack};
ghost use Rattle.mp4_present.specs.words.SamplesComing.{track_samples};
ghost use Rattle.mp4_present.specs.words.WalkSteps.{walk_steps};
ghost use Rattle.mp4_present.specs.declared.track_info.TrackInfo.{TrackInfo};

use crate::movie::Movie;
use crate::out_buffer::OutBuffer;
use crate::walking::Walk;
use crate::walking::stretches::{Stretch, next_stretch};
use mp4_boxes::{Refusal, Steps};
use mp4_store::{Sink, Store};
use std::alloc::Global;
use std::sync::ledger::Ledger;

/// How many bytes are put at once: a power of two, so that each put fills whole pages, which a file
/// system keeps together.
const PIECE: usize = 65_536;

// Takes the bytes of all samples in hand along, and says how many are left of so many. Where these
// samples have more bytes, the store has changed. The walk then stands behind them.
fn carry_hand<S: Store, K: Sink, L: Ledger, M: Ledger>(
    movie: &Movie,
    walk: &mut Walk,
    bytes: u64,
    carrier: &mut OutBuffer,
    store: &mut S,
    sink: &mut K,
    steps: &mut Steps<L, M>,
) -> Result<u64, Refusal>
    requires { IsWalkOf movie.now walk.old }
    ensures walk { OnOk result (StaysBefore movie.now walk.old walk.new) }
    ensures taken { TakesHand S.Store store.old movie.now walk.old K.Sink sink.old sink.new
        carrier.old carrier.new bytes result }
    ensures store { OnlyCopies S.Store store.old store.new K.Sink sink.old sink.new result }
    ensures unchanged { KeepsHand S.Store store.old movie.now walk.old bytes result }
    ensures grows { steps.old.passed ≤ steps.new.passed }
    ensures work { HandWork movie.now walk.old walk.new result steps.old.passed steps.new.passed }
    ensures refusal { RefusedByBoth S.Store store.old store.new K.Sink sink.old sink.new result
        RefusesCarry }
    ensures looks { steps.new.looks ≡ steps.old.looks }
{
    let mut left = bytes;
    let place = {
        let mut hand = walk.in_hand(movie);
        while let Some(stretch) = next_stretch(&mut hand, u32::MAX) {
            if stretch.len > left {
                return Err(Refusal::StoreChanged);
            }
            carrier.carry_stretch(stretch, store, sink)?;
            left -= stretch.len;
        }
        hand.place()
    };
    walk.keep(place, steps);
    Ok(left)
}

impl Movie {
    /// Puts the bytes of all samples of the track at this place among the tracks, one after the
    /// other. All memory is taken before the first byte is put. Where the samples aren't as many
    /// any more as when the movie was opened, or have fewer or more bytes, the answer is
    /// StoreChanged.
    pub fn copy_track<S: Store, K: Sink, L: Ledger, M: Ledger>(
        &self,
        alloc: Global,
        track: usize,
        store: &mut S,
        sink: &mut K,
        steps: &mut Steps<L, M>,
    ) -> Result<(), Refusal>
        requires { track < length self.now.tracks }
        ensures store { OnlyReads S.Store store.old store.new result }
        ensures puts { OnOk result (K.put_failures sink.new ≡ K.put_failures sink.old) }
        ensures bytes { OnOk result (WhereTrack S.Store store.old self.now track (λ file tree t.
            K.takes sink.old sink.new (sample_bytes file (track_samples tree t)))) }
        ensures prefix { OnErr result (WhereTrack S.Store store.old self.now track (λ file tree t.
            TakesPrefix (K.takes sink.old sink.new)
            (sample_bytes file (track_samples tree t)))) }
        ensures whole { OnOk result ((info : TrackInfo)
            → slice_get self.now.tracks track ≡ Some info
            → PutsMany (K.takes sink.old sink.new) info.bytes) }
        ensures unchanged { WhereTrack S.Store store.old self.now track
            (λ file tree t. IsUnchanged result) }
        ensures steps { (steps.old.passed ≤ steps.new.passed)
            × (steps.new.looks ≡ steps.old.looks) }
        ensures work { WhereTrack S.Store store.old self.now track
            (λ file tree t. steps.new.passed ≤ steps.old.passed + walk_steps tree t) }
        ensures refusal { RefusedByBoth S.Store store.old store.new K.Sink sink.old sink.new result
            (RefusesCopy (K.takes sink.old sink.new)) }
    {
        let mut walk = self.walk(alloc, track)?;
        let mut carrier = OutBuffer::new(alloc, PIECE)?;
        let info = self.tracks()[track];
        let bytes = info.bytes;
        let mut left = carry_hand(self, &mut walk, bytes, &mut carrier, store, sink, steps)?;
        while walk.load(self, store, steps)? {
            left = carry_hand(self, &mut walk, left, &mut carrier, store, sink, steps)?;
        }
        if left > 0 {
            return Err(Refusal::StoreChanged);
        }
        carrier.flush(sink)
    }
}
