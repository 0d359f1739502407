//! A walk over the samples of a `traf`, one by one.
use crate::counts::{Counts, leave_run};
use crate::opened_runs::settle;
use crate::places::TrafPlace;
use crate::traf_samples::{Beginning, begin_traf, pass_non_sync, pass_sample, sample_here};
use crate::trex::Trex;
use mp4_tables::{Keys, SampleAt, Samples};
use std::marker::Model;

/// The samples of a `traf` from a place on. No step takes memory.
#[derive(Drop)]
pub struct TrafCursor<'a> {
    payload: &'a [u8],
    place: TrafPlace,
}

impl<'a> Model for TrafCursor<'a> {
    ghost use Rattle.mp4_frag.specs.words.FragmentsSeen.{CursorSeen};
    ghost use Rattle.mp4_frag.specs.words.PlacesIn.{IsPlaceIn};

    ghost Value = { CursorSeen };

    ghost view = { λ c. record { payload = c.payload.now; place = c.place } };

    ghost invariant = { λ c. IsPlaceIn c.payload.now c.place };
}

impl<'a> TrafCursor<'a> {
    ghost use Rattle.std.specs.Prelude.{ℕ, List, ◌≡◌, ◌+◌, ◌-◌, ◌^◌, ◌<◌, ◌≤◌, length, min, Some, None, Contains, IfSome};
    ghost use Rattle.mp4_boxes.specs.format.Box.{Box};
    ghost use Rattle.mp4_tables.specs.words.Accepted.{AreDistinct};
    ghost use Rattle.mp4_tables.specs.words.Timed.{timed};
    ghost use Rattle.mp4_frag.specs.format.Fragments.{FragmentTree};
    ghost use Rattle.mp4_frag.specs.format.FragmentSamples.{duration_of, part_samples, trex_for};
    ghost use Rattle.mp4_frag.specs.words.Judged.{AreTrexesOf, IsSoundMoof};
    ghost use Rattle.mp4_frag.specs.declared.state.TrackState.{TrackState};
    ghost use Rattle.mp4_frag.specs.declared.trex.Trex.{Trex};
    ghost use Rattle.mp4_frag.specs.words.OwnTrafs.{PlacedTraf, own_in, traf_steps};
    ghost use Rattle.mp4_frag.specs.words.PlacesIn.{IsPlaceIn, traf_work};
    ghost use Rattle.mp4_frag.specs.words.Times.{lasting};
    ghost use Rattle.mp4_frag.specs.words.Walks.{samples_coming, samples_in};
    ghost use Rattle.mp4_tables.specs.words.Keys.{keys_seen};

    /// The walk from the first sample of a `traf` on, at this decode time: over the samples of the
    /// definition, where the `traf` is one of a sound `moof`. It has this payload, is of the track
    /// with this ID, and its runs are counted from this base. One that does not name the track has
    /// no samples.
    pub fn start(
        payload: &'a [u8],
        base: i128,
        id: u32,
        trex: Trex,
        number: u32,
        dts: u64,
        keys: Keys,
    ) -> TrafCursor<'a>
        ensures payload { result.payload ≡ payload.now }
        ensures time { result.place.dts ≡ dts }
        ensures samples { samples_coming result
            ≡ samples_in payload.now base id trex number dts (keys_seen keys) }
        ensures definition { (file_length : ℕ) (trexes : List Trex) (tracks : List TrackState)
            (t : FragmentTree) (p : PlacedTraf) → Contains (own_in trexes id t) p
            → p.traf.payload ≡ payload.now → p.base ≡ base
            → IsSoundMoof file_length trexes tracks t → AreTrexesOf trexes tracks
            → trex_for trexes id ≡ Some trex → AreDistinct (keys_seen keys)
            → number + length (part_samples p.part) < 2 ^ 32
            → dts + duration_of (part_samples p.part) < 2 ^ 64
            → samples_coming result ≡ timed (keys_seen keys) number dts (part_samples p.part) }
    {
        let from = Beginning { base, number, dts };
        let place = begin_traf(payload, from, id, trex, keys);
        TrafCursor::at(payload, place)
    }

    /// The walk from a place on.
    pub fn at(payload: &'a [u8], place: TrafPlace) -> TrafCursor<'a>
        requires { IsPlaceIn payload.now place }
        ensures { result ≡ record { payload = payload.now; place = place } }
    {
        TrafCursor { payload, place }
    }

    /// Where the walk stands.
    pub fn place(&self) -> TrafPlace
        ensures is { result ≡ self.now.place }
        ensures place { IsPlaceIn self.now.payload result }
        ensures work { result.passed ≤ traf_work self.now.payload }
        ensures said { (traf : Box) → self.now.payload ≡ traf.payload
            → result.passed ≤ traf_steps traf }
    {
        self.place
    }

    /// How many samples are to come, how long they last, and the steps behind the last of them;
    /// none where they are more than so many. Each run is passed at once, so it costs less than to
    /// take the samples one by one.
    pub fn counts(&self, most: u32) -> Option<Counts>
        ensures samples { IfSome result (λ c. c.samples ≡ length (samples_coming self.now)) }
        ensures few { IfSome result (λ c. c.samples ≤ most) }
        ensures duration { IfSome result
            (λ c. c.duration ≡ min (lasting (samples_coming self.now)) (2 ^ 64 - 1)) }
        ensures many { result ≡ None → most < length (samples_coming self.now) }
        ensures said { (traf : Box) → self.now.payload ≡ traf.payload
            → IfSome result (λ c. c.passed ≤ traf_steps traf) }
    {
        let mut place = self.place;
        let mut samples = 0;
        let mut duration: u64 = 0;
        while place.run.left > 0 {
            if place.run.left > most - samples {
                return None;
            }
            samples += place.run.left;
            duration = duration.saturating_add(leave_run(self.payload, &mut place));
            settle(self.payload, &mut place);
        }
        Some(Counts {
            samples,
            duration,
            passed: place.passed,
        })
    }
}

impl<'a> Samples for TrafCursor<'a> {
    ghost use Rattle.std.specs.Prelude.{◌≡◌, ◌≤◌};
    ghost use Rattle.std.proofs.Common.{refl, ◌∙◌};
    ghost use Rattle.std.proofs.Math.Nat.{le_refl, le_trans};
    ghost use Rattle.mp4_frag.specs.words.Times.{TimeGoesOn};
    ghost use Rattle.mp4_frag.specs.words.Walks.{samples_coming};

    ghost rest = { samples_coming };

    ghost follows = { λ s t. (t.payload ≡ s.payload) × (s.place.passed ≤ t.place.passed)
        × TimeGoesOn s t };

    #[inline(always)]
    fn peek(&self) -> Option<SampleAt> {
        if self.place.run.left > 0 {
            Some(sample_here(self.payload, &self.place))
        } else {
            None
        }
    }

    #[inline(always)]
    fn next(&mut self) -> Option<SampleAt> {
        if self.place.run.left > 0 {
            let sample = sample_here(self.payload, &self.place);
            pass_sample(self.payload, &mut self.place, &sample);
            Some(sample)
        } else {
            None
        }
    }

    #[inline(always)]
    fn pass(&mut self, sample: &SampleAt) {
        pass_sample(self.payload, &mut self.place, sample);
    }

    fn pass_non_sync(&mut self, description: u32, most: u32) -> u32 {
        pass_non_sync(self.payload, &mut self.place, description, most)
    }

    ghost follows_itself = { λ s. (refl, le_refl _, refl) };

    ghost follows_on = { λ s t u p q. (
      q.0 ∙ p.0,
      le_trans p.1 q.1,
      q.2 ∙ p.2,
    ) };
}
