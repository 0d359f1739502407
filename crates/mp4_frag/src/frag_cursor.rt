//! A walk over the samples of a track in a `moof`, one by one.
use crate::moof_samples::{first_place, pass_in_moof, pass_non_sync_in_moof, settle};
use crate::places::FragPlace;
use crate::state::TrackState;
use crate::traf_samples::sample_here;
use crate::view::FragView;
use mp4_tables::{Keys, SampleAt, Samples};
use std::marker::Model;

/// The samples of a track in a `moof` from a place on, one `traf` of it after the other. No step
/// takes memory.
#[derive(Drop)]
pub struct FragCursor<'a> {
    payload: &'a [u8],
    moof: u64,
    tracks: &'a [TrackState],
    place: FragPlace,
}

impl<'a> Model for FragCursor<'a> {
    ghost use Rattle.mp4_frag.specs.words.FragmentsSeen.{FragCursorSeen};
    ghost use Rattle.mp4_frag.specs.words.MoofWalks.{IsInMoof};

    ghost Value = { FragCursorSeen };

    ghost view = { λ c. record {
      payload = c.payload.now;
      moof = c.moof;
      tracks = c.tracks.now;
      place = c.place;
    } };

    ghost invariant = { λ c. IsInMoof c.payload.now c.place };
}

impl<'a> FragCursor<'a> {
    ghost use Rattle.std.specs.Prelude.{ℕ, List, ◌≡◌, ◌+◌, ◌^◌, ◌<◌, pos};
    ghost use Rattle.mp4_tables.specs.words.Accepted.{AreDistinct};
    ghost use Rattle.mp4_tables.specs.words.Keys.{keys_seen};
    ghost use Rattle.mp4_tables.specs.words.Timed.{timed};
    ghost use Rattle.mp4_frag.specs.format.FragmentSamples.{duration_of};
    ghost use Rattle.mp4_frag.specs.words.FragmentsSeen.{moof_seen};
    ghost use Rattle.mp4_frag.specs.words.Judged.{AreTrexesOf, IsMoofMovedOn, IsSoundMoof, samples_of_track, tree_of};
    ghost use Rattle.mp4_frag.specs.words.MoofWalks.{IsInMoof, InheritAlike, frag_samples, trafs_coming, walk_with};
    ghost use Rattle.mp4_frag.specs.words.Walks.{boxes_in};
    ghost use Rattle.mp4_frag.specs.declared.state.TrackState.{TrackState};
    ghost use Rattle.mp4_frag.specs.declared.trex.Trex.{Trex};

    /// The walk from the first sample of the track with this ID on, at this decode time: over the
    /// samples of the definition, where the `moof` was accepted with tracks that have the same IDs
    /// and inherit the same. They are numbered from 0.
    pub fn start(
        view: &FragView<'a>,
        tracks: &'a [TrackState],
        track: u32,
        dts: u64,
        keys: Keys,
    ) -> FragCursor<'a>
        ensures payload { result.payload ≡ (moof_seen view.now).payload }
        ensures moof { result.moof ≡ (moof_seen view.now).offset }
        ensures tracks { result.tracks ≡ tracks.now }
        ensures samples { frag_samples result
            ≡ trafs_coming (walk_with (moof_seen view.now).offset tracks.now track keys)
            (record { number = 0; dts = dts; before = pos (moof_seen view.now).offset })
            (boxes_in 0 (moof_seen view.now).payload) }
        ensures definition { (file_length room less : ℕ) (trexes : List Trex)
            (states after : List TrackState)
            → IsSoundMoof file_length trexes states (tree_of (moof_seen view.now))
            → IsMoofMovedOn (moof_seen view.now) states after room less → room < 2 ^ 32
            → AreTrexesOf trexes states → InheritAlike states tracks.now
            → AreDistinct (keys_seen keys)
            → dts + duration_of (samples_of_track trexes track (tree_of (moof_seen view.now)))
            < 2 ^ 64
            → frag_samples result ≡ timed (keys_seen keys) 0 dts
            (samples_of_track trexes track (tree_of (moof_seen view.now))) }
    {
        let moof = view.moof();
        let mut place = first_place(moof.offset(), track, dts, keys);
        settle(moof.payload(), moof.offset(), tracks, &mut place);
        FragCursor::at(view, tracks, place)
    }

    /// The walk from a place on.
    pub fn at(view: &FragView<'a>, tracks: &'a [TrackState], place: FragPlace) -> FragCursor<'a>
        requires { IsInMoof (moof_seen view.now).payload place }
        ensures { result ≡ record {
          payload = (moof_seen view.now).payload;
          moof = (moof_seen view.now).offset;
          tracks = tracks.now;
          place = place;
        } }
    {
        let moof = view.moof();
        FragCursor {
            payload: moof.payload(),
            moof: moof.offset(),
            tracks,
            place,
        }
    }

    /// Where the walk stands.
    pub fn place(&self) -> FragPlace
        ensures is { result ≡ self.now.place }
        ensures place { IsInMoof self.now.payload result }
    {
        self.place
    }
}

impl<'a> Samples for FragCursor<'a> {
    ghost use Rattle.std.specs.Prelude.{◌≡◌};
    ghost use Rattle.std.proofs.Common.{refl, ◌∙◌};
    ghost use Rattle.mp4_frag.specs.words.MoofWalks.{frag_samples};

    ghost rest = { frag_samples };

    ghost follows = { λ s t. (t.payload ≡ s.payload) × (t.moof ≡ s.moof) × (t.tracks ≡ s.tracks)
        × (t.place.id ≡ s.place.id) × (t.place.keys ≡ s.place.keys) };

    fn peek(&self) -> Option<SampleAt> {
        if self.place.traf.run.left > 0 {
            let traf = &self.payload[self.place.begins..self.place.ends];
            Some(sample_here(traf, &self.place.traf))
        } else {
            None
        }
    }

    fn next(&mut self) -> Option<SampleAt> {
        let sample = self.peek()?;
        self.pass(&sample);
        Some(sample)
    }

    fn pass(&mut self, sample: &SampleAt) {
        pass_in_moof(
            self.payload,
            self.moof,
            self.tracks,
            &mut self.place,
            sample,
        );
    }

    fn pass_non_sync(&mut self, description: u32, most: u32) -> u32 {
        pass_non_sync_in_moof(
            self.payload,
            self.moof,
            self.tracks,
            &mut self.place,
            description,
            most,
        )
    }

    ghost follows_itself = { λ s. (refl, refl, refl, refl, refl) };

    ghost follows_on = { λ s t u p q. (
      q.0 ∙ p.0,
      q.1 ∙ p.1,
      q.2 ∙ p.2,
      q.3 ∙ p.3,
      q.4 ∙ p.4,
    ) };
}
