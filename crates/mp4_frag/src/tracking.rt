//! What the check of a `moof` asks of its caller: the track with an ID, a note of each `traf`, and
//! to be told of one that is refused.
ghost use Rattle.std.specs.Prelude.{ℕ, List, Option, ◌≡◌, ◌<◌, length, None, IfSome, ⊤};
ghost use Rattle.mp4_boxes.specs.format.Box.{Box};
ghost use Rattle.mp4_boxes.specs.words.View.{box_seen};
ghost use Rattle.mp4_frag.specs.words.CheckWork.{FindLooks};
ghost use Rattle.mp4_frag.specs.words.Finding.{IsFirstWith, track_with};
ghost use Rattle.mp4_frag.specs.words.Noted.{ids_of, noted_at};
ghost use Rattle.mp4_frag.specs.words.OwnTrafs.{OwnSeen};
ghost use Rattle.mp4_frag.specs.words.Tracking.{WhereNoted};
ghost use Rattle.mp4_frag.specs.declared.state.TrackState.{TrackState};

use crate::next_traf::OwnTraf;
use crate::state::TrackState;
use mp4_boxes::{BoxView, Fault, Steps};
use std::sync::ledger::Ledger;

/// Where a `traf` stands: in a `moof` at this place of a file of so many bytes, where the data of
/// the `traf` before ends there.
#[derive(Clone, Copy)]
pub struct Standing {
    pub file_len: u64,
    pub moof: u64,
    pub before: i128,
}

/// Who finds the track of each `traf` while a `moof` is checked, notes each `traf` that has
/// samples, and is told of one that is refused. So the check itself takes no memory: a caller that
/// keeps a map or lists of notes gives them here. Where it has no memory for a note, it remembers
/// that, and what is noted is told no more.
pub trait Tracking {
    /// It finds the tracks of these IDs, in this order.
    ghost knows: { Self → List ℕ → Type 0 };

    /// How many looks it takes at most to find one of so many tracks.
    ghost most: { ℕ → ℕ };

    /// What is noted of each track, where that is told.
    ghost noted: { Self → Option (List OwnSeen) };

    /// It was told of no `traf` that was refused.
    ghost is_silent: { Self → Type 0 };

    /// What it says goes with this `traf` behind tracks that stand so, in a file of so many bytes,
    /// and a fault at this place.
    ghost tells: { Self → Box → List TrackState → ℕ → ℕ → Type 0 };

    /// The place of the first track with this ID, at one look at least.
    fn find<L: Ledger, M: Ledger>(
        &self,
        tracks: &[TrackState],
        id: u32,
        steps: &mut Steps<L, M>,
    ) -> Option<usize>
        requires { knows self.now (ids_of tracks.now) }
        ensures inside { IfSome result (λ k. k < length tracks.now) }
        ensures there { IfSome result (IsFirstWith tracks.now id) }
        ensures none { result ≡ None → track_with id tracks.now ≡ None }
        ensures looks { FindLooks (most (length tracks.now))
            steps.old.looks steps.new.looks result }
        ensures passed { steps.new.passed ≡ steps.old.passed };

    /// The `traf` has samples of the track at this place.
    fn note(&mut self, track: usize, traf: OwnTraf)
        ensures knows { (ids : List ℕ) → knows self.old ids → knows self.new ids }
        ensures silent { is_silent self.old → is_silent self.new }
        ensures noted { WhereNoted (noted self.old) (noted self.new)
            (λ owns now. now ≡ noted_at track traf owns) };

    /// The `traf` that stands there is refused for this fault, behind tracks that stand so.
    fn refuse(&mut self, traf: BoxView, at: Standing, tracks: &[TrackState], fault: &Fault)
        ensures knows { (ids : List ℕ) → knows self.old ids → knows self.new ids }
        ensures tells { tells self.new (box_seen traf.entry) tracks.now at.file_len
            fault.now.offset };
}

// The tracks are searched one after the other, and nothing is noted.
#[derive(Drop)]
pub(crate) struct OneByOne;

impl Tracking for OneByOne {
    ghost knows = { λ _ _. ⊤ };

    ghost most = { λ tracks. tracks };

    ghost noted = { λ _. None };

    ghost is_silent = { λ _. ⊤ };

    ghost tells = { λ _ _ _ _ _. ⊤ };

    fn find<L: Ledger, M: Ledger>(
        &self,
        tracks: &[TrackState],
        id: u32,
        steps: &mut Steps<L, M>,
    ) -> Option<usize> {
        for k in 0..tracks.len() {
            steps.look();
            if tracks[k].id == id {
                return Some(k);
            }
        }
        None
    }

    fn note(&mut self, _track: usize, _traf: OwnTraf) {}

    fn refuse(&mut self, _traf: BoxView, _at: Standing, _tracks: &[TrackState], _fault: &Fault) {}
}
