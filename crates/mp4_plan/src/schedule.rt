//! Which piece of a presentation comes next: in order of fragment, then track, then sample.
ghost use Rattle.std.specs.Prelude.{◌≡◌, ◌<◌, false, true, None};
ghost use Rattle.mp4_plan.specs.words.DueTracks.{cut_at};

use crate::due_tracks::{DueTracks, NEVER, due_at};
use crate::ends::{End, has_ended};
use mp4_boxes::{Refusal, Steps};
use mp4_content::TrackLeft;
use mp4_tables::SampleAt;
use std::sync::ledger::Ledger;

/// What is to come: a piece of a track, which has this ID, with an end.
#[derive(Clone, Copy, Debug, PartialEq, Eq)]
pub(crate) struct Turn {
    pub(crate) track: usize,
    pub(crate) id: u32,
    pub(crate) end: End,
}

/// A place in the order of pieces.
#[derive(Clone, Copy, Debug, PartialEq, Eq)]
pub(crate) struct Schedule {
    /// How many tracks there are, and the timescale of the first.
    pub(crate) tracks: usize,
    pub(crate) first: u32,
    /// The track whose turn it is; `tracks` at the end.
    pub(crate) track: usize,
    /// When the fragment began and when the next one begins, in the first track's timescale.
    pub(crate) from: u64,
    pub(crate) next: Option<u64>,
    /// How many samples were not scheduled yet.
    pub(crate) left: u128,
}

// Whether a turn without samples leads nowhere.
fn is_stuck(count: u32, is_passed: bool) -> bool
    ensures goes { result ≡ false → is_passed ≡ false → 0 < count }
    ensures stuck { result ≡ true → (count ≡ 0) × (is_passed ≡ false) }
{
    count == 0 && !is_passed
}

// Whether a turn may have taken no samples: only one of the first track, at its end.
fn may_pass(is_first: bool, sample: &Option<SampleAt>) -> bool
    ensures end { result ≡ true → (is_first ≡ true) × (sample.now ≡ None) }
    ensures may { is_first ≡ true → sample.now ≡ None → result ≡ true }
{
    is_first && sample.is_none()
}

// When a fragment ends: later than each sample where none follows.
fn cut_at(next: Option<u64>) -> u128
    ensures { result ≡ cut_at next }
{
    match next {
        Some(cut) => u128::from(cut),
        None => NEVER,
    }
}

impl Schedule {
    ghost use Rattle.std.specs.Prelude.{◌≡◌, ◌+◌, ◌-◌, ◌*◌, ◌^◌, ◌<◌, ◌≤◌, ◌⊎◌, List, length, option_map, Option, slice_get, slice_set, Some, None, IfSome, MatchOption, IfErr, OnOk};
    ghost use Rattle.std.specs.List.{sum_by};
    ghost use Rattle.mp4_content.specs.declared.tracks_left.TrackLeft.{TrackLeft};
    ghost use Rattle.mp4_plan.specs.words.Turns.{turns_left, track_passed, first_scale, turn_end, turned, IsSomeLeft, Sticks};
    ghost use Rattle.mp4_plan.specs.words.DueTracks.{AreTimes, FindsMore, IsDueAt, IsDueHere, IsDueTree, Skips};
    ghost use Rattle.mp4_boxes.specs.declared.refusal.Refusal.TheVariants as refusals;
    ghost use Rattle.mp4_tables.specs.declared.sample.SampleAt.{SampleAt};

    /// The pieces of what is left of these tracks, of which the first begins at this time.
    pub(crate) fn new(tracks: &[TrackLeft], from: u64) -> Schedule
        ensures tracks { result.tracks ≡ length tracks.now }
        ensures first { result.first ≡ first_scale tracks.now }
        ensures left { result.left ≡ sum_by (λ (i : TrackLeft). i.samples) tracks.now }
        ensures few { result.left ≤ 2 ^ 64 * 4294967295 }
        ensures starts { (result.track ≡ 0) × (result.from ≡ from) × (result.next ≡ None) }
    {
        let mut left: u128 = 0;
        for track in tracks {
            left += u128::from(track.samples);
        }
        let first = match tracks.first() {
            Some(track) => track.timescale,
            None => 0,
        };
        Schedule {
            tracks: tracks.len(),
            first,
            track: 0,
            from,
            next: None,
            left,
        }
    }

    /// Whose turn it is. Each turn is a look, which is counted.
    pub(crate) fn turn<L: Ledger, M: Ledger>(
        &self,
        tracks: &[TrackLeft],
        steps: &mut Steps<L, M>,
    ) -> Option<Turn>
        requires { self.now.tracks ≡ length tracks.now }
        ensures track { IfSome result (λ t. (t.track ≡ self.now.track)
            × (self.now.track < self.now.tracks)) }
        ensures own { IfSome result (λ t. (track : TrackLeft)
            → slice_get tracks.now self.now.track ≡ Some track
            → (t.end ≡ turn_end self.now track.timescale) × (t.id ≡ track.id)) }
        ensures none { result ≡ None → self.now.tracks ≤ self.now.track }
        ensures looks { MatchOption result (steps.new.looks ≡ steps.old.looks)
            (λ t. steps.new.looks ≡ steps.old.looks + 1) }
        ensures passed { steps.new.passed ≡ steps.old.passed }
    {
        if self.track >= self.tracks {
            return None;
        }
        steps.look();
        let TrackLeft { id, timescale, .. } = tracks[self.track];
        let end = if self.track == 0 {
            End::Sync {
                from: self.from,
                scale: timescale,
            }
        } else {
            End::Before {
                cut: self.next,
                first: self.first,
                scale: timescale,
            }
        };
        Some(Turn {
            track: self.track,
            id,
            end,
        })
    }

    // The track has no more pieces in this fragment; its next sample is this one.
    fn pass_track(&mut self, sample: Option<SampleAt>)
        requires { self.old.track < self.old.tracks }
        ensures { self.new ≡ track_passed self.old (option_map (λ (s : SampleAt). s.dts) sample) }
    {
        if self.track == 0 {
            self.next = match &sample {
                Some(next) => Some(next.dts),
                None => None,
            };
        }
        self.track += 1;
        if self.track == self.tracks {
            if let Some(cut) = self.next {
                self.from = cut;
                self.next = None;
                self.track = 0;
            }
        }
    }

    // The piece of this turn took so many samples and ended before this one, or with the track.
    fn take(&mut self, turn: &Turn, count: u32, sample: Option<SampleAt>) -> Result<(), Refusal>
        requires { self.old.track < self.old.tracks }
        ensures turned { OnOk result (self.new ≡ turned self.old turn.now.end count sample) }
        ensures enough { OnOk result (count ≤ self.old.left) }
        ensures less { OnOk result (turns_left self.new < turns_left self.old) }
        ensures refusal { IfErr result (λ r. (r ≡ refusals.StoreChanged)
            × Sticks self.old count sample) }
    {
        let is_over = match &sample {
            Some(next) => has_ended(&turn.end, next),
            None => true,
        };
        let is_passed = may_pass(self.track == 0, &sample);
        if u128::from(count) > self.left || is_stuck(count, is_passed) {
            return Err(Refusal::StoreChanged);
        }
        self.left -= u128::from(count);
        if is_over {
            self.pass_track(sample);
        }
        Ok(())
    }

    // Passes the tracks that have no sample before the next cut, up to the first track where
    // another fragment begins.
    fn skip(&mut self, due: &DueTracks)
        requires tree { IsDueTree due.now }
        requires tracks { due.now.leaves ≡ self.old.tracks }
        ensures skips { Skips due.now self.old self.new }
        ensures here { IsDueHere self.new due.now }
    {
        if self.track == 0 || self.track >= self.tracks {
            return;
        }
        if let Some(track) = due.first_before(self.track, cut_at(self.next)) {
            self.track = track;
            return;
        }
        self.track = self.tracks;
        if let Some(cut) = self.next {
            self.from = cut;
            self.next = None;
            self.track = 0;
        }
    }

    // Whether a track behind the first is due, and no sample is left.
    fn finds_more(&self) -> bool
        ensures more { result ≡ true → (0 < self.now.track) × (self.now.track < self.now.tracks)
            × (self.now.left ≡ 0) }
        ensures some { result ≡ false → IsSomeLeft self.now }
    {
        self.track > 0 && self.track < self.tracks && self.left == 0
    }

    /// Before the first turn, of tracks of which these samples are the next.
    pub(crate) fn begin(
        &self,
        tracks: &[TrackLeft],
        nexts: &[Option<SampleAt>],
        due: &mut DueTracks,
    )
        requires tree { IsDueTree due.old }
        requires tracks { due.old.leaves ≡ self.now.tracks }
        requires infos { self.now.tracks ≡ length tracks.now }
        requires nexts { length nexts.now ≡ length tracks.now }
        requires first { self.now.track ≡ 0 }
        ensures { IsDueAt tracks.now nexts.now self.now due.new }
    {
        for k in 1..tracks.len() {
            let scale = tracks[k].timescale;
            due.set(k, due_at(&nexts[k], scale, self.first));
        }
    }

    /// The piece of this turn took so many samples and ended before this one, or with the track.
    /// The next turn is that of the first track where it goes on or a fragment begins, else of the
    /// next one that has a sample before the next cut. A turn that has no samples, but for the last
    /// of the first track, and samples that nobody counted, are of a file that has changed.
    pub(crate) fn pass(
        &mut self,
        turn: &Turn,
        count: u32,
        sample: Option<SampleAt>,
        tracks: &[TrackLeft],
        due: &mut DueTracks,
    ) -> Result<(), Refusal>
        requires track { (self.old.track < self.old.tracks)
            × (self.old.tracks ≡ length tracks.now) }
        requires tree { IsDueTree due.old × (due.old.leaves ≡ self.old.tracks) }
        ensures tracks { OnOk result (self.new.tracks ≡ self.old.tracks) }
        ensures turned { OnOk result
            (Skips due.new (turned self.old turn.now.end count sample) self.new) }
        ensures left { OnOk result
            ((count ≤ self.old.left) × (self.new.left ≡ self.old.left - count)) }
        ensures less { OnOk result
            ((turns_left self.new < turns_left self.old) × IsSomeLeft self.new) }
        ensures tree { OnOk result (IsDueTree due.new × (due.new.leaves ≡ self.old.tracks)) }
        ensures due { (nexts : List (Option SampleAt))
            → AreTimes tracks.now nexts self.old.first due.old
            → OnOk result
            (IsDueAt tracks.now
            (slice_set nexts self.old.track sample)
            self.new due.new) }
        ensures refusal { IfErr result (λ r. r ≡ refusals.StoreChanged) }
        ensures sticks { (nexts : List (Option SampleAt))
            → AreTimes tracks.now nexts self.old.first due.old
            → IfErr result
            (λ r. Sticks self.old count sample
            ⊎ FindsMore tracks.now
            (slice_set nexts self.old.track sample)
            (turned self.old turn.now.end count sample) self.new due.new) }
    {
        let track = self.track;
        self.take(turn, count, sample)?;
        if track > 0 {
            let scale = tracks[track].timescale;
            due.set(track, due_at(&sample, scale, self.first));
        }
        self.skip(due);
        if self.finds_more() {
            return Err(Refusal::StoreChanged);
        }
        Ok(())
    }
}
