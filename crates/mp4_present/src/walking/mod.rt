//! A walk over all samples of a track: of its tables, then of each of its `traf`s.
ghost use Rattle.std.specs.Prelude.{ℕ, ◌≡◌, ◌+◌, ◌-◌, ◌^◌, ◌<◌, ◌≤◌, min, List, [], length, true, false, None, Some, is_some, Err, slice_get, IfOk, IfErr, OnOk, IsTrue, MatchResult};
ghost use Rattle.mp4_head.specs.format.Tree.{TrackTree};
ghost use Rattle.mp4_present.specs.format.Denotes.{FileTree};
ghost use Rattle.mp4_present.specs.words.OpenedMovie.{IsOpenedAs};
ghost use Rattle.mp4_present.specs.words.SamplesComing.{track_samples, samples_behind, Comes, Loads};
ghost use Rattle.mp4_present.specs.words.WalkSteps.{steps_to, walk_steps, MayTake};
ghost use Rattle.mp4_frag.specs.words.OwnTrafs.{traf_steps};
ghost use Rattle.mp4_present.specs.words.InHand.{left_in_hand};
ghost use Rattle.mp4_present.specs.words.Movies.{IsMovie, GoesOn, IsWalkOf, InHandOf, HasSome, RefusesLoad, traf_box, mark_of, own_room};
ghost use Rattle.mp4_present.specs.declared.track_info.TrackInfo.{TrackInfo};
ghost use Rattle.mp4_present.specs.words.InHandTaken.{TakesNextTraf};
ghost use Rattle.mp4_present.specs.words.StoresRead.{OnlyReads, Refused};
ghost use Rattle.mp4_present.specs.words.TrackWalks.{CountsOff, HasInHand, HasTraf, IsLoaded, IsWalkStill, KeepsRoom, TakesSteps, WhereStands};
ghost use Rattle.mp4_boxes.specs.declared.refusal.Refusal.TheVariants as refusals;

pub mod folding;
pub mod fragment_number;
pub mod going_back;
pub mod in_hand;
pub mod next_sample;
pub mod refilling;
pub mod stretches;
pub mod track_bytes;

use crate::movie::Movie;
use crate::opening::totals::in_64_bits;
use crate::reading::read_range;
use crate::walking::in_hand::{InHand, Place};
use mp4_boxes::{Memory, Refusal, Steps};
use mp4_frag::{OwnTraf, TrafCursor};
use mp4_store::Store;
use mp4_tables::TableCursor;
use std::alloc::Global;
use std::sync::ledger::Ledger;

/// When the next sample of a track is due, and how many are left from it on.
#[derive(Clone, Copy, Debug, PartialEq, Eq)]
pub(crate) struct Due {
    pub(crate) time: u64,
    pub(crate) left: u32,
}

/// Where a walk stood: plain numbers.
#[derive(Clone, Copy)]
pub(crate) struct Mark {
    pub(crate) track: usize,
    pub(crate) place: Place,
    /// The `traf` in hand, and what was due where it was loaded; none in the tables.
    pub(crate) traf: OwnTraf,
    pub(crate) before: Option<Due>,
    pub(crate) due: u64,
    pub(crate) left: u32,
    pub(crate) next: usize,
    /// How many samples were to come.
    pub(crate) to_come: u32,
}

/// A walk over the samples of a track. It has room for one `traf` that has samples of the track,
/// and holds neither the movie nor the store: what reads takes them again.
#[derive(Drop)]
pub struct Walk {
    pub(crate) track: usize,
    pub(crate) place: Place,
    /// The `traf` in hand, and the bytes of its payload: the first `used` of the room.
    pub(crate) traf: OwnTraf,
    pub(crate) bytes: Vec<u8>,
    pub(crate) used: usize,
    /// What was due where the `traf` in hand was loaded; none where the tables are in hand.
    pub(crate) before: Option<Due>,
    /// When the first sample behind what is in hand is due, and how many samples of the track lie
    /// there.
    pub(crate) due: u64,
    pub(crate) left: u32,
    /// Which of the track's `traf`s is the next.
    pub(crate) next: usize,
    /// Where the walk goes back to.
    pub(crate) mark: Mark,
}

// Before the first `traf`.
const NO_TRAF: OwnTraf = OwnTraf {
    at: 0,
    len: 0,
    base: 0,
};

impl Movie {
    /// A walk over the samples of the track at this place among the tracks. All room that it needs
    /// is made here: for the longest `traf` that has samples of the track. It stands before the
    /// first sample, and has marked this place.
    pub fn walk(&self, alloc: Global, track: usize) -> Result<Walk, Memory>
        requires { track < length self.now.tracks }
        ensures walk { IfOk result (IsWalkOf self.now) }
        ensures room { IfOk result (λ walk. length walk.bytes.items ≡ own_room self.now track) }
        ensures within { IfOk result (λ walk. length walk.bytes.items ≤ self.now.longest) }
        ensures coming { IfOk result (λ walk. (file : List ℕ) (tree : FileTree) (t : TrackTree)
            → IsOpenedAs file self.now tree → slice_get tree.movie.tracks track ≡ Some t
            → Comes file tree t self.now walk (track_samples tree t)) }
        ensures may { IfOk result (λ walk. (file : List ℕ) (tree : FileTree) (t : TrackTree)
            → IsOpenedAs file self.now tree → slice_get tree.movie.tracks track ≡ Some t
            → (n : ℕ) × MayTake file tree t walk n × (n ≤ walk_steps tree t)) }
        ensures begun { IfOk result (λ walk. (walk.next ≡ 0) × (walk.before ≡ None)) }
        ensures mark { IfOk result (λ walk. (info : TrackInfo)
            → slice_get self.now.tracks track ≡ Some info
            → walk.mark ≡ mark_of walk info.samples) }
    {
        let Ok(bytes) = vec![in alloc; 0u8; self.room_for(track) as usize] else {
            return Err(Memory);
        };
        let cursor = TableCursor::start(&self.tables_of(track));
        let info = self.tracks[track];
        let state = self.states[track];
        let mark = Mark {
            track,
            place: Place::Tables(cursor.place()),
            traf: NO_TRAF,
            before: None,
            due: due_first(info.start, state.time),
            left: info.samples.saturating_sub(state.count),
            next: 0,
            to_come: info.samples,
        };
        Ok(Walk {
            track,
            place: mark.place,
            traf: NO_TRAF,
            bytes,
            used: 0,
            before: None,
            due: mark.due,
            left: mark.left,
            next: mark.next,
            mark,
        })
    }
}

// When the first sample behind the tables is due, of a track that starts at a time and whose tables
// last so long.
fn due_first(start: u64, time: u128) -> u64
    ensures { result ≡ min (start + time) (2 ^ 64 - 1) }
{
    in_64_bits(u128::from(start).saturating_add(time))
}

impl Walk {
    /// The place of its track among those of the movie.
    pub fn track(&self) -> usize
        ensures { result ≡ self.now.track }
    {
        self.track
    }

    /// The samples left of what is in memory: of the tables, or of a `traf`.
    pub fn in_hand<'a>(&'a self, movie: &'a Movie) -> InHand<'a>
        requires { IsWalkOf movie.now self.now }
        ensures hand { InHandOf movie.entry.now self.entry.now result }
        ensures movie { IsMovie movie.entry.now }
    {
        match self.place {
            Place::Tables(place) => {
                InHand::Tables(TableCursor::at(&movie.tables_of(self.track), place))
            }
            Place::Fragment(place) => {
                InHand::Fragment(TrafCursor::at(&self.bytes[..self.used], place))
            }
        }
    }

    /// The walk goes on from a place of what is in hand. The steps to there are counted.
    pub fn keep<L: Ledger, M: Ledger>(&mut self, place: Place, steps: &mut Steps<L, M>)
        ensures place { self.new ≡ record self.old { place = place } }
        ensures work { steps.new.passed
            ≡ steps.old.passed + (steps_to place - steps_to self.old.place) }
        ensures looks { steps.new.looks ≡ steps.old.looks }
    {
        steps.add(place.passed().saturating_sub(self.place.passed()));
        self.place = place;
    }

    // Takes the samples of the `traf` in the room into hand, and says whether there are any. Where
    // there are more than are left, the store has changed. All of its samples are in hand then, and
    // as many less are left.
    pub(crate) fn take<L: Ledger, M: Ledger>(
        &mut self,
        movie: &Movie,
        steps: &mut Steps<L, M>,
    ) -> Result<bool, Refusal>
        requires movie { GoesOn movie.now self.old }
        requires traf { HasTraf self.old }
        ensures hand { OnOk result (HasInHand movie.now self.old self.new
            (record { time = self.old.due; left = self.old.left })) }
        ensures counts { OnOk result (CountsOff movie.now self.old self.new) }
        ensures keeps { KeepsRoom self.old self.new }
        ensures taken { TakesNextTraf movie.now self.old self.new result }
        ensures some { IfOk result (λ some. IsTrue some → HasSome movie.now self.new) }
        ensures steps { (steps.old.passed ≤ steps.new.passed)
            × (steps.new.looks ≡ steps.old.looks) }
        ensures work { MatchResult result (λ _. steps.new.passed ≤ steps.old.passed
            + traf_steps (traf_box self.old) + steps_to self.new.place)
            (λ _. steps.new.passed ≡ steps.old.passed) }
        ensures refusal { IfErr result (λ r. r ≡ refusals.StoreChanged) }
    {
        let info = movie.tracks()[self.track];
        let (base, trex) = (self.traf.base, movie.trex_of(self.track));
        let bytes = &self.bytes[..self.used];
        let number = info.samples.saturating_sub(self.left);
        let cursor = TrafCursor::start(bytes, base, info.id, trex, number, self.due, info.keys);
        let Some(counts) = cursor.counts(self.left) else {
            return Err(Refusal::StoreChanged);
        };
        steps.add(counts.passed);
        self.place = Place::Fragment(cursor.place());
        self.before = Some(Due {
            time: self.due,
            left: self.left,
        });
        self.due = self.due.saturating_add(counts.duration);
        self.left -= counts.samples;
        steps.add(self.place.passed());
        Ok(counts.samples > 0)
    }

    /// Reads the next `traf` that has samples of the track, where nothing is left in hand; false
    /// where there is none. It takes no memory. Where the store has another length, or other
    /// samples than it had when the movie was opened, so far as their number shows it, the answer
    /// is StoreChanged.
    pub fn load<S: Store, L: Ledger, M: Ledger>(
        &mut self,
        movie: &Movie,
        store: &mut S,
        steps: &mut Steps<L, M>,
    ) -> Result<bool, Refusal>
        requires { IsWalkOf movie.now self.old }
        ensures store { OnlyReads S.Store store.old store.new result }
        ensures walk { IsWalkStill movie.now self.old self.new result }
        ensures loaded { WhereStands S.Store store.old movie.now self.old
            (λ file tree t earlier later. MatchResult result
            (λ more. Loads file tree t movie.now (samples_behind tree t earlier later) self.new
            more) (λ r. r ≡ refusals.StoreChanged → ⊥)) }
        ensures answer { IfOk result (IsLoaded movie.now self.old self.new)
            × WhereStands S.Store store.old movie.now self.old
            (λ file tree t earlier later. (hand : InHand) → InHandOf movie.now self.old hand
            → left_in_hand hand ≡ []
            → IfOk result (λ more. more ≡ false → Comes file tree t movie.now self.new [])) }
        ensures behind { IfOk result (λ more. IsTrue more → (self.new.next ≡ self.old.next + 1)
            × (is_some self.new.before ≡ true)) }
        ensures grows { steps.old.passed ≤ steps.new.passed }
        ensures work { TakesSteps S.Store store.old movie.now self.old self.new result
            steps.old.passed steps.new.passed }
        ensures length { (length (S.file store.old) ≡ movie.now.file_len → ⊥)
            → result ≡ Err refusals.StoreChanged }
        ensures refusal { Refused S.Store store.old store.new result RefusesLoad }
        ensures looks { steps.new.looks ≡ steps.old.looks }
    {
        if store.len() != movie.file_len {
            return Err(Refusal::StoreChanged);
        }
        if self.left == 0 {
            return Ok(false);
        }
        let Some(traf) = movie.own_traf(self.track, self.next) else {
            return Err(Refusal::StoreChanged);
        };
        read_range(store, traf.at, traf.len, self.bytes.as_mut_slice())?;
        self.used = traf.len;
        self.traf = traf;
        self.next += 1;
        if self.take(movie, steps)? {
            Ok(true)
        } else {
            Err(Refusal::StoreChanged)
        }
    }
}
