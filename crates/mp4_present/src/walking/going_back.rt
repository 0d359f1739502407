//! How a walk goes back to where it stood.
ghost use Rattle.std.specs.Prelude.{ℕ, ◌≡◌, ◌+◌, ◌≤◌, List, length, drop, if◌then◌else◌, true, false, Err, Some, IfErr, OnOk, OnErr, IsOk, IsTrue, MatchResult};
ghost use Rattle.mp4_boxes.specs.declared.refusal.Refusal.TheVariants as refusals;
ghost use Rattle.mp4_head.specs.format.Tree.{TrackTree};
ghost use Rattle.mp4_tables.specs.declared.sample.SampleAt.{SampleAt};
ghost use Rattle.mp4_present.specs.words.SamplesComing.{Comes};
ghost use Rattle.mp4_present.specs.format.Denotes.{FileTree};
ghost use Rattle.mp4_present.specs.words.GoingBack.{GoesBackTo, again_from, back_steps, farther, IsMarkInHand, is_at_hand, is_mark_farther, set_back, turned_back};
ghost use Rattle.mp4_present.specs.words.HandCarried.{OfHand};
ghost use Rattle.mp4_present.specs.words.InHand.{left_in_hand};
ghost use Rattle.mp4_present.specs.words.Movies.{MovieSeen, GoesOn, IsRest, IsWalkOf, RefusesLoad, StandsAt, mark_of};
ghost use Rattle.mp4_present.specs.words.WalkSteps.{MayTake, TakesOn, steps_to};
ghost use Rattle.mp4_present.specs.words.WalkMarks.{FindsFewer, HasReadAgain, KeepsRest, KnowsLength, PassesInHand, ReadsMarked, TakesAgain};
ghost use Rattle.mp4_present.specs.words.StoresRead.{OnlyReads, Refused};
ghost use Rattle.mp4_present.specs.words.TrackWalks.{HasInHand, HasTraf, IsAtMark, WhereMarkMayTake, WhereMarked, back_at_mark};

use crate::movie::Movie;
use crate::reading::read_range;
use crate::walking::in_hand::Place;
use crate::walking::{Due, Mark, Walk};
use mp4_boxes::{Refusal, Steps};
use mp4_frag::TrafCursor;
use mp4_store::Store;
use mp4_tables::Samples;
use std::sync::ledger::Ledger;

// Takes so many samples; false where there are fewer.
fn pass_samples<C: Samples>(samples: &mut C, count: u32) -> bool
    ensures passed { IsTrue result → C.rest samples.new ≡ drop count (C.rest samples.old) }
    ensures enough { count ≤ length (C.rest samples.old) → IsTrue result }
    ensures whole { IsTrue result → count ≤ length (C.rest samples.old) }
    ensures later { C.follows samples.old samples.new }
{
    let mut passed = 0;
    while passed < count {
        match samples.next() {
            Some(_) => passed += 1,
            None => return false,
        }
    }
    true
}

impl Walk {
    // A mark of where the walk stands, before so many samples of the track.
    fn mark_here(&self, to_come: u32) -> Mark
        ensures { result ≡ mark_of self.now to_come }
    {
        Mark {
            track: self.track,
            place: self.place,
            traf: self.traf,
            before: self.before,
            due: self.due,
            left: self.left,
            next: self.next,
            to_come,
        }
    }

    /// Marks where the walk stands, before so many samples of the track: it can go back here from
    /// wherever it goes on to. A mark made before is given up.
    pub fn mark(&mut self, to_come: u32)
        ensures mark { self.new ≡ record self.old { mark = mark_of self.old to_come } }
        ensures walk { (m : MovieSeen) → GoesOn m self.old → StandsAt m self.old self.old.place
            → IsRest m self.old self.old.before self.old.place → IsWalkOf m self.new }
        ensures coming { (file : List ℕ) (tree : FileTree) (t : TrackTree) (m : MovieSeen)
            (samples : List SampleAt)
            → Comes file tree t m self.old samples → Comes file tree t m self.new samples }
        ensures may { (file : List ℕ) (tree : FileTree) (t : TrackTree) (n : ℕ)
            → MayTake file tree t self.old n → MayTake file tree t self.new n }
    {
        self.mark = self.mark_here(to_come);
    }

    // What was due before the `traf` of the mark, where it has to be read again.
    fn again_from(&self) -> Option<Due>
        ensures { result ≡ again_from self.now }
    {
        if self.next == self.mark.next {
            None
        } else {
            self.mark.before
        }
    }

    // Sets the place back to the mark.
    fn set_back(&mut self)
        ensures { self.new ≡ set_back self.old }
    {
        self.place = self.mark.place;
        self.before = self.mark.before;
        self.due = self.mark.due;
        self.left = self.mark.left;
        self.next = self.mark.next;
    }

    // Takes the samples of the `traf` in the room into hand again, before which this was due. How
    // many they are, and when the next is due behind them, is known.
    fn take_again<L: Ledger, M: Ledger>(
        &mut self,
        before: Due,
        movie: &Movie,
        steps: &mut Steps<L, M>,
    )
        requires movie { GoesOn movie.now self.old }
        requires traf { HasTraf self.old }
        ensures same { self.new ≡ record self.old { place = self.new.place; before = Some before } }
        ensures hand { HasInHand movie.now self.old self.new before }
        ensures taken { TakesAgain movie.now self.old self.new before }
        ensures work { steps.new.passed ≡ steps.old.passed + steps_to self.new.place }
        ensures looks { steps.new.looks ≡ steps.old.looks }
    {
        let info = movie.tracks()[self.track];
        let (base, trex) = (self.traf.base, movie.trex_of(self.track));
        let bytes = &self.bytes[..self.used];
        let number = info.samples.saturating_sub(before.left);
        let cursor = TrafCursor::start(bytes, base, info.id, trex, number, before.time, info.keys);
        self.place = Place::Fragment(cursor.place());
        self.before = Some(before);
        steps.add(self.place.passed());
    }

    // Reads the `traf` of the mark again, where this was due, and takes its samples into hand. The
    // mark is given up for one before these.
    fn read_again<S: Store, L: Ledger, M: Ledger>(
        &mut self,
        before: Due,
        movie: &Movie,
        store: &mut S,
        steps: &mut Steps<L, M>,
    ) -> Result<(), Refusal>
        requires walk { IsWalkOf movie.now self.old }
        requires marked { self.old.mark.before ≡ Some before }
        ensures store { OnlyReads S.Store store.old store.new result }
        ensures room { length self.new.bytes.items ≡ length self.old.bytes.items }
        ensures again { OnOk result (HasReadAgain movie.now self.old self.new before) }
        ensures taken { ReadsMarked S.Store store.old movie.now self.old self.new before result
            steps.old.passed steps.new.passed }
        ensures idle { OnErr result (steps.new.passed ≡ steps.old.passed) }
        ensures steps { (steps.old.passed ≤ steps.new.passed)
            × (steps.new.looks ≡ steps.old.looks) }
        ensures length { KnowsLength S.Store store.old movie.now result }
        ensures refusal { Refused S.Store store.old store.new result RefusesLoad }
    {
        let mark = self.mark;
        if store.len() != movie.file_len {
            return Err(Refusal::StoreChanged);
        }
        let traf = mark.traf;
        read_range(store, traf.at, traf.len, self.bytes.as_mut_slice())?;
        self.used = traf.len;
        self.traf = traf;
        self.due = mark.due;
        self.left = mark.left;
        self.next = mark.next;
        self.take_again(before, movie, steps);
        self.mark(mark.to_come);
        Ok(())
    }

    // Passes so many samples in hand. Where there are fewer, the store has changed.
    fn pass<L: Ledger, M: Ledger>(
        &mut self,
        count: u32,
        movie: &Movie,
        steps: &mut Steps<L, M>,
    ) -> Result<(), Refusal>
        requires { IsWalkOf movie.now self.old }
        ensures passed { OnOk result
            (PassesInHand movie.now self.old self.new count steps.old.passed steps.new.passed) }
        ensures enough { OfHand movie.now self.old
            (λ hand. count ≤ length (left_in_hand hand) → IsOk result) }
        ensures same { KeepsRest self.old self.new }
        ensures grows { steps.old.passed ≤ steps.new.passed }
        ensures fewer { IfErr result (FindsFewer steps.old.passed steps.new.passed) }
        ensures looks { steps.new.looks ≡ steps.old.looks }
    {
        let place = {
            let mut hand = self.in_hand(movie);
            if !pass_samples(&mut hand, count) {
                return Err(Refusal::StoreChanged);
            }
            hand.place()
        };
        self.keep(place, steps);
        Ok(())
    }

    /// Goes back to the mark. Where what was in hand there is at hand, nothing is read, and no step
    /// taken; else the `traf` is read again, and its samples before the mark are passed: they were
    /// counted when it was loaded, and are not counted again. It takes no memory. Where the store
    /// has another length, or fewer samples before the mark, the answer is StoreChanged.
    pub fn go_back<S: Store, L: Ledger, M: Ledger>(
        &mut self,
        movie: &Movie,
        store: &mut S,
        steps: &mut Steps<L, M>,
    ) -> Result<(), Refusal>
        requires { IsWalkOf movie.now self.old }
        ensures store { OnlyReads S.Store store.old store.new result }
        ensures walk { OnOk result (IsWalkOf movie.now self.new) }
        ensures mark { (length self.new.bytes.items ≡ length self.old.bytes.items)
            × OnOk result (IsAtMark self.old self.new) }
        ensures back { WhereMarked S.Store store.old movie.now self.old
            (λ file tree t samples. MatchResult result
            (λ _. Comes file tree t movie.now self.new samples)
            (λ r. r ≡ refusals.StoreChanged → ⊥)) }
        ensures grows { steps.old.passed ≤ steps.new.passed }
        ensures work { WhereMarkMayTake S.Store store.old movie.now self.old
            (λ file tree t begun n. MatchResult result
            (λ _. TakesOn file tree t (n + back_steps begun self.old) self.new
            steps.old.passed steps.new.passed)
            (λ _. steps.new.passed ≤ steps.old.passed + back_steps begun self.old)) }
        ensures still { (is_at_hand self.old ≡ true → IsOk result × (store.new ≡ store.old)
            × (steps.new.passed ≡ steps.old.passed) × (self.new ≡ back_at_mark self.old))
            × (is_at_hand self.old ≡ false → KnowsLength S.Store store.old movie.now result) }
        ensures refusal { Refused S.Store store.old store.new result RefusesLoad }
        ensures looks { steps.new.looks ≡ steps.old.looks }
    {
        let mark = self.mark;
        let Some(before) = self.again_from() else {
            self.set_back();
            self.mark(mark.to_come);
            return Ok(());
        };
        self.read_again(before, movie, store, steps)?;
        if before.left < mark.to_come {
            return Err(Refusal::StoreChanged);
        }
        self.pass(before.left - mark.to_come, movie, steps)?;
        self.mark(mark.to_come);
        Ok(())
    }

    /// How many samples were to come at the mark.
    pub fn to_come(&self) -> u32
        ensures { result ≡ self.now.mark.to_come }
    {
        self.mark.to_come
    }

    /// Whether the mark is a place of what is in hand.
    pub fn is_mark_in_hand(&self) -> bool
        ensures yes { IsTrue result → IsMarkInHand self.now }
        ensures no { IsMarkInHand self.now → IsTrue result }
    {
        self.next == self.mark.next && self.before.is_none() == self.mark.before.is_none()
    }

    /// Goes back to the mark, a place of what is in hand, and marks where it stood, for go_farther.
    /// Nothing is read.
    pub fn turn_back(&mut self)
        requires { IsMarkInHand self.old }
        ensures is { self.new ≡ turned_back self.old }
        ensures room { self.new.bytes ≡ self.old.bytes }
        ensures walk { (m : MovieSeen) → IsWalkOf m self.old → IsWalkOf m self.new }
        ensures back { (file : List ℕ) (tree : FileTree) (t : TrackTree) (m : MovieSeen)
            (begun : Walk) (before : ℕ) (samples : List SampleAt)
            → GoesBackTo file tree t m begun self.old before → IsWalkOf m self.old
            → Comes file tree t m begun samples → Comes file tree t m self.new samples }
        ensures may { (file : List ℕ) (tree : FileTree) (t : TrackTree) (m : MovieSeen)
            (begun : Walk) (before n : ℕ)
            → GoesBackTo file tree t m begun self.old before → IsWalkOf m self.old
            → MayTake file tree t begun n → MayTake file tree t self.new n }
    {
        let there = self.mark_here(self.mark.to_come);
        self.set_back();
        self.mark = there;
    }

    /// Goes on from the mark, where this is a place of what is in hand and farther on.
    pub fn go_farther(&mut self)
        ensures is { self.new ≡ farther self.old }
        ensures walk { (m : MovieSeen) → IsWalkOf m self.old → IsWalkOf m self.new }
        ensures room { self.new.bytes ≡ self.old.bytes }
        ensures next { self.new.next ≡ self.old.next }
        ensures coming { (file : List ℕ) (tree : FileTree) (t : TrackTree) (m : MovieSeen)
            (begun : Walk) (before : ℕ) (there here : List SampleAt)
            → GoesBackTo file tree t m begun self.old before → IsWalkOf m self.old
            → Comes file tree t m begun there → Comes file tree t m self.old here
            → Comes file tree t m self.new (if is_mark_farther self.old then there else here) }
        ensures may { (file : List ℕ) (tree : FileTree) (t : TrackTree) (m : MovieSeen)
            (begun : Walk) (before a b : ℕ)
            → GoesBackTo file tree t m begun self.old before → IsWalkOf m self.old
            → MayTake file tree t begun a → MayTake file tree t self.old b
            → MayTake file tree t self.new (if is_mark_farther self.old then a else b) }
    {
        if self.next == self.mark.next && self.place.passed() < self.mark.place.passed() {
            let to_come = self.mark.to_come;
            self.set_back();
            self.mark(to_come);
        }
    }
}
