//! The samples of a track one by one, over its tables and each `moof`.
ghost use Rattle.std.specs.Prelude.{◌≡◌, ◌≤◌, [], None, IfOk, OnOk};
ghost use Rattle.mp4_tables.specs.declared.sample.SampleAt.{SampleAt};
ghost use Rattle.mp4_present.specs.words.NextSample.{TakesFirst};
ghost use Rattle.mp4_present.specs.words.Movies.{IsWalkOf, HasSome, RefusesLoad};
ghost use Rattle.mp4_present.specs.words.InHandTaken.{TakesNext, TakesOnIn};
ghost use Rattle.mp4_present.specs.words.StoresRead.{IsUnchanged, OnlyReads, Refused};
ghost use Rattle.mp4_present.specs.words.TrackWalks.{TakesSteps, WhereComes};

use crate::movie::Movie;
use crate::walking::Walk;
use mp4_boxes::{Refusal, Steps};
use mp4_store::Store;
use mp4_tables::{SampleAt, Samples};
use std::sync::ledger::Ledger;

impl Walk {
    // The next sample in hand, which is taken; none where nothing is left in hand.
    fn take_in_hand<L: Ledger, M: Ledger>(
        &mut self,
        movie: &Movie,
        steps: &mut Steps<L, M>,
    ) -> Option<SampleAt>
        requires { IsWalkOf movie.now self.old }
        ensures walk { IsWalkOf movie.now self.new }
        ensures takes { TakesNext movie.now self.old self.new result }
        ensures some { HasSome movie.now self.old → result ≡ None → ⊥ }
        ensures work { TakesOnIn movie.now self.old self.new steps.old.passed steps.new.passed }
        ensures track { self.new.track ≡ self.old.track }
        ensures grows { steps.old.passed ≤ steps.new.passed }
        ensures looks { steps.new.looks ≡ steps.old.looks }
    {
        let (sample, place) = {
            let mut hand = self.in_hand(movie);
            let sample = hand.next();
            (sample, hand.place())
        };
        self.keep(place, steps);
        sample
    }

    /// The next sample of the track, which is taken. Where it has none, the store has changed.
    pub fn next_sample<S: Store, L: Ledger, M: Ledger>(
        &mut self,
        movie: &Movie,
        store: &mut S,
        steps: &mut Steps<L, M>,
    ) -> Result<SampleAt, Refusal>
        requires { IsWalkOf movie.now self.old }
        ensures walk { OnOk result (IsWalkOf movie.now self.new) }
        ensures store { OnlyReads S.Store store.old store.new result }
        ensures next { WhereComes S.Store store.old movie.now self.old (λ file tree t samples.
            IfOk result (TakesFirst file tree t movie.now self.new samples)) }
        ensures unchanged { WhereComes S.Store store.old movie.now self.old (λ file tree t samples.
            (samples ≡ [] → ⊥) → IsUnchanged result) }
        ensures work { TakesSteps S.Store store.old movie.now self.old self.new result
            steps.old.passed steps.new.passed }
        ensures refusal { Refused S.Store store.old store.new result RefusesLoad }
        ensures grows { steps.old.passed ≤ steps.new.passed }
        ensures looks { steps.new.looks ≡ steps.old.looks }
    {
        self.refill(movie, store, steps)?;
        match self.take_in_hand(movie, steps) {
            Some(sample) => Ok(sample),
            None => Err(Refusal::StoreChanged),
        }
    }
}
