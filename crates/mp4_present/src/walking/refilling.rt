//! What a walk has in hand, filled again before a sample is taken.
ghost use Rattle.std.specs.Prelude.{◌≡◌, ◌≤◌, [], OnOk};
ghost use Rattle.mp4_present.specs.words.Movies.{HasSome, IsWalkOf, RefusesLoad};
ghost use Rattle.mp4_present.specs.words.StoresRead.{IsUnchanged, OnlyReads, Refused};
ghost use Rattle.mp4_present.specs.words.TrackWalks.{IsWalkStill, TakesSteps, WhereComes};
ghost use Rattle.mp4_present.specs.words.SamplesComing.{Comes};

use crate::movie::Movie;
use crate::walking::Walk;
use mp4_boxes::{Refusal, Steps};
use mp4_store::Store;
use mp4_tables::Samples;
use std::sync::ledger::Ledger;

impl Walk {
    /// Reads the next `traf` where nothing is left in hand: the same samples come. Where there is
    /// none, the store has changed.
    pub fn refill<S: Store, L: Ledger, M: Ledger>(
        &mut self,
        movie: &Movie,
        store: &mut S,
        steps: &mut Steps<L, M>,
    ) -> Result<(), Refusal>
        requires { IsWalkOf movie.now self.old }
        ensures walk { IsWalkStill movie.now self.old self.new result }
        ensures some { OnOk result (HasSome movie.now self.new) }
        ensures store { OnlyReads S.Store store.old store.new result }
        ensures coming { WhereComes S.Store store.old movie.now self.old (λ file tree t samples.
            OnOk result (Comes file tree t movie.now self.new samples)) }
        ensures unchanged { WhereComes S.Store store.old movie.now self.old (λ file tree t samples.
            (samples ≡ [] → ⊥) → IsUnchanged result) }
        ensures grows { steps.old.passed ≤ steps.new.passed }
        ensures work { TakesSteps S.Store store.old movie.now self.old self.new result
            steps.old.passed steps.new.passed }
        ensures refusal { Refused S.Store store.old store.new result RefusesLoad }
        ensures looks { steps.new.looks ≡ steps.old.looks }
    {
        if self.in_hand(movie).peek().is_some() {
            return Ok(());
        }
        if !self.load(movie, store, steps)? {
            return Err(Refusal::StoreChanged);
        }
        Ok(())
    }
}
