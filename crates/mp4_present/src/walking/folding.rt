//! The samples of a track, added one after the other to what is made of them.
ghost use Rattle.std.specs.Prelude.{◌≡◌, ℕ, ◌+◌, ◌≤◌, List, false, OnOk};
ghost use Rattle.mp4_head.specs.format.Tree.{TrackTree};
ghost use Rattle.mp4_present.specs.format.Denotes.{FileTree};
ghost use Rattle.mp4_present.specs.words.HandCarried.{OfHand, StaysBefore};
ghost use Rattle.mp4_present.specs.words.InHand.{left_in_hand};
ghost use Rattle.mp4_present.specs.words.Movies.{IsWalkOf, RefusesLoad};
ghost use Rattle.mp4_present.specs.words.OpenedMovie.{IsOpenedAs};
ghost use Rattle.mp4_present.specs.words.StoresRead.{IsUnchanged, OnlyReads, Refused};
ghost use Rattle.mp4_present.specs.words.TrackWalks.{WhereComes, WhereMayTake};
ghost use Rattle.mp4_present.specs.words.WalkSteps.{MayTake, TakesOn};
ghost use Rattle.mp4_tables.specs.declared.sample.SampleAt.{SampleAt};
ghost use Rattle.mp4_present.specs.words.Folding.{Through};

use crate::movie::Movie;
use crate::walking::Walk;
use mp4_boxes::{Refusal, Steps};
use mp4_store::Store;
use mp4_tables::{SampleAt, Samples};
use std::sync::ledger::Ledger;

/// What is made of samples, one after the other.
pub trait Fold {
    /// What one more sample makes of it.
    ghost takes: { Self → SampleAt → Self → Type 0 };

    /// Adds one more sample.
    fn add(&mut self, sample: &SampleAt)
        ensures { takes self.old sample.now self.new };

    /// Whether a further sample may change anything.
    fn goes_on(&self) -> bool
        ensures { result ≡ false → (s : SampleAt) → takes self.now s self.now }
    {
        true
    }
}

// Adds the samples in hand, until no further one changes anything.
fn fold_hand<F: Fold, L: Ledger, M: Ledger>(
    walk: &mut Walk,
    into: &mut F,
    movie: &Movie,
    steps: &mut Steps<L, M>,
)
    requires { IsWalkOf movie.now walk.old }
    ensures walk { StaysBefore movie.now walk.old walk.new }
    ensures added { OfHand movie.now walk.old (λ hand.
        Through F.takes into.old (left_in_hand hand) into.new) }
    ensures grows { steps.old.passed ≤ steps.new.passed }
    ensures work { (file : List ℕ) (tree : FileTree) (t : TrackTree) (n : ℕ)
        → IsOpenedAs file movie.now tree → MayTake file tree t walk.old n
        → TakesOn file tree t n walk.new steps.old.passed steps.new.passed }
    ensures looks { steps.new.looks ≡ steps.old.looks }
{
    let place = {
        let mut hand = walk.in_hand(movie);
        while let Some(sample) = hand.next() {
            into.add(&sample);
            if !into.goes_on() {
                break;
            }
        }
        hand.place()
    };
    walk.keep(place, steps);
}

/// Adds all samples that a walk has still to come.
pub fn fold_samples<S: Store, F: Fold, L: Ledger, M: Ledger>(
    walk: &mut Walk,
    into: &mut F,
    movie: &Movie,
    store: &mut S,
    steps: &mut Steps<L, M>,
) -> Result<(), Refusal>
    requires { IsWalkOf movie.now walk.old }
    ensures store { OnlyReads S.Store store.old store.new result }
    ensures added { WhereComes S.Store store.old movie.now walk.old (λ file tree t samples.
        OnOk result (Through F.takes into.old samples into.new)) }
    ensures unchanged { WhereComes S.Store store.old movie.now walk.old (λ file tree t samples.
        IsUnchanged result) }
    ensures grows { OnOk result (steps.old.passed ≤ steps.new.passed) }
    ensures work { WhereMayTake S.Store store.old movie.now walk.old
        (λ file tree t n. steps.new.passed ≤ steps.old.passed + n) }
    ensures refusal { Refused S.Store store.old store.new result RefusesLoad }
    ensures looks { steps.new.looks ≡ steps.old.looks }
{
    fold_hand(walk, into, movie, steps);
    while walk.load(movie, store, steps)? {
        if !into.goes_on() {
            return Ok(());
        }
        fold_hand(walk, into, movie, steps);
    }
    Ok(())
}
