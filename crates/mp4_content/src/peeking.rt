//! The next sample of a walk.
ghost use Rattle.std.specs.Prelude.{◌≡◌, ◌≤◌, None, slice_get, IfOk, OnOk};
ghost use Rattle.mp4_present.specs.words.Movies.{IsWalkOf, HasSome};
ghost use Rattle.mp4_present.specs.words.SamplesComing.{Comes};
ghost use Rattle.mp4_present.specs.words.StoresRead.{IsUnchanged};
ghost use Rattle.mp4_present.specs.words.TrackWalks.{TakesSteps, WhereComes};
ghost use Rattle.mp4_content.specs.words.GoneOn.{WentOn};
ghost use Rattle.mp4_content.specs.words.Loading.{OnlyLoads};

use mp4_boxes::{Refusal, Steps};
use mp4_present::{Movie, Walk};
use mp4_store::Store;
use mp4_tables::{SampleAt, Samples};
use std::sync::ledger::Ledger;

/// The next sample of a walk, which stays the next.
pub fn peek_sample<S: Store, L: Ledger, M: Ledger>(
    walk: &mut Walk,
    movie: &Movie,
    store: &mut S,
    steps: &mut Steps<L, M>,
) -> Result<Option<SampleAt>, Refusal>
    requires { IsWalkOf movie.now walk.old }
    ensures loads { OnlyLoads movie.now walk.old walk.new S.Store store.old store.new result }
    ensures went { OnOk result
        (WentOn movie.now walk.old walk.new steps.old.passed steps.new.passed) }
    ensures coming { WhereComes S.Store store.old movie.now walk.old
        (λ file tree t samples. IfOk result (λ next. Comes file tree t movie.now walk.new samples
        × (next ≡ slice_get samples 0))) }
    ensures some { IfOk result (λ next. (next ≡ None → ⊥) → HasSome movie.now walk.new) }
    ensures unchanged { WhereComes S.Store store.old movie.now walk.old
        (λ file tree t samples. IsUnchanged result) }
    ensures work { TakesSteps S.Store store.old movie.now walk.old walk.new result
        steps.old.passed steps.new.passed }
    ensures mark { walk.new.mark ≡ walk.old.mark }
    ensures grows { steps.old.passed ≤ steps.new.passed }
    ensures looks { steps.new.looks ≡ steps.old.looks }
{
    let next = walk.in_hand(movie).peek();
    if next.is_some() {
        return Ok(next);
    }
    if !walk.load(movie, store, steps)? {
        return Ok(None);
    }
    Ok(walk.in_hand(movie).peek())
}
