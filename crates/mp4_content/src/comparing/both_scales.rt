//! By what times of two movies are divided that are compared.
ghost use Rattle.std.specs.Prelude.{◌≡◌, ◌+◌, ◌≤◌, slice_get, unwrap_or, IfOk, OnOk};
ghost use Rattle.mp4_content.specs.words.Compared.{WhereOpenedBoth};
ghost use Rattle.mp4_content.specs.words.Differing.{RefusedBoth, RefusesSample};
ghost use Rattle.mp4_content.specs.words.Scales.{AreScales, scaling_steps};
ghost use Rattle.mp4_content.specs.words.TwoStores.{OnlyReadsBoth};
ghost use Rattle.mp4_present.specs.words.StoresRead.{IsUnchanged};

use crate::comparing::movies::Movies;
use crate::comparing::tracks::Divisors;
use crate::scales::Scales;
use crate::without::Without;
use mp4_boxes::{Refusal, Steps};
use mp4_store::Store;
use std::alloc::Global;
use std::sync::ledger::Ledger;

// By what times of both are divided.
#[derive(Drop)]
pub(crate) struct BothScales {
    pub(crate) left: Scales,
    pub(crate) right: Scales,
}

impl BothScales {
    // Those of two movies.
    pub(crate) fn of<S: Store, T: Store, L: Ledger, M: Ledger>(
        alloc: Global,
        movies: &Movies,
        left: &mut S,
        right: &mut T,
        leaving: Without,
        steps: &mut Steps<L, M>,
    ) -> Result<BothScales, Refusal>
        ensures stores { OnlyReadsBoth S.Store left.old left.new T.Store right.old right.new
            result }
        ensures scales { WhereOpenedBoth S.Store left.old movies.now.left T.Store right.old
            movies.now.right (λ tree other. IfOk result (λ scales.
            AreScales leaving (S.file left.old) tree scales.left
            × AreScales leaving (T.file right.old) other scales.right)) }
        ensures unchanged { WhereOpenedBoth S.Store left.old movies.now.left T.Store right.old
            movies.now.right (λ tree other. IsUnchanged result) }
        ensures work { WhereOpenedBoth S.Store left.old movies.now.left T.Store right.old
            movies.now.right (λ tree other. steps.new.passed ≤ steps.old.passed
            + (scaling_steps leaving tree + scaling_steps leaving other)) }
        ensures refusal { RefusedBoth S.Store left.old left.new T.Store right.old right.new result
            RefusesSample }
        ensures grows { OnOk result (steps.old.passed ≤ steps.new.passed) }
        ensures looks { steps.new.looks ≡ steps.old.looks }
    {
        let first = Scales::of(alloc, &movies.left, left, leaving, steps)?;
        let second = Scales::of(alloc, &movies.right, right, leaving, steps)?;
        Ok(BothScales {
            left: first,
            right: second,
        })
    }

    // Those of the tracks at this place.
    pub(crate) fn of_tracks(&self, track: usize) -> Divisors
        ensures left { result.left ≡ unwrap_or (slice_get self.now.left.tracks.items track) 1 }
        ensures right { result.right ≡ unwrap_or (slice_get self.now.right.tracks.items track) 1 }
    {
        Divisors {
            left: self.left.track(track),
            right: self.right.track(track),
        }
    }
}
