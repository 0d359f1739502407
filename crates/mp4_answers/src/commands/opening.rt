//! A file as a command looks at it: its movie, or one track of it, whose edits may say how long
//! tracks wait.
ghost use Rattle.std.specs.Prelude.{ℕ, ◌≡◌, ◌≤◌, List, OnOk, IfOk, IfErr};
ghost use Rattle.mp4_present.specs.format.Denotes.{FileTree, presentation_of};
ghost use Rattle.mp4_present.specs.words.OpenedMovie.{IsOpenedOwn};
ghost use Rattle.mp4_present.specs.words.StoresRead.{OnlyReads, Refused, RefusedOf, WhereHonest, WhereRead};
ghost use Rattle.mp4_present.specs.words.ToOpen.{TakesToOpen};
ghost use Rattle.mp4_answers.specs.format.Steps.{FindsWithin};
ghost use Rattle.mp4_answers.specs.words.OpenedTold.{IsAloneOf, IsOpenedTold, LacksAlone, OpensWithinTold, RefusesAlone, RefusesTell, RefusesTold, TellsMovie};

use crate::commands::tracks::track_with;
use crate::selection::Selection;
use mp4_boxes::{Refusal, Steps};
use mp4_content::{Word, waits};
use mp4_present::{Movie, open_movie};
use mp4_store::Store;
use std::alloc::Global;
use std::sync::ledger::Ledger;

// The movie whose edits say how long its tracks wait, where its own say no more than that.
fn tell<S: Store, L: Ledger, M: Ledger>(
    alloc: Global,
    movie: Movie,
    store: &mut S,
    steps: &mut Steps<L, M>,
) -> Result<Movie, Refusal>
    ensures store { OnlyReads S.Store store.old store.new result }
    ensures told { TellsMovie S.Store store.old movie result
        steps.old.passed steps.new.passed }
    ensures grows { OnOk result (steps.old.passed ≤ steps.new.passed) }
    ensures refusal { Refused S.Store store.old store.new result RefusesTell }
    ensures looks { steps.new.looks ≡ steps.old.looks }
{
    match waits(alloc, &movie, store, steps)? {
        Some(found) => movie.waiting(alloc, found),
        None => Ok(movie),
    }
}

// The movie, or what it shows of the track with this ID alone.
fn alone(alloc: Global, movie: Movie, track: Option<u32>) -> Result<Movie, Refusal>
    ensures movie { (file : List ℕ) (tree : FileTree) → IsOpenedOwn file movie tree
        → IfOk result (IsAloneOf track file tree) }
    ensures lacks { (file : List ℕ) (tree : FileTree) → IsOpenedOwn file movie tree
        → IfErr result (LacksAlone track (presentation_of file tree)) }
    ensures refusal { IfErr result (RefusesAlone track) }
{
    match track {
        None => Ok(movie),
        Some(id) => {
            let place = track_with(movie.tracks(), id)?;
            movie.alone(alloc, place)
        }
    }
}

/// Opens a file as `open_movie` does, and looks at one of its tracks alone, if one is named. Where
/// it doesn't count how tracks begin, the movie's edits say how long each waits, if its own say no
/// more. What it says then may pass a limit, which is a fault.
pub(crate) fn open_told<S: Store, L: Ledger, M: Ledger>(
    alloc: Global,
    store: &mut S,
    selection: Selection,
    steps: &mut Steps<L, M>,
) -> Result<Movie, Refusal>
    ensures store { OnlyReads S.Store store.old store.new result }
    ensures movie { WhereRead S.Store store.old result
        (λ file m. (t : FileTree)
        × IsOpenedTold selection.track selection.leaving.lead_ins file m t) }
    ensures work { WhereHonest S.Store store.old (λ file.
        OpensWithinTold selection.leaving.lead_ins file steps.old.passed steps.new.passed) }
    ensures least { OnOk result (WhereHonest S.Store store.old (λ file.
        TakesToOpen file steps.old.passed steps.new.passed)) }
    ensures refusal { RefusedOf S.Store store.old store.new result
        (RefusesTold selection.track selection.leaving.lead_ins) }
    ensures looks { WhereHonest S.Store store.old
        (λ file. FindsWithin file steps.old.looks steps.new.looks) }
{
    let movie = open_movie(alloc, store, steps)?;
    let alone = alone(alloc, movie, selection.track)?;
    if !selection.leaving.has(Word::LeadIns) {
        return Ok(alone);
    }
    tell(alloc, alone, store, steps)
}
