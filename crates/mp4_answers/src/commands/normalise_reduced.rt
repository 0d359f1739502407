//! The normal form of what is left of a file, or of one of its tracks, where some of what it says
//! is left out.
ghost use Rattle.std.specs.Prelude.{OnOk};
ghost use Rattle.mp4_answers.specs.format.Answers.{ReducedTo};
ghost use Rattle.mp4_answers.specs.format.Run.{KeepsFile, run_of};
ghost use Rattle.mp4_answers.specs.format.Steps.{WorksWithin, TurnsWithin, TakesEach};
ghost use Rattle.mp4_answers.specs.words.WholePut.{PutsWhole};
ghost use Rattle.mp4_present.specs.words.StoresRead.{WhereHonest};

use crate::commands::opening::open_told;
use crate::selection::Selection;
use mp4_boxes::{Refusal, Steps};
use mp4_plan::write_reduced;
use mp4_store::{Sink, Store};
use std::alloc::Global;
use std::sync::ledger::Ledger;

/// As `normalise_counted`, of what is left of what is selected of the file. If no track has the ID
/// that is named, it is NoSuchTrack. Told how long its tracks wait it may pass a limit: then the
/// fault is TimeTooLarge at the `tkhd` of the first track that is too long, or MovieTooLarge at the
/// `moov`. And what is left may have no normal form: then the fault is TimeTooLarge or
/// OffsetTooLarge at the `tkhd` of the first track that is too long, or of which an offset doesn't
/// fit. Nothing is put then.
pub fn normalise_reduced<S: Store, K: Sink, L: Ledger, M: Ledger>(
    alloc: Global,
    store: &mut S,
    sink: &mut K,
    selection: Selection,
    steps: &mut Steps<L, M>,
) -> Result<(), Refusal>
    ensures store { KeepsFile S.Store store.old store.new }
    ensures answer { ReducedTo selection
        (run_of S.Store store.old store.new K.Sink sink.old sink.new)
        result }
    ensures whole { OnOk result (PutsWhole selection.leaving (K.takes sink.old sink.new)) }
    ensures work { WhereHonest S.Store store.old (λ file.
        WorksWithin selection.leaving file steps.old.passed steps.new.passed) }
    ensures least { OnOk result (WhereHonest S.Store store.old (λ file.
        TakesEach file steps.old.passed steps.new.passed)) }
    ensures looks { WhereHonest S.Store store.old
        (λ file. TurnsWithin file steps.old.looks steps.new.looks) }
{
    let movie = open_told(alloc, store, selection, steps)?;
    let words = selection.leaving.when_told();
    write_reduced(alloc, &movie, store, sink, words, steps)
}
