//! Whether a file has a normal form.
ghost use Rattle.std.specs.Prelude.{OnOk};
ghost use Rattle.mp4_answers.specs.format.Answers.{Judged};
ghost use Rattle.mp4_answers.specs.format.Run.{KeepsFile, look_of};
ghost use Rattle.mp4_answers.specs.format.Steps.{TakesEach, WalksWithin, FindsWithin};
ghost use Rattle.mp4_present.specs.words.StoresRead.{WhereHonest};
ghost use Rattle.mp4_answers.specs.words.StoreAndSink.{IsOf};

use mp4_boxes::{Refusal, Steps};
use mp4_present::open_movie;
use mp4_store::Store;
use std::alloc::Global;
use std::marker::Brand;
use std::sync::ledger::{Blank, Ledger};

/// As `check`, with the steps that it takes counted: at most 8 for each sample and each row of the
/// file, however many tracks it has.
pub fn check_counted<S: Store, L: Ledger, M: Ledger>(
    alloc: Global,
    store: &mut S,
    steps: &mut Steps<L, M>,
) -> Result<(), Refusal>
    ensures store { KeepsFile S.Store store.old store.new }
    ensures answer { Judged (look_of S.Store store.old store.new) result }
    ensures work { WhereHonest S.Store store.old
        (λ file. WalksWithin file steps.old.passed steps.new.passed) }
    ensures least { OnOk result (WhereHonest S.Store store.old (λ file.
        TakesEach file steps.old.passed steps.new.passed)) }
    ensures looks { WhereHonest S.Store store.old
        (λ file. FindsWithin file steps.old.looks steps.new.looks) }
{
    open_movie(alloc, store, steps)?;
    Ok(())
}

// As `check`; its steps and looks are counted in these ledgers, for nobody.
fn check_blank<S: Store, L: Ledger, M: Ledger>(
    alloc: Global,
    store: &mut S,
    steps: Blank,
    looks: Blank,
) -> Result<(), Refusal>
    requires steps { IsOf L.Ledger steps }
    requires looks { IsOf M.Ledger looks }
    ensures store { KeepsFile S.Store store.old store.new }
    ensures answer { Judged (look_of S.Store store.old store.new) result }
{
    let mut counted = Steps::<L, M>::new(steps, looks);
    check_counted(alloc, store, &mut counted)
}

/// Judges a file as `normalise` does before it puts anything. So it answers what `normalise` would,
/// but for what fails there later: memory that writing needs, a read or a put.
pub fn check<S: Store>(alloc: Global, store: &mut S) -> Result<(), Refusal>
    ensures store { KeepsFile S.Store store.old store.new }
    ensures answer { Judged (look_of S.Store store.old store.new) result }
{
    check_blank::<S, Brand, Brand>(alloc, store, Blank::new(1), Blank::new(1))
}
