//! What is found of a file without a text.
ghost use Rattle.mp4_answers.specs.format.Selected.{whole};
ghost use Rattle.mp4_answers.specs.format.Answers.{Judged, ReducedTo};
ghost use Rattle.mp4_answers.specs.format.Sums.{Summed};
ghost use Rattle.mp4norm_c.specs.format.Exports.{Checks, Measures, Sums};
ghost use Rattle.mp4_answers.specs.words.StoreAndSink.{IsOf};
ghost use Rattle.mp4norm_c.specs.words.Counting.{count_run};
ghost use Rattle.mp4norm_c.specs.words.Windows.{memory_look};

use crate::answer::{Answer, Digest, plain, told};
use crate::counting::CountSink;
use mp4_answers::{Selection, check, normalise_reduced, sum_file};
use mp4_boxes::{Refusal, Steps};
use mp4_content::Without;
use mp4_store::MemStore;
use std::alloc::Global;
use std::marker::Brand;
use std::sync::ledger::{Blank, Ledger};

// Judges bytes in memory.
fn checked(alloc: Global, file: &[u8]) -> Result<(), Refusal>
    ensures { Judged (memory_look file.now) result }
{
    let mut store = MemStore::new(file);
    check(alloc, &mut store)
}

/// Whether a file has a normal form.
pub(crate) fn answer_check(alloc: Global, file: &[u8]) -> Answer
    ensures { Checks file.now result }
{
    match checked(alloc, file) {
        Ok(()) => plain(0, 0),
        Err(refusal) => told(Err(refusal)),
    }
}

// The sum of bytes in memory; steps and looks are counted in these ledgers, for nobody.
fn summed<L: Ledger, M: Ledger>(
    alloc: Global,
    file: &[u8],
    leaving: Without,
    steps: Blank,
    looks: Blank,
) -> Result<[u8; 32], Refusal>
    requires steps { IsOf L.Ledger steps }
    requires looks { IsOf M.Ledger looks }
    ensures { Summed (whole leaving) (memory_look file.now) result }
{
    let mut store = MemStore::new(file);
    let mut steps = Steps::<L, M>::new(steps, looks);
    let selection = Selection {
        track: None,
        leaving,
    };
    sum_file(alloc, &mut store, selection, &mut steps)
}

/// The sum of what is left of a file; without an answer the digest stays as it is.
pub(crate) fn answer_sum(
    alloc: Global,
    file: &[u8],
    leaving: Option<Without>,
    digest: &mut Digest,
) -> Answer
    ensures { Sums leaving file.now digest.old.bytes digest.new.bytes result }
{
    let Some(leaving) = leaving else {
        return plain(64, 0);
    };
    match summed::<Brand, Brand>(alloc, file, leaving, Blank::new(1), Blank::new(1)) {
        Ok(bytes) => {
            digest.bytes = bytes;
            plain(0, 32)
        }
        Err(refusal) => told(Err(refusal)),
    }
}

// Counts what is put of the normal form of what is left of bytes in memory; steps and looks are
// counted in these ledgers, for nobody.
fn counted<L: Ledger, M: Ledger>(
    alloc: Global,
    file: &[u8],
    leaving: Without,
    sink: &mut CountSink,
    steps: Blank,
    looks: Blank,
) -> Result<(), Refusal>
    requires steps { IsOf L.Ledger steps }
    requires looks { IsOf M.Ledger looks }
    ensures { ReducedTo (whole leaving) (count_run file.now sink.old sink.new) result }
{
    let mut store = MemStore::new(file);
    let mut steps = Steps::<L, M>::new(steps, looks);
    let selection = Selection {
        track: None,
        leaving,
    };
    normalise_reduced(alloc, &mut store, sink, selection, &mut steps)
}

/// How long the normal form is of what is left of a file.
pub(crate) fn answer_length(alloc: Global, file: &[u8], leaving: Option<Without>) -> Answer
    ensures { Measures leaving file.now result }
{
    let Some(leaving) = leaving else {
        return plain(64, 0);
    };
    let mut sink = CountSink::new();
    match counted::<Brand, Brand>(
        alloc,
        file,
        leaving,
        &mut sink,
        Blank::new(1),
        Blank::new(1),
    ) {
        Ok(()) => plain(0, sink.count()),
        Err(refusal) => told(Err(refusal)),
    }
}
