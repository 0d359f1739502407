//! The window of a job's text.
ghost use Rattle.std.specs.Prelude.{◌≡◌};
ghost use Rattle.mp4_answers.specs.format.Answers.{Performed};
ghost use Rattle.mp4_answers.specs.words.StoreAndSink.{IsOf};
ghost use Rattle.mp4norm_c.specs.format.Exports.{Answers, WindowOf};
ghost use Rattle.mp4norm_c.specs.words.Windows.{counted, memory_run};

use crate::answer::{Answer, plain, told};
use crate::window::WindowSink;
use mp4_answers::{Job, perform};
use mp4_boxes::{Refusal, Steps};
use mp4_store::MemStore;
use std::alloc::Global;
use std::marker::Brand;
use std::sync::ledger::{Blank, Ledger};

// Does a job over bytes in memory; steps and looks are counted in these ledgers, for nobody.
fn performed<L: Ledger, M: Ledger>(
    alloc: Global,
    job: Job,
    file: &[u8],
    sink: &mut WindowSink<'_>,
    steps: Blank,
    looks: Blank,
) -> Result<(), Refusal>
    requires steps { IsOf L.Ledger steps }
    requires looks { IsOf M.Ledger looks }
    ensures same { sink.new.room.ghost_name ≡ sink.old.room.ghost_name }
    ensures answer { Performed job.entry (memory_run file.now sink.old sink.new) result }
{
    let mut store = MemStore::new(file);
    let mut steps = Steps::<L, M>::new(steps, looks);
    perform(alloc, job, &mut store, sink, &mut steps)
}

// How many bytes are there, where a job was done as far as the window goes.
fn counted(done: Result<(), Refusal>, filled: u64) -> Result<u64, Refusal>
    ensures { result ≡ counted filled done }
{
    match done {
        Ok(()) | Err(Refusal::WriteFailed) => Ok(filled),
        Err(refusal) => Err(refusal),
    }
}

// Puts the window of the text that a job puts of a file.
fn window_of(
    alloc: Global,
    job: Job,
    file: &[u8],
    from: u64,
    out: &mut [u8],
) -> Result<u64, Refusal>
    ensures { WindowOf job.entry file.now from out.old out.new result }
{
    let mut sink = WindowSink::new(from, out);
    let done = performed::<Brand, Brand>(alloc, job, file, &mut sink, Blank::new(1), Blank::new(1));
    counted(done, sink.filled())
}

/// Puts the window of the text that a job puts of a file into a buffer, and says so; without a job
/// it says that what was asked for is unknown.
pub(crate) fn answer_window(
    alloc: Global,
    job: Option<Job>,
    file: &[u8],
    from: u64,
    out: &mut [u8],
) -> Answer
    ensures { Answers job.entry file.now from out.old out.new result }
{
    match job {
        Some(job) => told(window_of(alloc, job, file, from, out)),
        None => plain(64, 0),
    }
}
