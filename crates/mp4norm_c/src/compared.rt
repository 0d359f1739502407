//! Two files that are compared, in numbers and by the window of what is said of them.
ghost use Rattle.std.specs.Prelude.{◌≡◌, true, false, IfOk, IfErr};
ghost use Rattle.mp4_answers.specs.format.CompareHeadline.{IsVerdict, IsTold, PutsSuch};
ghost use Rattle.mp4_answers.specs.words.StoreAndSink.{IsOf};
ghost use Rattle.mp4norm_c.specs.format.Exports.{Compares, IsWindow, same_text};
ghost use Rattle.mp4norm_c.specs.words.Comparing.{RefusesTwo, failure_told, side_number, verdict_number, Took};

use crate::answer::{Answer, of_fault, plain};
use crate::window::WindowSink;
use mp4_answers::{Asked, Failure, Side, compare_files};
use mp4_boxes::{Refusal, Steps};
use mp4_store::{MemSink, MemStore};
use std::alloc::Global;
use std::marker::Brand;
use std::sync::ledger::{Blank, Ledger};

// Compares bytes in memory, and appends what is said of them; steps and looks are counted in these
// ledgers, for nobody.
fn compared<L: Ledger, M: Ledger>(
    alloc: Global,
    asked: Asked,
    file: &[u8],
    other: &[u8],
    text: &mut MemSink,
    counted: (Blank, Blank),
) -> Result<bool, Failure>
    requires steps { IsOf L.Ledger counted.0 }
    requires looks { IsOf M.Ledger counted.1 }
    ensures verdict { IfOk result (λ same. IsVerdict asked file.now other.now same) }
    ensures same { IfOk result (λ same. same ≡ true → Took text.old text.new (same_text asked)) }
    ensures differ { IfOk result (λ same. same ≡ false → PutsSuch (Took text.old text.new)
        (IsTold asked file.now other.now)) }
    ensures refusal { IfErr result (RefusesTwo asked file.now other.now) }
{
    let mut left = MemStore::new(file);
    let mut right = MemStore::new(other);
    let mut steps = Steps::<L, M>::new(counted.0, counted.1);
    compare_files(alloc, &mut left, &mut right, asked, text, &mut steps)
}

// The number of a file.
fn number_of(side: Side) -> u32
    ensures { result ≡ side_number side }
{
    match side {
        Side::Second => 1,
        Side::First | Side::Both | Side::Neither => 0,
    }
}

// Why two files are not compared, in numbers. What is said of them is kept in memory before a part
// of it is put, so that it could not be kept is want of memory.
fn told_failure(failure: Failure) -> Answer
    ensures { result ≡ failure_told failure.side failure.refusal }
{
    match failure.refusal {
        Refusal::Fault(fault) => of_fault(fault, number_of(failure.side)),
        Refusal::Memory | Refusal::WriteFailed => plain(2, 0),
        Refusal::NoSuchTrack => plain(4, 0),
        Refusal::StoreFailed | Refusal::StoreChanged => plain(3, 0),
    }
}

// The status where two files were compared.
fn status_of(same: bool) -> u32
    ensures { result ≡ verdict_number same }
{
    if same { 0 } else { 5 }
}

// Puts the window of a text from a place on into a buffer. How many bytes that is.
fn put_window(text: &[u8], from: u64, out: &mut [u8]) -> u64
    ensures { IsWindow from out.old out.new text.now result }
{
    let mut sink = WindowSink::new(from, out);
    sink.keep(text);
    sink.filled()
}

/// Compares two files, and puts the window of what is said of them into a buffer; where something
/// that was asked for is unknown, it says so.
pub(crate) fn answer_compare(
    alloc: Global,
    asked: Option<Asked>,
    file: &[u8],
    other: &[u8],
    from: u64,
    out: &mut [u8],
) -> Answer
    ensures { Compares asked file.now other.now from out.old out.new result }
{
    let Some(asked) = asked else {
        return plain(64, 0);
    };
    let mut text = MemSink::new(alloc);
    let counted = (Blank::new(1), Blank::new(1));
    match compared::<Brand, Brand>(alloc, asked, file, other, &mut text, counted) {
        Ok(same) => {
            let many = put_window(text.bytes(), from, out);
            plain(status_of(same), many)
        }
        Err(failure) => told_failure(failure),
    }
}
