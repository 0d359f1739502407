//! What becomes of a file that has a box which the profile refuses: whether the copy is accepted
//! that `strip --foreign` makes of it, or what is wrong with that.
use mp4_answers::commands::check::check_counted;
use mp4_answers::commands::stripped_store::{WithoutForeign, read_without_foreign};
use mp4_answers::text::fault_text::fault_line;
use mp4_boxes::{Refusal, Steps};
use mp4_store::Store;
use std::alloc::{AllocError, Global};
use std::sync::ledger::Ledger;

/// How the line of a refusal begins.
const REFUSED: &[u8] = b"refused: ";

/// How copies are asked for: such a one in which nothing is lost, and one in which something is.
const WHOLE: &[u8] = b"; with --foreign, or copied by strip --foreign, ";

const LOSSY: &[u8] = b"; with --foreign --lossy, or copied by strip --foreign --lossy, ";

// What is said of a copy, if it has no fault, or which one.
fn text_of(alloc: Global, asked: &[u8], refusal: Option<Refusal>) -> Result<Vec<u8>, AllocError> {
    let mut text = Vec::new(alloc);
    text.extend_from_slice(asked)?;
    let Some(refusal) = refusal else {
        text.extend_from_slice(b"the file is accepted")?;
        return Ok(text);
    };
    let line = fault_line(&refusal);
    let fault = line.as_bytes();
    text.extend_from_slice(b"there is still ")?;
    text.extend_from_slice(fault.strip_prefix(REFUSED).unwrap_or(fault))?;
    Ok(text)
}

// What is said of a copy that was judged; a failure stays one.
fn said_of(alloc: Global, asked: &[u8], answer: Result<(), Refusal>) -> Result<Vec<u8>, Refusal> {
    let fault = match answer {
        Ok(()) => None,
        Err(Refusal::Fault(fault)) => Some(Refusal::Fault(fault)),
        Err(refusal) => return Err(refusal),
    };
    Ok(text_of(alloc, asked, fault)?)
}

// Judges the copy in which something is lost.
fn lossy_remedy<S: Store + Drop, L: Ledger, M: Ledger>(
    alloc: Global,
    store: S,
    steps: &mut Steps<L, M>,
) -> Result<Vec<u8>, Refusal> {
    let (mut copy, found) = read_without_foreign(alloc, true, store);
    let answer = match found {
        Ok(_) => check_counted(alloc, &mut copy, steps),
        Err(refusal) => Err(refusal),
    };
    said_of(alloc, LOSSY, answer)
}

/// What is said of a file behind the meaning of a box that the profile refuses: whether its copy is
/// accepted in which such boxes are free space, or which fault that has; where something is lost
/// with one, of the copy that has to be asked for by name.
pub(crate) fn remedy_of<S: Store + Drop, L: Ledger, M: Ledger>(
    alloc: Global,
    store: S,
    steps: &mut Steps<L, M>,
) -> Result<Vec<u8>, Refusal> {
    let (mut copy, found) = read_without_foreign(alloc, false, store);
    let answer = match found {
        Ok(WithoutForeign { refusal: None, .. }) => check_counted(alloc, &mut copy, steps),
        Ok(_) => return lossy_remedy(alloc, copy, steps),
        Err(refusal) => Err(refusal),
    };
    said_of(alloc, WHOLE, answer)
}
