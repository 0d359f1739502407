//! What is said of a refusal: a line on standard error, and a status.
ghost use Rattle.std.specs.Prelude.{◌≡◌};
ghost use Rattle.mp4_answers.specs.format.Texts.{fault_line, status_of};

use crate::text::line::Line;
use mp4_boxes::{FourCc, Refusal};

/// What is said of a refusal, without the line feed: its text, in a line of its own.
pub fn fault_line(refusal: &Refusal) -> Line
    ensures { result ≡ fault_line refusal.now }
{
    let mut line = Line::new();
    match refusal {
        Refusal::Fault(fault) => {
            let box_type = fault.box_type;
            line.push_bytes(b"refused: ");
            line.push_bytes(fault.kind.name().as_bytes());
            line.push_bytes(b" in ");
            line.push_type(FourCc(box_type));
            line.push_bytes(b" at ");
            line.push_number(fault.offset);
        }
        Refusal::Memory => line.push_bytes(b"failed: memory"),
        Refusal::StoreFailed => line.push_bytes(b"failed: store"),
        Refusal::StoreChanged => line.push_bytes(b"failed: store changed"),
        Refusal::WriteFailed => line.push_bytes(b"failed: write"),
        Refusal::NoSuchTrack => line.push_bytes(b"failed: no such track"),
    }
    line
}

/// The status that the program ends with after a refusal.
pub fn status(refusal: &Refusal) -> u8
    ensures { result ≡ status_of refusal.now }
{
    match refusal {
        Refusal::Fault(_) => 1,
        Refusal::Memory => 2,
        Refusal::StoreFailed | Refusal::StoreChanged | Refusal::WriteFailed => 3,
        Refusal::NoSuchTrack => 4,
    }
}
