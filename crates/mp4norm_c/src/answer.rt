//! What an export says, in numbers.
ghost use Rattle.std.specs.Prelude.{◌≡◌};
ghost use Rattle.mp4norm_c.specs.format.Exports.{fault_told, kind_number, plain, told};

use mp4_boxes::{Fault, Kind, Refusal, u32_at};

/// What an export says: a status, and the fault where it is 1.
#[repr(C)]
#[derive(Clone, Copy)]
pub struct Answer {
    /// 0: there is an answer; 1: a file is refused for a fault; 2: no memory was to be had; 4: no
    /// track has this ID; 5: the files differ, which only a comparison says; 64: what was asked for
    /// is unknown.
    pub status: u32,
    /// The number of the kind of fault, from 1 to 23; 0 without one.
    pub kind: u32,
    /// The type of the box that is named, its first byte highest; 0 without a fault.
    pub box_type: u32,
    /// Of two files that are compared the one at fault: 0 is the first, 1 the second. Else 0.
    pub file: u32,
    /// The place of the first byte of that box.
    pub offset: u64,
    /// How many bytes there are.
    pub len: u64,
}

/// A digest under SHA-256 (FIPS 180-4).
#[repr(C)]
#[derive(Clone, Copy)]
pub struct Digest {
    pub bytes: [u8; 32],
}

// The number of a kind of fault.
fn number_of(kind: Kind) -> u32
    ensures { result ≡ kind_number kind }
{
    match kind {
        Kind::ShortHeader => 1,
        Kind::BadSize => 2,
        Kind::Overrun => 3,
        Kind::ShortBox => 4,
        Kind::BoxNotInProfile => 5,
        Kind::DuplicateBox => 6,
        Kind::MissingBox => 7,
        Kind::BadVersion => 8,
        Kind::BadFlags => 9,
        Kind::BadValue => 10,
        Kind::OutsideData => 11,
        Kind::CountMismatch => 12,
        Kind::BadOrder => 13,
        Kind::BadDescriptionIndex => 14,
        Kind::SampleOutsideFile => 15,
        Kind::UnknownTrack => 16,
        Kind::Gap => 17,
        Kind::OffsetTooLarge => 18,
        Kind::ItemLocation => 19,
        Kind::TooManySamples => 20,
        Kind::TimeTooLarge => 21,
        Kind::MovieTooLarge => 22,
        Kind::FragmentBeforeMovie => 23,
    }
}

/// An answer without a fault.
pub(crate) fn plain(status: u32, len: u64) -> Answer
    ensures { result ≡ plain status len }
{
    Answer {
        status,
        kind: 0,
        box_type: 0,
        file: 0,
        offset: 0,
        len,
    }
}

/// A fault in numbers, of the file with this number.
pub(crate) fn of_fault(fault: Fault, file: u32) -> Answer
    ensures { result ≡ fault_told file fault }
{
    Answer {
        status: 1,
        kind: number_of(fault.kind),
        box_type: u32_at(&fault.box_type, 0),
        file,
        offset: fault.offset,
        len: 0,
    }
}

/// A result in numbers.
pub(crate) fn told(done: Result<u64, Refusal>) -> Answer
    ensures { result ≡ told done }
{
    match done {
        Ok(len) => plain(0, len),
        Err(Refusal::Fault(fault)) => of_fault(fault, 0),
        Err(Refusal::Memory) => plain(2, 0),
        Err(Refusal::NoSuchTrack) => plain(4, 0),
        Err(Refusal::StoreFailed | Refusal::StoreChanged | Refusal::WriteFailed) => plain(3, 0),
    }
}
