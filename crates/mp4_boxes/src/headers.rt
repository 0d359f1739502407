//! Box headers, read: of 8 or 16 bytes (ISO/IEC 14496-12, 4.2.2).
ghost use Rattle.std.specs.Prelude.{◌≡◌, ◌+◌, ◌^◌, ◌<◌, ◌≤◌, min, length, MatchResult, IfOk, IfErr, Ok, Err, true, codes};
ghost use Rattle.mp4_boxes.specs.format.BoxFaults.{header_there, type_of};
ghost use Rattle.mp4_boxes.specs.words.View.{header_seen, top_header_seen};

use crate::fault::{Fault, Kind};
use crate::four_cc::FourCc;
use crate::numbers::{u32_at, u64_at};

/// What a header says of its box.
#[derive(Clone, Copy, Debug, PartialEq, Eq)]
pub(crate) struct HeaderFields {
    pub(crate) kind: FourCc,
    /// 8 or 16.
    pub(crate) length: u8,
    /// The size of the box, its header included.
    pub(crate) size: u64,
}

/// The header of a box that lies in the file at a place.
#[derive(Clone, Copy, Debug, PartialEq, Eq)]
pub struct TopHeader {
    pub kind: FourCc,
    /// The length of the header, 8 or 16 bytes.
    pub header: u8,
    /// The place in the file of the first byte behind the box.
    pub end: u64,
}

// The type, behind the size.
pub(crate) fn kind_of(bytes: &[u8]) -> FourCc
    requires { 8 ≤ length bytes.now }
    ensures { result.0 ≡ type_of bytes.now }
{
    FourCc([bytes[4], bytes[5], bytes[6], bytes[7]])
}

// The header in front of these bytes, which lie at the place `at` of the file; `left` bytes are
// left there in the container, and `is_open` says that this is the file.
pub(crate) fn read_header(
    bytes: &[u8],
    left: u64,
    is_open: bool,
    container: FourCc,
    at: u64,
) -> Result<HeaderFields, Fault>
    requires { min left 16 ≤ length bytes.now }
    ensures { MatchResult result
        (λ h. header_there is_open left bytes.now container.0 at ≡ Ok (header_seen h))
        (λ f. header_there is_open left bytes.now container.0 at ≡ Err f) }
{
    if left < 8 {
        return Err(Fault::new(Kind::ShortHeader, container, at));
    }
    let kind = kind_of(bytes);
    let (length, size) = match u32_at(bytes, 0) {
        1 if left < 16 => return Err(Fault::new(Kind::ShortHeader, container, at)),
        1 => (16, u64_at(bytes, 8)),
        0 if is_open => (8, left),
        small => (8, u64::from(small)),
    };
    if size < u64::from(length) {
        return Err(Fault::new(Kind::BadSize, kind, at));
    }
    if left < size {
        return Err(Fault::new(Kind::Overrun, kind, at));
    }
    Ok(HeaderFields { kind, length, size })
}

/// The header of a box at the place `at` of the file, where `left` bytes are left in a container of
/// this type. The bytes are the first 16 of these, or all, or more of the file. The container is
/// open if it is the file: there a size of 0 goes to the end (ISO/IEC 14496-12, 4.2.2).
pub fn box_header(
    bytes: &[u8],
    at: u64,
    left: u64,
    is_open: bool,
    container: FourCc,
) -> Result<TopHeader, Fault>
    requires fits { at + left < 2 ^ 64 }
    requires there { min left 16 ≤ length bytes.now }
    ensures header { IfOk result (λ h. header_there is_open left bytes.now container.0 at
        ≡ Ok (top_header_seen at h)) }
    ensures long { IfOk result (λ h. 8 ≤ h.header) }
    ensures within { IfOk result (λ h. (at + h.header ≤ h.end) × (h.end ≤ at + left)) }
    ensures fault { IfErr result (λ f. header_there is_open left bytes.now container.0 at ≡ Err f) }
{
    let header = read_header(bytes, left, is_open, container, at)?;
    Ok(TopHeader {
        kind: header.kind,
        header: header.length,
        end: at + header.size,
    })
}

/// The header of a box of the file itself, at the place `at`, where `left` bytes are left in the
/// file. The bytes are the first 16 of these, or all.
pub fn top_header(bytes: &[u8], at: u64, left: u64) -> Result<TopHeader, Fault>
    requires fits { at + left < 2 ^ 64 }
    requires some { 0 < left }
    requires there { length bytes.now ≡ min left 16 }
    ensures header { IfOk result (λ h. header_there true left bytes.now (codes "file") at
        ≡ Ok (top_header_seen at h)) }
    ensures within { IfOk result (λ h. (at + h.header ≤ h.end) × (h.end ≤ at + left)) }
    ensures fault { IfErr result (λ f. header_there true left bytes.now (codes "file") at ≡ Err f) }
{
    box_header(bytes, at, left, true, FourCc::FILE)
}
