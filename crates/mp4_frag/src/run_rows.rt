//! A row of `trun`: what it says of one sample (ISO/IEC 14496-12, 8.8.8).
ghost use Rattle.std.specs.Prelude.{◌≡◌, ◌+◌, ◌≤◌, length, drop};
ghost use Rattle.mp4_boxes.specs.format.Layout.{column_values, sample_columns};
ghost use Rattle.mp4_frag.specs.words.ColumnsRead.{row_room};
ghost use Rattle.mp4_frag.specs.words.Reading.{SaysRow, row_values};

use crate::columns::{behind, has, number_at};
use crate::heads::Inherited;
use mp4_boxes::Ticket;

pub(crate) const FIRST_FLAGS: u32 = 0x00_0004;

const ROW_DURATION: u32 = 0x00_0100;

const ROW_SIZE: u32 = 0x00_0200;

pub(crate) const ROW_FLAGS: u32 = 0x00_0400;

const ROW_OFFSET: u32 = 0x00_0800;

/// What stands in a row.
#[derive(Clone, Copy)]
pub(crate) struct ReadRow {
    pub(crate) duration: Option<u32>,
    pub(crate) size: Option<u32>,
    pub(crate) flags: Option<u32>,
    pub(crate) offset: Option<u32>,
}

/// What a row says of its sample, or what that inherits where it doesn't say it.
#[derive(Clone, Copy)]
pub(crate) struct SaidRow {
    pub(crate) duration: u32,
    pub(crate) size: u32,
    pub(crate) flags: u32,
    /// The composition offset as it stands, 0 where there is none.
    pub(crate) offset: u32,
}

// How many bytes a row takes.
#[inline]
#[tactic(auto, using(crate::proofs::ColumnValues::row_width))]
pub(crate) fn row_size(bits: u32) -> usize
    ensures is { result ≡ row_room bits }
    ensures small { result ≤ 16 }
{
    let size = behind(0, 4, has(bits, ROW_DURATION));
    let flags = behind(size, 4, has(bits, ROW_SIZE));
    let offset = behind(flags, 4, has(bits, ROW_FLAGS));
    behind(offset, 4, has(bits, ROW_OFFSET))
}

// The row at a place.
#[inline]
pub(crate) fn row_at(_ticket: Ticket, bytes: &[u8], place: usize, bits: u32) -> ReadRow
    requires { place + row_room bits ≤ length bytes.now }
    ensures { row_values result ≡ column_values bits sample_columns (drop place bytes.now) }
{
    let has_duration = has(bits, ROW_DURATION);
    let has_size = has(bits, ROW_SIZE);
    let has_flags = has(bits, ROW_FLAGS);
    let has_offset = has(bits, ROW_OFFSET);
    let size = behind(place, 4, has_duration);
    let flags = behind(size, 4, has_size);
    let offset = behind(flags, 4, has_flags);
    ReadRow {
        duration: number_at(bytes, place, has_duration),
        size: number_at(bytes, size, has_size),
        flags: number_at(bytes, flags, has_flags),
        offset: number_at(bytes, offset, has_offset),
    }
}

// What the row at a place says, or what is inherited. Each value is settled where it is read: so
// whether it is there is tested once.
#[inline(always)]
pub(crate) fn said_at(
    _ticket: Ticket,
    bytes: &[u8],
    place: usize,
    bits: u32,
    inherited: Inherited,
) -> SaidRow
    requires { place + row_room bits ≤ length bytes.now }
    ensures { SaysRow inherited (column_values bits sample_columns (drop place bytes.now)) result }
{
    let has_duration = has(bits, ROW_DURATION);
    let duration = number_at(bytes, place, has_duration).unwrap_or(inherited.duration);
    let has_size = has(bits, ROW_SIZE);
    let size_place = behind(place, 4, has_duration);
    let size = number_at(bytes, size_place, has_size).unwrap_or(inherited.size);
    let has_flags = has(bits, ROW_FLAGS);
    let flags_place = behind(size_place, 4, has_size);
    let flags = number_at(bytes, flags_place, has_flags).unwrap_or(inherited.flags);
    let has_offset = has(bits, ROW_OFFSET);
    let offset_place = behind(flags_place, 4, has_flags);
    let offset = number_at(bytes, offset_place, has_offset).unwrap_or(0);
    SaidRow {
        duration,
        size,
        flags,
        offset,
    }
}
