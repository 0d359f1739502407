//! `trun`: samples that lie one after the other (ISO/IEC 14496-12, 8.8.8).
ghost use Rattle.std.specs.Prelude.{◌≡◌, ◌≤◌, ◌∷◌, [], length, drop, option_map, IfOk, IfErr};
ghost use Rattle.byteorder.specs.Endian.{twos_complement};
ghost use Rattle.mp4_boxes.specs.format.BoxFaults.{Fails};
ghost use Rattle.mp4_boxes.specs.declared.fault.Kind.TheVariants as kinds;
ghost use Rattle.mp4_boxes.specs.format.Layout.{column_values, trun, trun_columns};
ghost use Rattle.mp4_frag.specs.words.ColumnsRead.{rows_from};
ghost use Rattle.mp4_frag.specs.words.Reading.{IsRun};
ghost use Rattle.mp4_boxes.specs.format.FirstFault.{FirstNamed};
ghost use Rattle.mp4_frag.specs.words.FragmentTests.{shape_tests};

use crate::columns::{behind, has, number_at};
use crate::run_rows::{FIRST_FLAGS, ROW_FLAGS, row_size};
use mp4_boxes::{Kind, front, u32_at};

const DATA_OFFSET: u32 = 0x00_0001;

const KNOWN: u32 = 0x00_0F05;

/// What a `trun` says, and where its rows begin in its payload.
#[derive(Clone, Copy)]
pub(crate) struct Run {
    pub(crate) count: u32,
    pub(crate) data_offset: Option<i32>,
    pub(crate) first_flags: Option<u32>,
    pub(crate) bits: u32,
    /// Whether composition offsets are signed.
    pub(crate) is_signed: bool,
    pub(crate) rows: usize,
}

// Where the rows begin.
#[tactic(auto, using(crate::proofs::ColumnValues::trun_width))]
fn rows_place(bits: u32) -> usize
    ensures is { result ≡ rows_from bits }
    ensures small { (8 ≤ result) × (result ≤ 16) }
{
    let first_flags = behind(8, 4, has(bits, DATA_OFFSET));
    behind(first_flags, 4, has(bits, FIRST_FLAGS))
}

// The offset of the data from the base, and the flags of the first sample.
#[tactic(auto, using(crate::proofs::ColumnValues::trun_width))]
fn values_of(payload: &[u8], bits: u32) -> (Option<u32>, Option<u32>)
    requires { rows_from bits ≤ length payload.now }
    ensures { result.0 ∷ result.1 ∷ [] ≡ column_values bits trun_columns (drop 8 payload.now) }
{
    let has_offset = has(bits, DATA_OFFSET);
    let has_flags = has(bits, FIRST_FLAGS);
    let first_flags = behind(8, 4, has_offset);
    (
        number_at(payload, 8, has_offset),
        number_at(payload, first_flags, has_flags),
    )
}

// An offset as two's complement.
#[inline]
pub(crate) fn signed(offset: Option<u32>) -> Option<i32>
    ensures { result ≡ option_map (twos_complement 4) offset }
{
    match offset {
        Some(offset) => Some(offset.cast_signed()),
        None => None,
    }
}

/// What the `trun` says.
pub(crate) fn read_run(payload: &[u8]) -> Result<Run, Kind>
    ensures run { IfOk result (IsRun payload.now) }
    ensures fault { IfErr result (Fails trun payload.now) }
    ensures unread { IfErr result (λ kind. kind ≡ kinds.OffsetTooLarge → ⊥) }
    ensures exact { FirstNamed (shape_tests trun payload.now) result }
{
    let (version, bits) = front(payload)?;
    if version > 1 {
        return Err(Kind::BadVersion);
    }
    if bits & KNOWN != bits {
        return Err(Kind::BadFlags);
    }
    if has(bits, FIRST_FLAGS) && has(bits, ROW_FLAGS) {
        return Err(Kind::BadFlags);
    }
    let rows = rows_place(bits);
    if payload.len() < rows {
        return Err(Kind::ShortBox);
    }
    let count = u32_at(payload, 4);
    if payload.len() < rows + count as usize * row_size(bits) {
        return Err(Kind::ShortBox);
    }
    let (data_offset, first_flags) = values_of(payload, bits);
    Ok(Run {
        count,
        data_offset: signed(data_offset),
        first_flags,
        bits,
        is_signed: version == 1,
        rows,
    })
}
