//! `tfhd`: of which track a `traf` is, and what its samples inherit (ISO/IEC 14496-12, 8.8.7).
ghost use Rattle.std.specs.Prelude.{ℕ, ◌≡◌, ◌^◌, ◌≤◌, length, drop, IfOk, IfErr};
ghost use Rattle.mp4_frag.specs.words.Passing.{IsUpTo};
ghost use Rattle.mp4_boxes.specs.format.Bytes.{field};
ghost use Rattle.mp4_boxes.specs.format.BoxFaults.{Fails};
ghost use Rattle.mp4_boxes.specs.format.Layout.{column_values, default_base_is_moof, tfhd, tfhd_columns};
ghost use Rattle.mp4_boxes.specs.format.Layout.{has as has_flag};
ghost use Rattle.mp4_frag.specs.words.ColumnsRead.{head_room};
ghost use Rattle.mp4_frag.specs.format.FragmentSamples.{base_of as base_by};
ghost use Rattle.mp4_frag.specs.words.Reading.{IsHead, head_values, as_traf, inheritance};
ghost use Rattle.mp4_boxes.specs.format.FirstFault.{FirstNamed, leaf_tests};

use crate::columns::{behind, has, number_at, wide_at};
use crate::trex::Trex;
use mp4_boxes::{Kind, front, u32_at};

const BASE_DATA_OFFSET: u32 = 0x00_0001;

const DESCRIPTION: u32 = 0x00_0002;

const DURATION: u32 = 0x00_0008;

const SIZE: u32 = 0x00_0010;

const FLAGS: u32 = 0x00_0020;

const BASE_IS_MOOF: u32 = 0x02_0000;

const KNOWN: u32 = 0x03_003B;

/// What a `tfhd` says.
#[derive(Clone, Copy)]
pub(crate) struct TrafHead {
    pub(crate) id: u32,
    pub(crate) base: Option<u64>,
    pub(crate) description: Option<u32>,
    pub(crate) duration: Option<u32>,
    pub(crate) size: Option<u32>,
    pub(crate) flags: Option<u32>,
    pub(crate) base_is_moof: bool,
}

/// What the samples of a `traf` have where their run doesn't say it.
#[derive(Clone, Copy)]
pub(crate) struct Inherited {
    pub(crate) description: u32,
    pub(crate) duration: u32,
    pub(crate) size: u32,
    pub(crate) flags: u32,
}

// How many bytes a `tfhd` of these flags needs.
#[tactic(auto, using(crate::proofs::ColumnValues::tfhd_width))]
fn head_size(bits: u32) -> usize
    ensures { result ≡ head_room bits }
{
    let description = behind(8, 8, has(bits, BASE_DATA_OFFSET));
    let duration = behind(description, 4, has(bits, DESCRIPTION));
    let size = behind(duration, 4, has(bits, DURATION));
    let flags = behind(size, 4, has(bits, SIZE));
    behind(flags, 4, has(bits, FLAGS))
}

// The values of a `tfhd` of these flags.
#[tactic(auto, using(crate::proofs::ColumnValues::tfhd_width))]
fn head_of(payload: &[u8], bits: u32) -> TrafHead
    requires { head_room bits ≤ length payload.now }
    ensures id { result.id ≡ field payload.now 4 4 }
    ensures values { head_values result ≡ column_values bits tfhd_columns (drop 8 payload.now) }
    ensures base_is_moof { result.base_is_moof ≡ has_flag bits default_base_is_moof }
{
    let has_base = has(bits, BASE_DATA_OFFSET);
    let has_description = has(bits, DESCRIPTION);
    let has_duration = has(bits, DURATION);
    let has_size = has(bits, SIZE);
    let has_flags = has(bits, FLAGS);
    let description = behind(8, 8, has_base);
    let duration = behind(description, 4, has_description);
    let size = behind(duration, 4, has_duration);
    let flags = behind(size, 4, has_size);
    TrafHead {
        id: u32_at(payload, 4),
        base: wide_at(payload, 8, has_base),
        description: number_at(payload, description, has_description),
        duration: number_at(payload, duration, has_duration),
        size: number_at(payload, size, has_size),
        flags: number_at(payload, flags, has_flags),
        base_is_moof: has(bits, BASE_IS_MOOF),
    }
}

/// What the `tfhd` says.
pub(crate) fn read_head(payload: &[u8]) -> Result<TrafHead, Kind>
    ensures head { IfOk result (IsHead payload.now) }
    ensures fault { IfErr result (Fails tfhd payload.now) }
    ensures exact { FirstNamed (leaf_tests tfhd payload.now) result }
{
    let (version, bits) = front(payload)?;
    if version != 0 {
        return Err(Kind::BadVersion);
    }
    if bits & KNOWN != bits {
        return Err(Kind::BadFlags);
    }
    if payload.len() < head_size(bits) {
        return Err(Kind::ShortBox);
    }
    Ok(head_of(payload, bits))
}

/// What the samples of the `traf` inherit: from its `tfhd`, else from the `trex` of its track.
pub(crate) fn what_is_inherited(head: TrafHead, trex: Trex) -> Inherited
    ensures { result ≡ inheritance (as_traf head) trex }
{
    Inherited {
        description: head.description.unwrap_or(trex.description),
        duration: head.duration.unwrap_or(trex.duration),
        size: head.size.unwrap_or(trex.size),
        flags: head.flags.unwrap_or(trex.flags),
    }
}

// Before the first `traf`.
pub(crate) fn nothing_inherited() -> Inherited
    ensures { result ≡ record { description = 0; duration = 0; size = 0; flags = 0 } }
{
    Inherited {
        description: 0,
        duration: 0,
        size: 0,
        flags: 0,
    }
}

/// Where the runs of the `traf` are counted from, in a `moof` at this place, where the data of the
/// `traf` before ends there.
pub(crate) fn base_of(head: TrafHead, moof: u64, before: i128) -> i128
    ensures is { result ≡ base_by moof before (as_traf head) }
    ensures bound { (n : ℕ) → 2 ^ 64 ≤ n → IsUpTo n before → IsUpTo n result }
{
    match head.base {
        Some(base) => i128::from(base),
        None if head.base_is_moof => i128::from(moof),
        None => before,
    }
}
