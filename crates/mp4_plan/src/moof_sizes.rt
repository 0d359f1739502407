//! How many bytes the boxes of a piece's `moof` take.
ghost use Rattle.std.specs.Prelude.{◌≡◌, ℕ, ◌-◌, ◌^◌, ◌<◌, ◌≤◌, length, slice_index, min};
ghost use Rattle.mp4_tables.specs.words.Keys.{keys_seen};
ghost use Rattle.mp4_plan.specs.words.Sizes.{own_size, row_size, group_size, groups_size, moof_sizes};

use crate::planner::Planned;
use mp4_tables::Keys;

/// The sizes of the boxes of a `moof`, headers and all.
#[derive(Clone, Copy, Debug, PartialEq, Eq)]
pub(crate) struct MoofSizes {
    pub(crate) tfhd: u64,
    pub(crate) trun: u64,
    pub(crate) traf: u64,
    pub(crate) moof: u64,
}

/// `tfdt` of version 1, and `mfhd`.
pub(crate) const TFDT_SIZE: u32 = 20;

pub(crate) const MFHD_SIZE: u32 = 16;

/// The bytes of a number that stands there only if it isn't common to all.
fn own(common: Option<u32>) -> u64
    ensures is { result ≡ own_size common }
    ensures small { result ≤ 4 }
{
    if common.is_none() { 4 } else { 0 }
}

/// The bytes of a row of `trun`.
pub(crate) fn row_size(planned: &Planned) -> u64
    ensures is { result ≡ row_size planned.now }
    ensures small { result ≤ 16 }
{
    let columns = own(planned.duration) + own(planned.size) + own(planned.flags);
    if planned.has_offsets {
        columns + 4
    } else {
        columns
    }
}

/// The size of an `sbgp` with so many rows.
pub(crate) fn group_size(parameter: Option<u32>, rows: u32) -> u64
    ensures is { result ≡ group_size parameter rows }
    ensures small { result < 2 ^ 36 }
{
    let fixed = if parameter.is_some() { 24 } else { 20 };
    fixed + 8 * u64::from(rows)
}

// The sizes of all `sbgp`s.
fn groups_size(planned: &Planned, keys: &Keys) -> u64
    ensures is { result ≡ groups_size planned.now.group_rows 0 (keys_seen keys.now) }
    ensures small { result ≤ 2 ^ 38 }
    ensures four { length (keys_seen keys.now) ≤ 4 }
{
    let mut total = 0;
    for j in 0..keys.count() {
        let rows = planned.rows_at(j);
        if rows > 0 {
            total += group_size(keys.key_at(j).parameter, rows);
        }
    }
    total
}

/// The sizes of the boxes of a piece with samples.
pub(crate) fn sizes_of(planned: &Planned, keys: &Keys) -> MoofSizes
    ensures is { result ≡ moof_sizes planned.now (keys_seen keys.now) }
    ensures short { result.moof < 2 ^ 40 }
    ensures small { planned.now.count ≤ 2 ^ 24
        → ((j : ℕ) → slice_index planned.now.group_rows j ≤ planned.now.count)
        → result.moof ≤ 2 ^ 30 }
{
    let tfhd = 32 - own(planned.duration) - own(planned.size) - own(planned.flags);
    let trun = 20 + row_size(planned) * u64::from(planned.count);
    let traf = 8 + tfhd + u64::from(TFDT_SIZE) + trun + groups_size(planned, keys);
    MoofSizes {
        tfhd,
        trun,
        traf,
        moof: 8 + u64::from(MFHD_SIZE) + traf,
    }
}

/// A size as it is written, as far as 32 bits go.
pub(crate) fn short(size: u64) -> u32
    ensures { result ≡ min size (2 ^ 32 - 1) }
{
    size.min(0xFFFF_FFFF) as u32
}
