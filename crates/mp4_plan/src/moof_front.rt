//! The boxes of a `moof` as far as the rows of `trun` (ISO/IEC 14496-12, 8.8.4 to 8.8.8 and
//! 8.8.12).
ghost use Rattle.std.specs.Prelude.{◌≡◌, ◌+◌, ◌^◌, ◌≤◌, ◌++◌, length};
ghost use Rattle.mp4_boxes.specs.format.Written.{header_length};
ghost use Rattle.mp4_plan.specs.words.Spelling.{bit_of, bit_without, bit_if, mfhd_front, head_bits, tfhd_front, tfdt_front, run_bits, trun_front, moof_front};

use crate::moof_sizes::{MFHD_SIZE, MoofSizes, TFDT_SIZE, short};
use crate::offsets::data_offset;
use crate::planner::Planned;
use crate::short_bytes::Spelled;
use mp4_boxes::FourCc;

/// What a piece says once.
#[derive(Clone, Copy, Debug, PartialEq, Eq)]
pub(crate) struct PieceHead {
    pub(crate) sequence: u32,
    pub(crate) id: u32,
    /// The decode time and the description index of the first sample.
    pub(crate) time: u64,
    pub(crate) description: u32,
}

// A bit of flags, set where the number is there.
fn bit_of(number: Option<u32>, bit: u32) -> u32
    ensures is { result ≡ bit_of number bit }
    ensures small { result ≤ bit }
{
    if number.is_some() { bit } else { 0 }
}

// A bit of flags, set where the number is not there.
fn bit_without(number: Option<u32>, bit: u32) -> u32
    ensures is { result ≡ bit_without number bit }
    ensures small { result ≤ bit }
{
    if number.is_none() { bit } else { 0 }
}

// A bit of flags, set where it says so.
fn bit_if(is_set: bool, bit: u32) -> u32
    ensures is { result ≡ bit_if is_set bit }
    ensures small { result ≤ bit }
{
    if is_set { bit } else { 0 }
}

// `mfhd` with its sequence number.
fn push_mfhd(out: &mut Spelled, sequence: u32)
    requires { length out.old ≤ 104 }
    ensures is { out.new ≡ out.old ++ mfhd_front sequence }
    ensures length { length out.new ≡ length out.old + 16 }
{
    out.push_box(FourCc(*b"mfhd"), MFHD_SIZE);
    out.push_u32(0);
    out.push_u32(sequence);
}

// The flags of `tfhd`: default-base-is-moof, the description index, and what all samples have in
// common.
fn head_bits(planned: &Planned) -> u32
    ensures { result ≡ head_bits planned.now }
{
    let durations = bit_of(planned.duration, 0x8);
    let sizes = bit_of(planned.size, 0x10);
    let flags = bit_of(planned.flags, 0x20);
    0x2_0002 + durations + sizes + flags
}

// `tfhd` with these flags.
fn push_tfhd(out: &mut Spelled, head: &PieceHead, planned: &Planned, bits: u32, size: u32)
    requires { length out.old ≤ 92 }
    ensures is { out.new ≡ out.old ++ tfhd_front head.now planned.now bits size }
    ensures short { length out.new ≤ length out.old + 32 }
{
    out.push_box(FourCc(*b"tfhd"), size);
    out.push_u32(bits);
    out.push_u32(head.id);
    out.push_u32(head.description);
    out.push_option(planned.duration);
    out.push_option(planned.size);
    out.push_option(planned.flags);
}

// `tfdt` of version 1.
fn push_tfdt(out: &mut Spelled, time: u64)
    requires { length out.old ≤ 104 }
    ensures is { out.new ≡ out.old ++ tfdt_front time }
    ensures length { length out.new ≡ length out.old + 20 }
{
    out.push_box(FourCc(*b"tfdt"), TFDT_SIZE);
    out.push_u32(0x100_0000);
    out.push_u64(time);
}

// Version and flags of `trun`: data_offset, and the columns that the samples don't have in common.
fn run_bits(planned: &Planned) -> u32
    ensures { result ≡ run_bits planned.now }
{
    let durations = bit_without(planned.duration, 0x100);
    let sizes = bit_without(planned.size, 0x200);
    let flags = bit_without(planned.flags, 0x400);
    let offsets = bit_if(planned.has_offsets, 0x800);
    0x100_0001 + durations + sizes + flags + offsets
}

// Where the data of a piece begins, as it is written.
fn data_place(moof: u32, payload: u64) -> u32
    requires { moof ≤ 2 ^ 30 }
    ensures { result ≡ moof + header_length payload }
{
    data_offset(moof, payload).cast_unsigned()
}

// `trun` with these version and flags as far as its rows.
fn push_trun(out: &mut Spelled, bits: u32, count: u32, data_offset: u32, size: u32)
    requires { length out.old ≤ 104 }
    ensures is { out.new ≡ out.old ++ trun_front bits count data_offset size }
    ensures length { length out.new ≡ length out.old + 20 }
{
    out.push_box(FourCc(*b"trun"), size);
    out.push_u32(bits);
    out.push_u32(count);
    out.push_u32(data_offset);
}

/// A `moof` of these sizes as far as the rows of `trun`, at most 124 bytes.
pub(crate) fn moof_front(head: &PieceHead, planned: &Planned, sizes: &MoofSizes) -> Spelled
    requires { sizes.now.moof ≤ 2 ^ 30 }
    ensures { result ≡ moof_front head.now planned.now sizes.now }
{
    let mut out = Spelled::new();
    out.push_box(FourCc(*b"moof"), short(sizes.moof));
    push_mfhd(&mut out, head.sequence);
    out.push_box(FourCc(*b"traf"), short(sizes.traf));
    let bits = head_bits(planned);
    push_tfhd(&mut out, head, planned, bits, short(sizes.tfhd));
    push_tfdt(&mut out, head.time);
    let bits = run_bits(planned);
    let place = data_place(sizes.moof as u32, planned.bytes);
    push_trun(&mut out, bits, planned.count, place, short(sizes.trun));
    out
}
