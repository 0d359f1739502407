//! Sizes of samples: `stsz` and `stz2` (ISO/IEC 14496-12, 8.7.3).
ghost use Rattle.std.specs.Prelude.{ℕ, ◌≡◌, ◌+◌, ◌*◌, ◌≤◌, ◌<◌, slice_index, length, take, drop};
ghost use Rattle.mp4_boxes.specs.format.Bytes.{sum_of};
ghost use Rattle.mp4_tables.specs.words.Rows.{HaveSizes, sizes_at, sizes_in};
ghost use Rattle.mp4_tables.specs.declared.places.SizeForm.TheVariants as forms;

use crate::places::{RowsAt, SizeForm, SizesAt};
use mp4_boxes::{Ticket, u16_at, u32_at};

// Half byte `i`: of two in a byte the first is the high one.
#[inline]
#[tactic(auto, using(crate::proofs::RowLists::halves))]
fn half_at(payload: &[u8], rows: RowsAt, i: u32) -> u32
    requires room { 2 * rows.place + rows.count ≤ 2 * length payload.now }
    requires inside { i < rows.count }
    ensures { result ≡ slice_index (sizes_in forms.HalfBytes payload.now rows) i }
{
    let byte = payload[rows.place + (i / 2) as usize];
    if i % 2 == 0 {
        u32::from(byte / 16)
    } else {
        u32::from(byte % 16)
    }
}

/// The size of sample `i`, from 0.
#[inline(always)]
#[tactic(auto, using(crate::proofs::RowLists::whole_sizes))]
pub(crate) fn size_at(_ticket: Ticket, payload: &[u8], sizes: SizesAt, i: u32) -> u32
    requires room { HaveSizes payload.now sizes.form sizes.rows }
    requires inside { i < sizes.rows.count }
    ensures { result ≡ slice_index (sizes_at payload.now sizes) i }
{
    let rows = sizes.rows;
    match sizes.form {
        SizeForm::One(size) => size,
        SizeForm::Words => u32_at(payload, rows.place + 4 * i as usize),
        SizeForm::Shorts => u32::from(u16_at(payload, rows.place + 2 * i as usize)),
        SizeForm::Bytes => u32::from(payload[rows.place + i as usize]),
        SizeForm::HalfBytes => half_at(payload, rows, i),
    }
}

// The size of sample `i` where it stays apart from the loop of its caller.
#[cold]
#[inline(never)]
fn size_apart(ticket: Ticket, payload: &[u8], sizes: SizesAt, i: u32) -> u32
    requires room { HaveSizes payload.now sizes.form sizes.rows }
    requires inside { i < sizes.rows.count }
    ensures { result ≡ slice_index (sizes_at payload.now sizes) i }
{
    size_at(ticket, payload, sizes, i)
}

/// The size of sample `i`, from 0, for loops of a few instructions: what few files have, sizes in
/// fewer than 32 bits, stays apart from them. In the loops of a walk that costs more than it gains.
#[inline(always)]
#[tactic(auto, using(crate::proofs::RowLists::whole_sizes))]
pub(crate) fn checked_size_at(ticket: Ticket, payload: &[u8], sizes: SizesAt, i: u32) -> u32
    requires room { HaveSizes payload.now sizes.form sizes.rows }
    requires inside { i < sizes.rows.count }
    ensures { result ≡ slice_index (sizes_at payload.now sizes) i }
{
    match sizes.form {
        SizeForm::Words => u32_at(payload, sizes.rows.place + 4 * i as usize),
        SizeForm::One(size) => size,
        _ => size_apart(ticket, payload, sizes, i),
    }
}

// The sum of the sizes of so many samples, from sample `i` on, from 0.
pub(crate) fn bytes_of(payload: &[u8], sizes: SizesAt, i: u32, count: u32) -> u64
    requires room { HaveSizes payload.now sizes.form sizes.rows }
    requires inside { i + count ≤ sizes.rows.count }
    ensures is { result ≡ sum_of (λ (x : ℕ). x) (take count (drop i (sizes_at payload.now sizes))) }
{
    let mut sum: u64 = 0;
    for k in i..i + count {
        sum += u64::from(size_at(Ticket::of_place(), payload, sizes, k));
    }
    sum
}
