//! The box of sizes, read and judged: `stsz` or `stz2` (ISO/IEC 14496-12, 8.7.3).
ghost use Rattle.std.specs.Prelude.{◌≡◌, ◌+◌, ◌*◌, [], ◌∷◌, codes, if◌then◌else◌, IfOk, MatchOption, false};
ghost use Rattle.std.specs.Int.{div_ceil};
ghost use Rattle.mp4_boxes.specs.format.Children.{count_among};
ghost use Rattle.mp4_boxes.specs.format.Layout.{is_size_bits};
ghost use Rattle.mp4_boxes.specs.format.FirstFault.{NamesFirst};
ghost use Rattle.mp4_boxes.specs.words.View.{box_seen};
ghost use Rattle.mp4_tables.specs.words.RowTests.{size_tests};
ghost use Rattle.mp4_tables.specs.words.Leaves.{boxes_of, HasTables, IsFirstOf, SizesRead, IsFormOf};

use crate::leaves::{Limits, first_of, only_of, place_in, version_of};
use crate::places::{RowsAt, SizeForm, SizesAt};
use mp4_boxes::{BoxView, Fault, FourCc, Kind, u32_at};

// The sizes of `stsz`: one for all samples, or each.
fn read_words(stbl: BoxView, leaf: BoxView, limits: Limits) -> Result<SizesAt, Fault>
    requires tables { HasTables (box_seen stbl) }
    requires first { IsFirstOf (codes "stsz") (boxes_of (box_seen stbl)) (box_seen leaf) }
    ensures sizes { IfOk result (SizesRead limits (box_seen stbl.entry)) }
    ensures exact { NamesFirst (size_tests limits (box_seen stbl.entry)) result }
{
    version_of(leaf, 0)?;
    let payload = leaf.payload();
    if payload.len() < 12 {
        return Err(leaf.fault(Kind::ShortBox));
    }
    let size = u32_at(payload, 4);
    let count = u32_at(payload, 8);
    let place = place_in(stbl, leaf) + 12;
    let rows = RowsAt { place, count };
    if size == 0 {
        if payload.len() - 12 < 4 * count as usize {
            return Err(leaf.fault(Kind::ShortBox));
        }
        if count > limits.room {
            return Err(leaf.fault(Kind::TooManySamples));
        }
        return Ok(SizesAt {
            form: SizeForm::Words,
            rows,
        });
    }
    if count > limits.room {
        return Err(leaf.fault(Kind::TooManySamples));
    }
    Ok(SizesAt {
        form: SizeForm::One(size),
        rows,
    })
}

// The form of compact sizes of so many bits.
fn compact_form(bits: u8) -> Option<SizeForm>
    ensures { MatchOption result (is_size_bits bits ≡ false) (λ form. IsFormOf form bits) }
{
    match bits {
        4 => Some(SizeForm::HalfBytes),
        8 => Some(SizeForm::Bytes),
        16 => Some(SizeForm::Shorts),
        _ => None,
    }
}

// How many bytes so many compact sizes take.
fn compact_len(bits: u8, count: u32) -> u64
    ensures { result ≡ (if is_size_bits bits then div_ceil (count * bits) 8 else 0) }
{
    if bits == 4 || (bits == 8 || bits == 16) {
        (u64::from(count) * u64::from(bits)).div_ceil(8)
    } else {
        0
    }
}

// The sizes of `stz2`.
fn read_compact(stbl: BoxView, leaf: BoxView, limits: Limits) -> Result<SizesAt, Fault>
    requires tables { HasTables (box_seen stbl) }
    requires none { count_among (codes "stsz" ∷ []) (boxes_of (box_seen stbl)) ≡ 0 }
    requires first { IsFirstOf (codes "stz2") (boxes_of (box_seen stbl)) (box_seen leaf) }
    ensures sizes { IfOk result (SizesRead limits (box_seen stbl.entry)) }
    ensures exact { NamesFirst (size_tests limits (box_seen stbl.entry)) result }
{
    version_of(leaf, 0)?;
    let payload = leaf.payload();
    if payload.len() < 12 {
        return Err(leaf.fault(Kind::ShortBox));
    }
    let bits = payload[7];
    let count = u32_at(payload, 8);
    if ((payload.len() - 12) as u64) < compact_len(bits, count) {
        return Err(leaf.fault(Kind::ShortBox));
    }
    if count > limits.room {
        return Err(leaf.fault(Kind::TooManySamples));
    }
    match compact_form(bits) {
        Some(form) => {
            let place = place_in(stbl, leaf) + 12;
            Ok(SizesAt {
                form,
                rows: RowsAt { place, count },
            })
        }
        None => Err(leaf.fault(Kind::BadValue)),
    }
}

// The sizes of the samples.
pub(crate) fn read_sizes(stbl: BoxView, limits: Limits) -> Result<SizesAt, Fault>
    requires { HasTables (box_seen stbl) }
    ensures sizes { IfOk result (SizesRead limits (box_seen stbl.entry)) }
    ensures exact { NamesFirst (size_tests limits (box_seen stbl.entry)) result }
{
    match first_of(stbl, FourCc(*b"stsz")) {
        Some(leaf) => read_words(stbl, leaf, limits),
        None => read_compact(stbl, only_of(stbl, FourCc(*b"stz2")), limits),
    }
}
