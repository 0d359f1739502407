//! `edts` and `elst`: which parts of the media are shown, in which order (ISO/IEC 14496-12, 8.6.5
//! and 8.6.6).
ghost use Rattle.std.specs.Prelude.{◌≡◌, ◌+◌, ◌*◌, ◌≤◌, ◌⊎◌, ℕ, suc, List, length, map, Some, IfOk, IfErr, MatchResult, None};
ghost use Rattle.mp4_boxes.specs.format.Bytes.{numbers, signed_field};
ghost use Rattle.mp4_boxes.specs.format.Layout.{elst, row, row_count, time_width};
ghost use Rattle.mp4_boxes.specs.words.View.{box_seen};
ghost use Rattle.mp4_boxes.specs.format.FirstFault.{leaf_fault};
ghost use Rattle.mp4_head.specs.words.Leaves.{IsFaultOf, IsOpen};
ghost use Rattle.mp4_head.specs.words.Seen.{edit_seen};
ghost use Rattle.mp4_head.specs.format.Tree.{edit_of, edits_of};
ghost use Rattle.mp4_boxes.specs.format.Places.{ruled};
ghost use Rattle.mp4_boxes.specs.declared.rule.Rule.TheVariants.{Edits};
ghost use Rattle.mp4_head.specs.words.Containers.{SaysEdits};
ghost use Rattle.mp4_head.specs.format.FirstFault.{fault_within};
ghost use Rattle.mp4_head.specs.words.FaultNamed.{NamesRefused};
ghost use Rattle.mp4_head.specs.words.Refuses.{place_of};

use crate::leaves::{i16_at, is, open, time_at};
use mp4_boxes::{
    BoxView, Fault, FourCc, Kind, Refusal, Rule, check_children, i32_at, i64_at, u32_at,
};
use std::alloc::Global;

/// An entry of `elst`.
#[derive(Clone, Copy, Debug, PartialEq, Eq)]
pub struct Edit {
    /// In the movie's timescale.
    pub segment_duration: u64,
    /// In the media's timescale; -1 is an empty edit.
    pub media_time: i64,
    pub rate_integer: i16,
    pub rate_fraction: i16,
}

// A time that may be below 0.
fn signed_time_at(bytes: &[u8], place: usize, width: usize) -> i64
    requires room { place + width ≤ length bytes.now }
    requires width { (width ≡ 4) ⊎ (width ≡ 8) }
    ensures { result ≡ signed_field bytes.now place width }
{
    if width == 4 {
        return i64::from(i32_at(bytes, place));
    }
    i64_at(bytes, place)
}

// The edit in front of the bytes.
fn first_edit(bytes: &[u8], width: usize) -> Edit
    requires room { 2 * width + 4 ≤ length bytes.now }
    requires width { (width ≡ 4) ⊎ (width ≡ 8) }
    ensures { (v : ℕ) → width ≡ time_width v
        → edit_seen result ≡ edit_of v (numbers (row elst v) bytes.now) }
{
    Edit {
        segment_duration: time_at(bytes, 0, width),
        media_time: signed_time_at(bytes, width, width),
        rate_integer: i16_at(bytes, 2 * width),
        rate_fraction: i16_at(bytes, 2 * width + 2),
    }
}

// How many rows there are, and how many bytes a time in them takes.
fn open_edit_list(view: BoxView) -> Result<(usize, usize), Fault>
    ensures open { IfOk result (λ r. IsOpen 1 8 0 (box_seen view.entry).payload r.1) }
    ensures either { IfOk result (λ r. (r.1 ≡ 4) ⊎ (r.1 ≡ 8)) }
    ensures count { IfOk result (λ r. r.0 ≡ row_count elst (box_seen view.entry).payload) }
    ensures room { IfOk result (λ r. 8 + r.0 * (2 * r.1 + 4)
        ≤ length (box_seen view.entry).payload) }
    ensures fault { IfErr result (IsFaultOf elst (box_seen view.entry)) }
    ensures exact { MatchResult result (λ h. leaf_fault elst (box_seen view.entry) ≡ None)
        (λ f. leaf_fault elst (box_seen view.entry) ≡ Some f) }
{
    let width = open(view, 1, 8, 0)?;
    let count = u32_at(view.payload(), 4) as usize;
    if view.payload().len() - 8 < count * (2 * width + 4) {
        return Err(view.fault(Kind::ShortBox));
    }
    Ok((count, width))
}

// The rows of an `elst`.
fn read_edit_list(alloc: Global, view: BoxView) -> Result<Vec<Edit>, Refusal>
    ensures edits { IfOk result (λ edits. map edit_seen edits.items
        ≡ edits_of (Some (box_seen view.entry).payload)) }
    ensures exact { NamesRefused (leaf_fault elst (box_seen view.entry)) result }
{
    let (count, width) = open_edit_list(view)?;
    let mut edits = Vec::with_capacity(alloc, count)?;
    let (_, mut rest) = view.payload().split_at(8);
    for _row in 0..count {
        edits.push(first_edit(rest, width))?;
        let (_, more) = rest.split_at(2 * width + 4);
        rest = more;
    }
    Ok(edits)
}

// The edits in an `edts`.
pub(crate) fn read_edits(alloc: Global, edts: BoxView) -> Result<Vec<Edit>, Refusal>
    ensures edits { IfOk result
        (λ edits. SaysEdits (box_seen edts.entry) (map edit_seen edits.items)) }
    ensures exact { (n : ℕ) (ids : List ℕ) → NamesRefused
        (fault_within (suc n) ids (place_of (ruled Edits) (box_seen edts.entry))) result }
{
    let mut edits = Vec::new(alloc);
    for child in check_children(edts, Rule::Edits)? {
        if is(child, FourCc(*b"elst")) {
            edits = read_edit_list(alloc, child)?;
        }
    }
    Ok(edits)
}
