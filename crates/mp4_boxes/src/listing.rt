//! Lists of boxes, checked as a whole before the first is handed out.
ghost use Rattle.std.specs.Prelude.{◌≡◌, ◌+◌, ◌^◌, ◌<◌, ◌≤◌, List, length, nat_lt, IfOk, IfErr, IsOkAnd};
ghost use Rattle.mp4_boxes.specs.format.Box.{Box, Tiles, HasBoxes, first_boxes, bytes_container, box_container, counted_container};
ghost use Rattle.mp4_boxes.specs.format.BoxFaults.{IsHeaderFault};
ghost use Rattle.mp4_boxes.specs.format.Children.{Holds, count_among, repeats, lacks};
ghost use Rattle.mp4_boxes.specs.words.Lines.{kinds_seen};
ghost use Rattle.mp4_boxes.specs.format.FirstFault.{counted_or_fault, IsJudged, boxes_or_fault, children_or_fault, no_tests};
ghost use Rattle.mp4_boxes.specs.words.View.{box_seen};

use crate::fault::{Fault, Kind};
use crate::four_cc::FourCc;
use crate::headers::read_header;
use crate::numbers::u32_at;
use crate::rule::{Rule, is_among};
use crate::sequence::Children;
use crate::view::BoxView;

/// The boxes that fill these bytes, which lie at the place `base` of the file in a container of
/// this type.
pub fn children<'a>(bytes: &'a [u8], base: u64, container: FourCc) -> Result<Children<'a>, Fault>
    requires { base + length bytes.now < 2 ^ 64 }
    ensures tiles { IfOk result (Tiles (bytes_container container.0 base bytes.entry.now)) }
    ensures only { (boxes : List Box)
        → Tiles (bytes_container container.0 base bytes.entry.now) boxes
        → IsOkAnd result (λ c. c ≡ boxes) }
    ensures fault { IfErr result
        (IsHeaderFault (bytes_container container.0 base bytes.entry.now)) }
    ensures exact { IsJudged
        (boxes_or_fault no_tests (bytes_container container.0 base bytes.entry.now)) result }
{
    let mut at = 0;
    let mut count = 0;
    while at < bytes.len() {
        let rest = &bytes[at..];
        let header = read_header(rest, rest.len() as u64, false, container, base + at as u64)?;
        at += header.size as usize;
        count += 1;
    }
    Ok(Children {
        bytes,
        base,
        left: count,
    })
}

/// The boxes behind the count of an `stsd` or `dref`, as many as are counted (8.5.2, 8.7.2).
pub fn counted<'a>(view: BoxView<'a>) -> Result<Children<'a>, Fault>
    requires { 8 ≤ length (box_seen view).payload }
    ensures tiles { IfOk result (Tiles (counted_container (box_seen view.entry))) }
    ensures only { (boxes : List Box) → Tiles (counted_container (box_seen view.entry)) boxes
        → IsOkAnd result (λ c. c ≡ boxes) }
    ensures fault { IfErr result (IsHeaderFault (counted_container (box_seen view.entry))) }
    ensures exact { IsJudged (counted_or_fault (counted_container (box_seen view.entry))) result }
{
    let payload = view.payload();
    let base = view.payload_offset() + 8;
    let (_, bytes) = payload.split_at(8);
    let due = u32_at(payload, 4);
    let mut at = 0;
    let mut count = 0u32;
    while count < due {
        let rest = &bytes[at..];
        let place = base + at as u64;
        let header = read_header(rest, rest.len() as u64, false, view.kind(), place)?;
        at += header.size as usize;
        count += 1;
    }
    Ok(Children {
        bytes,
        base,
        left: count as usize,
    })
}

// Whether a box of one of these types is among these.
fn stands(kinds: &[FourCc], boxes: Children) -> bool
    ensures { result ≡ nat_lt 0 (count_among (kinds_seen kinds.now) boxes.entry) }
{
    for child in boxes {
        if is_among(kinds, child.kind()) {
            return true;
        }
    }
    false
}

// Whether one of the first boxes in front of the bytes forbids another of this type.
fn repeats(rule: Rule, kind: FourCc, bytes: &[u8], base: u64, count: usize) -> bool
    requires has { HasBoxes count base bytes.now }
    requires fits { base + length bytes.now < 2 ^ 64 }
    ensures { result ≡ repeats rule (first_boxes count base bytes.now) kind.0 }
{
    for line in rule.lines() {
        let before = Children {
            bytes,
            base,
            left: count,
        };
        if line.is_single() && is_among(line.1, kind) && stands(line.1, before) {
            return true;
        }
    }
    false
}

// Whether a box that must stand is not among the first boxes in front of the bytes.
fn lacks(rule: Rule, bytes: &[u8], base: u64, count: usize) -> bool
    requires has { HasBoxes count base bytes.now }
    requires fits { base + length bytes.now < 2 ^ 64 }
    ensures { result ≡ lacks rule (first_boxes count base bytes.now) }
{
    for line in rule.lines() {
        let all = Children {
            bytes,
            base,
            left: count,
        };
        if line.is_needed() && !stands(line.1, all) {
            return true;
        }
    }
    false
}

/// The boxes of a container, where they are those that the table allows.
pub fn check_children<'a>(view: BoxView<'a>, rule: Rule) -> Result<Children<'a>, Fault>
    ensures holds { IfOk result (Holds rule (box_container (box_seen view.entry))) }
    ensures exact { IsJudged (children_or_fault rule (box_container (box_seen view.entry)))
        result }
{
    let bytes = view.payload();
    let base = view.payload_offset();
    let mut at = 0;
    let mut count = 0;
    while at < bytes.len() {
        let rest = &bytes[at..];
        let place = base + at as u64;
        let header = read_header(rest, rest.len() as u64, false, view.kind(), place)?;
        if !rule.allows(header.kind) {
            return Err(Fault::new(Kind::BoxNotInProfile, header.kind, place));
        }
        if repeats(rule, header.kind, bytes, base, count) {
            return Err(Fault::new(Kind::DuplicateBox, header.kind, place));
        }
        at += header.size as usize;
        count += 1;
    }
    if lacks(rule, bytes, base, count) {
        return Err(view.fault(Kind::MissingBox));
    }
    Ok(Children {
        bytes,
        base,
        left: count,
    })
}
