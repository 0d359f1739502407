//! The children of an `stbl`: which box is which table, and where its rows lie.
ghost use Rattle.std.specs.Prelude.{◌≡◌, ◌+◌, ◌*◌, ◌-◌, ◌<◌, ◌≤◌, length, [], ◌∷◌, IfOk, MatchOption};
ghost use Rattle.mp4_boxes.specs.format.Children.{count_among};
ghost use Rattle.mp4_boxes.specs.format.Layout.{version as version_in};
ghost use Rattle.mp4_boxes.specs.words.View.{box_seen};
ghost use Rattle.mp4_boxes.specs.format.FirstFault.{NamesFirst, naming};
ghost use Rattle.mp4_tables.specs.words.RowTests.{version_tests, row_tests};
ghost use Rattle.mp4_tables.specs.words.Leaves.{boxes_of, HasTables, IsFirstOf, IsChild, RowsRead};

use crate::places::RowsAt;
use mp4_boxes::{BoxView, Children, Fault, FourCc, Kind, children, full, u32_at};

/// What the tables of a track are held against: the length of the file, the number of sample
/// descriptions, and how many samples are still allowed.
#[derive(Clone, Copy)]
pub(crate) struct Limits {
    pub(crate) file_len: u64,
    pub(crate) descriptions: u32,
    pub(crate) room: u32,
}

// The children of an `stbl`, whose list was checked before.
pub(crate) fn children_of<'a>(stbl: BoxView<'a>) -> Children<'a>
    requires { HasTables (box_seen stbl) }
    ensures { result ≡ boxes_of (box_seen stbl.entry) }
{
    match children(stbl.payload(), stbl.payload_offset(), stbl.kind()) {
        Ok(boxes) => boxes,
        Err(_) => unreachable!(),
    }
}

// The first child of a type.
pub(crate) fn first_of<'a>(stbl: BoxView<'a>, kind: FourCc) -> Option<BoxView<'a>>
    requires { HasTables (box_seen stbl) }
    ensures { MatchOption result (count_among (kind.0 ∷ []) (boxes_of (box_seen stbl.entry)) ≡ 0)
        (λ b. IsFirstOf kind.0 (boxes_of (box_seen stbl.entry)) (box_seen b)) }
{
    for child in children_of(stbl) {
        if child.kind() == kind {
            return Some(child);
        }
    }
    None
}

// The child of a type of which one stands there.
pub(crate) fn only_of<'a>(stbl: BoxView<'a>, kind: FourCc) -> BoxView<'a>
    requires tables { HasTables (box_seen stbl) }
    requires one { 0 < count_among (kind.0 ∷ []) (boxes_of (box_seen stbl)) }
    ensures { IsFirstOf kind.0 (boxes_of (box_seen stbl.entry)) (box_seen result) }
{
    match first_of(stbl, kind) {
        Some(child) => child,
        None => unreachable!(),
    }
}

// Where the payload of a child begins in that of its `stbl`.
pub(crate) fn place_in(stbl: BoxView, leaf: BoxView) -> usize
    requires { (box_seen stbl).offset + (box_seen stbl).header ≤ (box_seen leaf).offset
        + (box_seen leaf).header }
    ensures { (box_seen stbl.entry).offset + (box_seen stbl.entry).header + result
        ≡ (box_seen leaf.entry).offset + (box_seen leaf.entry).header }
{
    (leaf.payload_offset() - stbl.payload_offset()) as usize
}

// The version of a full box, if it is at most the last one that the profile knows.
pub(crate) fn version_of(leaf: BoxView, last: u8) -> Result<u8, Fault>
    ensures version { IfOk result (λ v. v ≡ version_in (box_seen leaf.entry).payload) }
    ensures known { IfOk result (λ v. v ≤ last) }
    ensures long { IfOk result (λ v. 4 ≤ length (box_seen leaf.entry).payload) }
    ensures exact { NamesFirst (naming (box_seen leaf.entry)
        (version_tests last (box_seen leaf.entry).payload)) result }
{
    let (version, _, _) = full(leaf)?;
    if version > last {
        return Err(leaf.fault(Kind::BadVersion));
    }
    Ok(version)
}

// The rows of a leaf of at most this version, with a count behind the version and rows of so many
// bytes.
pub(crate) fn table_rows(stbl: BoxView, leaf: BoxView, last: u8, width: u8) -> Result<RowsAt, Fault>
    requires tables { HasTables (box_seen stbl) }
    requires child { IsChild (box_seen stbl) (box_seen leaf) }
    ensures rows { IfOk result (RowsRead last 8 width (box_seen stbl.entry) (box_seen leaf.entry)) }
    ensures exact { NamesFirst (naming (box_seen leaf.entry)
        (row_tests last width (box_seen leaf.entry).payload)) result }
{
    version_of(leaf, last)?;
    let payload = leaf.payload();
    if payload.len() < 8 {
        return Err(leaf.fault(Kind::ShortBox));
    }
    let count = u32_at(payload, 4);
    if payload.len() - 8 < width as usize * count as usize {
        return Err(leaf.fault(Kind::ShortBox));
    }
    Ok(RowsAt {
        place: place_in(stbl, leaf) + 8,
        count,
    })
}
