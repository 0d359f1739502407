//! Sample groups, read and judged: `sgpd` and `sbgp` (ISO/IEC 14496-12, 8.9).
ghost use Rattle.std.specs.Prelude.{◌≡◌, ◌+◌, ◌*◌, ◌≤◌, ◌<◌, ◌++◌, ◌∷◌, [], length, IfOk};
ghost use Rattle.mp4_boxes.specs.format.Layout.{sbgp, sgpd, IsSound};
ghost use Rattle.mp4_boxes.specs.format.FirstFault.{NamesFirst, naming, leaf_tests};
ghost use Rattle.mp4_boxes.specs.words.View.{box_seen};
ghost use Rattle.mp4_tables.specs.words.RowTests.{kept_tests, child_tests, NamesBehind, group_box_tests};
ghost use Rattle.mp4_tables.specs.words.Keys.{key_seen, keys_seen};
ghost use Rattle.mp4_tables.specs.words.Leaves.{HasTables, IsChild, SlotTaken, GroupRead, GroupNext, ChildRead, GroupsRead, GroupsSo, GroupPassed, SizesKnown};
ghost use Rattle.mp4_tables.specs.words.Accepted.{group_count};

use crate::group_boxes::read_group;
use crate::indexes::{IndexRows, NO_ROWS};
use crate::keys::{GroupKey, Keys};
use crate::leaves::{Limits, children_of, place_in, version_of};
use crate::places::{GroupsAt, RowsAt};
use crate::stts_rows::{are_below, counts_are_within};
use mp4_boxes::{BoxView, Count, Fault, FourCc, Kind};
use std::sync::ledger::Ledger;

// An `sgpd`: what follows its grouping type is kept unread.
fn check_descriptions(leaf: BoxView) -> Result<(), Fault>
    ensures sound { IfOk result (λ _. IsSound sgpd (box_seen leaf.entry).payload) }
    ensures exact { NamesFirst (naming (box_seen leaf.entry)
        (leaf_tests sgpd (box_seen leaf.entry).payload)) result }
{
    version_of(leaf, 1)?;
    if leaf.payload().len() < 8 {
        return Err(leaf.fault(Kind::ShortBox));
    }
    Ok(())
}

// The key and the rows of an `sbgp`.
fn read_grouping(stbl: BoxView, leaf: BoxView) -> Result<(GroupKey, RowsAt), Fault>
    requires tables { HasTables (box_seen stbl) }
    requires child { IsChild (box_seen stbl) (box_seen leaf) }
    ensures read { IfOk result
        (λ r. GroupRead (box_seen stbl.entry) (box_seen leaf.entry) (key_seen r.0) r.1) }
    ensures exact { NamesFirst (naming (box_seen leaf.entry)
        (leaf_tests sbgp (box_seen leaf.entry).payload)) result }
{
    let group = match read_group(leaf.payload()) {
        Ok(group) => group,
        Err(kind) => return Err(leaf.fault(kind)),
    };
    let rows = RowsAt {
        place: place_in(stbl, leaf) + group.rows,
        count: group.count,
    };
    Ok((group.key, rows))
}

// The groups with one more key and its rows.
fn add_group(groups: GroupsAt, key: GroupKey, rows: RowsAt) -> GroupsAt
    requires { length (keys_seen groups.keys) < 4 }
    ensures keys { keys_seen result.keys ≡ keys_seen groups.keys ++ key_seen key ∷ [] }
    ensures slot { SlotTaken (length (keys_seen groups.keys)) groups rows result }
{
    let mut next = groups;
    let place = usize::from(next.keys.count());
    next.rows.by_key[place] = rows;
    next.keys.push(key);
    next
}

// The groups with one more `sbgp` of `n` samples, behind those that were read.
fn read_next<L: Ledger>(
    stbl: BoxView,
    leaf: BoxView,
    groups: GroupsAt,
    n: u32,
    steps: &mut Count<L>,
) -> Result<GroupsAt, Fault>
    requires tables { HasTables (box_seen stbl) }
    requires child { IsChild (box_seen stbl) (box_seen leaf) }
    ensures next { IfOk result
        (GroupNext (box_seen stbl.entry).payload n groups (box_seen leaf.entry)) }
    ensures exact { NamesBehind (box_seen stbl.entry).payload n groups (λ before.
        naming (box_seen leaf.entry) (kept_tests n before (box_seen leaf.entry).payload)) result }
    ensures passed { IfOk result
        (λ next. GroupPassed (box_seen stbl.entry).payload n groups next steps.old steps.new) }
    ensures work { 4 * steps.new ≤ 4 * steps.old + length (box_seen stbl.entry).payload }
{
    let (key, rows) = read_grouping(stbl, leaf)?;
    let payload = stbl.payload();
    if groups.keys.names(key) {
        return Err(leaf.fault(Kind::DuplicateBox));
    }
    if groups.keys.count() == 4 {
        return Err(leaf.fault(Kind::BadValue));
    }
    if !are_below(payload, rows, 0x1_0000, steps) {
        return Err(leaf.fault(Kind::BadValue));
    }
    if !counts_are_within(payload, rows, n, steps) {
        return Err(leaf.fault(Kind::CountMismatch));
    }
    Ok(add_group(groups, key, rows))
}

// The groups behind one more child of an `stbl`.
fn read_child<L: Ledger>(
    stbl: BoxView,
    child: BoxView,
    groups: GroupsAt,
    n: u32,
    steps: &mut Count<L>,
) -> Result<GroupsAt, Fault>
    requires tables { HasTables (box_seen stbl) }
    requires child { IsChild (box_seen stbl) (box_seen child) }
    ensures next { IfOk result
        (ChildRead (box_seen stbl.entry).payload n groups (box_seen child.entry)) }
    ensures exact { NamesBehind (box_seen stbl.entry).payload n groups
        (λ before. child_tests n before (box_seen child.entry)) result }
    ensures passed { IfOk result
        (λ next. GroupPassed (box_seen stbl.entry).payload n groups next steps.old steps.new) }
    ensures work { 4 * steps.new ≤ 4 * steps.old + length (box_seen stbl.entry).payload }
{
    if child.kind() == FourCc(*b"sbgp") {
        let next = read_next(stbl, child, groups, n, steps)?;
        return Ok(next);
    }
    if child.kind() == FourCc(*b"sgpd") {
        check_descriptions(child)?;
        return Ok(groups);
    }
    Ok(groups)
}

// No groups.
fn no_groups(payload: &[u8], n: u32) -> GroupsAt
    ensures { GroupsSo payload.now n [] result }
{
    let _ = payload;
    let _ = n;
    GroupsAt {
        keys: Keys::new(),
        rows: IndexRows {
            by_key: [NO_ROWS, NO_ROWS, NO_ROWS, NO_ROWS],
        },
    }
}

// The rows of each `sbgp` of `n` samples.
pub(crate) fn read_groups<L: Ledger>(
    stbl: BoxView,
    limits: Limits,
    n: u32,
    steps: &mut Count<L>,
) -> Result<GroupsAt, Fault>
    requires tables { HasTables (box_seen stbl) }
    requires sizes { SizesKnown (box_seen stbl) n }
    ensures groups { IfOk result (GroupsRead (box_seen stbl.entry) n) }
    ensures exact { NamesFirst (group_box_tests (box_seen stbl.entry)) result }
    ensures passed { IfOk result (λ groups. steps.new ≡ steps.old + 2 * group_count groups) }
    ensures work { 2 * steps.new ≤ 2 * steps.old + 3 * length (box_seen stbl.entry).payload }
{
    let mut groups = no_groups(stbl.payload(), n);
    for child in children_of(stbl) {
        groups = read_child(stbl, child, groups, n, steps)?;
    }
    Ok(groups)
}
