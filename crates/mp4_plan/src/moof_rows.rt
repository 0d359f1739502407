//! The rows of a `moof`: those of `trun`, and the `sbgp`s behind it (ISO/IEC 14496-12, 8.8.8 and
//! 8.9.2).
ghost use Rattle.std.specs.Prelude.{◌≡◌, ℕ, ◌+◌, ◌-◌, ◌^◌, ◌<◌, ◌≤◌, List, [], ◌++◌, None, flat_map, length, IfSome};
ghost use Rattle.mp4_tables.specs.format.Groups.{GroupKey as KeySeen};
ghost use Rattle.mp4_tables.specs.words.Keys.{key_seen, keys_seen};
ghost use Rattle.mp4_present.specs.words.Latches.{Goes};
ghost use Rattle.mp4_plan.specs.format.Normal.{own};
ghost use Rattle.mp4_plan.specs.words.Spelling.{offset_of, run_row, run_rows, group_row, group_rows, runs_left, WritesRuns};
ghost use Rattle.mp4_plan.specs.words.UsedKeys.{used_seen, is_above, is_below, least_above, used_from, IsKeyAt, AreApart, key_front, group_front, group_bytes, groups_bytes, some_groups};

use crate::moof_sizes::{group_size, short};
use crate::noted_rows::Row;
use crate::planner::Planned;
use crate::short_bytes::Spelled;
use mp4_boxes::FourCc;
use mp4_present::Latch;
use mp4_store::Sink;
use mp4_tables::{GroupKey, Keys};

// A number of a row, where it isn't common to all.
fn own(common: Option<u32>, number: u32) -> Option<u32>
    ensures { result ≡ own common number }
{
    common.is_none().then_some(number)
}

// The composition offset of a row, where some offset isn't 0.
fn offset_of(has_offsets: bool, row: &Row) -> Option<u32>
    ensures { result ≡ offset_of has_offsets row.now }
{
    has_offsets.then_some(row.cto.cast_unsigned())
}

/// How many rows of `trun` are spelled at once: of sixteen bytes at most each.
const BLOCK: usize = 8;

// Spells a row of `trun` behind others: what the samples don't have in common.
#[inline]
fn push_row(row: &Row, planned: &Planned, out: &mut Spelled)
    requires { length out.old ≤ 112 }
    ensures is { out.new ≡ out.old ++ run_row planned.now row.now }
    ensures length { length out.new ≤ length out.old + 16 }
{
    out.push_option(own(planned.duration, row.duration));
    out.push_option(own(planned.size, row.size));
    out.push_option(own(planned.flags, row.flags));
    out.push_option(offset_of(planned.has_offsets, row));
}

// Spells a few rows of `trun`.
#[inline]
fn spell_rows(rows: &[Row], planned: &Planned, out: &mut Spelled)
    requires { length rows.now ≤ BLOCK }
    ensures { out.new ≡ run_rows planned.now rows.now }
{
    out.clear();
    for row in rows {
        push_row(row, planned, out);
    }
}

/// Takes the rows of `trun` along.
pub(crate) fn carry_run<K: Sink>(rows: &[Row], planned: &Planned, latch: &mut Latch<K>)
    ensures { Goes K.Sink latch.old latch.new
        (run_rows planned.now rows.now) }
{
    let mut block = Spelled::new();
    let mut done = 0;
    while done < rows.len() {
        let end = rows.len().min(done + BLOCK);
        spell_rows(&rows[done..end], planned, &mut block);
        latch.put(block.as_bytes());
        done = end;
    }
}

// The version of `sbgp`, its type, and in version 1 its parameter.
fn push_key(out: &mut Spelled, key: GroupKey)
    requires { length out.old ≤ 104 }
    ensures is { out.new ≡ out.old ++ key_front (key_seen key) }
    ensures short { length out.new ≤ length out.old + 12 }
{
    match key.parameter {
        Some(parameter) => {
            out.push_u32(0x100_0000);
            out.push(&key.kind.0);
            out.push_u32(parameter);
        }
        None => {
            out.push_u32(0);
            out.push(&key.kind.0);
        }
    }
}

// `sbgp` as far as its rows.
fn group_front(key: GroupKey, rows: u32) -> Spelled
    ensures { result ≡ group_front (key_seen key) rows }
{
    let mut out = Spelled::new();
    out.push_box(FourCc(*b"sbgp"), short(group_size(key.parameter, rows)));
    push_key(&mut out, key);
    out.push_u32(rows);
    out
}

// A row of `sbgp`.
fn group_row(count: u32, index: u16) -> Spelled
    ensures { result ≡ group_row (count, index) }
{
    let mut out = Spelled::new();
    out.push_u32(count);
    out.push_u32(u32::from(index));
    out
}

// A run of equal indexes; none where its count is 0.
#[derive(Clone, Copy, Debug, PartialEq, Eq)]
pub(crate) struct IndexRun {
    pub(crate) count: u32,
    pub(crate) index: u16,
}

// Takes a run along, where there is one.
fn carry_index_run<K: Sink>(run: IndexRun, latch: &mut Latch<K>)
    ensures { Goes K.Sink latch.old latch.new
        (flat_map group_row (runs_left run.count run.index [])) }
{
    if run.count > 0 {
        latch.put(group_row(run.count, run.index).as_bytes());
    }
}

// The run in hand with one index more. Where that is another one, the run is taken along.
fn carry_index<K: Sink>(run: IndexRun, index: u16, latch: &mut Latch<K>) -> IndexRun
    requires { run.count + 1 < 2 ^ 32 }
    ensures count { result.count ≤ run.count + 1 }
    ensures put { (values : List ℕ) → WritesRuns (Goes K.Sink latch.old latch.new)
        run result index values }
{
    if run.count > 0 && run.index == index {
        return IndexRun {
            count: run.count + 1,
            index,
        };
    }
    carry_index_run(run, latch);
    IndexRun { count: 1, index }
}

// Takes the rows of an `sbgp` along: the longest runs of equal indexes at the key of this place.
fn carry_indexes<K: Sink>(rows: &[Row], place: u8, latch: &mut Latch<K>)
    requires place { place < 4 }
    requires few { length rows.now < 2 ^ 32 - 1 }
    ensures { Goes K.Sink latch.old latch.new
        (group_rows place rows.now) }
{
    let mut run = IndexRun { count: 0, index: 0 };
    for row in rows {
        run = carry_index(run, row.index_at(place), latch);
    }
    carry_index_run(run, latch);
}

// A key that a piece uses, and its place among those of the track.
#[derive(Clone, Copy, Debug, PartialEq, Eq)]
pub(crate) struct UsedKey {
    pub(crate) place: u8,
    pub(crate) key: GroupKey,
}

// Whether a key is above the last one that was written.
fn is_above(behind: Option<u128>, key: GroupKey) -> bool
    ensures { result ≡ is_above behind (key_seen key) }
{
    match behind {
        Some(last) => last < key.rank(),
        None => true,
    }
}

// Whether a key is below the one that was found.
fn is_below(found: Option<UsedKey>, key: GroupKey) -> bool
    ensures { result ≡ is_below (used_seen found) (key_seen key) }
{
    match found {
        Some(best) => key.rank() < best.key.rank(),
        None => true,
    }
}

// The used key that is next in the order of keys.
fn next_key(planned: &Planned, keys: &Keys, behind: Option<u128>) -> Option<UsedKey>
    ensures place { IfSome result (λ u. (u.place < 4)
        × IsKeyAt (keys_seen keys.now) u.place (key_seen u.key)) }
    ensures next { used_seen result
        ≡ least_above behind None (used_from planned.now.group_rows 0 (keys_seen keys.now)) }
{
    let mut found: Option<UsedKey> = None;
    for place in 0..keys.count() {
        let key = keys.key_at(place);
        if planned.rows_at(place) > 0 && is_above(behind, key) && is_below(found, key) {
            found = Some(UsedKey { place, key });
        }
    }
    found
}

// Takes the `sbgp` of a used key along.
fn carry_group<K: Sink>(used: UsedKey, rows: &[Row], planned: &Planned, latch: &mut Latch<K>)
    requires place { used.place < 4 }
    requires few { length rows.now < 2 ^ 32 - 1 }
    ensures { Goes K.Sink latch.old latch.new
        (group_bytes rows.now planned.now used.place (key_seen used.key)) }
{
    let front = group_front(used.key, planned.rows_at(used.place));
    latch.put(front.as_bytes());
    carry_indexes(rows, used.place, latch);
}

/// Takes an `sbgp` along for each key that is used, in the order of keys.
pub(crate) fn carry_groups<K: Sink>(
    rows: &[Row],
    planned: &Planned,
    keys: &Keys,
    latch: &mut Latch<K>,
)
    requires { length rows.now < 2 ^ 32 - 1 }
    ensures put { AreApart (keys_seen keys.now)
        → Goes K.Sink latch.old latch.new
        (groups_bytes rows.now planned.now (keys_seen keys.now)) }
    ensures some { (groups : List (ℕ × KeySeen)) × (length groups ≤ 4)
        × Goes K.Sink latch.old latch.new
        (some_groups rows.now planned.now groups) }
{
    let mut behind = None;
    for _key in 0..keys.count() {
        let Some(used) = next_key(planned, keys, behind) else {
            return;
        };
        carry_group(used, rows, planned, latch);
        behind = Some(used.key.rank());
    }
}
