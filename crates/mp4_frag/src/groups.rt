//! `sbgp` in a `traf`: which group description its samples have (ISO/IEC 14496-12, 8.9.2).
ghost use Rattle.std.specs.Prelude.{◌≡◌, ◌+◌, ◌*◌, ◌<◌, ◌≤◌, ◌∷◌, drop, nat_le, length, is_some, OnOk, IfSome, ◌++◌, []};
ghost use Rattle.mp4_boxes.specs.format.Layout.{sbgp, row_count};
ghost use Rattle.mp4_tables.specs.words.Keys.{key_seen};
ghost use Rattle.mp4_tables.specs.format.Groups.{max_index};
ghost use Rattle.mp4_tables.specs.format.Repeated.{total as total_of};
ghost use Rattle.mp4_tables.specs.words.GroupBoxes.{group_runs};
ghost use Rattle.std.specs.List.{list_all};
ghost use Rattle.mp4_tables.specs.format.Groups.{Grouping, grouping_of};
ghost use Rattle.mp4_tables.specs.words.Keys.{keys_seen};
ghost use Rattle.mp4_frag.specs.words.GroupsJudged.{AreNamed, WhereNamed, NamesOneMore, IsGroupSound};
ghost use Rattle.mp4_boxes.specs.format.FirstFault.{FirstNamed};
ghost use Rattle.mp4_frag.specs.words.FragmentTests.{name_tests, one_group_tests};

use mp4_boxes::{Count, Kind, Ticket, u32_at};
use mp4_tables::{Group, GroupKey, Keys, read_group};
use std::sync::ledger::Ledger;

/// The largest index of a group description.
const MAX_INDEX: u32 = 65_535;

// Names the key of an `sbgp`, which no other of the `traf` may have, and which may not be the fifth
// of the track. Whether a key is named stands at its place among the track's.
fn name(key: GroupKey, keys: &mut Keys, named: &mut [bool; 4]) -> Result<(), Kind>
    ensures named { OnOk result (WhereNamed (keys_seen keys.old) named.old (λ first before.
        (g : Grouping) → g.key ≡ key_seen key
        → NamesOneMore first before g (keys_seen keys.new) named.new)) }
    ensures exact { WhereNamed (keys_seen keys.old) named.old (λ first before. (g : Grouping)
        → g.key ≡ key_seen key → FirstNamed (name_tests first before g) result) }
{
    let place = match keys.place(key) {
        Some(j) => {
            if named[j as usize] {
                return Err(Kind::DuplicateBox);
            }
            j
        }
        None => {
            let count = keys.count();
            if count >= 4 {
                return Err(Kind::BadValue);
            }
            keys.push(key);
            count
        }
    };
    named[place as usize] = true;
    Ok(())
}

// The count and the index of row `k`.
fn row_of(_ticket: Ticket, payload: &[u8], group: Group, k: u32) -> (u32, u32)
    requires room { group.rows + 8 * group.count ≤ length payload.now }
    requires inside { k < group.count }
    ensures { drop k (group_runs payload.now group) ≡ (result.0, result.1)
        ∷ drop (k + 1) (group_runs payload.now group) }
{
    let at = group.rows + 8 * k as usize;
    (u32_at(payload, at), u32_at(payload, at + 4))
}

// How many samples the rows count, if each index is one.
fn count_samples<L: Ledger>(payload: &[u8], group: Group, steps: &mut Count<L>) -> Option<u64>
    requires { group.rows + 8 * group.count ≤ length payload.now }
    ensures indexes { is_some result
        ≡ list_all (λ run. nat_le run.1 max_index) (group_runs payload.now group) }
    ensures total { IfSome result (λ n. n ≡ total_of (group_runs payload.now group)) }
    ensures cost { steps.new ≤ steps.old + group.count }
    ensures counted { IfSome result (λ n. steps.new ≡ steps.old + group.count) }
{
    let mut total: u64 = 0;
    for k in 0..group.count {
        let (count, index) = row_of(steps.tick(), payload, group, k);
        if index > MAX_INDEX {
            return None;
        }
        total += u64::from(count);
    }
    Some(total)
}

/// Checks an `sbgp` of a `traf` of `n` samples, behind others that named keys.
pub(crate) fn check_group<L: Ledger>(
    payload: &[u8],
    n: u32,
    keys: &mut Keys,
    named: &mut [bool; 4],
    steps: &mut Count<L>,
) -> Result<(), Kind>
    ensures sound { OnOk result (WhereNamed (keys_seen keys.old) named.old
        (λ first before. IsGroupSound n first before payload.now)) }
    ensures named { OnOk result (WhereNamed (keys_seen keys.old) named.old (λ first before.
        AreNamed first (before ++ grouping_of payload.now ∷ []) (keys_seen keys.new) named.new)) }
    ensures exact { WhereNamed (keys_seen keys.old) named.old (λ first before.
        FirstNamed (one_group_tests n first before payload.now) result) }
    ensures cost { steps.new ≤ steps.old + row_count sbgp payload.now }
    ensures work { 8 * steps.new ≤ 8 * steps.old + length payload.now }
    ensures counted { OnOk result (steps.new ≡ steps.old + row_count sbgp payload.now) }
{
    let group = read_group(payload)?;
    name(group.key, keys, named)?;
    let Some(total) = count_samples(payload, group, steps) else {
        return Err(Kind::BadValue);
    };
    if total > u64::from(n) {
        return Err(Kind::CountMismatch);
    }
    Ok(())
}
