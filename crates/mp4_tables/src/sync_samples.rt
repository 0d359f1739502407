//! Sync samples: `stss` (ISO/IEC 14496-12, 8.6.2).
ghost use Rattle.std.specs.Prelude.{◌≡◌, ◌+◌, ◌<◌, ◌≤◌, slice_index, true, false, IsTrue};
ghost use Rattle.mp4_tables.specs.words.Rows.{HaveRoom, numbers_at};
ghost use Rattle.mp4_tables.specs.format.TableRules.{is_sync_order};
ghost use Rattle.mp4_tables.specs.words.TablesComing.{IsSyncPlace};
ghost use Rattle.mp4_tables.specs.words.Stops.{StopsIn};

use crate::places::{RowsAt, SyncPlace};
use crate::table_rows::number_at;
use mp4_boxes::{Count, Ticket};
use std::sync::ledger::Ledger;

// Whether the numbers rise, from 1 to `n`.
#[tactic(auto, using(crate::proofs::SyncLists::ordering))]
pub(crate) fn are_numbers<L: Ledger>(
    payload: &[u8],
    rows: RowsAt,
    n: u32,
    steps: &mut Count<L>,
) -> bool
    requires { HaveRoom 4 payload.now rows }
    ensures same { result ≡ is_sync_order n (numbers_at 4 payload.now rows) }
    ensures cost { steps.new ≤ steps.old + rows.count }
    ensures counted { IsTrue result → steps.new ≡ steps.old + rows.count }
    ensures stopped { result ≡ false
        → StopsIn 1 steps.old steps.new (λ front. is_sync_order n front ≡ false)
        (numbers_at 4 payload.now rows) }
{
    let mut last = 0;
    for k in 0..rows.count {
        let number = number_at(steps.tick(), payload, rows, k);
        if number <= last || number > n {
            return false;
        }
        last = number;
    }
    true
}

// The number in a row, 0 behind the last.
#[inline]
#[tactic(auto, using(crate::proofs::SyncLists::numbering))]
fn number_in(payload: &[u8], rows: RowsAt, row: u32) -> u32
    requires { HaveRoom 4 payload.now rows }
    ensures { result ≡ slice_index (numbers_at 4 payload.now rows) row }
{
    if row < rows.count {
        number_at(Ticket::of_place(), payload, rows, row)
    } else {
        0
    }
}

// Before the first sample.
#[tactic(auto, using(crate::proofs::SyncLists::sync_first))]
pub(crate) fn first_sync(payload: &[u8], rows: RowsAt, n: u32) -> SyncPlace
    requires room { HaveRoom 4 payload.now rows }
    requires ordered { is_sync_order n (numbers_at 4 payload.now rows) ≡ true }
    ensures { IsSyncPlace (numbers_at 4 payload.now rows) result 1 }
{
    SyncPlace {
        row: 0,
        next: number_in(payload, rows, 0),
    }
}

// Passes sample number `i`, from 1.
#[inline]
pub(crate) fn pass_sync(payload: &[u8], rows: RowsAt, place: &mut SyncPlace, i: u32)
    requires room { HaveRoom 4 payload.now rows }
    requires at { IsSyncPlace (numbers_at 4 payload.now rows) place.old i }
    requires some { 0 < i }
    ensures at { IsSyncPlace (numbers_at 4 payload.now rows) place.new (i + 1) }
    ensures on { place.old.row ≤ place.new.row }
{
    if place.next == i {
        if place.row < rows.count {
            let row = place.row + 1;
            *place = SyncPlace {
                row,
                next: number_in(payload, rows, row),
            };
        }
    }
}
