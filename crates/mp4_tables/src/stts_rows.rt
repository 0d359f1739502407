//! Rows that repeat a value: `stts`, `ctts` and `sbgp` (ISO/IEC 14496-12, 8.6.1, 8.9.2).
ghost use Rattle.std.specs.Prelude.{ℕ, ◌≡◌, ◌+◌, ◌-◌, ◌*◌, ◌^◌, ◌<◌, ◌≤◌, ◌∷◌, ◌==◌, ◌↔◌, IsTrue, IfSome, IfNone, ◌⊎◌, false, [], length, take, drop};
ghost use Rattle.mp4_boxes.specs.format.Bytes.{sum_of};
ghost use Rattle.mp4_tables.specs.format.Repeated.{total};
ghost use Rattle.mp4_tables.specs.words.Rows.{HaveRoom, runs_at};
ghost use Rattle.mp4_tables.specs.words.TablesComing.{coming, all_below};
ghost use Rattle.mp4_tables.specs.words.Stops.{StopsIn};

use crate::places::{RowsAt, RunPlace};
use crate::table_rows::run_at;
use crate::totals::times;
use mp4_boxes::{Count, Ticket};
use std::sync::ledger::Ledger;

// Before the first row.
pub(crate) const BEFORE_ROWS: RunPlace = RunPlace {
    row: 0,
    left: 0,
    value: 0,
};

// The sum of the counts of the rows, if it is no more than `n`.
#[tactic(auto, using(crate::proofs::RunLists::counting))]
fn total_within<L: Ledger>(
    payload: &[u8],
    rows: RowsAt,
    n: u32,
    steps: &mut Count<L>,
) -> Option<u64>
    requires { HaveRoom 8 payload.now rows }
    ensures some { IfSome result (λ sum. (sum ≡ total (runs_at payload.now rows)) × (sum ≤ n)) }
    ensures none { IfNone result (n < total (runs_at payload.now rows)) }
    ensures cost { steps.new ≤ steps.old + rows.count }
    ensures counted { IfSome result (λ _. steps.new ≡ steps.old + rows.count) }
    ensures stopped { IfNone result
        (StopsIn 1 steps.old steps.new (λ front. n < total front) (runs_at payload.now rows)) }
{
    let mut total: u64 = 0;
    for k in 0..rows.count {
        total += u64::from(run_at(steps.tick(), payload, rows, k).count);
        if total > u64::from(n) {
            return None;
        }
    }
    Some(total)
}

// Whether the counts of the rows add up to `n`.
pub(crate) fn counts_are<L: Ledger>(
    payload: &[u8],
    rows: RowsAt,
    n: u32,
    steps: &mut Count<L>,
) -> bool
    requires { HaveRoom 8 payload.now rows }
    ensures same { result ≡ (total (runs_at payload.now rows) == n) }
    ensures cost { steps.new ≤ steps.old + rows.count }
    ensures counted { IsTrue result → steps.new ≡ steps.old + rows.count }
    ensures stopped { result ≡ false → (steps.new ≡ steps.old + rows.count)
        ⊎ StopsIn 1 steps.old steps.new (λ front. n < total front) (runs_at payload.now rows) }
{
    total_within(payload, rows, n, steps) == Some(u64::from(n))
}

// Whether the counts of the rows add up to no more than `n`.
pub(crate) fn counts_are_within<L: Ledger>(
    payload: &[u8],
    rows: RowsAt,
    n: u32,
    steps: &mut Count<L>,
) -> bool
    requires { HaveRoom 8 payload.now rows }
    ensures same { IsTrue result ↔ (total (runs_at payload.now rows) ≤ n) }
    ensures cost { steps.new ≤ steps.old + rows.count }
    ensures counted { IsTrue result → steps.new ≡ steps.old + rows.count }
    ensures stopped { result ≡ false
        → StopsIn 1 steps.old steps.new (λ front. n < total front) (runs_at payload.now rows) }
{
    total_within(payload, rows, n, steps).is_some()
}

// Whether the value of each row is below a bound.
pub(crate) fn are_below<L: Ledger>(
    payload: &[u8],
    rows: RowsAt,
    bound: u32,
    steps: &mut Count<L>,
) -> bool
    requires { HaveRoom 8 payload.now rows }
    ensures cost { steps.new ≤ steps.old + rows.count }
    ensures counted { IsTrue result → steps.new ≡ steps.old + rows.count }
    ensures stopped { result ≡ false
        → StopsIn 1 steps.old steps.new (λ front. all_below bound front ≡ false)
        (runs_at payload.now rows) }
    ensures same { result ≡ all_below bound (runs_at payload.now rows) }
{
    for k in 0..rows.count {
        if run_at(steps.tick(), payload, rows, k).value >= bound {
            return false;
        }
    }
    true
}

// Passes rows until a value is left.
#[inline]
#[tactic(auto, using(crate::proofs::RunLists::settling))]
pub(crate) fn settle(payload: &[u8], rows: RowsAt, place: RunPlace) -> RunPlace
    requires room { HaveRoom 8 payload.now rows }
    requires within { place.row ≤ rows.count }
    ensures same { coming (runs_at payload.now rows) result
        ≡ coming (runs_at payload.now rows) place }
    ensures settled { result.left ≡ 0 → coming (runs_at payload.now rows) result ≡ [] }
    ensures within { result.row ≤ rows.count }
    ensures on { place.row ≤ result.row }
{
    let mut place = place;
    while place.left == 0 && place.row < rows.count {
        let run = run_at(Ticket::of_place(), payload, rows, place.row);
        place = RunPlace {
            row: place.row + 1,
            left: run.count,
            value: run.value,
        };
    }
    place
}

// Passes rows until a value is left. Few rows stand for no value: this stays apart.
#[cold]
#[inline(never)]
fn settle_on(payload: &[u8], rows: RowsAt, place: &mut RunPlace)
    requires room { HaveRoom 8 payload.now rows }
    requires within { place.old.row ≤ rows.count }
    ensures same { coming (runs_at payload.now rows) place.new
        ≡ coming (runs_at payload.now rows) place.old }
    ensures settled { place.new.left ≡ 0 → coming (runs_at payload.now rows) place.new ≡ [] }
    ensures within { place.new.row ≤ rows.count }
    ensures on { place.old.row ≤ place.new.row }
{
    *place = settle(payload, rows, *place);
}

// Passes the value in hand.
#[inline]
#[tactic(auto, using(crate::proofs::RunLists::settling))]
pub(crate) fn pass(payload: &[u8], rows: RowsAt, place: &mut RunPlace)
    requires room { HaveRoom 8 payload.now rows }
    requires within { place.old.row ≤ rows.count }
    requires some { 0 < place.old.left }
    ensures next { coming (runs_at payload.now rows) place.old ≡ place.old.value
        ∷ coming (runs_at payload.now rows) place.new }
    ensures settled { place.new.left ≡ 0 → coming (runs_at payload.now rows) place.new ≡ [] }
    ensures within { place.new.row ≤ rows.count }
    ensures on { place.old.row ≤ place.new.row }
{
    place.left -= 1;
    if place.left == 0 && place.row < rows.count {
        let run = run_at(Ticket::of_place(), payload, rows, place.row);
        place.row += 1;
        place.left = run.count;
        place.value = run.value;
        if run.count == 0 {
            settle_on(payload, rows, place);
        }
    }
}

// Passes so many values, row by row, and says their sum.
pub(crate) fn pass_many(payload: &[u8], rows: RowsAt, place: &mut RunPlace, count: u32) -> u64
    requires room { HaveRoom 8 payload.now rows }
    requires within { place.old.row ≤ rows.count }
    requires many { count ≤ length (coming (runs_at payload.now rows) place.old) }
    ensures next { coming (runs_at payload.now rows) place.new
        ≡ drop count (coming (runs_at payload.now rows) place.old) }
    ensures sum { result
        ≡ sum_of (λ (x : ℕ). x) (take count (coming (runs_at payload.now rows) place.old)) }
    ensures small { result ≤ count * (2 ^ 32 - 1) }
    ensures settled { place.new.left ≡ 0 → coming (runs_at payload.now rows) place.new ≡ [] }
    ensures within { place.new.row ≤ rows.count }
    ensures on { place.old.row ≤ place.new.row }
{
    let mut now = *place;
    let mut more = count;
    let mut sum: u64 = 0;
    while now.left <= more && now.row < rows.count {
        sum += times(now.left, now.value);
        more -= now.left;
        let run = run_at(Ticket::of_place(), payload, rows, now.row);
        now = RunPlace {
            row: now.row + 1,
            left: run.count,
            value: run.value,
        };
    }
    sum += times(more, now.value);
    now.left -= more;
    *place = now;
    sum
}
