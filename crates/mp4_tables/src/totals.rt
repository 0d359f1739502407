//! What the samples of tables come to together.
ghost use Rattle.std.specs.Prelude.{ℕ, ◌≡◌, ◌+◌, ◌-◌, ◌*◌, ◌^◌, ◌≤◌, min};
ghost use Rattle.mp4_boxes.specs.format.Bytes.{sum_of};
ghost use Rattle.mp4_tables.specs.format.Repeated.{repeated};
ghost use Rattle.mp4_tables.specs.words.Rows.{HaveRoom, HaveSizes, runs_at, sizes_at};

use crate::places::{RowsAt, SizesAt};
use crate::sizes::checked_size_at;
use crate::table_rows::run_at;
use mp4_boxes::Count;
use std::sync::ledger::Ledger;

/// What the samples of a track's tables come to: the sum of their durations, in units of the
/// media's timescale, and of their sizes in bytes, each as far as 64 bits go.
#[derive(Clone, Copy, Debug, PartialEq, Eq)]
pub struct Totals {
    pub duration: u64,
    pub bytes: u64,
}

// A number so many times.
#[inline]
pub(crate) fn times(count: u32, value: u32) -> u64
    ensures is { result ≡ count * value }
    ensures small { result ≤ count * (2 ^ 32 - 1) }
{
    u64::from(count) * u64::from(value)
}

// The sum of the values that rows stand for, as far as 64 bits go.
pub(crate) fn sum_of_values<L: Ledger>(payload: &[u8], rows: RowsAt, steps: &mut Count<L>) -> u64
    requires { HaveRoom 8 payload.now rows }
    ensures sum { result ≡ min (sum_of (λ (x : ℕ). x) (repeated (runs_at payload.now rows)))
        (2 ^ 64 - 1) }
    ensures cost { steps.new ≡ steps.old + rows.count }
{
    let mut sum: u64 = 0;
    for k in 0..rows.count {
        let run = run_at(steps.tick(), payload, rows, k);
        sum = sum.saturating_add(times(run.count, run.value));
    }
    sum
}

// The sum of all sizes, as far as 64 bits go.
pub(crate) fn sum_of_sizes<L: Ledger>(payload: &[u8], sizes: SizesAt, steps: &mut Count<L>) -> u64
    requires { HaveSizes payload.now sizes.form sizes.rows }
    ensures sum { result ≡ min (sum_of (λ (x : ℕ). x) (sizes_at payload.now sizes)) (2 ^ 64 - 1) }
    ensures cost { steps.new ≡ steps.old + sizes.rows.count }
{
    let mut sum: u64 = 0;
    for i in 0..sizes.rows.count {
        let size = checked_size_at(steps.tick(), payload, sizes, i);
        sum = sum.saturating_add(u64::from(size));
    }
    sum
}
