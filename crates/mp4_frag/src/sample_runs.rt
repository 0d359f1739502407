//! The samples of a run, passed one by one to judge them.
ghost use Rattle.std.specs.Prelude.{ℕ, ◌≡◌, ◌+◌, ◌*◌, ◌^◌, ◌<◌, ◌≤◌, ◌∷◌, [], ◌||◌, pos, true, IfOk, ◌-◌, not, ◌&&◌, None, IfSome, false};
ghost use Rattle.mp4_boxes.specs.format.Layout.{too_large};
ghost use Rattle.mp4_tables.specs.format.TableRules.{lies_within as lies_in};
ghost use Rattle.mp4_frag.specs.format.FragmentSamples.{run_start as run_start_by};
ghost use Rattle.mp4_frag.specs.words.Passing.{IsNear, IsNearer, IsUpTo, HasRows, AreSamplesOf, AreBounded, IsPassed, IsPassedWith, rows_left, offsets_left, row_seen, within_from};
ghost use Rattle.mp4_boxes.specs.format.FirstFault.{FirstNamed};
ghost use Rattle.mp4_frag.specs.words.FragmentTests.{one_run_tests};

use crate::heads::Inherited;
use crate::run_rows::{ReadRow, row_at, row_size};
use crate::trun::{Run, read_run};
use mp4_boxes::{Count, Kind, Ticket};
use std::sync::ledger::Ledger;

/// Samples that were passed: where their data ends, how many there are, how long they last, and how
/// many bytes they take.
#[derive(Clone, Copy)]
pub(crate) struct PassedSamples {
    pub(crate) at: i128,
    pub(crate) count: u32,
    pub(crate) duration: u64,
    pub(crate) bytes: u64,
}

/// What a run is judged by: the file's length, where the runs of its `traf` are counted from, what
/// its samples inherit.
#[derive(Clone, Copy)]
pub(crate) struct Judged {
    pub(crate) file_len: u64,
    pub(crate) base: i128,
    pub(crate) inherited: Inherited,
}

// Samples of a run that were judged. Where one does not lie in the file, those behind it were not
// passed.
#[derive(Clone, Copy)]
struct JudgedSamples {
    end: i128,
    duration: u64,
    bytes: u64,
    are_within: bool,
    /// Whether an offset has no place in 32 bits with a sign.
    are_large: bool,
}

/// Where a run begins: at its offset from the base, else where the data before it ends.
pub(crate) fn run_start(base: i128, before: i128, data_offset: Option<i32>) -> i128
    requires base { IsNearer base }
    requires before { IsNear before }
    ensures is { result ≡ run_start_by base before data_offset }
    ensures near { IsNear result }
{
    match data_offset {
        Some(offset) => base + i128::from(offset),
        None => before,
    }
}

// How many bytes of a file of this length stand behind a place, if that is in it.
fn bytes_behind(file_len: u64, at: i128) -> Option<u64>
    ensures some { IfSome result (λ n. (n ≤ file_len) × (at ≡ pos (file_len - n))) }
    ensures none { result ≡ None → (size : ℕ) → lies_in file_len at size ≡ false }
{
    let Ok(place) = u64::try_from(at) else {
        return None;
    };
    file_len.checked_sub(place)
}

// What no samples come to: none is there, or one does not lie in the file.
fn none_passed(end: i128, are_within: bool) -> JudgedSamples
    ensures { result ≡ record {
      end = end;
      duration = 0;
      bytes = 0;
      are_within = are_within;
      are_large = false;
    } }
{
    JudgedSamples {
        end,
        duration: 0,
        bytes: 0,
        are_within,
        are_large: false,
    }
}

// Whether the offset of the row has no place in 32 bits with a sign, or one before has none.
#[inline]
fn is_too_large(before: bool, row: ReadRow) -> bool
    ensures { result ≡ (before || too_large (row.offset ∷ [])) }
{
    before || matches!(row.offset, Some(offset) if offset >= 0x8000_0000)
}

// Row `k` of a run.
#[inline]
fn row_of(ticket: Ticket, payload: &[u8], run: Run, k: u32) -> ReadRow
    requires rows { HasRows payload.now run }
    requires inside { k < run.count }
    ensures row { rows_left payload.now run k ≡ row_seen run result
        ∷ rows_left payload.now run (k + 1) }
    ensures offset { offsets_left payload.now run k ≡ result.offset
        ∷ offsets_left payload.now run (k + 1) }
{
    row_at(
        ticket,
        payload,
        run.rows + k as usize * row_size(run.bits),
        run.bits,
    )
}

// The samples of a run that begins where so many bytes of the file are left: whether all lie in it,
// and what they come to where they do.
fn take_samples<L: Ledger>(
    payload: &[u8],
    run: Run,
    behind: u64,
    judged: Judged,
    steps: &mut Count<L>,
) -> JudgedSamples
    requires rows { HasRows payload.now run }
    requires within { behind ≤ judged.file_len }
    ensures within { result.are_within ≡ within_from judged.file_len judged.inherited.size
        (pos (judged.file_len - behind)) (rows_left payload.now run 0) }
    ensures samples { result.are_within ≡ true
        → AreSamplesOf judged (pos (judged.file_len - behind)) payload.now run result }
    ensures sums { AreBounded run.count result.duration result.bytes }
    ensures near { IsNear result.end }
    ensures cost { steps.new ≤ steps.old + run.count }
    ensures counted { result.are_within ≡ true → steps.new ≡ steps.old + run.count }
{
    let mut left = behind;
    let mut duration = 0;
    let mut are_large = false;
    for k in 0..run.count {
        let row = row_of(steps.tick(), payload, run, k);
        let size = u64::from(row.size.unwrap_or(judged.inherited.size));
        if size > left {
            return none_passed(0, false);
        }
        left -= size;
        duration += u64::from(row.duration.unwrap_or(judged.inherited.duration));
        are_large = is_too_large(are_large, row);
    }
    JudgedSamples {
        end: i128::from(judged.file_len - left),
        duration,
        bytes: behind - left,
        are_within: true,
        are_large,
    }
}

// The samples of a run that begins at a place: whether all lie in the file, and what they come to
// where they do.
fn pass_samples<L: Ledger>(
    payload: &[u8],
    run: Run,
    at: i128,
    judged: Judged,
    steps: &mut Count<L>,
) -> JudgedSamples
    requires rows { HasRows payload.now run }
    requires near { IsNear at }
    ensures within { result.are_within
        ≡ within_from judged.file_len judged.inherited.size at (rows_left payload.now run 0) }
    ensures samples { result.are_within ≡ true → AreSamplesOf judged at payload.now run result }
    ensures sums { AreBounded run.count result.duration result.bytes }
    ensures near { IsNear result.end }
    ensures cost { steps.new ≤ steps.old + run.count }
    ensures counted { result.are_within ≡ true → steps.new ≡ steps.old + run.count }
{
    match bytes_behind(judged.file_len, at) {
        Some(behind) => take_samples(payload, run, behind, judged, steps),
        None => none_passed(at, run.count == 0),
    }
}

// Whether an offset is unsigned and has no place in 32 bits with a sign.
fn have_large_offset(run: Run, samples: JudgedSamples) -> bool
    ensures { result ≡ (not run.is_signed && samples.are_large) }
{
    !run.is_signed && samples.are_large
}

/// Checks a `trun`, behind others of its `traf`: its samples are passed too, or its first fault is
/// named; a step for each sample.
pub(crate) fn check_run<L: Ledger>(
    payload: &[u8],
    judged: Judged,
    passed: PassedSamples,
    room: &mut u32,
    steps: &mut Count<L>,
) -> Result<PassedSamples, Kind>
    requires few { passed.count + room.old ≤ 2 ^ 24 }
    requires passed { IsPassed passed }
    requires base { IsNearer judged.base }
    ensures passed { IfOk result IsPassed }
    ensures run { IfOk result (IsPassedWith judged payload.now passed room.old room.new) }
    ensures bound { IfOk result (λ p. (n : ℕ) → 2 ^ 64 ≤ n → IsUpTo n judged.base
        → IsUpTo (n + 2 ^ 31) passed.at → IsUpTo (n + 2 ^ 31) p.at) }
    ensures exact { FirstNamed (one_run_tests judged passed.at room.old payload.now) result }
    ensures cost { IfOk result (λ p. steps.new + passed.count ≤ steps.old + p.count) }
    ensures work { steps.new ≤ steps.old + room.old }
    ensures counted { IfOk result (λ p. steps.new + passed.count ≡ steps.old + p.count) }
{
    let run = read_run(payload)?;
    if run.count > *room {
        return Err(Kind::TooManySamples);
    }
    *room -= run.count;
    let start = run_start(judged.base, passed.at, run.data_offset);
    let samples = pass_samples(payload, run, start, judged, steps);
    if samples.are_within {
        if have_large_offset(run, samples) {
            return Err(Kind::OffsetTooLarge);
        }
        return Ok(PassedSamples {
            at: samples.end,
            count: passed.count + run.count,
            duration: passed.duration + samples.duration,
            bytes: passed.bytes + samples.bytes,
        });
    }
    Err(Kind::SampleOutsideFile)
}
