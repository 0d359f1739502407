//! Where the data of a `traf` ends, by its runs alone.
ghost use Rattle.std.specs.Prelude.{◌≡◌};
ghost use Rattle.mp4_frag.specs.words.ColumnsRead.{row_room};
ghost use Rattle.mp4_frag.specs.words.MoofWalks.{run_end as run_end_by, runs_end_held, start_held};
ghost use Rattle.mp4_frag.specs.words.Passing.{filling};
ghost use Rattle.mp4_frag.specs.words.PlacesIn.{IsBoxIn, IsRowPlace, bytes_inside};
ghost use Rattle.mp4_frag.specs.words.Walks.{boxes_from, rows_here};

use crate::box_places::{Lying, box_at};
use crate::check::TRUN;
use crate::opened_runs::{next_row, row_here};
use crate::places::RowPlace;
use crate::run_rows::row_size;
use crate::trun::read_run;

// How many bytes the samples of the rows left take, where some take this size.
fn rows_bytes(payload: &[u8], run: RowPlace, inherited: u32) -> u64
    requires place { IsRowPlace payload.now run }
    requires width { run.width ≡ row_room run.bits }
    ensures { result ≡ filling inherited (rows_here payload.now run) }
{
    let mut bytes = 0;
    let mut run = run;
    while run.left > 0 {
        let row = row_here(payload, run);
        bytes += u64::from(row.size.unwrap_or(inherited));
        run = next_row(run);
    }
    bytes
}

// Where a run begins: at its offset from the base, else where the data before it ends.
fn start_of(base: i128, before: i128, data_offset: Option<i32>) -> i128
    ensures { result ≡ start_held base before data_offset }
{
    match data_offset {
        Some(offset) => base.saturating_add(i128::from(offset)),
        None => before,
    }
}

// Where the data of a run ends, which is counted from this base; before it data ends there.
fn run_end(payload: &[u8], lying: Lying, base: i128, before: i128, inherited: u32) -> i128
    requires { IsBoxIn payload.now lying }
    ensures { result ≡ run_end_by inherited base before (bytes_inside payload.now lying) }
{
    let Ok(run) = read_run(&payload[lying.inside..lying.end]) else {
        return before;
    };
    let start = start_of(base, before, run.data_offset);
    let rows = RowPlace {
        row: lying.inside + run.rows,
        left: run.count,
        bits: run.bits,
        width: row_size(run.bits),
        first_flags: run.first_flags,
    };
    start.saturating_add(i128::from(rows_bytes(payload, rows, inherited)))
}

/// Where the data of a `traf` ends whose runs are counted from this base, where its samples take
/// this size if they don't say it.
pub(crate) fn data_end(payload: &[u8], base: i128, inherited: u32) -> i128
    ensures { result ≡ runs_end_held inherited base base (boxes_from payload.now 0) }
{
    let mut end = base;
    let mut at = 0;
    while at < payload.len() {
        let Some(child) = box_at(payload, at, payload.len()) else {
            return end;
        };
        at = child.end;
        if child.kind == TRUN {
            end = run_end(payload, child, base, end, inherited);
        }
    }
    end
}
