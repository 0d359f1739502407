//! Runs of a `traf` on the way of a walk.
ghost use Rattle.std.specs.Prelude.{List, ◌≡◌, ◌+◌, ◌<◌, ◌≤◌, ◌∷◌, drop, length};
ghost use Rattle.mp4_tables.specs.declared.sample.SampleAt.{SampleAt};
ghost use Rattle.mp4_boxes.specs.format.Layout.{column_values, sample_columns};
ghost use Rattle.mp4_frag.specs.words.ColumnsRead.{row_room};
ghost use Rattle.mp4_frag.specs.words.Reading.{SaysRow};
ghost use Rattle.mp4_frag.specs.words.PlacesIn.{row_behind, IsBoxIn, bytes_inside, left_coming, LiesIn, IsPlaceIn, IsRowPlace, SameToCome, run_work, work_behind, traf_work};
ghost use Rattle.mp4_frag.specs.words.Walks.{Reached, first_byte, rows_here, row_signed, run_coming, reached, begin as begin_by};

use crate::box_places::{Lying, box_at};
use crate::check::TRUN;
use crate::heads::Inherited;
use crate::places::{RowPlace, TrafPlace};
use crate::run_rows::{ReadRow, SaidRow, row_at, row_size, said_at};
use crate::trun::read_run;
use mp4_boxes::Ticket;

/// The next row of a run.
#[inline]
pub(crate) fn row_here(payload: &[u8], run: RowPlace) -> ReadRow
    requires some { 0 < run.left }
    requires place { IsRowPlace payload.now run }
    ensures { rows_here payload.now run
        ≡ row_signed result ∷ rows_here payload.now (row_behind run) }
{
    row_at(Ticket::of_place(), payload, run.row, run.bits)
}

/// What the next row of a run says, or what is inherited.
#[inline(always)]
pub(crate) fn said_here(payload: &[u8], run: RowPlace, inherited: Inherited) -> SaidRow
    requires some { 0 < run.left }
    requires place { IsRowPlace payload.now run }
    ensures { SaysRow inherited
        (column_values run.bits sample_columns (drop run.row payload.now)) result }
{
    said_at(Ticket::of_place(), payload, run.row, run.bits, inherited)
}

/// The row behind: `first_sample_flags` go for the first row alone.
#[inline]
pub(crate) fn next_row(run: RowPlace) -> RowPlace
    requires some { 0 < run.left }
    requires width { run.width ≡ row_room run.bits }
    requires fits { run.row + row_room run.bits ≤ usize.MAX }
    ensures { result ≡ row_behind run }
{
    RowPlace {
        row: run.row + run.width,
        left: run.left - 1,
        first_flags: None::<u32>,
        ..run
    }
}

/// A place in a file, the last one where 64 bits have none for it.
pub(crate) fn file_place(at: i128) -> u64
    ensures { result ≡ first_byte at }
{
    u64::try_from(at).unwrap_or(u64::MAX)
}

// Where a run begins: at its offset from the base, else where the data before it ends.
fn begin(base: i128, before: u64, data_offset: Option<i32>) -> u64
    ensures { result ≡ begin_by base before data_offset }
{
    match data_offset {
        Some(offset) => file_place(base.saturating_add(i128::from(offset))),
        None => before,
    }
}

// Goes to the samples of a run. Those to come are the same as before it.
fn open_run(payload: &[u8], lying: Lying, place: &mut TrafPlace)
    requires lies { IsBoxIn payload.now lying }
    requires none { place.old.run.left ≡ 0 }
    requires place { LiesIn payload.now place.old }
    requires work { place.old.passed + run_work (bytes_inside payload.now lying)
        + work_behind payload.now lying.end ≤ traf_work payload.now }
    ensures place { LiesIn payload.now place.new }
    ensures next { place.new.next ≡ lying.end }
    ensures on { place.old.passed ≤ place.new.passed }
    ensures time { place.new.dts ≡ place.old.dts }
    ensures coming { (more : Reached → List SampleAt)
        → left_coming payload.now place.new more
        ≡ run_coming (reached payload.now place.old) (bytes_inside payload.now lying) more }
{
    place.next = lying.end;
    place.passed = place.passed.saturating_add(1);
    let Ok(run) = read_run(&payload[lying.inside..lying.end]) else {
        return;
    };
    place.number = place.number.saturating_add(u64::from(run.count));
    place.at = begin(place.base, place.at, run.data_offset);
    place.run = RowPlace {
        row: lying.inside + run.rows,
        left: run.count,
        bits: run.bits,
        width: row_size(run.bits),
        first_flags: run.first_flags,
    };
}

// Goes behind the next box. The same samples are to come.
fn pass_box(payload: &[u8], place: &mut TrafPlace)
    requires none { place.old.run.left ≡ 0 }
    requires some { place.old.next < length payload.now }
    requires place { LiesIn payload.now place.old }
    ensures place { LiesIn payload.now place.new }
    ensures next { place.old.next < place.new.next }
    ensures on { place.old.passed ≤ place.new.passed }
    ensures time { place.new.dts ≡ place.old.dts }
    ensures coming { SameToCome payload.now place.old place.new }
{
    let Some(child) = box_at(payload, place.next, payload.len()) else {
        place.next = payload.len();
        return;
    };
    if child.kind == TRUN {
        open_run(payload, child, place);
    } else {
        place.next = child.end;
    }
}

/// Passes boxes until a sample is left. The same samples are to come.
#[cold]
#[inline(never)]
pub(crate) fn settle(payload: &[u8], place: &mut TrafPlace)
    requires { LiesIn payload.now place.old }
    ensures place { IsPlaceIn payload.now place.new }
    ensures on { place.old.passed ≤ place.new.passed }
    ensures time { place.new.dts ≡ place.old.dts }
    ensures coming { SameToCome payload.now place.old place.new }
{
    while place.run.left == 0 && place.next < payload.len() {
        pass_box(payload, place);
    }
}
