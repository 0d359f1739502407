//! A walk over the samples of tables, from place to place.
ghost use Rattle.std.specs.Prelude.{◌≡◌, ◌+◌, ◌*◌, ◌<◌, ◌≤◌, ◌∷◌, drop, length, slice_index, option_map};
ghost use Rattle.byteorder.specs.Endian.{twos_complement};
ghost use Rattle.mp4_tables.specs.words.Rows.{HaveRoom, numbers_at, runs_at, sizes_at};
ghost use Rattle.mp4_tables.specs.words.TablesComing.{IsRunPlace};
ghost use Rattle.mp4_tables.specs.format.PlainSamples.{non_sync};
ghost use Rattle.mp4_tables.specs.words.Next.{PassesNonSync};
ghost use Rattle.mp4_tables.specs.words.Timed.{samples_of};
ghost use Rattle.mp4_tables.specs.words.Accepted.{IsAccepted, IsPlace, HaveBytes, HaveOffsets, HaveSync, IsRunPlaceAt, IsSyncPlaceIn, AreInOrder, tables_at, bytes_at, bytes_for, passed, offset_values, flags_here};
ghost use Rattle.mp4_tables.specs.words.Accepted.{offset_rows as rows_of_offsets};

use crate::chunks::{first_chunk, pass_sample, pass_samples};
use crate::indexes::{IndexPlaces, NO_ROWS};
use crate::places::{BytesAt, OffsetsAt, RowsAt, RunPlace, SyncPlace, TablePlace, TablesAt};
use crate::sample::SampleAt;
use crate::sizes::{bytes_of, size_at};
use crate::stts_rows::{BEFORE_ROWS, pass, pass_many, settle};
use crate::sync_samples::{first_sync, pass_sync};
use mp4_boxes::Ticket;

// The rows of offsets, none where there is no table.
#[inline]
fn offset_rows(offsets: Option<OffsetsAt>) -> RowsAt
    ensures { result ≡ rows_of_offsets offsets }
{
    match offsets {
        Some(at) => at.rows,
        None => NO_ROWS,
    }
}

// An offset as two's complement.
#[inline]
fn signed(value: u32) -> i32
    ensures { result ≡ twos_complement 4 value }
{
    value.cast_signed()
}

// The byte of `sdtp` of sample `i`, from 0; 0 where there is no table.
#[inline]
fn dependency_at(payload: &[u8], dependencies: Option<BytesAt>, i: u32) -> u32
    requires have { HaveBytes payload.now dependencies }
    requires inside { i
        < length (bytes_for (i + 1) (option_map (bytes_at payload.now) dependencies)) }
    ensures is { result
        ≡ slice_index (bytes_for (i + 1) (option_map (bytes_at payload.now) dependencies)) i }
    ensures small { result < 256 }
{
    match dependencies {
        Some(at) => u32::from(payload[at.place + i as usize]),
        None => 0,
    }
}

// Whether sample number `i`, from 1, is no sync sample: 0 or 1.
#[inline]
fn non_sync_at(payload: &[u8], sync: Option<RowsAt>, place: SyncPlace, i: u32) -> u32
    requires at { IsSyncPlaceIn payload.now sync place i }
    requires some { 0 < i }
    ensures is { result ≡ non_sync (option_map (numbers_at 4 payload.now) sync) i }
    ensures small { result ≤ 1 }
{
    match sync {
        Some(_) => { if place.next == i { 0 } else { 1 } }
        None => 0,
    }
}

// The flags of the sample before which the place lies.
#[inline(always)]
fn flags_at(payload: &[u8], at: &TablesAt, place: &TablePlace) -> u32
    requires ok { IsAccepted payload.now at.now }
    requires place { IsPlace payload.now at.now place.now }
    requires inside { place.now.number < at.now.sizes.rows.count }
    ensures { result ≡ flags_here payload.now at.now place.now }
{
    let count = at.sizes.rows.count;
    prove!(place.number < count);
    let number = place.number + 1;
    let dependency = dependency_at(payload, at.dependencies, place.number);
    let non_sync = non_sync_at(payload, at.sync, place.sync, number);
    dependency * 0x10_0000 + non_sync * 0x1_0000
}

// The sample before which the place lies.
#[inline(always)]
pub(crate) fn sample_here(payload: &[u8], at: &TablesAt, place: &TablePlace) -> SampleAt
    requires ok { IsAccepted payload.now at.now }
    requires place { IsPlace payload.now at.now place.now }
    requires inside { place.now.number < at.now.sizes.rows.count }
    ensures { drop place.now.number (samples_of (tables_at payload.now at.now)) ≡ result
        ∷ drop (place.now.number + 1) (samples_of (tables_at payload.now at.now)) }
{
    SampleAt {
        dts: place.dts,
        duration: place.duration.value,
        cto: signed(place.offset.value),
        flags: flags_at(payload, at, place),
        description: place.chunk.row.description,
        at: place.chunk.at,
        size: size_at(Ticket::of_place(), payload, at.sizes, place.number),
        groups: place.groups.here(),
        number: place.number,
    }
}

// Passes sample number `i`, from 1, where there is a table of sync samples.
#[inline]
fn pass_sync_in(payload: &[u8], sync: Option<RowsAt>, place: &mut SyncPlace, i: u32)
    requires have { HaveSync payload.now sync }
    requires at { IsSyncPlaceIn payload.now sync place.old i }
    requires some { 0 < i }
    ensures at { IsSyncPlaceIn payload.now sync place.new (i + 1) }
    ensures on { place.old.row ≤ place.new.row }
{
    if let Some(rows) = sync {
        pass_sync(payload, rows, place, i);
    }
}

// Goes one sample on, which has this size.
#[inline(always)]
pub(crate) fn pass_place(payload: &[u8], at: &TablesAt, place: &mut TablePlace, size: u32)
    requires ok { IsAccepted payload.now at.now }
    requires place { IsPlace payload.now at.now place.old }
    requires inside { place.old.number < at.now.sizes.rows.count }
    requires size { size
        ≡ slice_index (sizes_at payload.now at.now.sizes) place.old.number }
    ensures place { IsPlace payload.now at.now place.new }
    ensures number { place.new.number ≡ place.old.number + 1 }
    ensures on { passed place.old ≤ passed place.new }
{
    let count = at.sizes.rows.count;
    let number = place.number;
    prove!(number < count);
    place.number = number + 1;
    place.dts += u64::from(place.duration.value);
    pass(payload, at.durations, &mut place.duration);
    pass(payload, offset_rows(at.offsets), &mut place.offset);
    pass_sample(payload, &at.chunk_rows, &at.chunks, &mut place.chunk, size);
    pass_sync_in(payload, at.sync, &mut place.sync, number + 1);
    place.groups.pass(payload, &at.groups.rows);
}

// How many of all samples come behind so many and before the next number of `stss`.
#[inline]
fn before_sync(number: u32, all: u32, next: u32) -> u32
    requires { number ≤ all }
    ensures inside { number + result ≤ all }
    ensures before { number < next → number + result < next }
{
    let left = all - number;
    if next > number {
        left.min(next - number - 1)
    } else {
        left
    }
}

// Passes samples that are no sync samples and have this description, at most so many, where no
// index is left: chunk by chunk, and then row by row in `stts` and in `ctts`. Up to the next sync
// sample the places in `stss` and in the `sbgp`s stay.
pub(crate) fn pass_non_sync(
    payload: &[u8],
    at: &TablesAt,
    place: &mut TablePlace,
    description: u32,
    most: u32,
) -> u32
    requires ok { IsAccepted payload.now at.now }
    requires place { IsPlace payload.now at.now place.old }
    ensures place { IsPlace payload.now at.now place.new }
    ensures few { result ≤ most }
    ensures passed { PassesNonSync description result
        (drop place.old.number (samples_of (tables_at payload.now at.now)))
        (drop place.new.number (samples_of (tables_at payload.now at.now))) }
    ensures on { passed place.old ≤ passed place.new }
{
    let Some(_) = at.sync else {
        return 0;
    };
    if !place.groups.are_over() {
        return 0;
    }
    let first = place.number;
    let few = before_sync(first, at.sizes.rows.count, place.sync.next).min(most);
    let mut chunk = place.chunk;
    let mut count = 0;
    while count < few && chunk.row.description == description {
        let some = chunk.left.min(few - count);
        let bytes = bytes_of(payload, at.sizes, first + count, some);
        pass_samples(payload, &at.chunk_rows, &at.chunks, &mut chunk, some, bytes);
        count += some;
    }
    place.number = first + count;
    place.dts += pass_many(payload, at.durations, &mut place.duration, count);
    pass_many(payload, offset_rows(at.offsets), &mut place.offset, count);
    place.chunk = chunk;
    count
}

// Before the first composition offset: one 0 for each sample where there is no table.
#[inline]
fn first_offset(payload: &[u8], offsets: Option<OffsetsAt>, n: u32) -> RunPlace
    requires { HaveOffsets payload.now offsets }
    ensures { IsRunPlace (runs_at payload.now (rows_of_offsets offsets)) result
        (offset_values payload.now offsets n) }
{
    match offsets {
        Some(at) => settle(payload, at.rows, BEFORE_ROWS),
        None => RunPlace {
            row: 0,
            left: n,
            value: 0,
        },
    }
}

// Before the first duration.
#[tactic(auto, using(crate::proofs::GroupLists::starting))]
fn first_duration(payload: &[u8], rows: RowsAt) -> RunPlace
    requires { HaveRoom 8 payload.now rows }
    ensures { IsRunPlaceAt (runs_at payload.now rows) result 0 }
{
    settle(payload, rows, BEFORE_ROWS)
}

// Before the first sync sample, where there is a table of them.
fn first_sync_in(payload: &[u8], sync: Option<RowsAt>, n: u32) -> SyncPlace
    requires have { HaveSync payload.now sync }
    requires ordered { AreInOrder payload.now sync n }
    ensures { IsSyncPlaceIn payload.now sync result 1 }
{
    match sync {
        Some(rows) => first_sync(payload, rows, n),
        None => SyncPlace { row: 0, next: 0 },
    }
}

// The place before the first sample.
pub(crate) fn first_place(payload: &[u8], at: &TablesAt) -> TablePlace
    requires { IsAccepted payload.now at.now }
    ensures place { IsPlace payload.now at.now result }
    ensures number { result.number ≡ 0 }
{
    let count = at.sizes.rows.count;
    let duration = first_duration(payload, at.durations);
    let offset = first_offset(payload, at.offsets, count);
    let chunk = first_chunk(payload, at.chunk_rows, at.chunks);
    let sync = first_sync_in(payload, at.sync, count);
    let groups = IndexPlaces::first(payload, &at.groups.rows);
    TablePlace {
        number: 0,
        dts: 0,
        duration,
        offset,
        chunk,
        sync,
        groups,
    }
}
