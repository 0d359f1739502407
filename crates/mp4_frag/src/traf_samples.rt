//! A walk over the samples of a `traf`, from place to place.
ghost use Rattle.std.specs.Prelude.{ℕ, List, ◌≡◌, ◌<◌, ◌≤◌, drop, slice_get, None, Some};
ghost use Rattle.byteorder.specs.Endian.{twos_complement};
ghost use Rattle.mp4_boxes.specs.format.Bytes.{AreBytes};
ghost use Rattle.mp4_tables.specs.words.Indexes.{AreIndexPlaces};
ghost use Rattle.mp4_tables.specs.words.Keys.{keys_seen};
ghost use Rattle.mp4_tables.specs.words.Next.{IsNext, PassesNonSync};
ghost use Rattle.mp4_frag.specs.words.ColumnsRead.{row_room};
ghost use Rattle.mp4_frag.specs.format.FragmentSamples.{flags_of as flags_by};
ghost use Rattle.mp4_frag.specs.words.PlacesIn.{LiesIn, IsPlaceIn};
ghost use Rattle.mp4_frag.specs.words.Times.{time_behind};
ghost use Rattle.mp4_frag.specs.words.Walks.{at_first, number_here as number_by, reached, coming, samples_in};

use crate::heads::nothing_inherited;
use crate::opened_runs::{file_place, next_row, row_here, said_here, settle};
use crate::opened_trafs::open_traf;
use crate::places::{RowPlace, TrafPlace};
use crate::trex::Trex;
use mp4_tables::{Keys, SampleAt, no_indexes};

// The flags of a sample: those of its run's first sample, its own, or the inherited ones. The four
// highest bits are reserved.
#[inline]
fn flags_of(first: Option<u32>, own: Option<u32>, inherited: u32) -> u32
    ensures { result ≡ flags_by first own None inherited }
{
    match first {
        Some(flags) => flags % 0x1000_0000,
        None => own.unwrap_or(inherited) % 0x1000_0000,
    }
}

// An offset as two's complement.
#[inline]
fn signed(value: u32) -> i32
    ensures { result ≡ twos_complement 4 value }
{
    value.cast_signed()
}

// The number of the next sample: so many come before those behind the run, which has so many left.
#[inline]
fn number_here(behind: u64, left: u32) -> u32
    requires { left ≤ behind }
    ensures { result ≡ number_by behind left }
{
    u32::try_from(behind - u64::from(left)).unwrap_or(u32::MAX)
}

/// The sample before which the place lies.
#[inline(always)]
pub(crate) fn sample_here(payload: &[u8], place: &TrafPlace) -> SampleAt
    requires some { 0 < place.now.run.left }
    requires place { LiesIn payload.now place.now }
    ensures { slice_get (coming payload.now place.now) 0 ≡ Some result }
{
    let said = said_here(payload, place.run, place.inherited);
    SampleAt {
        dts: place.dts,
        duration: said.duration,
        cto: signed(said.offset),
        flags: flags_of(place.run.first_flags, None, said.flags),
        description: place.inherited.description,
        at: place.at,
        size: said.size,
        groups: place.indexes.here(),
        number: number_here(place.number, place.run.left),
    }
}

// Passes the next sample, which has the duration and the size of this one and may be the last of
// its run: those behind it are to come, with their numbers and times.
#[inline(always)]
fn pass_row(payload: &[u8], place: &mut TrafPlace, sample: &SampleAt)
    requires some { 0 < place.old.run.left }
    requires place { LiesIn payload.now place.old }
    requires next { IsNext sample.now (coming payload.now place.old) }
    ensures place { LiesIn payload.now place.new }
    ensures on { place.old.passed ≤ place.new.passed }
    ensures time { time_behind payload.now place.new ≡ time_behind payload.now place.old }
    ensures coming { coming payload.now place.new ≡ drop 1 (coming payload.now place.old) }
{
    place.dts = place.dts.saturating_add(u64::from(sample.duration));
    place.at = place.at.saturating_add(u64::from(sample.size));
    place.run = next_row(place.run);
    place.passed = place.passed.saturating_add(1);
    place.indexes.pass(payload, &place.index_rows);
}

/// Goes one sample on, which has the duration and the size of this one: those behind it are to
/// come, at their times.
#[inline(always)]
pub(crate) fn pass_sample(payload: &[u8], place: &mut TrafPlace, sample: &SampleAt)
    requires some { 0 < place.old.run.left }
    requires place { LiesIn payload.now place.old }
    requires next { IsNext sample.now (coming payload.now place.old) }
    ensures place { IsPlaceIn payload.now place.new }
    ensures on { place.old.passed ≤ place.new.passed }
    ensures time { time_behind payload.now place.new ≡ time_behind payload.now place.old }
    ensures coming { coming payload.now place.new ≡ drop 1 (coming payload.now place.old) }
{
    pass_row(payload, place, sample);
    if place.run.left == 0 {
        settle(payload, place);
    }
}

// Passes samples of the run in hand that are no sync samples and have this description, at most so
// many, where no index is left. How long they last and how many bytes they take is summed up first.
fn pass_rows(payload: &[u8], place: &mut TrafPlace, description: u32, most: u32) -> u32
    requires { LiesIn payload.now place.old }
    ensures place { LiesIn payload.now place.new }
    ensures on { place.old.passed ≤ place.new.passed }
    ensures few { result ≤ most }
    ensures time { time_behind payload.now place.new ≡ time_behind payload.now place.old }
    ensures passed { PassesNonSync description result (coming payload.now place.old)
        (coming payload.now place.new) }
{
    let inherited = place.inherited;
    if inherited.description != description || !place.indexes.are_over() {
        return 0;
    }
    let mut run = place.run;
    let mut lasts: u64 = 0;
    let mut bytes: u64 = 0;
    let mut count = 0;
    while count < most && run.left > 0 {
        let row = row_here(payload, run);
        let flags = flags_of(run.first_flags, row.flags, inherited.flags);
        if flags / 0x1_0000 % 2 == 0 {
            break;
        }
        lasts += u64::from(row.duration.unwrap_or(inherited.duration));
        bytes += u64::from(row.size.unwrap_or(inherited.size));
        run = next_row(run);
        count += 1;
    }
    place.run = run;
    place.dts = place.dts.saturating_add(lasts);
    place.at = place.at.saturating_add(bytes);
    place.passed = place.passed.saturating_add(u64::from(count));
    count
}

/// Passes samples that are no sync samples and have this description, at most so many, and says how
/// many these are: those behind it are to come, with their numbers and times.
pub(crate) fn pass_non_sync(
    payload: &[u8],
    place: &mut TrafPlace,
    description: u32,
    most: u32,
) -> u32
    requires { IsPlaceIn payload.now place.old }
    ensures place { IsPlaceIn payload.now place.new }
    ensures on { place.old.passed ≤ place.new.passed }
    ensures few { result ≤ most }
    ensures time { time_behind payload.now place.new ≡ time_behind payload.now place.old }
    ensures passed { PassesNonSync description result (coming payload.now place.old)
        (coming payload.now place.new) }
{
    let count = pass_rows(payload, place, description, most);
    if place.run.left == 0 {
        settle(payload, place);
    }
    count
}

/// Before the boxes of a `traf` whose runs are counted from this base. It is a step itself.
pub(crate) fn first_place(base: i128, number: u32, dts: u64) -> TrafPlace
    ensures first { (result.next ≡ 0) × (result.run.left ≡ 0) × (result.run.row ≡ 0)
        × (result.passed ≡ 1) }
    ensures width { result.run.width ≡ row_room result.run.bits }
    ensures indexes { (payload : List ℕ)
        → AreIndexPlaces payload result.index_rows result.indexes }
    ensures time { result.dts ≡ dts }
    ensures reached { (payload : List ℕ) → reached payload result ≡ at_first base number dts }
{
    let (index_rows, indexes) = no_indexes();
    TrafPlace {
        number: u64::from(number),
        dts,
        at: file_place(base),
        next: 0,
        base,
        inherited: nothing_inherited(),
        run: RowPlace {
            row: 0,
            left: 0,
            bits: 0,
            width: 0,
            first_flags: None,
        },
        index_rows,
        indexes,
        passed: 1,
    }
}

/// Where the samples of a `traf` begin: its runs are counted from this base, and the first sample
/// has this number and this decode time.
#[derive(Clone, Copy)]
pub(crate) struct Beginning {
    pub(crate) base: i128,
    pub(crate) number: u32,
    pub(crate) dts: u64,
}

/// Before the first sample of the track with this ID in a `traf` that begins there. A `traf` that
/// does not name the track gives none.
pub(crate) fn begin_traf(
    payload: &[u8],
    from: Beginning,
    id: u32,
    trex: Trex,
    keys: Keys,
) -> TrafPlace
    ensures bytes { AreBytes payload.now }
    ensures place { IsPlaceIn payload.now result }
    ensures time { result.dts ≡ from.dts }
    ensures coming { coming payload.now result
        ≡ samples_in payload.now from.base id trex from.number from.dts (keys_seen keys) }
{
    let mut place = first_place(from.base, from.number, from.dts);
    if open_traf(payload, id, trex, keys, &mut place) {
        settle(payload, &mut place);
    } else {
        place.next = payload.len();
    }
    place
}
