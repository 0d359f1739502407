//! The tables of a track, read and held against each other, in the order in which a file is judged.
ghost use Rattle.std.specs.Prelude.{◌≡◌, ◌+◌, ◌*◌, ◌≤◌, length, nat_eq, IfOk};
ghost use Rattle.mp4_boxes.specs.format.Layout.{version};
ghost use Rattle.mp4_boxes.specs.words.View.{box_seen};
ghost use Rattle.mp4_boxes.specs.format.FirstFault.{FirstNamed, NamesFirst};
ghost use Rattle.mp4_tables.specs.format.FirstFault.{table_tests};
ghost use Rattle.mp4_tables.specs.words.RowTests.{duration_tests, offset_tests, chunk_tests, chunk_row_tests, place_tests, sync_tests, dependency_tests};
ghost use Rattle.mp4_tables.specs.words.Leaves.{HasTables, SizesKnown, DurationsRead, OffsetsRead, ChunksRead, ChunkRowsRead, IsOffsetsLeaf, SyncRead, DependenciesRead, SizesRead, PlacesRead, TablesRead, boxes_of, surroundings_of};
ghost use Rattle.mp4_tables.specs.words.Accepted.{offset_rows, offset_steps, count_of, rows_in, check_steps};

use crate::chunks::{are_described, are_ordered, chunk_counts_are};
use crate::data_places::lie_within;
use crate::group_checks::read_groups;
use crate::leaves::{Limits, first_of, only_of, place_in, table_rows, version_of};
use crate::places::{BytesAt, ChunksAt, OffsetsAt, RowsAt, SizesAt, TablesAt};
use crate::size_checks::read_sizes;
use crate::stts_rows::{are_below, counts_are};
use crate::sync_samples::are_numbers;
use mp4_boxes::{BoxView, Count, Fault, FourCc, Kind};
use std::sync::ledger::Ledger;

const STCO: FourCc = FourCc(*b"stco");

const CO64: FourCc = FourCc(*b"co64");

// The durations of `n` samples.
pub(crate) fn read_durations<L: Ledger>(
    stbl: BoxView,
    limits: Limits,
    n: u32,
    steps: &mut Count<L>,
) -> Result<RowsAt, Fault>
    requires tables { HasTables (box_seen stbl) }
    requires sizes { SizesKnown (box_seen stbl) n }
    ensures rows { IfOk result (DurationsRead (box_seen stbl.entry) n) }
    ensures exact { NamesFirst (duration_tests limits (box_seen stbl.entry)) result }
    ensures passed { IfOk result (λ r. steps.new ≡ steps.old + r.count) }
    ensures work { 4 * steps.new ≤ 4 * steps.old + length (box_seen stbl.entry).payload }
{
    let leaf = only_of(stbl, FourCc(*b"stts"));
    let rows = table_rows(stbl, leaf, 0, 8)?;
    if !counts_are(stbl.payload(), rows, n, steps) {
        return Err(leaf.fault(Kind::CountMismatch));
    }
    Ok(rows)
}

// Whether a `ctts` has signed offsets.
fn is_signed(leaf: BoxView) -> bool
    requires { 1 ≤ length (box_seen leaf).payload }
    ensures { result ≡ nat_eq (version (box_seen leaf.entry).payload) 1 }
{
    leaf.payload()[0] == 1
}

// The composition offsets of `n` samples, where there is a table of them.
pub(crate) fn read_offsets<L: Ledger>(
    stbl: BoxView,
    limits: Limits,
    n: u32,
    steps: &mut Count<L>,
) -> Result<Option<OffsetsAt>, Fault>
    requires tables { HasTables (box_seen stbl) }
    requires sizes { SizesKnown (box_seen stbl) n }
    ensures rows { IfOk result (OffsetsRead (box_seen stbl.entry) n) }
    ensures exact { NamesFirst (offset_tests limits (box_seen stbl.entry)) result }
    ensures passed { IfOk result (λ o. steps.new ≤ steps.old + 2 * (offset_rows o).count) }
    ensures work { 4 * steps.new ≤ 4 * steps.old + length (box_seen stbl.entry).payload }
    ensures counted { IfOk result (λ o. steps.new ≡ steps.old + offset_steps o) }
{
    let Some(leaf) = first_of(stbl, FourCc(*b"ctts")) else {
        return Ok(None);
    };
    let rows = table_rows(stbl, leaf, 1, 8)?;
    if !counts_are(stbl.payload(), rows, n, steps) {
        return Err(leaf.fault(Kind::CountMismatch));
    }
    if is_signed(leaf) {
        return Ok(Some(OffsetsAt {
            rows,
            is_signed: true,
        }));
    }
    if !are_below(stbl.payload(), rows, 0x8000_0000, steps) {
        return Err(leaf.fault(Kind::OffsetTooLarge));
    }
    Ok(Some(OffsetsAt {
        rows,
        is_signed: false,
    }))
}

// The offsets of the chunks.
pub(crate) fn read_chunks(stbl: BoxView, limits: Limits) -> Result<ChunksAt, Fault>
    requires tables { HasTables (box_seen stbl) }
    ensures rows { IfOk result (ChunksRead (box_seen stbl.entry)) }
    ensures exact { NamesFirst (chunk_tests limits (box_seen stbl.entry)) result }
{
    match first_of(stbl, STCO) {
        Some(leaf) => {
            let rows = table_rows(stbl, leaf, 0, 4)?;
            Ok(ChunksAt {
                rows,
                is_wide: false,
            })
        }
        None => {
            let wide_leaf = only_of(stbl, CO64);
            let rows = table_rows(stbl, wide_leaf, 0, 8)?;
            Ok(ChunksAt {
                rows,
                is_wide: true,
            })
        }
    }
}

// The box that has them.
pub(crate) fn offsets_leaf<'a>(stbl: BoxView<'a>) -> BoxView<'a>
    requires tables { HasTables (box_seen stbl) }
    ensures { IsOffsetsLeaf (box_seen stbl.entry) (box_seen result) }
{
    match first_of(stbl, STCO) {
        Some(leaf) => leaf,
        None => only_of(stbl, CO64),
    }
}

// The rows of `stsc`, which give the chunks `n` samples.
pub(crate) fn read_chunk_rows<L: Ledger>(
    stbl: BoxView,
    limits: Limits,
    chunks: ChunksAt,
    n: u32,
    steps: &mut Count<L>,
) -> Result<RowsAt, Fault>
    requires tables { HasTables (box_seen stbl) }
    requires sizes { SizesKnown (box_seen stbl) n }
    requires chunks { ChunksRead (box_seen stbl) chunks }
    ensures rows { IfOk result (ChunkRowsRead limits (box_seen stbl.entry) n) }
    ensures exact { NamesFirst (chunk_row_tests limits (box_seen stbl.entry)) result }
    ensures passed { IfOk result (λ r. steps.new ≡ steps.old + r.count + 4 * chunks.rows.count) }
    ensures work { 4 * steps.new ≤ 4 * steps.old + 5 * length (box_seen stbl.entry).payload }
{
    let leaf = only_of(stbl, FourCc(*b"stsc"));
    let rows = table_rows(stbl, leaf, 0, 12)?;
    let payload = stbl.payload();
    if !are_ordered(payload, rows, 0 < chunks.rows.count, steps) {
        return Err(leaf.fault(Kind::BadOrder));
    }
    if !chunk_counts_are(payload, rows, chunks, n, steps) {
        return Err(leaf.fault(Kind::CountMismatch));
    }
    if !are_described(payload, rows, chunks, limits.descriptions, steps) {
        return Err(leaf.fault(Kind::BadDescriptionIndex));
    }
    Ok(rows)
}

// The numbers of sync samples among `n`, where there is a table of them.
pub(crate) fn read_sync<L: Ledger>(
    stbl: BoxView,
    limits: Limits,
    n: u32,
    steps: &mut Count<L>,
) -> Result<Option<RowsAt>, Fault>
    requires tables { HasTables (box_seen stbl) }
    requires sizes { SizesKnown (box_seen stbl) n }
    ensures rows { IfOk result (SyncRead (box_seen stbl.entry) n) }
    ensures exact { NamesFirst (sync_tests limits (box_seen stbl.entry)) result }
    ensures passed { IfOk result (λ o. steps.new ≡ steps.old + count_of o) }
    ensures work { 4 * steps.new ≤ 4 * steps.old + length (box_seen stbl.entry).payload }
{
    let Some(leaf) = first_of(stbl, FourCc(*b"stss")) else {
        return Ok(None);
    };
    let rows = table_rows(stbl, leaf, 0, 4)?;
    if !are_numbers(stbl.payload(), rows, n, steps) {
        return Err(leaf.fault(Kind::BadOrder));
    }
    Ok(Some(rows))
}

// The bytes of `sdtp` for `n` samples, where there is that table.
pub(crate) fn read_dependencies(
    stbl: BoxView,
    limits: Limits,
    n: u32,
) -> Result<Option<BytesAt>, Fault>
    requires tables { HasTables (box_seen stbl) }
    requires sizes { SizesKnown (box_seen stbl) n }
    ensures rows { IfOk result (DependenciesRead (box_seen stbl.entry) n) }
    ensures exact { NamesFirst (dependency_tests limits (box_seen stbl.entry)) result }
{
    let Some(leaf) = first_of(stbl, FourCc(*b"sdtp")) else {
        return Ok(None);
    };
    version_of(leaf, 0)?;
    let length = leaf.payload().len() - 4;
    if length < n as usize {
        return Err(leaf.fault(Kind::ShortBox));
    }
    Ok(Some(BytesAt {
        place: place_in(stbl, leaf) + 4,
        length,
    }))
}

// Whether the samples lie in the file.
pub(crate) fn check_places<L: Ledger>(
    stbl: BoxView,
    limits: Limits,
    sizes: SizesAt,
    chunks: ChunksAt,
    rows: RowsAt,
    steps: &mut Count<L>,
) -> Result<(), Fault>
    requires tables { HasTables (box_seen stbl) }
    requires sizes { SizesRead limits (box_seen stbl) sizes }
    requires chunks { ChunksRead (box_seen stbl) chunks }
    requires rows { ChunkRowsRead limits (box_seen stbl) sizes.rows.count rows }
    ensures places { IfOk result (λ _. PlacesRead limits (box_seen stbl.entry)) }
    ensures exact { NamesFirst (place_tests limits (box_seen stbl.entry)) result }
    ensures passed { steps.new ≤ steps.old + 2 * sizes.rows.count + 2 * chunks.rows.count }
    ensures counted { IfOk result
        (λ _. steps.new ≡ steps.old + 2 * sizes.rows.count + 2 * chunks.rows.count) }
{
    if !lie_within(stbl.payload(), sizes, rows, chunks, limits.file_len, steps) {
        return Err(offsets_leaf(stbl).fault(Kind::SampleOutsideFile));
    }
    Ok(())
}

// The tables of an `stbl`.
pub(crate) fn read_tables<L: Ledger>(
    stbl: BoxView,
    limits: Limits,
    steps: &mut Count<L>,
) -> Result<TablesAt, Fault>
    requires { HasTables (box_seen stbl) }
    ensures tables { IfOk result (TablesRead limits (box_seen stbl.entry)) }
    ensures exact { FirstNamed (table_tests limits.room (surroundings_of limits)
        (boxes_of (box_seen stbl.entry))) result }
    ensures passed { IfOk result (λ at. steps.new ≤ steps.old + 6 * rows_in at
        + 2 * at.sizes.rows.count) }
    ensures within { IfOk result (λ at. steps.new ≤ steps.old
        + 4 * length (box_seen stbl.entry).payload + 2 * at.sizes.rows.count) }
    ensures work { steps.new ≤ steps.old + 4 * length (box_seen stbl.entry).payload
        + 2 * limits.room }
    ensures counted { IfOk result (λ at. steps.new ≡ steps.old + check_steps at) }
{
    let sizes = read_sizes(stbl, limits)?;
    let n = sizes.rows.count;
    let durations = read_durations(stbl, limits, n, steps)?;
    let offsets = read_offsets(stbl, limits, n, steps)?;
    let chunks = read_chunks(stbl, limits)?;
    let chunk_rows = read_chunk_rows(stbl, limits, chunks, n, steps)?;
    check_places(stbl, limits, sizes, chunks, chunk_rows, steps)?;
    let sync = read_sync(stbl, limits, n, steps)?;
    let dependencies = read_dependencies(stbl, limits, n)?;
    let groups = read_groups(stbl, limits, n, steps)?;
    Ok(TablesAt {
        sizes,
        durations,
        offsets,
        chunk_rows,
        chunks,
        sync,
        dependencies,
        groups,
    })
}
