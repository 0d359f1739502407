//! Chunks: which row of `stsc` each has and where its samples lie (ISO/IEC 14496-12, 8.7.4, 8.7.5).
ghost use Rattle.std.specs.Prelude.{◌≡◌, ℕ, List, ◌+◌, ◌-◌, ◌*◌, ◌^◌, ◌<◌, ◌≤◌, ◌∷◌, ◌==◌, map, nat_lt, nat_eq, ◌||◌, ◌⊎◌, true, false, IsTrue};
ghost use Rattle.mp4_tables.specs.words.Rows.{HaveRoom, chunk_rows_at, offsets_at, offset_width};
ghost use Rattle.mp4_tables.specs.format.PlainSamples.{in_chunks_total};
ghost use Rattle.mp4_tables.specs.format.TableRules.{is_chunk_order, is_index};
ghost use Rattle.mp4_tables.specs.words.ChunkPlaces.{LiesInChunks};
ghost use Rattle.mp4_tables.specs.words.Stops.{StopsIn};
ghost use Rattle.mp4_tables.specs.words.TablesComing.{IsRowPlace, spots_coming, no_spots, next_spot, IsChunkPlace};
ghost use Rattle.mp4_tables.specs.words.TablesComing.{are_described as described_from};

use crate::places::{ChunkPlace, ChunkRowPlace, ChunksAt, RowsAt};
use crate::table_rows::{chunk_row_at, offset_at};
use mp4_boxes::{Count, Ticket};
use std::sync::ledger::Ledger;

// Before the first row.
#[inline]
pub(crate) fn no_row() -> ChunkRowPlace
    ensures { result ≡ record { row = 0; samples = 0; description = 0 } }
{
    ChunkRowPlace {
        row: 0,
        samples: 0,
        description: 0,
    }
}

// Goes on to the row of the next chunk, where `opened` chunks were opened.
#[inline]
pub(crate) fn next_row(
    ticket: Ticket,
    payload: &[u8],
    rows: RowsAt,
    opened: u32,
    place: ChunkRowPlace,
) -> ChunkRowPlace
    requires room { HaveRoom 12 payload.now rows }
    requires at { IsRowPlace (chunk_rows_at payload.now rows) opened place }
    requires within { place.row ≤ rows.count }
    ensures at { IsRowPlace (chunk_rows_at payload.now rows) (opened + 1) result }
    ensures within { result.row ≤ rows.count }
    ensures on { place.row ≤ result.row }
{
    if place.row < rows.count {
        let row = chunk_row_at(ticket, payload, rows, place.row);
        if u64::from(row.first) <= u64::from(opened) + 1 {
            return ChunkRowPlace {
                row: place.row + 1,
                samples: row.count,
                description: row.description,
            };
        }
    }
    place
}

#[tactic(auto, using(crate::proofs::ChunkLists::rising))]
// Whether the rows are in order: the first begins at chunk 1, if there are chunks, and each later
// one behind the one before.
pub(crate) fn are_ordered<L: Ledger>(
    payload: &[u8],
    rows: RowsAt,
    has_chunks: bool,
    steps: &mut Count<L>,
) -> bool
    requires { HaveRoom 12 payload.now rows }
    ensures same { result ≡ is_chunk_order (map (λ row. row.first) (chunk_rows_at payload.now rows))
        has_chunks }
    ensures cost { steps.new ≤ steps.old + rows.count }
    ensures counted { IsTrue result → steps.new ≡ steps.old + rows.count }
    ensures stopped { result ≡ false
        → StopsIn 1 steps.old steps.new
        (λ front. is_chunk_order (map (λ row. row.first) front) has_chunks ≡ false)
        (chunk_rows_at payload.now rows) }
{
    if rows.count == 0 {
        return !has_chunks;
    }
    let mut last = chunk_row_at(steps.tick(), payload, rows, 0).first;
    if has_chunks && last != 1 {
        return false;
    }
    for k in 1..rows.count {
        let first = chunk_row_at(steps.tick(), payload, rows, k).first;
        if first <= last {
            return false;
        }
        last = first;
    }
    true
}

#[tactic(auto, using(crate::proofs::ChunkLists::chunk_samples))]
// Whether the chunks hold `n` samples.
pub(crate) fn chunk_counts_are<L: Ledger>(
    payload: &[u8],
    rows: RowsAt,
    chunks: ChunksAt,
    n: u32,
    steps: &mut Count<L>,
) -> bool
    requires room { HaveRoom 12 payload.now rows }
    requires offsets { HaveRoom (offset_width chunks.is_wide) payload.now chunks.rows }
    requires ordered { is_chunk_order (map (λ row. row.first) (chunk_rows_at payload.now rows))
        (nat_lt 0 chunks.rows.count) ≡ true }
    ensures same { result
        ≡ (in_chunks_total (chunk_rows_at payload.now rows) 1 (offsets_at payload.now chunks) ==
        n) }
    ensures cost { steps.new ≤ steps.old + 2 * chunks.rows.count }
    ensures counted { IsTrue result → steps.new ≡ steps.old + 2 * chunks.rows.count }
    ensures stopped { result ≡ false → (steps.new ≡ steps.old + 2 * chunks.rows.count)
        ⊎ StopsIn 2 steps.old steps.new
        (λ front. n < in_chunks_total (chunk_rows_at payload.now rows) 1 front)
        (offsets_at payload.now chunks) }
{
    let mut place = no_row();
    let mut total: u64 = 0;
    for opened in 0..chunks.rows.count {
        steps.add(1);
        place = next_row(steps.tick(), payload, rows, opened, place);
        total += u64::from(place.samples);
        if total > u64::from(n) {
            return false;
        }
    }
    total == u64::from(n)
}

// Whether the chunk holds no samples, or its description is one of so many.
fn has_description(place: ChunkRowPlace, descriptions: u32) -> bool
    ensures { result ≡ (nat_eq place.samples 0 || is_index descriptions place.description) }
{
    place.samples == 0 || (1 <= place.description && place.description <= descriptions)
}

// Whether the description of each chunk that holds samples is one of so many.
pub(crate) fn are_described<L: Ledger>(
    payload: &[u8],
    rows: RowsAt,
    chunks: ChunksAt,
    descriptions: u32,
    steps: &mut Count<L>,
) -> bool
    requires room { HaveRoom 12 payload.now rows }
    requires offsets { HaveRoom (offset_width chunks.is_wide) payload.now chunks.rows }
    requires ordered { is_chunk_order (map (λ row. row.first) (chunk_rows_at payload.now rows))
        (nat_lt 0 chunks.rows.count) ≡ true }
    ensures cost { steps.new ≤ steps.old + 2 * chunks.rows.count }
    ensures counted { IsTrue result → steps.new ≡ steps.old + 2 * chunks.rows.count }
    ensures stopped { result ≡ false → StopsIn 2 steps.old steps.new
        (λ front. described_from descriptions (chunk_rows_at payload.now rows) 1 front ≡ false)
        (offsets_at payload.now chunks) }
    ensures same { result ≡ described_from descriptions (chunk_rows_at payload.now rows) 1
        (offsets_at payload.now chunks) }
{
    let mut place = no_row();
    for opened in 0..chunks.rows.count {
        steps.add(1);
        place = next_row(steps.tick(), payload, rows, opened, place);
        if !has_description(place, descriptions) {
            return false;
        }
    }
    true
}

#[tactic(auto, using(crate::proofs::ChunkLists::opening))]
// Opens chunks until a sample is left in one. The samples still to come are the same, and the place
// goes no way back.
#[cold]
#[inline(never)]
pub(crate) fn open_chunk(payload: &[u8], rows: &RowsAt, chunks: &ChunksAt, place: &mut ChunkPlace)
    requires room { HaveRoom 12 payload.now rows.now }
    requires offsets { HaveRoom (offset_width chunks.now.is_wide) payload.now chunks.now.rows }
    requires place { LiesInChunks payload.now rows.now chunks.now place.old }
    ensures same { spots_coming (chunk_rows_at payload.now rows.now)
        (offsets_at payload.now chunks.now) place.new
        ≡ spots_coming (chunk_rows_at payload.now rows.now) (offsets_at payload.now chunks.now)
        place.old }
    ensures settled { place.new.left ≡ 0
        → spots_coming (chunk_rows_at payload.now rows.now) (offsets_at payload.now chunks.now)
        place.new ≡ no_spots }
    ensures place { LiesInChunks payload.now rows.now chunks.now place.new }
    ensures on { (place.old.opened ≤ place.new.opened) × (place.old.row.row ≤ place.new.row.row) }
{
    while place.left == 0 && place.opened < chunks.rows.count {
        let opened = place.opened;
        let row = next_row(Ticket::of_place(), payload, *rows, opened, place.row);
        *place = ChunkPlace {
            opened: opened + 1,
            row,
            left: row.samples,
            at: offset_at(Ticket::of_place(), payload, *chunks, opened),
        };
    }
}

// Before the first sample.
pub(crate) fn first_chunk(payload: &[u8], rows: RowsAt, chunks: ChunksAt) -> ChunkPlace
    requires room { HaveRoom 12 payload.now rows }
    requires offsets { HaveRoom (offset_width chunks.is_wide) payload.now chunks.rows }
    requires ordered { is_chunk_order (map (λ row. row.first) (chunk_rows_at payload.now rows))
        (nat_lt 0 chunks.rows.count) ≡ true }
    ensures { (sizes : List ℕ)
        → IsChunkPlace (chunk_rows_at payload.now rows) (offsets_at payload.now chunks)
        sizes result 0 }
{
    let mut place = ChunkPlace {
        opened: 0,
        row: no_row(),
        left: 0,
        at: 0,
    };
    open_chunk(payload, &rows, &chunks, &mut place);
    place
}

#[tactic(auto, using(crate::proofs::ChunkLists::spots_first))]
// Passes the next sample, which has this size. Those behind it are still to come, and a sample is
// left in the chunk, or none is to come.
#[inline]
pub(crate) fn pass_sample(
    payload: &[u8],
    rows: &RowsAt,
    chunks: &ChunksAt,
    place: &mut ChunkPlace,
    size: u32,
)
    requires room { HaveRoom 12 payload.now rows.now }
    requires offsets { HaveRoom (offset_width chunks.now.is_wide) payload.now chunks.now.rows }
    requires place { LiesInChunks payload.now rows.now chunks.now place.old }
    requires some { 0 < place.old.left }
    requires fits { place.old.at + size < 2 ^ 64 }
    ensures next { (sizes : List ℕ)
        → spots_coming (chunk_rows_at payload.now rows.now) (offsets_at payload.now chunks.now)
        place.old (size ∷ sizes)
        ≡ next_spot place.old size
        ∷ spots_coming (chunk_rows_at payload.now rows.now) (offsets_at payload.now chunks.now)
        place.new sizes }
    ensures settled { place.new.left ≡ 0
        → spots_coming (chunk_rows_at payload.now rows.now) (offsets_at payload.now chunks.now)
        place.new ≡ no_spots }
    ensures place { LiesInChunks payload.now rows.now chunks.now place.new }
    ensures on { (place.old.opened ≤ place.new.opened) × (place.old.row.row ≤ place.new.row.row) }
{
    place.left -= 1;
    place.at += u64::from(size);
    if place.left == 0 {
        open_chunk(payload, rows, chunks, place);
    }
}

// Passes so many samples of the chunk, which together have so many bytes. Those behind them are
// still to come, and a sample is left in the chunk, or none is to come.
#[inline]
pub(crate) fn pass_samples(
    payload: &[u8],
    rows: &RowsAt,
    chunks: &ChunksAt,
    place: &mut ChunkPlace,
    count: u32,
    bytes: u64,
)
    requires room { HaveRoom 12 payload.now rows.now }
    requires offsets { HaveRoom (offset_width chunks.now.is_wide) payload.now chunks.now.rows }
    requires place { LiesInChunks payload.now rows.now chunks.now place.old }
    requires some { count ≤ place.old.left }
    requires fits { place.old.at + bytes < 2 ^ 64 }
    ensures same { spots_coming (chunk_rows_at payload.now rows.now)
        (offsets_at payload.now chunks.now) place.new
        ≡ spots_coming (chunk_rows_at payload.now rows.now) (offsets_at payload.now chunks.now)
        (record place.old { left = place.old.left - count; at = place.old.at + bytes }) }
    ensures settled { place.new.left ≡ 0
        → spots_coming (chunk_rows_at payload.now rows.now) (offsets_at payload.now chunks.now)
        place.new ≡ no_spots }
    ensures place { LiesInChunks payload.now rows.now chunks.now place.new }
    ensures on { (place.old.opened ≤ place.new.opened) × (place.old.row.row ≤ place.new.row.row) }
{
    place.left -= count;
    place.at += bytes;
    if place.left == 0 {
        open_chunk(payload, rows, chunks, place);
    }
}
