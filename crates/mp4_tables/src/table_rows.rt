//! Rows of tables, read from their bytes.
ghost use Rattle.std.specs.Prelude.{◌≡◌, ◌+◌, ◌<◌, ◌∷◌, drop};
ghost use Rattle.mp4_tables.specs.words.Rows.{HaveRoom, runs_at, chunk_rows_at, numbers_at, offsets_at, offset_width};

use crate::places::{ChunksAt, RowsAt};
use mp4_boxes::{Ticket, u32_at, u64_at};

/// A row of a count and a value: of `stts`, `ctts` or `sbgp`.
#[derive(Clone, Copy)]
pub(crate) struct CountedRow {
    pub(crate) count: u32,
    pub(crate) value: u32,
}

/// A row of `stsc`.
#[derive(Clone, Copy)]
pub(crate) struct ChunkRow {
    pub(crate) first: u32,
    pub(crate) count: u32,
    pub(crate) description: u32,
}

// Row `k` of a count and a value.
#[inline]
#[tactic(auto, using(crate::proofs::RowLists::runs_more))]
pub(crate) fn run_at(_ticket: Ticket, payload: &[u8], rows: RowsAt, k: u32) -> CountedRow
    requires room { HaveRoom 8 payload.now rows }
    requires inside { k < rows.count }
    ensures { drop k (runs_at payload.now rows) ≡ (result.count, result.value)
        ∷ drop (k + 1) (runs_at payload.now rows) }
{
    let at = rows.place + 8 * k as usize;
    CountedRow {
        count: u32_at(payload, at),
        value: u32_at(payload, at + 4),
    }
}

// Row `k` of `stsc`.
#[inline]
#[tactic(auto, using(crate::proofs::RowLists::chunk_rows_more))]
pub(crate) fn chunk_row_at(_ticket: Ticket, payload: &[u8], rows: RowsAt, k: u32) -> ChunkRow
    requires room { HaveRoom 12 payload.now rows }
    requires inside { k < rows.count }
    ensures { drop k (chunk_rows_at payload.now rows)
        ≡ record { first = result.first; count = result.count; description = result.description }
        ∷ drop (k + 1) (chunk_rows_at payload.now rows) }
{
    let at = rows.place + 12 * k as usize;
    ChunkRow {
        first: u32_at(payload, at),
        count: u32_at(payload, at + 4),
        description: u32_at(payload, at + 8),
    }
}

// Number `k` of four bytes each.
#[inline]
#[tactic(auto, using(crate::proofs::RowLists::numbers_more))]
pub(crate) fn number_at(_ticket: Ticket, payload: &[u8], rows: RowsAt, k: u32) -> u32
    requires room { HaveRoom 4 payload.now rows }
    requires inside { k < rows.count }
    ensures { drop k (numbers_at 4 payload.now rows) ≡ result
        ∷ drop (k + 1) (numbers_at 4 payload.now rows) }
{
    u32_at(payload, rows.place + 4 * k as usize)
}

// Number `k` of eight bytes each.
#[inline]
#[tactic(auto, using(crate::proofs::RowLists::numbers_more))]
fn wide_at(_ticket: Ticket, payload: &[u8], rows: RowsAt, k: u32) -> u64
    requires room { HaveRoom 8 payload.now rows }
    requires inside { k < rows.count }
    ensures { drop k (numbers_at 8 payload.now rows) ≡ result
        ∷ drop (k + 1) (numbers_at 8 payload.now rows) }
{
    u64_at(payload, rows.place + 8 * k as usize)
}

// The offset of chunk `k`, from 0.
#[inline]
pub(crate) fn offset_at(ticket: Ticket, payload: &[u8], chunks: ChunksAt, k: u32) -> u64
    requires room { HaveRoom (offset_width chunks.is_wide) payload.now chunks.rows }
    requires inside { k < chunks.rows.count }
    ensures { drop k (offsets_at payload.now chunks) ≡ result
        ∷ drop (k + 1) (offsets_at payload.now chunks) }
{
    if chunks.is_wide {
        wide_at(ticket, payload, chunks.rows, k)
    } else {
        u64::from(number_at(ticket, payload, chunks.rows, k))
    }
}
