//! Where the samples lie: all in the file.
ghost use Rattle.std.specs.Prelude.{◌≡◌, ◌+◌, ◌*◌, ◌≤◌, map, nat_lt, nat_le, true, false, IsTrue};
ghost use Rattle.mp4_tables.specs.words.Rows.{HaveRoom, HaveSizes, chunk_rows_at, offsets_at, offset_width, sizes_at};
ghost use Rattle.mp4_tables.specs.format.PlainSamples.{in_chunks, in_chunks_total};
ghost use Rattle.mp4_tables.specs.format.TableRules.{is_chunk_order};
ghost use Rattle.mp4_tables.specs.words.TablesComing.{all_lie_within};
ghost use Rattle.mp4_tables.specs.words.Stops.{StopsIn};

use crate::chunks::{first_chunk, pass_sample};
use crate::places::{ChunksAt, RowsAt, SizesAt};
use crate::sizes::checked_size_at;
use mp4_boxes::Count;
use std::sync::ledger::Ledger;

// Whether so many bytes at a place lie in a file of this length.
#[inline]
fn lies(at: u64, size: u32, file_len: u64) -> bool
    ensures { result ≡ nat_le (at + size) file_len }
{
    at <= file_len && u64::from(size) <= file_len - at
}

// Whether each sample lies in a file of this length.
pub(crate) fn lie_within<L: Ledger>(
    payload: &[u8],
    sizes: SizesAt,
    rows: RowsAt,
    chunks: ChunksAt,
    file_len: u64,
    steps: &mut Count<L>,
) -> bool
    requires sizes { HaveSizes payload.now sizes.form sizes.rows }
    requires room { HaveRoom 12 payload.now rows }
    requires offsets { HaveRoom (offset_width chunks.is_wide) payload.now chunks.rows }
    requires ordered { is_chunk_order (map (λ row. row.first) (chunk_rows_at payload.now rows))
        (nat_lt 0 chunks.rows.count) ≡ true }
    requires counts { in_chunks_total (chunk_rows_at payload.now rows) 1
        (offsets_at payload.now chunks) ≡ sizes.rows.count }
    ensures same { result
        ≡ all_lie_within file_len
        (in_chunks (chunk_rows_at payload.now rows) 1 (offsets_at payload.now chunks)
        (sizes_at payload.now sizes)) }
    ensures cost { steps.new ≤ steps.old + 2 * sizes.rows.count + 2 * chunks.rows.count }
    ensures counted { IsTrue result
        → steps.new ≡ steps.old + 2 * sizes.rows.count + 2 * chunks.rows.count }
    ensures stopped { result ≡ false
        → StopsIn 2 (steps.old + 2 * chunks.rows.count) steps.new
        (λ front. all_lie_within file_len front ≡ false)
        (in_chunks (chunk_rows_at payload.now rows) 1 (offsets_at payload.now chunks)
        (sizes_at payload.now sizes)) }
{
    steps.add(2 * u64::from(chunks.rows.count));
    let mut place = first_chunk(payload, rows, chunks);
    for i in 0..sizes.rows.count {
        steps.add(1);
        let size = checked_size_at(steps.tick(), payload, sizes, i);
        if !lies(place.at, size, file_len) {
            return false;
        }
        pass_sample(payload, &rows, &chunks, &mut place, size);
    }
    true
}
