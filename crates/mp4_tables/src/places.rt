//! Where the rows of tables lie in the payload of their `stbl`, and how far a walk has come in
//! them: plain numbers.
ghost use Rattle.std.specs.Prelude.{◌≡◌, ◌^◌, ◌<◌};

use crate::indexes::{IndexPlaces, IndexRows};
use crate::keys::Keys;

/// Rows of a table: where the first begins in the payload of `stbl`, and how many there are.
#[derive(Clone, Copy)]
pub(crate) struct RowsAt {
    pub(crate) place: usize,
    pub(crate) count: u32,
}

/// How sizes of samples are written: as one size for all, or each in 32, 16, 8 or 4 bits.
#[derive(Clone, Copy)]
pub(crate) enum SizeForm {
    One(u32),
    Words,
    Shorts,
    Bytes,
    HalfBytes,
}

/// The sizes of samples.
#[derive(Clone, Copy)]
pub(crate) struct SizesAt {
    pub(crate) form: SizeForm,
    pub(crate) rows: RowsAt,
}

/// The rows of `ctts`, and whether their offsets are signed.
#[derive(Clone, Copy)]
pub(crate) struct OffsetsAt {
    pub(crate) rows: RowsAt,
    pub(crate) is_signed: bool,
}

/// The rows of `stco`, or of `co64`, which are wide.
#[derive(Clone, Copy)]
pub(crate) struct ChunksAt {
    pub(crate) rows: RowsAt,
    pub(crate) is_wide: bool,
}

/// The keys of the `sbgp`s, and the rows of each, in file order.
#[derive(Clone, Copy)]
pub(crate) struct GroupsAt {
    pub(crate) keys: Keys,
    pub(crate) rows: IndexRows,
}

/// The bytes of `sdtp`, one a sample.
#[derive(Clone, Copy)]
pub(crate) struct BytesAt {
    pub(crate) place: usize,
    pub(crate) length: usize,
}

/// Where the tables of a track lie in the payload of their `stbl`.
#[derive(Clone, Copy)]
pub struct TablesAt {
    pub(crate) sizes: SizesAt,
    pub(crate) durations: RowsAt,
    pub(crate) offsets: Option<OffsetsAt>,
    pub(crate) chunk_rows: RowsAt,
    pub(crate) chunks: ChunksAt,
    pub(crate) sync: Option<RowsAt>,
    pub(crate) dependencies: Option<BytesAt>,
    pub(crate) groups: GroupsAt,
}

/// A place in rows that repeat a value: the value that comes `left` more times, and the row behind
/// it.
#[derive(Clone, Copy)]
pub(crate) struct RunPlace {
    pub(crate) row: u32,
    pub(crate) left: u32,
    pub(crate) value: u32,
}

/// A place in the rows of `stsc`: the row behind the one that holds, and what that one says.
#[derive(Clone, Copy)]
pub(crate) struct ChunkRowPlace {
    pub(crate) row: u32,
    pub(crate) samples: u32,
    pub(crate) description: u32,
}

/// A place in the chunks: how many were opened, and of the last one its row, how many samples are
/// left in it and where the next of them lies.
#[derive(Clone, Copy)]
pub(crate) struct ChunkPlace {
    pub(crate) opened: u32,
    pub(crate) row: ChunkRowPlace,
    pub(crate) left: u32,
    pub(crate) at: u64,
}

/// A place in the rows of `stss`: the row of the next sync sample and its number, 0 where there is
/// none.
#[derive(Clone, Copy)]
pub(crate) struct SyncPlace {
    pub(crate) row: u32,
    pub(crate) next: u32,
}

/// A place among the samples of tables: how many were passed, and a place in each table.
#[derive(Clone, Copy)]
pub struct TablePlace {
    pub(crate) number: u32,
    pub(crate) dts: u64,
    pub(crate) duration: RunPlace,
    pub(crate) offset: RunPlace,
    pub(crate) chunk: ChunkPlace,
    pub(crate) sync: SyncPlace,
    pub(crate) groups: IndexPlaces,
}

// A number of rows, in 64 bits.
pub(crate) fn rows(count: u32) -> u64
    ensures is { result ≡ count }
    ensures small { result < 2 ^ 32 }
{
    u64::from(count)
}

impl TablePlace {
    ghost use Rattle.std.specs.Prelude.{◌≡◌};
    ghost use Rattle.mp4_tables.specs.words.Accepted.{passed};

    /// How many rows and samples a walk passed on its way here. It passes a size with each sample,
    /// and a byte of `sdtp`.
    pub fn passed(&self) -> u64
        ensures { result ≡ passed self.now }
    {
        3 * rows(self.number)
            + rows(self.duration.row)
            + rows(self.offset.row)
            + rows(self.chunk.opened)
            + rows(self.chunk.row.row)
            + rows(self.sync.row)
            + self.groups.rows_passed()
    }
}
