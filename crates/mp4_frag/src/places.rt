//! How far a walk has come in a `traf`, or in a `moof`: plain numbers.
use crate::heads::Inherited;
use mp4_tables::{IndexPlaces, IndexRows, Keys};

/// A place in the rows of a `trun`.
#[derive(Clone, Copy)]
pub(crate) struct RowPlace {
    /// Where the next row begins in the payload of the `traf`, and how many rows are left.
    pub(crate) row: usize,
    pub(crate) left: u32,
    pub(crate) bits: u32,
    /// How many bytes a row takes.
    pub(crate) width: usize,
    /// The flags of the next sample, if it is the first of its run and the run says them.
    pub(crate) first_flags: Option<u32>,
}

/// A place in a `traf`: which samples come next.
#[derive(Clone, Copy)]
pub struct TrafPlace {
    /// How many samples of the track come before those behind the run: so the rows left say the
    /// number of the next one.
    pub(crate) number: u64,
    /// The decode time of the next sample, and where its data begins.
    pub(crate) dts: u64,
    pub(crate) at: u64,
    /// Where the next box begins in the payload of the `traf`.
    pub(crate) next: usize,
    /// Where the runs are counted from, and what they inherit.
    pub(crate) base: i128,
    pub(crate) inherited: Inherited,
    pub(crate) run: RowPlace,
    /// The rows of the `sbgp` of each key of the track, and the places in them.
    pub(crate) index_rows: IndexRows,
    pub(crate) indexes: IndexPlaces,
    /// How many steps were taken: one for the `traf`, one for each row of its `sbgp`s, and one for
    /// each run and sample that was passed.
    pub(crate) passed: u64,
}

impl TrafPlace {
    ghost use Rattle.std.specs.Prelude.{◌≡◌};

    /// How many steps the walk took to come here.
    pub fn passed(&self) -> u64
        ensures { result ≡ self.now.passed }
    {
        self.passed
    }

    /// The decode time of the next sample; behind the last, that at which the next one is due.
    pub fn dts(&self) -> u64
        ensures { result ≡ self.now.dts }
    {
        self.dts
    }
}

/// A place in a `moof`: which samples of a track come next.
#[derive(Clone, Copy)]
pub struct FragPlace {
    /// The ID of the track, and the keys by which its samples are grouped.
    pub(crate) id: u32,
    pub(crate) keys: Keys,
    /// How many samples of the track were passed.
    pub(crate) number: u32,
    /// Where the next box begins in the payload of the `moof`.
    pub(crate) next: usize,
    /// Where the data of the last `traf` so far ends.
    pub(crate) before: i128,
    /// Where the payload of the `traf` in hand begins and ends, and the place in it.
    pub(crate) begins: usize,
    pub(crate) ends: usize,
    pub(crate) traf: TrafPlace,
}
