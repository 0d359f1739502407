//! What is kept of the samples of a piece while it is planned, so that its `moof` can be written.
ghost use Rattle.std.specs.Prelude.{◌≡◌};
ghost use Rattle.mp4_plan.specs.words.Taken.{row_seen};

use crate::stretches::Stretches;
use mp4_tables::SampleAt;

/// What is written of a sample: its row of `trun`, and its index at each key of its track.
#[derive(Clone, Copy, Debug, PartialEq, Eq)]
pub struct Row {
    pub duration: u32,
    pub size: u32,
    pub flags: u32,
    pub cto: i32,
    pub groups: [u16; 4],
}

impl Row {
    ghost use Rattle.std.specs.Prelude.{◌≡◌, ◌<◌, slice_index};

    /// The index at the key of this place.
    pub(crate) fn index_at(&self, place: u8) -> u16
        requires { place < 4 }
        ensures { result ≡ slice_index self.now.groups place }
    {
        let groups = self.groups;
        groups[place as usize]
    }
}

/// A row without a sample.
pub(crate) const NO_ROW: Row = Row {
    duration: 0,
    size: 0,
    flags: 0,
    cto: 0,
    groups: [0; 4],
};

/// What is noted of the samples of a piece: their rows, and where their bytes lie.
#[derive(Drop)]
pub(crate) struct PieceNotes {
    pub(crate) rows: Vec<Row>,
    pub(crate) stretches: Stretches,
}

/// What is written of this sample.
pub(crate) fn row_of(sample: &SampleAt) -> Row
    ensures { result ≡ row_seen sample.now }
{
    let groups = sample.groups;
    Row {
        duration: sample.duration,
        size: sample.size,
        flags: sample.flags,
        cto: sample.cto,
        groups,
    }
}
