//! `mvhd`: what a movie says of itself (ISO/IEC 14496-12, 8.2.2).
ghost use Rattle.std.specs.Prelude.{◌≡◌, ◌+◌, ◌*◌, ◌≤◌, ◌⊎◌, length, IfOk, MatchResult, None, Some};
ghost use Rattle.mp4_boxes.specs.format.Layout.{mvhd, version, time_width};
ghost use Rattle.mp4_boxes.specs.words.View.{box_seen};
ghost use Rattle.mp4_boxes.specs.format.FirstFault.{leaf_fault};
ghost use Rattle.mp4_head.specs.words.Leaves.{SaysMovie};

use crate::leaves::{i16_at, matrix_at, open, time_at};
use mp4_boxes::{BoxView, Fault, Kind, i32_at, u32_at};

#[derive(Clone, Copy, Debug)]
pub(crate) struct MovieHeader {
    pub(crate) creation: u64,
    pub(crate) modification: u64,
    pub(crate) timescale: u32,
    pub(crate) rate: i32,
    pub(crate) volume: i16,
    pub(crate) matrix: [i32; 9],
}

// The fields of an `mvhd` whose times take so many bytes.
fn fields_of(payload: &[u8], width: usize) -> MovieHeader
    requires width { width ≡ time_width (version payload.now) }
    requires either { (width ≡ 4) ⊎ (width ≡ 8) }
    requires room { 88 + 3 * width ≤ length payload.now }
    ensures { SaysMovie payload.now result }
{
    let matrix = matrix_at(payload, 24 + 3 * width);
    MovieHeader {
        creation: time_at(payload, 4, width),
        modification: time_at(payload, 4 + width, width),
        timescale: u32_at(payload, 4 + 2 * width),
        rate: i32_at(payload, 8 + 3 * width),
        volume: i16_at(payload, 12 + 3 * width),
        matrix,
    }
}

pub(crate) fn read_movie_header(view: BoxView) -> Result<MovieHeader, Fault>
    ensures says { IfOk result (SaysMovie (box_seen view.entry).payload) }
    ensures exact { MatchResult result (λ h. leaf_fault mvhd (box_seen view.entry) ≡ None)
        (λ f. leaf_fault mvhd (box_seen view.entry) ≡ Some f) }
{
    let width = open(view, 1, 88, 3)?;
    let header = fields_of(view.payload(), width);
    if header.timescale == 0 {
        return Err(view.fault(Kind::BadValue));
    }
    Ok(header)
}
