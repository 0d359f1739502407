//! `tkhd`: what a track says of itself (ISO/IEC 14496-12, 8.3.2).
ghost use Rattle.std.specs.Prelude.{◌≡◌, ◌+◌, ◌*◌, ◌≤◌, ◌⊎◌, length, IfOk, MatchResult, None, Some};
ghost use Rattle.mp4_boxes.specs.format.Layout.{tkhd, version, time_width};
ghost use Rattle.mp4_boxes.specs.words.View.{box_seen};
ghost use Rattle.mp4_boxes.specs.format.FirstFault.{leaf_fault};
ghost use Rattle.mp4_head.specs.words.Leaves.{SaysTrack};

use crate::leaves::{i16_at, matrix_at, open, time_at};
use byteorder::{BigEndian, ByteOrder};
use mp4_boxes::{BoxView, Fault, Kind, u32_at};

#[derive(Clone, Copy, Debug)]
pub(crate) struct TrackHeader {
    pub(crate) flags: u32,
    pub(crate) creation: u64,
    pub(crate) modification: u64,
    pub(crate) id: u32,
    pub(crate) layer: i16,
    pub(crate) alternate_group: i16,
    pub(crate) volume: i16,
    pub(crate) matrix: [i32; 9],
    pub(crate) width: u32,
    pub(crate) height: u32,
}

// The fields of a `tkhd` whose times take so many bytes.
fn fields_of(payload: &[u8], times: usize) -> TrackHeader
    requires times { times ≡ time_width (version payload.now) }
    requires either { (times ≡ 4) ⊎ (times ≡ 8) }
    requires room { 72 + 3 * times ≤ length payload.now }
    ensures { SaysTrack payload.now result }
{
    let matrix = matrix_at(payload, 28 + 3 * times);
    TrackHeader {
        flags: BigEndian::read_u24(&payload[1..]),
        creation: time_at(payload, 4, times),
        modification: time_at(payload, 4 + times, times),
        id: u32_at(payload, 4 + 2 * times),
        layer: i16_at(payload, 20 + 3 * times),
        alternate_group: i16_at(payload, 22 + 3 * times),
        volume: i16_at(payload, 24 + 3 * times),
        matrix,
        width: u32_at(payload, 64 + 3 * times),
        height: u32_at(payload, 68 + 3 * times),
    }
}

pub(crate) fn read_track_header(view: BoxView) -> Result<TrackHeader, Fault>
    ensures says { IfOk result (SaysTrack (box_seen view.entry).payload) }
    ensures exact { MatchResult result (λ h. leaf_fault tkhd (box_seen view.entry) ≡ None)
        (λ f. leaf_fault tkhd (box_seen view.entry) ≡ Some f) }
{
    let times = open(view, 1, 72, 3)?;
    let header = fields_of(view.payload(), times);
    if header.id == 0 {
        return Err(view.fault(Kind::BadValue));
    }
    Ok(header)
}
