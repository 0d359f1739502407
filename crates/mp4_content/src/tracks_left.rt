//! What remains of tracks in numbers.
ghost use Rattle.std.specs.Prelude.{◌≡◌, IfOk};
ghost use Rattle.mp4_content.specs.words.Contents.{info_left, numbers_of, tracks_left};

use crate::reduced_head::divided_timescale;
use crate::scales::Scales;
use crate::without::Without;
use mp4_present::TrackInfo;
use std::alloc::{AllocError, Global};

/// What remains of a track in numbers.
#[derive(Clone, Copy, Debug, PartialEq, Eq)]
pub struct TrackLeft {
    pub id: u32,
    /// How many parts of a second the times of its samples count.
    pub timescale: u32,
    /// How many samples it has.
    pub samples: u32,
    /// The sum of their sizes.
    pub bytes: u64,
}

// What remains of the track at this place, from 1, in numbers, whose times are divided by this.
fn track_left(leaving: Without, place: u64, divisor: u64, info: &TrackInfo) -> TrackLeft
    ensures { result ≡ numbers_of (info_left leaving place divisor info.now) }
{
    TrackLeft {
        id: leaving.id(place, info.id),
        timescale: divided_timescale(leaving, leaving.timescale(info.timescale), divisor),
        samples: info.samples,
        bytes: info.bytes,
    }
}

// What remains of tracks in numbers.
pub(crate) fn tracks_left(
    alloc: Global,
    leaving: Without,
    scales: &Scales,
    infos: &[TrackInfo],
) -> Result<Vec<TrackLeft>, AllocError>
    ensures { IfOk result
        (λ tracks. tracks.items ≡ tracks_left leaving scales.now.tracks.items infos.now) }
{
    let mut tracks = Vec::with_capacity(alloc, infos.len())?;
    for k in 0..infos.len() {
        tracks.push(track_left(leaving, k as u64 + 1, scales.track(k), &infos[k]))?;
    }
    Ok(tracks)
}
