//! The tracks of a movie, by their IDs.
ghost use Rattle.std.specs.Prelude.{◌≡◌, ◌<◌, length, map, slice_get, IfOk, IfErr, IfSome};
ghost use Rattle.mp4_boxes.specs.declared.refusal.Refusal.TheVariants as refusals;
ghost use Rattle.mp4_present.specs.declared.track_info.TrackInfo.{TrackInfo};
ghost use Rattle.mp4_answers.specs.format.Selected.{AreOthers};

use mp4_boxes::Refusal;
use mp4_present::TrackInfo;

/// The place among some tracks of the one with this ID.
pub(crate) fn track_with(tracks: &[TrackInfo], id: u32) -> Result<usize, Refusal>
    ensures within { IfOk result (λ k. k < length tracks.now) }
    ensures track { IfOk result (λ k. IfSome (slice_get tracks.now k) (λ t. t.id ≡ id)) }
    ensures none { IfErr result (λ r. (r ≡ refusals.NoSuchTrack)
        × AreOthers id (map (λ (t : TrackInfo). t.id) tracks.now)) }
{
    for k in 0..tracks.len() {
        if tracks[k].id == id {
            return Ok(k);
        }
    }
    Err(Refusal::NoSuchTrack)
}
