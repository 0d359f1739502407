//! The time that is due where a `traf` begins at another (ISO/IEC 14496-12, 8.8.12), and boxes by
//! their places.
ghost use Rattle.std.specs.Prelude.{ℕ, ◌≡◌, ◌==◌, find, IfSome};
ghost use Rattle.mp4_boxes.specs.format.Bytes.{field};
ghost use Rattle.mp4_boxes.specs.format.Box.{Box};
ghost use Rattle.mp4_boxes.specs.words.View.{box_seen};
ghost use Rattle.mp4_frag.specs.format.Fragments.{decode_time_of};
ghost use Rattle.mp4_frag.specs.declared.state.TrackState.{TrackState};
ghost use Rattle.mp4_present.specs.format.FaultNumbers.{IsChildOf, SaysTime};
ghost use Rattle.mp4_present.specs.words.NumbersTold.{TellsTraf};

use crate::faults::FaultNumbers;
use crate::faults::counts::number_at;
use mp4_boxes::{BoxView, FourCc, children, u64_at};
use mp4_frag::TrackState;

pub(crate) const TFHD: FourCc = FourCc(*b"tfhd");

/// The child in which a place of the file lies.
pub(crate) fn child_at<'a>(view: BoxView<'a>, place: u64) -> Option<BoxView<'a>>
    ensures { IfSome result (λ b. IsChildOf (box_seen view.entry) (box_seen b)) }
{
    let Ok(boxes) = children(view.payload(), view.payload_offset(), view.kind()) else {
        return None;
    };
    for child in boxes {
        let end = child.payload_offset() + child.payload().len() as u64;
        if child.offset() <= place && place < end {
            return Some(child);
        }
    }
    None
}

/// The first child of a type.
pub(crate) fn child_of<'a>(view: BoxView<'a>, kind: FourCc) -> Option<BoxView<'a>>
    ensures child { IfSome result (λ b. IsChildOf (box_seen view.entry) (box_seen b)) }
    ensures kind { IfSome result (λ b. (box_seen b).kind ≡ kind.0) }
{
    let Ok(boxes) = children(view.payload(), view.payload_offset(), view.kind()) else {
        return None;
    };
    for child in boxes {
        if child.kind() == kind {
            return Some(child);
        }
    }
    None
}

// The decode time that a `tfdt` says.
fn time_in(payload: &[u8]) -> Option<u64>
    ensures { IfSome result (λ t. t ≡ decode_time_of payload.now) }
{
    let short = number_at(payload, 4)?;
    if payload[0] == 0 {
        return Some(u64::from(short));
    }
    if payload[0] > 1 || payload.len() < 12 {
        return None;
    }
    Some(u64_at(payload, 4))
}

/// The ID that a `tfhd` says.
pub(crate) fn track_in(payload: &[u8]) -> Option<u32>
    ensures { IfSome result (λ id. id ≡ field payload.now 4 4) }
{
    number_at(payload, 4)
}

/// The track with an ID.
pub(crate) fn state_with(states: &[TrackState], id: u32) -> Option<TrackState>
    ensures { result ≡ find (λ (t : TrackState). t.id == id) states.now }
{
    states.iter().copied().find(|state| state.id == id)
}

// What a `traf` says of its track, where its `tfdt` stands at a place.
fn time_in_traf(traf: BoxView, place: u64) -> Option<(u32, u64)>
    ensures { IfSome result (λ said. (moof : Box)
        → IsChildOf moof (box_seen traf.entry)
        → SaysTime moof place (box_seen traf.entry) said.0 said.1) }
{
    let tfdt = child_of(traf, FourCc(*b"tfdt"))?;
    if tfdt.offset() != place {
        return None;
    }
    let found = time_in(tfdt.payload())?;
    let tfhd = child_of(traf, TFHD)?;
    let track = track_in(tfhd.payload())?;
    Some((track, found))
}

/// What is due of its track, and what is found, where the `tfdt` of a `traf` stands at a place.
/// These are the states of the tracks behind what comes before it.
pub(crate) fn gap_in(traf: BoxView, place: u64, states: &[TrackState]) -> Option<FaultNumbers>
    ensures { (file_length : ℕ) → IfSome result
        (TellsTraf (box_seen traf.entry) states.now file_length place) }
{
    let (track, found) = time_in_traf(traf, place)?;
    let state = state_with(states, track)?;
    let Ok(due) = u64::try_from(state.time) else {
        return None;
    };
    Some(FaultNumbers::Gap { track, due, found })
}
