//! The limits that hold of a presentation as a whole.
ghost use Rattle.std.specs.Prelude.{◌≡◌, ◌-◌, ◌*◌, ◌^◌, ◌<◌, ◌≤◌, if◌then◌else◌, min, max, length, map, Some, None, IfOk, IfErr, codes};
ghost use Rattle.std.specs.Int.{div_ceil};
ghost use Rattle.std.specs.List.{AllByRecursion};
ghost use Rattle.mp4_boxes.specs.format.Bytes.{sum_of};
ghost use Rattle.mp4_boxes.specs.words.View.{box_seen};
ghost use Rattle.mp4_boxes.specs.declared.fault.Kind.TheVariants.{TimeTooLarge};
ghost use Rattle.mp4_head.specs.format.Head as heads;
ghost use Rattle.mp4_head.specs.words.Seen.{edit_seen};
ghost use Rattle.mp4_present.specs.format.Presentation.{Presentation, Track, IsInTime, max_moov, movie_length, normal_moov_length, says_all};
ghost use Rattle.mp4_present.specs.format.Presentation as presented;
ghost use Rattle.mp4_present.specs.words.Measured.{length_by, IsMeasured, IsMeasure, LimitFails};

use crate::opening::totals::in_64_bits;
use mp4_boxes::{BoxView, Fault, FourCc, Kind};
use mp4_frag::TrackState;
use mp4_head::{Edit, MovieHead, TrackHead, head_len};

/// The latest time and the greatest length of a track.
pub const MOST_TIME: u128 = (1 << 63) - 1;

/// The most bytes of the `moov` in the normal form, and the bytes of the `ftyp` before it.
const MOST_MOOV: u128 = 1 << 30;

const FILE_TYPE: u128 = 24;

/// The length of a track by its edits, where there are some and each says how long it is.
pub fn length_of_edits(edits: &[Edit]) -> Option<u128>
    ensures { result ≡ (if says_all (map edit_seen edits.now)
        then Some (sum_of (λ (e : heads.Edit). e.segment_duration) (map edit_seen edits.now))
        else None) }
{
    if edits.is_empty() {
        return None;
    }
    let mut length = 0;
    for edit in edits {
        if edit.segment_duration == 0 {
            return None;
        }
        length += u128::from(edit.segment_duration);
    }
    Some(length)
}

/// How long samples take in the movie's timescale, rounded up, by the sum of their durations in a
/// timescale of their own. One of 0 is taken for 1.
pub fn length_of_samples(duration: u64, own: u32, timescale: u32) -> u128
    ensures { result ≡ div_ceil (duration * timescale) (max own 1) }
{
    let scaled = u128::from(duration) * u128::from(timescale);
    scaled.div_ceil(u128::from(own.max(1)))
}

// The length of a track in the movie's timescale: by its edits, else by the durations of its
// samples, rounded up.
fn track_length(track: &TrackHead, duration: u64, timescale: u32) -> u128
    ensures { 0 < track.now.media.timescale
        → result ≡ length_by (map edit_seen track.now.edits.items)
        duration timescale track.now.media.timescale }
{
    match length_of_edits(track.edits.as_slice()) {
        Some(length) => length,
        None => length_of_samples(duration, track.media.timescale, timescale),
    }
}

/// The sum of the durations of a track's samples, as far as 64 bits go.
pub(crate) fn duration_of(state: TrackState) -> u64
    ensures { result ≡ min (state.time - state.start) (2 ^ 64 - 1) }
{
    in_64_bits(state.time.saturating_sub(u128::from(state.start)))
}

// The length of a track, if it is within its limits.
fn checked_length(track: &TrackHead, state: TrackState, timescale: u32) -> Result<u64, Fault>
    ensures within { IfOk result (λ n. (t : Track) → IsMeasured t track.now state
        → IsInTime timescale t × (n ≡ presented.track_length timescale t)) }
    ensures passes { IfErr result (λ f. (t : Track) → IsMeasured t track.now state
        → IsInTime timescale t → ⊥) }
    ensures named { IfErr result (λ f. f ≡ record {
      kind = TimeTooLarge;
      box_type = codes "tkhd";
      offset = track.now.offset;
    }) }
{
    let length = track_length(track, duration_of(state), timescale);
    if state.time > MOST_TIME || length > MOST_TIME {
        return Err(Fault::new(Kind::TimeTooLarge, FourCc(*b"tkhd"), track.offset));
    }
    Ok(length as u64)
}

/// The length of the longest track, if all is within its limits.
pub(crate) fn check_limits(
    moov: BoxView,
    head: &MovieHead,
    states: &[TrackState],
) -> Result<u64, Fault>
    requires { length states.now ≡ length head.now.tracks.items }
    ensures within { IfOk result (λ n. (p : Presentation) → IsMeasure p head.now states.now
        → AllByRecursion (IsInTime p.movie.timescale) p.tracks × (n ≡ movie_length p)
        × (normal_moov_length p ≤ max_moov)) }
    ensures fault { IfErr result (λ f. (p : Presentation) → IsMeasure p head.now states.now
        → LimitFails p head.now (box_seen moov.entry) f) }
{
    let mut longest = 0;
    for k in 0..states.len() {
        longest = checked_length(&head.tracks[k], states[k], head.timescale)?.max(longest);
    }
    if head_len(head) > MOST_MOOV + FILE_TYPE {
        return Err(Fault::new(Kind::MovieTooLarge, moov.kind(), moov.offset()));
    }
    Ok(longest)
}
