//! How long what remains of a movie is.
ghost use Rattle.std.specs.Prelude.{◌≡◌, ℕ, List, IfOk, IfErr};
ghost use Rattle.mp4_content.specs.declared.without.Without.{Without};
ghost use Rattle.mp4_head.specs.words.Seen.{track_seen};
ghost use Rattle.mp4_present.specs.format.Denotes.{FileTree, presentation_of};
ghost use Rattle.mp4_present.specs.format.Presentation.{movie_length};
ghost use Rattle.mp4_content.specs.format.Remaining.{RemainsInLimits, remaining};
ghost use Rattle.mp4_present.specs.words.OpenedMovie.{IsOpenedAs};
ghost use Rattle.mp4_content.specs.words.LeftTimes.{NamesLong, RefusesLength, check_track, check_tracks, count_by, length_by, longest_count, moves_limits};
ghost use Rattle.mp4_content.specs.words.Measuring.{AreTotals};
ghost use Rattle.mp4_content.specs.words.Scales.{AreScales};

use crate::measures::Total;
use crate::reduced::divided;
use crate::reduced_head::leave_head;
use crate::scales::Scales;
use crate::without::{Without, Word};
use mp4_boxes::{Fault, FourCc, Kind, Refusal};
use mp4_head::TrackHead;
use mp4_present::{MOST_TIME, Movie, TrackInfo, length_of_edits, length_of_samples};
use std::alloc::Global;

// How long a track is whose samples last so long together: by its edits, where each says how long
// it is; else by its samples.
fn length_of(head: &TrackHead, timescale: u32, duration: u64) -> u128
    ensures { result ≡ length_by (track_seen head.now).edits timescale
        (track_seen head.now).media.timescale duration }
{
    match length_of_edits(head.edits.as_slice()) {
        Some(length) => length,
        None => length_of_samples(duration, head.media.timescale, timescale),
    }
}

// How long a track is that remains, if it is within the limits, and its offsets fit.
fn checked_length(
    leaving: Without,
    timescale: u32,
    head: &TrackHead,
    own: u64,
    info: &TrackInfo,
    total: Total,
) -> Result<u64, Fault>
    ensures { result ≡ check_track leaving timescale head.now own info.now total }
{
    let start = divided(leaving.start(info.start), own);
    let end = u128::from(start) + u128::from(total.duration);
    let length = length_of(head, timescale, total.duration);
    if end > MOST_TIME || length > MOST_TIME {
        return Err(Fault::new(Kind::TimeTooLarge, FourCc(*b"tkhd"), head.offset));
    }
    if leaving.has(Word::Origins) && !total.is_near {
        return Err(Fault::new(Kind::OffsetTooLarge, FourCc(*b"tkhd"), head.offset));
    }
    Ok(length as u64)
}

// How long the longest track is that remains, if all are within the limits, with by what the times
// of each are divided; a track without a head is passed over.
fn longest_left(
    leaving: Without,
    timescale: u32,
    heads: &[TrackHead],
    owns: &[u64],
    tracks: &[TrackInfo],
    totals: &[Total],
) -> Result<u64, Fault>
    ensures { result ≡ check_tracks leaving timescale 0 heads.now owns.now tracks.now totals.now }
{
    let mut longest = 0;
    for k in 0..tracks
        .len()
        .min(heads.len())
        .min(totals.len())
        .min(owns.len())
    {
        let (head, track) = (&heads[k], &tracks[k]);
        let length = checked_length(leaving, timescale, head, owns[k], track, totals[k])?;
        longest = length.max(longest);
    }
    Ok(longest)
}

// How long a track is whose samples each last a thousandth: by its edits, where each says how long
// it is; else by how many samples it has.
fn count_length(head: &TrackHead, samples: u32) -> u64
    ensures { result ≡ count_by (track_seen head.now).edits samples }
{
    match length_of_edits(head.edits.as_slice()) {
        Some(length) => length.min(u128::from(u64::MAX)) as u64,
        None => u64::from(samples),
    }
}

// How long the longest of some tracks is where timing doesn't count; one without a head is passed
// over.
fn longest_by_count(heads: &[TrackHead], tracks: &[TrackInfo]) -> u64
    ensures { result ≡ longest_count 0 heads.now tracks.now }
{
    let mut longest = 0;
    for k in 0..tracks.len().min(heads.len()) {
        longest = count_length(&heads[k], tracks[k].samples).max(longest);
    }
    longest
}

// Whether tracks that remain may be of another length than before.
fn moves_limits(leaving: Without) -> bool
    ensures { result ≡ moves_limits leaving }
{
    leaving.has(Word::Edits)
        || leaving.has(Word::Ends)
        || leaving.has(Word::Origins)
        || leaving.has(Word::Timescales)
}

/// How long the longest track is of what remains of a movie, whose times are divided by these, and
/// of which this was measured, if each is within the limits, and its offsets fit.
pub(crate) fn length_left(
    alloc: Global,
    movie: &Movie,
    leaving: Without,
    scales: &Scales,
    totals: &[Total],
) -> Result<u64, Refusal>
    ensures left { (file : List ℕ) (tree : FileTree) → IsOpenedAs file movie.now tree
        → AreScales leaving file tree scales.now
        → AreTotals leaving file tree tree.movie.tracks movie.now.tracks totals.now
        → IfOk result (λ n. RemainsInLimits leaving (presentation_of file tree)
        × (n ≡ movie_length (remaining leaving (presentation_of file tree)))) }
    ensures fault { (file : List ℕ) (tree : FileTree) → IsOpenedAs file movie.now tree
        → AreScales leaving file tree scales.now
        → AreTotals leaving file tree tree.movie.tracks movie.now.tracks totals.now
        → IfErr result (NamesLong leaving file tree) }
    ensures refusal { IfErr result (RefusesLength leaving) }
{
    if !leaving.has(Word::Timing) && !moves_limits(leaving) {
        return Ok(movie.mehd());
    }
    let mut head = movie.head(alloc)?;
    leave_head(&mut head, leaving, scales);
    let heads = head.tracks.as_slice();
    let tracks = movie.tracks();
    if leaving.has(Word::Timing) {
        return Ok(longest_by_count(heads, tracks));
    }
    let owns = scales.tracks.as_slice();
    Ok(longest_left(leaving, head.timescale, heads, owns, tracks, totals)?)
}
