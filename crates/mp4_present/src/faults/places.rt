//! The sample that does not lie in the file, where a table or a run is faulty for it (ISO/IEC
//! 14496-12, 8.7.3 to 8.7.5, 8.8.7 and 8.8.8).
ghost use Rattle.std.specs.Prelude.{IfSome};
ghost use Rattle.mp4_present.specs.words.NumbersTold.{IsPlain};

use crate::faults::FaultNumbers;
use crate::faults::counts::{chunks_in, number_at, samples_in, sizes_of};
use crate::faults::gaps::{TFHD, child_at, child_of, state_with, track_in};
use mp4_boxes::{BoxView, FourCc, u16_at, u64_at};
use mp4_frag::{Standing, TrackState, TrafCursor, base_in};
use mp4_head::MovieHead;
use mp4_tables::{Keys, Samples};

// A sample, where it does not lie in a file of this length.
fn outside(at: u64, size: u32, file_len: u64) -> Option<FaultNumbers>
    ensures { IfSome result (IsPlain file_len) }
{
    let is_outside = at > file_len || u64::from(size) > file_len - at;
    is_outside.then_some(FaultNumbers::Outside { at, size, file_len })
}

// ---- tables

// The size of sample `k`, which an `stsz` or `stz2` says.
fn size_in(sizes: BoxView, k: usize) -> Option<u32> {
    let payload = sizes.payload();
    let rows = payload.get(12..)?;
    if sizes.kind() == FourCc(*b"stsz") {
        let same = number_at(payload, 4)?;
        if same > 0 {
            return Some(same);
        }
        return number_at(rows, k.checked_mul(4)?);
    }
    match payload[7] {
        4 if k / 2 < rows.len() => {
            let byte = rows[k / 2];
            Some(u32::from(if k % 2 == 0 { byte / 16 } else { byte % 16 }))
        }
        8 if k < rows.len() => Some(u32::from(rows[k])),
        16 if k < rows.len() / 2 => Some(u32::from(u16_at(rows, 2 * k))),
        _ => None,
    }
}

// Where chunk `k` begins, counted from 0, which an `stco` or `co64` says.
fn offset_in(offsets: BoxView, k: usize) -> Option<u64> {
    let rows = offsets.payload().get(8..)?;
    if offsets.kind() == FourCc(*b"stco") {
        return Some(u64::from(number_at(rows, k.checked_mul(4)?)?));
    }
    if k >= rows.len() / 8 {
        return None;
    }
    Some(u64_at(rows, 8 * k))
}

// The first sample of a chunk that does not lie in the file. The number is that of its first
// sample, and then of the next one.
fn outside_in_chunk(
    sizes: BoxView,
    number: &mut u64,
    samples: u64,
    count: u32,
    start: u64,
    file_len: u64,
) -> Option<FaultNumbers>
    ensures { IfSome result (IsPlain file_len) }
{
    let mut at = start;
    for _sample in 0..count {
        if *number >= samples {
            return None;
        }
        let size = size_in(sizes, *number as usize)?;
        if let Some(numbers) = outside(at, size, file_len) {
            return Some(numbers);
        }
        at = at.saturating_add(u64::from(size));
        *number = number.saturating_add(1);
    }
    None
}

// The first sample of a track's tables that does not lie in the file.
fn outside_in(stbl: BoxView, offsets: BoxView, file_len: u64) -> Option<FaultNumbers>
    ensures { IfSome result (IsPlain file_len) }
{
    let sizes = sizes_of(stbl)?;
    let rows = child_of(stbl, FourCc(*b"stsc"))?.payload();
    let samples = samples_in(stbl)?;
    let mut number = 0;
    let mut row = 8usize;
    for chunk in 0..chunks_in(stbl)? {
        let start = offset_in(offsets, chunk as usize)?;
        if let Some(first) = number_at(rows, row.saturating_add(12)) {
            if u64::from(first) <= u64::from(chunk) + 1 {
                row = row.saturating_add(12);
            }
        }
        let count = number_at(rows, row.saturating_add(4))?;
        let found = outside_in_chunk(sizes, &mut number, samples, count, start, file_len);
        if found.is_some() {
            return found;
        }
    }
    None
}

/// The first sample that does not lie in the file, of the track whose chunks are placed by the
/// table at this place of the file.
pub(crate) fn outside_in_tables(head: &MovieHead, place: u64, file_len: u64) -> Option<FaultNumbers>
    ensures { IfSome result (IsPlain file_len) }
{
    for track in &head.tracks {
        if let Some(leaf) = child_at(track.stbl, place) {
            return outside_in(track.stbl, leaf, file_len);
        }
    }
    None
}

// ---- runs

// The first of these samples that does not lie in the file.
fn first_outside<C: Samples>(samples: &mut C, file_len: u64) -> Option<FaultNumbers>
    ensures { IfSome result (IsPlain file_len) }
{
    while let Some(sample) = samples.next() {
        let found = outside(sample.at, sample.size, file_len);
        if found.is_some() {
            return found;
        }
    }
    None
}

// Whether what is told is of a sample at this place.
fn is_told_at(told: Option<FaultNumbers>, place: u64) -> bool {
    matches!(told, Some(FaultNumbers::Outside { at, .. }) if at == place)
}

/// The first sample of a `traf` that does not lie in the file; nothing, if it lies before the file
/// or beyond all places of 64 bits. These are the states of the tracks.
pub(crate) fn outside_in_traf(
    traf: BoxView,
    at: Standing,
    states: &[TrackState],
) -> Option<FaultNumbers>
    ensures { IfSome result (IsPlain at.file_len) }
{
    let file_len = at.file_len;
    let tfhd = child_of(traf, TFHD)?;
    let Ok(base) = base_in(tfhd, at.moof, at.before) else {
        return None;
    };
    let track = track_in(tfhd.payload())?;
    let trex = state_with(states, track)?.trex?;
    let bytes = traf.payload();
    let mut cursor = TrafCursor::start(bytes, base, track, trex, 0, 0, Keys::new());
    let told = first_outside(&mut cursor, file_len);
    if !is_told_at(told, u64::MAX) {
        return told;
    }
    // A place below 0, or of more than 64 bits, is handed out as the last one of 64 bits. It is
    // that one only if it lies a byte before where the runs are counted from a byte before.
    let before = base.checked_sub(1)?;
    let mut cursor = TrafCursor::start(bytes, before, track, trex, 0, 0, Keys::new());
    if is_told_at(first_outside(&mut cursor, file_len), u64::MAX - 1) {
        return told;
    }
    None
}
