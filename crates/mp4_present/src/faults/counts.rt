//! What a table of a track or of a `traf` counts, where that isn't what there is (ISO/IEC 14496-12,
//! 8.6.1, 8.7.4 and 8.9.2).
ghost use Rattle.std.specs.Prelude.{ℕ, ◌≡◌, ◌+◌, ◌≤◌, length, IfSome};
ghost use Rattle.mp4_boxes.specs.format.Bytes.{field};
ghost use Rattle.mp4_present.specs.words.NumbersTold.{IsPlain};

use crate::faults::FaultNumbers;
use crate::faults::gaps::{child_at, child_of};
use mp4_boxes::{BoxView, FourCc, children, u32_at};
use mp4_head::MovieHead;

/// The four bytes at a place, where they are there.
pub(crate) fn number_at(payload: &[u8], place: usize) -> Option<u32>
    ensures room { IfSome result (λ _. place + 4 ≤ length payload.now) }
    ensures number { IfSome result (λ n. n ≡ field payload.now place 4) }
{
    if payload.len() < 4 || place > payload.len() - 4 {
        return None;
    }
    Some(u32_at(payload, place))
}

/// The box of sizes of an `stbl`, `stsz` or `stz2`.
pub(crate) fn sizes_of<'a>(stbl: BoxView<'a>) -> Option<BoxView<'a>> {
    child_of(stbl, FourCc(*b"stsz")).or(child_of(stbl, FourCc(*b"stz2")))
}

// How many samples an `stbl` has.
pub(crate) fn samples_in(stbl: BoxView) -> Option<u64> {
    let count = number_at(sizes_of(stbl)?.payload(), 8)?;
    Some(u64::from(count))
}

// How many samples rows of eight bytes count, which follow their number at a place.
fn counted_by_rows(payload: &[u8], place: usize) -> Option<u64>
    requires { place ≤ 12 }
{
    let count = number_at(payload, place)?;
    if (payload.len() - place - 4) / 8 < count as usize {
        return None;
    }
    let mut counted = 0u64;
    for k in 0..count {
        let row = u32_at(payload, place + 4 + 8 * k as usize);
        counted = counted.saturating_add(u64::from(row));
    }
    Some(counted)
}

// How many chunks an `stbl` has.
pub(crate) fn chunks_in(stbl: BoxView) -> Option<u32> {
    let offsets = child_of(stbl, FourCc(*b"stco")).or(child_of(stbl, FourCc(*b"co64")))?;
    number_at(offsets.payload(), 4)
}

// How many samples the rows of an `stsc` count, where there are so many chunks.
fn counted_by_chunks(payload: &[u8], chunks: u32) -> Option<u64> {
    let count = number_at(payload, 4)?;
    if (payload.len() - 8) / 12 < count as usize {
        return None;
    }
    let end = u64::from(chunks) + 1;
    let mut counted = 0u64;
    for k in 0..count {
        let at = 8 + 12 * k as usize;
        let first = u64::from(u32_at(payload, at));
        let next = if k + 1 < count {
            u64::from(u32_at(payload, at + 12)).min(end)
        } else {
            end
        };
        let samples = u64::from(u32_at(payload, at + 4));
        counted = counted.saturating_add(next.saturating_sub(first).saturating_mul(samples));
    }
    Some(counted)
}

// How many samples an `sbgp` counts.
fn counted_by_groups(payload: &[u8]) -> Option<u64> {
    if !payload.is_empty() && payload[0] == 0 {
        counted_by_rows(payload, 8)
    } else {
        counted_by_rows(payload, 12)
    }
}

// How many samples the runs of a `traf` have.
fn samples_in_runs(traf: BoxView) -> Option<u64> {
    let mut samples = 0u64;
    for run in children(traf.payload(), traf.payload_offset(), traf.kind()).ok()? {
        if run.kind() == FourCc(*b"trun") {
            samples = samples.saturating_add(u64::from(number_at(run.payload(), 4)?));
        }
    }
    Some(samples)
}

// How many samples a table of an `stbl` counts.
fn counted_in(stbl: BoxView, leaf: BoxView) -> Option<u64> {
    let payload = leaf.payload();
    match &leaf.kind().0 {
        b"stts" | b"ctts" => counted_by_rows(payload, 4),
        b"stsc" => counted_by_chunks(payload, chunks_in(stbl)?),
        b"sbgp" => counted_by_groups(payload),
        _ => None,
    }
}

// The same, where a table of the track stands at a place of the file.
fn counts_of(stbl: BoxView, place: u64) -> Option<FaultNumbers>
    ensures { (file_len : ℕ) → IfSome result (IsPlain file_len) }
{
    let leaf = child_at(stbl, place)?;
    let counted = counted_in(stbl, leaf)?;
    let wanted = samples_in(stbl)?;
    Some(FaultNumbers::Counts { counted, wanted })
}

/// What the table at a place of the file counts, and how many samples its track has.
pub(crate) fn counts_in_tables(head: &MovieHead, place: u64) -> Option<FaultNumbers>
    ensures { (file_len : ℕ) → IfSome result (IsPlain file_len) }
{
    for track in &head.tracks {
        if let Some(counts) = counts_of(track.stbl, place) {
            return Some(counts);
        }
    }
    None
}

/// What the `sbgp` at a place of the file counts, in this `traf`, and how many samples that has.
pub(crate) fn counts_in_traf(traf: BoxView, place: u64) -> Option<FaultNumbers>
    ensures { (file_len : ℕ) → IfSome result (IsPlain file_len) }
{
    let leaf = child_at(traf, place)?;
    if leaf.kind() != FourCc(*b"sbgp") {
        return None;
    }
    let counted = counted_by_groups(leaf.payload())?;
    let wanted = samples_in_runs(traf)?;
    Some(FaultNumbers::Counts { counted, wanted })
}
