//! How long a head is in its one spelling.
ghost use Rattle.std.specs.Prelude.{◌≡◌, ℕ, ◌+◌, length, map};
ghost use Rattle.std.specs.List.{flat_map};
ghost use Rattle.mp4_boxes.specs.format.Written.{box_bytes};
ghost use Rattle.mp4_head.specs.words.Parts.{capped};
ghost use Rattle.mp4_head.specs.words.Seen.{kept_seen, edit_seen, track_seen, movie_seen, tracks_seen};
ghost use Rattle.mp4_head.specs.format.Writing as written;

use crate::edit_list::Edit;
use crate::heads::{MovieHead, TrackHead};
use crate::kept_boxes::Kept;
use mp4_boxes::FourCc;

// One more box.
fn add_box(before: u128, kind: FourCc, payload: &[u8]) -> u128
    ensures { result ≡ capped (before + length (box_bytes kind.0 payload.now)) }
{
    let front = 4 + kind.0.len() as u128;
    before
        .saturating_add(front)
        .saturating_add(payload.len() as u128)
}

// More kept boxes.
fn add_kept(before: u128, kept: &[Kept]) -> u128
    ensures { result
        ≡ capped (before + length (flat_map written.kept_bytes (map kept_seen kept.now))) }
{
    let mut total = before;
    for one in kept {
        total = add_box(total, one.kind, one.payload);
    }
    total
}

// More boxes of one type.
fn add_boxes(before: u128, kind: FourCc, payloads: &[&[u8]]) -> u128
    ensures { result
        ≡ capped (before + length (flat_map (box_bytes kind.0) (map (λ p. p.now) payloads.now))) }
{
    let mut total = before;
    for payload in payloads {
        total = add_box(total, kind, payload);
    }
    total
}

// `edts` with `elst`, if there are edits.
fn add_edits(before: u128, edits: &[Edit]) -> u128
    ensures { result ≡ capped (before + length (written.edts_bytes (map edit_seen edits.now))) }
{
    if edits.is_empty() {
        return before;
    }
    before.saturating_add(24 + 20 * edits.len() as u128)
}

// `trak`, and its `trex`: of fixed length are both, `tkhd`, `mdia`, `mdhd`, `minf`, `dinf`, `stbl`,
// `stsd` and the tables.
fn add_track(before: u128, track: &TrackHead) -> u128
    ensures { result
        ≡ capped (before
        + (length (written.trak_bytes (track_seen track.now))
        + length (written.trex_bytes (track_seen track.now)))) }
{
    let media = &track.media;
    let fixed = before.saturating_add(332);
    let edited = add_edits(fixed, &track.edits);
    let kept = add_kept(edited, &track.kept);
    let handled = add_box(kept, FourCc(*b"hdlr"), media.handler);
    let told = add_boxes(handled, FourCc(*b"elng"), &media.extended_languages);
    let headed = add_box(told, media.header.kind, media.header.payload);
    let described = add_kept(headed, &media.descriptions);
    add_boxes(described, FourCc(*b"sgpd"), &track.group_descriptions)
}

/// How many bytes `ftyp` and `moov` take, as far as 128 bits go.
pub fn head_len(head: &MovieHead) -> u128
    ensures length { (mehd : ℕ)
        → result ≡ capped
        (length (written.head_bytes (movie_seen head.now) (tracks_seen head.now) mehd)) }
{
    let mut total = add_kept(180, &head.kept);
    for track in &head.tracks {
        total = add_track(total, track);
    }
    total
}
