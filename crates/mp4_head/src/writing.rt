//! The head in its one spelling: `ftyp` and `moov` (ISO/IEC 14496-12, 4.3 and 8.1 to 8.8.3).
ghost use Rattle.std.specs.Prelude.{◌≡◌, ◌+◌, ◌≤◌, ◌^◌, ◌<◌, ◌++◌, length, map, IfOk, OnOk};
ghost use Rattle.std.specs.List.{flat_map};
ghost use Rattle.mp4_head.specs.words.Seen.{kept_seen, movie_seen, tracks_seen, track_seen};
ghost use Rattle.mp4_head.specs.format.Writing as written;

use crate::heads::{MovieHead, TrackHead};
use crate::kept_boxes::Kept;
use crate::lengths::head_len;
use crate::spelling::{
    close_box, open_box, put, put_box, put_i16, put_i32, put_matrix, put_u32, put_u64,
};
use crate::track_writing::put_track;
use mp4_boxes::{FourCc, Memory};
use std::alloc::Global;

// Brands: `iso6` is the least that has default-base-is-moof and `tfdt` of version 1.
const FILE_TYPE: &[u8] = b"\0\0\0\x18ftypiso6\0\0\0\0iso6mp41";

// `mvhd` of version 1 in front of its creation time.
const MOVIE_HEADER: &[u8] = b"\0\0\0\x78mvhd\x01\0\0\0";

// `mehd` of version 1 in front of its duration.
const EXTENDS_HEADER: &[u8] = b"\0\0\0\x14mehd\x01\0\0\0";

// `trex` in front of its track ID.
const TRACK_EXTENDS: &[u8] = b"\0\0\0\x20trex\0\0\0\0";

// One above the largest ID, as far as 32 bits go.
fn next_track_id(tracks: &[TrackHead]) -> u32
    ensures { result ≡ written.next_track_id (map track_seen tracks.now) }
{
    let mut largest = 0;
    for track in tracks {
        largest = largest.max(track.id);
    }
    largest.saturating_add(1)
}

fn put_movie_header(out: &mut Vec<u8>, head: &MovieHead, next: u32) -> Result<(), Memory>
    ensures { OnOk result (out.new.items ≡ out.old.items
        ++ written.mvhd_bytes (movie_seen head.now) next) }
{
    put(out, MOVIE_HEADER)?;
    put_u64(out, head.creation)?;
    put_u64(out, head.modification)?;
    put_u32(out, head.timescale)?;
    put(out, &[0; 8])?;
    put_i32(out, head.rate)?;
    put_i16(out, head.volume)?;
    put(out, &[0; 10])?;
    put_matrix(out, &head.matrix)?;
    put(out, &[0; 24])?;
    put_u32(out, next)?;
    Ok(())
}

// Boxes as they are kept.
pub(crate) fn put_kept(out: &mut Vec<u8>, kept: &[Kept]) -> Result<(), Memory>
    ensures { OnOk result (out.new.items ≡ out.old.items
        ++ flat_map written.kept_bytes (map kept_seen kept.now)) }
{
    for one in kept {
        put_box(out, one.kind, one.payload)?;
    }
    Ok(())
}

fn put_track_extends(out: &mut Vec<u8>, track: &TrackHead) -> Result<(), Memory>
    ensures { OnOk result (out.new.items ≡ out.old.items
        ++ written.trex_bytes (track_seen track.now)) }
{
    put(out, TRACK_EXTENDS)?;
    put_u32(out, track.id)?;
    put(out, &[0, 0, 0, 1])?;
    put(out, &[0; 12])?;
    Ok(())
}

fn put_tracks_extends(out: &mut Vec<u8>, tracks: &[TrackHead]) -> Result<(), Memory>
    ensures { OnOk result (out.new.items ≡ out.old.items
        ++ flat_map written.trex_bytes (map track_seen tracks.now)) }
{
    for track in tracks {
        put_track_extends(out, track)?;
    }
    Ok(())
}

// `mehd`, and a `trex` for each track.
fn put_extends(out: &mut Vec<u8>, tracks: &[TrackHead], mehd: u64) -> Result<(), Memory>
    ensures { OnOk result (out.new.items ≡ out.old.items
        ++ written.mvex_bytes (map track_seen tracks.now) mehd) }
{
    let at = out.len();
    open_box(out, FourCc(*b"mvex"))?;
    put(out, EXTENDS_HEADER)?;
    put_u64(out, mehd)?;
    put_tracks_extends(out, tracks)?;
    close_box(out, at);
    Ok(())
}

fn put_tracks(out: &mut Vec<u8>, tracks: &[TrackHead]) -> Result<(), Memory>
    ensures { OnOk result (out.new.items ≡ out.old.items
        ++ flat_map written.trak_bytes (map track_seen tracks.now)) }
{
    for track in tracks {
        put_track(out, track)?;
    }
    Ok(())
}

fn put_movie(out: &mut Vec<u8>, head: &MovieHead, mehd: u64) -> Result<(), Memory>
    ensures { OnOk result (out.new.items ≡ out.old.items
        ++ written.moov_bytes (movie_seen head.now) (tracks_seen head.now) mehd) }
{
    let at = out.len();
    open_box(out, FourCc(*b"moov"))?;
    put_movie_header(out, head, next_track_id(&head.tracks))?;
    put_kept(out, &head.kept)?;
    put_tracks(out, &head.tracks)?;
    put_extends(out, &head.tracks, mehd)?;
    close_box(out, at);
    Ok(())
}

/// The bytes of `ftyp` and `moov`, with this duration in `mehd`. One growth is made.
pub fn head_bytes(alloc: Global, head: &MovieHead, mehd: u64) -> Result<Vec<u8>, Memory>
    requires limit { length (written.moov_bytes (movie_seen head.now) (tracks_seen head.now) mehd)
        ≤ 2 ^ 30 }
    ensures bytes { IfOk result (λ out. out.items
        ≡ written.head_bytes (movie_seen head.now) (tracks_seen head.now) mehd) }
{
    let Ok(mut out) = Vec::with_capacity(alloc, head_len(head) as usize) else {
        return Err(Memory);
    };
    put(&mut out, FILE_TYPE)?;
    put_movie(&mut out, head, mehd)?;
    Ok(out)
}
