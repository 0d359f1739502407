//! `trak` in its one spelling (ISO/IEC 14496-12, 8.3 to 8.7).
ghost use Rattle.std.specs.Prelude.{◌≡◌, ◌+◌, ◌++◌, map, OnOk};
ghost use Rattle.std.specs.List.{flat_map};
ghost use Rattle.mp4_head.specs.words.Seen.{kept_seen, edit_seen, media_seen, track_seen};
ghost use Rattle.mp4_head.specs.format.Writing as written;
ghost use Rattle.mp4_head.specs.words.Parts.{edit_list_bytes, descriptions_bytes, information_bytes};
ghost use Rattle.mp4_boxes.specs.format.Written.{box_bytes};

use crate::edit_list::Edit;
use crate::heads::{Media, TrackHead};
use crate::kept_boxes::Kept;
use crate::spelling::{
    close_box, open_box, put, put_box, put_i16, put_i64, put_length, put_matrix, put_u16, put_u32,
    put_u64,
};
use crate::writing::put_kept;
use mp4_boxes::{FourCc, Memory};

// `tkhd` in front of its flags.
const TRACK_HEADER: &[u8] = b"\0\0\0\x68tkhd\x01";

// `mdhd` of version 1 in front of its creation time.
const MEDIA_HEADER: &[u8] = b"\0\0\0\x2cmdhd\x01\0\0\0";

// `dinf`: one data reference, this file.
const DATA_INFORMATION: &[u8] =
    b"\0\0\0\x24dinf\0\0\0\x1cdref\0\0\0\0\0\0\0\x01\0\0\0\x0curl \0\0\0\x01";

// `stts`, `stsc`, `stsz` and `stco` without rows.
const TABLES: &[u8] = b"\0\0\0\x10stts\0\0\0\0\0\0\0\0\0\0\0\x10stsc\0\0\0\0\0\0\0\0\
    \0\0\0\x14stsz\0\0\0\0\0\0\0\0\0\0\0\0\0\0\0\x10stco\0\0\0\0\0\0\0\0";

fn put_track_header(out: &mut Vec<u8>, track: &TrackHead) -> Result<(), Memory>
    ensures { OnOk result (out.new.items ≡ out.old.items
        ++ written.tkhd_bytes (track_seen track.now)) }
{
    let flags = track.flags.to_be_bytes();
    put(out, TRACK_HEADER)?;
    put(out, &flags[1..])?;
    put_u64(out, track.creation)?;
    put_u64(out, track.modification)?;
    put_u32(out, track.id)?;
    put(out, &[0; 20])?;
    put_i16(out, track.layer)?;
    put_i16(out, track.alternate_group)?;
    put_i16(out, track.volume)?;
    put(out, &[0; 2])?;
    put_matrix(out, &track.matrix)?;
    put_u32(out, track.width)?;
    put_u32(out, track.height)?;
    Ok(())
}

fn put_edit(out: &mut Vec<u8>, edit: &Edit) -> Result<(), Memory>
    ensures { OnOk result (out.new.items ≡ out.old.items
        ++ written.edit_bytes (edit_seen edit.now)) }
{
    put_u64(out, edit.segment_duration)?;
    put_i64(out, edit.media_time)?;
    put_i16(out, edit.rate_integer)?;
    put_i16(out, edit.rate_fraction)?;
    Ok(())
}

fn put_rows(out: &mut Vec<u8>, edits: &[Edit]) -> Result<(), Memory>
    ensures { OnOk result (out.new.items ≡ out.old.items
        ++ flat_map written.edit_bytes (map edit_seen edits.now)) }
{
    for edit in edits {
        put_edit(out, edit)?;
    }
    Ok(())
}

// `elst` of version 1.
fn put_edit_list(out: &mut Vec<u8>, edits: &[Edit]) -> Result<(), Memory>
    ensures { OnOk result (out.new.items ≡ out.old.items
        ++ edit_list_bytes (map edit_seen edits.now)) }
{
    let at = out.len();
    open_box(out, FourCc(*b"elst"))?;
    put(out, &[1, 0, 0, 0])?;
    put_length(out, edits.len())?;
    put_rows(out, edits)?;
    close_box(out, at);
    Ok(())
}

// `edts` with `elst`, if there are edits.
fn put_edits(out: &mut Vec<u8>, edits: &[Edit]) -> Result<(), Memory>
    ensures { OnOk result (out.new.items ≡ out.old.items
        ++ written.edts_bytes (map edit_seen edits.now)) }
{
    if edits.is_empty() {
        return Ok(());
    }
    let at = out.len();
    open_box(out, FourCc(*b"edts"))?;
    put_edit_list(out, edits)?;
    close_box(out, at);
    Ok(())
}

fn put_media_header(out: &mut Vec<u8>, media: &Media) -> Result<(), Memory>
    ensures { OnOk result (out.new.items ≡ out.old.items
        ++ written.mdhd_bytes (media_seen media.now)) }
{
    put(out, MEDIA_HEADER)?;
    put_u64(out, media.creation)?;
    put_u64(out, media.modification)?;
    put_u32(out, media.timescale)?;
    put(out, &[0; 8])?;
    put_u16(out, media.language)?;
    put(out, &[0; 2])?;
    Ok(())
}

// Boxes of one type with these payloads.
fn put_boxes(out: &mut Vec<u8>, kind: FourCc, payloads: &[&[u8]]) -> Result<(), Memory>
    ensures { OnOk result (out.new.items ≡ out.old.items
        ++ flat_map (box_bytes kind.0) (map (λ p. p.now) payloads.now)) }
{
    for payload in payloads {
        put_box(out, kind, payload)?;
    }
    Ok(())
}

// `stsd`.
fn put_descriptions(out: &mut Vec<u8>, descriptions: &[Kept]) -> Result<(), Memory>
    ensures { OnOk result (out.new.items ≡ out.old.items
        ++ descriptions_bytes (map kept_seen descriptions.now)) }
{
    let at = out.len();
    open_box(out, FourCc(*b"stsd"))?;
    put(out, &[0, 0, 0, 0])?;
    put_length(out, descriptions.len())?;
    put_kept(out, descriptions)?;
    close_box(out, at);
    Ok(())
}

fn put_sample_table(
    out: &mut Vec<u8>,
    descriptions: &[Kept],
    group_descriptions: &[&[u8]],
) -> Result<(), Memory>
    ensures { OnOk result (out.new.items ≡ out.old.items
        ++ written.stbl_bytes (map kept_seen descriptions.now)
        (map (λ p. p.now) group_descriptions.now)) }
{
    let at = out.len();
    open_box(out, FourCc(*b"stbl"))?;
    put_descriptions(out, descriptions)?;
    put(out, TABLES)?;
    put_boxes(out, FourCc(*b"sgpd"), group_descriptions)?;
    close_box(out, at);
    Ok(())
}

// `minf`.
fn put_information(out: &mut Vec<u8>, track: &TrackHead) -> Result<(), Memory>
    ensures { OnOk result (out.new.items ≡ out.old.items
        ++ information_bytes (track_seen track.now)) }
{
    let at = out.len();
    let header = track.media.header;
    open_box(out, FourCc(*b"minf"))?;
    put_box(out, header.kind, header.payload)?;
    put(out, DATA_INFORMATION)?;
    put_sample_table(out, &track.media.descriptions, &track.group_descriptions)?;
    close_box(out, at);
    Ok(())
}

// `mdia`.
fn put_media(out: &mut Vec<u8>, track: &TrackHead) -> Result<(), Memory>
    ensures { OnOk result (out.new.items ≡ out.old.items
        ++ written.mdia_bytes (track_seen track.now).media
        (track_seen track.now).group_descriptions) }
{
    let at = out.len();
    let media = &track.media;
    open_box(out, FourCc(*b"mdia"))?;
    put_media_header(out, media)?;
    put_box(out, FourCc(*b"hdlr"), media.handler)?;
    put_boxes(out, FourCc(*b"elng"), &media.extended_languages)?;
    put_information(out, track)?;
    close_box(out, at);
    Ok(())
}

pub(crate) fn put_track(out: &mut Vec<u8>, track: &TrackHead) -> Result<(), Memory>
    ensures { OnOk result (out.new.items ≡ out.old.items
        ++ written.trak_bytes (track_seen track.now)) }
{
    let at = out.len();
    open_box(out, FourCc(*b"trak"))?;
    put_track_header(out, track)?;
    put_edits(out, &track.edits)?;
    put_kept(out, &track.kept)?;
    put_media(out, track)?;
    close_box(out, at);
    Ok(())
}
