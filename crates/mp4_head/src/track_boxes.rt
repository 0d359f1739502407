//! `trak`: one track (ISO/IEC 14496-12, 8.3.1).
ghost use Rattle.std.specs.Prelude.{◌≡◌, ℕ, suc, List, map, IfOk, OnOk};
ghost use Rattle.mp4_boxes.specs.format.Children.{is_among, kept_kinds};
ghost use Rattle.mp4_boxes.specs.format.Layout.{tkhd, IsSound};
ghost use Rattle.mp4_boxes.specs.words.View.{box_seen};
ghost use Rattle.mp4_boxes.specs.declared.rule.Rule.TheVariants as rules;
ghost use Rattle.mp4_head.specs.words.Found.{track_joined, HasTrackHead};
ghost use Rattle.mp4_boxes.specs.format.Places.{ruled};
ghost use Rattle.mp4_head.specs.format.FirstFault.{fault_within};
ghost use Rattle.mp4_head.specs.words.FaultNamed.{NamesRefused, taken_fault};
ghost use Rattle.mp4_head.specs.words.Refuses.{place_of};
ghost use Rattle.mp4_head.specs.words.Ids.{HasIds, AddsId};
ghost use Rattle.mp4_head.specs.words.Leaves.{SaysTrack};
ghost use Rattle.mp4_head.specs.words.Seen.{edit_seen, kept_seen, track_seen};

use crate::edit_list::{Edit, read_edits};
use crate::heads::{Media, TrackHead};
use crate::kept_boxes::{Kept, keep_unplaced};
use crate::leaves::is;
use crate::media_boxes::{MediaParts, read_media};
use crate::track_header::{TrackHeader, read_track_header};
use mp4_boxes::{BoxView, FourCc, Kind, Refusal, Rule, check_children};
use std::alloc::Global;
use std::collections::BTreeSet;

// A `tkhd` with an ID that none has that was read before.
fn read_new_track_header(view: BoxView, ids: &mut BTreeSet<u32>) -> Result<TrackHeader, Refusal>
    ensures says { IfOk result (SaysTrack (box_seen view.entry).payload) }
    ensures sound { OnOk result (IsSound tkhd (box_seen view.entry).payload) }
    ensures added { IfOk result (λ h. AddsId ids.old ids.new h.id) }
    ensures exact { (numbers : List ℕ) → HasIds ids.old numbers
        → NamesRefused (taken_fault tkhd 4 numbers (box_seen view.entry)) result }
{
    let header = read_track_header(view)?;
    if !ids.insert(header.id)? {
        return Err(Refusal::from(view.fault(Kind::BadValue)));
    }
    Ok(header)
}

// What is said of a track, put together.
fn head_of<'a>(
    header: TrackHeader,
    offset: u64,
    edits: Vec<Edit>,
    kept: Vec<Kept<'a>>,
    parts: MediaParts<'a>,
) -> TrackHead<'a>
    ensures head { track_seen result
        ≡ track_joined header (map edit_seen edits.items) (map kept_seen kept.entry.items)
        parts.entry }
    ensures stbl { box_seen result.stbl ≡ box_seen parts.entry.information.stbl }
    ensures offset { result.offset ≡ offset }
{
    let matrix = header.matrix;
    let media = parts.header;
    let information = parts.information;
    let table = information.table;
    TrackHead {
        flags: header.flags,
        creation: header.creation,
        modification: header.modification,
        id: header.id,
        layer: header.layer,
        alternate_group: header.alternate_group,
        volume: header.volume,
        matrix,
        width: header.width,
        height: header.height,
        edits,
        kept,
        media: Media {
            creation: media.creation,
            modification: media.modification,
            timescale: media.timescale,
            language: media.language,
            handler: parts.handler,
            extended_languages: parts.extended_languages,
            header: information.header,
            descriptions: table.descriptions,
        },
        group_descriptions: table.group_descriptions,
        stbl: information.stbl,
        offset,
    }
}

// Whether the box is kept in a `trak`.
fn is_kept(view: BoxView) -> bool
    ensures { result ≡ is_among (kept_kinds rules.Track) (box_seen view.entry).kind }
{
    Rule::Track.keeps(view.kind())
}

// A track whose ID is none of these; it is then one of them.
pub(crate) fn read_track<'a>(
    alloc: Global,
    trak: BoxView<'a>,
    ids: &mut BTreeSet<u32>,
) -> Result<TrackHead<'a>, Refusal>
    ensures says { IfOk result
        (λ t. HasTrackHead (box_seen trak.entry) (track_seen t) (box_seen t.stbl) t.offset) }
    ensures added { IfOk result (λ t. AddsId ids.old ids.new t.id) }
    ensures exact { (n : ℕ) (numbers : List ℕ) → HasIds ids.old numbers
        → NamesRefused (fault_within (suc (suc (suc (suc (suc n))))) numbers
        (place_of (ruled rules.Track) (box_seen trak.entry))) result }
{
    let mut header = None;
    let mut edits = Vec::new(alloc);
    let mut kept = Vec::new(alloc);
    let mut media = None;
    for child in check_children(trak, Rule::Track)? {
        if is(child, FourCc(*b"tkhd")) {
            header = Some((read_new_track_header(child, ids)?, child.offset()));
        } else if is(child, FourCc(*b"edts")) {
            edits = read_edits(alloc, child)?;
        } else if is_kept(child) {
            kept.push(keep_unplaced(child)?)?;
        } else if is(child, FourCc(*b"mdia")) {
            media = Some(read_media(alloc, child)?);
        }
    }
    let (Some((header, offset)), Some(media)) = (header, media) else {
        return Err(Refusal::from(trak.fault(Kind::MissingBox)));
    };
    Ok(head_of(header, offset, edits, kept, media))
}
