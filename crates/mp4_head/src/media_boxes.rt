//! `mdia`: `mdhd`, `hdlr`, `elng` and `minf` (ISO/IEC 14496-12, 8.4).
ghost use Rattle.std.specs.Prelude.{◌≡◌, ◌+◌, ◌*◌, ◌≤◌, ◌⊎◌, ℕ, suc, List, length, map, IfOk, MatchResult, None, Some};
ghost use Rattle.mp4_boxes.specs.format.Layout.{mdhd, hdlr, version, time_width};
ghost use Rattle.mp4_boxes.specs.words.View.{box_seen};
ghost use Rattle.mp4_boxes.specs.format.Places.{ruled};
ghost use Rattle.mp4_boxes.specs.declared.rule.Rule.TheVariants as rules;
ghost use Rattle.mp4_head.specs.words.Containers.{SaysMediaBoxes};
ghost use Rattle.mp4_head.specs.format.FirstFault.{fault_within};
ghost use Rattle.mp4_head.specs.words.FaultNamed.{NamesRefused};
ghost use Rattle.mp4_head.specs.words.Leaves.{SaysMedia};
ghost use Rattle.mp4_head.specs.words.Refuses.{place_of};
ghost use Rattle.mp4_head.specs.words.Seen.{kept_seen};
ghost use Rattle.mp4_boxes.specs.format.FirstFault.{leaf_fault};

use crate::information::{Information, read_information};
use crate::leaves::{is, open, time_at};
use mp4_boxes::{BoxView, Fault, FourCc, Kind, Refusal, Rule, check_children, u16_at, u32_at};
use std::alloc::Global;

#[derive(Clone, Copy, Debug)]
pub(crate) struct MediaHeader {
    pub(crate) creation: u64,
    pub(crate) modification: u64,
    pub(crate) timescale: u32,
    pub(crate) language: u16,
}

// The fields of an `mdhd` whose times take so many bytes.
fn fields_of(payload: &[u8], width: usize) -> MediaHeader
    requires width { width ≡ time_width (version payload.now) }
    requires either { (width ≡ 4) ⊎ (width ≡ 8) }
    requires room { 12 + 3 * width ≤ length payload.now }
    ensures { SaysMedia payload.now result }
{
    MediaHeader {
        creation: time_at(payload, 4, width),
        modification: time_at(payload, 4 + width, width),
        timescale: u32_at(payload, 4 + 2 * width),
        language: u16_at(payload, 8 + 3 * width),
    }
}

// `mdhd` (8.4.2).
fn read_media_header(view: BoxView) -> Result<MediaHeader, Fault>
    ensures says { IfOk result (SaysMedia (box_seen view.entry).payload) }
    ensures exact { MatchResult result (λ h. leaf_fault mdhd (box_seen view.entry) ≡ None)
        (λ f. leaf_fault mdhd (box_seen view.entry) ≡ Some f) }
{
    let width = open(view, 1, 12, 3)?;
    let header = fields_of(view.payload(), width);
    if header.timescale == 0 {
        return Err(view.fault(Kind::BadValue));
    }
    Ok(header)
}

// The payload of a `hdlr` (8.4.3), of any version.
fn read_handler<'a>(view: BoxView<'a>) -> Result<&'a [u8], Fault>
    ensures payload { IfOk result (λ r. r.now ≡ (box_seen view.entry).payload) }
    ensures exact { MatchResult result (λ h. leaf_fault hdlr (box_seen view.entry) ≡ None)
        (λ f. leaf_fault hdlr (box_seen view.entry) ≡ Some f) }
{
    let payload = view.payload();
    if payload.len() < 24 {
        return Err(view.fault(Kind::ShortBox));
    }
    Ok(payload)
}

// What `mdia` says, box by box.
#[derive(Debug, Drop)]
pub(crate) struct MediaParts<'a> {
    pub(crate) header: MediaHeader,
    pub(crate) handler: &'a [u8],
    pub(crate) extended_languages: Vec<&'a [u8]>,
    pub(crate) information: Information<'a>,
}

pub(crate) fn read_media<'a>(alloc: Global, mdia: BoxView<'a>) -> Result<MediaParts<'a>, Refusal>
    ensures says { IfOk result
        (λ m. SaysMediaBoxes (box_seen mdia.entry) m.header m.handler.now
        (map (λ p. p.now) m.extended_languages.items) (kept_seen m.information.header)
        (box_seen m.information.stbl)
        (map kept_seen m.information.table.descriptions.items)
        (map (λ p. p.now) m.information.table.group_descriptions.items)) }
    ensures exact { (n : ℕ) (ids : List ℕ) → NamesRefused (fault_within
        (suc (suc (suc (suc n)))) ids
        (place_of (ruled rules.Media) (box_seen mdia.entry))) result }
{
    let mut header = None;
    let mut handler = None;
    let mut extended_languages = Vec::new(alloc);
    let mut information = None;
    for child in check_children(mdia, Rule::Media)? {
        if is(child, FourCc(*b"mdhd")) {
            header = Some(read_media_header(child)?);
        } else if is(child, FourCc(*b"hdlr")) {
            handler = Some(read_handler(child)?);
        } else if is(child, FourCc(*b"elng")) {
            extended_languages.push(child.payload())?;
        } else if is(child, FourCc(*b"minf")) {
            information = Some(read_information(alloc, child)?);
        }
    }
    let Some(header) = header else {
        return Err(Refusal::from(mdia.fault(Kind::MissingBox)));
    };
    let Some(handler) = handler else {
        return Err(Refusal::from(mdia.fault(Kind::MissingBox)));
    };
    let Some(information) = information else {
        return Err(Refusal::from(mdia.fault(Kind::MissingBox)));
    };
    Ok(MediaParts {
        header,
        handler,
        extended_languages,
        information,
    })
}
