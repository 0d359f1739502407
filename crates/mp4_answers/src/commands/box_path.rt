//! The way to a place of a file: the boxes in which it lies, from the file's own box on.
ghost use Rattle.std.specs.Prelude.{◌≡◌, ◌⊎◌, ◌++◌, None, OnOk, IfSome, IsTrue, codes};
ghost use Rattle.mp4_boxes.specs.words.View.{box_seen};
ghost use Rattle.mp4_present.specs.words.Reading.{RefusesRead};
ghost use Rattle.mp4_store.specs.words.Device.{HasRisen, MayRise};
ghost use Rattle.mp4_answers.specs.format.BoxWalk.{IsWithin, top_seen};
ghost use Rattle.mp4_present.specs.words.StoresRead.{Refused, WhereHonest, WhereRead};
ghost use Rattle.mp4_boxes.specs.format.Box.{Tiles, box_container, counted_container};
ghost use Rattle.mp4_answers.specs.format.Ways.{HoldsFrom, HoldsNone, HoldsPlace, IsHeld, IsWayRead, step_text};
ghost use Rattle.mp4_answers.specs.format.Run.{KeepsFile};
ghost use Rattle.mp4_answers.specs.words.AddedWays.{AddsWay};

use crate::commands::boxes::rule_inside;
use crate::text::line::Line;
use mp4_boxes::{BoxView, Children, FourCc, Refusal, Rule, children, counted};
use mp4_present::{TopBox, read_bytes, read_top_header};
use mp4_store::Store;
use std::alloc::{AllocError, Global};

/// A box on a way: its type, and where it begins in the file.
#[derive(Clone, Copy, Debug, PartialEq, Eq)]
pub struct WayBox {
    pub kind: FourCc,
    pub offset: u64,
}

/// A way, spelled, and its last box: the file where it has none.
#[derive(Drop)]
pub struct Way {
    pub text: Vec<u8>,
    pub last: WayBox,
}

// The box as one of a way.
fn on_way(view: &BoxView) -> WayBox {
    WayBox {
        kind: view.kind(),
        offset: view.offset(),
    }
}

// Whether the place lies in the box.
fn holds(view: &BoxView, place: u64) -> bool
    ensures { IsTrue result → HoldsPlace place (box_seen view.now) }
{
    let end = view.payload_offset() + view.payload().len() as u64;
    view.offset() <= place && place < end
}

/// The name of a box on the way, with its number where it has one.
pub fn step_line(kind: FourCc, number: Option<u64>) -> Line
    ensures { result ≡ step_text kind.0 number }
{
    let mut line = Line::new();
    line.push_type(kind);
    if let Some(number) = number {
        line.push(b' ');
        line.push_number(number);
    }
    line
}

// Which of the boxes of its type the one at this place is, where there are several.
fn number_among(boxes: Option<Children>, kind: FourCc, place: u64) -> Option<u64> {
    let mut count = 0u64;
    let mut number = 0;
    for other in boxes? {
        if other.kind() == kind {
            count = count.saturating_add(1);
            if other.offset() == place {
                number = count;
            }
        }
    }
    (count > 1).then_some(number)
}

// The one of some boxes in which the place lies.
fn held_among<'a>(boxes: Children<'a>, place: u64) -> Option<BoxView<'a>>
    ensures { IfSome result (λ child. IsHeld place boxes.entry (box_seen child)) }
{
    for child in boxes {
        if holds(&child, place) {
            return Some(child);
        }
    }
    None
}

// The boxes of a container.
fn boxes_in<'a>(view: &BoxView<'a>) -> Option<Children<'a>>
    ensures { IfSome result (Tiles (box_container (box_seen view.now))) }
{
    children(view.payload(), view.payload_offset(), view.kind()).ok()
}

// The entries of an `stsd` or `dref`.
fn entries_in<'a>(view: BoxView<'a>) -> Option<Children<'a>>
    ensures { IfSome result (Tiles (counted_container (box_seen view.entry))) }
{
    let counts = view.kind() == FourCc(*b"stsd") || view.kind() == FourCc(*b"dref");
    if !counts || view.payload().len() < 8 {
        return None;
    }
    counted(view).ok()
}

// Adds a box, with its number if it has one.
fn push_step(text: &mut Vec<u8>, kind: FourCc, number: Option<u64>) -> Result<(), AllocError>
    ensures { OnOk result (text.new.items
        ≡ (text.old.items ++ codes " / ") ++ step_text kind.0 number) }
{
    text.extend_from_slice(b" / ")?;
    text.extend_from_slice(step_line(kind, number).as_bytes())
}

// Adds the entry of a box in which the place lies, if there is one, and gives the last box.
fn push_entry(text: &mut Vec<u8>, view: BoxView, place: u64) -> Result<WayBox, AllocError>
    ensures { OnOk result (AddsWay place (box_seen view.entry) text.old.items text.new.items) }
{
    let Some(entries) = entries_in(view) else {
        return Ok(on_way(&view));
    };
    let Some(entry) = held_among(entries, place) else {
        return Ok(on_way(&view));
    };
    let number = number_among(entries_in(view), entry.kind(), entry.offset());
    push_step(text, entry.kind(), number)?;
    Ok(on_way(&entry))
}

// Adds the way on from a box, and gives the last one.
fn push_way(text: &mut Vec<u8>, view: BoxView, rule: Rule, place: u64) -> Result<WayBox, AllocError>
    ensures { OnOk result (AddsWay place (box_seen view.entry) text.old.items text.new.items) }
{
    let Some(inner) = rule_inside(rule, view.kind()) else {
        return push_entry(text, view, place);
    };
    let Some(boxes) = boxes_in(&view) else {
        return Ok(on_way(&view));
    };
    let Some(child) = held_among(boxes, place) else {
        return Ok(on_way(&view));
    };
    let number = number_among(boxes_in(&view), child.kind(), child.offset());
    push_step(text, child.kind(), number)?;
    if child.offset() == place {
        return Ok(on_way(&child));
    }
    push_way(text, child, inner, place)
}

// The file's own box in which the place lies. None where the place lies behind a header that can't
// be read.
fn top_at<S: Store>(store: &mut S, place: u64) -> Option<TopBox>
    ensures store { KeepsFile S.Store store.old store.new }
    ensures within { IfSome result (IsWithin (S.file store.old)) }
    ensures holds { IfSome result (λ found. WhereHonest S.Store store.old
        (λ file. HoldsFrom file place 0 found)) }
    ensures reads { IfSome result (λ _. S.read_failures store.new ≡ S.read_failures store.old) }
    ensures none { result ≡ None → HasRisen (S.read_failures store.old) (S.read_failures store.new)
        ⊎ WhereHonest S.Store store.old (λ file. HoldsNone file place) }
{
    let len = store.len();
    let mut at = 0;
    while at < len {
        let Ok(header) = read_top_header(store, at) else {
            return None;
        };
        if place < header.end {
            return Some(TopBox { offset: at, header });
        }
        at = header.end;
    }
    None
}

/// Which of the file's own boxes of a type the one at this place is, where there are several, and
/// of each `moof`. The header of the one at this place may be cut short.
pub fn number_at_top<S: Store>(store: &mut S, kind: FourCc, place: u64) -> Option<u64>
    ensures store { KeepsFile S.Store store.old store.new }
    ensures rise { MayRise (S.read_failures store.old) (S.read_failures store.new) }
{
    let len = store.len();
    let mut at = 0;
    let mut count = 0u64;
    let mut number = 0;
    while at < len {
        let Ok(header) = read_top_header(store, at) else {
            if at == place {
                count = count.saturating_add(1);
                number = count;
            }
            break;
        };
        if header.kind == kind {
            count = count.saturating_add(1);
        }
        if at == place {
            number = count;
        }
        at = header.end;
    }
    (count > 1 || kind == FourCc(*b"moof")).then_some(number)
}

// Adds the way on from a box of the file itself, and gives the last one.
fn push_top_way<S: Store>(
    text: &mut Vec<u8>,
    alloc: Global,
    store: &mut S,
    top: TopBox,
    place: u64,
) -> Result<WayBox, Refusal>
    requires { IsWithin (S.file store.old) top }
    ensures store { KeepsFile S.Store store.old store.new }
    ensures way { OnOk result (WhereHonest S.Store store.old
        (λ file. AddsWay place (top_seen file top) text.old.items text.new.items)) }
    ensures refusal { Refused S.Store store.old store.new result RefusesRead }
{
    let header = top.header;
    if top.offset == place || rule_inside(Rule::File, header.kind).is_none() {
        return Ok(WayBox {
            kind: header.kind,
            offset: top.offset,
        });
    }
    let at = top.offset + u64::from(header.header);
    let payload = read_bytes(alloc, store, at, header.end - at)?;
    let view = BoxView::new(header.kind, top.offset, header.header, payload.as_slice());
    let last = push_way(text, view, Rule::File, place)?;
    Ok(last)
}

/// The way to a place of the file, as far as its boxes can be read.
pub fn way_to<S: Store>(alloc: Global, store: &mut S, place: u64) -> Result<Way, Refusal>
    ensures store { KeepsFile S.Store store.old store.new }
    ensures way { WhereRead S.Store store.old result (λ file w. IsWayRead
        (S.read_failures store.old) (S.read_failures store.new) file place w.text.items) }
    ensures refusal { Refused S.Store store.old store.new result RefusesRead }
{
    let mut text = Vec::new(alloc);
    let Some(top) = top_at(store, place) else {
        return Ok(Way {
            text,
            last: WayBox {
                kind: FourCc::FILE,
                offset: 0,
            },
        });
    };
    let number = number_at_top(store, top.header.kind, top.offset);
    text.extend_from_slice(step_line(top.header.kind, number).as_bytes())?;
    let last = push_top_way(&mut text, alloc, store, top, place)?;
    Ok(Way { text, last })
}
