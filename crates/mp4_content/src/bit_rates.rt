//! Sample descriptions without bit rates and sizes of buffers (ISO/IEC 14496-12, 8.5.2.2, and
//! ISO/IEC 14496-1, 7.2.6.6), and without ES_ID (ISO/IEC 14496-14, 3.1.2).
ghost use Rattle.std.specs.Prelude.{ℕ, ◌==◌, ◌≡◌, ◌+◌, ◌-◌, ◌<◌, ◌≤◌, ◌^◌, ◌++◌, ◌&&◌, [], ◌∷◌, length, drop, IfOk, OnOk, IsTrue, bytes_eq, slice_index};
ghost use Rattle.std.specs.List.{flat_map, list_all};
ghost use Rattle.mp4_boxes.specs.format.Bytes.{field};
ghost use Rattle.mp4_boxes.specs.format.Written.{box_bytes};
ghost use Rattle.mp4_head.specs.format.Head.{handler_type};
ghost use Rattle.mp4_head.specs.format.Writing.{kept_bytes};
ghost use Rattle.mp4_head.specs.words.Seen.{kept_seen};
ghost use Rattle.mp4_content.specs.format.BitRates.{are_zeros, begins_box, behind_left, box_left, clock_at, config_at, content_at, content_end, ends_in_rates, esds_left, first_box, has_descriptor, has_id, has_rates, id_zeroed, inner_box_left, left_of_boxes, length_number, length_width, other_left, payload_left, rates_at, rates_zeroed, sound_left, stream_flags, tiles_left, url_at, wave_left};

use crate::own_payloads::{copied, put_zeros};
use crate::without::{Without, Word};
use mp4_boxes::{FourCc, Memory, u16_at, u32_at};
use mp4_head::Kept;
use std::alloc::Global;

// ---- descriptors

// The byte at a place, or 0 behind the end.
fn byte_at(bytes: &[u8], at: usize) -> usize
    ensures is { result ≡ slice_index bytes.now at }
    ensures small { result < 256 }
{
    if at < bytes.len() {
        usize::from(bytes[at])
    } else {
        0
    }
}

// How many bytes a length has from a place on: five where it has too many.
#[tactic(auto, unfolding(crate::specs::format::BitRates::length_width))]
fn length_width(bytes: &[u8], at: usize) -> usize
    requires { at < 2 ^ 48 }
    ensures is { result ≡ length_width 4 bytes.now at }
    ensures few { (0 < result) × (result ≤ 5) }
{
    if byte_at(bytes, at) < 128 {
        return 1;
    }
    if byte_at(bytes, at + 1) < 128 {
        return 2;
    }
    if byte_at(bytes, at + 2) < 128 {
        return 3;
    }
    if byte_at(bytes, at + 3) < 128 {
        return 4;
    }
    5
}

// The number in so many bytes of seven bits each.
#[tactic(auto, unfolding(crate::specs::format::BitRates::length_number))]
fn length_number(bytes: &[u8], at: usize, width: usize) -> usize
    requires place { at < 2 ^ 48 }
    requires width { width ≤ 5 }
    ensures is { result ≡ length_number width bytes.now at }
    ensures small { result < 2 ^ 35 }
{
    let mut number = 0;
    for k in 0..width {
        number = number * 128 + byte_at(bytes, at + k) % 128;
    }
    number
}

// Where the content begins of the descriptor whose tag is at a place.
#[tactic(auto, unfolding(crate::specs::format::BitRates::content_at))]
fn content_at(bytes: &[u8], at: usize) -> usize
    requires { at < 2 ^ 40 }
    ensures is { result ≡ content_at bytes.now at }
    ensures near { (at + 1 < result) × (result ≤ at + 6) }
{
    at + 1 + length_width(bytes, at + 1)
}

// Where it ends.
#[tactic(auto, unfolding(crate::specs::format::BitRates::content_end))]
fn content_end(bytes: &[u8], at: usize) -> usize
    requires { at < 2 ^ 40 }
    ensures { result ≡ content_end bytes.now at }
{
    let width = length_width(bytes, at + 1);
    content_at(bytes, at) + length_number(bytes, at + 1, width)
}

// Whether a descriptor of a tag is at a place, and ends within others.
#[tactic(auto, unfolding(crate::specs::format::BitRates::has_descriptor))]
fn has_descriptor(tag: usize, end: usize, bytes: &[u8], at: usize) -> bool
    requires { at < 2 ^ 40 }
    ensures { result ≡ has_descriptor tag end bytes.now at }
{
    byte_at(bytes, at) == tag && length_width(bytes, at + 1) <= 4 && content_end(bytes, at) <= end
}

// ---- `esds`

// The byte that says which fields of an ES_Descriptor follow.
#[tactic(auto, unfolding(crate::specs::format::BitRates::stream_flags))]
fn stream_flags(payload: &[u8]) -> usize
    ensures { result ≡ stream_flags payload.now }
{
    byte_at(payload, content_at(payload, 4) + 2)
}

// Where a URL begins, or would.
#[tactic(auto, unfolding(crate::specs::format::BitRates::url_at))]
fn url_at(payload: &[u8]) -> usize
    ensures is { result ≡ url_at payload.now }
    ensures near { result ≤ 15 }
{
    let fields = if stream_flags(payload) / 128 % 2 == 1 {
        5
    } else {
        3
    };
    content_at(payload, 4) + fields
}

// How many bytes a URL and its length take.
#[tactic(auto, unfolding(crate::specs::format::BitRates::clock_at))]
fn url_len(payload: &[u8]) -> usize
    ensures is { url_at payload.now + result ≡ clock_at payload.now }
    ensures few { result ≤ 256 }
{
    if stream_flags(payload) / 64 % 2 == 1 {
        1 + byte_at(payload, url_at(payload))
    } else {
        0
    }
}

// Where DecoderConfigDescriptor begins.
#[tactic(auto, unfolding(crate::specs::format::BitRates::config_at))]
fn config_at(payload: &[u8]) -> usize
    ensures is { result ≡ config_at payload.now }
    ensures near { result ≤ 273 }
{
    let clock = if stream_flags(payload) / 32 % 2 == 1 {
        2
    } else {
        0
    };
    url_at(payload) + url_len(payload) + clock
}

// Where bit rates and the size of a buffer are.
#[tactic(auto, unfolding(crate::specs::format::BitRates::rates_at))]
fn rates_at(payload: &[u8]) -> usize
    ensures is { result ≡ rates_at payload.now }
    ensures near { result ≤ 281 }
{
    content_at(payload, config_at(payload)) + 2
}

// Whether they are there.
#[tactic(auto, unfolding(crate::specs::format::BitRates::has_rates))]
fn has_rates(payload: &[u8]) -> bool
    ensures { result ≡ has_rates payload.now }
{
    let at = config_at(payload);
    has_descriptor(3, payload.len(), payload, 4)
        && has_descriptor(4, content_end(payload, 4), payload, at)
        && rates_at(payload) + 11 <= content_end(payload, at)
}

// Whether ES_ID is there.
#[tactic(auto, unfolding(crate::specs::format::BitRates::has_id))]
fn has_id(payload: &[u8]) -> bool
    ensures { result ≡ has_id payload.now }
{
    has_descriptor(3, payload.len(), payload, 4)
        && content_at(payload, 4) + 2 <= content_end(payload, 4)
}

// Puts zeros in the place of bit rates and the size of a buffer, where they are there.
fn zero_rates(payload: &mut [u8])
    ensures { payload.new ≡ rates_zeroed payload.old }
{
    if has_rates(payload) {
        let at = rates_at(payload);
        put_zeros(payload, at, 11);
    }
}

// Puts zeros in the place of ES_ID, where it is there.
fn zero_id(payload: &mut [u8])
    ensures { payload.new ≡ id_zeroed payload.old }
{
    if has_id(payload) {
        let at = content_at(payload, 4);
        put_zeros(payload, at, 2);
    }
}

// What is left of the payload of an `esds`.
fn esds_left(alloc: Global, leaving: Without, payload: &[u8]) -> Result<Vec<u8>, Memory>
    ensures { IfOk result (λ left. left.items
        ≡ esds_left leaving.bitrates leaving.ids payload.now) }
{
    let mut left = copied(alloc, payload)?;
    if leaving.has(Word::Ids) {
        zero_id(left.as_mut_slice());
    }
    if leaving.has(Word::Bitrates) {
        zero_rates(left.as_mut_slice());
    }
    Ok(left)
}

// ---- boxes

// Whether a box with a header of 8 bytes begins these bytes.
fn begins_box(bytes: &[u8]) -> bool
    ensures { result ≡ begins_box bytes.now }
{
    if bytes.len() < 8 {
        return false;
    }
    let size = u32_at(bytes, 0) as usize;
    if size < 8 {
        return false;
    }
    size <= bytes.len()
}

// The box in front of these bytes, and what is behind it.
fn split_box<'a>(bytes: &'a [u8]) -> (Kept<'a>, &'a [u8])
    requires { IsTrue (begins_box bytes.now) }
    ensures first { kept_seen result.0 ≡ first_box bytes.entry.now }
    ensures behind { result.1.now ≡ drop (field bytes.entry.now 0 4) bytes.entry.now }
    ensures short { length result.0.payload.now + 8 < 2 ^ 32 }
    ensures shorter { length result.1.now < length bytes.entry.now }
{
    let size = u32_at(bytes, 0) as usize;
    let (whole, behind) = bytes.split_at(size);
    let (header, payload) = whole.split_at(8);
    let kind = FourCc([header[4], header[5], header[6], header[7]]);
    (Kept { kind, payload }, behind)
}

// Whether these are zeros.
fn all_zeros(bytes: &[u8]) -> bool
    ensures { result ≡ list_all (λ (b : ℕ). b == 0) bytes.now }
{
    bytes.iter().all(|byte| *byte == 0)
}

// Whether these are zeros, and no more than so many.
fn are_zeros(bytes: &[u8], most: usize) -> bool
    ensures { result ≡ are_zeros most bytes.now }
{
    if bytes.len() > most {
        return false;
    }
    all_zeros(bytes)
}

// Adds bytes.
fn put(out: &mut Vec<u8>, piece: &[u8]) -> Result<(), Memory>
    ensures { OnOk result (out.new.items ≡ out.old.items ++ piece.now) }
{
    out.extend_from_slice(piece).map_err(|_| Memory)
}

// Adds a box with a header of 8 bytes.
fn put_box(out: &mut Vec<u8>, kind: FourCc, payload: &[u8]) -> Result<(), Memory>
    requires { length payload.now + 8 < 2 ^ 32 }
    ensures { OnOk result (out.new.items ≡ out.old.items ++ box_bytes kind.0 payload.now) }
{
    let size = (payload.len() + 8) as u32;
    put(out, &size.to_be_bytes())?;
    put(out, &kind.0)?;
    put(out, payload)
}

// Adds what is left of a box in a `wave`.
fn put_inner(alloc: Global, leaving: Without, out: &mut Vec<u8>, kept: &Kept) -> Result<(), Memory>
    requires { length kept.now.payload.now + 8 < 2 ^ 32 }
    ensures { OnOk result (out.new.items ≡ out.old.items
        ++ flat_map kept_bytes (left_of_boxes leaving.bitrates
        (inner_box_left leaving.bitrates leaving.ids) (kept_seen kept.now ∷ []))) }
{
    if leaving.has(Word::Bitrates) && kept.kind == FourCc(*b"btrt") {
        return Ok(());
    }
    if kept.kind != FourCc(*b"esds") {
        return put_box(out, kept.kind, kept.payload);
    }
    let left = esds_left(alloc, leaving, kept.payload)?;
    put_box(out, kept.kind, left.as_slice())
}

// What is left of the payload of a `wave`.
fn wave_left(alloc: Global, leaving: Without, payload: &[u8]) -> Result<Vec<u8>, Memory>
    ensures { IfOk result (λ left. left.items
        ≡ wave_left leaving.bitrates leaving.ids payload.now) }
{
    let mut left = Vec::new(alloc);
    let mut rest = payload;
    while begins_box(rest) {
        let (kept, behind) = split_box(rest);
        put_inner(alloc, leaving, &mut left, &kept)?;
        rest = behind;
    }
    if !are_zeros(rest, 0) {
        return copied(alloc, payload);
    }
    put(&mut left, rest)?;
    Ok(left)
}

// Adds what is left of a box in a description.
fn put_left(alloc: Global, leaving: Without, out: &mut Vec<u8>, kept: &Kept) -> Result<(), Memory>
    requires { length kept.now.payload.now + 8 < 2 ^ 32 }
    ensures { OnOk result (out.new.items ≡ out.old.items
        ++ flat_map kept_bytes (left_of_boxes leaving.bitrates
        (box_left leaving.bitrates leaving.ids) (kept_seen kept.now ∷ []))) }
{
    if kept.kind != FourCc(*b"wave") {
        return put_inner(alloc, leaving, out, kept);
    }
    let left = wave_left(alloc, leaving, kept.payload)?;
    put_box(out, kept.kind, left.as_slice())
}

// What is left of bytes that boxes tile, up to so many zeros at their end.
fn tiles_left(
    alloc: Global,
    leaving: Without,
    zeros: usize,
    bytes: &[u8],
) -> Result<Vec<u8>, Memory>
    ensures { IfOk result (λ left. left.items ≡ tiles_left leaving.bitrates
        (box_left leaving.bitrates leaving.ids) zeros bytes.now) }
{
    let mut left = Vec::new(alloc);
    let mut rest = bytes;
    while begins_box(rest) {
        let (kept, behind) = split_box(rest);
        put_left(alloc, leaving, &mut left, &kept)?;
        rest = behind;
    }
    if !are_zeros(rest, zeros) {
        return copied(alloc, bytes);
    }
    put(&mut left, rest)?;
    Ok(left)
}

// ---- descriptions

// What is left of the payload of a description whose boxes begin at a place.
fn behind_left(
    alloc: Global,
    leaving: Without,
    at: usize,
    zeros: usize,
    payload: &[u8],
) -> Result<Vec<u8>, Memory>
    ensures { IfOk result (λ left. left.items
        ≡ behind_left leaving.bitrates leaving.ids at zeros payload.now) }
{
    if payload.len() < at {
        return copied(alloc, payload);
    }
    let (front, boxes) = payload.split_at(at);
    let mut left = copied(alloc, front)?;
    let tiles = tiles_left(alloc, leaving, zeros, boxes)?;
    put(&mut left, tiles.as_slice())?;
    Ok(left)
}

// What is left of the payload of an AudioSampleEntry.
fn sound_left(alloc: Global, leaving: Without, payload: &[u8]) -> Result<Vec<u8>, Memory>
    ensures { IfOk result (λ left. left.items
        ≡ sound_left leaving.bitrates leaving.ids payload.now) }
{
    if payload.len() < 28 {
        return copied(alloc, payload);
    }
    match u16_at(payload, 8) {
        0 => behind_left(alloc, leaving, 28, 0, payload),
        1 => behind_left(alloc, leaving, 44, 0, payload),
        2 => behind_left(alloc, leaving, 64, 0, payload),
        _ => copied(alloc, payload),
    }
}

// Whether the payload of a description of any other handler ends in a `btrt` of 20 bytes.
fn ends_in_rates(payload: &[u8]) -> bool
    ensures { result ≡ ends_in_rates payload.now }
{
    if payload.len() < 28 {
        return false;
    }
    let at = payload.len() - 20;
    if u32_at(payload, at) != 20 {
        return false;
    }
    let (_, last) = payload.split_at(at + 4);
    &last[..4] == b"btrt".as_slice()
}

// What is left of the payload of a description of any other handler.
fn other_left(alloc: Global, payload: &[u8]) -> Result<Vec<u8>, Memory>
    ensures { IfOk result (λ left. left.items ≡ other_left payload.now) }
{
    let mut front = payload;
    while ends_in_rates(front) {
        let (first, _) = front.split_at(front.len() - 20);
        front = first;
    }
    copied(alloc, front)
}

/// Whether a handler names a type.
pub(crate) fn is_type(handler: &[u8], kind: &[u8; 4]) -> bool
    ensures { result ≡ bytes_eq (handler_type handler.now) kind.now }
{
    handler.len() >= 12 && &handler[8..12] == kind.as_slice()
}

/// What is left of the payload of a sample description, by the handler of its track.
pub(crate) fn payload_left(
    alloc: Global,
    leaving: Without,
    handler: &[u8],
    payload: &[u8],
) -> Result<Vec<u8>, Memory>
    ensures { IfOk result (λ left. left.items
        ≡ payload_left leaving.bitrates leaving.ids (handler_type handler.now) payload.now) }
{
    if is_type(handler, b"vide") {
        behind_left(alloc, leaving, 78, 4, payload)
    } else if is_type(handler, b"soun") {
        sound_left(alloc, leaving, payload)
    } else if leaving.has(Word::Bitrates) {
        other_left(alloc, payload)
    } else {
        copied(alloc, payload)
    }
}
