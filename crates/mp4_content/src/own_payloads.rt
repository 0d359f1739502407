//! What is left of payloads of heads, in memory of its own.
ghost use Rattle.std.specs.Prelude.{◌≡◌, ◌+◌, ◌<◌, ◌^◌, ◌||◌, if◌then◌else◌, true, map, IfOk, OnOk};
ghost use Rattle.mp4_head.specs.format.Head.{handler_type};
ghost use Rattle.mp4_head.specs.words.Seen.{kept_seen, media_seen, movie_seen, track_seen, tracks_seen};
ghost use Rattle.mp4_content.specs.format.BitRates.{payload_left};
ghost use Rattle.mp4_content.specs.format.Reduced.{is_picture, plain_handler, plain_picture, reduce_media};
ghost use Rattle.mp4_content.specs.format.Zeros.{zeroed};
ghost use Rattle.mp4_content.specs.words.PayloadsLeft.{AreMediaLeft, IsMediaLeft, box_left_seen, description_left, leaves_payloads, track_payloads_left};

use crate::bit_rates::{is_type, payload_left};
use crate::without::{Without, Word};
use mp4_boxes::{FourCc, Memory};
use mp4_head::{Kept, Media, MovieHead, TrackHead};
use std::alloc::Global;

/// What is left of a box: its type and its payload.
#[derive(Drop)]
pub struct BoxLeft {
    pub kind: FourCc,
    pub payload: Vec<u8>,
}

/// What is left of the payloads of a track's media.
#[derive(Drop)]
pub struct MediaLeft {
    /// The payload of `hdlr`.
    pub handler: Vec<u8>,
    /// The entries of `stsd`.
    pub descriptions: Vec<BoxLeft>,
}

/// Puts zeros in the place of so many bytes, from a place on, as far as there are some.
pub(crate) fn put_zeros(bytes: &mut [u8], from: usize, count: usize)
    requires { from + count < 2 ^ 32 }
    ensures { bytes.new ≡ zeroed from count bytes.old }
{
    let mut done = 0;
    while done < count && from + done < bytes.len() {
        bytes[from + done] = 0;
        done += 1;
    }
}

/// A copy of some bytes.
pub(crate) fn copied(alloc: Global, bytes: &[u8]) -> Result<Vec<u8>, Memory>
    ensures { IfOk result (λ copy. copy.items ≡ bytes.now) }
{
    let mut copy = Vec::new(alloc);
    copy.extend_from_slice(bytes).map_err(|_| Memory)?;
    Ok(copy)
}

// The payload of `hdlr` without its name, and with zeros in what is reserved.
fn plain_handler(alloc: Global, payload: &[u8]) -> Result<Vec<u8>, Memory>
    ensures { IfOk result (λ plain. plain.items ≡ plain_handler payload.now) }
{
    let mut plain = copied(alloc, &payload[..payload.len().min(24)])?;
    put_zeros(plain.as_mut_slice(), 12, 12);
    put_zeros(plain.as_mut_slice(), 4, 4);
    Ok(plain)
}

// What is left of the payload of `hdlr`.
fn handler_left(alloc: Global, leaving: Without, payload: &[u8]) -> Result<Vec<u8>, Memory>
    ensures { IfOk result (λ left. left.items
        ≡ (if leaving.labels then plain_handler payload.now else payload.now)) }
{
    if leaving.has(Word::Labels) {
        plain_handler(alloc, payload)
    } else {
        copied(alloc, payload)
    }
}

// Whether a handler is that of pictures.
fn is_picture(handler: &[u8]) -> bool
    ensures { result ≡ is_picture handler.now }
{
    is_type(handler, b"vide")
}

// What is left of the payload of a sample description without bit rates, and without the ID in it,
// where these are left out.
fn rates_and_id_left(
    alloc: Global,
    leaving: Without,
    handler: &[u8],
    payload: &[u8],
) -> Result<Vec<u8>, Memory>
    ensures { IfOk result (λ left. left.items ≡ (if leaving.bitrates || leaving.ids
        then payload_left leaving.bitrates leaving.ids (handler_type handler.now) payload.now
        else payload.now)) }
{
    if leaving.has(Word::Bitrates) || leaving.has(Word::Ids) {
        payload_left(alloc, leaving, handler, payload)
    } else {
        copied(alloc, payload)
    }
}

// A sample description of pictures without the name of a compressor.
fn plain_picture(left: BoxLeft) -> BoxLeft
    ensures { box_left_seen result ≡ plain_picture (box_left_seen left) }
{
    let mut plain = left;
    if plain.payload.len() >= 78 {
        put_zeros(plain.payload.as_mut_slice(), 42, 32);
    }
    plain
}

// What is left of a sample description of a track with this handler.
fn description_left(
    alloc: Global,
    leaving: Without,
    handler: &[u8],
    kept: &Kept,
) -> Result<BoxLeft, Memory>
    ensures { IfOk result (λ left. box_left_seen left
        ≡ description_left leaving handler.now (kept_seen kept.now)) }
{
    let payload = rates_and_id_left(alloc, leaving, handler, kept.payload)?;
    let left = BoxLeft {
        kind: kept.kind,
        payload,
    };
    if leaving.has(Word::Labels) && is_picture(handler) {
        Ok(plain_picture(left))
    } else {
        Ok(left)
    }
}

// What is left of the sample descriptions of a track.
fn descriptions_left(alloc: Global, leaving: Without, media: &Media) -> Result<Vec<BoxLeft>, Memory>
    ensures { IfOk result (λ left. map box_left_seen left.items
        ≡ (reduce_media leaving (media_seen media.now)).descriptions) }
{
    let mut left = Vec::new(alloc);
    for k in 0..media.descriptions.len() {
        let one = description_left(alloc, leaving, media.handler, &media.descriptions[k])?;
        left.push(one).map_err(|_| Memory)?;
    }
    Ok(left)
}

// What is left of the payloads of a track's media.
fn media_left(alloc: Global, leaving: Without, media: &Media) -> Result<MediaLeft, Memory>
    ensures { IfOk result (IsMediaLeft leaving (media_seen media.now)) }
{
    Ok(MediaLeft {
        handler: handler_left(alloc, leaving, media.handler)?,
        descriptions: descriptions_left(alloc, leaving, media)?,
    })
}

/// What is left of the payloads of each track's media; nothing where all of them stay.
pub fn payloads_left(
    alloc: Global,
    leaving: Without,
    tracks: &[TrackHead],
) -> Result<Vec<MediaLeft>, Memory>
    ensures { IfOk result (λ lefts. leaves_payloads leaving ≡ true
        → AreMediaLeft leaving tracks.now lefts.items) }
{
    let mut lefts = Vec::new(alloc);
    if leaving.leaves_payloads() {
        for k in 0..tracks.len() {
            let left = media_left(alloc, leaving, &tracks[k].media)?;
            lefts.push(left).map_err(|_| Memory)?;
        }
    }
    Ok(lefts)
}

// A box that is left, as one that is kept.
fn as_kept<'a>(left: &'a BoxLeft) -> Kept<'a>
    ensures { kept_seen result ≡ box_left_seen left.now }
{
    Kept {
        kind: left.kind,
        payload: left.payload.as_slice(),
    }
}

// The boxes that are left.
fn boxes_left<'a>(alloc: Global, boxes: &'a Vec<BoxLeft>) -> Result<Vec<Kept<'a>>, Memory>
    ensures { IfOk result (λ left. map kept_seen left.items ≡ map box_left_seen boxes.now.items) }
{
    let mut left = Vec::new(alloc);
    for k in 0..boxes.len() {
        let one = as_kept(&boxes[k]);
        left.push(one).map_err(|_| Memory)?;
    }
    Ok(left)
}

// Puts what is left of the payloads of a track's media into its head.
fn put_media_left<'a>(
    alloc: Global,
    track: &mut TrackHead<'a>,
    left: &'a MediaLeft,
) -> Result<(), Memory>
    ensures { (l : Without) → IsMediaLeft l (media_seen track.old.media) left.now
        → OnOk result (track_seen track.new ≡ track_payloads_left l (track_seen track.old)) }
{
    track.media.handler = left.handler.as_slice();
    track.media.descriptions = boxes_left(alloc, &left.descriptions)?;
    Ok(())
}

// Puts what is left of the payloads of each track's media into its head.
fn put_tracks_left<'a>(
    alloc: Global,
    tracks: &mut Vec<TrackHead<'a>>,
    leaving: Without,
    lefts: &'a [MediaLeft],
) -> Result<(), Memory>
    requires { AreMediaLeft leaving tracks.old.items lefts.now }
    ensures { OnOk result (map track_seen tracks.new.items
        ≡ map (track_payloads_left leaving) (map track_seen tracks.old.items)) }
{
    for k in 0..tracks.len().min(lefts.len()) {
        put_media_left(alloc, &mut tracks[k], &lefts[k])?;
    }
    Ok(())
}

/// Puts what is left of payloads into a head, where they don't all stay.
pub(crate) fn put_payloads_left<'a>(
    alloc: Global,
    head: &mut MovieHead<'a>,
    leaving: Without,
    lefts: &'a Vec<MediaLeft>,
) -> Result<(), Memory>
    requires { leaves_payloads leaving ≡ true
        → AreMediaLeft leaving head.old.tracks.items lefts.now.items }
    ensures movie { OnOk result (movie_seen head.new ≡ movie_seen head.old) }
    ensures tracks { OnOk result (tracks_seen head.new
        ≡ map (track_payloads_left leaving) (tracks_seen head.old)) }
{
    if leaving.leaves_payloads() {
        put_tracks_left(alloc, &mut head.tracks, leaving, lefts.as_slice())?;
    }
    Ok(())
}
