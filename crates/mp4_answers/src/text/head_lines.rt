//! The lines of heads: of a movie, of its tracks, of their media.
ghost use Rattle.std.specs.Prelude.{◌≡◌, ◌++◌, map, decimal};
ghost use Rattle.mp4_head.specs.words.Seen.{media_seen, movie_seen, track_seen};
ghost use Rattle.mp4_answers.specs.format.Text.{head_lines, media_lines, movie_lines, track_lines};
ghost use Rattle.mp4_answers.specs.words.Telling.{said_line, media_front, movie_front, track_front};
ghost use Rattle.mp4_present.specs.words.Latches.{Goes};

use crate::text::digits::write_digits;
use crate::text::named_lines::{Named, Said, number, put_all_named, put_edits, saying, signed};
use crate::text::payload_lines::{put_boxes, put_kept, put_payload, put_payloads};
use crate::text::text_parts::{LINE_FEED, put_parts};
use mp4_head::{Media, MovieHead, TrackHead};
use mp4_present::Latch;
use mp4_store::Sink;

// The values of a movie.
fn movie_values(head: &MovieHead) -> [Named; 6]
    ensures { map said_line result
        ≡ movie_front (movie_seen head.now) }
{
    [
        number(b"creation", head.creation),
        number(b"modification", head.modification),
        number(b"timescale", u64::from(head.timescale)),
        signed(b"rate", i64::from(head.rate)),
        signed(b"volume", i64::from(head.volume)),
        saying(b"matrix", Said::Matrix(head.matrix)),
    ]
}

/// Puts the head of a movie.
pub(crate) fn put_movie_lines<K: Sink>(head: &MovieHead, latch: &mut Latch<K>)
    ensures { Goes K.Sink latch.old latch.new
        (movie_lines (movie_seen head.now)) }
{
    latch.put(b"movie\n");
    put_all_named(&movie_values(head), latch);
    put_boxes(b"kept", head.kept.as_slice(), latch);
}

/// Puts words around the ID of a track.
pub(crate) fn put_heading<K: Sink>(front: &[u8], id: u32, end: &[u8], latch: &mut Latch<K>)
    ensures { Goes K.Sink latch.old latch.new
        (front.now ++ decimal id ++ end.now) }
{
    let mut digits = [0; 20];
    let start = write_digits(&mut digits, 20, u64::from(id));
    let (_unused, number) = digits.split_at(start);
    let parts = [front, number, end];
    put_parts(&parts, latch);
}

// The values of a track.
fn track_values(head: &TrackHead) -> [Named; 9]
    ensures { map said_line result
        ≡ track_front (track_seen head.now) }
{
    [
        saying(b"flags", Said::Flags(head.flags)),
        number(b"creation", head.creation),
        number(b"modification", head.modification),
        signed(b"layer", i64::from(head.layer)),
        signed(b"alternate_group", i64::from(head.alternate_group)),
        signed(b"volume", i64::from(head.volume)),
        saying(b"matrix", Said::Matrix(head.matrix)),
        number(b"width", u64::from(head.width)),
        number(b"height", u64::from(head.height)),
    ]
}

// Puts the head of a track, but its media and group descriptions.
fn put_track<K: Sink>(head: &TrackHead, latch: &mut Latch<K>)
    ensures { Goes K.Sink latch.old latch.new
        (track_lines (track_seen head.now)) }
{
    put_heading(b"track ", head.id, LINE_FEED, latch);
    put_all_named(&track_values(head), latch);
    put_edits(head.edits.as_slice(), latch);
    put_boxes(b"kept", head.kept.as_slice(), latch);
}

// The values of media.
fn media_values(media: &Media) -> [Named; 4]
    ensures { map said_line result
        ≡ media_front (media_seen media.now) }
{
    [
        number(b"media creation", media.creation),
        number(b"media modification", media.modification),
        number(b"media timescale", u64::from(media.timescale)),
        saying(b"language", Said::Language(media.language)),
    ]
}

// Puts media.
fn put_media<K: Sink>(media: &Media, latch: &mut Latch<K>)
    ensures { Goes K.Sink latch.old latch.new
        (media_lines (media_seen media.now)) }
{
    put_all_named(&media_values(media), latch);
    put_payload(b"handler", b"", media.handler, latch);
    let languages = media.extended_languages.as_slice();
    put_payloads(b"extended language", languages, latch);
    put_kept(b"media header", &media.header, latch);
    put_boxes(b"description", media.descriptions.as_slice(), latch);
}

/// Puts the head of a track.
pub(crate) fn put_head<K: Sink>(head: &TrackHead, latch: &mut Latch<K>)
    ensures { Goes K.Sink latch.old latch.new
        (head_lines (track_seen head.now)) }
{
    put_track(head, latch);
    put_media(&head.media, latch);
    let descriptions = head.group_descriptions.as_slice();
    put_payloads(b"group description", descriptions, latch);
}
