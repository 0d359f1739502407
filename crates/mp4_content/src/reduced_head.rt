//! What remains of the head of a movie.
ghost use Rattle.std.specs.Prelude.{◌≡◌, map, true, IfOk};
ghost use Rattle.mp4_boxes.specs.format.Children.{is_among};
ghost use Rattle.mp4_head.specs.words.Seen.{edit_seen, kept_seen, media_seen, movie_seen, track_seen, tracks_seen};
ghost use Rattle.mp4_present.specs.words.HeadsRead.{places_of};
ghost use Rattle.mp4_content.specs.words.Divided.{divided_head, divided_heads, divided_movie, remaining_heads};
ghost use Rattle.mp4_content.specs.words.PayloadsLeft.{AreMediaLeft, keeping_payloads, leaves_payloads};
ghost use Rattle.mp4_content.specs.format.Reduced.{metadata_kinds, number_heads, reduce_kept, reduce_media, reduce_movie_head, reduce_track_head};
ghost use Rattle.mp4_content.specs.format.Remaining.{remaining_movie};
ghost use Rattle.mp4_content.specs.format.Timescales.{divided, edit_by, media_time_by, timescale_by};

use crate::own_payloads::{MediaLeft, put_payloads_left};
use crate::reduced::divided;
use crate::scales::Scales;
use crate::without::{Without, Word};
use mp4_boxes::{FourCc, Memory};
use mp4_head::{Edit, Kept, Media, MovieHead, TrackHead};
use std::alloc::Global;

// Whether a kept box of this type is metadata.
fn is_metadata(kind: FourCc) -> bool
    ensures { result ≡ is_among metadata_kinds kind.0 }
{
    kind == FourCc(*b"udta") || kind == FourCc(*b"meta") || kind == FourCc(*b"iods")
}

// Kept boxes without those that are metadata, where these are left out.
fn reduce_kept(kept: &mut Vec<Kept>, leaving: Without)
    ensures { map kept_seen kept.new.items ≡ reduce_kept leaving (map kept_seen kept.old.items) }
{
    if leaving.has(Word::Metadata) {
        kept.retain(|k| !is_metadata(k.kind));
    }
}

// Media without their times and timescale, where these are left out; payloads stay.
fn reduce_media(media: &mut Media, leaving: Without)
    ensures { media_seen media.new
        ≡ reduce_media (keeping_payloads leaving) (media_seen media.old) }
{
    if leaving.has(Word::Times) {
        media.creation = 0;
        media.modification = 0;
    }
    media.timescale = leaving.timescale(media.timescale);
}

// What is left of the head of a track, but for payloads of media, which stay.
fn reduce_track(track: &mut TrackHead, leaving: Without)
    ensures left { track_seen track.new
        ≡ reduce_track_head (keeping_payloads leaving) (track_seen track.old) }
    ensures place { track.new.offset ≡ track.old.offset }
{
    if leaving.has(Word::Times) {
        track.creation = 0;
        track.modification = 0;
    }
    track.flags = leaving.track_flags(track.flags);
    track.layer = leaving.role(track.layer);
    track.alternate_group = leaving.role(track.alternate_group);
    if leaving.has(Word::Edits) {
        track.edits.clear();
    }
    if leaving.has(Word::Groups) {
        track.group_descriptions.clear();
    }
    reduce_kept(&mut track.kept, leaving);
    reduce_media(&mut track.media, leaving);
}

// What is left of the heads of tracks, but for payloads of media, which stay.
fn reduce_tracks(tracks: &mut Vec<TrackHead>, leaving: Without)
    ensures left { map track_seen tracks.new.items
        ≡ map (reduce_track_head (keeping_payloads leaving)) (map track_seen tracks.old.items) }
    ensures places { places_of tracks.new.items ≡ places_of tracks.old.items }
{
    for k in 0..tracks.len() {
        reduce_track(&mut tracks[k], leaving);
    }
}

// Gives each head of a track its place, from 1, as its ID where IDs don't count.
fn number_heads(heads: &mut Vec<TrackHead>, leaving: Without)
    ensures numbered { map track_seen heads.new.items
        ≡ number_heads leaving 1 (map track_seen heads.old.items) }
    ensures places { places_of heads.new.items ≡ places_of heads.old.items }
{
    for k in 0..heads.len() {
        let head = &mut heads[k];
        head.id = leaving.id(k as u64 + 1, head.id);
    }
}

// What is left of the head of a movie, but for payloads of media, which stay; it takes no memory.
fn reduce_head(head: &mut MovieHead, leaving: Without)
    ensures movie { movie_seen head.new ≡ reduce_movie_head leaving (movie_seen head.old) }
    ensures tracks { tracks_seen head.new ≡ number_heads leaving 1
        (map (reduce_track_head (keeping_payloads leaving)) (tracks_seen head.old)) }
    ensures places { places_of head.new.tracks.items ≡ places_of head.old.tracks.items }
{
    if leaving.has(Word::Times) {
        head.creation = 0;
        head.modification = 0;
    }
    head.timescale = leaving.timescale(head.timescale);
    reduce_kept(&mut head.kept, leaving);
    reduce_tracks(&mut head.tracks, leaving);
    number_heads(&mut head.tracks, leaving);
}

// A media time, whose track's times are divided by this; below 0 it stays.
fn divided_media_time(media_time: i64, divisor: u64) -> i64
    ensures { result ≡ media_time_by (divided divisor) media_time }
{
    if media_time < 0 {
        return media_time;
    }
    divided(media_time as u64, divisor) as i64
}

// A timescale whose times are divided by this; it stays where timing doesn't count.
pub(crate) fn divided_timescale(leaving: Without, timescale: u32, divisor: u64) -> u32
    ensures { result ≡ timescale_by leaving (divided divisor) timescale }
{
    if leaving.has(Word::Timing) {
        return timescale;
    }
    divided(u64::from(timescale), divisor) as u32
}

// Divides how long an edit lasts by the first, and its media time, if that counts, by the second.
fn divide_edit(edit: &mut Edit, movie: u64, own: u64)
    ensures { edit_seen edit.new ≡ edit_by (divided movie) (divided own) (edit_seen edit.old) }
{
    edit.segment_duration = divided(edit.segment_duration, movie);
    edit.media_time = divided_media_time(edit.media_time, own);
}

// The same of all edits.
fn divide_edits(edits: &mut Vec<Edit>, movie: u64, own: u64)
    ensures { map edit_seen edits.new.items
        ≡ map (edit_by (divided movie) (divided own)) (map edit_seen edits.old.items) }
{
    for k in 0..edits.len() {
        divide_edit(&mut edits[k], movie, own);
    }
}

// Divides the times in the head of a track.
fn divide_track(track: &mut TrackHead, leaving: Without, movie: u64, own: u64)
    ensures divided { track_seen track.new
        ≡ divided_head leaving movie own (track_seen track.old) }
    ensures place { track.new.offset ≡ track.old.offset }
{
    divide_edits(&mut track.edits, movie, own);
    track.media.timescale = divided_timescale(leaving, track.media.timescale, own);
}

// Divides the times in the heads of tracks.
fn divide_tracks(tracks: &mut Vec<TrackHead>, leaving: Without, scales: &Scales)
    ensures divided { map track_seen tracks.new.items
        ≡ divided_heads leaving scales.now.movie scales.now.tracks.items 0
        (map track_seen tracks.old.items) }
    ensures places { places_of tracks.new.items ≡ places_of tracks.old.items }
{
    for k in 0..tracks.len() {
        divide_track(&mut tracks[k], leaving, scales.movie, scales.track(k));
    }
}

// Divides the times in the head of a movie.
fn divide_head(head: &mut MovieHead, leaving: Without, scales: &Scales)
    ensures movie { movie_seen head.new
        ≡ divided_movie leaving scales.now.movie (movie_seen head.old) }
    ensures tracks { tracks_seen head.new
        ≡ divided_heads leaving scales.now.movie scales.now.tracks.items 0
        (tracks_seen head.old) }
    ensures places { places_of head.new.tracks.items ≡ places_of head.old.tracks.items }
{
    head.timescale = divided_timescale(leaving, head.timescale, scales.movie);
    divide_tracks(&mut head.tracks, leaving, scales);
}

/// What remains of the head of a movie, but for payloads of media, which stay; it takes no memory.
pub(crate) fn leave_head(head: &mut MovieHead, leaving: Without, scales: &Scales)
    ensures movie { movie_seen head.new
        ≡ remaining_movie leaving scales.now.movie (movie_seen head.old) }
    ensures tracks { tracks_seen head.new ≡ number_heads leaving 1
        (remaining_heads (keeping_payloads leaving) scales.now.movie scales.now.tracks.items
        (tracks_seen head.old)) }
    ensures places { places_of head.new.tracks.items ≡ places_of head.old.tracks.items }
{
    reduce_head(head, leaving);
    divide_head(head, leaving, scales);
}

/// What remains of the head of a movie, whose times are divided by these, of which this is left of
/// the payloads of media (`payloads_left`).
pub fn head_left<'a>(
    alloc: Global,
    head: MovieHead<'a>,
    leaving: Without,
    scales: &Scales,
    lefts: &'a Vec<MediaLeft>,
) -> Result<MovieHead<'a>, Memory>
    requires { leaves_payloads leaving ≡ true
        → AreMediaLeft leaving head.tracks.items lefts.now.items }
    ensures movie { IfOk result (λ left. movie_seen left
        ≡ remaining_movie leaving scales.now.movie (movie_seen head.entry)) }
    ensures tracks { IfOk result (λ left. tracks_seen left ≡ number_heads leaving 1
        (remaining_heads leaving scales.now.movie scales.now.tracks.items
        (tracks_seen head.entry))) }
{
    let mut left = head;
    put_payloads_left(alloc, &mut left, leaving, lefts)?;
    leave_head(&mut left, leaving, scales);
    Ok(left)
}
