//! The text of what a file says.
ghost use Rattle.std.specs.Prelude.{◌≡◌, ◌+◌, ◌<◌, ◌≤◌, ◌++◌, [], flat_map, length, take, IfOk, OnErr, OnOk, codes};
ghost use Rattle.sha2.specs.Sha256.{sha256};
ghost use Rattle.mp4_head.specs.words.Seen.{movie_seen, track_seen};
ghost use Rattle.mp4_store.specs.words.Device.{range};
ghost use Rattle.mp4_content.specs.format.Reduced.{start_left};
ghost use Rattle.mp4_content.specs.format.Timescales.{divided};
ghost use Rattle.mp4_present.specs.words.Carried.{RefusesCarry, waiting};
ghost use Rattle.mp4_present.specs.words.HandCarried.{HandWork, RefusedByBoth, StaysBefore};
ghost use Rattle.mp4_present.specs.words.Joined.{IsBelow};
ghost use Rattle.mp4_present.specs.words.Movies.{IsWalkOf};
ghost use Rattle.mp4_present.specs.words.OutBuffers.{OnlyCopies, PutsFrontOf, TakesBytes};
ghost use Rattle.mp4_present.specs.words.StoresRead.{IsUnchanged, OnlyReads, Refused, WhereHonest};
ghost use Rattle.mp4_present.specs.words.TrackWalks.{WhereMayTake};
ghost use Rattle.mp4_answers.specs.format.Answers.{Printed};
ghost use Rattle.mp4_answers.specs.format.Run.{KeepsFile, run_of};
ghost use Rattle.mp4_answers.specs.format.Steps.{FindsWithin, PrintsWithin, TakesEach};
ghost use Rattle.mp4_answers.specs.format.Text.{front_lines, head_lines, movie_lines, number_line, samples_heading};
ghost use Rattle.mp4_answers.specs.words.PrintedTracks.{AreWalks, LieBelow, OfHandLines, OfTrackLines, OfWalkLines, TellsOn, TellsTracks, WhereHeads};
ghost use Rattle.mp4_answers.specs.words.Telling.{Tells, TellsText};
ghost use Rattle.mp4_answers.specs.words.SampleMessages.{told_lines};
ghost use Rattle.mp4_answers.specs.words.ToldSamples.{RefusesDigest, told_line, told_sample};

use crate::commands::hash_sink::HashSink;
use crate::commands::opening::open_told;
use crate::commands::sample_messages::{MOST, NO_SAMPLE, read_front, take_samples};
use crate::digests::DIGEST;
use crate::digests::messages::Message;
use crate::digests::side_by_side::find_digests;
use crate::selection::Selection;
use crate::text::head_lines::{put_head, put_heading, put_movie_lines};
use crate::text::named_lines::{number, put_all_named};
use crate::text::sample_texts::{LONGEST, SampleStyle, write_sample};
use crate::text::tally::say_words;
use mp4_boxes::{Memory, Refusal, Steps};
use mp4_content::{Scales, Without, head_left, payloads_left, reduction_of};
use mp4_head::{MovieHead, TrackHead};
use mp4_present::{Latch, Movie, OutBuffer, Stretch, Walk};
use mp4_store::{Sink, Store};
use mp4_tables::{Keys, SampleAt, Samples};
use std::alloc::{AllocError, Global};
use std::sync::ledger::Ledger;

/// How many bytes of text are put at once, and how many bytes of a sample are read at once: a power
/// of two, so that each put fills whole pages.
const ROOM: usize = 65_536;

/// In how many bytes samples are read side by side.
const SIDES: usize = 262_144;

// What waits for a sink, room for bytes of a sample, and for those of samples side by side.
#[derive(Drop)]
pub(crate) struct Desk {
    text: OutBuffer,
    window: OutBuffer,
    sides: Vec<u8>,
}

impl Desk {
    ghost use Rattle.std.specs.Prelude.{◌≡◌, [], IfOk};
    ghost use Rattle.mp4_present.specs.words.Carried.{waiting};

    fn new(alloc: Global) -> Result<Desk, AllocError>
        ensures text { IfOk result (λ desk. waiting desk.text ≡ []) }
        ensures window { IfOk result (λ desk. waiting desk.window ≡ []) }
    {
        Ok(Desk {
            text: OutBuffer::new(alloc, ROOM)?,
            window: OutBuffer::new(alloc, ROOM)?,
            sides: zeros(alloc, SIDES)?,
        })
    }
}

// So many bytes.
fn zeros(alloc: Global, len: usize) -> Result<Vec<u8>, AllocError> {
    Ok(vec![in alloc; 0u8; len]?)
}

// The first lines: the number of the form, and what is left out.
fn front_lines(alloc: Global, leaving: Without) -> Result<Vec<u8>, AllocError>
    ensures { IfOk result (λ text. text.items ≡ front_lines leaving) }
{
    let mut words = Vec::new(alloc);
    say_words(&mut words, leaving)?;
    let mut text = Vec::new(alloc);
    text.extend_from_slice(b"MP4 presentation, form 1\nwithout:")?;
    if words.is_empty() {
        text.extend_from_slice(b" nothing")?;
    } else {
        text.extend_from_slice(words.as_slice())?;
    }
    text.extend_from_slice(b"\n")?;
    Ok(text)
}

// The digest of the bytes of a sample.
fn digest_of<S: Store>(
    window: &mut OutBuffer,
    store: &mut S,
    sample: &SampleAt,
) -> Result<[u8; DIGEST], Refusal>
    requires { waiting window.old ≡ [] }
    ensures store { OnlyReads S.Store store.old store.new result }
    ensures empty { OnOk result (waiting window.new ≡ []) }
    ensures digest { IfOk result (λ digest. WhereHonest S.Store store.old
        (λ file. digest ≡ sha256 (range file sample.now.at sample.now.size))) }
    ensures unchanged { IsBelow (length (S.file store.old)) sample.now → IsUnchanged result }
    ensures refusal { Refused S.Store store.old store.new result RefusesDigest }
{
    let mut sink = HashSink::new();
    let stretch = Stretch {
        at: sample.at,
        len: u64::from(sample.size),
        samples: 1,
    };
    window.carry_stretch(stretch, store, &mut sink)?;
    window.flush(&mut sink)?;
    Ok(sink.digest())
}

// Puts the line of a sample.
fn put_sample<S: Store, K: Sink>(
    style: &SampleStyle,
    sample: &SampleAt,
    desk: &mut Desk,
    store: &mut S,
    sink: &mut K,
) -> Result<(), Refusal>
    requires { waiting desk.old.window ≡ [] }
    ensures empty { OnOk result (waiting desk.new.window ≡ []) }
    ensures store { OnlyCopies S.Store store.old store.new K.Sink sink.old sink.new result }
    ensures told { WhereHonest S.Store store.old (λ file. TellsText K.Sink sink.old sink.new
        desk.old.text desk.new.text (told_sample style.now file sample.now) result) }
    ensures unchanged { IsBelow (length (S.file store.old)) sample.now → IsUnchanged result }
    ensures refusal { RefusedByBoth S.Store store.old store.new K.Sink sink.old sink.new result
        RefusesCarry }
{
    let digest = digest_of(&mut desk.window, store, sample)?;
    put_line(style, sample, &digest, &mut desk.text, sink)
}

// Puts the line of a sample with this digest.
fn put_line<K: Sink>(
    style: &SampleStyle,
    sample: &SampleAt,
    digest: &[u8; DIGEST],
    text: &mut OutBuffer,
    sink: &mut K,
) -> Result<(), Refusal>
    ensures { Tells K.Sink sink.old sink.new text.old text.new
        (told_line style.now digest.now sample.now) result }
{
    let mut room = [0; LONGEST];
    let start = write_sample(&mut room, LONGEST, style, sample, digest);
    let (_unused, line) = room.split_at(start);
    text.carry(line, sink)
}

// Puts the lines of some samples, whose digests are these.
fn put_lines<K: Sink>(
    style: &SampleStyle,
    samples: &[SampleAt],
    digests: &[[u8; DIGEST]],
    text: &mut OutBuffer,
    sink: &mut K,
) -> Result<(), Refusal>
    requires { length samples.now ≤ length digests.now }
    ensures { Tells K.Sink sink.old sink.new text.old text.new
        (told_lines style.now digests.now 0 samples.now) result }
{
    'lines: for k in 0..samples.len() {
        put_line(style, &samples[k], &digests[k], text, sink)?;
    }
    Ok(())
}

// Puts the lines of the first samples, as many as have room side by side, and says how many.
fn put_front_samples<S: Store, K: Sink>(
    style: &SampleStyle,
    samples: &[SampleAt],
    bytes: &mut [u8],
    text: &mut OutBuffer,
    store: &mut S,
    sink: &mut K,
) -> Result<usize, Refusal>
    ensures few { IfOk result (λ count. count ≤ length samples.now) }
    ensures store { OnlyCopies S.Store store.old store.new K.Sink sink.old sink.new result }
    ensures told { IfOk result (λ count. WhereHonest S.Store store.old (λ file.
        TakesBytes K.Sink sink.old sink.new text.old text.new
        (flat_map (told_sample style.now file) (take count samples.now)))) }
    ensures front { OnErr result (WhereHonest S.Store store.old (λ file. PutsFrontOf K.Sink
        sink.old sink.new text.old (flat_map (told_sample style.now file) samples.now))) }
    ensures unchanged { LieBelow (length (S.file store.old)) samples.now → IsUnchanged result }
    ensures refusal { RefusedByBoth S.Store store.old store.new K.Sink sink.old sink.new result
        RefusesCarry }
{
    let mut messages = [Message { start: 0, len: 0 }; MOST];
    let mut digests = [[0; DIGEST]; MOST];
    let (count, outcome) = read_front(samples, store, bytes, &mut messages);
    find_digests(bytes, &messages[..count], &mut digests);
    put_lines(style, &samples[..count], &digests, text, sink)?;
    outcome?;
    Ok(count)
}

// Puts the line of the first sample.
fn put_first<S: Store, K: Sink>(
    style: &SampleStyle,
    samples: &[SampleAt],
    desk: &mut Desk,
    store: &mut S,
    sink: &mut K,
) -> Result<usize, Refusal>
    requires some { 0 < length samples.now }
    requires window { waiting desk.old.window ≡ [] }
    ensures empty { OnOk result (waiting desk.new.window ≡ []) }
    ensures some { IfOk result (λ count. 0 < count) }
    ensures few { IfOk result (λ count. count ≤ length samples.now) }
    ensures store { OnlyCopies S.Store store.old store.new K.Sink sink.old sink.new result }
    ensures told { IfOk result (λ count. WhereHonest S.Store store.old (λ file.
        TakesBytes K.Sink sink.old sink.new desk.old.text desk.new.text
        (flat_map (told_sample style.now file) (take count samples.now)))) }
    ensures front { OnErr result (WhereHonest S.Store store.old (λ file. PutsFrontOf K.Sink
        sink.old sink.new desk.old.text (flat_map (told_sample style.now file) samples.now))) }
    ensures unchanged { LieBelow (length (S.file store.old)) samples.now → IsUnchanged result }
    ensures refusal { RefusedByBoth S.Store store.old store.new K.Sink sink.old sink.new result
        RefusesCarry }
{
    put_sample(style, &samples[0], desk, store, sink)?;
    Ok(1)
}

// Puts the lines of the first samples, and says of how many: side by side where more than one has
// room, else one alone.
fn put_next<S: Store, K: Sink>(
    style: &SampleStyle,
    samples: &[SampleAt],
    desk: &mut Desk,
    store: &mut S,
    sink: &mut K,
) -> Result<usize, Refusal>
    requires some { 0 < length samples.now }
    requires window { waiting desk.old.window ≡ [] }
    ensures empty { OnOk result (waiting desk.new.window ≡ []) }
    ensures some { IfOk result (λ count. 0 < count) }
    ensures few { IfOk result (λ count. count ≤ length samples.now) }
    ensures store { OnlyCopies S.Store store.old store.new K.Sink sink.old sink.new result }
    ensures told { IfOk result (λ count. WhereHonest S.Store store.old (λ file.
        TakesBytes K.Sink sink.old sink.new desk.old.text desk.new.text
        (flat_map (told_sample style.now file) (take count samples.now)))) }
    ensures front { OnErr result (WhereHonest S.Store store.old (λ file. PutsFrontOf K.Sink
        sink.old sink.new desk.old.text (flat_map (told_sample style.now file) samples.now))) }
    ensures unchanged { LieBelow (length (S.file store.old)) samples.now → IsUnchanged result }
    ensures refusal { RefusedByBoth S.Store store.old store.new K.Sink sink.old sink.new result
        RefusesCarry }
{
    if samples.len() == 1 {
        return put_first(style, samples, desk, store, sink);
    }
    let bytes = desk.sides.as_mut_slice();
    let count = put_front_samples(style, samples, bytes, &mut desk.text, store, sink)?;
    if count > 0 {
        return Ok(count);
    }
    put_first(style, samples, desk, store, sink)
}

// Puts the lines of some samples.
fn put_some<S: Store, K: Sink>(
    style: &SampleStyle,
    samples: &[SampleAt],
    desk: &mut Desk,
    store: &mut S,
    sink: &mut K,
) -> Result<(), Refusal>
    requires { waiting desk.old.window ≡ [] }
    ensures empty { OnOk result (waiting desk.new.window ≡ []) }
    ensures store { OnlyCopies S.Store store.old store.new K.Sink sink.old sink.new result }
    ensures told { WhereHonest S.Store store.old (λ file. TellsText K.Sink sink.old sink.new
        desk.old.text desk.new.text (flat_map (told_sample style.now file) samples.now) result) }
    ensures unchanged { LieBelow (length (S.file store.old)) samples.now → IsUnchanged result }
    ensures refusal { RefusedByBoth S.Store store.old store.new K.Sink sink.old sink.new result
        RefusesCarry }
{
    let mut rest = samples;
    while rest.len() > 0 {
        let count = put_next(style, rest, desk, store, sink)?;
        let (_unused, more) = rest.split_at(count);
        rest = more;
    }
    Ok(())
}

// Samples of a movie, and how their lines are written.
#[derive(Clone, Copy)]
struct Styled<'a> {
    movie: &'a Movie,
    style: &'a SampleStyle,
}

// Puts the lines of all samples in hand.
fn put_hand<S: Store, K: Sink, L: Ledger, M: Ledger>(
    of: Styled,
    walk: &mut Walk,
    samples: &mut [SampleAt; MOST],
    desk: &mut Desk,
    store: &mut S,
    sink: &mut K,
    steps: &mut Steps<L, M>,
) -> Result<(), Refusal>
    requires walk { IsWalkOf of.movie.now walk.old }
    requires empty { waiting desk.old.window ≡ [] }
    ensures walk { OnOk result (StaysBefore of.entry.movie.now walk.old walk.new) }
    ensures empty { OnOk result (waiting desk.new.window ≡ []) }
    ensures store { OnlyCopies S.Store store.old store.new K.Sink sink.old sink.new result }
    ensures told { OfHandLines S.Store store.old of.entry.movie.now walk.old of.entry.style.now
        (λ lines.
        TellsOn K.Sink sink.old sink.new desk.old.text desk.new.text lines result) }
    ensures grows { steps.old.passed ≤ steps.new.passed }
    ensures work { HandWork of.entry.movie.now walk.old walk.new result
        steps.old.passed steps.new.passed }
    ensures refusal { RefusedByBoth S.Store store.old store.new K.Sink sink.old sink.new result
        RefusesCarry }
    ensures looks { steps.new.looks ≡ steps.old.looks }
{
    let place = {
        let mut hand = walk.in_hand(of.movie);
        let mut count = take_samples(&mut hand, samples);
        while count > 0 {
            put_some(of.style, &samples[..count], desk, store, sink)?;
            count = take_samples(&mut hand, samples);
        }
        hand.place()
    };
    walk.keep(place, steps);
    Ok(())
}

// Puts the lines of all samples of a walk.
fn put_walk<S: Store, K: Sink, L: Ledger, M: Ledger>(
    of: Styled,
    walk: &mut Walk,
    desk: &mut Desk,
    store: &mut S,
    sink: &mut K,
    steps: &mut Steps<L, M>,
) -> Result<(), Refusal>
    requires walk { IsWalkOf of.movie.now walk.old }
    requires empty { waiting desk.old.window ≡ [] }
    ensures empty { OnOk result (waiting desk.new.window ≡ []) }
    ensures store { OnlyCopies S.Store store.old store.new K.Sink sink.old sink.new result }
    ensures told { OfWalkLines S.Store store.old of.entry.movie.now walk.old of.entry.style.now
        (λ lines.
        TellsOn K.Sink sink.old sink.new desk.old.text desk.new.text lines result) }
    ensures grows { steps.old.passed ≤ steps.new.passed }
    ensures work { WhereMayTake S.Store store.old of.entry.movie.now walk.old
        (λ file tree t n. steps.new.passed ≤ steps.old.passed + n) }
    ensures refusal { RefusedByBoth S.Store store.old store.new K.Sink sink.old sink.new result
        RefusesCarry }
    ensures looks { steps.new.looks ≡ steps.old.looks }
{
    let mut samples = [NO_SAMPLE; MOST];
    put_hand(of, walk, &mut samples, desk, store, sink, steps)?;
    while walk.load(of.movie, store, steps)? {
        put_hand(of, walk, &mut samples, desk, store, sink, steps)?;
    }
    Ok(())
}

// A movie, its heads as they remain, what is left out of it, and by what its times are divided.
#[derive(Clone, Copy)]
struct PrintedMovie<'a> {
    movie: &'a Movie,
    heads: &'a [TrackHead<'a>],
    leaving: Without,
    scales: &'a Scales,
}

// Puts the lines of all samples of a track whose times are divided by this, and whose samples are
// grouped by these keys, of a walk that stands before the first.
fn put_samples<S: Store, K: Sink, L: Ledger, M: Ledger>(
    of: PrintedMovie,
    divisor: u64,
    keys: Keys,
    walk: &mut Walk,
    desk: &mut Desk,
    store: &mut S,
    sink: &mut K,
    steps: &mut Steps<L, M>,
) -> Result<(), Refusal>
    requires walk { IsWalkOf of.movie.now walk.old }
    requires empty { waiting desk.old.window ≡ [] }
    ensures empty { OnOk result (waiting desk.new.window ≡ []) }
    ensures store { OnlyCopies S.Store store.old store.new K.Sink sink.old sink.new result }
    ensures told { OfTrackLines S.Store store.old of.entry.movie.now walk.old of.entry.leaving
        divisor keys (λ lines.
        TellsOn K.Sink sink.old sink.new desk.old.text desk.new.text lines result) }
    ensures grows { steps.old.passed ≤ steps.new.passed }
    ensures work { WhereMayTake S.Store store.old of.entry.movie.now walk.old
        (λ file tree t n. steps.new.passed ≤ steps.old.passed + n) }
    ensures refusal { RefusedByBoth S.Store store.old store.new K.Sink sink.old sink.new result
        RefusesCarry }
    ensures looks { steps.new.looks ≡ steps.old.looks }
{
    let movie = of.movie;
    let reduction = reduction_of(walk, of.leaving, divisor, movie, store, steps)?;
    let style = SampleStyle::new(reduction, keys);
    let of = Styled {
        movie,
        style: &style,
    };
    put_walk(of, walk, desk, store, sink, steps)
}

// When a track begins whose times are divided by this; where all of them are 0, at 0.
fn start_of(leaving: Without, start: u64, divisor: u64) -> u64
    ensures { result ≡ divided divisor (start_left leaving start) }
{
    match divisor {
        0 => 0,
        _ => leaving.start(start) / divisor,
    }
}

// Puts what a track says before its samples.
fn put_front<K: Sink>(
    head: &TrackHead,
    start: u64,
    text: &mut OutBuffer,
    sink: &mut K,
) -> Result<(), Refusal>
    ensures { Tells K.Sink sink.old sink.new text.old text.new
        (head_lines (track_seen head.now)
        ++ number_line (codes "start") start ++ samples_heading head.now.id) result }
{
    let mut latch = Latch {
        out: text,
        sink,
        has_failed: false,
    };
    put_head(head, &mut latch);
    put_all_named(&[number(b"start", start)], &mut latch);
    let end = b": duration, offset, flags, description, size, SHA-256, groups\n";
    put_heading(b"samples of track ", head.id, end, &mut latch);
    Ok(latch.close()?)
}

// Puts what the movie says.
fn put_movie<K: Sink>(head: &MovieHead, text: &mut OutBuffer, sink: &mut K) -> Result<(), Refusal>
    ensures { Tells K.Sink sink.old sink.new text.old text.new
        (movie_lines (movie_seen head.now)) result }
{
    let mut latch = Latch {
        out: text,
        sink,
        has_failed: false,
    };
    put_movie_lines(head, &mut latch);
    Ok(latch.close()?)
}

// A walk over the samples of each track, the last track's first.
fn walks_of(alloc: Global, movie: &Movie) -> Result<Vec<Walk>, Memory>
    ensures { IfOk result (λ walks. AreWalks movie.now 0 walks.items) }
{
    let mut walks = Vec::new(alloc);
    let mut left = movie.tracks().len();
    while left > 0 {
        left -= 1;
        let walk = movie.walk(alloc, left)?;
        walks.push(walk).map_err(|_| Memory)?;
    }
    Ok(walks)
}

// Puts all tracks. The walks are those over their samples, the last track's first.
fn put_tracks<S: Store, K: Sink, L: Ledger, M: Ledger>(
    of: PrintedMovie,
    walks: &mut Vec<Walk>,
    desk: &mut Desk,
    store: &mut S,
    sink: &mut K,
    steps: &mut Steps<L, M>,
) -> Result<(), Refusal>
    requires walks { AreWalks of.movie.now 0 walks.old.items }
    requires empty { waiting desk.old.window ≡ [] }
    ensures store { OnlyCopies S.Store store.old store.new K.Sink sink.old sink.new result }
    ensures told { WhereHeads S.Store store.old of.entry.movie.now of.entry.leaving
        of.entry.scales.now of.entry.heads.now (λ file tree. TellsTracks
        of.entry.leaving file tree K.Sink sink.old sink.new desk.old.text desk.new.text result
        steps.old.passed steps.new.passed) }
    ensures grows { steps.old.passed ≤ steps.new.passed }
    ensures refusal { RefusedByBoth S.Store store.old store.new K.Sink sink.old sink.new result
        RefusesCarry }
    ensures looks { steps.new.looks ≡ steps.old.looks }
{
    let PrintedMovie {
        movie,
        heads,
        leaving,
        scales,
    } = of;
    for track in 0..heads.len().min(movie.tracks().len()) {
        let Some(mut walk) = walks.pop() else {
            return Ok(());
        };
        let head = &heads[track];
        let info = movie.tracks()[track];
        let divisor = scales.track(track);
        let start = start_of(leaving, info.start, divisor);
        put_front(head, start, &mut desk.text, sink)?;
        put_samples(of, divisor, info.keys, &mut walk, desk, store, sink, steps)?;
    }
    Ok(())
}

/// Puts the text of what is left of what is selected of a file: a line for each value that its
/// movie, its tracks and their samples have, with the digest of each sample's bytes. The whole file
/// is judged, what is selected also as it is told how long its tracks wait, and all memory is
/// taken, before the first line is put. If no track has the ID that is named, it is NoSuchTrack.
pub fn print<S: Store, K: Sink, L: Ledger, M: Ledger>(
    alloc: Global,
    store: &mut S,
    sink: &mut K,
    selection: Selection,
    steps: &mut Steps<L, M>,
) -> Result<(), Refusal>
    ensures store { KeepsFile S.Store store.old store.new }
    ensures answer { Printed selection
        (run_of S.Store store.old store.new K.Sink sink.old sink.new)
        result }
    ensures work { WhereHonest S.Store store.old
        (λ file. PrintsWithin selection.leaving file steps.old.passed steps.new.passed) }
    ensures least { OnOk result (WhereHonest S.Store store.old (λ file.
        TakesEach file steps.old.passed steps.new.passed)) }
    ensures looks { WhereHonest S.Store store.old
        (λ file. FindsWithin file steps.old.looks steps.new.looks) }
{
    let movie = open_told(alloc, store, selection, steps)?;
    let words = selection.leaving.when_told();
    let scales = Scales::of(alloc, &movie, store, words, steps)?;
    let head = movie.head(alloc)?;
    let own = payloads_left(alloc, words, head.tracks.as_slice())?;
    let left = head_left(alloc, head, words, &scales, &own)?;
    let front = front_lines(alloc, selection.leaving)?;
    let mut walks = walks_of(alloc, &movie)?;
    let mut desk = Desk::new(alloc)?;
    desk.text.carry(front.as_slice(), sink)?;
    put_movie(&left, &mut desk.text, sink)?;
    let heads = left.tracks.as_slice();
    let of = PrintedMovie {
        movie: &movie,
        heads,
        leaving: words,
        scales: &scales,
    };
    put_tracks(of, &mut walks, &mut desk, store, sink, steps)?;
    desk.text.carry(b"end\n", sink)?;
    desk.text.flush(sink)
}
