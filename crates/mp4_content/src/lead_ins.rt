//! How long the tracks of a movie wait, where its edits say no more than when they begin.
ghost use Rattle.std.specs.Prelude.{◌≡◌, ℕ, ◌+◌, ◌<◌, ◌≤◌, ◌^◌, ◌==◌, ◌||◌, not, if◌then◌else◌, false, length, map, option_map, neg_ℤ, IfOk, IfSome, OnOk};
ghost use Rattle.std.specs.List.{AllByRecursion};
ghost use Rattle.mp4_head.specs.format.Tree.{track_head_of};
ghost use Rattle.mp4_head.specs.words.Seen.{edit_seen, track_seen};
ghost use Rattle.mp4_present.specs.format.Denotes.{file_parts, presentation_of, track_of};
ghost use Rattle.mp4_present.specs.format.Presentation.{Track};
ghost use Rattle.mp4_present.specs.words.StoresRead.{IsUnchanged, OnlyReads, Refused};
ghost use Rattle.mp4_present.specs.words.TrackWalks.{WhereTrack};
ghost use Rattle.mp4_present.specs.words.WalkSteps.{walk_steps, walks_steps};
ghost use Rattle.mp4_content.specs.format.LeadIns.{first_shown, from_0, is_empty, is_last, is_lead_in, is_plain, shown_from, waits};
ghost use Rattle.mp4_content.specs.format.Reduced.{first_offset};
ghost use Rattle.mp4_content.specs.words.Delays.{AllCanBegin, CanBegin, IsFirstOf, SayBeginnings, SaysBeginning, earlier_of, later_than, moment_of, told_waits};
ghost use Rattle.mp4_content.specs.words.Opened.{OverOpened, RefusesPlan};

use crate::delays::{Beginning, begins_before, later_by};
use crate::peeking::peek_sample;
use crate::scales::edits_at;
use mp4_boxes::{Refusal, Steps};
use mp4_head::{Edit, TrackHead};
use mp4_present::{Movie, TrackInfo};
use mp4_store::Store;
use mp4_tables::SampleAt;
use std::alloc::{AllocError, Global};
use std::sync::ledger::Ledger;

// Whether nothing of the track is shown in an edit.
fn is_empty(edit: &Edit) -> bool
    ensures { result ≡ is_empty (edit_seen edit.now) }
{
    edit.media_time == -1
}

// From where on an edit shows the track.
fn media_time(edit: &Edit) -> i64
    ensures { result ≡ (edit_seen edit.now).media_time }
{
    edit.media_time
}

// Whether an edit shows the track from its media time on, as fast as it is.
fn is_plain(edit: &Edit) -> bool
    ensures { result ≡ is_plain (edit_seen edit.now) }
{
    edit.media_time >= 0 && edit.rate_integer == 1 && edit.rate_fraction == 0
}

/// Whether edits say when a track begins, and nothing else but where it is cut off.
pub(crate) fn begins_simply(edits: &[Edit]) -> bool
    ensures { result
        ≡ (is_last (map edit_seen edits.now) || is_lead_in (map edit_seen edits.now)) }
{
    if edits.is_empty() {
        return true;
    }
    for k in 0..edits.len() {
        if !is_empty(&edits[k]) {
            return is_plain(&edits[k]) && k + 1 == edits.len();
        }
    }
    false
}

// How long the empty edits last.
fn waits_of(edits: &[Edit]) -> u128
    ensures is { result ≡ waits (map edit_seen edits.now) }
    ensures short { result < 2 ^ 126 }
{
    let mut length = 0;
    for edit in edits {
        if is_empty(edit) {
            length += u128::from(edit.segment_duration);
        }
    }
    length
}

// From where on the track is shown: the media time of the first edit that isn't empty.
fn shown_from(edits: &[Edit]) -> i64
    ensures { result ≡ shown_from (map edit_seen edits.now) }
{
    for k in 0..edits.len() {
        if !is_empty(&edits[k]) {
            return media_time(&edits[k]);
        }
    }
    0
}

// A number, or 0 below it.
fn above(number: i64) -> u64
    ensures { result ≡ from_0 number }
{
    if number < 0 {
        return 0;
    }
    number as u64
}

// How far a number is below 0.
fn below(number: i64) -> u64
    ensures { result ≡ from_0 (neg_ℤ number) }
{
    if number < 0 {
        return number.unsigned_abs();
    }
    0
}

/// When a track begins that has these edits, and this first sample. A timescale of 0 is taken for
/// 1.
pub(crate) fn beginning_of(edits: &[Edit], info: &TrackInfo, first: &SampleAt) -> Beginning
    ensures can { CanBegin result }
    ensures begins { 0 < info.now.timescale → (t : Track) → t.head.edits ≡ map edit_seen edits.now
        → t.head.media.timescale ≡ info.now.timescale → t.start ≡ info.now.start
        → first_offset t.samples ≡ first.now.cto
        → (scale : ℕ) → moment_of scale result ≡ first_shown scale t }
{
    let shown = shown_from(edits);
    let offset = i64::from(first.cto);
    Beginning {
        waits: waits_of(edits),
        later: u128::from(info.start) + u128::from(above(offset)) + u128::from(below(shown)),
        earlier: u128::from(below(offset)) + u128::from(above(shown)),
        timescale: info.timescale.max(1),
    }
}

// When the track at this place begins, whose head has these edits; none where it has no samples.
fn first_beginning<S: Store, L: Ledger, M: Ledger>(
    alloc: Global,
    track: usize,
    edits: &[Edit],
    movie: &Movie,
    store: &mut S,
    steps: &mut Steps<L, M>,
) -> Result<Option<Beginning>, Refusal>
    requires { track < length movie.now.tracks }
    ensures store { OnlyReads S.Store store.old store.new result }
    ensures can { IfOk result (λ found. IfSome found CanBegin) }
    ensures beginning { WhereTrack S.Store store.old movie.now track (λ file tree t.
        map edit_seen edits.now ≡ (track_head_of t).edits
        → IfOk result (SaysBeginning (track_of file (file_parts tree) t))) }
    ensures unchanged { WhereTrack S.Store store.old movie.now track (λ file tree t.
        IsUnchanged result) }
    ensures work { WhereTrack S.Store store.old movie.now track (λ file tree t.
        steps.new.passed ≤ steps.old.passed + walk_steps tree t) }
    ensures grows { OnOk result (steps.old.passed ≤ steps.new.passed) }
    ensures refusal { Refused S.Store store.old store.new result RefusesPlan }
    ensures looks { steps.new.looks ≡ steps.old.looks }
{
    let info = &movie.tracks()[track];
    if info.samples == 0 {
        return Ok(None);
    }
    let mut walk = movie.walk(alloc, track)?;
    let Some(first) = peek_sample(&mut walk, movie, store, steps)? else {
        return Ok(None);
    };
    Ok(Some(beginning_of(edits, info, &first)))
}

// Whether a track has samples, and its edits say more than when it begins.
fn says_more(info: &TrackInfo, edits: &[Edit]) -> bool
    ensures { result ≡ (if info.now.samples == 0 then false
        else not (is_last (map edit_seen edits.now) || is_lead_in (map edit_seen edits.now))) }
{
    if info.samples == 0 {
        return false;
    }
    !begins_simply(edits)
}

// When each track begins; none where the edits of one that has samples say more.
fn beginnings_of<S: Store, L: Ledger, M: Ledger>(
    alloc: Global,
    heads: &[TrackHead],
    movie: &Movie,
    store: &mut S,
    steps: &mut Steps<L, M>,
) -> Result<Option<Vec<Option<Beginning>>>, Refusal>
    ensures store { OnlyReads S.Store store.old store.new result }
    ensures can { IfOk result (λ found. IfSome found (λ all. AllCanBegin all.items)) }
    ensures many { IfOk result (λ found. IfSome found
        (λ all. length all.items ≡ length movie.now.tracks)) }
    ensures beginnings { OverOpened S.Store store.old movie.now (λ file tree.
        map track_seen heads.now ≡ map track_head_of tree.movie.tracks
        → IfOk result (λ found. SayBeginnings (presentation_of file tree).tracks
        (option_map (λ all. all.items) found))) }
    ensures unchanged { OverOpened S.Store store.old movie.now (λ file tree. IsUnchanged result) }
    ensures work { OverOpened S.Store store.old movie.now
        (λ file tree. steps.new.passed ≤ steps.old.passed + walks_steps tree) }
    ensures grows { OnOk result (steps.old.passed ≤ steps.new.passed) }
    ensures refusal { Refused S.Store store.old store.new result RefusesPlan }
    ensures looks { steps.new.looks ≡ steps.old.looks }
{
    let mut found = Vec::with_capacity(alloc, movie.tracks().len())?;
    for track in 0..movie.tracks().len() {
        let edits = edits_at(heads, track);
        if says_more(&movie.tracks()[track], edits) {
            return Ok(None);
        }
        found.push(first_beginning(alloc, track, edits, movie, store, steps)?)?;
    }
    Ok(Some(found))
}

// The earlier of two, where there are two.
fn earlier_of(one: Option<Beginning>, two: Option<Beginning>, timescale: u32) -> Option<Beginning>
    requires movie { 0 < timescale }
    requires one { IfSome one CanBegin }
    requires two { IfSome two CanBegin }
    ensures { result ≡ earlier_of timescale one two }
{
    match (one, two) {
        (Some(first), Some(second)) => {
            if begins_before(second, first, timescale) {
                return two;
            }
            one
        }
        (Some(first), None) => one,
        (None, other) => other,
    }
}

/// The first of these beginnings.
pub(crate) fn first_of(beginnings: &[Option<Beginning>], timescale: u32) -> Option<Beginning>
    requires movie { 0 < timescale }
    requires can { AllCanBegin beginnings.now }
    ensures { IsFirstOf timescale beginnings.now result }
{
    let mut first = None;
    for k in 0..beginnings.len() {
        first = earlier_of(first, beginnings[k], timescale);
    }
    first
}

// How much later than the first this one begins: a track without samples not at all.
fn delay_from(one: Option<Beginning>, first: Option<Beginning>, timescale: u32) -> u64
    requires movie { 0 < timescale }
    requires one { IfSome one CanBegin }
    requires first { IfSome first CanBegin }
    ensures { result ≡ later_than timescale first one }
{
    match (one, first) {
        (Some(beginning), Some(first)) => later_by(beginning, first, timescale),
        _ => 0,
    }
}

// How much later than the first each begins.
fn delays_from(
    alloc: Global,
    beginnings: &[Option<Beginning>],
    first: Option<Beginning>,
    timescale: u32,
) -> Result<Vec<u64>, AllocError>
    requires movie { 0 < timescale }
    requires first { IfSome first CanBegin }
    requires can { AllCanBegin beginnings.now }
    ensures { IfOk result
        (λ found. found.items ≡ map (later_than timescale first) beginnings.now) }
{
    let mut delays = Vec::with_capacity(alloc, beginnings.len())?;
    for k in 0..beginnings.len() {
        delays.push(delay_from(beginnings[k], first, timescale))?;
    }
    Ok(delays)
}

/// How many microseconds each track waits; none where the edits of a track with samples say more.
pub fn waits<S: Store, L: Ledger, M: Ledger>(
    alloc: Global,
    movie: &Movie,
    store: &mut S,
    steps: &mut Steps<L, M>,
) -> Result<Option<Vec<u64>>, Refusal>
    ensures store { OnlyReads S.Store store.old store.new result }
    ensures waits { OverOpened S.Store store.old movie.now (λ file tree. IfOk result
        (λ found. option_map (λ w. w.items) found ≡ told_waits (presentation_of file tree))) }
    ensures fit { IfOk result
        (λ found. IfSome found (λ w. AllByRecursion (λ n. n < 2 ^ 64) w.items)) }
    ensures many { IfOk result
        (λ found. IfSome found (λ w. length w.items ≡ length movie.now.tracks)) }
    ensures unchanged { OverOpened S.Store store.old movie.now (λ file tree. IsUnchanged result) }
    ensures work { OverOpened S.Store store.old movie.now
        (λ file tree. steps.new.passed ≤ steps.old.passed + walks_steps tree) }
    ensures grows { OnOk result (steps.old.passed ≤ steps.new.passed) }
    ensures refusal { Refused S.Store store.old store.new result RefusesPlan }
    ensures looks { steps.new.looks ≡ steps.old.looks }
{
    let head = movie.head(alloc)?;
    let timescale = head.timescale.max(1);
    let Some(all) = beginnings_of(alloc, head.tracks.as_slice(), movie, store, steps)? else {
        return Ok(None);
    };
    let first = first_of(all.as_slice(), timescale);
    Ok(Some(delays_from(alloc, all.as_slice(), first, timescale)?))
}
