//! A walk over the samples of a track in a `moof`, from `traf` to `traf`.
ghost use Rattle.std.specs.Prelude.{ℕ, List, ◌≡◌, ◌≤◌, ◌<◌, length, drop, None, option_map, pos};
ghost use Rattle.mp4_boxes.specs.format.Box.{Box};
ghost use Rattle.mp4_boxes.specs.format.Bytes.{AreBytes};
ghost use Rattle.mp4_tables.specs.words.Next.{IsNext, PassesNonSync};
ghost use Rattle.mp4_frag.specs.words.Finding.{track_with};
ghost use Rattle.mp4_frag.specs.words.MoofWalks.{IsInMoof, IsSameTrack, LiesInMoof, MoofWalk, SameInMoof, behind_left, head_among, left_before, moof_coming, traf_coming, trafs_coming, walk_of};
ghost use Rattle.mp4_frag.specs.words.PlacesIn.{IsBoxIn, bytes_inside};
ghost use Rattle.mp4_frag.specs.words.Reading.{as_traf};
ghost use Rattle.mp4_frag.specs.words.Walks.{boxes_from, trex_among};

use crate::box_places::{Lying, box_at};
use crate::check::{TFHD, TRAF};
use crate::data_ends::data_end;
use crate::heads::{TrafHead, base_of, read_head, what_is_inherited};
use crate::places::FragPlace;
use crate::state::TrackState;
use crate::traf_samples::{
    Beginning, begin_traf, first_place as no_traf, pass_non_sync, pass_sample,
};
use crate::trex::Trex;
use mp4_tables::{Keys, SampleAt};

// What the `tfhd` of a `traf` says, if it can be read.
fn head_in(payload: &[u8]) -> Option<TrafHead>
    ensures { option_map as_traf result ≡ head_among None (boxes_from payload.now 0) }
{
    let mut head = None;
    let mut at = 0;
    while at < payload.len() {
        let Some(child) = box_at(payload, at, payload.len()) else {
            return head;
        };
        at = child.end;
        if child.kind == TFHD {
            head = read_head(&payload[child.inside..child.end]).ok();
        }
    }
    head
}

// The first track with this ID.
fn track_of(tracks: &[TrackState], id: u32) -> Option<TrackState>
    ensures { result ≡ track_with id tracks.now }
{
    tracks.iter().copied().find(|track| track.id == id)
}

// What the fragments of the track with this ID inherit, if it is there.
fn trex_of(tracks: &[TrackState], id: u32) -> Option<Trex>
    ensures { result ≡ trex_among tracks.now id }
{
    match track_of(tracks, id) {
        Some(track) => track.trex,
        None => None,
    }
}

// Goes before the first sample of a `traf` of the `moof`, which has none where it is of another
// track. What comes is what it says, and what is behind it.
fn enter_traf(payload: &[u8], moof: u64, tracks: &[TrackState], lying: Lying, place: &mut FragPlace)
    requires lies { IsBoxIn payload.now lying }
    requires none { place.old.traf.run.left ≡ 0 }
    requires place { LiesInMoof payload.now place.old }
    ensures place { LiesInMoof payload.now place.new }
    ensures next { place.new.next ≡ place.old.next }
    ensures track { IsSameTrack place.old place.new }
    ensures coming { (boxes : List Box)
        → left_before payload.now (walk_of moof tracks.now place.old) place.new boxes
        ≡ traf_coming (walk_of moof tracks.now place.old) (behind_left payload.now place.old)
        (bytes_inside payload.now lying)
        (λ s. trafs_coming (walk_of moof tracks.now place.old) s boxes) }
{
    let (number, dts) = (place.number, place.traf.dts);
    let traf = &payload[lying.inside..lying.end];
    let Some(head) = head_in(traf) else {
        return;
    };
    let Some(trex) = trex_of(tracks, head.id) else {
        return;
    };
    let from = Beginning {
        base: base_of(head, moof, place.before),
        number,
        dts,
    };
    place.before = data_end(traf, from.base, what_is_inherited(head, trex).size);
    place.traf = begin_traf(traf, from, place.id, trex, place.keys);
    place.begins = lying.inside;
    place.ends = lying.end;
}

// Goes behind the next box of the `moof`, or into it. The same samples are to come.
fn pass_box(payload: &[u8], moof: u64, tracks: &[TrackState], place: &mut FragPlace)
    requires none { place.old.traf.run.left ≡ 0 }
    requires some { place.old.next < length payload.now }
    requires place { LiesInMoof payload.now place.old }
    ensures place { LiesInMoof payload.now place.new }
    ensures next { place.old.next < place.new.next }
    ensures track { IsSameTrack place.old place.new }
    ensures coming { SameInMoof payload.now moof tracks.now place.old place.new }
{
    let Some(child) = box_at(payload, place.next, payload.len()) else {
        place.next = payload.len();
        return;
    };
    place.next = child.end;
    if child.kind == TRAF {
        enter_traf(payload, moof, tracks, child, place);
    }
}

/// Passes boxes until a sample of the track is in hand. The same samples are to come.
pub(crate) fn settle(payload: &[u8], moof: u64, tracks: &[TrackState], place: &mut FragPlace)
    requires { LiesInMoof payload.now place.old }
    ensures bytes { AreBytes payload.now }
    ensures place { IsInMoof payload.now place.new }
    ensures track { IsSameTrack place.old place.new }
    ensures coming { SameInMoof payload.now moof tracks.now place.old place.new }
{
    while place.traf.run.left == 0 && place.next < payload.len() {
        pass_box(payload, moof, tracks, place);
    }
}

/// Before the first box of a `moof` at this place.
pub(crate) fn first_place(moof: u64, track: u32, dts: u64, keys: Keys) -> FragPlace
    ensures place { (payload : List ℕ) → LiesInMoof payload result }
    ensures track { (result.id ≡ track) × (result.keys ≡ keys) }
    ensures coming { (payload : List ℕ) (w : MoofWalk) → moof_coming payload w result
        ≡ trafs_coming w (record { number = 0; dts = dts; before = pos moof })
        (boxes_from payload 0) }
{
    FragPlace {
        id: track,
        keys,
        number: 0,
        next: 0,
        before: i128::from(moof),
        begins: 0,
        ends: 0,
        traf: no_traf(0, 0, dts),
    }
}

/// Goes one sample on, which has the duration and the size of this one: those behind it are to
/// come.
pub(crate) fn pass_in_moof(
    payload: &[u8],
    moof: u64,
    tracks: &[TrackState],
    place: &mut FragPlace,
    sample: &SampleAt,
)
    requires place { IsInMoof payload.now place.old }
    requires next { IsNext sample.now
        (moof_coming payload.now (walk_of moof tracks.now place.old) place.old) }
    ensures place { IsInMoof payload.now place.new }
    ensures track { IsSameTrack place.old place.new }
    ensures coming { moof_coming payload.now (walk_of moof tracks.now place.old) place.new
        ≡ drop 1 (moof_coming payload.now (walk_of moof tracks.now place.old) place.old) }
{
    let traf = &payload[place.begins..place.ends];
    pass_sample(traf, &mut place.traf, sample);
    place.number = place.number.saturating_add(1);
    settle(payload, moof, tracks, place);
}

/// Passes samples that are no sync samples and have this description, at most so many, and says how
/// many these are: those of one `traf` at most.
pub(crate) fn pass_non_sync_in_moof(
    payload: &[u8],
    moof: u64,
    tracks: &[TrackState],
    place: &mut FragPlace,
    description: u32,
    most: u32,
) -> u32
    requires place { IsInMoof payload.now place.old }
    ensures place { IsInMoof payload.now place.new }
    ensures track { IsSameTrack place.old place.new }
    ensures few { result ≤ most }
    ensures passed { PassesNonSync description result
        (moof_coming payload.now (walk_of moof tracks.now place.old) place.old)
        (moof_coming payload.now (walk_of moof tracks.now place.old) place.new) }
{
    let traf = &payload[place.begins..place.ends];
    let count = pass_non_sync(traf, &mut place.traf, description, most);
    place.number = place.number.saturating_add(count);
    settle(payload, moof, tracks, place);
    count
}
