//! A `moof`, checked behind what came before it (ISO/IEC 14496-12, 8.8).
ghost use Rattle.std.specs.Prelude.{ℕ, List, pos, nat_lt, not, ◌&&◌, ◌⊎◌, ◌≡◌, ◌+◌, ◌*◌, ◌^◌, ◌<◌, ◌≤◌, ◌==◌, [], length, None, Some, option_map, codes, if◌then◌else◌, IfOk, OnOk, MatchResult};
ghost use Rattle.mp4_boxes.specs.format.Box.{Tiles, box_container};
ghost use Rattle.mp4_boxes.specs.declared.rule.Rule.TheVariants as rules;
ghost use Rattle.mp4_boxes.specs.words.View.{box_seen};
ghost use Rattle.mp4_tables.specs.format.Groups.{groupings_of, keys_after};
ghost use Rattle.mp4_tables.specs.words.Keys.{keys_seen};
ghost use Rattle.mp4_frag.specs.words.CheckWork.{TrafWork, TrafLooks, MoofWork, MoofLooks};
ghost use Rattle.mp4_boxes.specs.format.FirstFault.{FirstNamed, leaf_tests, naming};
ghost use Rattle.mp4_frag.specs.words.TrafTests.{ListsBoxes, NamesOne, NamesFirst, MoofFirst, TrafsFirst, time_tests, traf_fault};
ghost use Rattle.mp4_frag.specs.words.FragmentTests.{runs_tests, traf_groups_tests};
ghost use Rattle.mp4_frag.specs.words.FragmentsSeen.{moof_seen};
ghost use Rattle.mp4_frag.specs.words.GroupsJudged.{groups_in, AreGroupsSound};
ghost use Rattle.mp4_frag.specs.words.Passing.{IsNearer, IsUpTo, EndsNear, IsPassed, AreBounded, is_late_at, state_with};
ghost use Rattle.mp4_boxes.specs.format.Children.{of_kind};
ghost use Rattle.mp4_boxes.specs.format.Layout.{IsSound, tfdt as tfdt_leaf, tfhd as tfhd_leaf};
ghost use Rattle.std.specs.List.{AllByRecursion};
ghost use Rattle.mp4_frag.specs.words.Reading.{IsBaseIn, IsHead};
ghost use Rattle.mp4_frag.specs.words.RunsJudged.{children_of, HoldsChildren, only_list, runs_in, AreRunsPassed};
ghost use Rattle.mp4_frag.specs.words.Judged.{AreTrexesOf, AreTrafsPassed, IsAcceptable, IsAccepted, IsSoundMoof, IsTrafPassed, IsMoofMovedOn, KeepRoom, tree_of};
ghost use Rattle.mp4_tables.specs.format.TableRules.{is_index};
ghost use Rattle.mp4_frag.specs.declared.trex.Trex.{Trex};
ghost use Rattle.mp4_frag.specs.words.States.{HasRoom, IsRoomFor};
ghost use Rattle.mp4_frag.specs.words.TrafFaults.{HoldsBoxes, traf_in};
ghost use Rattle.mp4_frag.specs.words.Noted.{IsNotable, ids_of, noted_if};
ghost use Rattle.mp4_frag.specs.words.Tracking.{NotesAll, TellsRefused, WhereNoted};
ghost use Rattle.mp4_boxes.specs.declared.fault.Fault.{Fault};
ghost use Rattle.mp4_frag.specs.format.FragmentRows.{group_rows};
ghost use Rattle.mp4_frag.specs.declared.state.TrackState.{TrackState};

use crate::groups::check_group;
use crate::heads::{TrafHead, base_of, read_head, what_is_inherited};
use crate::next_traf::OwnTraf;
use crate::sample_runs::{Judged, PassedSamples, check_run};
use crate::state::TrackState;
use crate::tfdt::read_time;
use crate::tracking::{OneByOne, Standing, Tracking};
use crate::view::FragView;
use mp4_boxes::{
    BoxView, Children, Count, Fault, FourCc, Kind, Rule, Steps, check_children, children,
};
use mp4_tables::Keys;
use std::sync::ledger::Ledger;

pub(crate) const TRAF: FourCc = FourCc(*b"traf");

pub(crate) const TFHD: FourCc = FourCc(*b"tfhd");

pub(crate) const TRUN: FourCc = FourCc(*b"trun");

pub(crate) const SBGP: FourCc = FourCc(*b"sbgp");

// The `tfhd` of a `traf`, and its `tfdt` if there is one.
#[derive(Clone, Copy)]
struct TrafHeads<'a> {
    head: Option<BoxView<'a>>,
    time: Option<BoxView<'a>>,
}

// Checks which boxes stand in a `traf`.
fn check_boxes<'a>(traf: BoxView<'a>) -> Result<TrafHeads<'a>, Fault>
    ensures holds { IfOk result (λ h. HoldsBoxes (box_seen traf.entry)) }
    ensures head { IfOk result (λ h. only_list (option_map box_seen h.head)
        ≡ of_kind (codes "tfhd") (children_of (box_seen traf.entry))) }
    ensures time { IfOk result (λ h. only_list (option_map box_seen h.time)
        ≡ of_kind (codes "tfdt") (children_of (box_seen traf.entry))) }
    ensures exact { ListsBoxes rules.TrackFragment (box_seen traf.entry) result }
{
    let mut heads = TrafHeads {
        head: None,
        time: None,
    };
    for child in check_children(traf, Rule::TrackFragment)? {
        if child.kind() == TFHD {
            heads.head = Some(child);
        } else if child.kind() == FourCc(*b"tfdt") {
            heads.time = Some(child);
        }
    }
    Ok(heads)
}

// What the `tfhd` says.
fn head_of(tfhd: BoxView) -> Result<TrafHead, Fault>
    ensures head { IfOk result (IsHead (box_seen tfhd.entry).payload) }
    ensures exact { FirstNamed (naming (box_seen tfhd.entry)
        (leaf_tests tfhd_leaf (box_seen tfhd.entry).payload)) result }
{
    match read_head(tfhd.payload()) {
        Ok(head) => Ok(head),
        Err(kind) => Err(tfhd.fault(kind)),
    }
}

// The decode time of a `traf`, if it has a `tfdt`.
fn time_of(traf: BoxView, tfdt: Option<BoxView>) -> Result<Option<u64>, Fault>
    requires only { only_list (option_map box_seen tfdt)
        ≡ of_kind (codes "tfdt") (children_of (box_seen traf)) }
    ensures sound { IfOk result (λ time. AllByRecursion (λ b. IsSound tfdt_leaf b.payload)
        (of_kind (codes "tfdt") (children_of (box_seen traf.entry)))) }
    ensures time { IfOk result (λ time. (traf_in (box_seen traf.entry)).decode_time ≡ time) }
    ensures exact { FirstNamed
        (time_tests (of_kind (codes "tfdt") (children_of (box_seen traf.entry)))) result }
{
    let Some(tfdt) = tfdt else {
        return Ok(None);
    };
    match read_time(tfdt.payload()) {
        Ok(time) => Ok(Some(time)),
        Err(kind) => Err(tfdt.fault(kind)),
    }
}

// Checks the runs of a `traf` in file order: all are sound, and what was passed is what they come
// to, or the first fault of them is named, at a step for each run and sample.
fn check_runs<L: Ledger>(
    traf: BoxView,
    judged: Judged,
    room: &mut u32,
    steps: &mut Count<L>,
) -> Result<PassedSamples, Fault>
    requires few { room.old ≤ 2 ^ 24 }
    requires base { IsNearer judged.base }
    ensures passed { IfOk result IsPassed }
    ensures runs { IfOk result (AreRunsPassed judged (runs_in (box_seen traf.entry))) }
    ensures taken { IfOk result (λ p. p.count + room.new ≡ room.old) }
    ensures bound { IfOk result (λ p. EndsNear judged.base p.at) }
    ensures exact { HoldsChildren (box_seen traf.entry) → FirstNamed
        (runs_tests judged judged.base room.old (runs_in (box_seen traf.entry))) result }
    ensures within { IfOk result (λ p. 8 * steps.new ≤ 8 * steps.old
        + length (box_seen traf.entry).payload + 8 * p.count) }
    ensures work { 8 * steps.new ≤ 8 * steps.old + length (box_seen traf.entry).payload
        + 8 * room.old }
    ensures counted { IfOk result (λ p. steps.new ≡ steps.old
        + length (traf_in (box_seen traf.entry)).runs + p.count) }
{
    let mut passed = PassedSamples {
        at: judged.base,
        count: 0,
        duration: 0,
        bytes: 0,
    };
    for child in children(traf.payload(), traf.payload_offset(), traf.kind())? {
        if child.kind() == TRUN {
            steps.tick();
            passed = match check_run(child.payload(), judged, passed, room, steps) {
                Ok(passed) => passed,
                Err(kind) => return Err(child.fault(kind)),
            };
        }
    }
    Ok(passed)
}

// Checks each `sbgp` of a `traf` of `n` samples in file order, and names their keys.
fn check_groups<L: Ledger>(
    traf: BoxView,
    n: u32,
    keys: Keys,
    steps: &mut Count<L>,
) -> Result<Keys, Fault>
    ensures sound { IfOk result
        (λ k. AreGroupsSound n (keys_seen keys) [] (groups_in (box_seen traf.entry))) }
    ensures keys { IfOk result (λ k. keys_seen k
        ≡ keys_after (keys_seen keys) (groupings_of (groups_in (box_seen traf.entry)))) }
    ensures exact { HoldsChildren (box_seen traf.entry) → FirstNamed
        (traf_groups_tests n (keys_seen keys) [] (groups_in (box_seen traf.entry))) result }
    ensures work { 8 * steps.new ≤ 8 * steps.old + length (box_seen traf.entry).payload }
    ensures counted { IfOk result (λ k. steps.new ≡ steps.old
        + group_rows (traf_in (box_seen traf.entry)).groups) }
{
    let mut keys = keys;
    let mut named = [false; 4];
    for child in children(traf.payload(), traf.payload_offset(), traf.kind())? {
        if child.kind() == SBGP {
            if let Err(kind) = check_group(child.payload(), n, &mut keys, &mut named, steps) {
                return Err(child.fault(kind));
            }
        }
    }
    Ok(keys)
}

// Whether samples have a description that their track has not.
fn lacks_description(state: TrackState, index: u32, passed: PassedSamples) -> bool
    ensures { result ≡ (nat_lt 0 passed.count && not (is_index state.descriptions index)) }
{
    passed.count > 0 && (index < 1 || index > state.descriptions)
}

// Whether samples begin at another time than is due. The first ones of a track say when it starts.
fn is_late(state: TrackState, time: Option<u64>, passed: PassedSamples) -> bool
    ensures { result ≡ is_late_at state time passed.count }
{
    match time {
        Some(time) => passed.count > 0 && state.count > 0 && u128::from(time) != state.time,
        None => false,
    }
}

// The track behind these samples: with their number, their time and their bytes, if there are any,
// and with these keys.
fn moved_on(state: TrackState, time: Option<u64>, passed: PassedSamples, keys: Keys) -> TrackState
    requires room { HasRoom passed.count state }
    requires sums { AreBounded passed.count passed.duration passed.bytes }
    ensures same { (result.id ≡ state.id) × (result.trex ≡ state.trex) }
    ensures count { result.count ≡ state.count + passed.count }
    ensures room { HasRoom 0 result }
    ensures none { passed.count ≡ 0 → result ≡ record state { keys = keys } }
    ensures some { 0 < passed.count → result ≡ state_with state time passed keys }
{
    if passed.count == 0 {
        return TrackState { keys, ..state };
    }
    let (start, due) = if state.count == 0 {
        let start = time.unwrap_or(0);
        (start, u128::from(start))
    } else {
        (state.start, state.time)
    };
    TrackState {
        start,
        count: state.count + passed.count,
        time: due + u128::from(passed.duration),
        bytes: state.bytes + passed.bytes,
        keys,
        ..state
    }
}

// A `traf` that passed: where its data ends, the place of its track, and what is noted of it, if it
// has samples.
#[derive(Clone, Copy)]
struct PassedTraf {
    ends: i128,
    track: usize,
    own: Option<OwnTraf>,
}

// What is noted of a `traf` of so many samples whose runs are counted from this base.
fn note_of(traf: BoxView, base: i128, count: u32) -> Option<OwnTraf>
    ensures { result ≡ (if nat_lt 0 count then Some (record {
      at = (box_seen traf.entry).offset + (box_seen traf.entry).header;
      len = length (box_seen traf.entry).payload;
      base = base;
    }) else None) }
{
    if count > 0 {
        return Some(OwnTraf {
            at: traf.payload_offset(),
            len: traf.payload().len(),
            base,
        });
    }
    None
}

// Checks a `traf` that stands there: it passes, and the tracks and the room are those behind it; or
// its first fault is named, at a step for each row, run and sample, and the looks that
// its track takes.
fn check_traf<T: Tracking, L: Ledger, M: Ledger>(
    traf: BoxView,
    at: Standing,
    tracks: &mut [TrackState],
    tracking: &T,
    room: &mut u32,
    steps: &mut Steps<L, M>,
) -> Result<PassedTraf, Fault>
    requires room { IsRoomFor tracks.old room.old }
    requires near { IsUpTo (2 ^ 98) at.before }
    requires knows { T.knows tracking.now (ids_of tracks.old) }
    ensures passed { IfOk result (λ p. IsTrafPassed at.file_len at.moof at.before
        (box_seen traf.entry) tracks.old tracks.new room.old room.new p.ends
        × KeepRoom tracks.old tracks.new room.old room.new) }
    ensures own { IfOk result
        (IsNotable at.moof at.before (box_seen traf.entry) tracks.old) }
    ensures exact { NamesOne
        (traf_fault at.file_len at.moof at.before tracks.old room.old
        (box_seen traf.entry)) result }
    ensures work { TrafWork (box_seen traf.entry) steps.old.passed steps.new.passed
        room.old room.new result }
    ensures looks { TrafLooks (T.most (length tracks.old)) steps.old.looks
        steps.new.looks result }
    ensures many { length tracks.new ≡ length tracks.old }
    ensures stays { MatchResult result (λ p. ids_of tracks.new ≡ ids_of tracks.old)
        (λ f. tracks.new ≡ tracks.old) }
{
    let heads = check_boxes(traf)?;
    let Some(tfhd) = heads.head else {
        return Err(traf.fault(Kind::MissingBox));
    };
    let head = head_of(tfhd)?;
    let Some(k) = tracking.find(tracks, head.id, steps) else {
        return Err(tfhd.fault(Kind::UnknownTrack));
    };
    let state = tracks[k];
    let Some(trex) = state.trex else {
        return Err(tfhd.fault(Kind::UnknownTrack));
    };
    let time = time_of(traf, heads.time)?;
    let judged = Judged {
        file_len: at.file_len,
        base: base_of(head, at.moof, at.before),
        inherited: what_is_inherited(head, trex),
    };
    let passed = check_runs(traf, judged, room, &mut steps.passed)?;
    if lacks_description(state, judged.inherited.description, passed) {
        return Err(tfhd.fault(Kind::BadDescriptionIndex));
    }
    let keys = check_groups(traf, passed.count, state.keys, &mut steps.passed)?;
    if let Some(tfdt) = heads.time {
        if is_late(state, time, passed) {
            return Err(tfdt.fault(Kind::Gap));
        }
    }
    tracks[k] = moved_on(state, time, passed, keys);
    Ok(PassedTraf {
        ends: passed.at,
        track: k,
        own: note_of(traf, judged.base, passed.count),
    })
}

// Notes a `traf` that passed, if it has samples.
fn note_traf<T: Tracking>(tracking: &mut T, passed: PassedTraf)
    ensures knows { (ids : List ℕ) → T.knows tracking.old ids → T.knows tracking.new ids }
    ensures silent { T.is_silent tracking.old → T.is_silent tracking.new }
    ensures noted { WhereNoted (T.noted tracking.old) (T.noted tracking.new)
        (λ owns now. now ≡ noted_if passed.track passed.own owns) }
{
    if let Some(traf) = passed.own {
        tracking.note(passed.track, traf);
    }
}

// The boxes of a `moof` of a file of so many bytes.
struct MoofBoxes<'a> {
    moof: BoxView<'a>,
    boxes: Children<'a>,
    file_len: u64,
}

// Checks the `traf`s among the boxes of a `moof` in file order, behind what came before it: all
// pass, and the tracks, what is noted and the room are those behind them; or the first that has a
// fault is refused, and the companion is told of it.
fn check_trafs<'a, T: Tracking, L: Ledger, M: Ledger>(
    all: MoofBoxes<'a>,
    tracks: &mut [TrackState],
    tracking: &mut T,
    room: &mut u32,
    steps: &mut Steps<L, M>,
) -> Result<(), Fault>
    requires boxes { Tiles (box_container (box_seen all.moof)) all.boxes }
    requires room { IsRoomFor tracks.old room.old }
    requires knows { T.knows tracking.old (ids_of tracks.old) }
    ensures passed { OnOk result (AreTrafsPassed all.entry.file_len (box_seen all.entry.moof)
        tracks.old tracks.new room.old room.new) }
    ensures exact { NamesFirst (TrafsFirst all.entry.file_len (box_seen all.entry.moof).offset
        (pos (box_seen all.entry.moof).offset) tracks.old room.old
        (of_kind (codes "traf") (children_of (box_seen all.entry.moof)))) result }
    ensures own { OnOk result (NotesAll (box_seen all.entry.moof) tracks.old
        (T.noted tracking.old) (T.noted tracking.new)) }
    ensures knows { (ids : List ℕ) → T.knows tracking.old ids → T.knows tracking.new ids }
    ensures told { MatchResult result
        (λ _. T.is_silent tracking.old → T.is_silent tracking.new)
        (TellsRefused (T.tells tracking.new) all.entry.file_len (box_seen all.entry.moof)
        tracks.old room.old) }
    ensures work { MoofWork (box_seen all.entry.moof) steps.old.passed steps.new.passed
        room.old room.new result }
    ensures looks { MoofLooks (box_seen all.entry.moof) (T.most (length tracks.old))
        steps.old.looks steps.new.looks result }
{
    let MoofBoxes {
        moof,
        boxes,
        file_len,
    } = all;
    let mut before = i128::from(moof.offset());
    for child in boxes {
        if child.kind() == TRAF {
            steps.tick();
            let at = Standing {
                file_len,
                moof: moof.offset(),
                before,
            };
            let passed = match check_traf(child, at, tracks, tracking, room, steps) {
                Ok(passed) => passed,
                Err(fault) => {
                    tracking.refuse(child, at, tracks, &fault);
                    return Err(fault);
                }
            };
            note_traf(tracking, passed);
            before = passed.ends;
        }
    }
    Ok(())
}

/// Checks a `moof` of a file of so many bytes behind what came before it. The tracks move on by its
/// samples, and the room for samples falls by their number. The companion finds the track of each
/// `traf`, notes each `traf` with samples, and is told of one that is refused. After a fault all of
/// these may have any values. A step is taken for each `traf`, run, row and sample, and for each
/// `traf` one look at least, and no more than the companion says.
pub fn check_moof_by<'a, T: Tracking, L: Ledger, M: Ledger>(
    moof: BoxView<'a>,
    file_len: u64,
    tracks: &mut [TrackState],
    tracking: &mut T,
    room: &mut u32,
    steps: &mut Steps<L, M>,
) -> Result<FragView<'a>, Fault>
    requires room { IsRoomFor tracks.old room.old }
    requires knows { T.knows tracking.old (ids_of tracks.old) }
    ensures sound { OnOk result (((trexes : List Trex) → AreTrexesOf trexes tracks.old
        → IsSoundMoof file_len trexes tracks.old (tree_of (box_seen moof.entry)))
        × IsMoofMovedOn (box_seen moof.entry) tracks.old tracks.new room.old room.new) }
    ensures accepted { IfOk result (λ v. (moof_seen v ≡ box_seen moof.entry)
        × IsAccepted file_len (box_seen moof.entry) tracks.old tracks.new room.old room.new) }
    ensures exact { NamesFirst
        (MoofFirst file_len tracks.old room.old (box_seen moof.entry)) result }
    ensures own { OnOk result (NotesAll (box_seen moof.entry) tracks.old
        (T.noted tracking.old) (T.noted tracking.new)) }
    ensures knows { (ids : List ℕ) → T.knows tracking.old ids → T.knows tracking.new ids }
    ensures told { T.is_silent tracking.old → MatchResult result
        (λ _. T.is_silent tracking.new)
        (λ f. T.is_silent tracking.new ⊎ TellsRefused (T.tells tracking.new) file_len
        (box_seen moof.entry) tracks.old room.old f) }
    ensures work { MoofWork (box_seen moof.entry) steps.old.passed steps.new.passed
        room.old room.new result }
    ensures looks { MoofLooks (box_seen moof.entry) (T.most (length tracks.old))
        steps.old.looks steps.new.looks result }
{
    let boxes = check_children(moof, Rule::MovieFragment)?;
    let all = MoofBoxes {
        moof,
        boxes,
        file_len,
    };
    check_trafs(all, tracks, tracking, room, steps)?;
    Ok(FragView::again(moof))
}

/// Checks a `moof` of a file of so many bytes behind what came before it. The tracks move on by its
/// samples, and the room for samples falls by their number. After a fault all of these may have any
/// values. A step is taken for each `traf`, run, row and sample; the track of each `traf` is
/// searched among all, at a look for each that is passed.
pub fn check_moof<'a, L: Ledger, M: Ledger>(
    moof: BoxView<'a>,
    file_len: u64,
    tracks: &mut [TrackState],
    room: &mut u32,
    steps: &mut Steps<L, M>,
) -> Result<FragView<'a>, Fault>
    requires room { IsRoomFor tracks.old room.old }
    ensures sound { OnOk result ((trexes : List Trex) → AreTrexesOf trexes tracks.old
        → IsSoundMoof file_len trexes tracks.old (tree_of (box_seen moof.entry))) }
    ensures accepted { OnOk result (IsAccepted file_len (box_seen moof.entry)
        tracks.old tracks.new room.old room.new) }
    ensures view { IfOk result (λ v. moof_seen v ≡ box_seen moof.entry) }
    ensures exact { NamesFirst
        (MoofFirst file_len tracks.old room.old (box_seen moof.entry)) result }
    ensures only { MatchResult result
        (λ _. IsAcceptable file_len tracks.old room.old (box_seen moof.entry))
        (λ _. IsAcceptable file_len tracks.old room.old (box_seen moof.entry) → ⊥) }
    ensures moved { OnOk result
        (IsMoofMovedOn (box_seen moof.entry) tracks.old tracks.new room.old room.new) }
    ensures work { MoofWork (box_seen moof.entry) steps.old.passed steps.new.passed
        room.old room.new result }
    ensures looks { MoofLooks (box_seen moof.entry) (length tracks.old)
        steps.old.looks steps.new.looks result }
{
    check_moof_by(moof, file_len, tracks, &mut OneByOne, room, steps)
}

/// Where the runs of a `traf` with this `tfhd` are counted from, in a `moof` at this place, where
/// the data of the `traf` before ends there.
pub fn base_in(tfhd: BoxView, moof: u64, before: i128) -> Result<i128, Fault>
    ensures base { IfOk result
        (λ base. IsBaseIn (box_seen tfhd.entry).payload moof before base) }
    ensures exact { FirstNamed (naming (box_seen tfhd.entry)
        (leaf_tests tfhd_leaf (box_seen tfhd.entry).payload)) result }
{
    let head = head_of(tfhd)?;
    Ok(base_of(head, moof, before))
}
