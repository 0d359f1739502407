//! The `moof`s of a file: each is read, checked and given up before the next.
ghost use Rattle.std.specs.Prelude.{◌≤◌, min, length, IfOk, IfErr, ◌≡◌, ◌^◌, map, None, OnOk, false};
ghost use Rattle.mp4_present.specs.words.Outline.{AreIn};
ghost use Rattle.mp4_present.specs.words.ToOpen.{PassesNoting, PassesOn};
ghost use Rattle.mp4_present.specs.words.StoresRead.{OnlyReads, WhereRead, Refused, RefusedOf, WhereHonest};
ghost use Rattle.mp4_frag.specs.words.Noted.{ids_of};
ghost use Rattle.mp4_present.specs.words.OwnTrafs.{own_seen};
ghost use Rattle.mp4_present.specs.words.TrackPlaces.{ArePlacesOf};
ghost use Rattle.mp4_frag.specs.words.States.{HaveRoom};
ghost use Rattle.mp4_present.specs.words.Opening.{HasOutline};
ghost use Rattle.mp4_present.specs.words.FaultSearches.{TellsBehind};
ghost use Rattle.mp4_present.specs.words.MoofsJudged.{NamesMoofs};
ghost use Rattle.mp4_present.specs.words.OpeningWork.{ChecksMoofs, NotesOn};
ghost use Rattle.mp4_present.specs.words.Refusing.{ReadsToFault, RefusesSearch};
ghost use Rattle.mp4_present.specs.words.WalkSteps.{ChecksAll};

use crate::faults::FaultNumbers;
use crate::opening::outline::Outline;
use crate::opening::tables_pass::PlainTracks;
use crate::own_trafs::OwnTrafs;
use crate::reading::{HEADER, read_top_box};
use crate::track_places::NotedTracks;
use mp4_boxes::{Refusal, Steps};
use mp4_frag::{TrackState, check_moof_by};
use mp4_store::Store;
use std::alloc::Global;
use std::sync::ledger::Ledger;

// What is known before the first `moof` is read: where the parts of the file lie, and how many
// samples there is room for.
#[derive(Clone, Copy)]
struct Start<'a> {
    outline: &'a Outline,
    room: u32,
}

// Reads each `moof` of the file to the room, and checks it: the tracks are then behind it, and the
// `traf`s with samples are noted. One look finds the track of each `traf`.
fn pass_fragments<S: Store, L: Ledger, M: Ledger>(
    store: &mut S,
    start: Start,
    states: &mut [TrackState],
    tracks: &mut NotedTracks,
    bytes: &mut [u8],
    steps: &mut Steps<L, M>,
) -> Result<(), Refusal>
    requires room { (start.room ≤ 2 ^ 24) × HaveRoom start.room states.old
        × (start.outline.now.longest ≤ length bytes.old) × (16 ≤ length bytes.old)
        × (length tracks.old.own.items ≡ length states.old) }
    requires tracks { ArePlacesOf (ids_of states.old) tracks.old.places
        × (tracks.old.is_refused ≡ false) × (tracks.old.told ≡ None) }
    requires outline { HasOutline (S.is_honest store.old) (S.file store.old) start.outline.now
        × AreIn (length (S.file store.old)) start.outline.now.moofs.items }
    ensures store { OnlyReads S.Store store.old store.new result }
    ensures passed { OnOk result ((length tracks.new.own.items ≡ length states.old)
        × WhereHonest S.Store store.old (λ file.
        PassesOn file states.old start.entry.room states.new
        × NotesOn file states.old start.entry.room states.new
        tracks.old.own.items tracks.new.own.items)) }
    ensures work { WhereHonest S.Store store.old (λ file. ChecksMoofs file
        (min 1 (length states.old)) result steps.old.passed steps.new.passed
        steps.old.looks steps.new.looks
        × OnOk result (ChecksAll file steps.old.passed steps.new.passed)) }
    ensures refusal { RefusedOf S.Store store.old store.new result
        (λ honest file. RefusesSearch honest) }
    ensures reads { Refused S.Store store.old store.new result ReadsToFault }
    ensures exact { WhereHonest S.Store store.old (λ file.
        NamesMoofs file states.old start.entry.room (λ _. states.new) result) }
    ensures told { WhereHonest S.Store store.old (λ file. IfErr result
        (TellsBehind file states.old start.entry.room tracks.new.told)) }
{
    let file_len = store.len();
    let Start { outline, room } = start;
    let mut room = room;
    let mut likely = 0;
    for at in &outline.moofs {
        let top = read_top_box(store, *at, likely, bytes)?;
        likely = top.len().saturating_add(top.len() / 4);
        let moof = top.view_in(bytes);
        check_moof_by(moof, file_len, states, tracks, &mut room, steps)?;
        if tracks.is_refused {
            return Err(Refusal::Memory);
        }
    }
    Ok(())
}

/// What is known of a file before its fragments are read: where its parts lie, and the tracks
/// behind their tables.
#[derive(Clone, Copy)]
pub(crate) struct Known<'a> {
    pub(crate) outline: &'a Outline,
    pub(crate) plain: &'a PlainTracks,
}

/// The tracks of a movie behind all of their samples, and which `traf`s have samples of each.
#[derive(Drop)]
pub(crate) struct PassedTracks {
    pub(crate) states: Vec<TrackState>,
    pub(crate) own: Vec<OwnTrafs>,
}

/// Reads and checks each `moof` of the file: the tracks of the movie behind all of their samples,
/// and which `traf`s have samples of each. Numbers go with one that is refused.
pub(crate) fn check_fragments<S: Store, L: Ledger, M: Ledger>(
    alloc: Global,
    store: &mut S,
    known: Known,
    told: &mut Option<FaultNumbers>,
    steps: &mut Steps<L, M>,
) -> Result<PassedTracks, Refusal>
    requires room { (known.plain.now.room ≤ 2 ^ 24)
        × HaveRoom known.plain.now.room known.plain.now.states.items }
    requires outline { HasOutline (S.is_honest store.old) (S.file store.old) known.outline.now
        × AreIn (length (S.file store.old)) known.outline.now.moofs.items }
    ensures each { IfOk result
        (λ p. (length p.states.items ≡ length known.entry.plain.now.states.items)
        × (length p.own.items ≡ length known.entry.plain.now.states.items)) }
    ensures store { OnlyReads S.Store store.old store.new result }
    ensures own { WhereRead S.Store store.old result (λ file p. PassesNoting file
        known.entry.plain.now.states.items known.entry.plain.now.room p.states.items
        (map own_seen p.own.items)) }
    ensures work { WhereHonest S.Store store.old (λ file. ChecksMoofs file
        (min 1 (length known.entry.plain.now.states.items))
        result steps.old.passed steps.new.passed steps.old.looks steps.new.looks
        × OnOk result (ChecksAll file steps.old.passed steps.new.passed)) }
    ensures refusal { RefusedOf S.Store store.old store.new result
        (λ honest file. RefusesSearch honest) }
    ensures reads { Refused S.Store store.old store.new result ReadsToFault }
    ensures exact { WhereHonest S.Store store.old (λ file. NamesMoofs file
        known.entry.plain.now.states.items known.entry.plain.now.room
        (λ p. p.states.items) result) }
    ensures told { WhereHonest S.Store store.old (λ file. IfErr result (TellsBehind file
        known.entry.plain.now.states.items known.entry.plain.now.room told.new)) }
{
    let mut states = Vec::new(alloc);
    let Known { outline, plain } = known;
    states.extend_from_slice(plain.states.as_slice())?;
    let mut tracks = NotedTracks::noting(alloc, states.as_slice())?;
    let mut bytes = vec![in alloc; 0u8; outline.longest.max(HEADER) as usize]?;
    let (all, bytes) = (states.as_mut_slice(), bytes.as_mut_slice());
    let start = Start {
        outline,
        room: plain.room,
    };
    let passed = pass_fragments(store, start, all, &mut tracks, bytes, steps);
    *told = tracks.told;
    passed?;
    Ok(PassedTracks {
        states,
        own: tracks.own,
    })
}
