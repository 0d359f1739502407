//! The tables of the tracks of a movie, checked one after the other.
ghost use Rattle.std.specs.Prelude.{ℕ, ◌≡◌, ◌+◌, ◌*◌, ◌≤◌, ◌-◌, ◌^◌, min, length, List, IfOk, IfErr, OnOk};
ghost use Rattle.mp4_boxes.specs.format.Bytes.{AreBytes, sum_of};
ghost use Rattle.mp4_boxes.specs.words.View.{box_seen};
ghost use Rattle.mp4_frag.specs.declared.trex.Trex.{Trex};
ghost use Rattle.mp4_head.specs.format.Tree.{TrackTree};
ghost use Rattle.mp4_present.specs.words.TablesChecked.{AreTrexesById, IsStateBehind, WhereTrees};
ghost use Rattle.mp4_present.specs.words.Plain.{ArePlain, HaveTablesIn};
ghost use Rattle.mp4_present.specs.words.TrackTrees.{AreTracksOf, HaveTables};
ghost use Rattle.mp4_present.specs.words.Refusing.{MeetsFault};
ghost use Rattle.mp4_present.specs.words.TablesFirst.{NamesOfTracks};
ghost use Rattle.mp4_present.specs.words.WalkSteps.{IfNoFault, least_table_steps, table_steps};

use crate::movie::TrackTables;
use mp4_boxes::{BoxView, Memory, Refusal, Steps};
use mp4_frag::{TrackState, Trex};
use mp4_head::{MovieHead, TrackHead};
use mp4_tables::{Keys, Tables, Totals};
use std::alloc::Global;
use std::collections::BTreeMap;
use std::sync::ledger::Ledger;

/// The tracks of a movie behind their tables, in the order of the `moov`.
#[derive(Drop)]
pub(crate) struct PlainTracks {
    pub(crate) tables: Vec<TrackTables>,
    pub(crate) states: Vec<TrackState>,
    /// How many samples there is room for.
    pub(crate) room: u32,
}

// What fragments inherit, by the IDs of their tracks: one look finds it for a track, however many
// there are.
fn trexes_by_id(alloc: Global, trexes: &[Trex]) -> Result<BTreeMap<u32, Trex>, Memory>
    ensures { IfOk result (AreTrexesById trexes.now) }
{
    let mut by_id = BTreeMap::new(alloc);
    for step in 0..trexes.len() {
        let k = trexes.len() - 1 - step;
        let trex = trexes[k];
        let Ok(_) = by_id.insert(trex.id, trex) else {
            return Err(Memory);
        };
    }
    Ok(by_id)
}

// How many descriptions a track has, as far as 32 bits go: `stsd` counts them so.
fn description_count(track: &TrackHead) -> u32
    ensures { result ≡ min (length track.now.media.descriptions.items) (2 ^ 32 - 1) }
{
    track.media.descriptions.len().min(0xFFFF_FFFF) as u32
}

// How many bytes there are.
fn length_of(payload: &[u8]) -> usize
    ensures length { result ≡ length payload.now }
    ensures bytes { AreBytes payload.now }
{
    payload.len()
}

// The state of a track behind the samples of its tables.
fn state_of(
    track: &TrackHead,
    trexes: &BTreeMap<u32, Trex>,
    totals: Totals,
    count: u32,
    keys: Keys,
) -> TrackState
    ensures { IsStateBehind track.now trexes.now totals count keys result }
{
    TrackState {
        id: track.id,
        descriptions: description_count(track),
        trex: trexes.get(&track.id).copied(),
        start: 0,
        count,
        time: u128::from(totals.duration),
        bytes: totals.bytes,
        keys,
    }
}

impl PlainTracks {
    ghost use Rattle.std.specs.Prelude.{ℕ, List, [], ◌+◌, ◌*◌, ◌≤◌, length, OnOk, IfErr};
    ghost use Rattle.mp4_boxes.specs.words.View.{box_seen};
    ghost use Rattle.mp4_frag.specs.declared.trex.Trex.{Trex};
    ghost use Rattle.mp4_head.specs.format.Tree.{TrackTree};
    ghost use Rattle.mp4_present.specs.words.TablesChecked.{AreTrexesById, ChecksTables};
    ghost use Rattle.mp4_present.specs.words.Plain.{ArePlain, HasTablesIn};
    ghost use Rattle.mp4_present.specs.words.TrackTrees.{IsTrackOf, HaveTables};
    ghost use Rattle.mp4_present.specs.words.Refusing.{MeetsFault};
    ghost use Rattle.mp4_present.specs.words.TablesFirst.{NamesOfTrack};
    ghost use Rattle.mp4_present.specs.words.ToOpen.{OneMorePlain, OneMoreSaid};
    ghost use Rattle.mp4_present.specs.words.WalkSteps.{IfNoFault, least_table_steps, table_steps};

    // No track yet.
    fn none(alloc: Global) -> PlainTracks
        ensures plain { (moov : List ℕ) → ArePlain moov 0 result }
        ensures says { (file_length : ℕ) (moov : List ℕ) (trexes : List Trex)
            → HaveTables file_length moov trexes [] result }
    {
        PlainTracks {
            tables: Vec::new(alloc),
            states: Vec::new(alloc),
            room: 1 << 24,
        }
    }

    // Checks the tables of one more track: they are among those that are plain, and its steps are
    // as many as its tables have.
    fn push<L: Ledger, M: Ledger>(
        &mut self,
        moov: BoxView,
        track: &TrackHead,
        trexes: &BTreeMap<u32, Trex>,
        file_len: u64,
        steps: &mut Steps<L, M>,
    ) -> Result<(), Refusal>
        requires inside { HasTablesIn (box_seen moov) track.now }
        requires read { (t : TrackTree) × IsTrackOf t track.now }
        ensures one_more { OnOk result
            (OneMorePlain (box_seen moov.entry).payload self.old self.new) }
        ensures says { OnOk result ((all : List Trex) → AreTrexesById all trexes.now
            → OneMoreSaid file_len (box_seen moov.entry).payload all
            track.now self.old self.new) }
        ensures work { ChecksTables track.now (length (box_seen moov.entry).payload) self.old.room
            self.new.room result steps.old.passed steps.new.passed }
        ensures least { OnOk result ((t : TrackTree) → IsTrackOf t track.now
            → steps.old.passed + least_table_steps t ≤ steps.new.passed) }
        ensures refusal { IfErr result MeetsFault }
        ensures exact { NamesOfTrack file_len self.old.room track.now result }
        ensures looks { steps.new.looks ≡ steps.old.looks }
    {
        let mut keys = Keys::new();
        let stbl = track.stbl;
        let len = length_of(stbl.payload());
        let descriptions = description_count(track);
        let tables = Tables::check(stbl, file_len, descriptions, self.room, &mut keys, steps)?;
        let totals = tables.totals(steps);
        self.room -= tables.count();
        self.tables.push(TrackTables {
            place: (stbl.payload_offset() - moov.payload_offset()) as usize,
            len,
            tables: tables.places(),
        })?;
        self.states
            .push(state_of(track, trexes, totals, tables.count(), keys))?;
        Ok(())
    }
}

/// Checks the tables of each track of a movie.
pub(crate) fn check_tables<L: Ledger, M: Ledger>(
    alloc: Global,
    moov: BoxView,
    head: &MovieHead,
    file_len: u64,
    steps: &mut Steps<L, M>,
) -> Result<PlainTracks, Refusal>
    requires inside { HaveTablesIn (box_seen moov) head.now.tracks.items }
    requires read { (trees : List TrackTree) × AreTracksOf trees head.now.tracks.items }
    ensures plain { IfOk result
        (ArePlain (box_seen moov.entry).payload (length head.now.tracks.items)) }
    ensures says { IfOk result (λ p. WhereTrees head.now.tracks.items (λ trees.
        HaveTables file_len (box_seen moov.entry).payload head.now.trexes.items trees p)) }
    ensures work { IfNoFault result (WhereTrees head.now.tracks.items (λ trees.
        steps.new.passed ≤ steps.old.passed + sum_of table_steps trees)) }
    ensures least { OnOk result (WhereTrees head.now.tracks.items (λ trees.
        steps.old.passed + sum_of least_table_steps trees ≤ steps.new.passed)) }
    ensures within { steps.new.passed ≤ steps.old.passed + 5 * 2 ^ 24
        + 6 * (length head.now.tracks.items * length (box_seen moov.entry).payload) }
    ensures refusal { IfErr result MeetsFault }
    ensures exact { NamesOfTracks file_len head.now.tracks.items result }
    ensures looks { steps.new.looks ≡ steps.old.looks }
{
    let trexes = trexes_by_id(alloc, &head.trexes)?;
    let mut plain = PlainTracks::none(alloc);
    for track in &head.tracks {
        plain.push(moov, track, &trexes, file_len, steps)?;
    }
    Ok(plain)
}
