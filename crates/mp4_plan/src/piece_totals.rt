//! What all pieces of a movie come to: the most samples of one, and the bytes of all.
ghost use Rattle.std.specs.Prelude.{◌≡◌, ◌+◌, ◌*◌, ◌-◌, ◌^◌, ◌<◌, ◌≤◌, max, min, Some, IfOk, OnOk};
ghost use Rattle.mp4_tables.specs.words.Keys.{keys_seen};
ghost use Rattle.mp4_present.specs.words.StoresRead.{IsUnchanged, OnlyReads, Refused};
ghost use Rattle.mp4_present.specs.words.WalkSteps.{walks_steps};
ghost use Rattle.mp4_plan.specs.format.Pieces.{pieces};
ghost use Rattle.mp4_content.specs.words.Opened.{OverOpened};
ghost use Rattle.mp4_content.specs.words.Contents.{IsContentOf, OverContent, content_left};
ghost use Rattle.mp4_plan.specs.words.Turns.{movie_turns};
ghost use Rattle.mp4_content.specs.words.Opened.{RefusesPlan};
ghost use Rattle.mp4_plan.specs.words.Writers.{ArePiecesLong, longest_piece, planned_length};

use crate::counting::count_turn;
use crate::ends::Portion;
use crate::moof_sizes::sizes_of;
use crate::plan_walks::PlanWalks;
use crate::planner::Planned;
use crate::track_pieces::plan_turn;
use mp4_boxes::{Refusal, Steps};
use mp4_content::Content;
use mp4_present::Movie;
use mp4_store::Store;
use mp4_tables::Keys;
use std::alloc::Global;
use std::sync::ledger::Ledger;

// The bytes of a piece, as far as 64 bits go: its `moof`, and its `mdat`.
fn piece_len(planned: &Planned, keys: &Keys) -> u64
    ensures { result ≡ min (planned_length planned.now (keys_seen keys.now)) (2 ^ 64 - 1) }
{
    let header = if planned.bytes < (1 << 32) - 8 { 8 } else { 16 };
    (sizes_of(planned, keys).moof + header).saturating_add(planned.bytes)
}

// The length of some pieces and of one more, where it has samples, as far as 64 bits go.
fn len_with(len: u64, planned: &Planned, keys: &Keys) -> u64
    ensures none { planned.now.count ≡ 0 → result ≡ len }
    ensures some { 0 < planned.now.count
        → result ≡ min (len + planned_length planned.now (keys_seen keys.now)) (2 ^ 64 - 1) }
{
    if planned.count == 0 {
        return len;
    }
    len.saturating_add(piece_len(planned, keys))
}

/// The most samples of a piece of what is left of a movie.
#[tactic(auto, using(crate::proofs::InfosLeft::tracks_many))]
pub(crate) fn longest_piece<S: Store, L: Ledger, M: Ledger>(
    alloc: Global,
    movie: &Movie,
    store: &mut S,
    content: &Content,
    steps: &mut Steps<L, M>,
) -> Result<u32, Refusal>
    requires content { IsContentOf movie.now content.now }
    ensures store { OnlyReads S.Store store.old store.new result }
    ensures few { IfOk result (λ longest. longest ≤ 2 ^ 24) }
    ensures longest { OverContent S.Store store.old movie.now content.now
        (λ file tree. IfOk result (λ longest. longest
        ≡ longest_piece (pieces (content_left content.now file tree)))) }
    ensures unchanged { OverContent S.Store store.old movie.now content.now
        (λ file tree. IsUnchanged result) }
    ensures refusal { Refused S.Store store.old store.new result RefusesPlan }
    ensures grows { OnOk result (steps.old.passed ≤ steps.new.passed) }
    ensures work { OverOpened S.Store store.old movie.now
        (λ file tree. steps.new.passed ≤ steps.old.passed + walks_steps tree) }
    ensures turns { steps.new.looks ≤ steps.old.looks + movie_turns movie.now }
{
    let tracks = content.tracks();
    let mut plan = PlanWalks::begin(alloc, movie, store, content, steps)?;
    let mut longest: u32 = 0;
    while let Some(turn) = plan.schedule.turn(tracks, steps) {
        let walk = &mut plan.walks[turn.track];
        let next = &mut plan.nexts[turn.track];
        let reduction = content.reduction(turn.track);
        let portion = Portion {
            end: turn.end,
            reduction,
        };
        let count = count_turn(walk, portion, next, movie, store, steps)?;
        let sample = *next;
        longest = longest.max(count);
        plan.schedule
            .pass(&turn, count, sample, tracks, &mut plan.due)?;
    }
    Ok(longest)
}

/// The bytes of all pieces of what is left of a movie.
#[tactic(auto, using(crate::proofs::InfosLeft::tracks_many))]
pub(crate) fn pieces_len<S: Store, L: Ledger, M: Ledger>(
    alloc: Global,
    movie: &Movie,
    store: &mut S,
    content: &Content,
    steps: &mut Steps<L, M>,
) -> Result<u64, Refusal>
    requires content { IsContentOf movie.now content.now }
    ensures store { OnlyReads S.Store store.old store.new result }
    ensures length { OverContent S.Store store.old movie.now content.now
        (λ file tree. IfOk result (ArePiecesLong (content_left content.now file tree))) }
    ensures unchanged { OverContent S.Store store.old movie.now content.now
        (λ file tree. IsUnchanged result) }
    ensures refusal { Refused S.Store store.old store.new result RefusesPlan }
    ensures grows { OnOk result (steps.old.passed ≤ steps.new.passed) }
    ensures work { OverOpened S.Store store.old movie.now
        (λ file tree. steps.new.passed ≤ steps.old.passed + walks_steps tree) }
    ensures turns { steps.new.looks ≤ steps.old.looks + movie_turns movie.now }
{
    let infos = movie.tracks();
    let tracks = content.tracks();
    let mut plan = PlanWalks::begin(alloc, movie, store, content, steps)?;
    let mut len = 0;
    while let Some(turn) = plan.schedule.turn(tracks, steps) {
        let walk = &mut plan.walks[turn.track];
        let next = &mut plan.nexts[turn.track];
        let reduction = content.reduction(turn.track);
        let portion = Portion {
            end: turn.end,
            reduction,
        };
        let planned = plan_turn(walk, portion, next, movie, store, steps)?;
        let sample = *next;
        len = len_with(len, &planned, &infos[turn.track].keys);
        plan.schedule
            .pass(&turn, planned.count, sample, tracks, &mut plan.due)?;
    }
    Ok(len)
}
