//! The head of the normal form, and how long all of it is.
ghost use Rattle.std.specs.Prelude.{◌≡◌, ℕ, ◌+◌, ◌-◌, ◌<◌, ◌≤◌, min, List, length, IfOk, IfErr, OnOk};
ghost use Rattle.mp4_boxes.specs.declared.refusal.Refusal.TheVariants as refusals;
ghost use Rattle.mp4_content.specs.format.Remaining.{RemainsInLimits, remaining};
ghost use Rattle.mp4_content.specs.words.Measuring.{measuring_steps};
ghost use Rattle.mp4_content.specs.declared.without.Without.{Without};
ghost use Rattle.mp4_content.specs.words.Contents.{IsContentOver, content_left};
ghost use Rattle.mp4_content.specs.words.LeftTimes.{NamesLong};
ghost use Rattle.mp4_plan.specs.words.LeftRefusals.{RefusesLeft};
ghost use Rattle.mp4_present.specs.format.Denotes.{FileTree, presentation_of};
ghost use Rattle.mp4_present.specs.words.OpenedMovie.{IsOpenedAs};
ghost use Rattle.mp4_present.specs.words.StoresRead.{IsUnchanged, OnlyReads, Refused};
ghost use Rattle.mp4_present.specs.words.WalkSteps.{walks_steps};
ghost use Rattle.mp4_plan.specs.format.Normal.{normal};
ghost use Rattle.mp4_content.specs.words.Opened.{OverOpened};
ghost use Rattle.mp4_plan.specs.words.Turns.{movie_turns};
ghost use Rattle.mp4_plan.specs.words.Writers.{RefusesMemory, head_of_normal};
ghost use Rattle.mp4_content.specs.words.Opened.{RefusesPlan};
ghost use Rattle.mp4_plan.specs.words.PutPieces.{IsContentHead};

use crate::piece_totals::pieces_len;
use mp4_boxes::{Refusal, Steps};
use mp4_content::{Content, Without};
use mp4_head::{head_bytes, head_len};
use mp4_present::Movie;
use mp4_store::Store;
use std::alloc::Global;
use std::sync::ledger::Ledger;

/// The most bytes of `ftyp` and `moov`.
const MOST_HEAD: u128 = (1 << 30) + 24;

/// The bytes of `ftyp` and `moov` of what is left of a movie.
pub(crate) fn head_of(alloc: Global, movie: &Movie, content: &Content) -> Result<Vec<u8>, Refusal>
    ensures head { (file : List ℕ) (tree : FileTree) → IsOpenedAs file movie.now tree
        → IsContentOver file tree content.now
        → IfOk result (λ bytes. bytes.items ≡ head_of_normal (content_left content.now file tree)) }
    ensures named { IfOk result (λ bytes. IsContentHead movie.now content.now bytes.items) }
    ensures unchanged { (file : List ℕ) (tree : FileTree) → IsOpenedAs file movie.now tree
        → IfErr result (λ r. r ≡ refusals.StoreChanged → ⊥) }
    ensures refusal { IfErr result RefusesMemory }
{
    let read = movie.head(alloc)?;
    let own = content.payloads(alloc, &read)?;
    let head = content.head(alloc, read, &own)?;
    if head_len(&head) > MOST_HEAD {
        return Err(Refusal::StoreChanged);
    }
    Ok(head_bytes(alloc, &head, content.length())?)
}

/// The length of the normal form of what is left of a movie; a fault where a track is too long
/// then, or has an offset that doesn't fit.
pub fn reduced_len<S: Store, L: Ledger, M: Ledger>(
    alloc: Global,
    movie: &Movie,
    store: &mut S,
    leaving: Without,
    steps: &mut Steps<L, M>,
) -> Result<u64, Refusal>
    ensures store { OnlyReads S.Store store.old store.new result }
    ensures length { OverOpened S.Store store.old movie.now (λ file tree.
        IfOk result (λ len. len
        ≡ length (normal (remaining leaving (presentation_of file tree))))) }
    ensures in_limits { OverOpened S.Store store.old movie.now
        (λ file tree. OnOk result (RemainsInLimits leaving (presentation_of file tree))) }
    ensures fault { OverOpened S.Store store.old movie.now
        (λ file tree. IfErr result (NamesLong leaving file tree)) }
    ensures unchanged { OverOpened S.Store store.old movie.now (λ file tree. IsUnchanged result) }
    ensures refusal { Refused S.Store store.old store.new result (RefusesLeft leaving) }
    ensures grows { OnOk result (steps.old.passed ≤ steps.new.passed) }
    ensures work { OverOpened S.Store store.old movie.now
        (λ file tree. steps.new.passed
        ≤ steps.old.passed + (measuring_steps leaving tree + walks_steps tree)) }
    ensures turns { steps.new.looks ≤ steps.old.looks + movie_turns movie.now }
{
    let content = Content::of(alloc, movie, store, leaving, steps)?;
    let len = pieces_len(alloc, movie, store, &content, steps)?;
    let read = movie.head(alloc)?;
    let own = content.payloads(alloc, &read)?;
    let head = content.head(alloc, read, &own)?;
    Ok(len.saturating_add(head_len(&head).min(MOST_HEAD) as u64))
}

/// The length of the normal form of a movie.
pub fn normal_len<S: Store, L: Ledger, M: Ledger>(
    alloc: Global,
    movie: &Movie,
    store: &mut S,
    steps: &mut Steps<L, M>,
) -> Result<u64, Refusal>
    ensures store { OnlyReads S.Store store.old store.new result }
    ensures length { OverOpened S.Store store.old movie.now (λ file tree.
        IfOk result (λ len. len ≡ length (normal (presentation_of file tree)))) }
    ensures unchanged { OverOpened S.Store store.old movie.now (λ file tree. IsUnchanged result) }
    ensures refusal { Refused S.Store store.old store.new result RefusesPlan }
    ensures grows { OnOk result (steps.old.passed ≤ steps.new.passed) }
    ensures work { OverOpened S.Store store.old movie.now
        (λ file tree. steps.new.passed ≤ steps.old.passed + walks_steps tree) }
    ensures turns { steps.new.looks ≤ steps.old.looks + movie_turns movie.now }
{
    reduced_len(alloc, movie, store, Without::NOTHING, steps)
}
