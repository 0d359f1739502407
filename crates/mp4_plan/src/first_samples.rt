//! The walks over all tracks of a movie, and the first sample of each.
ghost use Rattle.std.specs.Prelude.{◌≡◌, ◌-◌, ◌<◌, List, length, Some, IfOk, IfErr, OnOk};
ghost use Rattle.mp4_boxes.specs.declared.refusal.Refusal.TheVariants as refusals;
ghost use Rattle.mp4_tables.specs.declared.sample.SampleAt.{SampleAt};
ghost use Rattle.mp4_present.specs.words.StoresRead.{IsUnchanged, OnlyReads, Refused};
ghost use Rattle.mp4_plan.specs.words.WriterSteps.{OnlyPasses};
ghost use Rattle.mp4_plan.specs.words.WriterWalks.{AllComeLess, AllStart, HaveRooms, StepsOfAll, StepsToWrite, WhereAllCome};
ghost use Rattle.mp4_plan.specs.words.MadeWriters.{AreWalksStill};
ghost use Rattle.mp4_present.specs.declared.walking.Walk.{Walk};
ghost use Rattle.mp4_present.specs.words.Movies.{RefusesLoad};
ghost use Rattle.mp4_plan.specs.words.Writers.{RefusesMemory, AreMarked, AreWalksOf, first_dts, firsts};

use crate::track_pieces::next_marked;
use mp4_boxes::{Refusal, Steps};
use mp4_content::Content;
use mp4_present::{Movie, Walk};
use mp4_store::Store;
use mp4_tables::SampleAt;
use std::alloc::Global;
use std::sync::ledger::Ledger;

/// A walk over each track.
pub(crate) fn walks_of(alloc: Global, movie: &Movie) -> Result<Vec<Walk>, Refusal>
    ensures walks { IfOk result (λ walks. HaveRooms movie.now walks.items) }
    ensures start { IfOk result (λ walks. AllStart movie.now walks.items) }
    ensures memory { IfErr result (λ r. r ≡ refusals.Memory) }
    ensures refusal { IfErr result RefusesMemory }
{
    let mut walks = Vec::with_capacity(alloc, movie.tracks().len())?;
    for track in 0..movie.tracks().len() {
        walks.push(movie.walk(alloc, track)?)?;
    }
    Ok(walks)
}

/// Notes what is left of the next sample of each walk.
pub(crate) fn peek_each<S: Store, L: Ledger, M: Ledger>(
    walks: &mut [Walk],
    nexts: &mut [Option<SampleAt>],
    content: &Content,
    movie: &Movie,
    store: &mut S,
    steps: &mut Steps<L, M>,
) -> Result<(), Refusal>
    requires walks { AreWalksOf movie.now walks.old }
    requires many { (length nexts.old ≡ length walks.old)
        × (length content.now.of_tracks.items ≡ length walks.old) }
    ensures walks { AreWalksStill movie.now walks.old walks.new result }
    ensures store { OnlyReads S.Store store.old store.new result }
    ensures shown { WhereAllCome S.Store store.old movie.now content.now walks.old
        (λ file tree lefts. OnOk result ((nexts.new ≡ firsts lefts)
        × AllComeLess content.now file tree movie.now walks.new lefts)) }
    ensures marked { (lefts : List (List SampleAt)) → AreMarked walks.old lefts
        → OnOk result (AreMarked walks.new lefts) }
    ensures unchanged { WhereAllCome S.Store store.old movie.now content.now walks.old
        (λ file tree lefts. IsUnchanged result) }
    ensures refusal { Refused S.Store store.old store.new result RefusesLoad }
    ensures work { StepsOfAll S.Store store.old movie.now walks.old walks.new result
        steps.old.passed steps.new.passed
        × StepsToWrite S.Store store.old movie.now walks.old walks.new result
        steps.old.passed steps.new.passed }
    ensures steps { OnlyPasses steps.old.passed steps.new.passed steps.old.looks
        steps.new.looks result }
{
    for k in 0..walks.len() {
        let reduction = content.reduction(k);
        nexts[k] = next_marked(&mut walks[k], reduction, movie, store, steps)?;
    }
    Ok(())
}

/// When the first track begins, 0 where it has no sample.
pub(crate) fn first_time(nexts: &[Option<SampleAt>]) -> u64
    ensures { (lefts : List (List SampleAt)) → nexts.now ≡ firsts lefts → result ≡ first_dts lefts }
{
    match nexts.first() {
        Some(Some(first)) => first.dts,
        _ => 0,
    }
}
