//! The walks over all pieces of a movie, before the first turn.
use crate::due_tracks::DueTracks;
use crate::first_samples::{first_time, peek_each, walks_of};
use crate::schedule::Schedule;
use mp4_boxes::{Refusal, Steps};
use mp4_content::Content;
use mp4_present::{Movie, Walk};
use mp4_store::Store;
use mp4_tables::SampleAt;
use std::alloc::Global;
use std::sync::ledger::Ledger;

/// What a plan goes over all pieces by: for each track a walk and its next sample, when these are
/// due, and whose turn it is.
#[derive(Drop)]
pub(crate) struct PlanWalks {
    pub(crate) walks: Vec<Walk>,
    pub(crate) nexts: Vec<Option<SampleAt>>,
    pub(crate) due: DueTracks,
    pub(crate) schedule: Schedule,
}

impl PlanWalks {
    ghost use Rattle.std.specs.Prelude.{◌≡◌, ◌+◌, ◌≤◌, IfOk, MatchResult, OnOk};
    ghost use Rattle.mp4_present.specs.words.StoresRead.{IsUnchanged, OnlyReads, Refused};
    ghost use Rattle.mp4_present.specs.words.WalkSteps.{walks_steps};
    ghost use Rattle.mp4_content.specs.words.Opened.{OverOpened};
    ghost use Rattle.mp4_content.specs.words.Contents.{IsContentOf, OverContent};
    ghost use Rattle.mp4_plan.specs.words.PlanBegun.{AreAllToCome, BeginsPlan};
    ghost use Rattle.mp4_plan.specs.words.WriterSteps.{AllTakeOn};
    ghost use Rattle.mp4_content.specs.words.Opened.{RefusesPlan};

    /// Before the first turn of what is left of a movie.
    #[tactic(auto, using(crate::proofs::InfosLeft::tracks_many))]
    pub(crate) fn begin<S: Store, L: Ledger, M: Ledger>(
        alloc: Global,
        movie: &Movie,
        store: &mut S,
        content: &Content,
        steps: &mut Steps<L, M>,
    ) -> Result<PlanWalks, Refusal>
        requires content { IsContentOf movie.now content.now }
        ensures store { OnlyReads S.Store store.old store.new result }
        ensures begins { IfOk result (BeginsPlan content.now movie.now) }
        ensures first { OverContent S.Store store.old movie.now content.now
            (λ file tree. IfOk result (AreAllToCome content.now file tree movie.now)) }
        ensures unchanged { OverContent S.Store store.old movie.now content.now
            (λ file tree. IsUnchanged result) }
        ensures refusal { Refused S.Store store.old store.new result RefusesPlan }
        ensures grows { OnOk result (steps.old.passed ≤ steps.new.passed) }
        ensures work { OverOpened S.Store store.old movie.now (λ file tree. MatchResult result
            (λ p. AllTakeOn file tree (walks_steps tree) p.walks.items
            steps.old.passed steps.new.passed)
            (λ _. steps.new.passed ≤ steps.old.passed + walks_steps tree)) }
        ensures looks { steps.new.looks ≡ steps.old.looks }
    {
        let tracks = content.tracks();
        let mut walks = walks_of(alloc, movie)?;
        let mut nexts = vec![in alloc; None; tracks.len()]?;
        let mut due = DueTracks::new(alloc, tracks.len())?;
        let all = walks.as_mut_slice();
        peek_each(all, nexts.as_mut_slice(), content, movie, store, steps)?;
        let from = first_time(nexts.as_slice());
        let schedule = Schedule::new(tracks, from);
        schedule.begin(tracks, nexts.as_slice(), &mut due);
        Ok(PlanWalks {
            walks,
            nexts,
            due,
            schedule,
        })
    }
}
