//! How many bytes a job puts.
ghost use Rattle.std.specs.Prelude.{IfErr};
ghost use Rattle.mp4_answers.specs.declared.jobs.Job.TheVariants as jobs;
ghost use Rattle.mp4_answers.specs.format.Answers.{RefusesJob};
ghost use Rattle.mp4_answers.specs.format.FileTexts.{HasData};
ghost use Rattle.mp4_answers.specs.format.Headline.{HasNormalForm};
ghost use Rattle.mp4_answers.specs.format.Lengths.{AreLong, HasLength};
ghost use Rattle.mp4_answers.specs.format.ReducedHeadline.{HasReducedForm};
ghost use Rattle.mp4_answers.specs.format.Run.{look_of};
ghost use Rattle.mp4_present.specs.words.StoresRead.{OnlyReads, WhereRead};

use crate::commands::opening::open_told;
use crate::commands::tracks::track_with;
use crate::jobs::Job;
use crate::selection::Selection;
use mp4_boxes::{Refusal, Steps};
use mp4_plan::{normal_len, reduced_len};
use mp4_present::open_movie;
use mp4_store::Store;
use std::alloc::Global;
use std::sync::ledger::Ledger;

// How many bytes the samples have of the track with this ID.
fn data_len<S: Store, L: Ledger, M: Ledger>(
    alloc: Global,
    store: &mut S,
    id: u32,
    steps: &mut Steps<L, M>,
) -> Result<u64, Refusal>
    ensures store { OnlyReads S.Store store.old store.new result }
    ensures length { WhereRead S.Store store.old result (λ file. AreLong (HasData file id)) }
    ensures refusal { IfErr result
        (RefusesJob (jobs.Extract id) (look_of S.Store store.old store.new)) }
{
    let movie = open_movie(alloc, store, steps)?;
    let place = track_with(movie.tracks(), id)?;
    Ok(movie.tracks()[place].bytes)
}

// How many bytes the normal form of a file has.
fn form_len<S: Store, L: Ledger, M: Ledger>(
    alloc: Global,
    store: &mut S,
    steps: &mut Steps<L, M>,
) -> Result<u64, Refusal>
    ensures store { OnlyReads S.Store store.old store.new result }
    ensures length { WhereRead S.Store store.old result (λ file. AreLong (HasNormalForm file)) }
    ensures refusal { IfErr result
        (RefusesJob jobs.Normalise (look_of S.Store store.old store.new)) }
{
    let movie = open_movie(alloc, store, steps)?;
    normal_len(alloc, &movie, store, steps)
}

// How many bytes the normal form has of what is left of a file.
fn form_left_len<S: Store, L: Ledger, M: Ledger>(
    alloc: Global,
    store: &mut S,
    selection: Selection,
    steps: &mut Steps<L, M>,
) -> Result<u64, Refusal>
    ensures store { OnlyReads S.Store store.old store.new result }
    ensures length { WhereRead S.Store store.old result
        (λ file. AreLong (HasReducedForm selection file)) }
    ensures refusal { IfErr result
        (RefusesJob (jobs.Reduce selection) (look_of S.Store store.old store.new)) }
{
    let movie = open_told(alloc, store, selection, steps)?;
    let words = selection.leaving.when_told();
    reduced_len(alloc, &movie, store, words, steps)
}

/// How many bytes a job puts, of those that copy samples or boxes; 0 of the others, whose text is
/// as long as it gets. The file is opened and planned for it.
pub fn text_len<S: Store, L: Ledger, M: Ledger>(
    alloc: Global,
    job: Job,
    store: &mut S,
    steps: &mut Steps<L, M>,
) -> Result<u64, Refusal>
    ensures store { OnlyReads S.Store store.old store.new result }
    ensures length { WhereRead S.Store store.old result (HasLength job.entry) }
    ensures refusal { IfErr result
        (RefusesJob job.entry (look_of S.Store store.old store.new)) }
{
    match job {
        Job::Strip { .. } => Ok(store.len()),
        Job::Extract { track } => data_len(alloc, store, track, steps),
        Job::Normalise => form_len(alloc, store, steps),
        Job::Reduce { selection } => form_left_len(alloc, store, selection, steps),
        Job::Boxes { .. }
        | Job::Fields { .. }
        | Job::Show
        | Job::Samples { .. }
        | Job::Print { .. } => Ok(0),
    }
}
