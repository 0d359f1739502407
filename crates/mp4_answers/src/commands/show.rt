//! A movie and its tracks, shown.
ghost use Rattle.std.specs.Prelude.{string_bytes, OnOk};
ghost use Rattle.mp4_present.specs.words.Opening.{RefusesOpen};
ghost use Rattle.mp4_answers.specs.format.Steps.{TakesEach, WalksWithin, FindsWithin, OnJudged};
ghost use Rattle.mp4_answers.specs.format.Answers.{Shown};
ghost use Rattle.mp4_answers.specs.format.FileTexts.{ShowsLine};
ghost use Rattle.mp4_answers.specs.format.Run.{KeepsFile, run_of};
ghost use Rattle.mp4_present.specs.words.StoresRead.{WhereHonest};
ghost use Rattle.mp4_answers.specs.words.StoreAndSink.{Reads};

use crate::commands::perform::perform_blank;
use crate::jobs::Job;
use crate::text::movie_json::show_text;
use mp4_boxes::{Refusal, Steps};
use mp4_present::open_movie;
use mp4_store::{Sink, Store};
use std::alloc::Global;
use std::marker::Brand;
use std::sync::ledger::{Blank, Ledger};

// The line of a movie, with its line feed.
fn movie_line<S: Store, L: Ledger, M: Ledger>(
    alloc: Global,
    store: &mut S,
    steps: &mut Steps<L, M>,
) -> Result<String, Refusal>
    ensures answer { Reads S.Store store.old store.new result
        (λ file text. ShowsLine file (string_bytes text)) RefusesOpen }
    ensures work { WhereHonest S.Store store.old
        (λ file. WalksWithin file steps.old.passed steps.new.passed) }
    ensures least { OnOk result (WhereHonest S.Store store.old (λ file.
        TakesEach file steps.old.passed steps.new.passed)) }
    ensures looks { WhereHonest S.Store store.old
        (λ file. FindsWithin file steps.old.looks steps.new.looks) }
{
    let movie = open_movie(alloc, store, steps)?;
    let head = movie.head(alloc)?;
    let mut text = show_text(alloc, &head, movie.mehd(), movie.tracks())?;
    text.push('\n')?;
    Ok(text)
}

/// As `show`, with the steps that it takes counted: at most 8 for each sample and each row
/// of the file, however many tracks it has.
pub fn show_counted<S: Store, K: Sink, L: Ledger, M: Ledger>(
    alloc: Global,
    store: &mut S,
    sink: &mut K,
    steps: &mut Steps<L, M>,
) -> Result<(), Refusal>
    ensures store { KeepsFile S.Store store.old store.new }
    ensures answer { Shown (run_of S.Store store.old store.new K.Sink sink.old sink.new) result }
    ensures work { WhereHonest S.Store store.old
        (λ file. WalksWithin file steps.old.passed steps.new.passed) }
    ensures least { OnJudged result (WhereHonest S.Store store.old (λ file.
        TakesEach file steps.old.passed steps.new.passed)) }
    ensures looks { WhereHonest S.Store store.old
        (λ file. FindsWithin file steps.old.looks steps.new.looks) }
{
    let text = movie_line(alloc, store, steps)?;
    sink.put(text.as_str().as_bytes())?;
    Ok(())
}

/// Puts one line of compact JSON: what the movie and its tracks say of themselves, in numbers. The
/// file is judged first.
pub fn show<S: Store, K: Sink>(alloc: Global, store: &mut S, sink: &mut K) -> Result<(), Refusal>
    ensures store { KeepsFile S.Store store.old store.new }
    ensures answer { Shown (run_of S.Store store.old store.new K.Sink sink.old sink.new) result }
{
    let job = Job::Show;
    perform_blank::<S, K, Brand, Brand>(alloc, job, store, sink, Blank::new(1), Blank::new(1))
}
