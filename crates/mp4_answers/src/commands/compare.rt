//! Two files, compared by what they say.
ghost use Rattle.std.specs.Prelude.{◌≡◌, ◌&&◌, not, ◌*◌, ◌<◌, ◌≤◌, [], ◌∷◌, ◌++◌, length, option_map, slice_get, take, Some, true, false, IfOk, IfErr, IfSome, OnOk};
ghost use Rattle.mp4_answers.specs.declared.commands.compare.Listing.TheVariants.{All};
ghost use Rattle.mp4_answers.specs.format.Steps.{TakesEachOfBoth};
ghost use Rattle.mp4_answers.specs.format.CompareHeadline.{AreToldAligned, IsVerdict, IsTold, aligned_walks, difference_in, listing_walks, opened_walks, PutsSuch, ComparesWithin, FindsBothWithin, trying_walks};
ghost use Rattle.mp4_answers.specs.format.DifferenceObject.{last_object};
ghost use Rattle.mp4_answers.specs.words.Compares.{as_asked, side_of, says_nothing, is_silent, if_time, lines_with, AddsAligned, AddsLine, AddsLast, IsCounted, AreSome, IsEnough, IsTried, IsShrunk, IsSameWith, IsFoundOf, IsSaid, ListsFront, PutsAnswer, PutsFound, PutsSame, WalksTimes, RefusesAnswer};
ghost use Rattle.mp4_present.specs.format.Denotes.{presentation_of};
ghost use Rattle.mp4_present.specs.words.StoresRead.{IsUnchanged, WhereBothHonest};
ghost use Rattle.mp4_answers.specs.words.StoreAndSink.{NoPutFails};
ghost use Rattle.mp4_content.specs.format.DecodeTimes.{decode_times};
ghost use Rattle.mp4_content.specs.format.Words.{has};
ghost use Rattle.mp4_content.specs.words.Compared.{OfListed, WhereOpenedBoth};
ghost use Rattle.mp4_answers.specs.words.TwoFiles.{ComparesBoth, OfBoth, OfDenoted, ReadsBoth};

use crate::commands::guesses::guess;
use crate::commands::opening::open_told;
use crate::jobs::Syntax;
use crate::selection::Selection;
use crate::text::aligned_lines::{say_alignment, say_alignment_object};
use crate::text::difference_json::{say_difference_object, say_last_object};
use crate::text::difference_lines::say_difference;
use crate::text::tally::say_last;
use crate::text::timed_lines::say_timed;
use crate::without_words::{TAKEN, as_asked, everything, less_word};
use mp4_boxes::{Refusal, Steps};
use mp4_content::{
    Alignment, DecodeTime, Difference, Differences, Found, Movies, Without, Word, align, compare,
    compare_listed,
};
use mp4_store::{Sink, Store};
use std::alloc::{AllocError, Global};
use std::sync::ledger::Ledger;

/// How a difference is told of: as a line; as one with when the sample is decoded that it is of; or
/// as an object of JSON, which has that too. Decode times are those of the first file, whatever is
/// left out.
#[derive(Clone, Copy)]
pub enum LineForm {
    Text,
    Timed,
    Json,
}

impl LineForm {
    ghost use Rattle.std.specs.Prelude.{◌≡◌};
    ghost use Rattle.mp4_answers.specs.format.CompareHeadline.{line_form};

    /// That of a syntax, where it isn't asked for decode times.
    pub fn of(syntax: Syntax) -> LineForm
        ensures { result ≡ line_form syntax }
    {
        match syntax {
            Syntax::Text => LineForm::Text,
            Syntax::Json => LineForm::Json,
        }
    }
}

/// How many differences are listed at most, in which form, and whether tracks whose samples are not
/// the same are aligned: it is told first how they lie beside each other, and samples are listed
/// only of tracks that have as many.
#[derive(Clone, Copy)]
pub struct Lines {
    pub limit: u32,
    pub form: LineForm,
    pub aligned: bool,
}

/// How a comparison is told of: by the first difference alone, or by so many and their counts.
#[derive(Clone, Copy)]
pub enum Listing {
    First(LineForm),
    All(Lines),
}

/// What is asked of a comparison: which track of each file is looked at, where that is one alone,
/// by its ID (8.3.2); what is left out of both; and how it is told of.
#[derive(Clone, Copy)]
pub struct Asked {
    pub first: Option<u32>,
    pub second: Option<u32>,
    pub leaving: Without,
    pub listing: Listing,
}

/// Which file a comparison fails for.
#[derive(Clone, Copy)]
pub enum Side {
    First,
    Second,
    Both,
    Neither,
}

/// Why a comparison has no answer, and for which file.
#[derive(Clone, Copy)]
pub struct Failure {
    pub side: Side,
    pub refusal: Refusal,
}

// Two opened files that are compared, what is asked to be left out of both, and what goes of the
// two movies for that.
#[derive(Drop)]
struct Compared {
    movies: Movies,
    asked: Without,
    given: Without,
}

// Words without which two files are the same, and the one that it is to be tried to take away.
#[derive(Clone, Copy)]
struct Trial {
    leaving: Without,
    word: Word,
}

// Words without which two files are the same, and all that it is to be tried to take away.
#[derive(Clone, Copy)]
struct Shrinking<'a> {
    leaving: Without,
    words: &'a [Word],
}

// A failure for a file.
pub(crate) fn failed(side: Side, refusal: Refusal) -> Failure
    ensures side { result.side ≡ side }
    ensures refusal { result.refusal ≡ refusal }
{
    Failure { side, refusal }
}

// A failure while both files are read, or none is.
fn failed_together(refusal: Refusal) -> Failure
    ensures side { result.side ≡ side_of refusal }
    ensures refusal { result.refusal ≡ refusal }
{
    let side = match refusal {
        Refusal::StoreFailed | Refusal::StoreChanged => Side::Both,
        _ => Side::Neither,
    };
    failed(side, refusal)
}

/// The most differences that are counted. One more is held, to know whether there are more.
const MOST: usize = 1 << 20;

// Differences, as many as there is room for, and the decode times that came along with them.
#[derive(Drop)]
struct Listed {
    all: Vec<Difference>,
    times: Vec<Option<DecodeTime>>,
}

impl Listed {
    ghost use Rattle.std.specs.Prelude.{◌≡◌, nat_eq, length, IfOk, []};
    ghost use Rattle.mp4_answers.specs.words.Compares.{has_room};

    // None yet.
    fn new(alloc: Global) -> Result<Listed, AllocError>
        ensures all { IfOk result (λ listed. listed.all.items ≡ []) }
        ensures times { IfOk result (λ listed. listed.times.items ≡ []) }
    {
        let mut all = Vec::new(alloc);
        all.reserve(1)?;
        let mut times = Vec::new(alloc);
        times.reserve(1)?;
        Ok(Listed { all, times })
    }

    // Whether none was taken.
    fn is_empty(&self) -> bool
        ensures { result ≡ nat_eq (length self.now.all.items) 0 }
    {
        self.all.len() == 0
    }

    // Whether there is room for one more.
    fn has_room(&self) -> bool
        ensures { result ≡ has_room self.now.all self.now.times }
    {
        self.all.len() < self.all.capacity() && self.times.len() < self.times.capacity()
    }
}

impl Differences for Listed {
    ghost use Rattle.mp4_answers.specs.words.Compares.{has_room};

    ghost taken = { λ s. s.all.items };

    ghost times = { λ s. s.times.items };

    ghost is_open = { λ s. has_room s.all s.times };

    fn take(&mut self, difference: Difference, time: Option<DecodeTime>) -> bool {
        let _ = self.all.push(difference);
        let _ = self.times.push(time);
        if self.all.len() <= MOST {
            let _ = self.all.reserve(1);
            let _ = self.times.reserve(1);
        }
        self.has_room()
    }
}

// Adds a difference in this form.
fn say_in(
    text: &mut Vec<u8>,
    difference: Difference,
    time: Option<DecodeTime>,
    form: LineForm,
) -> Result<(), AllocError>
    ensures line { OnOk result (AddsLine form time difference text.old.items text.new.items) }
    ensures some { OnOk result (0 < length text.new.items) }
{
    match form {
        LineForm::Text => say_difference(text, difference),
        LineForm::Timed => say_timed(text, difference, time),
        LineForm::Json => say_difference_object(text, difference, time),
    }
}

// Adds how two tracks lie beside each other, in this form.
fn say_beside(text: &mut Vec<u8>, alignment: Alignment, form: LineForm) -> Result<(), AllocError>
    ensures { OnOk result (AddsAligned form (alignment ∷ []) text.old.items text.new.items) }
{
    match form {
        LineForm::Json => say_alignment_object(text, alignment),
        _ => say_alignment(text, alignment),
    }
}

// Adds how tracks lie beside each other, in this form.
fn say_aligned(text: &mut Vec<u8>, aligned: &[Alignment], form: LineForm) -> Result<(), AllocError>
    ensures { OnOk result (AddsAligned form aligned.now text.old.items text.new.items) }
{
    for alignment in aligned {
        say_beside(text, *alignment, form)?;
    }
    Ok(())
}

// Adds the line that ends a list, in this form.
fn say_last_in(
    text: &mut Vec<u8>,
    all: &[Difference],
    is_whole: bool,
    enough: Option<Without>,
    form: LineForm,
) -> Result<(), AllocError>
    ensures line { OnOk result
        (AddsLast form is_whole all.now enough text.old.items text.new.items) }
    ensures some { OnOk result (0 < length text.new.items) }
{
    match form {
        LineForm::Json => say_last_object(text, all, is_whole, enough),
        _ => say_last(text, all, is_whole, enough),
    }
}

// The text of a first difference.
fn first_text(alloc: Global, found: Found, form: LineForm) -> Result<Vec<u8>, AllocError>
    ensures line { IfOk result
        (λ text. text.items ≡ difference_in form found.time found.difference) }
    ensures some { IfOk result (λ text. 0 < length text.items) }
{
    let mut text = Vec::new(alloc);
    say_in(&mut text, found.difference, found.time, form)?;
    Ok(text)
}

// The first of some differences, so many or all.
fn first_of(all: &[Difference], most: usize) -> &[Difference]
    ensures { result.now ≡ take most all.now }
{
    &all[..all.len().min(most)]
}

// Differences, and the decode times that came along with them.
#[derive(Clone, Copy)]
struct Timed<'a> {
    all: &'a [Difference],
    times: &'a [Option<DecodeTime>],
}

// The decode time at a place; none behind the last.
fn time_at(times: &[Option<DecodeTime>], place: usize) -> Option<DecodeTime>
    ensures { result ≡ if_time (slice_get times.now place) }
{
    if place < times.len() {
        times[place]
    } else {
        None
    }
}

// Adds the first of some differences, so many or all.
fn say_first(
    text: &mut Vec<u8>,
    timed: Timed,
    most: usize,
    form: LineForm,
) -> Result<(), AllocError>
    ensures { OnOk result (text.new.items ≡ text.old.items
        ++ lines_with form timed.entry.times.now (take most timed.entry.all.now)) }
{
    let first = first_of(timed.all, most);
    for k in 0..first.len() {
        say_in(text, first[k], time_at(timed.times, k), form)?;
    }
    Ok(())
}

// The text of how tracks lie beside each other, of the first of some differences, and of the counts
// of all.
fn listed_text(
    alloc: Global,
    aligned: &[Alignment],
    timed: Timed,
    lines: Lines,
    is_whole: bool,
    enough: Option<Without>,
) -> Result<Vec<u8>, AllocError>
    ensures list { IfOk result (λ text. IsCounted lines aligned.now timed.entry.times.now
        timed.entry.all.now is_whole enough text.items) }
    ensures some { IfOk result (λ text. 0 < length text.items) }
{
    let mut text = Vec::new(alloc);
    say_aligned(&mut text, aligned, lines.form)?;
    say_first(&mut text, timed, lines.limit as usize, lines.form)?;
    say_last_in(&mut text, timed.all, is_whole, enough, lines.form)?;
    Ok(text)
}

// What there is to say of two files that are the same without this; nothing but where all
// differences are listed as JSON.
fn same_text(
    alloc: Global,
    leaving: Without,
    listing: Listing,
) -> Result<Option<Vec<u8>>, AllocError>
    ensures some { IfOk result
        (λ said. IfSome said (λ text. text.items ≡ last_object true [] (Some leaving))) }
    ensures silent { IfOk result (λ said. says_nothing said ≡ is_silent listing) }
{
    match listing {
        Listing::All(
            Lines {
                form: LineForm::Json,
                ..
            },
        ) => {
            let mut text = Vec::new(alloc);
            say_last_object(&mut text, &[], true, Some(leaving))?;
            Ok(Some(text))
        }
        _ => Ok(None),
    }
}

// What differs between two opened files: all, or more than is counted.
fn all_of<S: Store, T: Store, L: Ledger, M: Ledger>(
    alloc: Global,
    movies: &Movies,
    left: &mut S,
    right: &mut T,
    leaving: Without,
    aligned: bool,
    steps: &mut Steps<L, M>,
) -> Result<Listed, Refusal>
    ensures stores { ReadsBoth S.Store left.old left.new T.Store right.old right.new result }
    ensures all { IfOk result
        (λ found. OfListed S.Store left.old movies.now.left T.Store right.old movies.now.right
        aligned leaving (ListsFront found.all.items)) }
    ensures timed { IfOk result (λ found. WhereOpenedBoth S.Store left.old movies.now.left
        T.Store right.old movies.now.right
        (λ tree other. found.times.items
        ≡ decode_times (presentation_of (S.file left.old) tree) found.all.items)) }
    ensures opened { WhereOpenedBoth S.Store left.old movies.now.left
        T.Store right.old movies.now.right
        (λ tree other. IsUnchanged result
        × WalksTimes (listing_walks leaving) tree other steps.old.passed steps.new.passed) }
    ensures grows { OnOk result (steps.old.passed ≤ steps.new.passed) }
    ensures looks { steps.new.looks ≡ steps.old.looks }
{
    let mut listed = Listed::new(alloc)?;
    if !listed.has_room() {
        return Err(Refusal::Memory);
    }
    let seen = &mut listed;
    let is_whole = compare_listed(alloc, movies, left, right, leaving, aligned, seen, steps)?;
    if !is_whole && listed.all.len() <= MOST {
        return Err(Refusal::Memory);
    }
    Ok(listed)
}

// How the tracks of two opened files lie beside each other; none if that isn't asked for.
fn alignments_of<S: Store, T: Store, L: Ledger, M: Ledger>(
    alloc: Global,
    files: &Compared,
    left: &mut S,
    right: &mut T,
    aligned: bool,
    steps: &mut Steps<L, M>,
) -> Result<Vec<Alignment>, Refusal>
    ensures stores { ReadsBoth S.Store left.old left.new T.Store right.old right.new result }
    ensures found { OfDenoted S.Store left.old files.now.movies.left
        T.Store right.old files.now.movies.right
        (λ p q. IfOk result (λ found. AreToldAligned aligned files.now.given p q found.items)) }
    ensures opened { WhereOpenedBoth S.Store left.old files.now.movies.left
        T.Store right.old files.now.movies.right
        (λ tree other. IsUnchanged result
        × WalksTimes (aligned_walks files.now.given aligned) tree other
        steps.old.passed steps.new.passed) }
    ensures grows { OnOk result (steps.old.passed ≤ steps.new.passed) }
    ensures looks { steps.new.looks ≡ steps.old.looks }
{
    if !aligned {
        return Ok(Vec::new(alloc));
    }
    align(alloc, &files.movies, left, right, files.given, steps)
}

// Whether two opened files are the same without this.
fn is_enough<S: Store, T: Store, L: Ledger, M: Ledger>(
    alloc: Global,
    movies: &Movies,
    left: &mut S,
    right: &mut T,
    leaving: Without,
    steps: &mut Steps<L, M>,
) -> Result<bool, Refusal>
    ensures stores { ReadsBoth S.Store left.old left.new T.Store right.old right.new result }
    ensures enough { IfOk result
        (λ same. OfBoth S.Store left.old movies.now.left T.Store right.old movies.now.right
        (λ differ. IsSameWith leaving differ same)) }
    ensures opened { WhereOpenedBoth S.Store left.old movies.now.left
        T.Store right.old movies.now.right
        (λ tree other. IsUnchanged result
        × WalksTimes 2 tree other steps.old.passed steps.new.passed) }
    ensures grows { OnOk result (steps.old.passed ≤ steps.new.passed) }
    ensures looks { steps.new.looks ≡ steps.old.looks }
{
    match compare(alloc, movies, left, right, leaving, steps)? {
        None => Ok(true),
        Some(_) => Ok(false),
    }
}

// Some words without which two opened files are the same, those that were given among them: those
// that the differences ask for, or all.
fn first_enough<S: Store, T: Store, L: Ledger, M: Ledger>(
    alloc: Global,
    files: &Compared,
    left: &mut S,
    right: &mut T,
    all: &[Difference],
    steps: &mut Steps<L, M>,
) -> Result<Option<Without>, Refusal>
    ensures stores { ReadsBoth S.Store left.old left.new T.Store right.old right.new result }
    ensures enough { IfOk result
        (λ first. OfBoth S.Store left.old files.now.movies.left
        T.Store right.old files.now.movies.right
        (λ differ. AreSome files.now.given differ first)) }
    ensures opened { WhereOpenedBoth S.Store left.old files.now.movies.left
        T.Store right.old files.now.movies.right
        (λ tree other. IsUnchanged result
        × WalksTimes 4 tree other steps.old.passed steps.new.passed) }
    ensures grows { OnOk result (steps.old.passed ≤ steps.new.passed) }
    ensures looks { steps.new.looks ≡ steps.old.looks }
{
    let guessed = guess(files.given, all, files.movies.left.tracks());
    if is_enough(alloc, &files.movies, left, right, guessed, steps)? {
        return Ok(Some(guessed));
    }
    let whole = everything();
    if is_enough(alloc, &files.movies, left, right, whole, steps)? {
        return Ok(Some(whole));
    }
    Ok(None)
}

// Whether a word is among the others, and was not given.
fn can_take(given: Without, trial: Trial) -> bool
    ensures { result ≡ has trial.leaving trial.word && not (has given trial.word) }
{
    trial.leaving.has(trial.word) && !given.has(trial.word)
}

// Takes a word away from those without which two opened files are the same, if it was not given and
// the files are the same without the others too.
fn take_word<S: Store, T: Store, L: Ledger, M: Ledger>(
    alloc: Global,
    files: &Compared,
    left: &mut S,
    right: &mut T,
    trial: Trial,
    steps: &mut Steps<L, M>,
) -> Result<Without, Refusal>
    ensures stores { ReadsBoth S.Store left.old left.new T.Store right.old right.new result }
    ensures tried { IfOk result
        (λ next. OfBoth S.Store left.old files.now.movies.left
        T.Store right.old files.now.movies.right
        (λ differ. IsTried trial.word files.now.given differ trial.leaving next)) }
    ensures opened { WhereOpenedBoth S.Store left.old files.now.movies.left
        T.Store right.old files.now.movies.right
        (λ tree other. IsUnchanged result
        × WalksTimes 2 tree other steps.old.passed steps.new.passed) }
    ensures grows { OnOk result (steps.old.passed ≤ steps.new.passed) }
    ensures looks { steps.new.looks ≡ steps.old.looks }
{
    if !can_take(files.given, trial) {
        return Ok(trial.leaving);
    }
    let less = less_word(files.given, trial.leaving, trial.word);
    if is_enough(alloc, &files.movies, left, right, less, steps)? {
        return Ok(less);
    }
    Ok(trial.leaving)
}

// Takes away one after the other all of these words that can be.
fn shrink<S: Store, T: Store, L: Ledger, M: Ledger>(
    alloc: Global,
    files: &Compared,
    left: &mut S,
    right: &mut T,
    from: Shrinking,
    steps: &mut Steps<L, M>,
) -> Result<Without, Refusal>
    ensures stores { ReadsBoth S.Store left.old left.new T.Store right.old right.new result }
    ensures shrunk { IfOk result
        (λ least. OfBoth S.Store left.old files.now.movies.left
        T.Store right.old files.now.movies.right
        (λ differ. IsShrunk from.entry.words.now files.now.given differ from.entry.leaving least)) }
    ensures opened { WhereOpenedBoth S.Store left.old files.now.movies.left
        T.Store right.old files.now.movies.right
        (λ tree other. IsUnchanged result
        × WalksTimes (2 * length from.entry.words.now) tree other
        steps.old.passed steps.new.passed) }
    ensures grows { OnOk result (steps.old.passed ≤ steps.new.passed) }
    ensures looks { steps.new.looks ≡ steps.old.looks }
{
    let Some((word, more)) = from.words.split_first() else {
        return Ok(from.leaving);
    };
    let trial = Trial {
        leaving: from.leaving,
        word: *word,
    };
    let next = take_word(alloc, files, left, right, trial, steps)?;
    let from = Shrinking {
        leaving: next,
        words: more,
    };
    shrink(alloc, files, left, right, from, steps)
}

// The words without which two opened files are the same, those that were given among them, and none
// that can be taken away. No words where the files differ even without everything.
fn enough_for<S: Store, T: Store, L: Ledger, M: Ledger>(
    alloc: Global,
    files: &Compared,
    left: &mut S,
    right: &mut T,
    all: &[Difference],
    steps: &mut Steps<L, M>,
) -> Result<Option<Without>, Refusal>
    ensures stores { ReadsBoth S.Store left.old left.new T.Store right.old right.new result }
    ensures enough { IfOk result
        (λ enough. OfBoth S.Store left.old files.now.movies.left
        T.Store right.old files.now.movies.right
        (λ differ. IsEnough files.now.given differ enough)) }
    ensures opened { WhereOpenedBoth S.Store left.old files.now.movies.left
        T.Store right.old files.now.movies.right
        (λ tree other. IsUnchanged result
        × WalksTimes trying_walks tree other steps.old.passed steps.new.passed) }
    ensures grows { OnOk result (steps.old.passed ≤ steps.new.passed) }
    ensures looks { steps.new.looks ≡ steps.old.looks }
{
    let Some(first) = first_enough(alloc, files, left, right, all, steps)? else {
        return Ok(None);
    };
    let from = Shrinking {
        leaving: first,
        words: TAKEN,
    };
    let least = shrink(alloc, files, left, right, from, steps)?;
    Ok(Some(least))
}

// Words that are enough, as they are asked for.
fn enough_asked(asked: Without, words: Option<Without>) -> Option<Without>
    ensures { result ≡ option_map (as_asked asked) words }
{
    match words {
        Some(enough) => Some(as_asked(asked, enough)),
        None => None,
    }
}

// Compares two opened files, and gives the text of all differences; none where there are none.
fn all_text<S: Store, T: Store, L: Ledger, M: Ledger>(
    alloc: Global,
    files: &Compared,
    left: &mut S,
    right: &mut T,
    lines: Lines,
    steps: &mut Steps<L, M>,
) -> Result<Option<Vec<u8>>, Refusal>
    ensures stores { ReadsBoth S.Store left.old left.new T.Store right.old right.new result }
    ensures some { IfOk result (λ found. IfSome found (λ text. 0 < length text.items)) }
    ensures said { IfOk result
        (λ text. OfBoth S.Store left.old files.now.movies.left
        T.Store right.old files.now.movies.right
        (λ differ. IsSaid text (differ files.now.given))) }
    ensures told { IfOk result
        (λ text. OfDenoted S.Store left.old files.now.movies.left
        T.Store right.old files.now.movies.right
        (λ p q. IsFoundOf (λ bytes. bytes.items) (All lines) files.now.asked files.now.given p q
        text)) }
    ensures opened { WhereOpenedBoth S.Store left.old files.now.movies.left
        T.Store right.old files.now.movies.right
        (λ tree other. IsUnchanged result
        × WalksTimes (opened_walks files.now.given (All lines)) tree other
        steps.old.passed steps.new.passed) }
    ensures grows { OnOk result (steps.old.passed ≤ steps.new.passed) }
    ensures looks { steps.new.looks ≡ steps.old.looks }
{
    let (movies, leaving) = (&files.movies, files.given);
    let listed = all_of(alloc, movies, left, right, leaving, lines.aligned, steps)?;
    if listed.is_empty() {
        return Ok(None);
    }
    let is_whole = listed.all.len() <= MOST;
    let all = first_of(listed.all.as_slice(), MOST);
    let found = alignments_of(alloc, files, left, right, lines.aligned, steps)?;
    let words = enough_for(alloc, files, left, right, all, steps)?;
    let enough = enough_asked(files.asked, words);
    let timed = Timed {
        all,
        times: listed.times.as_slice(),
    };
    Ok(Some(listed_text(alloc, found.as_slice(), timed, lines, is_whole, enough)?))
}

// Compares two opened files, and gives what there is to say; nothing where they are the same.
fn text_of<S: Store, T: Store, L: Ledger, M: Ledger>(
    alloc: Global,
    files: &Compared,
    left: &mut S,
    right: &mut T,
    listing: Listing,
    steps: &mut Steps<L, M>,
) -> Result<Option<Vec<u8>>, Refusal>
    ensures stores { ReadsBoth S.Store left.old left.new T.Store right.old right.new result }
    ensures some { IfOk result (λ found. IfSome found (λ text. 0 < length text.items)) }
    ensures said { IfOk result
        (λ text. OfBoth S.Store left.old files.now.movies.left
        T.Store right.old files.now.movies.right
        (λ differ. IsSaid text (differ files.now.given))) }
    ensures told { IfOk result
        (λ text. OfDenoted S.Store left.old files.now.movies.left
        T.Store right.old files.now.movies.right
        (λ p q. IsFoundOf (λ bytes. bytes.items) listing files.now.asked files.now.given p q
        text)) }
    ensures opened { WhereOpenedBoth S.Store left.old files.now.movies.left
        T.Store right.old files.now.movies.right
        (λ tree other. IsUnchanged result
        × WalksTimes (opened_walks files.now.given listing) tree other
        steps.old.passed steps.new.passed) }
    ensures grows { OnOk result (steps.old.passed ≤ steps.new.passed) }
    ensures looks { steps.new.looks ≡ steps.old.looks }
{
    let (movies, leaving) = (&files.movies, files.given);
    match listing {
        Listing::First(form) => match compare(alloc, movies, left, right, leaving, steps)? {
            None => Ok(None),
            Some(found) => Ok(Some(first_text(alloc, found, form)?)),
        },
        Listing::All(lines) => all_text(alloc, files, left, right, lines, steps),
    }
}

// Puts what there is to say of two files that are the same without this.
fn put_same<K: Sink>(
    alloc: Global,
    leaving: Without,
    listing: Listing,
    sink: &mut K,
) -> Result<(), Refusal>
    ensures puts { NoPutFails K.Sink sink.old sink.new result }
    ensures put { OnOk result
        (PutsSame leaving (is_silent listing) (K.takes sink.old sink.new)) }
    ensures refusal { IfErr result (RefusesAnswer (K.takes sink.old sink.new)
        (K.put_failures sink.old) (K.put_failures sink.new)) }
{
    if let Some(said) = same_text(alloc, leaving, listing)? {
        sink.put(said.as_slice())?;
    }
    Ok(())
}

// Puts what there is to say: where two files differ, or that they are the same.
fn put_found<K: Sink>(
    alloc: Global,
    found: Option<Vec<u8>>,
    leaving: Without,
    listing: Listing,
    sink: &mut K,
) -> Result<bool, Refusal>
    requires { IfSome found (λ text. 0 < length text.items) }
    ensures puts { NoPutFails K.Sink sink.old sink.new result }
    ensures is { IfOk result (λ same. same ≡ says_nothing found) }
    ensures all { OnOk result
        (PutsFound (λ bytes. bytes.items) found (K.takes sink.old sink.new)) }
    ensures put { IfOk result
        (PutsAnswer leaving (is_silent listing) (K.takes sink.old sink.new)) }
    ensures refusal { IfErr result (RefusesAnswer (K.takes sink.old sink.new)
        (K.put_failures sink.old) (K.put_failures sink.new)) }
{
    let Some(text) = found else {
        put_same(alloc, leaving, listing, sink)?;
        return Ok(true);
    };
    sink.put(text.as_slice())?;
    Ok(false)
}

/// Compares two files by what they say, without what is left out, puts where they differ, and says
/// whether they are the same. Both are judged before anything is put.
pub fn compare_files<S: Store, T: Store, K: Sink, L: Ledger, M: Ledger>(
    alloc: Global,
    left: &mut S,
    right: &mut T,
    asked: Asked,
    sink: &mut K,
    steps: &mut Steps<L, M>,
) -> Result<bool, Failure>
    ensures answer { ComparesBoth S.Store left.old left.new T.Store right.old right.new
        K.Sink sink.old sink.new asked result }
    ensures verdict { IfOk result (λ same. WhereBothHonest S.Store left.old T.Store right.old
        (λ file other. IsVerdict asked file other same)) }
    ensures told { IfOk result (λ same. same ≡ false
        → WhereBothHonest S.Store left.old T.Store right.old
        (λ file other.
        PutsSuch (K.takes sink.old sink.new) (IsTold asked file other))) }
    ensures work { WhereBothHonest S.Store left.old T.Store right.old
        (λ file other. ComparesWithin asked.leaving asked.listing file other
        steps.old.passed steps.new.passed) }
    ensures least { OnOk result (WhereBothHonest S.Store left.old T.Store right.old
        (λ file other. TakesEachOfBoth file other steps.old.passed steps.new.passed)) }
    ensures looks { WhereBothHonest S.Store left.old T.Store right.old
        (λ file other. FindsBothWithin file other steps.old.looks steps.new.looks) }
{
    let Asked {
        leaving,
        listing,
        ..
    } = asked;
    let shown = Selection {
        track: asked.first,
        leaving,
    };
    let first = match open_told(alloc, left, shown, steps) {
        Ok(first) => first,
        Err(refusal) => return Err(failed(Side::First, refusal)),
    };
    let shown = Selection {
        track: asked.second,
        leaving,
    };
    let second = match open_told(alloc, right, shown, steps) {
        Ok(second) => second,
        Err(refusal) => return Err(failed(Side::Second, refusal)),
    };
    let files = Compared {
        movies: Movies {
            left: first,
            right: second,
        },
        asked: leaving,
        given: leaving.when_told(),
    };
    let found = match text_of(alloc, &files, left, right, listing, steps) {
        Ok(found) => found,
        Err(refusal) => return Err(failed_together(refusal)),
    };
    match put_found(alloc, found, leaving, listing, sink) {
        Ok(same) => Ok(same),
        Err(refusal) => Err(failed_together(refusal)),
    }
}
