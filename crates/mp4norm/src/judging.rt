//! Many files, judged one after the other by whoever judges one.
ghost use Rattle.std.specs.Prelude.{◌≡◌, ◌+◌, ◌≤◌, length, IfErr, IfOk};
ghost use Rattle.mp4norm.specs.format.Judging.{has_another, has_none, one_if, tally_status, JudgesBoth, JudgesEach, SumsEach};
ghost use Rattle.mp4norm.specs.format.Lists.{ended_names};

use crate::running::{DIFFER, FoundSum, found_status};
use crate::shell::action::Input;
use crate::shell::lists::first_name;
use mp4_answers::digests::DIGEST;
use mp4_answers::text::sum_lines::SumOf;
use mp4_boxes::Refusal;

/// Who judges one file after the other, and puts what is found of each.
pub(crate) trait Judge {
    ghost use Rattle.std.specs.Prelude.{ℕ, List, Option, Result};
    ghost use Rattle.mp4_boxes.specs.declared.refusal.Refusal.{Refusal};
    ghost use Rattle.mp4norm.specs.declared.shell.action.Input.{Input};

    /// Between the two, this was found of what a word names.
    ghost finds_word: { Self → Self → Input → Result (Option (List ℕ)) Refusal → Type 0 };

    /// Between the two, this was found of the file of a name.
    ghost finds_name: { Self → Self → List ℕ → Result (Option (List ℕ)) Refusal → Type 0 };

    /// It has failed for this.
    ghost refuses: { Self → Refusal → Type 0 };

    /// Judges what a word names. It fails where nothing can be put.
    fn judge_word(&mut self, input: Input) -> Result<FoundSum, Refusal>
        ensures found { IfOk result (finds_word self.old self.new input.entry) }
        ensures refusal { IfErr result (refuses self.new) };

    /// Judges the file of a name. It fails where nothing can be put.
    fn judge_name(&mut self, name: &[u8]) -> Result<FoundSum, Refusal>
        ensures found { IfOk result (finds_name self.old self.new name.now) }
        ensures refusal { IfErr result (refuses self.new) };
}

// Judges what each word names, and gives the greatest status.
fn judge_words<J: Judge>(words: &[Input], judge: &mut J) -> Result<u8, Refusal>
    ensures each { IfOk result (JudgesEach J.finds_word words.entry.now judge.old judge.new) }
    ensures refusal { IfErr result (J.refuses judge.new) }
{
    let mut worst = 0;
    for input in words {
        let found = judge.judge_word(*input)?;
        worst = found_status(&found).max(worst);
    }
    Ok(worst)
}

// Judges the files of a list, whose names are ended by zero bytes, and gives the greatest status.
fn judge_names<J: Judge>(list: &[u8], judge: &mut J) -> Result<u8, Refusal>
    ensures each { IfOk result
        (JudgesEach J.finds_name (ended_names list.now) judge.old judge.new) }
    ensures refusal { IfErr result (J.refuses judge.new) }
{
    let mut worst = 0;
    let mut left = list;
    while !left.is_empty() {
        let (name, rest) = first_name(left);
        let found = judge.judge_name(name)?;
        worst = found_status(&found).max(worst);
        left = rest;
    }
    Ok(worst)
}

/// Judges what each word names, and then the files of a list, each once, and gives the greatest
/// status.
pub(crate) fn judge_all<J: Judge>(
    words: &[Input],
    list: &[u8],
    judge: &mut J,
) -> Result<u8, Refusal>
    ensures each { IfOk result (JudgesBoth J.finds_word words.entry.now J.finds_name
        (ended_names list.now) judge.old judge.new) }
    ensures refusal { IfErr result (J.refuses judge.new) }
{
    let first = judge_words(words, judge)?;
    let second = judge_names(list, judge)?;
    Ok(first.max(second))
}

/// A file of a list of sums: its name, its sum, and of what that is: of which track, where that is
/// one alone.
#[derive(Drop)]
pub(crate) struct ListedFile {
    pub(crate) name: Vec<u8>,
    pub(crate) digest: [u8; DIGEST],
    pub(crate) what: SumOf,
    pub(crate) track: Option<u32>,
}

/// Who sums one file after the other, and puts what is to be said of each.
pub(crate) trait SumJudge {
    ghost use Rattle.std.specs.Prelude.{ℕ, List, Option, Result};
    ghost use Rattle.mp4_boxes.specs.declared.refusal.Refusal.{Refusal};
    ghost use Rattle.mp4norm.specs.declared.judging.ListedFile.{ListedFile};

    /// Between the two, this was found of a file.
    ghost finds: { Self → Self → ListedFile → Result (Option (List ℕ)) Refusal → Type 0 };

    /// It has failed for this.
    ghost refuses: { Self → Refusal → Type 0 };

    /// Sums a file. It fails where nothing can be put.
    fn judge_sum(&mut self, file: &ListedFile) -> Result<FoundSum, Refusal>
        ensures found { IfOk result (finds self.old self.new file.now) }
        ensures refusal { IfErr result (refuses self.new) };
}

/// Whether a file has another sum than this one.
pub(crate) fn has_another(digest: &[u8; DIGEST], found: &FoundSum) -> bool
    ensures { result ≡ has_another digest.now found.now }
{
    match found {
        Ok(Some(own)) if *own == *digest => false,
        Ok(_) => true,
        Err(_) => false,
    }
}

/// How files came out that have a sum in a list: the greatest status of those that have none of
/// their own, how many these are, and how many have another one.
#[derive(Clone, Copy)]
pub(crate) struct Tally {
    pub(crate) worst: u8,
    pub(crate) without: usize,
    pub(crate) other: usize,
}

/// The status of files that came out so.
pub(crate) fn tally_status(tally: Tally) -> u8
    ensures { result ≡ tally_status tally }
{
    if tally.worst > 0 {
        tally.worst
    } else if tally.other > 0 {
        DIFFER
    } else {
        0
    }
}

// How many files have no sum, and how many another one than this: of one file.
fn counted(digest: &[u8; DIGEST], found: &FoundSum) -> (usize, usize)
    ensures none { result.0 ≡ one_if (has_none found.now) }
    ensures another { result.1 ≡ one_if (has_another digest.now found.now) }
    ensures one { result.0 + result.1 ≤ 1 }
{
    if found.is_err() {
        (1, 0)
    } else if has_another(digest, found) {
        (0, 1)
    } else {
        (0, 0)
    }
}

/// Sums the files, each once, and says how they came out.
pub(crate) fn check_listed<J: SumJudge>(
    files: &[ListedFile],
    judge: &mut J,
) -> Result<Tally, Refusal>
    ensures each { IfOk result (SumsEach J.finds files.now judge.old judge.new) }
    ensures all { IfOk result (λ t. t.other + t.without ≤ length files.now) }
    ensures refusal { IfErr result (J.refuses judge.new) }
{
    let (mut worst, mut without, mut other) = (0, 0, 0);
    for file in files {
        let found = judge.judge_sum(file)?;
        worst = found_status(&found).max(worst);
        let (none, another) = counted(&file.digest, &found);
        without += none;
        other += another;
    }
    Ok(Tally {
        worst,
        without,
        other,
    })
}
