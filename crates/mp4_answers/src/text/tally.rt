//! How many differences of which kind there are.
ghost use Rattle.std.specs.Prelude.{◌≡◌, ◌++◌, ◌&&◌, ◌==◌, true, IfOk, OnOk};
ghost use Rattle.mp4_answers.specs.format.LastLine.{all_kinds, count_of_kind, count_text, counts_text, enough_text, kind_name, kind_of_difference, kind_of_entries, last_line, leaving_text, total_end, total_front};

use crate::text::difference_lines::{end_line, say, say_counted};
use mp4_content::{Difference, Entries, Field, Subject, Without, Word};
use std::alloc::AllocError;

/// What a difference is of, in the order in which the kinds are told of.
#[derive(Clone, Copy)]
pub(crate) enum DifferenceKind {
    Times,
    Edits,
    Flags,
    Groups,
    Kept,
    Heads,
    Samples,
    Bytes,
}

/// What a kind is called.
pub(crate) fn kind_name(kind: DifferenceKind) -> &'static str
    ensures { result.now ≡ kind_name kind }
{
    match kind {
        DifferenceKind::Times => "times",
        DifferenceKind::Edits => "edits",
        DifferenceKind::Flags => "flags",
        DifferenceKind::Groups => "groups",
        DifferenceKind::Kept => "kept",
        DifferenceKind::Heads => "heads",
        DifferenceKind::Samples => "samples",
        DifferenceKind::Bytes => "bytes",
    }
}

// The kind of a difference of heads.
fn kind_of_entries(entries: Entries) -> DifferenceKind
    ensures { result ≡ kind_of_entries entries }
{
    match entries {
        Entries::Edits => DifferenceKind::Edits,
        Entries::Kept => DifferenceKind::Kept,
        Entries::GroupDescriptions => DifferenceKind::Groups,
        _ => DifferenceKind::Heads,
    }
}

/// The kind of a difference.
pub(crate) fn kind_of_difference(difference: &Difference) -> DifferenceKind
    ensures { result ≡ kind_of_difference difference.now }
{
    match (difference.field, difference.subject) {
        (Field::Creation | Field::Modification, _) => DifferenceKind::Times,
        (Field::MediaCreation | Field::MediaModification, _) => DifferenceKind::Times,
        (Field::Count(entries) | Field::Entry(entries, _, _), _) => kind_of_entries(entries),
        (Field::Group(_), _) => DifferenceKind::Groups,
        (Field::Byte(_, _), _) => DifferenceKind::Bytes,
        (Field::Start | Field::Samples, _) => DifferenceKind::Samples,
        (Field::Flags, Subject::Sample(_, _)) => DifferenceKind::Flags,
        (_, Subject::Sample(_, _)) => DifferenceKind::Samples,
        _ => DifferenceKind::Heads,
    }
}

/// How many of these differences are of a kind.
pub(crate) fn count_of_kind(kind: DifferenceKind, all: &[Difference]) -> u64
    ensures { result ≡ count_of_kind kind all.now }
{
    let mut count = 0u64;
    for difference in all {
        if kind_of_difference(difference) as u8 == kind as u8 {
            count += 1;
        }
    }
    count
}

// Adds a count of a kind, where it isn't 0, and says whether none is added yet.
#[tactic(auto, unfolding(crate::specs::format::LastLine::count_text))]
fn say_count(
    text: &mut Vec<u8>,
    kind: DifferenceKind,
    all: &[Difference],
    is_first: bool,
) -> Result<bool, AllocError>
    ensures text { OnOk result (text.new.items
        ≡ text.old.items ++ count_text is_first kind all.now) }
    ensures first { IfOk result (λ first. first ≡ is_first && (count_of_kind kind all.now == 0)) }
{
    let count = count_of_kind(kind, all);
    if count == 0 {
        return Ok(is_first);
    }
    say(text, if is_first { ": " } else { ", " })?;
    say(text, kind_name(kind))?;
    say_counted(text, " ", count, "")?;
    Ok(false)
}

// Adds the counts by kind.
fn say_counts(text: &mut Vec<u8>, all: &[Difference]) -> Result<(), AllocError>
    ensures { OnOk result (text.new.items ≡ text.old.items ++ counts_text true all_kinds all.now) }
{
    let is_first = say_count(text, DifferenceKind::Times, all, true)?;
    let is_first = say_count(text, DifferenceKind::Edits, all, is_first)?;
    let is_first = say_count(text, DifferenceKind::Flags, all, is_first)?;
    let is_first = say_count(text, DifferenceKind::Groups, all, is_first)?;
    let is_first = say_count(text, DifferenceKind::Kept, all, is_first)?;
    let is_first = say_count(text, DifferenceKind::Heads, all, is_first)?;
    let is_first = say_count(text, DifferenceKind::Samples, all, is_first)?;
    let _ = say_count(text, DifferenceKind::Bytes, all, is_first)?;
    Ok(())
}

/// Adds the words that leave these out, a space before them and commas between them.
pub(crate) fn say_words(text: &mut Vec<u8>, leaving: Without) -> Result<(), AllocError>
    ensures { OnOk result (text.new.items ≡ text.old.items ++ leaving_text leaving) }
{
    let mut is_first = true;
    let mut left = Word::ALL;
    while let Some((word, more)) = left.split_first() {
        if leaving.has(*word) {
            say(text, if is_first { " " } else { "," })?;
            say(text, word.name())?;
            is_first = false;
        }
        left = more;
    }
    Ok(())
}

// Adds with which words two files are the same, or that there are none.
fn say_enough(text: &mut Vec<u8>, enough: Option<Without>) -> Result<(), AllocError>
    ensures { OnOk result (text.new.items ≡ text.old.items ++ enough_text enough) }
{
    match enough {
        Some(leaving) => {
            say(text, "; the same --without")?;
            say_words(text, leaving)
        }
        None => say(text, "; no words of --without make them the same"),
    }
}

// What stands before the number of differences.
fn total_front(is_whole: bool) -> &'static str
    ensures { result.now ≡ total_front is_whole }
{
    if is_whole { "" } else { "at least " }
}

// And behind it.
fn total_end(count: usize) -> &'static str
    ensures { result.now ≡ total_end count }
{
    if count == 1 {
        " difference"
    } else {
        " differences"
    }
}

/// Adds the line that ends a list of all differences: how many there are, or whether there are
/// more, of which kinds, and what has to be left out for the files to be the same.
pub(crate) fn say_last(
    text: &mut Vec<u8>,
    all: &[Difference],
    is_whole: bool,
    enough: Option<Without>,
) -> Result<(), AllocError>
    ensures { OnOk result (text.new.items ≡ text.old.items ++ last_line is_whole all.now enough) }
{
    let count = all.len();
    say_counted(text, total_front(is_whole), count as u64, total_end(count))?;
    say_counts(text, all)?;
    say_enough(text, enough)?;
    end_line(text)
}
