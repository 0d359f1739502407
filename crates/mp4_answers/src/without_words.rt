//! The words behind `--without`: what each leaves out, lists of them, and named sets.
ghost use Rattle.std.specs.Prelude.{◌≡◌, option_map};
ghost use Rattle.mp4_content.specs.format.ReducedLaws.{both};
ghost use Rattle.mp4_content.specs.format.Words.{all_words, has};
ghost use Rattle.mp4_answers.specs.format.WordLists.{is_listed, leaving_of, named_in, only_these, set_named, word_meant};
ghost use Rattle.mp4_answers.specs.words.Compares.{as_asked};
ghost use Rattle.mp4_answers.specs.words.SingleWords.{everything, less_word};

use crate::text::cutting::cut;
use mp4_content::{Without, Word};

/// The words in the order in which they are taken away where they aren't needed: `timing` before
/// `ends`, `origins` and `timescales`, which leave out less.
pub(crate) const TAKEN: &[Word] = &[
    Word::Times,
    Word::Edits,
    Word::Flags,
    Word::Groups,
    Word::Metadata,
    Word::Bitrates,
    Word::Labels,
    Word::Timing,
    Word::Ends,
    Word::Origins,
    Word::Roles,
    Word::Ids,
    Word::Timescales,
    Word::LeadIns,
];

// The words of `packaging-1`: what changes when a file is packed another way. They never change, so
// that sums which were made with them stay right: other words are `packaging-2`.
const PACKAGING_1: &[Word] = &[
    Word::Times,
    Word::Edits,
    Word::Flags,
    Word::Groups,
    Word::Metadata,
    Word::Bitrates,
    Word::Ends,
    Word::Origins,
];

// The words of `media-1`: all that there were with it. They never change either, whatever words
// come.
const MEDIA_1: &[Word] = &[
    Word::Times,
    Word::Edits,
    Word::Flags,
    Word::Groups,
    Word::Metadata,
    Word::Bitrates,
    Word::Ends,
    Word::Origins,
    Word::Labels,
    Word::Timing,
];

// The words of `packaging-2`: what changes when a file is packed another way, but for how long each
// track waits. They never change.
const PACKAGING_2: &[Word] = &[
    Word::Times,
    Word::Flags,
    Word::Groups,
    Word::Metadata,
    Word::Bitrates,
    Word::Ends,
    Word::Roles,
    Word::Ids,
    Word::Timescales,
    Word::LeadIns,
];

// The words of `media-2`: these, and names for people. They never change.
const MEDIA_2: &[Word] = &[
    Word::Times,
    Word::Flags,
    Word::Groups,
    Word::Metadata,
    Word::Bitrates,
    Word::Ends,
    Word::Labels,
    Word::Roles,
    Word::Ids,
    Word::Timescales,
    Word::LeadIns,
];

// Whether a word is among some.
fn is_listed(words: &[Word], word: Word) -> bool
    ensures { result ≡ is_listed words.now word }
{
    words.iter().any(|one| one.number() == word.number())
}

/// All that can be left out.
pub(crate) fn everything() -> Without
    ensures { result ≡ everything }
{
    Without::each(|_| true)
}

// What these words leave out.
fn only_these(words: &[Word]) -> Without
    ensures { result ≡ only_these words.now }
{
    Without::each(|word| is_listed(words, word))
}

/// What is left out without one of the words, unless that one was given.
pub(crate) fn less_word(given: Without, leaving: Without, taken: Word) -> Without
    ensures { result ≡ less_word given leaving taken }
{
    let stays = |word: Word| given.has(word) || word.number() != taken.number();
    Without::each(|word| leaving.has(word) && stays(word))
}

/// What is left out where both are.
pub fn leaving_both(one: Without, other: Without) -> Without
    ensures { result ≡ both one other }
{
    Without::each(|word| one.has(word) || other.has(word))
}

// Whether a word is among these as they are asked for.
fn is_asked(asked: Without, leaving: Without, word: Word) -> bool
    ensures { result ≡ has (as_asked asked leaving) word }
{
    let leads = asked.has(Word::LeadIns);
    match word {
        Word::LeadIns => leads,
        Word::Origins if leads => asked.has(Word::Origins),
        other => leaving.has(other),
    }
}

/// The words that leave the same as these of movies that may be told how long their tracks wait,
/// as they are asked for: origins go with how tracks begin, and need not be said.
pub(crate) fn as_asked(asked: Without, leaving: Without) -> Without
    ensures { result ≡ as_asked asked leaving }
{
    Without::each(|word| is_asked(asked, leaving, word))
}

// The word of this name; none where no word has it.
fn word_named(name: &[u8]) -> Option<Word>
    ensures { result ≡ named_in all_words name.now }
{
    let mut left = Word::ALL;
    while let Some((word, more)) = left.split_first() {
        if *name == *word.name().as_bytes() {
            return Some(*word);
        }
        left = more;
    }
    None
}

// The words of the set of this name; none where no set has it.
fn set_named(name: &[u8]) -> Option<&'static [Word]>
    ensures { option_map (λ words. words.now) result ≡ set_named name.now }
{
    if name == b"packaging-1".as_slice() {
        return Some(PACKAGING_1);
    }
    if name == b"media-1".as_slice() {
        return Some(MEDIA_1);
    }
    if name == b"packaging-2".as_slice() {
        return Some(PACKAGING_2);
    }
    if name == b"media-2".as_slice() {
        return Some(MEDIA_2);
    }
    None
}

// What a word leaves out, or a named set of words; none where it is neither.
fn word_meant(name: &[u8]) -> Option<Without>
    ensures { result ≡ word_meant name.now }
{
    match word_named(name) {
        Some(word) => Some(only_these(&[word])),
        None => Some(only_these(set_named(name)?)),
    }
}

/// What a list of words and named sets that are apart by commas leaves out; none where one is not
/// known.
pub fn leaving_of(list: &str) -> Option<Without>
    ensures { result ≡ leaving_of list.now }
{
    let mut leaving = Without::NOTHING;
    let mut left = list.as_bytes();
    loop {
        let (word, rest) = cut(left, b',');
        leaving = leaving_both(leaving, word_meant(word)?);
        match rest {
            Some(rest) => left = rest,
            None => return Some(leaving),
        }
    }
}
