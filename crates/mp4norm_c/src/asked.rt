//! What a caller asks for, in numbers.
ghost use Rattle.std.specs.Prelude.{◌≡◌, ◌<◌};
ghost use Rattle.mp4norm_c.specs.format.Exports.{asked_of, comparison_asked, first_asked, form_of, has_flag, listing_of, syntax_of, without_of};

use mp4_answers::{Asked, Form, LineForm, Lines, Listing, Syntax};
use mp4_content::{Without, Word};

/// What is asked of a comparison.
#[repr(C)]
#[derive(Clone, Copy)]
pub struct Comparison {
    /// Flags of what is left out of both files.
    pub words: u32,
    /// 0: the first difference alone; 1: all, and what counts them; 2: the same, where tracks are
    /// aligned.
    pub listing: u32,
    /// Of all differences at most so many are listed.
    pub limit: u32,
    /// 0: lines; 1: objects of JSON.
    pub syntax: u32,
}

/// A version.
#[repr(C)]
#[derive(Clone, Copy)]
pub struct Version {
    pub major: u32,
    pub minor: u32,
    pub patch: u32,
}

// Whether a flag is set.
fn has_flag(flags: u32, bit: u32) -> bool
    requires { bit < 32 }
    ensures { result ≡ has_flag flags bit }
{
    flags >> bit & 1 == 1
}

/// What these flags leave out; none where one is not known.
pub(crate) fn without_of(flags: u32) -> Option<Without>
    ensures { result ≡ without_of flags }
{
    if flags >> Word::ALL.len() != 0 {
        return None;
    }
    Some(Without::each(|word| has_flag(flags, word.number())))
}

/// The form of a list of samples; none where it is not known.
pub(crate) fn form_of(number: u32) -> Option<Form>
    ensures { result ≡ form_of number }
{
    match number {
        0 => Some(Form::Plain),
        1 => Some(Form::Named),
        2 => Some(Form::Json),
        _ => None,
    }
}

/// The syntax of a list of boxes; none where it is not known.
pub(crate) fn syntax_of(number: u32) -> Option<Syntax>
    ensures { result ≡ syntax_of number }
{
    match number {
        0 => Some(Syntax::Text),
        1 => Some(Syntax::Json),
        _ => None,
    }
}

// How it is told of two files that differ; none where that is not known.
fn listing_of(number: u32, limit: u32, syntax: Option<Syntax>) -> Option<Listing>
    ensures { result ≡ listing_of number limit syntax }
{
    match (number, syntax) {
        (0, Some(syntax)) => Some(Listing::First(LineForm::of(syntax))),
        (1 | 2, Some(syntax)) => Some(Listing::All(Lines {
            limit,
            form: LineForm::of(syntax),
            aligned: number == 2,
        })),
        _ => None,
    }
}

// What is asked of a comparison; none where a part of it is not known.
fn asked_of(leaving: Option<Without>, listing: Option<Listing>) -> Option<Asked>
    ensures { result ≡ asked_of leaving listing }
{
    match (leaving, listing) {
        (Some(leaving), Some(listing)) => Some(Asked {
            first: None,
            second: None,
            leaving,
            listing,
        }),
        _ => None,
    }
}

/// What is asked of a comparison that is told of by the first difference, as a line; none where a
/// flag is not known.
pub(crate) fn first_asked(flags: u32) -> Option<Asked>
    ensures { result ≡ first_asked flags }
{
    asked_of(without_of(flags), Some(Listing::First(LineForm::Text)))
}

/// What these numbers ask of a comparison; none where one of them is not known.
pub(crate) fn comparison_asked(comparison: Comparison) -> Option<Asked>
    ensures { result ≡ comparison_asked comparison }
{
    let syntax = syntax_of(comparison.syntax);
    let listing = listing_of(comparison.listing, comparison.limit, syntax);
    asked_of(without_of(comparison.words), listing)
}
