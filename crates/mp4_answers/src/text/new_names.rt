//! Names that a list of sums has not.
ghost use Rattle.std.specs.Prelude.{◌≡◌, ℕ, List, [], ◌∷◌, ◌++◌, IfOk, OnOk};
ghost use Rattle.mp4_answers.specs.format.SumLines.{name_line, new_text};
ghost use Rattle.mp4_answers.specs.words.NameSets.{bytes_of, HasNames};

use crate::text::sum_lines::push_name;
use std::alloc::{AllocError, Global};
use std::collections::BTreeSet;

// The names as a set.
fn names_in(alloc: Global, names: &[Vec<u8>]) -> Result<BTreeSet<&[u8]>, AllocError>
    ensures { IfOk result (HasNames (bytes_of names.now)) }
{
    let mut set = BTreeSet::new(alloc);
    for name in names {
        set.insert(name.as_slice())?;
    }
    Ok(set)
}

// Adds a name in a line of its own, ended by this byte; where that is a line feed, escaped.
fn push_name_line(text: &mut Vec<u8>, name: &[u8], end: u8) -> Result<(), AllocError>
    ensures { OnOk result (text.new.items ≡ text.old.items ++ name_line end name.now) }
{
    if end == 0 {
        text.extend_from_slice(name)?;
    } else {
        push_name(text, name)?;
    }
    text.push(end)?;
    Ok(())
}

// Adds the line of a name, unless it is among these.
fn push_new(
    text: &mut Vec<u8>,
    set: &BTreeSet<&[u8]>,
    name: &[u8],
    end: u8,
) -> Result<(), AllocError>
    ensures { (listed : List (List ℕ)) → HasNames listed set.now → OnOk result
        (text.new.items ≡ text.old.items ++ new_text listed end (name.now ∷ [])) }
{
    if set.contains(name) {
        return Ok(());
    }
    push_name_line(text, name, end)
}

/// The lines of those names that a list has not, in their order, each ended by this byte; where
/// that is a line feed, with the name escaped. All names are as a list has them.
pub fn new_lines(
    alloc: Global,
    listed: &[Vec<u8>],
    given: &[Vec<u8>],
    end: u8,
) -> Result<Vec<u8>, AllocError>
    ensures { IfOk result
        (λ text. text.items ≡ new_text (bytes_of listed.now) end (bytes_of given.now)) }
{
    let set = names_in(alloc, listed)?;
    let mut text = Vec::new(alloc);
    for name in given {
        push_new(&mut text, &set, name.as_slice(), end)?;
    }
    Ok(text)
}
