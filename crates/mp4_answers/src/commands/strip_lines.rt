//! What is said of boxes that become free space.
ghost use Rattle.std.specs.Prelude.{◌≡◌};
ghost use Rattle.mp4_present.specs.words.StoresRead.{OnlyReads, RefusedOf, WhereRead};
ghost use Rattle.mp4_answers.specs.format.Losses.{asks_which, loss_refusal};
ghost use Rattle.mp4_answers.specs.format.Strips.{RefusesLook};
ghost use Rattle.mp4_answers.specs.words.FirstLosses.{FindsIf};

use crate::box_names::Name;
use crate::commands::freed_boxes::{FreedBoxes, FreedGroup, find_freed};
use crate::text::box_json::uuid_string;
use crate::text::line::Line;
use mp4_boxes::{Fault, FourCc, Kind, Refusal};
use mp4_store::Store;
use std::alloc::{AllocError, Global};

/// What is said where boxes are dropped without which encrypted samples can't be read.
const WARNING: &[u8] = b"strip: warning: without these boxes encrypted samples can't be read\n";

// Whether encrypted samples can't be read without boxes of this type.
fn is_of_encryption(kind: FourCc) -> bool {
    matches!(
        &kind.0,
        b"senc" | b"saiz" | b"saio" | b"sinf" | b"pssh" | b"tenc" | b"schm"
    )
}

// Whether such a type is named.
fn names_encryption(names: &[Name]) -> bool {
    names.iter().any(|name| match name {
        Name::Type { kind, .. } => is_of_encryption(*kind),
        Name::Uuid { .. } | Name::Foreign => false,
    })
}

// Whether it is to be looked which boxes become free space, and not only how many.
fn asks_which(names: &[Name]) -> bool
    ensures { result ≡ asks_which names.now }
{
    names.iter().any(|name| match name {
        Name::Type { kind, .. } => *kind == FourCc(*b"uuid"),
        Name::Uuid { .. } | Name::Foreign => true,
    })
}

// Adds the line that says how many boxes of a type, or of one UUID, were changed.
fn push_count(
    text: &mut Vec<u8>,
    alloc: Global,
    container: Option<FourCc>,
    kind: FourCc,
    uuid: Option<[u8; 16]>,
    count: u64,
) -> Result<(), AllocError> {
    let mut line = Line::new();
    line.push_bytes(b"strip: ");
    line.push_number(count);
    line.push(b' ');
    if let Some(container) = container {
        line.push_type(container);
        line.push(b'/');
    }
    line.push_type(kind);
    text.extend_from_slice(line.as_bytes())?;
    if let Some(uuid) = uuid {
        text.push(b':')?;
        text.extend_from_slice(uuid_string(alloc, &uuid)?.as_str().as_bytes())?;
    }
    text.push(b'\n')?;
    Ok(())
}

// Adds the container and the type of the boxes of a group, and of `uuid` which they are.
fn push_group(text: &mut Vec<u8>, alloc: Global, group: &FreedGroup) -> Result<(), AllocError> {
    let mut line = Line::new();
    line.push_type(group.container());
    line.push(b'/');
    line.push_type(group.kind());
    text.extend_from_slice(line.as_bytes())?;
    if let Some(uuid) = group.uuid {
        let digits = uuid_string(alloc, &uuid.to_be_bytes())?;
        text.push(b' ')?;
        text.extend_from_slice(digits.as_str().as_bytes())?;
    }
    Ok(())
}

/// The warnings of what is lost with boxes that the profile refuses.
pub fn losses(alloc: Global, found: &FreedBoxes) -> Result<Vec<u8>, AllocError> {
    let mut text = Vec::new(alloc);
    for group in &found.groups {
        if let Some((_, loss)) = group.loss {
            text.extend_from_slice(b"strip: warning: without ")?;
            push_group(&mut text, alloc, group)?;
            text.push(b' ')?;
            text.extend_from_slice(loss.text())?;
            text.push(b'\n')?;
        }
    }
    Ok(text)
}

/// What is told of the boxes that become free space, where more than their numbers is.
pub fn find_told<S: Store>(
    alloc: Global,
    store: &mut S,
    names: &[Name],
) -> Result<FreedBoxes, Refusal>
    ensures store { OnlyReads S.Store store.old store.new result }
    ensures first { WhereRead S.Store store.old result (λ file found.
        FindsIf (asks_which names.now) names.now file found.first_loss) }
    ensures refusal { RefusedOf S.Store store.old store.new result (RefusesLook names.now) }
{
    if asks_which(names) {
        find_freed(alloc, store, names)
    } else {
        Ok(FreedBoxes::none(alloc))
    }
}

/// All warnings of a copy: of what is lost with boxes that became free space.
pub fn warnings(alloc: Global, names: &[Name], found: &FreedBoxes) -> Result<Vec<u8>, AllocError> {
    let mut text = Vec::new(alloc);
    if found.has_encryption || names_encryption(names) {
        text.extend_from_slice(WARNING)?;
    }
    text.extend_from_slice(losses(alloc, found)?.as_slice())?;
    Ok(text)
}

/// The lines that say how many boxes were changed: of each name, and of those that the profile
/// refuses of each container, type and UUID.
pub fn count_lines(
    alloc: Global,
    names: &[Name],
    counts: &[u64],
    found: &FreedBoxes,
) -> Result<Vec<u8>, AllocError> {
    let mut text = Vec::new(alloc);
    for (name, count) in names.iter().zip(counts.iter()) {
        match *name {
            Name::Type { container, kind } => {
                push_count(&mut text, alloc, container, kind, None, *count)?;
            }
            Name::Uuid { container, uuid } => {
                let kind = FourCc(*b"uuid");
                push_count(&mut text, alloc, container, kind, Some(uuid), *count)?;
            }
            Name::Foreign => {}
        }
    }
    for group in &found.groups {
        let mut line = Line::new();
        line.push_bytes(b"strip: ");
        line.push_number(group.count);
        line.push(b' ');
        text.extend_from_slice(line.as_bytes())?;
        push_group(&mut text, alloc, group)?;
        text.push(b'\n')?;
    }
    Ok(text)
}

/// Why nothing is put: something is lost with a box that the profile refuses, and that isn't
/// allowed.
pub fn loss_refusal(found: &FreedBoxes, is_lossy: bool) -> Option<Refusal>
    ensures { result ≡ loss_refusal is_lossy found.now.first_loss }
{
    if is_lossy {
        return None;
    }
    let lost = found.first_loss?;
    let fault = Fault::new(Kind::BoxNotInProfile, lost.kind, lost.offset);
    Some(Refusal::Fault(fault))
}
