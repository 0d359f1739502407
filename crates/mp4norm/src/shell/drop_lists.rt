//! Lists of types of boxes, as the words behind `--drop` give them.
ghost use Rattle.std.specs.Prelude.{◌<◌, length, IfOk, IfSome};

use mp4_answers::box_names::{Name, is_holder};
use mp4_answers::text::cutting::{byte_of, cut};
use mp4_answers::text::type_names::is_text;
use mp4_boxes::FourCc;
use std::alloc::{AllocError, Global};

// The type that a word spells: four printable characters, or eight hexadecimal digits.
fn type_of(word: &[u8]) -> Option<FourCc> {
    if word.len() == 4 && is_text(word) {
        return Some(FourCc([word[0], word[1], word[2], word[3]]));
    }
    if word.len() != 8 {
        return None;
    }
    Some(FourCc([
        byte_of(word[0], word[1])?,
        byte_of(word[2], word[3])?,
        byte_of(word[4], word[5])?,
        byte_of(word[6], word[7])?,
    ]))
}

// The 16 bytes that 32 hexadecimal digits spell, in groups of 8, 4, 4, 4 and 12 that are apart by
// hyphens.
fn uuid_of(word: &[u8]) -> Option<[u8; 16]> {
    let mut uuid = [0; 16];
    let mut left = word;
    for at in 0..16 {
        if matches!(at, 4 | 6 | 8 | 10) {
            left = left.strip_prefix(b"-")?;
        }
        let [high, low, rest @ ..] = left else {
            return None;
        };
        uuid[at] = byte_of(*high, *low)?;
        left = rest;
    }
    left.is_empty().then_some(uuid)
}

// The container and the type, or the UUID behind `uuid:`, that a word of a list names.
fn name_of(word: &[u8]) -> Option<Name> {
    let (front, rest) = cut(word, b'/');
    let (container, named) = match rest {
        None => (None, front),
        Some(rest) => (Some(type_of(front)?), rest),
    };
    if container.is_some_and(|container| !is_holder(container)) {
        return None;
    }
    if let Some(digits) = named.strip_prefix(b"uuid:") {
        let uuid = uuid_of(digits)?;
        return Some(Name::Uuid { container, uuid });
    }
    let kind = type_of(named)?;
    if kind == FourCc(*b"free") {
        return None;
    }
    Some(Name::Type { container, kind })
}

/// The names in a list of words that are apart by commas; none where a word names no type, free
/// space, or a container that is none.
pub(crate) fn names_of(alloc: Global, list: &str) -> Result<Option<Vec<Name>>, AllocError>
    ensures { IfOk result (λ found. IfSome found (λ names. 0 < length names.items)) }
{
    let mut names = Vec::new(alloc);
    let mut left = list.as_bytes();
    loop {
        let (word, rest) = cut(left, b',');
        let Some(name) = name_of(word) else {
            return Ok(None);
        };
        names.push(name)?;
        match rest {
            Some(rest) => left = rest,
            None => return Ok(Some(names)),
        }
    }
}
