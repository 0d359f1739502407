//! Texts as strings of JSON (RFC 8259, 7).
ghost use Rattle.std.specs.Prelude.{◌≡◌, ◌++◌, OnOk};
ghost use Rattle.mp4_answers.specs.format.DifferenceObject.{escaped};

use crate::text::digits::hex_digit;
use crate::text::plain_names::push_plain;
use std::alloc::{AllocError, Global};

/// Adds text of printable characters as it stands within a string of JSON: quotation marks and
/// backslashes get a backslash before them.
pub(crate) fn push_printable(text: &mut Vec<u8>, printable: &[u8]) -> Result<(), AllocError>
    ensures { OnOk result (text.new.items ≡ text.old.items ++ escaped printable.now) }
{
    for byte in printable {
        if matches!(*byte, b'"' | b'\\') {
            text.push(b'\\')?;
        }
        text.push(*byte)?;
    }
    Ok(())
}

// Adds a byte as `\u` and four hexadecimal digits, the first two given.
fn push_unit(text: &mut Vec<u8>, front: &[u8], byte: u8) -> Result<(), AllocError> {
    text.extend_from_slice(b"\\u")?;
    text.extend_from_slice(front)?;
    text.push(hex_digit(byte >> 4))?;
    text.push(hex_digit(byte & 15))?;
    Ok(())
}

// Adds text, its control characters escaped, of which each is below U+0100.
fn push_text(text: &mut Vec<u8>, valid: &str) -> Result<(), AllocError> {
    for character in valid.chars() {
        let mut room = [0; 4];
        let bytes = character.encode_utf8(&mut room).as_bytes();
        match bytes.last() {
            Some(last) if character.is_control() => push_unit(text, b"00", *last)?,
            _ => push_printable(text, bytes)?,
        }
    }
    Ok(())
}

/// A name as a string of JSON, with its quotation marks. A byte that is no UTF-8 is the lone
/// surrogate `\udc80` to `\udcff`, as Python's `os.fsdecode` reads it, so that no two names are
/// one. The bytes of the name are those of a word, or of a list of names.
pub fn name_json(alloc: Global, name: &[u8]) -> Result<Vec<u8>, AllocError> {
    let mut plain = Vec::new(alloc);
    push_plain(&mut plain, name)?;
    let mut text = Vec::new(alloc);
    text.push(b'"')?;
    for chunk in plain.as_slice().utf8_chunks() {
        push_text(&mut text, chunk.valid())?;
        for byte in chunk.invalid() {
            push_unit(&mut text, b"dc", *byte)?;
        }
    }
    text.push(b'"')?;
    Ok(text)
}
