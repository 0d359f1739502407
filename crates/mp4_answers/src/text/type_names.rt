//! Types as texts: their characters, or two hexadecimal digits a byte where some byte is no
//! printable character.
ghost use Rattle.std.specs.Prelude.{◌≡◌, ◌<◌, [], ◌∷◌, ◌++◌, nat_le, ◌&&◌, IfOk, OnOk, string_bytes};
ghost use Rattle.std.specs.List.{list_all};
ghost use Rattle.mp4_answers.specs.format.Texts.{hex_digits, type_text};

use crate::text::digits::hex_digit;
use std::alloc::{AllocError, Global};

/// Whether all bytes are printable characters.
pub fn is_text(kind: &[u8]) -> bool
    ensures { result ≡ list_all (λ b. nat_le 32 b && nat_le b 126) kind.now }
{
    kind.iter().all(|byte| 32 <= *byte && *byte <= 126)
}

/// Adds a character of ASCII.
pub(crate) fn push_character(text: &mut String, byte: u8) -> Result<(), AllocError>
    requires { byte < 128 }
    ensures { OnOk result (string_bytes text.new ≡ string_bytes text.old ++ byte ∷ []) }
{
    text.push(char::from(byte))
}

/// Adds a byte in two hexadecimal digits.
pub(crate) fn push_hex(text: &mut String, byte: u8) -> Result<(), AllocError>
    ensures { OnOk result (string_bytes text.new ≡ string_bytes text.old ++ hex_digits 2 byte) }
{
    push_character(text, hex_digit(byte / 16))?;
    push_character(text, hex_digit(byte % 16))
}

/// The type as a string.
pub(crate) fn type_string(alloc: Global, kind: &[u8]) -> Result<String, AllocError>
    ensures { IfOk result (λ text. string_bytes text ≡ type_text kind.now) }
{
    let mut text = String::new(alloc);
    if is_text(kind) {
        for byte in kind {
            push_character(&mut text, *byte)?;
        }
    } else {
        for byte in kind {
            push_hex(&mut text, *byte)?;
        }
    }
    Ok(text)
}
