//! One line of text, in a fixed array.
ghost use Rattle.std.specs.Prelude.{◌≡◌, ℕ, ◌+◌, ◌<◌, ◌≤◌, [], ◌∷◌, ◌++◌, length, decimal};
ghost use Rattle.mp4_answers.specs.format.Texts.{hex_digits, type_text};

use crate::text::digits::{hex_digit, write_digits};
use crate::text::type_names::is_text;
use mp4_boxes::FourCc;
use std::marker::Model;

/// At most 64 bytes of text. A clause sees the text.
#[derive(Drop)]
pub struct Line {
    bytes: [u8; 64],
    len: usize,
}

impl Model for Line {
    ghost use Rattle.std.specs.Prelude.{ℕ, List, take, ◌≤◌};

    ghost Value = { List ℕ };

    ghost view = { λ s. take s.len s.bytes };

    ghost invariant = { λ s. s.len ≤ 64 };
}

impl Line {
    pub(crate) fn new() -> Line
        ensures { result ≡ [] }
    {
        Line {
            bytes: [0; 64],
            len: 0,
        }
    }

    pub fn as_bytes(&self) -> &[u8]
        ensures { result.now ≡ self.now }
    {
        &self.bytes[..self.len]
    }

    pub(crate) fn push(&mut self, byte: u8)
        requires { length self.old < 64 }
        ensures { self.new ≡ self.old ++ byte ∷ [] }
    {
        self.bytes[self.len] = byte;
        self.len += 1;
    }

    pub(crate) fn push_bytes(&mut self, bytes: &[u8])
        requires { length self.old + length bytes.now ≤ 64 }
        ensures { self.new ≡ self.old ++ bytes.now }
    {
        for byte in bytes {
            self.push(*byte);
        }
    }

    /// The number in decimal digits.
    pub(crate) fn push_number(&mut self, number: u64)
        requires { length self.old + 20 ≤ 64 }
        ensures text { self.new ≡ self.old ++ decimal number }
        ensures short { length self.new ≤ length self.old + 20 }
    {
        let mut digits = [0; 20];
        let start = write_digits(&mut digits, 20, number);
        self.push_bytes(&digits[start..]);
    }

    fn push_hex(&mut self, byte: u8)
        requires { length self.old + 2 ≤ 64 }
        ensures { self.new ≡ self.old ++ hex_digits 2 byte }
    {
        self.push(hex_digit(byte / 16));
        self.push(hex_digit(byte % 16));
    }

    /// The type as text: its characters, or eight hexadecimal digits where some byte is no
    /// printable character.
    #[tactic(auto, using(crate::proofs::TypeTexts::length_type_text))]
    pub(crate) fn push_type(&mut self, kind: FourCc)
        requires { length self.old + 8 ≤ 64 }
        ensures text { self.new ≡ self.old ++ type_text kind.0 }
        ensures short { length self.new ≤ length self.old + 8 }
    {
        if is_text(&kind.0) {
            self.push_bytes(&kind.0);
        } else {
            for byte in kind.0 {
                self.push_hex(byte);
            }
        }
    }
}
