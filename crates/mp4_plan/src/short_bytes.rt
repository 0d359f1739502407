//! A few bytes, spelled one number after the other.
ghost use Rattle.std.specs.Prelude.{◌≡◌, ◌+◌, ◌≤◌, ◌++◌, [], length};
ghost use Rattle.byteorder.specs.Endian.{big_bytes};
ghost use Rattle.mp4_plan.specs.words.Spelling.{option_bytes, box_front};

use mp4_boxes::FourCc;
use std::marker::Model;

/// At most 128 bytes. A clause sees them.
#[derive(Drop)]
pub(crate) struct Spelled {
    bytes: [u8; 128],
    len: usize,
}

impl Model for Spelled {
    ghost use Rattle.std.specs.Prelude.{ℕ, List, take, ◌≤◌};

    ghost Value = { List ℕ };

    ghost view = { λ s. take s.len s.bytes };

    ghost invariant = { λ s. s.len ≤ 128 };
}

impl Spelled {
    pub(crate) fn new() -> Spelled
        ensures { result ≡ [] }
    {
        Spelled {
            bytes: [0; 128],
            len: 0,
        }
    }

    /// Forgets the bytes.
    pub(crate) fn clear(&mut self)
        ensures { self.new ≡ [] }
    {
        self.len = 0;
    }

    pub(crate) fn as_bytes(&self) -> &[u8]
        ensures { result.now ≡ self.now }
    {
        &self.bytes[..self.len]
    }

    pub(crate) fn push(&mut self, bytes: &[u8])
        requires { length self.old + length bytes.now ≤ 128 }
        ensures { self.new ≡ self.old ++ bytes.now }
    {
        let held = &mut self.bytes[..];
        held[self.len..self.len + bytes.len()].copy_from_slice(bytes);
        self.len += bytes.len();
    }

    pub(crate) fn push_u32(&mut self, number: u32)
        requires { length self.old + 4 ≤ 128 }
        ensures is { self.new ≡ self.old ++ big_bytes 4 number }
        ensures length { length self.new ≡ length self.old + 4 }
    {
        self.push(&number.to_be_bytes());
    }

    pub(crate) fn push_u64(&mut self, number: u64)
        requires { length self.old + 8 ≤ 128 }
        ensures is { self.new ≡ self.old ++ big_bytes 8 number }
        ensures length { length self.new ≡ length self.old + 8 }
    {
        self.push(&number.to_be_bytes());
    }

    /// The header of a box of so many bytes.
    pub(crate) fn push_box(&mut self, kind: FourCc, size: u32)
        requires { length self.old + 8 ≤ 128 }
        ensures is { self.new ≡ self.old ++ box_front kind.0 size }
        ensures length { length self.new ≡ length self.old + 8 }
    {
        self.push_u32(size);
        self.push(&kind.0);
    }

    /// A number, where there is one.
    pub(crate) fn push_option(&mut self, number: Option<u32>)
        requires { length self.old + 4 ≤ 128 }
        ensures is { self.new ≡ self.old ++ option_bytes number }
        ensures length { length self.new ≤ length self.old + 4 }
    {
        if let Some(number) = number {
            self.push_u32(number);
        }
    }
}
