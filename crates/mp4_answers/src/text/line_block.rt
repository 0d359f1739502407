//! Lines that go on together.
ghost use Rattle.std.specs.Prelude.{◌≡◌, ◌+◌, ◌≤◌, [], ◌++◌, length, take, true};

use std::marker::Model;

/// How many bytes are copied of a shorter line too, so that the copy has a known length.
pub(crate) const AT_ONCE: usize = 64;

/// Text in an array, which grows at its end. A clause sees the text.
#[derive(Drop)]
pub(crate) struct LineBlock<const N: usize> {
    bytes: [u8; N],
    used: usize,
}

impl<const N: usize> Model for LineBlock<N> {
    ghost use Rattle.std.specs.Prelude.{ℕ, List, take, ◌≤◌};

    ghost Value = { List ℕ };

    ghost view = { λ s. take s.used s.bytes };

    ghost invariant = { λ s. s.used ≤ N };
}

// Copies bytes to a place.
fn copy_to(text: &mut [u8], at: usize, bytes: &[u8])
    requires { at + length bytes.now ≤ length text.old }
    ensures { take (at + length bytes.now) text.new ≡ take at text.old ++ bytes.now }
{
    text[at..at + bytes.len()].copy_from_slice(bytes);
}

// Copies the first bytes to a place, and maybe some more behind them.
fn copy_front(text: &mut [u8], at: usize, bytes: &[u8], len: usize)
    requires more { len + AT_ONCE ≤ length bytes.now }
    requires room { at + len + AT_ONCE ≤ length text.old }
    ensures { take (at + len) text.new ≡ take at text.old ++ take len bytes.now }
{
    if len <= AT_ONCE {
        let (front, _rest) = bytes.split_at(AT_ONCE);
        copy_to(text, at, front);
    } else {
        let (front, _rest) = bytes.split_at(len);
        copy_to(text, at, front);
    }
}

impl<const N: usize> LineBlock<N> {
    pub(crate) fn new() -> LineBlock<N>
        ensures { result ≡ [] }
    {
        LineBlock {
            bytes: [0; N],
            used: 0,
        }
    }

    pub(crate) fn as_bytes(&self) -> &[u8]
        ensures { result.now ≡ self.now }
    {
        let bytes = &self.bytes[..];
        &bytes[..self.used]
    }

    /// Whether so many bytes have room.
    pub(crate) fn has_room(&self, len: usize) -> bool
        ensures { result ≡ true → length self.now + len ≤ N }
    {
        len <= N - self.used
    }

    pub(crate) fn clear(&mut self)
        ensures { self.new ≡ [] }
    {
        self.used = 0;
    }

    /// The first `len` of these bytes.
    pub(crate) fn push_front(&mut self, bytes: &[u8], len: usize)
        requires more { len + AT_ONCE ≤ length bytes.now }
        requires room { length self.old + len + AT_ONCE ≤ N }
        ensures { self.new ≡ self.old ++ take len bytes.now }
    {
        copy_front(&mut self.bytes, self.used, bytes, len);
        self.used += len;
    }
}
