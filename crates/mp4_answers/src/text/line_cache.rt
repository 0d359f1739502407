//! What is kept of a line for the next one: text that is spelled anew only where it changes.
ghost use Rattle.std.specs.Prelude.{◌≡◌, ◌+◌, ◌≤◌, ◌++◌, length, drop, decimal, ◌/◌, ◌%◌, ◌<◌, pos, ◌+ℤ◌};
ghost use Rattle.mp4_answers.specs.format.Texts.{hex_digits, space};
ghost use Rattle.std.specs.Fmt.{signed_decimal};

use crate::text::digits::{
    write_byte, write_bytes, write_digits, write_four, write_hex, write_long_digits,
    write_short_digits,
};
use std::marker::Model;

/// At most `N` bytes of text at the end of an array. A clause sees the text.
#[derive(Drop)]
pub(crate) struct CachedText<const N: usize> {
    bytes: [u8; N],
    start: usize,
}

impl<const N: usize> Model for CachedText<N> {
    ghost use Rattle.std.specs.Prelude.{ℕ, List, drop, ◌≤◌};

    ghost Value = { List ℕ };

    ghost view = { λ s. drop s.start s.bytes };

    ghost invariant = { λ s. s.start ≤ N };
}

/// The digits of a number.
pub(crate) fn text_of_number(number: u64) -> CachedText<20>
    ensures { result ≡ decimal number }
{
    let mut bytes = [0; 20];
    let start = write_digits(&mut bytes, 20, number);
    CachedText { bytes, start }
}

/// Flags in hexadecimal digits, and a description index.
pub(crate) fn text_of_flags(flags: u32, description: u32) -> CachedText<24>
    ensures { result ≡ hex_digits 8 flags ++ space ++ decimal description }
{
    let mut bytes = [0; 24];
    let mut start = write_short_digits(&mut bytes, 24, description);
    start = write_byte(&mut bytes, start, b' ');
    start = write_hex(&mut bytes, start, u64::from(flags), 8);
    CachedText { bytes, start }
}

/// Writes a text so that it ends at `end`, and says where it begins. All of its array is copied, so
/// the length of the copy is known.
#[inline(always)]
pub(crate) fn write_text<const M: usize>(text: &mut [u8], end: usize, kept: &CachedText<M>) -> usize
    requires room { M ≤ end }
    requires within { end ≤ length text.old }
    ensures before { result ≤ end }
    ensures short { end ≤ result + M }
    ensures written { drop result text.new ≡ kept.now ++ drop end text.old }
{
    let bytes = &kept.bytes[..];
    write_bytes(text, end, bytes) + kept.start
}

/// A number whose last four digits are 0, and its digits but these.
#[derive(Drop)]
pub(crate) struct CachedNumber {
    base: u64,
    first: CachedText<20>,
    ghost some: { 10000 ≤ base },
    ghost round: { base % 10000 ≡ 0 },
    ghost spelled: { first ≡ decimal (base / 10000) },
}

impl CachedNumber {
    ghost use Rattle.std.specs.Prelude.{◌≡◌, ◌+◌, ◌/◌, ◌%◌, ◌<◌, ◌≤◌, decimal};

    /// For numbers that differ from this one in their last four digits.
    #[inline(never)]
    pub(crate) fn new(number: u64) -> CachedNumber
        requires { 10000 ≤ number }
        ensures below { result.base ≤ number }
        ensures near { number < result.base + 10000 }
    {
        let high = number / 10_000;
        CachedNumber {
            base: high * 10_000,
            first: text_of_number(high),
        }
    }

    // Keeps the first digits of a number.
    #[inline(always)]
    fn renew(&mut self, number: u64)
        requires { 10000 ≤ number }
        ensures below { self.new.base ≤ number }
        ensures near { number < self.new.base + 10000 }
    {
        if number < self.base || number - self.base >= 10_000 {
            *self = CachedNumber::new(number);
        }
    }
}

/// Writes the digits of a number so that they end at `end`, and says where they begin.
#[inline(always)]
pub(crate) fn write_cached_number(
    text: &mut [u8],
    end: usize,
    number: u64,
    kept: &mut CachedNumber,
) -> usize
    requires room { 24 ≤ end }
    requires within { end ≤ length text.old }
    ensures before { result ≤ end }
    ensures short { end ≤ result + 24 }
    ensures written { drop result text.new ≡ decimal number ++ drop end text.old }
{
    if number < 10_000 {
        return write_short_digits(text, end, number as u32);
    }
    kept.renew(number);
    write_four(text, end - 4, (number - kept.base) as u32);
    write_text(text, end - 4, &kept.first)
}

/// The same for a time and an offset from it.
#[inline(always)]
pub(crate) fn write_kept_sum(
    text: &mut [u8],
    end: usize,
    time: u64,
    offset: i32,
    kept: &mut CachedNumber,
) -> usize
    requires room { 24 ≤ end }
    requires within { end ≤ length text.old }
    ensures before { result ≤ end }
    ensures short { end ≤ result + 24 }
    ensures written { drop result text.new
        ≡ signed_decimal (pos time +ℤ offset) ++ drop end text.old }
{
    let apart = u64::from(offset.unsigned_abs());
    if offset < 0 {
        if apart <= time {
            return write_cached_number(text, end, time - apart, kept);
        }
        let start = write_digits(text, end, apart - time);
        return write_byte(text, start, b'-');
    }
    match time.checked_add(apart) {
        Some(sum) => write_cached_number(text, end, sum, kept),
        None => write_long_digits(text, end, u128::from(time) + u128::from(apart)),
    }
}

/// Flags and a description index, and the text of both.
#[derive(Drop)]
pub(crate) struct CachedMiddle {
    flags: u32,
    description: u32,
    text: CachedText<24>,
    ghost spelled: { text ≡ hex_digits 8 flags ++ space ++ decimal description },
}

impl CachedMiddle {
    ghost use Rattle.std.specs.Prelude.{◌≡◌, ◌++◌, decimal};
    ghost use Rattle.mp4_answers.specs.format.Texts.{hex_digits, space};

    #[inline(never)]
    pub(crate) fn new(flags: u32, description: u32) -> CachedMiddle
        ensures flags { result.flags ≡ flags }
        ensures description { result.description ≡ description }
    {
        CachedMiddle {
            flags,
            description,
            text: text_of_flags(flags, description),
        }
    }

    /// Makes it these. The text is spelled only if one of them is another.
    #[inline(always)]
    pub(crate) fn renew(&mut self, flags: u32, description: u32)
        ensures flags { self.new.flags ≡ flags }
        ensures description { self.new.description ≡ description }
    {
        if self.flags != flags || self.description != description {
            *self = CachedMiddle::new(flags, description);
        }
    }

    pub(crate) fn text(&self) -> &CachedText<24>
        ensures { result.now
            ≡ hex_digits 8 self.now.flags ++ space ++ decimal self.now.description }
    {
        &self.text
    }
}

/// Of each long number its first digits; and the text of the flags and the description index.
#[derive(Drop)]
pub(crate) struct LineCache {
    pub(crate) number: CachedNumber,
    pub(crate) time: CachedNumber,
    pub(crate) composition: CachedNumber,
    pub(crate) middle: CachedMiddle,
}

impl LineCache {
    pub(crate) fn new() -> LineCache {
        LineCache {
            number: CachedNumber::new(10_000),
            time: CachedNumber::new(10_000),
            composition: CachedNumber::new(10_000),
            middle: CachedMiddle::new(0, 1),
        }
    }
}
