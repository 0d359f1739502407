//! Digits of numbers.
ghost use Rattle.std.specs.Prelude.{◌≡◌, ◌+◌, ◌*◌, ◌/◌, ◌%◌, ◌^◌, ◌<◌, ◌≤◌, ◌∷◌, ◌++◌, length, drop, decimal};
ghost use Rattle.mp4_answers.specs.format.Texts.{hex_digit, hex_digits};
ghost use Rattle.mp4_answers.specs.words.Pairs.{pair};

/// The two digits of each number below 100.
const PAIRS: [u8; 200] = *b"\
    00010203040506070809101112131415161718192021222324252627282930313233343536373839\
    40414243444546474849505152535455565758596061626364656667686970717273747576777879\
    8081828384858687888990919293949596979899";

pub fn hex_digit(digit: u8) -> u8
    requires { digit < 16 }
    ensures { result ≡ hex_digit digit }
{
    if digit < 10 { 48 + digit } else { 87 + digit }
}

// Writes two digits at a place.
#[inline(always)]
fn write_pair(text: &mut [u8], at: usize, pair: u32)
    requires pair { pair < 100 }
    requires within { at + 2 ≤ length text.old }
    ensures { drop at text.new ≡ (48 + pair / 10) ∷ (48 + pair % 10) ∷ drop (at + 2) text.old }
{
    let from = pair as usize * 2;
    let (tens, ones) = (PAIRS[from], PAIRS[from + 1]);
    text[at] = tens;
    text[at + 1] = ones;
}

/// Writes four digits at a place.
#[inline(always)]
pub(crate) fn write_four(text: &mut [u8], at: usize, four: u32)
    requires four { four < 10000 }
    requires within { at + 4 ≤ length text.old }
    ensures { drop at text.new ≡ pair (four / 100) ++ pair (four % 100) ++ drop (at + 4) text.old }
{
    write_pair(text, at + 2, four % 100);
    write_pair(text, at, four / 100);
}

/// Writes the decimal digits of a number so that they end at `end`, and says where they begin.
#[inline(always)]
pub(crate) fn write_short_digits(text: &mut [u8], end: usize, number: u32) -> usize
    requires room { 10 ≤ end }
    requires within { end ≤ length text.old }
    ensures before { result ≤ end }
    ensures short { end ≤ result + 10 }
    ensures written { drop result text.new ≡ decimal number ++ drop end text.old }
{
    itoa::write_digits(u64::from(number), text, end)
}

/// The same for a longer number.
#[inline(always)]
pub(crate) fn write_digits(text: &mut [u8], end: usize, number: u64) -> usize
    requires room { 20 ≤ end }
    requires within { end ≤ length text.old }
    ensures before { result ≤ end }
    ensures short { end ≤ result + 20 }
    ensures written { drop result text.new ≡ decimal number ++ drop end text.old }
{
    itoa::write_digits(number, text, end)
}

/// The same for a number that may be a little longer than 64 bits.
pub(crate) fn write_long_digits(text: &mut [u8], end: usize, number: u128) -> usize
    requires fits { number < 10 * 2 ^ 64 }
    requires room { 21 ≤ end }
    requires within { end ≤ length text.old }
    ensures before { result ≤ end }
    ensures short { end ≤ result + 21 }
    ensures written { drop result text.new ≡ decimal number ++ drop end text.old }
{
    if number < 1 << 64 {
        return write_digits(text, end, number as u64);
    }
    let last = write_byte(text, end, 48 + (number % 10) as u8);
    write_digits(text, last, (number / 10) as u64)
}

/// Writes a byte so that it ends at `end`, and says where it stands.
#[inline(always)]
pub(crate) fn write_byte(text: &mut [u8], end: usize, byte: u8) -> usize
    requires room { 0 < end }
    requires within { end ≤ length text.old }
    ensures start { result + 1 ≡ end }
    ensures written { drop result text.new ≡ byte ∷ drop end text.old }
{
    text[end - 1] = byte;
    end - 1
}

/// Writes so many hexadecimal digits so that they end at `end`, and says where they begin.
pub(crate) fn write_hex(text: &mut [u8], end: usize, number: u64, digits: u8) -> usize
    requires room { digits ≤ end }
    requires within { end ≤ length text.old }
    ensures start { result + digits ≡ end }
    ensures written { drop result text.new ≡ hex_digits digits number ++ drop end text.old }
{
    let mut left = number;
    let mut start = end;
    for _digit in 0..digits {
        start = write_byte(text, start, hex_digit((left % 16) as u8));
        left /= 16;
    }
    start
}

/// Writes bytes so that they end at `end`, and says where they begin.
#[inline(always)]
pub(crate) fn write_bytes(text: &mut [u8], end: usize, bytes: &[u8]) -> usize
    requires room { length bytes.now ≤ end }
    requires within { end ≤ length text.old }
    ensures start { result + length bytes.now ≡ end }
    ensures written { drop result text.new ≡ bytes.now ++ drop end text.old }
{
    let start = end - bytes.len();
    text[start..end].copy_from_slice(bytes);
    start
}
