//! Names as the system has them, of words in which a zero byte and two hexadecimal digits stand for
//! a byte that is no text.
ghost use Rattle.std.specs.Prelude.{◌≡◌, ◌≤◌, ◌∷◌, ◌++◌, length, OnOk};
ghost use Rattle.mp4_answers.specs.format.SumLines.{digit_value, plain_name};

use std::alloc::AllocError;

// The value of a hexadecimal digit.
fn digit_of(byte: u8) -> u8
    ensures value { result ≡ digit_value byte }
    ensures least { result ≤ 15 }
{
    match byte {
        b'0'..=b'9' => byte - b'0',
        b'a'..=b'f' => byte - b'a' + 10,
        _ => 0,
    }
}

// The first byte of a word that begins with this one, and what is left of the word behind it.
fn plain_first(first: u8, rest: &[u8]) -> (u8, &[u8])
    ensures byte { plain_name (first ∷ rest.now) ≡ result.0 ∷ plain_name result.1.now }
    ensures less { length result.1.now ≤ length rest.now }
{
    match (first, rest) {
        (0, [high, low, more @ ..]) => (16 * digit_of(*high) + digit_of(*low), more),
        _ => (first, rest),
    }
}

/// Adds the bytes of a word.
pub fn push_plain(text: &mut Vec<u8>, word: &[u8]) -> Result<(), AllocError>
    ensures { OnOk result (text.new.items ≡ text.old.items ++ plain_name word.now) }
{
    let mut left = word;
    while let Some((first, rest)) = left.split_first() {
        let (byte, more) = plain_first(*first, rest);
        text.push(byte)?;
        left = more;
    }
    Ok(())
}
