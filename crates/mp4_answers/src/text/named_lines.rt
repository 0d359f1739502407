//! Lines of a name and of what is said of it.
ghost use Rattle.std.specs.Prelude.{◌≡◌, ◌+◌, ◌≤◌, ◌++◌, ◌∷◌, [], length, drop, map, flat_map};
ghost use Rattle.std.specs.Fmt.{signed_decimal};
ghost use Rattle.mp4_head.specs.words.Seen.{edit_seen};
ghost use Rattle.mp4_answers.specs.format.Text.{edit_line, edit_words};
ghost use Rattle.mp4_answers.specs.words.Telling.{said_line, said_text, said_words};
ghost use Rattle.mp4_present.specs.words.Latches.{Goes};
ghost use Rattle.mp4_answers.specs.declared.text.named_lines.Said.TheVariants as said;

use crate::text::digits::{write_byte, write_digits, write_hex};
use crate::text::text_parts::{LINE_FEED, SPACE, put_parts};
use mp4_head::Edit;
use mp4_present::Latch;
use mp4_store::Sink;

/// What is said: a number, decimal or of so many hexadecimal digits; or several numbers.
#[derive(Clone, Copy)]
pub(crate) enum Said {
    Number(u64),
    Signed(i64),
    Flags(u32),
    Language(u16),
    Matrix([i32; 9]),
    Edit(Edit),
}

/// A name, and what is said of it.
#[derive(Clone, Copy)]
pub(crate) struct Named {
    pub(crate) name: &'static [u8],
    pub(crate) said: Said,
}

/// More than the bytes of all that is said of a name.
const LONGEST: usize = 200;

/// A name, and what is said of it.
pub(crate) fn saying(name: &'static [u8], said: Said) -> Named
    ensures name { result.name.now ≡ name.now }
    ensures said { result.said ≡ said }
{
    Named { name, said }
}

/// Says a number of a name.
pub(crate) fn number(name: &'static [u8], number: u64) -> Named
    ensures name { result.name.now ≡ name.now }
    ensures said { result.said ≡ said.Number number }
{
    saying(name, Said::Number(number))
}

/// Says a number that may be negative.
pub(crate) fn signed(name: &'static [u8], number: i64) -> Named
    ensures name { result.name.now ≡ name.now }
    ensures said { result.said ≡ said.Signed number }
{
    saying(name, Said::Signed(number))
}

/// Writes a number that may be negative so that it ends at `end`, and says where it begins.
pub(crate) fn write_signed(text: &mut [u8], end: usize, number: i64) -> usize
    requires room { 21 ≤ end }
    requires within { end ≤ length text.old }
    ensures before { result ≤ end }
    ensures short { end ≤ result + 21 }
    ensures written { drop result text.new ≡ signed_decimal number ++ drop end text.old }
{
    let start = write_digits(text, end, number.unsigned_abs());
    if number < 0 {
        write_byte(text, start, b'-')
    } else {
        start
    }
}

// Writes a number behind a space.
fn write_word(text: &mut [u8], end: usize, number: i64) -> usize
    requires room { 22 ≤ end }
    requires within { end ≤ length text.old }
    ensures before { result ≤ end }
    ensures short { end ≤ result + 22 }
    ensures written { drop result text.new
        ≡ said_text (signed_decimal number ∷ []) ++ drop end text.old }
{
    let start = write_signed(text, end, number);
    write_byte(text, start, b' ')
}

// Writes the numbers of a matrix, each behind a space.
fn write_matrix(text: &mut [u8], end: usize, matrix: &[i32; 9]) -> usize
    requires room { 198 ≤ end }
    requires within { end ≤ length text.old }
    ensures before { result ≤ end }
    ensures written { drop result text.new
        ≡ said_text (map signed_decimal matrix.now) ++ drop end text.old }
{
    let mut start = end;
    let mut left = 9;
    while left > 0 {
        left -= 1;
        start = write_word(text, start, i64::from(matrix[left]));
    }
    start
}

// Writes the numbers of an edit, each behind a space.
fn write_edit(text: &mut [u8], end: usize, edit: &Edit) -> usize
    requires room { 100 ≤ end }
    requires within { end ≤ length text.old }
    ensures before { result ≤ end }
    ensures written { drop result text.new
        ≡ said_text (edit_words (edit_seen edit.now)) ++ drop end text.old }
{
    let mut start = write_word(text, end, i64::from(edit.rate_fraction));
    start = write_word(text, start, i64::from(edit.rate_integer));
    start = write_word(text, start, edit.media_time);
    start = write_digits(text, start, edit.segment_duration);
    write_byte(text, start, b' ')
}

// Writes what is said, each number behind a space, so that it ends at `end`.
fn write_said(text: &mut [u8], end: usize, said: &Said) -> usize
    requires room { 198 ≤ end }
    requires within { end ≤ length text.old }
    ensures before { result ≤ end }
    ensures written { drop result text.new
        ≡ said_text (said_words said.now) ++ drop end text.old }
{
    match said {
        Said::Number(number) => {
            let start = write_digits(text, end, *number);
            write_byte(text, start, b' ')
        }
        Said::Signed(number) => write_word(text, end, *number),
        Said::Flags(flags) => {
            let start = write_hex(text, end, u64::from(*flags), 6);
            write_byte(text, start, b' ')
        }
        Said::Language(language) => {
            let start = write_hex(text, end, u64::from(*language), 4);
            write_byte(text, start, b' ')
        }
        Said::Matrix(matrix) => write_matrix(text, end, matrix),
        Said::Edit(edit) => write_edit(text, end, edit),
    }
}

// Puts the line of a name.
fn put_named<K: Sink>(named: &Named, latch: &mut Latch<K>)
    ensures { Goes K.Sink latch.old latch.new (said_line named.now) }
{
    let mut text = [0; LONGEST];
    let start = write_said(&mut text, LONGEST, &named.said);
    let (_unused, said) = text.split_at(start);
    let parts = [SPACE, named.name, b":", said, LINE_FEED];
    put_parts(&parts, latch);
}

/// Puts the lines of some names.
pub(crate) fn put_all_named<K: Sink>(all: &[Named], latch: &mut Latch<K>)
    ensures { Goes K.Sink latch.old latch.new
        (flat_map said_line all.now) }
{
    for named in all {
        put_named(named, latch);
    }
}

// Puts the line of an edit.
fn put_edit<K: Sink>(edit: &Edit, latch: &mut Latch<K>)
    ensures { Goes K.Sink latch.old latch.new
        (edit_line (edit_seen edit.now)) }
{
    put_named(&saying(b"edit", Said::Edit(*edit)), latch);
}

/// Puts the line of each edit.
pub(crate) fn put_edits<K: Sink>(edits: &[Edit], latch: &mut Latch<K>)
    ensures { Goes K.Sink latch.old latch.new
        (flat_map edit_line (map edit_seen edits.now)) }
{
    for edit in edits {
        put_edit(edit, latch);
    }
}
