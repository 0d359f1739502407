//! The line that tells of a difference.
ghost use Rattle.std.specs.Prelude.{◌≡◌, ◌≤◌, ◌++◌, OnOk, decimal};
ghost use Rattle.std.specs.Fmt.{signed_decimal};
ghost use Rattle.mp4_answers.specs.format.Texts.{hex_digits, type_text, line_feed};
ghost use Rattle.mp4_content.specs.declared.comparing.differences.Field.TheVariants as fields;
ghost use Rattle.mp4_answers.specs.format.DifferenceLine.{byte_text, difference_line, difference_text, digits_of, entries_name, entry_name, entry_number, field_name, field_text, is_numbered, part_text, subject_text, value_text};

use crate::text::digits::{write_digits, write_hex};
use crate::text::line::Line;
use mp4_boxes::FourCc;
use mp4_content::{Difference, Entries, Field, Part, Subject, Value};
use mp4_tables::GroupKey;
use std::alloc::AllocError;

/// Adds words to a text.
pub fn say(text: &mut Vec<u8>, words: &str) -> Result<(), AllocError>
    ensures { OnOk result (text.new.items ≡ text.old.items ++ words.now) }
{
    text.extend_from_slice(words.as_bytes())
}

/// Ends a line of a text.
pub(crate) fn end_line(text: &mut Vec<u8>) -> Result<(), AllocError>
    ensures { OnOk result (text.new.items ≡ text.old.items ++ line_feed) }
{
    text.extend_from_slice(b"\n")
}

/// Adds a number in decimal digits.
pub fn say_number(text: &mut Vec<u8>, number: u64) -> Result<(), AllocError>
    ensures { OnOk result (text.new.items ≡ text.old.items ++ decimal number) }
{
    let mut digits = [0; 20];
    let start = write_digits(&mut digits, 20, number);
    text.extend_from_slice(&digits[start..])
}

/// Adds a number between words.
pub fn say_counted(
    text: &mut Vec<u8>,
    front: &str,
    number: u64,
    end: &str,
) -> Result<(), AllocError>
    ensures { OnOk result
        (text.new.items ≡ text.old.items ++ front.now ++ decimal number ++ end.now) }
{
    say(text, front)?;
    say_number(text, number)?;
    say(text, end)
}

/// Adds a number that may be negative.
pub(crate) fn say_signed(text: &mut Vec<u8>, number: i64) -> Result<(), AllocError>
    ensures { OnOk result (text.new.items ≡ text.old.items ++ signed_decimal number) }
{
    if number < 0 {
        say(text, "-")?;
    }
    say_number(text, number.unsigned_abs())
}

// Adds a number in so many hexadecimal digits.
fn say_hex(text: &mut Vec<u8>, number: u64, digits: u8) -> Result<(), AllocError>
    requires { digits ≤ 16 }
    ensures { OnOk result (text.new.items ≡ text.old.items ++ hex_digits digits number) }
{
    let mut room = [0; 16];
    let start = write_hex(&mut room, 16, number, digits);
    text.extend_from_slice(&room[start..])
}

fn say_type(text: &mut Vec<u8>, kind: FourCc) -> Result<(), AllocError>
    ensures { OnOk result (text.new.items ≡ text.old.items ++ type_text kind.0) }
{
    let mut line = Line::new();
    line.push_type(kind);
    text.extend_from_slice(line.as_bytes())
}

fn say_subject(text: &mut Vec<u8>, subject: Subject) -> Result<(), AllocError>
    ensures { OnOk result (text.new.items ≡ text.old.items ++ subject_text subject) }
{
    match subject {
        Subject::Movie => say(text, "movie: "),
        Subject::Track(track) => say_counted(text, "track ", track, ": "),
        Subject::Sample(track, sample) => {
            say_counted(text, "track ", track, ": sample ")?;
            say_counted(text, "", u64::from(sample), ": ")
        }
    }
}

/// What one entry of a list is called.
pub(crate) fn entry_name(entries: Entries) -> &'static str
    ensures { result.now ≡ entry_name entries }
{
    match entries {
        Entries::Edits => "edit",
        Entries::Kept => "kept box",
        Entries::Handler => "handler",
        Entries::ExtendedLanguages => "extended language",
        Entries::MediaHeader => "media header",
        Entries::Descriptions => "description",
        Entries::GroupDescriptions => "group description",
    }
}

/// And what several are.
pub(crate) fn entries_name(entries: Entries) -> &'static str
    ensures { result.now ≡ entries_name entries }
{
    match entries {
        Entries::Edits => "edits",
        Entries::Kept => "kept boxes",
        Entries::Handler => "handlers",
        Entries::ExtendedLanguages => "extended languages",
        Entries::MediaHeader => "media headers",
        Entries::Descriptions => "descriptions",
        Entries::GroupDescriptions => "group descriptions",
    }
}

// A byte of so many.
fn say_byte(text: &mut Vec<u8>, number: u64, of: u64) -> Result<(), AllocError>
    ensures { OnOk result (text.new.items ≡ text.old.items ++ byte_text number of) }
{
    say_counted(text, "byte ", number, " of ")?;
    say_counted(text, "", of, ":")
}

fn say_part(text: &mut Vec<u8>, part: Part) -> Result<(), AllocError>
    ensures { OnOk result (text.new.items ≡ text.old.items ++ part_text part) }
{
    match part {
        Part::Kind => say(text, "type"),
        Part::Length => say(text, "bytes"),
        Part::Byte(number, of) => say_byte(text, number, of),
        Part::SegmentDuration => say(text, "segment duration"),
        Part::MediaTime => say(text, "media time"),
        Part::RateInteger => say(text, "rate integer"),
        Part::RateFraction => say(text, "rate fraction"),
    }
}

/// Whether an entry has a number, since there may be several.
pub(crate) fn is_numbered(entries: Entries) -> bool
    ensures { result ≡ is_numbered entries }
{
    !matches!(entries, Entries::Handler | Entries::MediaHeader)
}

// Adds the number of an entry, if it has one.
fn say_entry_number(text: &mut Vec<u8>, entries: Entries, number: u64) -> Result<(), AllocError>
    ensures { OnOk result (text.new.items ≡ text.old.items ++ entry_number entries number) }
{
    if !is_numbered(entries) {
        return Ok(());
    }
    say_counted(text, " ", number, "")
}

fn say_group(text: &mut Vec<u8>, key: GroupKey) -> Result<(), AllocError>
    ensures { OnOk result (text.new.items ≡ text.old.items ++ field_text (fields.Group key)) }
{
    say(text, "group ")?;
    say_type(text, key.kind)?;
    if let Some(parameter) = key.parameter {
        say_counted(text, " ", u64::from(parameter), "")?;
    }
    say(text, ":")
}

/// What a value of one word is called.
pub(crate) fn name_of(field: Field) -> &'static str
    ensures { result.now ≡ field_name field }
{
    match field {
        Field::Creation => "creation time",
        Field::Modification => "modification time",
        Field::Timescale | Field::MediaTimescale => "timescale",
        Field::Rate => "rate",
        Field::Volume => "volume",
        Field::Tracks => "tracks",
        Field::Flags => "flags",
        Field::Id => "id",
        Field::Layer => "layer",
        Field::AlternateGroup => "alternate group",
        Field::Width => "width",
        Field::Height => "height",
        Field::MediaCreation => "media creation time",
        Field::MediaModification => "media modification time",
        Field::Language => "language",
        Field::Start => "start",
        Field::Samples => "samples",
        Field::Duration => "duration",
        Field::Offset => "offset",
        Field::Description => "description",
        Field::Size => "size",
        _ => "",
    }
}

fn say_field(text: &mut Vec<u8>, field: Field) -> Result<(), AllocError>
    ensures { OnOk result (text.new.items ≡ text.old.items ++ field_text field) }
{
    match field {
        Field::Matrix(number) => say_counted(text, "matrix entry ", number, ""),
        Field::Count(entries) => say(text, entries_name(entries)),
        Field::Entry(entries, number, part) => {
            say(text, entry_name(entries))?;
            say_entry_number(text, entries, number)?;
            say(text, ": ")?;
            say_part(text, part)
        }
        Field::Group(key) => say_group(text, key),
        Field::Byte(number, of) => say_byte(text, number, of),
        _ => say(text, name_of(field)),
    }
}

/// How many hexadecimal digits a number of this field has; 0 for decimal digits.
pub(crate) fn digits_of(subject: Subject, field: Field) -> u8
    ensures is { result ≡ digits_of subject field }
    ensures few { result ≤ 16 }
{
    match (subject, field) {
        (Subject::Sample(_, _), Field::Flags) => 8,
        (_, Field::Flags) => 6,
        (_, Field::Language) => 4,
        _ => 0,
    }
}

/// Adds a value, a number in so many hexadecimal digits, or in decimal ones if these are 0.
pub(crate) fn say_value(text: &mut Vec<u8>, value: Value, digits: u8) -> Result<(), AllocError>
    requires { digits ≤ 16 }
    ensures { OnOk result (text.new.items ≡ text.old.items ++ value_text digits value) }
{
    match value {
        Value::Number(number) if digits > 0 => say_hex(text, number, digits),
        Value::Number(number) => say_number(text, number),
        Value::Signed(number) => say_signed(text, number),
        Value::Kind(kind) => say_type(text, kind),
        Value::Byte(byte) => say_hex(text, u64::from(byte), 2),
    }
}

/// Adds the line that tells of a difference, without its line feed: the way to the value, the value
/// in the one file, and that in the other.
pub(crate) fn say_line(text: &mut Vec<u8>, difference: Difference) -> Result<(), AllocError>
    ensures { OnOk result (text.new.items ≡ text.old.items ++ difference_text difference) }
{
    let digits = digits_of(difference.subject, difference.field);
    say_subject(text, difference.subject)?;
    say_field(text, difference.field)?;
    say(text, " ")?;
    say_value(text, difference.left, digits)?;
    say(text, " | ")?;
    say_value(text, difference.right, digits)
}

/// The same with its line feed.
pub fn say_difference(text: &mut Vec<u8>, difference: Difference) -> Result<(), AllocError>
    ensures { OnOk result (text.new.items ≡ text.old.items ++ difference_line difference) }
{
    say_line(text, difference)?;
    end_line(text)
}
