//! A difference, and what is said of all, as objects of JSON.
ghost use Rattle.std.specs.Prelude.{◌≡◌, ◌≤◌, ◌++◌, ◌&&◌, ◌==◌, true, IfOk, OnOk};
ghost use Rattle.mp4_content.specs.declared.comparing.differences.Field.TheVariants as fields;
ghost use Rattle.mp4_answers.specs.format.DifferenceLine.{difference_text};
ghost use Rattle.mp4_answers.specs.format.LastLine.{count_of_kind};
ghost use Rattle.mp4_answers.specs.format.DifferenceObject.{count_member, count_members, difference_object, end_members, enough_value, escaped, field_steps, fraction_member, json_value, kinds_by_name, last_object, leaving_list, line_members, of_member, part_steps, seconds_member, subject_steps, total_members, totals_front, type_string, value_members, word_step};

use crate::text::difference_lines::{
    digits_of, end_line, entries_name, entry_name, is_numbered, name_of, say, say_counted,
    say_line, say_number, say_value,
};
use crate::text::json_text::push_printable;
use crate::text::line::Line;
use crate::text::tally::{DifferenceKind, count_of_kind, kind_name, kind_of_difference};
use mp4_boxes::FourCc;
use mp4_content::{DecodeTime, Difference, Entries, Field, Part, Subject, Value, Without, Word};
use mp4_tables::GroupKey;
use std::alloc::AllocError;

// How many bytes there is room for before a line is made: few lines are longer.
const LINE: usize = 128;

// All words, in the order of their bytes.
const BY_NAME: &[Word] = &[
    Word::Bitrates,
    Word::Edits,
    Word::Ends,
    Word::Flags,
    Word::Groups,
    Word::Ids,
    Word::Labels,
    Word::LeadIns,
    Word::Metadata,
    Word::Origins,
    Word::Roles,
    Word::Times,
    Word::Timescales,
    Word::Timing,
];

// Adds a word as one more entry of a list.
#[tactic(auto, unfolding(crate::specs::format::DifferenceObject::word_step))]
fn say_word(text: &mut Vec<u8>, word: &str) -> Result<(), AllocError>
    ensures { OnOk result (text.new.items ≡ text.old.items ++ word_step word.now) }
{
    say(text, ",\"")?;
    say(text, word)?;
    say(text, "\"")
}

// Adds a type as a string.
fn say_type_string(text: &mut Vec<u8>, kind: FourCc) -> Result<(), AllocError>
    ensures { OnOk result (text.new.items ≡ text.old.items ++ type_string kind.0) }
{
    let mut line = Line::new();
    line.push_type(kind);
    say(text, "\"")?;
    push_printable(text, line.as_bytes())?;
    say(text, "\"")
}

// Begins the list of the steps to a value.
fn say_subject(text: &mut Vec<u8>, subject: Subject) -> Result<(), AllocError>
    ensures { OnOk result (text.new.items ≡ text.old.items ++ subject_steps subject) }
{
    match subject {
        Subject::Movie => say(text, "\"movie\""),
        Subject::Track(track) => say_counted(text, "\"track\",", track, ""),
        Subject::Sample(track, sample) => {
            say_counted(text, "\"track\",", track, ",\"sample\",")?;
            say_counted(text, "", u64::from(sample), "")
        }
    }
}

fn say_part(text: &mut Vec<u8>, part: Part) -> Result<(), AllocError>
    ensures { OnOk result (text.new.items ≡ text.old.items ++ part_steps part) }
{
    match part {
        Part::Byte(number, _) => say_counted(text, ",\"byte\",", number, ""),
        Part::Kind => say_word(text, "type"),
        Part::Length => say_word(text, "bytes"),
        Part::SegmentDuration => say_word(text, "segment duration"),
        Part::MediaTime => say_word(text, "media time"),
        Part::RateInteger => say_word(text, "rate integer"),
        Part::RateFraction => say_word(text, "rate fraction"),
    }
}

fn say_entry(
    text: &mut Vec<u8>,
    entries: Entries,
    number: u64,
    part: Part,
) -> Result<(), AllocError>
    ensures { OnOk result (text.new.items
        ≡ text.old.items ++ field_steps (fields.Entry entries number part)) }
{
    say_word(text, entry_name(entries))?;
    if is_numbered(entries) {
        say_counted(text, ",", number, "")?;
    }
    say_part(text, part)
}

fn say_group(text: &mut Vec<u8>, key: GroupKey) -> Result<(), AllocError>
    ensures { OnOk result (text.new.items ≡ text.old.items ++ field_steps (fields.Group key)) }
{
    say(text, ",\"group\",")?;
    say_type_string(text, key.kind)?;
    match key.parameter {
        Some(parameter) => say_counted(text, ",", u64::from(parameter), ""),
        None => Ok(()),
    }
}

fn say_field(text: &mut Vec<u8>, field: Field) -> Result<(), AllocError>
    ensures { OnOk result (text.new.items ≡ text.old.items ++ field_steps field) }
{
    match field {
        Field::Matrix(number) => {
            say_word(text, "matrix entry")?;
            say_counted(text, ",", number, "")
        }
        Field::Count(entries) => say_word(text, entries_name(entries)),
        Field::Entry(entries, number, part) => say_entry(text, entries, number, part),
        Field::Group(key) => say_group(text, key),
        Field::Byte(number, _) => say_counted(text, ",\"byte\",", number, ""),
        _ => say_word(text, name_of(field)),
    }
}

// Adds how many bytes there are, where a byte of these differs.
fn say_of(text: &mut Vec<u8>, field: Field) -> Result<(), AllocError>
    ensures { OnOk result (text.new.items ≡ text.old.items ++ of_member field) }
{
    match field {
        Field::Byte(_, of) | Field::Entry(_, _, Part::Byte(_, of)) => {
            say_counted(text, ",\"of\":", of, "")
        }
        _ => Ok(()),
    }
}

// Adds a value: a number in decimal digits as it is, any other as a string of what its line says.
fn say_json_value(text: &mut Vec<u8>, value: Value, digits: u8) -> Result<(), AllocError>
    requires { digits ≤ 16 }
    ensures { OnOk result (text.new.items ≡ text.old.items ++ json_value digits value) }
{
    match value {
        Value::Number(_) if digits == 0 => say_value(text, value, digits),
        Value::Signed(_) => say_value(text, value, digits),
        Value::Kind(kind) => say_type_string(text, kind),
        _ => {
            say(text, "\"")?;
            say_value(text, value, digits)?;
            say(text, "\"")
        }
    }
}

// Adds the line of a difference as it stands within a string.
fn say_line_string(text: &mut Vec<u8>, difference: Difference) -> Result<(), AllocError>
    ensures { OnOk result
        (text.new.items ≡ text.old.items ++ escaped (difference_text difference)) }
{
    let mut line = Vec::with_capacity(*text.allocator(), LINE)?;
    say_line(&mut line, difference)?;
    push_printable(text, line.as_slice())
}

// Adds the value in the one file, the steps to it, and the value in the other file.
fn say_values(text: &mut Vec<u8>, difference: Difference) -> Result<(), AllocError>
    ensures { OnOk result (text.new.items ≡ text.old.items ++ value_members difference) }
{
    let digits = digits_of(difference.subject, difference.field);
    say(text, "{\"a\":")?;
    say_json_value(text, difference.left, digits)?;
    say(text, ",\"at\":[")?;
    say_subject(text, difference.subject)?;
    say_field(text, difference.field)?;
    say(text, "],\"b\":")?;
    say_json_value(text, difference.right, digits)
}

// Adds the kind, the line that tells of it, and of a byte, of how many.
fn say_line_members(text: &mut Vec<u8>, difference: Difference) -> Result<(), AllocError>
    ensures { OnOk result (text.new.items ≡ text.old.items ++ line_members difference) }
{
    say(text, ",\"kind\":\"")?;
    say(text, kind_name(kind_of_difference(&difference)))?;
    say(text, "\",\"line\":\"")?;
    say_line_string(text, difference)?;
    say(text, "\"")?;
    say_of(text, difference.field)
}

// Adds when a sample is decoded, as a fraction.
fn say_fraction(text: &mut Vec<u8>, time: DecodeTime) -> Result<(), AllocError>
    ensures { OnOk result (text.new.items ≡ text.old.items ++ fraction_member time) }
{
    say(text, ",\"seconds\":\"")?;
    say_number(text, time.time)?;
    say(text, "/")?;
    say_number(text, u64::from(time.timescale))?;
    say(text, "\"")
}

// The same of a sample; nothing of what is none.
fn say_seconds_member(text: &mut Vec<u8>, time: Option<DecodeTime>) -> Result<(), AllocError>
    ensures { OnOk result (text.new.items ≡ text.old.items ++ seconds_member time) }
{
    match time {
        Some(decoded) => say_fraction(text, decoded),
        None => Ok(()),
    }
}

// Adds what an object ends with, and a line feed.
fn say_end(text: &mut Vec<u8>, time: Option<DecodeTime>) -> Result<(), AllocError>
    ensures { OnOk result (text.new.items ≡ text.old.items ++ end_members time) }
{
    say_seconds_member(text, time)?;
    say(text, "}")?;
    end_line(text)
}

/// Adds the object of a difference, and a line feed.
pub(crate) fn say_difference_object(
    text: &mut Vec<u8>,
    difference: Difference,
    time: Option<DecodeTime>,
) -> Result<(), AllocError>
    ensures { OnOk result
        (text.new.items ≡ text.old.items ++ difference_object time difference) }
{
    say_values(text, difference)?;
    say_line_members(text, difference)?;
    say_end(text, time)
}

// Adds the count of a kind, where it isn't 0, and says whether none is added yet.
#[tactic(auto, unfolding(crate::specs::format::DifferenceObject::count_member))]
fn say_member(
    text: &mut Vec<u8>,
    kind: DifferenceKind,
    all: &[Difference],
    is_first: bool,
) -> Result<bool, AllocError>
    ensures text { OnOk result
        (text.new.items ≡ text.old.items ++ count_member is_first kind all.now) }
    ensures first { IfOk result (λ first. first ≡ is_first && (count_of_kind kind all.now == 0)) }
{
    let count = count_of_kind(kind, all);
    if count == 0 {
        return Ok(is_first);
    }
    say(text, if is_first { "\"" } else { ",\"" })?;
    say(text, kind_name(kind))?;
    say_counted(text, "\":", count, "")?;
    Ok(false)
}

// Adds the counts of the kinds, in the order of their names.
fn say_members(text: &mut Vec<u8>, all: &[Difference]) -> Result<(), AllocError>
    ensures { OnOk result
        (text.new.items ≡ text.old.items ++ count_members true kinds_by_name all.now) }
{
    let is_first = say_member(text, DifferenceKind::Bytes, all, true)?;
    let is_first = say_member(text, DifferenceKind::Edits, all, is_first)?;
    let is_first = say_member(text, DifferenceKind::Flags, all, is_first)?;
    let is_first = say_member(text, DifferenceKind::Groups, all, is_first)?;
    let is_first = say_member(text, DifferenceKind::Heads, all, is_first)?;
    let is_first = say_member(text, DifferenceKind::Kept, all, is_first)?;
    let is_first = say_member(text, DifferenceKind::Samples, all, is_first)?;
    let _ = say_member(text, DifferenceKind::Times, all, is_first)?;
    Ok(())
}

// Adds the words that leave these out, in the order of their bytes.
fn say_words(text: &mut Vec<u8>, leaving: Without) -> Result<(), AllocError>
    ensures { OnOk result (text.new.items ≡ text.old.items ++ leaving_list leaving) }
{
    let mut is_first = true;
    let mut left = BY_NAME;
    while let Some((word, more)) = left.split_first() {
        if leaving.has(*word) {
            say(text, if is_first { "\"" } else { ",\"" })?;
            say(text, word.name())?;
            say(text, "\"")?;
            is_first = false;
        }
        left = more;
    }
    Ok(())
}

// Adds with which words two files are the same, if there are any.
fn say_enough(text: &mut Vec<u8>, enough: Option<Without>) -> Result<(), AllocError>
    ensures { OnOk result (text.new.items ≡ text.old.items ++ enough_value enough) }
{
    match enough {
        Some(leaving) => {
            say(text, "[")?;
            say_words(text, leaving)?;
            say(text, "]")
        }
        None => say(text, "null"),
    }
}

// What stands before the number of differences: whether there may be more.
fn totals_front(is_whole: bool) -> &'static str
    ensures { result.now ≡ totals_front is_whole }
{
    if is_whole {
        "{\"at_least\":false,\"differences\":"
    } else {
        "{\"at_least\":true,\"differences\":"
    }
}

// Adds how many differences there are, or whether there are more, and how many of which kinds.
fn say_totals(text: &mut Vec<u8>, all: &[Difference], is_whole: bool) -> Result<(), AllocError>
    ensures { OnOk result (text.new.items ≡ text.old.items ++ total_members is_whole all.now) }
{
    say_counted(
        text,
        totals_front(is_whole),
        all.len() as u64,
        ",\"kinds\":{",
    )?;
    say_members(text, all)
}

/// Adds the object that ends a list of all differences: how many there are, or whether there are
/// more, how many of which kinds, and what has to be left out for the files to be the same.
pub(crate) fn say_last_object(
    text: &mut Vec<u8>,
    all: &[Difference],
    is_whole: bool,
    enough: Option<Without>,
) -> Result<(), AllocError>
    ensures { OnOk result
        (text.new.items ≡ text.old.items ++ last_object is_whole all.now enough) }
{
    say_totals(text, all, is_whole)?;
    say(text, "},\"without\":")?;
    say_enough(text, enough)?;
    say(text, "}")?;
    end_line(text)
}
