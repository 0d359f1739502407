//! Fields of boxes as text: lines, or members of an object of JSON.
ghost use Rattle.std.specs.Prelude.{◌≡◌, ◌+◌, ◌*◌, ◌/◌, ◌<◌, ◌≤◌, [], ◌++◌, length, replicate, nat_lt, if◌then◌else◌, codes, decimal, OnOk};
ghost use Rattle.std.specs.Fmt.{signed_decimal};
ghost use Rattle.mp4_boxes.specs.format.Bytes.{signed_field};
ghost use Rattle.mp4_answers.specs.format.FieldTexts.{apart, before, before_fields, before_rows, behind, behind_fields, behind_rows, between, closing, field_text, fields_text, named_text, notes_text, numbers_of, is_printable, code_of, opening, quote, quoted, row_text, some_text, value_text};
ghost use Rattle.mp4_answers.specs.format.Layouts.{width};
ghost use Rattle.mp4_answers.specs.format.Texts.{hex_text};
ghost use Rattle.mp4_answers.specs.words.LayoutsSeen.{field_seen, fields_seen};

use crate::layouts::{FieldKind, LayoutField, LeafHead};
use crate::text::difference_lines::{say_number, say_signed};
use crate::text::digits::hex_digit;
use crate::text::json_text::push_printable;
use crate::text::type_names::is_text;
use byteorder::{BigEndian, ByteOrder};
use mp4_boxes::i32_at;
use std::alloc::AllocError;

/// Where a field is told: in a line of its own, within so many boxes; in the line of a row; or as a
/// member of an object of JSON.
#[derive(Clone, Copy)]
pub(crate) enum FieldSpot {
    Line(u8),
    Cell,
    Member,
}

// Adds two spaces for each level.
pub(crate) fn push_levels(text: &mut Vec<u8>, levels: u8) -> Result<(), AllocError>
    ensures { OnOk result (text.new.items ≡ text.old.items ++ replicate (2 * levels) 32) }
{
    for _level in 0..levels {
        text.extend_from_slice(b"  ")?;
    }
    Ok(())
}

/// Adds bytes in two hexadecimal digits each.
pub(crate) fn push_hex(text: &mut Vec<u8>, bytes: &[u8]) -> Result<(), AllocError>
    ensures { OnOk result (text.new.items ≡ text.old.items ++ hex_text bytes.now) }
{
    for byte in bytes {
        text.push(hex_digit(byte / 16))?;
        text.push(hex_digit(byte % 16))?;
    }
    Ok(())
}

// Adds what stands before a value: its name, of two parts.
fn push_name(
    text: &mut Vec<u8>,
    spot: FieldSpot,
    name: &[u8],
    more: &[u8],
) -> Result<(), AllocError>
    ensures { OnOk result (text.new.items
        ≡ text.old.items ++ before spot ++ (name.now ++ more.now) ++ between spot) }
{
    match spot {
        FieldSpot::Line(levels) => push_levels(text, levels)?,
        FieldSpot::Cell => text.push(b' ')?,
        FieldSpot::Member => text.extend_from_slice(b",\"")?,
    }
    text.extend_from_slice(name)?;
    text.extend_from_slice(more)?;
    match spot {
        FieldSpot::Line(_) => text.extend_from_slice(b": "),
        FieldSpot::Cell => text.extend_from_slice(b"="),
        FieldSpot::Member => text.extend_from_slice(b"\":"),
    }
}

// Adds what stands behind a value.
fn push_end(text: &mut Vec<u8>, spot: FieldSpot) -> Result<(), AllocError>
    ensures { OnOk result (text.new.items ≡ text.old.items ++ behind spot) }
{
    match spot {
        FieldSpot::Line(_) => text.extend_from_slice(b"\n"),
        FieldSpot::Cell | FieldSpot::Member => Ok(()),
    }
}

// Adds what stands on both sides of a text.
fn push_quote(text: &mut Vec<u8>, spot: FieldSpot) -> Result<(), AllocError>
    ensures { OnOk result (text.new.items ≡ text.old.items ++ quote spot) }
{
    match spot {
        FieldSpot::Member => text.extend_from_slice(b"\""),
        FieldSpot::Line(_) | FieldSpot::Cell => Ok(()),
    }
}

// Adds bytes in digits, as a text.
fn push_digits(text: &mut Vec<u8>, spot: FieldSpot, bytes: &[u8]) -> Result<(), AllocError>
    ensures { OnOk result
        (text.new.items ≡ text.old.items ++ quoted spot (hex_text bytes.now)) }
{
    push_quote(text, spot)?;
    push_hex(text, bytes)?;
    push_quote(text, spot)
}

// Adds four characters where all can be printed, and else their digits.
fn push_code(text: &mut Vec<u8>, spot: FieldSpot, bytes: &[u8]) -> Result<(), AllocError>
    ensures { OnOk result (text.new.items ≡ text.old.items
        ++ (if is_printable bytes.now then code_of spot bytes.now else hex_text bytes.now)) }
{
    if !is_text(bytes) {
        return push_hex(text, bytes);
    }
    match spot {
        FieldSpot::Member => push_printable(text, bytes),
        FieldSpot::Line(_) | FieldSpot::Cell => text.extend_from_slice(bytes),
    }
}

// Adds a type, as a text.
fn push_type(text: &mut Vec<u8>, spot: FieldSpot, bytes: &[u8]) -> Result<(), AllocError>
    ensures { OnOk result (text.new.items ≡ text.old.items ++ quoted spot
        (if is_printable bytes.now then code_of spot bytes.now else hex_text bytes.now)) }
{
    push_quote(text, spot)?;
    push_code(text, spot, bytes)?;
    push_quote(text, spot)
}

// Adds what stands before a number of a matrix, of which so many stand before it.
fn push_apart(text: &mut Vec<u8>, spot: FieldSpot, before: usize) -> Result<(), AllocError>
    ensures { OnOk result (text.new.items
        ≡ text.old.items ++ (if nat_lt 0 before then apart spot else [])) }
{
    match spot {
        _ if before == 0 => Ok(()),
        FieldSpot::Member => text.extend_from_slice(b","),
        FieldSpot::Line(_) | FieldSpot::Cell => text.extend_from_slice(b" "),
    }
}

// Adds a number of a matrix, of which so many stand before it.
fn push_next(
    text: &mut Vec<u8>,
    spot: FieldSpot,
    before: usize,
    bytes: &[u8],
) -> Result<(), AllocError>
    requires { 4 * before + 4 ≤ length bytes.now }
    ensures { OnOk result (text.new.items ≡ text.old.items
        ++ ((if nat_lt 0 before then apart spot else [])
        ++ signed_decimal (signed_field bytes.now (4 * before) 4))) }
{
    push_apart(text, spot, before)?;
    say_signed(text, i64::from(i32_at(bytes, 4 * before)))
}

// Adds so many numbers of four bytes each.
fn push_numbers(
    text: &mut Vec<u8>,
    spot: FieldSpot,
    count: usize,
    bytes: &[u8],
) -> Result<(), AllocError>
    requires { 4 * count ≤ length bytes.now }
    ensures { OnOk result
        (text.new.items ≡ text.old.items ++ numbers_of (apart spot) count bytes.now) }
{
    for k in 0..count {
        push_next(text, spot, k, bytes)?;
    }
    Ok(())
}

// Adds what stands before the numbers of a matrix.
fn push_opening(text: &mut Vec<u8>, spot: FieldSpot) -> Result<(), AllocError>
    ensures { OnOk result (text.new.items ≡ text.old.items ++ opening spot) }
{
    match spot {
        FieldSpot::Member => text.extend_from_slice(b"["),
        FieldSpot::Line(_) | FieldSpot::Cell => Ok(()),
    }
}

// And behind them.
fn push_closing(text: &mut Vec<u8>, spot: FieldSpot) -> Result<(), AllocError>
    ensures { OnOk result (text.new.items ≡ text.old.items ++ closing spot) }
{
    match spot {
        FieldSpot::Member => text.extend_from_slice(b"]"),
        FieldSpot::Line(_) | FieldSpot::Cell => Ok(()),
    }
}

// Adds the numbers of a matrix, of four bytes each.
fn push_matrix(text: &mut Vec<u8>, spot: FieldSpot, bytes: &[u8]) -> Result<(), AllocError>
    ensures { OnOk result (text.new.items ≡ text.old.items ++ opening spot
        ++ numbers_of (apart spot) (length bytes.now / 4) bytes.now ++ closing spot) }
{
    push_opening(text, spot)?;
    push_numbers(text, spot, bytes.len() / 4, bytes)?;
    push_closing(text, spot)
}

// Adds the value of a field, which has a byte at least.
fn push_value(
    text: &mut Vec<u8>,
    spot: FieldSpot,
    kind: FieldKind,
    head: LeafHead,
    bytes: &[u8],
) -> Result<(), AllocError>
    requires { 0 < length bytes.now }
    ensures { OnOk result
        (text.new.items ≡ text.old.items ++ value_text spot kind head bytes.now) }
{
    let size = bytes.len().min(8);
    match kind {
        FieldKind::Offset if head.version > 0 => {
            say_signed(text, BigEndian::read_int(bytes, size))
        }
        FieldKind::Signed => say_signed(text, BigEndian::read_int(bytes, size)),
        FieldKind::Number | FieldKind::Offset => {
            say_number(text, BigEndian::read_uint(bytes, size))
        }
        FieldKind::Hex => push_digits(text, spot, bytes),
        FieldKind::Code => push_type(text, spot, bytes),
        FieldKind::Matrix => push_matrix(text, spot, bytes),
    }
}

// Adds a field of these bytes; nothing where it has none.
fn push_field(
    text: &mut Vec<u8>,
    spot: FieldSpot,
    head: LeafHead,
    field: &LayoutField,
    bytes: &[u8],
) -> Result<(), AllocError>
    requires { length bytes.now ≡ width head (field_seen field.now) }
    ensures { OnOk result
        (text.new.items ≡ text.old.items ++ field_text spot head (field_seen field.now) bytes.now) }
{
    if bytes.is_empty() {
        return Ok(());
    }
    push_name(text, spot, field.0, b"")?;
    push_value(text, spot, field.1, head, bytes)?;
    push_end(text, spot)
}

/// Adds the fields of which all bytes are there, up to the first that lacks some.
pub(crate) fn push_fields(
    text: &mut Vec<u8>,
    spot: FieldSpot,
    head: LeafHead,
    fields: &[LayoutField],
    bytes: &[u8],
) -> Result<(), AllocError>
    ensures { OnOk result (text.new.items
        ≡ text.old.items ++ fields_text spot head (fields_seen fields.now) bytes.now) }
{
    let mut rest = bytes;
    for field in fields {
        let width = field.width(head);
        if rest.len() < width {
            return Ok(());
        }
        let (own, more) = rest.split_at(width);
        push_field(text, spot, head, field, own)?;
        rest = more;
    }
    Ok(())
}

/// Adds a number under a name of two parts.
pub(crate) fn push_count(
    text: &mut Vec<u8>,
    spot: FieldSpot,
    name: &[u8],
    more: &[u8],
    number: u64,
) -> Result<(), AllocError>
    ensures { OnOk result (text.new.items
        ≡ text.old.items ++ named_text spot (name.now ++ more.now) (decimal number)) }
{
    push_name(text, spot, name, more)?;
    say_number(text, number)?;
    push_end(text, spot)
}

/// Adds the same where the number isn't 0.
pub(crate) fn push_some(
    text: &mut Vec<u8>,
    spot: FieldSpot,
    name: &[u8],
    number: u64,
) -> Result<(), AllocError>
    ensures { OnOk result (text.new.items ≡ text.old.items ++ some_text spot name.now number) }
{
    if number > 0 {
        push_count(text, spot, name, b"", number)?;
    }
    Ok(())
}

/// Adds bytes in digits, under a name of two parts.
pub(crate) fn push_bytes(
    text: &mut Vec<u8>,
    spot: FieldSpot,
    name: &[u8],
    more: &[u8],
    bytes: &[u8],
) -> Result<(), AllocError>
    ensures { OnOk result (text.new.items ≡ text.old.items
        ++ named_text spot (name.now ++ more.now) (quoted spot (hex_text bytes.now))) }
{
    push_name(text, spot, name, more)?;
    push_digits(text, spot, bytes)?;
    push_end(text, spot)
}

/// Adds the row of this number, from 1 on.
pub(crate) fn push_row(
    text: &mut Vec<u8>,
    spot: FieldSpot,
    head: LeafHead,
    columns: &[LayoutField],
    number: u64,
    bytes: &[u8],
) -> Result<(), AllocError>
    ensures { OnOk result (text.new.items ≡ text.old.items
        ++ row_text spot head (fields_seen columns.now) number bytes.now) }
{
    match spot {
        FieldSpot::Line(levels) => {
            push_levels(text, levels)?;
            text.extend_from_slice(b"row ")?;
            say_number(text, number)?;
            text.push(b':')?;
            push_fields(text, FieldSpot::Cell, head, columns, bytes)?;
            text.extend_from_slice(b"\n")
        }
        FieldSpot::Cell | FieldSpot::Member => {
            if number > 1 {
                text.push(b',')?;
            }
            text.extend_from_slice(b"{\"row\":")?;
            say_number(text, number)?;
            push_fields(text, FieldSpot::Member, head, columns, bytes)?;
            text.extend_from_slice(b"}")
        }
    }
}

/// Adds how many bytes are missing, and how many are left over, where so many are there and so many
/// are due.
pub(crate) fn push_notes(
    text: &mut Vec<u8>,
    spot: FieldSpot,
    there: u64,
    due: u64,
) -> Result<(), AllocError>
    ensures { OnOk result (text.new.items ≡ text.old.items ++ notes_text spot there due) }
{
    push_some(text, spot, b"missing_bytes", due.saturating_sub(there))?;
    push_some(text, spot, b"left_over_bytes", there.saturating_sub(due))
}

/// Adds what stands before the rows.
pub(crate) fn open_rows(text: &mut Vec<u8>, spot: FieldSpot) -> Result<(), AllocError>
    ensures { OnOk result (text.new.items ≡ text.old.items ++ before_rows spot) }
{
    match spot {
        FieldSpot::Line(_) => Ok(()),
        FieldSpot::Cell | FieldSpot::Member => text.extend_from_slice(b",\"rows\":["),
    }
}

/// And behind them.
pub(crate) fn close_rows(text: &mut Vec<u8>, spot: FieldSpot) -> Result<(), AllocError>
    ensures { OnOk result (text.new.items ≡ text.old.items ++ behind_rows spot) }
{
    match spot {
        FieldSpot::Line(_) => Ok(()),
        FieldSpot::Cell | FieldSpot::Member => text.extend_from_slice(b"]"),
    }
}

// Adds the name of the fields, and of how many bytes a payload has.
fn push_payload(text: &mut Vec<u8>, len: u64) -> Result<(), AllocError>
    ensures { OnOk result (text.new.items
        ≡ text.old.items ++ codes ",\"fields\":{\"bytes\":" ++ decimal len) }
{
    text.extend_from_slice(b",\"fields\":{\"bytes\":")?;
    say_number(text, len)
}

/// Adds what stands before the fields of a box with a payload of so many bytes.
pub(crate) fn open_fields(text: &mut Vec<u8>, spot: FieldSpot, len: u64) -> Result<(), AllocError>
    ensures { OnOk result (text.new.items ≡ text.old.items ++ before_fields spot len) }
{
    match spot {
        FieldSpot::Line(_) => Ok(()),
        FieldSpot::Cell | FieldSpot::Member => push_payload(text, len),
    }
}

/// And behind them.
pub(crate) fn close_fields(text: &mut Vec<u8>, spot: FieldSpot) -> Result<(), AllocError>
    ensures { OnOk result (text.new.items ≡ text.old.items ++ behind_fields spot) }
{
    match spot {
        FieldSpot::Line(_) => Ok(()),
        FieldSpot::Cell | FieldSpot::Member => text.extend_from_slice(b"}"),
    }
}
