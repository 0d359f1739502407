//! A box as an object of JSON.
ghost use Rattle.std.specs.Prelude.{◌≡◌, ◌≤◌, ◌++◌, true, false, codes, None, Some, IfOk, OnOk, string_bytes};
ghost use Rattle.serde_json.specs.View.{view};
ghost use Rattle.serde_json.specs.Written.{compact_text};
ghost use Rattle.mp4_answers.specs.format.Texts.{box_data, hex_text, uuid_text};
ghost use Rattle.mp4_answers.specs.words.BoxSpans.{found_value};

use crate::text::type_names::{push_character, push_hex, type_string};
use mp4_boxes::{FourCc, Rule};
use mp4_present::TopBox;
use serde_json::{Value, json};
use std::alloc::{AllocError, Global};

// Adds bytes in two hexadecimal digits each.
fn push_bytes(text: &mut String, bytes: &[u8]) -> Result<(), AllocError>
    ensures { OnOk result (string_bytes text.new ≡ string_bytes text.old ++ hex_text bytes.now) }
{
    for byte in bytes {
        push_hex(text, *byte)?;
    }
    Ok(())
}

// Adds a hyphen, and bytes in two hexadecimal digits each.
fn push_group(text: &mut String, bytes: &[u8]) -> Result<(), AllocError>
    ensures { OnOk result
        (string_bytes text.new ≡ string_bytes text.old ++ codes "-" ++ hex_text bytes.now) }
{
    push_character(text, b'-')?;
    push_bytes(text, bytes)
}

/// A UUID in five groups of hexadecimal digits (RFC 9562, 4).
pub(crate) fn uuid_string(alloc: Global, bytes: &[u8; 16]) -> Result<String, AllocError>
    ensures { IfOk result (λ text. string_bytes text ≡ uuid_text bytes.now) }
{
    let mut text = String::new(alloc);
    push_bytes(&mut text, &bytes[..4])?;
    push_group(&mut text, &bytes[4..6])?;
    push_group(&mut text, &bytes[6..8])?;
    push_group(&mut text, &bytes[8..10])?;
    push_group(&mut text, &bytes[10..])?;
    Ok(text)
}

// What is told of a box that stands in so many containers, under this rule.
fn plain_value(alloc: Global, depth: u8, rule: Rule, found: &TopBox) -> Result<Value, AllocError>
    requires { found.now.offset ≤ found.now.header.end }
    ensures { IfOk result (λ v. view v ≡ found_value depth rule found.now None) }
{
    let (offset, size) = (found.offset, found.header.end - found.offset);
    let kind = type_string(alloc, &found.header.kind.0)?;
    if rule.allows(found.header.kind) {
        json!(in alloc; {"depth": depth, "offset": offset, "size": size, "type": kind})
    } else {
        json!(in alloc; {
            "depth": depth,
            "foreign": true,
            "offset": offset,
            "size": size,
            "type": kind,
        })
    }
}

// What is told of a `uuid` that the profile allows where it stands; its type and UUID are texts.
fn allowed_value(
    alloc: Global,
    depth: u8,
    offset: u64,
    size: u64,
    kind: String,
    uuid: String,
) -> Result<Value, AllocError>
    ensures { IfOk result (λ v. view v
        ≡ box_data depth true offset size (string_bytes kind) (Some (string_bytes uuid))) }
{
    json!(in alloc; {
        "depth": depth,
        "offset": offset,
        "size": size,
        "type": kind,
        "uuid": uuid,
    })
}

// And of one that it refuses there.
fn foreign_value(
    alloc: Global,
    depth: u8,
    offset: u64,
    size: u64,
    kind: String,
    uuid: String,
) -> Result<Value, AllocError>
    ensures { IfOk result (λ v. view v
        ≡ box_data depth false offset size (string_bytes kind) (Some (string_bytes uuid))) }
{
    json!(in alloc; {
        "depth": depth,
        "foreign": true,
        "offset": offset,
        "size": size,
        "type": kind,
        "uuid": uuid,
    })
}

// What is told of a `uuid` with this UUID.
fn uuid_value(
    alloc: Global,
    depth: u8,
    rule: Rule,
    found: &TopBox,
    uuid: &[u8; 16],
) -> Result<Value, AllocError>
    requires { found.now.offset ≤ found.now.header.end }
    ensures { IfOk result (λ v. view v ≡ found_value depth rule found.now (Some uuid.now)) }
{
    let (offset, size) = (found.offset, found.header.end - found.offset);
    let kind = type_string(alloc, &found.header.kind.0)?;
    let text = uuid_string(alloc, uuid)?;
    if rule.allows(found.header.kind) {
        allowed_value(alloc, depth, offset, size, kind, text)
    } else {
        foreign_value(alloc, depth, offset, size, kind, text)
    }
}

// The same of any box.
fn box_data(
    alloc: Global,
    depth: u8,
    rule: Rule,
    found: &TopBox,
    uuid: Option<[u8; 16]>,
) -> Result<Value, AllocError>
    requires { found.now.offset ≤ found.now.header.end }
    ensures { IfOk result (λ v. view v ≡ found_value depth rule found.now uuid) }
{
    match uuid {
        None => plain_value(alloc, depth, rule, found),
        Some(uuid) => uuid_value(alloc, depth, rule, found, &uuid),
    }
}

/// The object of a box that stands in so many containers, under this rule, without a line feed. Of
/// a `uuid` it is told which.
pub(crate) fn box_json(
    alloc: Global,
    depth: u8,
    rule: Rule,
    found: &TopBox,
    uuid: Option<[u8; 16]>,
) -> Result<String, AllocError>
    requires { found.now.offset ≤ found.now.header.end }
    ensures { IfOk result
        (λ text. string_bytes text ≡ compact_text (found_value depth rule found.now uuid)) }
{
    let value = box_data(alloc, depth, rule, found, uuid)?;
    value.to_string(alloc)
}
