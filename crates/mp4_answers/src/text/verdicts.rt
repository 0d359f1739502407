//! The verdict on a file: a line of its name and of what is said of it.
ghost use Rattle.std.specs.Prelude.{◌≡◌, IfErr, IfOk, OnOk, ◌++◌, string_bytes};
ghost use Rattle.serde_json.specs.View.{view};
ghost use Rattle.serde_json.specs.Written.{compact_text};
ghost use Rattle.mp4_answers.specs.format.Verdicts.{fault_value, failure_text, verdict_line, verdict_members, verdict_object, verdict_text, verdict_status, RefusesVerdict};

use crate::jobs::{Syntax, VerdictStyle};
use crate::text::fault_text::{fault_line, status};
use crate::text::type_names::type_string;
use mp4_boxes::{Fault, Refusal};
use mp4_store::Sink;
use serde_json::{Value, json};
use std::alloc::{AllocError, Global};

// Adds the verdict as text.
fn push_text(
    line: &mut Vec<u8>,
    name: &[u8],
    answer: &Result<(), Refusal>,
) -> Result<(), AllocError>
    ensures { OnOk result (line.new.items ≡ line.old.items ++ verdict_line name.now answer.now) }
{
    line.extend_from_slice(name)?;
    line.extend_from_slice(b": ")?;
    match answer {
        Ok(()) => line.extend_from_slice(b"accepted"),
        Err(refusal) => line.extend_from_slice(fault_line(refusal).as_bytes()),
    }
}

// What is told of a fault.
fn fault_value(alloc: Global, fault: &Fault) -> Result<Value, AllocError>
    ensures { IfOk result (λ v. view v ≡ fault_value fault.now) }
{
    let named = type_string(alloc, &fault.box_type)?;
    json!(in alloc; {"box": named, "kind": fault.kind.name(), "offset": fault.offset})
}

// The same as JSON.
fn fault_json(alloc: Global, fault: &Fault) -> Result<String, AllocError>
    ensures { IfOk result (λ text. string_bytes text ≡ compact_text (fault_value fault.now)) }
{
    let value = fault_value(alloc, fault)?;
    value.to_string(alloc)
}

// What is said of a failure.
fn failure_text(refusal: &Refusal) -> &'static str
    ensures { result.now ≡ failure_text refusal.now }
{
    match refusal {
        Refusal::Fault(_) => "",
        Refusal::Memory => "memory",
        Refusal::StoreFailed => "store",
        Refusal::StoreChanged => "store changed",
        Refusal::WriteFailed => "write",
        Refusal::NoSuchTrack => "no such track",
    }
}

// Adds the members of a verdict but for its status.
fn push_members(
    alloc: Global,
    line: &mut Vec<u8>,
    name: &[u8],
    answer: &Result<(), Refusal>,
) -> Result<(), AllocError>
    ensures { OnOk result (line.new.items ≡ line.old.items ++ verdict_members name.now answer.now) }
{
    match answer {
        Ok(()) => {
            line.extend_from_slice(b"\"file\":")?;
            line.extend_from_slice(name)
        }
        Err(Refusal::Fault(fault)) => {
            line.extend_from_slice(b"\"file\":")?;
            line.extend_from_slice(name)?;
            line.extend_from_slice(b",\"refused\":")?;
            line.extend_from_slice(fault_json(alloc, fault)?.as_str().as_bytes())
        }
        Err(refusal) => {
            line.extend_from_slice(b"\"failed\":\"")?;
            line.extend_from_slice(failure_text(refusal).as_bytes())?;
            line.extend_from_slice(b"\",\"file\":")?;
            line.extend_from_slice(name)
        }
    }
}

// Adds the verdict as an object of JSON.
fn push_object(
    alloc: Global,
    line: &mut Vec<u8>,
    name: &[u8],
    answer: &Result<(), Refusal>,
) -> Result<(), AllocError>
    ensures { OnOk result (line.new.items ≡ line.old.items ++ verdict_object name.now answer.now) }
{
    line.push(b'{')?;
    push_members(alloc, line, name, answer)?;
    line.extend_from_slice(b",\"status\":")?;
    line.push(b'0' + verdict_status(answer))?;
    line.push(b'}')?;
    Ok(())
}

// The verdict in this style, with the byte that ends it.
fn verdict(
    alloc: Global,
    name: &[u8],
    answer: &Result<(), Refusal>,
    style: VerdictStyle,
) -> Result<Vec<u8>, AllocError>
    ensures { IfOk result (λ line. line.items ≡ verdict_text name.now answer.now style) }
{
    let mut line = Vec::new(alloc);
    match style.syntax {
        Syntax::Text => push_text(&mut line, name, answer)?,
        Syntax::Json => push_object(alloc, &mut line, name, answer)?,
    }
    line.push(style.end)?;
    Ok(line)
}

/// Puts the verdict on a file of this name: `NAME: accepted`, or the name and the line of the
/// refusal; or an object of JSON, for which the name is given as a string of JSON. The byte of the
/// style ends it.
pub fn put_verdict<K: Sink>(
    alloc: Global,
    name: &[u8],
    answer: &Result<(), Refusal>,
    style: VerdictStyle,
    sink: &mut K,
) -> Result<(), Refusal>
    ensures puts { OnOk result (K.put_failures sink.new ≡ K.put_failures sink.old) }
    ensures text { OnOk result
        (K.takes sink.old sink.new (verdict_text name.now answer.now style)) }
    ensures refusal { IfErr result (RefusesVerdict (verdict_text name.now answer.now style)
        (K.takes sink.old sink.new) (K.put_failures sink.old)
        (K.put_failures sink.new)) }
{
    let line = verdict(alloc, name, answer, style)?;
    sink.put(line.as_slice())?;
    Ok(())
}

/// The status of a verdict: 0 where the file is accepted, else that of the refusal.
pub fn verdict_status(answer: &Result<(), Refusal>) -> u8
    ensures { result ≡ verdict_status answer.now }
{
    match answer {
        Ok(()) => 0,
        Err(refusal) => status(refusal),
    }
}
