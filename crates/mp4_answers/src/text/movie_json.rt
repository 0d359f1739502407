//! A movie as one line of JSON.
ghost use Rattle.std.specs.Prelude.{◌≡◌, map, IfOk, string_bytes};
ghost use Rattle.serde_json.specs.Data.{array};
ghost use Rattle.serde_json.specs.View.{items_of, view};
ghost use Rattle.serde_json.specs.Written.{compact_text};
ghost use Rattle.mp4_head.specs.format.Head.{handler_type};
ghost use Rattle.mp4_head.specs.words.Seen.{kept_seen, edit_seen, track_seen, movie_seen, tracks_seen};
ghost use Rattle.mp4_answers.specs.format.Texts.{description_value, edit_data};
ghost use Rattle.mp4_answers.specs.words.ShowValue.{info_value, infos_values, ShowValue};

use crate::text::type_names::type_string;
use mp4_head::{Edit, Kept, MovieHead, TrackHead};
use mp4_present::TrackInfo;
use serde_json::{Value, json};
use std::alloc::{AllocError, Global};

fn edit_data(alloc: Global, edit: &Edit) -> Result<Value, AllocError>
    ensures { IfOk result (λ v. view v ≡ edit_data (edit_seen edit.now)) }
{
    json!(in alloc; [edit.segment_duration, edit.media_time, edit.rate_integer, edit.rate_fraction])
}

fn edits_value(alloc: Global, edits: &[Edit]) -> Result<Value, AllocError>
    ensures { IfOk result (λ v. view v
        ≡ array (items_of (map edit_data (map edit_seen edits.now)))) }
{
    let mut values = Vec::new(alloc);
    for edit in edits {
        values.push(edit_data(alloc, edit)?)?;
    }
    Ok(Value::Array(values))
}

fn description_value(alloc: Global, description: &Kept) -> Result<Value, AllocError>
    ensures { IfOk result (λ v. view v ≡ description_value (kept_seen description.now)) }
{
    Ok(Value::String(type_string(alloc, &description.kind.0)?))
}

fn descriptions_value(alloc: Global, descriptions: &[Kept]) -> Result<Value, AllocError>
    ensures { IfOk result (λ v. view v
        ≡ array (items_of (map description_value (map kept_seen descriptions.now)))) }
{
    let mut values = Vec::new(alloc);
    for description in descriptions {
        values.push(description_value(alloc, description)?)?;
    }
    Ok(Value::Array(values))
}

// The type that a handler names.
fn handler_type(handler: &[u8]) -> &[u8]
    ensures { result.now ≡ handler_type handler.now }
{
    let end = handler.len().min(12);
    &handler[end.min(8)..end]
}

fn track_value(alloc: Global, head: &TrackHead, info: &TrackInfo) -> Result<Value, AllocError>
    ensures { IfOk result (λ v. view v ≡ info_value (track_seen head.now) info.now) }
{
    let descriptions = descriptions_value(alloc, head.media.descriptions.as_slice())?;
    let edits = edits_value(alloc, head.edits.as_slice())?;
    let handler = type_string(alloc, handler_type(head.media.handler))?;
    json!(in alloc; {
        "bytes": info.bytes,
        "descriptions": descriptions,
        "duration": info.duration,
        "edits": edits,
        "handler": handler,
        "id": head.id,
        "samples": info.samples,
        "start": info.start,
        "timescale": head.media.timescale,
    })
}

fn tracks_value(
    alloc: Global,
    heads: &[TrackHead],
    infos: &[TrackInfo],
) -> Result<Value, AllocError>
    ensures { IfOk result (λ v. view v
        ≡ array (items_of (infos_values (map track_seen heads.now) infos.now))) }
{
    let mut values = Vec::new(alloc);
    for (head, info) in heads.iter().zip(infos) {
        values.push(track_value(alloc, head, info)?)?;
    }
    Ok(Value::Array(values))
}

fn movie_value(
    alloc: Global,
    head: &MovieHead,
    mehd: u64,
    infos: &[TrackInfo],
) -> Result<Value, AllocError>
    ensures { IfOk result (λ v. view v
        ≡ ShowValue (movie_seen head.now) (tracks_seen head.now) mehd infos.now) }
{
    let tracks = tracks_value(alloc, head.tracks.as_slice(), infos)?;
    json!(in alloc; {"mehd": mehd, "timescale": head.timescale, "tracks": tracks})
}

/// What is shown of a movie, its tracks in numbers beside their heads: one line, without the line
/// feed.
pub fn show_text(
    alloc: Global,
    head: &MovieHead,
    mehd: u64,
    infos: &[TrackInfo],
) -> Result<String, AllocError>
    ensures { IfOk result (λ text. string_bytes text
        ≡ compact_text (ShowValue (movie_seen head.now) (tracks_seen head.now) mehd infos.now)) }
{
    let value = movie_value(alloc, head, mehd, infos)?;
    value.to_string(alloc)
}
