//! The boxes of a file, a line each.
ghost use Rattle.std.specs.Prelude.{◌≡◌, ◌+◌, ◌≤◌, ◌++◌, length, IfOk, OnOk};
ghost use Rattle.std.specs.List.{All};
ghost use Rattle.mp4_answers.specs.format.Answers.{BoxesListed, FieldsListed, FormListed};
ghost use Rattle.mp4_answers.specs.format.FieldTexts.{spot_of};
ghost use Rattle.mp4_answers.specs.format.BoxWalk.{height, rule_inside, top_seen, IsWithin, RefusesTops};
ghost use Rattle.mp4_answers.specs.format.Run.{KeepsFile, run_of};
ghost use Rattle.mp4_answers.specs.format.BoxTexts.{box_line, object_text, opened, own_fields, with_fields, without_fields, FormLines};
ghost use Rattle.mp4_answers.specs.format.Texts.{line_text, uuid_of};
ghost use Rattle.mp4_answers.specs.words.BoxSpans.{AddsLines, RefusesLine, RefusesSpan, TilesSpan};
ghost use Rattle.mp4_present.specs.words.StoresRead.{OnlyReads, RefusedOf, WhereHonest, WhereRead};
ghost use Rattle.mp4_boxes.specs.declared.rule.Rule.TheVariants as rules;
ghost use Rattle.mp4_store.specs.words.Device.{Counts};
ghost use Rattle.mp4_answers.specs.words.StoreAndSink.{Reads};

use crate::commands::box_fields::{FieldStyle, add_fields};
use crate::commands::box_headers::read_header;
use crate::jobs::{BoxForm, Syntax};
use crate::text::box_json::box_json;
use crate::text::field_lines::FieldSpot;
use crate::text::line::Line;
use mp4_boxes::{FourCc, Refusal, Rule};
use mp4_present::TopBox;
use mp4_store::{Sink, Store, StoreFailed};
use std::alloc::{AllocError, Global};

// In which syntax boxes are listed with their fields, and with how many rows at most.
#[derive(Clone, Copy)]
struct FieldForm {
    syntax: Syntax,
    most: u64,
}

// The line of a box of this type and size at this place of the file, in so many containers.
fn line_of(depth: u8, kind: FourCc, offset: u64, size: u64) -> Line
    requires { depth ≤ 5 }
    ensures { result ≡ line_text depth kind.0 offset size }
{
    let mut line = Line::new();
    for _level in 0..depth {
        line.push_bytes(b"  ");
    }
    line.push_type(kind);
    line.push(b' ');
    line.push_number(offset);
    line.push(b' ');
    line.push_number(size);
    line.push(b'\n');
    line
}

/// The first 16 bytes of the payload of a `uuid`; none of any other box, or where it has fewer
/// bytes.
pub(crate) fn read_uuid<S: Store>(
    store: &mut S,
    found: &TopBox,
) -> Result<Option<[u8; 16]>, StoreFailed>
    requires { IsWithin (S.file store.old) found.now }
    ensures store { OnlyReads S.Store store.old store.new result }
    ensures uuid { WhereRead S.Store store.old result
        (λ file uuid. uuid ≡ uuid_of (top_seen file found.now)) }
    ensures cause { Counts (S.read_failures store.old) (S.read_failures store.new) result }
{
    let _size = store.len();
    let header = found.header;
    let payload = found.offset + u64::from(header.header);
    if header.kind != FourCc(*b"uuid") || header.end - payload < 16 {
        return Ok(None);
    }
    let mut bytes = [0; 16];
    store.read_at(payload, &mut bytes)?;
    Ok(Some(bytes))
}

// The level of a box: the rule that it stands under, and in how many containers.
#[derive(Clone, Copy)]
struct Level {
    rule: Rule,
    depth: u8,
}

// Where the fields of a box are told that stands in so many containers.
fn spot_of(syntax: Syntax, depth: u8) -> FieldSpot
    requires { depth ≤ 5 }
    ensures { result ≡ spot_of syntax (depth + 1) }
{
    match syntax {
        Syntax::Text => FieldSpot::Line(depth + 1),
        Syntax::Json => FieldSpot::Member,
    }
}

// Adds the line of a box at a level, without its fields.
fn add_plain<S: Store>(
    text: &mut Vec<u8>,
    alloc: Global,
    store: &mut S,
    syntax: Syntax,
    level: Level,
    found: &TopBox,
) -> Result<(), Refusal>
    requires levels { level.depth ≤ 5 }
    requires within { IsWithin (S.file store.old) found.now }
    ensures store { OnlyReads S.Store store.old store.new result }
    ensures line { OnOk result (WhereHonest S.Store store.old (λ file. text.new.items
        ≡ text.old.items ++ box_line (without_fields syntax) level.rule level.depth
        (top_seen file found.now))) }
    ensures refusal { RefusedOf S.Store store.old store.new result (λ honest file. RefusesLine) }
{
    match syntax {
        Syntax::Text => {
            let header = found.header;
            let line = line_of(
                level.depth,
                header.kind,
                found.offset,
                header.end - found.offset,
            );
            text.extend_from_slice(line.as_bytes())?;
        }
        Syntax::Json => {
            let uuid = read_uuid(store, found)?;
            let line = box_json(alloc, level.depth, level.rule, found, uuid)?;
            text.extend_from_slice(line.as_str().as_bytes())?;
            text.push(b'\n')?;
        }
    }
    Ok(())
}

// Adds the fields of a box that stands in so many containers, and at most so many of its rows.
fn add_own<S: Store>(
    text: &mut Vec<u8>,
    alloc: Global,
    store: &mut S,
    form: FieldForm,
    depth: u8,
    found: &TopBox,
) -> Result<(), Refusal>
    requires levels { depth ≤ 5 }
    requires within { IsWithin (S.file store.old) found.now }
    ensures store { OnlyReads S.Store store.old store.new result }
    ensures text { OnOk result (WhereHonest S.Store store.old (λ file. text.new.items
        ≡ text.old.items ++ own_fields form.syntax form.most depth (top_seen file found.now))) }
    ensures refusal { RefusedOf S.Store store.old store.new result (λ honest file. RefusesLine) }
{
    let style = FieldStyle {
        spot: spot_of(form.syntax, depth),
        most: form.most,
    };
    add_fields(text, alloc, store, style, found)
}

// Adds an object without its last brace.
fn push_opened(text: &mut Vec<u8>, object: &[u8]) -> Result<(), AllocError>
    ensures { OnOk result (text.new.items ≡ text.old.items ++ opened object.now) }
{
    let len = object.len().saturating_sub(1);
    text.extend_from_slice(&object[..len])
}

// Adds the object of a box at a level without its last brace.
fn add_opened<S: Store>(
    text: &mut Vec<u8>,
    alloc: Global,
    store: &mut S,
    level: Level,
    found: &TopBox,
) -> Result<(), Refusal>
    requires within { IsWithin (S.file store.old) found.now }
    ensures store { OnlyReads S.Store store.old store.new result }
    ensures object { OnOk result (WhereHonest S.Store store.old (λ file. text.new.items
        ≡ text.old.items ++ opened (object_text level.rule level.depth
        (top_seen file found.now)))) }
    ensures refusal { RefusedOf S.Store store.old store.new result (λ honest file. RefusesLine) }
{
    let uuid = read_uuid(store, found)?;
    let object = box_json(alloc, level.depth, level.rule, found, uuid)?;
    push_opened(text, object.as_str().as_bytes())?;
    Ok(())
}

// Adds the line of a box at a level, and its fields.
fn add_with_fields<S: Store>(
    text: &mut Vec<u8>,
    alloc: Global,
    store: &mut S,
    form: FieldForm,
    level: Level,
    found: &TopBox,
) -> Result<(), Refusal>
    requires levels { level.depth ≤ 5 }
    requires within { IsWithin (S.file store.old) found.now }
    ensures store { OnlyReads S.Store store.old store.new result }
    ensures line { OnOk result (WhereHonest S.Store store.old (λ file. text.new.items
        ≡ text.old.items ++ box_line (with_fields form.syntax form.most) level.rule level.depth
        (top_seen file found.now))) }
    ensures refusal { RefusedOf S.Store store.old store.new result (λ honest file. RefusesLine) }
{
    match form.syntax {
        Syntax::Text => {
            add_plain(text, alloc, store, Syntax::Text, level, found)?;
            add_own(text, alloc, store, form, level.depth, found)
        }
        Syntax::Json => {
            add_opened(text, alloc, store, level, found)?;
            add_own(text, alloc, store, form, level.depth, found)?;
            text.extend_from_slice(b"}\n")?;
            Ok(())
        }
    }
}

// Adds the line of a box at a level, with its fields where these are asked for.
fn add_line<S: Store>(
    text: &mut Vec<u8>,
    alloc: Global,
    store: &mut S,
    form: BoxForm,
    level: Level,
    found: &TopBox,
) -> Result<(), Refusal>
    requires levels { level.depth ≤ 5 }
    requires within { IsWithin (S.file store.old) found.now }
    ensures store { OnlyReads S.Store store.old store.new result }
    ensures line { OnOk result (WhereHonest S.Store store.old (λ file. text.new.items
        ≡ text.old.items ++ box_line form level.rule level.depth (top_seen file found.now))) }
    ensures refusal { RefusedOf S.Store store.old store.new result (λ honest file. RefusesLine) }
{
    let syntax = form.syntax;
    match form.rows {
        None => add_plain(text, alloc, store, syntax, level, found),
        Some(most) => {
            let form = FieldForm { syntax, most };
            add_with_fields(text, alloc, store, form, level, found)
        }
    }
}

/// The rule of the boxes in a box of this type, where it is a container of boxes.
pub(crate) fn rule_inside(rule: Rule, kind: FourCc) -> Option<Rule>
    ensures { result ≡ rule_inside rule kind.0 }
{
    let is = |name: &[u8; 4]| FourCc(*name) == kind;
    match rule {
        Rule::File if is(b"moov") => Some(Rule::Movie),
        Rule::File if is(b"moof") => Some(Rule::MovieFragment),
        Rule::Movie if is(b"trak") => Some(Rule::Track),
        Rule::Movie if is(b"mvex") => Some(Rule::MovieExtends),
        Rule::Track if is(b"edts") => Some(Rule::Edits),
        Rule::Track if is(b"mdia") => Some(Rule::Media),
        Rule::Media if is(b"minf") => Some(Rule::MediaInformation),
        Rule::MediaInformation if is(b"dinf") => Some(Rule::DataInformation),
        Rule::MediaInformation if is(b"stbl") => Some(Rule::SampleTable),
        Rule::MovieFragment if is(b"traf") => Some(Rule::TrackFragment),
        _ => None,
    }
}

/// Where the boxes of a container lie: under this rule, from here to there.
#[derive(Clone, Copy)]
pub(crate) struct BoxSpan {
    pub(crate) rule: Rule,
    pub(crate) from: u64,
    pub(crate) end: u64,
}

/// The boxes of a file of this length.
pub(crate) fn whole_file(len: u64) -> BoxSpan
    ensures { result ≡ record { rule = rules.File; from = 0; end = len } }
{
    BoxSpan {
        rule: Rule::File,
        from: 0,
        end: len,
    }
}

// The boxes of a container, by their headers.
fn boxes_between<S: Store>(
    alloc: Global,
    store: &mut S,
    span: BoxSpan,
) -> Result<Vec<TopBox>, Refusal>
    requires span { span.from ≤ span.end }
    requires within { span.end ≤ length (S.file store.old) }
    ensures store { OnlyReads S.Store store.old store.new result }
    ensures tiles { WhereRead S.Store store.old result
        (λ file boxes. TilesSpan file span.rule span.from span.end boxes.items) }
    ensures within { IfOk result (λ boxes. All (IsWithin (S.file store.old)) boxes.items) }
    ensures refusal { RefusedOf S.Store store.old store.new result (λ honest file.
        RefusesSpan honest file span.rule span.from span.end) }
{
    let mut boxes = Vec::new(alloc);
    let mut at = span.from;
    while at < span.end {
        let header = read_header(store, span.rule, at, span.end)?;
        boxes.push(TopBox { offset: at, header })?;
        at = header.end;
    }
    Ok(boxes)
}

// Adds the lines of the boxes of a container, and behind each those of the boxes in it. The headers
// of all its boxes are read before those of boxes in them. No payload is read but, for JSON, the
// first bytes of each `uuid`.
fn push_boxes<S: Store>(
    text: &mut Vec<u8>,
    alloc: Global,
    store: &mut S,
    form: BoxForm,
    depth: u8,
    span: BoxSpan,
) -> Result<(), Refusal>
    requires levels { depth + height span.rule ≤ 6 }
    requires span { span.from ≤ span.end }
    requires within { span.end ≤ length (S.file store.old) }
    ensures store { OnlyReads S.Store store.old store.new result }
    ensures lines { OnOk result (WhereHonest S.Store store.old
        (λ file. AddsLines file form span.rule depth span.from span.end
        text.old.items text.new.items)) }
    ensures refusal { RefusedOf S.Store store.old store.new result (λ honest file.
        RefusesSpan honest file span.rule span.from span.end) }
{
    let rule = span.rule;
    let boxes = boxes_between(alloc, store, span)?;
    for found in &boxes {
        add_line(text, alloc, store, form, Level { rule, depth }, found)?;
        let header = found.header;
        if let Some(inner) = rule_inside(rule, header.kind) {
            let _size = store.len();
            let inside = BoxSpan {
                rule: inner,
                from: found.offset + u64::from(header.header),
                end: header.end,
            };
            push_boxes(text, alloc, store, form, depth + 1, inside)?;
        }
    }
    Ok(())
}

// The lines of all boxes that are listed.
fn list_boxes<S: Store>(alloc: Global, store: &mut S, form: BoxForm) -> Result<Vec<u8>, Refusal>
    ensures answer { Reads S.Store store.old store.new result
        (λ file text. FormLines form file text.items) RefusesTops }
{
    let mut text = Vec::new(alloc);
    let span = whole_file(store.len());
    push_boxes(&mut text, alloc, store, form, 0, span)?;
    Ok(text)
}

// Puts the lines of all boxes at once. Where any header that is looked at is at fault, nothing is
// put.
fn put_boxes<S: Store, K: Sink>(
    alloc: Global,
    store: &mut S,
    form: BoxForm,
    sink: &mut K,
) -> Result<(), Refusal>
    ensures store { KeepsFile S.Store store.old store.new }
    ensures answer { FormListed form
        (run_of S.Store store.old store.new K.Sink sink.old sink.new)
        result }
{
    let text = list_boxes(alloc, store, form)?;
    sink.put(text.as_slice())?;
    Ok(())
}

/// Puts a line for each box that is a box of the file or of a container of boxes: two spaces for
/// each container that it stands in, its type, its place, its size; or an object of JSON. Every
/// type is accepted. Where any header that is looked at is at fault, nothing is put.
pub fn boxes_as<S: Store, K: Sink>(
    alloc: Global,
    store: &mut S,
    syntax: Syntax,
    sink: &mut K,
) -> Result<(), Refusal>
    ensures store { KeepsFile S.Store store.old store.new }
    ensures answer { BoxesListed syntax
        (run_of S.Store store.old store.new K.Sink sink.old sink.new)
        result }
{
    put_boxes(alloc, store, BoxForm { syntax, rows: None }, sink)
}

/// Puts the lines of the boxes, as `boxes_as` does, and behind the line of each box, or in its
/// object, its fields, and at most so many of its rows.
pub fn boxes_with_fields<S: Store, K: Sink>(
    alloc: Global,
    store: &mut S,
    syntax: Syntax,
    rows: u64,
    sink: &mut K,
) -> Result<(), Refusal>
    ensures store { KeepsFile S.Store store.old store.new }
    ensures answer { FieldsListed syntax rows
        (run_of S.Store store.old store.new K.Sink sink.old sink.new)
        result }
{
    let rows = Some(rows);
    put_boxes(alloc, store, BoxForm { syntax, rows }, sink)
}

/// Puts the lines of the boxes, as `boxes_as` does, in text.
pub fn boxes<S: Store, K: Sink>(alloc: Global, store: &mut S, sink: &mut K) -> Result<(), Refusal>
    ensures store { KeepsFile S.Store store.old store.new }
    ensures answer { BoxesListed Syntax.Text
        (run_of S.Store store.old store.new K.Sink sink.old sink.new)
        result }
{
    boxes_as(alloc, store, Syntax::Text, sink)
}
