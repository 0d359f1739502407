//! The fields of a box, read by place.
ghost use Rattle.std.specs.Prelude.{◌≡◌, ◌+◌, ◌-◌, ◌*◌, ◌<◌, ◌≤◌, ◌++◌, length, max, min, take, Some, OnOk};
ghost use Rattle.sha2.specs.Sha256.{sha256};
ghost use Rattle.mp4_store.specs.words.Device.{range};
ghost use Rattle.mp4_present.specs.words.StoresRead.{OnlyReads, Refused, WhereHonest, WhereRead};
ghost use Rattle.mp4_answers.specs.format.BoxWalk.{IsWithin, top_seen};
ghost use Rattle.mp4_answers.specs.format.FieldTexts.{box_fields, kept_text, named_text, quoted, row_text, laid_text, layout_text, rows_due, rows_text, rows_there, run_text, tail_text, tail_width};
ghost use Rattle.mp4_answers.specs.format.Layouts.{count_of, fields_of, tail_of, width_of};
ghost use Rattle.mp4_answers.specs.format.Texts.{hex_text};
ghost use Rattle.mp4_answers.specs.words.BoxSpans.{RefusesLine};
ghost use Rattle.mp4_answers.specs.words.LayoutsSeen.{AreFew, HasFew, fields_seen, layout_seen, tail_seen};

use crate::commands::hash_sink::HashSink;
use crate::digests::DIGEST;
use crate::layouts::{Layout, LayoutField, LeafHead, RowCount, Tail, layout_of, width_of};
use crate::text::field_lines::{
    FieldSpot, close_fields, close_rows, open_fields, open_rows, push_bytes, push_count,
    push_fields, push_notes, push_row, push_some,
};
use mp4_boxes::Refusal;
use mp4_present::{OutBuffer, TopBox};
use mp4_store::Store;
use std::alloc::Global;

/// How many bytes of a box are read for its fields, at most; all of the table are shorter.
const MOST_HEAD: usize = 128;

/// How many bytes of a row are read, at most; all of the table are shorter.
const MOST_ROW: usize = 64;

/// How many bytes are spelled, at most; of more the digest is told.
const MOST_SPELLED: usize = 64;

/// How many bytes are read at once for a digest, at most.
const WINDOW: usize = 65536;

/// Where bytes of a box lie: from here on, so many.
#[derive(Clone, Copy)]
struct Bytes {
    from: u64,
    len: u64,
}

/// Where fields are told, and how many rows of a box at most.
#[derive(Clone, Copy)]
pub(crate) struct FieldStyle {
    pub(crate) spot: FieldSpot,
    pub(crate) most: u64,
}

/// What the rows of a box hold, what its version and flags are, and how many rows have room.
#[derive(Clone, Copy)]
struct RowRun {
    columns: &'static [LayoutField],
    head: LeafHead,
    there: u64,
}

// The digest of some bytes.
fn digest_of<S: Store>(alloc: Global, store: &mut S, bytes: Bytes) -> Result<[u8; DIGEST], Refusal>
    requires some { 0 < bytes.len }
    requires within { bytes.from + bytes.len ≤ length (S.file store.old) }
    ensures store { OnlyReads S.Store store.old store.new result }
    ensures digest { WhereRead S.Store store.old result
        (λ file digest. digest ≡ sha256 (range file bytes.from bytes.len)) }
    ensures refusal { Refused S.Store store.old store.new result RefusesLine }
{
    let mut window = OutBuffer::new(alloc, bytes.len.min(WINDOW as u64) as usize)?;
    let mut sink = HashSink::new();
    window.carry_range(store, bytes.from, bytes.len, &mut sink)?;
    window.flush(&mut sink)?;
    Ok(sink.digest())
}

// Adds few bytes under a name.
fn add_spelled<S: Store>(
    text: &mut Vec<u8>,
    store: &mut S,
    spot: FieldSpot,
    name: &[u8],
    bytes: Bytes,
) -> Result<(), Refusal>
    requires few { bytes.len ≤ 64 }
    requires within { bytes.from + bytes.len ≤ length (S.file store.old) }
    ensures store { OnlyReads S.Store store.old store.new result }
    ensures text { OnOk result (WhereHonest S.Store store.old (λ file. text.new.items
        ≡ text.old.items ++ named_text spot name.now
        (quoted spot (hex_text (range file bytes.from bytes.len))))) }
    ensures refusal { Refused S.Store store.old store.new result RefusesLine }
{
    let mut room = [0; MOST_SPELLED];
    let spelled = &mut room[..bytes.len as usize];
    store.read_at(bytes.from, spelled)?;
    push_bytes(text, spot, name, b"", spelled)?;
    Ok(())
}

// Adds bytes that are kept under their name: how many, and their digits or their digest.
fn add_kept<S: Store>(
    text: &mut Vec<u8>,
    alloc: Global,
    store: &mut S,
    spot: FieldSpot,
    name: &[u8],
    bytes: Bytes,
) -> Result<(), Refusal>
    requires { bytes.from + bytes.len ≤ length (S.file store.old) }
    ensures store { OnlyReads S.Store store.old store.new result }
    ensures text { OnOk result (WhereHonest S.Store store.old (λ file. text.new.items
        ≡ text.old.items ++ kept_text spot name.now (range file bytes.from bytes.len))) }
    ensures refusal { Refused S.Store store.old store.new result RefusesLine }
{
    push_count(text, spot, name, b"_bytes", bytes.len)?;
    if bytes.len <= MOST_SPELLED as u64 {
        return add_spelled(text, store, spot, name, bytes);
    }
    let digest = digest_of(alloc, store, bytes)?;
    push_bytes(text, spot, name, b"_sha256", &digest)?;
    Ok(())
}

// How many rows of this width have room.
fn rows_there(due: u64, width: u64, room: u64) -> u64
    ensures { result ≡ rows_there due width room }
{
    if width == 0 {
        return 0;
    }
    due.min(room / width)
}

// How many rows are due; where they go to the end of the box, as many as have room.
fn rows_due(number: Option<u64>, width: u64, room: u64) -> u64
    ensures { result ≡ rows_due number width room }
{
    match number {
        Some(due) => due,
        None if width == 0 => 0,
        None => room / width,
    }
}

// Adds the row of this number, from 1 on, of rows that begin at this place.
fn add_row<S: Store>(
    text: &mut Vec<u8>,
    store: &mut S,
    spot: FieldSpot,
    run: RowRun,
    number: u64,
    at: u64,
) -> Result<(), Refusal>
    requires few { length run.columns.now ≤ 64 }
    requires within { at + width_of run.head (fields_seen run.columns.now)
        ≤ length (S.file store.old) }
    ensures store { OnlyReads S.Store store.old store.new result }
    ensures text { OnOk result (WhereHonest S.Store store.old (λ file. text.new.items
        ≡ text.old.items ++ row_text spot run.head (fields_seen run.columns.now) number
        (range file at (min (width_of run.head (fields_seen run.columns.now)) 64)))) }
    ensures refusal { Refused S.Store store.old store.new result RefusesLine }
{
    let mut room = [0; MOST_ROW];
    let len = width_of(run.columns, run.head).min(MOST_ROW as u64) as usize;
    let bytes = &mut room[..len];
    store.read_at(at, bytes)?;
    push_row(text, spot, run.head, run.columns, number, bytes)?;
    Ok(())
}

// Adds so many rows, which begin these bytes.
fn add_rows<S: Store>(
    text: &mut Vec<u8>,
    store: &mut S,
    spot: FieldSpot,
    run: RowRun,
    count: u64,
    bytes: Bytes,
) -> Result<(), Refusal>
    requires few { length run.columns.now ≤ 64 }
    requires fits { count * width_of run.head (fields_seen run.columns.now) ≤ bytes.len }
    requires within { bytes.from + bytes.len ≤ length (S.file store.old) }
    ensures store { OnlyReads S.Store store.old store.new result }
    ensures text { OnOk result (WhereHonest S.Store store.old (λ file. text.new.items
        ≡ text.old.items ++ rows_text spot run.head (fields_seen run.columns.now) count
        (range file bytes.from bytes.len))) }
    ensures refusal { Refused S.Store store.old store.new result RefusesLine }
{
    let _size = store.len();
    let width = width_of(run.columns, run.head);
    let mut at = bytes.from;
    for number in 0..count {
        add_row(text, store, spot, run, number + 1, at)?;
        at += width;
    }
    Ok(())
}

// Adds the rows that have room in some bytes, as many as are wanted, and how many more there are.
fn add_run<S: Store>(
    text: &mut Vec<u8>,
    store: &mut S,
    style: FieldStyle,
    run: RowRun,
    bytes: Bytes,
) -> Result<(), Refusal>
    requires few { length run.columns.now ≤ 64 }
    requires fits { run.there * width_of run.head (fields_seen run.columns.now) ≤ bytes.len }
    requires within { bytes.from + bytes.len ≤ length (S.file store.old) }
    ensures store { OnlyReads S.Store store.old store.new result }
    ensures text { OnOk result (WhereHonest S.Store store.old (λ file. text.new.items
        ≡ text.old.items ++ run_text style.spot style.most run.head (fields_seen run.columns.now)
        run.there (range file bytes.from bytes.len))) }
    ensures refusal { Refused S.Store store.old store.new result RefusesLine }
{
    let spot = style.spot;
    let shown = run.there.min(style.most);
    open_rows(text, spot)?;
    add_rows(text, store, spot, run, shown, bytes)?;
    close_rows(text, spot)?;
    push_some(text, spot, b"more_rows", run.there - shown)?;
    Ok(())
}

// The rows of a box, of which so many bytes are left, by its first bytes.
fn run_in(
    columns: &'static [LayoutField],
    count: RowCount,
    head: LeafHead,
    front: &[u8],
    room: u64,
) -> RowRun
    requires { length columns.now ≤ 64 }
    ensures columns { result.columns.now ≡ columns.now }
    ensures head { result.head ≡ head }
    ensures there { result.there ≡ rows_there (rows_due (count_of count head front.now)
        (width_of head (fields_seen columns.now)) room) (width_of head (fields_seen columns.now))
        room }
    ensures fits { result.there * width_of head (fields_seen columns.now) ≤ room }
{
    let width = width_of(columns, head);
    let due = rows_due(count.number(head, front), width, room);
    RowRun {
        columns,
        head,
        there: rows_there(due, width, room),
    }
}

// Adds what follows the fields of a box, in the bytes that are left.
fn add_tail<S: Store>(
    text: &mut Vec<u8>,
    alloc: Global,
    store: &mut S,
    style: FieldStyle,
    tail: Tail,
    head: LeafHead,
    front: &[u8],
    bytes: Bytes,
) -> Result<(), Refusal>
    requires few { HasFew (tail_seen tail) }
    requires within { bytes.from + bytes.len ≤ length (S.file store.old) }
    ensures store { OnlyReads S.Store store.old store.new result }
    ensures text { OnOk result (WhereHonest S.Store store.old (λ file. text.new.items
        ≡ text.old.items ++ tail_text style.spot style.most head (tail_seen tail) front.now
        (range file bytes.from bytes.len))) }
    ensures refusal { Refused S.Store store.old store.new result RefusesLine }
{
    match tail {
        Tail::Nothing => Ok(()),
        Tail::Kept(name) => add_kept(text, alloc, store, style.spot, name, bytes),
        Tail::Rows(count, columns) => {
            let run = run_in(columns, count, head, front, bytes.len);
            add_run(text, store, style, run, bytes)
        }
    }
}

// How many bytes are due behind the fields, of which so many are there.
fn tail_width(tail: Tail, head: LeafHead, front: &[u8], room: u64) -> u64
    requires few { HasFew (tail_seen tail) }
    ensures width { result ≡ tail_width head (tail_seen tail) front.now room }
    ensures short { result ≤ max room 70093866270720 }
{
    match tail {
        Tail::Nothing => 0,
        Tail::Kept(_) => room,
        Tail::Rows(count, columns) => {
            let width = width_of(columns, head);
            rows_due(count.number(head, front), width, room) * width
        }
    }
}

// Adds these fields of a box, whose first bytes and version and flags are given, what follows them,
// and what is missing and left over.
fn add_laid<S: Store>(
    text: &mut Vec<u8>,
    alloc: Global,
    store: &mut S,
    style: FieldStyle,
    layout: &Layout,
    head: LeafHead,
    front: &[u8],
    bytes: Bytes,
) -> Result<(), Refusal>
    requires few { AreFew (layout_seen layout.now) }
    requires within { bytes.from + bytes.len ≤ length (S.file store.old) }
    ensures store { OnlyReads S.Store store.old store.new result }
    ensures text { OnOk result (WhereHonest S.Store store.old (λ file.
        front.now ≡ take 128 (range file bytes.from bytes.len) → text.new.items
        ≡ text.old.items ++ laid_text style.spot style.most head
        (fields_of (layout_seen layout.now) head) (tail_of (layout_seen layout.now) head)
        (range file bytes.from bytes.len))) }
    ensures refusal { Refused S.Store store.old store.new result RefusesLine }
{
    let _size = store.len();
    let (fields, tail) = (layout.fields(head), layout.tail(head));
    push_fields(text, style.spot, head, fields, front)?;
    let width = width_of(fields, head);
    let skipped = width.min(bytes.len);
    let rest = Bytes {
        from: bytes.from + skipped,
        len: bytes.len - skipped,
    };
    add_tail(text, alloc, store, style, tail, head, front, rest)?;
    let due = width + tail_width(tail, head, front, rest.len);
    push_notes(text, style.spot, bytes.len, due)?;
    Ok(())
}

// Adds the fields of a box by its layout.
fn add_by_layout<S: Store>(
    text: &mut Vec<u8>,
    alloc: Global,
    store: &mut S,
    style: FieldStyle,
    layout: &Layout,
    bytes: Bytes,
) -> Result<(), Refusal>
    requires few { AreFew (layout_seen layout.now) }
    requires within { bytes.from + bytes.len ≤ length (S.file store.old) }
    ensures store { OnlyReads S.Store store.old store.new result }
    ensures text { OnOk result (WhereHonest S.Store store.old (λ file. text.new.items
        ≡ text.old.items ++ layout_text style.spot style.most (Some (layout_seen layout.now))
        (range file bytes.from bytes.len))) }
    ensures refusal { Refused S.Store store.old store.new result RefusesLine }
{
    let mut room = [0; MOST_HEAD];
    let front = &mut room[..bytes.len.min(MOST_HEAD as u64) as usize];
    store.read_at(bytes.from, front)?;
    let head = layout.head(front);
    open_fields(text, style.spot, bytes.len)?;
    add_laid(text, alloc, store, style, layout, head, front, bytes)?;
    close_fields(text, style.spot)?;
    Ok(())
}

/// Adds the fields of a box, where the table has its type.
pub(crate) fn add_fields<S: Store>(
    text: &mut Vec<u8>,
    alloc: Global,
    store: &mut S,
    style: FieldStyle,
    found: &TopBox,
) -> Result<(), Refusal>
    requires { IsWithin (S.file store.old) found.now }
    ensures store { OnlyReads S.Store store.old store.new result }
    ensures text { OnOk result (WhereHonest S.Store store.old (λ file. text.new.items
        ≡ text.old.items ++ box_fields style.spot style.most found.now.header.kind.0
        (top_seen file found.now).payload)) }
    ensures refusal { Refused S.Store store.old store.new result RefusesLine }
{
    let _size = store.len();
    let Some(layout) = layout_of(found.header.kind) else {
        return Ok(());
    };
    let from = found.offset + u64::from(found.header.header);
    let len = found.header.end - from;
    add_by_layout(text, alloc, store, style, &layout, Bytes { from, len })
}
