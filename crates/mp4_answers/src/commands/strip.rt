//! A copy of a file in which the boxes of some types are free space.
ghost use Rattle.std.specs.Prelude.{◌≡◌, ◌+◌, ◌-◌, ◌<◌, ◌≤◌, length, IfOk, OnOk};
ghost use Rattle.mp4_store.specs.words.Device.{range};
ghost use Rattle.mp4_present.specs.words.Carried.{RefusesCarry, RefusesRange};
ghost use Rattle.mp4_answers.specs.format.Answers.{StrippedOf};
ghost use Rattle.mp4_answers.specs.format.Run.{KeepsFile, run_of};
ghost use Rattle.mp4_answers.specs.format.StripCounts.{Counts};
ghost use Rattle.mp4_answers.specs.format.Strips.{freed, RefusesLook};
ghost use Rattle.mp4_answers.specs.words.CountedBoxes.{CountsOn};
ghost use Rattle.mp4_boxes.specs.declared.rule.Rule.TheVariants.{File};
ghost use Rattle.mp4_present.specs.words.HandCarried.{RefusedByBoth};
ghost use Rattle.mp4_present.specs.words.OutBuffers.{Carries};
ghost use Rattle.mp4_present.specs.words.StoresRead.{IsUnchanged, OnlyReads, RefusedOf, WhereHonest, WhereRead};
ghost use Rattle.mp4_answers.specs.words.StoreAndSink.{NoPutFails};
ghost use Rattle.mp4_answers.specs.words.StripSpans.{HasCopy, IsHeaderAt, IsUuidAt, LiesBetween, RefusesAgainAt, RefusesHeaderAt, RefusesWalkAt, WhereStrips};

use crate::box_names::{FullType, Name, count_box, is_named};
use crate::commands::box_headers::read_header;
use crate::commands::boxes::{BoxSpan, read_uuid, rule_inside, whole_file};
use mp4_boxes::{Refusal, Rule, TopHeader};
use mp4_present::{OutBuffer, TopBox};
use mp4_store::{Sink, Store};
use std::alloc::Global;

/// How many bytes are put at once.
const ROOM: usize = 65_536;

/// A box of a container: its header, and of a `uuid` which it is.
#[derive(Clone, Copy)]
pub(crate) struct Found {
    pub(crate) header: TopHeader,
    uuid: Option<[u8; 16]>,
}

impl Found {
    ghost use Rattle.std.specs.Prelude.{◌≡◌};

    /// Its type, and of a `uuid` which it is.
    pub(crate) fn full_type(&self) -> FullType
        ensures kind { result.kind ≡ self.now.header.kind }
        ensures uuid { result.uuid ≡ self.now.uuid }
    {
        FullType {
            kind: self.header.kind,
            uuid: self.uuid,
        }
    }
}

/// Reads the header at a place, and which `uuid` the box there is.
pub(crate) fn find<S: Store>(store: &mut S, rule: Rule, at: u64, end: u64) -> Result<Found, Refusal>
    requires some { at < end }
    requires within { end ≤ length (S.file store.old) }
    ensures store { OnlyReads S.Store store.old store.new result }
    ensures header { WhereRead S.Store store.old result
        (λ file f. IsHeaderAt rule at end file f.header) }
    ensures uuid { WhereRead S.Store store.old result
        (λ file f. IsUuidAt at end file f.header f.uuid) }
    ensures fits { IfOk result (λ f. LiesBetween at end f.header) }
    ensures refusal { RefusedOf S.Store store.old store.new result (RefusesHeaderAt rule at end) }
{
    let header = read_header(store, rule, at, end)?;
    let uuid = read_uuid(store, &TopBox { offset: at, header })?;
    Ok(Found { header, uuid })
}

// The same of a header that was read before: where it can't be read now, the store has changed.
fn find_again<S: Store>(store: &mut S, rule: Rule, at: u64, end: u64) -> Result<Found, Refusal>
    requires some { at < end }
    requires within { end ≤ length (S.file store.old) }
    ensures store { OnlyReads S.Store store.old store.new result }
    ensures header { WhereRead S.Store store.old result
        (λ file f. IsHeaderAt rule at end file f.header) }
    ensures uuid { WhereRead S.Store store.old result
        (λ file f. IsUuidAt at end file f.header f.uuid) }
    ensures fits { IfOk result (λ f. LiesBetween at end f.header) }
    ensures refusal { RefusedOf S.Store store.old store.new result (RefusesAgainAt rule at end) }
{
    match find(store, rule, at, end) {
        Ok(found) => Ok(found),
        Err(Refusal::Fault(_)) => Err(Refusal::StoreChanged),
        Err(refusal) => Err(refusal),
    }
}

/// Reads the headers of all boxes of a container.
pub(crate) fn read_headers<S: Store>(
    names: &[Name],
    span: BoxSpan,
    store: &mut S,
) -> Result<(), Refusal>
    requires span { span.from ≤ span.end }
    requires within { span.end ≤ length (S.file store.old) }
    ensures store { OnlyReads S.Store store.old store.new result }
    ensures refusal { RefusedOf S.Store store.old store.new result
        (RefusesWalkAt names.now span.rule span.from span.end) }
{
    let mut at = span.from;
    while at < span.end {
        let header = read_header(store, span.rule, at, span.end)?;
        at = header.end;
    }
    Ok(())
}

// Walks over the boxes of a container and of the containers in it, but for those that are named,
// and counts those. The headers of all boxes of a container are read before those of boxes in them,
// as where boxes are listed.
fn judge_boxes<S: Store>(
    names: &[Name],
    span: BoxSpan,
    store: &mut S,
    counts: &mut [u64],
) -> Result<(), Refusal>
    requires span { span.from ≤ span.end }
    requires within { span.end ≤ length (S.file store.old) }
    ensures store { OnlyReads S.Store store.old store.new result }
    ensures judged { OnOk result (WhereHonest S.Store store.old
        (HasCopy names.now span.rule span.from span.end)) }
    ensures counted { OnOk result (WhereHonest S.Store store.old
        (CountsOn names.now span.rule span.from span.end counts.old counts.new)) }
    ensures refusal { RefusedOf S.Store store.old store.new result
        (RefusesWalkAt names.now span.rule span.from span.end) }
{
    read_headers(names, span, store)?;
    let mut at = span.from;
    while at < span.end {
        let found = find(store, span.rule, at, span.end)?;
        let header = found.header;
        if is_named(names, span.rule, found.full_type()) {
            count_box(names, span.rule, found.full_type(), counts);
        } else if let Some(inner) = rule_inside(span.rule, header.kind) {
            let inside = BoxSpan {
                rule: inner,
                from: at + u64::from(header.header),
                end: header.end,
            };
            judge_boxes(names, inside, store, counts)?;
        }
        at = header.end;
    }
    Ok(())
}

// Takes a box along whose type is `free`.
fn carry_freed<S: Store, K: Sink>(
    at: u64,
    end: u64,
    store: &mut S,
    carrier: &mut OutBuffer,
    sink: &mut K,
) -> Result<(), Refusal>
    requires some { at + 8 ≤ end }
    requires within { end ≤ length (S.file store.old) }
    ensures store { OnlyReads S.Store store.old store.new result }
    ensures puts { NoPutFails K.Sink sink.old sink.new result }
    ensures bytes { WhereHonest S.Store store.old (λ file. Carries K.Sink sink.old sink.new
        carrier.old carrier.new result (freed (range file at (end - at)))) }
    ensures refusal { RefusedByBoth S.Store store.old store.new K.Sink sink.old sink.new result
        RefusesRange }
{
    carrier.carry_range(store, at, 4, sink)?;
    carrier.carry(b"free", sink)?;
    carrier.carry_range(store, at + 8, end - at - 8, sink)
}

// Takes the boxes of a container along, with those free space that are named.
fn carry_boxes<S: Store, K: Sink>(
    names: &[Name],
    span: BoxSpan,
    store: &mut S,
    carrier: &mut OutBuffer,
    sink: &mut K,
) -> Result<(), Refusal>
    requires span { span.from ≤ span.end }
    requires within { span.end ≤ length (S.file store.old) }
    ensures store { OnlyReads S.Store store.old store.new result }
    ensures puts { NoPutFails K.Sink sink.old sink.new result }
    ensures bytes { WhereStrips S.Store store.old names.now span.rule span.from span.end (λ text.
        Carries K.Sink sink.old sink.new carrier.old carrier.new result text) }
    ensures unchanged { WhereStrips S.Store store.old names.now span.rule span.from span.end
        (λ text. IsUnchanged result) }
    ensures refusal { RefusedByBoth S.Store store.old store.new K.Sink sink.old sink.new result
        RefusesCarry }
{
    let mut at = span.from;
    while at < span.end {
        let found = find_again(store, span.rule, at, span.end)?;
        let header = found.header;
        if is_named(names, span.rule, found.full_type()) {
            carry_freed(at, header.end, store, carrier, sink)?;
        } else if let Some(inner) = rule_inside(span.rule, header.kind) {
            let head = u64::from(header.header);
            carrier.carry_range(store, at, head, sink)?;
            let inside = BoxSpan {
                rule: inner,
                from: at + head,
                end: header.end,
            };
            carry_boxes(names, inside, store, carrier, sink)?;
        } else {
            carrier.carry_range(store, at, header.end - at, sink)?;
        }
        at = header.end;
    }
    Ok(())
}

/// Puts a copy of a file in which the boxes that are named are free space: of each the four bytes
/// of its type are changed, and all else stays, so that sizes and places stay too. Boxes are found
/// where `boxes` lists them, but for what lies in a box that is named. Where a header that is
/// looked at can't be read, nothing is put.
pub fn strip<S: Store, K: Sink>(
    alloc: Global,
    store: &mut S,
    names: &[Name],
    sink: &mut K,
) -> Result<(), Refusal>
    ensures store { KeepsFile S.Store store.old store.new }
    ensures answer { StrippedOf names.now
        (run_of S.Store store.old store.new K.Sink sink.old sink.new)
        result }
{
    let mut carrier = OutBuffer::new(alloc, ROOM)?;
    let span = whole_file(store.len());
    judge_boxes(names, span, store, &mut [])?;
    carry_boxes(names, span, store, &mut carrier, sink)?;
    carrier.flush(sink)
}

/// How many boxes are free space in the copy that `strip` puts, for each name in turn: a box is
/// counted for the first name that means it.
pub fn count_named<S: Store>(
    alloc: Global,
    store: &mut S,
    names: &[Name],
) -> Result<Vec<u64>, Refusal>
    ensures store { OnlyReads S.Store store.old store.new result }
    ensures counts { WhereRead S.Store store.old result
        (λ file counts. Counts names.now File file counts.items) }
    ensures many { IfOk result (λ counts. length counts.items ≡ length names.now) }
    ensures refusal { RefusedOf S.Store store.old store.new result (RefusesLook names.now) }
{
    let mut counts = vec![in alloc; 0u64; names.len()]?;
    let span = whole_file(store.len());
    judge_boxes(names, span, store, counts.as_mut_slice())?;
    Ok(counts)
}
