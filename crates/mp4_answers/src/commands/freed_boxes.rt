//! Boxes that become free space since the profile refuses them, and what is lost with them.
ghost use Rattle.std.specs.Prelude.{◌≡◌, ◌<◌, ◌≤◌, length, None, OnOk};
ghost use Rattle.mp4_boxes.specs.format.Children.{is_among};
ghost use Rattle.mp4_answers.specs.format.Losses.{earlier, flag_kinds, holds_items, is_fragment, lost_with, loss_of, uuid_loss, IsFirstLost};
ghost use Rattle.mp4_answers.specs.format.Strips.{RefusesLook};
ghost use Rattle.mp4_answers.specs.words.FirstLosses.{FindsFirst, KeepsTimeAt};
ghost use Rattle.mp4_answers.specs.words.StripSpans.{RefusesFindAt, RefusesWalkAt};
ghost use Rattle.mp4_present.specs.words.StoresRead.{OnlyReads, RefusedOf, WhereHonest, WhereRead};

use crate::box_names::{FullType, Name, holder, is_named, is_named_foreign};
use crate::commands::box_headers::read_header;
use crate::commands::boxes::{BoxSpan, read_uuid, rule_inside, whole_file};
use mp4_boxes::{FourCc, Refusal, Rule};
use mp4_present::TopBox;
use mp4_store::Store;
use std::alloc::{AllocError, Global};

/// From so many boxes on, those of one group are put together.
const MANY: usize = 4_096;

/// The UUIDs of boxes without which encrypted samples can't be read: of sample encryption, of track
/// encryption and of protection systems (Protected Interoperable File Format, 5.3).
const OF_ENCRYPTION: [u128; 3] = [
    0xa239_4f52_5a9b_4f14_a244_6c42_7c64_8df4,
    0x8974_dbce_7be7_4c51_84f9_7148_f988_2554,
    0xd08a_4f18_10f3_4a82_b6c8_32d8_aba1_83d3,
];

/// The UUID of the box that tells when a fragment of Smooth Streaming begins.
const OF_TIME: u128 = 0x6d1d_9b05_42d5_44e6_80e2_141d_aff7_57b2;

/// What is lost with a box.
#[derive(Clone, Copy, PartialEq, Eq, PartialOrd, Ord)]
pub enum Loss {
    Encryption,
    Times,
    Flags,
    Events,
    Items,
}

impl Loss {
    /// What is then so.
    pub(crate) fn text(self) -> &'static [u8] {
        match self {
            Loss::Encryption => b"encrypted samples can't be read",
            Loss::Times => b"decode times are made up",
            Loss::Flags => b"flags or groups of samples are lost",
            Loss::Events => b"events are lost",
            Loss::Items => b"items are lost",
        }
    }
}

// What is lost with a `uuid`, in a fragment of a track that has a `tfdt` or not.
fn loss_of_uuid(rule: Rule, uuid: Option<u128>, has_time: bool) -> Option<Loss>
    ensures { result ≡ uuid_loss rule uuid has_time }
{
    let uuid = uuid?;
    if OF_ENCRYPTION.contains(&uuid) {
        Some(Loss::Encryption)
    } else if uuid == OF_TIME && is_fragment(rule) && !has_time {
        Some(Loss::Times)
    } else {
        None
    }
}

// Whether boxes of the type say flags or groups of samples, in another way than the profile reads.
fn says_flags(rule: Rule, kind: FourCc) -> bool
    ensures { result ≡ is_among (flag_kinds rule) kind.0 }
{
    let is = |name: &[u8; 4]| FourCc(*name) == kind;
    match rule {
        Rule::TrackFragment => is(b"sdtp") || is(b"subs") || is(b"sgpd") || is(b"csgp"),
        Rule::SampleTable => {
            is(b"stps") || is(b"stsh") || is(b"padb") || is(b"stdp") || is(b"subs") || is(b"csgp")
        }
        _ => false,
    }
}

// Whether `meta` holds items there.
fn holds_items(rule: Rule) -> bool
    ensures { result ≡ holds_items rule }
{
    matches!(rule, Rule::File | Rule::MovieFragment | Rule::TrackFragment)
}

// Whether the boxes are those of a fragment of a track.
fn is_fragment(rule: Rule) -> bool
    ensures { result ≡ is_fragment rule }
{
    rule == Rule::TrackFragment
}

// What is lost with a box that the profile refuses where it stands.
fn loss_of(rule: Rule, kind: FourCc, uuid: Option<u128>, has_time: bool) -> Option<Loss>
    ensures { result ≡ loss_of rule kind.0 uuid has_time }
{
    let is = |name: &[u8; 4]| FourCc(*name) == kind;
    if is(b"senc") || is(b"saiz") || is(b"saio") || is(b"pssh") {
        Some(Loss::Encryption)
    } else if is(b"uuid") {
        loss_of_uuid(rule, uuid, has_time)
    } else if says_flags(rule, kind) {
        Some(Loss::Flags)
    } else if is(b"emsg") {
        Some(Loss::Events)
    } else if is(b"meta") && holds_items(rule) {
        Some(Loss::Items)
    } else {
        None
    }
}

/// A box with which something is lost: its place in the file, its type, and what is lost.
#[derive(Clone, Copy, PartialEq, Eq)]
pub struct LostBox {
    pub offset: u64,
    pub kind: FourCc,
    pub loss: Loss,
}

// The first of these that is one.
fn earlier(one: Option<LostBox>, other: Option<LostBox>) -> Option<LostBox>
    ensures { result ≡ earlier one other }
{
    match one {
        Some(lost) => Some(lost),
        None => other,
    }
}

/// Boxes of one type, and of one UUID where they are `uuid`, in containers of one type. They are
/// ordered by these, and then by where the first stands.
#[derive(Clone, Copy, PartialEq, Eq, PartialOrd, Ord)]
pub struct FreedGroup {
    container: u32,
    kind: u32,
    /// None where the box has fewer than 16 bytes.
    pub uuid: Option<u128>,
    /// The place of the first.
    offset: u64,
    pub count: u64,
    /// The place of the first with which something is lost, and what.
    pub loss: Option<(u64, Loss)>,
}

impl FreedGroup {
    pub(crate) fn container(&self) -> FourCc {
        FourCc(self.container.to_be_bytes())
    }

    pub(crate) fn kind(&self) -> FourCc {
        FourCc(self.kind.to_be_bytes())
    }

    fn is_like(&self, other: &FreedGroup) -> bool {
        self.container == other.container && self.kind == other.kind && self.uuid == other.uuid
    }

    // Takes those behind its own in.
    fn take_in(&mut self, other: &FreedGroup) {
        self.count = self.count.saturating_add(other.count);
        self.loss = self.loss.or(other.loss);
    }
}

/// What is found of the boxes that become free space.
#[derive(Drop)]
pub struct FreedBoxes {
    /// Those that the profile refuses and that have no other name, group by group.
    pub groups: Vec<FreedGroup>,
    /// The first of them with which something is lost.
    pub first_loss: Option<LostBox>,
    /// Whether others are `uuid` without which encrypted samples can't be read.
    pub has_encryption: bool,
    // So many boxes are kept before those of one group are put together.
    room: usize,
}

impl FreedBoxes {
    /// Nothing is told.
    pub fn none(alloc: Global) -> FreedBoxes
        ensures { result.first_loss ≡ None }
    {
        FreedBoxes {
            groups: Vec::new(alloc),
            first_loss: None,
            has_encryption: false,
            room: MANY,
        }
    }

    // Puts those of one group together.
    fn merge(&mut self, alloc: Global) -> Result<(), AllocError>
        ensures { self.new.first_loss ≡ self.old.first_loss }
    {
        self.groups.as_mut_slice().sort_unstable();
        let mut merged: Vec<FreedGroup> = Vec::new(alloc);
        for group in &self.groups {
            match merged.last_mut() {
                Some(last) if last.is_like(group) => last.take_in(group),
                _ => merged.push(*group)?,
            }
        }
        self.room = merged.len().saturating_mul(2).max(MANY);
        self.groups = merged;
        Ok(())
    }

    fn add(&mut self, alloc: Global, group: FreedGroup) -> Result<(), AllocError>
        ensures { self.new.first_loss ≡ self.old.first_loss }
    {
        self.groups.push(group)?;
        if self.groups.len() < self.room {
            return Ok(());
        }
        self.merge(alloc)
    }

    // Orders the groups by where the first box of each stands.
    fn finish(&mut self, alloc: Global) -> Result<(), AllocError>
        ensures { self.new.first_loss ≡ self.old.first_loss }
    {
        self.merge(alloc)?;
        self.groups
            .as_mut_slice()
            .sort_unstable_by_key(|group| group.offset);
        Ok(())
    }
}

// Whether a fragment of a track keeps a box that tells when it begins.
fn keeps_time<S: Store>(names: &[Name], span: BoxSpan, store: &mut S) -> Result<bool, Refusal>
    requires span { span.from ≤ span.end }
    requires within { span.end ≤ length (S.file store.old) }
    ensures store { OnlyReads S.Store store.old store.new result }
    ensures time { WhereRead S.Store store.old result
        (λ file has. KeepsTimeAt names.now span.rule span.from span.end has file) }
    ensures refusal { RefusedOf S.Store store.old store.new result
        (RefusesWalkAt names.now span.rule span.from span.end) }
{
    let kind = FourCc(*b"tfdt");
    let time = FullType { kind, uuid: None };
    if !is_fragment(span.rule) || is_named(names, span.rule, time) {
        return Ok(false);
    }
    let mut at = span.from;
    while at < span.end {
        let header = read_header(store, span.rule, at, span.end)?;
        if header.kind == kind {
            return Ok(true);
        }
        at = header.end;
    }
    Ok(false)
}

// A container of boxes.
#[derive(Clone, Copy)]
struct Container {
    /// The rule that its boxes lie under.
    rule: Rule,
    /// Whether a time is kept in it.
    has_time: bool,
}

// What is lost with a named box at a place of a container, if it has no other name.
fn lost_with(names: &[Name], within: Container, offset: u64, own: FullType) -> Option<LostBox>
    ensures { result
        ≡ lost_with names.now within.rule within.has_time offset own.kind.0 own.uuid }
{
    if !is_named_foreign(names, within.rule, own) {
        return None;
    }
    let uuid = own.uuid.map(u128::from_be_bytes);
    let loss = loss_of(within.rule, own.kind, uuid, within.has_time)?;
    Some(LostBox {
        offset,
        kind: own.kind,
        loss,
    })
}

// Adds a named box at a place of a container.
fn add_box(
    alloc: Global,
    names: &[Name],
    within: Container,
    offset: u64,
    own: FullType,
    found: &mut FreedBoxes,
) -> Result<(), AllocError>
    ensures first { OnOk result (found.new.first_loss ≡ earlier found.old.first_loss
        (lost_with names.now within.rule within.has_time offset own.kind.0 own.uuid)) }
{
    let uuid = own.uuid.map(u128::from_be_bytes);
    let lost = lost_with(names, within, offset, own);
    found.first_loss = earlier(found.first_loss, lost);
    if !is_named_foreign(names, within.rule, own) {
        found.has_encryption |= uuid.is_some_and(|uuid| OF_ENCRYPTION.contains(&uuid));
        return Ok(());
    }
    let group = FreedGroup {
        container: u32::from_be_bytes(holder(within.rule).0),
        kind: u32::from_be_bytes(own.kind.0),
        uuid,
        offset,
        count: 1,
        loss: lost.map(|lost| (offset, lost.loss)),
    };
    found.add(alloc, group)
}

// Finds the named boxes of a container and of the containers in it.
fn find_boxes<S: Store>(
    alloc: Global,
    names: &[Name],
    span: BoxSpan,
    store: &mut S,
    found: &mut FreedBoxes,
) -> Result<(), Refusal>
    requires span { span.from ≤ span.end }
    requires within { span.end ≤ length (S.file store.old) }
    ensures store { OnlyReads S.Store store.old store.new result }
    ensures first { OnOk result (WhereHonest S.Store store.old
        (FindsFirst names.now span.rule span.from span.end
        found.old.first_loss found.new.first_loss)) }
    ensures refusal { RefusedOf S.Store store.old store.new result
        (RefusesFindAt names.now span.rule span.from span.end) }
{
    let has_time = keeps_time(names, span, store)?;
    let within = Container {
        rule: span.rule,
        has_time,
    };
    let mut at = span.from;
    while at < span.end {
        let header = read_header(store, span.rule, at, span.end)?;
        let uuid = read_uuid(store, &TopBox { offset: at, header })?;
        let kind = header.kind;
        let own = FullType { kind, uuid };
        if is_named(names, span.rule, own) {
            add_box(alloc, names, within, at, own, found)?;
        } else if let Some(inner) = rule_inside(span.rule, header.kind) {
            let inside = BoxSpan {
                rule: inner,
                from: at + u64::from(header.header),
                end: header.end,
            };
            find_boxes(alloc, names, inside, store, found)?;
        }
        at = header.end;
    }
    Ok(())
}

/// What is told of the boxes that `strip` makes free space, beside how many there are of each name.
pub(crate) fn find_freed<S: Store>(
    alloc: Global,
    store: &mut S,
    names: &[Name],
) -> Result<FreedBoxes, Refusal>
    ensures store { OnlyReads S.Store store.old store.new result }
    ensures first { WhereRead S.Store store.old result
        (λ file found. IsFirstLost names.now file found.first_loss) }
    ensures refusal { RefusedOf S.Store store.old store.new result (RefusesLook names.now) }
{
    let mut found = FreedBoxes::none(alloc);
    let span = whole_file(store.len());
    find_boxes(alloc, names, span, store, &mut found)?;
    found.finish(alloc)?;
    Ok(found)
}
