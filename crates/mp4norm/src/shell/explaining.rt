//! What there is to say of a fault besides its line: the way to the box, where the standard tells
//! of it, what the kind means.
ghost use Rattle.std.specs.Prelude.{◌≡◌, ◌++◌, OnOk};
ghost use Rattle.mp4_answers.specs.format.Texts.{line_feed};

use crate::shell::file_names::shown;
use mp4_answers::commands::box_path::{Way, WayBox, number_at_top, step_line, way_to};
use mp4_answers::text::difference_lines::{say, say_counted};
use mp4_boxes::{Fault, FourCc, Kind, Refusal, Steps};
use mp4_present::{FaultNumbers, TrackInfo, fault_numbers, open_movie};
use mp4_store::{Sink, Store};
use std::alloc::{AllocError, Global};
use std::sync::ledger::Ledger;

// The clauses of ISO/IEC 14496-12 that tell of boxes, by their types.
const CLAUSES: [(FourCc, &[u8]); 64] = [
    (FourCc(*b"ftyp"), b"4.3"),
    (FourCc(*b"mdat"), b"8.1.1"),
    (FourCc(*b"free"), b"8.1.2"),
    (FourCc(*b"skip"), b"8.1.2"),
    (FourCc(*b"pdin"), b"8.1.3"),
    (FourCc(*b"moov"), b"8.2.1"),
    (FourCc(*b"mvhd"), b"8.2.2"),
    (FourCc(*b"trak"), b"8.3.1"),
    (FourCc(*b"tkhd"), b"8.3.2"),
    (FourCc(*b"tref"), b"8.3.3"),
    (FourCc(*b"mdia"), b"8.4.1"),
    (FourCc(*b"mdhd"), b"8.4.2"),
    (FourCc(*b"hdlr"), b"8.4.3"),
    (FourCc(*b"minf"), b"8.4.4"),
    (FourCc(*b"vmhd"), b"8.4.5"),
    (FourCc(*b"smhd"), b"8.4.5"),
    (FourCc(*b"hmhd"), b"8.4.5"),
    (FourCc(*b"nmhd"), b"8.4.5"),
    (FourCc(*b"sthd"), b"8.4.5"),
    (FourCc(*b"gmhd"), b"8.4.5"),
    (FourCc(*b"elng"), b"8.4.6"),
    (FourCc(*b"stbl"), b"8.5.1"),
    (FourCc(*b"stsd"), b"8.5.2"),
    (FourCc(*b"stts"), b"8.6.1.2"),
    (FourCc(*b"ctts"), b"8.6.1.3"),
    (FourCc(*b"cslg"), b"8.6.1.4"),
    (FourCc(*b"stss"), b"8.6.2"),
    (FourCc(*b"stsh"), b"8.6.3"),
    (FourCc(*b"sdtp"), b"8.6.4"),
    (FourCc(*b"edts"), b"8.6.5"),
    (FourCc(*b"elst"), b"8.6.6"),
    (FourCc(*b"dinf"), b"8.7.1"),
    (FourCc(*b"dref"), b"8.7.2"),
    (FourCc(*b"url "), b"8.7.2"),
    (FourCc(*b"urn "), b"8.7.2"),
    (FourCc(*b"stsz"), b"8.7.3"),
    (FourCc(*b"stz2"), b"8.7.3"),
    (FourCc(*b"stsc"), b"8.7.4"),
    (FourCc(*b"stco"), b"8.7.5"),
    (FourCc(*b"co64"), b"8.7.5"),
    (FourCc(*b"subs"), b"8.7.7"),
    (FourCc(*b"saiz"), b"8.7.8"),
    (FourCc(*b"saio"), b"8.7.9"),
    (FourCc(*b"mvex"), b"8.8.1"),
    (FourCc(*b"mehd"), b"8.8.2"),
    (FourCc(*b"trex"), b"8.8.3"),
    (FourCc(*b"moof"), b"8.8.4"),
    (FourCc(*b"mfhd"), b"8.8.5"),
    (FourCc(*b"traf"), b"8.8.6"),
    (FourCc(*b"tfhd"), b"8.8.7"),
    (FourCc(*b"trun"), b"8.8.8"),
    (FourCc(*b"mfra"), b"8.8.9"),
    (FourCc(*b"tfra"), b"8.8.10"),
    (FourCc(*b"mfro"), b"8.8.11"),
    (FourCc(*b"tfdt"), b"8.8.12"),
    (FourCc(*b"sbgp"), b"8.9.2"),
    (FourCc(*b"sgpd"), b"8.9.3"),
    (FourCc(*b"udta"), b"8.10.1"),
    (FourCc(*b"meta"), b"8.11.1"),
    (FourCc(*b"sinf"), b"8.12.1"),
    (FourCc(*b"schm"), b"8.12.5"),
    (FourCc(*b"styp"), b"8.16.2"),
    (FourCc(*b"sidx"), b"8.16.3"),
    (FourCc(*b"prft"), b"8.16.5"),
];

// The clause that tells of boxes of this type; that on boxes in general, where no other is read
// here.
fn clause_of(kind: FourCc) -> &'static [u8] {
    for (of, clause) in CLAUSES {
        if of == kind {
            return clause;
        }
    }
    b"4.2"
}

/// Types of boxes of other standards that stand first in files of this kind: of Apple's QuickTime,
/// of whoever has a UUID, of MPEG-DASH.
const FIRST_TYPES: [FourCc; 3] = [FourCc(*b"wide"), FourCc(*b"uuid"), FourCc(*b"emsg")];

/// The meaning of any fault of a file that begins with no box of a type that is known.
const NO_MP4: &str = "this does not look like an MP4 file";

/// So many tracks are named.
const MOST_TRACKS: usize = 100;

// Whether a file begins with a box of a type that is known here.
fn begins_with_box<S: Store>(store: &mut S) -> Result<bool, Refusal>
    ensures honesty { S.is_honest store.new ≡ S.is_honest store.old }
    ensures file { S.file store.new ≡ S.file store.old }
{
    let mut front = [0; 8];
    if store.len() < 8 {
        return Ok(false);
    }
    store.read_at(0, &mut front)?;
    let kind = FourCc([front[4], front[5], front[6], front[7]]);
    Ok(FIRST_TYPES.contains(&kind) || CLAUSES.iter().any(|row| row.0 == kind))
}

// What a fault means.
fn meaning_of(fault: &Fault) -> &'static str {
    match fault.kind {
        Kind::ShortHeader => "a box must follow, and its header is cut short",
        Kind::BadSize => "the size is smaller than the header, or is 0 inside a container",
        Kind::Overrun => "the box ends beyond its container",
        Kind::ShortBox => "the box has no room for its fields or entries",
        Kind::BoxNotInProfile => "the profile has no such box there",
        Kind::DuplicateBox => "the box is one too many",
        Kind::MissingBox => "the container lacks a box that the profile requires",
        Kind::BadVersion => "the box has a version that the profile does not have",
        Kind::BadFlags => "the box has flags that the profile does not have",
        Kind::BadValue => "a field has a value that is not allowed",
        Kind::OutsideData => "only one data reference is accepted, a url that means this file",
        Kind::CountMismatch => "the counts of the table differ from the number of samples",
        Kind::BadOrder => "entries do not rise, or do not begin at 1",
        Kind::BadDescriptionIndex => "a sample has no sample entry",
        Kind::SampleOutsideFile => "a sample is not inside the file",
        Kind::UnknownTrack => "the track fragment is of a track that the movie does not have",
        Kind::Gap => "the track fragment does not begin at the time where the one before it ends",
        Kind::OffsetTooLarge if fault.box_type == *b"tkhd" =>
            "without its origin the track has a composition offset that does not fit 32 bits",
        Kind::OffsetTooLarge => "a table of version 0 has a composition offset of 2^31 or more",
        Kind::ItemLocation =>
            "a box carried unread holds the letters iloc, and so may name offsets in the file",
        Kind::TooManySamples => "with this box there are more than 2^24 samples",
        Kind::TimeTooLarge => "the track is too long, or ends too late, for its times",
        Kind::MovieTooLarge => "the normal form would have a moov of more than 2^30 bytes",
        Kind::FragmentBeforeMovie => "no moov comes before the movie fragment",
    }
}

// Adds a line.
fn push_line(text: &mut Vec<u8>, label: &[u8], rest: &[u8]) -> Result<(), AllocError>
    ensures { OnOk result (text.new.items ≡ text.old.items ++ label.now ++ rest.now ++ line_feed) }
{
    text.extend_from_slice(label)?;
    text.extend_from_slice(rest)?;
    text.extend_from_slice(b"\n")
}

// The way to the box of a fault, as far as its boxes can be read. Where a header is cut short
// behind the last of boxes that are counted, the container ends there.
fn way_read<S: Store>(alloc: Global, store: &mut S, fault: &Fault) -> Result<Way, Refusal>
    ensures honesty { S.is_honest store.new ≡ S.is_honest store.old }
    ensures file { S.file store.new ≡ S.file store.old }
{
    let way = way_to(alloc, store, fault.offset)?;
    if fault.kind != Kind::ShortHeader || way.last.kind.0 == fault.box_type || fault.offset == 0 {
        return Ok(way);
    }
    way_to(alloc, store, fault.offset - 1)
}

// Whether a way ends with the box that a fault names: a container where a header in it is cut
// short, and else the box at the fault's offset.
fn ends_with(last: WayBox, fault: &Fault) -> bool {
    let is_there = fault.kind == Kind::ShortHeader || last.offset == fault.offset;
    last.kind.0 == fault.box_type && is_there
}

// The way to the named box. Where its header can't be read, its type stands at the end.
fn whole_way<S: Store>(alloc: Global, store: &mut S, fault: &Fault) -> Result<Vec<u8>, Refusal>
    ensures honesty { S.is_honest store.new ≡ S.is_honest store.old }
    ensures file { S.file store.new ≡ S.file store.old }
{
    let named = FourCc(fault.box_type);
    let mut text = Vec::new(alloc);
    if named == FourCc::FILE {
        text.extend_from_slice(b"file")?;
        return Ok(text);
    }
    let way = way_read(alloc, store, fault)?;
    text.extend_from_slice(way.text.as_slice())?;
    if !text.is_empty() && ends_with(way.last, fault) {
        return Ok(text);
    }
    let mut number = None;
    if text.is_empty() {
        number = number_at_top(store, named, fault.offset);
    } else {
        text.extend_from_slice(b" / ")?;
    }
    text.extend_from_slice(step_line(named, number).as_bytes())?;
    Ok(text)
}

// Numbers that go with a fault; none where another fault stands before it.
fn numbers_of<S: Store, L: Ledger, M: Ledger>(
    alloc: Global,
    store: &mut S,
    fault: &Fault,
    steps: &mut Steps<L, M>,
) -> Result<Option<FaultNumbers>, Refusal>
    ensures honesty { S.is_honest store.new ≡ S.is_honest store.old }
    ensures file { S.file store.new ≡ S.file store.old }
{
    match fault_numbers(alloc, fault, store, steps) {
        Err(Refusal::Fault(_)) => Ok(None),
        told => told,
    }
}

// Adds the numbers that go with a fault.
fn say_told(text: &mut Vec<u8>, numbers: FaultNumbers) -> Result<(), AllocError> {
    say(text, "numbers: ")?;
    match numbers {
        FaultNumbers::Gap { track, due, found } => {
            say_counted(text, "track ", u64::from(track), ": time ")?;
            say_counted(text, "", found, ", due ")?;
            say_counted(text, "", due, "\n")
        }
        FaultNumbers::Counts { counted, wanted } => {
            say_counted(text, "counted ", counted, ", samples ")?;
            say_counted(text, "", wanted, "\n")
        }
        FaultNumbers::Outside { at, size, file_len } => {
            say_counted(text, "sample at ", at, ", size ")?;
            say_counted(text, "", u64::from(size), ", file ")?;
            say_counted(text, "", file_len, "\n")
        }
    }
}

// What is found of a fault beside the way to its box: whether the file begins like an MP4 file, and
// numbers.
#[derive(Clone, Copy)]
struct FaultFacts {
    is_mp4: bool,
    numbers: Option<FaultNumbers>,
}

// Finds what there is.
fn find<S: Store, L: Ledger, M: Ledger>(
    alloc: Global,
    store: &mut S,
    fault: &Fault,
    steps: &mut Steps<L, M>,
) -> Result<FaultFacts, Refusal>
    ensures honesty { S.is_honest store.new ≡ S.is_honest store.old }
    ensures file { S.file store.new ≡ S.file store.old }
{
    let is_mp4 = begins_with_box(store)?;
    let numbers = numbers_of(alloc, store, fault, steps)?;
    Ok(FaultFacts { is_mp4, numbers })
}

// Adds the name of the file, where it is given.
fn push_file(text: &mut Vec<u8>, alloc: Global, name: Option<&str>) -> Result<(), AllocError> {
    match name {
        Some(name) => push_line(text, b"file: ", shown(alloc, name.as_bytes())?.as_slice()),
        None => Ok(()),
    }
}

/// What is found of a fault: the way to the named box, and facts beside it.
#[derive(Drop)]
pub(crate) struct FaultLook {
    way: Vec<u8>,
    facts: FaultFacts,
}

/// Looks at a fault of a file.
pub(crate) fn look_at<S: Store, L: Ledger, M: Ledger>(
    alloc: Global,
    fault: &Fault,
    store: &mut S,
    steps: &mut Steps<L, M>,
) -> Result<FaultLook, Refusal>
    ensures honesty { S.is_honest store.new ≡ S.is_honest store.old }
    ensures file { S.file store.new ≡ S.file store.old }
{
    let way = whole_way(alloc, store, fault)?;
    let facts = find(alloc, store, fault, steps)?;
    Ok(FaultLook { way, facts })
}

// Adds what a fault means, and what helps.
fn push_meaning(
    text: &mut Vec<u8>,
    fault: &Fault,
    facts: FaultFacts,
    remedy: &[u8],
) -> Result<(), AllocError> {
    if !facts.is_mp4 {
        return push_line(text, b"meaning: ", NO_MP4.as_bytes());
    }
    text.extend_from_slice(b"meaning: ")?;
    push_line(text, meaning_of(fault).as_bytes(), remedy)
}

/// Three lines on a fault of a file: the way to the named box, the clause of the standard that
/// tells of it, and what the kind means, with what helps; and a fourth one where numbers go with
/// the fault. Before them stands the name of the file, where it is given.
pub(crate) fn explanation(
    alloc: Global,
    name: Option<&str>,
    fault: &Fault,
    look: &FaultLook,
    remedy: &[u8],
) -> Result<Vec<u8>, AllocError> {
    let mut text = Vec::new(alloc);
    push_file(&mut text, alloc, name)?;
    push_line(&mut text, b"way: ", look.way.as_slice())?;
    push_line(
        &mut text,
        b"clause: ISO/IEC 14496-12, ",
        clause_of(FourCc(fault.box_type)),
    )?;
    push_meaning(&mut text, fault, look.facts, remedy)?;
    if let Some(numbers) = look.facts.numbers {
        say_told(&mut text, numbers)?;
    }
    Ok(text)
}

// Of these lines those that say what the line of the refusal doesn't.
fn brief_explanation(
    alloc: Global,
    name: Option<&str>,
    found: FaultFacts,
) -> Result<Vec<u8>, AllocError> {
    let mut text = Vec::new(alloc);
    if found.is_mp4 && found.numbers.is_none() {
        return Ok(text);
    }
    push_file(&mut text, alloc, name)?;
    if !found.is_mp4 {
        push_line(&mut text, b"meaning: ", NO_MP4.as_bytes())?;
    }
    if let Some(numbers) = found.numbers {
        say_told(&mut text, numbers)?;
    }
    Ok(text)
}

/// Puts of the lines on a fault only the numbers, and the meaning where the file doesn't begin like
/// an MP4 file; nothing where there is neither.
pub(crate) fn explain_briefly<S: Store, K: Sink, L: Ledger, M: Ledger>(
    alloc: Global,
    name: Option<&str>,
    fault: &Fault,
    store: &mut S,
    sink: &mut K,
    steps: &mut Steps<L, M>,
) -> Result<(), Refusal>
    ensures honesty { S.is_honest store.new ≡ S.is_honest store.old }
    ensures file { S.file store.new ≡ S.file store.old }
{
    let found = find(alloc, store, fault, steps)?;
    let text = brief_explanation(alloc, name, found)?;
    if !text.is_empty() {
        sink.put(text.as_slice())?;
    }
    Ok(())
}

// The line that names these tracks by their IDs.
fn tracks_line(alloc: Global, tracks: &[TrackInfo]) -> Result<Vec<u8>, AllocError> {
    let mut text = Vec::new(alloc);
    say(&mut text, "tracks:")?;
    for track in tracks.iter().take(MOST_TRACKS) {
        say_counted(&mut text, " ", u64::from(track.id), "")?;
    }
    if tracks.len() > MOST_TRACKS {
        say(&mut text, " ..")?;
    }
    text.push(b'\n')?;
    Ok(text)
}

/// Puts a line that names the tracks of a file by their IDs, the first hundred of them; before it
/// the name of the file, where it is given.
pub(crate) fn name_tracks<S: Store, K: Sink, L: Ledger, M: Ledger>(
    alloc: Global,
    name: Option<&str>,
    store: &mut S,
    sink: &mut K,
    steps: &mut Steps<L, M>,
) -> Result<(), Refusal>
    ensures honesty { S.is_honest store.new ≡ S.is_honest store.old }
    ensures file { S.file store.new ≡ S.file store.old }
{
    let movie = open_movie(alloc, store, steps)?;
    let mut text = Vec::new(alloc);
    push_file(&mut text, alloc, name)?;
    text.extend_from_slice(tracks_line(alloc, movie.tracks())?.as_slice())?;
    sink.put(text.as_slice())?;
    Ok(())
}
