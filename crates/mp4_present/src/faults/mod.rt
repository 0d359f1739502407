//! Numbers that go with a fault: what a table counts and what there is, which time is due, where a
//! sample would end.
ghost use Rattle.std.specs.Prelude.{◌≡◌, length, IfOk, IfErr, IfSome, IsTrue};
ghost use Rattle.mp4_present.specs.format.FaultNumbers.{Tells};
ghost use Rattle.mp4_present.specs.words.NumbersTold.{IsPlain, TellsTraf};
ghost use Rattle.mp4_boxes.specs.words.View.{box_seen};
ghost use Rattle.mp4_present.specs.words.Refusing.{RefusesNumbers, RefusesSearch};
ghost use Rattle.mp4_present.specs.words.Movies.{Fills};
ghost use Rattle.mp4_present.specs.words.Outline.{AreIn};
ghost use Rattle.mp4_present.specs.words.Opening.{HasOutline};
ghost use Rattle.mp4_present.specs.words.FaultSearches.{SearchesWithin, TellsOf};
ghost use Rattle.mp4_present.specs.words.StoresRead.{OnlyReads, RefusedOf, WhereHonest};
ghost use Rattle.mp4_present.specs.words.ToOpen.{IsPayloadIn};
ghost use Rattle.mp4_present.specs.format.ByBytes.{OpensWithin, LooksByBytes};

pub mod counts;
pub mod gaps;
pub mod places;

use crate::faults::counts::{counts_in_tables, counts_in_traf};
use crate::faults::gaps::gap_in;
use crate::faults::places::{outside_in_tables, outside_in_traf};
use crate::opening::fragments::{Known, check_fragments};
use crate::opening::outline::{Outline, read_outline};
use crate::opening::tables_pass::check_tables;
use crate::reading::read_bytes;
use mp4_boxes::{BoxView, Fault, Kind, Refusal, Steps};
use mp4_frag::{Standing, TrackState};
use mp4_head::{MovieHead, read_head};
use mp4_store::Store;
use std::alloc::Global;
use std::sync::ledger::Ledger;

/// Numbers that go with a fault.
#[derive(Clone, Copy, Debug, PartialEq, Eq)]
pub enum FaultNumbers {
    /// The samples of a `traf` of this track begin at the time `found`, where `due` is due: the end
    /// of the track up to that `traf`, in its timescale.
    Gap { track: u32, due: u64, found: u64 },
    /// What the named table counts, and how many samples there are.
    Counts { counted: u64, wanted: u64 },
    /// A sample of so many bytes at a place, of which some lie behind the file's last one.
    Outside { at: u64, size: u32, file_len: u64 },
}

// The same, where the fault is of a track's tables.
fn numbers_in_tables(head: &MovieHead, fault: &Fault, file_len: u64) -> Option<FaultNumbers>
    ensures { IfSome result (IsPlain file_len) }
{
    match fault.kind {
        Kind::CountMismatch => counts_in_tables(head, fault.offset),
        Kind::SampleOutsideFile => outside_in_tables(head, fault.offset, file_len),
        _ => None,
    }
}

/// The same, of a `traf` that stands there and is refused for this fault. These are the states of
/// the tracks behind what comes before it.
pub(crate) fn numbers_in_traf(
    traf: BoxView,
    at: Standing,
    states: &[TrackState],
    fault: &Fault,
) -> Option<FaultNumbers>
    ensures { IfSome result
        (TellsTraf (box_seen traf.entry) states.now at.file_len fault.now.offset) }
{
    match fault.kind {
        Kind::Gap => gap_in(traf, fault.offset, states),
        Kind::CountMismatch => counts_in_traf(traf, fault.offset),
        Kind::SampleOutsideFile => outside_in_traf(traf, at, states),
        _ => None,
    }
}

// A file that was refused: the fault, and where the parts of the file lie.
#[derive(Clone, Copy)]
struct RefusedFile<'a> {
    fault: &'a Fault,
    outline: &'a Outline,
}

// The same, of a file with this `moov`; or a fault that comes before what is asked for.
fn numbers_behind<S: Store, L: Ledger, M: Ledger>(
    alloc: Global,
    refused: RefusedFile,
    store: &mut S,
    moov: &[u8],
    steps: &mut Steps<L, M>,
) -> Result<Option<FaultNumbers>, Refusal>
    requires fills { Fills (length moov.now) refused.outline.now.moov }
    requires bytes { WhereHonest S.Store store.old (λ file.
        IsPayloadIn file refused.outline.now moov.now) }
    requires outline { HasOutline (S.is_honest store.old) (S.file store.old) refused.outline.now }
    requires moofs { AreIn (length (S.file store.old)) refused.outline.now.moofs.items }
    ensures store { OnlyReads S.Store store.old store.new result }
    ensures told { TellsOf S.Store store.old refused.entry.fault.now.offset result }
    ensures work { WhereHonest S.Store store.old (λ file.
        SearchesWithin file steps.old.passed steps.new.passed steps.old.looks steps.new.looks) }
    ensures refusal { RefusedOf S.Store store.old store.new result
        (λ honest file. RefusesSearch honest) }
{
    let RefusedFile { fault, outline } = refused;
    let view = outline.moov.view(moov);
    let head = read_head(alloc, view)?;
    if let Some(told) = numbers_in_tables(&head, fault, store.len()) {
        return Ok(Some(told));
    }
    let plain = check_tables(alloc, view, &head, store.len(), steps)?;
    let known = Known {
        outline,
        plain: &plain,
    };
    let mut told = None;
    match check_fragments(alloc, store, known, &mut told, steps) {
        Ok(_) => Ok(None),
        Err(Refusal::Fault(found)) if found.offset == fault.offset => Ok(told),
        Err(refusal) => Err(refusal),
    }
}

// The same, of a file that is read once more.
fn numbers_in<S: Store, L: Ledger, M: Ledger>(
    alloc: Global,
    fault: &Fault,
    store: &mut S,
    steps: &mut Steps<L, M>,
) -> Result<Option<FaultNumbers>, Refusal>
    ensures store { OnlyReads S.Store store.old store.new result }
    ensures told { TellsOf S.Store store.old fault.now.offset result }
    ensures work { WhereHonest S.Store store.old (λ file.
        SearchesWithin file steps.old.passed steps.new.passed steps.old.looks steps.new.looks) }
    ensures refusal { RefusedOf S.Store store.old store.new result
        (λ honest file. RefusesSearch honest) }
{
    let outline = read_outline(alloc, store)?;
    let at = outline.moov.payload_offset();
    let moov = read_bytes(alloc, store, at, outline.moov.header.end - at)?;
    let refused = RefusedFile {
        fault,
        outline: &outline,
    };
    let told = numbers_behind(alloc, refused, store, moov.as_slice(), steps)?;
    Ok(told)
}

/// Numbers that go with a fault for which a file was refused, where some are to be had. The file
/// is read once more, as far as the fault, with no more memory than to open it.
pub fn fault_numbers<S: Store, L: Ledger, M: Ledger>(
    alloc: Global,
    fault: &Fault,
    store: &mut S,
    steps: &mut Steps<L, M>,
) -> Result<Option<FaultNumbers>, Refusal>
    ensures honesty { S.is_honest store.new ≡ S.is_honest store.old }
    ensures file { S.file store.new ≡ S.file store.old }
    ensures told { IfOk result (λ told. IfSome told (λ n. IsTrue (S.is_honest store.old)
        → Tells (S.file store.old) fault.now.offset n)) }
    ensures within { IsTrue (S.is_honest store.old)
        → OpensWithin (S.file store.old) steps.old.passed steps.new.passed }
    ensures looks { IsTrue (S.is_honest store.old)
        → LooksByBytes (S.file store.old) steps.old.looks steps.new.looks }
    ensures reads { IfOk result (λ told. IfSome told
        (λ _. S.read_failures store.new ≡ S.read_failures store.old)) }
    ensures refusal { IfErr result
        (RefusesNumbers (S.is_honest store.old) (S.read_failures store.old)
        (S.read_failures store.new)) }
{
    match fault.kind {
        Kind::Gap | Kind::CountMismatch | Kind::SampleOutsideFile => {}
        _ => return Ok(None),
    }
    match numbers_in(alloc, fault, store, steps) {
        Ok(told) => Ok(told),
        Err(Refusal::Fault(_)) => Ok(None),
        Err(refusal) => Err(refusal),
    }
}
