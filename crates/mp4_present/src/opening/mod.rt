//! A file, read to one presentation or refused.
ghost use Rattle.std.specs.Prelude.{◌≡◌, length, IfOk, IfErr, OnOk};
ghost use Rattle.mp4_boxes.specs.declared.refusal.Refusal.TheVariants as refusals;
ghost use Rattle.mp4_present.specs.words.Movies.{Fills};
ghost use Rattle.mp4_present.specs.words.Outline.{AreIn};
ghost use Rattle.mp4_head.specs.declared.heads.TrackHead.{TrackHead};
ghost use Rattle.mp4_present.specs.format.Denotes.{FileTree};
ghost use Rattle.mp4_present.specs.words.OpenedMovie.{IsInfoBy, IsOpenedAs, IsOpenedOwn, kept_of};
ghost use Rattle.mp4_present.specs.words.Opening.{HasOutline, RefusesOpen};
ghost use Rattle.mp4_present.specs.words.Refusing.{RefusesSearch};
ghost use Rattle.mp4_present.specs.words.FileJudged.{NamesBehindTop, NamesJudged};
ghost use Rattle.mp4_present.specs.words.OpeningWork.{ChecksFile, HaveInfos};
ghost use Rattle.mp4_present.specs.words.StoresRead.{OnlyReads, WhereHonest, WhereRead, RefusedOf};
ghost use Rattle.mp4_present.specs.words.ToOpen.{IsPayloadIn, HasTables, HasTracks, TakesToOpen};

pub mod fragments;
pub mod limit_checks;
pub mod outline;
pub mod tables_pass;
pub mod totals;

use crate::movie::Movie;
use crate::opening::fragments::{Known, check_fragments};
use crate::opening::limit_checks::{check_limits, duration_of};
use crate::opening::outline::{Outline, read_outline};
use crate::opening::tables_pass::{PlainTracks, check_tables};
use crate::own_trafs::OwnTrafs;
use crate::reading::read_bytes;
use crate::track_info::TrackInfo;
use mp4_boxes::{Refusal, Steps};
use mp4_frag::TrackState;
use mp4_head::{MovieHead, TrackHead, read_head};
use mp4_store::Store;
use std::alloc::Global;
use std::sync::ledger::Ledger;

// What is found of the tracks of a file.
#[derive(Drop)]
struct FoundTracks {
    plain: PlainTracks,
    tracks: Vec<TrackInfo>,
    own: Vec<OwnTrafs>,
    mehd: u64,
}

// A track in numbers.
fn info_of(track: &TrackHead, state: TrackState) -> TrackInfo
    ensures { IsInfoBy track.now state result }
{
    TrackInfo {
        id: track.id,
        timescale: track.media.timescale,
        start: state.start,
        samples: state.count,
        duration: duration_of(state),
        bytes: state.bytes,
        keys: state.keys,
    }
}

// The tracks in numbers.
fn infos_of(
    alloc: Global,
    head: &MovieHead,
    states: &[TrackState],
) -> Result<Vec<TrackInfo>, Refusal>
    requires states { length states.now ≡ length head.now.tracks.items }
    ensures infos { IfOk result
        (λ tracks. HaveInfos head.now.tracks.items states.now tracks.items) }
    ensures refusal { IfErr result (λ r. r ≡ refusals.Memory) }
{
    let mut tracks = Vec::new(alloc);
    for k in 0..head.tracks.len() {
        let track = &head.tracks[k];
        let state = states[k];
        tracks.push(info_of(track, state))?;
    }
    Ok(tracks)
}

// Checks all that a file of this outline has, behind the headers of its own boxes: what is found is
// what is kept of an opened movie, or the first fault of the file is named.
fn find<S: Store, L: Ledger, M: Ledger>(
    alloc: Global,
    store: &mut S,
    outline: &Outline,
    moov: &[u8],
    steps: &mut Steps<L, M>,
) -> Result<FoundTracks, Refusal>
    requires moov { Fills (length moov.now) outline.now.moov
        × WhereHonest S.Store store.old (λ file. IsPayloadIn file outline.now moov.now) }
    requires outline { HasOutline (S.is_honest store.old) (S.file store.old) outline.now
        × AreIn (length (S.file store.old)) outline.now.moofs.items }
    ensures store { OnlyReads S.Store store.old store.new result }
    ensures tables { IfOk result (HasTables moov.now) }
    ensures movie { WhereRead S.Store store.old result (λ file f. (t : FileTree)
        × IsOpenedAs file (kept_of outline.now moov.now (length file) f) t) }
    ensures ids { WhereRead S.Store store.old result (λ file f. HasTracks file f.tracks.items) }
    ensures work { WhereHonest S.Store store.old (λ file.
        ChecksFile file result steps.old.passed steps.new.passed steps.old.looks steps.new.looks) }
    ensures least { OnOk result (WhereHonest S.Store store.old (λ file.
        TakesToOpen file steps.old.passed steps.new.passed)) }
    ensures refusal { RefusedOf S.Store store.old store.new result
        (λ honest file. RefusesSearch honest) }
    ensures exact { WhereHonest S.Store store.old (λ file. NamesBehindTop file result) }
{
    let view = outline.moov.view(moov);
    let head = read_head(alloc, view)?;
    let plain = check_tables(alloc, view, &head, store.len(), steps)?;
    let known = Known {
        outline,
        plain: &plain,
    };
    let passed = check_fragments(alloc, store, known, &mut None, steps)?;
    let mehd = check_limits(view, &head, passed.states.as_slice())?;
    let tracks = infos_of(alloc, &head, passed.states.as_slice())?;
    Ok(FoundTracks {
        plain,
        tracks,
        own: passed.own,
        mehd,
    })
}

/// Reads a file to the presentation that it denotes, or names its first fault. The `moov` is read
/// once and kept; each `moof` is read, checked and given up before the next; media data is not
/// read. Steps are rows, runs, samples and `traf`s; a look finds the track of a `traf` by its ID.
pub fn open_movie<S: Store, L: Ledger, M: Ledger>(
    alloc: Global,
    store: &mut S,
    steps: &mut Steps<L, M>,
) -> Result<Movie, Refusal>
    ensures store { OnlyReads S.Store store.old store.new result }
    ensures movie { WhereRead S.Store store.old result
        (λ file m. (t : FileTree) × IsOpenedOwn file m t) }
    ensures ids { WhereRead S.Store store.old result (λ file m. HasTracks file m.tracks) }
    ensures work { WhereHonest S.Store store.old (λ file.
        ChecksFile file result steps.old.passed steps.new.passed steps.old.looks steps.new.looks) }
    ensures least { OnOk result (WhereHonest S.Store store.old (λ file.
        TakesToOpen file steps.old.passed steps.new.passed)) }
    ensures refusal { RefusedOf S.Store store.old store.new result RefusesOpen }
    ensures exact { WhereHonest S.Store store.old (λ file. NamesJudged file result) }
{
    let outline = read_outline(alloc, store)?;
    let at = outline.moov.payload_offset();
    let moov = read_bytes(alloc, store, at, outline.moov.header.end - at)?;
    let file_len = store.len();
    let FoundTracks {
        plain,
        tracks,
        own,
        mehd,
    } = find(alloc, store, &outline, moov.as_slice(), steps)?;
    let PlainTracks { tables, states, .. } = plain;
    Ok(Movie {
        top: outline.moov,
        moov,
        file_len,
        longest: outline.longest,
        moofs: outline.moofs,
        tables,
        states,
        tracks,
        own,
        mehd,
        only: None,
        waits: None,
    })
}
