//! The normal form of a presentation, written.
ghost use Rattle.std.specs.Prelude.{◌≡◌, ℕ, ◌+◌, ◌*◌, ◌-◌, ◌<◌, ◌≤◌, List, [], ◌++◌, length, take, Some, None, true, false, IfOk, IfErr, OnOk, OnErr};
ghost use Rattle.std.specs.List.{sum_by};
ghost use Rattle.mp4_store.specs.words.Device.{TakesPrefix};
ghost use Rattle.mp4_tables.specs.declared.sample.SampleAt.{SampleAt};
ghost use Rattle.mp4_content.specs.declared.tracks_left.TrackLeft.{TrackLeft};
ghost use Rattle.mp4_present.specs.words.Carried.{GoOnBy, waiting};
ghost use Rattle.mp4_content.specs.format.Remaining.{RemainsInLimits, remaining};
ghost use Rattle.mp4_content.specs.words.Measuring.{measuring_steps};
ghost use Rattle.mp4_content.specs.declared.without.Without.{Without};
ghost use Rattle.mp4_content.specs.words.Contents.{content_left};
ghost use Rattle.mp4_content.specs.words.LeftTimes.{NamesLong};
ghost use Rattle.mp4_plan.specs.words.LeftRefusals.{RefusesLeft, RefusesLeftCopy};
ghost use Rattle.mp4_present.specs.format.Denotes.{presentation_of};
ghost use Rattle.mp4_present.specs.words.Joined.{sample_bytes};
ghost use Rattle.mp4_present.specs.words.StoresRead.{IsUnchanged, OnlyReads, Refused};
ghost use Rattle.mp4_present.specs.words.WalkSteps.{walks_steps};
ghost use Rattle.mp4_plan.specs.format.Normal.{normal};
ghost use Rattle.mp4_plan.specs.words.PutPieces.{IsHeadLeft, PiecesFollow, IsPutWhole};
ghost use Rattle.mp4_plan.specs.words.WriterSteps.{MayAllWrite, OnlyPasses, WriteAllBegin, writing_steps};
ghost use Rattle.mp4_plan.specs.words.CarriedSamples.{AreThere};
ghost use Rattle.mp4_plan.specs.words.WriterWalks.{IsPlanned, MayCarry, OnTurn, OnlyCarries, OnlyNotes, StepsToCarry, StepsToNote, WhereNoted, WithKeys};
ghost use Rattle.mp4_plan.specs.words.MadeWriters.{IsMade, TellsLong};
ghost use Rattle.mp4_content.specs.words.Opened.{OverOpened};
ghost use Rattle.mp4_plan.specs.words.Turns.{movie_turns};
ghost use Rattle.mp4_present.specs.words.HandCarried.{RefusedByBoth};
ghost use Rattle.mp4_present.specs.words.Carried.{RefusesCarry, RefusesCopy};
ghost use Rattle.mp4_present.specs.declared.walking.Walk.{Walk};
ghost use Rattle.mp4_plan.specs.words.Gathering.{more_of, piece_from};
ghost use Rattle.mp4_present.specs.words.Movies.{RefusesLoad};
ghost use Rattle.mp4_present.specs.words.OutBuffers.{Carries, OnlyCopies};
ghost use Rattle.mp4_content.specs.words.Opened.{RefusesPlan};
ghost use Rattle.mp4_plan.specs.words.Writers.{IsWriterOf, turn_head, sequence_behind, IsReady, IsReadyWithin, turn_bytes, HasNoted, HaveCopied};
ghost use Rattle.mp4_plan.specs.format.Held.{held_bytes};

use crate::carrying::{Load, NotedBytes, carry_noted};
use crate::due_tracks::DueTracks;
use crate::ends::{Portion, first_goes};
use crate::first_samples::{first_time, peek_each, walks_of};
use crate::moof_front::{PieceHead, moof_front};
use crate::moof_rows::{carry_groups, carry_run};
use crate::moof_sizes::sizes_of;
use crate::normal_head::head_of;
use crate::noted_rows::{NO_ROW, PieceNotes};
use crate::piece_totals::longest_piece;
use crate::planner::{Planned, Planner};
use crate::schedule::{Schedule, Turn};
use crate::stretches::Stretches;
use crate::track_pieces::note_marked;
use mp4_boxes::{FourCc, Refusal, Steps, header};
use mp4_content::{Content, TrackLeft, Without};
use mp4_present::{Latch, Movie, OutBuffer, Walk};
use mp4_store::{Sink, Store};
use mp4_tables::SampleAt;
use std::alloc::Global;
use std::sync::ledger::Ledger;

/// How many bytes are put at once: fifteen pages, so that each put fills whole ones.
const PIECE: usize = 61_440;

/// The most bytes that a writer holds beside the head, its rows and its walks.
const MOST_WAITING: usize = 65_000;

// What a turn of a track comes to: what was planned of its samples, and what its piece says once
// where it has some.
#[derive(Clone, Copy, Debug, PartialEq, Eq)]
struct Noted {
    track: usize,
    planned: Planned,
    head: Option<PieceHead>,
}

/// Writes the normal form of a movie. All memory that it takes is taken when it is made.
#[derive(Drop)]
pub struct Writer {
    content: Content,
    /// What waits to be put.
    carrier: OutBuffer,
    /// The bytes of `ftyp` and `moov`.
    head: Vec<u8>,
    /// The piece that is noted.
    notes: PieceNotes,
    /// For each track a walk that notes its pieces, and goes back for their bytes where these lie
    /// in too many places.
    walks: Vec<Walk>,
    /// The next sample of each track.
    nexts: Vec<Option<SampleAt>>,
    /// When these are due.
    due: DueTracks,
}

// The bytes of the samples of all tracks, as many as opening counted.
fn bytes_of(tracks: &[TrackLeft]) -> u128
    ensures { result ≡ sum_by (λ (i : TrackLeft). i.bytes) tracks.now }
{
    let mut bytes: u128 = 0;
    for track in tracks {
        bytes += u128::from(track.bytes);
    }
    bytes
}

// Whether no sample is left to come, and so many bytes are those of all samples of all tracks.
fn are_all(left: u128, bytes: u128, tracks: &[TrackLeft]) -> bool
    ensures all { result ≡ true
        → (left ≡ 0) × (bytes ≡ sum_by (λ (i : TrackLeft). i.bytes) tracks.now) }
    ensures missing { result ≡ false
        → ((left ≡ 0) × (bytes ≡ sum_by (λ (i : TrackLeft). i.bytes) tracks.now) → ⊥) }
{
    left == 0 && bytes == bytes_of(tracks)
}

// What a piece of so many samples says once, of which the first is this one; nothing where it has
// none.
fn turn_head(sequence: u32, id: u32, count: u32, first: &Option<SampleAt>) -> Option<PieceHead>
    ensures { result ≡ turn_head sequence id count first.now }
{
    match first {
        Some(sample) if count > 0 => Some(PieceHead {
            sequence,
            id,
            time: sample.dts,
            description: sample.description,
        }),
        _ => None,
    }
}

// The sequence number behind a piece, as far as 32 bits go.
fn sequence_behind(sequence: u32, head: &Option<PieceHead>) -> u32
    ensures { result ≡ sequence_behind sequence head.now }
{
    if head.is_some() {
        sequence.saturating_add(1)
    } else {
        sequence
    }
}

impl Writer {
    /// Plans all of what is left of a movie, and then takes all memory that writing it needs. A
    /// track that is too long then, or has an offset that doesn't fit, is a fault.
    pub fn reduced<S: Store, L: Ledger, M: Ledger>(
        alloc: Global,
        movie: &Movie,
        store: &mut S,
        leaving: Without,
        steps: &mut Steps<L, M>,
    ) -> Result<Writer, Refusal>
        ensures made { IfOk result (IsMade movie.now leaving) }
        ensures store { OnlyReads S.Store store.old store.new result }
        ensures ready { OverOpened S.Store store.old movie.now
            (λ file tree. IfOk result (λ w. IsReadyWithin file tree movie.now w
            × RemainsInLimits leaving (presentation_of file tree))) }
        ensures unchanged { OverOpened S.Store store.old movie.now
            (λ file tree. IsUnchanged result) }
        ensures fault { OverOpened S.Store store.old movie.now
            (λ file tree. IfErr result (NamesLong leaving file tree)) }
        ensures refusal { Refused S.Store store.old store.new result (RefusesLeft leaving) }
        ensures grows { OnOk result (steps.old.passed ≤ steps.new.passed) }
        ensures work { OverOpened S.Store store.old movie.now
            (λ file tree. steps.new.passed ≤ steps.old.passed
            + (measuring_steps leaving tree + walks_steps tree)) }
        ensures may { OverOpened S.Store store.old movie.now (λ file tree.
            IfOk result (λ w. WriteAllBegin file tree movie.now w.walks.items)) }
        ensures turns { steps.new.looks ≤ steps.old.looks + movie_turns movie.now }
    {
        let content = Content::of(alloc, movie, store, leaving, steps)?;
        let longest = longest_piece(alloc, movie, store, &content, steps)?;
        let due = DueTracks::new(alloc, movie.tracks().len())?;
        Ok(Writer {
            carrier: OutBuffer::new(alloc, PIECE)?,
            head: head_of(alloc, movie, &content)?,
            notes: PieceNotes {
                rows: vec![in alloc; NO_ROW; longest as usize]?,
                stretches: Stretches::new(),
            },
            walks: walks_of(alloc, movie)?,
            nexts: vec![in alloc; None; movie.tracks().len()]?,
            due,
            content,
        })
    }

    /// Plans the whole movie, and then takes all memory that writing it needs.
    pub fn new<S: Store, L: Ledger, M: Ledger>(
        alloc: Global,
        movie: &Movie,
        store: &mut S,
        steps: &mut Steps<L, M>,
    ) -> Result<Writer, Refusal>
        ensures made { IfOk result (IsMade movie.now Without.NOTHING) }
        ensures store { OnlyReads S.Store store.old store.new result }
        ensures ready { OverOpened S.Store store.old movie.now
            (λ file tree. IfOk result (IsReadyWithin file tree movie.now)) }
        ensures unchanged { OverOpened S.Store store.old movie.now
            (λ file tree. IsUnchanged result) }
        ensures refusal { Refused S.Store store.old store.new result RefusesPlan }
        ensures grows { OnOk result (steps.old.passed ≤ steps.new.passed) }
        ensures work { OverOpened S.Store store.old movie.now
            (λ file tree. steps.new.passed ≤ steps.old.passed + walks_steps tree) }
        ensures may { OverOpened S.Store store.old movie.now (λ file tree.
            IfOk result (λ w. WriteAllBegin file tree movie.now w.walks.items)) }
        ensures turns { steps.new.looks ≤ steps.old.looks + movie_turns movie.now }
    {
        Writer::reduced(alloc, movie, store, Without::NOTHING, steps)
    }

    // Plans the piece of a turn, and notes its samples. If it has some, this is its number.
    fn note_turn<S: Store, L: Ledger, M: Ledger>(
        &mut self,
        turn: &Turn,
        sequence: u32,
        movie: &Movie,
        store: &mut S,
        steps: &mut Steps<L, M>,
    ) -> Result<Noted, Refusal>
        requires writer { IsWriterOf movie.now self.old }
        requires track { turn.now.track < length movie.now.tracks }
        ensures writer { OnlyNotes movie.now self.old self.new result }
        ensures store { OnlyReads S.Store store.old store.new result }
        ensures noted { OnTurn S.Store store.old movie.now turn.now self.old (λ file tree t left.
            IfOk result
            (HasNoted file tree t movie.now turn.now sequence left self.old self.new)) }
        ensures unchanged { OnTurn S.Store store.old movie.now turn.now self.old
            (λ file tree t left.
            more_of (piece_from turn.now.end) left ≤ length self.old.notes.rows.items
            → IsUnchanged result) }
        ensures planned { IfOk result (λ n. IsPlanned (length self.old.notes.rows.items) n
            × (n.track ≡ turn.now.track)) }
        ensures refusal { Refused S.Store store.old store.new result RefusesLoad }
        ensures work { StepsToNote S.Store store.old movie.now turn.now.track self.old self.new
            result steps.old.passed steps.new.passed }
        ensures steps { OnlyPasses steps.old.passed steps.new.passed steps.old.looks
            steps.new.looks result }
    {
        self.notes.stretches.clear();
        let first = self.nexts[turn.track];
        if !first_goes(&turn.end, &first) {
            return Ok(Noted {
                track: turn.track,
                planned: Planner::new(turn.end).piece(),
                head: None,
            });
        }
        let reduction = self.content.reduction(turn.track);
        let portion = Portion {
            end: turn.end,
            reduction,
        };
        let walk = &mut self.walks[turn.track];
        let planned = note_marked(walk, portion, &mut self.notes, movie, store, steps)?;
        Ok(Noted {
            track: turn.track,
            planned,
            head: turn_head(sequence, turn.id, planned.count, &first),
        })
    }

    // Takes the bytes of a track's samples along that were noted, as many as were planned, and
    // looks for the next one.
    fn carry_data<S: Store, K: Sink, L: Ledger, M: Ledger>(
        &mut self,
        noted: &Noted,
        movie: &Movie,
        store: &mut S,
        sink: &mut K,
        steps: &mut Steps<L, M>,
    ) -> Result<(), Refusal>
        requires writer { IsWriterOf movie.now self.old }
        requires track { noted.now.track < length movie.now.tracks }
        ensures writer { OnlyCarries movie.now self.old self.new result }
        ensures devices { OnlyCopies S.Store store.old store.new K.Sink sink.old sink.new result }
        ensures put { WhereNoted S.Store store.old movie.now noted.now self.old
            (λ file tree t samples.
            Carries K.Sink sink.old sink.new self.old.carrier self.new.carrier result
            (sample_bytes file (take noted.now.planned.count samples))) }
        ensures many { OnOk result (GoOnBy (K.takes sink.old sink.new)
            (waiting self.old.carrier) (waiting self.new.carrier) noted.now.planned.bytes) }
        ensures copied { WhereNoted S.Store store.old movie.now noted.now self.old
            (λ file tree t samples. OnOk result
            (HaveCopied file tree movie.now t noted.now.track noted.now.planned.count samples
            self.old self.new)
            × (AreThere file noted.now.planned.count noted.now.planned.bytes samples
            → IsUnchanged result)) }
        ensures refusal { RefusedByBoth S.Store store.old store.new K.Sink sink.old sink.new result
            RefusesCarry }
        ensures work { StepsToCarry S.Store store.old movie.now noted.now self.old self.new result
            steps.old.passed steps.new.passed }
        ensures steps { OnlyPasses steps.old.passed steps.new.passed steps.old.looks
            steps.new.looks result }
    {
        let Noted { track, planned, .. } = *noted;
        let bytes = NotedBytes {
            stretches: &self.notes.stretches,
            load: Load {
                samples: planned.count,
                bytes: planned.bytes,
            },
        };
        self.nexts[track] = carry_noted(
            &mut self.walks[track],
            self.content.reduction(track),
            bytes,
            &mut self.carrier,
            movie,
            store,
            sink,
            steps,
        )?;
        Ok(())
    }

    // Takes the piece of a turn along whose samples were noted, where it has some: its front and
    // rows, and the bytes of its samples.
    fn carry_turn<S: Store, K: Sink, L: Ledger, M: Ledger>(
        &mut self,
        noted: &Noted,
        movie: &Movie,
        store: &mut S,
        sink: &mut K,
        steps: &mut Steps<L, M>,
    ) -> Result<(), Refusal>
        requires may { MayCarry movie.now self.old noted.now.track noted.now.planned }
        requires none { noted.now.head ≡ None → noted.now.planned.count ≡ 0 }
        ensures writer { OnlyCarries movie.now self.old self.new result }
        ensures devices { OnlyCopies S.Store store.old store.new K.Sink sink.old sink.new result }
        ensures put { WhereNoted S.Store store.old movie.now noted.now self.old
            (λ file tree t samples. WithKeys movie.now noted.now.track (λ keys.
            Carries K.Sink sink.old sink.new self.old.carrier self.new.carrier result
            (turn_bytes file noted.now.head noted.now.planned keys
            (take noted.now.planned.count samples)))) }
        ensures many { OnOk result (PiecesFollow (K.takes sink.old sink.new)
            (waiting self.old.carrier) (waiting self.new.carrier) [] noted.now.planned.count
            noted.now.planned.bytes) }
        ensures copied { WhereNoted S.Store store.old movie.now noted.now self.old
            (λ file tree t samples. OnOk result
            (HaveCopied file tree movie.now t noted.now.track noted.now.planned.count samples
            self.old self.new)
            × (AreThere file noted.now.planned.count noted.now.planned.bytes samples
            → IsUnchanged result)) }
        ensures refusal { RefusedByBoth S.Store store.old store.new K.Sink sink.old sink.new result
            RefusesCarry }
        ensures work { StepsToCarry S.Store store.old movie.now noted.now self.old self.new result
            steps.old.passed steps.new.passed }
        ensures steps { OnlyPasses steps.old.passed steps.new.passed steps.old.looks
            steps.new.looks result }
    {
        let Some(head) = noted.head else {
            return Ok(());
        };
        let planned = &noted.planned;
        let keys = movie.tracks()[noted.track].keys;
        let sizes = sizes_of(planned, &keys);
        let rows = &self.notes.rows[..planned.count as usize];
        let front = moof_front(&head, planned, &sizes);
        let mut latch = Latch {
            out: &mut self.carrier,
            sink: &mut *sink,
            has_failed: false,
        };
        latch.put(front.as_bytes());
        carry_run(rows, planned, &mut latch);
        carry_groups(rows, planned, &keys, &mut latch);
        let mdat = header(FourCc(*b"mdat"), planned.bytes);
        latch.put(mdat.bytes());
        latch.close()?;
        self.carry_data(noted, movie, store, sink, steps)
    }

    /// Puts the normal form of what is left of the movie. It takes no memory; after an answer that
    /// isn't Ok it is of no more use. Where the samples aren't as many any more as when the movie
    /// was opened, or have fewer or more bytes, the answer is StoreChanged.
    #[tactic(auto, using(crate::proofs::InfosLeft::tracks_many))]
    pub fn write<S: Store, K: Sink, L: Ledger, M: Ledger>(
        &mut self,
        movie: &Movie,
        store: &mut S,
        sink: &mut K,
        steps: &mut Steps<L, M>,
    ) -> Result<(), Refusal>
        requires { IsWriterOf movie.now self.old }
        ensures held { held_bytes self.new ≡ held_bytes self.old }
        ensures devices { OnlyCopies S.Store store.old store.new K.Sink sink.old sink.new result }
        ensures bytes { OverOpened S.Store store.old movie.now (λ file tree.
            IsReady file tree movie.now self.old
            → OnOk result (K.takes sink.old sink.new
            (normal (content_left self.old.content file tree)))) }
        ensures prefix { OverOpened S.Store store.old movie.now (λ file tree.
            IsReady file tree movie.now self.old
            → OnErr result (TakesPrefix (K.takes sink.old sink.new)
            (normal (content_left self.old.content file tree)))) }
        ensures unchanged { OverOpened S.Store store.old movie.now (λ file tree.
            IsReady file tree movie.now self.old → IsUnchanged result) }
        ensures whole { OnOk result (IsPutWhole movie.now (K.takes sink.old sink.new)
            (waiting self.old.carrier ++ self.old.head.items)) }
        ensures refusal { RefusedByBoth S.Store store.old store.new K.Sink sink.old sink.new result
            RefusesCarry }
        ensures work { OverOpened S.Store store.old movie.now (λ file tree. (n : ℕ)
            → MayAllWrite file tree movie.now self.old.walks.items n
            → steps.new.passed ≤ steps.old.passed + n) }
        ensures steps { OnOk result (steps.old.passed ≤ steps.new.passed)
            × (steps.new.looks ≤ steps.old.looks + movie_turns movie.now) }
    {
        self.carrier.carry(self.head.as_slice(), sink)?;
        let walks = self.walks.as_mut_slice();
        let nexts = self.nexts.as_mut_slice();
        peek_each(walks, nexts, &self.content, movie, store, steps)?;
        let from = first_time(self.nexts.as_slice());
        let mut schedule = Schedule::new(self.content.tracks(), from);
        schedule.begin(self.content.tracks(), self.nexts.as_slice(), &mut self.due);
        let mut sequence: u32 = 1;
        let mut bytes: u128 = 0;
        while let Some(turn) = schedule.turn(self.content.tracks(), steps) {
            let track = turn.track;
            let noted = self.note_turn(&turn, sequence, movie, store, steps)?;
            sequence = sequence_behind(sequence, &noted.head);
            self.carry_turn(&noted, movie, store, sink, steps)?;
            schedule.pass(
                &turn,
                noted.planned.count,
                self.nexts[track],
                self.content.tracks(),
                &mut self.due,
            )?;
            bytes += u128::from(noted.planned.bytes);
        }
        if !are_all(schedule.left, bytes, self.content.tracks()) {
            return Err(Refusal::StoreChanged);
        }
        self.carrier.flush(sink)
    }
}

/// Puts the normal form of what is left of a movie: it is planned, all memory that writing it needs
/// is taken, and then it is written. Want of memory, and the fault of a track that is too long
/// then, or has an offset that doesn't fit, come before the first byte.
pub fn write_reduced<S: Store, K: Sink, L: Ledger, M: Ledger>(
    alloc: Global,
    movie: &Movie,
    store: &mut S,
    sink: &mut K,
    leaving: Without,
    steps: &mut Steps<L, M>,
) -> Result<(), Refusal>
    ensures devices { OnlyCopies S.Store store.old store.new K.Sink sink.old sink.new result }
    ensures bytes { OverOpened S.Store store.old movie.now (λ file tree.
        OnOk result (K.takes sink.old sink.new
        (normal (remaining leaving (presentation_of file tree))))) }
    ensures prefix { OverOpened S.Store store.old movie.now (λ file tree.
        OnErr result (TakesPrefix (K.takes sink.old sink.new)
        (normal (remaining leaving (presentation_of file tree))))) }
    ensures long { OverOpened S.Store store.old movie.now (λ file tree.
        TellsLong leaving file tree result (K.takes sink.old sink.new [])) }
    ensures unchanged { OverOpened S.Store store.old movie.now (λ file tree. IsUnchanged result) }
    ensures whole { OnOk result ((head : List ℕ) × IsHeadLeft movie.now leaving head
        × IsPutWhole movie.now (K.takes sink.old sink.new) head) }
    ensures refusal { RefusedByBoth S.Store store.old store.new K.Sink sink.old sink.new result
        (RefusesLeftCopy leaving (K.takes sink.old sink.new)) }
    ensures grows { OnOk result (steps.old.passed ≤ steps.new.passed) }
    ensures work { OverOpened S.Store store.old movie.now
        (λ file tree. steps.new.passed
        ≤ steps.old.passed
        + (measuring_steps leaving tree + walks_steps tree + writing_steps tree)) }
    ensures turns { steps.new.looks ≤ steps.old.looks + 2 * movie_turns movie.now }
{
    let mut writer = Writer::reduced(alloc, movie, store, leaving, steps)?;
    writer.write(movie, store, sink, steps)
}

/// Puts the normal form of a movie: it is planned, all memory that writing it needs is taken, and
/// then it is written. Want of memory comes before the first byte.
pub fn write_normal<S: Store, K: Sink, L: Ledger, M: Ledger>(
    alloc: Global,
    movie: &Movie,
    store: &mut S,
    sink: &mut K,
    steps: &mut Steps<L, M>,
) -> Result<(), Refusal>
    ensures devices { OnlyCopies S.Store store.old store.new K.Sink sink.old sink.new result }
    ensures bytes { OverOpened S.Store store.old movie.now (λ file tree.
        OnOk result (K.takes sink.old sink.new
        (normal (presentation_of file tree)))) }
    ensures prefix { OverOpened S.Store store.old movie.now (λ file tree.
        OnErr result (TakesPrefix (K.takes sink.old sink.new)
        (normal (presentation_of file tree)))) }
    ensures unchanged { OverOpened S.Store store.old movie.now (λ file tree. IsUnchanged result) }
    ensures whole { OnOk result ((head : List ℕ) × IsHeadLeft movie.now Without.NOTHING head
        × IsPutWhole movie.now (K.takes sink.old sink.new) head) }
    ensures refusal { RefusedByBoth S.Store store.old store.new K.Sink sink.old sink.new result
        (RefusesCopy (K.takes sink.old sink.new)) }
    ensures grows { OnOk result (steps.old.passed ≤ steps.new.passed) }
    ensures work { OverOpened S.Store store.old movie.now
        (λ file tree. steps.new.passed
        ≤ steps.old.passed + (walks_steps tree + writing_steps tree)) }
    ensures turns { steps.new.looks ≤ steps.old.looks + 2 * movie_turns movie.now }
{
    write_reduced(alloc, movie, store, sink, Without::NOTHING, steps)
}
