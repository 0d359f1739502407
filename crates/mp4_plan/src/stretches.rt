//! Where the bytes of a piece's samples lie in the file, neighbours joined.
ghost use Rattle.std.specs.Prelude.{◌≤◌};

use mp4_boxes::Refusal;
use mp4_present::{OutBuffer, Stretch};
use mp4_store::{Sink, Store};
use mp4_tables::SampleAt;

/// The bytes of a file from a place up to another one.
#[derive(Clone, Copy, Debug, PartialEq, Eq)]
pub(crate) struct Span {
    pub(crate) at: u64,
    pub(crate) end: u64,
}

/// No bytes.
const NOTHING: Span = Span { at: 0, end: 0 };

/// The bytes of some samples, in order: at most sixteen stretches of the file, the last of which
/// may still grow.
#[derive(Drop)]
pub(crate) struct Stretches {
    earlier: [Span; 15],
    used: usize,
    last: Span,
    /// Whether no stretch was left out.
    are_all: bool,
    ghost few: { used ≤ 15 },
}

impl Span {
    ghost use Rattle.std.specs.Prelude.{◌≡◌, ◌+◌, ◌≤◌, length, IfOk};
    ghost use Rattle.mp4_present.specs.words.Carried.{RefusesCarry};
    ghost use Rattle.mp4_present.specs.words.HandCarried.{RefusedByBoth};
    ghost use Rattle.mp4_present.specs.words.OutBuffers.{Carries, OnlyCopies, TakesAlong};
    ghost use Rattle.mp4_present.specs.words.StoresRead.{IsUnchanged, WhereHonest};
    ghost use Rattle.mp4_plan.specs.words.Stretches.{span_len, span_bytes, EndsBelow};

    // How many bytes these are.
    fn len(&self) -> u64
        ensures { result ≡ span_len self.now }
    {
        self.end.saturating_sub(self.at)
    }

    // Takes the bytes of a stretch along, and says how many are left of so many. Where it has more,
    // or lies outside the store, the store has changed.
    fn carry<S: Store, K: Sink>(
        &self,
        left: u64,
        carrier: &mut OutBuffer,
        store: &mut S,
        sink: &mut K,
    ) -> Result<u64, Refusal>
        ensures left { IfOk result (λ n. n + span_len self.now ≡ left) }
        ensures put { WhereHonest S.Store store.old (λ file.
            Carries K.Sink sink.old sink.new carrier.old carrier.new result
            (span_bytes file self.now)) }
        ensures along { TakesAlong K.Sink sink.old sink.new carrier.old carrier.new result
            (span_len self.now) }
        ensures unchanged { EndsBelow (length (S.file store.old)) self.now
            → span_len self.now ≤ left → IsUnchanged result }
        ensures devices { OnlyCopies S.Store store.old store.new K.Sink sink.old sink.new result }
        ensures refusal { RefusedByBoth S.Store store.old store.new K.Sink sink.old sink.new result
            RefusesCarry }
    {
        let len = self.len();
        if len > left {
            return Err(Refusal::StoreChanged);
        }
        // Of how many samples they are isn't kept.
        let stretch = Stretch {
            at: self.at,
            len,
            samples: 0,
        };
        carrier.carry_stretch(stretch, store, sink)?;
        Ok(left - len)
    }
}

impl Stretches {
    ghost use Rattle.std.specs.Prelude.{◌≡◌, ◌+◌, ◌<◌, ◌≤◌, ◌∷◌, [], List, take, length, true, OnOk};
    ghost use Rattle.std.specs.List.{AllByRecursion};
    ghost use Rattle.mp4_tables.specs.declared.sample.SampleAt.{SampleAt};
    ghost use Rattle.mp4_present.specs.words.Carried.{RefusesCarry};
    ghost use Rattle.mp4_present.specs.words.HandCarried.{RefusedByBoth};
    ghost use Rattle.mp4_present.specs.words.OutBuffers.{Carries, OnlyCopies, TakesAlong};
    ghost use Rattle.mp4_present.specs.words.StoresRead.{IsUnchanged, WhereHonest};
    ghost use Rattle.mp4_plan.specs.words.Stretches.{AreBytesOf, spans_of, spans_bytes, spans_len, EndsBelow, Tells, JoinsOn, IsRoomFor};

    /// Those of no samples.
    pub(crate) fn new() -> Stretches
        ensures told { Tells result [] }
        ensures all { result.are_all ≡ true }
    {
        Stretches {
            earlier: [NOTHING; 15],
            used: 0,
            last: NOTHING,
            are_all: true,
        }
    }

    /// Forgets all samples.
    pub(crate) fn clear(&mut self)
        ensures told { Tells self.new [] }
        ensures all { (self.new.are_all ≡ true) × (self.new.used ≡ 0) }
    {
        self.used = 0;
        self.last = NOTHING;
        self.are_all = true;
    }

    /// Whether they are all bytes of the samples.
    pub(crate) fn are_all(&self) -> bool
        ensures { result ≡ self.now.are_all }
    {
        self.are_all
    }

    // The last stretch grows no more. It is left out where it has no bytes.
    fn close_last(&mut self)
        ensures closed { (samples : List SampleAt) → Tells self.old samples
            → self.new.are_all ≡ true → AreBytesOf (take self.new.used self.new.earlier) samples }
        ensures last { self.new.last ≡ self.old.last }
        ensures all { self.old.used < 15 → self.new.are_all ≡ self.old.are_all }
        ensures one { self.new.used ≤ self.old.used + 1 }
    {
        if self.last.end <= self.last.at {
            return;
        }
        if self.used == 15 {
            self.are_all = false;
            return;
        }
        self.earlier[self.used] = self.last;
        self.used += 1;
    }

    // A stretch begins with a sample.
    fn open(&mut self, sample: &SampleAt)
        ensures joined { JoinsOn self.old self.new (sample.now ∷ []) }
        ensures all { IsRoomFor self.old sample.now → self.new.are_all ≡ self.old.are_all }
        ensures one { self.new.used ≤ self.old.used + 1 }
    {
        self.close_last();
        match sample.at.checked_add(u64::from(sample.size)) {
            Some(end) => self.last = Span { at: sample.at, end },
            None => self.are_all = false,
        }
    }

    /// One more sample. Where its bytes lie behind the last ones, they make the last stretch
    /// longer.
    #[inline(always)]
    pub(crate) fn add(&mut self, sample: &SampleAt)
        ensures joined { JoinsOn self.old self.new (sample.now ∷ []) }
        ensures all { IsRoomFor self.old sample.now → self.new.are_all ≡ self.old.are_all }
        ensures one { self.new.used ≤ self.old.used + 1 }
    {
        if self.last.end == sample.at {
            match self.last.end.checked_add(u64::from(sample.size)) {
                Some(end) => self.last.end = end,
                None => self.are_all = false,
            }
        } else if self.are_all {
            self.open(sample);
        }
    }

    /// Takes the bytes of all samples along, so many bytes. Where they are not as many, or lie
    /// outside the store, the store has changed.
    pub(crate) fn carry<S: Store, K: Sink>(
        &self,
        bytes: u64,
        carrier: &mut OutBuffer,
        store: &mut S,
        sink: &mut K,
    ) -> Result<(), Refusal>
        ensures len { OnOk result (spans_len (spans_of self.now) ≡ bytes) }
        ensures put { WhereHonest S.Store store.old (λ file.
            Carries K.Sink sink.old sink.new carrier.old carrier.new result
            (spans_bytes file (spans_of self.now))) }
        ensures along { TakesAlong K.Sink sink.old sink.new carrier.old carrier.new result bytes }
        ensures unchanged { WhereHonest S.Store store.old (λ file.
            AllByRecursion (EndsBelow (length file)) (spans_of self.now)
            → spans_len (spans_of self.now) ≡ bytes → IsUnchanged result) }
        ensures devices { OnlyCopies S.Store store.old store.new K.Sink sink.old sink.new result }
        ensures refusal { RefusedByBoth S.Store store.old store.new K.Sink sink.old sink.new result
            RefusesCarry }
    {
        let mut left = bytes;
        for span in &self.earlier[..self.used] {
            left = span.carry(left, carrier, store, sink)?;
        }
        left = self.last.carry(left, carrier, store, sink)?;
        if left > 0 {
            return Err(Refusal::StoreChanged);
        }
        Ok(())
    }
}
