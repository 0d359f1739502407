//! A piece that is fed with samples.
use crate::ends::{End, Fed, has_ended};
use crate::gathered::{Gathered, gather_more, gathered_first};
use crate::noted_rows::{Row, row_of};
use crate::stretches::Stretches;
use mp4_tables::{SampleAt, Samples};
use std::marker::Model;

/// What a piece has.
#[derive(Clone, Copy, Debug, PartialEq, Eq)]
pub struct Planned {
    /// The number of its samples; 0 is no piece.
    pub count: u32,
    /// The number of their bytes.
    pub bytes: u64,
    /// The duration, the size and the flags that all samples have, where they have the same.
    pub duration: Option<u32>,
    pub size: Option<u32>,
    pub flags: Option<u32>,
    /// Whether some composition offset is not 0.
    pub has_offsets: bool,
    /// At each key of the track: the number of runs of equal indexes, 0 where all indexes are 0.
    pub group_rows: [u32; 4],
}

impl Planned {
    ghost use Rattle.std.specs.Prelude.{◌≡◌, ◌<◌, slice_index};

    /// The number of runs of equal indexes at the key of this place.
    pub(crate) fn rows_at(&self, place: u8) -> u32
        requires { place < 4 }
        ensures { result ≡ slice_index self.now.group_rows place }
    {
        let rows = self.group_rows;
        rows[place as usize]
    }
}

/// A piece of a track's samples: as many as come before its end and have the description of the
/// first.
#[derive(Drop)]
pub struct Planner {
    end: End,
    gathered: Option<Gathered>,
}

impl Model for Planner {
    ghost use Rattle.mp4_plan.specs.words.Gathering.{Planning, AreBounded};

    ghost Value = { Planning };

    ghost view = { λ p. record { end = p.end; gathered = p.gathered } };

    ghost invariant = { λ p. AreBounded p.gathered };
}

impl Planner {
    ghost use Rattle.std.specs.Prelude.{◌≡◌, ℕ, ◌+◌, ◌-◌, ◌*◌, ◌^◌, ◌<◌, ◌≤◌, length, take, slice_index, Some, None, ◌∷◌, []};
    ghost use Rattle.mp4_plan.specs.words.Ends.{goes_in};
    ghost use Rattle.mp4_plan.specs.words.Gathering.{description_in, gather, piece_fed, samples_after, answer, count_of, planned_of};
    ghost use Rattle.mp4_plan.specs.words.HandsFed.{Notes};
    ghost use Rattle.mp4_plan.specs.words.Stretches.{JoinsOn};

    /// A piece without samples.
    pub fn new(end: End) -> Planner
        ensures { result ≡ record { end = end; gathered = None } }
    {
        Planner {
            end,
            gathered: None,
        }
    }

    /// What the piece has so far.
    pub fn piece(&self) -> Planned
        ensures is { result ≡ planned_of self.now.gathered }
        ensures bounded { result.bytes ≤ result.count * 4294967295 }
        ensures rows { (j : ℕ) → slice_index result.group_rows j ≤ result.count }
    {
        let Some(gathered) = &self.gathered else {
            return Planned {
                count: 0,
                bytes: 0,
                duration: None,
                size: None,
                flags: None,
                has_offsets: false,
                group_rows: [0; 4],
            };
        };
        let groups = gathered.groups;
        Planned {
            count: gathered.count,
            bytes: gathered.bytes,
            duration: gathered.duration,
            size: gathered.size,
            flags: gathered.flags,
            has_offsets: gathered.has_offsets,
            group_rows: [
                groups[0].used_rows(),
                groups[1].used_rows(),
                groups[2].used_rows(),
                groups[3].used_rows(),
            ],
        }
    }

    // Whether a sample goes into the piece.
    #[inline(always)]
    pub(crate) fn takes(&self, sample: &SampleAt) -> bool
        ensures { result ≡ goes_in self.now.end (description_in self.now.gathered (sample.now ∷ []))
            sample.now }
    {
        if has_ended(&self.end, sample) {
            return false;
        }
        match &self.gathered {
            Some(gathered) => sample.description == gathered.description,
            None => true,
        }
    }

    // Takes a sample into the piece.
    #[inline(always)]
    fn take(&mut self, sample: SampleAt)
        requires { count_of self.old.gathered + 1 < 2 ^ 32 }
        ensures { self.new
            ≡ record { end = self.old.end; gathered = gather self.old.gathered sample } }
    {
        match &mut self.gathered {
            Some(gathered) => gather_more(gathered, &sample),
            None => self.gathered = Some(gathered_first(&sample)),
        }
    }

    /// Takes samples until the piece ends or no sample is left.
    #[inline(always)]
    pub fn feed<S: Samples>(&mut self, samples: &mut S) -> Fed
        requires { count_of self.old.gathered + length (S.rest samples.old) < 2 ^ 32 }
        ensures piece { self.new ≡ piece_fed self.old (S.rest samples.old) }
        ensures rest { S.rest samples.new ≡ samples_after self.old (S.rest samples.old) }
        ensures fed { result ≡ answer (samples_after self.old (S.rest samples.old)) }
        ensures count { count_of self.new.gathered + length (S.rest samples.new)
            ≡ count_of self.old.gathered + length (S.rest samples.old) }
        ensures later { S.follows samples.old samples.new }
    {
        while let Some(sample) = samples.peek() {
            if !self.takes(&sample) {
                return Fed::Closed;
            }
            samples.pass(&sample);
            self.take(sample);
        }
        Fed::More
    }

    /// Takes samples and notes them in rows, and where their bytes lie, until the piece ends or no
    /// sample or no row is left.
    #[inline(always)]
    pub(crate) fn note<S: Samples>(
        &mut self,
        samples: &mut S,
        rows: &mut [Row],
        stretches: &mut Stretches,
    )
        requires { count_of self.old.gathered + length rows.old < 2 ^ 32 }
        ensures noted { Notes self.old self.new (S.rest samples.old) (S.rest samples.new)
            rows.old rows.new }
        ensures joined { JoinsOn stretches.old stretches.new
            (take (count_of self.new.gathered - count_of self.old.gathered) (S.rest samples.old)) }
        ensures few { count_of self.new.gathered ≤ count_of self.old.gathered + length rows.old }
        ensures later { S.follows samples.old samples.new }
    {
        let mut noted = 0;
        while noted < rows.len() {
            let Some(sample) = samples.peek() else {
                return;
            };
            if !self.takes(&sample) {
                return;
            }
            rows[noted] = row_of(&sample);
            stretches.add(&sample);
            noted += 1;
            samples.pass(&sample);
            self.take(sample);
        }
    }
}
