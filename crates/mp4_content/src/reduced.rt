//! Samples of which something doesn't count.
ghost use Rattle.std.specs.Prelude.{◌≡◌, ◌||◌, ◌==◌, not, if◌then◌else◌, [], ◌∷◌};
ghost use Rattle.mp4_content.specs.format.Reduced.{offset_left, sync_flag};
ghost use Rattle.mp4_content.specs.format.Timescales.{divided, leaves_duration, sized};
ghost use Rattle.mp4_content.specs.words.ComingLess.{asks_first, begun_time, cto_left, keeps_all, keeps_times, lasts_left, moved_time, near_offset, offset_near, plain_reduction, reduce_at, reduction_by};

use crate::without::{Without, Word};
use mp4_tables::{SampleAt, Samples};

/// What samples of a track are left by: what is left out, by what times are divided, and where ends
/// or origins are left out, how many samples the track has, and when the first is due, how long it
/// lasts, and its composition offset.
#[derive(Clone, Copy, Debug, PartialEq, Eq)]
pub struct Reduction {
    pub leaving: Without,
    pub divisor: u64,
    pub samples: u32,
    pub start: u64,
    pub duration: u32,
    pub offset: i32,
}

/// Whether what is left of samples depends on the first of them, or on how many there are.
pub(crate) fn asks_first(leaving: Without) -> bool
    ensures { result ≡ asks_first leaving }
{
    (leaving.has(Word::Ends) || leaving.has(Word::Origins)) && !leaving.has(Word::Timing)
}

impl Reduction {
    /// Where what is left doesn't depend on them, and times are divided by this.
    pub fn plain(leaving: Without, divisor: u64) -> Reduction
        ensures { result ≡ plain_reduction leaving divisor }
    {
        Reduction {
            leaving,
            divisor,
            samples: 0,
            start: 0,
            duration: 0,
            offset: 0,
        }
    }

    /// Where it does, and this is the first of so many.
    pub fn by_first(
        leaving: Without,
        divisor: u64,
        samples: u32,
        first: Option<SampleAt>,
    ) -> Reduction
        ensures { result ≡ reduction_by leaving divisor samples first }
    {
        match first {
            Some(first) => Reduction {
                leaving,
                divisor,
                samples,
                start: first.dts,
                duration: first.duration,
                offset: first.cto,
            },
            None => Reduction::plain(leaving, divisor),
        }
    }

    /// Whether samples stay as they are.
    pub fn keeps_samples(self) -> bool
        ensures { result ≡ keeps_all self }
    {
        self.leaving.keeps_samples() && self.divisor == 1
    }

    // Whether durations and composition offsets of samples stay as they are.
    pub(crate) fn keeps_times(self) -> bool
        ensures { result ≡ keeps_times self }
    {
        let leaving = self.leaving;
        !leaving.has(Word::Ends)
            && !leaving.has(Word::Origins)
            && !leaving.has(Word::Timing)
            && self.divisor == 1
    }

    // Whether the duration of the sample of this number is left out.
    #[inline(always)]
    pub(crate) fn leaves_duration(self, number: u32) -> bool
        ensures { result ≡ leaves_duration self.leaving self.samples number }
    {
        let is_at_end = number == 0 || u64::from(number) + 1 == u64::from(self.samples);
        self.leaving.has(Word::Timing) || (self.leaving.has(Word::Ends) && is_at_end)
    }

    /// How long a sample lasts that has this number, from 0; 1 where timing doesn't count, or where
    /// it is the first or the last and these don't.
    #[inline(always)]
    pub fn duration(self, number: u32, duration: u32) -> u32
        ensures { result ≡ lasts_left self number duration }
    {
        if self.leaves_duration(number) {
            return 1;
        }
        if self.divisor == 1 {
            return duration;
        }
        divided(u64::from(duration), self.divisor) as u32
    }

    // What is left of a composition offset before it is divided.
    #[inline(always)]
    pub(crate) fn own_offset(self, offset: i32) -> i64
        ensures { result ≡ offset_left self.leaving self.offset offset }
    {
        if self.leaving.has(Word::Timing) {
            return 0;
        }
        if self.leaving.has(Word::Origins) {
            return i64::from(offset) - i64::from(self.offset);
        }
        i64::from(offset)
    }

    /// What is left of a composition offset, also where that doesn't fit 32 bits: less that of the
    /// first sample where it doesn't count where tracks begin, and 0 where timing doesn't.
    #[inline(always)]
    pub fn offset(self, offset: i32) -> i64
        ensures { result ≡ cto_left self offset }
    {
        let own = self.own_offset(offset);
        if self.divisor == 1 {
            return own;
        }
        divided_offset(own, self.divisor)
    }

    // When a sample is due that is due at this time, where the track begins at 0, if it does.
    #[inline(always)]
    fn begun(self, time: u64) -> u64
        ensures { result ≡ begun_time self time }
    {
        if self.leaving.has(Word::Origins) {
            time.saturating_sub(self.start)
        } else {
            time
        }
    }

    // The same, divided, and where the first sample lasts 1 too, if it does.
    #[inline(always)]
    fn moved(self, number: u32, time: u64) -> u64
        ensures { result ≡ moved_time self number time }
    {
        let begun = self.begun(time);
        if self.leaving.has(Word::Ends) && number != 0 {
            let behind = begun.saturating_sub(u64::from(self.duration));
            return divided(behind, self.divisor).saturating_add(1);
        }
        divided(begun, self.divisor)
    }

    // The same; without timing by how many samples come before it.
    #[inline(always)]
    fn due(self, number: u32, time: u64) -> u64
        ensures { result ≡ (if self.leaving.timing then number else moved_time self number time) }
    {
        if self.leaving.has(Word::Timing) {
            u64::from(number)
        } else {
            self.moved(number, time)
        }
    }

    // What is left of a composition offset, as far as 32 bits go.
    #[inline(always)]
    fn near(self, offset: i32) -> i32
        ensures { result ≡ offset_near self offset }
    {
        near_offset(self.offset(offset))
    }

    /// What is left of the flags of a sample: sample_is_non_sync_sample (8.8.3.1) alone, where the
    /// others don't count.
    #[inline(always)]
    pub fn flags(self, flags: u32) -> u32
        ensures { result ≡ (if self.leaving.flags then sync_flag flags else flags) }
    {
        if self.leaving.has(Word::Flags) {
            flags / 0x1_0000 % 2 * 0x1_0000
        } else {
            flags
        }
    }

    // What is left of its index at each key.
    #[inline(always)]
    fn groups(self, groups: [u16; 4]) -> [u16; 4]
        ensures { result ≡ (if self.leaving.groups then 0 ∷ 0 ∷ 0 ∷ 0 ∷ [] else groups) }
    {
        if self.leaving.has(Word::Groups) {
            [0; 4]
        } else {
            groups
        }
    }

    // Whether what is left of a sample may last another time than the sample.
    fn moves_durations(self) -> bool
        ensures { result ≡ self.leaving.timing || self.leaving.ends || not (self.divisor == 1) }
    {
        self.leaving.has(Word::Timing) || self.leaving.has(Word::Ends) || self.divisor != 1
    }
}

// A time by what times are divided by; by 0, where all times are 0, it is 0.
#[inline(always)]
pub(crate) fn divided(number: u64, divisor: u64) -> u64
    ensures { result ≡ divided divisor number }
{
    match divisor {
        0 => 0,
        1 => number,
        _ => number / divisor,
    }
}

// The same of a number with a sign, which stays.
fn divided_offset(offset: i64, divisor: u64) -> i64
    ensures { result ≡ sized (divided divisor) offset }
{
    let size = i128::from(divided(offset.unsigned_abs(), divisor));
    let signed = if offset < 0 { -size } else { size };
    signed as i64
}

// A composition offset, as far as 32 bits go.
#[inline(always)]
fn near_offset(offset: i64) -> i32
    ensures { result ≡ near_offset offset }
{
    if offset > i64::from(i32::MAX) {
        return i32::MAX;
    }
    if offset < i64::from(i32::MIN) {
        return i32::MIN;
    }
    offset as i32
}

/// What is left of a sample: of its flags the bit sample_is_non_sync_sample (8.8.3.1) where flags
/// are left out, index 0 at each key where groups are, and of its times what `Without` says.
#[inline(always)]
pub fn reduced_sample(reduction: Reduction, sample: SampleAt) -> SampleAt
    ensures { result ≡ reduce_at reduction sample }
{
    SampleAt {
        dts: reduction.due(sample.number, sample.dts),
        duration: reduction.duration(sample.number, sample.duration),
        cto: reduction.near(sample.cto),
        flags: reduction.flags(sample.flags),
        groups: reduction.groups(sample.groups),
        ..sample
    }
}

/// What is left of the samples still to come.
#[derive(Drop)]
pub struct Reduced<C> {
    pub inner: C,
    pub reduction: Reduction,
}

impl<C: Samples> Samples for Reduced<C> {
    ghost use Rattle.std.specs.Prelude.{◌≡◌};
    ghost use Rattle.std.proofs.Common.{◌∙◌, refl};
    ghost use Rattle.mp4_present.specs.words.InHand.{AreLast, last_all, last_of_last};
    ghost use Rattle.mp4_content.specs.words.ComingLess.{less};

    ghost rest = { λ s. less s.reduction (C.rest s.inner) };

    ghost follows = { λ s t. C.follows s.inner t.inner × (t.reduction ≡ s.reduction)
        × AreLast (C.rest s.inner) (C.rest t.inner) };

    #[inline(always)]
    fn peek(&self) -> Option<SampleAt> {
        let sample = self.inner.peek()?;
        Some(reduced_sample(self.reduction, sample))
    }

    #[inline(always)]
    fn next(&mut self) -> Option<SampleAt> {
        let sample = self.inner.next()?;
        Some(reduced_sample(self.reduction, sample))
    }

    #[inline(always)]
    fn pass(&mut self, sample: &SampleAt) {
        if self.reduction.moves_durations() {
            // What is left of the sample may not say how long it lasts.
            let _ = self.inner.next();
        } else {
            self.inner.pass(sample);
        }
    }

    #[inline(always)]
    fn pass_non_sync(&mut self, description: u32, most: u32) -> u32 {
        self.inner.pass_non_sync(description, most)
    }

    ghost follows_itself = { λ s. (C.follows_itself s.inner, refl, last_all (C.rest s.inner)) };

    ghost follows_on = { λ s t u p q. (
      C.follows_on s.inner t.inner u.inner p.0 q.0,
      q.1 ∙ p.1,
      last_of_last (C.rest s.inner) (C.rest t.inner) (C.rest u.inner) p.2 q.2,
    ) };
}
