//! The ends of pieces.
ghost use Rattle.std.specs.Prelude.{◌≡◌};
ghost use Rattle.mp4_plan.specs.words.Ends.{first_goes, goes_in, has_ended};

use mp4_content::Reduction;
use mp4_tables::SampleAt;

/// Where a piece ends.
#[derive(Clone, Copy, Debug, PartialEq, Eq)]
pub enum End {
    /// In the first track: at a sync sample at least one second, `scale`, behind `from`.
    Sync {
        from: u64,
        scale: u32,
    },
    /// In another track: at a sample with `dts * first >= cut * scale`, the decode time of the next
    /// cut in the first track's timescale; never where there is no cut.
    Before {
        cut: Option<u64>,
        first: u32,
        scale: u32,
    },
}

/// What a piece takes of a track: where it ends, and what the track's samples are left by.
#[derive(Clone, Copy, Debug, PartialEq, Eq)]
pub(crate) struct Portion {
    pub(crate) end: End,
    pub(crate) reduction: Reduction,
}

/// Whether a piece may go on.
#[derive(Clone, Copy, Debug, PartialEq, Eq)]
pub enum Fed {
    /// The samples are used up, and the piece may go on.
    More,
    /// The piece has ended; the next sample is not taken.
    Closed,
}

/// Whether the next sample, if there is one, goes into a new piece with this end.
pub(crate) fn first_goes(end: &End, next: &Option<SampleAt>) -> bool
    ensures { result ≡ first_goes end.now next.now }
{
    match next {
        Some(sample) => !has_ended(end, sample),
        None => false,
    }
}

/// Whether a piece with this end has ended where the sample comes.
pub(crate) fn has_ended(end: &End, sample: &SampleAt) -> bool
    ensures { result ≡ has_ended end.now sample.now }
{
    match *end {
        End::Sync { from, scale } => {
            sample.flags / 0x1_0000 % 2 == 0
                && u128::from(from) + u128::from(scale) <= u128::from(sample.dts)
        }
        End::Before { cut: None, .. } => false,
        End::Before {
            cut: Some(cut),
            first,
            scale,
        } => u128::from(cut) * u128::from(scale) <= u128::from(sample.dts) * u128::from(first),
    }
}

/// Whether a sample goes into a piece with this end and description.
#[inline(always)]
pub(crate) fn goes_in(end: &End, description: u32, sample: &SampleAt) -> bool
    ensures { result ≡ goes_in end.now description sample.now }
{
    !has_ended(end, sample) && sample.description == description
}
