//! What differs between two presentations, one value at a time.
ghost use Rattle.std.specs.Prelude.{◌≡◌, ◌∷◌, [], ◌++◌, List, Option, Bool, true};
ghost use Rattle.mp4_content.specs.declared.comparing.differences.DecodeTime.{DecodeTime};
ghost use Rattle.mp4_content.specs.declared.comparing.differences.Difference.{Difference};

use mp4_boxes::FourCc;
use mp4_tables::GroupKey;

/// What a value is said of. Tracks, and samples of a track, count from 1.
#[derive(Clone, Copy, Debug, PartialEq, Eq)]
pub enum Subject {
    Movie,
    Track(u64),
    /// A track, and a sample of it.
    Sample(u64, u32),
}

/// Lists of which a head has one each, or a single entry.
#[derive(Clone, Copy, Debug, PartialEq, Eq)]
pub enum Entries {
    /// The entries of `elst` (ISO/IEC 14496-12, 8.6.6).
    Edits,
    /// The boxes that are kept as they are, behind what was left out of them.
    Kept,
    /// The payload of `hdlr` (8.4.3): one entry.
    Handler,
    /// The payloads of `elng` (8.4.6).
    ExtendedLanguages,
    /// The media header, as `vmhd` (8.4.5): one entry.
    MediaHeader,
    /// The entries of `stsd` (8.5.2).
    Descriptions,
    /// The payloads of `sgpd` (8.9.3).
    GroupDescriptions,
}

/// A part of an entry. Bytes count from 1.
#[derive(Clone, Copy, Debug, PartialEq, Eq)]
pub enum Part {
    /// The type of a box.
    Kind,
    /// How many bytes a payload has.
    Length,
    /// A byte of a payload: which one, of how many.
    Byte(u64, u64),
    SegmentDuration,
    MediaTime,
    RateInteger,
    RateFraction,
}

/// Which value it is.
#[derive(Clone, Copy, Debug, PartialEq, Eq)]
pub enum Field {
    // Of the movie and of a track (8.2.2, 8.3.2).
    Creation,
    Modification,
    Timescale,
    Rate,
    Volume,
    /// A number of the matrix, from 1 to 9.
    Matrix(u64),
    /// How many tracks a movie has.
    Tracks,
    /// The 24 bits of `tkhd`, or the flags of a sample.
    Flags,
    Id,
    Layer,
    AlternateGroup,
    Width,
    Height,
    // Of a track's media (8.4.2).
    MediaCreation,
    MediaModification,
    MediaTimescale,
    Language,
    /// How many entries a list has.
    Count(Entries),
    /// A part of an entry, which counts from 1.
    Entry(Entries, u64, Part),
    /// The decode time of a track's first sample.
    Start,
    /// How many samples a track has.
    Samples,
    // Of a sample.
    Duration,
    /// The composition time less the decode time.
    Offset,
    /// The sample description index.
    Description,
    /// The index at a key by which samples are grouped, 0 for none (8.9.2).
    Group(GroupKey),
    Size,
    /// A byte of a sample: which one, from 1, of how many.
    Byte(u64, u64),
}

/// A value.
#[derive(Clone, Copy, Debug, PartialEq, Eq)]
pub enum Value {
    Number(u64),
    Signed(i64),
    Kind(FourCc),
    Byte(u8),
}

/// A value that two presentations don't have in common.
#[derive(Clone, Copy, Debug, PartialEq, Eq)]
pub struct Difference {
    pub subject: Subject,
    pub field: Field,
    pub left: Value,
    pub right: Value,
}

/// When a sample is decoded: so many parts of a second, and how many parts a second has (8.4.2,
/// 8.6.1.2).
#[derive(Clone, Copy, Debug, PartialEq, Eq)]
pub struct DecodeTime {
    pub time: u64,
    pub timescale: u32,
}

/// What takes differences one by one, each along with when the sample is decoded that it is of; of
/// what is no sample it has none.
pub trait Differences {
    /// The differences that it took.
    ghost taken: { Self → List Difference };

    /// The decode times that it took along with them.
    ghost times: { Self → List (Option DecodeTime) };

    /// Whether it takes a further one.
    ghost is_open: { Self → Bool };

    /// Takes a difference, and says whether it takes a further one.
    fn take(&mut self, difference: Difference, time: Option<DecodeTime>) -> bool
        requires { is_open self.old ≡ true }
        ensures taken { taken self.new ≡ taken self.old ++ difference ∷ [] }
        ensures times { times self.new ≡ times self.old ++ time ∷ [] }
        ensures goes { result ≡ is_open self.new };
}
