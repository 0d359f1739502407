//! A track in numbers.
use mp4_tables::Keys;

/// What a movie says of a track's samples as a whole.
#[derive(Clone, Copy)]
pub struct TrackInfo {
    pub id: u32,
    /// How many parts of a second the times of its samples count.
    pub timescale: u32,
    /// The decode time of its first sample, 0 where it has none.
    pub start: u64,
    /// How many samples it has.
    pub samples: u32,
    /// The sum of their durations, in parts of its timescale.
    pub duration: u64,
    /// The sum of their sizes.
    pub bytes: u64,
    /// The keys by which they are grouped, in the order in which the file first names them.
    pub keys: Keys,
}
