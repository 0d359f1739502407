//! What is known of a track before its next fragment.
use crate::trex::Trex;
use mp4_tables::Keys;

/// A track behind its samples so far.
#[derive(Clone, Copy)]
pub struct TrackState {
    pub id: u32,
    /// How many sample descriptions it has.
    pub descriptions: u32,
    /// What its fragments inherit; without it, it may have none.
    pub trex: Option<Trex>,
    /// The decode time of its first sample, 0 where it has none.
    pub start: u64,
    /// How many samples came.
    pub count: u32,
    /// The decode time at which the next one is due.
    pub time: u128,
    /// How many bytes the samples so far take.
    pub bytes: u64,
    /// The keys by which its samples are grouped.
    pub keys: Keys,
}
