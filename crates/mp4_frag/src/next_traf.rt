//! What is noted of a `traf` that has samples of a track (ISO/IEC 14496-12, 8.8.6).
/// A `traf` that has samples: where its payload lies in the file, and where its runs are counted
/// from. With the `trex` of its track, that is all that its samples take from elsewhere.
#[derive(Clone, Copy, Debug, PartialEq, Eq)]
pub struct OwnTraf {
    pub at: u64,
    pub len: usize,
    pub base: i128,
}
