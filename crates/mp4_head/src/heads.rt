//! The heads: a movie, its tracks, their media.
use crate::edit_list::Edit;
use crate::kept_boxes::Kept;
use mp4_boxes::BoxView;
use mp4_frag::Trex;

/// What `mdia` says of a track's media.
#[derive(Debug, Drop)]
pub struct Media<'a> {
    pub creation: u64,
    pub modification: u64,
    pub timescale: u32,
    /// All 16 bits.
    pub language: u16,
    /// The payload of `hdlr`; its bytes 8 to 11 are the handler type.
    pub handler: &'a [u8],
    /// The payloads of `elng`.
    pub extended_languages: Vec<&'a [u8]>,
    /// The media header, as `vmhd`.
    pub header: Kept<'a>,
    /// The entries of `stsd`.
    pub descriptions: Vec<Kept<'a>>,
}

/// What `trak` says of a track, apart from its tables.
#[derive(Debug, Drop)]
pub struct TrackHead<'a> {
    /// 24 bits.
    pub flags: u32,
    pub creation: u64,
    pub modification: u64,
    pub id: u32,
    pub layer: i16,
    pub alternate_group: i16,
    pub volume: i16,
    pub matrix: [i32; 9],
    pub width: u32,
    pub height: u32,
    pub edits: Vec<Edit>,
    pub kept: Vec<Kept<'a>>,
    pub media: Media<'a>,
    /// The payloads of `sgpd`.
    pub group_descriptions: Vec<&'a [u8]>,
    /// The box of its tables.
    pub stbl: BoxView<'a>,
    /// The place in the file of its `tkhd`.
    pub offset: u64,
}

/// What `moov` says of a movie, apart from the tables of its tracks.
#[derive(Debug, Drop)]
pub struct MovieHead<'a> {
    pub creation: u64,
    pub modification: u64,
    pub timescale: u32,
    pub rate: i32,
    pub volume: i16,
    pub matrix: [i32; 9],
    pub kept: Vec<Kept<'a>>,
    pub tracks: Vec<TrackHead<'a>>,
    /// What fragments take where they say nothing.
    pub trexes: Vec<Trex>,
}
