//! The fields of boxes, by their names in the standard (ISO/IEC 14496-12): a table, and what it
//! says of a box.
ghost use Rattle.std.specs.Prelude.{◌≡◌, ◌+◌, ◌*◌, ◌≤◌, ◌<◌, if◌then◌else◌, length, nat_le, option_map, IfSome};
ghost use Rattle.mp4_boxes.specs.format.Bytes.{field};
ghost use Rattle.std.specs.Option.{option_or};
ghost use Rattle.mp4_answers.specs.format.Layouts.{count_of, fields_of, head_of, knows, first_of, layout_of, number_at, of_file, of_fragment, of_media, of_movie, of_places, of_samples, of_track, tail_of, width, width_of};
ghost use Rattle.mp4_answers.specs.words.LayoutsSeen.{AreFew, HasFew, field_seen, fields_seen, layout_seen, layouts_seen, tail_seen};

use crate::layouts::FieldKind::{Code, Hex, Matrix, Number, Offset, Signed};
use crate::layouts::RowCount::{At, ToEnd, Unless};
use crate::layouts::Tail::{Kept, Nothing, Rows};
use crate::layouts::Versions::{Any, UpTo, Without};
use mp4_boxes::{FourCc, front, u32_at};

/// How the bytes of a field are shown. An offset is unsigned in version 0, and signed after it.
#[derive(Clone, Copy)]
pub(crate) enum FieldKind {
    Number,
    Signed,
    Offset,
    Hex,
    Code,
    Matrix,
}

/// A field: its name, how it is shown, how many bytes it has in version 0 and how many after it,
/// and the flag without which it isn't there; 0 where it always is.
#[derive(Clone, Copy)]
pub(crate) struct LayoutField(pub(crate) &'static [u8], pub(crate) FieldKind, u8, u8, u32);

/// How many rows there are: as the number at a place says, in version 0 and after it; as the number
/// at the second place says, where that at the first is 0, and else none; or as many as have room.
#[derive(Clone, Copy)]
pub(crate) enum RowCount {
    At(u8, u8),
    Unless(u8, u8),
    ToEnd,
}

/// What follows the fields of a box: nothing, rows, or bytes of this name that are kept.
#[derive(Clone, Copy)]
pub(crate) enum Tail {
    Nothing,
    Rows(RowCount, &'static [LayoutField]),
    Kept(&'static [u8]),
}

/// Which versions are known: a box has none, or has one up to a last, or any.
#[derive(Clone, Copy)]
pub(crate) enum Versions {
    Without,
    UpTo(u8),
    Any,
}

/// What a box of a type holds.
#[derive(Clone, Copy)]
pub(crate) struct Layout(FourCc, Versions, &'static [LayoutField], Tail);

/// What the first bytes of a box say of its fields.
#[derive(Clone, Copy)]
pub(crate) struct LeafHead {
    pub(crate) version: u8,
    pub(crate) flags: u32,
}

const VERSION: LayoutField = LayoutField(b"version", Number, 1, 1, 0);

const FLAGS: LayoutField = LayoutField(b"flags", Hex, 3, 3, 0);

/// The fields of a box of which no more is known, but for its version and flags.
const UNKNOWN: &[LayoutField] = &[VERSION, FLAGS];

const COUNTED: &[LayoutField] = &[VERSION, FLAGS, LayoutField(b"entry_count", Number, 4, 4, 0)];

const BRANDS: &[LayoutField] = &[
    LayoutField(b"major_brand", Code, 4, 4, 0),
    LayoutField(b"minor_version", Number, 4, 4, 0),
];

const BRAND: &[LayoutField] = &[LayoutField(b"compatible_brand", Code, 4, 4, 0)];

const SIDX: &[LayoutField] = &[
    VERSION,
    FLAGS,
    LayoutField(b"reference_ID", Number, 4, 4, 0),
    LayoutField(b"timescale", Number, 4, 4, 0),
    LayoutField(b"earliest_presentation_time", Number, 4, 8, 0),
    LayoutField(b"first_offset", Number, 4, 8, 0),
    LayoutField(b"reserved", Hex, 2, 2, 0),
    LayoutField(b"reference_count", Number, 2, 2, 0),
];

const MVHD: &[LayoutField] = &[
    VERSION,
    FLAGS,
    LayoutField(b"creation_time", Number, 4, 8, 0),
    LayoutField(b"modification_time", Number, 4, 8, 0),
    LayoutField(b"timescale", Number, 4, 4, 0),
    LayoutField(b"duration", Number, 4, 8, 0),
    LayoutField(b"rate", Signed, 4, 4, 0),
    LayoutField(b"volume", Signed, 2, 2, 0),
    LayoutField(b"reserved", Hex, 10, 10, 0),
    LayoutField(b"matrix", Matrix, 36, 36, 0),
    LayoutField(b"pre_defined", Hex, 24, 24, 0),
    LayoutField(b"next_track_ID", Number, 4, 4, 0),
];

const TKHD: &[LayoutField] = &[
    VERSION,
    FLAGS,
    LayoutField(b"creation_time", Number, 4, 8, 0),
    LayoutField(b"modification_time", Number, 4, 8, 0),
    LayoutField(b"track_ID", Number, 4, 4, 0),
    LayoutField(b"reserved_1", Hex, 4, 4, 0),
    LayoutField(b"duration", Number, 4, 8, 0),
    LayoutField(b"reserved_2", Hex, 8, 8, 0),
    LayoutField(b"layer", Signed, 2, 2, 0),
    LayoutField(b"alternate_group", Signed, 2, 2, 0),
    LayoutField(b"volume", Signed, 2, 2, 0),
    LayoutField(b"reserved_3", Hex, 2, 2, 0),
    LayoutField(b"matrix", Matrix, 36, 36, 0),
    LayoutField(b"width", Number, 4, 4, 0),
    LayoutField(b"height", Number, 4, 4, 0),
];

const EDIT: &[LayoutField] = &[
    LayoutField(b"segment_duration", Number, 4, 8, 0),
    LayoutField(b"media_time", Signed, 4, 8, 0),
    LayoutField(b"media_rate_integer", Signed, 2, 2, 0),
    LayoutField(b"media_rate_fraction", Signed, 2, 2, 0),
];

const MDHD: &[LayoutField] = &[
    VERSION,
    FLAGS,
    LayoutField(b"creation_time", Number, 4, 8, 0),
    LayoutField(b"modification_time", Number, 4, 8, 0),
    LayoutField(b"timescale", Number, 4, 4, 0),
    LayoutField(b"duration", Number, 4, 8, 0),
    LayoutField(b"language", Hex, 2, 2, 0),
    LayoutField(b"pre_defined", Hex, 2, 2, 0),
];

const HDLR: &[LayoutField] = &[
    VERSION,
    FLAGS,
    LayoutField(b"pre_defined", Hex, 4, 4, 0),
    LayoutField(b"handler_type", Code, 4, 4, 0),
    LayoutField(b"reserved", Hex, 12, 12, 0),
];

const VMHD: &[LayoutField] = &[
    VERSION,
    FLAGS,
    LayoutField(b"graphicsmode", Number, 2, 2, 0),
    LayoutField(b"opcolor", Hex, 6, 6, 0),
];

const SMHD: &[LayoutField] = &[
    VERSION,
    FLAGS,
    LayoutField(b"balance", Signed, 2, 2, 0),
    LayoutField(b"reserved", Hex, 2, 2, 0),
];

const HMHD: &[LayoutField] = &[
    VERSION,
    FLAGS,
    LayoutField(b"maxPDUsize", Number, 2, 2, 0),
    LayoutField(b"avgPDUsize", Number, 2, 2, 0),
    LayoutField(b"maxbitrate", Number, 4, 4, 0),
    LayoutField(b"avgbitrate", Number, 4, 4, 0),
    LayoutField(b"reserved", Hex, 4, 4, 0),
];

const STTS: &[LayoutField] = &[
    LayoutField(b"sample_count", Number, 4, 4, 0),
    LayoutField(b"sample_delta", Number, 4, 4, 0),
];

const CTTS: &[LayoutField] = &[
    LayoutField(b"sample_count", Number, 4, 4, 0),
    LayoutField(b"sample_offset", Offset, 4, 4, 0),
];

const CSLG: &[LayoutField] = &[
    VERSION,
    FLAGS,
    LayoutField(b"compositionToDTSShift", Signed, 4, 8, 0),
    LayoutField(b"leastDecodeToDisplayDelta", Signed, 4, 8, 0),
    LayoutField(b"greatestDecodeToDisplayDelta", Signed, 4, 8, 0),
    LayoutField(b"compositionStartTime", Signed, 4, 8, 0),
    LayoutField(b"compositionEndTime", Signed, 4, 8, 0),
];

const STSC: &[LayoutField] = &[
    LayoutField(b"first_chunk", Number, 4, 4, 0),
    LayoutField(b"samples_per_chunk", Number, 4, 4, 0),
    LayoutField(b"sample_description_index", Number, 4, 4, 0),
];

const STSZ: &[LayoutField] = &[
    VERSION,
    FLAGS,
    LayoutField(b"sample_size", Number, 4, 4, 0),
    LayoutField(b"sample_count", Number, 4, 4, 0),
];

const STZ2: &[LayoutField] = &[
    VERSION,
    FLAGS,
    LayoutField(b"reserved", Hex, 3, 3, 0),
    LayoutField(b"field_size", Number, 1, 1, 0),
    LayoutField(b"sample_count", Number, 4, 4, 0),
];

const SBGP: &[LayoutField] = &[
    VERSION,
    FLAGS,
    LayoutField(b"grouping_type", Code, 4, 4, 0),
    LayoutField(b"grouping_type_parameter", Number, 0, 4, 0),
    LayoutField(b"entry_count", Number, 4, 4, 0),
];

const GROUP: &[LayoutField] = &[
    LayoutField(b"sample_count", Number, 4, 4, 0),
    LayoutField(b"group_description_index", Number, 4, 4, 0),
];

const SGPD: &[LayoutField] = &[
    VERSION,
    FLAGS,
    LayoutField(b"grouping_type", Code, 4, 4, 0),
    LayoutField(b"default_length", Number, 0, 4, 0),
    LayoutField(b"entry_count", Number, 4, 4, 0),
];

const MEHD: &[LayoutField] = &[
    VERSION,
    FLAGS,
    LayoutField(b"fragment_duration", Number, 4, 8, 0),
];

const TREX: &[LayoutField] = &[
    VERSION,
    FLAGS,
    LayoutField(b"track_ID", Number, 4, 4, 0),
    LayoutField(b"default_sample_description_index", Number, 4, 4, 0),
    LayoutField(b"default_sample_duration", Number, 4, 4, 0),
    LayoutField(b"default_sample_size", Number, 4, 4, 0),
    LayoutField(b"default_sample_flags", Hex, 4, 4, 0),
];

const MFHD: &[LayoutField] = &[
    VERSION,
    FLAGS,
    LayoutField(b"sequence_number", Number, 4, 4, 0),
];

const TFHD: &[LayoutField] = &[
    VERSION,
    FLAGS,
    LayoutField(b"track_ID", Number, 4, 4, 0),
    LayoutField(b"base_data_offset", Number, 8, 8, 0x000001),
    LayoutField(b"sample_description_index", Number, 4, 4, 0x000002),
    LayoutField(b"default_sample_duration", Number, 4, 4, 0x000008),
    LayoutField(b"default_sample_size", Number, 4, 4, 0x000010),
    LayoutField(b"default_sample_flags", Hex, 4, 4, 0x000020),
];

const TFDT: &[LayoutField] = &[
    VERSION,
    FLAGS,
    LayoutField(b"baseMediaDecodeTime", Number, 4, 8, 0),
];

const TRUN: &[LayoutField] = &[
    VERSION,
    FLAGS,
    LayoutField(b"sample_count", Number, 4, 4, 0),
    LayoutField(b"data_offset", Signed, 4, 4, 0x000001),
    LayoutField(b"first_sample_flags", Hex, 4, 4, 0x000004),
];

const SAMPLE: &[LayoutField] = &[
    LayoutField(b"sample_duration", Number, 4, 4, 0x000100),
    LayoutField(b"sample_size", Number, 4, 4, 0x000200),
    LayoutField(b"sample_flags", Hex, 4, 4, 0x000400),
    LayoutField(b"sample_composition_time_offset", Offset, 4, 4, 0x000800),
];

const ENTRY_SIZE: &[LayoutField] = &[LayoutField(b"entry_size", Number, 4, 4, 0)];

const CHUNK: &[LayoutField] = &[LayoutField(b"chunk_offset", Number, 4, 4, 0)];

const LONG_CHUNK: &[LayoutField] = &[LayoutField(b"chunk_offset", Number, 8, 8, 0)];

const SYNC: &[LayoutField] = &[LayoutField(b"sample_number", Number, 4, 4, 0)];

const USER_TYPE: &[LayoutField] = &[LayoutField(b"usertype", Hex, 16, 16, 0)];

const OF_FILE: &[Layout] = &[
    Layout(FourCc(*b"ftyp"), Without, BRANDS, Rows(ToEnd, BRAND)),
    Layout(FourCc(*b"styp"), Without, BRANDS, Rows(ToEnd, BRAND)),
    Layout(FourCc(*b"sidx"), UpTo(1), SIDX, Kept(b"references")),
    Layout(FourCc(*b"uuid"), Without, USER_TYPE, Kept(b"payload")),
];

const OF_MOVIE: &[Layout] = &[
    Layout(FourCc(*b"mvhd"), UpTo(1), MVHD, Nothing),
    Layout(FourCc(*b"iods"), UpTo(0), UNKNOWN, Kept(b"OD")),
    Layout(FourCc(*b"udta"), Without, &[], Kept(b"payload")),
    Layout(FourCc(*b"meta"), Without, &[], Kept(b"payload")),
    Layout(FourCc(*b"mehd"), UpTo(1), MEHD, Nothing),
    Layout(FourCc(*b"trex"), UpTo(0), TREX, Nothing),
];

const OF_TRACK: &[Layout] = &[
    Layout(FourCc(*b"tkhd"), UpTo(1), TKHD, Nothing),
    Layout(FourCc(*b"tref"), Without, &[], Kept(b"payload")),
    Layout(FourCc(*b"elst"), UpTo(1), COUNTED, Rows(At(4, 4), EDIT)),
];

const OF_MEDIA: &[Layout] = &[
    Layout(FourCc(*b"mdhd"), UpTo(1), MDHD, Nothing),
    Layout(FourCc(*b"hdlr"), Any, HDLR, Kept(b"name")),
    Layout(FourCc(*b"elng"), Any, UNKNOWN, Kept(b"extended_language")),
    Layout(FourCc(*b"vmhd"), UpTo(0), VMHD, Nothing),
    Layout(FourCc(*b"smhd"), UpTo(0), SMHD, Nothing),
    Layout(FourCc(*b"hmhd"), UpTo(0), HMHD, Nothing),
    Layout(FourCc(*b"nmhd"), UpTo(0), UNKNOWN, Nothing),
    Layout(FourCc(*b"sthd"), UpTo(0), UNKNOWN, Nothing),
    Layout(FourCc(*b"gmhd"), Without, &[], Kept(b"payload")),
];

const OF_SAMPLES: &[Layout] = &[
    Layout(FourCc(*b"dref"), UpTo(0), COUNTED, Kept(b"entries")),
    Layout(FourCc(*b"stsd"), UpTo(0), COUNTED, Kept(b"entries")),
    Layout(FourCc(*b"stts"), UpTo(0), COUNTED, Rows(At(4, 4), STTS)),
    Layout(FourCc(*b"ctts"), UpTo(1), COUNTED, Rows(At(4, 4), CTTS)),
    Layout(FourCc(*b"cslg"), UpTo(1), CSLG, Nothing),
    Layout(FourCc(*b"stsc"), UpTo(0), COUNTED, Rows(At(4, 4), STSC)),
    Layout(
        FourCc(*b"stsz"),
        UpTo(0),
        STSZ,
        Rows(Unless(4, 8), ENTRY_SIZE),
    ),
    Layout(FourCc(*b"stz2"), UpTo(0), STZ2, Kept(b"entry_size")),
];

const OF_PLACES: &[Layout] = &[
    Layout(FourCc(*b"stco"), UpTo(0), COUNTED, Rows(At(4, 4), CHUNK)),
    Layout(
        FourCc(*b"co64"),
        UpTo(0),
        COUNTED,
        Rows(At(4, 4), LONG_CHUNK),
    ),
    Layout(FourCc(*b"stss"), UpTo(0), COUNTED, Rows(At(4, 4), SYNC)),
    Layout(FourCc(*b"sdtp"), UpTo(0), UNKNOWN, Kept(b"samples")),
    Layout(FourCc(*b"sbgp"), UpTo(1), SBGP, Rows(At(8, 12), GROUP)),
    Layout(FourCc(*b"sgpd"), UpTo(1), SGPD, Kept(b"entries")),
];

const OF_FRAGMENT: &[Layout] = &[
    Layout(FourCc(*b"mfhd"), UpTo(0), MFHD, Nothing),
    Layout(FourCc(*b"tfhd"), UpTo(0), TFHD, Nothing),
    Layout(FourCc(*b"tfdt"), UpTo(1), TFDT, Nothing),
    Layout(FourCc(*b"trun"), UpTo(1), TRUN, Rows(At(4, 4), SAMPLE)),
];

impl LayoutField {
    /// How many bytes it has; none where it isn't there.
    pub(crate) fn width(&self, head: LeafHead) -> usize
        ensures width { result ≡ width head (field_seen self.now) }
        ensures short { result ≤ 255 }
    {
        if self.4 != 0 && head.flags & self.4 == 0 {
            return 0;
        }
        usize::from(if head.version == 0 { self.2 } else { self.3 })
    }
}

// The version that the first byte of a box says; 0 where that isn't there.
fn version_in(bytes: &[u8]) -> u8
    ensures { result ≡ (if nat_le 1 (length bytes.now) then field bytes.now 0 1 else 0) }
{
    if bytes.is_empty() {
        return 0;
    }
    bytes[0]
}

// The flags behind it; 0 where they aren't all there.
fn flags_in(bytes: &[u8]) -> u32
    ensures { result ≡ (if nat_le 4 (length bytes.now) then field bytes.now 1 3 else 0) }
{
    match front(bytes) {
        Ok((_version, flags)) => flags,
        Err(_) => 0,
    }
}

/// How many bytes some fields have in all.
pub(crate) fn width_of(fields: &[LayoutField], head: LeafHead) -> u64
    requires { length fields.now ≤ 64 }
    ensures width { result ≡ width_of head (fields_seen fields.now) }
    ensures short { result ≤ 16320 }
{
    let mut width = 0;
    for field in fields {
        width += field.width(head) as u64;
    }
    width
}

// The number at a place of the first bytes of a box; 0 where they don't go so far.
fn number_at(front: &[u8], place: u8) -> u64
    ensures number { result ≡ number_at front.now place }
    ensures short { result < 4294967296 }
{
    let place = usize::from(place);
    if front.len() < place + 4 {
        return 0;
    }
    u64::from(u32_at(front, place))
}

impl RowCount {
    /// How many rows there are due, by the first bytes of a box; none is said where they go to its
    /// end.
    pub(crate) fn number(self, head: LeafHead, front: &[u8]) -> Option<u64>
        ensures number { result ≡ count_of self head front.now }
        ensures short { IfSome result (λ n. n < 4294967296) }
    {
        match self {
            At(short, long) => {
                let place = if head.version == 0 { short } else { long };
                Some(number_at(front, place))
            }
            Unless(other, _) if number_at(front, other) > 0 => Some(0),
            Unless(_, place) => Some(number_at(front, place)),
            ToEnd => None,
        }
    }
}

impl Layout {
    /// What version and flags the first bytes of a box say, as far as they are there; 0 where it
    /// has none.
    pub(crate) fn head(&self, bytes: &[u8]) -> LeafHead
        ensures { result ≡ head_of (layout_seen self.now).versions bytes.now }
    {
        match self.1 {
            Without => LeafHead {
                version: 0,
                flags: 0,
            },
            UpTo(_) | Any => LeafHead {
                version: version_in(bytes),
                flags: flags_in(bytes),
            },
        }
    }

    // Whether the table knows the version.
    fn knows(&self, head: LeafHead) -> bool
        ensures { result ≡ knows (layout_seen self.now).versions head }
    {
        match self.1 {
            UpTo(last) => head.version <= last,
            Without | Any => true,
        }
    }

    /// The fields of a box of this version; version and flags alone, where it isn't known.
    pub(crate) fn fields(&self, head: LeafHead) -> &'static [LayoutField]
        requires { AreFew (layout_seen self.now) }
        ensures fields { fields_seen result.now ≡ fields_of (layout_seen self.now) head }
        ensures few { length result.now ≤ 64 }
    {
        if self.knows(head) { self.2 } else { UNKNOWN }
    }

    /// What follows them.
    pub(crate) fn tail(&self, head: LeafHead) -> Tail
        requires { AreFew (layout_seen self.now) }
        ensures tail { tail_seen result ≡ tail_of (layout_seen self.now) head }
        ensures few { HasFew (tail_seen result) }
    {
        if self.knows(head) { self.3 } else { Nothing }
    }
}

fn of_file() -> &'static [Layout]
    ensures { layouts_seen result.now ≡ of_file }
{
    OF_FILE
}

fn of_movie() -> &'static [Layout]
    ensures { layouts_seen result.now ≡ of_movie }
{
    OF_MOVIE
}

fn of_track() -> &'static [Layout]
    ensures { layouts_seen result.now ≡ of_track }
{
    OF_TRACK
}

fn of_media() -> &'static [Layout]
    ensures { layouts_seen result.now ≡ of_media }
{
    OF_MEDIA
}

fn of_samples() -> &'static [Layout]
    ensures { layouts_seen result.now ≡ of_samples }
{
    OF_SAMPLES
}

fn of_places() -> &'static [Layout]
    ensures { layouts_seen result.now ≡ of_places }
{
    OF_PLACES
}

fn of_fragment() -> &'static [Layout]
    ensures { layouts_seen result.now ≡ of_fragment }
{
    OF_FRAGMENT
}

// The first of these layouts that is of the type, or else another.
fn find_or(all: &'static [Layout], kind: FourCc, other: Option<Layout>) -> Option<Layout>
    ensures { option_map layout_seen result
        ≡ option_or (first_of kind.0 (layouts_seen all.now)) (option_map layout_seen other) }
{
    for layout in all {
        if layout.0 == kind {
            return Some(*layout);
        }
    }
    other
}

/// What a box of this type holds, where the table has it.
pub(crate) fn layout_of(kind: FourCc) -> Option<Layout>
    ensures layout { option_map layout_seen result ≡ layout_of kind.0 }
    ensures few { IfSome result (λ l. AreFew (layout_seen l)) }
{
    let mut found = find_or(of_fragment(), kind, None);
    found = find_or(of_places(), kind, found);
    found = find_or(of_samples(), kind, found);
    found = find_or(of_media(), kind, found);
    found = find_or(of_track(), kind, found);
    found = find_or(of_movie(), kind, found);
    find_or(of_file(), kind, found)
}
