//! The line of a sample in the text of a presentation.
ghost use Rattle.std.specs.Prelude.{◌≡◌, ◌+◌, ◌<◌, ◌≤◌, ◌++◌, length, take, drop};
ghost use Rattle.mp4_tables.specs.words.Keys.{key_place, key_seen, keys_seen};
ghost use Rattle.mp4_content.specs.words.Differing.{index_in};
ghost use Rattle.mp4_plan.specs.format.Normal.{in_key_order, put_key};
ghost use Rattle.mp4_answers.specs.format.Text.{group_text};
ghost use Rattle.mp4_answers.specs.words.ToldSamples.{told_end, told_flags, told_indexes, told_line};

use crate::digests::DIGEST;
use crate::text::digits::{write_byte, write_hex, write_short_digits};
use crate::text::named_lines::write_signed;
use crate::text::payload_lines::{write_bytes_in_hex, write_type};
use mp4_content::{Reduction, Word};
use mp4_tables::{GroupKey, Keys, SampleAt};

/// At least as many bytes as a line has.
pub(crate) const LONGEST: usize = 320;

/// What of a track's samples is told: what this leaves of them, and their groups in the order of
/// these keys.
#[derive(Clone, Copy)]
pub(crate) struct SampleStyle {
    reduction: Reduction,
    keys: Keys,
    order: Keys,
}

// Keys in their order, each once, and one more.
fn with_key(keys: &Keys, key: GroupKey) -> Keys
    requires { length (keys_seen keys.now) < 4 }
    ensures order { keys_seen result ≡ put_key (key_seen key) (keys_seen keys.now) }
    ensures few { length (keys_seen result) ≤ length (keys_seen keys.now) + 1 }
{
    let rank = key.rank();
    let mut all = Keys::new();
    let mut is_there = false;
    for j in 0..keys.count() {
        let other = keys.key_at(j);
        if !is_there && rank <= other.rank() {
            if rank < other.rank() {
                all.push(key);
            }
            is_there = true;
        }
        all.push(other);
    }
    if !is_there {
        all.push(key);
    }
    all
}

// The keys in their order.
fn in_order(keys: &Keys) -> Keys
    ensures { keys_seen result ≡ in_key_order (keys_seen keys.now) }
{
    let mut all = Keys::new();
    let mut left = keys.count();
    while left > 0 {
        left -= 1;
        all = with_key(&all, keys.key_at(left));
    }
    all
}

impl SampleStyle {
    ghost use Rattle.std.specs.Prelude.{◌≡◌};
    ghost use Rattle.mp4_tables.specs.words.Keys.{key_place, key_seen, keys_seen};
    ghost use Rattle.mp4_content.specs.words.ComingLess.{cto_left, lasts_left};
    ghost use Rattle.mp4_content.specs.words.Differing.{index_in};
    ghost use Rattle.mp4_answers.specs.words.ToldSamples.{IsStyle};

    /// For a track whose samples are left by this and grouped by these keys.
    pub(crate) fn new(reduction: Reduction, keys: Keys) -> SampleStyle
        ensures { IsStyle reduction keys result }
    {
        let order = if reduction.leaving.has(Word::Groups) {
            Keys::new()
        } else {
            in_order(&keys)
        };
        SampleStyle {
            reduction,
            keys,
            order,
        }
    }

    // How long a sample lasts.
    fn duration(&self, sample: &SampleAt) -> u32
        ensures { result ≡ lasts_left self.now.reduction sample.now.number sample.now.duration }
    {
        self.reduction.duration(sample.number, sample.duration)
    }

    // Its composition offset.
    fn offset(&self, sample: &SampleAt) -> i64
        ensures { result ≡ cto_left self.now.reduction sample.now.cto }
    {
        self.reduction.offset(sample.cto)
    }

    // The index of a sample at a key, 0 for none.
    fn index(&self, sample: &SampleAt, key: GroupKey) -> u16
        ensures { result ≡ index_in (key_place (key_seen key) (keys_seen self.now.keys))
            sample.now.groups }
    {
        match self.keys.place(key) {
            Some(place) if place < 4 => sample.groups[place as usize],
            _ => 0,
        }
    }
}

// Writes an index at a key, so that it ends at `end`, and says where it begins.
fn write_group(text: &mut [u8], end: usize, key: GroupKey, index: u16) -> usize
    requires room { 32 ≤ end }
    requires within { end ≤ length text.old }
    ensures before { result ≤ end }
    ensures short { end ≤ result + 32 }
    ensures written { drop result text.new ≡ group_text (key_seen key, index) ++ drop end text.old }
{
    let mut start = write_short_digits(text, end, u32::from(index));
    start = write_byte(text, start, b'=');
    if let Some(parameter) = key.parameter {
        start = write_short_digits(text, start, parameter);
        start = write_byte(text, start, b'/');
    }
    start = write_type(text, start, key.kind);
    write_byte(text, start, b' ')
}

// Writes the index at the key of this place in their order, where the sample has one.
fn write_index(
    text: &mut [u8],
    end: usize,
    style: &SampleStyle,
    sample: &SampleAt,
    place: u8,
) -> usize
    requires room { 32 ≤ end }
    requires within { end ≤ length text.old }
    ensures before { result ≤ end }
    ensures short { end ≤ result + 32 }
    ensures written { drop result text.new ≡ told_indexes style.now.keys sample.now
        (take 1 (drop place (keys_seen style.now.order))) ++ drop end text.old }
{
    if place >= style.order.count() {
        return end;
    }
    let key = style.order.key_at(place);
    match style.index(sample, key) {
        0 => end,
        index => write_group(text, end, key, index),
    }
}

// Writes the indexes of a sample.
fn write_groups(text: &mut [u8], end: usize, style: &SampleStyle, sample: &SampleAt) -> usize
    requires room { 128 ≤ end }
    requires within { end ≤ length text.old }
    ensures before { result ≤ end }
    ensures short { end ≤ result + 128 }
    ensures written { drop result text.new ≡ told_indexes style.now.keys sample.now
        (keys_seen style.now.order) ++ drop end text.old }
{
    let mut start = write_index(text, end, style, sample, 3);
    start = write_index(text, start, style, sample, 2);
    start = write_index(text, start, style, sample, 1);
    write_index(text, start, style, sample, 0)
}

// Writes the digest of a sample's bytes, its indexes and the end of its line.
fn write_end(
    text: &mut [u8],
    end: usize,
    style: &SampleStyle,
    sample: &SampleAt,
    digest: &[u8; DIGEST],
) -> usize
    requires room { 200 ≤ end }
    requires within { end ≤ length text.old }
    ensures before { result ≤ end }
    ensures short { end ≤ result + 200 }
    ensures written { drop result text.new
        ≡ told_end style.now digest.now sample.now ++ drop end text.old }
{
    let mut start = write_byte(text, end, b'\n');
    start = write_groups(text, start, style, sample);
    start = write_bytes_in_hex(text, start, digest);
    write_byte(text, start, b' ')
}

// Writes the flags of a sample, its description, its size and the end of its line.
fn write_flags(
    text: &mut [u8],
    end: usize,
    style: &SampleStyle,
    sample: &SampleAt,
    digest: &[u8; DIGEST],
) -> usize
    requires room { 240 ≤ end }
    requires within { end ≤ length text.old }
    ensures before { result ≤ end }
    ensures short { end ≤ result + 240 }
    ensures written { drop result text.new
        ≡ told_flags style.now digest.now sample.now ++ drop end text.old }
{
    let mut start = write_end(text, end, style, sample, digest);
    start = write_short_digits(text, start, sample.size);
    start = write_byte(text, start, b' ');
    start = write_short_digits(text, start, sample.description);
    start = write_byte(text, start, b' ');
    let flags = style.reduction.flags(sample.flags);
    start = write_hex(text, start, u64::from(flags), 8);
    write_byte(text, start, b' ')
}

/// Writes the line of a sample whose bytes have this digest, so that it ends at `end`, and says
/// where it begins.
pub(crate) fn write_sample(
    text: &mut [u8],
    end: usize,
    style: &SampleStyle,
    sample: &SampleAt,
    digest: &[u8; DIGEST],
) -> usize
    requires room { 320 ≤ end }
    requires within { end ≤ length text.old }
    ensures before { result ≤ end }
    ensures written { drop result text.new
        ≡ told_line style.now digest.now sample.now ++ drop end text.old }
{
    let mut start = write_flags(text, end, style, sample, digest);
    start = write_signed(text, start, style.offset(sample));
    start = write_byte(text, start, b' ');
    start = write_short_digits(text, start, style.duration(sample));
    write_byte(text, start, b' ')
}
