//! The lines of samples.
ghost use Rattle.std.specs.Prelude.{◌≡◌, ◌+◌, ◌≤◌, [], ◌++◌, length, drop, OnOk};
ghost use Rattle.mp4_present.specs.words.Carried.{waiting};
ghost use Rattle.mp4_answers.specs.declared.jobs.Form.TheVariants as forms;
ghost use Rattle.mp4_answers.specs.format.Texts.{sample_at_line};
ghost use Rattle.mp4_answers.specs.words.ListedWalks.{PassesOn, PutsLines};
ghost use Rattle.mp4_answers.specs.words.StoreAndSink.{PutsOrFails};

use crate::jobs::Form;
use crate::text::digits::{write_byte, write_bytes, write_digits, write_short_digits};
use crate::text::line_block::LineBlock;
use crate::text::line_cache::{LineCache, write_cached_number, write_kept_sum, write_text};
use mp4_boxes::Refusal;
use mp4_present::OutBuffer;
use mp4_store::Sink;
use mp4_tables::{SampleAt, Samples};

/// More than the bytes of any line.
const LONGEST: usize = 296;

/// The bytes of a line and those that are copied with it.
const ROOM_OF_LINE: usize = 360;

/// How many bytes of lines go on together.
const ROOM_OF_BLOCK: usize = 2_048;

// Writes the plain line of a sample so that it ends at `end`, and says where it begins: its number,
// decode time, composition time, duration, flags, description index, size.
#[inline(always)]
fn plain_line(
    text: &mut [u8],
    end: usize,
    kept: &mut LineCache,
    number: u64,
    sample: &SampleAt,
) -> usize
    requires room { LONGEST ≤ end }
    requires within { end ≤ length text.old }
    ensures before { result ≤ end }
    ensures written { drop result text.new
        ≡ sample_at_line forms.Plain number 0 sample.now ++ drop end text.old }
{
    let mut start = write_byte(text, end, b'\n');
    start = write_short_digits(text, start, sample.size);
    start = write_byte(text, start, b' ');
    kept.middle.renew(sample.flags, sample.description);
    start = write_text(text, start, kept.middle.text());
    start = write_byte(text, start, b' ');
    start = write_short_digits(text, start, sample.duration);
    start = write_byte(text, start, b' ');
    start = write_kept_sum(text, start, sample.dts, sample.cto, &mut kept.composition);
    start = write_byte(text, start, b' ');
    start = write_cached_number(text, start, sample.dts, &mut kept.time);
    start = write_byte(text, start, b' ');
    write_cached_number(text, start, number, &mut kept.number)
}

// The same as an object of JSON, with its names in order of their bytes, and with the place of the
// sample in its file and the number of its `moof`.
fn json_line(
    text: &mut [u8],
    end: usize,
    kept: &mut LineCache,
    number: u64,
    fragment: u64,
    sample: &SampleAt,
) -> usize
    requires room { LONGEST ≤ end }
    requires within { end ≤ length text.old }
    ensures before { result ≤ end }
    ensures written { drop result text.new
        ≡ sample_at_line forms.Json number fragment sample.now ++ drop end text.old }
{
    let mut start = write_bytes(text, end, b"}\n");
    start = write_short_digits(text, start, sample.size);
    start = write_bytes(text, start, b",\"size\":");
    start = write_digits(text, start, number);
    start = write_bytes(text, start, b",\"number\":");
    start = write_digits(text, start, fragment);
    start = write_bytes(text, start, b",\"fragment\":");
    start = write_short_digits(text, start, sample.flags);
    start = write_bytes(text, start, b",\"flags\":");
    start = write_short_digits(text, start, sample.duration);
    start = write_bytes(text, start, b",\"duration\":");
    start = write_short_digits(text, start, sample.description);
    start = write_bytes(text, start, b",\"description\":");
    start = write_digits(text, start, sample.dts);
    start = write_bytes(text, start, b",\"decode_time\":");
    start = write_kept_sum(text, start, sample.dts, sample.cto, &mut kept.composition);
    start = write_bytes(text, start, b",\"composition_time\":");
    start = write_digits(text, start, sample.at);
    write_bytes(text, start, b"{\"at\":")
}

// The line of a sample in this form.
#[inline(always)]
fn sample_line(
    form: Form,
    text: &mut [u8],
    end: usize,
    kept: &mut LineCache,
    number: u64,
    fragment: u64,
    sample: &SampleAt,
) -> usize
    requires room { LONGEST ≤ end }
    requires within { end ≤ length text.old }
    ensures before { result ≤ end }
    ensures written { drop result text.new
        ≡ sample_at_line form number fragment sample.now ++ drop end text.old }
{
    match form {
        Form::Plain | Form::Named => plain_line(text, end, kept, number, sample),
        Form::Json => json_line(text, end, kept, number, fragment, sample),
    }
}

// Adds the line of a sample to a block. It is written in `text`, so that it ends at `LONGEST`.
#[inline(always)]
fn add_line(
    form: Form,
    number: u64,
    fragment: u64,
    sample: &SampleAt,
    kept: &mut LineCache,
    text: &mut [u8],
    block: &mut LineBlock<ROOM_OF_BLOCK>,
)
    requires text { length text.old ≡ ROOM_OF_LINE }
    requires room { length block.old + ROOM_OF_LINE ≤ ROOM_OF_BLOCK }
    ensures { block.new ≡ block.old ++ sample_at_line form number fragment sample.now }
{
    let start = sample_line(form, text, LONGEST, kept, number, fragment, sample);
    let (_unused, line) = text.split_at(start);
    block.push_front(line, LONGEST - start);
}

// Makes room for a line in a block: what it has is taken along, if need be.
#[inline(always)]
fn make_room<K: Sink>(
    block: &mut LineBlock<ROOM_OF_BLOCK>,
    carrier: &mut OutBuffer,
    sink: &mut K,
) -> Result<(), Refusal>
    ensures room { OnOk result (length block.new + ROOM_OF_LINE ≤ ROOM_OF_BLOCK) }
    ensures bytes { PassesOn K.Sink sink.old sink.new (waiting carrier.old ++ block.old)
        (waiting carrier.new ++ block.new) result }
    ensures puts { PutsOrFails K.Sink sink.old sink.new result }
{
    if !block.has_room(ROOM_OF_LINE) {
        carrier.carry(block.as_bytes(), sink)?;
        block.clear();
    }
    Ok(())
}

/// Takes a line for each sample still to come along, all of the `moof` with this number, or of the
/// tables: at Ok all of them, at Err a front of what they and what waited before are. The number is
/// that of the next one; it stays at 2^64 - 1.
pub fn put_lines<C: Samples, K: Sink>(
    form: Form,
    fragment: u64,
    samples: &mut C,
    number: &mut u64,
    carrier: &mut OutBuffer,
    sink: &mut K,
) -> Result<(), Refusal>
    ensures lines { PutsLines K.Sink sink.old sink.new carrier.old carrier.new form fragment
        number.old number.new (C.rest samples.old) result }
    ensures rest { OnOk result (C.rest samples.new ≡ []) }
    ensures puts { PutsOrFails K.Sink sink.old sink.new result }
    ensures later { C.follows samples.old samples.new }
{
    let mut kept = LineCache::new();
    let mut text = [0; ROOM_OF_LINE];
    let mut block = LineBlock::new();
    while let Some(sample) = samples.next() {
        make_room(&mut block, carrier, sink)?;
        add_line(
            form, *number, fragment, &sample, &mut kept, &mut text, &mut block,
        );
        *number = number.saturating_add(1);
    }
    carrier.carry(block.as_bytes(), sink)
}
