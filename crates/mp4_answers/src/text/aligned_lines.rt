//! How two tracks that are aligned lie beside each other, as a line or as an object of JSON.
ghost use Rattle.std.specs.Prelude.{◌≡◌, ◌+◌, ◌<◌, ◌++◌, max, OnOk};
ghost use Rattle.mp4_answers.specs.format.AlignedLine.{alignment_line, alignment_object, alignment_text, behind_text, between_object, between_text, not_in, noun_text, numbers_text, only_text, own_stretch, own_text, same_members, samples_member, seconds_text, side_members, three_digits, time_member, time_text, timescale_member};

use crate::text::difference_lines::{end_line, say, say_counted, say_number};
use mp4_content::{Alignment, Between};
use std::alloc::AllocError;

// Adds a number below 1000 in three digits.
fn say_three_digits(text: &mut Vec<u8>, number: u64) -> Result<(), AllocError>
    requires { number < 1000 }
    ensures { OnOk result (text.new.items ≡ text.old.items ++ three_digits number) }
{
    let digits = [
        b'0' + (number / 100) as u8,
        b'0' + (number / 10 % 10) as u8,
        b'0' + (number % 10) as u8,
    ];
    text.extend_from_slice(&digits)
}

/// Adds a time in parts of a timescale, in seconds.
pub(crate) fn say_seconds(text: &mut Vec<u8>, time: u64, timescale: u32) -> Result<(), AllocError>
    ensures { OnOk result
        (text.new.items ≡ text.old.items ++ seconds_text time (max 1 timescale)) }
{
    let parts = u64::from(timescale.max(1));
    say_counted(text, " (", time / parts, ".")?;
    say_three_digits(text, time % parts * 1000 / parts)?;
    say(text, " s)")
}

// Adds when the first of some samples is decoded, in seconds.
fn say_time(text: &mut Vec<u8>, between: Between) -> Result<(), AllocError>
    ensures { OnOk result (text.new.items ≡ text.old.items ++ time_text between) }
{
    say_seconds(text, between.time, between.timescale)
}

// What stands between a number of samples and the file that has them.
fn noun(many: u32) -> &'static str
    ensures { result.now ≡ noun_text many }
{
    if many == 1 {
        " sample of "
    } else {
        " samples of "
    }
}

// And before the file that has them not.
fn not_in(many: u32) -> &'static str
    ensures { result.now ≡ not_in many }
{
    if many == 1 {
        " is not in "
    } else {
        " are not in "
    }
}

// Adds how many samples a file has.
fn say_count(text: &mut Vec<u8>, own: &str, many: u32) -> Result<(), AllocError>
    ensures { OnOk result (text.new.items ≡ text.old.items ++ own_text own.now many) }
{
    say_counted(text, "", u64::from(many), noun(many))?;
    say(text, own)
}

// Adds behind how many samples they stand, and which file has them not.
fn say_behind(text: &mut Vec<u8>, other: &str, front: u32, many: u32) -> Result<(), AllocError>
    ensures { OnOk result (text.new.items ≡ text.old.items ++ behind_text other.now front many) }
{
    say_counted(text, " behind ", u64::from(front), not_in(many))?;
    say(text, other)
}

// Adds what samples one file has where the other has none.
fn say_only(
    text: &mut Vec<u8>,
    own: &str,
    other: &str,
    front: u32,
    between: Between,
) -> Result<(), AllocError>
    ensures { OnOk result
        (text.new.items ≡ text.old.items ++ only_text own.now other.now front between) }
{
    say_count(text, own, between.samples)?;
    say_behind(text, other, front, between.samples)?;
    say_time(text, between)
}

// Adds the numbers of so many samples behind those in front.
fn say_numbers(text: &mut Vec<u8>, front: u32, many: u32) -> Result<(), AllocError>
    ensures { OnOk result (text.new.items ≡ text.old.items ++ numbers_text front many) }
{
    let (first, last) = (u64::from(front) + 1, u64::from(front) + u64::from(many));
    if many == 1 {
        return say_counted(text, "sample ", first, "");
    }
    say_counted(text, "samples ", first, " to ")?;
    say_number(text, last)
}

// Adds what samples one file has where both have some.
fn say_some(text: &mut Vec<u8>, own: &str, front: u32, between: Between) -> Result<(), AllocError>
    ensures { OnOk result (text.new.items ≡ text.old.items ++ own_stretch own.now front between) }
{
    say_numbers(text, front, between.samples)?;
    say(text, " of ")?;
    say(text, own)?;
    say_time(text, between)
}

// Adds what stands between the samples that are the same.
fn say_between(text: &mut Vec<u8>, alignment: Alignment) -> Result<(), AllocError>
    ensures { OnOk result (text.new.items ≡ text.old.items
        ++ between_text alignment.front alignment.left alignment.right) }
{
    let Alignment {
        front,
        left,
        right,
        ..
    } = alignment;
    if right.samples == 0 {
        return say_only(text, "A", "B", front, left);
    }
    if left.samples == 0 {
        return say_only(text, "B", "A", front, right);
    }
    say_some(text, "A", front, left)?;
    say(text, " | ")?;
    say_some(text, "B", front, right)
}

// Adds the line that tells how two tracks lie beside each other, without its line feed.
fn say_line(text: &mut Vec<u8>, alignment: Alignment) -> Result<(), AllocError>
    ensures { OnOk result (text.new.items ≡ text.old.items ++ alignment_text alignment) }
{
    say_counted(text, "track ", alignment.track, ": ")?;
    say_between(text, alignment)
}

/// Adds the line that tells how two tracks lie beside each other.
pub fn say_alignment(text: &mut Vec<u8>, alignment: Alignment) -> Result<(), AllocError>
    ensures { OnOk result (text.new.items ≡ text.old.items ++ alignment_line alignment) }
{
    say_line(text, alignment)?;
    end_line(text)
}

// Adds when the first of some samples is decoded, in parts of a second.
fn say_decode_time(text: &mut Vec<u8>, between: Between) -> Result<(), AllocError>
    ensures { OnOk result (text.new.items ≡ text.old.items ++ time_member between) }
{
    say_counted(text, "{\"decode_time\":", between.time, ",")
}

// Adds how many samples one file has between.
fn say_samples(text: &mut Vec<u8>, between: Between) -> Result<(), AllocError>
    ensures { OnOk result (text.new.items ≡ text.old.items ++ samples_member between) }
{
    say(text, "\"samples\":")?;
    say_number(text, u64::from(between.samples))
}

// Adds how many parts a second has there.
fn say_timescale(text: &mut Vec<u8>, between: Between) -> Result<(), AllocError>
    ensures { OnOk result (text.new.items ≡ text.old.items ++ timescale_member between) }
{
    say_counted(text, ",\"timescale\":", u64::from(between.timescale), "}")
}

// Adds what one file has between, as an object.
fn say_between_object(text: &mut Vec<u8>, between: Between) -> Result<(), AllocError>
    ensures { OnOk result (text.new.items ≡ text.old.items ++ between_object between) }
{
    say_decode_time(text, between)?;
    say_samples(text, between)?;
    say_timescale(text, between)
}

// Adds what both files have between.
fn say_sides(text: &mut Vec<u8>, alignment: Alignment) -> Result<(), AllocError>
    ensures { OnOk result (text.new.items ≡ text.old.items ++ side_members alignment) }
{
    say(text, "{\"a\":")?;
    say_between_object(text, alignment.left)?;
    say(text, ",\"b\":")?;
    say_between_object(text, alignment.right)
}

// Adds how many samples around that are the same.
fn say_same(text: &mut Vec<u8>, alignment: Alignment) -> Result<(), AllocError>
    ensures { OnOk result (text.new.items ≡ text.old.items ++ same_members alignment) }
{
    say_counted(text, ",\"end\":", u64::from(alignment.end), ",\"front\":")?;
    say_number(text, u64::from(alignment.front))
}

/// Adds the object that tells how two tracks lie beside each other, and a line feed.
pub fn say_alignment_object(text: &mut Vec<u8>, alignment: Alignment) -> Result<(), AllocError>
    ensures { OnOk result (text.new.items ≡ text.old.items ++ alignment_object alignment) }
{
    say_sides(text, alignment)?;
    say_same(text, alignment)?;
    say(text, ",\"kind\":\"aligned\",\"line\":\"")?;
    say_line(text, alignment)?;
    say_counted(text, "\",\"track\":", alignment.track, "}")?;
    end_line(text)
}
