//! The line that tells of a difference, with when its sample is decoded.
ghost use Rattle.std.specs.Prelude.{◌≡◌, ◌++◌, OnOk};
ghost use Rattle.mp4_answers.specs.format.TimedLine.{timed_line, timed_text};

use crate::text::aligned_lines::say_seconds;
use crate::text::difference_lines::{end_line, say_line};
use mp4_content::{DecodeTime, Difference};
use std::alloc::AllocError;

// Adds when a sample is decoded, in seconds; nothing of what is no sample.
fn say_time(text: &mut Vec<u8>, time: Option<DecodeTime>) -> Result<(), AllocError>
    ensures { OnOk result (text.new.items ≡ text.old.items ++ timed_text time) }
{
    match time {
        Some(decoded) => say_seconds(text, decoded.time, decoded.timescale),
        None => Ok(()),
    }
}

/// Adds the line that tells of a difference, with when its sample is decoded.
pub(crate) fn say_timed(
    text: &mut Vec<u8>,
    difference: Difference,
    time: Option<DecodeTime>,
) -> Result<(), AllocError>
    ensures { OnOk result (text.new.items ≡ text.old.items ++ timed_line time difference) }
{
    say_line(text, difference)?;
    say_time(text, time)?;
    end_line(text)
}
