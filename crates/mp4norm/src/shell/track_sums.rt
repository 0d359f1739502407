//! Lines before sums, which say of which normal form these are, and of which track, where that is
//! one alone.
use mp4_answers::text::difference_lines::say_counted;
use mp4_answers::text::sum_lines::{ListedSum, header_line, listed_sum};
use mp4_content::Without;
use std::alloc::{AllocError, Global};
use std::str;

/// How the line begins that says of which normal form sums are.
const FORM: &str = "# mp4norm sum: normal form 1";

/// What stands behind that where they are of a track alone, before its ID (8.3.2).
const TRACK: &str = " of track ";

/// The line that says of which normal form, of which track, and of what is left of it, the sums
/// behind it are.
pub(crate) fn header_of(
    alloc: Global,
    track: Option<u32>,
    leaving: Without,
) -> Result<Vec<u8>, AllocError> {
    let whole = header_line(alloc, leaving)?;
    let (Some(track), Some(rest)) = (track, whole.as_slice().strip_prefix(FORM.as_bytes())) else {
        return Ok(whole);
    };
    let mut line = Vec::new(alloc);
    line.extend_from_slice(FORM.as_bytes())?;
    say_counted(&mut line, TRACK, u64::from(track), "")?;
    line.extend_from_slice(rest)?;
    Ok(line)
}

// The ID of the track that a line before sums names, and what stands behind it and a comma; none
// where it isn't spelled as `sum` writes it.
fn track_in(line: &[u8]) -> Option<(u32, &str)> {
    let text = str::from_utf8(line).ok()?;
    let named = text.strip_prefix(FORM)?.strip_prefix(TRACK)?;
    let (digits, rest) = named.split_once(",")?;
    if digits.starts_with('0') || digits.starts_with('+') {
        return None;
    }
    Some((digits.parse().ok()?, rest))
}

/// What a line of a list of sums says; and of which track alone the sums behind it are, where it
/// says that.
pub(crate) fn listed_line(
    alloc: Global,
    line: &[u8],
) -> Result<(Option<u32>, ListedSum), AllocError> {
    let Some((track, rest)) = track_in(line) else {
        return Ok((None, listed_sum(alloc, line)?));
    };
    let mut whole = Vec::new(alloc);
    whole.extend_from_slice(FORM.as_bytes())?;
    whole.push(b',')?;
    whole.extend_from_slice(rest.as_bytes())?;
    Ok((Some(track), listed_sum(alloc, whole.as_slice())?))
}
