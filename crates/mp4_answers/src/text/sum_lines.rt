//! Lines of sums, as `sha256sum` of the GNU coreutils writes them, and what a list of them says.
ghost use Rattle.std.specs.Prelude.{◌≡◌, ◌+◌, ◌<◌, ◌≤◌, ℕ, List, ◌∷◌, ◌++◌, bytes_eq, length, true, false, Some, IfOk, IfSome, IsSomeAnd, OnOk};
ghost use Rattle.mp4_boxes.specs.format.Bytes.{AreBytes};
ghost use Rattle.mp4_answers.specs.format.SumLines.{bytes_mark, escaped_byte, escaped_name, header_text, is_escaped, name_text, sum_of_name, sum_text, tally_text};
ghost use Rattle.mp4_answers.specs.words.SpelledNames.{escape_said, IsName, IsSpelled};
ghost use Rattle.mp4_answers.specs.format.ListedSums.{says_bytes, SaysSum};
ghost use Rattle.mp4_answers.specs.format.Texts.{hex_text, line_feed};

use crate::digests::DIGEST;
use crate::text::cutting::{byte_of, cut};
use crate::text::difference_lines::{say_counted, say_number};
use crate::text::field_lines::push_hex;
use crate::text::json_text::name_json;
use crate::text::plain_names::push_plain;
use crate::text::tally::say_words;
use crate::without_words::leaving_of;
use mp4_content::Without;
use std::alloc::{AllocError, Global};
use std::str;

/// How the line begins that says of which normal form sums are.
const HEADER: &[u8] = b"# mp4norm sum: normal form ";

/// The number of the normal form.
const FORM: &[u8] = b"1";

/// The line before the sums of bytes, without its line feed.
const BYTES: &[u8] = b"# mp4norm sum: bytes of files without a normal form";

/// How many digits a digest has.
const DIGITS: usize = 2 * DIGEST;

/// The line that says of which normal form, and of what is left of files, the sums behind it are.
pub fn header_line(alloc: Global, leaving: Without) -> Result<Vec<u8>, AllocError>
    ensures { IfOk result (λ line. line.items ≡ header_text leaving) }
{
    let mut words = Vec::new(alloc);
    say_words(&mut words, leaving)?;
    let mut line = Vec::new(alloc);
    line.extend_from_slice(HEADER)?;
    line.extend_from_slice(FORM)?;
    line.extend_from_slice(b", without")?;
    if words.is_empty() {
        line.extend_from_slice(b" nothing")?;
    } else {
        line.extend_from_slice(words.as_slice())?;
    }
    line.extend_from_slice(b"\n")?;
    Ok(line)
}

/// The line before the sums of the bytes of files that have no normal form.
pub fn bytes_header(alloc: Global) -> Result<Vec<u8>, AllocError>
    ensures { IfOk result (λ line. line.items ≡ bytes_mark ++ line_feed) }
{
    let mut line = Vec::new(alloc);
    line.extend_from_slice(BYTES)?;
    line.extend_from_slice(b"\n")?;
    Ok(line)
}

/// The line that says how many files were checked against their sums: how many of them have
/// another one, how many have none, and how many are left.
pub fn tally_line(
    alloc: Global,
    files: u64,
    other: u64,
    without: u64,
) -> Result<Vec<u8>, AllocError>
    requires { other + without ≤ files }
    ensures { IfOk result (λ line. line.items ≡ tally_text files other without) }
{
    let mut line = Vec::new(alloc);
    say_counted(&mut line, "sum: checked ", files, ": OK ")?;
    say_number(&mut line, files - other - without)?;
    say_counted(&mut line, ", FAILED ", other, ", without a sum ")?;
    say_number(&mut line, without)?;
    line.extend_from_slice(b"\n")?;
    Ok(line)
}

// Whether a name has a byte that a line of its own can't have.
fn is_escaped(name: &[u8]) -> bool
    ensures { result ≡ is_escaped name.now }
{
    name.iter()
        .any(|byte| matches!(*byte, b'\n' | b'\r' | b'\\'))
}

// Adds a name as it stands in a line that a line feed ends: behind a backslash, which stands at the
// front of the line, `\n`, `\r` and `\\` are these bytes.
fn push_escaped(text: &mut Vec<u8>, name: &[u8]) -> Result<(), AllocError>
    ensures { OnOk result (text.new.items ≡ text.old.items ++ escaped_name name.now) }
{
    for byte in name {
        match *byte {
            b'\n' => text.extend_from_slice(b"\\n")?,
            b'\r' => text.extend_from_slice(b"\\r")?,
            b'\\' => text.extend_from_slice(b"\\\\")?,
            byte => text.push(byte)?,
        }
    }
    Ok(())
}

/// Adds a name at the front of a line that a line feed ends, behind a backslash where it is
/// escaped.
pub fn push_name(text: &mut Vec<u8>, name: &[u8]) -> Result<(), AllocError>
    ensures { OnOk result (text.new.items ≡ text.old.items ++ name_text name.now) }
{
    if !is_escaped(name) {
        return text.extend_from_slice(name);
    }
    text.push(b'\\')?;
    push_escaped(text, name)
}

// Adds the line of a file of this name.
fn push_sum(
    line: &mut Vec<u8>,
    name: &[u8],
    digest: &[u8; DIGEST],
    end: u8,
) -> Result<(), AllocError>
    ensures { OnOk result
        (line.new.items ≡ line.old.items ++ sum_of_name name.now digest.now end) }
{
    let is_escaped = end != 0 && is_escaped(name);
    if is_escaped {
        line.push(b'\\')?;
    }
    push_hex(line, digest)?;
    line.extend_from_slice(b"  ")?;
    if is_escaped {
        push_escaped(line, name)?;
    } else {
        line.extend_from_slice(name)?;
    }
    line.push(end)?;
    Ok(())
}

/// The line of a file's sum, ended by this byte; where that is a line feed, with the name escaped.
pub fn sum_line(
    alloc: Global,
    name: &[u8],
    digest: &[u8; DIGEST],
    end: u8,
) -> Result<Vec<u8>, AllocError>
    ensures { IfOk result (λ line. line.items ≡ sum_text name.now digest.now end) }
{
    let mut plain = Vec::new(alloc);
    push_plain(&mut plain, name)?;
    let mut line = Vec::new(alloc);
    push_sum(&mut line, plain.as_slice(), digest, end)?;
    Ok(line)
}

/// The object of JSON of a file's sum, ended by this byte.
pub fn sum_object(
    alloc: Global,
    name: &[u8],
    digest: &[u8; DIGEST],
    end: u8,
) -> Result<Vec<u8>, AllocError> {
    let mut line = Vec::new(alloc);
    line.extend_from_slice(b"{\"file\":")?;
    line.extend_from_slice(name_json(alloc, name)?.as_slice())?;
    line.extend_from_slice(b",\"sha256\":\"")?;
    push_hex(&mut line, digest)?;
    line.extend_from_slice(b"\",\"status\":0}")?;
    line.push(end)?;
    Ok(line)
}

/// What sums are of.
#[derive(Clone, Copy)]
pub enum SumOf {
    /// The normal form of what is left of a file.
    Form(Without),
    /// The bytes of a file.
    Bytes,
}

/// What a line of a list of sums says.
#[derive(Drop)]
pub enum ListedSum {
    /// What the sums behind it are of.
    Header(SumOf),
    /// The sum of the file of this name.
    Sum { digest: [u8; DIGEST], name: Vec<u8> },
    /// Nothing.
    Passed,
    /// It can't be read, for this reason.
    Odd(&'static str),
}

// The digest that digits spell.
fn digest_of(digits: &[u8]) -> Option<[u8; DIGEST]>
    ensures { (digest : List ℕ) → AreBytes digest → length digest ≡ 32
        → digits.now ≡ hex_text digest → result ≡ Some digest }
{
    if digits.len() != DIGITS {
        return None;
    }
    let mut digest = [0; DIGEST];
    for at in 0..DIGEST {
        digest[at] = byte_of(digits[2 * at], digits[2 * at + 1])?;
    }
    Some(digest)
}

// The byte that an escape says; none where there is no such escape.
fn escape_of(byte: u8) -> Option<u8>
    ensures { result ≡ escape_said byte }
{
    match byte {
        b'n' => Some(b'\n'),
        b'r' => Some(b'\r'),
        b'\\' => Some(b'\\'),
        _ => None,
    }
}

// The first byte of a name that is spelled so, and what is left behind it; none where an escape is
// none.
fn byte_at(first: u8, rest: &[u8], is_escaped: bool) -> Option<(u8, &[u8])>
    ensures plain { is_escaped ≡ false → IsSomeAnd result
        (λ said. (said.0 ≡ first) × (said.1.now ≡ rest.now)) }
    ensures escaped { (b : ℕ) (more : List ℕ) → is_escaped ≡ true
        → first ∷ rest.now ≡ escaped_byte b ++ more
        → IsSomeAnd result (λ said. (said.0 ≡ b) × (said.1.now ≡ more)) }
    ensures less { IfSome result (λ said. length said.1.now ≤ length rest.now) }
{
    if !is_escaped || first != b'\\' {
        return Some((first, rest));
    }
    let (byte, more) = rest.split_first()?;
    Some((escape_of(*byte)?, more))
}

// The name that stands in a line, escaped or not; none where an escape is none.
fn name_of(alloc: Global, spelled: &[u8], is_escaped: bool) -> Result<Option<Vec<u8>>, AllocError>
    ensures plain { is_escaped ≡ false → IfOk result (IsName spelled.now) }
    ensures escaped { (name : List ℕ) → is_escaped ≡ true → spelled.now ≡ escaped_name name
        → IfOk result (IsName name) }
{
    let mut name = Vec::new(alloc);
    let mut left = spelled;
    while let Some((first, rest)) = left.split_first() {
        let Some((byte, more)) = byte_at(*first, rest, is_escaped) else {
            return Ok(None);
        };
        name.push(byte)?;
        left = more;
    }
    Ok(Some(name))
}

// What a line with this behind the mark of a header says.
fn header_of(rest: &[u8]) -> ListedSum
    ensures { says_bytes result ≡ false }
{
    let (form, words) = cut(rest, b',');
    if form != FORM {
        return ListedSum::Odd("sums of another normal form");
    }
    let left_out = match words.and_then(|words| words.strip_prefix(b" without ")) {
        Some(b"nothing") => Some(Without::NOTHING),
        Some(words) => str::from_utf8(words).ok().and_then(leaving_of),
        None => None,
    };
    match left_out {
        Some(leaving) => ListedSum::Header(SumOf::Form(leaving)),
        None => ListedSum::Odd("words that leave out nothing that is known"),
    }
}

// What stands behind two spaces, or behind a space and an asterisk.
fn behind_mark(rest: &[u8]) -> Option<&[u8]>
    ensures { (spelled : List ℕ) → rest.now ≡ 32 ∷ 32 ∷ spelled
        → IsSomeAnd result (λ found. found.now ≡ spelled) }
{
    match rest {
        [b' ', b' ' | b'*', spelled @ ..] => Some(spelled),
        _ => None,
    }
}

// The sum and the name that a line says behind its backslash, if it has one.
fn sum_behind(alloc: Global, line: &[u8], is_escaped: bool) -> Result<ListedSum, AllocError>
    ensures sum { (digest spelled name : List ℕ) → AreBytes digest → length digest ≡ 32
        → 0 < length spelled → line.now ≡ hex_text digest ++ 32 ∷ 32 ∷ spelled
        → IsSpelled is_escaped spelled name → IfOk result (SaysSum digest name) }
    ensures bytes { IfOk result (λ said. says_bytes said ≡ false) }
{
    const NONE: &str = "no checksum";
    if line.len() < DIGITS + 3 {
        return Ok(ListedSum::Odd(NONE));
    }
    let (digits, rest) = line.split_at(DIGITS);
    let Some(spelled) = behind_mark(rest) else {
        return Ok(ListedSum::Odd(NONE));
    };
    let Some(digest) = digest_of(digits) else {
        return Ok(ListedSum::Odd(NONE));
    };
    match name_of(alloc, spelled, is_escaped)? {
        Some(name) => Ok(ListedSum::Sum { digest, name }),
        None => Ok(ListedSum::Odd(NONE)),
    }
}

// What a line that begins with a number sign says.
fn remark_of(line: &[u8]) -> ListedSum
    ensures { says_bytes result ≡ bytes_eq line.now bytes_mark }
{
    if line == BYTES {
        return ListedSum::Header(SumOf::Bytes);
    }
    match line.strip_prefix(HEADER) {
        Some(rest) => header_of(rest),
        None => ListedSum::Passed,
    }
}

/// What a line of a list says. A name is as the list has it, which is no word. What `sum` writes of
/// a file is read back: its digest, and its name. Just one line says that sums of bytes follow.
pub fn listed_sum(alloc: Global, line: &[u8]) -> Result<ListedSum, AllocError>
    ensures sum { (digest name : List ℕ) → AreBytes digest → length digest ≡ 32 → 0 < length name
        → line.now ++ line_feed ≡ sum_of_name name digest 10 → IfOk result (SaysSum digest name) }
    ensures bytes { IfOk result (λ said. says_bytes said ≡ bytes_eq line.now bytes_mark) }
{
    let Some((first, rest)) = line.split_first() else {
        return Ok(ListedSum::Passed);
    };
    if *first == b'#' {
        return Ok(remark_of(line));
    }
    if *first == b'\\' {
        return sum_behind(alloc, rest, true);
    }
    sum_behind(alloc, line, false)
}
