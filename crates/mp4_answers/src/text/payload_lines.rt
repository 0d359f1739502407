//! Payloads, spelled line by line, or told by their digests.
ghost use Rattle.std.specs.Prelude.{◌≡◌, ◌+◌, ◌*◌, ◌/◌, ◌<◌, ◌≤◌, ◌&&◌, ◌++◌, length, drop, map, flat_map};
ghost use Rattle.mp4_head.specs.words.Seen.{kept_seen};
ghost use Rattle.mp4_answers.specs.format.Texts.{hex_text};
ghost use Rattle.mp4_answers.specs.format.Text.{dump_line, dump_lines, is_plain_type, kept_lines, payload_lines, shown_byte, spelled_type};
ghost use Rattle.mp4_present.specs.words.Latches.{Goes};

use crate::digests::{DIGEST, digest};
use crate::text::digits::{hex_digit, write_byte, write_bytes, write_digits};
use crate::text::text_parts::{LINE_FEED, SPACE, put_parts};
use mp4_boxes::FourCc;
use mp4_head::Kept;
use mp4_present::Latch;
use mp4_store::Sink;

/// The most bytes that are spelled; of a longer payload the digest is told.
const MOST_SPELLED: usize = 4096;

/// How many bytes stand in a line.
const IN_LINE: usize = 16;

/// How many digits a digest has.
const DIGITS: usize = 2 * DIGEST;

/// At least as many bytes as a line of bytes has.
const LONGEST: usize = 64;

/// Writes two digits for each byte, so that they end at `end`, and says where they begin.
pub(crate) fn write_bytes_in_hex(text: &mut [u8], end: usize, bytes: &[u8]) -> usize
    requires room { 2 * length bytes.now ≤ end }
    requires within { end ≤ length text.old }
    ensures start { result + 2 * length bytes.now ≡ end }
    ensures written { drop result text.new ≡ hex_text bytes.now ++ drop end text.old }
{
    let mut start = end;
    let mut left = bytes.len();
    while left > 0 {
        left -= 1;
        start = write_byte(text, start, hex_digit(bytes[left] % 16));
        start = write_byte(text, start, hex_digit(bytes[left] / 16));
    }
    start
}

// A byte as it is where it is a printable character, else a dot.
fn shown(byte: u8) -> u8
    ensures { result ≡ shown_byte byte }
{
    if 32 <= byte && byte <= 126 { byte } else { 46 }
}

// Writes bytes as characters, so that they end at `end`, and says where they begin.
fn write_shown(text: &mut [u8], end: usize, bytes: &[u8]) -> usize
    requires room { length bytes.now ≤ end }
    requires within { end ≤ length text.old }
    ensures start { result + length bytes.now ≡ end }
    ensures written { drop result text.new ≡ map shown_byte bytes.now ++ drop end text.old }
{
    let mut start = end;
    let mut left = bytes.len();
    while left > 0 {
        left -= 1;
        start = write_byte(text, start, shown(bytes[left]));
    }
    start
}

// Writes a line of at most sixteen bytes, so that it ends at `end`: their digits and, between bars,
// their characters.
fn write_dump(text: &mut [u8], end: usize, bytes: &[u8]) -> usize
    requires few { length bytes.now ≤ 16 }
    requires room { 64 ≤ end }
    requires within { end ≤ length text.old }
    ensures before { result ≤ end }
    ensures written { drop result text.new ≡ dump_line bytes.now ++ drop end text.old }
{
    let mut start = write_bytes(text, end, b"|\n");
    start = write_shown(text, start, bytes);
    start = write_bytes(text, start, b" |");
    start = write_bytes_in_hex(text, start, bytes);
    write_bytes(text, start, b"  ")
}

// Puts a line of at most sixteen bytes.
fn put_dump<K: Sink>(bytes: &[u8], latch: &mut Latch<K>)
    requires { length bytes.now ≤ 16 }
    ensures { Goes K.Sink latch.old latch.new (dump_line bytes.now) }
{
    let mut text = [0; LONGEST];
    let start = write_dump(&mut text, LONGEST, bytes);
    let (_unused, line) = text.split_at(start);
    latch.put(line);
}

// Puts the lines of a payload.
fn put_dumps<K: Sink>(bytes: &[u8], latch: &mut Latch<K>)
    requires { length bytes.now ≤ 4096 }
    ensures { Goes K.Sink latch.old latch.new
        (dump_lines ((length bytes.now + 15) / 16) bytes.now) }
{
    let mut rest = bytes;
    let mut left = (bytes.len() + 15) / IN_LINE;
    while left > 0 {
        let (line, more) = rest.split_at(rest.len().min(IN_LINE));
        put_dump(line, latch);
        rest = more;
        left -= 1;
    }
}

// Puts the length of a payload behind its name, and its bytes.
fn put_spelled<K: Sink>(name: &[u8], kind: &[u8], bytes: &[u8], latch: &mut Latch<K>)
    requires { length bytes.now ≤ 4096 }
    ensures { Goes K.Sink latch.old latch.new
        (payload_lines (name.now ++ kind.now) bytes.now) }
{
    let mut count = [0; 20];
    let start = write_digits(&mut count, 20, bytes.len() as u64);
    let (_unused, number) = count.split_at(start);
    let parts = [SPACE, name, kind, b": ", number, b" bytes\n"];
    put_parts(&parts, latch);
    put_dumps(bytes, latch);
}

// Puts the length of a payload behind its name, and the digest of its bytes.
fn put_told<K: Sink>(name: &[u8], kind: &[u8], bytes: &[u8], latch: &mut Latch<K>)
    requires { 4096 < length bytes.now }
    ensures { Goes K.Sink latch.old latch.new
        (payload_lines (name.now ++ kind.now) bytes.now) }
{
    let mut count = [0; 20];
    let start = write_digits(&mut count, 20, bytes.len() as u64);
    let mut digits = [0; DIGITS];
    let first = write_bytes_in_hex(&mut digits, DIGITS, &digest(bytes));
    let (_unused, number) = count.split_at(start);
    let (_unused, digest) = digits.split_at(first);
    let told = b" bytes, SHA-256 ";
    let parts = [SPACE, name, kind, b": ", number, told, digest, LINE_FEED];
    put_parts(&parts, latch);
}

/// Puts a payload under a name of two parts: its length, and its bytes, or their digest where they
/// are many.
pub(crate) fn put_payload<K: Sink>(name: &[u8], kind: &[u8], bytes: &[u8], latch: &mut Latch<K>)
    ensures { Goes K.Sink latch.old latch.new
        (payload_lines (name.now ++ kind.now) bytes.now) }
{
    if bytes.len() <= MOST_SPELLED {
        put_spelled(name, kind, bytes, latch);
    } else {
        put_told(name, kind, bytes, latch);
    }
}

/// Puts each of some payloads under a name.
pub(crate) fn put_payloads<K: Sink>(name: &[u8], payloads: &[&[u8]], latch: &mut Latch<K>)
    ensures { Goes K.Sink latch.old latch.new
        (flat_map (payload_lines name.now) (map (λ p. p.now) payloads.now)) }
{
    for payload in payloads {
        put_payload(name, b"", payload, latch);
    }
}

// Whether each byte stands for itself in a type.
fn is_plain_type(kind: &[u8]) -> bool
    ensures { result ≡ is_plain_type kind.now }
{
    kind.iter()
        .all(|byte| 32 < *byte && *byte < 127 && *byte != 92)
}

/// Writes a type as a word of a line, so that it ends at `end`, and says where it begins: its
/// characters, or digits behind a backslash.
pub(crate) fn write_type(text: &mut [u8], end: usize, kind: FourCc) -> usize
    requires room { 9 ≤ end }
    requires within { end ≤ length text.old }
    ensures before { result ≤ end }
    ensures short { end ≤ result + 9 }
    ensures written { drop result text.new ≡ spelled_type kind.0 ++ drop end text.old }
{
    if is_plain_type(&kind.0) {
        return write_bytes(text, end, &kind.0);
    }
    let start = write_bytes_in_hex(text, end, &kind.0);
    write_byte(text, start, b'\\')
}

/// Puts a box under a name: its type behind that, and its payload.
pub(crate) fn put_kept<K: Sink>(name: &[u8], kept: &Kept, latch: &mut Latch<K>)
    ensures { Goes K.Sink latch.old latch.new
        (kept_lines name.now (kept_seen kept.now)) }
{
    let mut text = [0; 10];
    let mut start = write_type(&mut text, 10, kept.kind);
    start = write_byte(&mut text, start, b' ');
    let (_unused, kind) = text.split_at(start);
    put_payload(name, kind, kept.payload, latch);
}

/// Puts each of some boxes under a name.
pub(crate) fn put_boxes<K: Sink>(name: &[u8], boxes: &[Kept], latch: &mut Latch<K>)
    ensures { Goes K.Sink latch.old latch.new
        (flat_map (kept_lines name.now) (map kept_seen boxes.now)) }
{
    for kept in boxes {
        put_kept(name, kept, latch);
    }
}
