//! Lists of files: names, a line each, or an HLS media playlist (RFC 8216).
ghost use Rattle.std.specs.Prelude.{◌≡◌, ◌<◌, false, length, true, IfErr, IfNone, IfOk, IfSome};
ghost use Rattle.mp4norm.specs.format.Lists.{bytes_of, is_name, is_odd, names_of, without_return, AreNames, FirstPart, HasOdd, IsPartLength};

use crate::shell::playlists::{is_playlist, playlist_names};
use std::alloc::{AllocError, Global};

/// Why a list can't be taken: the number of its line, and what is wrong with that.
#[derive(Clone, Copy)]
pub struct ListFault {
    pub line: u64,
    pub what: &'static str,
}

/// So many files of a list are taken where no other number is given.
pub(crate) const MOST_PARTS: u64 = 100_000;

/// What is wrong with the line behind those that are taken.
pub(crate) const TOO_MANY: &str = "more files than --max-parts allows (100000 if it isn't given)";

/// The bytes of a byte order mark in UTF-8.
const MARK: &[u8] = b"\xef\xbb\xbf";

/// How XML begins, and so a manifest of DASH.
const XML: [&[u8]; 2] = [b"<?xml", b"<MPD"];

// How long the first part of a list is whose parts end with this byte, without that byte.
fn part_len(list: &[u8], end: u8) -> usize
    ensures { IsPartLength end list.now result }
{
    let mut len = 0;
    while len < list.len() && list[len] != end {
        len += 1;
    }
    len
}

// The first part of a list whose parts end with this byte, without that byte, and what is left
// behind it. The last part may end with the list.
fn first_part(list: &[u8], end: u8) -> (&[u8], &[u8])
    ensures part { FirstPart end list.now result.0.now result.1.now }
    ensures less { 0 < length list.now → length result.1.now < length list.now }
{
    let (part, rest) = list.split_at(part_len(list, end));
    if rest.is_empty() {
        return (part, rest);
    }
    let (_, rest) = rest.split_at(1);
    (part, rest)
}

/// The first line of a list, without its line feed, and what is left behind it. The last line may
/// end with the list.
pub fn first_line(list: &[u8]) -> (&[u8], &[u8])
    ensures line { FirstPart 10 list.now result.0.now result.1.now }
    ensures less { 0 < length list.now → length result.1.now < length list.now }
{
    first_part(list, b'\n')
}

/// The first of some names that are ended by zero bytes, and what is left behind it. The last may
/// end with the list.
pub fn first_name(list: &[u8]) -> (&[u8], &[u8])
    ensures name { FirstPart 0 list.now result.0.now result.1.now }
    ensures less { 0 < length list.now → length result.1.now < length list.now }
{
    first_part(list, 0)
}

/// A line without the carriage return at its end.
pub fn without_return(line: &[u8]) -> &[u8]
    ensures { result.now ≡ without_return line.now }
{
    let len = line.len();
    if len > 0 && line[len - 1] == b'\r' {
        &line[..len - 1]
    } else {
        line
    }
}

// Whether a line is a name: it isn't empty, and doesn't begin with `#`.
fn is_name(line: &[u8]) -> bool
    ensures { result ≡ is_name line.now }
{
    match line.first() {
        Some(first) => *first != b'#',
        None => false,
    }
}

// What is wrong with a list as a whole, if it is neither a list of names nor a playlist.
fn odd_of_list(list: &[u8]) -> Option<&'static str> {
    if list.starts_with(MARK) {
        return Some("it begins with a byte order mark");
    }
    XML.iter().any(|front| list.starts_with(front)).then_some(
        "it is XML; a list has a name in each line, or is an HLS media playlist",
    )
}

// What is wrong with a name, where there are so many before it.
fn odd_of_name(name: &[u8], count: u64, most: u64) -> Option<&'static str>
    ensures odd { IfSome result (λ _. is_odd most count name.now ≡ true) }
    ensures fair { IfNone result (is_odd most count name.now ≡ false) }
{
    if name.contains(&0) {
        return Some("the name has a zero byte");
    }
    (count >= most).then_some(TOO_MANY)
}

/// The names of a list of names, of which there may be so many.
pub fn text_names(
    alloc: Global,
    list: &[u8],
    most: u64,
) -> Result<Result<Vec<Vec<u8>>, ListFault>, AllocError>
    ensures names { IfOk result (λ taken. IfOk taken (λ names.
        AreNames most list.now (bytes_of names.items))) }
    ensures odd { IfOk result (λ taken. IfErr taken (λ _. HasOdd most 0 (names_of list.now))) }
{
    let mut names: Vec<Vec<u8>> = Vec::new(alloc);
    let mut left = list;
    let mut line = 0u64;
    while !left.is_empty() {
        let (own, rest) = first_line(left);
        line = line.saturating_add(1);
        let name = without_return(own);
        if is_name(name) {
            if let Some(what) = odd_of_name(name, names.len() as u64, most) {
                return Ok(Err(ListFault { line, what }));
            }
            let mut bytes = Vec::new(alloc);
            bytes.extend_from_slice(name)?;
            names.push(bytes)?;
        }
        left = rest;
    }
    Ok(Ok(names))
}

/// The names of the files of a list, in their order: of a playlist those of its map and of its
/// segments, else the lines that are neither empty nor begin with `#`. There may be so many.
pub(crate) fn listed_names(
    alloc: Global,
    list: &[u8],
    most: u64,
) -> Result<Result<Vec<Vec<u8>>, ListFault>, AllocError> {
    if let Some(what) = odd_of_list(list) {
        return Ok(Err(ListFault { line: 1, what }));
    }
    if is_playlist(list) {
        return playlist_names(alloc, list, most);
    }
    text_names(alloc, list, most)
}
