//! References in playlists, and the files that they name.

use percent_encoding::percent_decode;
use std::alloc::{AllocError, Global};
use std::str;
use url::{ParseError, Url};

/// The folder of a playlist, as a URL.
const FOLDER: &str = "playlist://here/folder/";

/// What is wrong with a reference that the URL Standard doesn't take.
const ODD: &str = "the URI can't be read";

// A reference without what the URL Standard (4.4) takes away before it reads it: control characters
// and spaces at its ends, then tabs and line ends.
fn cleaned(alloc: Global, text: &str) -> Result<String, AllocError> {
    let mut rest = String::new(alloc);
    for character in text.trim_matches(|end: char| end <= ' ').chars() {
        if !matches!(character, '\t' | '\n' | '\r') {
            rest.push(character)?;
        }
    }
    Ok(rest)
}

// Whether a percent sign stands before other than two hexadecimal digits (RFC 3986, 2.1).
fn has_odd_percent(text: &[u8]) -> bool {
    for at in 0..text.len() {
        if text[at] == b'%' {
            match &text[at + 1..] {
                [high, low, ..] if high.is_ascii_hexdigit() && low.is_ascii_hexdigit() => {}
                _ => return true,
            }
        }
    }
    false
}

// What is wrong with a reference as it stands there.
fn odd_of_text(text: &str) -> Option<&'static str> {
    if text.is_empty() {
        return Some("the URI is empty");
    }
    if text.starts_with('/') {
        return Some("the URI begins with a slash");
    }
    has_odd_percent(text.as_bytes()).then_some(
        "the URI has a percent sign without two digits of a byte",
    )
}

// What is wrong with a name, as the file would be opened by it.
fn odd_of_name(name: &[u8]) -> Option<&'static str> {
    if name.is_empty() {
        return Some("the URI names no file");
    }
    if name[0] == b'/' {
        return Some("the URI names a file by a whole path");
    }
    if name.contains(&0) {
        return Some("the URI names a file with a zero byte");
    }
    let mut parts = name.split(|byte| *byte == b'/');
    parts
        .any(|part| part == b"..".as_slice())
        .then_some("the URI names a file above its folder, by ..")
}

// The bytes that a text spells, in which `%XX` is the byte with these digits.
fn decoded(alloc: Global, text: &str) -> Result<Vec<u8>, AllocError> {
    let mut bytes = Vec::new(alloc);
    percent_decode(text.as_bytes()).append_to(&mut bytes)?;
    Ok(bytes)
}

// The path of a reference from the folder of the playlist on (URL Standard, 4.4), or what is wrong
// with the reference.
fn path_in_folder(alloc: Global, text: &str) -> Result<Result<String, &'static str>, AllocError> {
    match Url::parse(alloc, text) {
        Ok(_) => return Ok(Err("the URI has a scheme")),
        Err(ParseError::OutOfMemory) => return Err(AllocError),
        Err(ParseError::RelativeUrlWithoutBase) => {}
        Err(_) => return Ok(Err(ODD)),
    }
    let joined = match Url::parse(alloc, FOLDER).and_then(|folder| folder.join(text)) {
        Ok(joined) => joined,
        Err(ParseError::OutOfMemory) => return Err(AllocError),
        Err(_) => return Ok(Err(ODD)),
    };
    if joined.query().is_some() || joined.fragment().is_some() {
        return Ok(Err("the URI has a query or a fragment"));
    }
    match joined.as_str().strip_prefix(FOLDER) {
        Some(path) => Ok(Ok(String::from_str(alloc, path)?)),
        None => Ok(Err("the URI leaves the folder of the playlist")),
    }
}

/// The name of the file that a reference names, beside the playlist; or what is wrong with it. The
/// name is judged as the file would be opened by it.
pub(crate) fn referred_name(
    alloc: Global,
    reference: &[u8],
) -> Result<Result<Vec<u8>, &'static str>, AllocError> {
    let Ok(text) = str::from_utf8(reference) else {
        return Ok(Err("the URI is not UTF-8"));
    };
    let text = cleaned(alloc, text)?;
    let text = text.as_str();
    if let Some(odd) = odd_of_text(text) {
        return Ok(Err(odd));
    }
    // What leaves the folder by `..` is no better where the path would come back.
    let spelled = decoded(alloc, text)?;
    if let Some(odd) = odd_of_name(spelled.as_slice()) {
        return Ok(Err(odd));
    }
    let path = match path_in_folder(alloc, text)? {
        Ok(path) => path,
        Err(odd) => return Ok(Err(odd)),
    };
    let name = decoded(alloc, path.as_str())?;
    match odd_of_name(name.as_slice()) {
        Some(odd) => Ok(Err(odd)),
        None => Ok(Ok(name)),
    }
}
