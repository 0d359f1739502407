//! HLS media playlists (RFC 8216): which files they name, one after the other.
use crate::shell::attributes::value_of;
use crate::shell::lists::{ListFault, TOO_MANY, first_line, without_return};
use crate::shell::references::referred_name;
use mp4_answers::text::cutting::cut;
use std::alloc::{AllocError, Global};

/// Tags of which the files don't make one file, and why.
const REFUSED: [(&[u8], &str); 6] = [
    (
        b"#EXT-X-BYTERANGE",
        "a part of a file can't be read as a file",
    ),
    (b"#EXT-X-STREAM-INF", "it names playlists, and no media"),
    (b"#EXT-X-PART", "it has partial segments"),
    (b"#EXT-X-SKIP", "segments are skipped"),
    (b"#EXT-X-GAP", "a segment is missing"),
    (
        b"#EXT-X-I-FRAMES-ONLY",
        "a part of a file can't be read as a file",
    ),
];

/// The tag that a playlist begins with.
const FIRST: &[u8] = b"#EXTM3U";

const MAP: &[u8] = b"#EXT-X-MAP";

const KEY: &[u8] = b"#EXT-X-KEY";

// What has been read of a playlist: the names so far, the first of the map; and how many there may
// be.
#[derive(Drop)]
struct Playlist {
    names: Vec<Vec<u8>>,
    has_map: bool,
    most: u64,
}

// What is wrong with the attributes of a key: that segments are encrypted, or that they can't be
// read.
fn odd_of_key(attributes: &[u8]) -> Option<&'static str> {
    match value_of(attributes, b"METHOD") {
        Err(odd) => Some(odd),
        Ok(Some(method)) if method.value == b"NONE".as_slice() && !method.is_quoted => None,
        Ok(_) => Some("segments are encrypted"),
    }
}

// The reference to a file that holds what comes before the segments, in the attributes of a map.
fn reference_of_map(attributes: &[u8]) -> Result<&[u8], &'static str> {
    if value_of(attributes, b"BYTERANGE")?.is_some() {
        return Err("a part of a file can't be read as a file");
    }
    match value_of(attributes, b"URI")? {
        Some(uri) if uri.is_quoted => Ok(uri.value),
        _ => Err("the map has no URI"),
    }
}

impl Playlist {
    // Adds the file that a reference names.
    fn add(&mut self, alloc: Global, uri: &[u8]) -> Result<Option<&'static str>, AllocError> {
        match referred_name(alloc, uri)? {
            Err(odd) => Ok(Some(odd)),
            Ok(_) if self.names.len() as u64 >= self.most => Ok(Some(TOO_MANY)),
            Ok(name) => {
                self.names.push(name)?;
                Ok(None)
            }
        }
    }

    // Takes the attributes of a map.
    fn map(
        &mut self,
        alloc: Global,
        attributes: &[u8],
    ) -> Result<Option<&'static str>, AllocError> {
        if self.has_map {
            return Ok(Some("a second map"));
        }
        match reference_of_map(attributes) {
            Err(odd) => Ok(Some(odd)),
            Ok(uri) => {
                self.has_map = true;
                self.add(alloc, uri)
            }
        }
    }

    // Takes a line that begins with a number sign: a tag that is known, or what is passed over.
    fn tag(&mut self, alloc: Global, line: &[u8]) -> Result<Option<&'static str>, AllocError> {
        let (name, attributes) = cut(line, b':');
        let attributes = attributes.unwrap_or(&[]);
        if name == MAP {
            return self.map(alloc, attributes);
        }
        if name == KEY {
            return Ok(odd_of_key(attributes));
        }
        for (tag, why) in &REFUSED {
            if name == *tag {
                return Ok(Some(why));
            }
        }
        Ok(None)
    }

    // Takes a line, and says what is wrong with it.
    fn take(&mut self, alloc: Global, line: &[u8]) -> Result<Option<&'static str>, AllocError> {
        match line.first() {
            None => Ok(None),
            Some(b'#') => self.tag(alloc, line),
            Some(_) if !self.has_map => { Ok(Some("no EXT-X-MAP comes before the first segment")) }
            Some(_) => self.add(alloc, line),
        }
    }
}

/// Whether a list is a playlist: its first tag, whole, is that of playlists.
pub(crate) fn is_playlist(list: &[u8]) -> bool {
    match list.strip_prefix(FIRST) {
        Some(rest) => rest
            .first()
            .is_none_or(|byte| matches!(*byte, b'\r' | b'\n' | b' ' | b'\t')),
        None => false,
    }
}

/// The names of the files of a playlist, of which there may be so many: that of its map, then those
/// of its segments; or which line makes that its files are not one file.
pub(crate) fn playlist_names(
    alloc: Global,
    list: &[u8],
    most: u64,
) -> Result<Result<Vec<Vec<u8>>, ListFault>, AllocError> {
    let names = Vec::new(alloc);
    let mut playlist = Playlist {
        names,
        has_map: false,
        most,
    };
    let mut left = list;
    let mut line = 0u64;
    while !left.is_empty() {
        let (own, rest) = first_line(left);
        line = line.saturating_add(1);
        if let Some(what) = playlist.take(alloc, without_return(own))? {
            return Ok(Err(ListFault { line, what }));
        }
        left = rest;
    }
    if !playlist.has_map {
        let what = "it has no EXT-X-MAP";
        return Ok(Err(ListFault { line, what }));
    }
    Ok(Ok(playlist.names))
}
