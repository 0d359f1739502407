//! Lists of attributes, as tags of playlists have them (RFC 8216, 4.2).
ghost use Rattle.std.specs.Prelude.{◌<◌, length, IfSome};

use mp4_answers::text::cutting::cut;

/// An attribute: its name, and its value; of a quoted string what stands between the marks.
#[derive(Clone, Copy)]
pub(crate) struct Attribute<'a> {
    name: &'a [u8],
    pub(crate) value: &'a [u8],
    pub(crate) is_quoted: bool,
}

/// What is said of a list that is none.
pub(crate) const NO_ATTRIBUTES: &str = "what follows the tag is no list of attributes";

// Whether a byte may stand in the name of an attribute.
fn is_of_name(byte: u8) -> bool {
    matches!(byte, b'A'..=b'Z' | b'0'..=b'9' | b'-')
}

// Whether a byte may stand in a value that is no quoted string.
fn is_of_value(byte: u8) -> bool {
    byte > b' ' && byte != 0x7f && byte != b'"'
}

// The attribute at the front of a list, and what stands behind the comma at its end, if there is
// one.
fn first_attribute(list: &[u8]) -> Option<(Attribute<'_>, Option<&[u8]>)>
    ensures { IfSome result (λ found. IfSome found.1
        (λ rest. length rest.now < length list.now)) }
{
    let (name, rest) = cut(list, b'=');
    let rest = rest?;
    if name.is_empty() || !name.iter().all(|byte| is_of_name(*byte)) {
        return None;
    }
    let Some((b'"', text)) = rest.split_first() else {
        let (value, rest) = cut(rest, b',');
        let is_whole = !value.is_empty() && value.iter().all(|byte| is_of_value(*byte));
        let is_quoted = false;
        let own = Attribute {
            name,
            value,
            is_quoted,
        };
        return is_whole.then_some((own, rest));
    };
    let (value, behind) = cut(text, b'"');
    let is_quoted = true;
    let own = Attribute {
        name,
        value,
        is_quoted,
    };
    match behind?.split_first() {
        None => Some((own, None)),
        Some((b',', rest)) => Some((own, Some(rest))),
        Some(_) => None,
    }
}

/// The attribute of this name, where the list has one; an error where it is no list of attributes,
/// or has two of this name.
pub(crate) fn value_of<'a>(
    list: &'a [u8],
    name: &[u8],
) -> Result<Option<Attribute<'a>>, &'static str> {
    let mut found = None;
    let mut left = list;
    loop {
        let (own, rest) = first_attribute(left).ok_or(NO_ATTRIBUTES)?;
        if own.name == name {
            if found.is_some() {
                return Err("an attribute is there twice");
            }
            found = Some(own);
        }
        match rest {
            Some(rest) => left = rest,
            None => return Ok(found),
        }
    }
}
