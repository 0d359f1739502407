//! What is done over a file, and how the answer is written.
use crate::box_names::Name;
use crate::selection::Selection;

/// How the samples of a track are listed: a line each, the same behind the names of the columns, or
/// an object of JSON each.
#[derive(Clone, Copy)]
pub enum Form {
    Plain,
    Named,
    Json,
}

/// How an answer is written: as lines for people, or as an object of JSON a line.
#[derive(Clone, Copy)]
pub enum Syntax {
    Text,
    Json,
}

/// How boxes are listed: in which syntax, and each with its fields and at most so many of its rows,
/// where these are asked for.
#[derive(Clone, Copy)]
pub struct BoxForm {
    pub syntax: Syntax,
    pub rows: Option<u64>,
}

/// What is done over a file.
#[derive(Clone, Copy)]
pub enum Job<'a> {
    Boxes { syntax: Syntax },
    /// The boxes, each with its fields and at most so many of its rows.
    Fields { syntax: Syntax, rows: u64 },
    Show,
    Samples { track: u32, form: Form },
    Extract { track: u32 },
    Normalise,
    /// The normal form of what is left of what is selected.
    Reduce { selection: Selection },
    /// The text of it.
    Print { selection: Selection },
    Strip { names: &'a [Name] },
}

/// How verdicts are written: in which syntax, and with which byte at the end of each.
#[derive(Clone, Copy)]
pub struct VerdictStyle {
    pub syntax: Syntax,
    pub end: u8,
}
