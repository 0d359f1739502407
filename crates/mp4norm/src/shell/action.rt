//! What the words behind the program's name can ask for.
use mp4_answers::box_names::Name;
use mp4_answers::commands::compare::Listing;
use mp4_answers::jobs::{Job, VerdictStyle};
use mp4_answers::text::sum_lines::SumOf;
use mp4_content::Without;
use std::alloc::AllocError;

/// What is read: standard input, the file of this name, or those that a list names, one after the
/// other; of a list the word, with the `@` before it, and how many files it may name.
#[derive(Clone, Copy)]
pub enum Input<'a> {
    Standard,
    File { name: &'a str },
    List { word: &'a str, most: u64 },
}

impl<'a> Input<'a> {
    /// The word that names it.
    pub(crate) fn name(&self) -> &'a str {
        match self {
            Input::Standard => "-",
            Input::File { name } => name,
            Input::List { word, .. } => word,
        }
    }
}

/// Where the answer goes: to standard output, to a new file of this name, or to one that takes the
/// place of what is there.
#[derive(Clone, Copy)]
pub enum Target<'a> {
    Standard,
    New { name: &'a str },
    Replaced { name: &'a str },
}

impl<'a> Target<'a> {
    /// The word that names it.
    pub(crate) fn name(&self) -> &'a str {
        match self {
            Target::Standard => "-",
            Target::New { name } | Target::Replaced { name } => name,
        }
    }
}

/// What is said on standard error beside the answer: what is wrong, in more words; no more than a
/// line of it, also on a terminal; and how far the job has come.
#[derive(Clone, Copy)]
pub struct Telling {
    pub explain: bool,
    pub brief: bool,
    pub progress: bool,
}

impl Telling {
    /// Nothing but the line of a refusal or failure, and on a terminal the cause of a failure.
    pub const NOTHING: Telling = Telling {
        explain: false,
        brief: false,
        progress: false,
    };
}

/// Whether boxes that the profile refuses are read as free space, and whether that may be so where
/// something is lost that a player needs.
#[derive(Clone, Copy)]
pub struct Freeing {
    pub foreign: bool,
    pub lossy: bool,
}

impl Freeing {
    /// All boxes are read as they are.
    pub const NOTHING: Freeing = Freeing {
        foreign: false,
        lossy: false,
    };
}

/// What a job reads, where its answer goes, how many bytes that may have, which boxes are free
/// space, and what is said beside it.
#[derive(Clone, Copy)]
pub struct Order<'a> {
    pub input: Input<'a>,
    pub target: Target<'a>,
    pub most: Option<u64>,
    pub freeing: Freeing,
    pub telling: Telling,
}

/// How files are checked against their sums: whether those that have theirs are passed over in
/// silence, whether all are counted in a line, how many files a list may name, which boxes are free
/// space, and what is said beside the verdicts.
#[derive(Clone, Copy)]
pub struct SumCheck {
    pub quiet: bool,
    pub summary: bool,
    pub most_parts: u64,
    pub freeing: Freeing,
    pub telling: Telling,
}

/// What is found of each of some files: whether it is accepted, or its sum, or that of its track
/// with one ID alone (8.3.2); then a line that says of what may stand before all of them, and sums
/// of the bytes of those that have none behind.
#[derive(Clone, Copy)]
pub enum Finding {
    Verdict,
    Sum {
        what: SumOf,
        track: Option<u32>,
        header: bool,
        bytes: bool,
    },
}

/// Which files are compared, of each which track, where that is one alone, by its ID (8.3.2);
/// without what, with which boxes as free space, and what is told of it.
#[derive(Clone, Copy)]
pub struct ComparedInputs<'a> {
    pub left: Input<'a>,
    pub right: Input<'a>,
    pub first: Option<u32>,
    pub second: Option<u32>,
    pub leaving: Without,
    pub listing: Listing,
    pub freeing: Freeing,
    pub telling: Telling,
}

/// What the words ask for: a job, a copy without the boxes of some names, a comparison of two
/// files, a verdict on each of some files and of those that a list names, or the sum of each, in a
/// line that is ended by a line feed or a zero byte; whether files have the sums of a list; or
/// which of some files, and of those that a list names, it has not.
#[derive(Drop)]
pub enum Action<'a> {
    Check {
        files: Vec<Input<'a>>,
        list: Option<Input<'a>>,
        finding: Finding,
        style: VerdictStyle,
        freeing: Freeing,
        telling: Telling,
    },
    CheckSums {
        list: Input<'a>,
        how: SumCheck,
    },
    NewNames {
        list: Input<'a>,
        files: Vec<Input<'a>>,
        names: Option<Input<'a>>,
        end: u8,
        telling: Telling,
    },
    Compare(ComparedInputs<'a>),
    Strip {
        names: Vec<Name>,
        order: Order<'a>,
    },
    Run {
        job: Job<'a>,
        order: Order<'a>,
    },
}

/// Why there is nothing to do: a text was asked for, the words are wrong, or there is no memory. Of
/// wrong words it is said what is wrong, with the words as they are, or as people are shown them.
#[derive(Drop)]
pub enum CommandFault {
    Help(String),
    Usage(String),
    Shown(String),
    Memory,
}

impl From<AllocError> for CommandFault {
    fn from(_error: AllocError) -> CommandFault {
        CommandFault::Memory
    }
}
