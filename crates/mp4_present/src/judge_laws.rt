//! Laws of what a file is judged to be, and of what was opened: contracts that functions without a
//! body meet.
ghost use Rattle.mp4_present.specs.format.JudgeLaws.{FirstFaultStands, JudgedDenotes};
ghost use Rattle.mp4_present.specs.words.OpeningLaws.{DenotedOpens, OpenedDenotes, OpenedKeeps};

/// A file denotes the presentation that it is judged to be.
pub fn judged_denotes()
    ensures { JudgedDenotes }
{}

/// The first fault of a file stands in it.
pub fn first_fault_stands()
    ensures { FirstFaultStands }
{}

/// A file that was opened denotes a presentation, and the movie shows that one.
pub fn opened_denotes()
    ensures { OpenedDenotes }
{}

/// A movie keeps the length of its file, its one `moov`, and how long the longest `moof` is.
pub fn opened_keeps()
    ensures { OpenedKeeps }
{}

/// A file that denotes a presentation is opened, unless memory lacks or a read failed.
pub fn denoted_opens()
    ensures { DenotedOpens }
{}
