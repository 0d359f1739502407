//! Laws of the texts of what files say, and of what is left out of them.
ghost use Rattle.mp4_answers.specs.format.TextLaws.{SameIsSameText, TextsTell};
ghost use Rattle.mp4_answers.specs.format.WordLists.{ListsLeaveOut, WordsReadBack};

/// Where the same is left of two presentations, they have the same text.
pub fn same_is_same_text()
    ensures { SameIsSameText }
{}

/// Where two valid presentations have the same text, the same is left of them, or a sample or
/// payload that is left of the one, and one of other bytes that is left of the other, have one
/// SHA-256.
pub fn texts_tell()
    ensures { TextsTell }
{}

/// The words that are printed of what is left out, where anything is, are behind a space a list
/// that leaves the same out.
pub fn words_read_back()
    ensures { WordsReadBack }
{}

/// Each list of words leaves something out.
pub fn lists_leave_out()
    ensures { ListsLeaveOut }
{}
