//! Laws of commands and of texts: contracts over the definitions alone.
ghost use Rattle.mp4_answers.specs.format.AnswerLaws.{NormalisedSaysBytes};
ghost use Rattle.mp4_answers.specs.format.BoxLaws.{FaultListsNothing, SixLevelsAreAll};
ghost use Rattle.mp4_answers.specs.format.StripLaws.{StripKeepsLength, UnnamedIsCopied, NamedIsFree, HaltedStripsNothing, StripLeavesNone, StripTwiceIsOnce, ForeignSparesFree, ForeignIsFault, AcceptedIsCopied, CopyDenotesTheSame};

/// What `normalise` promises of one file and of a sink that tells its bytes: all of the normal form
/// is put, or a front of it, or nothing, each for its cause.
pub fn normalised_says_bytes()
    ensures { NormalisedSaysBytes }
{}

/// A file has no list of boxes where a header that is looked at is at fault.
pub fn fault_lists_nothing()
    ensures { FaultListsNothing }
{}

/// The list of boxes has those of all levels.
pub fn six_levels_are_all()
    ensures { SixLevelsAreAll }
{}

/// A copy in which boxes are free space is as long as the file.
pub fn strip_keeps_length()
    ensures { StripKeepsLength }
{}

/// Where no named box stands in a file, its copy is the file.
pub fn unnamed_is_copied()
    ensures { UnnamedIsCopied }
{}

/// Where a named box stood, the type is `free` in the copy.
pub fn named_is_free()
    ensures { NamedIsFree }
{}

/// Where a header that is looked at can't be read, no bytes are a copy of the file.
pub fn halted_strips_nothing()
    ensures { HaltedStripsNothing }
{}

/// No named box stands in a copy, where no name means free space.
pub fn strip_leaves_none()
    ensures { StripLeavesNone }
{}

/// A copy of a copy is the copy, where no name means free space.
pub fn strip_twice_is_once()
    ensures { StripTwiceIsOnce }
{}

/// The name of boxes that the profile refuses never means free space.
pub fn foreign_spares_free()
    ensures { ForeignSparesFree }
{}

/// A box that the profile refuses where it stands is a fault of the file.
pub fn foreign_is_fault()
    ensures { ForeignIsFault }
{}

/// A file that denotes something is copied byte for byte where foreign boxes are named.
pub fn accepted_is_copied()
    ensures { AcceptedIsCopied }
{}

/// A copy in which boxes of the file itself that the profile passes over are free space denotes
/// what the file denotes, where no byte of a sample is one of a type that changes.
pub fn copy_denotes_the_same()
    ensures { CopyDenotesTheSame }
{}
