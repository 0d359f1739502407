//! Laws of what differs between two presentations.

ghost use Rattle.mp4_content.specs.format.ComparisonLaws.{DifferencesAreTheirs, EachDifferenceIsOne, NoDifferenceIsSame, SameValueIsEqual, SwappedFilesSwapValues};

/// Two values count as the same exactly if they are equal.
pub fn same_value_is_equal()
    ensures { SameValueIsEqual }
{}

/// Each difference that is listed names two values that are not the same, whatever the two
/// presentations are.
pub fn each_difference_is_one()
    ensures { EachDifferenceIsOne }
{}

/// Each difference that is listed names the value that the first presentation has at its place, and
/// the one that the second has there, whatever the two presentations are.
pub fn differences_are_theirs()
    ensures { DifferencesAreTheirs }
{}

/// No difference is listed between what remains of two valid presentations exactly if the same
/// remains of both.
pub fn no_difference_is_same()
    ensures { NoDifferenceIsSame }
{}

/// With the two presentations swapped the same differences are listed in the same order, each with
/// its two values swapped.
pub fn swapped_files_swap_values()
    ensures { SwappedFilesSwapValues }
{}
