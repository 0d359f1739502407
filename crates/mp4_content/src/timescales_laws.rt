//! Laws of what is left where it doesn't count in which timescale times are said.

ghost use Rattle.mp4_content.specs.format.TimescalesLaws.{DivisorIsGreatest, EditsHoldNoScaledTime, SameScaledWithoutMore, ScaledFirstIsOther, ScaledIsExact, ScaledIsFixed, ScaledIsValid, ScaledStaysValid, ScaledTwiceIsOther, ScalesInAnyOrder, ScalesMore, ScalesOnce, TimescalesAreTheirs};

/// What Euclid's algorithm finds is the greatest common divisor.
pub fn divisor_is_greatest()
    ensures { DivisorIsGreatest }
{}

/// To leave out words twice, and timescales, is to leave out the words of both once, if the times
/// that count the second time counted the first.
pub fn scales_once()
    ensures { ScalesOnce }
{}

/// To leave out more of what is left of less is to leave out more at once.
pub fn scales_more()
    ensures { ScalesMore }
{}

/// Twice by the same words is once.
pub fn scaled_is_fixed()
    ensures { ScaledIsFixed }
{}

/// The order of two sets of words doesn't matter where both have timescales or neither has, and so
/// of ends and of timing.
pub fn scales_in_any_order()
    ensures { ScalesInAnyOrder }
{}

/// What is the same without some things is the same without these and more.
pub fn same_scaled_without_more()
    ensures { SameScaledWithoutMore }
{}

/// Ends that are left out behind times in lowest terms aren't left out with them.
pub fn scaled_first_is_other()
    ensures { ScaledFirstIsOther }
{}

/// Nor is it so of all sets of words that both have timescales.
pub fn scaled_twice_is_other()
    ensures { ScaledTwiceIsOther }
{}

/// The same is left of two presentations exactly if what is left otherwise differs in nothing but
/// the timescales in which times are said.
pub fn scaled_is_exact()
    ensures { ScaledIsExact }
{}

/// These timescales are those of the tracks, and of the movies, where timing counts.
pub fn timescales_are_theirs()
    ensures { TimescalesAreTheirs }
{}

/// What is left of what is valid is valid exactly if its tracks are not too long and their
/// composition offsets fit.
pub fn scaled_is_valid()
    ensures { ScaledIsValid }
{}

/// What is left of what is valid is valid where edits, ends and origins stay, or timing doesn't
/// count.
pub fn scaled_stays_valid()
    ensures { ScaledStaysValid }
{}

/// Where timescales don't count it is so if ends and origins stay, whether edits do or not.
pub fn edits_hold_no_scaled_time()
    ensures { EditsHoldNoScaledTime }
{}
