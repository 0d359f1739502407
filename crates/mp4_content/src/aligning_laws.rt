//! Laws of how the samples of two tracks lie beside each other.
ghost use Rattle.mp4_content.specs.format.AlignmentLaws.{AlignmentIsOne, FrontAndEndFit, NothingBesideItself, NothingIsSame};

/// Nothing is said of two tracks exactly if what is left of their samples is the same.
pub fn nothing_is_same()
    ensures { NothingIsSame }
{}

/// What is the same in front and at the end doesn't overlap in either track.
pub fn front_and_end_fit()
    ensures { FrontAndEndFit }
{}

/// There is one answer: fronts and ends are the longest.
pub fn alignment_is_one()
    ensures { AlignmentIsOne }
{}

/// Nothing is said of tracks beside themselves.
pub fn nothing_beside_itself()
    ensures { NothingBesideItself }
{}
