//! Laws of leaving out more.

ghost use Rattle.mp4_content.specs.format.CoveringLaws.{SameWithoutMore};

/// What is the same without some things is the same without these and more.
pub fn same_without_more()
    ensures { SameWithoutMore }
{}
