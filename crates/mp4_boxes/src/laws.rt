//! Laws of the definitions: contracts that functions without a body meet.
ghost use Rattle.mp4_boxes.specs.format.FirstFaultLaws.{JudgedAreHeld, JudgedFaultStands};

/// No fault of a container's list of boxes is named exactly where it holds boxes under its rule,
/// and then those are they.
pub fn judged_are_held()
    ensures { JudgedAreHeld }
{}

/// The fault of a container's list of boxes that is named stands there.
pub fn judged_fault_stands()
    ensures { JudgedFaultStands }
{}
