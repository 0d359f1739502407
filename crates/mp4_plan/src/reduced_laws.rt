//! Laws of the normal form of what is left of presentations.

ghost use Rattle.mp4_plan.specs.format.ReducedNormal.{ReducedNormalDenotes, ReducedNormalIsExact, ReducedNormalIsFixed};

/// The normal form of what is left denotes it, where it is in the limits.
pub fn reduced_normal_denotes()
    ensures { ReducedNormalDenotes }
{}

/// To normalise the result once more gives the same bytes, by the same words or by none.
pub fn reduced_normal_is_fixed()
    ensures { ReducedNormalIsFixed }
{}

/// Normal forms of what is left are equal exactly if what is left is.
pub fn reduced_normal_is_exact()
    ensures { ReducedNormalIsExact }
{}
