//! Laws of what is left of presentations.

ghost use Rattle.mp4_content.specs.format.Agreeing.{ReduceIsExact};
ghost use Rattle.mp4_content.specs.format.ReducedLaws.{EditsMayHoldTime, EndsMayHoldTime, NothingReduces, OriginsMayHoldOffsets, ReduceIsFixed, ReducedFaultIsOne, ReducedFaultRefuses, ReducedIsValid, ReducedStaysValid, ReducesInAnyOrder, ReducesOnce};
ghost use Rattle.mp4_content.specs.format.Words.{EachHas, SameWords};

/// A word is among those of which something is so exactly where it is so of it.
pub fn each_has()
    ensures { EachHas }
{}

/// Where the same words are left out, the same is left out.
pub fn same_words()
    ensures { SameWords }
{}

/// Leaving out nothing changes nothing.
pub fn nothing_reduces()
    ensures { NothingReduces }
{}

/// To reduce twice is to reduce once, by the words of both.
pub fn reduces_once()
    ensures { ReducesOnce }
{}

/// The order in which two words are left out doesn't matter.
pub fn reduces_in_any_order()
    ensures { ReducesInAnyOrder }
{}

/// To reduce twice by the same words is to reduce once.
pub fn reduce_is_fixed()
    ensures { ReduceIsFixed }
{}

/// What is left of two presentations is the same exactly where they agree, field by field.
pub fn reduce_is_exact()
    ensures { ReduceIsExact }
{}

/// What is left of what is valid is valid exactly if its tracks are not too long and their
/// composition offsets fit.
pub fn reduced_is_valid()
    ensures { ReducedIsValid }
{}

/// What is left of what is valid is valid where edits, ends and origins stay, or timing doesn't
/// count.
pub fn reduced_stays_valid()
    ensures { ReducedStaysValid }
{}

/// Without its edits what is valid may be too long, whatever else is left out, before times are
/// divided (`edits_hold_no_time` of [`remaining_laws`](crate::remaining_laws)).
pub fn edits_may_hold_time()
    ensures { EditsMayHoldTime }
{}

/// Without their ends tracks may last longer, and what is valid may be too long then.
pub fn ends_may_hold_time()
    ensures { EndsMayHoldTime }
{}

/// Without the origins of its tracks the offsets of what is valid may not fit.
pub fn origins_may_hold_offsets()
    ensures { OriginsMayHoldOffsets }
{}

/// Where a fault names a track that is too long, or whose offsets don't fit, what is left has no
/// normal form.
pub fn reduced_fault_refuses()
    ensures { ReducedFaultRefuses }
{}

/// Where what is left has no normal form, exactly one such fault stands: of the first such track.
pub fn reduced_fault_is_one()
    ensures { ReducedFaultIsOne }
{}
