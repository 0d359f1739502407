//! Laws of what remains of presentations where something of them doesn't count.

ghost use Rattle.mp4_content.specs.format.RemainingLaws.{EditsHoldNoTime, NothingGoes, OnlyTimescalesDiffer, RemainingIsExact, RemainingIsFixed, RemainingIsScaled, RemainingIsValid, RemainingMore, RemainingStaysValid, SameRemainsWithoutMore};

/// What remains is what is left, in lowest terms where timescales don't count.
pub fn remaining_is_scaled()
    ensures { RemainingIsScaled }
{}

/// Where timescales count it is what is left without the other words.
pub fn only_timescales_differ()
    ensures { OnlyTimescalesDiffer }
{}

/// Where nothing is left out, all remains.
pub fn nothing_goes()
    ensures { NothingGoes }
{}

/// Twice by the same words is once.
pub fn remaining_is_fixed()
    ensures { RemainingIsFixed }
{}

/// To leave out more of what remains of less is to leave out more at once.
pub fn remaining_more()
    ensures { RemainingMore }
{}

/// What is the same without some things is the same without these and more.
pub fn same_remains_without_more()
    ensures { SameRemainsWithoutMore }
{}

/// The same remains of two presentations exactly if the same is left of them, or, where timescales
/// don't count, if what is left differs in nothing but the timescales in which times are said.
pub fn remaining_is_exact()
    ensures { RemainingIsExact }
{}

/// What remains of what is valid is valid exactly if its tracks are not too long and their
/// composition offsets fit.
pub fn remaining_is_valid()
    ensures { RemainingIsValid }
{}

/// What remains of what is valid is valid where edits, ends and origins stay, or timing doesn't
/// count.
pub fn remaining_stays_valid()
    ensures { RemainingStaysValid }
{}

/// Where timescales don't count it is so if ends and origins stay, whether edits do or not.
pub fn edits_hold_no_time()
    ensures { EditsHoldNoTime }
{}
