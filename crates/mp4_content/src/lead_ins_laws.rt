//! Laws of what is left where it doesn't count how tracks begin, but how long each of them waits.

ghost use Rattle.mp4_content.specs.format.LeadInsLaws.{DelayIsFromFirst, EditsChangeAgain, EditsHideBeginnings, KeepsMore, KeepsMoreWithoutTimes, KeptIsFixed, KeptIsTold, KeptIsValid, KeptWithoutTimes, LeftIsTold, OriginsHideBeginnings, SameKeptWithoutBeginnings, SameKeptWithoutMore, SecondsCountNot, StepCountsNot, TimingChangesAgain, TimingHidesBeginnings, ToldIsValid, WaitedIsExact, WaitedIsFixed};

/// How long a track waits is how much later it begins than the first.
pub fn delay_is_from_first()
    ensures { DelayIsFromFirst }
{}

/// Twice is once.
pub fn waited_is_fixed()
    ensures { WaitedIsFixed }
{}

/// The same is left of two presentations exactly if they are the same apart from how their tracks
/// begin and where edits cut these off, and each track waits as many microseconds. Where edits say
/// more than when tracks begin they stay, and it doesn't matter how long tracks wait.
pub fn waited_is_exact()
    ensures { WaitedIsExact }
{}

/// If all begin by one step later, the same is left.
pub fn step_counts_not()
    ensures { StepCountsNot }
{}

/// So it is if all begin some seconds later.
pub fn seconds_count_not()
    ensures { SecondsCountNot }
{}

/// To leave out more of what is left of less is to leave out more at once, if what is left of less
/// says how tracks begin.
pub fn keeps_more()
    ensures { KeepsMore }
{}

/// What is the same without some things is the same without these and more.
pub fn same_kept_without_more()
    ensures { SameKeptWithoutMore }
{}

/// It is so too if how tracks begin is left out with more, where what is left says it.
pub fn same_kept_without_beginnings()
    ensures { SameKeptWithoutBeginnings }
{}

/// Twice by the same words is once, where they leave what says how tracks begin.
pub fn kept_is_fixed()
    ensures { KeptIsFixed }
{}

/// Two presentations that are the same without origins wait for different times.
pub fn origins_hide_beginnings()
    ensures { OriginsHideBeginnings }
{}

/// Two that are the same without timing do.
pub fn timing_hides_beginnings()
    ensures { TimingHidesBeginnings }
{}

/// Of two that are the same without edits the edits of one say no more than when its track begins.
pub fn edits_hide_beginnings()
    ensures { EditsHideBeginnings }
{}

/// Without timing what is left of how tracks begin waits longer the second time.
pub fn timing_changes_again()
    ensures { TimingChangesAgain }
{}

/// Without edits what is left of edits that say more says no more the second time.
pub fn edits_change_again()
    ensures { EditsChangeAgain }
{}

/// What is left of what is valid is valid exactly if its tracks are not too long, their offsets
/// fit, and the `moov` isn't too long.
pub fn kept_is_valid()
    ensures { KeptIsValid }
{}

/// Where neither edits nor timing count either, it doesn't matter whether it counts how tracks
/// begin.
pub fn kept_without_times()
    ensures { KeptWithoutTimes }
{}

/// So to leave out these and more of what is left of less is to leave out all at once.
pub fn keeps_more_without_times()
    ensures { KeepsMoreWithoutTimes }
{}

/// What is left is what is left without origins of a presentation whose edits say how long tracks
/// wait.
pub fn kept_is_told()
    ensures { KeptIsTold }
{}

/// So what is left by words is what remains of a presentation that may be told so.
pub fn left_is_told()
    ensures { LeftIsTold }
{}

/// What is valid stays so as it is told how long its tracks wait, exactly if it is within the
/// limits then.
pub fn told_is_valid()
    ensures { ToldIsValid }
{}
