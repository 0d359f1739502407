//! A law of what differs between two presentations: all of it is listed.

ghost use Rattle.mp4_content.specs.format.CompleteLaws.{DifferencesAreAll};

/// Each place at which two presentations say values that are not the same is listed; of the bytes
/// of a payload the first.
pub fn differences_are_all()
    ensures { DifferencesAreAll }
{}
