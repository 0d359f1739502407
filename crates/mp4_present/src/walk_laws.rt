//! Laws of the samples that a walk gives.

ghost use Rattle.mp4_present.specs.words.WalkLaws.{SamplesAreNumbered, WhatComesIsFound};

/// Each sample of a track has the number of its place among them, from 0 on, through its tables and
/// all its `traf`s.
pub fn samples_are_numbered()
    ensures { SamplesAreNumbered }
{}

/// What a walk has still to come is a function of the file that its movie was opened from, of the
/// movie, and of the walk.
pub fn what_comes_is_found()
    ensures { WhatComesIsFound }
{}
