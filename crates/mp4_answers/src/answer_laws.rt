//! Laws of what the commands answer, taken together.
ghost use Rattle.mp4_answers.specs.format.OneTextLaws.{StripIsOne, ListOfBoxesIsOne, JudgedTextsAreOne};
ghost use Rattle.mp4_answers.specs.format.Steps.{StepsByTracks};
ghost use Rattle.mp4_answers.specs.format.SameAnswers.{AcceptedHasNoFault, FaultIsJudged, LeftFaultIsOne, LeftFaultRefuses, NormalFormDenotesTheSame, NormalFormHasTheSameData, NormalFormListsTheSame, NormalFormListsTheSameSamples, NormalFormShowsTheSame, OneTrackIsWhole, SameIsSameBytes, SameStaysSame, ShownIsValid, ToldIsJudged, UntoldIsJudged};

/// `compare --without` says that two files are the same exactly if `normalise --without` of both
/// gives the same bytes, where both are not too long.
pub fn same_is_same_bytes()
    ensures { SameIsSameBytes }
{}

/// What is told the same without some words is told the same without more, if lead-ins are not
/// among the more alone, or what is left says how tracks begin.
pub fn same_stays_same()
    ensures { SameStaysSame }
{}

/// A normal form denotes what its file denotes.
pub fn normal_form_denotes_the_same()
    ensures { NormalFormDenotesTheSame }
{}

/// `show` answers the same of a file and of its normal form.
pub fn normal_form_shows_the_same()
    ensures { NormalFormShowsTheSame }
{}

/// And so does `samples`, but for objects of JSON, which say where samples lie.
pub fn normal_form_lists_the_same()
    ensures { NormalFormListsTheSame }
{}

/// Objects of JSON list the same samples, each where it lies.
pub fn normal_form_lists_the_same_samples()
    ensures { NormalFormListsTheSameSamples }
{}

/// And so does `extract`.
pub fn normal_form_has_the_same_data()
    ensures { NormalFormHasTheSameData }
{}

/// No fault stands in a file that has a normal form.
pub fn accepted_has_no_fault()
    ensures { AcceptedHasNoFault }
{}

/// A file of which all is looked at, and that isn't told how long its tracks wait, is judged as it
/// is.
pub fn untold_is_judged()
    ensures { UntoldIsJudged }
{}

/// A fault of a file is its fault too as it is told, and of each of its tracks.
pub fn fault_is_judged()
    ensures { FaultIsJudged }
{}

/// What is looked at of a file that has none, and is told so, is what it is judged to be then, if
/// that is within the limits.
pub fn told_is_judged()
    ensures { ToldIsJudged }
{}

/// What is looked at of a file is valid: all of it, or one track.
pub fn shown_is_valid()
    ensures { ShownIsValid }
{}

/// What has one track is the same with that alone.
pub fn one_track_is_whole()
    ensures { OneTrackIsWhole }
{}

/// Where a fault is named of what is left of a file, that has no normal form.
pub fn left_fault_refuses()
    ensures { LeftFaultRefuses }
{}

/// Where it has none, and told how long its tracks wait the file is within the limits, one such
/// fault is named, and no other.
pub fn left_fault_is_one()
    ensures { LeftFaultIsOne }
{}

/// What `normalise` takes is also within a bound by the number of tracks.
pub fn steps_by_tracks()
    ensures { StepsByTracks }
{}

/// A file has one copy in which the boxes of some names are free space.
pub fn strip_is_one()
    ensures { StripIsOne }
{}

/// It has one list of its boxes.
pub fn list_of_boxes_is_one()
    ensures { ListOfBoxesIsOne }
{}

/// It has one normal form, one of what is left of it, one line that shows it, one listing and the
/// bytes of a track with an ID, and one text of what is left.
pub fn judged_texts_are_one()
    ensures { JudgedTextsAreOne }
{}
