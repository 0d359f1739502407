//! Which words may leave out all of some differences.
ghost use Rattle.mp4_content.specs.format.CoveringLaws.{Covers};

use crate::text::tally::{DifferenceKind, count_of_kind};
use crate::without_words::leaving_both;
use mp4_content::{Difference, Entries, Field, Part, Subject, Value, Without, Word};
use mp4_present::TrackInfo;

// Whether there is a difference of a kind.
fn has(kind: DifferenceKind, all: &[Difference]) -> bool {
    count_of_kind(kind, all) > 0
}

// Whether a difference is of a handler, which may be of its name.
fn is_label(difference: &Difference) -> bool {
    matches!(difference.field, Field::Entry(Entries::Handler, _, _))
}

// Whether a difference is of the bytes of a sample description, or of how many they are: of names,
// of bit rates, or of neither.
fn is_detail(difference: &Difference) -> bool {
    match difference.field {
        Field::Entry(Entries::Descriptions, _, Part::Byte(_, _)) => true,
        Field::Entry(Entries::Descriptions, _, Part::Length) => true,
        _ => false,
    }
}

// Whether a difference is of what a player does with a track beside others.
fn is_role(difference: &Difference) -> bool {
    match (difference.field, difference.subject) {
        (Field::Flags, Subject::Track(_)) => true,
        (Field::Layer | Field::AlternateGroup, _) => true,
        _ => false,
    }
}

// Whether a difference is of the ID of a track.
fn is_id(difference: &Difference) -> bool {
    matches!(difference.field, Field::Id)
}

// By how much the composition offset of a sample differs.
#[derive(Clone, Copy)]
struct Shift {
    track: u64,
    sample: u32,
    by: i128,
}

// How many samples a track has; 0 for one that isn't there.
fn samples_of(tracks: &[TrackInfo], track: u64) -> u32 {
    match track.checked_sub(1) {
        Some(place) if place < tracks.len() as u64 => tracks[place as usize].samples,
        _ => 0,
    }
}

// Whether a sample is the first or the last of its track.
fn is_at_end(tracks: &[TrackInfo], track: u64, sample: u32) -> bool {
    sample == 1 || sample == samples_of(tracks, track)
}

// A value as a number; 0 for one that is none.
fn number_of(value: Value) -> i128 {
    match value {
        Value::Number(number) => i128::from(number),
        Value::Signed(number) => i128::from(number),
        _ => 0,
    }
}

// Whether all samples of a track are moved, or none, as far as this one.
fn is_through(tracks: &[TrackInfo], last: Option<Shift>) -> bool {
    match last {
        Some(shift) => shift.sample == samples_of(tracks, shift.track),
        None => true,
    }
}

// Whether a shift goes on in the next sample, or begins in the first one of another track.
fn goes_on(tracks: &[TrackInfo], last: Option<Shift>, next: Shift) -> bool {
    match last {
        Some(shift) if shift.track == next.track => {
            shift.by == next.by && u64::from(shift.sample) + 1 == u64::from(next.sample)
        }
        _ => next.sample == 1 && is_through(tracks, last),
    }
}

// What differences in times ask for.
#[derive(Clone, Copy)]
struct TimesAsked {
    ends: bool,
    origins: bool,
    /// No less will do than all times.
    timing: bool,
    /// Timescales differ.
    timescales: bool,
    /// The last composition offset that differs.
    last: Option<Shift>,
}

impl TimesAsked {
    // Nothing.
    fn new() -> TimesAsked {
        TimesAsked {
            ends: false,
            origins: false,
            timing: false,
            timescales: false,
            last: None,
        }
    }

    // And what one more difference asks for.
    fn take(&mut self, tracks: &[TrackInfo], difference: &Difference) {
        match (difference.field, difference.subject) {
            (Field::Timescale | Field::MediaTimescale, _) => {
                self.timing = true;
                self.timescales = true;
            }
            (Field::Start, _) => self.origins = true,
            (Field::Duration, Subject::Sample(track, sample)) => {
                if is_at_end(tracks, track, sample) {
                    self.ends = true;
                } else {
                    self.timing = true;
                }
            }
            (Field::Offset, Subject::Sample(track, sample)) => {
                let left = number_of(difference.left);
                let by = left.saturating_sub(number_of(difference.right));
                self.take_shift(tracks, Shift { track, sample, by });
            }
            _ => {}
        }
    }

    // One more composition offset that differs: all of a track by the same, or they ask for all
    // times.
    fn take_shift(&mut self, tracks: &[TrackInfo], next: Shift) {
        if goes_on(tracks, self.last, next) {
            self.origins = true;
        } else {
            self.timing = true;
        }
        self.last = Some(next);
    }
}

// What these differences ask for in times, of tracks with so many samples.
fn asked_by(tracks: &[TrackInfo], all: &[Difference]) -> TimesAsked {
    let mut asked = TimesAsked::new();
    for difference in all {
        asked.take(tracks, difference);
    }
    asked
}

/// A guess what has to be left out, beside what is left out already, for none of these differences
/// to be left. It may be too much or too little: whether it is enough is for the caller to try. The
/// tracks are those of one of the files.
pub(crate) fn guess(leaving: Without, all: &[Difference], tracks: &[TrackInfo]) -> Without
    ensures { Covers leaving result }
{
    let has_detail = all.iter().any(|difference| is_detail(difference));
    let has_label = all.iter().any(|difference| is_label(difference));
    let has_role = all.iter().any(|difference| is_role(difference));
    let has_id = all.iter().any(|difference| is_id(difference));
    let asked = asked_by(tracks, all);
    let timing = asked.timing || !is_through(tracks, asked.last);
    let needed = Without::each(|word| match word {
        Word::Times => has(DifferenceKind::Times, all),
        Word::Edits => has(DifferenceKind::Edits, all),
        Word::Flags => has(DifferenceKind::Flags, all),
        Word::Groups => has(DifferenceKind::Groups, all),
        Word::Metadata => has(DifferenceKind::Kept, all),
        Word::Bitrates => has_detail,
        // Without all times nothing is left of where tracks begin and end. Where timescales may
        // do in place of all times, what else differs may be left out too.
        Word::Ends => asked.ends && (asked.timescales || !asked.timing),
        Word::Origins => asked.origins && (asked.timescales || !asked.timing),
        Word::Labels => has_detail || has_label,
        Word::Timing => timing,
        Word::Roles => has_role,
        Word::Ids => has_id,
        Word::Timescales => asked.timescales,
        Word::LeadIns => false,
    });
    leaving_both(leaving, needed)
}
