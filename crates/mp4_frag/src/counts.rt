//! How many samples a `traf` has, and how long they last: by rows, without a walk from sample to
//! sample.
ghost use Rattle.std.specs.Prelude.{◌≡◌, ◌≤◌, ◌++◌};
ghost use Rattle.mp4_frag.specs.words.Durations.{durations_of, rows_durations, rows_lasting};
ghost use Rattle.mp4_frag.specs.words.ColumnsRead.{row_room};
ghost use Rattle.mp4_frag.specs.words.PlacesIn.{LiesIn, IsRowPlace};
ghost use Rattle.mp4_frag.specs.words.Walks.{coming, rows_here};

use crate::opened_runs::{next_row, row_here};
use crate::places::{RowPlace, TrafPlace};

/// Samples that were counted: how many there are, how long they last together, as far as 64 bits
/// go, and how many steps lead behind them from the front of the `traf` on.
#[derive(Clone, Copy, Debug, PartialEq, Eq)]
pub struct Counts {
    pub samples: u32,
    pub duration: u64,
    pub passed: u64,
}

// How long the rows left of a run last, where some take this duration.
fn rows_duration(payload: &[u8], run: RowPlace, inherited: u32) -> u64
    requires place { IsRowPlace payload.now run }
    requires width { run.width ≡ row_room run.bits }
    ensures { result ≡ rows_lasting inherited (rows_here payload.now run) }
{
    let mut duration = 0;
    let mut run = run;
    while run.left > 0 {
        let row = row_here(payload, run);
        duration += u64::from(row.duration.unwrap_or(inherited));
        run = next_row(run);
    }
    duration
}

// Leaves out the rows left of a run, and says how long they last. The samples behind come with the
// same durations; when they are due, and where they lie, is no longer known.
pub(crate) fn leave_run(payload: &[u8], place: &mut TrafPlace) -> u64
    requires { LiesIn payload.now place.old }
    ensures place { LiesIn payload.now place.new }
    ensures none { place.new.run.left ≡ 0 }
    ensures on { place.old.passed ≤ place.new.passed }
    ensures lasting { result
        ≡ rows_lasting place.old.inherited.duration (rows_here payload.now place.old.run) }
    ensures coming { durations_of (coming payload.now place.old)
        ≡ rows_durations place.old.inherited.duration (rows_here payload.now place.old.run)
        ++ durations_of (coming payload.now place.new) }
{
    let duration = rows_duration(payload, place.run, place.inherited.duration);
    place.passed = place.passed.saturating_add(u64::from(place.run.left));
    place.run.left = 0;
    duration
}
