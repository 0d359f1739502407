//! The indexes of samples in the `sbgp` of each key of a track (ISO/IEC 14496-12, 8.9.2).
ghost use Rattle.std.specs.Prelude.{ℕ, List, ◌≡◌, ◌+◌, ◌*◌, ◌≤◌, [], ◌∷◌, length, min, map, drop, slice_index, slice_set, false};
ghost use Rattle.std.specs.List.{AllByRecursion};
ghost use Rattle.mp4_tables.specs.declared.places.RunPlace.{RunPlace};
ghost use Rattle.mp4_tables.specs.format.Repeated.{repeated};
ghost use Rattle.mp4_tables.specs.declared.places.RowsAt.{RowsAt};
ghost use Rattle.mp4_tables.specs.words.Rows.{HaveRoom, runs_at};
ghost use Rattle.mp4_tables.specs.words.Indexes.{IsIndexPlace, AreIndexPlaces, indexes_left, indexes_in, indexes_coming, low_half};

use crate::places::{RowsAt, RunPlace, rows};
use crate::stts_rows::{BEFORE_ROWS, pass, settle};

/// Where the rows of the `sbgp` of each key of a track lie in a payload: by the places of the keys.
#[derive(Clone, Copy)]
pub struct IndexRows {
    pub(crate) by_key: [RowsAt; 4],
}

/// How far a walk has come in them.
#[derive(Clone, Copy)]
pub struct IndexPlaces {
    by_key: [RunPlace; 4],
    /// Whether an index is left in hand: none is where there are no `sbgp`s, and behind their last
    /// rows.
    are_left: bool,
}

pub(crate) const NO_ROWS: RowsAt = RowsAt { place: 0, count: 0 };

/// Rows of no key, and the places in them.
pub fn no_indexes() -> (IndexRows, IndexPlaces)
    ensures places { (payload : List ℕ) → AreIndexPlaces payload result.0 result.1 }
    ensures none { (payload : List ℕ)
        → indexes_coming payload result.0 result.1 ≡ [] ∷ [] ∷ [] ∷ [] ∷ [] }
{
    let rows = IndexRows {
        by_key: [NO_ROWS, NO_ROWS, NO_ROWS, NO_ROWS],
    };
    let places = IndexPlaces {
        by_key: [BEFORE_ROWS, BEFORE_ROWS, BEFORE_ROWS, BEFORE_ROWS],
        are_left: false,
    };
    (rows, places)
}

// Whether a value is left at one of the places.
#[inline]
fn are_left(places: &[RunPlace; 4]) -> bool
    ensures { result ≡ false → AllByRecursion (λ (p : RunPlace). p.left ≡ 0) places.now }
{
    places[0].left > 0 || places[1].left > 0 || places[2].left > 0 || places[3].left > 0
}

// Before the first index of the rows.
#[tactic(auto, using(crate::proofs::IndexesLeft::left_start))]
fn first_index(payload: &[u8], rows: RowsAt) -> RunPlace
    requires { HaveRoom 8 payload.now rows }
    ensures place { IsIndexPlace payload.now rows result }
    ensures all { indexes_left payload.now rows result ≡ indexes_in payload.now rows }
{
    settle(payload, rows, BEFORE_ROWS)
}

/// Takes rows of the key at this place among the track's: its indexes are to come from the first
/// row on.
pub fn open_rows(
    payload: &[u8],
    rows: &mut IndexRows,
    places: &mut IndexPlaces,
    j: u8,
    at: usize,
    count: u32,
)
    requires places { AreIndexPlaces payload.now rows.old places.old }
    requires room { at + 8 * count ≤ length payload.now }
    ensures places { AreIndexPlaces payload.now rows.new places.new }
    ensures opened { indexes_coming payload.now rows.new places.new
        ≡ slice_set (indexes_coming payload.now rows.old places.old) (min j 3)
        (map low_half (repeated (runs_at payload.now (record { place = at; count = count })))) }
{
    let own = RowsAt { place: at, count };
    let key = usize::from(j.min(3));
    rows.by_key[key] = own;
    places.by_key[key] = first_index(payload, own);
    places.are_left = are_left(&places.by_key);
}

// The index in hand: 0 behind the last row.
#[inline]
fn index_here(place: RunPlace) -> u16
    ensures { (payload : List ℕ) (rows : RowsAt) → IsIndexPlace payload rows place
        → result ≡ slice_index (indexes_left payload rows place) 0 }
{
    if place.left > 0 {
        (place.value % 65_536) as u16
    } else {
        0
    }
}

// Behind the index in hand: behind the last row there is nothing to pass.
#[inline]
fn index_passed(payload: &[u8], rows: RowsAt, place: RunPlace) -> RunPlace
    requires { IsIndexPlace payload.now rows place }
    ensures place { IsIndexPlace payload.now rows result }
    ensures next { indexes_left payload.now rows result
        ≡ drop 1 (indexes_left payload.now rows place) }
    ensures on { place.row ≤ result.row }
{
    let mut place = place;
    if place.left > 0 {
        pass(payload, rows, &mut place);
    }
    place
}

impl IndexPlaces {
    ghost use Rattle.std.specs.Prelude.{ℕ, List, ◌≡◌, ◌≤◌, ◌<◌, ◌^◌, map, drop, slice_index, false, IsTrue};
    ghost use Rattle.std.specs.List.{AllByRecursion};
    ghost use Rattle.mp4_tables.specs.words.Rows.{HaveRoom, runs_at};
    ghost use Rattle.mp4_tables.specs.words.Indexes.{AreIndexPlaces, indexes_coming, indexes_in, rows_passed};
    ghost use Rattle.mp4_tables.specs.declared.indexes.IndexRows.{IndexRows};
    ghost use Rattle.mp4_tables.specs.declared.places.RunPlace.{RunPlace};

    // Before the first sample.
    pub(crate) fn first(payload: &[u8], rows: &IndexRows) -> IndexPlaces
        requires { AllByRecursion (HaveRoom 8 payload.now) rows.now.by_key }
        ensures places { AreIndexPlaces payload.now rows.now result }
        ensures all { indexes_coming payload.now rows.now result
            ≡ map (indexes_in payload.now) rows.now.by_key }
    {
        let by_key = [
            first_index(payload, rows.by_key[0]),
            first_index(payload, rows.by_key[1]),
            first_index(payload, rows.by_key[2]),
            first_index(payload, rows.by_key[3]),
        ];
        IndexPlaces {
            by_key,
            are_left: are_left(&by_key),
        }
    }

    /// Whether no index is left in hand: then none is to come.
    #[inline(always)]
    pub fn are_over(&self) -> bool
        ensures { IsTrue result → self.now.are_left ≡ false }
    {
        !self.are_left
    }

    /// The index in hand of each key, 0 for none.
    #[inline(always)]
    pub fn here(&self) -> [u16; 4]
        ensures { (payload : List ℕ) (rows : IndexRows) → AreIndexPlaces payload rows self.now
            → result
            ≡ map (λ indexes. slice_index indexes 0) (indexes_coming payload rows self.now) }
    {
        if self.are_over() {
            return [0; 4];
        }
        [
            index_here(self.by_key[0]),
            index_here(self.by_key[1]),
            index_here(self.by_key[2]),
            index_here(self.by_key[3]),
        ]
    }

    // Passes a sample in each, where an index is left in one.
    #[cold]
    #[inline(never)]
    fn pass_each(&mut self, payload: &[u8], rows: &IndexRows)
        requires { AreIndexPlaces payload.now rows.now self.old }
        ensures places { AreIndexPlaces payload.now rows.now self.new }
        ensures next { indexes_coming payload.now rows.now self.new
            ≡ map (drop 1) (indexes_coming payload.now rows.now self.old) }
        ensures on { rows_passed self.old ≤ rows_passed self.new }
    {
        self.by_key = [
            index_passed(payload, rows.by_key[0], self.by_key[0]),
            index_passed(payload, rows.by_key[1], self.by_key[1]),
            index_passed(payload, rows.by_key[2], self.by_key[2]),
            index_passed(payload, rows.by_key[3], self.by_key[3]),
        ];
        self.are_left = are_left(&self.by_key);
    }

    /// Passes a sample in each: behind the last row there is nothing to pass.
    #[inline(always)]
    pub fn pass(&mut self, payload: &[u8], rows: &IndexRows)
        requires { AreIndexPlaces payload.now rows.now self.old }
        ensures places { AreIndexPlaces payload.now rows.now self.new }
        ensures next { indexes_coming payload.now rows.now self.new
            ≡ map (drop 1) (indexes_coming payload.now rows.now self.old) }
        ensures on { rows_passed self.old ≤ rows_passed self.new }
    {
        if self.are_over() {
            return;
        }
        self.pass_each(payload, rows);
    }

    // How many rows were passed.
    pub(crate) fn rows_passed(&self) -> u64
        ensures is { result ≡ rows_passed self.now }
        ensures small { result < 2 ^ 34 }
    {
        rows(self.by_key[0].row)
            + rows(self.by_key[1].row)
            + rows(self.by_key[2].row)
            + rows(self.by_key[3].row)
    }
}
