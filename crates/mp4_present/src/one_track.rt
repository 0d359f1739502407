//! A movie of which one track is shown alone.
ghost use Rattle.std.specs.Prelude.{◌≡◌, option_map};
ghost use Rattle.mp4_head.specs.words.Seen.{head_seen};
ghost use Rattle.mp4_present.specs.words.HeadsRead.{places_of};
ghost use Rattle.mp4_present.specs.words.OneTrack.{at_place, only_head, shown_at};

use crate::movie::Movie;
use mp4_boxes::Refusal;
use mp4_head::MovieHead;
use std::alloc::Global;

// Keeps of some values that at this place alone; none where there is no such place.
fn keep_at<T: Drop>(values: &mut Vec<T>, place: usize)
    ensures { values.new.items ≡ at_place place values.old.items }
{
    if place >= values.len() {
        values.clear();
        return;
    }
    values.swap(0, place);
    values.truncate(1);
}

// Of some values that at this place alone.
fn only_at<T: Drop>(values: Vec<T>, place: usize) -> Vec<T>
    ensures { result.items ≡ at_place place values.items }
{
    let mut only = values;
    keep_at(&mut only, place);
    only
}

// Of how long each track waits, where that is said, how long the one at this place does.
fn waits_at(waits: Option<Vec<u64>>, place: usize) -> Option<Vec<u64>>
    ensures { option_map (λ w. w.items) result
        ≡ option_map (at_place place) (option_map (λ w. w.items) waits) }
{
    match waits {
        Some(waits) => Some(only_at(waits, place)),
        None => None,
    }
}

/// What is said of the track at this place alone, where one is named.
pub(crate) fn only_track(head: MovieHead<'_>, only: Option<usize>) -> MovieHead<'_>
    ensures seen { head_seen result ≡ only_head only (head_seen head.entry) }
    ensures places { places_of result.tracks.items
        ≡ shown_at only (places_of head.entry.tracks.items) }
{
    let mut shown = head;
    if let Some(place) = only {
        keep_at(&mut shown.tracks, place);
    }
    shown
}

impl Movie {
    ghost use Rattle.std.specs.Prelude.{ℕ, ◌≡◌, ◌<◌, List, Some, length, IfOk, IfErr, option_map};
    ghost use Rattle.std.specs.Option.{option_or};
    ghost use Rattle.mp4_boxes.specs.declared.refusal.Refusal.TheVariants as refusals;
    ghost use Rattle.mp4_present.specs.format.Denotes.{FileTree};
    ghost use Rattle.mp4_present.specs.words.OneTrack.{at_place, only_tree};
    ghost use Rattle.mp4_present.specs.words.OpenedMovie.{IsOpenedAs};
    ghost use Rattle.mp4_present.specs.words.Waits.{RefusesWaits};

    /// The movie of which the track at this place is shown alone. The place is one among the tracks
    /// that are shown: where one is alone already, its place is 0, and it stays. Where tracks are
    /// told to wait, this one waits as long as among the others.
    pub fn alone(self, alloc: Global, place: usize) -> Result<Movie, Refusal>
        requires { place < length self.tracks }
        ensures movie { (file : List ℕ) (tree : FileTree) → IsOpenedAs file self tree
            → IfOk result (λ m. IsOpenedAs file m (only_tree (Some place) tree)) }
        ensures memory { (file : List ℕ) (tree : FileTree) → IsOpenedAs file self tree
            → IfErr result (λ r. r ≡ refusals.Memory) }
        ensures kept { IfOk result (λ m. (m.only ≡ option_or self.only (Some place))
            × (m.waits ≡ option_map (at_place place) self.waits)) }
        ensures refusal { IfErr result RefusesWaits }
    {
        let alone = Movie {
            tables: only_at(self.tables, place),
            states: only_at(self.states, place),
            tracks: only_at(self.tracks, place),
            own: only_at(self.own, place),
            only: self.only.or(Some(place)),
            waits: waits_at(self.waits, place),
            ..self
        };
        let mehd = alone.length_within(alloc)?;
        Ok(Movie { mehd, ..alone })
    }
}
