//! The tracks of a file while its `moof`s are checked: where each stands, and what is noted of it.
ghost use Rattle.std.specs.Prelude.{◌≡◌, IfOk, map, replicate};
ghost use Rattle.mp4_frag.specs.words.Noted.{ids_of};
ghost use Rattle.mp4_present.specs.words.OwnTrafs.{none_noted, own_seen};
ghost use Rattle.mp4_present.specs.words.TrackPlaces.{ArePlacesOf};

use crate::faults::{FaultNumbers, numbers_in_traf};
use crate::own_trafs::OwnTrafs;
use mp4_boxes::{BoxView, Fault, Memory, Steps};
use mp4_frag::{OwnTraf, Standing, TrackState, Tracking};
use std::alloc::Global;
use std::collections::BTreeMap;
use std::sync::ledger::Ledger;

// The places of tracks by their IDs: one look finds a track, however many there are.
#[derive(Drop)]
pub(crate) struct TrackPlaces {
    places: BTreeMap<u32, usize>,
}

// The places of these tracks; of those with one ID, that of the first.
fn places_of(alloc: Global, tracks: &[TrackState]) -> Result<TrackPlaces, Memory>
    ensures { IfOk result (ArePlacesOf (ids_of tracks.now)) }
{
    let mut places = BTreeMap::new(alloc);
    for step in 0..tracks.len() {
        let k = tracks.len() - 1 - step;
        let Ok(_) = places.insert(tracks[k].id, k) else {
            return Err(Memory);
        };
    }
    Ok(TrackPlaces { places })
}

// Before the first `moof`: nothing is noted of so many tracks.
fn begin_own(alloc: Global, tracks: usize) -> Result<Vec<OwnTrafs>, Memory>
    ensures { IfOk result (λ own. map own_seen own.items ≡ replicate tracks none_noted) }
{
    let mut own = Vec::new(alloc);
    for _ in 0..tracks {
        let Ok(()) = own.push(OwnTrafs::new(alloc)) else {
            return Err(Memory);
        };
    }
    Ok(own)
}

/// The tracks of a file while its `moof`s are checked: one look finds one by its ID, the `traf`s
/// with samples of each are noted, and numbers go with one that is refused.
#[derive(Drop)]
pub(crate) struct NotedTracks {
    pub(crate) places: TrackPlaces,
    pub(crate) own: Vec<OwnTrafs>,
    /// There was no memory for a note: then what is noted is no more told.
    pub(crate) is_refused: bool,
    /// What is told of the `traf` that was refused.
    pub(crate) told: Option<FaultNumbers>,
}

impl NotedTracks {
    ghost use Rattle.std.specs.Prelude.{◌≡◌, None, false, map, replicate, length, IfOk};
    ghost use Rattle.mp4_frag.specs.words.Noted.{ids_of};
    ghost use Rattle.mp4_present.specs.words.OwnTrafs.{none_noted, own_seen};
    ghost use Rattle.mp4_present.specs.words.TrackPlaces.{ArePlacesOf};

    /// These tracks, of which `traf`s are noted.
    pub(crate) fn noting(alloc: Global, tracks: &[TrackState]) -> Result<NotedTracks, Memory>
        ensures places { IfOk result (λ t. ArePlacesOf (ids_of tracks.now) t.places) }
        ensures own { IfOk result
            (λ t. map own_seen t.own.items ≡ replicate (length tracks.now) none_noted) }
        ensures told { IfOk result (λ t. (t.is_refused ≡ false) × (t.told ≡ None)) }
    {
        Ok(NotedTracks {
            places: places_of(alloc, tracks)?,
            own: begin_own(alloc, tracks.len())?,
            is_refused: false,
            told: None,
        })
    }
}

impl Tracking for NotedTracks {
    ghost use Rattle.std.specs.Prelude.{◌≡◌, min, None, IfSome};
    ghost use Rattle.mp4_present.specs.words.NumbersTold.{TellsTraf};
    ghost use Rattle.mp4_present.specs.words.OwnTrafs.{told_of};
    ghost use Rattle.mp4_present.specs.words.TrackPlaces.{ArePlacesOf};

    ghost knows = { λ t ids. ArePlacesOf ids t.places };

    ghost most = { λ tracks. min 1 tracks };

    ghost noted = { told_of };

    ghost is_silent = { λ t. t.told ≡ None };

    ghost tells = { λ t traf tracks file_length place.
        IfSome t.told (TellsTraf traf tracks file_length place) };

    fn find<L: Ledger, M: Ledger>(
        &self,
        _tracks: &[TrackState],
        id: u32,
        steps: &mut Steps<L, M>,
    ) -> Option<usize> {
        let place = *self.places.places.get(&id)?;
        steps.look();
        Some(place)
    }

    fn note(&mut self, track: usize, traf: OwnTraf) {
        if track >= self.own.len() {
            return;
        }
        let Ok(()) = self.own[track].note(traf) else {
            self.is_refused = true;
            return;
        };
    }

    fn refuse(&mut self, traf: BoxView, at: Standing, tracks: &[TrackState], fault: &Fault) {
        self.told = numbers_in_traf(traf, at, tracks, fault);
    }
}
