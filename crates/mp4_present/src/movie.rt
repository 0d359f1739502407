//! A file that was opened: the bytes of its `moov`, and plain numbers.
use crate::one_track::only_track;
use crate::own_trafs::OwnTrafs;
use crate::reading::TopBox;
use crate::track_info::TrackInfo;
use crate::waiting::told;
use mp4_boxes::{BoxView, FourCc, Memory};
use mp4_frag::{OwnTraf, TrackState, Trex};
use mp4_head::{MovieHead, read_head};
use mp4_tables::{Tables, TablesAt};
use std::alloc::Global;
use std::marker::Model;

// What is inherited where there is no `trex`: then no `traf` of the track is accepted.
const NO_TREX: Trex = Trex {
    id: 0,
    description: 0,
    duration: 0,
    size: 0,
    flags: 0,
};

/// Where the tables of a track lie: where the payload of its `stbl` begins in that of the `moov`,
/// its length, and the tables in it.
#[derive(Clone, Copy)]
pub struct TrackTables {
    pub(crate) place: usize,
    pub(crate) len: usize,
    pub(crate) tables: TablesAt,
}

/// A file that denotes a presentation. It holds the bytes of its `moov` and where `moof`s begin,
/// and not the store: what reads takes it again.
#[derive(Drop)]
pub struct Movie {
    pub(crate) top: TopBox,
    pub(crate) moov: Vec<u8>,
    pub(crate) file_len: u64,
    /// The length of the longest `moof`.
    pub(crate) longest: u64,
    /// Where the `moof`s begin, in file order.
    pub(crate) moofs: Vec<u64>,
    pub(crate) tables: Vec<TrackTables>,
    /// The tracks behind their tables.
    pub(crate) states: Vec<TrackState>,
    pub(crate) tracks: Vec<TrackInfo>,
    /// Which `traf`s have samples of each track.
    pub(crate) own: Vec<OwnTrafs>,
    pub(crate) mehd: u64,
    /// Which track of the `moov` is shown, by its place, where it is one alone.
    pub(crate) only: Option<usize>,
    /// How many microseconds each track waits, where that is said in the place of its edits.
    pub(crate) waits: Option<Vec<u64>>,
}

impl Model for Movie {
    ghost use Rattle.std.specs.Prelude.{map, option_map};
    ghost use Rattle.mp4_present.specs.words.Movies.{MovieSeen, IsMovie};
    ghost use Rattle.mp4_present.specs.words.OwnTrafs.{own_seen};

    ghost Value = { MovieSeen };

    ghost view = { λ m. record {
      top = m.top;
      moov = m.moov.items;
      file_len = m.file_len;
      longest = m.longest;
      moofs = m.moofs.items;
      tables = m.tables.items;
      states = m.states.items;
      tracks = m.tracks.items;
      own = map own_seen m.own.items;
      mehd = m.mehd;
      only = m.only;
      waits = option_map (λ w. w.items) m.waits;
    } };

    ghost invariant = { λ m. IsMovie (record {
      top = m.top;
      moov = m.moov.items;
      file_len = m.file_len;
      longest = m.longest;
      moofs = m.moofs.items;
      tables = m.tables.items;
      states = m.states.items;
      tracks = m.tracks.items;
      own = map own_seen m.own.items;
      mehd = m.mehd;
      only = m.only;
      waits = option_map (λ w. w.items) m.waits;
    }) };
}

impl Movie {
    ghost use Rattle.std.specs.Prelude.{ℕ, ◌≡◌, ◌+◌, ◌^◌, ◌<◌, ◌≤◌, List, ◌++◌, length, slice_get, Some, IfOk, IfSome};
    ghost use Rattle.std.specs.List.{AllByRecursion};
    ghost use Rattle.mp4_present.specs.words.HeadsRead.{SaysMovie};
    ghost use Rattle.mp4_present.specs.words.Movies.{IsMovie, own_room, tables_seen, trex_at};
    ghost use Rattle.mp4_frag.specs.words.OwnTrafs.{OwnSeen};
    ghost use Rattle.mp4_present.specs.declared.movie.TrackTables.{TrackTables};

    /// What the movie and its tracks say of themselves, read anew from the bytes of the `moov`;
    /// where one track is shown alone, that of it; where tracks are told to wait, they say that in
    /// the place of their edits.
    pub fn head(&self, alloc: Global) -> Result<MovieHead<'_>, Memory>
        ensures { IfOk result (SaysMovie self.entry.now) }
    {
        let view = self.top.view(self.moov.as_slice());
        let Ok(head) = read_head(alloc, view) else {
            return Err(Memory);
        };
        let shown = only_track(head, self.only);
        match &self.waits {
            None => Ok(shown),
            Some(waits) => told(alloc, shown, waits.as_slice()),
        }
    }

    /// The tracks in numbers, in the order of the `moov`.
    pub fn tracks(&self) -> &[TrackInfo]
        ensures { result.now ≡ self.now.tracks }
    {
        self.tracks.as_slice()
    }

    /// The length of the longest track in the movie's timescale, 0 without tracks.
    pub fn mehd(&self) -> u64
        ensures { result ≡ self.now.mehd }
    {
        self.mehd
    }

    // How many `moof`s begin before a place of the file.
    pub(crate) fn moofs_before(&self, at: u64) -> usize
        ensures { (front back : List ℕ) → self.now.moofs ≡ front ++ back
            → AllByRecursion (λ n. n < at) front → AllByRecursion (λ n. at ≤ n) back
            → result ≡ length front }
    {
        self.moofs.as_slice().partition_point(|begin| *begin < at)
    }

    // What the fragments of a track inherit.
    pub(crate) fn trex_of(&self, track: usize) -> Trex
        requires { track < length self.now.tracks }
        ensures trex { result ≡ trex_at self.now track }
        ensures is_movie { IsMovie self.now }
    {
        self.states[track].trex.unwrap_or(NO_TREX)
    }

    // The `traf` at a place among those that have samples of a track.
    pub(crate) fn own_traf(&self, track: usize, place: usize) -> Option<OwnTraf>
        requires { track < length self.now.tracks }
        ensures traf { (own : OwnSeen) → slice_get self.now.own track ≡ Some own
            → result ≡ slice_get own.trafs place }
        ensures next { IfSome result (λ traf. place + 1 < 2 ^ 64) }
    {
        self.own[track].get(place)
    }

    // The room of a walk over a track: for the longest `traf` that has samples of it.
    pub(crate) fn room_for(&self, track: usize) -> u64
        requires { track < length self.now.tracks }
        ensures room { result ≡ own_room self.now track }
        ensures within { result ≤ self.now.longest }
    {
        self.longest.min(self.own[track].longest() as u64)
    }

    // The tables of a track.
    pub(crate) fn tables_of(&self, track: usize) -> Tables<'_>
        requires { track < length self.now.tracks }
        ensures { (t : TrackTables) → slice_get self.now.tables track ≡ Some t
            → result ≡ tables_seen self.now.moov t }
    {
        let found = self.tables[track];
        let payload = &self.moov[found.place..found.place + found.len];
        Tables::again(BoxView::new(FourCc(*b"stbl"), 0, 8, payload), found.tables)
    }
}
