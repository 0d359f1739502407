//! Which `traf`s of a file have samples of a track (ISO/IEC 14496-12, 8.8.6).
ghost use Rattle.std.specs.Prelude.{◌≡◌, ◌++◌, ◌∷◌, [], OnOk};

use mp4_boxes::Memory;
use mp4_frag::OwnTraf;
use std::alloc::Global;

// For how many more a list gets room at least.
const LEAST_GROWTH: usize = 4;

/// One more of a list, which gets room for an eighth more, or for four, where it has none.
pub(crate) fn push_spared<T: Drop>(list: &mut Vec<T>, item: T) -> Result<(), Memory>
    ensures { OnOk result (list.new.items ≡ list.old.items ++ item ∷ []) }
{
    let len = list.len();
    if len == list.capacity() {
        let Ok(()) = list.reserve_exact(LEAST_GROWTH.max(len / 8)) else {
            return Err(Memory);
        };
    }
    let Ok(()) = list.push(item) else {
        return Err(Memory);
    };
    Ok(())
}

/// The `traf`s that have samples of a track, in file order, and how long the payload of the longest
/// is. It takes 32 bytes for each, and has room for an eighth more, or for four.
#[derive(Drop)]
pub(crate) struct OwnTrafs {
    trafs: Vec<OwnTraf>,
    longest: usize,
}

impl OwnTrafs {
    ghost use Rattle.std.specs.Prelude.{◌≡◌, ◌+◌, ◌^◌, ◌<◌, [], slice_get, OnOk, IfSome};
    ghost use Rattle.mp4_present.specs.words.OwnTrafs.{own_seen};
    ghost use Rattle.mp4_frag.specs.words.Noted.{with_note};

    /// None was passed.
    pub(crate) fn new(alloc: Global) -> OwnTrafs
        ensures { own_seen result ≡ record { trafs = []; longest = 0 } }
    {
        OwnTrafs {
            trafs: Vec::new(alloc),
            longest: 0,
        }
    }

    /// One more was passed.
    pub(crate) fn note(&mut self, traf: OwnTraf) -> Result<(), Memory>
        ensures { OnOk result (own_seen self.new ≡ with_note traf (own_seen self.old)) }
    {
        push_spared(&mut self.trafs, traf)?;
        self.longest = self.longest.max(traf.len);
        Ok(())
    }

    /// The one at this place among them.
    pub(crate) fn get(&self, place: usize) -> Option<OwnTraf>
        ensures traf { result ≡ slice_get (own_seen self.now).trafs place }
        ensures next { IfSome result (λ traf. place + 1 < 2 ^ 64) }
    {
        self.trafs.as_slice().get(place).copied()
    }

    /// How long the payload of the longest is.
    pub(crate) fn longest(&self) -> usize
        ensures { result ≡ (own_seen self.now).longest }
    {
        self.longest
    }
}
