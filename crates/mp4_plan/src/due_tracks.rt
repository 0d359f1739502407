//! Which track is the next that has a sample before a cut.
ghost use Rattle.mp4_plan.specs.words.DueTracks.{IsDue};

use mp4_boxes::Refusal;
use mp4_tables::SampleAt;
use std::alloc::Global;

/// Later than each sample and each cut: a track without samples.
pub(crate) const NEVER: u128 = u128::MAX;

/// The most tracks that are kept; no file has as many.
const MOST_TRACKS: usize = 1 << 32;

/// When the next sample of each track is due, in a tree of least values: a leaf for each track, and
/// above two nodes the lesser of them.
#[derive(Drop)]
pub(crate) struct DueTracks {
    /// How many tracks there are.
    pub(crate) leaves: usize,
    /// Node 1 is the root, below node i are nodes 2 i and 2 i + 1, leaf k is node leaves + k.
    pub(crate) least: Vec<u128>,
}

/// When a sample is due in the first track's timescale, rounded down: before a cut exactly if this
/// is. A timescale of 0, which no movie has, is taken for 1.
pub(crate) fn due_at(sample: &Option<SampleAt>, scale: u32, first: u32) -> u128
    ensures { IsDue first scale sample.now result }
{
    match sample {
        Some(next) => u128::from(next.dts) * u128::from(first) / u128::from(scale.max(1)),
        None => NEVER,
    }
}

impl DueTracks {
    ghost use Rattle.std.specs.Prelude.{◌≡◌, ◌*◌, ◌<◌, ℕ, IfOk, IfErr};
    ghost use Rattle.mp4_boxes.specs.declared.refusal.Refusal.TheVariants as refusals;
    ghost use Rattle.mp4_plan.specs.words.DueTracks.{IsDueTree, IsFirstBefore, leaf};

    /// So many tracks without samples. Where there are more than 2^32, there is no memory.
    pub(crate) fn new(alloc: Global, tracks: usize) -> Result<DueTracks, Refusal>
        ensures tree { IfOk result IsDueTree }
        ensures tracks { IfOk result (λ d. d.leaves ≡ tracks) }
        ensures memory { IfErr result (λ r. r ≡ refusals.Memory) }
    {
        if tracks > MOST_TRACKS {
            return Err(Refusal::Memory);
        }
        let least = vec![in alloc; NEVER; 2 * tracks]?;
        Ok(DueTracks {
            leaves: tracks,
            least,
        })
    }

    /// The next sample of a track is due at this time.
    pub(crate) fn set(&mut self, track: usize, time: u128)
        requires tree { IsDueTree self.old }
        requires track { track < self.old.leaves }
        ensures tree { IsDueTree self.new }
        ensures tracks { self.new.leaves ≡ self.old.leaves }
        ensures time { leaf self.new track ≡ time }
        ensures others { (k : ℕ) → k < self.old.leaves → (k ≡ track → ⊥)
            → leaf self.new k ≡ leaf self.old k }
    {
        let mut node = self.leaves + track;
        self.least[node] = time;
        while node > 1 {
            node /= 2;
            let left = self.least[2 * node];
            let right = self.least[2 * node + 1];
            self.least[node] = left.min(right);
        }
    }

    /// The first track from a place on of which a sample is due before a cut. It passes a node
    /// below which none is; `at` is the first leaf below a node, and `width` how many lie below it.
    pub(crate) fn first_before(&self, from: usize, cut: u128) -> Option<usize>
        requires tree { IsDueTree self.now }
        requires some { 0 < self.now.leaves }
        requires from { from < self.now.leaves }
        ensures { IsFirstBefore self.now from cut result }
    {
        if self.least[1] >= cut {
            return None;
        }
        let mut at = from;
        let mut node = self.leaves + from;
        let mut width = 1;
        while at < self.leaves {
            if self.least[node] >= cut {
                at += width;
                node += 1;
                if node % 2 == 0 {
                    node /= 2;
                    width *= 2;
                }
            } else if width == 1 {
                return Some(at);
            } else {
                node *= 2;
                width /= 2;
            }
        }
        None
    }
}
