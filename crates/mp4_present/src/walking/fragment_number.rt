//! In which `moof` the samples in hand lie.
ghost use Rattle.std.specs.Prelude.{ℕ, ◌≡◌, List, length};
ghost use Rattle.mp4_frag.specs.words.OwnTrafs.{PlacedTraf};
ghost use Rattle.mp4_head.specs.format.Tree.{TrackTree};
ghost use Rattle.mp4_present.specs.format.Denotes.{FileTree};
ghost use Rattle.mp4_present.specs.words.InFragment.{number_in_hand};
ghost use Rattle.mp4_present.specs.words.Movies.{IsWalkOf};
ghost use Rattle.mp4_present.specs.words.OpenedMovie.{IsOpenedAs};
ghost use Rattle.mp4_present.specs.words.SamplesComing.{StandsBefore};

use crate::movie::Movie;
use crate::walking::Walk;

impl Walk {
    /// The number of the `moof` whose samples are in hand, among those of the file, from 1; 0 where
    /// those of the tables are (ISO/IEC 14496-12, 8.8.4).
    pub fn fragment(&self, movie: &Movie) -> u64
        requires { IsWalkOf movie.now self.now }
        ensures { (file : List ℕ) (tree : FileTree) (t : TrackTree)
            (earlier later : List PlacedTraf) → IsOpenedAs file movie.now tree
            → StandsBefore file tree t earlier later self.now
            → result ≡ number_in_hand tree t self.now.before (length earlier) }
    {
        match self.before {
            None => 0,
            Some(_) => movie.moofs_before(self.traf.at) as u64,
        }
    }
}
