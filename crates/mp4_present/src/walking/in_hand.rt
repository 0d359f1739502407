//! The samples of a track that are in memory: of its tables, or of one `traf`.
ghost use Rattle.std.specs.Prelude.{◌≡◌};

use mp4_frag::{TrafCursor, TrafPlace};
use mp4_tables::{SampleAt, Samples, TableCursor, TablePlace};

/// A place among the samples in hand: plain numbers.
#[derive(Clone, Copy)]
pub enum Place {
    Tables(TablePlace),
    Fragment(TrafPlace),
}

impl Place {
    ghost use Rattle.std.specs.Prelude.{◌≡◌};
    ghost use Rattle.mp4_present.specs.words.WalkSteps.{steps_to};

    /// How many steps a cursor took to come here.
    pub(crate) fn passed(&self) -> u64
        ensures { result ≡ steps_to self.now }
    {
        match self {
            Place::Tables(place) => place.passed(),
            Place::Fragment(place) => place.passed(),
        }
    }
}

/// The samples left of the tables, or of the `traf` in hand.
#[derive(Drop)]
pub enum InHand<'a> {
    Tables(TableCursor<'a>),
    Fragment(TrafCursor<'a>),
}

impl<'a> InHand<'a> {
    ghost use Rattle.mp4_present.specs.words.InHand.{IsPlaceOf};

    /// Where it stands.
    pub fn place(&self) -> Place
        ensures { IsPlaceOf self.now result }
    {
        match self {
            InHand::Tables(cursor) => Place::Tables(cursor.place()),
            InHand::Fragment(cursor) => Place::Fragment(cursor.place()),
        }
    }
}

impl<'a> Samples for InHand<'a> {
    ghost use Rattle.mp4_present.specs.words.InHand.{left_in_hand, Follows, follows_itself, follows_on};

    ghost rest = { left_in_hand };

    ghost follows = { Follows };

    #[inline(always)]
    fn peek(&self) -> Option<SampleAt> {
        match self {
            InHand::Tables(cursor) => cursor.peek(),
            InHand::Fragment(cursor) => cursor.peek(),
        }
    }

    #[inline(always)]
    fn next(&mut self) -> Option<SampleAt> {
        match self {
            InHand::Tables(cursor) => cursor.next(),
            InHand::Fragment(cursor) => cursor.next(),
        }
    }

    #[inline(always)]
    fn pass(&mut self, sample: &SampleAt) {
        match self {
            InHand::Tables(cursor) => cursor.pass(sample),
            InHand::Fragment(cursor) => cursor.pass(sample),
        }
    }

    fn pass_non_sync(&mut self, description: u32, most: u32) -> u32 {
        match self {
            InHand::Tables(cursor) => cursor.pass_non_sync(description, most),
            InHand::Fragment(cursor) => cursor.pass_non_sync(description, most),
        }
    }

    ghost follows_itself = { follows_itself };

    ghost follows_on = { follows_on };
}
