//! A sink that counts.
ghost use Rattle.std.specs.Prelude.{◌≡◌};

use mp4_store::{Sink, WriteFailed};

/// Keeps nothing but how many bytes were put, as far as 64 bits go. A put never fails.
#[derive(Drop)]
pub(crate) struct CountSink {
    count: u64,
}

impl CountSink {
    /// None were put yet.
    pub(crate) fn new() -> CountSink
        ensures { result.count ≡ 0 }
    {
        CountSink { count: 0 }
    }

    /// How many bytes were put.
    pub(crate) fn count(&self) -> u64
        ensures { result ≡ self.now.count }
    {
        self.count
    }
}

impl Sink for CountSink {
    ghost use Rattle.mp4norm_c.specs.words.Counting.{Counted, counted_nothing, counted_on};

    ghost takes = { Counted };

    ghost put_failures = { λ _. 0 };

    fn put(&mut self, piece: &[u8]) -> Result<(), WriteFailed> {
        self.count = self.count.saturating_add(piece.len() as u64);
        Ok(())
    }

    ghost takes_nothing = { counted_nothing };

    ghost takes_on = { counted_on };
}
