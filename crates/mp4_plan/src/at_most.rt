//! So many samples of a list, and no more.
use mp4_tables::{SampleAt, Samples};

/// At most so many of the samples still to come.
#[derive(Drop)]
pub(crate) struct Limited<C> {
    pub(crate) inner: C,
    pub(crate) left: u32,
}

impl<C: Samples> Samples for Limited<C> {
    ghost use Rattle.std.specs.Prelude.{take};
    ghost use Rattle.mp4_plan.specs.words.HandsFed.{TakesFirst, takes_itself, takes_on};

    ghost rest = { λ s. take s.left (C.rest s.inner) };

    ghost follows = { λ s t. C.follows s.inner t.inner
        × TakesFirst s.left t.left (C.rest s.inner) (C.rest t.inner) };

    #[inline(always)]
    fn peek(&self) -> Option<SampleAt> {
        if self.left == 0 {
            return None;
        }
        self.inner.peek()
    }

    #[inline(always)]
    fn next(&mut self) -> Option<SampleAt> {
        if self.left == 0 {
            return None;
        }
        let sample = self.inner.next()?;
        self.left -= 1;
        Some(sample)
    }

    #[inline(always)]
    fn pass(&mut self, sample: &SampleAt) {
        if self.left > 0 {
            self.inner.pass(sample);
            self.left -= 1;
        }
    }

    fn pass_non_sync(&mut self, description: u32, most: u32) -> u32 {
        let count = self.inner.pass_non_sync(description, most.min(self.left));
        self.left -= count;
        count
    }

    ghost follows_itself = { λ s.
        (C.follows_itself s.inner, takes_itself s.left (C.rest s.inner)) };

    ghost follows_on = { λ s t u p q. (
      C.follows_on s.inner t.inner u.inner p.0 q.0,
      takes_on s.left t.left u.left (C.rest s.inner) (C.rest t.inner) (C.rest u.inner)
          p.1 q.1,
    ) };
}
