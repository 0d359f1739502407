//! Neighbouring samples, joined.
ghost use Rattle.std.specs.Prelude.{ℕ, ◌≡◌, ◌+◌, ◌<◌, ◌≤◌, [], take, drop, length, None, IfSome};
ghost use Rattle.std.specs.List.{AllByRecursion};
ghost use Rattle.mp4_present.specs.words.Joined.{AreJoined, IsBelow};

use mp4_tables::{SampleAt, Samples};

/// The bytes of some samples that lie one after the other in the file.
#[derive(Clone, Copy, Debug, PartialEq, Eq)]
pub struct Stretch {
    pub at: u64,
    pub len: u64,
    /// How many samples these are.
    pub samples: u32,
}

impl Stretch {
    ghost use Rattle.std.specs.Prelude.{◌≡◌, ◌+◌, ◌<◌, ◌^◌, IsTrue};

    // Whether the bytes of a sample lie behind these. Stretches of 2^32 bytes and more are not made
    // longer.
    fn is_followed_by(&self, sample: &SampleAt) -> bool
        ensures { IsTrue result → (sample.now.at ≡ self.now.at + self.now.len)
            × (self.now.len < 2 ^ 32) }
    {
        match self.at.checked_add(self.len) {
            Some(end) => end == sample.at && self.len <= 0xFFFF_FFFF,
            None => false,
        }
    }
}

/// The bytes of the next samples that lie one after the other, of so many samples at most. These
/// are taken.
pub fn next_stretch<C: Samples>(samples: &mut C, most: u32) -> Option<Stretch>
    ensures stretch { IfSome result
        (λ s. AreJoined (take s.samples (C.rest samples.old)) s.at s.len) }
    ensures within { IfSome result (λ s. (n : ℕ) → AllByRecursion (IsBelow n) (C.rest samples.old)
        → s.at + s.len ≤ n) }
    ensures samples { IfSome result (λ s. (0 < s.samples) × (s.samples ≤ most)
        × (s.samples ≤ length (C.rest samples.old))
        × (C.rest samples.new ≡ drop s.samples (C.rest samples.old))) }
    ensures none { result ≡ None → 0 < most → C.rest samples.old ≡ [] }
    ensures kept { result ≡ None → C.rest samples.new ≡ C.rest samples.old }
    ensures later { C.follows samples.old samples.new }
{
    if most == 0 {
        return None;
    }
    let first = samples.next()?;
    let mut stretch = Stretch {
        at: first.at,
        len: u64::from(first.size),
        samples: 1,
    };
    while stretch.samples < most {
        match samples.peek() {
            Some(sample) if stretch.is_followed_by(&sample) => {
                let _ = samples.next();
                stretch.len += u64::from(sample.size);
                stretch.samples += 1;
            }
            _ => return Some(stretch),
        }
    }
    Some(stretch)
}
