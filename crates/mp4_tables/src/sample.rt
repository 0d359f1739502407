//! Samples, and lists of samples that are handed out one by one.
ghost use Rattle.std.specs.Prelude.{◌≡◌, ◌≤◌, List, drop, slice_get};
ghost use Rattle.mp4_tables.specs.words.Next.{IsNext, PassesNonSync};
ghost use Rattle.mp4_tables.specs.declared.sample.SampleAt.{SampleAt};

/// What is known of a sample apart from its bytes.
#[derive(Clone, Copy, Debug, PartialEq, Eq)]
pub struct SampleAt {
    /// The decode time.
    pub dts: u64,
    pub duration: u32,
    /// The composition time less the decode time.
    pub cto: i32,
    pub flags: u32,
    /// The sample description index, from 1.
    pub description: u32,
    /// The place in the file of its first byte.
    pub at: u64,
    pub size: u32,
    /// The group description index at each key of its track, 0 for none.
    pub groups: [u16; 4],
    /// How many samples of its track come before it.
    pub number: u32,
}

/// Samples that are handed out one by one.
pub trait Samples {
    /// The samples still to come.
    ghost rest: { Self → List SampleAt };

    /// What stands between these samples and the same ones later.
    ghost follows: { Self → Self → Type 0 };

    /// The next sample, which stays the next.
    fn peek(&self) -> Option<SampleAt>
        ensures { result ≡ slice_get (rest self.now) 0 };

    /// The next sample.
    fn next(&mut self) -> Option<SampleAt>
        ensures given { result ≡ slice_get (rest self.old) 0 }
        ensures rest { rest self.new ≡ drop 1 (rest self.old) }
        ensures later { follows self.old self.new };

    /// Passes the next sample, which has the duration and the size of this one.
    fn pass(&mut self, sample: &SampleAt)
        requires { IsNext sample.now (rest self.old) }
        ensures rest { rest self.new ≡ drop 1 (rest self.old) }
        ensures later { follows self.old self.new };

    /// Passes samples that are no sync samples and have this description, at most so many, and says
    /// how many these are: not always all that come.
    fn pass_non_sync(&mut self, description: u32, most: u32) -> u32
        ensures few { result ≤ most }
        ensures passed { PassesNonSync description result (rest self.old) (rest self.new) }
        ensures later { follows self.old self.new };

    ghost follows_itself: { (s : Self) → follows s s };

    ghost follows_on: { (s t u : Self) → follows s t → follows t u → follows s u };
}
