//! What is known of the samples of a piece, gathered one sample at a time.
ghost use Rattle.std.specs.Prelude.{◌≡◌, ℕ, ◌+◌, ◌^◌, ◌<◌};
ghost use Rattle.mp4_plan.specs.words.Gathering.{common_more, runs_first, runs_more, gathered_first, gathered_more, runs_at, with_indexes, HaveLast, IsBounded, IsUsed};

use mp4_tables::SampleAt;

/// The rows that the indexes at one key make so far.
#[derive(Clone, Copy, Debug, PartialEq, Eq)]
pub struct GroupRuns {
    /// The index of the last sample.
    pub last: u16,
    /// The number of longest runs of equal indexes.
    pub rows: u32,
    /// Whether some index is not 0.
    pub is_used: bool,
}

/// What is known of some samples: at least one.
#[derive(Clone, Copy, Debug, PartialEq, Eq)]
pub struct Gathered {
    /// The description index of all.
    pub description: u32,
    pub count: u32,
    /// The sum of their sizes.
    pub bytes: u64,
    /// The duration that all have, if they have one.
    pub duration: Option<u32>,
    /// The size that all have, if they have one.
    pub size: Option<u32>,
    /// The flags that all have, if they have the same.
    pub flags: Option<u32>,
    /// Whether some composition offset is not 0.
    pub has_offsets: bool,
    /// At each key of the track: the index of the last sample, and the runs.
    pub indexes: [u16; 4],
    pub groups: [GroupRuns; 4],
}

impl GroupRuns {
    ghost use Rattle.mp4_plan.specs.words.Gathering.{used_rows};

    /// The number of rows, 0 where all indexes are 0.
    pub(crate) fn used_rows(&self) -> u32
        ensures { result ≡ used_rows self.now }
    {
        if self.is_used { self.rows } else { 0 }
    }
}

// One more number: what all have stays where this one is the same.
#[inline(always)]
fn add_common(common: &mut Option<u32>, number: u32)
    ensures { common.new ≡ common_more common.old number }
{
    if let Some(shared) = *common {
        if shared != number {
            *common = None;
        }
    }
}

fn runs_first(index: u16) -> GroupRuns
    ensures { result ≡ runs_first index }
{
    GroupRuns {
        last: index,
        rows: 1,
        is_used: index != 0,
    }
}

// One more index. Where it is that of the last sample there is nothing new.
#[inline(always)]
fn add_index(runs: &mut GroupRuns, index: u16)
    requires room { runs.old.rows + 1 < 2 ^ 32 }
    requires used { IsUsed runs.old }
    ensures { runs.new ≡ runs_more runs.old index }
{
    if runs.last != index {
        runs.last = index;
        runs.rows += 1;
        if index != 0 {
            runs.is_used = true;
        }
    }
}

// The indexes of one more sample. Where they are those of the last sample there is nothing new.
#[inline(always)]
fn add_indexes(gathered: &mut Gathered, sample: &SampleAt)
    requires indexes { HaveLast gathered.old.groups gathered.old.indexes }
    requires room { (j : ℕ) → (runs_at gathered.old j).rows + 1 < 2 ^ 32 }
    ensures { gathered.new ≡ with_indexes gathered.old sample.now.groups }
{
    let indexes = sample.groups;
    let last = gathered.indexes;
    if indexes[0] == last[0]
        && indexes[1] == last[1]
        && indexes[2] == last[2]
        && indexes[3] == last[3]
    {
        return;
    }
    gathered.indexes = indexes;
    add_index(&mut gathered.groups[0], sample.groups[0]);
    add_index(&mut gathered.groups[1], sample.groups[1]);
    add_index(&mut gathered.groups[2], sample.groups[2]);
    add_index(&mut gathered.groups[3], sample.groups[3]);
}

/// What is known of one sample.
pub(crate) fn gathered_first(sample: &SampleAt) -> Gathered
    ensures { result ≡ gathered_first sample.now }
{
    Gathered {
        description: sample.description,
        count: 1,
        bytes: u64::from(sample.size),
        duration: Some(sample.duration),
        size: Some(sample.size),
        flags: Some(sample.flags),
        has_offsets: sample.cto.cast_unsigned() != 0,
        indexes: sample.groups,
        groups: [
            runs_first(sample.groups[0]),
            runs_first(sample.groups[1]),
            runs_first(sample.groups[2]),
            runs_first(sample.groups[3]),
        ],
    }
}

/// One more sample.
#[inline(always)]
pub(crate) fn gather_more(gathered: &mut Gathered, sample: &SampleAt)
    requires bounded { IsBounded gathered.old }
    requires room { gathered.old.count + 1 < 2 ^ 32 }
    ensures { gathered.new ≡ gathered_more gathered.old sample.now }
{
    gathered.count += 1;
    gathered.bytes += u64::from(sample.size);
    add_common(&mut gathered.duration, sample.duration);
    add_common(&mut gathered.size, sample.size);
    add_common(&mut gathered.flags, sample.flags);
    if sample.cto.cast_unsigned() != 0 {
        gathered.has_offsets = true;
    }
    add_indexes(gathered, sample);
}
