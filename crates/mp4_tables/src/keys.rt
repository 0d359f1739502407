//! What samples are grouped by (ISO/IEC 14496-12, 8.9.2).
ghost use Rattle.std.specs.Prelude.{◌≡◌, ◌≤◌, ◌<◌};

use mp4_boxes::{FourCc, u32_at};

/// The type of a grouping, with the parameter that version 1 of its box gives.
#[derive(Clone, Copy, Debug, PartialEq, Eq)]
pub struct GroupKey {
    pub kind: FourCc,
    pub parameter: Option<u32>,
}

/// The keys of a track: at most four, in the order in which the file first names them.
#[derive(Clone, Copy)]
pub struct Keys {
    named: [GroupKey; 4],
    count: u8,
    ghost few: { count ≤ 4 },
}

const NO_KEY: GroupKey = GroupKey {
    kind: FourCc([0, 0, 0, 0]),
    parameter: None,
};

impl GroupKey {
    ghost use Rattle.std.specs.Prelude.{◌≡◌, ◌+◌};
    ghost use Rattle.mp4_tables.specs.format.Groups.{key_rank};
    ghost use Rattle.mp4_tables.specs.words.Keys.{key_seen};

    /// The order of keys: by the bytes of the type, then none before a parameter, then by the
    /// parameter.
    pub fn rank(&self) -> u128
        ensures { result ≡ key_rank (key_seen self.now) }
    {
        let kind = u128::from(u32_at(&self.kind.0, 0)) * 0x1_0000_0001;
        match self.parameter {
            Some(parameter) => kind + u128::from(parameter) + 1,
            None => kind,
        }
    }
}

impl Keys {
    ghost use Rattle.std.specs.Prelude.{◌≡◌, ◌++◌, ◌∷◌, ◌<◌, ◌≤◌, ◌+◌, drop, [], length};
    ghost use Rattle.std.specs.List.{list_any};
    ghost use Rattle.mp4_tables.specs.format.Groups.{same_key};
    ghost use Rattle.mp4_tables.specs.words.Keys.{key_seen, keys_seen, key_place};

    /// No key is named yet.
    pub fn new() -> Keys
        ensures { keys_seen result ≡ [] }
    {
        Keys {
            named: [NO_KEY, NO_KEY, NO_KEY, NO_KEY],
            count: 0,
        }
    }

    /// How many keys are named.
    pub fn count(&self) -> u8
        ensures is { result ≡ length (keys_seen self.now) }
        ensures few { result ≤ 4 }
    {
        self.count
    }

    /// The key at a place, from 0.
    pub fn key_at(&self, j: u8) -> GroupKey
        requires { j < length (keys_seen self.now) }
        ensures { drop j (keys_seen self.now) ≡ key_seen result
            ∷ drop (j + 1) (keys_seen self.now) }
    {
        self.named[j as usize]
    }

    /// The place of a key among them, from 0.
    pub fn place(&self, key: GroupKey) -> Option<u8>
        ensures { result ≡ key_place (key_seen key) (keys_seen self.now) }
    {
        let rank = key.rank();
        for j in 0..self.count {
            if rank == self.key_at(j).rank() {
                return Some(j);
            }
        }
        None
    }

    /// Whether a key is among them.
    pub fn names(&self, key: GroupKey) -> bool
        ensures { result ≡ list_any (same_key (key_seen key)) (keys_seen self.now) }
    {
        match self.place(key) {
            Some(_) => true,
            None => false,
        }
    }

    /// Names one more key.
    pub fn push(&mut self, key: GroupKey)
        requires { length (keys_seen self.old) < 4 }
        ensures { keys_seen self.new ≡ keys_seen self.old ++ key_seen key ∷ [] }
    {
        self.named[self.count as usize] = key;
        self.count += 1;
    }
}
