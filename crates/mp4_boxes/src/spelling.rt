//! A written header.
ghost use Rattle.std.specs.Prelude.{◌≡◌, ◌≤◌, List, ℕ, take};

use std::marker::Model;

/// The bytes of a box header, 8 or 16 of them.
#[derive(Drop)]
pub struct Header {
    pub(crate) bytes: [u8; 16],
    pub(crate) len: usize,
}

impl Model for Header {
    ghost use Rattle.std.specs.Prelude.{◌≤◌, ℕ, List, take};

    ghost Value = { List ℕ };

    ghost view = { λ h. take h.len h.bytes };

    ghost invariant = { λ h. h.len ≤ 16 };
}

impl Header {
    pub fn bytes(&self) -> &[u8]
        ensures { result.now ≡ self.now }
    {
        &self.bytes[..self.len]
    }
}
