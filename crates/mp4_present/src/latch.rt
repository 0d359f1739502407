//! Puts of which the first failure stays: what is put behind it goes nowhere, and the failure is
//! answered once.
ghost use Rattle.std.specs.Prelude.{◌≡◌, true, false, OnOk, OnErr};
ghost use Rattle.mp4_present.specs.words.Latches.{Goes};

use crate::out_buffer::OutBuffer;
use mp4_store::{Sink, WriteFailed};

/// A sink behind its buffer, and whether a put failed since both were borrowed; where it is made
/// none has.
#[derive(Drop)]
pub struct Latch<'a, K> {
    pub out: &'a mut OutBuffer,
    pub sink: &'a mut K,
    pub has_failed: bool,
}

impl<'a, K: Sink> Latch<'a, K> {
    ghost use Rattle.std.specs.Prelude.{◌≡◌, true, false, OnOk, OnErr};
    ghost use Rattle.mp4_present.specs.words.Latches.{Goes};

    /// Takes these bytes along, where no put failed before.
    pub fn put(&mut self, bytes: &[u8])
        ensures { Goes K.Sink self.old self.new bytes.now }
    {
        if self.has_failed {
            return;
        }
        if self.out.carry(bytes, self.sink).is_err() {
            self.has_failed = true;
        }
    }

    /// Answers whether a put failed.
    pub fn close(&self) -> Result<(), WriteFailed>
        ensures ok { OnOk result (self.now.has_failed ≡ false) }
        ensures err { OnErr result (self.now.has_failed ≡ true) }
    {
        if self.has_failed {
            return Err(WriteFailed);
        }
        Ok(())
    }
}
