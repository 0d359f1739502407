//! What is read by place.
ghost use Rattle.std.specs.Prelude.{◌≡◌, ℕ, ◌<◌, ◌≤◌, List, length, take, Option, None, Some, Bool, false, IfOk, OnErr};
ghost use Rattle.mp4_store.specs.words.Device.{range};

use std::fs::File;
use std::io;
use std::os::unix::fs::FileExt;

/// What is read by place: a file, or whatever else says which bytes stand where.
pub trait Placed {
    /// The bytes that it has, where they are known.
    ghost known: { Self → Option (List ℕ) };

    /// Whether no read of it fails.
    ghost is_sound: { Self → Bool };

    /// Reads into the front of `out` what stands from the place `at` on, and says how many bytes
    /// that are; none only where none stand there. What is behind them in `out` may be any bytes.
    ///
    /// # Errors
    /// That of a read. Where a signal came first its kind is `Interrupted`: the read may be made
    /// again.
    fn read_some(&mut self, out: &mut [u8], at: u64) -> io::Result<usize>
        ensures known { known self.new ≡ known self.old }
        ensures sound { is_sound self.new ≡ is_sound self.old }
        ensures most { IfOk result (λ n. n ≤ length out.old) }
        ensures bytes { IfOk result (λ n. (list : List ℕ) → known self.old ≡ Some list
            → take n out.new ≡ range list at n) }
        ensures end { IfOk result (λ n. n ≡ 0 → 0 < length out.old
            → (list : List ℕ) → known self.old ≡ Some list → length list ≤ at) }
        ensures fails { OnErr result (is_sound self.old ≡ false) };
}

/// What a file has isn't known: that the bytes are those that stand at the place is trusted.
impl Placed for File {
    ghost known = { λ _. None };

    ghost is_sound = { λ _. false };

    fn read_some(&mut self, out: &mut [u8], at: u64) -> io::Result<usize> {
        self.read_at(out, at)
    }
}
