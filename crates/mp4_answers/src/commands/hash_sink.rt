//! A sink that keeps the SHA-256 of what is put (FIPS 180-4).
ghost use Rattle.std.specs.Prelude.{◌≡◌, ℕ, List, []};
ghost use Rattle.sha2.specs.Hashers.{Holds256};
ghost use Rattle.sha2.specs.Sha256.{sha256};

use crate::digests::DIGEST;
use mp4_store::{Sink, WriteFailed};
use sha2::{Digest, Sha256};

/// Keeps nothing but what the digest of all that is put is worked out from. A put never fails.
#[derive(Drop)]
pub(crate) struct HashSink {
    hasher: Sha256,
}

impl HashSink {
    /// Nothing is put yet.
    pub(crate) fn new() -> HashSink
        ensures empty { Holds256 result.hasher [] }
    {
        HashSink {
            hasher: Sha256::new(),
        }
    }

    /// The digest of all that was put.
    pub(crate) fn digest(self) -> [u8; DIGEST]
        ensures digest { (message : List ℕ) → Holds256 self.hasher message
            → result ≡ sha256 message }
    {
        self.hasher.finalize()
    }
}

impl Sink for HashSink {
    ghost use Rattle.std.specs.Prelude.{ℕ, List, ◌++◌};
    ghost use Rattle.std.proofs.Common.{append_assoc, append-nil, sym};
    ghost use Rattle.sha2.specs.Hashers.{Holds256};

    ghost takes = { λ s t xs. (message : List ℕ) → Holds256 s.hasher message
        → Holds256 t.hasher (message ++ xs) };

    ghost put_failures = { λ _. 0 };

    fn put(&mut self, piece: &[u8]) -> Result<(), WriteFailed> {
        self.hasher.update(piece);
        Ok(())
    }

    ghost takes_nothing = { λ s message h. rw (append-nil message) h };

    ghost takes_on = { λ s t u xs ys p q message h.
        rw (sym (append_assoc message xs ys)) (q (message ++ xs) (p message h)) };
}
