//! Digests of bytes: the SHA-256 of one message, and of many at once (FIPS 180-4).
ghost use Rattle.std.specs.Prelude.{◌≡◌};
ghost use Rattle.sha2.specs.Sha256.{sha256};

pub mod lanes;
pub mod messages;
pub mod side_by_side;

use sha2::{Digest, Sha256};

/// How many bytes a digest has.
pub const DIGEST: usize = 32;

/// The digest of some bytes.
pub(crate) fn digest(bytes: &[u8]) -> [u8; DIGEST]
    ensures { result ≡ sha256 bytes.now }
{
    let mut hasher = Sha256::new();
    hasher.update(bytes);
    hasher.finalize()
}
