//! The digest of some bytes. Apart from the type's module, since their names differ in case alone.

ghost use Rattle.std.specs.Prelude.{◌≡◌};
ghost use Rattle.sha2.specs.Sha256.{sha256};

use crate::Digest;
use sha2::{Digest as Hasher, Sha256};

/// The SHA-256 digest of some bytes.
pub fn digest(bytes: &[u8]) -> Digest
    ensures { result ≡ sha256 bytes.now }
{
    let hash = Sha256::digest(bytes);
    Digest::from_slice(&hash)
}
