//! Digests.

ghost use Rattle.std.specs.Prelude.{◌≡◌, length};
ghost use Rattle.sd_plan.specs.Digest.{IsDigest, digits_of};

use hex::encode_to_slice;
use std::fmt;
use std::marker::Model;

/// The SHA-256 digest of some bytes. Contracts see its 32 bytes, in order. It shows as 64 lower-case hexadecimal digits.
#[derive(Clone, Copy, Debug, PartialEq, Eq)]
pub struct Digest {
    /// Its bytes.
    pub bytes: [u8; 32],
}

impl Model for Digest {
    ghost use Rattle.std.specs.Prelude.{List, ℕ};
    ghost use Rattle.sd_plan.specs.Digest.{IsDigest};

    ghost Value = { List ℕ };

    ghost view = { λ digest. digest.bytes };

    ghost invariant = { λ digest. IsDigest digest.bytes };

    ghost inverse = { λ bytes. record { bytes = bytes } };
}

impl Digest {
    /// The digest with these 32 bytes.
    pub fn from_slice(bytes: &[u8]) -> Digest
        requires { length bytes.now ≡ 32 }
        ensures same { result ≡ bytes.now }
        ensures digest { IsDigest result }
    {
        let mut own = [0; 32];
        own.copy_from_slice(bytes);
        Digest { bytes: own }
    }

    /// Its bytes.
    pub fn as_bytes(&self) -> &[u8]
        ensures same { result.now ≡ self.now }
        ensures digest { IsDigest self.now }
    {
        &self.bytes
    }

    /// Its 64 lower-case hexadecimal digits.
    pub fn digits(&self) -> [u8; 64]
        ensures { result ≡ digits_of self.now }
    {
        let mut digits = [0; 64];
        let _written = encode_to_slice(self.as_bytes(), &mut digits);
        digits
    }
}

impl fmt::Display for Digest {
    fn fmt<W: fmt::Write>(&self, f: &mut fmt::Formatter<W>) -> fmt::Result {
        for byte in self.bytes {
            write!(f, "{byte:02x}")?;
        }
        Ok(())
    }
}
