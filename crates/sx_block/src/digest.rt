//! A digest of 32 bytes.

ghost use Rattle.std.specs.Prelude.{◌≡◌};
ghost use Rattle.sha2.specs.Sha256.{sha256};
ghost use Rattle.sx_block.specs.Digest.{IsDigest};

use sha2::{Digest as Hasher, Sha256};
use std::marker::Model;
use sx_bytes::ListOf;

/// A digest: 32 bytes, by SHA-256 of FIPS 180-4. Contracts see the list of the bytes.
#[derive(Clone, Copy, Debug, PartialEq, Eq)]
pub struct Digest {
    bytes: [u8; 32],
}

/// A list of digests.
pub type Digests = ListOf<Digest>;

impl Model for Digest {
    ghost use Rattle.std.specs.Prelude.{ℕ, List};

    ghost Value = { List ℕ };

    ghost view = { λ d. d.bytes };

    ghost inverse = { λ bytes. record { bytes = bytes } };
}

impl Digest {
    /// The digest of these bytes.
    pub fn of(bytes: [u8; 32]) -> Digest
        ensures bytes { result ≡ bytes }
        ensures digest { IsDigest result }
    {
        Digest { bytes }
    }

    /// The bytes, the first one first.
    pub fn bytes(&self) -> &[u8]
        ensures { result.now ≡ self.now }
    {
        &self.bytes
    }
}

/// SHA-256 of these bytes. It takes no memory.
pub fn digest_of(bytes: &[u8]) -> Digest
    ensures hash { result ≡ sha256 bytes.now }
    ensures digest { IsDigest result }
{
    Digest::of(Sha256::digest(bytes))
}
