//! The SHA-256 of a file, as a change records it.
ghost use Rattle.std.specs.Prelude.{◌≡◌, ◌==◌, ℕ, List, length, if◌then◌else◌};
ghost use Rattle.reuse_text.specs.Text.{spliced};
ghost use Rattle.sha2.specs.Sha256.{sha256};
ghost use Rattle.reuse_change.specs.Parts.{joined};

use crate::Pieces;
use sha2::{Digest as _, Sha256};
use std::marker::Model;

/// A SHA-256: 32 bytes.
#[derive(Clone, Copy, Debug, PartialEq, Eq)]
pub struct Digest {
    bytes: [u8; 32],
}

impl Model for Digest {
    ghost Value = { List ℕ };

    ghost view = { λ digest. digest.bytes };

    ghost inverse = { λ bytes. record { bytes = bytes } };
}

impl Digest {
    /// The SHA-256 of these bytes.
    pub fn of(bytes: &[u8]) -> Digest
        ensures { result ≡ sha256 bytes.now }
    {
        Digest {
            bytes: Sha256::digest(bytes),
        }
    }

    /// The SHA-256 of these parts joined. It copies none of them.
    pub fn of_parts(parts: Pieces) -> Digest
        ensures { result ≡ sha256 (joined parts.entry) }
    {
        let mut hasher = Sha256::new();
        hasher.update(parts.front);
        hasher.update(parts.middle);
        hasher.update(parts.back);
        Digest {
            bytes: hasher.finalize(),
        }
    }

    /// These bytes as a digest.
    pub fn from_bytes(bytes: [u8; 32]) -> Digest
        ensures { result ≡ bytes }
    {
        Digest { bytes }
    }

    /// These bytes as a digest, where they are 32.
    pub fn from_slice(bytes: &[u8]) -> Option<Digest>
        ensures { result ≡ (if length bytes.now == 32 then Some bytes.now else None) }
    {
        if bytes.len() != 32 {
            return None;
        }
        let mut copy = [0; 32];
        copy.copy_from_slice(bytes);
        Some(Digest { bytes: copy })
    }

    /// Lends its bytes.
    pub fn as_slice(&self) -> &[u8]
        ensures bytes { result.now ≡ self.now }
        ensures size { length result.now ≡ 32 }
    {
        &self.bytes
    }
}

/// The digests of a file before a change and after it.
#[derive(Clone, Copy, Debug, PartialEq, Eq)]
pub struct Seal {
    /// Of the file before.
    pub before: Digest,
    /// Of the file after.
    pub after: Digest,
}

impl Seal {
    ghost use Rattle.reuse_change.specs.Digest.{seal_of, swapped};

    /// The digests of this file and of the file with new bytes in place of so many from `at` on. It
    /// copies nothing.
    pub fn of(file: &[u8], at: usize, old_len: usize, new: &[u8]) -> Seal
        ensures { result ≡ seal_of file.now (spliced file.now at old_len new.now) }
    {
        Seal {
            before: Digest::of(file),
            after: Digest::of_parts(Pieces::spliced(file, at, old_len, new)),
        }
    }

    /// The digests of the change that leads back.
    pub fn swapped(self) -> Seal
        ensures { result ≡ swapped self }
    {
        Seal {
            before: self.after,
            after: self.before,
        }
    }
}
