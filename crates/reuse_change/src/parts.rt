//! What a file holds, in three parts that are joined: so a part in the middle is put or hashed
//! without a copy of the file.
ghost use Rattle.std.specs.Prelude.{◌≡◌, IfOk};
ghost use Rattle.reuse_text.specs.Text.{spliced};
ghost use Rattle.reuse_change.specs.Parts.{joined};

use reuse_text::Bytes;
use std::alloc::{AllocError, Global};

/// A file's bytes in three parts, which follow on each other.
#[derive(Clone, Copy)]
pub struct Pieces<'a> {
    /// The bytes before the middle.
    pub front: &'a [u8],
    /// The bytes between.
    pub middle: &'a [u8],
    /// The bytes behind the middle.
    pub back: &'a [u8],
}

impl<'a> Pieces<'a> {
    /// These bytes alone.
    pub fn whole(bytes: &'a [u8]) -> Pieces<'a>
        ensures { joined result ≡ bytes.now }
    {
        Pieces {
            front: bytes,
            middle: b"",
            back: b"",
        }
    }

    /// The file with new bytes in place of so many from `at` on.
    pub fn spliced(file: &'a [u8], at: usize, old_len: usize, new: &'a [u8]) -> Pieces<'a>
        ensures { joined result ≡ spliced file.now at old_len new.now }
    {
        Pieces {
            front: &file[..at.min(file.len())],
            middle: new,
            back: &file[at.saturating_add(old_len).min(file.len())..],
        }
    }

    // The bytes of the file, in one copy.
    pub fn join(self, alloc: Global) -> Result<Bytes, AllocError>
        ensures { IfOk result (λ bytes. bytes ≡ joined self.entry) }
    {
        // No memory holds more bytes than a number counts.
        let Some(start) = self.front.len().checked_add(self.middle.len()) else {
            return Err(AllocError);
        };
        let Some(len) = start.checked_add(self.back.len()) else {
            return Err(AllocError);
        };
        let mut bytes = Vec::with_capacity(alloc, len)?;
        bytes.extend_from_slice(self.front)?;
        bytes.extend_from_slice(self.middle)?;
        bytes.extend_from_slice(self.back)?;
        Ok(Bytes::from_vec(bytes))
    }
}
