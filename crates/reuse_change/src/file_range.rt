//! What a file holds at a range, and the file with other bytes there. A change asks it by length
//! and bytes alone: nothing here hashes.
ghost use Rattle.std.specs.Prelude.{◌≡◌, ◌↔◌, ◌+◌, ◌≤◌, ◌++◌, IfOk, IsTrue, length, take, drop};
ghost use Rattle.std.specs.Option.{option_copied};
ghost use Rattle.reuse_change.specs.Change.{HoldsPart};

use reuse_text::{Bytes, splice};
use std::alloc::{AllocError, Global};

/// Whether the path holds these bytes.
pub(crate) fn is_file(file: Option<&[u8]>, bytes: &Bytes) -> bool
    ensures { IsTrue result ↔ (option_copied file.entry ≡ Some bytes.now) }
{
    match file {
        None => false,
        Some(file) => file == bytes.as_slice(),
    }
}

/// Whether the file is `at` bytes, the part, and `rest` bytes.
pub(crate) fn holds_part(file: Option<&[u8]>, at: usize, part: &Bytes, rest: usize) -> bool
    ensures { IsTrue result ↔ HoldsPart (option_copied file.entry) part.now at rest }
{
    match file {
        None => false,
        Some(file) => has_part(file, at, part.as_slice(), rest),
    }
}

// Whether these bytes are `at` bytes, the part, and `rest` bytes.
fn has_part(file: &[u8], at: usize, part: &[u8], rest: usize) -> bool
    ensures { IsTrue result ↔ HoldsPart (Some file.now) part.now at rest }
{
    if file.len() < at || file.len() - at < part.len() || file.len() - at - part.len() != rest {
        return false;
    }
    &file[at..at + part.len()] == part
}

/// The file with the new bytes in place of those from `at` on.
pub(crate) fn spliced(
    alloc: Global,
    file: &[u8],
    at: usize,
    old_len: usize,
    new: &[u8],
) -> Result<Bytes, AllocError>
    requires { at + old_len ≤ length file.now }
    ensures { IfOk result (λ bytes. bytes ≡ take at file.now ++ new.now ++ drop (at + old_len) file.now) }
{
    // No memory holds more bytes than can be counted.
    if (file.len() - old_len).checked_add(new.len()).is_none() {
        return Err(AllocError);
    }
    Ok(Bytes::from_vec(splice(alloc, file, at, old_len, new)?))
}
