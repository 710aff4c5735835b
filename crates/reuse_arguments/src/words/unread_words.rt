//! Words that clap refuses before anything here reads them: a subcommand, a style or a prefix of
//! another name, a subcommand without what it requires, or one text of two.
//!
//! So none come, but no contract says so: those of clap speak of the values that it found only for
//! a command line without global options, and this one has five. So such words are answered by a
//! fault, all in this one way.
ghost use Rattle.std.specs.Prelude.{◌≡◌, IfOk, Some};
ghost use Rattle.reuse_arguments.specs.LineFaults.{IsExpected, mistake_of, or_mistake, unread};

use crate::line::LineFault;
use std::alloc::{AllocError, Global};

/// The fault of such words.
pub fn unread(alloc: Global, text: &str) -> Result<LineFault, AllocError>
    ensures { IfOk result (λ fault. mistake_of fault ≡ Some (unread text.now)) }
{
    Ok(LineFault::Usage(format!(in alloc; "error: {text}\n")?))
}

/// What was read, or else the fault.
pub fn or_unread<T: Drop>(alloc: Global, found: Option<T>, text: &str) -> Result<T, LineFault>
    ensures { IsExpected (or_mistake found (unread text.now)) result }
{
    match found {
        Some(read) => Ok(read),
        None => Err(unread(alloc, text)?),
    }
}
