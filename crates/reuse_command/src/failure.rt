//! What a call of a session answers that failed: the store or memory, and no rule, is to blame.
ghost use Rattle.std.specs.Prelude.{Some};
ghost use Rattle.reuse_command.specs.RefusalTexts.{failure_text};

use reuse_store::Cause;
use std::error::Error;
use std::fmt;

/// How the store failed. An allocation failure is no fault of it.
#[derive(Clone, Copy, Debug, PartialEq, Eq)]
pub enum Fault {
    /// The device failed.
    Device,
    /// A path of the journal was a folder, or a part above it was a file.
    Clash,
}

/// Why a call failed.
#[derive(Clone, Copy, Debug, PartialEq, Eq)]
pub enum Failure {
    /// The call stopped when a step was pending, in an opening from its first put or removal on.
    Interrupted(Cause),
    /// The store failed before a step was pending, in an opening before its first put or removal.
    Fault(Fault),
    /// Memory ran out before that.
    Memory,
}

impl fmt::Display for Failure {
    ghost output = { λ failure. Some (failure_text failure) };

    fn fmt<W: fmt::Write>(&self, f: &mut fmt::Formatter<W>) -> fmt::Result {
        f.write_str(match self {
            Failure::Interrupted(_) => "interrupted",
            Failure::Fault(_) => "store fault",
            Failure::Memory => "out of memory",
        })
    }
}

impl Error for Failure {}
