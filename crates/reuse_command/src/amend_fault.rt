//! Why a file can't be amended.
ghost use Rattle.std.specs.Prelude.{Some};
ghost use Rattle.reuse_command.specs.RefusalTexts.{amend_fault_text};

use std::error::Error;
use std::fmt;

/// Why a file's licensing information can't be amended.
#[derive(Clone, Copy, Debug, PartialEq, Eq)]
pub enum AmendFault {
    /// A licence would be no licence expression.
    BadExpression,
    /// No copyright notice, no contributor and no licence would be left.
    NothingLeft,
    /// A text that would change has a form that isn't rewritten.
    CannotBeAmended,
}

impl fmt::Display for AmendFault {
    ghost output = { λ fault. Some (amend_fault_text fault) };

    fn fmt<W: fmt::Write>(&self, f: &mut fmt::Formatter<W>) -> fmt::Result {
        f.write_str(match self {
            AmendFault::BadExpression => "bad licence expression",
            AmendFault::NothingLeft => "nothing left",
            AmendFault::CannotBeAmended => "cannot be amended",
        })
    }
}

impl Error for AmendFault {}
