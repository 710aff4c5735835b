//! Why a header can't be written.
ghost use Rattle.std.specs.Prelude.{Some};
ghost use Rattle.reuse_command.specs.RefusalTexts.{fault_text};

use std::error::Error;
use std::fmt;

/// Why a file's header block can't be written.
#[derive(Clone, Copy, Debug, PartialEq, Eq)]
pub enum HeaderFault {
    /// The style of the file hasn't the form that was asked for.
    NoSuchForm,
    /// A line of a text that is added would end the comment.
    BadText,
    /// A line of the block would close the comment.
    HoldsCloser,
    /// The file would be longer than `LONGEST_FILE` bytes.
    TooLong,
    /// The block would not be found again.
    Unsettled,
    /// The neighbour isn't text.
    NotText,
}

impl fmt::Display for HeaderFault {
    ghost output = { λ fault. Some (fault_text fault) };

    fn fmt<W: fmt::Write>(&self, f: &mut fmt::Formatter<W>) -> fmt::Result {
        f.write_str(match self {
            HeaderFault::NoSuchForm => "no such form",
            HeaderFault::BadText => "bad text",
            HeaderFault::HoldsCloser => "holds the closer",
            HeaderFault::TooLong => "too long",
            HeaderFault::Unsettled => "block would not be found again",
            HeaderFault::NotText => "neighbour is not text",
        })
    }
}

impl Error for HeaderFault {}
