//! How licensing information is added to a file, and what comes of it.
use reuse_style::Form;
use reuse_text::Bytes;
use std::alloc::AllocError;
use thiserror::Error;

/// How licensing information is added.
#[derive(Clone, Copy, Debug)]
pub struct How {
    /// The form that is asked for, if one is.
    pub form: Option<Form>,
    /// Whether the notices of one holder are merged.
    pub merge: bool,
    /// Whether the new block takes the old one's place.
    pub replace: bool,
}

/// A change of one range of a file.
#[derive(Debug, Drop)]
pub struct Splice {
    /// The place of the range.
    pub at: usize,
    /// The bytes that stand there: the old block, or none.
    pub old: Bytes,
    /// The bytes that take their place.
    pub new: Bytes,
}

/// Why licensing information is not added to a file, in the order in which the reasons are looked
/// for.
#[derive(Debug, Drop, Error)]
pub enum HeaderRefusal {
    /// The neighbour file is not UTF-8, or has a NUL byte.
    #[error("neighbour is not text")]
    NotText,
    /// The style does not have the form that was asked for.
    #[error("no such form")]
    NoSuchForm,
    /// A line of a comment over several lines would end it.
    #[error("holds the closer")]
    HoldsCloser,
    /// The new file would be over 16 MiB.
    #[error("too long")]
    TooLong,
    /// The header block of the new file would not be the one that was written.
    #[error("block would not be found again")]
    Unsettled,
    /// A growth was refused.
    #[error("out of memory")]
    Memory(AllocError),
}

impl From<AllocError> for HeaderRefusal {
    ghost use Rattle.std.specs.Prelude.{◌≡◌};
    ghost use Rattle.reuse_header.specs.declared.annotation.HeaderRefusal.TheVariants.{Memory};

    ghost from_gives = { λ e r. r ≡ Memory e };

    fn from(e: AllocError) -> HeaderRefusal {
        HeaderRefusal::Memory(e)
    }
}
