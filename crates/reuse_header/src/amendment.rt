//! Why licensing information of a file is not amended.
use crate::annotation::HeaderRefusal;
use std::alloc::AllocError;
use thiserror::Error;

/// Why licensing information of a file is not amended, in the order in which the reasons are looked
/// for, but that a neighbour is first asked whether it is text.
#[derive(Debug, Drop, Error)]
pub enum AmendHeaderRefusal {
    /// A licence would leave the grammar.
    #[error("bad licence expression")]
    BadExpression,
    /// No notice, no contributor and no licence would be left.
    #[error("nothing left")]
    NothingLeft,
    /// The new block can't be written.
    #[error("{0}")]
    Header(HeaderRefusal),
}

impl From<HeaderRefusal> for AmendHeaderRefusal {
    ghost use Rattle.std.specs.Prelude.{◌≡◌};
    ghost use Rattle.reuse_header.specs.declared.amendment.AmendHeaderRefusal.TheVariants.{Header};

    ghost from_gives = { λ e r. r ≡ Header e };

    fn from(e: HeaderRefusal) -> AmendHeaderRefusal {
        AmendHeaderRefusal::Header(e)
    }
}

impl From<AllocError> for AmendHeaderRefusal {
    ghost use Rattle.std.specs.Prelude.{◌≡◌};
    ghost use Rattle.reuse_header.specs.declared.annotation.HeaderRefusal.TheVariants.{Memory};
    ghost use Rattle.reuse_header.specs.declared.amendment.AmendHeaderRefusal.TheVariants.{Header};

    ghost from_gives = { λ e r. r ≡ Header (Memory e) };

    fn from(e: AllocError) -> AmendHeaderRefusal {
        AmendHeaderRefusal::Header(HeaderRefusal::Memory(e))
    }
}
