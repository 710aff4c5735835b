//! Why information and texts are not added to a file.
use reuse_header::HeaderRefusal;
use std::alloc::AllocError;
use thiserror::Error;

/// Why information and texts are not added to a file.
#[derive(Debug, Drop, Error)]
pub enum TextHeaderRefusal {
    /// A line of a text would end the comment.
    #[error("bad text")]
    BadText,
    /// The new block can't be written.
    #[error("{0}")]
    Header(HeaderRefusal),
}

impl From<HeaderRefusal> for TextHeaderRefusal {
    ghost use Rattle.std.specs.Prelude.{◌≡◌};
    ghost use Rattle.reuse_words.specs.declared.refusal.TextHeaderRefusal.TheVariants.{Header};

    ghost from_gives = { λ e r. r ≡ Header e };

    fn from(e: HeaderRefusal) -> TextHeaderRefusal {
        TextHeaderRefusal::Header(e)
    }
}

impl From<AllocError> for TextHeaderRefusal {
    ghost use Rattle.std.specs.Prelude.{◌≡◌};
    ghost use Rattle.reuse_header.specs.declared.annotation.HeaderRefusal.TheVariants.{Memory};
    ghost use Rattle.reuse_words.specs.declared.refusal.TextHeaderRefusal.TheVariants.{Header};

    ghost from_gives = { λ e r. r ≡ Header (Memory e) };

    fn from(e: AllocError) -> TextHeaderRefusal {
        TextHeaderRefusal::Header(HeaderRefusal::Memory(e))
    }
}
