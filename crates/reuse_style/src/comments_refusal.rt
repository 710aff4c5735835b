//! Why a project's file of comments is not taken.
use crate::marks::MarksFault;
use reuse_text::Bytes;
use std::alloc::AllocError;
use thiserror::Error;

/// Why a project's file of comments is not taken, in the order in which the reasons are looked for.
/// Its styles are looked at in byte order of their names.
#[derive(Debug, Drop, Error)]
pub enum CommentsRefusal {
    /// The file is not UTF-8, or not TOML.
    #[error("not TOML")]
    NotToml,
    /// The keys are not just `version`, the number 1, and `comments`, a table of tables of texts that
    /// say a style each, or `rules`, an array of tables that say a rule each, or both of these.
    #[error("bad shape")]
    BadShape,
    /// The name is not 1 to 40 lower-case letters, digits and `-`, or has a meaning already.
    #[error("bad name {0}")]
    BadName(Bytes),
    /// The marks of the style of this name are not good.
    #[error("bad marks of {0}: {1}")]
    BadMarks(Bytes, MarksFault),
    /// The style of the rule of this number is none. They are counted from 1, in order.
    #[error("bad style of rule {0}")]
    BadRule(usize),
    /// A growth was refused.
    #[error("out of memory")]
    Memory(AllocError),
}

impl From<AllocError> for CommentsRefusal {
    ghost use Rattle.std.specs.Prelude.{◌≡◌};
    ghost use Rattle.reuse_style.specs.declared.comments_refusal.CommentsRefusal.TheVariants.{Memory};

    ghost from_gives = { λ e r. r ≡ Memory e };

    fn from(e: AllocError) -> CommentsRefusal {
        CommentsRefusal::Memory(e)
    }
}
