//! Why a project's file of styles is not taken.
use reuse_text::Bytes;
use std::alloc::AllocError;
use thiserror::Error;

/// Why a project's file of styles is not taken, in the order in which the reasons are looked for.
/// Its names are looked at in byte order.
#[derive(Debug, Drop, Error)]
pub enum StylesRefusal {
    /// The file is not UTF-8, or not TOML.
    #[error("not TOML")]
    NotToml,
    /// The keys are not just `version`, the number 1, and `styles`, a table whose values are texts.
    #[error("bad shape")]
    BadShape,
    /// The name is empty, or has a `/`.
    #[error("bad name {0}")]
    BadName(Bytes),
    /// The text of the name is neither a style's name nor `uncommentable`.
    #[error("bad style of {0}")]
    BadStyle(Bytes),
    /// The name is an earlier one, but for the case of ASCII letters.
    #[error("repeated name {0}")]
    Repeated(Bytes),
    /// A growth was refused.
    #[error("out of memory")]
    Memory(AllocError),
}

impl From<AllocError> for StylesRefusal {
    ghost use Rattle.std.specs.Prelude.{◌≡◌};
    ghost use Rattle.reuse_style.specs.declared.style_refusal.StylesRefusal.TheVariants.{Memory};

    ghost from_gives = { λ e r. r ≡ Memory e };

    fn from(e: AllocError) -> StylesRefusal {
        StylesRefusal::Memory(e)
    }
}
