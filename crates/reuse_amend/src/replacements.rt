//! Texts, and those that take their places.
ghost use Rattle.std.specs.Prelude.{◌≡◌, ◌++◌, ◌∷◌, [], List, OnOk, OnErr};
ghost use Rattle.reuse_amend.specs.declared.replacements.Replacement.{Replacement};

use reuse_text::Bytes;
use std::alloc::{AllocError, Global};
use std::marker::Model;

/// A text, and the one that takes its place.
#[derive(Debug, Drop)]
pub struct Replacement {
    pub(crate) old: Bytes,
    pub(crate) new: Bytes,
}

/// Replacements, in the order in which they are made.
#[derive(Debug, Drop)]
pub struct Replacements {
    list: Vec<Replacement>,
}

impl Model for Replacements {
    ghost Value = { List Replacement };

    ghost view = { λ s. s.list.items };
}

impl Replacements {
    pub(crate) fn new(alloc: Global) -> Replacements
        ensures { result ≡ [] }
    {
        Replacements {
            list: Vec::new(alloc),
        }
    }

    pub(crate) fn as_slice(&self) -> &[Replacement]
        ensures { result.now ≡ self.now }
    {
        self.list.as_slice()
    }

    // Adds a replacement.
    pub(crate) fn push(&mut self, replacement: Replacement) -> Result<(), AllocError>
        ensures ok { OnOk result (self.new ≡ self.old ++ replacement ∷ []) }
        ensures err { OnErr result (self.new ≡ self.old) }
    {
        self.list.push(replacement)?;
        Ok(())
    }
}
