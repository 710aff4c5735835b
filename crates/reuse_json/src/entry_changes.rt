//! The changes of a good entry.
ghost use Rattle.std.specs.Prelude.{◌≡◌};
ghost use Rattle.reuse_json.specs.EntryText.{HavePaths};
ghost use Rattle.reuse_change.specs.Entry.{IsEntry};

use crate::Changes;
use reuse_change::Change;
use std::marker::Model;

/// The changes of an entry of the journal.
#[derive(Debug, Drop)]
pub struct EntryChanges {
    changes: Changes,
}

impl Model for EntryChanges {
    ghost use Rattle.std.specs.Prelude.{List};
    ghost use Rattle.reuse_change.specs.declared.change.Change.{Change};
    ghost use Rattle.reuse_change.specs.Entry.{IsEntry};
    ghost use Rattle.reuse_json.specs.EntryText.{HavePaths};

    ghost Value = { List Change };

    ghost view = { λ c. c.changes };

    ghost invariant = { λ c. IsEntry c.changes × HavePaths c.changes };
}

impl EntryChanges {
    /// Those of an entry that was read.
    pub fn new(changes: Changes) -> EntryChanges
        requires entry { IsEntry changes }
        requires paths { HavePaths changes }
        ensures { result ≡ changes }
    {
        EntryChanges { changes }
    }

    /// Lends the changes.
    pub fn as_slice(&self) -> &[Change]
        ensures changes { result.now ≡ self.now }
        ensures entry { IsEntry self.now }
        ensures paths { HavePaths self.now }
    {
        self.changes.as_slice()
    }
}
