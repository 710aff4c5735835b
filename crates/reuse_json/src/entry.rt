//! An entry of the journal.
use reuse_change::{Change, CommandName, FixedList, Moment};

/// Changes, in order.
pub type Changes = FixedList<Change>;

/// What one command changed.
#[derive(Debug, Drop)]
pub struct Entry {
    /// The changes, by path.
    pub changes: Changes,
    /// The command that made them.
    pub command: CommandName,
    /// When it ran.
    pub when: Moment,
}
