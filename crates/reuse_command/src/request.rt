//! What a session is asked for.

use crate::command::Command;
use reuse_change::{EntryNumbers, Moment};

/// A call that changes the tree, and that can be looked at before it is made.
#[derive(Debug, Drop)]
pub enum Call {
    /// To run a command.
    Run(Command),
    /// To take the last step back.
    Undo,
    /// To make the step again that was taken back last.
    Redo,
    /// To take the step of this number back, wherever it stands in the history.
    Revert {
        number: u32,
        /// A change that can't be taken back is left out, and not refused.
        skip_moved: bool,
    },
}

/// Steps of the history.
#[derive(Debug, Drop)]
pub enum Steps {
    /// All.
    All,
    /// Those of these numbers.
    Numbers(EntryNumbers),
}

/// What a session is asked for.
#[derive(Debug, Drop)]
pub enum Request {
    /// To make the call, at this moment.
    Make(Call, Moment),
    /// What the call would do.
    Preview(Call),
    /// To take these steps out of the history. The tree stays.
    Forget(Steps),
    /// To roll back what a call that stopped left pending, before a session is opened. Once one is
    /// open, nothing is pending.
    Recover {
        /// A path that can't be rolled back is left, and not refused.
        skip_moved: bool,
    },
    /// For the log.
    Log,
    /// To show the step of this number.
    Show(u32),
}
