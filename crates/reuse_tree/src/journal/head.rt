//! The head of the journal.
ghost use Rattle.std.specs.Prelude.{◌≡◌};

use reuse_change::{Direction, EntryNumbers};

/// Which way an entry is being applied.
#[derive(Clone, Copy, Debug, PartialEq, Eq)]
pub enum PendingDirection {
    /// A new entry, for the first time.
    Do,
    /// An entry that was done, backwards.
    Undo,
    /// An entry that was undone, forwards.
    Redo,
}

/// The entry that is pending.
#[derive(Clone, Copy, Debug, PartialEq, Eq)]
pub struct Pending {
    /// Its number.
    pub entry: u32,
    /// Which way it goes.
    pub direction: PendingDirection,
}

/// The head of the journal.
#[derive(Debug, Drop)]
pub struct Head {
    /// The entries that are done, oldest first.
    pub done: EntryNumbers,
    /// The entries that are undone; the last is the next to be redone.
    pub undone: EntryNumbers,
    /// The number that the next entry gets.
    pub next: u32,
    /// The entry that is pending, if any.
    pub pending: Option<Pending>,
}

impl PendingDirection {
    ghost use Rattle.reuse_tree.specs.Head.{listed_direction, direction_of, direction_name};

    /// The way of an entry that is listed.
    pub fn of_listed(direction: Direction) -> PendingDirection
        ensures { result ≡ listed_direction direction }
    {
        match direction {
            Direction::Forward => PendingDirection::Redo,
            Direction::Backward => PendingDirection::Undo,
        }
    }

    /// Which way the changes of the entry are gone through.
    pub fn direction(self) -> Direction
        ensures { result ≡ direction_of self }
    {
        match self {
            PendingDirection::Do | PendingDirection::Redo => Direction::Forward,
            PendingDirection::Undo => Direction::Backward,
        }
    }

    /// The word that stands for the way in a head.
    pub(crate) fn name(self) -> &'static str
        ensures { result.now ≡ direction_name self }
    {
        match self {
            PendingDirection::Do => "do",
            PendingDirection::Undo => "undo",
            PendingDirection::Redo => "redo",
        }
    }
}
