//! Which way the changes of an entry are gone through.
ghost use Rattle.std.specs.Prelude.{◌≡◌};
ghost use Rattle.reuse_change.specs.Entry.{opposite};

/// Which way an entry is gone through.
#[derive(Clone, Copy, Debug, PartialEq, Eq)]
pub enum Direction {
    /// As its command did.
    Forward,
    /// Back.
    Backward,
}

impl Direction {
    /// The other way.
    pub fn opposite(self) -> Direction
        ensures { result ≡ opposite self }
    {
        match self {
            Direction::Forward => Direction::Backward,
            Direction::Backward => Direction::Forward,
        }
    }
}
