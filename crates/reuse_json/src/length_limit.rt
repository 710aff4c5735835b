//! How long the lists and objects of a journal's text may be, level by level.
ghost use Rattle.std.specs.Prelude.{◌≡◌};
ghost use Rattle.reuse_json.specs.Trimmed.{inner, most};

use reuse_change::layout::MOST_LISTED;

/// A place in a text of the journal.
#[derive(Clone, Copy, Drop)]
pub enum LengthLimit {
    /// A head.
    Head,
    /// A member of a head: a list of numbers, what is pending, or a number.
    Numbers,
    /// An entry, of which the list of changes is left out.
    Entry,
    /// A change.
    Change,
    /// A text or a number.
    Leaf,
}

impl LengthLimit {
    /// How many items or members are kept there.
    pub(crate) fn most(self) -> usize
        ensures { result ≡ most self }
    {
        match self {
            LengthLimit::Head => 5,
            LengthLimit::Numbers => MOST_LISTED,
            LengthLimit::Entry => 4,
            LengthLimit::Change => 8,
            LengthLimit::Leaf => 0,
        }
    }

    /// The place of each item or member.
    pub(crate) fn inner(self) -> LengthLimit
        ensures { result ≡ inner self }
    {
        match self {
            LengthLimit::Head => LengthLimit::Numbers,
            _ => LengthLimit::Leaf,
        }
    }
}
