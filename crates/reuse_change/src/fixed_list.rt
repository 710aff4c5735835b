//! A list that is handed on whole.
ghost use Rattle.std.specs.Prelude.{◌≡◌};

use std::marker::Model;

/// Items in order, which are lent and not changed.
#[derive(Debug, Drop)]
pub struct FixedList<T> {
    items: Vec<T>,
}

impl<T> Model for FixedList<T> {
    ghost use Rattle.std.specs.Prelude.{List};

    ghost Value = { List T };

    ghost view = { λ i. i.items.items };
}

impl<T> FixedList<T> {
    /// These items.
    pub fn new(items: Vec<T>) -> FixedList<T>
        ensures { result ≡ items.items }
    {
        FixedList { items }
    }

    // The items themselves.
    pub fn into_vec(self) -> Vec<T>
        ensures { result.items ≡ self }
    {
        self.items
    }

    /// Lends the items.
    pub fn as_slice(&self) -> &[T]
        ensures { result.now ≡ self.now }
    {
        self.items.as_slice()
    }
}
