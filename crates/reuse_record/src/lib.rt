//! Values that only contracts see, as the calls of a system with their answers. No clause of a
//! library says what a file, a folder or a writer does: what was asked of them is noted in a
//! record, and contracts speak of that.
#![tactic(auto)]

ghost use Rattle.std.specs.Prelude.{◌≡◌};

use std::marker::{Model, PhantomData};

/// A value that only contracts see, which read the record as the value itself. It takes no bytes,
/// and nothing runs.
pub struct Record<T> {
    marker: PhantomData<T>,
    ghost value: { T },
}

impl<T> Model for Record<T> {
    ghost use Rattle.std.specs.Borrow.{ftrue};

    ghost Value = { T };

    ghost coded = { T.code };

    ghost view = { λ kept. kept.value };

    ghost also_owns = { λ _. ftrue };
}

impl<T> Drop for Record<T> {
    fn drop(self) {
        let Record { marker: _ } = self;
    }
}

impl<T> Record<T> {
    /// A record with any value, which the caller's proof picks.
    pub fn new() -> Record<T>
        ghost start: { T }
        ensures { result ≡ start }
    {
        Record {
            marker: PhantomData,
        }
    }

    /// Notes these two. What the value is then, the caller's proof picks from the value before and
    /// from them. So a record reports what its owner's contracts say of it, and no more.
    pub fn note<A, B>(&mut self, _first: &A, _second: &B)
        ghost next: { T }
        ensures { self.new ≡ next }
    {
        *self = Record::new();
    }
}
