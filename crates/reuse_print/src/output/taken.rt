//! The bytes that a writer took, which only contracts see.
ghost use Rattle.std.specs.Prelude.{◌≡◌, ◌++◌, List, [], ℕ};
ghost use Rattle.std.specs.Borrow.{ftrue};
ghost use Rattle.std.specs.Coded.{coded_list, coded_ℕ};

use std::marker::{Model, PhantomData};

/// The bytes that a writer took, in their order. It takes no bytes itself, and nothing runs: a
/// writer is trusted to have taken what it answers.
#[derive(Drop)]
pub struct TakenBytes {
    marker: PhantomData<u8>,
    pub ghost bytes: { List ℕ } by { coded_list coded_ℕ },
}

impl Model for TakenBytes {
    ghost also_owns = { λ _. ftrue };
}

impl TakenBytes {
    /// None so far.
    pub fn new() -> TakenBytes
        ensures { result.bytes ≡ [] }
    {
        TakenBytes {
            marker: PhantomData,
        }
    }

    /// Notes that the writer took these.
    pub fn note(&mut self, _bytes: &[u8])
        ensures { self.new ≡ record self.old { bytes = self.old.bytes ++ _bytes.now } }
    {}
}
