//! What a call counts while it plans, for whoever reports on the call. It is no part of what a
//! session answers or leaves. `tests/notes.sh` shows it.
ghost use Rattle.std.specs.Prelude.{◌≡◌, []};

use crate::unused::Unused;
use reuse_change::PathText;
use reuse_header::Harm;
use std::alloc::Global;

/// What a run or its preview counted.
#[derive(Debug, Drop)]
pub struct Counts {
    /// How many files a run skipped.
    pub skipped: usize,
    /// What of its choice of files came to nothing.
    pub unused: Unused,
    /// The files into which a header goes that could break something, in the order of the walk.
    pub harms: Vec<Harmed>,
    /// How many paths an amendment leaves.
    pub left: usize,
}

/// A file without a header, and what one could break there.
#[derive(Debug, Drop)]
pub struct Harmed {
    pub path: PathText,
    pub harm: Harm,
}

impl Counts {
    /// That nothing was counted.
    pub fn none(alloc: Global) -> Counts
        ensures skipped { result.skipped ≡ 0 }
        ensures names { result.unused.names ≡ 0 }
        ensures globs { result.unused.globs.items ≡ [] }
        ensures harms { result.harms.items ≡ [] }
        ensures left { result.left ≡ 0 }
    {
        Counts {
            skipped: 0,
            unused: Unused::none(alloc),
            harms: Vec::new(alloc),
            left: 0,
        }
    }
}
