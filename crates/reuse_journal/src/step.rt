//! Commits a step: its changes are made between two puts of the head.
ghost use Rattle.std.specs.Prelude.{◌≡◌, ◌≢◌, ◌⊎◌, ◌<◌, ◌≤◌, ◌+◌, OnOk, OnErr, IsErrOf, length};
ghost use Rattle.std.specs.List.{All};
ghost use Rattle.reuse_change.specs.Files.{Clashes, tree_of};
ghost use Rattle.reuse_change.specs.Entry.{IsEntry, CanBeMade, CanGo};
ghost use Rattle.reuse_journal.specs.Carried.{IsCarriedOut, IsStopped};
ghost use Rattle.reuse_journal.specs.JournalFiles.{head_path};
ghost use Rattle.reuse_store.specs.Asked.{IsLater, IsSynced};
ghost use Rattle.reuse_journal.specs.Losses.{HaveTree, StopsWithDoubt};

use crate::files::{HeadPath, put_head};
use reuse_change::{Change, Direction};
use reuse_store::apply_changes::apply_changes;
use reuse_store::{Cause, Store};
use std::alloc::Global;

/// The two heads of a step: where they are put, and their texts.
#[derive(Clone, Copy)]
pub struct StepHeads<'a> {
    /// Where both are put.
    pub path: &'a HeadPath,
    /// The text of the head that names the step as pending.
    pub pending: &'a [u8],
    /// The text of the head that lists it.
    pub settled: &'a [u8],
}

/// Puts the head that names the step as pending, makes its changes this way, and puts the head that
/// lists it, with a barrier behind each of the three. Its caller has tested that each change can be
/// made.
pub fn commit_step<S: Store>(
    alloc: Global,
    store: &mut S,
    changes: &[Change],
    direction: Direction,
    heads: &StepHeads<'_>,
) -> Result<(), Cause>
    requires { S.honest store.now → CanGo direction (tree_of (S.files store.now)) changes.now }
    ensures done { S.honest store.new → IsEntry changes.now → OnOk result
        (IsCarriedOut direction changes.now heads.now.settled.now (S.files store.old) (S.files store.new)) }
    ensures stopped { S.honest store.new → IsEntry changes.now → OnErr result ((S.files store.new ≡ S.files store.old)
        ⊎ IsStopped direction changes.now heads.now.pending.now (S.files store.old) (S.files store.new)
        ⊎ IsCarriedOut direction changes.now heads.now.settled.now (S.files store.old) (S.files store.new)) }
    // After a loss of power, if nothing but the journal was in doubt before: what is there, once it
    // is done; and where it stops, what was there with the pending head, or with some changes too,
    // or with all and the last head.
    ensures durable { S.honest store.new → IsEntry changes.now
        → HaveTree S.Store store.old (tree_of (S.files store.old)) → OnOk result (IsSynced S.Store store.new) }
    ensures doubt { S.honest store.new → IsEntry changes.now → HaveTree S.Store store.old (tree_of (S.files store.old))
        → OnErr result
        (StopsWithDoubt S.Store direction changes.now heads.now.pending.now heads.now.settled.now store.old store.new) }
    // Where each change can be made, no file has moved, and a clash is that of the head.
    ensures moved { S.honest store.new → IsEntry changes.now
        → All (CanBeMade direction (tree_of (S.files store.old))) changes.now
        → result ≢ Err Cause.Moved }
    ensures clash { S.honest store.new → IsEntry changes.now
        → All (CanBeMade direction (tree_of (S.files store.old))) changes.now
        → result ≡ Err Cause.Clash → Clashes (S.files store.old) head_path }
    ensures device { IsErrOf result Cause.Device → S.failures store.old < S.failures store.new }
    ensures begun { IsEntry changes.now → S.written store.old + length heads.now.pending.now ≤ S.written store.new }
    ensures written { IsEntry changes.now
        → S.written store.new ≤ S.written store.old + length heads.now.pending.now + length heads.now.settled.now }
    ensures mutations { S.mutations store.new ≤ S.mutations store.old + length changes.now + 2 }
    ensures later { IsLater S.Store store.old store.new }
{
    put_head(alloc, store, heads.path, heads.pending)?;
    apply_changes(alloc, store, changes, direction)?;
    put_head(alloc, store, heads.path, heads.settled)
}
