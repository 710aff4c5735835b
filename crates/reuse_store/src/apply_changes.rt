//! Makes the changes of an entry in a store, one after the other.
ghost use Rattle.std.specs.Prelude.{◌≡◌, ◌≢◌, ◌↔◌, ◌⊎◌, ◌+◌, ◌<◌, ◌≤◌, ℕ, [], length, take, IsTrue, IfOk, IfErr, OnOk};
ghost use Rattle.std.specs.Prelude.{IsErrOf, OnErr, true};
ghost use Rattle.std.specs.List.{All, AllZip};
ghost use Rattle.reuse_change.specs.Files.{tree_of};
ghost use Rattle.reuse_store.specs.Batch.{IsFrontOf, IsReadIn, IsReadReady, MakesRead};
ghost use Rattle.reuse_change.specs.Change.{path_of, IsProper};
ghost use Rattle.reuse_change.specs.Tree.{is_of_tree, undo_folder_of};
ghost use Rattle.reuse_change.specs.Entry.{IsSmall, IsEntry, LeadsBy, CanBeMade, CanGo};
ghost use Rattle.reuse_store.specs.Asked.{OnlyReads, IsLater, FailsAsRead, IsSynced, Leaves};
ghost use Rattle.reuse_store.specs.Durable.{IsMidway};

use crate::apply_change::{applied, can_apply, makes};
use crate::{Cause, FileWrite, Reading, Store, StoreFault, is_clash_at};
use reuse_change::{Change, Direction};
use reuse_text::LONGEST_FILE;
use std::alloc::{AllocError, Global};

/// How many files a batch writes at most: all of them are open until their data is synced.
const MOST_IN_BATCH: usize = 256;

/// A batch takes no more files once those that it has read have so many bytes together.
const MOST_BYTES: usize = 8_388_608;

/// Makes the changes of an entry in order, this way, and behind them a barrier over their paths.
/// Its caller has tested that each can be made.
pub fn apply_changes<S: Store>(
    alloc: Global,
    store: &mut S,
    changes: &[Change],
    direction: Direction,
) -> Result<(), Cause>
    requires { S.honest store.now → CanGo direction (tree_of (S.files store.now)) changes.now }
    ensures done { S.honest store.new → IsEntry changes.now
        → OnOk result (LeadsBy direction changes.now (tree_of (S.files store.old)) (tree_of (S.files store.new))) }
    // Where the walk stops, the first so many changes are made and no other.
    ensures midway { S.honest store.new → IsEntry changes.now
        → OnErr result ((count : ℕ)
        × LeadsBy direction (take count changes.now) (tree_of (S.files store.old)) (tree_of (S.files store.new))) }
    // What a loss of power may leave is what was there with some of the changes made, if nothing
    // else might be left before.
    ensures left { S.honest store.new → IsEntry changes.now → IsSynced S.Store store.old → Leaves S.Store store.new
        (IsMidway direction changes.now (tree_of (S.files store.old)) (undo_folder_of (S.files store.old))) }
    ensures durable { S.honest store.new → IsEntry changes.now → IsSynced S.Store store.old
        → OnOk result (IsSynced S.Store store.new) }
    // Where each change can be made, nothing but the device and memory stops it.
    ensures cause { S.honest store.new → IsEntry changes.now
        → All (CanBeMade direction (tree_of (S.files store.old))) changes.now
        → (result ≢ Err Cause.Moved) × (result ≢ Err Cause.Clash) }
    ensures folder { S.honest store.new → IsEntry changes.now
        → undo_folder_of (S.files store.new) ≡ undo_folder_of (S.files store.old) }
    ensures device { IsErrOf result Cause.Device → S.failures store.old < S.failures store.new }
    ensures written { IsEntry changes.now → S.written store.new ≡ S.written store.old }
    ensures mutations { S.mutations store.new ≤ S.mutations store.old + length changes.now }
    ensures later { IsLater S.Store store.old store.new }
{
    let mut rest = changes;
    while !rest.is_empty() {
        let batch = read_batch(alloc, store, rest)?;
        let writes = writes_of(alloc, &batch, direction)?;
        store.write_all(alloc, &writes)?;
        rest = &rest[batch.len()..];
    }
    Ok(store.sync(alloc, changes)?)
}

// A change, and what its path held when it was read.
#[derive(Drop)]
struct ReadChange<'a> {
    change: &'a Change,
    reading: Reading,
}

// Reads the files of the first changes: of as many as one batch writes.
fn read_batch<'a, S: Store>(
    alloc: Global,
    store: &mut S,
    changes: &'a [Change],
) -> Result<Vec<ReadChange<'a>>, StoreFault>
    ensures some { changes.now ≢ [] → IfOk result (λ batch. 0 < length batch.items) }
    ensures changes { IfOk result (λ batch. IsFrontOf changes.now batch.items) }
    ensures readings { S.honest store.new → IfOk result (λ batch. All (IsReadIn (S.files store.old)) batch.items) }
    ensures fails { FailsAsRead S.Store store.old store.new result }
    ensures reads { OnlyReads S.Store store.old store.new }
{
    let mut batch = Vec::new(alloc);
    let mut bytes = 0_usize;
    for change in changes {
        let reading = store.read(alloc, change.path(), LONGEST_FILE)?;
        bytes = bytes.saturating_add(reading.len());
        let read = ReadChange { change, reading };
        batch.push(read).map_err(AllocError::from)?;
        if batch.len() >= MOST_IN_BATCH || bytes >= MOST_BYTES {
            return Ok(batch);
        }
    }
    Ok(batch)
}

// The writes that make these changes this way where their paths hold what was read.
fn writes_of<'a>(
    alloc: Global,
    batch: &'a [ReadChange<'a>],
    direction: Direction,
) -> Result<Vec<FileWrite<'a>>, Cause>
    ensures writes { IfOk result (λ writes. AllZip (MakesRead direction) batch.now writes.items) }
    ensures moved { All (λ read. IsProper read.change.now) batch.now → All (λ read. IsSmall read.change.now) batch.now
        → result ≡ Err Cause.Moved → ¬ (All (IsReadReady direction) batch.now) }
    ensures cause { IfErr result (λ cause. (cause ≡ Cause.Moved) ⊎ (cause ≡ Cause.Memory)) }
{
    let mut writes = Vec::new(alloc);
    for read in batch {
        let Some(file) = read.reading.file() else {
            return Err(Cause::Moved);
        };
        let path = read.change.path();
        let file = applied(read.change, direction, file)?;
        let write = FileWrite { path, file };
        writes.push(write).map_err(AllocError::from)?;
    }
    Ok(writes)
}

/// Whether the change can be made now, this way.
pub fn can_be_made<S: Store>(
    alloc: Global,
    store: &mut S,
    change: &Change,
    direction: Direction,
) -> Result<bool, StoreFault>
    ensures ok { S.honest store.new → IsProper change.now → IsSmall change.now → is_of_tree (path_of change.now) ≡ true
        → IfOk result (λ yes. IsTrue yes ↔ CanBeMade direction (tree_of (S.files store.old)) change.now) }
    ensures fails { FailsAsRead S.Store store.old store.new result }
    ensures reads { OnlyReads S.Store store.old store.new }
{
    if !can_apply(alloc, store, change, direction)? {
        return Ok(false);
    }
    if makes(change, direction) {
        return Ok(!is_clash_at(alloc, store, change.path())?);
    }
    Ok(true)
}
