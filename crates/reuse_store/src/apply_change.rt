//! Makes one change in a store: the only place where a file of the tree is written.
ghost use Rattle.std.specs.Prelude.{◌≡◌, ◌≢◌, ◌↔◌, ◌+◌, ◌<◌, ◌≤◌, ◌⊎◌, true, IsTrue, IfOk, IfErr, OnOk, OnErr, IsErrOf};
ghost use Rattle.std.specs.Prelude.{IsSome};
ghost use Rattle.std.specs.Option.{option_copied};
ghost use Rattle.std.specs.FinMap as map;
ghost use Rattle.reuse_change.specs.Files.{Clashes};
ghost use Rattle.reuse_change.specs.Change.{path_of, IsProper};
ghost use Rattle.reuse_store.specs.Apply.{held_in, IsReadyByRange, IsChangeRolledBack, NotesMutations};
ghost use Rattle.reuse_change.specs.Tree.{is_of_tree, Sets};
ghost use Rattle.reuse_change.specs.Entry.{makes, opposite, IsSmall, IsReady, LeadsByOneChange, AppliesBy};
ghost use Rattle.reuse_store.specs.Asked.{OnlyReads, IsLater, FailsAsRead, MaySet};
ghost use Rattle.reuse_store.specs.WriteLeaves.{WriteLeaves};

use crate::{Cause, FileWrite, Store, StoreFault};
use reuse_change::{Change, ChangeState, Direction, Pieces};
use reuse_text::LONGEST_FILE;
use std::alloc::Global;

/// Whether the change, gone through this way, makes a file.
pub fn makes(change: &Change, direction: Direction) -> bool
    ensures { result ≡ makes direction change.now }
{
    match (change, direction) {
        (Change::Make { .. }, Direction::Forward) | (Change::Drop { .. }, Direction::Backward) =>
            true,
        _ => false,
    }
}

// Whether the change can be gone through this way where its path holds this.
fn is_ready(change: &Change, direction: Direction, file: Option<&[u8]>) -> bool
    ensures ready { IsTrue result → IsReady direction change.now (option_copied file.entry) }
    ensures stuck { IsProper change.now → IsReady direction change.now (option_copied file.entry) → IsTrue result }
{
    match direction {
        Direction::Forward => change.state(file) == ChangeState::Before,
        Direction::Backward => change.state(file) == ChangeState::After,
    }
}

// Whether the change can be gone through this way where its path holds this, by range and length
// alone: it hashes nothing.
fn is_ready_by_range(change: &Change, direction: Direction, file: Option<&[u8]>) -> bool
    ensures ready { IsTrue result → IsReadyByRange direction change.now (option_copied file.entry) }
    ensures stuck { IsProper change.now → IsReadyByRange direction change.now (option_copied file.entry)
        → IsTrue result }
{
    match direction {
        Direction::Forward => change.state_by_range(file) == ChangeState::Before,
        Direction::Backward => change.state_by_range(file) == ChangeState::After,
    }
}

/// Whether the change can be gone through this way as the store has its file now.
pub fn can_apply<S: Store>(
    alloc: Global,
    store: &mut S,
    change: &Change,
    direction: Direction,
) -> Result<bool, StoreFault>
    ensures ok { S.honest store.new → IsProper change.now → IsSmall change.now
        → IfOk result
        (λ yes. IsTrue yes ↔ IsReady direction change.now (map.get (S.files store.old) (path_of change.now))) }
    ensures fails { FailsAsRead S.Store store.old store.new result }
    ensures reads { OnlyReads S.Store store.old store.new }
{
    let reading = store.read(alloc, change.path(), LONGEST_FILE)?;
    match reading.file() {
        Some(file) => Ok(is_ready(change, direction, file)),
        None => Ok(false),
    }
}

// What the path of the change holds once it is gone through this way, where it holds this now. It
// takes no memory and calls no store, so that it is no cause to stop once a put has started. It
// tests range and length alone: a file that was tested by its seal isn't hashed again.
pub(crate) fn applied<'a>(
    change: &'a Change,
    direction: Direction,
    file: Option<&'a [u8]>,
) -> Result<Option<Pieces<'a>>, Cause>
    ensures applies { IsReady direction change.now (option_copied file.entry)
        → IfOk result (λ after. AppliesBy direction change.now (option_copied file.entry) (held_in after)) }
    ensures moved { IsProper change.now → result ≡ Err Cause.Moved
        → ¬ (IsReady direction change.now (option_copied file.entry)) }
    ensures cause { IfErr result (λ cause. cause ≡ Cause.Moved) }
{
    if !is_ready_by_range(change, direction, file) {
        return Err(Cause::Moved);
    }
    match (change, direction) {
        (Change::Make { new, .. }, Direction::Forward) => Ok(Some(Pieces::whole(new.as_slice()))),
        (Change::Drop { old, .. }, Direction::Backward) => Ok(Some(Pieces::whole(old.as_slice()))),
        (Change::Make { .. }, Direction::Backward) | (Change::Drop { .. }, Direction::Forward) =>
            Ok(None),
        (Change::Splice { at, old, new, .. }, direction) => {
            let Some(file) = file else {
                return Err(Cause::Moved);
            };
            match direction {
                Direction::Forward => Ok(Some(Pieces::spliced(
                    file,
                    *at,
                    old.len(),
                    new.as_slice(),
                ))),
                Direction::Backward => Ok(Some(Pieces::spliced(
                    file,
                    *at,
                    new.len(),
                    old.as_slice(),
                ))),
            }
        }
    }
}

// Makes the change this way by one put or removal, where its path holds this then.
fn put_applied<S: Store>(
    alloc: Global,
    store: &mut S,
    change: &Change,
    after: Option<Pieces>,
) -> Result<(), Cause>
    ensures ok { S.honest store.new
        → OnOk result (Sets (path_of change.now) (held_in after.entry) (S.files store.old) (S.files store.new)) }
    ensures err { S.honest store.new → OnErr result ((S.files store.new ≡ S.files store.old)
        ⊎ Sets (path_of change.now) (held_in after.entry) (S.files store.old) (S.files store.new)) }
    ensures moved { result ≢ Err Cause.Moved }
    ensures clash { S.honest store.new → result ≡ Err Cause.Clash
        → Clashes (S.files store.old) (path_of change.now) × IsSome (held_in after.entry) }
    ensures device { IsErrOf result Cause.Device → S.failures store.old < S.failures store.new }
    // After a loss of power the path holds what it might before, or this.
    ensures left { MaySet S.Store (path_of change.now) (λ file. file ≡ held_in after.entry) store.old store.new }
    ensures written { is_of_tree (path_of change.now) ≡ true → S.written store.new ≡ S.written store.old }
    ensures mutations { S.mutations store.new ≡ S.mutations store.old + 1 }
    ensures later { IsLater S.Store store.old store.new }
{
    write_at(alloc, store, change, after)?;
    Ok(())
}

// Makes the path of the change hold this, or no file.
fn write_at<S: Store>(
    alloc: Global,
    store: &mut S,
    change: &Change,
    file: Option<Pieces>,
) -> Result<(), StoreFault>
    ensures { WriteLeaves S.Store (path_of change.now) (held_in file.entry) store.old store.new result }
{
    let path = change.path();
    let wanted = FileWrite { path, file };
    store.write(alloc, &wanted)
}

/// Takes the change back, where it is made, by one read and one put or removal. It notes that these
/// have started before it calls one.
pub fn roll_back_change<S: Store>(
    alloc: Global,
    store: &mut S,
    change: &Change,
    direction: Direction,
    started: &mut bool,
) -> Result<(), Cause>
    ensures ok { S.honest store.new → IsProper change.now → IsSmall change.now
        → OnOk result (IsChangeRolledBack direction change.now (S.files store.old) (S.files store.new)) }
    ensures err { S.honest store.new → IsProper change.now → IsSmall change.now
        → OnErr result ((S.files store.new ≡ S.files store.old)
        ⊎ LeadsByOneChange (opposite direction) change.now (S.files store.old) (S.files store.new)) }
    ensures moved { S.honest store.new → IsProper change.now → IsSmall change.now → result ≡ Err Cause.Moved
        → ¬ (IsReady (opposite direction) change.now (map.get (S.files store.old) (path_of change.now)))
        × ¬ (IsReady direction change.now (map.get (S.files store.old) (path_of change.now))) }
    ensures clash { S.honest store.new → IsProper change.now → IsSmall change.now → result ≡ Err Cause.Clash
        → ¬ (IsReady direction change.now (map.get (S.files store.old) (path_of change.now)))
        × (makes (opposite direction) change.now ≡ true) × Clashes (S.files store.old) (path_of change.now) }
    // After a loss of power its path holds what it might before, or what it did before the change.
    ensures left { S.honest store.new → IsProper change.now → IsSmall change.now
        → MaySet S.Store (path_of change.now) (AppliesBy (opposite direction) change.now
        (map.get (S.files store.old) (path_of change.now))) store.old store.new }
    ensures notes { NotesMutations S.Store started.old started.new store.old store.new }
    ensures device { IsErrOf result Cause.Device → S.failures store.old < S.failures store.new }
    ensures written { is_of_tree (path_of change.now) ≡ true → S.written store.new ≡ S.written store.old }
    ensures mutations { S.mutations store.new ≤ S.mutations store.old + 1 }
    ensures later { IsLater S.Store store.old store.new }
{
    let reading = store.read(alloc, change.path(), LONGEST_FILE)?;
    match reading.file() {
        Some(file) => roll_back_change_from(alloc, store, change, direction, file, started),
        None => Err(Cause::Moved),
    }
}

// Takes the change back, where it is made and its path holds this.
fn roll_back_change_from<S: Store>(
    alloc: Global,
    store: &mut S,
    change: &Change,
    direction: Direction,
    file: Option<&[u8]>,
    started: &mut bool,
) -> Result<(), Cause>
    ensures ok { S.honest store.new → map.get (S.files store.old) (path_of change.now) ≡ option_copied file.entry
        → OnOk result (IsChangeRolledBack direction change.now (S.files store.old) (S.files store.new)) }
    ensures err { S.honest store.new → map.get (S.files store.old) (path_of change.now) ≡ option_copied file.entry
        → OnErr result ((S.files store.new ≡ S.files store.old)
        ⊎ LeadsByOneChange (opposite direction) change.now (S.files store.old) (S.files store.new)) }
    ensures moved { IsProper change.now → result ≡ Err Cause.Moved
        → ¬ (IsReady (opposite direction) change.now (option_copied file.entry))
        × ¬ (IsReady direction change.now (option_copied file.entry)) }
    ensures clash { S.honest store.new → IsProper change.now
        → map.get (S.files store.old) (path_of change.now) ≡ option_copied file.entry → result ≡ Err Cause.Clash
        → ¬ (IsReady direction change.now (option_copied file.entry)) × (makes (opposite direction) change.now ≡ true)
        × Clashes (S.files store.old) (path_of change.now) }
    ensures left { map.get (S.files store.old) (path_of change.now) ≡ option_copied file.entry
        → MaySet S.Store (path_of change.now) (AppliesBy (opposite direction) change.now
        (map.get (S.files store.old) (path_of change.now))) store.old store.new }
    ensures notes { NotesMutations S.Store started.old started.new store.old store.new }
    ensures device { IsErrOf result Cause.Device → S.failures store.old < S.failures store.new }
    ensures written { is_of_tree (path_of change.now) ≡ true → S.written store.new ≡ S.written store.old }
    ensures mutations { S.mutations store.new ≤ S.mutations store.old + 1 }
    ensures later { IsLater S.Store store.old store.new }
{
    if is_ready(change, direction, file) {
        return Ok(());
    }
    let back = direction.opposite();
    if !is_ready(change, back, file) {
        return Err(Cause::Moved);
    }
    let after = applied(change, back, file)?;
    *started = true;
    put_applied(alloc, store, change, after)
}
