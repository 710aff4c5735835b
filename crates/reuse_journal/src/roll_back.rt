//! Rolls a pending step back: its files are as they were before it, and the head names it no more.
ghost use Rattle.std.specs.Prelude.{◌≡◌, ◌≢◌, ◌<◌, ◌≤◌, ◌+◌, ℕ, List, IfErr, OnOk, OnErr, IsErrOf, length, true, false};
ghost use Rattle.std.specs.List.{All};
ghost use Rattle.reuse_change.specs.Files.{Files, AreFiles, Clashes, tree_of};
ghost use Rattle.reuse_command.specs.Answer.{reported_of, HasCause, IsEarly, IsNoClash, IsRollBackRefusal};
ghost use Rattle.reuse_journal.specs.Carried.{IsRolledBack, StopsBack, StopsRollingBack};
ghost use Rattle.reuse_store.specs.Apply.{NotesMutations};
ghost use Rattle.reuse_change.specs.Entry.{IsEntry, SomeMade, ArePartlyMade, CanBeRolledBack, IsFirstWithout};
ghost use Rattle.reuse_journal.specs.Remembered.{IsSameBut};
ghost use Rattle.reuse_change.specs.Tree.{undo_folder_of};
ghost use Rattle.reuse_journal.specs.JournalFiles.{head_path};
ghost use Rattle.reuse_store.specs.declared.cause.Cause.{Cause};
ghost use Rattle.reuse_command.specs.declared.failure.Failure.TheVariants as failures;
ghost use Rattle.reuse_command.specs.declared.reply.Refusal.TheVariants as refusals;
ghost use Rattle.reuse_store.specs.Asked.{OnlyReads, IsLater, IsSynced, Leaves};
ghost use Rattle.reuse_store.specs.Durable.{IsMidway};
ghost use Rattle.reuse_journal.specs.Losses.{StopsBackWithDoubt};

use crate::files::{NewHead, put_head};
use crate::prepare::{Check, test_each};
use reuse_change::{Change, Direction};
use reuse_command::failure::{Failure, Fault};
use reuse_command::reply::Refusal;
use reuse_store::apply_change::roll_back_change;
use reuse_store::{Cause, Store};
use std::alloc::Global;

/// Tests that each change of a step that is pending this way is made or not, and can be rolled back
/// where it is made. Then rolls back those that are made, and puts the head. It is refused as
/// `Moved` at the first path where that can't be.
///
/// A barrier stands before the first change that is rolled back, so that the pending head is durable
/// then; one stands behind the last change, before the head is put; and one behind the head.
pub fn roll_back<S: Store>(
    alloc: Global,
    store: &mut S,
    changes: &[Change],
    direction: Direction,
    head: &NewHead<'_>,
) -> Result<(), Refusal>
    ensures done { S.honest store.new → IsEntry changes.now
        → OnOk result (IsRolledBack direction changes.now head.now.text.now (S.files store.old) (S.files store.new)) }
    ensures moved { S.honest store.new → IsEntry changes.now → (path : List ℕ) → result ≡ Err (Refusal.Moved path)
        → IsFirstWithout (CanBeRolledBack direction (tree_of (S.files store.old))) changes.now path }
    // From a tree on which some of the changes were made, it stops on the way back to that tree.
    ensures stopped { S.honest store.new → IsEntry changes.now → (start : Files)
        → ArePartlyMade direction changes.now start (tree_of (S.files store.old))
        → (cause : Cause) → result ≡ Err (refusals.Failed (failures.Interrupted cause))
        → StopsRollingBack direction changes.now head.now.text.now start (S.files store.old) (S.files store.new) }
    // It is never refused on the way from a tree.
    ensures recovers { S.honest store.new → IsEntry changes.now → (start : Files) → AreFiles start
        → ArePartlyMade direction changes.now start (tree_of (S.files store.old))
        → (path : List ℕ) → result ≢ Err (Refusal.Moved path) }
    // A loss of power leaves what is there once it is done. Where it stops, some of the changes are
    // still made, or the last head is put or not. That holds if each tree that might be left before
    // is the start with some of the changes made.
    ensures durable { S.honest store.new → IsEntry changes.now → (start : Files)
        → ArePartlyMade direction changes.now start (tree_of (S.files store.old))
        → Leaves S.Store store.old (λ kept. SomeMade direction changes.now start (tree_of kept))
        → OnOk result (IsSynced S.Store store.new) }
    ensures left { S.honest store.new → IsEntry changes.now → (start : Files)
        → ArePartlyMade direction changes.now start (tree_of (S.files store.old))
        → Leaves S.Store store.old (λ kept. SomeMade direction changes.now start (tree_of kept))
        → (cause : Cause) → result ≡ Err (refusals.Failed (failures.Interrupted cause))
        → StopsBackWithDoubt S.Store direction changes.now head.now.text.now start (S.files store.old) store.new }
    // Where it stops, each path is as it was or is rolled back.
    ensures back { S.honest store.new → IsEntry changes.now → (cause : Cause)
        → result ≡ Err (refusals.Failed (failures.Interrupted cause))
        → StopsBack direction changes.now head.now.text.now (S.files store.old) (S.files store.new) }
    ensures refusal { IfErr result IsRollBackRefusal }
    ensures clash { S.honest store.new → IsEntry changes.now → ¬ (Clashes (S.files store.old) head_path)
        → IfErr result IsNoClash }
    // It stops only where each change isn't made or can be rolled back.
    ensures tested { S.honest store.new → IsEntry changes.now → (cause : Cause)
        → result ≡ Err (refusals.Failed (failures.Interrupted cause))
        → All (CanBeRolledBack direction (tree_of (S.files store.old))) changes.now }
    ensures folder { S.honest store.new → IsEntry changes.now
        → IsSameBut head_path (undo_folder_of (S.files store.old)) (undo_folder_of (S.files store.new)) }
    // It is refused before it has put or removed anything, and stops after that; one that reports a
    // file that changed since it was tested may stop before.
    ensures early { IfErr result (λ refusal. IsEarly refusal → OnlyReads S.Store store.old store.new) }
    ensures late { (cause : Cause) → result ≡ Err (refusals.Failed (failures.Interrupted cause)) → cause ≢ Cause.Moved
        → S.mutations store.old < S.mutations store.new }
    ensures fault { IfErr result (HasCause (S.failures store.old < S.failures store.new)) }
    ensures written { IsEntry changes.now → S.written store.new ≤ S.written store.old + length head.now.text.now }
    ensures mutations { S.mutations store.new ≤ S.mutations store.old + length changes.now + 1 }
    ensures later { IsLater S.Store store.old store.new }
{
    test_each(alloc, store, changes, direction, Check::RollingBack)?;
    store.sync(alloc, &[])?;
    let mut started = false;
    match roll_back_changes(alloc, store, changes, direction, head, &mut started) {
        Ok(()) => Ok(()),
        Err(cause) => Err(refusal_for(started, cause)),
    }
}

/// The refusal of a cause: a stop once a put or a removal has started.
pub fn refusal_for(started: bool, cause: Cause) -> Refusal
    ensures { result ≡ reported_of started cause }
{
    Refusal::Failed(match (started, cause) {
        (false, Cause::Device) => Failure::Fault(Fault::Device),
        (false, Cause::Clash) => Failure::Fault(Fault::Clash),
        (false, Cause::Memory) => Failure::Memory,
        (_, cause) => Failure::Interrupted(cause),
    })
}

// Rolls back each change that is made, and behind a barrier puts the head. It notes that puts and
// removals have started before it calls one.
fn roll_back_changes<S: Store>(
    alloc: Global,
    store: &mut S,
    changes: &[Change],
    direction: Direction,
    head: &NewHead<'_>,
    started: &mut bool,
) -> Result<(), Cause>
    ensures done { S.honest store.new → IsEntry changes.now
        → OnOk result (IsRolledBack direction changes.now head.now.text.now (S.files store.old) (S.files store.new)) }
    ensures stopped { S.honest store.new → IsEntry changes.now → (start : Files)
        → ArePartlyMade direction changes.now start (tree_of (S.files store.old))
        → OnErr result
        (StopsRollingBack direction changes.now head.now.text.now start (S.files store.old) (S.files store.new)) }
    ensures durable { S.honest store.new → IsEntry changes.now → (start : Files)
        → ArePartlyMade direction changes.now start (tree_of (S.files store.old))
        → Leaves S.Store store.old (IsMidway direction changes.now start (undo_folder_of (S.files store.old)))
        → OnOk result (IsSynced S.Store store.new) }
    ensures left { S.honest store.new → IsEntry changes.now → (start : Files)
        → ArePartlyMade direction changes.now start (tree_of (S.files store.old))
        → Leaves S.Store store.old (IsMidway direction changes.now start (undo_folder_of (S.files store.old)))
        → OnErr result
        (StopsBackWithDoubt S.Store direction changes.now head.now.text.now start (S.files store.old) store.new) }
    ensures back { S.honest store.new → IsEntry changes.now
        → OnErr result (StopsBack direction changes.now head.now.text.now (S.files store.old) (S.files store.new)) }
    ensures cause { S.honest store.new → IsEntry changes.now
        → All (CanBeRolledBack direction (tree_of (S.files store.old))) changes.now
        → ¬ (Clashes (S.files store.old) head_path) → (result ≢ Err Cause.Moved) × (result ≢ Err Cause.Clash) }
    ensures folder { S.honest store.new → IsEntry changes.now
        → IsSameBut head_path (undo_folder_of (S.files store.old)) (undo_folder_of (S.files store.new)) }
    ensures notes { NotesMutations S.Store started.old started.new store.old store.new }
    ensures device { IsErrOf result Cause.Device → S.failures store.old < S.failures store.new }
    ensures written { IsEntry changes.now → S.written store.new ≤ S.written store.old + length head.now.text.now }
    ensures mutations { S.mutations store.new ≤ S.mutations store.old + length changes.now + 1 }
    ensures later { IsLater S.Store store.old store.new }
{
    for change in changes {
        roll_back_change(alloc, store, change, direction, started)?;
    }
    store.sync(alloc, changes)?;
    *started = true;
    put_head(alloc, store, head.path, head.text)
}
