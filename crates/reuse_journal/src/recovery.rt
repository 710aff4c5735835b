//! Rolls a pending step back even where files of it have changed since: the way out when no session
//! can be opened.
//!
//! It walks as an opening does, over the changes that can be rolled back alone. The others are
//! found first, and nothing is put before all are.
ghost use Rattle.std.specs.Prelude.{◌≡◌, ◌≢◌, ◌<◌, ◌⊎◌, ◌∷◌, [], ℕ, List, not, true, false, Some, None, IfOk, IfErr};
ghost use Rattle.std.specs.Prelude.{OnOk, MatchResult};
ghost use Rattle.std.specs.FinMap as map;
ghost use Rattle.reuse_store.specs.Asked.{OnlyReads, IsLater, IsSynced, Leaves};
ghost use Rattle.reuse_change.specs.Change.{path_of, IsProper};
ghost use Rattle.std.specs.List.{All};
ghost use Rattle.reuse_change.specs.Entry.{makes, opposite, IsEntry, IsSmall, SomeMade, ArePartlyMade, CanBeRolledBack};
ghost use Rattle.reuse_change.specs.Files.{Files, Clashes, tree_of};
ghost use Rattle.reuse_change.specs.Listing.{ArePaths, is_among};
ghost use Rattle.reuse_change.specs.Tree.{is_of_tree, undo_folder_of, Sets};
ghost use Rattle.reuse_store.specs.declared.cause.Cause.{Cause};
ghost use Rattle.reuse_store.specs.declared.cause.Cause.TheVariants as causes;
ghost use Rattle.reuse_tree.specs.declared.journal.head.PendingDirection.{PendingDirection};
ghost use Rattle.reuse_command.specs.Answer.{HasCause, IsEarly, IsFailure, IsRollBackRefusal, IsNoClash, IsOpenRefusal};
ghost use Rattle.reuse_command.specs.Answer.{IsTestRefusal, RefusedAsRead, DidNotFail, IsEarlyFailure};
ghost use Rattle.reuse_journal.specs.Carried.{IsRolledBack, StopsBack};
ghost use Rattle.reuse_journal.specs.Journal.{Journal, Recorded, State};
ghost use Rattle.reuse_journal.specs.JournalFiles.{head_path};
ghost use Rattle.reuse_journal.specs.Losses.{AreBetweenStates, AwaitsRecovery, Earlier, SurvivesBetweenStates};
ghost use Rattle.reuse_journal.specs.Losses.{SurvivesRecovery};
ghost use Rattle.reuse_journal.specs.Losses.{HaveTree, MayHaveHead, StopsBackWithDoubt};
ghost use Rattle.reuse_journal.specs.Opening.{IsFirstBad, IsStuckAt, IsRead};
ghost use Rattle.reuse_journal.specs.Recovery.{ArePart, HasNonePending, RecoversFiles, StopsRecovering};
ghost use Rattle.reuse_journal.specs.Recovery.{RefusesRecovery, FindsNext, AreFound, changes_besides};
ghost use Rattle.reuse_journal.specs.Remembered.{IsSameBut};
ghost use Rattle.reuse_journal.specs.CommittedState.{IsCommittedState, BetweenStates};
ghost use Rattle.reuse_command.specs.declared.failure.Fault.{Fault};
ghost use Rattle.reuse_command.specs.declared.failure.Failure.TheVariants as failures;

use crate::files::{HeadPath, NewHead, put_head, read_entry};
use crate::history::History;
use crate::opening::read_journal;
use crate::roll_back::{refusal_for, roll_back};
use reuse_change::{Change, Direction, PathText, is_among};
use reuse_command::reply::{Paths, Recovered, Refusal};
use reuse_store::Store;
use reuse_store::apply_change::can_apply;
use reuse_store::apply_changes::can_be_made;
use reuse_tree::Pending;
use std::alloc::Global;

/// Rolls the step back that is pending in a journal, and clears it there: each path at the state
/// after the step is rolled back, and each at the state before it stays. With `skip_moved` a path
/// that is at neither state is left as it is, and so is one where a file would have to be made
/// again and clashes. It answers the step's number, the paths that were rolled back and those that
/// were left; where no step is pending it changes nothing, and says so.
///
/// It is refused as `BadJournal` as an opening is; without `skip_moved` as `Moved` at the first
/// path that would be left; or for an I/O error or an allocation failure, up to the first put or
/// removal as `Fault` or `Memory`. All these leave the files. From there on it stops as
/// `Interrupted`, and leaves files from which it goes on.
pub fn recover<S: Store>(
    alloc: Global,
    store: S,
    skip_moved: bool,
) -> (S, Result<Recovered, Refusal>)
    // Nothing, where no step is pending; and else each path of the step is rolled back, stays or is
    // left, and is reported so. The journal lists the same steps then, and none is pending.
    ensures recovered { S.honest result.0
        → IfOk result.1 (RecoversFiles skip_moved (S.files store) (S.files result.0)) }
    // Unless it reports an I/O error or an allocation failure, it is refused as `BadJournal`
    // exactly at the first path at fault, and as `Moved` exactly at the first path that is stuck,
    // where none is to be skipped.
    ensures exact { S.honest result.0 → DidNotFail result.1 → RefusesRecovery skip_moved (S.files store) result.1 }

    // It stops only where a step is pending: that is recovered, or each of its paths is as it was
    // or as recovering leaves it.
    ensures interrupted { S.honest result.0 → (cause : Cause)
        → result.1 ≡ Err (Refusal.Failed (failures.Interrupted cause))
        → StopsRecovering (S.files store) (S.files result.0) }
    // It is refused before it has put anything, and stops after that (but where it reports that a
    // file changed while it ran). Where no step is pending it only reads; and of the journal's
    // folder nothing but the head changes.
    ensures early { IfErr result.1 (λ refusal. IsEarly refusal → OnlyReads S.Store store result.0) }
    ensures late { (cause : Cause) → result.1 ≡ Err (Refusal.Failed (failures.Interrupted cause)) → cause ≢ causes.Moved
        → S.mutations store < S.mutations result.0 }
    ensures quiet { S.honest result.0 → (journal : Journal) → HasNonePending journal (S.files store)
        → OnlyReads S.Store store result.0 }
    ensures folder { S.honest result.0
        → IsSameBut head_path (undo_folder_of (S.files store)) (undo_folder_of (S.files result.0)) }

    // Of files in doubt between two committed states it makes what an opening makes: one of the
    // two. Where it fails they are in doubt still.
    ensures recovers { S.honest result.0 → (first second : State) → BetweenStates first second (S.files store)
        → MatchResult result.1
        (λ recovered. IsCommittedState (S.files result.0) first ⊎ IsCommittedState (S.files result.0) second)
        (λ refusal. IsFailure refusal × BetweenStates first second (S.files result.0)) }

    // If all that a loss of power may leave is in doubt between two committed states too, it is
    // safe then on the one that recovering leaves. If that fails, it is still in doubt.
    ensures survives { S.honest result.0 → (earlier : Earlier) → (held next : State)
        → AreBetweenStates S.Store earlier held next store
        → SurvivesBetweenStates S.Store earlier held next result.1 result.0 }
    // The same of a step of which some paths can't be rolled back. Once it is recovered, a loss of
    // power leaves what is there. If that stops, recovering what is left leads to the same files.
    ensures durable { S.honest result.0 → (direction : PendingDirection) → (step : Recorded) → (held : State)
        → AwaitsRecovery S.Store direction step held store
        → SurvivesRecovery S.Store direction step held result.1 result.0 }
    ensures refusal { IfErr result.1 IsOpenRefusal }
    ensures clash { S.honest result.0 → IfErr result.1 IsNoClash }
    ensures fault { IfErr result.1 (HasCause (S.failures store < S.failures result.0)) }
    ensures later { IsLater S.Store store result.0 }
{
    let mut store = store;
    let answer = recover_journal(alloc, &mut store, skip_moved);
    (store, answer)
}

// The same in a store.
fn recover_journal<S: Store>(
    alloc: Global,
    store: &mut S,
    skip_moved: bool,
) -> Result<Recovered, Refusal>
    ensures recovered { S.honest store.new
        → IfOk result (RecoversFiles skip_moved (S.files store.old) (S.files store.new)) }
    ensures bad { S.honest store.new → (path : List ℕ) → result ≡ Err (Refusal.BadJournal path)
        → IsFirstBad (S.files store.old) path }
    ensures moved { S.honest store.new → (path : List ℕ) → result ≡ Err (Refusal.Moved path) → (skip_moved ≡ false)
        × IsStuckAt (S.files store.old) path }
    ensures interrupted { S.honest store.new → (cause : Cause)
        → result ≡ Err (Refusal.Failed (failures.Interrupted cause))
        → StopsRecovering (S.files store.old) (S.files store.new) }
    ensures early { IfErr result (λ refusal. IsEarly refusal → OnlyReads S.Store store.old store.new) }
    ensures late { (cause : Cause) → result ≡ Err (Refusal.Failed (failures.Interrupted cause)) → cause ≢ causes.Moved
        → S.mutations store.old < S.mutations store.new }
    ensures quiet { S.honest store.new → (journal : Journal) → HasNonePending journal (S.files store.old)
        → OnlyReads S.Store store.old store.new }
    ensures folder { S.honest store.new
        → IsSameBut head_path (undo_folder_of (S.files store.old)) (undo_folder_of (S.files store.new)) }
    ensures survives { S.honest store.new → (earlier : Earlier) → (held next : State)
        → AreBetweenStates S.Store earlier held next store.old
        → SurvivesBetweenStates S.Store earlier held next result store.new }
    ensures durable { S.honest store.new → (direction : PendingDirection) → (step : Recorded) → (held : State)
        → AwaitsRecovery S.Store direction step held store.old
        → SurvivesRecovery S.Store direction step held result store.new }
    ensures refusal { IfErr result IsOpenRefusal }
    ensures clash { S.honest store.new → IfErr result IsNoClash }
    ensures fault { IfErr result (HasCause (S.failures store.old < S.failures store.new)) }
    ensures later { IsLater S.Store store.old store.new }
{
    let (pending, history) = read_journal(alloc, store)?;
    match pending {
        None => Ok(Recovered::nothing(alloc)),
        Some(pending) => recover_step(alloc, store, pending, &history, skip_moved),
    }
}

// Rolls back what is pending in a journal that was read.
fn recover_step<S: Store>(
    alloc: Global,
    store: &mut S,
    pending: Pending,
    history: &History,
    skip_moved: bool,
) -> Result<Recovered, Refusal>
    ensures recovered { S.honest store.new → (journal : Journal)
        → IsRead (S.files store.old) (Some pending) history.now journal
        → IfOk result (RecoversFiles skip_moved (S.files store.old) (S.files store.new)) }
    ensures no_bad { S.honest store.new → (journal : Journal)
        → IsRead (S.files store.old) (Some pending) history.now journal
        → (path : List ℕ) → result ≢ Err (Refusal.BadJournal path) }
    ensures moved { S.honest store.new → (journal : Journal)
        → IsRead (S.files store.old) (Some pending) history.now journal
        → (path : List ℕ) → result ≡ Err (Refusal.Moved path) → (skip_moved ≡ false)
        × IsStuckAt (S.files store.old) path }
    ensures interrupted { S.honest store.new → (journal : Journal)
        → IsRead (S.files store.old) (Some pending) history.now journal
        → (cause : Cause) → result ≡ Err (Refusal.Failed (failures.Interrupted cause))
        → StopsRecovering (S.files store.old) (S.files store.new) }
    ensures early { IfErr result (λ refusal. IsEarly refusal → OnlyReads S.Store store.old store.new) }
    ensures late { (cause : Cause) → result ≡ Err (Refusal.Failed (failures.Interrupted cause)) → cause ≢ causes.Moved
        → S.mutations store.old < S.mutations store.new }
    ensures folder { S.honest store.new → (journal : Journal)
        → IsRead (S.files store.old) (Some pending) history.now journal
        → IsSameBut head_path (undo_folder_of (S.files store.old)) (undo_folder_of (S.files store.new)) }
    ensures durable { S.honest store.new
        → (journal : Journal) → IsRead (S.files store.old) (Some pending) history.now journal
        → (direction : PendingDirection) → (step : Recorded) → (held : State)
        → AwaitsRecovery S.Store direction step held store.old
        → SurvivesRecovery S.Store direction step held result store.new }
    ensures refusal { IfErr result IsOpenRefusal }
    ensures clash { S.honest store.new → (journal : Journal)
        → IsRead (S.files store.old) (Some pending) history.now journal → IfErr result IsNoClash }
    ensures fault { IfErr result (HasCause (S.failures store.old < S.failures store.new)) }
    ensures later { IsLater S.Store store.old store.new }
{
    let entry = read_entry(alloc, store, pending.entry)?;
    let direction = pending.direction.direction();
    let found = find_each(alloc, store, entry.changes.as_slice(), direction)?;
    refuse_first(alloc, found.skipped.as_slice(), skip_moved)?;
    let settled = history.head_text(alloc, None)?;
    let path = HeadPath::new(alloc)?;
    let part = changes_besides(found.skipped.as_slice(), entry.changes.into_vec());
    let head = NewHead {
        path: &path,
        text: settled.as_slice(),
    };
    roll_back_part(alloc, store, part.as_slice(), direction, &head)?;
    Ok(Recovered {
        number: Some(pending.entry),
        changed: Paths::new(found.changed),
        skipped: Paths::new(found.skipped),
    })
}

// Rolls back changes of a step that may be none: then the head alone is put.
fn roll_back_part<S: Store>(
    alloc: Global,
    store: &mut S,
    changes: &[Change],
    direction: Direction,
    head: &NewHead<'_>,
) -> Result<(), Refusal>
    ensures done { S.honest store.new → ArePart changes.now
        → OnOk result (IsRolledBack direction changes.now head.now.text.now (S.files store.old) (S.files store.new)) }
    ensures back { S.honest store.new → ArePart changes.now → (cause : Cause)
        → result ≡ Err (Refusal.Failed (failures.Interrupted cause))
        → StopsBack direction changes.now head.now.text.now (S.files store.old) (S.files store.new) }
    // What a loss of power may leave, if each tree that might be left before is the start with some
    // of the changes made.
    ensures durable { S.honest store.new → ArePart changes.now
        → (start : Files) → ArePartlyMade direction changes.now start (tree_of (S.files store.old))
        → Leaves S.Store store.old (λ kept. SomeMade direction changes.now start (tree_of kept))
        → OnOk result (IsSynced S.Store store.new) }
    ensures left { S.honest store.new → ArePart changes.now
        → (start : Files) → ArePartlyMade direction changes.now start (tree_of (S.files store.old))
        → Leaves S.Store store.old (λ kept. SomeMade direction changes.now start (tree_of kept))
        → (cause : Cause) → result ≡ Err (Refusal.Failed (failures.Interrupted cause))
        → StopsBackWithDoubt S.Store direction changes.now head.now.text.now start (S.files store.old) store.new }
    ensures never_moved { S.honest store.new → ArePart changes.now
        → All (CanBeRolledBack direction (tree_of (S.files store.old))) changes.now
        → (path : List ℕ) → result ≢ Err (Refusal.Moved path) }
    ensures refusal { IfErr result IsRollBackRefusal }
    ensures clash { S.honest store.new → ArePart changes.now → ¬ (Clashes (S.files store.old) head_path)
        → IfErr result IsNoClash }
    ensures folder { S.honest store.new → ArePart changes.now
        → IsSameBut head_path (undo_folder_of (S.files store.old)) (undo_folder_of (S.files store.new)) }
    ensures early { IfErr result (λ refusal. IsEarly refusal → OnlyReads S.Store store.old store.new) }
    ensures late { (cause : Cause) → result ≡ Err (Refusal.Failed (failures.Interrupted cause)) → cause ≢ causes.Moved
        → S.mutations store.old < S.mutations store.new }
    ensures fault { IfErr result (HasCause (S.failures store.old < S.failures store.new)) }
    ensures later { IsLater S.Store store.old store.new }
{
    if changes.is_empty() {
        clear_head(alloc, store, head)
    } else {
        roll_back(alloc, store, changes, direction, head)
    }
}

// Puts a head that names no step, between barriers.
fn clear_head<S: Store>(alloc: Global, store: &mut S, head: &NewHead<'_>) -> Result<(), Refusal>
    ensures done { S.honest store.new
        → OnOk result (Sets head_path (Some head.now.text.now) (S.files store.old) (S.files store.new)) }
    ensures stopped { S.honest store.new → (cause : Cause) → result ≡ Err (Refusal.Failed (failures.Interrupted cause))
        → (S.files store.new ≡ S.files store.old)
        ⊎ Sets head_path (Some head.now.text.now) (S.files store.old) (S.files store.new) }
    ensures durable { S.honest store.new → HaveTree S.Store store.old (tree_of (S.files store.old))
        → OnOk result (IsSynced S.Store store.new) }
    ensures left { S.honest store.new → HaveTree S.Store store.old (tree_of (S.files store.old))
        → (cause : Cause) → result ≡ Err (Refusal.Failed (failures.Interrupted cause))
        → MayHaveHead S.Store head.now.text.now (S.files store.old) store.new }
    ensures refusal { IfErr result IsRollBackRefusal }
    ensures never_moved { (path : List ℕ) → result ≢ Err (Refusal.Moved path) }
    ensures clash { S.honest store.new → ¬ (Clashes (S.files store.old) head_path) → IfErr result IsNoClash }
    ensures early { IfErr result (λ refusal. IsEarly refusal → OnlyReads S.Store store.old store.new) }
    ensures late { (cause : Cause) → result ≡ Err (Refusal.Failed (failures.Interrupted cause)) → cause ≢ causes.Moved
        → S.mutations store.old < S.mutations store.new }
    ensures fault { IfErr result (HasCause (S.failures store.old < S.failures store.new)) }
    ensures later { IsLater S.Store store.old store.new }
{
    store.sync(alloc, &[])?;
    match put_head(alloc, store, head.path, head.text) {
        Ok(()) => Ok(()),
        Err(cause) => Err(refusal_for(true, cause)),
    }
}

// The paths at which a pending step is made and can be rolled back, and those at which it can't be
// rolled back.
#[derive(Drop)]
struct Found {
    changed: Vec<PathText>,
    skipped: Vec<PathText>,
}

// What is found at the paths of the changes of a step that is pending this way.
fn find_each<S: Store>(
    alloc: Global,
    store: &mut S,
    changes: &[Change],
    direction: Direction,
) -> Result<Found, Refusal>
    ensures found { S.honest store.new → IsEntry changes.now → IfOk result (λ found. AreFound direction
        (tree_of (S.files store.old)) changes.now found.changed.items found.skipped.items) }
    ensures refusal { IfErr result IsEarlyFailure }
    ensures fails { RefusedAsRead S.Store store.old store.new result }
    ensures reads { OnlyReads S.Store store.old store.new }
{
    let mut found = Found {
        changed: Vec::new(alloc),
        skipped: Vec::new(alloc),
    };
    for change in changes {
        find_next(alloc, store, &mut found, change, direction)?;
    }
    Ok(found)
}

// Adds what is found at the path of a change.
fn find_next<S: Store>(
    alloc: Global,
    store: &mut S,
    found: &mut Found,
    change: &Change,
    direction: Direction,
) -> Result<(), Refusal>
    ensures adds { S.honest store.new → IsProper change.now → IsSmall change.now
        → is_of_tree (path_of change.now) ≡ true
        → OnOk result (FindsNext direction (tree_of (S.files store.old)) change.now found.old.changed.items
        found.new.changed.items found.old.skipped.items found.new.skipped.items) }
    ensures refusal { IfErr result IsEarlyFailure }
    ensures fails { RefusedAsRead S.Store store.old store.new result }
    ensures reads { OnlyReads S.Store store.old store.new }
{
    if can_apply(alloc, store, change, direction)? {
        return Ok(());
    }
    let path = change.path().try_clone(alloc)?;
    if can_be_made(alloc, store, change, direction.opposite())? {
        Ok(found.changed.push(path)?)
    } else {
        Ok(found.skipped.push(path)?)
    }
}

// Where none is to be skipped, the first path is refused.
fn refuse_first(alloc: Global, skipped: &[PathText], skip_moved: bool) -> Result<(), Refusal>
    ensures none { skip_moved ≡ false → OnOk result (skipped.now ≡ []) }
    ensures moved { (path : List ℕ) → result ≡ Err (Refusal.Moved path) → (skip_moved ≡ false)
        × ((rest : List (List ℕ)) × (skipped.now ≡ path ∷ rest)) }
    ensures refusal { IfErr result IsTestRefusal }
    ensures fault { (fault : Fault) → result ≢ Err (Refusal.Failed (failures.Fault fault)) }
{
    match skipped.first() {
        Some(path) if !skip_moved => Err(Refusal::Moved(path.try_clone(alloc)?)),
        _ => Ok(()),
    }
}

// The changes of which none is of these paths, which are in byte order.
fn changes_besides(paths: &[PathText], changes: Vec<Change>) -> Vec<Change>
    ensures { ArePaths paths.now → result.items ≡ changes_besides paths.now changes.items }
{
    let mut left = changes;
    left.retain(|change| is_besides(paths, change));
    left
}

fn is_besides(paths: &[PathText], change: &Change) -> bool
    ensures { ArePaths paths.now → result ≡ not (is_among paths.now (path_of change.now)) }
{
    !is_among(paths, change.path().as_bytes())
}
