//! Laws on what a loss of power leaves at each path: each function has no body, and its contract is
//! the law. Nobody calls them.
ghost use Rattle.std.specs.Prelude.{◌≡◌, Bool, Option, false};
ghost use Rattle.reuse_store.specs.Asked.{Leaves};
ghost use Rattle.reuse_change.specs.Files.{Files, tree_of};
ghost use Rattle.reuse_change.specs.Tree.{undo_folder_of};
ghost use Rattle.reuse_tree.specs.declared.journal.head.PendingDirection.{PendingDirection};
ghost use Rattle.reuse_journal.specs.CommittedState.{IsCommittedState, IsPending, IsTree};
ghost use Rattle.reuse_journal.specs.Journal.{Recorded, State};
ghost use Rattle.reuse_journal.specs.Losses.{AreBetweenStates};
ghost use Rattle.reuse_journal.specs.Recovery.{HasPending};
ghost use Rattle.reuse_session.specs.session.Found.{AllAreAtSome, IsWhereStopped, start_between};
ghost use Rattle.reuse_session.specs.session.Machine.{Snapshots};
ghost use Rattle.reuse_session.specs.session.PathLosses.{IsTreeOf};
ghost use Rattle.reuse_session.specs.session.Session.{Simulates};
ghost use Rattle.reuse_session.specs.session.Stops.{CrashStatesWithin, SimulatesInFiles, start_at};

use reuse_store::Store;

/// What a loss of power may leave has at each path the file of the state where the run with stops
/// is. If a call was interrupted, it may be that of the next state. So a file is as before the call
/// or as after it, and never anything else.
pub fn losses_leave_files_before_or_after<S: Store>()
    ensures { (store : S) (state : Snapshots) (next : Option Snapshots) (forgetting : Bool)
        → CrashStatesWithin S.Store store state next forgetting
        → Leaves S.Store store (λ left. IsTreeOf state next (tree_of left)) }
{}

/// A journal is read whatever tree stands beside it. Files with the journal of a committed state
/// hold that state, but for their own tree. Files with a journal in which a step is pending have it
/// pending, and a recovery goes on from them.
pub fn journals_stand_beside_any_tree()
    ensures committed { (files left : Files) (held : State) (state : Snapshots) → IsCommittedState files held
        → Simulates held state → undo_folder_of left ≡ undo_folder_of files → IsTree (tree_of left)
        → SimulatesInFiles left (record state { tree = tree_of left }) }
    ensures pending { (direction : PendingDirection) (step : Recorded) (files left : Files) (held : State)
        → IsPending direction step held files → undo_folder_of left ≡ undo_folder_of files → IsTree (tree_of left)
        → HasPending direction step held.journal left }
{}

/// A call was stopped between two states of the model, and all was durable where it began. Then
/// each that a loss of power may leave is a start of the next call: at one of the two states, or a
/// step is pending, between the two or just begun at one of them.
pub fn what_is_found_is_a_start<S: Store>()
    ensures { (store : S) (first second : State) (state next : Snapshots) → Simulates first state
        → Simulates second next
        → AreBetweenStates S.Store (record { state = first; forgetting = false }) first second store
        → AllAreAtSome S.Store (IsWhereStopped (start_at state) (start_between state next)) store }
{}
