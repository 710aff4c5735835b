//! What the contracts of the program say of lines that follow one another, and of a loss of power:
//! what a function's contract says is the law. Nobody calls them.
ghost use Rattle.std.specs.Prelude.{[], Bool, List, Option};
ghost use Rattle.reuse_change.specs.Files.{Files};
ghost use Rattle.reuse_folder.specs.Honesty.{IsCrashState};
ghost use Rattle.reuse_folder.specs.PathLosses.{SupposesDurableTree};
ghost use Rattle.reuse_session.specs.session.Machine.{Snapshots};
ghost use Rattle.reuse_session.specs.session.Stops.{CrashStatesWithin, RunState, FilesAt};
ghost use Rattle.reuse_undo.specs.run.LinesInTurn.{CarriedLine, HoldsSame, AreInTurn, RunAsModel};
ghost use Rattle.reuse_undo.specs.run.LinesInTurn.{LineAndLoss, AreInTurnWithLosses, RunWithLosses};
ghost use Rattle.reuse_undo.specs.run.PathsFound.{IsFoundByPaths};

use reuse_disk::DiskSystem;
use reuse_folder::{DiskStore, losses_stay_at_their_paths};
use reuse_print::output::Sink;
use reuse_session::loss_laws::losses_leave_files_before_or_after;
use reuse_store::Store;

/// Lines are carried out one after the other, each on the files that the one before it left, as
/// `run_request` and `run_on_folder` do. Each may be stopped, by any failure of its store, and so
/// may the rollback with which the next one begins. Then what they report is a run of the model
/// with stops, and the files are left where that run is.
pub fn lines_run_as_the_model<S: Store, O: Sink>()
    ensures stops { (lines : List (CarriedLine S O)) (first last : S) (start : RunState)
        → AreInTurn (HoldsSame S.Store) S.Store O.contents O.failed first lines last
        → FilesAt (S.files first) start.state start.next → (end : RunState) × RunAsModel O.contents lines start end
        × FilesAt (S.files last) end.state end.next }
{}

/// Lines are carried out so, and behind some of them the power is lost, any number of times: behind
/// a line that ended, or that was stopped in the middle of its work. The next line finds any files
/// that such a loss may leave, and what it finds is durable. Then what the lines report is a run of
/// the model with stops and losses, and the files are left where that run is. A loss leads to the
/// state where the line ended, and to no other behind a step that was made. It may lead to a step
/// that was stopped, pending or made.
pub fn lines_run_on_after_losses<S: Store, O: Sink>()
    ensures { (lines : List (LineAndLoss S O)) (first last : S) (start : RunState)
        → AreInTurnWithLosses S.Store O.contents O.failed first lines last
        → FilesAt (S.files first) start.state start.next
        → (end : RunState) × RunWithLosses O.contents lines start end × FilesAt (S.files last) end.state end.next }
{}

/// A folder was left by a run with stops, and its record supposes that each file of the tree was
/// durable at the start. Whatever else might really have been left then, what a loss of power leaves
/// now has at each path the file of the run's state; or that of the next state, if a call was
/// interrupted. Only where one of these is the file of the start, it may be what might have been
/// left there at the start. So a file that a call has changed is safe once the call has succeeded.
pub fn losses_spare_files_that_calls_have_changed<S: DiskSystem + Drop>(folder: &DiskStore<S>)
    ensures { (state : Snapshots) (next : Option Snapshots) (forgetting : Bool) (initial : List Files) (left : Files)
        → CrashStatesWithin ⟦<DiskStore<S> as Store>⟧ folder.now state next forgetting
        → SupposesDurableTree folder.now.calls.start initial folder.now.calls.initial_crash_states
        → IsCrashState folder.now.calls.start initial folder.now.calls.calls left
        → (kept : Files) × IsCrashState folder.now.calls.start initial [] kept
        × IsFoundByPaths (⟦<DiskStore<S> as Store>⟧.crash_states folder.now) state next folder.now.calls.start
        kept left }
{
    losses_stay_at_their_paths();
    losses_leave_files_before_or_after::<DiskStore<S>>();
}
