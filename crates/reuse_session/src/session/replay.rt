//! A session goes one step back, or on again: an undo and a redo are the same walk over the changes
//! of a step, and no file is written unless each change can be made. `Session::answer` and callers
//! of the library use it. Tested by `tests/sessions`.
ghost use Rattle.std.specs.Prelude.{◌≡◌, ◌↔◌, ◌⊎◌, ◌++◌, ◌∷◌, [], List, true, false, IfErr};
ghost use Rattle.reuse_change.specs.declared.direction.Direction.TheVariants as go;
ghost use Rattle.reuse_command.specs.Answer.{DidNotFail, IsOpenRefusal};
ghost use Rattle.reuse_session.specs.session.Calls.{IsCall, LeavesReplay};
ghost use Rattle.reuse_journal.specs.History.{entries_ahead};
ghost use Rattle.reuse_journal.specs.Journal.{State, Replays, Undoes, Redoes, ahead, end_of, reply_of};
ghost use Rattle.reuse_session.specs.session.SafeCalls.{SurvivesCall};
ghost use Rattle.reuse_session.specs.session.Machine.{Snapshots};
ghost use Rattle.reuse_session.specs.session.Model.{ReplaysTo};
ghost use Rattle.reuse_session.specs.session.Session.{store_of, is_broken, memory_of, IsReplay, SimulatesInSession};
ghost use Rattle.reuse_session.specs.session.Session.{SimulatesState};
ghost use Rattle.reuse_journal.specs.declared.history.ListedEntry.{ListedEntry};

use crate::session::Session;
use reuse_change::Direction;
use reuse_command::reply::{Paths, Refusal, Response};
use reuse_journal::files::read_entry;
use reuse_journal::history::ListedEntry;
use reuse_journal::prepare::prepare;
use reuse_store::Store;
use reuse_tree::{Pending, PendingDirection};
use std::alloc::Global;

impl<S: Store + Drop> Session<S> {
    /// Takes the last step back, which is the next to be redone then. It answers the step's paths.
    ///
    /// It is refused as `Broken` or `NothingToUndo`, as `Moved` at the first path that isn't as the
    /// step left it or that can't be made, or for an I/O error or an allocation failure, before
    /// the step is pending. Where it stops later it is `Interrupted`.
    pub fn undo(&mut self, alloc: Global) -> Result<Response, Refusal>
        ensures broken { (result ≡ Err Refusal.Broken) ↔ (is_broken self.old ≡ true) }
        ensures nothing { (result ≡ Err Refusal.NothingToUndo)
            ↔ ((is_broken self.old ≡ false) × ((memory_of self.old).done ≡ [])) }
        ensures stays { (result ≡ Err Refusal.Broken) ⊎ (result ≡ Err Refusal.NothingToUndo) → self.new ≡ self.old }

        // Unless the answer reports an I/O error or an allocation failure, it is accepted exactly
        // where each file is as the step left it and no path that it makes clashes. It then takes
        // these changes back, and changes nothing else.
        ensures exact { S.honest (store_of self.new) → (held : State) → SimulatesState S.files self.old held
            → DidNotFail result → (left : State) × SimulatesState S.files self.new left
            × Undoes held.journal.done held result left }
        ensures machine { S.honest (store_of self.new) → (state : Snapshots) → SimulatesInSession S.files self.old state
            → DidNotFail result → (next : Snapshots) × ReplaysTo go.Backward state.past state result next
            × SimulatesInSession S.files self.new next }

        // What is left after a loss of power, at any moment of the call.
        ensures survives { SurvivesCall S.Store (IsReplay go.Backward) result self.old self.new }
        // What any call leaves, and what an undo leaves of the files, whatever it answers.
        ensures call { IsCall S.Store result self.old self.new }
        ensures leaves { LeavesReplay S.Store go.Backward result self.old self.new }
    {
        self.replay(alloc, Direction::Backward)
    }

    /// Makes the step again that was taken back last. It answers the step's paths.
    ///
    /// It is refused as `Broken` or `NothingToRedo`, as `Moved` at the first path that isn't as it
    /// was before the step or that can't be made, or for an I/O error or an allocation failure,
    /// before the step is pending. Where it stops later it is `Interrupted`.
    pub fn redo(&mut self, alloc: Global) -> Result<Response, Refusal>
        ensures broken { (result ≡ Err Refusal.Broken) ↔ (is_broken self.old ≡ true) }
        ensures nothing { (result ≡ Err Refusal.NothingToRedo)
            ↔ ((is_broken self.old ≡ false) × ((memory_of self.old).undone ≡ [])) }
        ensures stays { (result ≡ Err Refusal.Broken) ⊎ (result ≡ Err Refusal.NothingToRedo) → self.new ≡ self.old }

        // Unless the answer reports an I/O error or an allocation failure, it is accepted exactly
        // where each file is as it was before the step and no path that it makes clashes. It then
        // makes these changes, and changes nothing else.
        ensures exact { S.honest (store_of self.new) → (held : State) → SimulatesState S.files self.old held
            → DidNotFail result → (left : State) × SimulatesState S.files self.new left
            × Redoes held.journal.undone held result left }
        ensures machine { S.honest (store_of self.new) → (state : Snapshots) → SimulatesInSession S.files self.old state
            → DidNotFail result → (next : Snapshots) × ReplaysTo go.Forward state.future state result next
            × SimulatesInSession S.files self.new next }

        // What is left after a loss of power, at any moment of the call.
        ensures survives { SurvivesCall S.Store (IsReplay go.Forward) result self.old self.new }
        // What any call leaves, and what a redo leaves of the files, whatever it answers.
        ensures call { IsCall S.Store result self.old self.new }
        ensures leaves { LeavesReplay S.Store go.Forward result self.old self.new }
    {
        self.replay(alloc, Direction::Forward)
    }

    // Goes one step this way: takes the last one done back, or makes the next undone one again.
    fn replay(&mut self, alloc: Global, direction: Direction) -> Result<Response, Refusal>
        ensures broken { (result ≡ Err Refusal.Broken) ↔ (is_broken self.old ≡ true) }
        ensures nothing { (result ≡ Err (end_of direction))
            ↔ ((is_broken self.old ≡ false) × (entries_ahead direction (memory_of self.old) ≡ [])) }
        ensures stays { (result ≡ Err Refusal.Broken) ⊎ (result ≡ Err (end_of direction)) → self.new ≡ self.old }
        ensures exact { S.honest (store_of self.new) → (held : State) → SimulatesState S.files self.old held
            → DidNotFail result → (left : State) × SimulatesState S.files self.new left
            × Replays direction (ahead direction held.journal) held result left }
        ensures survives { SurvivesCall S.Store (IsReplay direction) result self.old self.new }
        ensures call { IsCall S.Store result self.old self.new }
        ensures leaves { LeavesReplay S.Store direction result self.old self.new }
    {
        if self.broken {
            return Err(Refusal::Broken);
        }
        let Some(listed) = self.history.next(direction) else {
            return Err(end_of(direction));
        };
        self.step_listed(alloc, listed, direction)
    }

    // Tests that the changes of the next entry this way can be made, and makes them.
    fn step_listed(
        &mut self,
        alloc: Global,
        listed: ListedEntry,
        direction: Direction,
    ) -> Result<Response, Refusal>
        requires { (front : List ListedEntry) × (entries_ahead direction (memory_of self.now) ≡ front ++ listed ∷ []) }
        ensures exact { S.honest (store_of self.new) → (held : State) → SimulatesState S.files self.old held
            → DidNotFail result → (left : State) × SimulatesState S.files self.new left
            × Replays direction (ahead direction held.journal) held result left }
        ensures survives { SurvivesCall S.Store (IsReplay direction) result self.old self.new }
        ensures call { IsCall S.Store result self.old self.new }
        ensures leaves { LeavesReplay S.Store direction result self.old self.new }
        ensures kinds { IfErr result IsOpenRefusal }
    {
        let moved = self.history.after(alloc, listed, direction)?;
        let number = listed.number();
        let entry = read_entry(alloc, &mut self.store, number)?;
        let changes = entry.changes.as_slice();
        let paths = prepare(alloc, &mut self.store, changes, direction)?;
        let pending = Pending {
            entry: number,
            direction: PendingDirection::of_listed(direction),
        };
        self.step(alloc, changes, pending, moved)?;
        Ok(reply_of(direction, paths))
    }
}

// The refusal where no step is this way.
pub(crate) fn end_of(direction: Direction) -> Refusal
    ensures { result ≡ end_of direction }
{
    match direction {
        Direction::Forward => Refusal::NothingToRedo,
        Direction::Backward => Refusal::NothingToUndo,
    }
}

// The answer after a step this way.
fn reply_of(direction: Direction, paths: Paths) -> Response
    ensures { result ≡ reply_of direction paths }
{
    match direction {
        Direction::Forward => Response::Redone(paths),
        Direction::Backward => Response::Undone(paths),
    }
}
