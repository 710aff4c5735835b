//! Previews: what a call would do, alone or with the changes of the same plan. They only read, and
//! what is remembered stays. `Session::answer` and callers of the library use them. Tested by
//! `tests/sessions` and `tests/dry_run.sh`.
ghost use Rattle.std.specs.Prelude.{◌≡◌, ◌↔◌, ◌++◌, ◌∷◌, [], List, true, false, length, None, Some, IfOk, IfErr, OnOk};
ghost use Rattle.reuse_command.specs.Answer.{DidNotFail, IsReadRefusal};
ghost use Rattle.reuse_plan.specs.Counted.{IsCounted};
ghost use Rattle.reuse_session.specs.session.Session.{counts_of};
ghost use Rattle.reuse_plan.specs.PathOutcomes.{path_outcomes_of, first_refusal};
ghost use Rattle.reuse_journal.specs.History.{entries_ahead};
ghost use Rattle.reuse_journal.specs.Journal.{State, ahead, changes_ahead, end_of};
ghost use Rattle.reuse_session.specs.session.Machine.{Snapshots, run_path_outcomes};
ghost use Rattle.reuse_session.specs.session.Model.{PreviewsReplayTo, kept_ahead};
ghost use Rattle.reuse_journal.specs.Labels.{is_full};
ghost use Rattle.reuse_plan.specs.Outcome.{outcome_of, edits_of};
ghost use Rattle.reuse_plan.specs.Plan.{IsPlan, Records};
ghost use Rattle.reuse_session.specs.session.Previews.{run_path_outcomes_on, path_outcomes_alone, PreviewsReplay};
ghost use Rattle.reuse_session.specs.session.Previews.{ReadsOnly, IsPreviewRefusal};
ghost use Rattle.reuse_session.specs.session.Session.{store_of, is_broken, memory_of, SimulatesState};
ghost use Rattle.reuse_session.specs.session.Session.{SimulatesInSession};
ghost use Rattle.reuse_change.specs.Entry.{IsEntry};
ghost use Rattle.reuse_change.specs.declared.direction.Direction.TheVariants as go;
ghost use Rattle.reuse_journal.specs.declared.history.ListedEntry.{ListedEntry};

use crate::session::Session;
use crate::session::replay::end_of;
use crate::session::replay_path_outcomes::replay_path_outcomes;
use reuse_change::Direction;
use reuse_command::command::Command;
use reuse_command::path_outcome::{PathOutcomes, Previewed};
use reuse_command::reply::Refusal;
use reuse_journal::files::read_entry;
use reuse_journal::history::ListedEntry;
use reuse_plan::run::plan_preview;
use reuse_store::Store;
use std::alloc::Global;

impl<S: Store + Drop> Session<S> {
    /// Answers what a run of the command would do, path by path, and changes nothing. Where one of
    /// the path outcomes is a refusal, a run is refused by the first, and else it is accepted.
    ///
    /// It is refused as `Broken` or `JournalFull`, or for an I/O error or an allocation failure.
    pub fn preview(&mut self, alloc: Global, command: &Command) -> Result<PathOutcomes, Refusal>
        ensures broken { (result ≡ Err Refusal.Broken) ↔ (is_broken self.old ≡ true) }
        ensures full { (result ≡ Err Refusal.JournalFull)
            ↔ ((is_broken self.old ≡ false)
            × (is_full (length (memory_of self.old).done) (memory_of self.old).used ≡ true)) }
        // The path outcomes are those of the command on the tree that is there, and so those of the
        // model.
        ensures exact { S.honest (store_of self.new) → (held : State) → SimulatesState S.files self.old held
            → IfOk result (λ path_outcomes. path_outcomes ≡ path_outcomes_of command.now held.tree) }
        ensures answers { S.honest (store_of self.new) → (held : State) → SimulatesState S.files self.old held
            → DidNotFail result → result ≡ run_path_outcomes_on held command.now }
        ensures machine { S.honest (store_of self.new) → (state : Snapshots) → SimulatesInSession S.files self.old state
            → DidNotFail result → result ≡ run_path_outcomes state command.now }
        // It counts as a run does.
        ensures counts { S.honest (store_of self.new) → (held : State) → SimulatesState S.files self.old held
            → OnOk result (IsCounted command.now held.tree (counts_of self.new)) }
        ensures reads_only { ReadsOnly S.Store result self.old self.new }
        ensures refusal { IfErr result IsPreviewRefusal }
    {
        path_outcomes_alone(self.preview_changes(alloc, command))
    }

    /// Answers what a run of the command would do, path by path, as `preview` does, and with that
    /// the changes of the same plan, in byte order of their paths. Where none of the path outcomes
    /// is a refusal they are those that a run would record, and none where it would change nothing.
    ///
    /// It is refused as `Broken` or `JournalFull`, or for an I/O error or an allocation failure.
    pub fn preview_changes(
        &mut self,
        alloc: Global,
        command: &Command,
    ) -> Result<Previewed, Refusal>
        ensures broken { (result ≡ Err Refusal.Broken) ↔ (is_broken self.old ≡ true) }
        ensures full { (result ≡ Err Refusal.JournalFull)
            ↔ ((is_broken self.old ≡ false)
            × (is_full (length (memory_of self.old).done) (memory_of self.old).used ≡ true)) }
        // The path outcomes are those of the command on the tree that is there, and so those of the
        // model.
        ensures exact { S.honest (store_of self.new) → (held : State) → SimulatesState S.files self.old held
            → IfOk result (λ previewed. previewed.path_outcomes ≡ path_outcomes_of command.now held.tree) }
        ensures answers { S.honest (store_of self.new) → (held : State) → SimulatesState S.files self.old held
            → DidNotFail result → path_outcomes_alone result ≡ run_path_outcomes_on held command.now }
        ensures machine { S.honest (store_of self.new) → (state : Snapshots) → SimulatesInSession S.files self.old state
            → DidNotFail result → path_outcomes_alone result ≡ run_path_outcomes state command.now }
        // It counts as a run does.
        ensures counts { S.honest (store_of self.new) → (held : State) → SimulatesState S.files self.old held
            → OnOk result (IsCounted command.now held.tree (counts_of self.new)) }
        // Where none of the path outcomes is a refusal, the changes are none or a good entry, lead
        // from the tree to that of the command's outcome, and hold what the command removes and
        // writes.
        ensures plan { S.honest (store_of self.new) → (held : State) → SimulatesState S.files self.old held
            → IfOk result (λ previewed. first_refusal previewed.path_outcomes ≡ None
            → IsPlan (outcome_of command.now held.tree) held.tree previewed.changes) }
        ensures recorded { S.honest (store_of self.new) → (held : State) → SimulatesState S.files self.old held
            → IfOk result (λ previewed. first_refusal previewed.path_outcomes ≡ None
            → Records held.tree (edits_of command.now held.tree) previewed.changes) }
        ensures reads_only { ReadsOnly S.Store result self.old self.new }
        ensures refusal { IfErr result IsPreviewRefusal }
    {
        if self.broken {
            return Err(Refusal::Broken);
        }
        if self.history.is_full() {
            return Err(Refusal::JournalFull);
        }
        plan_preview(alloc, &mut self.store, command, &mut self.counts)
    }

    /// Answers what an undo would do: for each path of the last step, in byte order, whether it
    /// would be taken back or is refused as `Moved`.
    ///
    /// It is refused as `Broken` or `NothingToUndo`, as `BadJournal` where the entry can't be read,
    /// or for an I/O error or an allocation failure.
    pub fn preview_undo(&mut self, alloc: Global) -> Result<PathOutcomes, Refusal>
        ensures broken { (result ≡ Err Refusal.Broken) ↔ (is_broken self.old ≡ true) }
        ensures nothing { (result ≡ Err Refusal.NothingToUndo)
            ↔ ((is_broken self.old ≡ false) × ((memory_of self.old).done ≡ [])) }
        ensures exact { S.honest (store_of self.new) → (held : State) → SimulatesState S.files self.old held
            → DidNotFail result → PreviewsReplay go.Backward held.journal.done held.tree result }
        ensures machine { S.honest (store_of self.new) → (state : Snapshots) → SimulatesInSession S.files self.old state
            → DidNotFail result → PreviewsReplayTo go.Backward state.past state.tree result }
        ensures reads_only { ReadsOnly S.Store result self.old self.new }
        ensures refusal { IfErr result IsPreviewRefusal }
    {
        path_outcomes_alone(self.preview_step(alloc, Direction::Backward))
    }

    /// Answers what a redo would do: for each path of the next step, in byte order, whether it
    /// would be changed again or is refused as `Moved`.
    ///
    /// It is refused as `Broken` or `NothingToRedo`, as `BadJournal` where the entry can't be read,
    /// or for an I/O error or an allocation failure.
    pub fn preview_redo(&mut self, alloc: Global) -> Result<PathOutcomes, Refusal>
        ensures broken { (result ≡ Err Refusal.Broken) ↔ (is_broken self.old ≡ true) }
        ensures nothing { (result ≡ Err Refusal.NothingToRedo)
            ↔ ((is_broken self.old ≡ false) × ((memory_of self.old).undone ≡ [])) }
        ensures exact { S.honest (store_of self.new) → (held : State) → SimulatesState S.files self.old held
            → DidNotFail result → PreviewsReplay go.Forward held.journal.undone held.tree result }
        ensures machine { S.honest (store_of self.new) → (state : Snapshots) → SimulatesInSession S.files self.old state
            → DidNotFail result → PreviewsReplayTo go.Forward state.future state.tree result }
        ensures reads_only { ReadsOnly S.Store result self.old self.new }
        ensures refusal { IfErr result IsPreviewRefusal }
    {
        path_outcomes_alone(self.preview_step(alloc, Direction::Forward))
    }

    /// Answers what going one step this way would do, as `preview_undo` and `preview_redo` do, and
    /// answers the changes of the step, which an undo takes back or a redo makes again.
    ///
    /// It is refused as `Broken`, as `NothingToUndo` or `NothingToRedo`, as `BadJournal` where the
    /// entry can't be read, or for an I/O error or an allocation failure.
    pub fn preview_step(
        &mut self,
        alloc: Global,
        direction: Direction,
    ) -> Result<Previewed, Refusal>
        ensures broken { (result ≡ Err Refusal.Broken) ↔ (is_broken self.old ≡ true) }
        ensures nothing { (result ≡ Err (end_of direction))
            ↔ ((is_broken self.old ≡ false) × (entries_ahead direction (memory_of self.old) ≡ [])) }
        ensures exact { S.honest (store_of self.new) → (held : State) → SimulatesState S.files self.old held
            → DidNotFail result
            → PreviewsReplay direction (ahead direction held.journal) held.tree (path_outcomes_alone result) }
        ensures machine { S.honest (store_of self.new) → (state : Snapshots) → SimulatesInSession S.files self.old state
            → DidNotFail result
            → PreviewsReplayTo direction (kept_ahead direction state) state.tree (path_outcomes_alone result) }
        // The changes are those of the step, and a good entry.
        ensures changes { S.honest (store_of self.new) → (held : State) → SimulatesState S.files self.old held
            → IfOk result (λ previewed. changes_ahead (ahead direction held.journal) ≡ Some previewed.changes) }
        ensures good { IfOk result (λ previewed. IsEntry previewed.changes) }
        ensures reads_only { ReadsOnly S.Store result self.old self.new }
        ensures refusal { IfErr result IsPreviewRefusal }
    {
        if self.broken {
            return Err(Refusal::Broken);
        }
        let Some(listed) = self.history.next(direction) else {
            return Err(end_of(direction));
        };
        self.preview_listed(alloc, listed, direction)
    }

    // What going through the next entry this way would do.
    fn preview_listed(
        &mut self,
        alloc: Global,
        listed: ListedEntry,
        direction: Direction,
    ) -> Result<Previewed, Refusal>
        requires { (front : List ListedEntry) × (entries_ahead direction (memory_of self.now) ≡ front ++ listed ∷ []) }
        ensures exact { S.honest (store_of self.new) → (held : State) → SimulatesState S.files self.old held
            → DidNotFail result
            → PreviewsReplay direction (ahead direction held.journal) held.tree (path_outcomes_alone result) }
        ensures changes { S.honest (store_of self.new) → (held : State) → SimulatesState S.files self.old held
            → IfOk result (λ previewed. changes_ahead (ahead direction held.journal) ≡ Some previewed.changes) }
        ensures good { IfOk result (λ previewed. IsEntry previewed.changes) }
        ensures reads_only { ReadsOnly S.Store result self.old self.new }
        ensures refusal { IfErr result IsReadRefusal }
    {
        let entry = read_entry(alloc, &mut self.store, listed.number())?;
        let path_outcomes = replay_path_outcomes(
            alloc,
            &mut self.store,
            entry.changes.as_slice(),
            direction,
        )?;
        Ok(Previewed {
            path_outcomes,
            changes: entry.changes,
        })
    }
}

// The path outcomes without the changes.
fn path_outcomes_alone(answer: Result<Previewed, Refusal>) -> Result<PathOutcomes, Refusal>
    ensures { result ≡ path_outcomes_alone answer }
{
    match answer {
        Ok(
            Previewed {
                path_outcomes,
                changes: _,
            },
        ) => Ok(path_outcomes),
        Err(refusal) => Err(refusal),
    }
}
