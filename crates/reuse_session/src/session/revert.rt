//! A session takes a step back that need not be the last. That is a run of a command of its own, so
//! that it is a new step, which can be taken back too. `Session::answer` and callers of the library
//! use it. Tested by `tests/sessions` and `tests/show_and_revert.sh`.
ghost use Rattle.std.specs.Prelude.{◌≡◌, ◌↔◌, ◌⊎◌, length, not, IfErr, IfOk, true, false};
ghost use Rattle.reuse_command.specs.Answer.{IsRunAnswer, LeavesNone};
ghost use Rattle.reuse_change.specs.Listing.{ArePaths, is_among};
ghost use Rattle.reuse_session.specs.session.RevertCalls.{as_run, left_of};

use crate::session::Session;
use crate::session::later_steps::read_back;
use reuse_change::{Moment, PathText, is_among};
use reuse_command::command::Command;
use reuse_command::reply::{Paths, Refusal, Response, Reverted};
use reuse_journal::prepare::paths_of;
use reuse_store::Store;
use std::alloc::Global;

impl<S: Store + Drop> Session<S> {
    ghost use Rattle.reuse_store.specs.Asked.{OnlyReads};
    ghost use Rattle.reuse_command.specs.Answer.{DidNotFail, IsNoClash, IsNoStep};
    ghost use Rattle.reuse_session.specs.session.Calls.{IsCall};
    ghost use Rattle.reuse_journal.specs.Journal.{State};
    ghost use Rattle.reuse_session.specs.session.SafeCalls.{SurvivesCall};
    ghost use Rattle.reuse_session.specs.session.Machine.{Snapshots};
    ghost use Rattle.reuse_journal.specs.Labels.{is_full};
    ghost use Rattle.reuse_session.specs.session.RevertCalls.{as_run, GivesRevert, GivesRevertAt, IsAfterRevert};
    ghost use Rattle.reuse_session.specs.session.RevertCalls.{Reverts, RevertFollows, LeavesRevert};
    ghost use Rattle.reuse_session.specs.session.Previews.{ReadsOnly};
    ghost use Rattle.reuse_session.specs.session.Session.{store_of, is_broken, memory_of, SimulatesState};
    ghost use Rattle.reuse_session.specs.session.Session.{SimulatesInSession};
    ghost use Rattle.reuse_journal.specs.Numbered.{lists};

    /// Takes the changes of a step back, on whatever the tree is now, as a new step. With
    /// `skip_moved` a change that can't be taken back is left out. It answers the paths that
    /// changed, and those of the step that were left.
    ///
    /// A change can't be taken back where its path isn't as the step left it, or where a later step
    /// that is done touched the path.
    ///
    /// It is refused as `Broken`, as `NoSuchStep` where no step that is done has the number, as
    /// `BadJournal` where the entry of the step or of a later one has changed since the journal was
    /// opened, as `JournalFull`, as `Moved` at the first path at which the step can't be taken
    /// back, as `TooMany`, or for an I/O error or an allocation failure, before the new step is
    /// pending. Where it stops later it is `Interrupted`.
    pub fn revert(
        &mut self,
        alloc: Global,
        number: u32,
        skip_moved: bool,
        when: Moment,
    ) -> Result<Reverted, Refusal>
        ensures broken { (result ≡ Err Refusal.Broken) ↔ (is_broken self.old ≡ true) }
        ensures absent { (result ≡ Err (Refusal.NoSuchStep number))
            ↔ ((is_broken self.old ≡ false) × (lists (memory_of self.old).done number ≡ false)) }
        ensures stays { (result ≡ Err Refusal.Broken) ⊎ (result ≡ Err (Refusal.NoSuchStep number))
            → self.new ≡ self.old }
        // A full journal takes no further entry, so that no clash of one is reported.
        ensures full { S.honest (store_of self.new)
            → is_full (length (memory_of self.old).done) (memory_of self.old).used ≡ true → IfErr result IsNoClash }

        // Unless the answer reports an I/O error or an allocation failure, the files and the
        // session go on as a run of the command that takes the step's changes back: from any
        // committed state, and as the model.
        ensures exact { S.honest (store_of self.new) → (held : State) → SimulatesState S.files self.old held
            → DidNotFail result → (left : State) × SimulatesState S.files self.new left
            × Reverts number skip_moved when held result left }
        ensures machine { S.honest (store_of self.new) → (state : Snapshots) → SimulatesInSession S.files self.old state
            → DidNotFail result → RevertFollows S.files number skip_moved when state result self.new }

        // Where no step is made and none was begun, it only reads.
        ensures idle { IsNoStep (as_run result) → OnlyReads S.Store (store_of self.old) (store_of self.new) }

        // What is left after a loss of power, at any moment of the call, as of a run that takes
        // some changes back.
        ensures survives { SurvivesCall S.Store (IsAfterRevert number skip_moved when)
            (as_run result) self.old self.new }

        // What any call leaves, and what a revert leaves of the files, whatever it answers.
        ensures call { IsCall S.Store result self.old self.new }
        ensures leaves { LeavesRevert S.Store number skip_moved when result self.old self.new }
    {
        if self.broken {
            return Err(Refusal::Broken);
        }
        let (changes, touched) = read_back(alloc, &mut self.store, &self.history, number)?;
        let paths = paths_of(alloc, changes.as_slice())?;
        let command = Command::Revert {
            changes,
            touched,
            skip_moved,
        };
        let answer = self.run(alloc, &command, when);
        drop(command);
        reverted_by(alloc, answer, paths)
    }

    /// The command that a revert of this step runs: it takes the step's changes back, but where a
    /// later step that is done touched the path. It only reads.
    ///
    /// It is refused as `Broken`, as `NoSuchStep` where no step that is done has the number, as
    /// `BadJournal` where the entry of the step or of a later one has changed since the journal was
    /// opened, or for an I/O error or an allocation failure.
    pub fn revert_command(
        &mut self,
        alloc: Global,
        number: u32,
        skip_moved: bool,
    ) -> Result<Command, Refusal>
        ensures broken { (result ≡ Err Refusal.Broken) ↔ (is_broken self.old ≡ true) }
        ensures absent { (result ≡ Err (Refusal.NoSuchStep number))
            ↔ ((is_broken self.old ≡ false) × (lists (memory_of self.old).done number ≡ false)) }
        ensures exact { S.honest (store_of self.new) → (held : State) → SimulatesState S.files self.old held
            → DidNotFail result → GivesRevert number skip_moved held result }
        ensures machine { S.honest (store_of self.new) → (state : Snapshots) → SimulatesInSession S.files self.old state
            → DidNotFail result → GivesRevertAt number skip_moved state result }
        ensures reads_only { ReadsOnly S.Store result self.old self.new }
        ensures call { IsCall S.Store result self.old self.new }
    {
        if self.broken {
            return Err(Refusal::Broken);
        }
        let (changes, later) = read_back(alloc, &mut self.store, &self.history, number)?;
        Ok(Command::Revert {
            changes,
            touched: later,
            skip_moved,
        })
    }
}

// The answer of the run that takes back a step of these paths.
fn reverted_by(
    alloc: Global,
    answer: Result<Response, Refusal>,
    paths: Paths,
) -> Result<Reverted, Refusal>
    requires run { IsRunAnswer answer }
    requires none { LeavesNone answer }
    ensures same { as_run result ≡ answer }
    ensures skipped { IfOk result (λ reverted. ArePaths reverted.changed
        → reverted.skipped ≡ left_of paths reverted.changed) }
{
    match answer {
        Ok(
            Response::Changed {
                paths: changed,
                left,
            },
        ) => {
            drop(left);
            Ok(reverted(paths, changed))
        }
        Ok(Response::NothingChanged { left: _ }) => Ok(reverted(
            paths,
            Paths::new(Vec::new(alloc)),
        )),
        // A run answers nothing else.
        Ok(_) => unreachable!(),
        Err(refusal) => Err(refusal),
    }
}

// What was done with a step of these paths where it changed those.
fn reverted(paths: Paths, changed: Paths) -> Reverted
    ensures changed { result.changed ≡ changed }
    ensures skipped { ArePaths changed → result.skipped ≡ left_of paths changed }
{
    let left = left_of(paths.into_vec(), changed.as_slice());
    Reverted {
        changed,
        skipped: Paths::new(left),
    }
}

// The paths that are none of these, which are in byte order.
pub(crate) fn left_of(paths: Vec<PathText>, changed: &[PathText]) -> Vec<PathText>
    ensures { ArePaths changed.now → result.items ≡ left_of paths.items changed.now }
{
    let mut left = paths;
    left.retain(|path| is_left(path, changed));
    left
}

fn is_left(path: &PathText, changed: &[PathText]) -> bool
    ensures { ArePaths changed.now → result ≡ not (is_among changed.now path.now) }
{
    !is_among(changed, path.as_bytes())
}
