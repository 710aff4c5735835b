//! Dry runs that are answered with what would change, of which a diff is drawn. Their answers and
//! what would change are of one plan.
ghost use Rattle.std.specs.Prelude.{◌≡◌};
ghost use Rattle.reuse_session.specs.session.Previews.{path_outcomes_alone};
ghost use Rattle.reuse_undo.specs.run.DryRuns.{planned_in, planned_unless, IsAnsweredWith};
ghost use Rattle.reuse_session.specs.session.Requests.{as_answer};

use reuse_change::Direction;
use reuse_change::Direction::{Backward, Forward};
use reuse_report::drawn::PlannedChanges;
use reuse_report::printed::is_refused;
use reuse_session::{Answer, Call, Changes, Previewed, Refusal, Request, Response, Session};
use reuse_store::Store;
use std::alloc::Global;

/// Makes the call. Of a dry run without a refusal what would change is answered too.
pub fn ask_with_changes<S: Store + Drop>(
    alloc: Global,
    session: &mut Session<S>,
    request: &Request,
) -> (Answer, Option<PlannedChanges>)
    ensures { IsAnsweredWith S.Store request.now result.0 result.1 session.old session.new }
{
    match request {
        Request::Preview(call) => call_with_changes(alloc, session, call),
        _ => (session.answer(alloc, request), None),
    }
}

// The dry run of a call.
fn call_with_changes<S: Store + Drop>(
    alloc: Global,
    session: &mut Session<S>,
    call: &Call,
) -> (Answer, Option<PlannedChanges>)
    ensures { IsAnsweredWith S.Store (Request.Preview call.now) result.0 result.1 session.old session.new }
{
    match call {
        Call::Run(command) => answer_with_changes(session.preview_changes(alloc, command), Forward),
        Call::Undo => answer_with_changes(session.preview_step(alloc, Backward), Backward),
        Call::Redo => answer_with_changes(session.preview_step(alloc, Forward), Forward),
        Call::Revert { number, skip_moved } => {
            revert_with_changes(alloc, session, *number, *skip_moved)
        }
    }
}

// The dry run of taking a step back.
fn revert_with_changes<S: Store + Drop>(
    alloc: Global,
    session: &mut Session<S>,
    number: u32,
    skip_moved: bool,
) -> (Answer, Option<PlannedChanges>)
    ensures { IsAnsweredWith S.Store
        (Request.Preview (Call.Revert number skip_moved)) result.0 result.1 session.old session.new }
{
    match session.revert_command(alloc, number, skip_moved) {
        Ok(command) => {
            let previewed = session.preview_changes(alloc, &command);
            drop(command);
            answer_with_changes(previewed, Forward)
        }
        Err(refusal) => (Err(refusal), None),
    }
}

// The answer of a preview, and what would change where none of the path outcomes is a refusal.
fn answer_with_changes(
    answer: Result<Previewed, Refusal>,
    direction: Direction,
) -> (Answer, Option<PlannedChanges>)
    ensures answer { result.0 ≡ as_answer Response.Preview (path_outcomes_alone answer) }
    ensures planned { result.1 ≡ planned_in direction answer }
{
    match answer {
        Ok(
            Previewed {
                path_outcomes,
                changes,
            },
        ) => {
            let planned = planned_of(is_refused(path_outcomes.as_slice()), changes, direction);
            (Ok(Response::Preview(path_outcomes)), planned)
        }
        Err(refusal) => (Err(refusal), None),
    }
}

// What would change, unless that is refused.
fn planned_of(is_refused: bool, changes: Changes, direction: Direction) -> Option<PlannedChanges>
    ensures { result ≡ planned_unless is_refused changes direction }
{
    if is_refused {
        drop(changes);
        None
    } else {
        Some(PlannedChanges { changes, direction })
    }
}
