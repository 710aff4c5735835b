//! Carries out on a store what a line asks for: opens a session, makes the one request, draws the
//! diff where one is wanted, and prints the answer. The files and the lines are those of the model,
//! on any store (`run_request`). `on_folder` calls it. Tested by `tests/worked_lines.sh` and
//! `tests/dry_run.sh`.
ghost use Rattle.std.specs.Prelude.{◌≡◌, IfSome};
ghost use Rattle.reuse_undo.specs.run.AfterStops.{AnswersAfterStop, OpensToAnswer};
ghost use Rattle.reuse_undo.specs.run.Called.{IsCalled};
ghost use Rattle.reuse_undo.specs.run.RunResult.{CarriesOut};
ghost use Rattle.reuse_undo.specs.run.DryRuns.{LeadsAsPreviewedAccepted};
ghost use Rattle.reuse_session.specs.session.Requests.{IsAnswered};
ghost use Rattle.reuse_undo.specs.run.RunLine.{RequestLeaves, SessionLeaves};
ghost use Rattle.reuse_report.specs.Responses.{IsAccepted};

mod planned;

use planned::ask_with_changes;
use reuse_arguments::line::{OutputFormat, PrintOptions};
use reuse_print::fault::Fault;
use reuse_print::output::Sink;
use reuse_report::drawn::{PlannedChanges, draw_planned};
use reuse_report::printed::finish;
use reuse_session::{Answer, Counts, Request, Session, recover, recovered_answer};
use reuse_store::Store;
use std::alloc::Global;

/// Answers the request on the store, and writes the lines of the answer. The store is given back,
/// how many paths are reported as changed, and what the call counted; where the answer can't be
/// written, what the request changed stands.
pub fn run_request<S: Store + Drop, O: Sink>(
    alloc: Global,
    request: &Request,
    options: PrintOptions,
    store: S,
    out: &mut O,
) -> (S, Result<usize, Fault>, Counts)
    ensures { CarriesOut S.Store O.contents O.failed request.now options store result.0 out.old out.new result.1 }
{
    let (store, answer, diff, counts) = call(alloc, store, request, options);
    match answer {
        Ok(response) => (store, finish(out, alloc, response, options, diff), counts),
        Err(refusal) => {
            drop(diff);
            (store, Err(Fault::Refused(refusal)), counts)
        }
    }
}

/// Answers the request. For a recovery no session is opened: none can be while a path of the
/// pending step is stuck.
pub fn call<S: Store + Drop>(
    alloc: Global,
    store: S,
    request: &Request,
    options: PrintOptions,
) -> (S, Answer, Result<Vec<u8>, Fault>, Counts)
    ensures { IsCalled S.Store RequestLeaves AnswersAfterStop request.now options store result.0 result.1 result.2 }
{
    match request {
        Request::Recover { skip_moved } => {
            let (store, answer) = recover(alloc, store, *skip_moved);
            let answer = recovered_answer(answer);
            (store, answer, Ok(Vec::new(alloc)), Counts::none(alloc))
        }
        _ => call_session(alloc, store, request, options),
    }
}

// Opens a session on the store, and makes the call. Where the line wants a diff and would be
// carried out, the diff of what would change is made too.
fn call_session<S: Store + Drop>(
    alloc: Global,
    store: S,
    request: &Request,
    options: PrintOptions,
) -> (S, Answer, Result<Vec<u8>, Fault>, Counts)
    ensures { IsCalled S.Store SessionLeaves OpensToAnswer request.now options store result.0 result.1 result.2 }
{
    match Session::open(alloc, store) {
        Ok(opened) => {
            let mut session = opened;
            let (answer, planned) = ask_for(alloc, &mut session, request, options.format);
            let (store, counts) = session.into_parts();
            let (store, diff) = draw_planned(alloc, store, planned);
            (store, answer, diff, counts)
        }
        Err((refusal, store)) => (
            store,
            Err(refusal),
            Ok(Vec::new(alloc)),
            Counts::none(alloc),
        ),
    }
}

// Makes the call. In the format of a diff, of a dry run without a refusal what would change is
// answered too.
fn ask_for<S: Store + Drop>(
    alloc: Global,
    session: &mut Session<S>,
    request: &Request,
    format: OutputFormat,
) -> (Answer, Option<PlannedChanges>)
    ensures answered { IsAnswered S.Store request.now result.0 session.old session.new }
    ensures wanted { IfSome result.1 (λ planned. (format ≡ OutputFormat.Diff) × IsAccepted result.0) }
    ensures previews { format ≡ OutputFormat.Diff
        → LeadsAsPreviewedAccepted S.Store request.now result.0 result.1 session.old session.new }
{
    match format {
        OutputFormat::Diff => ask_with_changes(alloc, session, request),
        _ => (session.answer(alloc, request), None),
    }
}
