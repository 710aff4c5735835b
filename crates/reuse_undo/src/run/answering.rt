//! Makes the call that a line asks for, unless it would take a file from its owner, or make one
//! whose name no file can have. That shows only once the call has planned what it changes. So it is
//! held before its first put if it has asked for such a file, and then what it would change is
//! looked at, path by path, as in a dry run.
ghost use Rattle.std.specs.Prelude.{◌≡◌};
ghost use Rattle.reuse_command.specs.Answer.{DidNotFail};
ghost use Rattle.reuse_journal.specs.Journal.{State};
ghost use Rattle.reuse_session.specs.session.Session.{store_of, SimulatesState};
ghost use Rattle.reuse_session.specs.session.Requests.{Previews, ReadsOnlyWithCause};
ghost use Rattle.reuse_undo.specs.run.OneCall.{Answers, AnswersOnce, EndsOnce, LooksAt, LooksThenSees};
ghost use Rattle.reuse_undo.specs.run.OneCall.{is_failure, MakesOnce};

use crate::run::on_folder::{list_on_folder, run_on_folder};
use reuse_arguments::line::PrintOptions;
use reuse_folder::HostStore;
use reuse_print::fault::Fault;
use reuse_print::output::{Output, Sink};
use reuse_report::access_refusal::{AccessRefusal, access_refusal_among};
use reuse_report::run_result::CallEnding;
use reuse_session::{Call, Counts, PathOutcomes, Refusal, Request, Session};
use reuse_shown::progress::{ClearedOutput, Progress};
use reuse_store::Store;
use std::alloc::Global;
use std::fs::File;
use std::io::{self, Printer};
use std::rt::{Clock, Env, Files};
use std::time::{Duration, SystemTime, UNIX_EPOCH};

/// The standard output, which clears the line of the progress before it takes bytes.
pub type Printed<'a, R> = Output<ClearedOutput<'a, R, Printer<'a, R>>>;

/// What a call is made with.
#[derive(Clone, Copy)]
pub struct Asking<'a, R: Clock + Eprint + Drop> {
    /// What the answer is printed by.
    pub rt: &'a R,
    pub progress: &'a Progress<R>,
    pub request: &'a Request,
    /// Whether the names without a style are listed that the request, a preview, finds.
    pub lists_names: bool,
    pub options: PrintOptions,
}

/// Answers the request and prints the answer, unless it is a call and would change a file that
/// can't be written. It answers what the call counted, too.
pub fn answer<R: Files<File = File> + AllocGlobal + Clock + Env + Print + Eprint + Clone + Drop>(
    folder: HostStore<R>,
    alloc: Global,
    asking: &Asking<'_, R>,
) -> (HostStore<R>, CallEnding, Counts)
    ensures { EndsOnce ⟦<HostStore<R> as Store>⟧ (AnswersOnce ⟦<HostStore<R> as Store>⟧
        ⟦<Printed<'static, R> as Sink>⟧ (λ store. store.folder.unsynced) asking.now.lists_names
        asking.now.request.now asking.now.options)
        (λ store. store.folder.unsynced) asking.now.request.now folder result.0 result.1 }
{
    match asking.request {
        Request::Make(call, _) => make(folder, alloc, asking, call),
        Request::Preview(_)
        | Request::Log
        | Request::Show(_)
        | Request::Forget(_)
        | Request::Recover { .. } => {
            let (folder, outcome, counts) = answer_at_once(folder, alloc, asking);
            (folder, Ok(outcome), counts)
        }
    }
}

/// Makes the call that is asked for. If it was held before its first put, and so failed, it is made
/// once more if it changes no file that can't be written.
fn make<R: Files<File = File> + AllocGlobal + Clock + Env + Print + Eprint + Clone + Drop>(
    folder: HostStore<R>,
    alloc: Global,
    asking: &Asking<'_, R>,
    call: &Call,
) -> (HostStore<R>, CallEnding, Counts)
    ensures { MakesOnce ⟦<HostStore<R> as Store>⟧ (AnswersOnce ⟦<HostStore<R> as Store>⟧
        ⟦<Printed<'static, R> as Sink>⟧ (λ store. store.folder.unsynced) asking.now.lists_names
        asking.now.request.now asking.now.options)
        (λ store. store.folder.unsynced) folder result.0 result.1 }
{
    let mut folder = folder;
    folder.watch_writes();
    folder.remember_files(time_now(asking.rt));
    let (mut folder, outcome, counts) = answer_at_once(folder, alloc, asking);
    if !folder.release_writes() || !is_failure(&outcome) {
        return (folder, Ok(outcome), counts);
    }
    drop(outcome);
    let (folder, access_refusal) = first_access_refusal(folder, alloc, call);
    match access_refusal {
        Some(access_refusal) => (folder, Err(access_refusal), Counts::none(alloc)),
        None => {
            let (folder, outcome, counts) = answer_at_once(folder, alloc, asking);
            (folder, Ok(outcome), counts)
        }
    }
}

/// Whether the store or memory failed.
fn is_failure(outcome: &Result<usize, Fault>) -> bool
    ensures { result ≡ is_failure outcome.now }
{
    matches!(outcome, Err(Fault::Refused(Refusal::Failed(_))))
}

/// The time since 1970, if the system's clock shows a later one.
fn time_now(rt: &impl Clock) -> Option<Duration> {
    SystemTime::now(rt).ok()?.duration_since(UNIX_EPOCH).ok()
}

fn answer_at_once<
    R: Files<File = File> + AllocGlobal + Clock + Env + Print + Eprint + Clone + Drop,
>(
    folder: HostStore<R>,
    alloc: Global,
    asking: &Asking<'_, R>,
) -> (HostStore<R>, Result<usize, Fault>, Counts)
    ensures { AnswersOnce ⟦<HostStore<R> as Store>⟧ ⟦<Printed<'static, R> as Sink>⟧ (λ store. store.folder.unsynced)
        asking.now.lists_names asking.now.request.now asking.now.options folder result.0 result.1 }
{
    let mut folder = folder;
    folder.go_to_handles(asking.rt, alloc);
    let progress = asking.progress;
    let mut out = Output::new(ClearedOutput::new(progress, io::writer(asking.rt)));
    let (mut folder, outcome, counts) = answer_on_folder(folder, alloc, asking, &mut out);
    folder.come_back(asking.rt, alloc);
    progress.clear();
    (folder, outcome, counts)
}

/// Carries the request out and writes the answer, or the list of the names that it finds.
fn answer_on_folder<R: Files<File = File> + AllocGlobal + Clock + Eprint + Clone + Drop, O: Sink>(
    folder: HostStore<R>,
    alloc: Global,
    asking: &Asking<'_, R>,
    out: &mut O,
) -> (HostStore<R>, Result<usize, Fault>, Counts)
    ensures { Answers ⟦<HostStore<R> as Store>⟧ O.Sink asking.now.lists_names asking.now.request.now
        asking.now.options folder result.0 out.old out.new result.1 }
{
    let (progress, request, options) = (asking.progress, asking.request, asking.options);
    if asking.lists_names {
        list_on_folder(folder, progress, alloc, request, options, out)
    } else {
        run_on_folder(folder, progress, alloc, request, options, out)
    }
}

/// Why the first path can't be written that the call would change and that can't be, if there is
/// one. If the call would be refused or fail, the call itself reports that.
fn first_access_refusal<R: Files<File = File> + AllocGlobal + Clone + Drop>(
    folder: HostStore<R>,
    alloc: Global,
    call: &Call,
) -> (HostStore<R>, Option<AccessRefusal>)
    ensures { LooksThenSees ⟦<HostStore<R> as Store>⟧ (λ store. store.folder.unsynced) folder result.0 }
{
    let (mut folder, path_outcomes) = preview(alloc, folder, call);
    let access_refusal = match path_outcomes {
        Ok(path_outcomes) => access_refusal_among(alloc, &mut folder, path_outcomes.as_slice()),
        Err(_) => None,
    };
    (folder, access_refusal)
}

/// What a call would do, path by path. Nothing is changed, unless a step is pending, which is
/// rolled back.
pub fn preview<S: Store + Drop>(
    alloc: Global,
    store: S,
    call: &Call,
) -> (S, Result<PathOutcomes, Refusal>)
    ensures { LooksAt S.Store store result.0 }
{
    match Session::open(alloc, store) {
        Ok(opened) => {
            let mut session = opened;
            let path_outcomes = preview_in(alloc, &mut session, call);
            (session.into_store(), path_outcomes)
        }
        Err((refusal, store)) => (store, Err(refusal)),
    }
}

fn preview_in<S: Store + Drop>(
    alloc: Global,
    session: &mut Session<S>,
    call: &Call,
) -> Result<PathOutcomes, Refusal>
    ensures right { S.honest (store_of session.new) → (held : State) → SimulatesState S.files session.old held
        → DidNotFail result → Previews call.now held result }
    ensures reads_with_cause { ReadsOnlyWithCause S.Store result session.old session.new }
{
    session.preview_call(alloc, call)
}
