//! Carries out what was asked for, on the folder that it names and while no other run works there.
//! It prints the answer on standard output, and finds out what notes report.
ghost use Rattle.std.specs.Prelude.{◌≡◌, ◌⊎◌, IfOk, IfErr, string_bytes, false, true};
ghost use Rattle.reuse_change.specs.Layout.{journal_folder};
ghost use Rattle.reuse_store.specs.Asked.{OnlyReads};
ghost use Rattle.reuse_store.specs.Calls.{Start};
ghost use Rattle.reuse_arguments.specs.Requests.{with_texts};
ghost use Rattle.reuse_disk.specs.Noted.{IsNoted};
ghost use Rattle.reuse_print.specs.declared.fault.Fault.TheVariants as faults;
ghost use Rattle.reuse_undo.specs.run.LineRuns.{AnswersLine, HoldsStart, OpensFolder, RunsLine};
ghost use Rattle.reuse_undo.specs.run.LineRuns.{WorksUnlessDenied, is_listing, options_of};
ghost use Rattle.reuse_undo.specs.run.OneCall.{StaysThenLooks};

use crate::run::adding::with_styles;
use crate::run::answering::{Asking, Printed, answer};
use crate::run::findings::look_after;
use reuse_arguments::line::{Line, NamesUse, PrintOptions};
use reuse_arguments::request::{ids_of, with_texts};
use reuse_arguments::settings::Settings;
use reuse_folder::HostStore;
use reuse_lock::{RootLock, lock_root};
use reuse_print::fault::Fault;
use reuse_print::output::Sink;
use reuse_report::access_refusal::AccessRefusal;
use reuse_report::diagnostics::{Diagnostics, RequestKind};
use reuse_report::reads::pending_step;
use reuse_report::run_result::{CallEnding, RunResult, rolled_back_step};
use reuse_report::texts::find_texts;
use reuse_session::{Counts, LicenceTexts, Refusal, Request};
use reuse_shown::progress::Progress;
use reuse_shown::shown_name::NameDisplay;
use reuse_store::Store;
use std::alloc::{AllocError, Global};
use std::fs::File;
use std::rt::{Clock, Env, Files};

/// What is reported beside the answer or the fault, how names are shown on standard output, and how
/// a call works with the folder.
#[derive(Clone, Copy)]
pub struct RunOptions {
    pub notes: bool,
    pub progress: bool,
    pub names: NameDisplay,
    pub settings: Settings,
}

/// Carries out a line. The folder isn't asked for what it holds, so that is unknown: the contract
/// holds for any files at the start, and for anything else that a loss of power might leave then.
pub fn run_line<R: Files<File = File> + AllocGlobal + Clock + Env + Print + Eprint + Clone + Drop>(
    rt: &R,
    alloc: Global,
    line: Line,
    run_options: RunOptions,
) -> RunResult
    ghost start: { Start }
    ensures { RunsLine ⟦<HostStore<R> as Store>⟧ ⟦<Printed<'static, R> as Sink>⟧ (λ store. store.folder.unsynced)
        (λ store. record {
          root = string_bytes store.folder.open_folders.root_path;
          unsynced = store.folder.unsynced;
          owner_change = store.folder.ownership.owner_change;
        }) start line run_options result }
{
    match tools_for(rt, alloc, &line, run_options) {
        Ok(tools) => {
            let (folder, run_result) = work_with(rt, alloc, tools, line, run_options);
            drop(folder);
            run_result
        }
        Err(fault) => {
            drop(line);
            RunResult::fault(fault)
        }
    }
}

/// The texts that the line needs.
fn texts_for(rt: &impl Files, alloc: Global, line: &Line) -> Result<LicenceTexts, AllocError> {
    match (&line.texts, ids_of(&line.request)) {
        (Some(folder), Some(ids)) => find_texts(rt, alloc, folder.as_str(), ids),
        _ => Ok(LicenceTexts::new(Vec::new(alloc))),
    }
}

/// What the line needs: the folder that it names, locked, as a store, the texts, and the progress.
fn tools_for<R: Files<File = File> + AllocGlobal + Clock + Eprint + Clone + Drop>(
    rt: &R,
    alloc: Global,
    line: &Line,
    run_options: RunOptions,
) -> Result<(HostStore<R>, LicenceTexts, Progress<R>), Fault>
    ghost start: { Start }
    ensures opens { IfOk result
        (λ tools. OpensFolder (string_bytes line.now.root) run_options.settings
        (record {
          root = string_bytes tools.0.folder.open_folders.root_path;
          unsynced = tools.0.folder.unsynced;
          owner_change = tools.0.folder.ownership.owner_change;
        })) }
    ensures holds { IfOk result (λ tools. HoldsStart ⟦<HostStore<R> as Store>⟧ start tools.0) }
    ensures fault { IfErr result (λ fault. (fault ≡ faults.InUse) ⊎ (fault ≡ faults.Memory)) }
{
    let lock = lock_root(rt, alloc, line.root.as_str())?;
    let texts = texts_for(rt, alloc, line)?;
    let progress = Progress::new(rt.clone()?, run_options.progress);
    let folder = folder_at(rt, lock, run_options.settings)?;
    Ok((folder, texts, progress))
}

/// The folder that is locked as a store.
fn folder_at<R: Files<File = File> + AllocGlobal + Clone + Drop>(
    rt: &R,
    lock: RootLock,
    settings: Settings,
) -> Result<HostStore<R>, AllocError>
    ghost start: { Start }
    ensures holds { IfOk result (λ folder. HoldsStart ⟦<HostStore<R> as Store>⟧ start folder) }
    ensures syncs { IfOk result (λ folder. folder.folder.unsynced.syncs ≡ settings.syncs) }
    ensures noted { IfOk result (λ folder. IsNoted folder.folder.unsynced journal_folder) }
    ensures owners { IfOk result (λ folder. folder.folder.ownership.owner_change ≡ settings.owner_change) }
    ensures root { IfOk result (λ folder. folder.folder.open_folders.root_path ≡ lock.root) }
{
    Ok(HostStore::at(rt.clone()?, lock, settings.syncs, settings.owner_change))
}

/// Whether the journal is another user's, and not to be opened.
fn is_denied<R: Files<File = File> + AllocGlobal + Clone + Drop>(
    alloc: Global,
    folder: &mut HostStore<R>,
    run_options: RunOptions,
) -> bool
    ensures untrusted { result ≡ true → run_options.settings.trusts_journal ≡ false }
    ensures reads { OnlyReads ⟦<HostStore<R> as Store>⟧ folder.old folder.new }
    ensures noted { folder.new.folder.unsynced ≡ folder.old.folder.unsynced }
{
    !run_options.settings.trusts_journal && folder.is_journal_of_other(alloc)
}

/// The step that is pending, where it is noted that it is rolled back. A recovery prints which
/// files of it were, so there it is noted with the other notes alone.
fn step_to_note<R: Files<File = File> + AllocGlobal + Clone + Drop>(
    alloc: Global,
    folder: &mut HostStore<R>,
    request: &Request,
    run_options: RunOptions,
) -> Option<u32>
    ensures reads { OnlyReads ⟦<HostStore<R> as Store>⟧ folder.old folder.new }
    ensures noted { folder.new.folder.unsynced ≡ folder.old.folder.unsynced }
{
    let pending = pending_step(alloc, folder)?;
    if let Request::Recover { .. } = request {
        folder.expect_rollback();
        if !run_options.notes {
            return None;
        }
    }
    Some(pending)
}

/// Carries out the line on the folder, which is given back.
fn work_with<R: Files<File = File> + AllocGlobal + Clock + Env + Print + Eprint + Clone + Drop>(
    rt: &R,
    alloc: Global,
    tools: (HostStore<R>, LicenceTexts, Progress<R>),
    line: Line,
    run_options: RunOptions,
) -> (HostStore<R>, RunResult)
    ensures { WorksUnlessDenied ⟦<HostStore<R> as Store>⟧ ⟦<Printed<'static, R> as Sink>⟧
        (λ store. store.folder.unsynced) line run_options tools.1 tools.0 result.0 result.1 }
{
    let (mut folder, texts, progress) = tools;
    if is_denied(alloc, &mut folder, run_options) {
        drop(line);
        drop(texts);
        return (folder, RunResult::denied(AccessRefusal::JournalOfAnother));
    }
    let pending = step_to_note(alloc, &mut folder, &line.request, run_options);
    let mut diagnostics = found_before(rt, alloc, &line, pending, run_options.notes);
    let way = AnswerWay::of(&line, run_options);
    let request = request_of(line, texts);
    let (folder, request, ending, counts) = answer_in(rt, &progress, folder, alloc, request, way);
    if let Some(diagnostics) = &mut diagnostics {
        diagnostics.kind = RequestKind::of(&request);
        diagnostics.counts = counts;
    }
    let rolled_back = rolled_back_step(pending, folder.rolled_back());
    let (folder, diagnostics) = found_after(rt, alloc, diagnostics, folder, &request, &ending);
    drop(request);
    let run_result = RunResult {
        ending,
        rolled_back,
        diagnostics,
    };
    (folder, run_result)
}

/// In which way a request is answered.
#[derive(Clone, Copy)]
struct AnswerWay {
    /// What becomes of names without a style.
    names: NamesUse,
    options: PrintOptions,
}

impl AnswerWay {
    /// That of a line.
    fn of(line: &Line, run_options: RunOptions) -> AnswerWay
        ensures names { result.names ≡ line.now.names }
        ensures options { result.options ≡ options_of line.now run_options }
    {
        AnswerWay {
            names: line.names,
            options: PrintOptions {
                format: line.format,
                names: run_options.names,
            },
        }
    }
}

/// Answers the request. It is given back as it was answered: where ready styles are added, it is to
/// add those that were found.
fn answer_in<R: Files<File = File> + AllocGlobal + Clock + Env + Print + Eprint + Clone + Drop>(
    rt: &R,
    progress: &Progress<R>,
    folder: HostStore<R>,
    alloc: Global,
    request: Request,
    way: AnswerWay,
) -> (HostStore<R>, Request, CallEnding, Counts)
    ensures { AnswersLine ⟦<HostStore<R> as Store>⟧ ⟦<Printed<'static, R> as Sink>⟧
        (λ store. store.folder.unsynced) way.names way.options request folder result.0 result.1 result.2 }
{
    let (folder, request, refusal) = with_styles(rt, progress, folder, alloc, request, way.names);
    if let Some(refusal) = refusal {
        let ending = Ok(Err(Fault::Refused(refusal)));
        return (folder, request, ending, Counts::none(alloc));
    }
    let asking = Asking {
        rt,
        progress,
        request: &request,
        lists_names: is_listing(way.names),
        options: way.options,
    };
    let (folder, ending, counts) = answer(folder, alloc, &asking);
    (folder, request, ending, counts)
}

/// Whether the names are listed.
fn is_listing(names: NamesUse) -> bool
    ensures { result ≡ is_listing names }
{
    matches!(names, NamesUse::Listed)
}

/// The request of a line with the texts that were found for it.
fn request_of(line: Line, texts: LicenceTexts) -> Request
    ensures { result ≡ with_texts texts line.request }
{
    let Line {
        root: _,
        request,
        names: _,
        texts: _,
        format: _,
        change_status: _,
    } = line;
    with_texts(request, texts)
}

fn found_before<R: Files + AllocGlobal + Clone + Drop>(
    rt: &R,
    alloc: Global,
    line: &Line,
    pending: Option<u32>,
    notes: bool,
) -> Option<Diagnostics> {
    if notes {
        Some(Diagnostics::before(rt, alloc, line, pending))
    } else {
        None
    }
}

/// The folder is given back.
fn found_after<R: Files<File = File> + AllocGlobal + Clone + Drop>(
    rt: &R,
    alloc: Global,
    diagnostics: Option<Diagnostics>,
    folder: HostStore<R>,
    request: &Request,
    ending: &CallEnding,
) -> (HostStore<R>, Option<Diagnostics>)
    ensures { StaysThenLooks ⟦<HostStore<R> as Store>⟧ (λ store. store.folder.unsynced) folder result.0 }
{
    match (diagnostics, ending) {
        (Some(mut diagnostics), Ok(outcome)) => {
            let folder = look_after(&mut diagnostics, rt, alloc, folder, request, outcome);
            (folder, Some(diagnostics))
        }
        (diagnostics, _) => (folder, diagnostics),
    }
}
