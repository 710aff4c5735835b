//! What is found out about a call beside its outcome, for notes. The program calls it. Tested by
//! `tests/notes.sh`.
ghost use Rattle.std.specs.Prelude.{◌≡◌};
ghost use Rattle.reuse_store.specs.Asked.{OnlyReads};

use crate::above::{has_journal, journal_above};
use crate::damage::{JournalDamage, MissingHead, damage_of, is_gone, steps_without_head};
use crate::reads::{is_table_empty, own_files};
use crate::unrecognised::{Unrecognised, is_unrecognised, passes_over, unrecognised_among};
use reuse_arguments::line::Line;
use reuse_change::PathText;
use reuse_command::command::{Command, FileAmendment, Scope};
use reuse_command::path_outcome::PathOutcome;
use reuse_command::reply::Refusal;
use reuse_command::request::{Call, Request};
use reuse_folder::{Failure, HostStore, OwnerReport};
use reuse_plan::counts::Counts;
use reuse_plan::unused::Unused;
use reuse_print::fault::Fault;
use reuse_print::ready_left::OwnFiles;
use reuse_store::Store;
use reuse_text::Bytes;
use reuse_toml::{Glob, glob_matches};
use std::alloc::{AllocError, Global};
use std::fs::{self, File};
use std::io::{self, ErrorKind};
use std::rt::Files;

/// What is asked for, as far as notes depend on it.
#[derive(Clone, Copy, PartialEq, Eq)]
pub enum RequestKind {
    /// To make a step.
    Step,
    /// To make the step of a conversion.
    Conversion,
    /// To take a step back.
    Undo,
    /// To make a step again.
    Redo,
    /// To take a step back by a new one.
    Revert,
    /// To preview that.
    PreviewRevert,
    /// To roll back what a stopped run left.
    Recover,
    /// To take steps out of the history.
    Forget,
    /// To change nothing.
    Look,
}

impl RequestKind {
    /// That of a request.
    pub fn of(request: &Request) -> RequestKind {
        match request {
            Request::Make(Call::Run(Command::ConvertDep5), _) => RequestKind::Conversion,
            Request::Make(Call::Run(_), _) => RequestKind::Step,
            Request::Make(Call::Undo, _) => RequestKind::Undo,
            Request::Make(Call::Redo, _) => RequestKind::Redo,
            Request::Make(Call::Revert { .. }, _) => RequestKind::Revert,
            Request::Preview(Call::Revert { .. }) => RequestKind::PreviewRevert,
            Request::Forget(_) => RequestKind::Forget,
            Request::Recover { .. } => RequestKind::Recover,
            Request::Preview(_) | Request::Log | Request::Show(_) => RequestKind::Look,
        }
    }
}

/// What was found out about a call.
#[derive(Drop)]
pub struct Diagnostics {
    pub kind: RequestKind,
    /// The root, as it was named.
    root: Option<String>,
    /// The folder of the texts of a download.
    pub texts: Option<String>,
    /// The nearest folder above the root that has a journal.
    pub above: Option<String>,
    /// Whether the root had a journal before the call.
    had_journal: bool,
    /// The step that a stopped run had begun.
    pub pending: Option<u32>,
    /// Whether that step was rolled back by the call.
    pub is_rolled_back: bool,
    /// What was done to owners and names of files.
    pub owners: OwnerReport,
    /// The files of steps in a journal that had no head before the call.
    pub missing_head: Option<MissingHead>,
    /// What is wrong with the file that the journal was refused for.
    pub damage: Option<JournalDamage>,
    /// Whether nothing has the path of the file that was refused as moved.
    pub is_gone: bool,
    /// Whether the table that was made says nothing of any file.
    pub is_table_empty: bool,
    /// What the call counted.
    pub counts: Counts,
    /// Whether tags are amended wherever they stand.
    pub is_everywhere: bool,
    /// The globs that left nothing out, as they are written.
    pub idle_globs: Vec<Bytes>,
    /// The tree's own files of styles and of comments, where the call was refused.
    pub own_files: OwnFiles,
    /// The files whose names aren't recognised, where the call was refused for one or passed them
    /// over.
    pub unrecognised: Unrecognised,
    /// The call of the store that failed.
    pub failure: Option<Failure>,
    /// The root, where it was no folder.
    pub missing_root: Option<String>,
    /// Whether folders were searched for by their paths, since the system doesn't show open ones.
    pub is_by_path: bool,
    /// Why the root, or a folder above it, couldn't be locked, where one couldn't.
    pub lock_error: Option<io::Error>,
}

impl Diagnostics {
    /// What is found before the call of a line. An allocation failure or a fault leaves a finding
    /// out.
    pub fn before<R: Files + AllocGlobal + Clone + Drop>(
        rt: &R,
        alloc: Global,
        line: &Line,
        pending: Option<u32>,
    ) -> Diagnostics {
        let root = line.root.as_str();
        Diagnostics {
            kind: RequestKind::of(&line.request),
            root: String::from_str(alloc, root).ok(),
            texts: match &line.texts {
                Some(folder) => String::from_str(alloc, folder.as_str()).ok(),
                None => None,
            },
            above: journal_above(rt, alloc, root),
            had_journal: has_journal(rt, alloc, root).unwrap_or(true),
            pending,
            is_rolled_back: false,
            owners: OwnerReport {
                changed: 0,
                linked: 0,
            },
            missing_head: steps_without_head(rt, alloc, root),
            damage: None,
            is_gone: false,
            is_table_empty: false,
            counts: Counts::none(alloc),
            is_everywhere: amends_everywhere(&line.request),
            idle_globs: Vec::new(alloc),
            own_files: OwnFiles {
                styles: None,
                comments: None,
            },
            unrecognised: Unrecognised::unnamed(0),
            failure: None,
            missing_root: missing_root(rt, alloc, root),
            is_by_path: false,
            lock_error: None,
        }
    }

    /// Whether the call began the journal of its root.
    pub fn begins_journal(&self, outcome: &Result<usize, Fault>) -> bool {
        let is_step = matches!(self.kind, RequestKind::Step | RequestKind::Conversion);
        is_step && !self.had_journal && matches!(outcome, Ok(1..))
    }

    /// Adds what is found on the folder after the call of a line.
    pub fn look_at<R: Files<File = File> + AllocGlobal + Clone + Drop>(
        &mut self,
        rt: &R,
        alloc: Global,
        folder: &mut HostStore<R>,
        request: &Request,
        outcome: &Result<usize, Fault>,
    )
        ensures reads { OnlyReads ⟦<HostStore<R> as Store>⟧ folder.old folder.new }
        ensures noted { folder.new.folder.unsynced ≡ folder.old.folder.unsynced }
    {
        self.look_at_folder(rt, alloc, folder, outcome);
        if let Some(scope) = scope_of(request) {
            let passed = folder.passed_over();
            if let Ok(idle) = idle_globs(alloc, scope, &self.counts.unused, passed) {
                self.idle_globs = idle;
            }
        }
    }

    /// The files whose names aren't recognised that were counted, or that the path outcomes show.
    pub fn unrecognised_in(
        &self,
        alloc: Global,
        request: &Request,
        outcome: &Result<usize, Fault>,
    ) -> Option<Unrecognised> {
        match (request, outcome) {
            (_, Err(Fault::WouldRefuse(path_outcomes))) => {
                unrecognised_among(alloc, path_outcomes.as_slice(), &self.own_files)
            }
            (Request::Make(Call::Run(Command::Annotate { scope, .. }), _), Ok(_))
                if passes_over(scope) => Some(Unrecognised::unnamed(self.counts.skipped)),
            _ => None,
        }
    }

    /// Adds what is found after any request.
    fn look_at_folder<R: Files<File = File> + AllocGlobal + Clone + Drop>(
        &mut self,
        rt: &R,
        alloc: Global,
        folder: &mut HostStore<R>,
        outcome: &Result<usize, Fault>,
    )
        ensures reads { OnlyReads ⟦<HostStore<R> as Store>⟧ folder.old folder.new }
        ensures noted { folder.new.folder.unsynced ≡ folder.old.folder.unsynced }
    {
        self.failure = folder.take_failure();
        self.is_by_path = folder.is_by_path();
        self.lock_error = folder.lock_error();
        self.is_rolled_back = folder.rolled_back().is_some();
        self.owners = folder.owner_report();
        if let Err(
            Fault::Refused(Refusal::BadJournal(path)) | Fault::NoDiff(Refusal::BadJournal(path)),
        ) = outcome
        {
            self.damage = damage_of(alloc, folder, path);
        }
        if let (Some(path), Some(root)) = (moved_path(outcome), &self.root) {
            self.is_gone = is_gone(rt, alloc, root.as_str(), path).unwrap_or(false);
        }
        if self.kind == RequestKind::Conversion {
            self.is_table_empty = is_table_empty(alloc, folder);
        } else if is_unrecognised(outcome) {
            self.own_files = own_files(alloc, folder);
        }
    }
}

/// The path that was refused as moved, or the first one that would be.
fn moved_path(outcome: &Result<usize, Fault>) -> Option<&PathText> {
    match outcome {
        Err(Fault::Refused(Refusal::Moved(path))) => Some(path),
        Err(Fault::WouldRefuse(path_outcomes)) => path_outcomes
            .as_slice()
            .iter()
            .find_map(|path_outcome| match path_outcome {
                PathOutcome::Refused(Refusal::Moved(path)) => Some(path),
                _ => None,
            }),
        _ => None,
    }
}

/// The root, where it is known to be no folder.
fn missing_root(rt: &impl Files, alloc: Global, root: &str) -> Option<String> {
    let is_missing = match fs::metadata(rt, root) {
        Ok(found) => !found.is_dir(),
        Err(error) => matches!(error.kind(), ErrorKind::NotFound | ErrorKind::NotADirectory),
    };
    if is_missing {
        String::from_str(alloc, root).ok()
    } else {
        None
    }
}

/// The command that a request runs or previews.
fn command_of(request: &Request) -> Option<&Command> {
    match request {
        Request::Make(Call::Run(command), _) | Request::Preview(Call::Run(command)) => {
            Some(command)
        }
        _ => None,
    }
}

/// The scope of the command that a request runs or previews, where it chooses files.
fn scope_of(request: &Request) -> Option<&Scope> {
    match command_of(request) {
        Some(Command::Annotate { scope, .. } | Command::Amend { scope, .. }) => Some(scope),
        _ => None,
    }
}

/// Whether a request amends tags wherever they stand.
fn amends_everywhere(request: &Request) -> bool {
    match command_of(request) {
        Some(Command::Amend { amendment, .. }) => {
            matches!(amendment, FileAmendment::Everywhere(_))
        }
        _ => false,
    }
}

/// The globs that left nothing out, as they are written: none of the files that the walk found, and
/// no folder that it passed over. A word with a leading `**/` stands for two globs, one after the
/// other, and left nothing out if neither did.
fn idle_globs(
    alloc: Global,
    scope: &Scope,
    unused: &Unused,
    passed: &[String],
) -> Result<Vec<Bytes>, AllocError> {
    let mut idle = Vec::new(alloc);
    let mut first = None;
    let mut is_second = false;
    for (glob, leaves_all) in scope.excluded.as_slice().iter().zip(unused.globs.iter()) {
        let is_idle = *leaves_all && !matches_one(glob, passed);
        if is_second {
            is_second = false;
            if let (true, Some(text)) = (is_idle, first.take()) {
                idle.push(text)?;
            }
        } else {
            let text = Bytes::from_vec(glob.written(alloc)?);
            is_second = text.as_slice().starts_with(b"**/");
            match (is_idle, is_second) {
                (true, true) => first = Some(text),
                (true, false) => idle.push(text)?,
                (false, _) => first = None,
            }
        }
    }
    Ok(idle)
}

/// Whether the glob matches one of these folders.
fn matches_one(glob: &Glob, folders: &[String]) -> bool {
    folders
        .iter()
        .any(|folder| glob_matches(glob, folder.as_str()))
}
