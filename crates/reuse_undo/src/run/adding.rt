//! The request of a line that adds ready styles: the names are found first, by a preview, and then
//! the request is to add what is ready for them. `locked` calls it. Tested by
//! `tests/styles_command.sh`.
ghost use Rattle.std.specs.Prelude.{Some};
ghost use Rattle.reuse_command.specs.declared.failure.Failure.TheVariants.{Memory};
ghost use Rattle.reuse_command.specs.declared.reply.Refusal.TheVariants.{Failed};
ghost use Rattle.reuse_undo.specs.run.LineRuns.{FindsOnce, AreAdditionsFor, IsAsked};

use crate::run::on_folder::find_on_folder;
use reuse_arguments::line::NamesUse;
use reuse_arguments::request::made_or_seen;
use reuse_folder::HostStore;
use reuse_ready::{NameCount, StyleAdditions, additions_of};
use reuse_session::{Call, Command, Refusal, Request};
use reuse_shown::progress::Progress;
use reuse_store::Store;
use std::alloc::Global;
use std::fs::File;
use std::rt::{Clock, Env, Files};

/// What a session is to be asked for: where ready styles are added, that instead of the request, by
/// which the names are found. If that is refused, the request stays, and so it is answered.
pub fn with_styles<R: Files<File = File> + AllocGlobal + Clock + Env + Eprint + Clone + Drop>(
    rt: &R,
    progress: &Progress<R>,
    folder: HostStore<R>,
    alloc: Global,
    request: Request,
    names: NamesUse,
) -> (HostStore<R>, Request, Option<Refusal>)
    ensures { IsAsked ⟦<HostStore<R> as Store>⟧ (λ store. store.folder.unsynced) names request folder result.0
        result.1 result.2 }
{
    let NamesUse::Added { when, dry_run } = names else {
        return (folder, request, None);
    };
    let (folder, found) = find_once(rt, progress, folder, alloc, &request);
    match additions_for(alloc, found) {
        Ok(additions) => {
            drop(request);
            let call = Call::Run(Command::AddStyles(additions));
            (folder, made_or_seen(call, when, dry_run), None)
        }
        Err(refusal) => (folder, request, Some(refusal)),
    }
}

/// Finds the names without a style, by the preview that is requested.
fn find_once<R: Files<File = File> + AllocGlobal + Clock + Env + Eprint + Clone + Drop>(
    rt: &R,
    progress: &Progress<R>,
    folder: HostStore<R>,
    alloc: Global,
    request: &Request,
) -> (HostStore<R>, Result<Vec<NameCount>, Refusal>)
    ensures { FindsOnce ⟦<HostStore<R> as Store>⟧ (λ store. store.folder.unsynced) request.now folder result.0
        result.1 }
{
    let mut folder = folder;
    folder.go_to_handles(rt, alloc);
    let (mut folder, found, _) = find_on_folder(folder, progress, alloc, request);
    folder.come_back(rt, alloc);
    progress.clear();
    (folder, found)
}

fn additions_for(
    alloc: Global,
    found: Result<Vec<NameCount>, Refusal>,
) -> Result<StyleAdditions, Refusal>
    ensures { AreAdditionsFor found result }
{
    let rows = found?;
    Ok(additions_of(alloc, rows.as_slice())?)
}
