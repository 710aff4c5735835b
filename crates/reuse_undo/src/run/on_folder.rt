//! Carries out on a folder what a line asks for, as on any store, and shows the progress; and finds
//! the names there that have no comment style. `answering` alone calls it. Tested by `tests/folder.sh`.
ghost use Rattle.reuse_undo.specs.run.FoundNames.{FindsNames, ListsNames};
ghost use Rattle.reuse_undo.specs.run.RunResult.{CarriesOut};

use crate::run::line::run_request;
use crate::run::names::{find_names, is_json};
use reuse_arguments::line::PrintOptions;
use reuse_folder::HostStore;
use reuse_print::fault::Fault;
use reuse_print::found_names::report_names;
use reuse_print::output::Sink;
use reuse_ready::NameCount;
use reuse_session::{Counts, Refusal, Request};
use reuse_shown::progress::Progress;
use reuse_store::{Store, WatchedStore};
use std::alloc::Global;
use std::fs::File;
use std::rt::{Clock, Files};

/// Answers the request on the folder, and writes the lines of the answer; how many paths that
/// reports, and what the call counted. The folder is given back as a store, with what is known of
/// its last failure.
pub fn run_on_folder<R: Files<File = File> + AllocGlobal + Clock + Eprint + Clone + Drop, O: Sink>(
    folder: HostStore<R>,
    progress: &Progress<R>,
    alloc: Global,
    request: &Request,
    options: PrintOptions,
    out: &mut O,
) -> (HostStore<R>, Result<usize, Fault>, Counts)
    // As on any store, for whatever files the folder holds.
    ensures { CarriesOut ⟦<HostStore<R> as Store>⟧ O.contents O.failed request.now options folder result.0 out.old
        out.new result.1 }
{
    let watched = WatchedStore::new(folder, progress);
    let (watched, outcome, counts) = run_request(alloc, request, options, watched, out);
    (watched.into_inner(), outcome, counts)
}

/// Finds the names without a comment style, by the preview that is requested; and what that
/// counted. The folder is given back.
pub fn find_on_folder<R: Files<File = File> + AllocGlobal + Clock + Eprint + Clone + Drop>(
    folder: HostStore<R>,
    progress: &Progress<R>,
    alloc: Global,
    request: &Request,
) -> (HostStore<R>, Result<Vec<NameCount>, Refusal>, Counts)
    ensures { FindsNames ⟦<HostStore<R> as Store>⟧ request.now folder result.0 result.1 }
{
    let watched = WatchedStore::new(folder, progress);
    let (watched, found, counts) = find_names(alloc, request, watched);
    (watched.into_inner(), found, counts)
}

/// Finds these names, and writes the list of them.
pub fn list_on_folder<R: Files<File = File> + AllocGlobal + Clock + Eprint + Clone + Drop, O: Sink>(
    folder: HostStore<R>,
    progress: &Progress<R>,
    alloc: Global,
    request: &Request,
    options: PrintOptions,
    out: &mut O,
) -> (HostStore<R>, Result<usize, Fault>, Counts)
    ensures { ListsNames ⟦<HostStore<R> as Store>⟧ O.contents O.failed request.now options folder result.0 out.old
        out.new result.1 }
{
    let (folder, found, counts) = find_on_folder(folder, progress, alloc, request);
    let as_objects = is_json(options.format);
    (
        folder,
        report_names(out, alloc, found, as_objects, options.names),
        counts,
    )
}
