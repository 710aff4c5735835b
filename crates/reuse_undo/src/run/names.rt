//! The names of a tree that have no comment style. An annotation is previewed for them: they are
//! those of the files for which it is refused as unrecognised. `on_folder` calls it. Tested by
//! `tests/styles_command.sh`.
ghost use Rattle.std.specs.Prelude.{◌≡◌};
ghost use Rattle.reuse_print.specs.FoundNames.{IsFound};
ghost use Rattle.reuse_undo.specs.run.FoundNames.{FindsNames, is_json, names_answered};

use crate::run::line::call;
use reuse_arguments::line::{OutputFormat, PrintOptions};
use reuse_print::found_names::names_found;
use reuse_ready::NameCount;
use reuse_session::{Answer, Counts, Refusal, Request, Response};
use reuse_shown::shown_name::NameDisplay;
use reuse_store::Store;
use std::alloc::Global;

/// Finds the names, by the preview that is requested; and what that counted. The store is given
/// back.
pub fn find_names<S: Store + Drop>(
    alloc: Global,
    request: &Request,
    store: S,
) -> (S, Result<Vec<NameCount>, Refusal>, Counts)
    ensures { FindsNames S.Store request.now store result.0 result.1 }
{
    let options = PrintOptions {
        format: OutputFormat::Lines,
        names: NameDisplay::AsTheyAre,
    };
    let (store, answer, diff, counts) = call(alloc, store, request, options);
    drop(diff);
    (store, names_answered(alloc, answer), counts)
}

// The names by the answer to a preview.
fn names_answered(alloc: Global, answer: Answer) -> Result<Vec<NameCount>, Refusal>
    ensures { IsFound (names_answered answer) result }
{
    match answer {
        Ok(Response::Preview(path_outcomes)) => names_found(alloc, path_outcomes),
        Ok(response) => {
            drop(response);
            Ok(Vec::new(alloc))
        }
        Err(refusal) => Err(refusal),
    }
}

/// Whether names are listed as objects.
pub fn is_json(format: OutputFormat) -> bool
    ensures { result ≡ is_json format }
{
    match format {
        OutputFormat::Json => true,
        OutputFormat::Lines | OutputFormat::Diff => false,
    }
}
