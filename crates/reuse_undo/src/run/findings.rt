//! What is found out after a call, for notes. Where it was refused for a name that isn't recognised,
//! it is previewed for the others. `locked` calls it. Tested by `tests/notes.sh`.
ghost use Rattle.std.specs.Prelude.{◌≡◌, ◌⊎◌};
ghost use Rattle.reuse_undo.specs.run.OneCall.{LooksAt, StaysThenLooks};

use crate::run::answering::preview;
use reuse_folder::HostStore;
use reuse_print::fault::Fault;
use reuse_print::ready_left::OwnFiles;
use reuse_report::diagnostics::Diagnostics;
use reuse_report::unrecognised::{Unrecognised, unrecognised_among};
use reuse_session::{Call, Refusal, Request};
use reuse_store::Store;
use std::alloc::Global;
use std::fs::File;
use std::rt::Files;

/// Adds what is found after the call of a line. The folder is given back.
pub fn look_after<R: Files<File = File> + AllocGlobal + Clone + Drop>(
    diagnostics: &mut Diagnostics,
    rt: &R,
    alloc: Global,
    folder: HostStore<R>,
    request: &Request,
    outcome: &Result<usize, Fault>,
) -> HostStore<R>
    ensures { StaysThenLooks ⟦<HostStore<R> as Store>⟧ (λ store. store.folder.unsynced) folder result }
{
    let mut folder = folder;
    diagnostics.look_at(rt, alloc, &mut folder, request, outcome);
    let (folder, unrecognised) = unrecognised_by(diagnostics, alloc, folder, request, outcome);
    diagnostics.unrecognised = unrecognised;
    folder
}

/// The files whose names aren't recognised, where the call was refused for one or passed them over,
/// or would be refused. A call that was made has counted them. One that was refused stopped at the
/// first, so it is looked at once more. An allocation failure or a fault leaves them out.
fn unrecognised_by<S: Store + Drop>(
    diagnostics: &Diagnostics,
    alloc: Global,
    folder: S,
    request: &Request,
    outcome: &Result<usize, Fault>,
) -> (S, Unrecognised)
    ensures { (result.0 ≡ folder) ⊎ LooksAt S.Store folder result.0 }
{
    if let (
        Request::Make(call @ Call::Run(_), _),
        Err(Fault::Refused(Refusal::Unrecognised(_))),
    ) = (request, outcome)
    {
        return unrecognised_names(alloc, folder, call, &diagnostics.own_files);
    }
    let counted = diagnostics.unrecognised_in(alloc, request, outcome);
    (folder, counted.unwrap_or(Unrecognised::unnamed(0)))
}

/// The files that the call goes through and whose names aren't recognised.
fn unrecognised_names<S: Store + Drop>(
    alloc: Global,
    folder: S,
    call: &Call,
    own: &OwnFiles,
) -> (S, Unrecognised)
    ensures { LooksAt S.Store folder result.0 }
{
    let (folder, path_outcomes) = preview(alloc, folder, call);
    let found = match path_outcomes {
        Ok(path_outcomes) => unrecognised_among(alloc, path_outcomes.as_slice(), own),
        Err(_) => None,
    };
    (folder, found.unwrap_or(Unrecognised::unnamed(0)))
}
