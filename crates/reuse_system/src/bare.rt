//! Bare git repositories: folders in which version control keeps its data under any name.
ghost use Rattle.std.specs.Prelude.{◌≡◌};
ghost use Rattle.reuse_system.specs.FolderPlaces.{stands};

use crate::fault::FolderFault;
use crate::handle::OpenFolder;
use crate::place::Found;
use std::alloc::Global;
use std::rt::Files;

/// What each bare repository has in it.
const NAMES: [&str; 3] = ["HEAD", "objects", "refs"];

/// Whether anything stands there.
fn stands(found: &Found) -> bool
    ensures { result ≡ stands found.now }
{
    !matches!(found, Found::Nothing)
}

/// Whether the folder is a bare repository: `HEAD`, `objects` and `refs` stand in it.
pub fn is_bare_repository(
    rt: &impl Files,
    alloc: Global,
    folder: &OpenFolder,
) -> Result<bool, FolderFault> {
    for name in NAMES {
        if !stands(&folder.look(rt, alloc, name)?) {
            return Ok(false);
        }
    }
    Ok(true)
}
