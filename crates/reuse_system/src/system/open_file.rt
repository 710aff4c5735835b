//! Opening a file for reading.
ghost use Rattle.std.specs.Prelude.{◌≡◌, IfOk, IfSome};
ghost use Rattle.reuse_system.specs.TempFiles.{name_in, opened_at};

use crate::fault::FolderFault;
use crate::handle::OpenFolder;
use crate::place::FileStatus;
use crate::system::OpenedFile;
use std::fs::File;
use std::rt::Files;

/// Opens the file that was seen at this name just before, or gives nothing if something else has
/// taken its place.
pub fn open_file<R: Files<File = File> + AllocGlobal>(
    rt: &R,
    folder: &OpenFolder,
    name: &str,
    seen: FileStatus,
) -> Result<Option<OpenedFile>, FolderFault>
    ensures { IfOk result (λ opened. IfSome opened (λ file. opened_at file ≡ name_in folder.now name.now)) }
{
    let Some(file) = folder.open_file(rt, rt.alloc(), name, seen)? else {
        return Ok(None);
    };
    let name = String::from_str(rt.alloc(), name)?;
    Ok(Some(OpenedFile {
        file,
        folder: folder.identity(),
        name,
    }))
}
