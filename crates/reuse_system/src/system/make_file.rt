//! Making a file.
ghost use Rattle.std.specs.Prelude.{◌≡◌, IfOk};
ghost use Rattle.reuse_system.specs.NewFiles.{made_status};
ghost use Rattle.reuse_system.specs.TempFiles.{name_in, place_of};

use crate::handle::OpenFolder;
use crate::system::TempFile;
use crate::system::new_status::NewStatus;
use std::fs::{File, OpenOptions};
use std::io;
use std::os::unix::fs::OpenOptionsExt;
use std::rt::Files;

/// Makes an empty file of this name.
pub fn make_file<R: Files<File = File> + AllocGlobal>(
    rt: &R,
    folder: &OpenFolder,
    name: &str,
    mode: Option<u32>,
    number: u64,
) -> io::Result<TempFile>
    ensures place { IfOk result (λ temp_file. place_of temp_file ≡ name_in folder.now name.now) }
    ensures number { IfOk result (λ temp_file. temp_file.number ≡ number) }
    ensures status { IfOk result (λ temp_file. temp_file.status ≡ made_status mode) }
{
    let path = folder.path_of(rt.alloc(), name)?;
    let name = String::from_str(rt.alloc(), name)?;
    let mut options = OpenOptions::new();
    options.write(true).create_new(true);
    if let Some(mode) = mode {
        options.mode(mode);
    }
    let file = options.open(rt, path.as_str())?;
    Ok(TempFile {
        file,
        path,
        folder: folder.identity(),
        name,
        number,
        status: NewStatus::of_made(mode),
    })
}
