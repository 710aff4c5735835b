//! What errors report of what was to be opened or synced.
ghost use Rattle.std.specs.Prelude.{◌≡◌, IfErr, IfOk, IfSome};
ghost use Rattle.std.specs.IoError.{error_kind};
ghost use Rattle.reuse_system.specs.Handles.{is_of_change, is_of_writing, is_without_sync};
ghost use Rattle.reuse_system.specs.Handles.{seen_where_failed};

use crate::fault::FolderFault;
use crate::place::FileStatus;
use std::fs::File;
use std::io::{self, ErrorKind};

/// Whether this reports that what was seen isn't there any more.
pub fn is_of_change(error: &io::Error) -> bool
    ensures { result ≡ is_of_change (error_kind error.now) }
{
    matches!(
        error.kind(),
        ErrorKind::NotFound
            | ErrorKind::NotADirectory
            | ErrorKind::IsADirectory
            | ErrorKind::FilesystemLoop
    )
}

/// Whether this reports that a file can't be opened for writing.
pub fn is_of_writing(error: &io::Error) -> bool
    ensures { result ≡ is_of_writing (error_kind error.now) }
{
    matches!(
        error.kind(),
        ErrorKind::PermissionDenied | ErrorKind::ReadOnlyFilesystem | ErrorKind::ExecutableFileBusy
    )
}

/// The file that was opened, if it is the regular file that was seen.
pub fn seen_file(opened: io::Result<File>, seen: FileStatus) -> Result<Option<File>, FolderFault>
    ensures opened { IfOk opened (λ file. IfOk result (λ found. IfSome found (λ one. one ≡ file))) }
    ensures failed { IfErr opened (λ error. result ≡ seen_where_failed error) }
{
    match opened {
        Ok(file) => {
            if seen.is_of(&file.metadata()?) {
                Ok(Some(file))
            } else {
                Ok(None)
            }
        }
        Err(error) if is_of_change(&error) => Ok(None),
        Err(error) => Err(error.into()),
    }
}

/// Whether folders can't be synced there at all, as on some file systems.
pub fn is_without_sync(error: &io::Error) -> bool
    ensures { result ≡ is_without_sync (error_kind error.now) }
{
    matches!(
        error.kind(),
        ErrorKind::InvalidInput | ErrorKind::Unsupported
    )
}
