//! What was read of paths, and so what their writes expect there.
ghost use Rattle.std.specs.Prelude.{◌≡◌, List, [], ◌∷◌, ◌++◌, IfOk, None, Some};
ghost use Rattle.reuse_folder.specs.Seen.{expected_of, IsSeenAs, IsSeenBefore};
ghost use Rattle.reuse_folder.specs.declared.folder.seen.ReadPath.{ReadPath};

use reuse_change::PathText;
use reuse_system::fault::{FolderFault, IoReason};
use reuse_system::place::FileStatus;

/// A path that was read, and what the system reported of the regular file there, if there was one.
#[derive(Drop)]
pub struct ReadPath {
    pub path: PathText,
    pub seen: Option<FileStatus>,
}

/// What a write expects at its path, directly before that changes.
#[derive(Clone, Copy)]
pub enum Expected {
    /// Whatever is found there first, since the path wasn't read.
    Found,
    /// No file, since none was read.
    Nothing,
    /// The file that was read, as it was then.
    File(FileStatus),
}

impl Expected {
    /// What is expected where this was read.
    pub fn of(seen: Option<FileStatus>) -> Expected
        ensures { result ≡ expected_of seen }
    {
        match seen {
            Some(status) => Expected::File(status),
            None => Expected::Nothing,
        }
    }

    /// The file that was read, which needs no look before it is to be written.
    pub fn read_file(self) -> Option<FileStatus> {
        match self {
            Expected::File(status) => Some(status),
            Expected::Found | Expected::Nothing => None,
        }
    }

    /// What is to stand at the path where this file was found.
    ///
    /// # Errors
    /// `Changing` if nothing was expected.
    pub fn file(self, found: FileStatus) -> Result<FileStatus, FolderFault>
        ensures { IfOk result (λ seen. IsSeenAs self (Some seen)) }
    {
        match self {
            Expected::Found => Ok(found),
            Expected::File(status) => Ok(status),
            Expected::Nothing => Err(FolderFault::Device(IoReason::Changing)),
        }
    }

    /// That nothing is to stand at the path where no file was found.
    ///
    /// # Errors
    /// `Changing` if a file was expected.
    pub fn nothing(self) -> Result<(), FolderFault>
        ensures { IfOk result (λ _. IsSeenAs self None) }
    {
        match self {
            Expected::Found | Expected::Nothing => Ok(()),
            Expected::File(_) => Err(FolderFault::Device(IoReason::Changing)),
        }
    }
}

/// What is expected at the path after one more read.
fn expected_after(expected: Expected, read: &ReadPath, path: &PathText) -> Expected
    ensures { (reads : List ReadPath) → IsSeenBefore reads path.now expected
        → IsSeenBefore (reads ++ (read.now ∷ [])) path.now result }
{
    if read.path == *path {
        Expected::of(read.seen)
    } else {
        expected
    }
}

/// What is expected at this path after these reads, of which the last one of the path counts.
pub fn expected_at(reads: &[ReadPath], path: &PathText) -> Expected
    ensures { IsSeenBefore reads.now path.now result }
{
    let mut expected = Expected::Found;
    for read in reads {
        expected = expected_after(expected, read, path);
    }
    expected
}
