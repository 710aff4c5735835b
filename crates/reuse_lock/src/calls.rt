//! The calls of the system by which a root is locked. Each is noted by the one function here that
//! makes it: that what is noted is the call that is made is not proved, and has to be read here.
ghost use Rattle.std.specs.Prelude.{◌≡◌, ◌≢◌, ◌↔◌, ◌∷◌, Err, IfSome, IsOk, MatchOption, is_some};
ghost use Rattle.std.specs.Option.{option_map};
ghost use Rattle.std.specs.Path.{path_buf_bytes};
ghost use Rattle.reuse_lock.specs.LockCall.LockCall.{PathCall, TryCall};
ghost use Rattle.reuse_lock.specs.Locks.{has_error, has_no_lock};

use crate::record::{LockAnswer, LockMode, LockRecord};
use std::alloc::Global;
use std::fs::{self, File, TryLockError};
use std::io;
use std::path::PathBuf;
use std::rt::Files;

/// Where the root lies, as an absolute path without links, if the system reports that.
pub fn absolute_path<R: Files<File = File> + AllocGlobal>(
    rt: &R,
    root: &str,
    noted: &mut LockRecord,
) -> Option<PathBuf<Global>>
    ensures { noted.new.calls ≡ PathCall root.now (option_map path_buf_bytes result) ∷ noted.old.calls }
{
    let reported = fs::canonicalize(rt, root).ok();
    noted.note(&root, &reported);
    reported
}

/// The folder at this path, if it is one that may be read. Anything else, as a pipe, isn't opened.
fn open_folder<R: Files<File = File>>(rt: &R, path: &str) -> io::Result<Option<File>> {
    if fs::metadata(rt, path)?.is_dir() {
        Ok(Some(File::open(rt, path)?))
    } else {
        Ok(None)
    }
}

/// What the system answered.
fn answer_of(tried: Result<(), TryLockError>) -> LockAnswer
    ensures granted { (result ≡ LockAnswer.Granted) ↔ IsOk tried }
    ensures held { (result ≡ LockAnswer.HeldByAnother) ↔ (tried ≡ Err TryLockError.WouldBlock) }
    ensures opened { result ≢ LockAnswer.NotOpened }
    ensures no_lock { has_no_lock result ≡ has_error tried }
{
    match tried {
        Ok(()) => LockAnswer::Granted,
        Err(TryLockError::WouldBlock) => LockAnswer::HeldByAnother,
        Err(TryLockError::Error(_)) => LockAnswer::NoLocks,
    }
}

/// Why the lock couldn't be had at all, as on a file system without locks.
fn error_of(tried: &Result<(), TryLockError>) -> Option<io::Error>
    ensures { is_some result ≡ has_error tried.now }
{
    match tried {
        Err(TryLockError::Error(error)) => Some(*error),
        Ok(()) | Err(TryLockError::WouldBlock) => None,
    }
}

/// An open folder, on which a lock was asked for.
#[derive(Drop)]
pub struct AskedFolder {
    /// The lock is held as long as this is open.
    _folder: File,
    /// Why it couldn't be had at all.
    pub error: Option<io::Error>,
}

/// Notes that the lock on the folder at this path was asked for.
fn note_lock(noted: &mut LockRecord, path: &str, mode: LockMode, answer: LockAnswer)
    ensures { noted.new.calls ≡ TryCall path.now mode answer ∷ noted.old.calls }
{
    noted.note(&(path, mode), &answer);
}

/// Opens the folder at this path, if that can be done, and asks for the lock on it.
pub fn try_lock<R: Files<File = File>>(
    rt: &R,
    path: &str,
    mode: LockMode,
    noted: &mut LockRecord,
) -> (Option<AskedFolder>, LockAnswer)
    ensures noted { noted.new.calls ≡ TryCall path.now mode result.1 ∷ noted.old.calls }
    ensures opened { MatchOption result.0 (result.1 ≡ LockAnswer.NotOpened)
        (λ folder. result.1 ≢ LockAnswer.NotOpened) }
    ensures error { IfSome result.0 (λ folder. is_some folder.error ≡ has_no_lock result.1) }
{
    let Some(folder) = open_folder(rt, path).unwrap_or(None) else {
        note_lock(noted, path, mode, LockAnswer::NotOpened);
        return (None, LockAnswer::NotOpened);
    };
    let tried = match mode {
        LockMode::Exclusive => folder.try_lock(),
        LockMode::Shared => folder.try_lock_shared(),
    };
    let error = error_of(&tried);
    let answer = answer_of(tried);
    note_lock(noted, path, mode, answer);
    let folder = AskedFolder {
        _folder: folder,
        error,
    };
    (Some(folder), answer)
}
