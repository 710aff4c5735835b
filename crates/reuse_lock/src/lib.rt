//! One run at a time on a tree, and on the trees that lie in one another.
#![tactic(auto)]

ghost use Rattle.std.specs.Prelude.{◌≡◌, ◌↔◌, ◌⊎◌, ◌+◌, List, ℕ, [], length, IfErr, IfOk, IsErr, MatchOption, OnOk};
ghost use Rattle.std.specs.Prelude.{◌∷◌, ◌++◌, is_some, string_bytes};
ghost use Rattle.reuse_lock.specs.Locks.{calls_of, folder_of, lacks_lock, AreExplained, AreKept, AreOpen};
ghost use Rattle.reuse_lock.specs.Locks.{AreLockedAbove, AreLockedAt, HasNoSlash, IsAbove, IsCutAtLast, IsGranted, IsLocked};
ghost use Rattle.reuse_lock.specs.declared.fault.LockFault.TheVariants.{InUse, Memory};

mod calls;
mod fault;
mod record;

use calls::{AskedFolder, absolute_path, try_lock};
pub use fault::LockFault;
use record::{LockAnswer, LockMode, LockRecord};
use reuse_record::Record;
use std::alloc::Global;
use std::fs::File;
use std::io;
use std::rt::Files;

/// The lock on a root folder, which keeps other runs out: from this root, from those above it, and
/// from those within. It is the system's own, exclusive on the folder itself and shared on each
/// folder above it, so no file is left behind. It is free again once this is let go, and where the
/// process ends, however that comes about. A store of the folder can't be opened without it, and
/// there is none that wasn't asked for.
#[derive(Drop)]
pub struct RootLock {
    root: String,
    held: LockedFolders,
    ghost locked: { ∥ IsLocked (string_bytes root) (calls_of held) ∥₁ },
    ghost open: { AreOpen held },
    ghost explained: { AreExplained held },
}

/// The folders that are locked, as far as they could be opened, and what was asked for them.
#[derive(Drop)]
pub struct LockedFolders {
    folders: Vec<AskedFolder>,
    asked: LockRecord,
}

impl RootLock {
    /// The root, as it was named, and what holds the lock.
    pub fn into_parts(self) -> (String, LockedFolders)
        ensures root { result.0 ≡ self.root }
        ensures locked { ∥ IsLocked (string_bytes result.0) (calls_of result.1) ∥₁ }
        ensures open { AreOpen result.1 }
        ensures explained { AreExplained result.1 }
    {
        let RootLock { root, held } = self;
        (root, held)
    }
}

impl LockedFolders {
    /// None so far.
    fn new(alloc: Global) -> LockedFolders
        ensures calls { calls_of result ≡ [] }
        ensures open { AreOpen result }
        ensures explained { AreExplained result }
    {
        LockedFolders {
            folders: Vec::new(alloc),
            asked: Record::new(),
        }
    }

    /// Why a folder couldn't be locked, as on a file system without locks, where one couldn't: then
    /// another run isn't kept out there.
    pub fn error(&self) -> Option<io::Error>
        ensures { AreExplained self.now → is_some result ≡ lacks_lock (calls_of self.now) }
    {
        for folder in &self.folders {
            if let Some(error) = folder.error {
                return Some(error);
            }
        }
        None
    }
}

/// Whether the run goes on: it is refused exactly where somebody else holds the lock. Where none
/// can be had at all, as on a file system without locks, it goes on without.
fn granted(answer: LockAnswer) -> Result<(), LockFault>
    ensures refused { IsErr result ↔ (answer ≡ LockAnswer.HeldByAnother) }
    ensures fault { IfErr result (λ fault. fault ≡ InUse) }
{
    match answer {
        LockAnswer::HeldByAnother => Err(LockFault::InUse),
        LockAnswer::Granted | LockAnswer::NoLocks | LockAnswer::NotOpened => Ok(()),
    }
}

/// Locks the folder at this path, if it can be opened.
fn lock_folder<R: Files<File = File>>(
    rt: &R,
    path: &str,
    mode: LockMode,
    held: &mut LockedFolders,
) -> Result<(), LockFault>
    ensures granted { OnOk result (IsGranted path.now mode (calls_of held.new)) }
    ensures open { AreOpen held.old → OnOk result (AreOpen held.new) }
    ensures explained { AreExplained held.old → OnOk result (AreExplained held.new) }
    ensures kept { AreKept (calls_of held.old) (calls_of held.new) }
    ensures fault { IfErr result (λ fault. (fault ≡ InUse) ⊎ (fault ≡ Memory)) }
{
    let (folder, answer) = try_lock(rt, path, mode, &mut held.asked);
    granted(answer)?;
    match folder {
        Some(folder) => keep_open(folder, held),
        None => Ok(()),
    }
}

/// Keeps the folder open, and so its lock.
fn keep_open(folder: AskedFolder, held: &mut LockedFolders) -> Result<(), LockFault>
    ensures same { calls_of held.new ≡ calls_of held.old }
    ensures open { OnOk result (length held.new.folders.items ≡ length held.old.folders.items + 1) }
    ensures last { OnOk result (held.new.folders.items ≡ held.old.folders.items ++ folder ∷ []) }
    ensures fault { IfErr result (λ fault. fault ≡ Memory) }
{
    match held.folders.push(folder) {
        Ok(()) => Ok(()),
        Err(_) => Err(LockFault::Memory),
    }
}

/// What stands before the last slash of the path, if it has one.
fn before_last_slash(path: &str) -> Option<&str>
    ensures { MatchOption result (HasNoSlash path.now) (λ front. IsCutAtLast path.now front.now) }
{
    match path.rsplit_once('/') {
        Some((front, _rest)) => Some(front),
        None => None,
    }
}

/// The folder that such a front of an absolute path names.
fn folder_of(front: &str) -> &str
    ensures { result.now ≡ folder_of front.now }
{
    if front.is_empty() { "/" } else { front }
}

/// Locks the folder that stands before each slash of this absolute path, from the first one on.
fn lock_at_slashes<R: Files<File = File>>(
    rt: &R,
    path: &str,
    held: &mut LockedFolders,
) -> Result<(), LockFault>
    ensures locked { OnOk result (AreLockedAt path.now (calls_of held.new)) }
    ensures open { AreOpen held.old → OnOk result (AreOpen held.new) }
    ensures explained { AreExplained held.old → OnOk result (AreExplained held.new) }
    ensures kept { AreKept (calls_of held.old) (calls_of held.new) }
    ensures fault { IfErr result (λ fault. (fault ≡ InUse) ⊎ (fault ≡ Memory)) }
{
    match before_last_slash(path) {
        Some(front) => {
            lock_at_slashes(rt, front, held)?;
            lock_folder(rt, folder_of(front), LockMode::Shared, held)
        }
        None => Ok(()),
    }
}

/// Locks the folders above this absolute path, from the root of the file system down.
fn lock_above<R: Files<File = File>>(
    rt: &R,
    path: &str,
    held: &mut LockedFolders,
) -> Result<(), LockFault>
    ensures locked { OnOk result
        ((folder : List ℕ) → IsAbove path.now folder → IsGranted folder LockMode.Shared (calls_of held.new)) }
    ensures open { AreOpen held.old → OnOk result (AreOpen held.new) }
    ensures explained { AreExplained held.old → OnOk result (AreExplained held.new) }
    ensures kept { AreKept (calls_of held.old) (calls_of held.new) }
    ensures fault { IfErr result (λ fault. (fault ≡ InUse) ⊎ (fault ≡ Memory)) }
{
    if path == "/" {
        Ok(())
    } else {
        lock_at_slashes(rt, path, held)
    }
}

/// Locks the folders above the root, if the system reports where it lies.
fn lock_above_root<R: Files<File = File> + AllocGlobal>(
    rt: &R,
    root: &str,
    held: &mut LockedFolders,
) -> Result<(), LockFault>
    ensures locked { OnOk result (AreLockedAbove root.now (calls_of held.new)) }
    ensures open { AreOpen held.old → OnOk result (AreOpen held.new) }
    ensures explained { AreExplained held.old → OnOk result (AreExplained held.new) }
    ensures fault { IfErr result (λ fault. (fault ≡ InUse) ⊎ (fault ≡ Memory)) }
{
    match absolute_path(rt, root, &mut held.asked) {
        Some(path) => lock_above(rt, path.as_str(), held),
        None => Ok(()),
    }
}

/// Takes the lock on the folder at this path; nothing in it is read or written. It is refused where
/// another run holds a lock that doesn't go with this one, or for an allocation failure, and for no
/// other reason: what keeps the folder from being opened is reported by the store.
pub fn lock_root<R: Files<File = File> + AllocGlobal>(
    rt: &R,
    alloc: Global,
    root: &str,
) -> Result<RootLock, LockFault>
    ensures root { IfOk result (λ lock. string_bytes lock.root ≡ root.now) }
    ensures locked { IfOk result (λ lock. IsLocked root.now (calls_of lock.held)) }
    ensures open { IfOk result (λ lock. AreOpen lock.held) }
    ensures explained { IfOk result (λ lock. AreExplained lock.held) }
    ensures fault { IfErr result (λ fault. (fault ≡ InUse) ⊎ (fault ≡ Memory)) }
{
    let mut held = LockedFolders::new(alloc);
    lock_above_root(rt, root, &mut held)?;
    lock_folder(rt, root, LockMode::Exclusive, &mut held)?;
    Ok(RootLock {
        root: String::from_str(alloc, root)?,
        held,
    })
}
