//! Names that files get and lose. A name changes only if what was seen there stands there directly
//! before, and a file that is made takes its name by a link, which takes no name that is there.
ghost use Rattle.std.specs.Prelude.{◌≡◌, ◌≢◌, Bool, List, ℕ, MatchResult, None, Some, IfErr, IfOk, IsErr, IsTrue};
ghost use Rattle.std.specs.IoError.{error_kind};
ghost use Rattle.reuse_system.specs.NameChanges.{IsExpected, IsGuarded};
ghost use Rattle.reuse_system.specs.NewFiles.{Due};
ghost use Rattle.reuse_system.specs.SystemLaws.{IsAlikeBut, IsOneFile, IsRemoved};
ghost use Rattle.reuse_system.specs.TempFiles.{name_in, place_of, key_of};
ghost use Rattle.reuse_system.specs.FileStates.{file};
ghost use Rattle.reuse_disk.specs.Named.{GivesName, IsNamedAsSeen, is_without_links};
ghost use Rattle.reuse_disk.specs.Written.{IsMoved, IsWritten, is_named};

use reuse_system::fault::{FolderFault, IoReason};
use reuse_system::handle::OpenFolder;
use reuse_system::ignored::is_in_journal;
use reuse_system::place::{FileStatus, Found};
use reuse_system::system::{System, TempFile};
use std::io::{self, ErrorKind};

/// A name that a file is to get in an open folder, and its path below the root.
#[derive(Clone, Copy)]
pub struct Target<'a> {
    /// The folder.
    pub folder: &'a OpenFolder,
    /// The name in it.
    pub name: &'a str,
    /// The path below the root.
    pub path: &'a str,
}

/// Fails if what stands at a name isn't what was seen there.
fn check_found(found: Found, seen: Option<FileStatus>) -> Result<(), FolderFault>
    ensures ok { IfOk result (λ _. IsExpected seen (Some found)) }
    ensures refused { IsErr result → ¬ (IsExpected seen (Some found)) }
    ensures err { IfErr result (λ fault. fault ≡ FolderFault.Device IoReason.Changing) }
{
    let is_same = match (found, seen) {
        (Found::File(status), Some(seen)) => status.is_same(&seen),
        (Found::Nothing, None) => true,
        _ => false,
    };
    if is_same {
        Ok(())
    } else {
        Err(FolderFault::Device(IoReason::Changing))
    }
}

/// Whether this reports that the file system has no links, or that this one may not be made.
fn is_without_links(error: &io::Error) -> bool
    ensures { result ≡ is_without_links (error_kind error.now) }
{
    matches!(
        error.kind(),
        ErrorKind::PermissionDenied | ErrorKind::Unsupported | ErrorKind::TooManyLinks
    )
}

/// Gives the temporary file the name of the target, if that stands directly before as it was seen.
fn replace<S: System>(
    system: &mut S,
    temp_file: &TempFile,
    target: Target<'_>,
    seen: Option<FileStatus>,
) -> Result<(), FolderFault>
    ensures free { S.honest system.new → seen ≡ None
        → IfOk result (λ _. S.holds system.old (name_in target.entry.folder.now target.entry.name.now) ≡ None) }
    ensures gives { GivesName S.System system.old system.new (place_of temp_file.now)
        (name_in target.entry.folder.now target.entry.name.now) result }
    ensures guarded { IsNamedAsSeen S.System system.old system.new temp_file.now
        (name_in target.entry.folder.now target.entry.name.now) seen }
{
    let found = system.look(target.folder, target.name)?;
    check_found(found, seen)?;
    Ok(system.rename(temp_file, target.folder, target.name)?)
}

/// Gives the temporary file the name of the target, which nothing has: by a link, which takes no
/// name that is there. If there are no links, the name is looked at.
fn take_name<S: System>(
    system: &mut S,
    temp_file: &TempFile,
    target: Target<'_>,
) -> Result<(), FolderFault>
    ensures gives { GivesName S.System system.old system.new (place_of temp_file.now)
        (name_in target.entry.folder.now target.entry.name.now) result }
    ensures guarded { IsNamedAsSeen S.System system.old system.new temp_file.now
        (name_in target.entry.folder.now target.entry.name.now) None }
{
    match system.link(temp_file, target.folder, target.name) {
        Ok(()) => Ok(system.discard(temp_file)?),
        Err(error) if error.kind() == ErrorKind::AlreadyExists => {
            Err(FolderFault::Device(IoReason::Changing))
        }
        Err(error) if is_without_links(&error) => replace(system, temp_file, target, None),
        Err(error) => Err(error.into()),
    }
}

/// Gives the temporary file the name of the target, if what was seen there still stands there: a
/// file, or nothing. Nobody else makes files of the journal, so those need no link.
fn give_name<S: System>(
    system: &mut S,
    temp_file: &TempFile,
    target: Target<'_>,
    seen: Option<FileStatus>,
) -> Result<(), FolderFault>
    ensures gives { GivesName S.System system.old system.new (place_of temp_file.now)
        (name_in target.entry.folder.now target.entry.name.now) result }
    ensures guarded { IsNamedAsSeen S.System system.old system.new temp_file.now
        (name_in target.entry.folder.now target.entry.name.now) seen }
{
    if seen.is_some() || is_in_journal(target.path) {
        replace(system, temp_file, target, seen)
    } else {
        take_name(system, temp_file, target)
    }
}

/// Removes the file of the target, if it stands directly before as it was seen.
pub fn remove_seen<S: System>(
    system: &mut S,
    target: Target<'_>,
    seen: FileStatus,
) -> Result<(), FolderFault>
    ensures removed { MatchResult result
        (λ _. IsRemoved (name_in target.entry.folder.now target.entry.name.now) (S.holds system.old)
        (S.holds system.new))
        (λ _. IsAlikeBut (name_in target.entry.folder.now target.entry.name.now) (S.holds system.old)
        (S.holds system.new)) }
    ensures guarded { (due : Due) → due.seen ≡ Some seen
        → IsGuarded (λ _. ⊥) (name_in target.entry.folder.now target.entry.name.now) due
        (S.changes system.old) (S.changes system.new) (S.holds system.old) (S.holds system.new) }
    ensures still { S.folders system.new ≡ S.folders system.old }
    ensures earlier { S.honest system.new → S.honest system.old }
{
    let found = system.look(target.folder, target.name)?;
    check_found(found, Some(seen))?;
    Ok(system.remove(target.folder, target.name)?)
}

/// Gives the new file the name of the target, if that stands as it was seen directly before and it
/// lies on the same device: says whether it does.
pub fn name_temp_file<S: System>(
    system: &mut S,
    temp_file: &TempFile,
    target: Target<'_>,
    seen: Option<FileStatus>,
) -> Result<bool, FolderFault>
    ensures named { (bytes : List ℕ) → (is_durable : Bool)
        → S.holds system.old (place_of temp_file.now) ≡ file (key_of temp_file.now) bytes is_durable
        → IsWritten (λ place. place ≡ place_of temp_file.now)
        (name_in target.entry.folder.now target.entry.name.now) bytes is_durable
        (S.holds system.old) (S.holds system.new) (is_named result) }
    ensures moved { IsMoved (place_of temp_file.now) (name_in target.entry.folder.now target.entry.name.now)
        (S.holds system.old) (S.holds system.new) }
    ensures gone { S.honest system.new → place_of temp_file.now ≢ name_in target.entry.folder.now target.entry.name.now
        → ¬ (IsOneFile (S.holds system.old (place_of temp_file.now))
        (S.holds system.old (name_in target.entry.folder.now target.entry.name.now)))
        → IsTrue (is_named result) → S.holds system.new (place_of temp_file.now) ≡ None }
    ensures guarded { IsNamedAsSeen S.System system.old system.new temp_file.now
        (name_in target.entry.folder.now target.entry.name.now) seen }
    ensures still { S.folders system.new ≡ S.folders system.old }
    ensures earlier { S.honest system.new → S.honest system.old }
{
    match give_name(system, temp_file, target, seen) {
        Err(FolderFault::Device(IoReason::System(error)))
            if error.kind() == ErrorKind::CrossesDevices => { Ok(false) }
        named => {
            named?;
            Ok(true)
        }
    }
}
