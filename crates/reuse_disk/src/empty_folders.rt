//! Removing folders that hold nothing but folders.
ghost use Rattle.std.specs.Prelude.{◌≡◌, IfOk, string_bytes};
ghost use Rattle.reuse_disk.specs.KeptPaths.{KeepsPaths};
ghost use Rattle.reuse_disk.specs.OpenFolders.{AreOpenedIf, path_below};
ghost use Rattle.reuse_disk.specs.ReadsOnly.{EntersOnly};

use crate::disk_system::DiskSystem;
use crate::listing::MOST_NAMES;
use crate::open_folders::OpenFolders;
use reuse_change::PathText;
use reuse_change::layout::{ABOVE_JOURNAL, JOURNAL};
use reuse_system::fault::{FolderFault, IoReason};
use reuse_system::place::folder_and_name;
use std::alloc::{AllocError, Global};
use std::fs::{self, DirEntry, File};
use std::rt::Files;

/// The path of this name in a folder, both below the root.
pub fn path_in(alloc: Global, folder: &str, name: &str) -> Result<String, AllocError>
    ensures { IfOk result (λ path. string_bytes path ≡ path_below folder.now name.now) }
{
    let mut path = String::from_str(alloc, folder)?;
    if !folder.is_empty() {
        path.push('/')?;
    }
    path.push_str(name)?;
    Ok(path)
}

/// Adds a folder that lies in this one. Anything else is in the way.
fn push_folder<R: Files>(
    alloc: Global,
    folder: &str,
    entry: &DirEntry<R>,
    folders: &mut Vec<PathText>,
) -> Result<(), FolderFault> {
    if !entry.file_type()?.is_dir() {
        return Err(FolderFault::Device(IoReason::Foreign));
    }
    let path = path_in(alloc, folder, entry.file_name())?;
    push_path(alloc, path.as_str(), folders)
}

fn push_path(alloc: Global, text: &str, folders: &mut Vec<PathText>) -> Result<(), FolderFault> {
    let path = PathText::new(alloc, text)?;
    folders.push(path).map_err(AllocError::from)?;
    Ok(())
}

/// Adds the folders that lie in this one. Where anything else lies in it, that is in the way.
fn push_folders<S: DiskSystem>(
    system: &mut S,
    alloc: Global,
    open_folders: &mut OpenFolders,
    folder: &str,
    folders: &mut Vec<PathText>,
) -> Result<(), FolderFault>
    ensures enters { EntersOnly S.System system.old system.new open_folders.old open_folders.new }
{
    open_folders.enter_seen(system, alloc, folder)?;
    for entry in fs::read_dir(system.rt(), open_folders.current()?.path())? {
        push_folder(alloc, folder, &entry?, folders)?;
    }
    Ok(())
}

/// The folder and all below it, each above those that lie in it, where there is nothing else.
fn folders_below<S: DiskSystem>(
    system: &mut S,
    alloc: Global,
    open_folders: &mut OpenFolders,
    folder: &str,
) -> Result<Vec<PathText>, FolderFault>
    ensures enters { EntersOnly S.System system.old system.new open_folders.old open_folders.new }
{
    let mut folders = Vec::new(alloc);
    push_path(alloc, folder, &mut folders)?;
    for index in 0..MOST_NAMES {
        let Some(folder) = folders.get(index) else {
            return Ok(folders);
        };
        let folder = folder.try_clone(alloc)?;
        push_folders(system, alloc, open_folders, folder.text(), &mut folders)?;
    }
    Err(FolderFault::Device(IoReason::TooManyNames))
}

/// Removes the folder and those below it. Where anything but folders lies in one, nothing is
/// removed. The journal's folder stays, since files may be written there just now.
pub fn remove_folders<S: DiskSystem>(
    system: &mut S,
    alloc: Global,
    open_folders: &mut OpenFolders,
    folder: &str,
) -> Result<(), FolderFault>
    ensures kept { S.holds system.new ≡ S.holds system.old }
    // A folder that is removed is empty.
    ensures paths { AreOpenedIf (S.honest system.old) (S.folders system.old) open_folders.old → S.honest system.new
        → KeepsPaths (S.holds system.new) (S.folders system.old) (S.folders system.new) }
    ensures changes { S.changes system.new ≡ S.changes system.old }
    ensures earlier { S.honest system.new → S.honest system.old }
    ensures opened { AreOpenedIf (S.honest system.old) (S.folders system.old) open_folders.old
        → AreOpenedIf (S.honest system.new) (S.folders system.new) open_folders.new }
{
    let folders = folders_below(system, alloc, open_folders, folder)?;
    for folder in folders.iter().rev() {
        if folder.text() == ABOVE_JOURNAL || folder.text() == JOURNAL {
            return Err(FolderFault::Device(IoReason::Foreign));
        }
        let (above, name) = folder_and_name(folder.text());
        open_folders.enter_seen(system, alloc, above)?;
        let removed = system.remove_folder(open_folders.current()?, name);
        open_folders.close();
        removed?;
    }
    Ok(())
}
