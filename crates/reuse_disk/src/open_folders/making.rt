//! Making folders. One that root makes is given to the owner of the folder that it lies in.
ghost use Rattle.std.specs.Prelude.{◌≡◌, ◌⊎◌, Some};
ghost use Rattle.reuse_system.specs.Folders.{IsGrown};
ghost use Rattle.reuse_system.specs.declared.syncs.Syncs.TheVariants.{Kept};
ghost use Rattle.reuse_system.specs.SystemLaws.{IsOpenedBelow};
ghost use Rattle.reuse_disk.specs.KeptPaths.{KeepsPaths};
ghost use Rattle.reuse_disk.specs.ReadsOnly.{ReadsOnly};

use super::{OpenFolders, next_name};
use crate::disk_system::DiskSystem;
use crate::syncs::Unsynced;
use reuse_system::fault::{FolderFault, IoReason};
use reuse_system::handle::{Below, OpenFolder};
use reuse_system::place::Found;
use std::alloc::Global;
use std::fs::{self, File};
use std::rt::Files;

impl OpenFolders {
    ghost use Rattle.reuse_disk.specs.Noted.{IsNoted, StayNoted};
    ghost use Rattle.reuse_disk.specs.OpenFolders.{current_of, AreOpenedIf, IsOpenedFrom, path_of};

    /// Enters the folder at this path, and makes those on the way that are missing. Each gives a
    /// name to the one above it.
    ///
    /// # Errors
    /// `Foreign` if a part of the path is no folder; else what the system says.
    pub fn make<S: DiskSystem>(
        &mut self,
        system: &mut S,
        alloc: Global,
        folder: &str,
        unsynced: &mut Unsynced,
    ) -> Result<(), FolderFault>
        ensures kept { S.holds system.new ≡ S.holds system.old }
        ensures changes { S.changes system.new ≡ S.changes system.old }
        ensures grown { IsGrown (S.folders system.old) (S.folders system.new) }
        // A folder that is made is empty.
        ensures paths { S.honest system.new
            → KeepsPaths (S.holds system.new) (S.folders system.old) (S.folders system.new) }
        ensures earlier { S.honest system.new → S.honest system.old }
        ensures opened { AreOpenedIf (S.honest system.old) (S.folders system.old) self.old
            → AreOpenedIf (S.honest system.new) (S.folders system.new) self.new }
        ensures syncs { unsynced.new.syncs ≡ unsynced.old.syncs }
        ensures noted { StayNoted unsynced.old unsynced.new }
    {
        let mut rest = self.go_back(system, alloc, folder)?;
        while let Some((name, below)) = next_name(rest) {
            match self.open_or_make(system, alloc, name, unsynced)? {
                Below::Folder(opened) => self.step_into(alloc, name, opened)?,
                Below::Other(_) => return Err(FolderFault::Device(IoReason::Foreign)),
            }
            rest = below;
        }
        Ok(())
    }

    /// The folder of this name in the one that was entered last, which is made if nothing has the
    /// name.
    fn open_or_make<S: DiskSystem>(
        &self,
        system: &mut S,
        alloc: Global,
        name: &str,
        unsynced: &mut Unsynced,
    ) -> Result<Below, FolderFault>
        ensures kept { S.holds system.new ≡ S.holds system.old }
        ensures changes { S.changes system.new ≡ S.changes system.old }
        ensures grown { IsGrown (S.folders system.old) (S.folders system.new) }
        // A folder that is made is empty.
        ensures paths { S.honest system.new
            → KeepsPaths (S.holds system.new) (S.folders system.old) (S.folders system.new) }
        ensures earlier { S.honest system.new → S.honest system.old }
        ensures opened { S.honest system.new
            → IsOpenedFrom (S.folders system.new) (current_of self.now) name.now result }
        // A folder that gets a name is noted.
        ensures made { unsynced.old.syncs ≡ Kept
            → (S.folders system.new ≡ S.folders system.old) ⊎ IsNoted unsynced.new (path_of self.now) }
        ensures syncs { unsynced.new.syncs ≡ unsynced.old.syncs }
        ensures noted { StayNoted unsynced.old unsynced.new }
    {
        let above = self.current()?;
        match system.open_below(alloc, above, name)? {
            Below::Other(Found::Nothing) => {
                unsynced.note(alloc, self.path())?;
                system.make_folder(above, name)?;
                if self.process.is_of_root() {
                    return open_made_by_root(system, alloc, above, name);
                }
                system.open_below(alloc, above, name)
            }
            below => Ok(below),
        }
    }
}

/// Opens the folder of this name, which root made just now, and gives it to the owner of the one
/// that it lies in.
fn open_made_by_root<S: DiskSystem>(
    system: &mut S,
    alloc: Global,
    above: &OpenFolder,
    name: &str,
) -> Result<Below, FolderFault>
    ensures reads { ReadsOnly S.System system.old system.new }
    ensures opened { S.honest system.new
        → IsOpenedBelow (S.folders system.new) (S.holds system.new) above.now.identity name.now result }
{
    let below = system.open_below(alloc, above, name)?;
    if let Below::Folder(folder) = &below
        && is_to_give(system.rt(), above, folder)?
    {
        folder.give_to(above.owner())?;
        drop(below);
        return system.open_below(alloc, above, name);
    }
    Ok(below)
}

/// Whether root gives the folder away. It does so only with an empty one of its own: another
/// program may have put some folder of root's in the place of the one that was made.
fn is_to_give<R: Files<File = File> + AllocGlobal + Clone + Drop>(
    rt: &R,
    above: &OpenFolder,
    folder: &OpenFolder,
) -> Result<bool, FolderFault> {
    Ok(folder.owner().user == 0 && folder.owner() != above.owner() && is_empty(rt, folder)?)
}

fn is_empty<R: Files<File = File> + AllocGlobal + Clone + Drop>(
    rt: &R,
    folder: &OpenFolder,
) -> Result<bool, FolderFault> {
    for entry in fs::read_dir(rt, folder.path())? {
        let _ = entry?;
        return Ok(false);
    }
    Ok(true)
}
