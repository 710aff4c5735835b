//! Naming the new files of a batch: the data of all is synced first, and then each is given its
//! name, in order.
ghost use Rattle.std.specs.Prelude.{◌≡◌, ◌<◌, ◌≤◌, ℕ, List, [], ◌∷◌, false, is_ok, IfErr, IfOk, IsTrue};
ghost use Rattle.std.specs.Prelude.{MatchResult, length};
ghost use Rattle.reuse_change.specs.Layout.{journal_folder};
ghost use Rattle.reuse_change.specs.Path.{is_path};
ghost use Rattle.reuse_system.specs.Folders.{folder_at};
ghost use Rattle.reuse_system.specs.TempFiles.{key_of};
ghost use Rattle.reuse_system.specs.SystemLaws.{IsAlikeButFile, IsAlikeUnless};
ghost use Rattle.reuse_system.specs.declared.place.Identity.{Identity};
ghost use Rattle.reuse_disk.specs.Noted.{StayNoted};
ghost use Rattle.reuse_disk.specs.Written.{is_kept, IsSyncedIf};
ghost use Rattle.reuse_folder.specs.Barriers.{HasNoted, IsNotedAbove, NamesKnown};
ghost use Rattle.reuse_folder.specs.Disk.{disk_of};
ghost use Rattle.reuse_folder.specs.NewFileFolder.{IsJournal};
ghost use Rattle.reuse_folder.specs.Rounds.{AreApart, AreTempFile, AreNamed, HavePlaces};
ghost use Rattle.reuse_folder.specs.Rounds.{IsNamed, IsNumbered, StandsTempFile};
ghost use Rattle.reuse_folder.specs.Seen.{IsKnownTempFile, LoseNoEdits};
ghost use Rattle.reuse_folder.specs.declared.folder.seen.ReadPath.{ReadPath};

use super::RootFolder;
use super::batch::{NewContent, Stop, remove_all};
use super::seen::ReadPath;
use reuse_change::PathText;
use reuse_disk::{Content, DiskSystem, NewFile, Target, name_temp_file};
use reuse_store::FileWrite;
use reuse_system::fault::FolderFault;
use reuse_system::place::folder_and_name;
use reuse_system::system::TempFile;
use std::alloc::Global;

impl<S: DiskSystem + Drop> RootFolder<S> {
    /// Makes the data of the new files durable and gives each its name, in order: the first so many
    /// writes are made by that. Where one fails, the others behind it are removed.
    pub(super) fn name_all(
        &mut self,
        alloc: Global,
        writes: &[FileWrite],
        new_file: &mut NewFile,
        temp_files: &[NewContent],
    ) -> Result<(), Stop>
        requires { 0 < length writes.now }
        ensures stop { IfErr result (λ stop. stop.made < length writes.now) }
        ensures still { S.folders self.new.system ≡ S.folders self.old.system }
        ensures folder { new_file.new.folder ≡ new_file.old.folder }
        ensures named { S.honest self.new.system
            → IsJournal (folder_at (S.folders self.old.system) journal_folder) new_file.old.folder.identity
            → 0 < length temp_files.now → length temp_files.now ≤ length writes.now
            → HavePlaces new_file.old.folder.identity temp_files.now → AreApart temp_files.now
            → AreTempFile new_file.old.folder.identity false (S.holds self.old.system) 0 (length temp_files.now)
            writes.now temp_files.now
            → AreNamed new_file.old.folder.identity (is_kept self.old.unsynced.syncs) writes.now temp_files.now
            (disk_of S.System self.old.system) (disk_of S.System self.new.system) result }
        ensures names { NamesKnown S.System self.old.system self.new.system self.old.unsynced self.new.unsynced
            writes.now temp_files.now }
    {
        if let Err(fault) = self.sync_all(writes, temp_files) {
            remove_all(&mut self.system, temp_files);
            return Err(Stop::at_first(fault));
        }
        self.name_each(alloc, writes, new_file, temp_files)
    }

    /// Makes the data of the new files durable.
    fn sync_all(
        &mut self,
        writes: &[FileWrite],
        temp_files: &[NewContent],
    ) -> Result<(), FolderFault>
        ensures synced { (new_files : Identity) → length temp_files.now ≤ length writes.now
            → AreApart temp_files.now
            → AreTempFile new_files false (S.holds self.old.system) 0 (length temp_files.now) writes.now
            temp_files.now
            → IfOk result (λ _. AreTempFile new_files (is_kept self.old.unsynced.syncs) (S.holds self.new.system) 0
            (length temp_files.now) writes.now temp_files.now)
            × IsAlikeUnless (IsNumbered new_files (length temp_files.now)) (S.holds self.old.system)
            (S.holds self.new.system) }
        ensures syncs { self.new.unsynced.syncs ≡ self.old.unsynced.syncs }
        ensures stay_noted { StayNoted self.old.unsynced self.new.unsynced }
        ensures still { S.folders self.new.system ≡ S.folders self.old.system }
        ensures earlier { S.honest self.new.system → S.honest self.old.system }
        ensures changes { S.changes self.new.system ≡ S.changes self.old.system }
    {
        for (at, new) in temp_files.iter().enumerate() {
            let Some(write) = writes.get(at) else {
                return Ok(());
            };
            self.sync_temp_file(&new.temp_file, write.path)?;
        }
        Ok(())
    }

    /// Makes the data of the new file durable that is to get this path.
    fn sync_temp_file(&mut self, temp_file: &TempFile, path: &PathText) -> Result<(), FolderFault>
        ensures synced { MatchResult result (λ _. IsSyncedIf (is_kept self.old.unsynced.syncs) (key_of temp_file.now)
            (S.holds self.old.system) (S.holds self.new.system)) (λ _. IsAlikeButFile (key_of temp_file.now)
            (S.holds self.old.system) (S.holds self.new.system)) }
        ensures syncs { self.new.unsynced.syncs ≡ self.old.unsynced.syncs }
        ensures stay_noted { StayNoted self.old.unsynced self.new.unsynced }
        ensures still { S.folders self.new.system ≡ S.folders self.old.system }
        ensures earlier { S.honest self.new.system → S.honest self.old.system }
        ensures changes { S.changes self.new.system ≡ S.changes self.old.system }
    {
        let unsynced = &mut self.unsynced;
        Ok(unsynced.sync_data(&mut self.system, temp_file, path.text())?)
    }

    /// Gives each new file its name, in order. If one fails, it and those behind it are removed.
    fn name_each(
        &mut self,
        alloc: Global,
        writes: &[FileWrite],
        new_file: &mut NewFile,
        temp_files: &[NewContent],
    ) -> Result<(), Stop>
        ensures stop { IfErr result (λ stop. stop.made < length writes.now) }
        ensures still { S.folders self.new.system ≡ S.folders self.old.system }
        ensures folder { new_file.new.folder ≡ new_file.old.folder }
        ensures named { S.honest self.new.system
            → IsJournal (folder_at (S.folders self.old.system) journal_folder) new_file.old.folder.identity
            → length temp_files.now ≤ length writes.now
            → HavePlaces new_file.old.folder.identity temp_files.now → AreApart temp_files.now
            → AreTempFile new_file.old.folder.identity (is_kept self.old.unsynced.syncs) (S.holds self.old.system) 0
            (length temp_files.now) writes.now temp_files.now
            → AreNamed new_file.old.folder.identity (is_kept self.old.unsynced.syncs) writes.now temp_files.now
            (disk_of S.System self.old.system) (disk_of S.System self.new.system) result }
        ensures names { NamesKnown S.System self.old.system self.new.system self.old.unsynced self.new.unsynced
            writes.now temp_files.now }
    {
        for (made, write) in writes.iter().enumerate() {
            let Some(new) = temp_files.get(made) else {
                return Ok(());
            };
            if let Err(fault) = self.name_one(alloc, new_file, new, write) {
                remove_all(&mut self.system, &temp_files[made..]);
                return Err(Stop { made, fault });
            }
        }
        Ok(())
    }

    /// Gives the new file its name, if what was seen at the path stands there. If that leads to
    /// another device, the file is written anew beside the one that it is to be.
    fn name_one(
        &mut self,
        alloc: Global,
        new_file: &mut NewFile,
        new: &NewContent,
        write: &FileWrite,
    ) -> Result<(), FolderFault>
        ensures still { S.folders self.new.system ≡ S.folders self.old.system }
        ensures path { IsTrue (is_path write.now.path.now) }
        ensures folder { new_file.new.folder ≡ new_file.old.folder }
        ensures named { S.honest self.new.system → (count number : ℕ)
            → StandsTempFile new_file.old.folder.identity count (is_kept self.old.unsynced.syncs)
            (S.holds self.old.system) number write.now new.now
            → IsNamed new_file.old.folder.identity count (is_kept self.old.unsynced.syncs) number write.now new.now
            (disk_of S.System self.old.system) (disk_of S.System self.new.system) (is_ok result) }
        ensures syncs { self.new.unsynced.syncs ≡ self.old.unsynced.syncs }
        ensures stay_noted { StayNoted self.old.unsynced self.new.unsynced }
        ensures noted { (reads : List ReadPath) → IsKnownTempFile reads write.now.path.now new.now
            → IsNotedAbove self.old.unsynced write.now.path.now
            → HasNoted self.new.unsynced write.now.path.now (S.changes self.old.system) (S.changes self.new.system) }
        ensures earlier { S.honest self.new.system → S.honest self.old.system }
        ensures keeps_edits { (reads : List ReadPath) → IsKnownTempFile reads write.now.path.now new.now
            → LoseNoEdits reads (write.now ∷ []) (S.changes self.old.system) (S.changes self.new.system) }
    {
        let path = write.path.text();
        let (folder, name) = folder_and_name(path);
        self.open_folders
            .enter_seen(&mut self.system, alloc, folder)?;
        let target = Target {
            folder: self.open_folders.current()?,
            name,
            path,
        };
        new_file.check(target)?;
        if name_temp_file(&mut self.system, &new.temp_file, target, new.seen)? {
            return Ok(());
        }
        self.system.discard(&new.temp_file)?;
        let Some(parts) = write.file else {
            return Ok(());
        };
        let content = Content {
            parts,
            wanted: self.ownership.wanted(target.folder, new.seen),
            found: new.seen,
        };
        new_file.write_beside(&mut self.system, alloc, target, content, &mut self.unsynced)
    }
}
