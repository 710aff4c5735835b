//! Putting and removing a file. What a put makes of the names is stated by what each call of the
//! system makes of them, whatever was there.
ghost use Rattle.std.specs.Prelude.{◌≡◌, ◌⊎◌, is_ok, IfOk, IfSome, IsErr, IsTrue, None};
ghost use Rattle.reuse_system.specs.declared.place.Identity.{Identity};
ghost use Rattle.reuse_system.specs.Folders.{folder_at};
ghost use Rattle.reuse_system.specs.Ignored.{is_ignored};
ghost use Rattle.reuse_change.specs.Layout.{journal_folder};
ghost use Rattle.reuse_disk.specs.KeptPaths.{KeepsPaths};
ghost use Rattle.reuse_folder.specs.Disk.{disk_of, IsSameTree, IsSameTreeBut};
ghost use Rattle.reuse_folder.specs.NewFileFolder.{IsJournal};

use super::RootFolder;
use super::seen::{Expected, expected_at};
use reuse_change::layout::JOURNAL;
use reuse_change::{PathText, Pieces};
use reuse_disk::{Content, DiskSystem, NewFile, Target, list_below, remove_folders, remove_seen};
use reuse_system::fault::{FolderFault, IoReason};
use reuse_system::new_name::new_names;
use reuse_system::place::{FileStatus, Place, folder_and_name};
use std::alloc::Global;

impl<S: DiskSystem + Drop> RootFolder<S> {
    ghost use Rattle.reuse_folder.specs.FolderWrites.{IsCleared, IsGone, IsPutBy, IsRemovedAt, IsRemovedIn};
    ghost use Rattle.reuse_folder.specs.FolderWrites.{IsPutTidily, IsStoredAt};
    ghost use Rattle.reuse_disk.specs.Noted.{StayNoted};
    ghost use Rattle.reuse_disk.specs.Written.{is_kept, LeavesNone};
    ghost use Rattle.reuse_folder.specs.Barriers.{HasNoted, IsNotedAbove};
    ghost use Rattle.reuse_folder.specs.OwnerChanges.{is_due, MayReplace};
    ghost use Rattle.reuse_system.specs.declared.syncs.Syncs.TheVariants.{Kept};
    ghost use Rattle.reuse_folder.specs.Seen.{IsSeenAs, IsSeenBefore, LosesNoEdit, LosesNoEditAfter};
    ghost use Rattle.reuse_change.specs.Parts.{joined};

    /// What is expected at the path, by the reads since the last write, which are forgotten.
    fn take_expected(&mut self, path: &PathText) -> Expected
        ensures kept { self.new.system ≡ self.old.system }
        ensures open_folders { self.new.open_folders ≡ self.old.open_folders }
        ensures unsynced { self.new.unsynced ≡ self.old.unsynced }
        ensures ownership { self.new.ownership ≡ self.old.ownership }
        ensures expected { IsSeenBefore self.old.reads.items path.now result }
    {
        let expected = expected_at(&self.reads, path);
        self.reads.clear();
        expected
    }

    /// Makes the parts joined the file at the path, as a whole or not at all, and folders as
    /// needed.
    pub fn put(&mut self, alloc: Global, path: &PathText, parts: Pieces) -> Result<(), FolderFault>
        ensures written { (new_files : Identity)
            × IsPutBy new_files path.now (joined parts.entry) (is_kept self.old.unsynced.syncs)
            (S.holds self.old.system) (S.holds self.new.system) (is_ok result) }
        ensures place { S.honest self.new.system
            → IsPutTidily (S.folders self.new.system) path.now (joined parts.entry) (is_kept self.old.unsynced.syncs)
            (S.holds self.old.system) (S.holds self.new.system) (is_ok result) }
        // Each other path leads to the file that it led to.
        ensures others { S.honest self.new.system
            → IsSameTreeBut path.now (disk_of S.System self.old.system) (disk_of S.System self.new.system) }
        ensures stands { S.honest self.new.system
            → IfOk result (λ _. IsStoredAt (S.folders self.new.system) (S.holds self.new.system) path.now
            (joined parts.entry) (is_kept self.old.unsynced.syncs)) }
        // The folder above the path is noted for the next barrier, if that got or lost a file.
        ensures noted { self.old.unsynced.syncs ≡ Kept
            → HasNoted self.new.unsynced path.now (S.changes self.old.system) (S.changes self.new.system) }
        ensures syncs { self.new.unsynced.syncs ≡ self.old.unsynced.syncs }
        ensures stay_noted { StayNoted self.old.unsynced self.new.unsynced }
        ensures earlier { S.honest self.new.system → S.honest self.old.system }
        ensures ignored { IsTrue (is_ignored path.now) → IsErr result }
        // The file at the path stays if it isn't what was read there.
        ensures keeps_edits { LosesNoEditAfter self.old.reads.items path.now (S.changes self.old.system)
            (S.changes self.new.system) (S.holds self.old.system) (S.holds self.new.system) }
        // A call that is held puts nothing.
        ensures held { IsTrue (is_due self.old.ownership.guard) → IsErr result }
    {
        let expected = self.take_expected(path);
        let found = self.make_room(alloc, path, expected)?;
        self.write(alloc, path, parts, found)
    }

    /// Makes room for a file at the path, and the folders above it as needed. Gives the file that
    /// is to stand there directly before it is written, if one is.
    pub(super) fn make_room(
        &mut self,
        alloc: Global,
        path: &PathText,
        expected: Expected,
    ) -> Result<Option<FileStatus>, FolderFault>
        ensures kept { S.holds self.new.system ≡ S.holds self.old.system }
        ensures changes { S.changes self.new.system ≡ S.changes self.old.system }
        ensures earlier { S.honest self.new.system → S.honest self.old.system }
        // Folders that are made or removed are empty.
        ensures paths { S.honest self.new.system
            → KeepsPaths (S.holds self.new.system) (S.folders self.old.system) (S.folders self.new.system) }
        ensures syncs { self.new.unsynced.syncs ≡ self.old.unsynced.syncs }
        ensures stay_noted { StayNoted self.old.unsynced self.new.unsynced }
        ensures ignored { IsTrue (is_ignored path.now) → IsErr result }
        ensures seen { IfOk result (IsSeenAs expected) }
        // A file that can't keep its owner stays, unless that may change.
        ensures may { IfOk result (λ found. IfSome found (MayReplace self.old.ownership path.now)) }
        ensures held { IsTrue (is_due self.old.ownership.guard) → IsErr result }
    {
        let (folder, _) = folder_and_name(path.text());
        self.ownership.check_guard()?;
        match self.look_unless_seen(alloc, path, expected.read_file())? {
            Place::Nothing => {
                expected.nothing()?;
                self.open_folders
                    .make(&mut self.system, alloc, folder, &mut self.unsynced)?;
                Ok(None)
            }
            Place::File(status) => {
                let seen = expected.file(status)?;
                self.ownership.check(path.text(), seen)?;
                Ok(Some(seen))
            }
            Place::BelowFile => Err(FolderFault::Clash),
            Place::Folder => {
                expected.nothing()?;
                self.clear_folder(alloc, path)?;
                Ok(None)
            }
            Place::Other => Err(FolderFault::Device(IoReason::Foreign)),
        }
    }

    /// Writes the parts to the path, where this file was found, or none.
    fn write(
        &mut self,
        alloc: Global,
        path: &PathText,
        parts: Pieces,
        found: Option<FileStatus>,
    ) -> Result<(), FolderFault>
        ensures written { (new_files : Identity)
            × IsPutBy new_files path.now (joined parts.entry) (is_kept self.old.unsynced.syncs)
            (S.holds self.old.system) (S.holds self.new.system) (is_ok result) }
        // The folder above the path is noted for the next barrier, if that got or lost a file.
        ensures noted { self.old.unsynced.syncs ≡ Kept
            → HasNoted self.new.unsynced path.now (S.changes self.old.system) (S.changes self.new.system) }
        ensures syncs { self.new.unsynced.syncs ≡ self.old.unsynced.syncs }
        ensures stay_noted { StayNoted self.old.unsynced self.new.unsynced }
        ensures place { S.honest self.new.system
            → IsPutTidily (S.folders self.new.system) path.now (joined parts.entry) (is_kept self.old.unsynced.syncs)
            (S.holds self.old.system) (S.holds self.new.system) (is_ok result) }
        // Each other path leads to the file that it led to.
        ensures others { S.honest self.new.system
            → IsSameTreeBut path.now (disk_of S.System self.old.system) (disk_of S.System self.new.system) }
        ensures earlier { S.honest self.new.system → S.honest self.old.system }
        ensures keeps_edits { (expected : Expected) → IsSeenAs expected found
            → LosesNoEdit path.now expected (S.changes self.old.system) (S.changes self.new.system)
            (S.holds self.old.system) (S.holds self.new.system) }
    {
        let (folder, name) = folder_and_name(path.text());
        self.unsynced.note(alloc, folder)?;
        let mut new_file = self.take_new_file(alloc)?;
        self.open_folders
            .enter_seen(&mut self.system, alloc, folder)?;
        let target = Target {
            folder: self.open_folders.current()?,
            name,
            path: path.text(),
        };
        let content = Content {
            parts,
            wanted: self.ownership.wanted(target.folder, found),
            found,
        };
        let written = new_file.write(&mut self.system, alloc, target, content, &mut self.unsynced);
        self.note_written(path, found, new_file, written.is_ok());
        written
    }

    /// The path, where this file was found, or none, was to be written by way of this place of new
    /// files. If that failed, the place is opened anew before the next one.
    fn note_written(
        &mut self,
        path: &PathText,
        found: Option<FileStatus>,
        new_file: NewFile,
        is_done: bool,
    )
        requires { S.honest self.old.system
            → IsJournal (folder_at (S.folders self.old.system) journal_folder) new_file.folder.identity }
        ensures system { self.new.system ≡ self.old.system }
        ensures unsynced { self.new.unsynced ≡ self.old.unsynced }
    {
        if is_done {
            self.ownership
                .note_written(path.text(), found, new_file.kept());
            self.new_file = Some(new_file);
        }
    }

    /// The place of new files, opened as needed.
    pub(super) fn take_new_file(&mut self, alloc: Global) -> Result<NewFile, FolderFault>
        ensures cleared { IsCleared (S.changes self.old.system) (S.changes self.new.system) self.old.new_file
            (S.holds self.old.system) (S.holds self.new.system) result }
        // Each path leads to the file that it led to.
        ensures tree { S.honest self.new.system
            → IsSameTree (disk_of S.System self.old.system) (disk_of S.System self.new.system) }
        ensures home { S.honest self.new.system
            → IfOk result (λ new_file. IsJournal (folder_at (S.folders self.new.system) journal_folder)
            new_file.folder.identity) }
        ensures earlier { S.honest self.new.system → S.honest self.old.system }
        ensures syncs { self.new.unsynced.syncs ≡ self.old.unsynced.syncs }
        ensures stay_noted { StayNoted self.old.unsynced self.new.unsynced }
    {
        match self.new_file.take() {
            Some(new_file) => Ok(new_file),
            None => self.open_new_file(alloc),
        }
    }

    /// Opens the journal's folder for new files; it is made as needed.
    fn open_new_file(&mut self, alloc: Global) -> Result<NewFile, FolderFault>
        ensures cleared { IsCleared (S.changes self.old.system) (S.changes self.new.system) None
            (S.holds self.old.system) (S.holds self.new.system) result }
        // Each path leads to the file that it led to.
        ensures tree { S.honest self.new.system
            → IsSameTree (disk_of S.System self.old.system) (disk_of S.System self.new.system) }
        ensures home { S.honest self.new.system
            → IfOk result (λ new_file. IsJournal (folder_at (S.folders self.new.system) journal_folder)
            new_file.folder.identity) }
        ensures earlier { S.honest self.new.system → S.honest self.old.system }
        ensures syncs { self.new.unsynced.syncs ≡ self.old.unsynced.syncs }
        ensures stay_noted { StayNoted self.old.unsynced self.new.unsynced }
    {
        self.open_folders
            .make(&mut self.system, alloc, JOURNAL, &mut self.unsynced)?;
        // It is open, so this asks the system for nothing.
        self.open_folders
            .enter_seen(&mut self.system, alloc, JOURNAL)?;
        let folder = self.open_folders.current()?.try_clone(alloc)?;
        let names = new_names(self.system.rt(), alloc, &folder)?;
        let new_file = NewFile::in_folder(alloc, folder);
        // The handle was cloned, and so leads to the same folder.
        if !new_file.is_in(self.open_folders.current()?) {
            return Err(FolderFault::Device(IoReason::Changing));
        }
        new_file.clear(&mut self.system, &names)?;
        Ok(new_file)
    }

    /// Removes a folder without files, so that a file can take its place; with files it is a clash.
    fn clear_folder(&mut self, alloc: Global, path: &PathText) -> Result<(), FolderFault>
        ensures kept { S.holds self.new.system ≡ S.holds self.old.system }
        ensures changes { S.changes self.new.system ≡ S.changes self.old.system }
        ensures earlier { S.honest self.new.system → S.honest self.old.system }
        ensures paths { S.honest self.new.system
            → KeepsPaths (S.holds self.new.system) (S.folders self.old.system) (S.folders self.new.system) }
        ensures syncs { self.new.unsynced.syncs ≡ self.old.unsynced.syncs }
        ensures stay_noted { StayNoted self.old.unsynced self.new.unsynced }
        // The folder above the path is noted for the next barrier, if a folder is removed.
        ensures noted { self.old.unsynced.syncs ≡ Kept
            → (S.folders self.new.system ≡ S.folders self.old.system) ⊎ IsNotedAbove self.new.unsynced path.now }
    {
        let (system, open_folders) = (&mut self.system, &mut self.open_folders);
        let files = list_below(system, alloc, open_folders, path.text(), &mut self.listed)?;
        if !files.is_empty() {
            return Err(FolderFault::Clash);
        }
        let (folder, _) = folder_and_name(path.text());
        self.unsynced.note(alloc, folder)?;
        remove_folders(system, alloc, open_folders, path.text())
    }

    /// Removes the regular file at the path, if there is one, and no folder.
    pub fn remove(&mut self, alloc: Global, path: &PathText) -> Result<(), FolderFault>
        ensures removed { IsRemovedAt path.now (S.holds self.old.system) (S.holds self.new.system) }
        ensures still { S.folders self.new.system ≡ S.folders self.old.system }
        ensures place { S.honest self.new.system
            → IsRemovedIn (S.folders self.new.system) path.now (S.holds self.old.system) (S.holds self.new.system) }
        // Each other path leads to the file that it led to.
        ensures others { S.honest self.new.system
            → IsSameTreeBut path.now (disk_of S.System self.old.system) (disk_of S.System self.new.system) }
        ensures gone { S.honest self.new.system
            → IfOk result (λ _. IsGone (S.folders self.new.system) (S.holds self.new.system) path.now) }
        // The folder above the path is noted for the next barrier, if that got or lost a file.
        ensures noted { self.old.unsynced.syncs ≡ Kept
            → HasNoted self.new.unsynced path.now (S.changes self.old.system) (S.changes self.new.system) }
        ensures syncs { self.new.unsynced.syncs ≡ self.old.unsynced.syncs }
        ensures stay_noted { StayNoted self.old.unsynced self.new.unsynced }
        // The file at the path stays if it isn't what was read there.
        ensures keeps_edits { LosesNoEditAfter self.old.reads.items path.now (S.changes self.old.system)
            (S.changes self.new.system) (S.holds self.old.system) (S.holds self.new.system) }
    {
        let expected = self.take_expected(path);
        self.remove_expected(alloc, path, expected)
    }

    /// Does so if what is expected stands at the path.
    pub(super) fn remove_expected(
        &mut self,
        alloc: Global,
        path: &PathText,
        expected: Expected,
    ) -> Result<(), FolderFault>
        ensures removed { IsRemovedAt path.now (S.holds self.old.system) (S.holds self.new.system) }
        ensures still { S.folders self.new.system ≡ S.folders self.old.system }
        ensures place { S.honest self.new.system
            → IsRemovedIn (S.folders self.new.system) path.now (S.holds self.old.system) (S.holds self.new.system) }
        // Each other path leads to the file that it led to.
        ensures others { S.honest self.new.system
            → IsSameTreeBut path.now (disk_of S.System self.old.system) (disk_of S.System self.new.system) }
        ensures gone { S.honest self.new.system
            → IfOk result (λ _. IsGone (S.folders self.new.system) (S.holds self.new.system) path.now) }
        ensures none_left { IfOk result (λ _. LeavesNone (λ _. Unit {0}) (S.holds self.old.system)
            (S.holds self.new.system)) }
        ensures earlier { S.honest self.new.system → S.honest self.old.system }
        ensures syncs { self.new.unsynced.syncs ≡ self.old.unsynced.syncs }
        ensures stay_noted { StayNoted self.old.unsynced self.new.unsynced }
        // The folder above the path is noted for the next barrier, if that got or lost a file.
        ensures noted { self.old.unsynced.syncs ≡ Kept
            → HasNoted self.new.unsynced path.now (S.changes self.old.system) (S.changes self.new.system) }
        ensures new_file { self.new.new_file ≡ self.old.new_file }
        ensures keeps_edits { LosesNoEdit path.now expected (S.changes self.old.system) (S.changes self.new.system)
            (S.holds self.old.system) (S.holds self.new.system) }
    {
        match self.look_unless_seen(alloc, path, expected.read_file())? {
            Place::File(status) => {
                let seen = expected.file(status)?;
                let (folder, name) = folder_and_name(path.text());
                self.unsynced.note(alloc, folder)?;
                let target = Target {
                    folder: self.open_folders.current()?,
                    name,
                    path: path.text(),
                };
                remove_seen(&mut self.system, target, seen)
            }
            _ => expected.nothing(),
        }
    }
}
