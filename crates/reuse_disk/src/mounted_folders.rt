//! Folders on another device than the journal's, as below a mount. No file is renamed to there from
//! the journal's folder: a new one is written beside the file that it is to be, and a run that is
//! stopped may leave it. Tested by `odd_folders.sh` in `tests/`.
ghost use Rattle.std.specs.Prelude.{◌≡◌, ◌≢◌, ℕ, List, IfOk, IsTrue, None, Some, true};
ghost use Rattle.std.specs.BTreeSet.{contains_text, IsEmpty};
ghost use Rattle.reuse_change.specs.Layout.{journal_folder};
ghost use Rattle.reuse_system.specs.TempFiles.{is_elsewhere};
ghost use Rattle.reuse_disk.specs.LeftFiles.{ClearsLeft, IsClearedAt, IsJournalIf};
ghost use Rattle.reuse_disk.specs.OpenFolders.{AreOpenedIf, current_of, path_of};
ghost use Rattle.reuse_disk.specs.ReadsOnly.{NotesOnly};

use crate::open_folders::OpenFolders;
use crate::syncs::{Unsynced, add};
use reuse_change::layout::JOURNAL;
use reuse_system::fault::FolderFault;
use reuse_system::new_name::beside_name;
use reuse_system::place::{Found, Identity};
use reuse_system::system::System;
use std::alloc::Global;
use std::collections::BTreeSet;

/// The folders of that kind which were entered.
#[derive(Drop)]
pub struct MountedFolders {
    /// The journal's folder, once it was entered.
    journal: Option<Identity>,
    /// The paths of those that were entered since, and not cleared.
    paths: BTreeSet<String>,
}

impl MountedFolders {
    /// None so far.
    pub fn none(alloc: Global) -> MountedFolders
        ensures journal { result.journal ≡ None }
        ensures paths { IsEmpty result.paths }
    {
        MountedFolders {
            journal: None,
            paths: BTreeSet::new(alloc),
        }
    }

    /// Notes the folder that was entered last, if it is of that kind. For an allocation failure it
    /// is left out.
    pub fn note(&mut self, alloc: Global, open_folders: &OpenFolders)
        ensures same_journal { path_of open_folders.now ≢ journal_folder → self.new.journal ≡ self.old.journal }
        ensures kept { (other : List ℕ) → contains_text self.old.paths other ≡ true
            → contains_text self.new.paths other ≡ true }
    {
        let _ = self.try_note(alloc, open_folders);
    }

    fn try_note(&mut self, alloc: Global, open_folders: &OpenFolders) -> Result<(), FolderFault>
        ensures journal { path_of open_folders.now ≡ journal_folder
            → IfOk result (λ _. self.new.journal ≡ current_of open_folders.now) }
        ensures same_journal { path_of open_folders.now ≢ journal_folder → self.new.journal ≡ self.old.journal }
        // A folder on another device than the journal's is noted.
        ensures noted { (journal folder : Identity) → self.new.journal ≡ Some journal
            → current_of open_folders.now ≡ Some folder → IsTrue (is_elsewhere journal folder)
            → IfOk result (λ _. contains_text self.new.paths (path_of open_folders.now) ≡ true) }
        ensures kept { (other : List ℕ) → contains_text self.old.paths other ≡ true
            → contains_text self.new.paths other ≡ true }
    {
        let folder = open_folders.current()?.identity();
        let path = open_folders.path();
        if path == JOURNAL {
            self.journal = Some(folder);
        }
        let is_mounted = match self.journal {
            Some(journal) => journal.is_elsewhere(folder),
            None => false,
        };
        if is_mounted {
            add(alloc, &mut self.paths, path)?;
        }
        Ok(())
    }

    /// Removes the new files that a stopped run has left in these folders. A fault of that reports
    /// no more: such a file is no part of the tree, and the next new file there takes its place.
    pub fn clear<S: System>(
        &mut self,
        system: &mut S,
        alloc: Global,
        open_folders: &mut OpenFolders,
        unsynced: &mut Unsynced,
    )
        ensures cleared { AreOpenedIf (S.honest system.old) (S.folders system.old) open_folders.old
            → ClearsLeft (S.honest system.new) (S.folders system.new) (S.changes system.old) (S.changes system.new)
            (S.holds system.old) (S.holds system.new) }
        ensures notes { NotesOnly S.System system.old system.new open_folders.old open_folders.new unsynced.old
            unsynced.new }
    {
        if !self.paths.is_empty() {
            let _ = self.clear_each(system, alloc, open_folders, unsynced);
            self.paths.clear();
        }
    }

    fn clear_each<S: System>(
        &self,
        system: &mut S,
        alloc: Global,
        open_folders: &mut OpenFolders,
        unsynced: &mut Unsynced,
    ) -> Result<(), FolderFault>
        ensures cleared { AreOpenedIf (S.honest system.old) (S.folders system.old) open_folders.old
            → ClearsLeft (S.honest system.new) (S.folders system.new) (S.changes system.old) (S.changes system.new)
            (S.holds system.old) (S.holds system.new) }
        ensures notes { NotesOnly S.System system.old system.new open_folders.old open_folders.new unsynced.old
            unsynced.new }
    {
        open_folders.enter_seen(system, alloc, JOURNAL)?;
        let journal = open_folders.current()?.identity();
        for path in &self.paths {
            let _ = clear_folder(
                system,
                alloc,
                open_folders,
                unsynced,
                path.as_str(),
                journal,
            );
        }
        Ok(())
    }
}

/// Removes the new file that a stopped run has left in the folder at this path, if it lies on
/// another device than the journal's. What has its name and is no regular file stays.
fn clear_folder<S: System>(
    system: &mut S,
    alloc: Global,
    open_folders: &mut OpenFolders,
    unsynced: &mut Unsynced,
    path: &str,
    journal: Identity,
) -> Result<(), FolderFault>
    ensures cleared { AreOpenedIf (S.honest system.old) (S.folders system.old) open_folders.old
        → IsJournalIf (S.honest system.old) (S.folders system.old) journal
        → ClearsLeft (S.honest system.new) (S.folders system.new) (S.changes system.old) (S.changes system.new)
        (S.holds system.old) (S.holds system.new) }
    ensures gone { AreOpenedIf (S.honest system.old) (S.folders system.old) open_folders.old
        → S.honest system.new
        → IfOk result (λ _. IsClearedAt (S.folders system.new) (S.holds system.new) journal path.now) }
    ensures notes { NotesOnly S.System system.old system.new open_folders.old open_folders.new unsynced.old
        unsynced.new }
{
    open_folders.enter_seen(system, alloc, path)?;
    let folder = open_folders.current()?;
    if !journal.is_elsewhere(folder.identity()) {
        return Ok(());
    }
    let name = beside_name(alloc, journal)?;
    match system.look(folder, name.as_str())? {
        Found::File(_) => {
            unsynced.note(alloc, path)?;
            Ok(system.remove(folder, name.as_str())?)
        }
        _ => Ok(()),
    }
}
