//! Making durable what was written, so that it outlives a loss of power. The data of a new file is
//! synced before the file is given its name. Which folders got or lost a name is noted, and a
//! barrier syncs each of them once. The system reports a fault of a sync once, and may then drop
//! what it could not write: so a store whose sync has failed believes no later one.
ghost use Rattle.std.specs.Prelude.{◌≡◌, ◌⊎◌, ℕ, List, [], IfErr, IfOk, IfSome, IsOk, MatchResult, None, OnErr, OnOk};
ghost use Rattle.std.specs.Prelude.{Some, true, false, length, string_bytes};
ghost use Rattle.std.specs.BTreeSet.{contains_text, IsEmpty};
ghost use Rattle.std.specs.Option.{unwrap_or};
ghost use Rattle.reuse_system.specs.SystemLaws.{IsAlikeButFile};
ghost use Rattle.reuse_system.specs.TempFiles.{key_of};
ghost use Rattle.reuse_disk.specs.Noted.{IsListed, IsNoted, StayNoted};
ghost use Rattle.reuse_disk.specs.OpenFolders.{AreOpenedIf};
ghost use Rattle.reuse_disk.specs.ReadsOnly.{EntersOnly};
ghost use Rattle.reuse_disk.specs.Synced.{AreAbove, AreSynced, HaveFolders, IsSyncedAt};
ghost use Rattle.reuse_disk.specs.Written.{IsSyncedIf, is_kept};
ghost use Rattle.reuse_system.specs.declared.fault.FolderFault.TheVariants.{Device};
ghost use Rattle.reuse_system.specs.declared.fault.IoReason.{IoReason};
ghost use Rattle.reuse_system.specs.declared.fault.IoReason.TheVariants.{System};

use crate::open_folders::OpenFolders;
use reuse_change::Change;
use reuse_change::layout::JOURNAL;
use reuse_system::fault::{FolderFault, IoReason};
use reuse_system::place::folder_and_name;
use reuse_system::syncs::Syncs;
use reuse_system::system::{System, TempFile};
use std::alloc::{AllocError, Global};
use std::collections::BTreeSet;
use std::io;

/// What the next barrier has to make durable.
#[derive(Drop)]
pub struct Unsynced {
    syncs: Syncs,
    /// The folders that got or lost a name since the last barrier; the root is empty.
    folders: BTreeSet<String>,
    /// Whether a barrier has made the journal's names durable. Those that came or went since then
    /// are in a folder that is noted. Names of new files there, which are renamed away, are of no
    /// account.
    is_journal_durable: bool,
    /// Why the first sync that failed did so.
    failed: Option<IoReason>,
    /// The folder that was synced last, or the file whose sync failed.
    last: String,
}

/// Adds a path to these.
pub fn add(alloc: Global, paths: &mut BTreeSet<String>, path: &str) -> Result<(), AllocError>
    ensures added { IfOk result (λ _. contains_text paths.new path.now ≡ true) }
    ensures kept { (other : List ℕ) → contains_text paths.old other ≡ true → contains_text paths.new other ≡ true }
{
    if !paths.contains(path) {
        paths.insert(String::from_str(alloc, path)?)?;
    }
    Ok(())
}

impl Unsynced {
    /// Nothing so far.
    pub fn new(alloc: Global, syncs: Syncs) -> Unsynced
        ensures syncs { result.syncs ≡ syncs }
        ensures folders { IsEmpty result.folders }
        ensures journal { result.is_journal_durable ≡ false }
        ensures failed { result.failed ≡ None }
    {
        Unsynced {
            syncs,
            folders: BTreeSet::new(alloc),
            is_journal_durable: false,
            failed: None,
            last: String::new(alloc),
        }
    }

    /// The folder that was synced last, or the file whose sync failed; empty for the root.
    pub fn last(&self) -> &str
        ensures { result.now ≡ string_bytes self.now.last }
    {
        self.last.as_str()
    }

    /// This folder, which is empty for the root, is to get or lose a name.
    pub fn note(&mut self, alloc: Global, folder: &str) -> Result<(), AllocError>
        ensures noted { self.old.syncs ≡ Syncs.Kept → IfOk result (λ _. IsListed self.new folder.now) }
        ensures listed { (other : List ℕ) → IsListed self.old other → IsListed self.new other }
        ensures kept { StayNoted self.old self.new }
        ensures left_out { self.old.syncs ≡ Syncs.LeftOut → self.new ≡ self.old }
        ensures syncs { self.new.syncs ≡ self.old.syncs }
        ensures failed { self.new.failed ≡ self.old.failed }
    {
        match self.syncs {
            Syncs::Kept => add(alloc, &mut self.folders, folder),
            Syncs::LeftOut => Ok(()),
        }
    }

    /// A sync failed for this. The first one stays known.
    fn fail(&mut self, obstacle: IoReason)
        ensures syncs { self.new.syncs ≡ self.old.syncs }
        ensures noted { StayNoted self.old self.new }
        ensures failed { self.new.failed ≡ Some (unwrap_or self.old.failed obstacle) }
    {
        if self.failed.is_none() {
            self.failed = Some(obstacle);
        }
    }

    /// Makes the data of a file durable that is to get this path.
    pub fn sync_data<S: System>(
        &mut self,
        system: &mut S,
        temp_file: &TempFile,
        path: &str,
    ) -> io::Result<()>
        ensures syncs { self.new.syncs ≡ self.old.syncs }
        ensures noted { StayNoted self.old self.new }
        ensures ok { OnOk result (self.new.failed ≡ self.old.failed) }
        ensures failed { IfErr result (λ error. self.new.failed ≡ Some (unwrap_or self.old.failed (System error))) }
        ensures synced { MatchResult result
            (λ _. IsSyncedIf (is_kept self.old.syncs) (key_of temp_file.now) (S.holds system.old) (S.holds system.new))
            (λ _. IsAlikeButFile (key_of temp_file.now) (S.holds system.old) (S.holds system.new)) }
        ensures still { S.folders system.new ≡ S.folders system.old }
        ensures earlier { S.honest system.new → S.honest system.old }
        ensures changes { S.changes system.new ≡ S.changes system.old }
    {
        if self.syncs == Syncs::LeftOut {
            return Ok(());
        }
        match system.sync_data(temp_file) {
            Ok(()) => Ok(()),
            Err(error) => {
                self.set_last(path);
                self.fail(IoReason::System(error));
                Err(error)
            }
        }
    }

    /// For an allocation failure the path is left out.
    fn set_last(&mut self, path: &str)
        ensures syncs { self.new.syncs ≡ self.old.syncs }
        ensures noted { StayNoted self.old self.new }
        ensures failed { self.new.failed ≡ self.old.failed }
        ensures last { (string_bytes self.new.last ≡ path.now) ⊎ (string_bytes self.new.last ≡ []) }
    {
        self.last.clear();
        let _ = self.last.push_str(path);
    }

    /// A barrier: makes durable the names in the journal's folder, in the folders above the paths
    /// of the changes, and in all folders that are noted.
    pub fn sync<S: System>(
        &mut self,
        system: &mut S,
        alloc: Global,
        open_folders: &mut OpenFolders,
        changes: &[Change],
    ) -> Result<(), FolderFault>
        ensures left_out { self.old.syncs ≡ Syncs.LeftOut → IsOk result }
        ensures no_sync { self.old.syncs ≡ Syncs.LeftOut → S.synced system.new ≡ S.synced system.old }
        ensures durable { self.old.syncs ≡ Syncs.Kept → OnOk result (IsEmpty self.new.folders) }
        // Once one has failed, no later one is believed.
        ensures failed { self.old.syncs ≡ Syncs.Kept
            → IfSome self.old.failed (λ obstacle. result ≡ Err (Device obstacle)) }
        ensures fails { (obstacle : IoReason) → result ≡ Err (Device obstacle) → self.new.failed ≡ Some obstacle }
        ensures enters { EntersOnly S.System system.old system.new open_folders.old open_folders.new }
        // Each folder that is noted, and there, was synced since.
        ensures synced { self.old.syncs ≡ Syncs.Kept
            → AreOpenedIf (S.honest system.old) (S.folders system.old) open_folders.old → S.honest system.new
            → IfOk result (λ _. AreSynced (IsNoted self.old) (S.folders system.new) (S.holds system.new)
            (S.synced system.old) (S.synced system.new)) }
        // So was the folder above the path of each change.
        ensures above { self.old.syncs ≡ Syncs.Kept
            → AreOpenedIf (S.honest system.old) (S.folders system.old) open_folders.old → S.honest system.new
            → IfOk result (λ _. AreAbove (IsSyncedAt (S.folders system.new) (S.holds system.new)
            (S.synced system.old) (S.synced system.new)) changes.now (length changes.now)) }
        ensures syncs { self.new.syncs ≡ self.old.syncs }
        // What a barrier that fails was to sync is left to the next one.
        ensures kept { OnErr result (StayNoted self.old self.new) }
    {
        if self.syncs == Syncs::LeftOut {
            return Ok(());
        }
        if let Some(obstacle) = self.failed {
            return Err(FolderFault::Device(obstacle));
        }
        self.note_changes(alloc, changes)?;
        let synced = self.sync_all(system, alloc, open_folders);
        match synced {
            Ok(()) => {
                self.folders.clear();
                self.is_journal_durable = true;
            }
            Err(FolderFault::Device(obstacle)) => self.fail(obstacle),
            Err(FolderFault::Clash | FolderFault::Memory) => {}
        }
        synced
    }

    fn sync_all<S: System>(
        &mut self,
        system: &mut S,
        alloc: Global,
        open_folders: &mut OpenFolders,
    ) -> Result<(), FolderFault>
        ensures failed { self.new.failed ≡ self.old.failed }
        ensures syncs { self.new.syncs ≡ self.old.syncs }
        ensures kept { StayNoted self.old self.new }
        ensures enters { EntersOnly S.System system.old system.new open_folders.old open_folders.new }
        // Each folder that is listed, and there, was synced since.
        ensures synced { AreOpenedIf (S.honest system.old) (S.folders system.old) open_folders.old
            → S.honest system.new
            → IfOk result (λ _. AreSynced (IsListed self.old) (S.folders system.new) (S.holds system.new)
            (S.synced system.old) (S.synced system.new)) }
    {
        let there = self.folders_there(system, alloc, open_folders)?;
        for folder in &there {
            self.set_last(folder.as_str());
            open_folders.enter_seen(system, alloc, folder.as_str())?;
            system.sync_folder(open_folders.current()?)?;
        }
        Ok(())
    }

    /// Notes the journal's folder, if it isn't known to be durable.
    fn note_journal(&mut self, alloc: Global) -> Result<(), AllocError>
        ensures failed { self.new.failed ≡ self.old.failed }
        ensures syncs { self.new.syncs ≡ self.old.syncs }
        ensures kept { StayNoted self.old self.new }
        // What was noted is listed now.
        ensures listed { self.old.syncs ≡ Syncs.Kept
            → IfOk result (λ _. (folder : List ℕ) → IsNoted self.old folder → IsListed self.new folder) }
    {
        if self.is_journal_durable {
            return Ok(());
        }
        self.note(alloc, JOURNAL)
    }

    /// Notes the journal's folder, if it isn't known to be durable, and the folders above the paths
    /// of the changes.
    fn note_changes(&mut self, alloc: Global, changes: &[Change]) -> Result<(), AllocError>
        ensures failed { self.new.failed ≡ self.old.failed }
        ensures syncs { self.new.syncs ≡ self.old.syncs }
        ensures kept { StayNoted self.old self.new }
        // What was noted is listed now, and so is the folder above the path of each change.
        ensures listed { self.old.syncs ≡ Syncs.Kept
            → IfOk result (λ _. (folder : List ℕ) → IsNoted self.old folder → IsListed self.new folder) }
        ensures above { self.old.syncs ≡ Syncs.Kept → IfOk result
            (λ _. AreAbove (IsListed self.new) changes.now (length changes.now)) }
    {
        self.note_journal(alloc)?;
        for change in changes {
            self.note(alloc, folder_and_name(change.path().text()).0)?;
        }
        Ok(())
    }

    /// The folders that are listed, each once. In place of one that isn't there stands the nearest
    /// one above it that is.
    fn folders_there<S: System>(
        &self,
        system: &mut S,
        alloc: Global,
        open_folders: &mut OpenFolders,
    ) -> Result<BTreeSet<String>, FolderFault>
        ensures enters { EntersOnly S.System system.old system.new open_folders.old open_folders.new }
        ensures no_sync { S.synced system.new ≡ S.synced system.old }
        ensures there { AreOpenedIf (S.honest system.old) (S.folders system.old) open_folders.old
            → S.honest system.new
            → IfOk result (λ there. HaveFolders (IsListed self.now) (λ path. contains_text there path ≡ true)
            (S.folders system.new) (S.holds system.new)) }
    {
        let mut there = BTreeSet::new(alloc);
        for folder in &self.folders {
            open_folders.enter(system, alloc, folder.as_str())?;
            add(alloc, &mut there, open_folders.path())?;
        }
        Ok(there)
    }
}
