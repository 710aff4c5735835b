//! A folder of the file system: its regular files by their paths.
ghost use Rattle.std.specs.Prelude.{◌≡◌, ◌↔◌, All, false, length, IfOk, IsTrue, None, OnErr, Some, true};
ghost use Rattle.std.specs.List.Sorted.{IsSorted};
ghost use Rattle.std.specs.Ordering.{nat_cmp};
ghost use Rattle.std.specs.Cmp.Lexicographic.{slice_cmp};
ghost use Rattle.std.proofs.Props.{props};
ghost use Rattle.reuse_change.specs.Layout.{journal_folder};
ghost use Rattle.reuse_system.specs.Ignored.{is_ignored};
ghost use Rattle.reuse_disk.specs.OpenFolders.{AreOpenedIf};
ghost use Rattle.reuse_folder.specs.NewFileFolder.{IsOpenForIf};

mod batch;
mod naming;
mod reading;
mod seen;
mod writing;

use crate::journal_owner::{JournalOwners, journal_owners};
use crate::ownership::OwnershipPolicy;
use crate::remembered::Remembered;
use crate::rolled_back::RolledBack;
pub use batch::Stop;
use reuse_change::{Change, PathText, Pruning};
use reuse_disk::{DiskSystem, Listing, MountedFolders, NewFile, OpenFolders, Unsynced};
use reuse_system::fault::FolderFault;
use reuse_system::ignored::is_ignored;
use reuse_system::place::{FileStatus, Found, Place, folder_and_name};
use reuse_system::syncs::Syncs;
use seen::ReadPath;
use std::alloc::Global;
use std::rt::Env;
use std::time::Duration;

/// The folder that a tree of files lies in. Nothing outside of it is read or written: no link below
/// it is followed, and each call goes through the open handle of the folder that its path lies in.
#[derive(Drop)]
pub struct RootFolder<S: DiskSystem + Drop> {
    /// All calls that change regular files go through it.
    system: S,
    /// The folders that are open.
    open_folders: OpenFolders,
    /// The paths that were read since the last write, in order and up to a bound: a write expects
    /// there what was read.
    reads: Vec<ReadPath>,
    /// Short files that were read, so that they need no second reading.
    remembered: Remembered,
    /// The folders below mounts in which paths that were read lie.
    mounted: MountedFolders,
    /// The place of new files, where its folder was looked at since the last listing or fault.
    new_file: Option<NewFile>,
    /// The folder that the last listing looked at last.
    listed: String,
    /// The folders that listings found and passed over.
    passed_over: Vec<String>,
    unsynced: Unsynced,
    ownership: OwnershipPolicy,
    ghost opened: { AreOpenedIf (S.honest system) (S.folders system) open_folders } by { Prim.hlevel props },
    ghost home: { IsOpenForIf (S.honest system) (S.folders system) new_file } by { Prim.hlevel props },
}

impl<S: DiskSystem + Drop> RootFolder<S> {
    ghost use Rattle.reuse_folder.specs.FolderReads.{IsPlaceAt, LiesIn};
    ghost use Rattle.reuse_disk.specs.LeftFiles.{ClearsLeft};
    ghost use Rattle.reuse_disk.specs.Noted.{IsNoted, StayNoted};
    ghost use Rattle.reuse_disk.specs.ReadsOnly.{ReadsOnly};
    ghost use Rattle.reuse_disk.specs.Synced.{AreAbove, AreSynced, IsSyncedAt};
    ghost use Rattle.reuse_system.specs.declared.fault.FolderFault.TheVariants.{Device};
    ghost use Rattle.reuse_system.specs.declared.fault.IoReason.{IoReason};
    ghost use Rattle.reuse_system.specs.declared.syncs.Syncs.TheVariants.{Kept};
    ghost use Rattle.reuse_folder.specs.declared.ownership.PutGuard.TheVariants.{Held, Off, Watching};
    ghost use Rattle.reuse_disk.specs.OpenFolders.{current_of};
    ghost use Rattle.reuse_system.specs.FolderPlaces.{IsNoFile};
    /// The folder at this path, in which what is written is made durable or not.
    pub fn new(system: S, root: String, syncs: Syncs, ownership: OwnershipPolicy) -> RootFolder<S>
        ensures syncs { result.unsynced.syncs ≡ syncs }
        ensures noted { IsNoted result.unsynced journal_folder }
        ensures ownership { result.ownership ≡ ownership }
        ensures root { result.open_folders.root_path ≡ root }
    {
        let alloc = system.rt().alloc();
        let open_folders = OpenFolders::new(alloc, root, ownership.process());
        let listed = String::new(alloc);
        let unsynced = Unsynced::new(alloc, syncs);
        let reads = Vec::new(alloc);
        let remembered = Remembered::nothing(alloc);
        let mounted = MountedFolders::none(alloc);
        let passed_over = Vec::new(alloc);
        RootFolder {
            system,
            open_folders,
            reads,
            remembered,
            mounted,
            new_file: None,
            listed,
            passed_over,
            unsynced,
            ownership,
        }
    }

    /// How files keep their owners here.
    pub fn ownership(&self) -> &OwnershipPolicy
        ensures { result.now ≡ self.now.ownership }
    {
        &self.ownership
    }

    /// From now on a call is held before its first put if it reads a file that can't keep its
    /// owner.
    pub fn watch_writes(&mut self)
        ensures unsynced { self.new.unsynced ≡ self.old.unsynced }
        ensures watched { self.new.ownership ≡ record self.old.ownership { guard = Watching } }
    {
        self.ownership.watch();
    }

    /// No call is held any more; whether one was.
    pub fn release_writes(&mut self) -> bool
        ensures unsynced { self.new.unsynced ≡ self.old.unsynced }
        ensures held { IsTrue result ↔ (self.old.ownership.guard ≡ Held) }
        ensures off { self.new.ownership ≡ record self.old.ownership { guard = Off } }
    {
        self.ownership.release()
    }

    /// Short files that are read from now on are remembered, for a call that began at this time
    /// since 1970.
    pub fn remember_files(&mut self, since: Option<Duration>)
        ensures unsynced { self.new.unsynced ≡ self.old.unsynced }
    {
        self.remembered.begin(since);
    }

    /// Goes to where the system shows the handles of the process, so that paths are short, until
    /// `come_back`.
    pub fn go_to_handles(&mut self, env: &impl Env, alloc: Global)
        ensures unsynced { self.new.unsynced ≡ self.old.unsynced }
    {
        self.new_file = None;
        self.open_folders
            .go_to_handles(&mut self.system, env, alloc);
    }

    /// Comes back to the folder that the process was called in.
    pub fn come_back(&mut self, env: &impl Env, alloc: Global)
        ensures unsynced { self.new.unsynced ≡ self.old.unsynced }
    {
        self.new_file = None;
        self.open_folders.come_back(env, alloc);
    }

    /// The folder that the last listing looked at last, which is empty for the root: where one that
    /// fails has failed.
    pub fn listed(&self) -> &str {
        self.listed.as_str()
    }

    /// The folders that listings found and passed over.
    pub fn passed_over(&self) -> &[String] {
        &self.passed_over
    }

    /// The folder or the file that was synced last, which is empty for the root: where a sync that
    /// fails has failed.
    pub fn synced(&self) -> &str {
        self.unsynced.last()
    }

    /// Whether folders are searched for by their paths, since the system doesn't show open ones.
    pub fn is_by_path(&self) -> bool {
        self.open_folders.is_by_path()
    }

    /// Nothing, or a fault where the root isn't there any more.
    fn nothing(&self, alloc: Global) -> Result<Place, FolderFault>
        ensures { IfOk result (λ place. place ≡ Place.Nothing) }
    {
        self.open_folders.check_root(self.system.rt(), alloc)?;
        Ok(Place::Nothing)
    }

    /// What stands at the path. The folder that it lies in is entered, if it is there.
    fn look(&mut self, alloc: Global, path: &PathText) -> Result<Place, FolderFault>
        ensures reads { ReadsOnly S.System self.old.system self.new.system }
        ensures unsynced { self.new.unsynced ≡ self.old.unsynced }
        ensures remembered { self.new.remembered ≡ self.old.remembered }
        ensures same_reads { self.new.reads ≡ self.old.reads }
        ensures lies { S.honest self.new.system
            → IfOk result (LiesIn (S.folders self.new.system) path.now (current_of self.new.open_folders)) }
        ensures seen { S.honest self.new.system
            → IfOk result (IsPlaceAt (S.folders self.new.system) (S.holds self.new.system) path.now
            (current_of self.new.open_folders)) }
        ensures ignored { IsTrue (is_ignored path.now) → result ≡ Ok Place.Other }
    {
        self.look_unless_seen(alloc, path, None)
    }

    /// What stands at the path, where it isn't known to be the regular file that was seen.
    fn look_unless_seen(
        &mut self,
        alloc: Global,
        path: &PathText,
        seen: Option<FileStatus>,
    ) -> Result<Place, FolderFault>
        ensures reads { ReadsOnly S.System self.old.system self.new.system }
        ensures unsynced { self.new.unsynced ≡ self.old.unsynced }
        ensures new_file { self.new.new_file ≡ self.old.new_file }
        ensures ownership { self.new.ownership ≡ self.old.ownership }
        ensures remembered { self.new.remembered ≡ self.old.remembered }
        ensures same_reads { self.new.reads ≡ self.old.reads }
        ensures lies { S.honest self.new.system
            → IfOk result (LiesIn (S.folders self.new.system) path.now (current_of self.new.open_folders)) }
        // What was seen may be another file by now; what is no file is reported as it is.
        ensures apart { S.honest self.new.system
            → IfOk result (λ place. IsNoFile place → IsPlaceAt (S.folders self.new.system)
            (S.holds self.new.system) path.now (current_of self.new.open_folders) place) }
        ensures seen { S.honest self.new.system → seen ≡ None
            → IfOk result (IsPlaceAt (S.folders self.new.system) (S.holds self.new.system) path.now
            (current_of self.new.open_folders)) }
        ensures ignored { IsTrue (is_ignored path.now) → result ≡ Ok Place.Other }
    {
        if is_ignored(path.text()) {
            return Ok(Place::Other);
        }
        let (folder, name) = folder_and_name(path.text());
        match self.open_folders.enter(&mut self.system, alloc, folder)? {
            None => {}
            Some(Place::Nothing) => return self.nothing(alloc),
            Some(place) => return Ok(place),
        }
        if let Some(status) = seen {
            return Ok(Place::File(status));
        }
        match self.system.look(self.open_folders.current()?, name)? {
            Found::Nothing => self.nothing(alloc),
            found => Ok(found.into_place()),
        }
    }

    /// The regular files that are one of these folders or lie below one, or all where no folder is
    /// given, but for those below a folder that is pruned, in byte order. Only these folders are
    /// looked into.
    pub fn list<P: Pruning>(
        &mut self,
        alloc: Global,
        folders: &[PathText],
        pruning: &P,
    ) -> Result<Vec<PathText>, FolderFault>
        ensures sorted { IfOk result (λ paths. IsSorted (slice_cmp nat_cmp) paths.items) }
        ensures ignored { IfOk result (λ paths. All (λ path. is_ignored path ≡ false) paths.items) }
        ensures unsynced { self.new.unsynced ≡ self.old.unsynced }
    {
        let mut listing = Listing::new(alloc, pruning);
        if folders.is_empty() {
            self.open_folders.close();
            listing.take_folder(alloc, "")?;
        }
        for (index, place) in folders.iter().enumerate() {
            self.ownership.note_path(place.text());
            if !is_repeated(folders, index, place) {
                self.take_place(alloc, place, &mut listing)?;
            }
        }
        self.new_file = None;
        listing.walk(
            &mut self.system,
            alloc,
            &mut self.open_folders,
            &mut self.listed,
        )?;
        let (paths, mut passed) = listing.into_found();
        self.passed_over.append(&mut passed)?;
        Ok(paths)
    }

    /// Takes the file or the folder at this place into a listing.
    fn take_place<P: Pruning>(
        &mut self,
        alloc: Global,
        place: &PathText,
        listing: &mut Listing<P>,
    ) -> Result<(), FolderFault>
        ensures unsynced { self.new.unsynced ≡ self.old.unsynced }
    {
        let text = place.text();
        for (at, byte) in text.as_bytes().iter().enumerate() {
            if *byte == b'/' && listing.passes_over(&text[..at]) {
                return Ok(());
            }
        }
        self.listed.clear();
        self.listed.push_str(text)?;
        match self.look(alloc, place)? {
            Place::File(_) => listing.take_file(alloc, text),
            Place::Folder => listing.take_folder(alloc, text),
            Place::Nothing | Place::BelowFile | Place::Other => Ok(()),
        }
    }

    /// Whose the journal is.
    pub fn journal_owners(&mut self, alloc: Global) -> Result<JournalOwners, FolderFault>
        ensures unsynced { self.new.unsynced ≡ self.old.unsynced }
    {
        journal_owners(&mut self.system, alloc, &mut self.open_folders)
    }

    /// Whether the file at the path can be written anew: it keeps its owner, or needn't. What isn't
    /// there can.
    pub fn may_write(&mut self, alloc: Global, path: &PathText) -> Result<bool, FolderFault>
        ensures unsynced { self.new.unsynced ≡ self.old.unsynced }
    {
        match self.look(alloc, path)? {
            Place::File(status) => Ok(self.ownership.may_write(status)),
            _ => Ok(true),
        }
    }

    /// Removes the new files that a stopped run has left below mounts, in the folders in which
    /// paths that were read lie, unless the journal was written.
    fn clear_left(&mut self, alloc: Global, rolled_back: RolledBack)
        ensures clears { ClearsLeft (S.honest self.new.system) (S.folders self.new.system) (S.changes self.old.system)
            (S.changes self.new.system) (S.holds self.old.system) (S.holds self.new.system) }
        ensures over { rolled_back.is_over ≡ true → S.changes self.new.system ≡ S.changes self.old.system }
        ensures syncs { self.new.unsynced.syncs ≡ self.old.unsynced.syncs }
        ensures noted { StayNoted self.old.unsynced self.new.unsynced }
        ensures no_sync { S.synced self.new.system ≡ S.synced self.old.system }
    {
        if rolled_back.is_over() {
            return;
        }
        self.mounted.clear(
            &mut self.system,
            alloc,
            &mut self.open_folders,
            &mut self.unsynced,
        );
    }

    /// Makes durable what the files of the journal hold now, and what the paths of these changes
    /// hold, whoever wrote them, and all that was put and removed here. In a rollback, what a
    /// stopped run has left below mounts goes first.
    pub fn sync(
        &mut self,
        alloc: Global,
        changes: &[Change],
        rolled_back: RolledBack,
    ) -> Result<(), FolderFault>
        ensures clears { ClearsLeft (S.honest self.new.system) (S.folders self.new.system) (S.changes self.old.system)
            (S.changes self.new.system) (S.holds self.old.system) (S.holds self.new.system) }
        ensures over { rolled_back.is_over ≡ true → S.changes self.new.system ≡ S.changes self.old.system }
        // Each folder that is noted, and there, was synced since.
        ensures synced { self.old.unsynced.syncs ≡ Kept → S.honest self.new.system
            → IfOk result (λ _. AreSynced (IsNoted self.old.unsynced) (S.folders self.new.system)
            (S.holds self.new.system) (S.synced self.old.system) (S.synced self.new.system)) }
        // So was the folder above the path of each change.
        ensures above { self.old.unsynced.syncs ≡ Kept → S.honest self.new.system
            → IfOk result (λ _. AreAbove (IsSyncedAt (S.folders self.new.system) (S.holds self.new.system)
            (S.synced self.old.system) (S.synced self.new.system)) changes.now (length changes.now)) }
        ensures syncs { self.new.unsynced.syncs ≡ self.old.unsynced.syncs }
        // What a barrier that fails was to sync is left to the next one.
        ensures kept { OnErr result (StayNoted self.old.unsynced self.new.unsynced) }
        // Once a sync has failed, no barrier is believed.
        ensures failed { (obstacle : IoReason) → self.old.unsynced.syncs ≡ Kept
            → self.old.unsynced.failed ≡ Some obstacle → result ≡ Err (Device obstacle) }
    {
        self.clear_left(alloc, rolled_back);
        self.unsynced
            .sync(&mut self.system, alloc, &mut self.open_folders, changes)
    }
}

/// Whether the place of this index lies below another one, or is one of those before it.
fn is_repeated(folders: &[PathText], index: usize, place: &PathText) -> bool {
    folders.iter().any(|other| place.lies_under(other))
        || folders.iter().take(index).any(|other| other == place)
}
