//! A folder of the file system as a store of files.
//!
//! No link is followed, and no file is written where another may read it half: it is written to a
//! temporary file, synced and renamed. Each call of the system is noted with its answer, and the
//! contracts speak of these notes. The program opens a store, with the lock of its folder in hand.
//! Tested by
//! `folder.sh`, `races.sh`, `syncs.sh`, `owners.sh` and `fail_system_calls.sh` in `tests/`.
#![tactic(auto)]

ghost use Rattle.std.specs.Prelude.{◌≡◌, ◌≢◌, ◌⊎◌, ◌+◌, [], IfOk, IsErr, MatchResult, OnErr, Some, is_ok, length, min};
ghost use Rattle.std.specs.Prelude.{IsTrue, if◌then◌else◌, true};
ghost use Rattle.std.specs.FinMap as map;
ghost use Rattle.std.specs.List.{Contains};
ghost use Rattle.reuse_store.specs.Store.{reading_of};
ghost use Rattle.reuse_folder.specs.FolderReads.{IsReadWith};
ghost use Rattle.reuse_folder.specs.OwnerChanges.{is_due};
ghost use Rattle.reuse_folder.specs.Barriers.{HasNoted, HaveNoted};
ghost use Rattle.reuse_folder.specs.Batches.{IsBatch};
ghost use Rattle.reuse_folder.specs.Disk.{disk_of, IsSameTreeBut};
ghost use Rattle.reuse_folder.specs.NotedFiles.{StayAsNoted, StayAsWritten};
ghost use Rattle.reuse_folder.specs.FolderWrites.{IsGone, IsPutTidily, IsRemovedIn, IsStoredAt};
ghost use Rattle.reuse_system.specs.declared.fault.IoReason.{IoReason};
ghost use Rattle.reuse_system.specs.declared.place.Identity.{Identity};
ghost use Rattle.reuse_folder.specs.RolledBack.{after_writing, foreign_of};
ghost use Rattle.reuse_folder.specs.Seen.{IsReadOnceMore, LoseNoEdits, LosesNoEditAfter};
ghost use Rattle.reuse_disk.specs.LeftFiles.{ClearsLeft};
ghost use Rattle.reuse_disk.specs.Noted.{IsNoted, StayNoted};
ghost use Rattle.reuse_disk.specs.Synced.{AreAbove, AreSynced, IsSyncedAt};
ghost use Rattle.reuse_disk.specs.Written.{is_kept};
ghost use Rattle.reuse_store.specs.Asked.{FailsAsRead, OnlyReads, IsLater, IsPut, IsRemoval, AreWrites};
ghost use Rattle.reuse_store.specs.Asked.{IsBarrier, Leaves};
ghost use Rattle.reuse_change.specs.Layout.{journal_folder};
ghost use Rattle.reuse_change.specs.Parts.{joined};
ghost use Rattle.reuse_store.specs.Calls.{Start};
ghost use Rattle.reuse_change.specs.Files.{AreFiles};
ghost use Rattle.reuse_folder.specs.Honesty.{files_of, IsHonest};

mod failure;
mod folder;
mod journal_owner;
mod laws;
mod noted_listing;
mod notes;
mod ownership;
mod remembered;
mod reports;
mod rolled_back;
mod run_settings;

pub use failure::Failure;
use failure::LastFailure;
use folder::RootFolder;
pub use laws::losses_stay_at_their_paths;
use noted_listing::note_listing;
pub use ownership::OwnerReport;
use ownership::OwnershipPolicy;
use reuse_change::{Change, PathText, Pieces, Pruning};
use reuse_disk::DiskSystem;
use reuse_lock::{LockedFolders, RootLock};
use reuse_store::{CallRecord, FileWrite, Reading, Store, StoreFault, StoreRequest};
use reuse_system::owner::{OwnerChange, Process};
use reuse_system::syncs::Syncs;
use reuse_system::system::HostSystem;
use rolled_back::RolledBack;
use std::alloc::Global;
use std::fs::File;
use std::rt::Files;

/// The files of a folder. It is honest as long as each call was answered as a folder answers that
/// held the files of the start and that nobody else writes. No contract says that a folder is:
/// proved are the counts of failures, of bytes written and of puts and removals, and that each
/// answer is noted as it was given. Of a read, of one put and of a removal it is proved, too, what
/// stands at the path then. That listings, batches and syncs are made as they are noted is tested.
#[derive(Drop)]
pub struct DiskStore<S: DiskSystem + Drop> {
    folder: RootFolder<S>,
    failure: LastFailure,
    calls: CallRecord,
    rolled_back: RolledBack,
    /// No other run works in the folder as long as the store is there.
    lock: LockedFolders,
    ghost are_files: { IsHonest calls.start calls.calls → AreFiles (files_of calls.start calls.calls) },
}

/// The store of a folder of the system that the program runs on.
pub type HostStore<R> = DiskStore<HostSystem<R>>;

impl<R: Files<File = File> + AllocGlobal + Clone + Drop> DiskStore<HostSystem<R>> {
    /// The folder that is locked, in which what is written is made durable or not, and files may
    /// lose their owners or not. The system isn't asked for the folder yet, so what it holds is
    /// unknown: for any files the contract gives a store that holds these, and the answers then fit
    /// or don't.
    pub fn at(rt: R, lock: RootLock, syncs: Syncs, owner_change: OwnerChange) -> HostStore<R>
        ghost start: { Start }
        ensures files { ⟦<HostStore<R> as Store>⟧.files result ≡ start.files }
        ensures honest { AreFiles start.files → ⟦<HostStore<R> as Store>⟧.honest result }
        // A loss of power leaves no more than what might be left at the start.
        ensures lost { Leaves ⟦<HostStore<R> as Store>⟧ result
            (λ left. (left ≡ start.files) ⊎ Contains start.initial_crash_states left) }
        // Syncs are made as it is asked for, and the journal is noted for the first barrier.
        ensures syncs { result.folder.unsynced.syncs ≡ syncs }
        ensures noted { IsNoted result.folder.unsynced journal_folder }
        // It is the folder that was locked, and files keep their owners as it is asked for.
        ensures root { result.folder.open_folders.root_path ≡ lock.root }
        ensures owner_change { result.folder.ownership.owner_change ≡ owner_change }
        ensures failures { ⟦<HostStore<R> as Store>⟧.failures result ≡ 0 }
        ensures written { ⟦<HostStore<R> as Store>⟧.written result ≡ 0 }
        ensures mutations { ⟦<HostStore<R> as Store>⟧.mutations result ≡ 0 }
    {
        let (root, lock) = lock.into_parts();
        let ownership = OwnershipPolicy::new(Process::current(&rt, rt.alloc()), owner_change);
        DiskStore {
            folder: RootFolder::new(host_system(rt), root, syncs, ownership),
            failure: LastFailure::none(),
            calls: CallRecord::new(),
            rolled_back: RolledBack::nothing(),
            lock,
        }
    }
}

/// The system that the program runs on. Of what its names lead to nothing is claimed.
fn host_system<R: Files<File = File> + AllocGlobal + Clone + Drop>(rt: R) -> HostSystem<R> {
    HostSystem::new(rt)
}

impl<S: DiskSystem + Drop> Store for DiskStore<S> {
    ghost use Rattle.reuse_store.specs.Calls.{failures_of, written_of, mutations_of};
    ghost use Rattle.reuse_folder.specs.Honesty.{files_of, files_are_a_crash_state, IsHonest, IsCrashState};

    ghost files = { λ store. files_of store.calls.start store.calls.calls };

    ghost crash_states = { λ store. IsCrashState store.calls.start store.calls.initial_crash_states store.calls.calls };

    ghost failures = { λ store. failures_of store.calls.calls };

    ghost written = { λ store. written_of store.calls.calls };

    ghost mutations = { λ store. mutations_of store.calls.calls };

    ghost honest = { λ store. IsHonest store.calls.start store.calls.calls };

    fn list<P: Pruning>(
        &mut self,
        alloc: Global,
        folders: &[PathText],
        pruning: &P,
    ) -> Result<Vec<PathText>, StoreFault> {
        let answer = self.folder.list(alloc, folders, pruning);
        self.failure
            .note(alloc, StoreRequest::List, self.folder.listed(), &answer);
        let answer = answer.map_err(StoreFault::from);
        note_listing(&mut self.calls, folders, pruning, &answer);
        answer
    }

    fn read(&mut self, alloc: Global, path: &PathText, limit: usize) -> Result<Reading, StoreFault>
        ensures kept { ⟦<DiskStore<S> as Store>⟧.honest self.old
            → MatchResult result
            (λ reading. reading ≡ reading_of (map.get (⟦<DiskStore<S> as Store>⟧.files self.old) path.now) limit
            → ⟦<DiskStore<S> as Store>⟧.honest self.new) (λ fault. fault ≢ StoreFault.Clash
            → ⟦<DiskStore<S> as Store>⟧.honest self.new) }
        ensures reading { ⟦<DiskStore<S> as Store>⟧.honest self.new
            → IfOk result
            (λ reading. reading ≡ reading_of (map.get (⟦<DiskStore<S> as Store>⟧.files self.old) path.now)
            limit) }
        ensures fails { FailsAsRead ⟦<DiskStore<S> as Store>⟧ self.old self.new result }
        ensures reads { OnlyReads ⟦<DiskStore<S> as Store>⟧ self.old self.new }
        ensures unsynced { self.new.folder.unsynced ≡ self.old.folder.unsynced }
        // What is read is what the file at the path holds on the disk, if none is remembered.
        ensures read { S.honest self.new.folder.system → self.old.folder.remembered.files.items ≡ []
            → IfOk result (IsReadWith (foreign_of self.old.rolled_back) (S.folders self.new.folder.system)
            (S.holds self.new.folder.system) path.now limit) }
        // What was read is what a write expects there.
        ensures once_more { IfOk result
            (λ _. IsReadOnceMore self.old.folder.reads.items self.new.folder.reads.items path.now) }
    {
        let foreign = self.rolled_back.foreign();
        let answer = self.folder.read_with(alloc, path, limit, foreign);
        self.failure
            .note(alloc, StoreRequest::Read, path.text(), &answer);
        let answer = answer.map_err(StoreFault::from);
        self.calls.note_read(path, limit, &answer);
        answer
    }

    fn put_parts(&mut self, alloc: Global, path: &PathText, parts: Pieces) -> Result<(), StoreFault>
        ensures puts { IsPut ⟦<DiskStore<S> as Store>⟧ path.now (joined parts.entry) self.old self.new result }
        ensures later { IsLater ⟦<DiskStore<S> as Store>⟧ self.old self.new }
        // On the disk the file at the path has these bytes, and nothing else differs.
        ensures stands { S.honest self.new.folder.system
            → IfOk result (λ _. IsStoredAt (S.folders self.new.folder.system) (S.holds self.new.folder.system)
            path.now (joined parts.entry) (is_kept self.old.folder.unsynced.syncs)) }
        ensures place { S.honest self.new.folder.system
            → IsPutTidily (S.folders self.new.folder.system) path.now (joined parts.entry)
            (is_kept self.old.folder.unsynced.syncs) (S.holds self.old.folder.system)
            (S.holds self.new.folder.system) (is_ok result) }
        // Each other path leads to the file that it led to.
        ensures others { S.honest self.new.folder.system
            → IsSameTreeBut path.now (disk_of S.System self.old.folder.system)
            (disk_of S.System self.new.folder.system) }
        // What was noted of the files and true stays so.
        ensures as_noted { S.honest self.new.folder.system → ⟦<DiskStore<S> as Store>⟧.honest self.new
            → IfOk result (λ _. StayAsNoted (⟦<DiskStore<S> as Store>⟧.files self.old)
            (⟦<DiskStore<S> as Store>⟧.files self.new) (disk_of S.System self.old.folder.system)
            (disk_of S.System self.new.folder.system)) }
        // The folder above the path is noted for the next barrier, if that got or lost a file.
        ensures noted { self.old.folder.unsynced.syncs ≡ Syncs.Kept
            → HasNoted self.new.folder.unsynced path.now (S.changes self.old.folder.system)
            (S.changes self.new.folder.system) }
        ensures syncs { self.new.folder.unsynced.syncs ≡ self.old.folder.unsynced.syncs }
        ensures stay_noted { StayNoted self.old.folder.unsynced self.new.folder.unsynced }
        // The file at the path stays if it isn't what was read there.
        ensures keeps_edits { LosesNoEditAfter self.old.folder.reads.items path.now (S.changes self.old.folder.system)
            (S.changes self.new.folder.system) (S.holds self.old.folder.system) (S.holds self.new.folder.system) }
        // A call that is held puts nothing.
        ensures held { IsTrue (is_due self.old.folder.ownership.guard) → IsErr result }
        ensures rolled_back { self.new.rolled_back ≡ after_writing path.now (is_ok result) self.old.rolled_back }
    {
        let answer = self.folder.put(alloc, path, parts);
        self.note_put(alloc, path, parts, answer)
    }

    fn remove(&mut self, alloc: Global, path: &PathText) -> Result<(), StoreFault>
        ensures removes { IsRemoval ⟦<DiskStore<S> as Store>⟧ path.now self.old self.new result }
        ensures later { IsLater ⟦<DiskStore<S> as Store>⟧ self.old self.new }
        // On the disk no file is at the path, and nothing else differs.
        ensures gone { S.honest self.new.folder.system
            → IfOk result (λ _. IsGone (S.folders self.new.folder.system) (S.holds self.new.folder.system)
            path.now) }
        ensures place { S.honest self.new.folder.system
            → IsRemovedIn (S.folders self.new.folder.system) path.now (S.holds self.old.folder.system)
            (S.holds self.new.folder.system) }
        // Each other path leads to the file that it led to.
        ensures others { S.honest self.new.folder.system
            → IsSameTreeBut path.now (disk_of S.System self.old.folder.system)
            (disk_of S.System self.new.folder.system) }
        // What was noted of the files and true stays so.
        ensures as_noted { S.honest self.new.folder.system → ⟦<DiskStore<S> as Store>⟧.honest self.new
            → IfOk result (λ _. StayAsNoted (⟦<DiskStore<S> as Store>⟧.files self.old)
            (⟦<DiskStore<S> as Store>⟧.files self.new) (disk_of S.System self.old.folder.system)
            (disk_of S.System self.new.folder.system)) }
        // The folder above the path is noted for the next barrier, if that got or lost a file.
        ensures noted { self.old.folder.unsynced.syncs ≡ Syncs.Kept
            → HasNoted self.new.folder.unsynced path.now (S.changes self.old.folder.system)
            (S.changes self.new.folder.system) }
        ensures syncs { self.new.folder.unsynced.syncs ≡ self.old.folder.unsynced.syncs }
        ensures stay_noted { StayNoted self.old.folder.unsynced self.new.folder.unsynced }
        // The file at the path stays if it isn't what was read there.
        ensures keeps_edits { LosesNoEditAfter self.old.folder.reads.items path.now (S.changes self.old.folder.system)
            (S.changes self.new.folder.system) (S.holds self.old.folder.system) (S.holds self.new.folder.system) }
        ensures rolled_back { self.new.rolled_back ≡ after_writing path.now (is_ok result) self.old.rolled_back }
    {
        let answer = self.folder.remove(alloc, path);
        self.note_removal(alloc, path, answer)
    }

    fn write_all(&mut self, alloc: Global, writes: &[FileWrite]) -> Result<(), StoreFault>
        ensures writes { AreWrites ⟦<DiskStore<S> as Store>⟧ writes.now self.old self.new result }
        // On the disk as many of the writes are made as are noted, each as a single one is.
        ensures made { S.honest self.new.folder.system
            → (batch : IsBatch (is_kept self.old.folder.unsynced.syncs) writes.now
            (disk_of S.System self.old.folder.system) (disk_of S.System self.new.folder.system) (is_ok result))
            × (⟦<DiskStore<S> as Store>⟧.mutations self.new ≡ ⟦<DiskStore<S> as Store>⟧.mutations self.old
            + min (batch.made + 1) (length writes.now)) }
        // What was noted of the files and true stays so, at each path that isn't removed.
        ensures as_noted { S.honest self.new.folder.system → ⟦<DiskStore<S> as Store>⟧.honest self.new
            → IfOk result (λ _. StayAsWritten writes.now (⟦<DiskStore<S> as Store>⟧.files self.old)
            (⟦<DiskStore<S> as Store>⟧.files self.new) (disk_of S.System self.old.folder.system)
            (disk_of S.System self.new.folder.system)) }
        // The folder above each path that got or lost a file is noted for the next barrier.
        ensures noted { self.old.folder.unsynced.syncs ≡ Syncs.Kept
            → HaveNoted self.new.folder.unsynced writes.now (S.changes self.old.folder.system)
            (S.changes self.new.folder.system) }
        ensures syncs { self.new.folder.unsynced.syncs ≡ self.old.folder.unsynced.syncs }
        ensures stay_noted { StayNoted self.old.folder.unsynced self.new.folder.unsynced }
        // No path changes at which something else stands than was read there.
        ensures keeps_edits { LoseNoEdits self.old.folder.reads.items writes.now (S.changes self.old.folder.system)
            (S.changes self.new.folder.system) }
    {
        if writes.is_empty() {
            return Ok(());
        }
        let answer = self.folder.write_all(alloc, writes);
        self.note_writes(alloc, writes, answer)
    }

    fn sync(&mut self, alloc: Global, changes: &[Change]) -> Result<(), StoreFault>
        ensures barrier { IsBarrier ⟦<DiskStore<S> as Store>⟧ changes.now self.old self.new result }
        ensures fails { FailsAsRead ⟦<DiskStore<S> as Store>⟧ self.old self.new result }
        ensures reads { OnlyReads ⟦<DiskStore<S> as Store>⟧ self.old self.new }
        // On the disk nothing differs but new files that a stopped run of this journal has left
        // below mounts, and no name changes but theirs. Once the journal was written, none does.
        ensures clears { ClearsLeft (S.honest self.new.folder.system) (S.folders self.new.folder.system)
            (S.changes self.old.folder.system) (S.changes self.new.folder.system) (S.holds self.old.folder.system)
            (S.holds self.new.folder.system) }
        ensures over { self.old.rolled_back.is_over ≡ true
            → S.changes self.new.folder.system ≡ S.changes self.old.folder.system }
        // Each folder that is noted, and there, was synced since the barrier began, if it succeeds.
        ensures synced { self.old.folder.unsynced.syncs ≡ Syncs.Kept → S.honest self.new.folder.system
            → IfOk result (λ _. AreSynced (IsNoted self.old.folder.unsynced) (S.folders self.new.folder.system)
            (S.holds self.new.folder.system) (S.synced self.old.folder.system) (S.synced self.new.folder.system)) }
        // So was the folder above the path of each change.
        ensures above { self.old.folder.unsynced.syncs ≡ Syncs.Kept → S.honest self.new.folder.system
            → IfOk result (λ _. AreAbove (IsSyncedAt (S.folders self.new.folder.system)
            (S.holds self.new.folder.system) (S.synced self.old.folder.system) (S.synced self.new.folder.system))
            changes.now (length changes.now)) }
        ensures syncs { self.new.folder.unsynced.syncs ≡ self.old.folder.unsynced.syncs }
        // What a barrier that fails was to sync is left to the next one.
        ensures kept { OnErr result (StayNoted self.old.folder.unsynced self.new.folder.unsynced) }
        // Once a sync has failed, no barrier is believed.
        ensures failed { (obstacle : IoReason) → self.old.folder.unsynced.syncs ≡ Syncs.Kept
            → self.old.folder.unsynced.failed ≡ Some obstacle → IsErr result }
    {
        let answer = self.folder.sync(alloc, changes, self.rolled_back);
        self.failure
            .note(alloc, StoreRequest::Sync, self.folder.synced(), &answer);
        let answer = answer.map_err(StoreFault::from);
        self.calls.note_sync(changes, &answer);
        answer
    }

    ghost files_in_crash_states = { λ store.
        files_are_a_crash_state store.calls.start store.calls.initial_crash_states store.calls.calls };

    ghost are_files = { λ store honest. store.are_files honest };
}
