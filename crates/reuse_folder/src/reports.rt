//! What a store reports beside the answers to its calls: for the notes of a run. Tested by `notes.sh`
//! and `owners.sh` in `tests/`.
ghost use Rattle.std.specs.Prelude.{◌≡◌, None};
ghost use Rattle.reuse_store.specs.Asked.{OnlyReads};
ghost use Rattle.reuse_folder.specs.RolledBack.{rolled_back_by};

use crate::DiskStore;
use crate::failure::Failure;
use crate::ownership::OwnerReport;
use reuse_disk::DiskSystem;
use reuse_store::Store;
use std::io;

impl<S: DiskSystem + Drop> DiskStore<S> {
    /// Why the root, or a folder above it, couldn't be locked, where one couldn't.
    pub fn lock_error(&self) -> Option<io::Error> {
        self.lock.error()
    }

    /// What was done so far to owners and names of files.
    pub fn owner_report(&self) -> OwnerReport
        ensures { result ≡ self.now.folder.ownership.report }
    {
        self.folder.ownership().owner_report()
    }

    /// How many files were rolled back, if a step was pending and isn't any more.
    pub fn rolled_back(&self) -> Option<usize>
        ensures { result ≡ rolled_back_by self.now.rolled_back }
    {
        self.rolled_back.files()
    }

    /// Whether folders are searched for by their paths, since the system doesn't show open ones.
    pub fn is_by_path(&self) -> bool {
        self.folder.is_by_path()
    }

    /// The folders that listings found and passed over.
    pub fn passed_over(&self) -> &[String] {
        self.folder.passed_over()
    }

    /// The last call that failed, where one did since the last asking.
    pub fn take_failure(&mut self) -> Option<Failure>
        ensures reads { OnlyReads ⟦<DiskStore<S> as Store>⟧ self.old self.new }
        ensures unsynced { self.new.folder.unsynced ≡ self.old.folder.unsynced }
        ensures failure { result ≡ self.old.failure.failure }
        ensures forgotten { self.new.failure.failure ≡ None }
    {
        self.failure.take()
    }
}
