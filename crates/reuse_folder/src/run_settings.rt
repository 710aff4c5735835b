//! What a run sets of its store: which writes are held, which files are remembered, and where paths
//! start. None of it changes a file.
ghost use Rattle.std.specs.Prelude.{◌≡◌, ◌↔◌, IsTrue, true};
ghost use Rattle.reuse_store.specs.Asked.{OnlyReads};
ghost use Rattle.reuse_folder.specs.declared.ownership.PutGuard.TheVariants.{Held, Off, Watching};

use crate::DiskStore;
use reuse_change::PathText;
use reuse_disk::DiskSystem;
use reuse_store::{Store, StoreFault};
use std::alloc::Global;
use std::rt::Env;
use std::time::Duration;

impl<S: DiskSystem + Drop> DiskStore<S> {
    /// Whether the journal belongs to another user than the process. If that can't be seen, it
    /// isn't reported here: opening the journal fails.
    pub fn is_journal_of_other(&mut self, alloc: Global) -> bool
        ensures reads { OnlyReads ⟦<DiskStore<S> as Store>⟧ self.old self.new }
        ensures unsynced { self.new.folder.unsynced ≡ self.old.folder.unsynced }
    {
        let user = self.folder.ownership().user();
        match self.folder.journal_owners(alloc) {
            Ok(owners) => owners.is_journal_of_other(user),
            Err(_) => false,
        }
    }

    /// From now on the first put of a call fails if a file was read that can't keep its owner,
    /// unless that is allowed, or if a name was asked for that no file can have.
    pub fn watch_writes(&mut self)
        ensures reads { OnlyReads ⟦<DiskStore<S> as Store>⟧ self.old self.new }
        ensures unsynced { self.new.folder.unsynced ≡ self.old.folder.unsynced }
        ensures watched { self.new.folder.ownership ≡ record self.old.folder.ownership { guard = Watching } }
    {
        self.folder.watch_writes();
    }

    /// Short files that are read from now on are remembered, for a call that began at this time
    /// since 1970: they aren't read again as long as the system reports the same of them.
    pub fn remember_files(&mut self, since: Option<Duration>)
        ensures reads { OnlyReads ⟦<DiskStore<S> as Store>⟧ self.old self.new }
        ensures unsynced { self.new.folder.unsynced ≡ self.old.folder.unsynced }
    {
        self.folder.remember_files(since);
    }

    /// Goes to where the system shows the handles of the process, so that paths through them are
    /// short, until `come_back`. Meanwhile no other path may start where the process was.
    pub fn go_to_handles(&mut self, env: &impl Env, alloc: Global)
        ensures reads { OnlyReads ⟦<DiskStore<S> as Store>⟧ self.old self.new }
        ensures unsynced { self.new.folder.unsynced ≡ self.old.folder.unsynced }
    {
        self.folder.go_to_handles(env, alloc);
    }

    /// Comes back to the folder that the process was called in.
    pub fn come_back(&mut self, env: &impl Env, alloc: Global)
        ensures reads { OnlyReads ⟦<DiskStore<S> as Store>⟧ self.old self.new }
        ensures unsynced { self.new.folder.unsynced ≡ self.old.folder.unsynced }
    {
        self.folder.come_back(env, alloc);
    }

    /// A pending step is rolled back from now on, until the journal is first written. Meanwhile
    /// what stands at a path and is neither a file nor a folder, as a link or a pipe, is read as a
    /// file that is too long: so it isn't taken for a path without a file, where one could be made.
    pub fn expect_rollback(&mut self)
        ensures reads { OnlyReads ⟦<DiskStore<S> as Store>⟧ self.old self.new }
        ensures unsynced { self.new.folder.unsynced ≡ self.old.folder.unsynced }
        ensures expected { self.new.rolled_back ≡ record self.old.rolled_back { is_pending = true } }
    {
        self.rolled_back.expect();
    }

    /// No put fails for that any more, but those of such files; whether one has failed.
    pub fn release_writes(&mut self) -> bool
        ensures reads { OnlyReads ⟦<DiskStore<S> as Store>⟧ self.old self.new }
        ensures unsynced { self.new.folder.unsynced ≡ self.old.folder.unsynced }
        ensures held { IsTrue result ↔ (self.old.folder.ownership.guard ≡ Held) }
        ensures off { self.new.folder.ownership ≡ record self.old.folder.ownership { guard = Off } }
    {
        self.folder.release_writes()
    }

    /// Whether the file at the path, if there is one, can be written anew and keep its owner, or
    /// needn't.
    pub fn may_write(&mut self, alloc: Global, path: &PathText) -> Result<bool, StoreFault>
        ensures reads { OnlyReads ⟦<DiskStore<S> as Store>⟧ self.old self.new }
        ensures unsynced { self.new.folder.unsynced ≡ self.old.folder.unsynced }
    {
        let answer = self.folder.may_write(alloc, path);
        answer.map_err(StoreFault::from)
    }
}
