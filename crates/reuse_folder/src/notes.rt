//! Notes of the writes that a store was asked for, each with its answer.
ghost use Rattle.std.specs.Prelude.{◌≡◌, ◌<◌, ◌+◌, IfErr, is_ok, length, min};
ghost use Rattle.reuse_folder.specs.Batches.{made_of};
ghost use Rattle.reuse_folder.specs.Reported.{IsReported};
ghost use Rattle.reuse_folder.specs.RolledBack.{after_writing};
ghost use Rattle.reuse_store.specs.Asked.{IsLater, IsPut, IsRemoval, IsWrite, AreWrites};
ghost use Rattle.reuse_change.specs.Parts.{joined};

use crate::DiskStore;
use crate::folder::Stop;
use reuse_change::{PathText, Pieces};
use reuse_disk::DiskSystem;
use reuse_store::laws::files_stay_good;
use reuse_store::{FileWrite, Store, StoreFault, StoreRequest};
use reuse_system::fault::FolderFault;
use std::alloc::Global;

impl<S: DiskSystem + Drop> DiskStore<S> {
    /// Notes that the path was to be made these parts joined, and the answer.
    pub(crate) fn note_put(
        &mut self,
        alloc: Global,
        path: &PathText,
        parts: Pieces,
        answer: Result<(), FolderFault>,
    ) -> Result<(), StoreFault>
        ensures puts { IsPut ⟦<DiskStore<S> as Store>⟧ path.now (joined parts.entry) self.old self.new result }
        ensures later { IsLater ⟦<DiskStore<S> as Store>⟧ self.old self.new }
        ensures folder { self.new.folder ≡ self.old.folder }
        ensures answers { IsReported answer result }
        ensures rolled_back { self.new.rolled_back ≡ after_writing path.now (is_ok answer) self.old.rolled_back }
    {
        files_stay_good();
        let answer = self.note_answer(alloc, StoreRequest::Write, path.text(), answer);
        self.calls.note_put_parts(path, parts, &answer);
        answer
    }

    /// Notes that the path's file was to be removed, and the answer.
    pub(crate) fn note_removal(
        &mut self,
        alloc: Global,
        path: &PathText,
        answer: Result<(), FolderFault>,
    ) -> Result<(), StoreFault>
        ensures removes { IsRemoval ⟦<DiskStore<S> as Store>⟧ path.now self.old self.new result }
        ensures later { IsLater ⟦<DiskStore<S> as Store>⟧ self.old self.new }
        ensures folder { self.new.folder ≡ self.old.folder }
        ensures answers { IsReported answer result }
        ensures rolled_back { self.new.rolled_back ≡ after_writing path.now (is_ok answer) self.old.rolled_back }
    {
        files_stay_good();
        let answer = self.note_answer(alloc, StoreRequest::Remove, path.text(), answer);
        self.calls.note_remove(path, &answer);
        answer
    }

    /// Notes the answer of a write or a removal at this path, and gives it as a store reports it.
    fn note_answer(
        &mut self,
        alloc: Global,
        request: StoreRequest,
        path: &str,
        answer: Result<(), FolderFault>,
    ) -> Result<(), StoreFault>
        ensures calls { self.new.calls ≡ self.old.calls }
        ensures folder { self.new.folder ≡ self.old.folder }
        ensures answers { IsReported answer result }
        ensures rolled_back { self.new.rolled_back ≡ after_writing path.now (is_ok answer) self.old.rolled_back }
    {
        self.rolled_back.note(path, answer.is_ok());
        self.failure.note(alloc, request, path, &answer);
        answer.map_err(StoreFault::from)
    }

    /// Notes one write and the answer.
    fn note_write(
        &mut self,
        alloc: Global,
        write: &FileWrite,
        answer: Result<(), FolderFault>,
    ) -> Result<(), StoreFault>
        ensures write { IsWrite ⟦<DiskStore<S> as Store>⟧ write.now.path.now write.now.file self.old self.new
            result }
        ensures mutations { ⟦<DiskStore<S> as Store>⟧.mutations self.new ≡ ⟦<DiskStore<S> as Store>⟧.mutations
            self.old + 1 }
        ensures folder { self.new.folder ≡ self.old.folder }
        ensures answers { IsReported answer result }
    {
        match write.file {
            Some(parts) => self.note_put(alloc, write.path, parts, answer),
            None => self.note_removal(alloc, write.path, answer),
        }
    }

    /// Notes writes that were made.
    fn note_made(&mut self, alloc: Global, writes: &[FileWrite])
        ensures writes { AreWrites ⟦<DiskStore<S> as Store>⟧ writes.now self.old self.new (Ok tt) }
        ensures mutations { ⟦<DiskStore<S> as Store>⟧.mutations self.new ≡ ⟦<DiskStore<S> as Store>⟧.mutations
            self.old + length writes.now }
        ensures folder { self.new.folder ≡ self.old.folder }
    {
        for write in writes {
            let _ = self.note_write(alloc, write, Ok(()));
        }
    }

    /// Notes writes that were asked for together, and the answer: each that was made, and the one
    /// that has failed.
    pub(crate) fn note_writes(
        &mut self,
        alloc: Global,
        writes: &[FileWrite],
        answer: Result<(), Stop>,
    ) -> Result<(), StoreFault>
        requires { IfErr answer (λ stop. stop.made < length writes.now) }
        ensures writes { AreWrites ⟦<DiskStore<S> as Store>⟧ writes.now self.old self.new result }
        ensures mutations { ⟦<DiskStore<S> as Store>⟧.mutations self.new ≡ ⟦<DiskStore<S> as Store>⟧.mutations
            self.old + min (made_of (length writes.now) answer + 1) (length writes.now) }
        ensures folder { self.new.folder ≡ self.old.folder }
        ensures done { is_ok result ≡ is_ok answer }
    {
        match answer {
            Ok(()) => {
                self.note_made(alloc, writes);
                Ok(())
            }
            Err(stop) => {
                self.note_made(alloc, &writes[..stop.made]);
                self.note_write(alloc, &writes[stop.made], Err(stop.fault))
            }
        }
    }
}
