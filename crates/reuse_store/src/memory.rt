//! A store in memory.
ghost use Rattle.std.specs.Prelude.{◌≡◌, ◌≢◌, ⊤, refl, IfErr, OnOk};
ghost use Rattle.std.specs.FinMap as map;

use crate::file_map::FileMap;
use crate::{CallRecord, Reading, Store, StoreFault};
use reuse_change::{Change, PathText, Pieces, Pruning};
use std::alloc::Global;

/// Files in memory, which nobody else writes. It never fails but for memory, and knows no loss of
/// power.
#[derive(Drop)]
pub struct MemoryStore {
    // Made with the first file, so that no memory is taken before.
    files: Option<FileMap>,
    calls: CallRecord,
}

impl MemoryStore {
    ghost use Rattle.reuse_store.specs.FileMap.{files_in};
    ghost use Rattle.reuse_change.specs.Parts.{joined};
    ghost use Rattle.reuse_store.specs.Store.{Puts, PutFails};

    /// No files, and nothing written.
    pub fn new() -> MemoryStore
        ensures files { ⟦<MemoryStore as Store>⟧.files result ≡ map.empty }
        ensures failures { ⟦<MemoryStore as Store>⟧.failures result ≡ 0 }
        ensures written { ⟦<MemoryStore as Store>⟧.written result ≡ 0 }
        ensures mutations { ⟦<MemoryStore as Store>⟧.mutations result ≡ 0 }
        ensures honest { ⟦<MemoryStore as Store>⟧.honest result }
    {
        MemoryStore {
            files: None,
            calls: CallRecord::new(),
        }
    }

    // Makes the path's file these parts joined. No call is noted.
    fn make(&mut self, alloc: Global, path: &PathText, parts: Pieces) -> Result<(), StoreFault>
        ensures ok { OnOk result
            (Puts path.now (joined parts.entry) (files_in self.old.files) (files_in self.new.files)) }
        ensures err { IfErr result (λ fault. PutFails fault path.now (joined parts.entry) (files_in self.old.files)
            (files_in self.new.files)) }
        ensures no_device { result ≢ Err StoreFault.Device }
        ensures calls { self.new.calls ≡ self.old.calls }
    {
        match &mut self.files {
            Some(files) => files.put_parts(alloc, path, parts),
            None => {
                let mut files = FileMap::new(alloc);
                let answer = files.put_parts(alloc, path, parts);
                self.files = Some(files);
                answer
            }
        }
    }

    // Removes the path's file, if there is one. No call is noted.
    fn forget(&mut self, path: &PathText)
        ensures files { files_in self.new.files ≡ map.remove (files_in self.old.files) path.now }
        ensures calls { self.new.calls ≡ self.old.calls }
    {
        if let Some(files) = &mut self.files {
            files.remove(path);
        }
    }
}

impl Store for MemoryStore {
    ghost use Rattle.reuse_store.specs.FileMap.{files_in, files_in_are_files};
    ghost use Rattle.reuse_store.specs.Calls.{written_of, mutations_of};

    ghost files = { λ store. files_in store.files };

    ghost crash_states = { λ store left. left ≡ files_in store.files };

    ghost failures = { λ _. 0 };

    ghost written = { λ store. written_of store.calls.calls };

    ghost mutations = { λ store. mutations_of store.calls.calls };

    ghost honest = { λ _. ⊤ };

    fn list<P: Pruning>(
        &mut self,
        alloc: Global,
        folders: &[PathText],
        pruning: &P,
    ) -> Result<Vec<PathText>, StoreFault> {
        match &self.files {
            None => Ok(Vec::new(alloc)),
            Some(files) => Ok(files.list(alloc, folders, pruning)?),
        }
    }

    fn read(
        &mut self,
        alloc: Global,
        path: &PathText,
        limit: usize,
    ) -> Result<Reading, StoreFault> {
        match &self.files {
            None => Ok(Reading::Absent),
            Some(files) => Ok(files.read(alloc, path, limit)?),
        }
    }

    fn put_parts(
        &mut self,
        alloc: Global,
        path: &PathText,
        parts: Pieces,
    ) -> Result<(), StoreFault> {
        let answer = self.make(alloc, path, parts);
        self.calls.note_put_parts(path, parts, &answer);
        answer
    }

    fn remove(&mut self, alloc: Global, path: &PathText) -> Result<(), StoreFault> {
        self.forget(path);
        let answer = Ok(());
        self.calls.note_remove(path, &answer);
        answer
    }

    fn sync(&mut self, _alloc: Global, _changes: &[Change]) -> Result<(), StoreFault> {
        Ok(())
    }

    ghost files_in_crash_states = { λ store. refl };

    ghost are_files = { λ store _. files_in_are_files store.files };
}
