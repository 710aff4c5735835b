//! Files in a map by their paths, none of which is a folder of another.
ghost use Rattle.std.specs.Prelude.{◌≡◌, ◌≢◌, ◌||◌, IfOk, IfErr, OnOk};
ghost use Rattle.std.specs.FinMap as map;
ghost use Rattle.std.specs.List.{list_any};
ghost use Rattle.std.specs.BTreeMap.{keys, IsOrdered};
ghost use Rattle.std.specs.Cmp.Lexicographic.{slice_cmp};
ghost use Rattle.std.specs.Ordering.{nat_cmp};
ghost use Rattle.reuse_change.specs.Path.{lies_under};
ghost use Rattle.reuse_change.specs.Files.{AreFiles};
ghost use Rattle.reuse_change.specs.Parts.{joined};
ghost use Rattle.reuse_change.specs.Listing.{listed_paths};

use crate::{Reading, StoreFault};
use reuse_change::{PathText, Pieces, Pruning, is_wanted};
use reuse_text::Bytes;
use std::alloc::{AllocError, Global};
use std::collections::BTreeMap;

/// Files by their paths, none of which is a folder of another.
#[derive(Drop)]
pub(crate) struct FileMap {
    contents: BTreeMap<PathText, Bytes>,
    ghost are_files: { AreFiles (map.from_entries contents.entries) },
}

impl FileMap {
    ghost use Rattle.reuse_store.specs.FileMap.{files_of};
    ghost use Rattle.reuse_store.specs.Store.{reading_of, Puts, PutFails};

    /// No files.
    pub(crate) fn new(alloc: Global) -> FileMap
        ensures { files_of result ≡ map.empty }
    {
        FileMap {
            contents: BTreeMap::new(alloc),
        }
    }

    /// In byte order, the paths that are one of these folders or lie under one, and under no folder
    /// that is pruned.
    pub(crate) fn list<P: Pruning>(
        &self,
        alloc: Global,
        folders: &[PathText],
        pruning: &P,
    ) -> Result<Vec<PathText>, AllocError>
        ensures { IfOk result
            (λ paths. paths.items ≡ listed_paths (files_of self.now) folders.now (P.prunes pruning.now)) }
    {
        let mut paths = Vec::new(alloc);
        for path in self.contents.keys() {
            if is_wanted(folders, pruning, path) {
                paths.push(path.try_clone(alloc)?)?;
            }
        }
        Ok(paths)
    }

    /// What the path holds, if it is no longer than the limit.
    pub(crate) fn read(
        &self,
        alloc: Global,
        path: &PathText,
        limit: usize,
    ) -> Result<Reading, AllocError>
        ensures { IfOk result (λ reading. reading ≡ reading_of (map.get (files_of self.now) path.now) limit) }
    {
        match self.contents.get(path) {
            None => Ok(Reading::Absent),
            Some(bytes) => {
                if bytes.len() <= limit {
                    Ok(Reading::Found(bytes.try_clone(alloc)?))
                } else {
                    Ok(Reading::TooLong)
                }
            }
        }
    }

    /// Makes the path's file these three parts joined. An `Err` changes nothing.
    pub(crate) fn put_parts(
        &mut self,
        alloc: Global,
        path: &PathText,
        parts: Pieces,
    ) -> Result<(), StoreFault>
        ensures ok { OnOk result (Puts path.now (joined parts.entry) (files_of self.old) (files_of self.new)) }
        ensures err { IfErr result
            (λ fault. PutFails fault path.now (joined parts.entry) (files_of self.old) (files_of self.new)) }
        ensures no_device { result ≢ Err StoreFault.Device }
    {
        if self.clashes(path) {
            return Err(StoreFault::Clash);
        }
        let path = path.try_clone(alloc)?;
        let bytes = parts.join(alloc)?;
        self.contents.insert(path, bytes).map_err(AllocError::from)?;
        Ok(())
    }

    /// Removes the path's file, if there is one.
    pub(crate) fn remove(&mut self, path: &PathText)
        ensures { files_of self.new ≡ map.remove (files_of self.old) path.now }
    {
        self.contents.remove(path);
    }

    // Whether no file can be made at the path.
    fn clashes(&self, path: &PathText) -> bool
        ensures nested { result ≡ list_any (λ other. lies_under other path.now || lies_under path.now other)
            (keys self.now.contents) }
        ensures ordered { IsOrdered (slice_cmp nat_cmp) self.now.contents }
    {
        self.contents
            .keys()
            .any(|other| other.lies_under(path) || path.lies_under(other))
    }
}
