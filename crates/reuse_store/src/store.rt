//! A store of files, as the code above asks it, path by path.
ghost use Rattle.std.specs.Prelude.{◌≡◌, ◌≢◌, ℕ, ◌<◌, List, length, Option, Some, MatchOption, MatchResult, IfOk};
ghost use Rattle.std.specs.Option.{option_copied};
ghost use Rattle.std.specs.FinMap as map;
ghost use Rattle.reuse_change.specs.Files.{Files, AreFiles};
ghost use Rattle.reuse_change.specs.Parts.{joined};
ghost use Rattle.reuse_change.specs.Listing.{listed_paths};

use crate::{FileWrite, StoreFault};
use reuse_change::{Change, PathText, Pieces, Pruning};
use reuse_text::Bytes;
use std::alloc::Global;

/// What reading a path gives.
#[derive(Debug, Drop)]
pub enum Reading {
    /// No file has the path.
    Absent,
    /// The file's bytes.
    Found(Bytes),
    /// The file is longer than the limit.
    TooLong,
}

impl Reading {
    ghost use Rattle.reuse_store.specs.Store.{reading_of};

    /// How many bytes were read.
    pub(crate) fn len(&self) -> usize {
        match self {
            Reading::Found(bytes) => bytes.len(),
            Reading::Absent | Reading::TooLong => 0,
        }
    }

    /// What the path holds, or none where that is a file longer than the limit.
    pub fn file(&self) -> Option<Option<&[u8]>>
        ensures { (file : Option (List ℕ)) → (limit : ℕ) → self.now ≡ reading_of file limit
            → MatchOption result ((bytes : List ℕ) × (file ≡ Some bytes) × (limit < length bytes))
            (λ held. option_copied held ≡ file) }
    {
        match self {
            Reading::Absent => Some(None),
            Reading::Found(bytes) => Some(Some(bytes.as_slice())),
            Reading::TooLong => None,
        }
    }
}

/// Files by their paths. What is said of `files` and of a clash holds where the store is honest
/// after the call; what is said of `crash_states`, `failures`, `written` and `mutations` holds
/// always.
pub trait Store {
    ghost use Rattle.reuse_store.specs.Store.{reading_of};
    ghost use Rattle.reuse_store.specs.StoreLaws.{OnlyReads, IsLater, FailsAsRead, IsPut, IsRemoval, IsWrite};
    ghost use Rattle.reuse_store.specs.StoreLaws.{AreWrites, IsBarrier};

    /// What each path holds.
    ghost files: { Self → Files };

    /// What a loss of power at this moment may leave.
    ghost crash_states: { Self → Files → Type 0 };

    /// How often the device has failed. It never falls.
    ghost failures: { Self → ℕ };

    /// How many bytes were handed to `put` and `put_parts` for paths under `.reuse/undo/`.
    ghost written: { Self → ℕ };

    /// How many puts and removals were asked for, whatever was answered.
    ghost mutations: { Self → ℕ };

    /// So far nobody else has written the files, and what was read is what was written. A call can
    /// lose this, and never gain it; one that is answered as these files ask keeps it. A put or a
    /// removal that the device or an allocation failed may have lost it.
    ghost honest: { Self → Type 0 };

    /// In byte order, the paths that are one of these folders or lie under one, and under no folder
    /// that is pruned. Where no folder is given, the whole tree is listed.
    fn list<P: Pruning>(
        &mut self,
        alloc: Global,
        folders: &[PathText],
        pruning: &P,
    ) -> Result<Vec<PathText>, StoreFault>
        ensures kept { honest self.old
            → MatchResult result (λ paths. paths.items ≡ listed_paths (files self.old) folders.now
            (P.prunes pruning.now) → honest self.new) (λ fault. fault ≢ StoreFault.Clash → honest self.new) }
        ensures paths { honest self.new
            → IfOk result (λ paths. paths.items ≡ listed_paths (files self.old) folders.now (P.prunes pruning.now)) }
        ensures fails { FailsAsRead failures honest self.old self.new result }
        ensures reads { OnlyReads files crash_states failures written mutations honest self.old self.new };

    /// What the path holds, if it is no longer than the limit in bytes.
    fn read(&mut self, alloc: Global, path: &PathText, limit: usize) -> Result<Reading, StoreFault>
        ensures kept { honest self.old → MatchResult result
            (λ reading. reading ≡ reading_of (map.get (files self.old) path.now) limit → honest self.new)
            (λ fault. fault ≢ StoreFault.Clash → honest self.new) }
        ensures reading { honest self.new
            → IfOk result (λ reading. reading ≡ reading_of (map.get (files self.old) path.now) limit) }
        ensures fails { FailsAsRead failures honest self.old self.new result }
        ensures reads { OnlyReads files crash_states failures written mutations honest self.old self.new };

    /// Makes the path's file these parts joined, and folders as needed.
    fn put_parts(&mut self, alloc: Global, path: &PathText, parts: Pieces) -> Result<(), StoreFault>
        ensures puts { IsPut files crash_states failures written mutations honest path.now
            (joined parts.entry) self.old self.new result }
        ensures later { IsLater failures written mutations honest self.old self.new };

    /// Makes the path's file these bytes, and folders as needed.
    fn put(&mut self, alloc: Global, path: &PathText, bytes: &[u8]) -> Result<(), StoreFault>
        ensures puts { IsPut files crash_states failures written mutations honest path.now bytes.now self.old
            self.new result }
        ensures later { IsLater failures written mutations honest self.old self.new }
    {
        self.put_parts(alloc, path, Pieces::whole(bytes))
    }

    /// Removes the path's file, if there is one.
    fn remove(&mut self, alloc: Global, path: &PathText) -> Result<(), StoreFault>
        ensures removes { IsRemoval files crash_states failures written mutations honest path.now self.old
            self.new result }
        ensures later { IsLater failures written mutations honest self.old self.new };

    /// Makes the path hold what it is given, by one put or removal.
    fn write(&mut self, alloc: Global, write: &FileWrite) -> Result<(), StoreFault>
        ensures { IsWrite files crash_states failures written mutations honest write.now.path.now
            write.now.file self.old
            self.new result }
    {
        match write.file {
            Some(parts) => self.put_parts(alloc, write.path, parts),
            None => self.remove(alloc, write.path),
        }
    }

    /// Makes each path hold what it is given, one after the other, up to the first that fails. A
    /// store may prepare them together.
    fn write_all(&mut self, alloc: Global, writes: &[FileWrite]) -> Result<(), StoreFault>
        ensures { AreWrites files crash_states failures written mutations honest writes.now self.old self.new result }
    {
        for write in writes {
            self.write(alloc, write)?;
        }
        Ok(())
    }

    /// A barrier: makes durable what the files of the journal hold now, and what the paths of these
    /// changes hold, whoever wrote them.
    fn sync(&mut self, alloc: Global, changes: &[Change]) -> Result<(), StoreFault>
        ensures barrier { IsBarrier files crash_states honest changes.now self.old self.new result }
        ensures fails { FailsAsRead failures honest self.old self.new result }
        ensures reads { OnlyReads files crash_states failures written mutations honest self.old self.new };

    /// What is there now may be left.
    ghost files_in_crash_states: { (store : Self) → crash_states store (files store) };

    /// Paths are good, and none is a folder of another.
    ghost are_files: { (store : Self) → honest store → AreFiles (files store) };
}
