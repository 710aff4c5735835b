//! A store whose calls are watched.
ghost use Rattle.std.specs.Prelude.{◌≡◌};

use crate::fault::StoreFault;
use crate::file_write::FileWrite;
use crate::store::{Reading, Store};
use reuse_change::{Change, PathText, Pieces, Pruning};
use std::alloc::Global;

/// What a call of a store asks for.
#[derive(Clone, Copy)]
pub enum StoreRequest {
    /// The paths of its files.
    List,
    /// A file.
    Read,
    /// That a file is made or written.
    Write,
    /// That a file is removed.
    Remove,
    /// A barrier.
    Sync,
}

/// What is done beside the calls of a store.
pub trait Watcher {
    /// Before a call that asks for this.
    fn before(&self, alloc: Global, asked: StoreRequest);

    /// After a call that succeeded, with how many paths it listed, if it did.
    fn after(&self, alloc: Global, listed: Option<usize>);
}

/// Passes each call on to the store inside, and notifies the watcher.
#[derive(Drop)]
pub struct WatchedStore<'a, S: Store + Drop, W: Watcher> {
    inner: S,
    watcher: &'a W,
}

impl<'a, S: Store + Drop, W: Watcher> WatchedStore<'a, S, W> {
    /// A store over this one.
    pub fn new(inner: S, watcher: &'a W) -> WatchedStore<'a, S, W>
        ensures { result.inner ≡ inner }
    {
        WatchedStore { inner, watcher }
    }

    /// Gives the store inside back.
    pub fn into_inner(self) -> S
        ensures { result ≡ self.entry.inner }
    {
        self.inner
    }
}

// Notifies the watcher of each of these writes.
fn announce<W: Watcher>(alloc: Global, watcher: &W, writes: &[FileWrite]) {
    for write in writes {
        let asked = match write.file {
            Some(_) => StoreRequest::Write,
            None => StoreRequest::Remove,
        };
        watcher.before(alloc, asked);
    }
}

impl<S: Store + Drop, W: Watcher> Store for WatchedStore<'_, S, W> {
    ghost files = { λ store. S.files store.inner };

    ghost crash_states = { λ store. S.crash_states store.inner };

    ghost failures = { λ store. S.failures store.inner };

    ghost written = { λ store. S.written store.inner };

    ghost mutations = { λ store. S.mutations store.inner };

    ghost honest = { λ store. S.honest store.inner };

    fn list<P: Pruning>(
        &mut self,
        alloc: Global,
        folders: &[PathText],
        pruning: &P,
    ) -> Result<Vec<PathText>, StoreFault> {
        self.watcher.before(alloc, StoreRequest::List);
        let paths = self.inner.list(alloc, folders, pruning)?;
        self.watcher.after(alloc, Some(paths.len()));
        Ok(paths)
    }

    fn read(
        &mut self,
        alloc: Global,
        path: &PathText,
        limit: usize,
    ) -> Result<Reading, StoreFault> {
        self.watcher.before(alloc, StoreRequest::Read);
        let reading = self.inner.read(alloc, path, limit)?;
        self.watcher.after(alloc, None);
        Ok(reading)
    }

    fn put_parts(
        &mut self,
        alloc: Global,
        path: &PathText,
        parts: Pieces,
    ) -> Result<(), StoreFault> {
        self.watcher.before(alloc, StoreRequest::Write);
        self.inner.put_parts(alloc, path, parts)?;
        self.watcher.after(alloc, None);
        Ok(())
    }

    fn remove(&mut self, alloc: Global, path: &PathText) -> Result<(), StoreFault> {
        self.watcher.before(alloc, StoreRequest::Remove);
        self.inner.remove(alloc, path)?;
        self.watcher.after(alloc, None);
        Ok(())
    }

    fn write_all(&mut self, alloc: Global, writes: &[FileWrite]) -> Result<(), StoreFault> {
        announce(alloc, self.watcher, writes);
        self.inner.write_all(alloc, writes)?;
        self.watcher.after(alloc, None);
        Ok(())
    }

    fn sync(&mut self, alloc: Global, changes: &[Change]) -> Result<(), StoreFault> {
        self.watcher.before(alloc, StoreRequest::Sync);
        self.inner.sync(alloc, changes)?;
        self.watcher.after(alloc, None);
        Ok(())
    }

    ghost files_in_crash_states = { λ store. S.files_in_crash_states store.inner };

    ghost are_files = { λ store honest. S.are_files store.inner honest };
}
