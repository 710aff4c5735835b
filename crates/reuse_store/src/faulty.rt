//! A store whose calls fail from some call on, or at one call alone.
ghost use Rattle.std.specs.Prelude.{◌≡◌, ◌≤◌, ◌+◌, ◌↔◌, IsTrue, Some};
ghost use Rattle.reuse_store.specs.FaultyStore.{left_after};
ghost use Rattle.reuse_change.specs.Parts.{joined};

use crate::{CallRecord, Reading, Store, StoreFault};
use reuse_change::{Change, PathText, Pieces, Pruning};
use std::alloc::Global;

/// A store that passes some calls on to the one inside, and then fails the next with `Device`: each
/// from there on where faults stay, and else that one alone. The first put or removal that fails
/// takes effect where `takes_effect` says so: it is passed on, whatever is answered inside.
#[derive(Drop)]
pub struct FaultyStore<S: Store + Drop, const STAYS: bool> {
    inner: S,
    // How many calls until the next one that fails; none where no more fails.
    left: Option<u64>,
    takes_effect: bool,
    // The calls that failed here. One that took effect is not among them as a put or a removal: the
    // store inside counts it.
    failed: CallRecord,
}

/// Fails each call from some call on.
pub type FuseStore<S> = FaultyStore<S, true>;

/// Fails one call.
pub type OnceStore<S> = FaultyStore<S, false>;

impl<S: Store + Drop, const STAYS: bool> FaultyStore<S, STAYS> {
    ghost use Rattle.std.specs.Prelude.{false};
    ghost use Rattle.reuse_store.specs.Calls.{failures_of, written_of, mutations_of};

    /// Passes `left` calls on, and then fails.
    pub fn new(inner: S, left: u64, takes_effect: bool) -> FaultyStore<S, STAYS>
        ensures files { ⟦<FaultyStore<S, STAYS> as Store>⟧.files result ≡ S.files inner }
        ensures failures { ⟦<FaultyStore<S, STAYS> as Store>⟧.failures result ≡ S.failures inner }
        ensures written { ⟦<FaultyStore<S, STAYS> as Store>⟧.written result ≡ S.written inner }
        ensures mutations { ⟦<FaultyStore<S, STAYS> as Store>⟧.mutations result ≡ S.mutations inner }
        ensures honest { ⟦<FaultyStore<S, STAYS> as Store>⟧.honest result ↔ S.honest inner }
        ensures burns { (result.inner ≡ inner) × (result.left ≡ Some left) × (result.takes_effect ≡ takes_effect) }
    {
        FaultyStore {
            inner,
            left: Some(left),
            takes_effect,
            failed: CallRecord::new(),
        }
    }

    /// Gives the store inside back, which knows nothing of the failures here.
    pub fn into_inner(self) -> S
        ensures files { S.files result ≡ ⟦<FaultyStore<S, STAYS> as Store>⟧.files self }
        ensures failures { S.failures result ≤ ⟦<FaultyStore<S, STAYS> as Store>⟧.failures self }
        ensures written { S.written result ≤ ⟦<FaultyStore<S, STAYS> as Store>⟧.written self }
        ensures mutations { S.mutations result ≤ ⟦<FaultyStore<S, STAYS> as Store>⟧.mutations self }
        ensures honest { S.honest result ↔ ⟦<FaultyStore<S, STAYS> as Store>⟧.honest self }
        ensures inner { result ≡ self.inner }
    {
        self.inner
    }

    // Fails a put or a removal that was passed on. No further one takes effect. It is noted as a
    // listing that failed, since the store inside has counted the call and its bytes.
    fn fail_with_effect(&mut self) -> Result<(), StoreFault>
        ensures answer { result ≡ Err StoreFault.Device }
        ensures kept { (self.new.inner ≡ self.old.inner) × (self.new.left ≡ self.old.left)
            × (self.new.takes_effect ≡ false) }
        ensures failures { failures_of self.new.failed.calls ≡ failures_of self.old.failed.calls + 1 }
        ensures counts { (written_of self.new.failed.calls ≡ written_of self.old.failed.calls)
            × (mutations_of self.new.failed.calls ≡ mutations_of self.old.failed.calls) }
    {
        self.takes_effect = false;
        self.failed.note_list(&[], &Err(StoreFault::Device));
        Err(StoreFault::Device)
    }
}

// Counts a call down, and says whether it is one that fails.
fn is_due(left: &mut Option<u64>, stays: bool) -> bool
    ensures expected { IsTrue result ↔ (left.old ≡ Some 0) }
    ensures counted { left.new ≡ left_after stays left.old }
{
    match *left {
        None => false,
        Some(0) => {
            if !stays {
                *left = None;
            }
            true
        }
        Some(calls) => {
            *left = Some(calls - 1);
            false
        }
    }
}

impl<S: Store + Drop, const STAYS: bool> Store for FaultyStore<S, STAYS> {
    ghost use Rattle.std.specs.Prelude.{◌≢◌, MatchResult, IfOk};
    ghost use Rattle.std.specs.FinMap as map;
    ghost use Rattle.reuse_store.specs.Store.{reading_of};
    ghost use Rattle.reuse_change.specs.Listing.{listed_paths};
    ghost use Rattle.reuse_store.specs.Asked.{OnlyReads, IsLater, FailsAsRead, IsPut, IsRemoval, IsBarrier};
    ghost use Rattle.reuse_store.specs.FaultyStore.{with_faults, ReadsWithFaults, WritesWithFaults};

    ghost files = { (with_faults S.Store).files };

    ghost crash_states = { (with_faults S.Store).crash_states };

    ghost failures = { (with_faults S.Store).failures };

    ghost written = { (with_faults S.Store).written };

    ghost mutations = { (with_faults S.Store).mutations };

    ghost honest = { (with_faults S.Store).honest };

    fn list<P: Pruning>(
        &mut self,
        alloc: Global,
        folders: &[PathText],
        pruning: &P,
    ) -> Result<Vec<PathText>, StoreFault>
        ensures kept { S.honest self.old.inner
            → MatchResult result
            (λ paths. paths.items ≡ listed_paths (S.files self.old.inner) folders.now (P.prunes pruning.now)
            → S.honest self.new.inner) (λ fault. fault ≢ StoreFault.Clash → S.honest self.new.inner) }
        ensures paths { S.honest self.new.inner → IfOk result
            (λ paths. paths.items ≡ listed_paths (S.files self.old.inner) folders.now (P.prunes pruning.now)) }
        ensures fails { FailsAsRead (with_faults S.Store) self.old self.new result }
        ensures reads { OnlyReads (with_faults S.Store) self.old self.new }
        ensures asks { ReadsWithFaults STAYS self.old self.new result }
    {
        if !is_due(&mut self.left, STAYS) {
            return self.inner.list(alloc, folders, pruning);
        }
        let answer = Err(StoreFault::Device);
        self.failed.note_list(folders, &answer);
        answer
    }

    fn read(&mut self, alloc: Global, path: &PathText, limit: usize) -> Result<Reading, StoreFault>
        ensures kept { S.honest self.old.inner
            → MatchResult result (λ reading. reading ≡ reading_of (map.get (S.files self.old.inner) path.now) limit
            → S.honest self.new.inner) (λ fault. fault ≢ StoreFault.Clash → S.honest self.new.inner) }
        ensures reading { S.honest self.new.inner
            → IfOk result (λ reading. reading ≡ reading_of (map.get (S.files self.old.inner) path.now) limit) }
        ensures fails { FailsAsRead (with_faults S.Store) self.old self.new result }
        ensures reads { OnlyReads (with_faults S.Store) self.old self.new }
        ensures asks { ReadsWithFaults STAYS self.old self.new result }
    {
        if !is_due(&mut self.left, STAYS) {
            return self.inner.read(alloc, path, limit);
        }
        let answer = Err(StoreFault::Device);
        self.failed.note_read(path, limit, &answer);
        answer
    }

    fn put_parts(&mut self, alloc: Global, path: &PathText, parts: Pieces) -> Result<(), StoreFault>
        ensures puts { IsPut (with_faults S.Store) path.now (joined parts.entry) self.old self.new result }
        ensures later { IsLater (with_faults S.Store) self.old self.new }
        ensures makes { WritesWithFaults STAYS (IsPut S.Store path.now (joined parts.entry)) self.old self.new result }
    {
        if !is_due(&mut self.left, STAYS) {
            return self.inner.put_parts(alloc, path, parts);
        }
        if self.takes_effect {
            let _ = self.inner.put_parts(alloc, path, parts);
            return self.fail_with_effect();
        }
        let answer = Err(StoreFault::Device);
        self.failed.note_put_parts(path, parts, &answer);
        answer
    }

    fn put(&mut self, alloc: Global, path: &PathText, bytes: &[u8]) -> Result<(), StoreFault>
        ensures puts { IsPut (with_faults S.Store) path.now bytes.now self.old self.new result }
        ensures later { IsLater (with_faults S.Store) self.old self.new }
        ensures makes { WritesWithFaults STAYS (IsPut S.Store path.now bytes.now) self.old self.new result }
    {
        self.put_parts(alloc, path, Pieces::whole(bytes))
    }

    fn remove(&mut self, alloc: Global, path: &PathText) -> Result<(), StoreFault>
        ensures removes { IsRemoval (with_faults S.Store) path.now self.old self.new result }
        ensures later { IsLater (with_faults S.Store) self.old self.new }
        ensures makes { WritesWithFaults STAYS (IsRemoval S.Store path.now) self.old self.new result }
    {
        if !is_due(&mut self.left, STAYS) {
            return self.inner.remove(alloc, path);
        }
        if self.takes_effect {
            let _ = self.inner.remove(alloc, path);
            return self.fail_with_effect();
        }
        let answer = Err(StoreFault::Device);
        self.failed.note_remove(path, &answer);
        answer
    }

    fn sync(&mut self, alloc: Global, changes: &[Change]) -> Result<(), StoreFault>
        ensures barrier { IsBarrier (with_faults S.Store) changes.now self.old self.new result }
        ensures fails { FailsAsRead (with_faults S.Store) self.old self.new result }
        ensures reads { OnlyReads (with_faults S.Store) self.old self.new }
        ensures asks { ReadsWithFaults STAYS self.old self.new result }
    {
        if !is_due(&mut self.left, STAYS) {
            return self.inner.sync(alloc, changes);
        }
        let answer = Err(StoreFault::Device);
        self.failed.note_sync(changes, &answer);
        answer
    }

    ghost files_in_crash_states = { λ store. S.files_in_crash_states store.inner };

    ghost are_files = { λ store honest. S.are_files store.inner honest };
}
