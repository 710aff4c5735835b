//! The calls of a store, which only contracts see.
ghost use Rattle.std.specs.Prelude.{◌≡◌, ℕ, Bool, List, [], ◌∷◌};
ghost use Rattle.std.specs.Borrow.{ftrue};
ghost use Rattle.std.specs.FinMap as map;
ghost use Rattle.std.specs.Coded.{coded_list, coded_ℕ, coded_bool};
ghost use Rattle.reuse_change.specs.Files.{Files};
ghost use Rattle.reuse_change.specs.Parts.{joined};
ghost use Rattle.std.specs.Result.{result_map_both};
ghost use Rattle.reuse_store.specs.Calls.{Call, Start, took_effect};
ghost use Rattle.reuse_store.specs.Calls.Call.{ListCall, ReadCall, PutCall, RemoveCall, SyncCall};

use crate::{Reading, StoreFault};
use reuse_change::{Change, PathText, Pieces};
use reuse_record::Record;
use std::marker::{Model, PhantomData};

/// What a record of a store's calls reports: the files that the store had at the start, what else a
/// loss of power might leave then, which of the calls that fail take effect, and the calls since
/// then with their answers, the newest first. No code can know the first three: they are given as
/// ghost values, and the contract holds at every one.
pub struct StoreCalls {
    marker: PhantomData<u8>,
    pub ghost start: { Files } by { map.code (coded_list coded_ℕ) (coded_list coded_ℕ) },
    pub ghost initial_crash_states: { List Files } by { coded_list
        (map.code (coded_list coded_ℕ) (coded_list coded_ℕ)) },
    pub ghost effects: { List Bool } by { coded_list coded_bool },
    pub ghost calls: { List Call },
}

impl Model for StoreCalls {
    ghost also_owns = { λ _. ftrue };
}

/// A record of a store's calls. It takes no bytes, and nothing runs.
#[derive(Drop)]
pub struct CallRecord {
    reported: Record<StoreCalls>,
}

impl Model for CallRecord {
    ghost use Rattle.reuse_store.specs.declared.record.StoreCalls.{StoreCalls};
    ghost use Rattle.reuse_store.specs.contracts.record.StoreCalls.{the_row};

    ghost Value = { StoreCalls };

    ghost coded = { the_row.coded };

    ghost view = { λ calls. calls.reported };
}

impl CallRecord {
    /// A record of no calls, with any files at the start and any effects of the calls that will
    /// fail.
    pub fn new() -> CallRecord
        ghost start: { Start }
        ensures { (result.start ≡ start.files) × (result.initial_crash_states ≡ start.initial_crash_states)
            × (result.effects ≡ start.effects)
            × (result.calls ≡ []) }
    {
        CallRecord {
            reported: Record::new(),
        }
    }

    /// Notes a call of `list` for these folders and its answer. Which folders it was to pass over
    /// is a ghost value: the contract holds at every one.
    pub fn note_list(&mut self, folders: &[PathText], answer: &Result<Vec<PathText>, StoreFault>)
        ghost pruned: { List (List ℕ) }
        ensures { self.new ≡ record self.old {
          calls = ListCall folders.now pruned
              (result_map_both (λ paths. paths.items) (λ fault. fault) answer.now) ∷ self.old.calls;
        } }
    {
        self.reported.note(&folders, answer);
    }

    /// Notes a call of `read` and its answer.
    pub fn note_read(&mut self, path: &PathText, limit: usize, answer: &Result<Reading, StoreFault>)
        ensures { self.new ≡ record self.old { calls = ReadCall path.now limit answer.now ∷ self.old.calls } }
    {
        self.reported.note(&(path, limit), answer);
    }

    /// Notes that the path was to be made these parts joined, and the answer. Whether a put that
    /// failed took effect is its effect.
    pub fn note_put_parts(
        &mut self,
        path: &PathText,
        parts: Pieces,
        answer: &Result<(), StoreFault>,
    )
        ensures { self.new ≡ record self.old {
          calls = PutCall path.now (joined parts.entry) answer.now
              (took_effect self.old.effects self.old.calls) ∷ self.old.calls;
        } }
    {
        self.reported.note(&(path, answer), &parts);
    }

    /// Notes a call of `remove` and its answer. Whether one that failed took effect is its effect.
    pub fn note_remove(&mut self, path: &PathText, answer: &Result<(), StoreFault>)
        ensures { self.new ≡ record self.old {
          calls = RemoveCall path.now answer.now
              (took_effect self.old.effects self.old.calls) ∷ self.old.calls;
        } }
    {
        self.reported.note(path, answer);
    }

    /// Notes a barrier and its answer.
    pub fn note_sync(&mut self, changes: &[Change], answer: &Result<(), StoreFault>)
        ensures { self.new ≡ record self.old { calls = SyncCall changes.now answer.now ∷ self.old.calls } }
    {
        self.reported.note(&changes, answer);
    }
}
