//! The calls of the system, which only contracts see.
ghost use Rattle.std.specs.Prelude.{◌≡◌, ℕ, Bool, List, [], ◌∷◌};
ghost use Rattle.std.specs.Borrow.{ftrue};
ghost use Rattle.std.specs.Coded.{coded_list, coded_ℕ, coded_bool, coded×};
ghost use Rattle.reuse_system.specs.FileStates.{Place, place_in};
ghost use Rattle.reuse_system.specs.SystemCall.{SystemCall};
ghost use Rattle.reuse_system.specs.SystemCall.SystemCall.{ReadCall};

use crate::fault::FolderFault;
use crate::place::{Found, Identity};
use crate::system::new_status::NewStatus;
use reuse_record::Record;
use reuse_store::Reading;
use std::marker::{Model, PhantomData};

/// Which call was made, on which folders or on which of the files that were made, and whether it
/// answered that it was done.
#[derive(Clone, Copy)]
pub enum CallKind {
    /// A file was to be made in this folder.
    Make(Identity, bool),
    /// Bytes were to be written to the end of this file.
    Append(u64, bool),
    /// The bytes of this file were to be made durable.
    Sync(u64, bool),
    /// A name in the first folder was to become one in the second, for a file of which this is known.
    Rename(Identity, Identity, NewStatus, bool),
    /// A file of which this is known has a name in the first folder, and was to get one in the
    /// second, too.
    Link(Identity, Identity, NewStatus, bool),
    /// A name in this folder was to be removed.
    Remove(Identity, bool),
    /// A name in this folder was looked at, and this was reported of it.
    Look(Identity, Result<Found, FolderFault>),
    /// The root was opened, and it is this folder.
    Root(Identity),
    /// A name in the first folder was opened, and it is the second one.
    Open(Identity, Identity),
    /// A name in this folder was to be opened, and this was reported in place of a folder.
    NoFolder(Identity, Found),
    /// A folder was to be made in this one.
    MakeFolder(Identity, bool),
    /// A folder in this one was to be removed.
    RemoveFolder(Identity, bool),
    /// The names in this folder were to be made durable.
    SyncFolder(Identity, bool),
}

/// What a record of the system's calls reports: the folders and the files at the start, the effects
/// of the calls to come, and the calls since then with their answers, the newest first.
pub struct SystemCalls {
    marker: PhantomData<u8>,
    pub ghost folders: { (ℕ × ℕ) × (List (Place × (ℕ × ℕ)) × List Place) } by { coded× (coded× coded_ℕ coded_ℕ) (coded×
        (coded_list (coded× (coded_list coded_ℕ) (coded× coded_ℕ coded_ℕ))) (coded_list (coded_list coded_ℕ))) },
    pub ghost files: { List (Place × (ℕ × (List ℕ × Bool))) } by { coded_list
        (coded× (coded_list coded_ℕ) (coded× coded_ℕ (coded× (coded_list coded_ℕ) coded_bool))) },
    pub ghost effects: { List ℕ } by { coded_list coded_ℕ },
    pub ghost calls: { List SystemCall },
}

impl Model for SystemCalls {
    ghost also_owns = { λ _. ftrue };
}

/// A record of the system's calls. It takes no bytes, and nothing runs.
#[derive(Drop)]
pub struct SystemRecord {
    reported: Record<SystemCalls>,
}

impl Model for SystemRecord {
    ghost use Rattle.reuse_system.specs.declared.system.record.SystemCalls.{SystemCalls};
    ghost use Rattle.reuse_system.specs.contracts.system.record.SystemCalls.{the_row};

    ghost Value = { SystemCalls };

    ghost coded = { the_row.coded };

    ghost view = { λ calls. calls.reported };
}

impl SystemRecord {
    ghost use Rattle.reuse_system.specs.SystemCalls.{SystemStart, call_of};

    /// A record of no calls, with any folders and files at the start and any effects of the calls
    /// to come.
    pub fn new() -> SystemRecord
        ghost start: { SystemStart }
        ensures { (result.folders ≡ start.folders) × (result.files ≡ start.files) × (result.effects ≡ start.effects)
            × (result.calls ≡ []) }
    {
        SystemRecord {
            reported: Record::new(),
        }
    }

    /// Notes a call by its kind, and the names or the bytes that this kind has.
    pub fn note(&mut self, kind: &CallKind, first: &[u8], second: &[u8])
        ensures { self.new ≡ record self.old { calls = call_of kind.now first.now second.now ∷ self.old.calls } }
    {
        self.reported.note(kind, &(first, second));
    }

    /// Notes that a file of this name was read, and the answer.
    pub fn note_read(
        &mut self,
        folder: Identity,
        name: &str,
        said: u64,
        limit: usize,
        answer: &Result<Reading, FolderFault>,
    )
        ensures { self.new
            ≡ record self.old { calls = ReadCall (place_in folder name.now) said limit answer.now ∷ self.old.calls } }
    {
        self.reported.note(&(folder, name, said, limit), answer);
    }
}
