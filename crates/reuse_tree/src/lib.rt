//! The texts of the journal. The changes, stores and entries that they stand on are handed on.
#![tactic(auto)]

pub mod journal;

pub use journal::{
    Changes, DecodeFault, Entry, EntryChanges, EntryNumbers, Head, Pending, PendingDirection,
    decode_entry, decode_head, encode_entry, encode_head, is_too_many,
};
pub use reuse_change::{
    Change, ChangeState, CommandName, Digest, Direction, FixedList, Moment, NoPruning, PathError,
    PathText, Pieces, Pruning, Seal, is_among, is_clash, is_folder, is_pruned, is_wanted,
    paths_beneath,
};
pub use reuse_store::{
    CallRecord, Cause, FaultyStore, FileWrite, FuseStore, MemoryStore, OnceStore, Reading, Store,
    StoreFault, StoreRequest, WatchedStore, Watcher, apply_change, apply_changes, is_clash_at,
    is_folder_at, laws,
};
