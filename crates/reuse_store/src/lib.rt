//! The store that holds a tree of files, and changes made in it.
#![tactic(auto)]

pub mod apply_change;
pub mod apply_changes;
mod at_path;
mod cause;
mod fault;
mod faulty;
mod file_map;
mod file_write;
pub mod laws;
mod memory;
mod record;
mod store;
mod watched;

pub use at_path::{is_clash_at, is_folder_at};
pub use cause::Cause;
pub use fault::StoreFault;
pub use faulty::{FaultyStore, FuseStore, OnceStore};
pub use file_write::FileWrite;
pub use memory::MemoryStore;
pub use record::CallRecord;
pub use store::{Reading, Store};
pub use watched::{StoreRequest, WatchedStore, Watcher};
