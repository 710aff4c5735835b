//! What a folder as a store is made of: the folders that are open below a root, listings, new files
//! and syncs.
//!
//! A folder is opened through the one above it, and no link is followed. A file is written to a
//! temporary file, synced and renamed. Tested by `closed_folders.sh`, `races.sh`, `syncs.sh`,
//! `owners.sh` and
//! `fail_system_calls.sh` in `tests/`.
#![tactic(auto)]

mod disk_system;
mod empty_folders;
mod listing;
mod mounted_folders;
mod naming;
mod new_file;
mod open_folders;
mod start_folder;
mod syncs;

pub use disk_system::DiskSystem;
pub use empty_folders::remove_folders;
pub use listing::{Listing, list_below};
pub use mounted_folders::MountedFolders;
pub use naming::{Target, name_temp_file, remove_seen};
pub use new_file::{Content, NewFile, Wanted};
pub use open_folders::OpenFolders;
pub use syncs::Unsynced;
