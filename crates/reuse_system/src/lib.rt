//! The system's calls on files and folders, as a trait with laws and as the host has them.
//!
//! A folder is open by a handle, and no link below it is followed. Each call is noted with its
//! answer, and what is said of names that lead to files holds as long as nobody else writes in the
//! folders. The crate also says whose files are and which names are no part of a tree. Tested by
//! `fail_system_calls.sh`, `owners.sh` and `nested_trees.sh` in `tests/`.
#![tactic(auto)]

mod bare;
pub mod fault;
mod file_reading;
pub mod handle;
pub mod ignored;
pub mod new_name;
pub mod owner;
pub mod parts_writer;
pub mod place;
pub mod process;
pub mod reading;
pub mod syncs;
pub mod system;
