//! The journal: the head and the entries in `.reuse/undo`, and the steps that they record.
//!
//! A change of the tree is made between two heads: the first names it as pending, the last lists
//! it. So after a stop the files are those before the step or those after it, or an opening rolls
//! it back. Sessions call this crate, and `recover` is for callers outside. `tests/sessions` stops
//! each call of a store, and takes each file away.
#![tactic(auto)]

pub mod files;
pub mod history;
pub mod opening;
pub mod prepare;
pub mod recovery;
mod roll_back;
pub mod step;
