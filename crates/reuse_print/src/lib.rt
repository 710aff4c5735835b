//! The answer of a session in lines or as JSON objects, and what it is written to.
//!
//! Each text is made of values alone, and `output` says what the writer took. A call that fails is
//! reported with the cause that was met. The program calls it.
//! Tested by `dry_run.sh`, `show_and_revert.sh` and `refusals.sh` in `tests/`.
#![tactic(auto)]

pub mod advice;
pub mod fault;
pub mod found_names;
pub mod lines;
pub mod names;
pub mod objects;
pub mod output;
pub mod ready_left;
mod rows;
