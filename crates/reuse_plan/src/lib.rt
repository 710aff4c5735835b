//! Plans a command: finds what it would do at each path of the tree, and changes nothing.
//!
//! One walk (`walk`) goes over the selected paths and makes a `PathPlan` of each. The changes of a
//! run and what a preview reports are made of these plans (`run`), so that nothing is decided
//! twice. A plan only reads the store, and says what the definitions in `specs/` give on the whole
//! tree. Sessions call it, and nobody else. The calls are tested by `tests/sessions`.
#![tactic(auto)]

mod add_styles;
mod convert;
pub mod counts;
mod download;
mod file_task;
mod planned;
mod revert;
pub mod run;
mod select;
mod skipped_folders;
mod styles;
mod tree_paths;
pub mod unused;
mod walk;
