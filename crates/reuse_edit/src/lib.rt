//! What a command does at one path: the changes that it makes of a file and its neighbour there.
//!
//! A file and its neighbour are read, and one `PathPlan` is made of them (`annotate`, `amend`).
//! Nothing here walks over a tree, and nothing is put. The plan of a command (reuse_plan) calls it
//! for each path, and nobody else. The calls are tested by `tests/sessions`.
#![tactic(auto)]

pub mod amend;
mod amend_text;
pub mod annotate;
pub mod annotation;
pub mod covered;
mod edit;
pub mod left;
pub mod licence_file;
pub mod licence_id;
pub mod path_plan;
pub mod place;
mod remove;
pub mod target;
mod target_choice;
