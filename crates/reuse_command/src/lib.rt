//! The values that go into a session and come out of it: commands, requests, replies, refusals and
//! what is reported of each path.
//!
//! A refusal that is a failure, since the store or memory is to blame, is one by type. Planning,
//! the journal and sessions stand on this crate, and callers outside get its types from
//! `reuse_session`. The texts of refusals are tested by `tests/refusals.sh`.
#![tactic(auto)]

pub mod amend_fault;
pub mod choice;
pub mod command;
pub mod failure;
pub mod header_fault;
pub mod known_path;
pub mod licence;
pub mod path_outcome;
pub mod reply;
pub mod request;
