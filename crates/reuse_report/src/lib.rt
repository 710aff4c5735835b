//! What a run reads and reports beside its one call: the licence texts and the tree around it, what
//! notes need to know, and then the answer with its diff, the notes and the status.
//!
//! No session is opened here, and nothing of a tree is changed. The program calls it.
//! Tested by `dry_run.sh`, `notes.sh`, `refusals.sh` and `words.sh` in `tests/`.
#![tactic(auto)]

mod above;
pub mod access_refusal;
pub mod around;
mod damage;
pub mod diagnostics;
pub mod drawn;
mod notes;
pub mod printed;
pub mod reads;
pub mod report;
pub mod run_result;
pub mod status;
pub mod texts;
pub mod unrecognised;
mod walk_notes;
