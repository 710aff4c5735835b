//! What is shown on a terminal or in a file: names, dates, lines of our own, and how far work is.
//!
//! A name is shown so that it can't move a terminal's cursor, and the line of progress is cleared
//! before any other. What a writer was given is a text of each thing, one behind the other. All
//! that prints stands on it, and the command line for the year. Tested by `notes.sh` in `tests/`.
#![tactic(auto)]

pub mod date;
pub mod error_output;
pub mod progress;
pub mod shown_name;
