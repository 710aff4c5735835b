//! The `REUSE.toml` of a project (REUSE Specification 3.3, "REUSE.toml"): its globs, its strings,
//! and how its notices and licences are amended.
#![tactic(auto)]

mod characters;
mod glob;
mod glob_laws;
mod glob_text;
mod toml_change;
mod toml_judge;
mod toml_laws;
mod toml_pieces;
mod toml_places;
mod toml_text;
mod toml_values;

pub use characters::split_first_char;
pub use glob::{Glob, GlobPiece, glob_matches};
pub use glob_laws::{glob_text_is_read_back, globs_are_decided};
pub use glob_text::written_glob;
pub use toml_change::{TomlSplice, amend_toml};
pub use toml_laws::{amended_files_are_read_as_amended_tables, toml_texts_are_their_pieces};
pub use toml_text::push_quoted;
pub use toml_values::AmendTomlRefusal;
