//! The command line: from the words that the program was called with to what they ask for.
//!
//! clap reads them by tables (`options`, `subcommands`), with the help that stands there. What it
//! found is read here into a line (`line`), or into the first mistake. Nothing here changes a file,
//! and only a list of files and the texts of headers are read. The root of the program calls it.
//! Tested by `words.sh`, `options.sh`, `choose.sh`, `header_texts.sh` and `completions.sh` in
//! `tests/`.
#![tactic(auto)]

pub mod advice;
mod amend_options;
mod arguments;
mod context;
pub mod file_list;
mod glob_word;
pub mod header_texts;
mod help;
pub mod line;
mod options;
mod place_word;
mod prefix_name;
pub mod request;
pub mod settings;
mod shared_options;
mod styles_options;
mod subcommands;
pub mod words;
