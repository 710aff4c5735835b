//! Words of a header: texts of a comment beside its tags.
#![tactic(auto)]

mod adding;
mod amending;
mod file_laws;
mod information;
mod laws;
mod lists;
mod refusal;
mod removal;
mod runs;
mod text;
mod words;

pub use adding::{annotate_file_with, annotate_neighbour_with};
pub use amending::{amend_file_without, amend_neighbour_without};
pub use file_laws::{
    added_texts_are_written, added_texts_make_texts, adding_texts_keeps_other_bytes,
    no_texts_add_nothing, removals_fit, removals_keep_other_bytes, text_annotations_fit,
    texts_alone_are_taken_out, texts_keep_tags,
};
pub use laws::{
    all_texts_are_added_once, first_runs_are_taken_out, runs_are_first, texts_are_added_once,
    texts_have_no_tags,
};
pub use refusal::TextHeaderRefusal;
pub use removal::{NeighbourChange, remove_header, remove_neighbour_header};
pub use runs::{Run, holds_text, run_of, with_text, without_text};
pub use text::{HeaderText, LONGEST_TEXT, TextRefusal};
pub use words::is_same_text;
