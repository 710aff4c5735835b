//! The pieces of the journal's texts: JSON that is taken apart and written, and what an entry is.
#![tactic(auto)]

mod entry;
mod entry_changes;
mod fault;
pub mod fields;
mod json_number;
pub mod json_writing;
mod length_limit;
mod small_hex;
pub mod trimmed;
mod written_text;

pub use entry::{Changes, Entry};
pub use entry_changes::EntryChanges;
pub use fault::DecodeFault;
pub use length_limit::LengthLimit;
pub use written_text::WrittenText;
