//! The texts of the journal: its head and its entries as JSON, and back.
mod changes_reading;
mod entry_checks;
mod entry_reading;
mod entry_writing;
mod head;
mod head_text;
pub mod laws;
mod written_entry;

pub use entry_reading::decode_entry;
pub use entry_writing::encode_entry;
pub use head::{Head, Pending, PendingDirection};
pub use head_text::{decode_head, encode_head};
pub use reuse_change::{EntryNumbers, is_too_many};
pub use reuse_json::{Changes, DecodeFault, Entry, EntryChanges};
