//! Numbers of entries.
use crate::fixed_list::FixedList;

/// Numbers of entries, in order.
pub type EntryNumbers = FixedList<u32>;
