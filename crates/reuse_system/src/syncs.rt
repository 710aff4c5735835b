//! Whether what is written is synced.

/// Whether what is written is made durable.
#[derive(Clone, Copy, Debug, PartialEq, Eq)]
pub enum Syncs {
    /// Each new file is synced, and at barriers each folder that got or lost a name.
    Kept,
    /// Nothing is synced.
    LeftOut,
}
