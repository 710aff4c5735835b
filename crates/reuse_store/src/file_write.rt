//! What a path is to hold.
use reuse_change::{PathText, Pieces};

/// A file that is to be made or written, or removed.
#[derive(Clone, Copy)]
pub struct FileWrite<'a> {
    /// Its path.
    pub path: &'a PathText,
    /// Its bytes, or none where it is to be removed.
    pub file: Option<Pieces<'a>>,
}
