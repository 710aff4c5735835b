//! Whether a folder above the root is the root of a tree too. It is looked for by names alone, and
//! only for a note. `diagnostics` calls it. Tested by `tests/notes.sh`.
use reuse_change::layout::JOURNAL;
use std::alloc::{AllocError, Global};
use std::fs;
use std::rt::Files;

/// Whether the folder has a journal.
pub fn has_journal(rt: &impl Files, alloc: Global, folder: &str) -> Result<bool, AllocError> {
    let mut path = String::from_str(alloc, folder)?;
    path.push_str("/")?;
    path.push_str(JOURNAL)?;
    match fs::symlink_metadata(rt, path.as_str()) {
        Ok(found) => Ok(found.is_dir()),
        Err(_) => Ok(false),
    }
}

/// The nearest folder above this absolute path that has a journal.
fn nearest(rt: &impl Files, alloc: Global, path: &str) -> Result<Option<String>, AllocError> {
    for (end, _) in path.rmatch_indices('/') {
        let folder = path.get(..end.max(1)).unwrap_or("/");
        if has_journal(rt, alloc, folder)? {
            return Ok(Some(String::from_str(alloc, folder)?));
        }
    }
    Ok(None)
}

/// The nearest folder above the root that has a journal, as an absolute path; none for an
/// allocation failure too.
pub fn journal_above<R: Files + AllocGlobal>(rt: &R, alloc: Global, root: &str) -> Option<String> {
    match fs::canonicalize(rt, root) {
        Ok(path) => nearest(rt, alloc, path.as_str()).unwrap_or(None),
        Err(_) => None,
    }
}
