//! The tree around the working folder: the nearest folder, from that one upwards, that has a
//! journal's folder or is one of git. The root of the program calls it. Tested by `tests/up.sh`.

use reuse_arguments::line::LineFault;
use std::alloc::{AllocError, Global};
use std::fs;
use std::rt::Files;

/// What the root of a tree has, one of the two: files of ours, or of git.
const MARKS: &[&str] = &[".reuse", ".git"];

/// The tree around the working folder.
#[derive(Drop)]
pub struct SurroundingTree {
    /// Its root, as an absolute path.
    pub root: String,
    /// The path of the working folder in it, or `.` for the root.
    pub folder: String,
}

/// The tree around the working folder, or a fault where there is none.
pub fn surrounding_tree<R: Files + AllocGlobal>(
    rt: &R,
    alloc: Global,
) -> Result<SurroundingTree, LineFault> {
    match fs::canonicalize(rt, ".") {
        Ok(working) => nearest(rt, alloc, working.as_str()),
        Err(_) => Err(LineFault::NoTree),
    }
}

/// The nearest root at or above this absolute path of a folder.
fn nearest(rt: &impl Files, alloc: Global, working: &str) -> Result<SurroundingTree, LineFault> {
    if is_root(rt, alloc, working)? {
        return found(alloc, working, "");
    }
    for (end, _) in working.rmatch_indices('/') {
        let root = working.get(..end.max(1)).unwrap_or("/");
        if is_root(rt, alloc, root)? {
            return found(alloc, root, working.get(end + 1..).unwrap_or(""));
        }
    }
    Err(LineFault::NoTree)
}

fn found(alloc: Global, root: &str, behind: &str) -> Result<SurroundingTree, LineFault> {
    Ok(SurroundingTree {
        root: String::from_str(alloc, root)?,
        folder: String::from_str(alloc, or_root(behind))?,
    })
}

/// The path of a folder in a tree, of which nothing is the root.
fn or_root(path: &str) -> &str {
    if path.is_empty() { "." } else { path }
}

fn is_root(rt: &impl Files, alloc: Global, folder: &str) -> Result<bool, AllocError> {
    for mark in MARKS {
        if has_name(rt, alloc, folder, mark)? {
            return Ok(true);
        }
    }
    Ok(false)
}

/// Whether the folder has something of this name.
fn has_name(rt: &impl Files, alloc: Global, folder: &str, name: &str) -> Result<bool, AllocError> {
    let mut path = String::from_str(alloc, folder)?;
    path.push_str("/")?;
    path.push_str(name)?;
    Ok(fs::symlink_metadata(rt, path.as_str()).is_ok())
}
