//! Paths in byte order: what stands at a path.
ghost use Rattle.std.specs.Prelude.{◌≡◌, ◌≤◌, ◌||◌, [], ◌∷◌, ◌++◌, IfOk, true, false, length, filter};
ghost use Rattle.std.specs.Str.{bytes_eq};
ghost use Rattle.std.specs.List.{list_any, prefix_len};
ghost use Rattle.reuse_change.specs.Path.{lies_under};
ghost use Rattle.std.specs.Ordering.{nat_cmp, is_lt};
ghost use Rattle.std.specs.Cmp.Lexicographic.{slice_cmp};
ghost use Rattle.std.specs.List.Sorted.{IsPartitionPoint};
ghost use Rattle.reuse_change.specs.Listing.{ArePaths, is_among, is_asked, is_folder_of, is_pruned, is_wanted};

use crate::path::PathText;
use crate::pruning::Pruning;
use reuse_text::Bytes;
use std::alloc::{AllocError, Global};
use std::cmp::Ordering;

// How many of the paths, which are in byte order, are below the target.
fn lower_bound(paths: &[PathText], target: &[u8]) -> usize
    ensures within { result ≤ length paths.now }
    ensures bound { ArePaths paths.now → IsPartitionPoint (λ path. is_lt (slice_cmp nat_cmp path target.now) ≡ true)
        (λ path. is_lt (slice_cmp nat_cmp path target.now) ≡ false) paths.now result }
{
    paths.partition_point(|path| is_below(path, target))
}

fn is_below(path: &PathText, target: &[u8]) -> bool
    ensures { result ≡ is_lt (slice_cmp nat_cmp path.now target.now) }
{
    match path.as_bytes().cmp(&target) {
        Ordering::Less => true,
        _ => false,
    }
}

/// Whether the path is one of these, which are in byte order.
pub fn is_among(paths: &[PathText], path: &[u8]) -> bool
    ensures { ArePaths paths.now → result ≡ is_among paths.now path.now }
{
    let at = lower_bound(paths, path);
    at < paths.len() && path == paths[at].as_bytes()
}

/// Whether one of the paths, which are in byte order, lies under the folder.
pub fn is_folder(alloc: Global, paths: &[PathText], folder: &PathText) -> Result<bool, AllocError>
    ensures { ArePaths paths.now → IfOk result (λ found. found ≡ is_folder_of paths.now folder.now) }
{
    let at = first_beneath(alloc, paths, folder)?;
    Ok(at < paths.len() && paths[at].lies_under(folder))
}

/// The paths, which are in byte order, that lie under the folder.
pub fn paths_beneath<'a>(
    alloc: Global,
    paths: &'a [PathText],
    folder: &PathText,
) -> Result<&'a [PathText], AllocError>
    ensures { ArePaths paths.now
        → IfOk result (λ beneath. beneath.now ≡ filter (λ path. lies_under path folder.now) paths.now) }
{
    let at = first_beneath(alloc, paths, folder)?;
    let rest = &paths[at..];
    let count = count_beneath(rest, folder);
    Ok(&rest[..count])
}

// How many of the paths, which are in byte order, are below the folder with a slash behind it.
fn first_beneath(alloc: Global, paths: &[PathText], folder: &PathText) -> Result<usize, AllocError>
    ensures within { IfOk result (λ at. at ≤ length paths.now) }
    ensures bound { ArePaths paths.now
        → IfOk result (IsPartitionPoint (λ path. is_lt (slice_cmp nat_cmp path (folder.now ++ 47 ∷ [])) ≡ true)
        (λ path. is_lt (slice_cmp nat_cmp path (folder.now ++ 47 ∷ [])) ≡ false) paths.now) }
{
    let mut first = Bytes::from_slice(alloc, folder.as_bytes())?;
    first.push_slice(b"/")?;
    Ok(lower_bound(paths, first.as_slice()))
}

// How many of the paths lie under the folder, up to the first that doesn't.
fn count_beneath(paths: &[PathText], folder: &PathText) -> usize
    ensures { result ≡ prefix_len (λ path. lies_under path folder.now) paths.now }
{
    for (count, path) in paths.iter().enumerate() {
        if !path.lies_under(folder) {
            return count;
        }
    }
    paths.len()
}

/// Whether a listing of these folders has the path: it is asked for, and not pruned.
pub fn is_wanted<P: Pruning>(folders: &[PathText], pruning: &P, path: &PathText) -> bool
    ensures { result ≡ is_wanted folders.now (P.prunes pruning.now) path.now }
{
    is_asked(folders, path) && !is_pruned(pruning, path)
}

// Whether the path is one of these folders or lies under one. Where no folder is given, each path
// is asked for.
fn is_asked(folders: &[PathText], path: &PathText) -> bool
    ensures { result ≡ is_asked folders.now path.now }
{
    folders.is_empty() || is_at_or_under_one(folders, path)
}

fn is_at_or_under_one(folders: &[PathText], path: &PathText) -> bool
    ensures { result ≡ list_any (λ folder. bytes_eq path.now folder || lies_under path.now folder) folders.now }
{
    folders.iter().any(|folder| is_at_or_under(path, folder))
}

fn is_at_or_under(path: &PathText, folder: &PathText) -> bool
    ensures { result ≡ (bytes_eq path.now folder.now || lies_under path.now folder.now) }
{
    path.as_bytes() == folder.as_bytes() || path.lies_under(folder)
}

/// Whether a folder above the path is pruned.
pub fn is_pruned<P: Pruning>(pruning: &P, path: &PathText) -> bool
    ensures { result ≡ is_pruned (P.prunes pruning.now) path.now }
{
    let text = path.text();
    for (at, byte) in text.as_bytes().iter().enumerate() {
        if *byte == b'/' && pruning.prunes(&text[..at]) {
            return true;
        }
    }
    false
}
