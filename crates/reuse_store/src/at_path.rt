//! What stands at one path, asked of a store there alone: no other part of the tree is listed.
ghost use Rattle.std.specs.Prelude.{◌≡◌, IfOk};
ghost use Rattle.std.specs.FinMap as map;
ghost use Rattle.std.specs.List.{list_any};
ghost use Rattle.reuse_store.specs.Asked.{OnlyReads, FailsAsRead};
ghost use Rattle.reuse_change.specs.Clash.{is_clash};
ghost use Rattle.reuse_change.specs.Listing.{is_among, is_folder, is_folder_of};
ghost use Rattle.reuse_change.specs.Path.{lies_under};

use crate::{Reading, Store, StoreFault};
use reuse_change::{NoPruning, PathError, PathText};
use std::alloc::Global;
use std::slice;

/// Whether no file can be made at the path: a part above it is a file, or a file lies under it.
pub fn is_clash_at<S: Store>(
    alloc: Global,
    store: &mut S,
    path: &PathText,
) -> Result<bool, StoreFault>
    ensures clash { S.honest store.new → IfOk result (λ clash. clash ≡ is_clash (S.files store.old) path.now) }
    ensures fails { FailsAsRead S.Store store.old store.new result }
    ensures reads { OnlyReads S.Store store.old store.new }
{
    if is_below_file_at(alloc, store, path)? {
        return Ok(true);
    }
    is_folder_at(alloc, store, path)
}

/// Whether a file lies under the path.
pub fn is_folder_at<S: Store>(
    alloc: Global,
    store: &mut S,
    path: &PathText,
) -> Result<bool, StoreFault>
    ensures folder { S.honest store.new → IfOk result (λ found. found ≡ is_folder (S.files store.old) path.now) }
    ensures fails { FailsAsRead S.Store store.old store.new result }
    ensures reads { OnlyReads S.Store store.old store.new }
{
    let paths = store.list(alloc, slice::from_ref(path), &NoPruning)?;
    Ok(has_one_under(&paths, path))
}

fn has_one_under(paths: &[PathText], folder: &PathText) -> bool
    ensures { result ≡ is_folder_of paths.now folder.now }
{
    paths.iter().any(|path| path.lies_under(folder))
}

// Whether a part above the path is a file.
fn is_below_file_at<S: Store>(
    alloc: Global,
    store: &mut S,
    path: &PathText,
) -> Result<bool, StoreFault>
    ensures below { S.honest store.new
        → IfOk result (λ below. below ≡ list_any (λ other. lies_under path.now other) (map.keys (S.files store.old))) }
    ensures fails { FailsAsRead S.Store store.old store.new result }
    ensures reads { OnlyReads S.Store store.old store.new }
{
    let text = path.text();
    for (at, byte) in text.as_bytes().iter().enumerate() {
        if *byte == b'/' && is_file_at(alloc, store, &text[..at])? {
            return Ok(true);
        }
    }
    Ok(false)
}

// Whether the text is the path of a file.
fn is_file_at<S: Store>(alloc: Global, store: &mut S, text: &str) -> Result<bool, StoreFault>
    ensures file { S.honest store.new
        → IfOk result (λ found. found ≡ is_among (map.keys (S.files store.old)) text.now) }
    ensures fails { FailsAsRead S.Store store.old store.new result }
    ensures reads { OnlyReads S.Store store.old store.new }
{
    let path = match PathText::new(alloc, text) {
        Ok(path) => path,
        Err(PathError::BadPath) => return Ok(false),
        Err(PathError::Memory) => return Err(StoreFault::Memory),
    };
    match store.read(alloc, &path, 0)? {
        Reading::Absent => Ok(false),
        _ => Ok(true),
    }
}
