//! Where no file can be made, by the paths of a tree.
ghost use Rattle.std.specs.Prelude.{◌≡◌, IfOk};
ghost use Rattle.std.specs.List.{list_any};
ghost use Rattle.reuse_change.specs.Path.{lies_under};
ghost use Rattle.reuse_change.specs.Listing.{ArePaths};
ghost use Rattle.reuse_change.specs.Clash.{is_clash_of};

use crate::listing::{is_among, is_folder};
use crate::path::PathText;
use std::alloc::{AllocError, Global};

/// Whether no file can be made at the path: a part above it is one of the paths, which are in byte
/// order, or it is a folder of these.
pub fn is_clash(alloc: Global, paths: &[PathText], path: &PathText) -> Result<bool, AllocError>
    ensures { ArePaths paths.now → IfOk result (λ clash. clash ≡ is_clash_of paths.now path.now) }
{
    if is_below_file(paths, path.as_bytes()) {
        return Ok(true);
    }
    is_folder(alloc, paths, path)
}

// Whether a part above the path is one of the paths, which are in byte order.
fn is_below_file(paths: &[PathText], path: &[u8]) -> bool
    ensures { ArePaths paths.now → result ≡ list_any (λ other. lies_under path.now other) paths.now }
{
    for (i, byte) in path.iter().enumerate() {
        if *byte == b'/' && is_among(paths, &path[..i]) {
            return true;
        }
    }
    false
}
