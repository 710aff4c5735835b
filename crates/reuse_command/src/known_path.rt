//! Paths whose texts are known to be good.
ghost use Rattle.std.specs.Prelude.{◌≡◌, IfOk, IsTrue};
ghost use Rattle.reuse_change.specs.Path.{is_path};

use reuse_change::{PathError, PathText};
use std::alloc::{AllocError, Global};

/// The path of a text that its caller knows to be a good path, such as one that is fixed.
pub fn known_path(alloc: Global, text: &str) -> Result<PathText, AllocError>
    requires { IsTrue (is_path text.now) }
    ensures { IfOk result (λ path. path ≡ text.now) }
{
    match PathText::new(alloc, text) {
        Ok(path) => Ok(path),
        Err(PathError::Memory) => Err(AllocError),
        Err(PathError::BadPath) => unreachable!(),
    }
}
