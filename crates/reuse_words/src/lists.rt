//! Lists of contents.
ghost use Rattle.std.specs.Prelude.{◌≡◌, ◌++◌, OnOk};

use reuse_text::Bytes;
use std::alloc::{AllocError, Global};

// Adds copies of contents.
pub(crate) fn push_all(
    alloc: Global,
    made: &mut Vec<Bytes>,
    more: &[Bytes],
) -> Result<(), AllocError>
    ensures { OnOk result (made.new.items ≡ made.old.items ++ more.now) }
{
    for content in more {
        made.push(content.try_clone(alloc)?)?;
    }
    Ok(())
}
