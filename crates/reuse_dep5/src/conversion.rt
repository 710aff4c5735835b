//! From the bytes of a dep5 to a `REUSE.toml`.
ghost use Rattle.std.specs.Prelude.{ℕ, ◌≤◌, Vec, IfOk, length};
ghost use Rattle.std.specs.declared.alloc.Global.{Global};
ghost use Rattle.reuse_dep5.specs.Answers.{IsAnswer};
ghost use Rattle.reuse_dep5.specs.Conversion.{converted};

use crate::dep5::read_dep5;
use crate::refusal::Dep5Refusal;
use crate::writing::to_toml;
use reuse_text::LONGEST_FILE;
use std::alloc::Global;

/// The text of the `REUSE.toml` that says what the dep5 of these bytes says.
///
/// Refused is what `read_dep5` refuses, and then what `to_toml` does. The text has at most 16 MiB.
pub fn convert_dep5(alloc: Global, bytes: &[u8]) -> Result<Vec<u8>, Dep5Refusal>
    ensures answer { IsAnswer (λ (text : Vec ℕ Global). text.items) result (converted bytes.now) }
    ensures fits { IfOk result (λ text. length text.items ≤ LONGEST_FILE) }
{
    match read_dep5(alloc, bytes) {
        Ok(dep5) => to_toml(alloc, &dep5),
        Err(refusal) => Err(refusal),
    }
}
