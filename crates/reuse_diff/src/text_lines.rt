//! The lines of a text, each with its end.
ghost use Rattle.std.specs.Prelude.{◌≡◌, ◌≢◌, ◌<◌, ◌≤◌, ◌∷◌, ◌⊎◌, ℕ, [], List, IfOk, All, length, take, drop};
ghost use Rattle.reuse_diff.specs.TextLines.{AreLinesOf, IsEnded, IsUnended, texts_of};

use std::alloc::{AllocError, Global};

/// The lines of a text, each with its end, which the last one may lack.
pub fn lines_of<'a>(alloc: Global, text: &'a [u8]) -> Result<Vec<&'a [u8]>, AllocError>
    ensures { IfOk result (λ lines. AreLinesOf text.now (texts_of lines.items)) }
{
    let mut lines = Vec::new(alloc);
    let mut rest = text;
    while !rest.is_empty() {
        let (line, next) = rest.split_at(line_len(rest));
        lines.push(line)?;
        rest = next;
    }
    Ok(lines)
}

// How many bytes the first line has.
fn line_len(text: &[u8]) -> usize
    requires { 0 < length text.now }
    ensures within { result ≤ length text.now }
    ensures some { 0 < result }
    ensures line { IsEnded (take result text.now) ⊎ ((result ≡ length text.now) × IsUnended text.now) }
{
    match text.iter().position(|byte| *byte == b'\n') {
        Some(feed) => feed + 1,
        None => text.len(),
    }
}
