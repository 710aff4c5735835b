//! The regions of a text that are not read, from `REUSE-IgnoreStart` to `REUSE-IgnoreEnd`.
ghost use Rattle.std.specs.Prelude.{◌≡◌};
ghost use Rattle.reuse_tags.specs.Ignored.{read_part, ignores_next};

use reuse_style::{find_text, holds};

/// What is read of a line: what stands in front of a region that isn't.
pub(crate) fn read_part(line: &[u8]) -> &[u8]
    ensures { result.now ≡ read_part line.now }
{
    match find_text(line, b"REUSE-IgnoreStart") {
        None => line,
        Some(place) => &line[..place],
    }
}

/// Whether the next line is in such a region, if a line is or isn't.
pub(crate) fn ignores_next(ignored: bool, line: &[u8]) -> bool
    ensures { result ≡ ignores_next ignored line.now }
{
    if ignored {
        return !holds(line, b"REUSE-IgnoreEnd");
    }
    match find_text(line, b"REUSE-IgnoreStart") {
        None => false,
        Some(place) => !holds(&line[place..], b"REUSE-IgnoreEnd"),
    }
}
