//! Which files annotate and amend work on, by their paths.
ghost use Rattle.std.specs.Prelude.{◌≡◌};
ghost use Rattle.reuse_command.specs.Covered.{is_in, is_outside, has_stem, is_outer_name, is_covered};
ghost use Rattle.reuse_edit.specs.Tables.{is_table, is_amendable};

use reuse_text::last_part;

/// Whether annotate works on a file of this path: one that is neither in a folder of licences, of the
/// journal or of version control, nor of a name that holds licensing information or a licence.
pub fn is_covered(path: &[u8]) -> bool
    ensures { result ≡ is_covered path.now }
{
    !is_outside(path) && !is_outer_name(last_part(path))
}

/// Whether this is the path of a table, the only file of an outer name on which amend works: its
/// name is `REUSE.toml`, and it is in no folder whose files are not covered.
pub(crate) fn is_table(path: &[u8]) -> bool
    ensures { result ≡ is_table path.now }
{
    !is_outside(path) && last_part(path) == b"REUSE.toml".as_slice()
}

/// Whether amend works on a file of this path: a covered one, or a table.
pub fn is_amendable(path: &[u8]) -> bool
    ensures { result ≡ is_amendable path.now }
{
    is_covered(path) || is_table(path)
}

// Whether the path is the folder's, or goes on by a slash.
fn is_in(folder: &[u8], path: &[u8]) -> bool
    ensures { result ≡ is_in folder.now path.now }
{
    path.starts_with(folder) && (path.len() == folder.len() || path[folder.len()] == b'/')
}

fn is_outside(path: &[u8]) -> bool
    ensures { result ≡ is_outside path.now }
{
    is_in(b"LICENSES", path) || is_in(b".reuse", path) || is_in(b".git", path)
}

// Whether a name is the stem alone, or goes on by `.` or `-`.
fn has_stem(stem: &[u8], name: &[u8]) -> bool
    ensures { result ≡ has_stem stem.now name.now }
{
    name.starts_with(stem)
        && (name.len() == stem.len() || name[stem.len()] == b'.' || name[stem.len()] == b'-')
}

fn is_outer_name(name: &[u8]) -> bool
    ensures { result ≡ is_outer_name name.now }
{
    name.ends_with(b".license")
        || name.ends_with(b".spdx")
        || name == b"REUSE.toml".as_slice()
        || has_stem(b"LICENSE", name)
        || has_stem(b"LICENCE", name)
        || has_stem(b"COPYING", name)
}
