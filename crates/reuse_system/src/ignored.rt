//! Which paths of a folder are no part of the tree, whatever stands there.
ghost use Rattle.std.specs.Prelude.{◌≡◌, ◌<◌, ◌∷◌, [], length, IfSome};
ghost use Rattle.std.specs.Char.{is_ascii_digit};
ghost use Rattle.std.specs.List.{list_all};
ghost use Rattle.std.specs.Option.{option_map_or};
ghost use Rattle.std.specs.Str.{str_eq_ignore_ascii_case};
ghost use Rattle.reuse_system.specs.Names.{between_slashes};
ghost use Rattle.reuse_system.specs.Ignored.{is_control_folder, is_name_ignored, begins_journal, is_number};
ghost use Rattle.reuse_system.specs.Ignored.{is_beside_name, is_new_name, begins_new, is_new_in_reuse, is_new};
ghost use Rattle.reuse_system.specs.Ignored.{is_foreign, is_ignored, is_folder_ignored};

use reuse_change::layout::{
    ABOVE_JOURNAL, JOURNAL_NAME, NEW, NEW_BESIDE, NEW_BESIDE_NUMBERED, NEW_NUMBERED,
};

/// Whether the names are the same but for capital and small letters.
fn is_same(name: &str, other: &str) -> bool
    ensures { result ≡ str_eq_ignore_ascii_case name.now other.now }
{
    name.as_bytes().eq_ignore_ascii_case(other.as_bytes())
}

/// Whether version control keeps its data in folders of this name. `CVS` is asked for as it is:
/// `cvs` is a likely name of a source folder.
fn is_control_folder(name: &str) -> bool
    ensures { result ≡ is_control_folder name.now }
{
    is_same(name, ".git")
        || is_same(name, ".hg")
        || is_same(name, ".svn")
        || is_same(name, ".jj")
        || is_same(name, ".bzr")
        || is_same(name, "_darcs")
        || is_same(name, ".sl")
        || is_same(name, ".pijul")
        || is_same(name, ".repo")
        || name == "CVS"
}

/// The first name along the path, and what stands behind the slash after it.
fn first_name(path: &str) -> (&str, Option<&str>)
    ensures names { between_slashes path.now ≡ result.0.now ∷ option_map_or
        (λ rest. between_slashes rest.now) result.1 [] }
    ensures shorter { IfSome result.1 (λ rest. length rest.now < length path.now) }
{
    match path.split_once('/') {
        Some((name, rest)) => (name, Some(rest)),
        None => (path, None),
    }
}

/// Whether the path begins with the folder of a journal.
fn begins_journal(path: &str) -> bool
    ensures { result ≡ begins_journal (between_slashes path.now) }
{
    match first_name(path) {
        (first, Some(rest)) => first == ABOVE_JOURNAL && first_name(rest).0 == JOURNAL_NAME,
        (_, None) => false,
    }
}

/// Whether the path lies in the folder of the tree's own journal.
pub fn is_in_journal(path: &str) -> bool
    ensures { result ≡ begins_journal (between_slashes path.now) }
{
    begins_journal(path)
}

/// Whether all these bytes are decimal digits.
fn are_digits(bytes: &[u8]) -> bool
    ensures { result ≡ list_all is_ascii_digit bytes.now }
{
    bytes.iter().all(|byte| byte.is_ascii_digit())
}

/// Whether the bytes are a number in decimal digits.
fn is_number(bytes: &[u8]) -> bool
    ensures { result ≡ is_number bytes.now }
{
    !bytes.is_empty() && are_digits(bytes)
}

/// Whether a file of this name may be one that is written beside the one that it is to be.
pub fn is_beside_name(name: &str) -> bool
    ensures { result ≡ is_beside_name name.now }
{
    let bytes = name.as_bytes();
    name == NEW_BESIDE || (bytes.starts_with(NEW_BESIDE_NUMBERED) && is_number(&bytes[16..]))
}

/// Whether a file of this name is no part of the tree.
fn is_name_ignored(name: &str) -> bool
    ensures { result ≡ is_name_ignored name.now }
{
    is_same(name, ".git") || is_beside_name(name)
}

/// Whether a file of this name in the journal's folder has no name of its own yet.
pub fn is_new_name(name: &str) -> bool
    ensures { result ≡ is_new_name name.now }
{
    let bytes = name.as_bytes();
    name == NEW || (bytes.starts_with(NEW_NUMBERED) && is_number(&bytes[4..]))
}

/// Whether such a file stands at the path below the journal's folder, or above it.
fn begins_new(path: &str) -> bool
    ensures { result ≡ begins_new (between_slashes path.now) }
{
    is_new_name(first_name(path).0)
}

/// Whether such a file stands at the path below `.reuse`, or above it.
fn is_new_in_reuse(path: &str) -> bool
    ensures { result ≡ is_new_in_reuse (between_slashes path.now) }
{
    match first_name(path) {
        (first, Some(rest)) => first == JOURNAL_NAME && begins_new(rest),
        (_, None) => false,
    }
}

/// Whether a file that has no name of its own yet stands at the path, or above it.
fn is_new(path: &str) -> bool
    ensures { result ≡ is_new (between_slashes path.now) }
{
    match first_name(path) {
        (first, Some(rest)) => first == ABOVE_JOURNAL && is_new_in_reuse(rest),
        (_, None) => false,
    }
}

/// Whether somebody else's data stands at the path, of a file or of a folder.
#[tactic(auto, using(crate::proofs::NameLemmas::foreign_before))]
fn is_foreign(path: &str, is_folder: bool) -> bool
    ensures { result ≡ is_foreign is_folder (between_slashes path.now) }
{
    match first_name(path) {
        (name, Some(rest)) => {
            is_control_folder(name) || begins_journal(rest) || is_foreign(rest, is_folder)
        }
        (name, None) if is_folder => is_control_folder(name),
        (name, None) => is_name_ignored(name),
    }
}

/// Whether a file of this path is ignored.
pub fn is_ignored(path: &str) -> bool
    ensures { result ≡ is_ignored path.now }
{
    is_new(path) || is_foreign(path, false)
}

/// Whether all that lies under this folder is ignored.
pub fn is_folder_ignored(folder: &str) -> bool
    ensures { result ≡ is_folder_ignored folder.now }
{
    is_new(folder) || is_foreign(folder, true)
}
