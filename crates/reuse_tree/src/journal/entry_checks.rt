//! Whether changes are those of a good entry.
ghost use Rattle.std.specs.Prelude.{◌≡◌, ◌+◌, ◌≤◌, ◌↔◌, ◌++◌, ◌∷◌, [], IsTrue, length, true, false};
ghost use Rattle.std.specs.List.{All};
ghost use Rattle.std.specs.Ordering.{is_lt, nat_cmp};
ghost use Rattle.std.specs.declared.cmp.Ordering.TheVariants.{Less};
ghost use Rattle.std.specs.Cmp.Lexicographic.{slice_cmp};
ghost use Rattle.std.specs.List.Sorted.{IsPartitionPoint, IsStrictlySortedBy};
ghost use Rattle.reuse_change.specs.Change.{path_of, IsProper};
ghost use Rattle.reuse_change.specs.Path.{is_path};
ghost use Rattle.reuse_change.specs.Entry.{paths_of, HasOwnDigest, IsSmall};
ghost use Rattle.reuse_tree.specs.EntryTests.{AreApart, IsSoundChange, Passes};
ghost use Rattle.reuse_change.specs.Listing.{is_folder_of};
ghost use Rattle.reuse_change.specs.Tree.{is_of_tree};

use reuse_change::layout::{ABOVE_JOURNAL, JOURNAL};
use reuse_change::{Change, Digest, PathText, is_too_many};
use reuse_text::LONGEST_FILE;

/// Whether an entry may have these changes.
pub(crate) fn are_sound(changes: &[Change]) -> bool
    ensures { IsTrue result ↔ Passes changes.now }
{
    !changes.is_empty()
        && !is_too_many(changes)
        && are_all_sound(changes)
        && ascend(changes)
        && are_apart(changes)
}

fn are_all_sound(changes: &[Change]) -> bool
    ensures { IsTrue result ↔ All IsSoundChange changes.now }
{
    changes.iter().all(|change| is_sound(change))
}

// Whether an entry may have the change.
fn is_sound(change: &Change) -> bool
    ensures { IsTrue result ↔ IsSoundChange change.now }
{
    is_of_tree(change.path()) && is_proper(change) && is_small(change) && has_own_digest(change)
}

// Whether a path is none of the journal's.
fn is_of_tree(path: &PathText) -> bool
    ensures value { result ≡ is_of_tree path.now }
    ensures path { IsTrue (is_path path.now) }
{
    let text = path.text();
    text != ABOVE_JOURNAL && text != JOURNAL && !path.is_in_journal()
}

// Whether a change changes something.
fn is_proper(change: &Change) -> bool
    ensures { IsTrue result ↔ IsProper change.now }
{
    match change {
        Change::Make { .. } | Change::Drop { .. } => true,
        Change::Splice { old, new, .. } => old.as_slice() != new.as_slice(),
    }
}

// Whether the digest that is recorded of a file that is made or removed is that of its bytes.
fn has_own_digest(change: &Change) -> bool
    ensures { IsTrue result ↔ HasOwnDigest change.now }
{
    match change {
        Change::Make {
            new,
            after: Some(after),
            ..
        } => *after == Digest::of(new.as_slice()),
        Change::Drop {
            old,
            before: Some(before),
            ..
        } => *before == Digest::of(old.as_slice()),
        _ => true,
    }
}

// Whether the file is not too long, before the change and after it.
fn is_small(change: &Change) -> bool
    ensures { IsTrue result ↔ IsSmall change.now }
{
    match change {
        Change::Make { new, .. } => new.len() <= LONGEST_FILE,
        Change::Drop { old, .. } => old.len() <= LONGEST_FILE,
        Change::Splice {
            at,
            old,
            new,
            rest,
            ..
        } => fits(*at, old.len(), *rest) && fits(*at, new.len(), *rest),
    }
}

fn fits(at: usize, len: usize, rest: usize) -> bool
    ensures { IsTrue result ↔ (at + len + rest ≤ LONGEST_FILE) }
{
    at <= LONGEST_FILE && len <= LONGEST_FILE - at && rest <= LONGEST_FILE - at - len
}

// Whether the paths ascend.
fn ascend(changes: &[Change]) -> bool
    ensures { IsTrue result ↔ IsStrictlySortedBy (slice_cmp nat_cmp) (paths_of changes.now) }
{
    for i in 1..changes.len() {
        if !precedes(&changes[i - 1], &changes[i]) {
            return false;
        }
    }
    true
}

// Whether the path of a change is below that of another.
fn precedes(change: &Change, other: &Change) -> bool
    ensures { IsTrue result ↔ (slice_cmp nat_cmp (path_of change.now) (path_of other.now) ≡ Less) }
{
    change.path() < other.path()
}

// Whether none of the ascending paths is a folder of another.
fn are_apart(changes: &[Change]) -> bool
    requires { IsStrictlySortedBy (slice_cmp nat_cmp) (paths_of changes.now) }
    ensures { IsTrue result ↔ AreApart (paths_of changes.now) }
{
    for (i, change) in changes.iter().enumerate() {
        if has_file_under(change.path(), &changes[i + 1..]) {
            return false;
        }
    }
    true
}

// Whether one of the ascending paths lies under a folder. Those that do stand together, so the
// first that may is searched by halves.
fn has_file_under(folder: &PathText, later: &[Change]) -> bool
    requires { IsStrictlySortedBy (slice_cmp nat_cmp) (paths_of later.now) }
    ensures { result ≡ is_folder_of (paths_of later.now) folder.now }
{
    let start = first_inside(folder, later);
    if start >= later.len() {
        return false;
    }
    later[start].path().lies_under(folder)
}

// How many changes are of paths below all that lie under a folder: mostly none.
fn first_inside(folder: &PathText, later: &[Change]) -> usize
    requires { IsStrictlySortedBy (slice_cmp nat_cmp) (paths_of later.now) }
    ensures bound { result ≤ length later.now }
    ensures point { IsPartitionPoint
        (λ change. is_lt (slice_cmp nat_cmp (path_of change) (folder.now ++ 47 ∷ [])) ≡ true)
        (λ change. is_lt (slice_cmp nat_cmp (path_of change) (folder.now ++ 47 ∷ [])) ≡ false)
        later.now result }
{
    if later.is_empty() || !precedes_inside(&later[0], folder) {
        return 0;
    }
    later.partition_point(|change| precedes_inside(change, folder))
}

// Whether the path of a change is below all that lie under a folder.
fn precedes_inside(change: &Change, folder: &PathText) -> bool
    ensures { result ≡ is_lt (slice_cmp nat_cmp (path_of change.now) (folder.now ++ 47 ∷ [])) }
{
    is_before_inside(change.path().as_bytes(), folder.as_bytes())
}

fn is_before_inside(path: &[u8], folder: &[u8]) -> bool
    ensures { result ≡ is_lt (slice_cmp nat_cmp path.now (folder.now ++ 47 ∷ [])) }
{
    if !path.starts_with(folder) {
        return is_below(path, folder);
    }
    if path.len() <= folder.len() {
        return true;
    }
    path[folder.len()] < b'/'
}

fn is_below(bytes: &[u8], others: &[u8]) -> bool
    ensures { result ≡ is_lt (slice_cmp nat_cmp bytes.now others.now) }
{
    bytes.cmp(others).is_lt()
}
