//! The paths of the tree, in byte order: all of them, or those of some folders.
ghost use Rattle.std.specs.Prelude.{◌≡◌, ◌++◌, ◌∷◌, IfErr, IfOk, OnOk};
ghost use Rattle.reuse_store.specs.Asked.{FailsAsRead};
ghost use Rattle.reuse_change.specs.Listing.{is_folder, listed_paths};
ghost use Rattle.reuse_command.specs.Answer.{IsEarlyFailure};
ghost use Rattle.reuse_command.specs.Reading.{tree_of, OnlyReads, ReadsAlone};
ghost use Rattle.reuse_plan.specs.Shown.{neighbours_of, with_neighbours};
ghost use Rattle.reuse_edit.specs.Pair.{ShowsPair};
ghost use Rattle.reuse_command.specs.declared.failure.Failure.TheVariants as failures;

use reuse_change::{NoPruning, PathText, Pruning, is_folder};
use reuse_command::reply::Refusal;
use reuse_edit::place::neighbour_path;
use reuse_store::{Store, StoreFault};
use std::alloc::Global;
use std::slice;

/// What a listing of these folders gives of the tree that the store has: of all its files but those
/// of the journal.
pub(crate) fn tree_paths<S: Store, P: Pruning>(
    alloc: Global,
    store: &mut S,
    folders: &[PathText],
    pruning: &P,
) -> Result<Vec<PathText>, StoreFault>
    ensures paths { S.honest store.new → IfOk result
        (λ paths. paths.items ≡ listed_paths (tree_of (S.files store.old)) folders.now (P.prunes pruning.now)) }
    ensures fails { FailsAsRead S.Store store.old store.new result }
    ensures reads { OnlyReads S.Store store.old store.new }
{
    let mut paths = store.list(alloc, folders, pruning)?;
    paths.retain(|path| !path.is_in_journal());
    Ok(paths)
}

/// Whether a file of the tree lies under the path, by a listing of that alone.
pub(crate) fn is_folder_alone<S: Store>(
    alloc: Global,
    store: &mut S,
    path: &PathText,
) -> Result<bool, StoreFault>
    ensures folder { S.honest store.new
        → IfOk result (λ found. found ≡ is_folder (tree_of (S.files store.old)) path.now) }
    ensures fails { FailsAsRead S.Store store.old store.new result }
    ensures reads { OnlyReads S.Store store.old store.new }
{
    let paths = tree_paths(alloc, store, slice::from_ref(path), &NoPruning)?;
    Ok(is_folder(alloc, &paths, path)?)
}

/// The paths of the tree at this path and at its neighbour, and beneath them.
pub(crate) fn pair_paths<S: Store>(
    alloc: Global,
    store: &mut S,
    path: &PathText,
) -> Result<Vec<PathText>, Refusal>
    ensures paths { S.honest store.new
        → IfOk result (λ paths. ShowsPair paths.items (tree_of (S.files store.old)) path.now) }
    ensures asks { ReadsAlone S.Store IsEarlyFailure store.old store.new result }
{
    let folders = with_neighbours(alloc, slice::from_ref(path))?;
    Ok(tree_paths(alloc, store, &folders, &NoPruning)?)
}

/// These paths, each with its neighbour behind it, unless that would be too long for a path.
pub(crate) fn with_neighbours(alloc: Global, paths: &[PathText]) -> Result<Vec<PathText>, Refusal>
    ensures both { IfOk result (λ both. both.items ≡ with_neighbours paths.now) }
    ensures memory { IfErr result (λ refusal. refusal ≡ Refusal.Failed failures.Memory) }
{
    let mut both = Vec::new(alloc);
    for path in paths {
        push_both(alloc, &mut both, path)?;
    }
    Ok(both)
}

// Adds the path, and its neighbour behind it.
fn push_both(alloc: Global, both: &mut Vec<PathText>, path: &PathText) -> Result<(), Refusal>
    ensures both { OnOk result (both.new.items ≡ both.old.items ++ path.now ∷ neighbours_of path.now) }
    ensures memory { IfErr result (λ refusal. refusal ≡ Refusal.Failed failures.Memory) }
{
    both.push(path.try_clone(alloc)?)?;
    if let Some(neighbour) = neighbour_path(alloc, path)? {
        both.push(neighbour)?;
    }
    Ok(())
}
