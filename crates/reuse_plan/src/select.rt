//! The paths of a command, in the order in which they are gone through.
ghost use Rattle.std.specs.Prelude.{◌≡◌, ◌&&◌, not, ◌++◌, [], ◌∷◌, true, length, IfErr, IfOk, OnOk, filter, flat_map};
ghost use Rattle.std.specs.List.{All};
ghost use Rattle.reuse_store.specs.Asked.{FailsAsRead};
ghost use Rattle.reuse_change.specs.Listing.{ArePaths, is_folder, listed_paths};
ghost use Rattle.reuse_command.specs.Answer.{IsEarlyFailure};
ghost use Rattle.reuse_command.specs.Reading.{tree_of, OnlyReads, ReadsAlone};
ghost use Rattle.reuse_plan.specs.Shown.{folders_for, ShowsEach, ShowsPlace};
ghost use Rattle.reuse_command.specs.Choice.{is_listed, is_passed_over};
ghost use Rattle.reuse_plan.specs.FileTask.{chooses, paths_of, scope_of, works_on};
ghost use Rattle.reuse_plan.specs.Unused.{AreUnusedAt};
ghost use Rattle.reuse_plan.specs.Selected.{expanded};
ghost use Rattle.reuse_command.specs.declared.command.Place.TheVariants as place;
ghost use Rattle.std.specs.Option.{option_to_list};
ghost use Rattle.reuse_command.specs.Command.{has_root, path_in, paths_among};
ghost use Rattle.reuse_command.specs.declared.failure.Failure.TheVariants as failures;

use crate::file_task::FileTask;
use crate::skipped_folders::SkippedFolders;
use crate::tree_paths::{is_folder_alone, tree_paths, with_neighbours};
use crate::unused::Unused;
use reuse_change::{FixedList, PathText, paths_beneath};
use reuse_command::choice::{matches_one, sorted};
use reuse_command::command::{Place, Scope};
use reuse_command::reply::Refusal;
use reuse_store::{Store, StoreFault};
use std::alloc::{AllocError, Global};

/// Whether the root is given where folders aren't gone through.
pub(crate) fn gives_root(places: &[Place], scope: &Scope) -> bool
    ensures { result ≡ (not scope.now.recursive && has_root places.now) }
{
    !scope.recursive && has_root(places)
}

fn has_root(places: &[Place]) -> bool
    ensures { result ≡ has_root places.now }
{
    places.iter().any(|place| matches!(place, Place::Root))
}

/// What is known of paths and their neighbours before one is looked at.
#[derive(Drop)]
pub(crate) enum Listing {
    /// That these paths of the tree are there, and no other of them.
    Listed(FixedList<PathText>),
    /// Nothing: each is looked at by itself.
    Alone,
}

/// The paths that a command goes through, in byte order and without repeats, and what is known of
/// them.
#[derive(Drop)]
pub(crate) struct Selected {
    pub(crate) paths: Vec<PathText>,
    pub(crate) listing: Listing,
}

/// The paths that a command goes through: those among the places, and, where folders are gone
/// through, the files beneath a folder that are chosen in its place. Nothing is listed where no
/// folders are gone through. It notes what of the choice came to nothing.
pub(crate) fn find_selected<S: Store>(
    alloc: Global,
    store: &mut S,
    places: &[Place],
    asked: &FileTask<'_, '_>,
    unused: &mut Unused,
) -> Result<Selected, Refusal>
    ensures paths { S.honest store.new → IfOk result
        (λ selected. selected.paths.items ≡ paths_of asked.now places.now (tree_of (S.files store.old))) }
    ensures shown { S.honest store.new
        → IfOk result (λ selected. ShowsEach selected.listing (tree_of (S.files store.old)) selected.paths.items) }
    ensures unused { S.honest store.new
        → OnOk result (AreUnusedAt (works_on asked.now) (scope_of asked.now) places.now (tree_of (S.files store.old))
        unused.new) }
    ensures asks { ReadsAlone S.Store IsEarlyFailure store.old store.new result }
{
    let given = sorted(paths_among(alloc, places)?);
    let scope = asked.scope();
    if !scope.recursive {
        *unused = Unused::none(alloc);
        return Ok(Selected {
            paths: given,
            listing: Listing::Alone,
        });
    }
    let listed = list_selected(alloc, store, places, &given, scope)?;
    let paths = sorted(expanded(alloc, store, &listed, places, asked)?);
    *unused = Unused::of(alloc, asked, &paths, &listed)?;
    Ok(Selected {
        paths,
        listing: Listing::Listed(FixedList::new(listed)),
    })
}

// The paths at these places, of which these are given, and beneath them. Folders are passed over
// beneath which nothing is selected.
fn list_selected<S: Store>(
    alloc: Global,
    store: &mut S,
    places: &[Place],
    given: &[PathText],
    scope: &Scope,
) -> Result<Vec<PathText>, Refusal>
    ensures listed { S.honest store.new → IfOk result (λ listed. listed.items ≡ listed_paths
        (tree_of (S.files store.old)) (folders_for places.now given.now) (is_passed_over scope.now given.now)) }
    ensures asks { ReadsAlone S.Store IsEarlyFailure store.old store.new result }
{
    let folders = folders_for(alloc, places, given)?;
    let skipped_folders = SkippedFolders { scope, given };
    Ok(tree_paths(alloc, store, &folders, &skipped_folders)?)
}

// The folders that are listed for these places, of which these are given: none for the whole tree.
fn folders_for(
    alloc: Global,
    places: &[Place],
    given: &[PathText],
) -> Result<Vec<PathText>, Refusal>
    ensures folders { IfOk result (λ folders. folders.items ≡ folders_for places.now given.now) }
    ensures memory { IfErr result (λ refusal. refusal ≡ Refusal.Failed failures.Memory) }
{
    if has_root(places) {
        return Ok(Vec::new(alloc));
    }
    with_neighbours(alloc, given)
}

// The paths among the places, with the files beneath a folder that are chosen in its place. `paths`
// show what is beneath.
fn expanded<S: Store>(
    alloc: Global,
    store: &mut S,
    paths: &[PathText],
    places: &[Place],
    asked: &FileTask<'_, '_>,
) -> Result<Vec<PathText>, StoreFault>
    ensures found { S.honest store.new → ArePaths paths.now
        → All (ShowsPlace (chooses asked.now) paths.now (tree_of (S.files store.old))) places.now → IfOk result
        (λ found. found.items ≡ flat_map (expanded (chooses asked.now) (tree_of (S.files store.old))) places.now) }
    ensures fails { FailsAsRead S.Store store.old store.new result }
    ensures reads { OnlyReads S.Store store.old store.new }
{
    let mut found = Vec::new(alloc);
    for place in places {
        push_expanded(alloc, store, &mut found, paths, place, asked)?;
    }
    Ok(found)
}

// Adds what stands in the place of a place: the path, or the files beneath it that are chosen where
// it is a folder.
fn push_expanded<S: Store>(
    alloc: Global,
    store: &mut S,
    found: &mut Vec<PathText>,
    paths: &[PathText],
    place: &Place,
    asked: &FileTask<'_, '_>,
) -> Result<(), StoreFault>
    ensures adds { S.honest store.new → ArePaths paths.now
        → ShowsPlace (chooses asked.now) paths.now (tree_of (S.files store.old)) place.now
        → OnOk result
        (found.new.items ≡ found.old.items ++ expanded (chooses asked.now) (tree_of (S.files store.old)) place.now) }
    ensures fails { FailsAsRead S.Store store.old store.new result }
    ensures reads { OnlyReads S.Store store.old store.new }
{
    let Place::Path(path) = place else {
        return Ok(push_chosen(alloc, found, paths, asked)?);
    };
    let beneath = paths_beneath(alloc, paths, path)?;
    if stands_alone(alloc, store, beneath, path)? {
        return Ok(push_copy(alloc, found, path)?);
    }
    Ok(push_chosen(alloc, found, beneath, asked)?)
}

fn push_copy(alloc: Global, found: &mut Vec<PathText>, path: &PathText) -> Result<(), AllocError>
    ensures { OnOk result (found.new.items ≡ found.old.items ++ path.now ∷ []) }
{
    found.push(path.try_clone(alloc)?)?;
    Ok(())
}

// Whether the path is no folder of the tree, beneath which these paths are. It is looked at where
// there are none, since all may be passed over.
fn stands_alone<S: Store>(
    alloc: Global,
    store: &mut S,
    beneath: &[PathText],
    path: &PathText,
) -> Result<bool, StoreFault>
    ensures alone { S.honest store.new
        → ((length beneath.now ≡ 0 → ⊥) → is_folder (tree_of (S.files store.old)) path.now ≡ true)
        → IfOk result (λ alone. alone ≡ not (is_folder (tree_of (S.files store.old)) path.now)) }
    ensures fails { FailsAsRead S.Store store.old store.new result }
    ensures reads { OnlyReads S.Store store.old store.new }
{
    if !beneath.is_empty() {
        return Ok(false);
    }
    Ok(!is_folder_alone(alloc, store, path)?)
}

// Adds the ones that are chosen.
fn push_chosen(
    alloc: Global,
    found: &mut Vec<PathText>,
    paths: &[PathText],
    asked: &FileTask<'_, '_>,
) -> Result<(), AllocError>
    ensures { OnOk result (found.new.items ≡ found.old.items ++ filter (chooses asked.now) paths.now) }
{
    for path in paths {
        push_if_chosen(alloc, found, path, asked)?;
    }
    Ok(())
}

fn push_if_chosen(
    alloc: Global,
    found: &mut Vec<PathText>,
    path: &PathText,
    asked: &FileTask<'_, '_>,
) -> Result<(), AllocError>
    ensures { OnOk result (found.new.items ≡ found.old.items ++ filter (chooses asked.now) (path.now ∷ [])) }
{
    if is_chosen(asked, path) {
        found.push(path.try_clone(alloc)?)?;
    }
    Ok(())
}

fn paths_among(alloc: Global, places: &[Place]) -> Result<Vec<PathText>, AllocError>
    ensures { IfOk result (λ paths. paths.items ≡ paths_among places.now) }
{
    let mut paths = Vec::new(alloc);
    for place in places {
        push_path(alloc, &mut paths, place)?;
    }
    Ok(paths)
}

// Adds the path of a place, if it has one.
fn push_path(alloc: Global, paths: &mut Vec<PathText>, place: &Place) -> Result<(), AllocError>
    ensures { OnOk result (paths.new.items ≡ paths.old.items ++ option_to_list (path_in place.now)) }
{
    match place {
        Place::Root => Ok(()),
        Place::Path(path) => {
            paths.push(path.try_clone(alloc)?)?;
            Ok(())
        }
    }
}

// Whether a file beneath a folder is chosen.
fn is_chosen(asked: &FileTask<'_, '_>, path: &PathText) -> bool
    ensures { result ≡ chooses asked.now path.now }
{
    let scope = asked.scope();
    asked.works_on(path) && is_listed(scope, path) && !matches_one(&scope.excluded, path)
}

// Whether the path is listed, where there is a list.
pub(crate) fn is_listed(scope: &Scope, path: &PathText) -> bool
    ensures { result ≡ is_listed scope.now.listed path.now }
{
    match &scope.listed {
        None => true,
        Some(listed) => listed.has(path),
    }
}
