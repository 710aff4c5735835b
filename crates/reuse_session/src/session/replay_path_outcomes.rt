//! What an undo or a redo would do, path by path: each path of the step changes or is refused as
//! moved, as the call itself tests it. It only reads; previews alone call it. Tested by
//! `tests/sessions`.
ghost use Rattle.std.specs.Prelude.{◌≡◌, IfOk, IfErr, true};
ghost use Rattle.reuse_change.specs.Change.{path_of, IsProper};
ghost use Rattle.reuse_change.specs.Entry.{IsEntry, IsSmall};
ghost use Rattle.reuse_change.specs.Tree.{is_of_tree};
ghost use Rattle.reuse_plan.specs.PathOutcomes.{IsPathOutcomeOf, ArePathOutcomesOf};
ghost use Rattle.reuse_command.specs.Answer.{IsEarlyFailure};
ghost use Rattle.reuse_command.specs.Reading.{tree_of, OnlyReads, ReadsAlone, RefusedAsRead};

use reuse_change::{Change, Direction};
use reuse_command::path_outcome::{PathOutcome, PathOutcomes};
use reuse_command::reply::Refusal;
use reuse_store::Store;
use reuse_store::apply_changes::can_be_made;
use std::alloc::Global;

/// The path outcomes of the changes of an entry, gone through this way: each path changes, or is
/// refused as `Moved`.
pub(crate) fn replay_path_outcomes<S: Store>(
    alloc: Global,
    store: &mut S,
    changes: &[Change],
    direction: Direction,
) -> Result<PathOutcomes, Refusal>
    ensures path_outcomes { S.honest store.new → IsEntry changes.now
        → IfOk result (ArePathOutcomesOf direction (tree_of (S.files store.old)) changes.now) }
    ensures fails { RefusedAsRead S.Store store.old store.new result }
    ensures reads { OnlyReads S.Store store.old store.new }
    ensures refusal { IfErr result IsEarlyFailure }
{
    let mut path_outcomes = Vec::new(alloc);
    for change in changes {
        path_outcomes.push(change_path_outcome(alloc, store, change, direction)?)?;
    }
    Ok(PathOutcomes::new(path_outcomes))
}

// The path outcome of a change.
fn change_path_outcome<S: Store>(
    alloc: Global,
    store: &mut S,
    change: &Change,
    direction: Direction,
) -> Result<PathOutcome, Refusal>
    ensures path_outcome { S.honest store.new → IsProper change.now → IsSmall change.now
        → is_of_tree (path_of change.now) ≡ true
        → IfOk result (IsPathOutcomeOf direction (tree_of (S.files store.old)) change.now) }
    ensures asks { ReadsAlone S.Store IsEarlyFailure store.old store.new result }
{
    let path = change.path().try_clone(alloc)?;
    if can_be_made(alloc, store, change, direction)? {
        Ok(PathOutcome::Changes { path, harm: None })
    } else {
        Ok(PathOutcome::Refused(Refusal::Moved(path)))
    }
}
