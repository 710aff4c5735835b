//! Tests the changes of an entry before they are made.
ghost use Rattle.std.specs.Prelude.{◌≡◌, ◌↔◌, ℕ, List, map, IsTrue, IfOk, IfErr, OnOk, true};
ghost use Rattle.std.specs.List.{All};
ghost use Rattle.reuse_change.specs.Files.{tree_of};
ghost use Rattle.reuse_change.specs.Change.{path_of, IsProper};
ghost use Rattle.reuse_command.specs.Answer.{IsTestRefusal, RefusedAsRead};
ghost use Rattle.reuse_change.specs.Tree.{is_of_tree};
ghost use Rattle.reuse_change.specs.Entry.{paths_of, IsSmall, IsEntry, CanBeMade, IsFirstStuck, IsFirstWithout};
ghost use Rattle.reuse_journal.specs.Tested.{Passes};
ghost use Rattle.reuse_store.specs.Asked.{OnlyReads, FailsAsRead};

use reuse_change::{Change, Direction};
use reuse_command::reply::{Paths, Refusal};
use reuse_store::apply_change::can_apply;
use reuse_store::apply_changes::can_be_made;
use reuse_store::{Store, StoreFault};
use std::alloc::{AllocError, Global};

/// The paths of the changes.
pub fn paths_of(alloc: Global, changes: &[Change]) -> Result<Paths, AllocError>
    ensures { IfOk result (λ paths. paths ≡ paths_of changes.now) }
{
    let mut paths = Vec::new(alloc);
    for change in changes {
        paths.push(change.path().try_clone(alloc)?)?;
    }
    Ok(Paths::new(paths))
}

/// What each change of an entry is tested for, this way.
#[derive(Clone, Copy)]
pub enum Check {
    /// It can be made.
    Go,
    /// It isn't made, or can be rolled back.
    RollingBack,
}

/// Tests each change; refused as `Moved` at the first that doesn't pass.
pub fn test_each<S: Store>(
    alloc: Global,
    store: &mut S,
    changes: &[Change],
    direction: Direction,
    check: Check,
) -> Result<(), Refusal>
    ensures ready { S.honest store.new → IsEntry changes.now
        → OnOk result (All (Passes check direction (tree_of (S.files store.old))) changes.now) }
    ensures moved { S.honest store.new → IsEntry changes.now → (path : List ℕ) → result ≡ Err (Refusal.Moved path)
        → IsFirstWithout (Passes check direction (tree_of (S.files store.old))) changes.now path }
    ensures refusal { IfErr result IsTestRefusal }
    ensures fails { RefusedAsRead S.Store store.old store.new result }
    ensures reads { OnlyReads S.Store store.old store.new }
{
    for change in changes {
        if !passes(alloc, store, change, direction, check)? {
            return Err(Refusal::Moved(change.path().try_clone(alloc)?));
        }
    }
    Ok(())
}

// Whether the change passes the check.
fn passes<S: Store>(
    alloc: Global,
    store: &mut S,
    change: &Change,
    direction: Direction,
    check: Check,
) -> Result<bool, StoreFault>
    ensures ok { S.honest store.new → IsProper change.now → IsSmall change.now → is_of_tree (path_of change.now) ≡ true
        → IfOk result (λ yes. IsTrue yes ↔ Passes check direction (tree_of (S.files store.old)) change.now) }
    ensures fails { FailsAsRead S.Store store.old store.new result }
    ensures reads { OnlyReads S.Store store.old store.new }
{
    match check {
        Check::Go => can_be_made(alloc, store, change, direction),
        Check::RollingBack => {
            if can_apply(alloc, store, change, direction)? {
                return Ok(true);
            }
            can_be_made(alloc, store, change, direction.opposite())
        }
    }
}

/// Tests that each change can be made now, this way, and gives their paths.
pub fn prepare<S: Store>(
    alloc: Global,
    store: &mut S,
    changes: &[Change],
    direction: Direction,
) -> Result<Paths, Refusal>
    ensures paths { IfOk result (λ paths. paths ≡ paths_of changes.now) }
    ensures ready { S.honest store.new → IsEntry changes.now
        → OnOk result (All (CanBeMade direction (tree_of (S.files store.old))) changes.now) }
    ensures moved { S.honest store.new → IsEntry changes.now → (path : List ℕ) → result ≡ Err (Refusal.Moved path)
        → IsFirstStuck direction (tree_of (S.files store.old)) changes.now path }
    ensures refusal { IfErr result IsTestRefusal }
    ensures fails { RefusedAsRead S.Store store.old store.new result }
    ensures reads { OnlyReads S.Store store.old store.new }
{
    test_each(alloc, store, changes, direction, Check::Go)?;
    Ok(paths_of(alloc, changes)?)
}
