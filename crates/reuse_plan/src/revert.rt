//! Plans a revert: takes the changes of a step back on whatever the tree is now.
ghost use Rattle.std.specs.Prelude.{◌≡◌, ◌≢◌, ◌↔◌, ◌&&◌, ◌+◌, ◌≤◌, ℕ, IfOk, IfErr, IsTrue, List, Ok, Err, Option, Some};
ghost use Rattle.std.specs.Prelude.{None, false, true, length, map};
ghost use Rattle.reuse_store.specs.Asked.{FailsAsRead};
ghost use Rattle.reuse_change.specs.Change.{path_of, IsProper};
ghost use Rattle.reuse_change.specs.Clash.{is_clash};
ghost use Rattle.reuse_change.specs.Entry.{makes, IsEntry, IsSmall};
ghost use Rattle.reuse_change.specs.Tree.{is_of_tree};
ghost use Rattle.reuse_change.specs.declared.change.Change.TheVariants.{Make, Splice};
ghost use Rattle.reuse_change.specs.declared.direction.Direction.TheVariants.{Backward};
ghost use Rattle.reuse_command.specs.Answer.{IsTestRefusal, IsEarlyFailure};
ghost use Rattle.reuse_edit.specs.PathPlans.{AnswersPlan, AnswersPlans, EndsWalk};
ghost use Rattle.reuse_edit.specs.Answered.{MakesEdit};
ghost use Rattle.reuse_command.specs.Reading.{get, reading_of, tree_of, Files, OnlyReads, ReadsAlone};
ghost use Rattle.reuse_plan.specs.Reverting.{has_digest, is_as_left, reverted_at, stands_as_written, stands_at};
ghost use Rattle.reuse_plan.specs.Reverting.{taken_back, taken_back_unless};
ghost use Rattle.reuse_command.specs.declared.failure.Fault.{Fault};
ghost use Rattle.reuse_command.specs.declared.failure.Failure.TheVariants as failures;

use reuse_change::{Change, Digest, Direction, PathText, Seal};
use reuse_command::choice::PathList;
use reuse_command::reply::Refusal;
use reuse_edit::path_plan::{PathPlan, Policy};
use reuse_store::apply_change::makes;
use reuse_store::{Reading, Store, StoreFault, is_clash_at};
use reuse_text::{Bytes, LONGEST_FILE};
use std::alloc::{AllocError, Global};

/// What a revert of these changes of an entry does, where later steps touched these paths.
pub(crate) fn plan_revert<S: Store>(
    alloc: Global,
    store: &mut S,
    changes: &[Change],
    touched: &PathList,
    skip_moved: bool,
    policy: Policy,
) -> Result<Vec<PathPlan>, Refusal>
    requires { IsEntry changes.now }
    ensures plans { S.honest store.new → AnswersPlans policy (tree_of (S.files store.old))
        (map (reverted_at touched.now skip_moved (tree_of (S.files store.old))) changes.now) result }
    ensures asks { ReadsAlone S.Store (EndsWalk policy) store.old store.new result }
{
    let mut plans = Vec::with_capacity(alloc, changes.len())?;
    for change in changes {
        let back = match take_back(alloc, store, touched, change) {
            Ok(back) => back,
            Err(refusal) => return Err(refusal),
        };
        let plan = match plan_back(alloc, change, back, skip_moved, policy) {
            Ok(plan) => plan,
            Err(refusal) => return Err(refusal),
        };
        plans.push(plan)?;
    }
    Ok(plans)
}

// What is done at the path of a change, by what takes it back, if anything does.
fn plan_back(
    alloc: Global,
    change: &Change,
    back: Option<Change>,
    skip_moved: bool,
    policy: Policy,
) -> Result<PathPlan, Refusal>
    ensures plan { (touched : List (List ℕ)) (tree : Files)
        → MakesEdit tree (Ok (taken_back_unless touched tree change.now)) back
        → AnswersPlan policy tree (reverted_at touched skip_moved tree change.now) result }
    ensures ends { IfErr result (EndsWalk policy) }
    ensures other { IfErr result IsTestRefusal }
    ensures fault { (fault : Fault) → result ≢ Err (Refusal.Failed (failures.Fault fault)) }
{
    match back {
        Some(back) => Ok(PathPlan::plain(back)),
        None if skip_moved => Ok(PathPlan::Skipped(change.path().try_clone(alloc)?)),
        None => policy.refused(Refusal::Moved(change.path().try_clone(alloc)?)),
    }
}

// The change that takes a change back, if it can be taken back and no later step touched its path.
fn take_back<S: Store>(
    alloc: Global,
    store: &mut S,
    touched: &PathList,
    change: &Change,
) -> Result<Option<Change>, Refusal>
    ensures edit { S.honest store.new → IsProper change.now → IsSmall change.now
        → is_of_tree (path_of change.now) ≡ true
        → IfOk result (MakesEdit (tree_of (S.files store.old))
        (Ok (taken_back_unless touched.now (tree_of (S.files store.old)) change.now))) }
    ensures asks { ReadsAlone S.Store IsEarlyFailure store.old store.new result }
{
    if touched.has(change.path()) {
        return Ok(None);
    }
    if makes_at_clash(alloc, store, change)? {
        return Ok(None);
    }
    let reading = store.read(alloc, change.path(), LONGEST_FILE)?;
    Ok(change_back(alloc, change, reading)?)
}

// Whether what takes the change back makes a file where none can be made.
fn makes_at_clash<S: Store>(
    alloc: Global,
    store: &mut S,
    change: &Change,
) -> Result<bool, StoreFault>
    ensures clash { S.honest store.new → is_of_tree (path_of change.now) ≡ true
        → IfOk result
        (λ clash. clash ≡ (makes Backward change.now && is_clash (tree_of (S.files store.old)) (path_of change.now))) }
    ensures fails { FailsAsRead S.Store store.old store.new result }
    ensures reads { OnlyReads S.Store store.old store.new }
{
    if !makes(change, Direction::Backward) {
        return Ok(false);
    }
    is_clash_at(alloc, store, change.path())
}

// The change that takes a change back where its path holds what was read.
fn change_back(
    alloc: Global,
    change: &Change,
    reading: Reading,
) -> Result<Option<Change>, AllocError>
    ensures { (tree : Files) → IsProper change.now → IsSmall change.now
        → reading ≡ reading_of (get tree (path_of change.now)) LONGEST_FILE
        → IfOk result (MakesEdit tree (Ok (taken_back change.now (get tree (path_of change.now))))) }
{
    match (change, reading) {
        (Change::Make { path, new, .. }, Reading::Found(file)) => drop_made(alloc, path, file, new),
        (Change::Drop { path, old, .. }, Reading::Absent) => Ok(Some(Change::sealed_make(
            path.try_clone(alloc)?,
            old.try_clone(alloc)?,
        ))),
        (
            Change::Splice {
                path,
                at,
                old,
                new,
                rest,
                seal,
            },
            Reading::Found(file),
        ) => {
            let written = Written {
                at: *at,
                old,
                new,
                rest: *rest,
                seal: *seal,
            };
            put_back(alloc, path, file, &written)
        }
        _ => Ok(None),
    }
}

// A file that was made is removed, where it is as it was made.
fn drop_made(
    alloc: Global,
    path: &PathText,
    file: Bytes,
    new: &Bytes,
) -> Result<Option<Change>, AllocError>
    ensures { (tree : Files) (after : Option (List ℕ)) → get tree path.now ≡ Some file → length new.now ≤ LONGEST_FILE
        → IfOk result (MakesEdit tree (Ok (taken_back (Make path.now new.now after) (Some file)))) }
{
    if file.as_slice() != new.as_slice() {
        return Ok(None);
    }
    Ok(Some(Change::sealed_drop(path.try_clone(alloc)?, file)))
}

// What a step wrote into a file: the place, the bytes that went and those that came, how many stood
// behind them, and the digests of the file.
#[derive(Clone, Copy)]
struct Written<'a> {
    at: usize,
    old: &'a Bytes,
    new: &'a Bytes,
    rest: usize,
    seal: Option<Seal>,
}

// The old bytes are put back in the place of the new ones, where these stand there as they were
// written.
fn put_back(
    alloc: Global,
    path: &PathText,
    file: Bytes,
    written: &Written<'_>,
) -> Result<Option<Change>, AllocError>
    ensures { (tree : Files) → written.now.old.now ≢ written.now.new.now → get tree path.now ≡ Some file
        → length file ≤ LONGEST_FILE
        → IfOk result (MakesEdit tree (Ok (taken_back (Splice path.now written.now.at written.now.old.now
        written.now.new.now written.now.rest written.now.seal) (Some file)))) }
{
    let Written {
        at,
        old,
        new,
        rest,
        seal,
    } = *written;
    if !stands_as_written(
        file.as_slice(),
        at,
        old.as_slice(),
        new.as_slice(),
        rest,
        seal,
    ) {
        return Ok(None);
    }
    if !fits(file.len() - new.len(), old.len()) {
        return Ok(None);
    }
    Ok(Some(Change::sealed_splice(
        path.try_clone(alloc)?,
        file.as_slice(),
        at,
        new.try_clone(alloc)?,
        old.try_clone(alloc)?,
    )))
}

// Whether the new bytes stand in the file at the place, as a step wrote them.
fn stands_as_written(
    file: &[u8],
    at: usize,
    old: &[u8],
    new: &[u8],
    rest: usize,
    seal: Option<Seal>,
) -> bool
    ensures value { result ≡ stands_as_written file.now at old.now new.now rest seal }
    ensures room { IsTrue result → at + length new.now ≤ length file.now }
{
    stands_at(file, new, at) && (!old.starts_with(new) || is_as_left(file, at, new, rest, seal))
}

// Whether a file that has the new bytes at the place is as a step left it.
fn is_as_left(file: &[u8], at: usize, new: &[u8], rest: usize, seal: Option<Seal>) -> bool
    requires { at + length new.now ≤ length file.now }
    ensures { result ≡ is_as_left file.now at new.now rest seal }
{
    file.len() - at - new.len() == rest && has_digest(file, seal)
}

fn has_digest(file: &[u8], seal: Option<Seal>) -> bool
    ensures { result ≡ has_digest file.now seal }
{
    match seal {
        Some(seal) => Digest::of(file) == seal.after,
        None => true,
    }
}

// Whether the part stands in the file at the place.
fn stands_at(file: &[u8], part: &[u8], at: usize) -> bool
    ensures value { result ≡ stands_at file.now part.now at }
    ensures room { IsTrue result → at + length part.now ≤ length file.now }
{
    at <= file.len() && file[at..].starts_with(part)
}

// Whether a file of so many bytes and so many more isn't too long.
fn fits(kept: usize, more: usize) -> bool
    ensures { IsTrue result ↔ (kept + more ≤ LONGEST_FILE) }
{
    kept <= LONGEST_FILE && more <= LONGEST_FILE - kept
}
