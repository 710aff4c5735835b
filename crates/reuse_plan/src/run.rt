//! The changes of a run and what it counts, and what a preview reports: both are made of the plans
//! of one walk.
ghost use Rattle.std.specs.Prelude.{◌≡◌, ◌++◌, [], false, map, None, IfOk, IfErr, OnOk};
ghost use Rattle.reuse_command.specs.Command.{is_amend};
ghost use Rattle.reuse_command.specs.declared.path_outcome.PathOutcome.TheVariants.{Left};
ghost use Rattle.std.specs.List.Sorted.{IsPermutation, IsSortedBy};
ghost use Rattle.reuse_plan.specs.Counted.{IsCounted};
ghost use Rattle.reuse_plan.specs.PathOutcomes.{path_outcomes_of, first_refusal, left_paths};
ghost use Rattle.reuse_plan.specs.Outcome.{outcome_of, edits_of};
ghost use Rattle.reuse_plan.specs.Planned.{limit_planned};
ghost use Rattle.reuse_plan.specs.Plan.{IsPlan, Records, is_before};
ghost use Rattle.reuse_edit.specs.Answered.{IsRefusalOf};
ghost use Rattle.reuse_command.specs.Answer.{IsEarlyFailure};
ghost use Rattle.reuse_command.specs.Reading.{tree_of, IsOfPlan, OnlyReads, RefusedAsRead};

use crate::counts::Counts;
use crate::planned::{Planned, changes_planned, harms_planned, left_planned_by, skipped_planned};
use crate::walk::plan_command;
use reuse_change::{Change, PathText, is_too_many};
use reuse_command::command::Command;
use reuse_command::path_outcome::{PathOutcome, PathOutcomes, Previewed};
use reuse_command::reply::Refusal;
use reuse_edit::path_plan::Policy;
use reuse_json::Changes;
use reuse_store::Store;
use std::alloc::{AllocError, Global};

/// What a run of a command comes to.
#[derive(Debug, Drop)]
pub struct RunPlan {
    /// Its changes, in byte order of their paths.
    pub changes: Vec<Change>,
    /// The paths that it leaves, in the order of the walk: what tells their licensing will still
    /// hold what an amendment names.
    pub left: Vec<PathText>,
}

/// What a run of the command comes to on the tree that the store has, or the command's first
/// refusal. Where there is none, what the walk counted is put into the counts.
pub fn plan<S: Store>(
    alloc: Global,
    store: &mut S,
    command: &Command,
    counts: &mut Counts,
) -> Result<RunPlan, Refusal>
    ensures changes { S.honest store.new → IfOk result (λ plan. IsPlan
        (outcome_of command.now (tree_of (S.files store.old))) (tree_of (S.files store.old)) plan.changes.items) }
    // The changes hold what the command removes and writes at each path, and no more.
    ensures recorded { S.honest store.new → IfOk result (λ plan. Records (tree_of (S.files store.old))
        (edits_of command.now (tree_of (S.files store.old))) plan.changes.items) }
    ensures left { S.honest store.new
        → IfOk result (λ plan. plan.left.items ≡ left_paths command.now (tree_of (S.files store.old))) }
    ensures none { is_amend command.now ≡ false → IfOk result (λ plan. plan.left.items ≡ []) }
    ensures counts { S.honest store.new → OnOk result (IsCounted command.now (tree_of (S.files store.old)) counts.new) }
    ensures refusal { S.honest store.new
        → IfErr result (λ refusal. IsRefusalOf (outcome_of command.now (tree_of (S.files store.old))) refusal) }
    ensures fails { RefusedAsRead S.Store store.old store.new result }
    ensures reads { OnlyReads S.Store store.old store.new }
    ensures planned { IfErr result IsOfPlan }
{
    let plans = plan_command(alloc, store, command, Policy::Stop, &mut counts.unused)?;
    counts.skipped = skipped_planned(&plans);
    counts.harms = harms_planned(alloc, &plans)?;
    let left = left_planned_by(alloc, command, &plans)?;
    counts.left = left.len();
    let changes = sorted(changes_planned(alloc, plans)?);
    if is_too_many(&changes) {
        return Err(Refusal::TooMany);
    }
    Ok(RunPlan { changes, left })
}

// The changes in byte order of their paths. A neighbour's need not be that of its file.
fn sorted(changes: Vec<Change>) -> Vec<Change>
    ensures moved { IsPermutation changes.items result.items }
    ensures sorted { IsSortedBy is_before result.items }
{
    let mut changes = changes;
    changes.sort_unstable_by(|one, other| one.path().cmp(other.path()));
    changes
}

/// What a run of the command would do on the tree that the store has: the outcomes of its paths,
/// and its changes in byte order of their paths. What the walk counted is put into the counts.
pub fn plan_preview<S: Store>(
    alloc: Global,
    store: &mut S,
    command: &Command,
    counts: &mut Counts,
) -> Result<Previewed, Refusal>
    ensures path_outcomes { S.honest store.new → IfOk result
        (λ previewed. previewed.path_outcomes ≡ path_outcomes_of command.now (tree_of (S.files store.old))) }
    // Where none of the path outcomes is a refusal, the changes are those of a run.
    ensures changes { S.honest store.new → IfOk result (λ previewed. first_refusal previewed.path_outcomes ≡ None
        → IsPlan (outcome_of command.now (tree_of (S.files store.old)))
        (tree_of (S.files store.old)) previewed.changes) }
    ensures recorded { S.honest store.new → IfOk result (λ previewed. first_refusal previewed.path_outcomes ≡ None
        → Records (tree_of (S.files store.old))
        (edits_of command.now (tree_of (S.files store.old))) previewed.changes) }
    ensures counts { S.honest store.new → OnOk result (IsCounted command.now (tree_of (S.files store.old)) counts.new) }
    ensures fails { RefusedAsRead S.Store store.old store.new result }
    ensures reads { OnlyReads S.Store store.old store.new }
    ensures refusal { IfErr result IsEarlyFailure }
{
    let plans = plan_command(alloc, store, command, Policy::Collect, &mut counts.unused)?;
    counts.skipped = skipped_planned(&plans);
    counts.harms = harms_planned(alloc, &plans)?;
    let left = left_planned_by(alloc, command, &plans)?;
    counts.left = left.len();
    Ok(with_limit(Planned::of(alloc, plans)?, left)?)
}

// What is planned. Behind the path outcomes stands, where none is a refusal, that the changes are
// too many together, and then which paths would be left.
fn with_limit(planned: Planned, left: Vec<PathText>) -> Result<Previewed, AllocError>
    ensures path_outcomes { IfOk result (λ previewed. previewed.path_outcomes ≡ planned.path_outcomes.items
        ++ limit_planned planned.is_refused planned.changes.items ++ map Left left.items) }
    ensures moved { IfOk result (λ previewed. IsPermutation planned.changes.items previewed.changes) }
    ensures sorted { IfOk result (λ previewed. IsSortedBy is_before previewed.changes) }
{
    let over = !planned.is_refused && is_too_many(&planned.changes);
    let Planned {
        mut path_outcomes,
        changes,
        is_refused: _,
    } = planned;
    if over {
        path_outcomes.push(PathOutcome::Refused(Refusal::TooMany))?;
    }
    push_left(&mut path_outcomes, left)?;
    Ok(Previewed {
        path_outcomes: PathOutcomes::new(path_outcomes),
        changes: Changes::new(sorted(changes)),
    })
}

// Adds that each of the paths would be left.
fn push_left(path_outcomes: &mut Vec<PathOutcome>, left: Vec<PathText>) -> Result<(), AllocError>
    ensures { OnOk result (path_outcomes.new.items ≡ path_outcomes.old.items ++ map Left left.items) }
{
    for path in left {
        path_outcomes.push(PathOutcome::Left(path))?;
    }
    Ok(())
}
