//! What is made of the plans of a command: the changes of a run, and what a preview reports.
ghost use Rattle.std.specs.Prelude.{◌≡◌, ◌++◌, ◌∷◌, [], ◌||◌, map, filter_map, IfOk, OnOk};
ghost use Rattle.std.specs.Option.{option_to_list};
ghost use Rattle.std.specs.List.{list_any};
ghost use Rattle.reuse_plan.specs.Planned.{change_planned, changes_planned, path_outcome_planned, is_refusal};
ghost use Rattle.reuse_plan.specs.Planned.{left_planned, left_planned_by};
ghost use Rattle.reuse_plan.specs.Counted.{harmed_planned, is_skip_planned, skipped_planned};

use crate::counts::Harmed;
use reuse_change::{Change, PathText};
use reuse_command::command::Command;
use reuse_command::path_outcome::PathOutcome;
use reuse_edit::path_plan::PathPlan;
use std::alloc::{AllocError, Global};

/// What a preview reports of each path, and the changes beside that.
#[derive(Drop)]
pub(crate) struct Planned {
    pub(crate) path_outcomes: Vec<PathOutcome>,
    pub(crate) changes: Vec<Change>,
    /// Whether one of the path outcomes is a refusal.
    pub(crate) is_refused: bool,
}

impl Planned {
    /// What the plans report.
    pub(crate) fn of(alloc: Global, plans: Vec<PathPlan>) -> Result<Planned, AllocError>
        ensures path_outcomes { IfOk result
            (λ planned. planned.path_outcomes.items ≡ map path_outcome_planned plans.items) }
        ensures changes { IfOk result (λ planned. planned.changes.items ≡ changes_planned plans.items) }
        ensures refused { IfOk result (λ planned. planned.is_refused ≡ list_any is_refusal plans.items) }
    {
        let mut planned = Planned {
            path_outcomes: Vec::with_capacity(alloc, plans.len())?,
            changes: Vec::new(alloc),
            is_refused: false,
        };
        for plan in plans {
            planned.push(alloc, plan)?;
        }
        Ok(planned)
    }

    // Adds what a plan reports.
    fn push(&mut self, alloc: Global, plan: PathPlan) -> Result<(), AllocError>
        ensures path_outcomes { OnOk result
            (self.new.path_outcomes.items ≡ self.old.path_outcomes.items ++ path_outcome_planned plan ∷ []) }
        ensures changes { OnOk result
            (self.new.changes.items ≡ self.old.changes.items ++ option_to_list (change_planned plan)) }
        ensures refused { OnOk result (self.new.is_refused ≡ (self.old.is_refused || is_refusal plan)) }
    {
        let path_outcome = match plan {
            PathPlan::Change { change, harm } => {
                let path = change.path().try_clone(alloc)?;
                self.changes.push(change)?;
                PathOutcome::Changes { path, harm }
            }
            PathPlan::Unchanged(path) => PathOutcome::Unchanged(path),
            PathPlan::Left { path, change } => match change {
                None => PathOutcome::Unchanged(path),
                Some(change) => {
                    let path = change.path().try_clone(alloc)?;
                    self.changes.push(change)?;
                    PathOutcome::Changes { path, harm: None }
                }
            },
            PathPlan::Skipped(path) => PathOutcome::Skipped(path),
            PathPlan::Refused(refusal) => {
                self.is_refused = true;
                PathOutcome::Refused(refusal)
            }
        };
        self.path_outcomes.push(path_outcome)?;
        Ok(())
    }
}

/// The changes among the plans.
pub(crate) fn changes_planned(
    alloc: Global,
    plans: Vec<PathPlan>,
) -> Result<Vec<Change>, AllocError>
    ensures { IfOk result (λ changes. changes.items ≡ changes_planned plans.items) }
{
    plans.into_iter().filter_map(change_planned).collect(alloc)
}

fn change_planned(plan: PathPlan) -> Option<Change>
    ensures { result ≡ change_planned plan }
{
    match plan {
        PathPlan::Change { change, harm: _ } => Some(change),
        PathPlan::Left { path: _, change } => change,
        _ => None,
    }
}

/// How many of the plans skip their file.
pub(crate) fn skipped_planned(plans: &[PathPlan]) -> usize
    ensures { result ≡ skipped_planned plans.now }
{
    plans.iter().filter(|plan| is_skip(plan)).count()
}

fn is_skip(plan: &PathPlan) -> bool
    ensures { result ≡ is_skip_planned plan.now }
{
    matches!(plan, PathPlan::Skipped(_))
}

/// The files among the plans into which a header goes that could break something.
pub(crate) fn harms_planned(alloc: Global, plans: &[PathPlan]) -> Result<Vec<Harmed>, AllocError>
    ensures { IfOk result (λ harms. harms.items ≡ filter_map harmed_planned plans.now) }
{
    let mut harms = Vec::new(alloc);
    for plan in plans {
        push_harm(&mut harms, alloc, plan)?;
    }
    Ok(harms)
}

// Adds the file of a plan, if a header could break something there.
fn push_harm(harms: &mut Vec<Harmed>, alloc: Global, plan: &PathPlan) -> Result<(), AllocError>
    ensures { OnOk result (harms.new.items ≡ harms.old.items ++ option_to_list (harmed_planned plan.now)) }
{
    if let PathPlan::Change {
        change,
        harm: Some(harm),
    } = plan
    {
        let path = change.path().try_clone(alloc)?;
        harms.push(Harmed { path, harm: *harm })?;
    }
    Ok(())
}

/// The paths of the plans of a command that leave them: those of an amendment alone do.
pub(crate) fn left_planned_by(
    alloc: Global,
    command: &Command,
    plans: &[PathPlan],
) -> Result<Vec<PathText>, AllocError>
    ensures { IfOk result (λ left. left.items ≡ left_planned_by command.now plans.now) }
{
    match command {
        Command::Amend { .. } => left_planned(alloc, plans),
        _ => Ok(Vec::new(alloc)),
    }
}

fn left_planned(alloc: Global, plans: &[PathPlan]) -> Result<Vec<PathText>, AllocError>
    ensures { IfOk result (λ left. left.items ≡ filter_map left_planned plans.now) }
{
    let mut left = Vec::new(alloc);
    for plan in plans {
        push_left(&mut left, alloc, plan)?;
    }
    Ok(left)
}

// Adds the path of a plan, if that leaves it.
fn push_left(left: &mut Vec<PathText>, alloc: Global, plan: &PathPlan) -> Result<(), AllocError>
    ensures { OnOk result (left.new.items ≡ left.old.items ++ option_to_list (left_planned plan.now)) }
{
    if let PathPlan::Left { path, change: _ } = plan {
        left.push(path.try_clone(alloc)?)?;
    }
    Ok(())
}
