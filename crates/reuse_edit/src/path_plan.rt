//! The plan of a path: what a command would do there. One walk makes the plans of a command, for a
//! run and for a preview; a policy says whether it goes on behind a refusal.
ghost use Rattle.std.specs.Prelude.{◌≡◌, ◌⊎◌, List, map, Result, Err, Option, None, IfOk, IfErr, false};
ghost use Rattle.reuse_edit.specs.Edit.{Edit};
ghost use Rattle.reuse_edit.specs.PathEdits.{PathEdit, all_or_none, refused_alone};
ghost use Rattle.reuse_edit.specs.PathPlans.{AnswersPlan, AnswersPlans, EndsWalk, IsPlanOf, plain_change};
ghost use Rattle.reuse_edit.specs.Answered.{AnswersEdits, IsRefusalOf, MakesEdit};
ghost use Rattle.reuse_command.specs.Answer.{IsNoFailure};
ghost use Rattle.reuse_command.specs.Reading.{Files, IsOfPlan};
ghost use Rattle.reuse_command.specs.declared.reply.Refusal.{Refusal};
ghost use Rattle.reuse_edit.specs.declared.path_plan.Policy.TheVariants.{Stop};
ghost use Rattle.reuse_command.specs.declared.failure.Failure.TheVariants as failures;

use crate::left::Amended;
use reuse_change::{Change, PathText};
use reuse_command::path_outcome::unless_failure;
use reuse_command::reply::Refusal;
use reuse_header::Harm;
use std::alloc::{AllocError, Global};

/// What a command would do at a path.
#[derive(Drop)]
pub enum PathPlan {
    /// The path changes so, and what the header could break where that is the file's first.
    Change {
        change: Change,
        harm: Option<Harm>,
    },
    /// The file is gone through and stays as it is.
    Unchanged(PathText),
    /// The path is amended so, if it changes, and what tells its licensing still holds what the
    /// call names.
    Left {
        path: PathText,
        change: Option<Change>,
    },
    /// The file is skipped, as that was asked for.
    Skipped(PathText),
    /// The call is refused so.
    Refused(Refusal),
}

impl PathPlan {
    /// That the path changes so, with no new header in the file.
    pub fn plain(change: Change) -> PathPlan
        ensures { result ≡ plain_change change }
    {
        PathPlan::Change { change, harm: None }
    }

    /// The plan of a path that is amended so.
    pub fn of_amended(
        alloc: Global,
        path: &PathText,
        amended: Amended,
    ) -> Result<PathPlan, AllocError>
        ensures { (tree : Files) (edit : Result (Option Edit) Refusal) → MakesEdit tree edit amended.change
            → IfOk result (IsPlanOf Stop tree (record {
              path = path.now;
              skipped = false;
              harm = None;
              left = amended.is_left;
              edit = edit;
            })) }
    {
        let Amended { change, is_left } = amended;
        if is_left {
            let path = path.try_clone(alloc)?;
            Ok(PathPlan::Left { path, change })
        } else {
            PathPlan::of_change(alloc, path, change)
        }
    }

    /// The plan of a path whose file isn't skipped, by its change, if it changes, with no new
    /// header in the file.
    pub fn of_change(
        alloc: Global,
        path: &PathText,
        change: Option<Change>,
    ) -> Result<PathPlan, AllocError>
        ensures { (tree : Files) (edit : Result (Option Edit) Refusal) → MakesEdit tree edit change
            → IfOk result (IsPlanOf Stop tree (record {
              path = path.now;
              skipped = false;
              harm = None;
              left = false;
              edit = edit;
            })) }
    {
        match change {
            Some(change) => Ok(PathPlan::plain(change)),
            None => Ok(PathPlan::Unchanged(path.try_clone(alloc)?)),
        }
    }
}

/// What a walk does where a path is refused. An I/O error or an allocation failure ends each walk.
#[derive(Clone, Copy)]
pub enum Policy {
    /// It ends there, as a run does.
    Stop,
    /// It goes on, as a preview does.
    Collect,
}

impl Policy {
    /// The plan of a path that is refused so, where the walk goes on.
    pub fn refused(self, refusal: Refusal) -> Result<PathPlan, Refusal>
        ensures plan { (tree : Files) (here : PathEdit) → IsRefusalOf here.edit refusal
            → AnswersPlan self tree here result }
        ensures reported { IfOk result (λ plan. IsNoFailure refusal) }
        ensures same { IfErr result (λ ended. ended ≡ refusal) }
        ensures ends { IsOfPlan refusal → IfErr result (EndsWalk self) }
    {
        match self {
            Policy::Stop => Err(refusal),
            Policy::Collect => Ok(PathPlan::Refused(unless_failure(refusal)?)),
        }
    }

    /// The plans of a command that is refused so as a whole, where the walk goes on.
    pub fn refused_alone(self, alloc: Global, refusal: Refusal) -> Result<Vec<PathPlan>, Refusal>
        ensures plans { (tree : Files) → AnswersPlans self tree (refused_alone refusal) result }
        ensures same { IfErr result (λ ended. (ended ≡ Refusal.Failed failures.Memory) ⊎ (ended ≡ refusal)) }
        ensures reported { IfOk result (λ plans. IsNoFailure refusal) }
        ensures ends { IsOfPlan refusal → IfErr result (EndsWalk self) }
    {
        let plan = self.refused(refusal)?;
        let mut plans = Vec::new(alloc);
        plans.push(plan)?;
        Ok(plans)
    }

    /// The plans of changes that are made or refused together.
    pub fn of_changes(
        self,
        alloc: Global,
        changes: Result<Vec<Change>, Refusal>,
    ) -> Result<Vec<PathPlan>, Refusal>
        ensures plans { (tree : Files) (edits : Result (List Edit) Refusal) → AnswersEdits tree edits changes
            → AnswersPlans self tree (all_or_none edits) result }
        ensures same { IfErr result (λ ended. (ended ≡ Refusal.Failed failures.Memory) ⊎ (changes ≡ Err ended)) }
        ensures ends { IfErr changes IsOfPlan → IfErr result (EndsWalk self) }
    {
        match changes {
            Ok(changes) => Ok(all_changes(alloc, changes)?),
            Err(refusal) => self.refused_alone(alloc, refusal),
        }
    }
}

/// A plan for each of the changes.
pub fn all_changes(alloc: Global, changes: Vec<Change>) -> Result<Vec<PathPlan>, AllocError>
    ensures { IfOk result (λ plans. plans.items ≡ map plain_change changes.items) }
{
    changes.into_iter().map(PathPlan::plain).collect(alloc)
}
