//! What annotate does at a path: in the comment of the file, or in its neighbour.
ghost use Rattle.std.specs.Prelude.{◌≡◌, true};
ghost use Rattle.reuse_edit.specs.AnnotationPlan.{path_by, path_beside_by};
ghost use Rattle.reuse_command.specs.Covered.{is_covered};
ghost use Rattle.reuse_edit.specs.PathPlans.{AnswersPlan};
ghost use Rattle.reuse_command.specs.Reading.{tree_of, IsOfPlan, ReadsAlone};
ghost use Rattle.reuse_edit.specs.Pair.{ShowsPair};
ghost use Rattle.reuse_edit.specs.declared.path_plan.Policy.TheVariants.{Stop};

use crate::annotation::Annotation;
use crate::covered::is_covered;
use crate::path_plan::PathPlan;
use crate::place::{
    Step, absent_refusal, neighbour_path, plan_neighbour, plan_new_neighbour, plan_reading,
};
use crate::target_choice::goes_to_neighbour;
use reuse_change::{PathText, is_among};
use reuse_command::reply::Refusal;
use reuse_store::Store;
use reuse_text::LONGEST_FILE;
use std::alloc::Global;

/// What annotate does at a path that isn't refused. `paths` show it and its neighbour.
pub fn plan_annotated<S: Store>(
    alloc: Global,
    store: &mut S,
    paths: &[PathText],
    path: &PathText,
    asked: &Annotation<'_, '_>,
) -> Result<PathPlan, Refusal>
    ensures plan { S.honest store.new → ShowsPair paths.now (tree_of (S.files store.old)) path.now → AnswersPlan Stop
        (tree_of (S.files store.old)) (path_by asked.now (tree_of (S.files store.old)) path.now) result }
    ensures asks { ReadsAlone S.Store IsOfPlan store.old store.new result }
{
    if !is_among(paths, path.as_bytes()) {
        return Err(absent_refusal(alloc, paths, path)?);
    }
    if !is_covered(path.as_bytes()) {
        return Err(Refusal::NotCovered(path.try_clone(alloc)?));
    }
    if goes_to_neighbour(alloc, paths, path, asked)? {
        return plan_in_neighbour(alloc, store, paths, path, asked);
    }
    let reading = store.read(alloc, path, LONGEST_FILE)?;
    match plan_reading(alloc, path, asked, reading) {
        Ok(Step::Done(plan)) => Ok(plan),
        Ok(Step::InNeighbour) => plan_in_neighbour(alloc, store, paths, path, asked),
        Err(refusal) => Err(refusal),
    }
}

// What is done at a covered file whose neighbour is the place. `paths` show whether that is there.
fn plan_in_neighbour<S: Store>(
    alloc: Global,
    store: &mut S,
    paths: &[PathText],
    path: &PathText,
    asked: &Annotation<'_, '_>,
) -> Result<PathPlan, Refusal>
    ensures plan { S.honest store.new → ShowsPair paths.now (tree_of (S.files store.old)) path.now
        → is_covered path.now ≡ true
        → AnswersPlan Stop (tree_of (S.files store.old))
        (path_beside_by asked.now (tree_of (S.files store.old)) path.now) result }
    ensures asks { ReadsAlone S.Store IsOfPlan store.old store.new result }
{
    let Some(neighbour) = neighbour_path(alloc, path)? else {
        return Err(Refusal::TooLong(path.try_clone(alloc)?));
    };
    if !is_among(paths, neighbour.as_bytes()) {
        let change = plan_new_neighbour(alloc, store, path, neighbour, asked)?;
        return Ok(PathPlan::of_change(alloc, path, change)?);
    }
    let reading = store.read(alloc, &neighbour, LONGEST_FILE)?;
    plan_neighbour(alloc, path, &neighbour, asked, reading)
}
