//! Plans a command: finds what it would do at each path, and makes no change. One walk serves runs
//! and previews.
ghost use Rattle.std.specs.Prelude.{map, OnOk};
ghost use Rattle.reuse_plan.specs.FileTask.{at_by, at_places_by, scope_of, works_on};
ghost use Rattle.reuse_command.specs.Command.{HoldsEntry};
ghost use Rattle.reuse_plan.specs.Outcome.{path_edits_of, amendments_by, annotations_by};
ghost use Rattle.reuse_edit.specs.PathPlans.{AnswersPlan, AnswersPlans, EndsWalk};
ghost use Rattle.reuse_command.specs.Reading.{tree_of, IsOfPlan, ReadsAlone};
ghost use Rattle.reuse_plan.specs.Shown.{ShowsEach, ShowsOne};
ghost use Rattle.reuse_edit.specs.Pair.{ShowsPair};
ghost use Rattle.reuse_edit.specs.Tables.{is_amendable};
ghost use Rattle.reuse_plan.specs.TreeStyles.{styles_given, styles_in};
ghost use Rattle.reuse_command.specs.Covered.{is_covered};
ghost use Rattle.reuse_plan.specs.Unused.{AreUnusedAt, AreUnusedBy, AreUnusedIf};
ghost use Rattle.reuse_edit.specs.declared.path_plan.Policy.TheVariants.{Stop};

use crate::add_styles::plan_style_additions;
use crate::convert::plan_conversion;
use crate::download::plan_download;
use crate::file_task::FileTask;
use crate::revert::plan_revert;
use crate::select::{Listing, find_selected, gives_root};
use crate::styles::{OwnFiles, read_own_files, styles_by};
use crate::tree_paths::pair_paths;
use crate::unused::Unused;
use reuse_change::PathText;
use reuse_command::command::{Command, FileAmendment, HeaderAdditions, Place, Scope};
use reuse_command::reply::Refusal;
use reuse_edit::amend::plan_amended;
use reuse_edit::annotate::plan_annotated;
use reuse_edit::annotation::{Amendment, Annotation};
use reuse_edit::path_plan::{PathPlan, Policy};
use reuse_header::How;
use reuse_store::Store;
use std::alloc::Global;

/// What the command would do, path by path, on the tree that the store has; or the refusal at which
/// the walk ends. A command that chooses files notes what of its choice came to nothing.
pub(crate) fn plan_command<S: Store>(
    alloc: Global,
    store: &mut S,
    command: &Command,
    policy: Policy,
    unused: &mut Unused,
) -> Result<Vec<PathPlan>, Refusal>
    ensures plans { S.honest store.new → AnswersPlans policy (tree_of (S.files store.old))
        (path_edits_of command.now (tree_of (S.files store.old))) result }
    ensures unused { S.honest store.new
        → OnOk result (AreUnusedBy command.now (tree_of (S.files store.old)) unused.new) }
    ensures entry { HoldsEntry command.now }
    ensures asks { ReadsAlone S.Store (EndsWalk policy) store.old store.new result }
{
    match command {
        Command::Annotate {
            places,
            additions,
            how,
            scope,
        } => {
            let annotating = Annotating {
                places: places.as_slice(),
                additions,
                how,
                scope,
            };
            plan_annotation(alloc, store, &annotating, policy, unused)
        }
        Command::Amend {
            places,
            amendment,
            scope,
        } => {
            let amending = Amending {
                places: places.as_slice(),
                amendment,
                scope,
            };
            plan_amendment(alloc, store, &amending, policy, unused)
        }
        Command::ConvertDep5 => policy.of_changes(alloc, plan_conversion(alloc, store)),
        Command::Download { ids, texts } => {
            plan_download(alloc, store, ids.as_slice(), texts.as_slice(), policy)
        }
        Command::AddStyles(additions) => {
            policy.of_changes(alloc, plan_style_additions(alloc, store, additions))
        }
        Command::Revert {
            changes,
            touched,
            skip_moved,
        } => plan_revert(
            alloc,
            store,
            changes.as_slice(),
            touched,
            *skip_moved,
            policy,
        ),
    }
}

// What an annotation annotates, and how.
#[derive(Clone, Copy)]
struct Annotating<'a> {
    places: &'a [Place],
    additions: &'a HeaderAdditions,
    how: &'a How,
    scope: &'a Scope,
}

// What an amendment amends, and how.
#[derive(Clone, Copy)]
struct Amending<'a> {
    places: &'a [Place],
    amendment: &'a FileAmendment,
    scope: &'a Scope,
}

// What an annotation would do.
fn plan_annotation<S: Store>(
    alloc: Global,
    store: &mut S,
    annotating: &Annotating<'_>,
    policy: Policy,
    unused: &mut Unused,
) -> Result<Vec<PathPlan>, Refusal>
    ensures plans { S.honest store.new → AnswersPlans policy (tree_of (S.files store.old))
        (annotations_by annotating.now.places.now annotating.now.additions.now annotating.now.how.now
        annotating.now.scope.now (tree_of (S.files store.old)) (styles_in (tree_of (S.files store.old)))) result }
    ensures unused { S.honest store.new → OnOk result
        (AreUnusedIf (styles_in (tree_of (S.files store.old))) is_covered annotating.now.scope.now
        annotating.now.places.now (tree_of (S.files store.old)) unused.new) }
    ensures asks { ReadsAlone S.Store (EndsWalk policy) store.old store.new result }
{
    match read_own_files(alloc, store) {
        Ok(own) => annotate_by(alloc, store, annotating, &own, policy, unused),
        Err(refusal) => policy.refused_alone(alloc, refusal),
    }
}

// What it would do where the tree states this of its own styles.
fn annotate_by<S: Store>(
    alloc: Global,
    store: &mut S,
    annotating: &Annotating<'_>,
    own: &OwnFiles,
    policy: Policy,
    unused: &mut Unused,
) -> Result<Vec<PathPlan>, Refusal>
    ensures plans { S.honest store.new → AnswersPlans policy (tree_of (S.files store.old))
        (annotations_by annotating.now.places.now annotating.now.additions.now annotating.now.how.now
        annotating.now.scope.now (tree_of (S.files store.old)) (styles_given own.now.styles own.now.comments)) result }
    ensures unused { S.honest store.new → OnOk result
        (AreUnusedIf (styles_given own.now.styles own.now.comments) is_covered annotating.now.scope.now
        annotating.now.places.now (tree_of (S.files store.old)) unused.new) }
    ensures asks { ReadsAlone S.Store (EndsWalk policy) store.old store.new result }
{
    match styles_by(alloc, own) {
        Ok(styles) => {
            let asked = FileTask::Annotation(Annotation {
                additions: annotating.additions,
                how: annotating.how,
                scope: annotating.scope,
                styles: &styles,
            });
            plan_places(alloc, store, annotating.places, &asked, policy, unused)
        }
        Err(refusal) => policy.refused_alone(alloc, refusal),
    }
}

// What an amendment would do.
fn plan_amendment<S: Store>(
    alloc: Global,
    store: &mut S,
    amending: &Amending<'_>,
    policy: Policy,
    unused: &mut Unused,
) -> Result<Vec<PathPlan>, Refusal>
    ensures plans { S.honest store.new → AnswersPlans policy (tree_of (S.files store.old))
        (amendments_by amending.now.places.now amending.now.amendment.now amending.now.scope.now
        (tree_of (S.files store.old)) (styles_in (tree_of (S.files store.old)))) result }
    ensures unused { S.honest store.new → OnOk result
        (AreUnusedIf (styles_in (tree_of (S.files store.old))) is_amendable amending.now.scope.now
        amending.now.places.now (tree_of (S.files store.old)) unused.new) }
    ensures asks { ReadsAlone S.Store (EndsWalk policy) store.old store.new result }
{
    match read_own_files(alloc, store) {
        Ok(own) => amend_by(alloc, store, amending, &own, policy, unused),
        Err(refusal) => policy.refused_alone(alloc, refusal),
    }
}

// What it would do where the tree states this of its own styles.
fn amend_by<S: Store>(
    alloc: Global,
    store: &mut S,
    amending: &Amending<'_>,
    own: &OwnFiles,
    policy: Policy,
    unused: &mut Unused,
) -> Result<Vec<PathPlan>, Refusal>
    ensures plans { S.honest store.new → AnswersPlans policy (tree_of (S.files store.old))
        (amendments_by amending.now.places.now amending.now.amendment.now amending.now.scope.now
        (tree_of (S.files store.old)) (styles_given own.now.styles own.now.comments)) result }
    ensures unused { S.honest store.new → OnOk result
        (AreUnusedIf (styles_given own.now.styles own.now.comments) is_amendable amending.now.scope.now
        amending.now.places.now (tree_of (S.files store.old)) unused.new) }
    ensures asks { ReadsAlone S.Store (EndsWalk policy) store.old store.new result }
{
    match styles_by(alloc, own) {
        Ok(styles) => {
            let asked = FileTask::Amendment(Amendment {
                amendment: amending.amendment,
                scope: amending.scope,
                styles: &styles,
            });
            plan_places(alloc, store, amending.places, &asked, policy, unused)
        }
        Err(refusal) => policy.refused_alone(alloc, refusal),
    }
}

// What is done at the places, by what is asked of each file and by the styles of the tree.
fn plan_places<S: Store>(
    alloc: Global,
    store: &mut S,
    places: &[Place],
    asked: &FileTask<'_, '_>,
    policy: Policy,
    unused: &mut Unused,
) -> Result<Vec<PathPlan>, Refusal>
    ensures plans { S.honest store.new → AnswersPlans policy (tree_of (S.files store.old))
        (at_places_by asked.now (tree_of (S.files store.old)) places.now) result }
    ensures unused { S.honest store.new
        → OnOk result (AreUnusedAt (works_on asked.now) (scope_of asked.now) places.now (tree_of (S.files store.old))
        unused.new) }
    ensures asks { ReadsAlone S.Store (EndsWalk policy) store.old store.new result }
{
    if gives_root(places, asked.scope()) {
        *unused = Unused::none(alloc);
        return policy.refused_alone(alloc, Refusal::IsFolder(Place::Root));
    }
    match find_selected(alloc, store, places, asked, unused) {
        Ok(selected) => plan_paths(
            alloc,
            store,
            &selected.paths,
            &selected.listing,
            asked,
            policy,
        ),
        Err(refusal) => Err(refusal),
    }
}

// What is done at the selected paths.
fn plan_paths<S: Store>(
    alloc: Global,
    store: &mut S,
    selected: &[PathText],
    listing: &Listing,
    asked: &FileTask<'_, '_>,
    policy: Policy,
) -> Result<Vec<PathPlan>, Refusal>
    ensures plans { S.honest store.new → ShowsEach listing.now (tree_of (S.files store.old)) selected.now
        → AnswersPlans policy (tree_of (S.files store.old))
        (map (at_by asked.now (tree_of (S.files store.old))) selected.now) result }
    ensures asks { ReadsAlone S.Store (EndsWalk policy) store.old store.new result }
{
    let mut plans = Vec::with_capacity(alloc, selected.len())?;
    for path in selected {
        let plan = match plan_one(alloc, store, path, listing, asked, policy) {
            Ok(plan) => plan,
            Err(refusal) => return Err(refusal),
        };
        plans.push(plan)?;
    }
    Ok(plans)
}

// What is done at a path.
fn plan_one<S: Store>(
    alloc: Global,
    store: &mut S,
    path: &PathText,
    listing: &Listing,
    asked: &FileTask<'_, '_>,
    policy: Policy,
) -> Result<PathPlan, Refusal>
    ensures plan { S.honest store.new → ShowsOne listing.now (tree_of (S.files store.old)) path.now → AnswersPlan policy
        (tree_of (S.files store.old)) (at_by asked.now (tree_of (S.files store.old)) path.now) result }
    ensures asks { ReadsAlone S.Store (EndsWalk policy) store.old store.new result }
{
    let planned = match listing {
        Listing::Listed(paths) => plan_path(alloc, store, paths.as_slice(), path, asked),
        Listing::Alone => plan_alone(alloc, store, path, asked),
    };
    match planned {
        Ok(plan) => Ok(plan),
        Err(refusal) => policy.refused(refusal),
    }
}

// The plan of a path that isn't refused, by looking at it and its neighbour alone.
fn plan_alone<S: Store>(
    alloc: Global,
    store: &mut S,
    path: &PathText,
    asked: &FileTask<'_, '_>,
) -> Result<PathPlan, Refusal>
    ensures plan { S.honest store.new → AnswersPlan Stop (tree_of (S.files store.old))
        (at_by asked.now (tree_of (S.files store.old)) path.now) result }
    ensures asks { ReadsAlone S.Store IsOfPlan store.old store.new result }
{
    match pair_paths(alloc, store, path) {
        Ok(paths) => plan_path(alloc, store, &paths, path, asked),
        Err(refusal) => Err(refusal),
    }
}

// The plan of a path that isn't refused. `paths` show it and its neighbour.
fn plan_path<S: Store>(
    alloc: Global,
    store: &mut S,
    paths: &[PathText],
    path: &PathText,
    asked: &FileTask<'_, '_>,
) -> Result<PathPlan, Refusal>
    ensures plan { S.honest store.new → ShowsPair paths.now (tree_of (S.files store.old)) path.now → AnswersPlan Stop
        (tree_of (S.files store.old)) (at_by asked.now (tree_of (S.files store.old)) path.now) result }
    ensures asks { ReadsAlone S.Store IsOfPlan store.old store.new result }
{
    match asked {
        FileTask::Annotation(asked) => plan_annotated(alloc, store, paths, path, asked),
        FileTask::Amendment(asked) => match plan_amended(alloc, store, paths, path, asked) {
            Ok(amended) => Ok(PathPlan::of_amended(alloc, path, amended)?),
            Err(refusal) => Err(refusal),
        },
    }
}
