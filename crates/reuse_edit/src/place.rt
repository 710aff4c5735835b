//! What annotate does at the place that was chosen.
ghost use Rattle.std.specs.Prelude.{◌≡◌, ◌≤◌, ℕ, List, false, true, length, IfOk, IfErr, IfSome, IfNone, Some, None};
ghost use Rattle.std.specs.Prelude.{Ok, Err, nat_lt};
ghost use Rattle.reuse_command.specs.Reading.{get, reading_of, tree_of, Files, IsOfPlan, ReadsAlone};
ghost use Rattle.reuse_command.specs.Covered.{is_covered};
ghost use Rattle.reuse_edit.specs.Pair.{ShowsPair};
ghost use Rattle.reuse_change.specs.Clash.{is_clash};
ghost use Rattle.reuse_header.specs.declared.annotation.How.{How};
ghost use Rattle.reuse_style.specs.Kinds.{OwnKinds};
ghost use Rattle.reuse_command.specs.declared.command.HeaderAdditions.{HeaderAdditions};
ghost use Rattle.reuse_command.specs.declared.command.FileAmendment.{FileAmendment};
ghost use Rattle.reuse_edit.specs.Amend.{amended_at};
ghost use Rattle.reuse_edit.specs.Annotate.{neighbour_of, annotated_at};
ghost use Rattle.reuse_edit.specs.Annotation.{annotation_of, neighbour_annotation_of};
ghost use Rattle.reuse_words.specs.Added.{IsExpectedTextEdit, text_answer};
ghost use Rattle.reuse_edit.specs.AnnotationPlan.{neighbour_by, path_inside_by, path_neighbour_by};
ghost use Rattle.reuse_edit.specs.Harmed.{harm_inside};
ghost use Rattle.reuse_edit.specs.PathPlans.{AnswersPlan};
ghost use Rattle.reuse_change.specs.Listing.{is_among};
ghost use Rattle.reuse_edit.specs.Answered.{AnswersEdit, AnswersOf};
ghost use Rattle.reuse_command.specs.Refused.{IsNoFault};
ghost use Rattle.reuse_edit.specs.Steps.{short_file, StepsTo, StepsBy};
ghost use Rattle.reuse_command.specs.declared.command.Scope.{Scope};
ghost use Rattle.reuse_edit.specs.declared.path_plan.Policy.TheVariants.{Stop};
ghost use Rattle.reuse_command.specs.declared.failure.Failure.TheVariants as failures;

use crate::annotation::Annotation;
use crate::edit::{change_by, making_by};
use crate::path_plan::PathPlan;
use crate::target::Target;
use crate::target_choice::{neighbour_of, target_by_bytes};
use reuse_change::{Change, PathError, PathText, is_folder};
use reuse_command::command::Place;
use reuse_command::failure::Failure;
use reuse_command::reply::Refusal;
use reuse_header::{Harm, Splice, Style, find, harm_of, neighbour_has_tag, text_stands_first};
use reuse_store::{Reading, Store, is_clash_at};
use reuse_text::{Bytes, LONGEST_FILE};
use reuse_words::{
    TextHeaderRefusal, annotate_file_with, annotate_neighbour_with, text_annotations_fit,
};
use std::alloc::{AllocError, Global};

/// What is known of a path once its file was read.
#[derive(Drop)]
pub(crate) enum Step {
    /// What is done there.
    Done(PathPlan),
    /// That is what is done in its neighbour.
    InNeighbour,
}

/// The refusal of a path without a file. `paths` show what stands there.
pub(crate) fn absent_refusal(
    alloc: Global,
    paths: &[PathText],
    path: &PathText,
) -> Result<Refusal, AllocError>
    ensures annotated { (how : How) (scope : Scope) (additions : HeaderAdditions) (own : OwnKinds) (tree : Files)
        → ShowsPair paths.now tree path.now → is_among paths.now path.now ≡ false
        → IfOk result (λ refusal. annotated_at how scope additions own tree path.now ≡ Err refusal) }
    ensures amended { (amendment : FileAmendment) (scope : Scope) (own : OwnKinds) (tree : Files)
        → ShowsPair paths.now tree path.now → is_among paths.now path.now ≡ false
        → IfOk result (λ refusal. amended_at amendment scope own tree path.now ≡ Err refusal) }
    ensures no_fault { IfOk result IsNoFault }
{
    let refused = path.try_clone(alloc)?;
    if is_folder(alloc, paths, path)? {
        Ok(Refusal::IsFolder(Place::Path(refused)))
    } else {
        Ok(Refusal::NoSuchPath(refused))
    }
}

/// The path of a file's neighbour, unless that is over 4,096 bytes.
pub fn neighbour_path(alloc: Global, path: &PathText) -> Result<Option<PathText>, Refusal>
    ensures path { IfOk result (λ found. IfSome found (λ neighbour. neighbour ≡ neighbour_of path.now)) }
    ensures long { IfOk result (λ found. IfNone found (nat_lt 4096 (length (neighbour_of path.now)) ≡ true)) }
    ensures short { IfOk result
        (λ found. IfSome found (λ neighbour. nat_lt 4096 (length (neighbour_of path.now)) ≡ false)) }
    ensures memory { IfErr result (λ refusal. refusal ≡ Refusal.Failed failures.Memory) }
{
    let text = format!(in alloc; "{}.license", path.text())?;
    match PathText::new(alloc, text.as_str()) {
        Ok(neighbour) => Ok(Some(neighbour)),
        Err(PathError::BadPath) => Ok(None),
        Err(PathError::Memory) => Err(Refusal::Failed(Failure::Memory)),
    }
}

/// What is done with a covered file that doesn't go beside at once, by what was read of it.
pub(crate) fn plan_reading(
    alloc: Global,
    path: &PathText,
    asked: &Annotation<'_, '_>,
    reading: Reading,
) -> Result<Step, Refusal>
    ensures step { (tree : Files) (bytes : List ℕ) → get tree path.now ≡ Some bytes
        → reading ≡ reading_of (Some bytes) LONGEST_FILE
        → StepsTo asked.now tree path.now bytes result }
    ensures no_fault { IfErr result IsNoFault }
{
    let bytes = short_bytes(alloc, path, reading)?;
    match target_by_bytes(alloc, path, bytes.as_slice(), asked) {
        Ok(Target::Inside(style)) => plan_inside(alloc, path, bytes.as_slice(), &style, asked),
        Ok(Target::InNeighbour) => Ok(Step::InNeighbour),
        Ok(Target::Nowhere) => Ok(Step::Done(PathPlan::Skipped(path.try_clone(alloc)?))),
        Err(refusal) => Err(refusal),
    }
}

/// The bytes that were read of a file, unless they are too many. A refusal names `path`.
pub(crate) fn short_bytes(
    alloc: Global,
    path: &PathText,
    reading: Reading,
) -> Result<Bytes, Refusal>
    ensures answer { (file : List ℕ) → reading ≡ reading_of (Some file) LONGEST_FILE
        → AnswersOf (short_file path.now file) result }
    ensures short { IfOk result (λ bytes. length bytes ≤ LONGEST_FILE) }
    ensures no_fault { IfErr result IsNoFault }
{
    let bytes = match reading {
        Reading::Absent => return Err(Refusal::NoSuchPath(path.try_clone(alloc)?)),
        Reading::TooLong => return Err(Refusal::TooLong(path.try_clone(alloc)?)),
        Reading::Found(bytes) => bytes,
    };
    if bytes.len() > LONGEST_FILE {
        return Err(Refusal::TooLong(path.try_clone(alloc)?));
    }
    Ok(bytes)
}

// What is done in a file's own comment. A file that has a header block is skipped where such are.
fn plan_inside(
    alloc: Global,
    path: &PathText,
    bytes: &[u8],
    style: &Style<'_>,
    asked: &Annotation<'_, '_>,
) -> Result<Step, Refusal>
    requires { length bytes.now ≤ LONGEST_FILE }
    ensures step { (tree : Files) → get tree path.now ≡ Some bytes.now
        → StepsBy tree (path_inside_by asked.now path.now bytes.now style.now) result }
    ensures no_fault { IfErr result IsNoFault }
{
    if asked.scope.skip_existing && find(bytes, style).block.is_some() {
        return Ok(Step::Done(PathPlan::Skipped(path.try_clone(alloc)?)));
    }
    // That the edit lies within the file, and makes none that is too long.
    text_annotations_fit();
    let made = annotate_inside(alloc, bytes, style, asked);
    match change_by(alloc, path, path, bytes, made) {
        Ok(Some(change)) => {
            let harm = harm_inside(bytes, style);
            Ok(Step::Done(PathPlan::Change { change, harm }))
        }
        Ok(None) => Ok(Step::Done(PathPlan::Unchanged(path.try_clone(alloc)?))),
        Err(refusal) => Err(refusal),
    }
}

// What is made of a file, of these bytes, in its own comment.
fn annotate_inside(
    alloc: Global,
    bytes: &[u8],
    style: &Style<'_>,
    asked: &Annotation<'_, '_>,
) -> Result<Option<Splice>, TextHeaderRefusal>
    requires { length bytes.now ≤ LONGEST_FILE }
    ensures { IsExpectedTextEdit (text_answer bytes.now
        (annotation_of style.now asked.now.how.now asked.now.additions.now bytes.now)) result }
{
    let added = asked.additions;
    let texts = added.texts.as_slice();
    annotate_file_with(alloc, bytes, style, &added.tags, texts, asked.how)
}

// What a header could break in a file of these bytes: one that is changed, or else the file's first.
fn harm_inside(bytes: &[u8], style: &Style<'_>) -> Option<Harm>
    ensures { result ≡ harm_inside style.now bytes.now }
{
    if find(bytes, style).block.is_none() {
        harm_of(bytes, style)
    } else if text_stands_first(bytes, style) {
        Some(Harm::BelowText)
    } else {
        None
    }
}

/// What is done in a neighbour that is there, by what was read of it. If it has licensing
/// information, the file is skipped where such are.
pub(crate) fn plan_neighbour(
    alloc: Global,
    path: &PathText,
    neighbour: &PathText,
    asked: &Annotation<'_, '_>,
    reading: Reading,
) -> Result<PathPlan, Refusal>
    ensures plan { (tree : Files) (bytes : List ℕ) → neighbour.now ≡ neighbour_of path.now
        → get tree neighbour.now ≡ Some bytes → reading ≡ reading_of (Some bytes) LONGEST_FILE
        → AnswersPlan Stop tree (path_neighbour_by asked.now tree path.now (Some bytes)) result }
    ensures no_fault { IfErr result IsNoFault }
{
    let bytes = short_bytes(alloc, path, reading)?;
    if asked.scope.skip_existing && neighbour_has_tag(bytes.as_slice()) {
        return Ok(PathPlan::Skipped(path.try_clone(alloc)?));
    }
    // That the edit lies within the file, and makes none that is too long.
    text_annotations_fit();
    let made = annotate_beside(alloc, bytes.as_slice(), asked);
    match change_by(alloc, path, neighbour, bytes.as_slice(), made) {
        Ok(change) => Ok(PathPlan::of_change(alloc, path, change)?),
        Err(refusal) => Err(refusal),
    }
}

// What is made of a neighbour, of these bytes.
fn annotate_beside(
    alloc: Global,
    bytes: &[u8],
    asked: &Annotation<'_, '_>,
) -> Result<Option<Splice>, TextHeaderRefusal>
    requires { length bytes.now ≤ LONGEST_FILE }
    ensures { IsExpectedTextEdit (text_answer bytes.now
        (neighbour_annotation_of asked.now.how.now asked.now.additions.now bytes.now)) result }
{
    let added = asked.additions;
    annotate_neighbour_with(alloc, bytes, &added.tags, added.texts.as_slice(), asked.how)
}

/// The change that makes a neighbour, which is looked at by itself.
pub(crate) fn plan_new_neighbour<S: Store>(
    alloc: Global,
    store: &mut S,
    path: &PathText,
    neighbour: PathText,
    asked: &Annotation<'_, '_>,
) -> Result<Option<Change>, Refusal>
    ensures edit { S.honest store.new → is_covered path.now ≡ true → neighbour ≡ neighbour_of path.now
        → get (tree_of (S.files store.old)) neighbour ≡ None
        → AnswersEdit (tree_of (S.files store.old))
        (neighbour_by asked.now (tree_of (S.files store.old)) path.now None) result }
    ensures asks { ReadsAlone S.Store IsOfPlan store.old store.new result }
{
    if is_clash_at(alloc, store, &neighbour)? {
        return Err(Refusal::Clash(neighbour));
    }
    make_neighbour(alloc, path, neighbour, asked)
}

// The change that makes a neighbour where nothing is in its way.
fn make_neighbour(
    alloc: Global,
    path: &PathText,
    neighbour: PathText,
    asked: &Annotation<'_, '_>,
) -> Result<Option<Change>, Refusal>
    ensures edit { (tree : Files) → neighbour ≡ neighbour_of path.now → get tree neighbour ≡ None
        → is_clash tree neighbour ≡ false
        → AnswersEdit tree (neighbour_by asked.now tree path.now None) result }
    ensures no_fault { IfErr result IsNoFault }
{
    // That what is made isn't too long.
    text_annotations_fit();
    let made = annotate_beside(alloc, b"", asked);
    making_by(alloc, path, &neighbour, made)
}
