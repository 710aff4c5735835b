//! The choice of where the licensing information of a file goes.
ghost use Rattle.std.specs.Prelude.{◌≡◌, ◌≤◌, IfOk, IfErr, length};
ghost use Rattle.reuse_change.specs.Files.{Files};
ghost use Rattle.reuse_text.specs.declared.TheConstants.{LONGEST_FILE};
ghost use Rattle.reuse_edit.specs.Annotate.{neighbour_of, is_uncommentable, goes_to_neighbour};
ghost use Rattle.reuse_edit.specs.Annotate.{goes_to_neighbour_unread, target_of_unknown, target_by_kind};
ghost use Rattle.reuse_edit.specs.Annotate.{target_by_style};
ghost use Rattle.reuse_edit.specs.AnnotationPlan.{own_of, place_by};
ghost use Rattle.reuse_edit.specs.Answered.{AnswersOf};
ghost use Rattle.reuse_command.specs.Refused.{IsNoFault};
ghost use Rattle.reuse_edit.specs.Pair.{ShowsPair};

use crate::annotation::Annotation;
use crate::target::Target;
use reuse_change::{PathText, is_among};
use reuse_command::command::Unknown;
use reuse_command::reply::Refusal;
use reuse_header::Kind;
use reuse_text::{Bytes, is_text};
use std::alloc::{AllocError, Global};

/// The bytes of a neighbour's path.
pub(crate) fn neighbour_of(alloc: Global, path: &PathText) -> Result<Bytes, AllocError>
    ensures { IfOk result (λ neighbour. neighbour ≡ neighbour_of path.now) }
{
    let mut neighbour = Bytes::from_slice(alloc, path.as_bytes())?;
    neighbour.push_slice(b".license")?;
    Ok(neighbour)
}

/// Whether the neighbour is the place, whatever the file holds: it is there, that is asked for, or
/// the file takes no comment and no style is asked for. `paths` show whether it is there.
pub(crate) fn goes_to_neighbour(
    alloc: Global,
    paths: &[PathText],
    path: &PathText,
    asked: &Annotation<'_, '_>,
) -> Result<bool, AllocError>
    ensures { (tree : Files) → ShowsPair paths.now tree path.now
        → IfOk result (λ beside. beside ≡ goes_to_neighbour asked.now.scope.now (own_of asked.now) tree path.now) }
{
    let neighbour = neighbour_of(alloc, path)?;
    Ok(is_among(paths, neighbour.as_slice()) || goes_to_neighbour_unread(path, asked))
}

/// Whether the neighbour is the place, though it may not be there and whatever the file holds.
pub(crate) fn goes_to_neighbour_unread(path: &PathText, asked: &Annotation<'_, '_>) -> bool
    ensures { result ≡ goes_to_neighbour_unread asked.now.scope.now (own_of asked.now) path.now }
{
    asked.scope.force_dot_license
        || (asked.scope.style.is_none() && is_uncommentable(asked.styles.style_unread(path.text())))
}

// Whether a kind is known that takes no comment.
fn is_uncommentable(kind: Option<Kind<'_>>) -> bool
    ensures { result ≡ is_uncommentable kind.entry }
{
    matches!(kind, Some(Kind::Uncommentable))
}

/// The place by the bytes of the file, which are no more than `LONGEST_FILE`.
pub(crate) fn target_by_bytes<'a>(
    alloc: Global,
    path: &PathText,
    bytes: &[u8],
    asked: &Annotation<'_, 'a>,
) -> Result<Target<'a>, Refusal>
    requires { length bytes.now ≤ LONGEST_FILE }
    ensures target { AnswersOf (place_by asked.now path.now bytes.now) result }
    ensures no_fault { IfErr result IsNoFault }
{
    if !is_text(bytes) {
        return Ok(Target::InNeighbour);
    }
    target_by_style(alloc, path, bytes, asked)
}

// The place by the style that is asked for, else by the kind of the file.
fn target_by_style<'a>(
    alloc: Global,
    path: &PathText,
    bytes: &[u8],
    asked: &Annotation<'_, 'a>,
) -> Result<Target<'a>, Refusal>
    ensures target { AnswersOf (target_by_style asked.now.scope.now (own_of asked.now) path.now bytes.now
        asked.now.scope.now.style) result }
    ensures no_fault { IfErr result IsNoFault }
{
    match &asked.scope.style {
        Some(style) => Ok(Target::Inside(style.style())),
        None => {
            let kind = asked.styles.style_of(path.text(), bytes);
            target_by_kind(alloc, path, asked.scope.unknown, kind)
        }
    }
}

// The place by the kind of the file.
fn target_by_kind<'a>(
    alloc: Global,
    path: &PathText,
    unknown: Unknown,
    kind: Kind<'a>,
) -> Result<Target<'a>, Refusal>
    ensures target { AnswersOf (target_by_kind unknown path.now kind.entry) result }
    ensures no_fault { IfErr result IsNoFault }
{
    match kind {
        Kind::Style(style) => Ok(Target::Inside(style)),
        Kind::Uncommentable => Ok(Target::InNeighbour),
        Kind::Unknown => target_of_unknown(alloc, path, unknown),
    }
}

// The place where the file has no style.
fn target_of_unknown<'a>(
    alloc: Global,
    path: &PathText,
    unknown: Unknown,
) -> Result<Target<'a>, Refusal>
    ensures target { AnswersOf (target_of_unknown unknown path.now) result }
    ensures no_fault { IfErr result IsNoFault }
{
    match unknown {
        Unknown::Refuse => Err(Refusal::Unrecognised(path.try_clone(alloc)?)),
        Unknown::Neighbour => Ok(Target::InNeighbour),
        Unknown::Skip => Ok(Target::Nowhere),
    }
}
