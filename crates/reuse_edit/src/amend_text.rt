//! What amend does with a text each of whose tags is amended where it stands, whatever the name of
//! its file.
ghost use Rattle.std.specs.Prelude.{◌≡◌, ◌≤◌, IfErr, IfOk, Some, length};
ghost use Rattle.reuse_text.specs.declared.TheConstants.{LONGEST_FILE};
ghost use Rattle.reuse_command.specs.Reading.{get, Files};
ghost use Rattle.reuse_command.specs.Refused.{IsNoFault};
ghost use Rattle.reuse_edit.specs.Amend.{amend_text, tags_refused_by, text_edit};
ghost use Rattle.reuse_edit.specs.AmendmentPlan.{AnswersValues};

use crate::edit::change_between;
use crate::left::{Amended, still_names};
use reuse_amend::{AmendRefusal, Amendments};
use reuse_change::PathText;
use reuse_command::amend_fault::AmendFault;
use reuse_command::failure::Failure;
use reuse_command::header_fault::HeaderFault;
use reuse_command::reply::Refusal;
use reuse_tags::amend_everywhere;
use reuse_text::LONGEST_FILE;
use std::alloc::{AllocError, Global};

/// What is done with each tag of a text of these bytes, which is the file at `at`. A refusal names
/// `path`.
pub(crate) fn plan_text(
    alloc: Global,
    path: &PathText,
    at: &PathText,
    bytes: &[u8],
    values: &Amendments,
) -> Result<Amended, Refusal>
    requires { length bytes.now ≤ LONGEST_FILE }
    ensures edit { (tree : Files) → get tree at.now ≡ Some bytes.now
        → AnswersValues values.now tree bytes.now (amend_text values.now path.now at.now bytes.now) result }
    ensures no_fault { IfErr result IsNoFault }
{
    match amend_everywhere(alloc, bytes, values) {
        Ok(made) => exchange(alloc, path, at, bytes, made.as_slice(), values),
        Err(refusal) => Err(tags_refused_by(alloc, path, refusal)?),
    }
}

// What is done with a text in whose place another one comes, if that isn't too long.
fn exchange(
    alloc: Global,
    path: &PathText,
    at: &PathText,
    old: &[u8],
    new: &[u8],
    values: &Amendments,
) -> Result<Amended, Refusal>
    requires { length old.now ≤ LONGEST_FILE }
    ensures edit { (tree : Files) → get tree at.now ≡ Some old.now
        → AnswersValues values.now tree old.now (text_edit path.now at.now old.now (Some new.now)) result }
    ensures no_fault { IfErr result IsNoFault }
{
    if new.len() > LONGEST_FILE {
        return Err(Refusal::Header(path.try_clone(alloc)?, HeaderFault::TooLong));
    }
    Ok(Amended {
        change: change_between(alloc, at, old, new)?,
        is_left: still_names(values, new),
    })
}

// The refusal of a text whose tags are amended, with the path of its file.
fn tags_refused_by(
    alloc: Global,
    path: &PathText,
    refusal: AmendRefusal,
) -> Result<Refusal, AllocError>
    ensures { IfOk result (λ refused. refused ≡ tags_refused_by path.now refusal) }
{
    match refusal {
        AmendRefusal::BadExpression => Ok(Refusal::Amend(
            path.try_clone(alloc)?,
            AmendFault::BadExpression,
        )),
        AmendRefusal::Memory(_) => Ok(Refusal::Failed(Failure::Memory)),
    }
}
