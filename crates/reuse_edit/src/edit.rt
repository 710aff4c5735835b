//! The change of a place, by what an annotation or an amendment makes of its bytes.
ghost use Rattle.std.specs.Prelude.{◌≡◌, ◌≤◌, ◌+◌, [], take, drop, IfOk, IfErr, Ok, Some, None, length};
ghost use Rattle.reuse_text.specs.declared.TheConstants.{LONGEST_FILE};
ghost use Rattle.reuse_command.specs.Reading.{get, Files};
ghost use Rattle.reuse_change.specs.Change.{sealed_splice};
ghost use Rattle.reuse_header.specs.Amendment.{amendment_answer, IsExpectedAmendment};
ghost use Rattle.reuse_amend.specs.declared.amendments.Amendments.{Amendments};
ghost use Rattle.reuse_toml.specs.TomlAmending.{toml_amendment_of};
ghost use Rattle.reuse_toml.specs.TomlAnswers.{IsTomlAnswer};
ghost use Rattle.reuse_words.specs.Added.{IsExpectedTextEdit, text_answer};
ghost use Rattle.reuse_edit.specs.Amend.{amendment_edit, amend_refused_by, table_amendment, table_refused_by};
ghost use Rattle.reuse_edit.specs.AmendmentPlan as amending;
ghost use Rattle.reuse_edit.specs.Annotate.{edit_by};
ghost use Rattle.reuse_edit.specs.HeaderFaults.{refused_by, text_refused_by};
ghost use Rattle.reuse_edit.specs.AmendmentPlan.{names_behind};
ghost use Rattle.reuse_edit.specs.Annotations.{Fits, Expected};
ghost use Rattle.reuse_edit.specs.Edit.{edit_between};
ghost use Rattle.reuse_edit.specs.Answered.{AnswersEdit, MakesEdit};
ghost use Rattle.reuse_command.specs.Refused.{IsNoFault};

use crate::left::{Amended, still_names, still_names_behind};
use reuse_amend::Amendments;
use reuse_change::{Change, PathText};
use reuse_command::amend_fault::AmendFault;
use reuse_command::failure::Failure;
use reuse_command::header_fault::HeaderFault;
use reuse_command::reply::Refusal;
use reuse_header::{AmendHeaderRefusal, HeaderRefusal, Splice};
use reuse_text::{Bytes, Difference, difference_of};
use reuse_toml::{AmendTomlRefusal, TomlSplice};
use reuse_words::TextHeaderRefusal;
use std::alloc::{AllocError, Global};

/// The change of a file that is there, of these bytes, by what an annotation makes of it. A refusal
/// names `path`.
pub(crate) fn change_by(
    alloc: Global,
    path: &PathText,
    at: &PathText,
    file: &[u8],
    made: Result<Option<Splice>, TextHeaderRefusal>,
) -> Result<Option<Change>, Refusal>
    ensures edit { (tree : Files) (expected : Expected) → get tree at.now ≡ Some file.now
        → length file.now ≤ LONGEST_FILE
        → Fits file.now expected → IsExpectedTextEdit (text_answer file.now expected) made
        → AnswersEdit tree (edit_by path.now at.now file.now expected) result }
    ensures no_fault { IfErr result IsNoFault }
{
    match made {
        Err(refusal) => Err(text_refused_by(alloc, path, refusal)?),
        Ok(None) => Ok(None),
        Ok(Some(splice)) => Ok(Some(Change::sealed_splice(
            at.try_clone(alloc)?,
            file,
            splice.at,
            splice.old,
            splice.new,
        ))),
    }
}

/// The change that makes a file, by what an annotation makes of no bytes. A refusal names `path`.
pub(crate) fn making_by(
    alloc: Global,
    path: &PathText,
    at: &PathText,
    made: Result<Option<Splice>, TextHeaderRefusal>,
) -> Result<Option<Change>, Refusal>
    ensures edit { (tree : Files) (expected : Expected) → get tree at.now ≡ None → Fits [] expected
        → IsExpectedTextEdit (text_answer [] expected) made
        → AnswersEdit tree (edit_by path.now at.now [] expected) result }
    ensures no_fault { IfErr result IsNoFault }
{
    match made {
        Err(refusal) => Err(text_refused_by(alloc, path, refusal)?),
        Ok(None) => Ok(None),
        Ok(Some(splice)) => Ok(Some(Change::sealed_make(at.try_clone(alloc)?, splice.new))),
    }
}

/// What amend does with a file that is there, of these bytes, by what it makes of it. A refusal
/// names `path`.
pub(crate) fn amended_as(
    alloc: Global,
    path: &PathText,
    at: &PathText,
    file: &[u8],
    made: Result<Option<Splice>, AmendHeaderRefusal>,
    amendments: &Amendments,
) -> Result<Amended, Refusal>
    requires { amending.IsMadeWithin file.now made }
    ensures edit { (tree : Files) (expected : amending.Expected) → get tree at.now ≡ Some file.now
        → length file.now ≤ LONGEST_FILE → amending.Fits file.now expected
        → IsExpectedAmendment (amendment_answer file.now expected) made
        → amending.AnswersAmended tree (amendment_edit path.now at.now file.now expected)
        (names_behind amendments.now file.now (amendment_edit path.now at.now file.now expected)) result }
    ensures no_fault { IfErr result IsNoFault }
{
    match made {
        Ok(None) => Ok(Amended {
            change: None,
            is_left: still_names(amendments, file),
        }),
        Ok(Some(splice)) => {
            let is_left = still_names_behind(alloc, amendments, file, &splice)?;
            match change_by(alloc, path, at, file, Ok(Some(splice))) {
                Ok(change) => Ok(Amended { change, is_left }),
                Err(refusal) => Err(refusal),
            }
        }
        Err(refusal) => Err(amend_refused_by(alloc, path, refusal)?),
    }
}

/// The change of a file that is there, of these bytes, if others that take their place differ.
pub(crate) fn change_between(
    alloc: Global,
    at: &PathText,
    old: &[u8],
    new: &[u8],
) -> Result<Option<Change>, AllocError>
    requires old { length old.now ≤ LONGEST_FILE }
    requires new { length new.now ≤ LONGEST_FILE }
    ensures { (tree : Files) → get tree at.now ≡ Some old.now
        → IfOk result (MakesEdit tree (Ok (edit_between at.now old.now new.now))) }
{
    if new == old {
        return Ok(None);
    }
    let differing = difference_of(old, new);
    Ok(Some(change_of(alloc, at, old, new, differing)?))
}

// The change that takes the one range of a file away, and puts the other of a text in its place.
fn change_of(
    alloc: Global,
    at: &PathText,
    old: &[u8],
    new: &[u8],
    differing: Difference,
) -> Result<Change, AllocError>
    requires old { differing.at + differing.old_len ≤ length old.now }
    requires new { differing.at + differing.new_len ≤ length new.now }
    ensures { IfOk result (λ change. change ≡ sealed_splice at.now old.now differing.at
        (take differing.old_len (drop differing.at old.now)) (take differing.new_len (drop differing.at new.now))) }
{
    let from = &old[differing.at..];
    let removed = Bytes::from_slice(alloc, &from[..differing.old_len])?;
    let to = &new[differing.at..];
    let written = Bytes::from_slice(alloc, &to[..differing.new_len])?;
    let path = at.try_clone(alloc)?;
    Ok(Change::sealed_splice(path, old, differing.at, removed, written))
}

/// The change of a table, which is there and has these bytes, by what an amendment makes of it.
pub(crate) fn table_change_by(
    alloc: Global,
    path: &PathText,
    file: &[u8],
    made: Result<Option<TomlSplice>, AmendTomlRefusal>,
) -> Result<Option<Change>, Refusal>
    requires { amending.IsWithin file.now made }
    ensures edit { (tree : Files) (amendments : Amendments) → get tree path.now ≡ Some file.now
        → length file.now ≤ LONGEST_FILE
        → IsTomlAnswer (toml_amendment_of amendments file.now) made
        → AnswersEdit tree (table_amendment path.now file.now (toml_amendment_of amendments file.now)) result }
    ensures no_fault { IfErr result IsNoFault }
{
    match made {
        Ok(None) => Ok(None),
        Ok(Some(splice)) => Ok(Some(table_change(alloc, path, file, splice)?)),
        Err(refusal) => Err(table_refused_by(alloc, path, refusal)?),
    }
}

// The change of one range of a file's bytes.
fn table_change(
    alloc: Global,
    path: &PathText,
    file: &[u8],
    splice: TomlSplice,
) -> Result<Change, AllocError>
    requires { splice.at + splice.old ≤ length file.now }
    ensures { IfOk result (λ change. change ≡ sealed_splice path.now file.now splice.at
        (take splice.old (drop splice.at file.now)) splice.new) }
{
    let old = &file[splice.at..];
    let removed = Bytes::from_slice(alloc, &old[..splice.old])?;
    let path = path.try_clone(alloc)?;
    Ok(Change::sealed_splice(path, file, splice.at, removed, splice.new))
}

// The refusal of an amended table, with its path.
fn table_refused_by(
    alloc: Global,
    path: &PathText,
    refusal: AmendTomlRefusal,
) -> Result<Refusal, AllocError>
    ensures { IfOk result (λ refused. refused ≡ table_refused_by path.now refusal) }
{
    let fault = match refusal {
        AmendTomlRefusal::BadExpression => AmendFault::BadExpression,
        AmendTomlRefusal::CannotBeAmended => AmendFault::CannotBeAmended,
        AmendTomlRefusal::TooLong => return Ok(Refusal::TooLong(path.try_clone(alloc)?)),
        AmendTomlRefusal::Memory(_) => return Ok(Refusal::Failed(Failure::Memory)),
    };
    Ok(Refusal::Amend(path.try_clone(alloc)?, fault))
}

/// The refusal of an amendment, with the path of its file.
pub(crate) fn amend_refused_by(
    alloc: Global,
    path: &PathText,
    refusal: AmendHeaderRefusal,
) -> Result<Refusal, AllocError>
    ensures { IfOk result (λ refused. refused ≡ amend_refused_by path.now refusal) }
{
    let fault = match refusal {
        AmendHeaderRefusal::BadExpression => AmendFault::BadExpression,
        AmendHeaderRefusal::NothingLeft => AmendFault::NothingLeft,
        AmendHeaderRefusal::Header(refusal) => return refused_by(alloc, path, refusal),
    };
    Ok(Refusal::Amend(path.try_clone(alloc)?, fault))
}

// The refusal of what is added to a header, with the path of its file.
fn text_refused_by(
    alloc: Global,
    path: &PathText,
    refusal: TextHeaderRefusal,
) -> Result<Refusal, AllocError>
    ensures { IfOk result (λ refused. refused ≡ text_refused_by path.now refusal) }
{
    match refusal {
        TextHeaderRefusal::BadText => {
            Ok(Refusal::Header(path.try_clone(alloc)?, HeaderFault::BadText))
        }
        TextHeaderRefusal::Header(refusal) => refused_by(alloc, path, refusal),
    }
}

/// A header's refusal, with the path of its file.
pub(crate) fn refused_by(
    alloc: Global,
    path: &PathText,
    refusal: HeaderRefusal,
) -> Result<Refusal, AllocError>
    ensures { IfOk result (λ refused. refused ≡ refused_by path.now refusal) }
{
    let fault = match refusal {
        HeaderRefusal::NotText => HeaderFault::NotText,
        HeaderRefusal::NoSuchForm => HeaderFault::NoSuchForm,
        HeaderRefusal::HoldsCloser => HeaderFault::HoldsCloser,
        HeaderRefusal::TooLong => HeaderFault::TooLong,
        HeaderRefusal::Unsettled => HeaderFault::Unsettled,
        HeaderRefusal::Memory(_) => return Ok(Refusal::Failed(Failure::Memory)),
    };
    Ok(Refusal::Header(path.try_clone(alloc)?, fault))
}
