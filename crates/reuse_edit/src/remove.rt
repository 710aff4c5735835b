//! What amend does with a text out of whose header something is taken, once its values are amended.
//! Both are one change of the file. A neighbour that is left empty goes.
ghost use Rattle.std.specs.Prelude.{◌≡◌, ◌≤◌, ℕ, List, IfErr, IfOk, IfSome, Ok, Some, length};
ghost use Rattle.reuse_text.specs.declared.TheConstants.{LONGEST_FILE};
ghost use Rattle.reuse_command.specs.Reading.{get, Files};
ghost use Rattle.reuse_command.specs.Refused.{IsNoFault};
ghost use Rattle.reuse_header.specs.Amendment.{amended_file, amendment_answer, amendment_of, neighbour_amendment_of};
ghost use Rattle.reuse_header.specs.Amendment.{IsExpectedAmendment};
ghost use Rattle.reuse_header.specs.Splices.{IsExpected};
ghost use Rattle.std.specs.Prelude.{Result};
ghost use Rattle.reuse_header.specs.declared.annotation.HeaderRefusal.{HeaderRefusal};
ghost use Rattle.reuse_words.specs.declared.removal.NeighbourChange.{NeighbourChange};
ghost use Rattle.reuse_words.specs.Removal.{IsExpectedChange, edit_answer};
ghost use Rattle.reuse_edit.specs.Amend.{remove_block, removal_edit};
ghost use Rattle.reuse_edit.specs.AmendmentPlan as amending;
ghost use Rattle.reuse_edit.specs.AmendmentPlan.{AnswersValues, ExpectedRemoval, FitsRemoval, IsChangeWithin};
ghost use Rattle.reuse_edit.specs.AmendmentPlan.{IsRemovalWithin, IsShort};
ghost use Rattle.reuse_edit.specs.Edit.{edit_to};
ghost use Rattle.reuse_edit.specs.Answered.{AnswersOf};
ghost use Rattle.reuse_edit.specs.Removed.{amended_or_refused, left_beside, left_inside, neighbour_left};
ghost use Rattle.reuse_edit.specs.Removed.{neighbour_removal_of, or_refused, removal_of, text_left};

use crate::edit::{amend_refused_by, change_between, refused_by};
use crate::left::{Amended, still_names};
use reuse_amend::Amendments;
use reuse_change::{Change, PathText};
use reuse_command::command::HeaderRemoval;
use reuse_command::reply::Refusal;
use reuse_header::{
    AmendHeaderRefusal, HeaderRefusal, Splice, Style, amend_file, amend_neighbour, amendments_fit,
};
use reuse_text::{Bytes, LONGEST_FILE, splice};
use reuse_words::{
    NeighbourChange, amend_file_without, amend_neighbour_without, remove_header,
    remove_neighbour_header,
};
use std::alloc::Global;

/// What is done with the header block of a file of these bytes, in its style, if it has one.
pub(crate) fn plan_left_inside(
    alloc: Global,
    path: &PathText,
    bytes: &[u8],
    style: Option<Style<'_>>,
    values: &Amendments,
    removal: &HeaderRemoval,
) -> Result<Amended, Refusal>
    requires { length bytes.now ≤ LONGEST_FILE }
    ensures edit { (tree : Files) → get tree path.now ≡ Some bytes.now → AnswersValues values.now tree bytes.now
        (remove_block values.now removal.now path.now bytes.now style.entry) result }
    ensures no_fault { IfErr result IsNoFault }
{
    let Some(style) = style else {
        return Ok(Amended {
            change: None,
            is_left: still_names(values, bytes),
        });
    };
    match removed_inside(alloc, path, bytes, &style, values, removal) {
        Ok(left) => give_way(alloc, path, bytes, Some(left), values),
        Err(refusal) => Err(refusal),
    }
}

// The text that is left of a file of these bytes, in this style.
fn removed_inside(
    alloc: Global,
    path: &PathText,
    bytes: &[u8],
    style: &Style<'_>,
    values: &Amendments,
    removal: &HeaderRemoval,
) -> Result<Bytes, Refusal>
    requires { length bytes.now ≤ LONGEST_FILE }
    ensures text { AnswersOf (left_inside values.now removal.now style.now path.now bytes.now) result }
    ensures short { IfOk result IsShort }
    ensures no_fault { IfErr result IsNoFault }
{
    match amended_inside(alloc, path, bytes, style, values) {
        Ok(amended) => left_inside(alloc, path, amended.as_slice(), style, removal),
        Err(refusal) => Err(refusal),
    }
}

/// What is done with a neighbour of these bytes.
pub(crate) fn plan_left_beside(
    alloc: Global,
    path: &PathText,
    neighbour: &PathText,
    bytes: &[u8],
    values: &Amendments,
    removal: &HeaderRemoval,
) -> Result<Amended, Refusal>
    requires { length bytes.now ≤ LONGEST_FILE }
    ensures edit { (tree : Files) → get tree neighbour.now ≡ Some bytes.now → AnswersValues values.now tree bytes.now
        (removal_edit neighbour.now bytes.now (left_beside values.now removal.now path.now bytes.now)) result }
    ensures no_fault { IfErr result IsNoFault }
{
    match removed_beside(alloc, path, bytes, values, removal) {
        Ok(left) => give_way(alloc, neighbour, bytes, left, values),
        Err(refusal) => Err(refusal),
    }
}

// The text that is left of a neighbour of these bytes, if one is.
fn removed_beside(
    alloc: Global,
    path: &PathText,
    bytes: &[u8],
    values: &Amendments,
    removal: &HeaderRemoval,
) -> Result<Option<Bytes>, Refusal>
    requires { length bytes.now ≤ LONGEST_FILE }
    ensures text { AnswersOf (left_beside values.now removal.now path.now bytes.now) result }
    ensures short { IfOk result (λ left. IfSome left IsShort) }
    ensures no_fault { IfErr result IsNoFault }
{
    match amended_beside(alloc, path, bytes, values) {
        Ok(amended) => left_beside(alloc, path, amended.as_slice(), removal),
        Err(refusal) => Err(refusal),
    }
}

// What is done with a file that gives way to a text, or goes where none is left of it.
fn give_way(
    alloc: Global,
    at: &PathText,
    old: &[u8],
    left: Option<Bytes>,
    values: &Amendments,
) -> Result<Amended, Refusal>
    requires old { length old.now ≤ LONGEST_FILE }
    requires new { IfSome left (λ new. length new ≤ LONGEST_FILE) }
    ensures edit { (tree : Files) → get tree at.now ≡ Some old.now
        → AnswersValues values.now tree old.now (Ok (edit_to at.now old.now left)) result }
    ensures no_fault { IfErr result IsNoFault }
{
    match left {
        None => Ok(Amended {
            change: Some(Change::sealed_drop(at.try_clone(alloc)?, Bytes::from_slice(alloc, old)?)),
            is_left: false,
        }),
        Some(new) => Ok(Amended {
            change: change_between(alloc, at, old, new.as_slice())?,
            is_left: still_names(values, new.as_slice()),
        }),
    }
}

// ---- the values

// A file whose values are amended.
fn amended_inside(
    alloc: Global,
    path: &PathText,
    bytes: &[u8],
    style: &Style<'_>,
    values: &Amendments,
) -> Result<Bytes, Refusal>
    requires { length bytes.now ≤ LONGEST_FILE }
    ensures text { AnswersOf (amended_or_refused path.now (amended_file bytes.now
        (amendment_of style.now values.now bytes.now))) result }
    ensures short { IfOk result IsShort }
    ensures no_fault { IfErr result IsNoFault }
{
    // That the edit lies within the file, and makes none that is too long.
    amendments_fit();
    let made = amend_file(alloc, bytes, style, values);
    amended_text(alloc, path, bytes, made)
}

// A neighbour whose values are amended.
fn amended_beside(
    alloc: Global,
    path: &PathText,
    bytes: &[u8],
    values: &Amendments,
) -> Result<Bytes, Refusal>
    requires { length bytes.now ≤ LONGEST_FILE }
    ensures text { AnswersOf (amended_or_refused path.now (amended_file bytes.now
        (neighbour_amendment_of values.now bytes.now))) result }
    ensures short { IfOk result IsShort }
    ensures no_fault { IfErr result IsNoFault }
{
    // That the edit lies within the file, and makes none that is too long.
    amendments_fit();
    let made = amend_neighbour(alloc, bytes, values);
    amended_text(alloc, path, bytes, made)
}

// The text that amending makes of these bytes.
fn amended_text(
    alloc: Global,
    path: &PathText,
    bytes: &[u8],
    made: Result<Option<Splice>, AmendHeaderRefusal>,
) -> Result<Bytes, Refusal>
    requires short { length bytes.now ≤ LONGEST_FILE }
    requires within { amending.IsMadeWithin bytes.now made }
    ensures text { (expected : amending.Expected) → amending.Fits bytes.now expected
        → IsExpectedAmendment (amendment_answer bytes.now expected) made
        → AnswersOf (amended_or_refused path.now (amended_file bytes.now expected)) result }
    ensures short { IfOk result IsShort }
    ensures no_fault { IfErr result IsNoFault }
{
    match made {
        Ok(None) => Ok(Bytes::from_slice(alloc, bytes)?),
        Ok(Some(change)) => spliced(alloc, bytes, &change),
        Err(refusal) => Err(amend_refused_by(alloc, path, refusal)?),
    }
}

// A text behind a change of it.
fn spliced(alloc: Global, bytes: &[u8], change: &Splice) -> Result<Bytes, Refusal>
    requires { amending.IsSpliceWithin bytes.now change.now }
    ensures text { IfOk result (λ made. made ≡ amending.spliced_by bytes.now change.now) }
    ensures short { IfOk result IsShort }
    ensures failed { IfErr result amending.IsOutOfMemory }
{
    let old_len = change.old.len();
    let made = splice(alloc, bytes, change.at, old_len, change.new.as_slice())?;
    Ok(Bytes::from_vec(made))
}

// ---- what is taken out

// The text that is left of these bytes where something is taken out of the header block.
fn left_inside(
    alloc: Global,
    path: &PathText,
    bytes: &[u8],
    style: &Style<'_>,
    removal: &HeaderRemoval,
) -> Result<Bytes, Refusal>
    requires { length bytes.now ≤ LONGEST_FILE }
    ensures text { AnswersOf (or_refused path.now (text_left bytes.now (removal_of removal.now style.now bytes.now)))
        result }
    ensures short { IfOk result IsShort }
    ensures no_fault { IfErr result IsNoFault }
{
    let made = taken_inside(alloc, bytes, style, removal);
    text_left(alloc, path, bytes, made)
}

// The change that takes out what is asked for.
fn taken_inside(
    alloc: Global,
    bytes: &[u8],
    style: &Style<'_>,
    removal: &HeaderRemoval,
) -> Result<Option<Splice>, HeaderRefusal>
    requires { length bytes.now ≤ LONGEST_FILE }
    ensures { IsExpected (edit_answer bytes.now (removal_of removal.now style.now bytes.now)) result }
{
    match removal {
        HeaderRemoval::Texts(texts) => amend_file_without(alloc, bytes, style, texts.as_slice()),
        HeaderRemoval::Header => remove_header(alloc, bytes, style),
    }
}

// The text behind what is taken out of it.
fn text_left(
    alloc: Global,
    path: &PathText,
    bytes: &[u8],
    made: Result<Option<Splice>, HeaderRefusal>,
) -> Result<Bytes, Refusal>
    requires short { length bytes.now ≤ LONGEST_FILE }
    requires within { IsRemovalWithin bytes.now made }
    ensures text { (expected : ExpectedRemoval) → FitsRemoval bytes.now expected
        → IsExpected (edit_answer bytes.now expected) made
        → AnswersOf (or_refused path.now (text_left bytes.now expected)) result }
    ensures short { IfOk result IsShort }
    ensures no_fault { IfErr result IsNoFault }
{
    match made {
        Ok(None) => Ok(Bytes::from_slice(alloc, bytes)?),
        Ok(Some(change)) => spliced(alloc, bytes, &change),
        Err(refusal) => Err(refused_by(alloc, path, refusal)?),
    }
}

// The text that is left of a neighbour where something is taken out of it, if one is.
fn left_beside(
    alloc: Global,
    path: &PathText,
    bytes: &[u8],
    removal: &HeaderRemoval,
) -> Result<Option<Bytes>, Refusal>
    requires { length bytes.now ≤ LONGEST_FILE }
    ensures text { AnswersOf (or_refused path.now (neighbour_left bytes.now (neighbour_removal_of removal.now bytes.now)))
        result }
    ensures short { IfOk result (λ left. IfSome left IsShort) }
    ensures no_fault { IfErr result IsNoFault }
{
    let made = taken_beside(alloc, bytes, removal);
    neighbour_left(alloc, path, bytes, made)
}

// What becomes of a neighbour where that is taken out.
fn taken_beside(
    alloc: Global,
    bytes: &[u8],
    removal: &HeaderRemoval,
) -> Result<NeighbourChange, HeaderRefusal>
    requires { length bytes.now ≤ LONGEST_FILE }
    ensures { IsExpectedChange (neighbour_removal_of removal.now bytes.now) result }
{
    match removal {
        HeaderRemoval::Texts(texts) => amend_neighbour_without(alloc, bytes, texts.as_slice()),
        HeaderRemoval::Header => remove_neighbour_header(alloc, bytes),
    }
}

// The text that is left of a neighbour by what becomes of it.
fn neighbour_left(
    alloc: Global,
    path: &PathText,
    bytes: &[u8],
    made: Result<NeighbourChange, HeaderRefusal>,
) -> Result<Option<Bytes>, Refusal>
    requires short { length bytes.now ≤ LONGEST_FILE }
    requires within { IsChangeWithin bytes.now made }
    ensures text { (expected : Result NeighbourChange HeaderRefusal) → IsExpectedChange expected made
        → AnswersOf (or_refused path.now (neighbour_left bytes.now expected)) result }
    ensures short { IfOk result (λ left. IfSome left IsShort) }
    ensures no_fault { IfErr result IsNoFault }
{
    match made {
        Ok(NeighbourChange::Unchanged) => Ok(Some(Bytes::from_slice(alloc, bytes)?)),
        Ok(NeighbourChange::Changed(change)) => match spliced(alloc, bytes, &change) {
            Ok(made) => Ok(Some(made)),
            Err(refusal) => Err(refusal),
        },
        Ok(NeighbourChange::Emptied) => Ok(None),
        Err(refusal) => Err(refused_by(alloc, path, refusal)?),
    }
}
