//! What amend does at a path. What it works on is a table, a file `REUSE.toml`, or the neighbour of
//! a file where that is there, else the header block of the file itself. Where it is asked for,
//! each tag of the neighbour or of the file is amended (`amend_text`). It makes nothing.
ghost use Rattle.std.specs.Prelude.{◌≡◌, ◌≤◌, ℕ, List, IfErr, Some, length, nat_lt, false};
ghost use Rattle.reuse_text.specs.declared.TheConstants.{LONGEST_FILE};
ghost use Rattle.reuse_command.specs.Reading.{get, reading_of, tree_of, Files, IsOfPlan, ReadsAlone};
ghost use Rattle.reuse_header.specs.Amendment.{neighbour_amendment_of};
ghost use Rattle.reuse_edit.specs.Amend.{amend_beside, amend_block, amendment_edit, has_no_style, style_of_kind};
ghost use Rattle.reuse_edit.specs.AmendmentPlan.{amended_by, beside_by, has_no_style_by, inside_by, is_passed_over_by};
ghost use Rattle.reuse_edit.specs.AmendmentPlan.{left_by, own_text_by, style_by, table_by, takes_away};
ghost use Rattle.reuse_edit.specs.AmendmentPlan.{AnswersAmended, AnswersPath, AnswersText, AnswersValues};
ghost use Rattle.reuse_edit.specs.Annotate.{neighbour_of};
ghost use Rattle.reuse_edit.specs.Answered.{AnswersEdit};
ghost use Rattle.reuse_command.specs.Refused.{IsNoFault};
ghost use Rattle.reuse_edit.specs.Pair.{ShowsPair};

use crate::amend_text::plan_text;
use crate::annotation::Amendment;
use crate::covered::{is_covered, is_table};
use crate::edit::{amended_as, table_change_by};
use crate::left::{Amended, still_names, still_names_read};
use crate::place::{absent_refusal, neighbour_path, short_bytes};
use crate::remove::{plan_left_beside, plan_left_inside};
use crate::target_choice::neighbour_of;
use reuse_amend::Amendments;
use reuse_change::{Change, PathText, is_among};
use reuse_command::command::FileAmendment;
use reuse_command::header_fault::HeaderFault;
use reuse_command::reply::Refusal;
use reuse_header::{Kind, Style, amend_file, amend_neighbour, amendments_fit};
use reuse_store::{Reading, Store};
use reuse_text::{LONGEST_FILE, is_text};
use reuse_toml::amend_toml;
use std::alloc::Global;

/// What amend does at a path. `paths` show it and its neighbour.
pub fn plan_amended<S: Store>(
    alloc: Global,
    store: &mut S,
    paths: &[PathText],
    path: &PathText,
    asked: &Amendment<'_, '_>,
) -> Result<Amended, Refusal>
    ensures edit { S.honest store.new → ShowsPair paths.now (tree_of (S.files store.old)) path.now → AnswersAmended
        (tree_of (S.files store.old)) (amended_by asked.now (tree_of (S.files store.old)) path.now)
        (left_by asked.now (tree_of (S.files store.old)) path.now) result }
    ensures asks { ReadsAlone S.Store IsOfPlan store.old store.new result }
{
    if !is_among(paths, path.as_bytes()) {
        return Err(absent_refusal(alloc, paths, path)?);
    }
    if is_table(path.as_bytes()) {
        return match plan_table(alloc, store, path, asked) {
            Ok(change) => Ok(Amended {
                change,
                is_left: false,
            }),
            Err(refusal) => Err(refusal),
        };
    }
    if !is_covered(path.as_bytes()) {
        return Err(Refusal::NotCovered(path.try_clone(alloc)?));
    }
    let neighbour = neighbour_of(alloc, path)?;
    if is_among(paths, neighbour.as_slice()) {
        return plan_with_neighbour(alloc, store, path, asked);
    }
    plan_inside(alloc, store, path, asked)
}

// The change of a table, which is there.
fn plan_table<S: Store>(
    alloc: Global,
    store: &mut S,
    path: &PathText,
    asked: &Amendment<'_, '_>,
) -> Result<Option<Change>, Refusal>
    ensures edit { S.honest store.new → (bytes : List ℕ) → get (tree_of (S.files store.old)) path.now ≡ Some bytes
        → AnswersEdit (tree_of (S.files store.old)) (table_by asked.now path.now bytes) result }
    ensures asks { ReadsAlone S.Store IsOfPlan store.old store.new result }
{
    let reading = store.read(alloc, path, LONGEST_FILE)?;
    plan_table_text(alloc, path, asked, reading)
}

// The change of a table, by what was read of it.
fn plan_table_text(
    alloc: Global,
    path: &PathText,
    asked: &Amendment<'_, '_>,
    reading: Reading,
) -> Result<Option<Change>, Refusal>
    ensures edit { (tree : Files) (bytes : List ℕ) → get tree path.now ≡ Some bytes
        → reading ≡ reading_of (Some bytes) LONGEST_FILE → AnswersEdit tree (table_by asked.now path.now bytes) result }
    ensures no_fault { IfErr result IsNoFault }
{
    let bytes = short_bytes(alloc, path, reading)?;
    let made = amend_toml(alloc, bytes.as_slice(), asked.amendment.values());
    table_change_by(alloc, path, bytes.as_slice(), made)
}

// Whether a file is passed over, by what was read of it, since it has no style whatever it holds: no
// header block is looked for, and no tag where it is too long.
fn is_passed_over(path: &PathText, asked: &Amendment<'_, '_>, reading: &Reading) -> bool
    ensures { (bytes : List ℕ) → reading.now ≡ reading_of (Some bytes) LONGEST_FILE
        → result ≡ is_passed_over_by asked.now path.now bytes }
{
    match asked.amendment {
        FileAmendment::InHeader(_) | FileAmendment::Remove(..) => has_no_style_unread(path, asked),
        FileAmendment::Everywhere(_) => is_too_long(reading) && has_no_style_unread(path, asked),
    }
}

// Whether a file is longer than one that is read may be.
fn is_too_long(reading: &Reading) -> bool
    ensures { (bytes : List ℕ) → reading.now ≡ reading_of (Some bytes) LONGEST_FILE
        → result ≡ nat_lt LONGEST_FILE (length bytes) }
{
    match reading {
        Reading::TooLong => true,
        Reading::Absent | Reading::Found(_) => false,
    }
}

// Whether a file has no style, whatever it holds.
fn has_no_style_unread(path: &PathText, asked: &Amendment<'_, '_>) -> bool
    ensures { result ≡ has_no_style_by asked.now path.now }
{
    asked.scope.style.is_none() && has_no_style(asked.styles.style_unread(path.text()))
}

// Whether a kind is known that has no style.
fn has_no_style(kind: Option<Kind<'_>>) -> bool
    ensures { result ≡ has_no_style kind.entry }
{
    match kind {
        None => false,
        Some(kind) => style_of_kind(kind).is_none(),
    }
}

// The style of a file of these bytes: the one that is asked for, else that of its kind.
fn style_of<'a>(path: &PathText, bytes: &[u8], asked: &Amendment<'_, 'a>) -> Option<Style<'a>>
    ensures { result ≡ style_by asked.now path.now bytes.now }
{
    match &asked.scope.style {
        Some(style) => Some(style.style()),
        None => style_of_kind(asked.styles.style_of(path.text(), bytes)),
    }
}

fn style_of_kind(kind: Kind<'_>) -> Option<Style<'_>>
    ensures { result ≡ style_of_kind kind.entry }
{
    match kind {
        Kind::Style(style) => Some(style),
        Kind::Uncommentable => None,
        Kind::Unknown => None,
    }
}

// What is done at a path whose neighbour is there. Where that goes, the file itself tells whether
// the path is left.
fn plan_with_neighbour<S: Store>(
    alloc: Global,
    store: &mut S,
    path: &PathText,
    asked: &Amendment<'_, '_>,
) -> Result<Amended, Refusal>
    ensures edit { S.honest store.new → (bytes beside : List ℕ)
        → get (tree_of (S.files store.old)) path.now ≡ Some bytes
        → get (tree_of (S.files store.old)) (neighbour_of path.now) ≡ Some beside
        → AnswersPath asked.now (tree_of (S.files store.old)) path.now (beside_by asked.now path.now beside) result }
    ensures asks { ReadsAlone S.Store IsOfPlan store.old store.new result }
{
    let Amended { change, is_left } = match plan_in_neighbour(alloc, store, path, asked) {
        Ok(amended) => amended,
        Err(refusal) => return Err(refusal),
    };
    if !takes_away(&change) {
        return Ok(Amended { change, is_left });
    }
    let reading = store.read(alloc, path, LONGEST_FILE)?;
    let is_left = still_names_read(asked.amendment.values(), &reading);
    Ok(Amended { change, is_left })
}

// Whether a change takes its file away.
fn takes_away(change: &Option<Change>) -> bool
    ensures { result ≡ takes_away change.now }
{
    match change {
        Some(Change::Drop { .. }) => true,
        Some(_) | None => false,
    }
}

// What is done with the neighbour of a file, which is there.
fn plan_in_neighbour<S: Store>(
    alloc: Global,
    store: &mut S,
    path: &PathText,
    asked: &Amendment<'_, '_>,
) -> Result<Amended, Refusal>
    ensures edit { S.honest store.new → (bytes : List ℕ)
        → get (tree_of (S.files store.old)) (neighbour_of path.now) ≡ Some bytes
        → AnswersText asked.now (tree_of (S.files store.old)) bytes (beside_by asked.now path.now bytes) result }
    ensures asks { ReadsAlone S.Store IsOfPlan store.old store.new result }
{
    let Some(neighbour) = neighbour_path(alloc, path)? else {
        return Err(Refusal::TooLong(path.try_clone(alloc)?));
    };
    let reading = store.read(alloc, &neighbour, LONGEST_FILE)?;
    plan_neighbour(alloc, path, &neighbour, asked, reading)
}

// What is done with a neighbour, by what was read of it.
fn plan_neighbour(
    alloc: Global,
    path: &PathText,
    neighbour: &PathText,
    asked: &Amendment<'_, '_>,
    reading: Reading,
) -> Result<Amended, Refusal>
    ensures edit { (tree : Files) (bytes : List ℕ) → neighbour.now ≡ neighbour_of path.now
        → nat_lt 4096 (length (neighbour_of path.now)) ≡ false
        → get tree neighbour.now ≡ Some bytes → reading ≡ reading_of (Some bytes) LONGEST_FILE
        → AnswersText asked.now tree bytes (beside_by asked.now path.now bytes) result }
    ensures no_fault { IfErr result IsNoFault }
{
    let bytes = short_bytes(alloc, path, reading)?;
    plan_beside(alloc, path, neighbour, bytes.as_slice(), asked)
}

// What is done with a neighbour of these bytes: with all that it says, or with each tag of it.
fn plan_beside(
    alloc: Global,
    path: &PathText,
    neighbour: &PathText,
    bytes: &[u8],
    asked: &Amendment<'_, '_>,
) -> Result<Amended, Refusal>
    requires { length bytes.now ≤ LONGEST_FILE }
    ensures edit { (tree : Files) → neighbour.now ≡ neighbour_of path.now → get tree neighbour.now ≡ Some bytes.now
        → AnswersText asked.now tree bytes.now (amend_beside asked.now.amendment.now path.now bytes.now) result }
    ensures no_fault { IfErr result IsNoFault }
{
    match asked.amendment {
        FileAmendment::InHeader(values) => plan_written(alloc, path, neighbour, bytes, values),
        FileAmendment::Everywhere(values) => {
            if !is_text(bytes) {
                let path = path.try_clone(alloc)?;
                return Err(Refusal::Header(path, HeaderFault::NotText));
            }
            plan_text(alloc, path, neighbour, bytes, values)
        }
        FileAmendment::Remove(values, removal) => {
            plan_left_beside(alloc, path, neighbour, bytes, values, removal)
        }
    }
}

// What is done with all that a neighbour of these bytes says.
fn plan_written(
    alloc: Global,
    path: &PathText,
    neighbour: &PathText,
    bytes: &[u8],
    values: &Amendments,
) -> Result<Amended, Refusal>
    requires { length bytes.now ≤ LONGEST_FILE }
    ensures edit { (tree : Files) → get tree neighbour.now ≡ Some bytes.now → AnswersValues values.now tree bytes.now
        (amendment_edit path.now neighbour.now bytes.now (neighbour_amendment_of values.now bytes.now)) result }
    ensures no_fault { IfErr result IsNoFault }
{
    // That the edit lies within the file, and makes none that is too long.
    amendments_fit();
    let made = amend_neighbour(alloc, bytes, values);
    amended_as(alloc, path, neighbour, bytes, made, values)
}

// What is done with a file that has no neighbour.
fn plan_inside<S: Store>(
    alloc: Global,
    store: &mut S,
    path: &PathText,
    asked: &Amendment<'_, '_>,
) -> Result<Amended, Refusal>
    ensures edit { S.honest store.new → (bytes : List ℕ) → get (tree_of (S.files store.old)) path.now ≡ Some bytes
        → AnswersText asked.now (tree_of (S.files store.old)) bytes (inside_by asked.now path.now bytes) result }
    ensures asks { ReadsAlone S.Store IsOfPlan store.old store.new result }
{
    let reading = store.read(alloc, path, LONGEST_FILE)?;
    if is_passed_over(path, asked, &reading) {
        return Ok(Amended {
            change: None,
            is_left: still_names_read(asked.amendment.values(), &reading),
        });
    }
    plan_reading(alloc, path, asked, reading)
}

// What is done with a file that isn't passed over, by what was read of it.
fn plan_reading(
    alloc: Global,
    path: &PathText,
    asked: &Amendment<'_, '_>,
    reading: Reading,
) -> Result<Amended, Refusal>
    ensures edit { (tree : Files) (bytes : List ℕ) → get tree path.now ≡ Some bytes
        → is_passed_over_by asked.now path.now bytes ≡ false → reading ≡ reading_of (Some bytes) LONGEST_FILE
        → AnswersText asked.now tree bytes (inside_by asked.now path.now bytes) result }
    ensures no_fault { IfErr result IsNoFault }
{
    let bytes = short_bytes(alloc, path, reading)?;
    if !is_text(bytes.as_slice()) {
        return Ok(Amended {
            change: None,
            is_left: false,
        });
    }
    plan_own_text(alloc, path, bytes.as_slice(), asked)
}

// What is done with a file that is text of these bytes: with its header block, or with each tag.
fn plan_own_text(
    alloc: Global,
    path: &PathText,
    bytes: &[u8],
    asked: &Amendment<'_, '_>,
) -> Result<Amended, Refusal>
    requires { length bytes.now ≤ LONGEST_FILE }
    ensures edit { (tree : Files) → get tree path.now ≡ Some bytes.now
        → AnswersText asked.now tree bytes.now (own_text_by asked.now path.now bytes.now) result }
    ensures no_fault { IfErr result IsNoFault }
{
    match asked.amendment {
        FileAmendment::InHeader(values) => {
            plan_header(alloc, path, bytes, style_of(path, bytes, asked), values)
        }
        FileAmendment::Everywhere(values) => plan_text(alloc, path, path, bytes, values),
        FileAmendment::Remove(values, removal) => {
            let style = style_of(path, bytes, asked);
            plan_left_inside(alloc, path, bytes, style, values, removal)
        }
    }
}

// What is done with the header block of a file of these bytes, in its style, if it has one.
fn plan_header(
    alloc: Global,
    path: &PathText,
    bytes: &[u8],
    style: Option<Style<'_>>,
    values: &Amendments,
) -> Result<Amended, Refusal>
    requires { length bytes.now ≤ LONGEST_FILE }
    ensures edit { (tree : Files) → get tree path.now ≡ Some bytes.now
        → AnswersValues values.now tree bytes.now (amend_block values.now path.now bytes.now style.entry) result }
    ensures no_fault { IfErr result IsNoFault }
{
    match style {
        Some(style) => plan_block(alloc, path, bytes, &style, values),
        None => Ok(Amended {
            change: None,
            is_left: still_names(values, bytes),
        }),
    }
}

// What is done with the header block of a file of these bytes, in this style.
fn plan_block(
    alloc: Global,
    path: &PathText,
    bytes: &[u8],
    style: &Style<'_>,
    values: &Amendments,
) -> Result<Amended, Refusal>
    requires { length bytes.now ≤ LONGEST_FILE }
    ensures edit { (tree : Files) → get tree path.now ≡ Some bytes.now
        → AnswersValues values.now tree bytes.now (amend_block values.now path.now bytes.now (Some style.now)) result }
    ensures no_fault { IfErr result IsNoFault }
{
    // That the edit lies within the file, and makes none that is too long.
    amendments_fit();
    let made = amend_file(alloc, bytes, style, values);
    amended_as(alloc, path, path, bytes, made, values)
}
