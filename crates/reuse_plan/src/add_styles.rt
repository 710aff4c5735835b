//! Plans an addition of styles: lines behind those of the tree's own files of comments and of styles.
ghost use Rattle.std.specs.Prelude.{◌≡◌, ◌++◌, ◌≢◌, [], true, IfOk, IfErr, None, Some, Ok};
ghost use Rattle.std.specs.Option.{option_to_list};
ghost use Rattle.reuse_change.specs.Tree.{is_of_tree};
ghost use Rattle.reuse_command.specs.Reading.{get, tree_of, Files, IsOfPlan, ReadsAlone};
ghost use Rattle.reuse_command.specs.Refused.{IsNoFault};
ghost use Rattle.reuse_plan.specs.OwnFiles.{AreOwnFiles};
ghost use Rattle.reuse_edit.specs.Answered.{AnswersEdit, AnswersEdits, AnswersOf};
ghost use Rattle.reuse_plan.specs.StyleEdits.{addition_refusal, edits_for, file_with, lines_edit};
ghost use Rattle.reuse_plan.specs.StyleEdits.{lines_for, style_edits};
ghost use Rattle.reuse_plan.specs.TreeStyles.{styles_given, styles_in};

use crate::styles::{OwnFiles, lent, read_own_files, styles_by};
use reuse_change::{Change, PathText};
use reuse_command::amend_fault::AmendFault;
use reuse_command::failure::Failure;
use reuse_command::known_path::known_path;
use reuse_command::reply::Refusal;
use reuse_ready::{AddedLines, AdditionRefusal, OwnStyles, StyleAdditions, lines_added};
use reuse_store::{Store, is_clash_at};
use reuse_text::{Bytes, LONGEST_FILE};
use std::alloc::{AllocError, Global};

/// The changes that add styles to the tree that the store has, or the first refusal.
pub(crate) fn plan_style_additions<S: Store>(
    alloc: Global,
    store: &mut S,
    additions: &StyleAdditions,
) -> Result<Vec<Change>, Refusal>
    ensures edits { S.honest store.new → AnswersEdits (tree_of (S.files store.old))
        (style_edits additions.now (tree_of (S.files store.old))) result }
    ensures asks { ReadsAlone S.Store IsOfPlan store.old store.new result }
{
    let own = match read_own_files(alloc, store) {
        Ok(own) => own,
        Err(refusal) => return Err(refusal),
    };
    let added = match lines_for(alloc, &own, additions) {
        Ok(added) => added,
        Err(refusal) => return Err(refusal),
    };
    changes_for(alloc, store, &own, added)
}

// The lines that come into the tree's own files, of which this was read.
fn lines_for(
    alloc: Global,
    own: &OwnFiles,
    additions: &StyleAdditions,
) -> Result<AddedLines, Refusal>
    ensures added { (tree : Files) → AreOwnFiles tree own.now
        → styles_in tree ≡ styles_given own.now.styles own.now.comments
        → AnswersOf (lines_for additions.now tree (styles_in tree)) result }
    ensures no_fault { IfErr result IsNoFault }
{
    let names = match styles_by(alloc, own) {
        Ok(names) => names,
        Err(refusal) => return Err(refusal),
    };
    let found = OwnStyles {
        styles: lent(&own.styles),
        comments: lent(&own.comments_file),
        names: &names,
        own_comments: &own.comments,
    };
    match lines_added(alloc, additions, &found) {
        Ok(added) => Ok(added),
        Err(refusal) => Err(addition_refusal(alloc, refusal)?),
    }
}

// A refusal of what would be read back as one of the command.
fn addition_refusal(alloc: Global, refusal: AdditionRefusal) -> Result<Refusal, AllocError>
    ensures { IfOk result (λ refused. refused ≡ addition_refusal refusal) }
{
    let path = match refusal {
        AdditionRefusal::Memory(_) => return Ok(Refusal::Failed(Failure::Memory)),
        AdditionRefusal::Comments => known_path(alloc, ".reuse/comments.toml")?,
        AdditionRefusal::Styles => known_path(alloc, ".reuse/styles.toml")?,
    };
    Ok(Refusal::Amend(path, AmendFault::CannotBeAmended))
}

// The changes of both files, of which this was read, by the lines that come into each.
fn changes_for<S: Store>(
    alloc: Global,
    store: &mut S,
    own: &OwnFiles,
    added: AddedLines,
) -> Result<Vec<Change>, Refusal>
    ensures edits { S.honest store.new → AreOwnFiles (tree_of (S.files store.old)) own.now
        → AnswersEdits (tree_of (S.files store.old)) (edits_for (tree_of (S.files store.old)) (Ok added)) result }
    ensures asks { ReadsAlone S.Store IsOfPlan store.old store.new result }
{
    let AddedLines { styles, comments } = added;
    let comments_path = known_path(alloc, ".reuse/comments.toml")?;
    let styles_path = known_path(alloc, ".reuse/styles.toml")?;
    let first = match lines_change(alloc, store, comments_path, &own.comments_file, comments) {
        Ok(first) => first,
        Err(refusal) => return Err(refusal),
    };
    match lines_change(alloc, store, styles_path, &own.styles, styles) {
        Ok(second) => Ok(listed(alloc, first, second)?),
        Err(refusal) => Err(refusal),
    }
}

// The changes that there are, in this order.
fn listed(
    alloc: Global,
    first: Option<Change>,
    second: Option<Change>,
) -> Result<Vec<Change>, AllocError>
    ensures { IfOk result (λ changes. changes.items ≡ option_to_list first ++ option_to_list second) }
{
    let mut changes = Vec::with_capacity(alloc, 2)?;
    if let Some(first) = first {
        changes.push(first)?;
    }
    if let Some(second) = second {
        changes.push(second)?;
    }
    Ok(changes)
}

// The change of one of the files by the lines that come into it.
fn lines_change<S: Store>(
    alloc: Global,
    store: &mut S,
    path: PathText,
    file: &Option<Bytes>,
    lines: Bytes,
) -> Result<Option<Change>, Refusal>
    ensures edit { S.honest store.new → is_of_tree path ≡ true → get (tree_of (S.files store.old)) path ≡ file.now
        → AnswersEdit (tree_of (S.files store.old))
        (lines_edit (tree_of (S.files store.old)) path file.now lines) result }
    ensures asks { ReadsAlone S.Store IsOfPlan store.old store.new result }
{
    if lines.is_empty() {
        return Ok(None);
    }
    match file {
        None => make_file(alloc, store, path, lines),
        Some(bytes) => append(alloc, path, bytes.as_slice(), lines),
    }
}

// The change that makes a file of lines, unless they are too long.
fn make_file<S: Store>(
    alloc: Global,
    store: &mut S,
    path: PathText,
    lines: Bytes,
) -> Result<Option<Change>, Refusal>
    ensures edit { S.honest store.new → is_of_tree path ≡ true → get (tree_of (S.files store.old)) path ≡ None
        → AnswersEdit (tree_of (S.files store.old))
        (file_with (tree_of (S.files store.old)) path None lines) result }
    ensures asks { ReadsAlone S.Store IsOfPlan store.old store.new result }
{
    if lines.len() > LONGEST_FILE {
        return Err(Refusal::TooLong(path));
    }
    if is_clash_at(alloc, store, &path)? {
        return Err(Refusal::Clash(path));
    }
    Ok(Some(Change::sealed_make(path, lines)))
}

// The change that puts lines behind the bytes of a file, unless that makes it too long.
fn append(
    alloc: Global,
    path: PathText,
    bytes: &[u8],
    lines: Bytes,
) -> Result<Option<Change>, Refusal>
    ensures edit { (tree : Files) → get tree path ≡ Some bytes.now → lines ≢ []
        → AnswersEdit tree (file_with tree path (Some bytes.now) lines) result }
    ensures no_fault { IfErr result IsNoFault }
{
    if lines.len() > LONGEST_FILE.saturating_sub(bytes.len()) {
        return Err(Refusal::TooLong(path));
    }
    let none = Bytes::new(alloc);
    Ok(Some(Change::sealed_splice(path, bytes, bytes.len(), none, lines)))
}
