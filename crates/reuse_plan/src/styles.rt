//! The styles that a tree gives to its own names, and its own comments and rules.
ghost use Rattle.std.specs.Prelude.{◌≡◌, List, ℕ, Option, IfOk, IfErr, Ok};
ghost use Rattle.std.specs.Option.{option_copied};
ghost use Rattle.reuse_style.specs.CommentFile.{comments_of};
ghost use Rattle.reuse_style.specs.Kinds.{kinds_by};
ghost use Rattle.reuse_command.specs.Reading.{get, reading_of, tree_of, IsOfPlan, ReadsAlone};
ghost use Rattle.reuse_edit.specs.Answered.{IsRefusalOf};
ghost use Rattle.reuse_command.specs.Refused.{IsNoFault};
ghost use Rattle.reuse_plan.specs.TreeStyles.{styles_given, styles_in, styles_refusal, comments_refusal, comments_read};
ghost use Rattle.reuse_plan.specs.OwnFiles.{AreOwnFiles};
ghost use Rattle.reuse_plan.specs.TreeStyles.{own_file};

use reuse_change::PathText;
use reuse_command::failure::Failure;
use reuse_command::known_path::known_path;
use reuse_command::reply::Refusal;
use reuse_header::{CommentRules, CommentsRefusal, StyleTable, StylesRefusal};
use reuse_store::{Reading, Store};
use reuse_text::{Bytes, LONGEST_FILE};
use std::alloc::Global;

/// What a tree states of its own styles: the bytes of its `.reuse/styles.toml` and of its
/// `.reuse/comments.toml`, if it has them, and the comments and rules of the latter.
#[derive(Drop)]
pub(crate) struct OwnFiles {
    pub(crate) styles: Option<Bytes>,
    pub(crate) comments_file: Option<Bytes>,
    pub(crate) comments: CommentRules,
}

/// What the tree that the store has states of its own styles.
pub(crate) fn read_own_files<S: Store>(alloc: Global, store: &mut S) -> Result<OwnFiles, Refusal>
    ensures files { S.honest store.new
        → IfOk result (λ own. styles_in (tree_of (S.files store.old)) ≡ styles_given own.styles own.comments) }
    ensures read { S.honest store.new → IfOk result (AreOwnFiles (tree_of (S.files store.old))) }
    ensures refusal { S.honest store.new
        → IfErr result (λ refusal. IsRefusalOf (styles_in (tree_of (S.files store.old))) refusal) }
    ensures asks { ReadsAlone S.Store IsOfPlan store.old store.new result }
{
    let styles_path = known_path(alloc, ".reuse/styles.toml")?;
    let comments_path = known_path(alloc, ".reuse/comments.toml")?;
    let styles = read_own(alloc, store, styles_path)?;
    let comments_file = read_own(alloc, store, comments_path)?;
    let comments = comments_by(alloc, &comments_file)?;
    Ok(OwnFiles {
        styles,
        comments_file,
        comments,
    })
}

// The bytes of a file, if there is one.
fn read_own<S: Store>(
    alloc: Global,
    store: &mut S,
    path: PathText,
) -> Result<Option<Bytes>, Refusal>
    ensures file { S.honest store.new
        → IfOk result (λ file. own_file path (get (S.files store.old) path) ≡ Ok file) }
    ensures refusal { S.honest store.new
        → IfErr result (IsRefusalOf (own_file path (get (S.files store.old) path))) }
    ensures asks { ReadsAlone S.Store IsOfPlan store.old store.new result }
{
    let reading = store.read(alloc, &path, LONGEST_FILE)?;
    own_file(path, reading)
}

// A file by what was read of it, unless it is too long.
fn own_file(path: PathText, reading: Reading) -> Result<Option<Bytes>, Refusal>
    ensures file { (file : Option (List ℕ)) → reading ≡ reading_of file LONGEST_FILE → result ≡ own_file path file }
    ensures no_fault { IfErr result IsNoFault }
{
    match reading {
        Reading::Absent => Ok(None),
        Reading::Found(bytes) => Ok(Some(bytes)),
        Reading::TooLong => Err(Refusal::TooLong(path)),
    }
}

/// The bytes of a file, if there is one, lent.
pub(crate) fn lent(file: &Option<Bytes>) -> Option<&[u8]>
    ensures { option_copied result ≡ file.now }
{
    match file {
        None => None,
        Some(bytes) => Some(bytes.as_slice()),
    }
}

// The tree's own comments and rules by their file.
fn comments_by(alloc: Global, file: &Option<Bytes>) -> Result<CommentRules, Refusal>
    ensures comments { IfOk result (λ comments. comments_of file.now ≡ Ok comments) }
    ensures refusal { IfErr result (IsRefusalOf (comments_read (comments_of file.now))) }
    ensures no_fault { IfErr result IsNoFault }
{
    match CommentRules::read(alloc, lent(file)) {
        Ok(comments) => Ok(comments),
        Err(refusal) => Err(of_comments(refusal)),
    }
}

/// The styles of the tree by its own files.
pub(crate) fn styles_by(alloc: Global, own: &OwnFiles) -> Result<StyleTable<'_>, Refusal>
    ensures styles { IfOk result (λ styles. styles_given own.now.styles own.now.comments ≡ Ok (kinds_by styles)) }
    ensures refusal { IfErr result (IsRefusalOf (styles_given own.now.styles own.now.comments)) }
    ensures no_fault { IfErr result IsNoFault }
{
    match StyleTable::read(alloc, &own.comments, lent(&own.styles)) {
        Ok(styles) => Ok(styles),
        Err(refusal) => Err(of_styles(refusal)),
    }
}

// A refusal of the file of comments as one of the command.
fn of_comments(refusal: CommentsRefusal) -> Refusal
    ensures { result ≡ comments_refusal refusal }
{
    match refusal {
        CommentsRefusal::Memory(_) => Refusal::Failed(Failure::Memory),
        refusal => Refusal::BadComments(refusal),
    }
}

// A refusal of the file of styles as one of the command.
fn of_styles(refusal: StylesRefusal) -> Refusal
    ensures { result ≡ styles_refusal refusal }
{
    match refusal {
        StylesRefusal::Memory(_) => Refusal::Failed(Failure::Memory),
        refusal => Refusal::BadStyles(refusal),
    }
}
