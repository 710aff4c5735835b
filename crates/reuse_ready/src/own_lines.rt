//! The lines that come into a tree's own files.
ghost use Rattle.std.specs.Prelude.{◌≡◌, [], Some, Ok, IfOk, IfErr, map};
ghost use Rattle.std.specs.List.{list_all};
ghost use Rattle.std.specs.Option.{option_copied};
ghost use Rattle.reuse_style.specs.Names.{lookup};
ghost use Rattle.reuse_ready.specs.Additions.{lines_added, missing_names, missing_tables, style_lines, comment_lines};
ghost use Rattle.reuse_ready.specs.Additions.{before_lines, is_ended, with_lines, if_read, if_named, has_kind};
ghost use Rattle.reuse_style.specs.StyleFile.{styles_of};
ghost use Rattle.reuse_style.specs.CommentFile.{comments_of};
ghost use Rattle.reuse_ready.specs.declared.own_lines.AddedLines.{AddedLines};
ghost use Rattle.reuse_ready.specs.Refused.{IsAdditionRefused};

use crate::additions::{NameAddition, RuleAddition, StyleAdditions, TableAddition};
use crate::rule_lines::missing_rules;
use crate::texts::{push_name_line, push_table};
use reuse_style::{CommentRules, CommentsRefusal, Kind, StyleTable, StylesRefusal};
use reuse_text::Bytes;
use std::alloc::{AllocError, Global};
use thiserror::Error;

/// The lines that come behind the bytes of a tree's own files: of each none where it stays as it is.
#[derive(Debug, Drop)]
pub struct AddedLines {
    /// Of the file of styles.
    pub styles: Bytes,
    /// Of the file of comments.
    pub comments: Bytes,
}

/// Why nothing is added to a tree's own files.
#[derive(Debug, Drop, Error)]
pub enum AdditionRefusal {
    /// A growth was refused.
    #[error("out of memory")]
    Memory(AllocError),
    /// The file of comments could not be read with the lines that it would get.
    #[error("the comments cannot be amended")]
    Comments,
    /// The file of styles could not be read with the lines that it would get, or would not say them.
    #[error("the styles cannot be amended")]
    Styles,
}

impl From<AllocError> for AdditionRefusal {
    ghost use Rattle.std.specs.Prelude.{◌≡◌};
    ghost use Rattle.reuse_ready.specs.declared.own_lines.AdditionRefusal.TheVariants.{Memory};

    ghost from_gives = { λ e r. r ≡ Memory e };

    fn from(e: AllocError) -> AdditionRefusal {
        AdditionRefusal::Memory(e)
    }
}

/// What a tree has of its own styles: the bytes of its files of styles and of comments, where it has
/// them, and what these say.
#[derive(Clone, Copy, Debug)]
pub struct OwnStyles<'a, 'own> {
    /// The file of styles.
    pub styles: Option<&'a [u8]>,
    /// The file of comments.
    pub comments: Option<&'a [u8]>,
    /// The names of the file of styles.
    pub names: &'a StyleTable<'own>,
    /// The comment styles and rules of the file of comments.
    pub own_comments: &'own CommentRules,
}

/// The lines that come into a tree's own files: the names, comments and rules that it lacks. With them
/// the files are read back.
#[tactic(auto, unfolding(crate::specs::Additions::lines_added))]
pub fn lines_added(
    alloc: Global,
    additions: &StyleAdditions,
    own: &OwnStyles<'_, '_>,
) -> Result<AddedLines, AdditionRefusal>
    ensures added { IfOk result (λ added. lines_added additions.now (option_copied own.now.styles)
        (option_copied own.now.comments) (lookup own.now.names.now.entries) own.now.own_comments.now.styles
        ≡ Ok added) }
    ensures refusal { IfErr result (IsAdditionRefused (lines_added additions.now (option_copied own.now.styles)
        (option_copied own.now.comments) (lookup own.now.names.now.entries) own.now.own_comments.now.styles)) }
{
    let names = missing_names(alloc, additions.names.as_slice(), own.names)?;
    let tables = missing_tables(alloc, additions.tables.as_slice(), own.own_comments)?;
    let rules = missing_rules(alloc, additions.rules.as_slice(), own.comments)?;
    let added = AddedLines {
        styles: style_lines(alloc, own.styles, &names)?,
        comments: comment_lines(alloc, own.comments, &tables, &rules)?,
    };
    let styles = with_lines(alloc, own.styles, added.styles.as_slice())?;
    let comments = with_lines(alloc, own.comments, added.comments.as_slice())?;
    match read_back(alloc, &styles, &comments, &names) {
        Ok(()) => Ok(added),
        Err(refusal) => Err(refusal),
    }
}

// The names that a tree doesn't give a style itself.
fn missing_names<'a>(
    alloc: Global,
    names: &'a [NameAddition],
    own: &StyleTable<'_>,
) -> Result<Vec<&'a NameAddition>, AllocError>
    ensures { IfOk result
        (λ missing. map (λ name. name.now) missing.items ≡ missing_names (lookup own.now.entries) names.now) }
{
    let mut missing = Vec::new(alloc);
    for name in names {
        if own.own_kind(name.name.as_slice()).is_none() {
            missing.push(name)?;
        }
    }
    Ok(missing)
}

// The comments that a tree doesn't say itself.
fn missing_tables<'a>(
    alloc: Global,
    tables: &'a [TableAddition],
    own_comments: &CommentRules,
) -> Result<Vec<&'a TableAddition>, AllocError>
    ensures { IfOk result
        (λ missing. map (λ table. table.now) missing.items ≡ missing_tables own_comments.now.styles tables.now) }
{
    let mut missing = Vec::new(alloc);
    for table in tables {
        if !own_comments.has_style(table.name.as_slice()) {
            missing.push(table)?;
        }
    }
    Ok(missing)
}

// The lines of names that come behind those of a file of styles.
fn style_lines(
    alloc: Global,
    file: Option<&[u8]>,
    names: &[&NameAddition],
) -> Result<Bytes, AllocError>
    ensures { IfOk result
        (λ lines. lines ≡ style_lines (option_copied file.entry) (map (λ name. name.now) names.now)) }
{
    if names.is_empty() {
        return Ok(Bytes::new(alloc));
    }
    let mut lines = before_lines(alloc, b"version = 1\n\n[styles]\n", file)?;
    for name in names {
        push_name_line(&mut lines, name.name.as_slice(), name.style.as_slice())?;
    }
    Ok(lines)
}

// The lines of tables and of rules that come behind those of a file of comments.
fn comment_lines(
    alloc: Global,
    file: Option<&[u8]>,
    tables: &[&TableAddition],
    rules: &[&RuleAddition],
) -> Result<Bytes, AllocError>
    ensures { IfOk result
        (λ lines. lines ≡ comment_lines (option_copied file.entry) (map (λ table. table.now) tables.now)
        (map (λ rule. rule.now) rules.now)) }
{
    if tables.is_empty() && rules.is_empty() {
        return Ok(Bytes::new(alloc));
    }
    let mut lines = before_lines(alloc, b"version = 1\n", file)?;
    for table in tables {
        push_table(&mut lines, table.table.as_slice())?;
    }
    for rule in rules {
        push_table(&mut lines, rule.rules.as_slice())?;
    }
    Ok(lines)
}

// What stands in front of lines that come into a file: its first lines, where it isn't there, else
// the line end that it lacks.
fn before_lines(alloc: Global, first_lines: &[u8], file: Option<&[u8]>) -> Result<Bytes, AllocError>
    ensures { IfOk result (λ lines. lines ≡ before_lines first_lines.now (option_copied file.entry)) }
{
    let before = match file {
        None => first_lines,
        Some(bytes) if is_ended(bytes) => b"",
        Some(_) => b"\n",
    };
    Bytes::from_slice(alloc, before)
}

// Whether bytes have a line end behind their last line.
#[tactic(auto, using(crate::proofs::OwnLemmas::ended), unfolding(crate::specs::Additions::is_ended))]
fn is_ended(bytes: &[u8]) -> bool
    ensures { result ≡ is_ended bytes.now }
{
    match bytes {
        [] => true,
        [.., last] => *last == b'\n',
    }
}

// A file with lines behind it: none where it isn't there and there are no lines.
fn with_lines(alloc: Global, file: Option<&[u8]>, lines: &[u8]) -> Result<Option<Bytes>, AllocError>
    ensures { IfOk result (λ text. text ≡ with_lines (option_copied file.entry) lines.now) }
{
    let mut text = match file {
        None if lines.is_empty() => return Ok(None),
        None => Bytes::new(alloc),
        Some(bytes) => Bytes::from_slice(alloc, bytes)?,
    };
    text.push_slice(lines)?;
    Ok(Some(text))
}

// Whether both files are read, and names have their styles by them.
fn read_back(
    alloc: Global,
    styles: &Option<Bytes>,
    comments: &Option<Bytes>,
    names: &[&NameAddition],
) -> Result<(), AdditionRefusal>
    ensures read { (added : AddedLines) → IfOk result (λ _. if_read added (map (λ name. name.now) names.now) styles.now
        (comments_of comments.now) ≡ Ok added) }
    ensures refusal { (added : AddedLines) → IfErr result (IsAdditionRefused
        (if_read added (map (λ name. name.now) names.now) styles.now (comments_of comments.now))) }
{
    match CommentRules::read(alloc, lent(comments)) {
        Ok(own_comments) => read_names_back(alloc, &own_comments, styles, names),
        Err(CommentsRefusal::Memory(error)) => Err(AdditionRefusal::Memory(error)),
        Err(_) => Err(AdditionRefusal::Comments),
    }
}

// Whether the file of styles is read beside these comments, and names have their styles by it.
fn read_names_back(
    alloc: Global,
    own_comments: &CommentRules,
    styles: &Option<Bytes>,
    names: &[&NameAddition],
) -> Result<(), AdditionRefusal>
    ensures read { (added : AddedLines) → IfOk result (λ _. if_named added (map (λ name. name.now) names.now)
        (styles_of own_comments.now.styles styles.now) ≡ Ok added) }
    ensures refusal { (added : AddedLines) → IfErr result (IsAdditionRefused
        (if_named added (map (λ name. name.now) names.now) (styles_of own_comments.now.styles styles.now))) }
{
    match StyleTable::read(alloc, own_comments, lent(styles)) {
        Ok(own) => if are_named(&own, names) {
            Ok(())
        } else {
            Err(AdditionRefusal::Styles)
        },
        Err(StylesRefusal::Memory(error)) => Err(AdditionRefusal::Memory(error)),
        Err(_) => Err(AdditionRefusal::Styles),
    }
}

// A text, lent.
fn lent(text: &Option<Bytes>) -> Option<&[u8]>
    ensures { option_copied result ≡ text.now }
{
    match text {
        None => None,
        Some(bytes) => Some(bytes.as_slice()),
    }
}

// Whether own names give names the styles that are to be added.
fn are_named(own: &StyleTable<'_>, names: &[&NameAddition]) -> bool
    ensures { result ≡
        list_all (λ name. has_kind (lookup own.now.entries name.now.name) name.now.style) names.now }
{
    names.iter().all(|name| is_named(own, name))
}

// Whether own names give a name the style that is to be added.
fn is_named(own: &StyleTable<'_>, name: &NameAddition) -> bool
    ensures { result ≡ has_kind (lookup own.now.entries name.now.name) name.now.style }
{
    match own.own_kind(name.name.as_slice()) {
        Some(Kind::Style(style)) => style.name().as_bytes() == name.style.as_slice(),
        Some(Kind::Uncommentable) => name.style.as_slice() == b"uncommentable".as_slice(),
        _ => false,
    }
}
