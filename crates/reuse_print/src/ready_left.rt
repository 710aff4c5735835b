//! Whether ready styles are left for names without one: whether `styles --add` adds something for
//! them to the tree's own files. `diagnostics` of the program calls it, for the notes on these names.
//! Its contract says every case; `tests/notes.sh` shows some.
ghost use Rattle.std.specs.Prelude.{◌≡◌, IfOk};
ghost use Rattle.std.specs.Option.{option_copied};
ghost use Rattle.reuse_style.specs.CommentFile.{comments_of};
ghost use Rattle.reuse_style.specs.Names.{lookup};
ghost use Rattle.reuse_style.specs.StyleFile.{styles_of};
ghost use Rattle.reuse_ready.specs.Additions.{lines_added};
ghost use Rattle.reuse_ready.specs.Needed.{additions_of};
ghost use Rattle.reuse_print.specs.ReadyLeft.{comes_by, has_line, is_any_left, is_any_line};

use reuse_ready::{
    AddedLines, AdditionRefusal, NameCount, OwnStyles, StyleAdditions, additions_of, lines_added,
};
use reuse_style::{CommentRules, CommentsRefusal, StyleTable, StylesRefusal};
use reuse_text::Bytes;
use std::alloc::{AllocError, Global};

/// A tree's own files of styles and of comments, where it has them.
#[derive(Drop)]
pub struct OwnFiles {
    /// The file of styles.
    pub styles: Option<Bytes>,
    /// The file of comments.
    pub comments: Option<Bytes>,
}

/// Whether the ready tables have something for these names that the tree's own files lack: a style,
/// a comment or rules. Where such a file can't be read, or would not be, nothing comes into it.
pub fn is_any_left(alloc: Global, rows: &[NameCount], own: &OwnFiles) -> Result<bool, AllocError>
    ensures { IfOk result (λ is_left. is_left ≡ is_any_left rows.now own.now.styles own.now.comments) }
{
    let additions = additions_of(alloc, rows)?;
    match CommentRules::read(alloc, lent(&own.comments)) {
        Ok(own_comments) => comes_by(alloc, &additions, own, &own_comments),
        Err(CommentsRefusal::Memory(error)) => Err(error),
        Err(_) => Ok(false),
    }
}

// Whether lines come into the files beside these comments.
fn comes_by(
    alloc: Global,
    additions: &StyleAdditions,
    own: &OwnFiles,
    own_comments: &CommentRules,
) -> Result<bool, AllocError>
    ensures { IfOk result (λ comes. comes ≡ comes_by additions.now own.now.styles own.now.comments
        own_comments.now.styles (styles_of own_comments.now.styles own.now.styles)) }
{
    match StyleTable::read(alloc, own_comments, lent(&own.styles)) {
        Ok(names) => {
            let found = OwnStyles {
                styles: lent(&own.styles),
                comments: lent(&own.comments),
                names: &names,
                own_comments,
            };
            comes_beside(alloc, additions, &found)
        }
        Err(StylesRefusal::Memory(error)) => Err(error),
        Err(_) => Ok(false),
    }
}

// Whether lines come into the files beside what they say.
fn comes_beside(
    alloc: Global,
    additions: &StyleAdditions,
    own: &OwnStyles<'_, '_>,
) -> Result<bool, AllocError>
    ensures { IfOk result (λ comes. comes ≡ is_any_line (lines_added additions.now (option_copied own.now.styles)
        (option_copied own.now.comments) (lookup own.now.names.now.entries) own.now.own_comments.now.styles)) }
{
    match lines_added(alloc, additions, own) {
        Ok(added) => Ok(has_line(&added)),
        Err(AdditionRefusal::Memory(error)) => Err(error),
        Err(_) => Ok(false),
    }
}

// Whether there are lines for one of the files.
fn has_line(added: &AddedLines) -> bool
    ensures { result ≡ has_line added.now }
{
    !added.styles.is_empty() || !added.comments.is_empty()
}

// A file, lent.
fn lent(file: &Option<Bytes>) -> Option<&[u8]>
    ensures { option_copied result ≡ file.now }
{
    match file {
        None => None,
        Some(bytes) => Some(bytes.as_slice()),
    }
}
