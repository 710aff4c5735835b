//! A comment of contents in the place of a header block: what is left of one without its tags.
ghost use Rattle.std.specs.Prelude.{◌≡◌, ◌-◌, ◌≤◌, [], IfOk, Ok, Some, length};
ghost use Rattle.reuse_header.specs.Drafts.{IsWithin};
ghost use Rattle.reuse_header.specs.Found.{block_view};
ghost use Rattle.reuse_header.specs.Marks.{marks_of};
ghost use Rattle.reuse_header.specs.MarkViews.{marks_view};
ghost use Rattle.reuse_header.specs.Splices.{IsExpected, answer_of, splice_at};
ghost use Rattle.reuse_header.specs.Comment.{closes_form, closes_comment, comment_written};
ghost use Rattle.reuse_header.specs.Comment.{neighbour_comment_written};

use crate::annotate::into_splice;
use crate::annotation::{HeaderRefusal, Splice};
use crate::closer::line_holds;
use crate::draft::{Draft, make_draft};
use crate::finder::Block;
use crate::neighbour::NEIGHBOUR_MARKS;
use crate::place::{Place, neighbour_range};
use crate::writer::{BlockText, Marks, marks_of};
use reuse_style::{Form, Style};
use reuse_text::{Bytes, LONGEST_FILE, line_kind};
use std::alloc::{AllocError, Global};

/// The change that puts a comment of contents in the place of a header block, in its form, for a
/// file of at most 16 MiB. None is the answer where no byte changes.
///
/// # Errors
/// `NoSuchForm`, `HoldsCloser` and then `TooLong`, in the order of `HeaderRefusal`.
pub fn write_comment(
    alloc: Global,
    file: &[u8],
    style: &Style<'_>,
    block: Block,
    contents: &[Bytes],
) -> Result<Option<Splice>, HeaderRefusal>
    requires within { IsWithin file.now (Some (block_view block)) }
    requires short { length file.now ≤ LONGEST_FILE }
    ensures { IsExpected (answer_of file.now (comment_written file.now
        (block_view block.entry) contents.now (marks_of style.now block.entry.form))) result }
{
    match marks_of(style, block.form) {
        None => Err(HeaderRefusal::NoSuchForm),
        Some(marks) => replace_block(alloc, file, block, contents, marks),
    }
}

// The change that puts a comment in the place of a block, by the marks of its form.
#[tactic(auto, unfolding(crate::specs::Comment::comment_written))]
fn replace_block(
    alloc: Global,
    file: &[u8],
    block: Block,
    contents: &[Bytes],
    marks: Marks<'_>,
) -> Result<Option<Splice>, HeaderRefusal>
    requires within { IsWithin file.now (Some (block_view block)) }
    requires short { length file.now ≤ LONGEST_FILE }
    ensures { IsExpected (answer_of file.now (comment_written file.now
        (block_view block.entry) contents.now (Some (marks_view marks.entry)))) result }
{
    if closes_form(alloc, marks, contents)? {
        return Err(HeaderRefusal::HoldsCloser);
    }
    let place = Place::of_range(block.start, block.end);
    let text = BlockText::Comment(contents);
    let draft = make_draft(alloc, file, place, line_kind(file), marks, text)?;
    into_splice(alloc, file, draft)
}

/// The change that puts contents in the place of all that stands in front of the first barrier of a
/// neighbour file of at most 16 MiB. None is the answer where no byte changes.
///
/// # Errors
/// `TooLong`.
#[tactic(auto, unfolding(crate::specs::Comment::neighbour_comment_written))]
pub fn write_neighbour_comment(
    alloc: Global,
    file: &[u8],
    contents: &[Bytes],
) -> Result<Option<Splice>, HeaderRefusal>
    requires { length file.now ≤ LONGEST_FILE }
    ensures { IsExpected (answer_of file.now (neighbour_comment_written file.now contents.now)) result }
{
    let place = neighbour_range(file);
    let text = BlockText::Comment(contents);
    let draft = make_draft(alloc, file, place, line_kind(file), NEIGHBOUR_MARKS, text)?;
    into_splice(alloc, file, draft)
}

/// The change that takes the bytes from `start` to `end` out of a file. None is the answer where
/// there are none.
///
/// # Errors
/// There was no memory.
pub fn remove_range(
    alloc: Global,
    file: &[u8],
    start: usize,
    end: usize,
) -> Result<Option<Splice>, HeaderRefusal>
    requires order { start ≤ end }
    requires within { end ≤ length file.now }
    ensures { IsExpected (Ok (splice_at file.now start (end - start) [])) result }
{
    let draft = Draft {
        start,
        old_len: end - start,
        new: Bytes::new(alloc),
        text_start: start,
        text_end: start,
    };
    into_splice(alloc, file, draft)
}

/// Whether the line of a content would end a comment of a style's form.
pub fn closes_comment(
    alloc: Global,
    style: &Style<'_>,
    form: Form,
    contents: &[Bytes],
) -> Result<bool, AllocError>
    ensures { IfOk result (λ answer. answer ≡ closes_comment (marks_of style.now form) contents.now) }
{
    match marks_of(style, form) {
        None => Ok(false),
        Some(marks) => closes_form(alloc, marks, contents),
    }
}

// Whether the line of a content would end a comment, by its marks.
fn closes_form(alloc: Global, marks: Marks<'_>, contents: &[Bytes]) -> Result<bool, AllocError>
    ensures { IfOk result (λ answer. answer ≡ closes_form (marks_view marks.entry) contents.now) }
{
    match marks.closer {
        None => Ok(false),
        Some(closer) => line_holds(alloc, closer, marks.mark, b"", contents),
    }
}
