//! The change that adds licensing information and texts to a file.
ghost use Rattle.std.specs.Prelude.{◌≡◌, ◌≤◌, IfOk, true, length, map};
ghost use Rattle.std.specs.List.{list_any};
ghost use Rattle.std.specs.Option.{option_map};
ghost use Rattle.reuse_header.specs.Drafts.{IsWithin};
ghost use Rattle.reuse_header.specs.Found.{block_view};
ghost use Rattle.reuse_header.specs.Marks.{marks_of};
ghost use Rattle.reuse_header.specs.Annotation.{written_by};
ghost use Rattle.reuse_header.specs.Neighbour.{is_text, neighbour_written};
ghost use Rattle.reuse_header.specs.Comment.{closes_comment};
ghost use Rattle.reuse_words.specs.Information.{text_in};
ghost use Rattle.reuse_words.specs.Added.{header_edit, text_annotation_of, neighbour_text_annotation_of};
ghost use Rattle.reuse_words.specs.Added.{text_answer, IsExpectedTextEdit};

use crate::information::{gap_of, info_with, text_in};
use crate::refusal::TextHeaderRefusal;
use crate::text::HeaderText;
use reuse_header::{
    Block, HeaderRefusal, How, Splice, chosen_form, closes_comment, find, is_text_file, new_info,
    old_contents, replaced_block, replaced_contents, write_header, write_neighbour,
};
use reuse_notice::{Additions, Info};
use reuse_style::{Form, Style};
use reuse_text::LONGEST_FILE;
use std::alloc::{AllocError, Global};

/// The change that adds licensing information and texts to a file of at most 16 MiB, in comments of
/// a style. None is the answer where no byte changes.
///
/// It is the change of `annotate_file`, and the texts follow the other contents without a tag, each
/// behind an empty one, where these don't hold the text yet.
///
/// # Errors
/// `BadText` where a line of a text would end the comment. `NoSuchForm` comes before it, and the
/// other reasons in the order of `HeaderRefusal` behind it.
pub fn annotate_file_with(
    alloc: Global,
    file: &[u8],
    style: &Style<'_>,
    additions: &Additions,
    texts: &[HeaderText],
    how: &How,
) -> Result<Option<Splice>, TextHeaderRefusal>
    requires { length file.now ≤ LONGEST_FILE }
    ensures { IsExpectedTextEdit (text_answer file.now
        (text_annotation_of style.now how.now additions.now texts.now file.now)) result }
{
    let found = find(file, style).block;
    let form = chosen_form(style, how.form, found);
    let gap = gap_of(style, form);
    let closes = closes_any(alloc, style, form, texts, gap)?;
    if closes {
        return Err(TextHeaderRefusal::BadText);
    }
    let old = replaced_block(found, how.replace);
    let contents = old_contents(alloc, old)?;
    let punct = style.punctuation();
    let said = new_info(alloc, contents.as_slice(), punct, how.merge, additions)?;
    let info = info_with(alloc, &said, texts, gap, punct)?;
    write_with(alloc, file, style, old, form, &info)
}

// The change that writes a header block.
fn write_with(
    alloc: Global,
    file: &[u8],
    style: &Style<'_>,
    old: Option<Block>,
    form: Form,
    info: &Info,
) -> Result<Option<Splice>, TextHeaderRefusal>
    requires within { IsWithin file.now (option_map block_view old) }
    requires short { length file.now ≤ LONGEST_FILE }
    ensures { IsExpectedTextEdit (text_answer file.now (header_edit (written_by style.now file.now
        (option_map block_view old.entry) info.now (marks_of style.now form)))) result }
{
    match write_header(alloc, file, style, old, form, info) {
        Ok(splice) => Ok(splice),
        Err(refusal) => Err(TextHeaderRefusal::Header(refusal)),
    }
}

// Whether a line of one of some texts would end a comment.
fn closes_any(
    alloc: Global,
    style: &Style<'_>,
    form: Form,
    texts: &[HeaderText],
    gap: &[u8],
) -> Result<bool, AllocError>
    ensures { IfOk result (λ answer. answer ≡ list_any (closes_comment (marks_of style.now form))
        (map (text_in gap.now) texts.now)) }
{
    let mut rest = texts;
    while let [text, others @ ..] = rest {
        let contents = text_in(alloc, text.lines(), gap)?;
        if closes_comment(alloc, style, form, contents.as_slice())? {
            return Ok(true);
        }
        rest = others;
    }
    Ok(false)
}

/// The change that adds licensing information and texts to a neighbour file of at most 16 MiB, one
/// that has another's licensing information (`NAME.license`). None is the answer where no byte
/// changes.
///
/// It is the change of `annotate_neighbour`, and the texts follow the other contents without a tag,
/// each behind an empty one, where these don't hold the text yet.
///
/// # Errors
/// `NotText`, then `TooLong` and `Unsettled`, in the order of `HeaderRefusal`.
pub fn annotate_neighbour_with(
    alloc: Global,
    file: &[u8],
    additions: &Additions,
    texts: &[HeaderText],
    how: &How,
) -> Result<Option<Splice>, TextHeaderRefusal>
    requires { length file.now ≤ LONGEST_FILE }
    ensures { IsExpectedTextEdit (text_answer file.now
        (neighbour_text_annotation_of how.now additions.now texts.now file.now)) result }
{
    if is_text_file(file) {
        annotate_text(alloc, file, additions, texts, how)
    } else {
        Err(TextHeaderRefusal::Header(HeaderRefusal::NotText))
    }
}

// The change that adds licensing information and texts to a neighbour file, one that is text.
fn annotate_text(
    alloc: Global,
    file: &[u8],
    additions: &Additions,
    texts: &[HeaderText],
    how: &How,
) -> Result<Option<Splice>, TextHeaderRefusal>
    requires short { length file.now ≤ LONGEST_FILE }
    requires text { is_text file.now ≡ true }
    ensures { IsExpectedTextEdit (text_answer file.now
        (neighbour_text_annotation_of how.now additions.now texts.now file.now)) result }
{
    let contents = replaced_contents(alloc, file, how.replace)?;
    let said = new_info(alloc, contents.as_slice(), b"", how.merge, additions)?;
    let info = info_with(alloc, &said, texts, b"", b"")?;
    write_beside(alloc, file, how.replace, &info)
}

// The change that writes a neighbour.
fn write_beside(
    alloc: Global,
    file: &[u8],
    replace: bool,
    info: &Info,
) -> Result<Option<Splice>, TextHeaderRefusal>
    requires { length file.now ≤ LONGEST_FILE }
    ensures { IsExpectedTextEdit (text_answer file.now
        (header_edit (neighbour_written replace file.now info.now))) result }
{
    match write_neighbour(alloc, file, replace, info) {
        Ok(splice) => Ok(splice),
        Err(refusal) => Err(TextHeaderRefusal::Header(refusal)),
    }
}
