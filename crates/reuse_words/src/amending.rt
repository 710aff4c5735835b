//! The change that takes texts out of a header, which keeps its tags.
ghost use Rattle.std.specs.Prelude.{◌≡◌, ◌≤◌, [], Some, true, IfOk, length, map};
ghost use Rattle.std.specs.Option.{option_map};
ghost use Rattle.reuse_notice.specs.Infos.{same_texts};
ghost use Rattle.reuse_style.specs.Styles.{punctuation_of};
ghost use Rattle.reuse_header.specs.Drafts.{IsWithin};
ghost use Rattle.reuse_header.specs.Found.{block_view};
ghost use Rattle.reuse_header.specs.Marks.{marks_of};
ghost use Rattle.reuse_header.specs.Annotation.{written_by};
ghost use Rattle.reuse_header.specs.Neighbour.{is_text, neighbour_written};
ghost use Rattle.reuse_header.specs.Splices.{IsExpected, answer_of};
ghost use Rattle.reuse_words.specs.Information.{text_in, without_texts, with_free};
ghost use Rattle.reuse_words.specs.Removal.{edit_answer, neighbour_answer, IsExpectedChange};
ghost use Rattle.reuse_words.specs.Amended.{free_to_write, block_without};
ghost use Rattle.reuse_words.specs.Amended.{without_texts_of, neighbour_without_texts_of};

use crate::information::{gap_of, with_free, without_texts};
use crate::removal::{NeighbourChange, neighbour_change_of};
use crate::text::HeaderText;
use reuse_header::{
    Block, HeaderRefusal, Splice, find, is_text_file, read_block, read_neighbour, write_header,
    write_neighbour,
};
use reuse_notice::Info;
use reuse_style::Style;
use reuse_text::{Bytes, LONGEST_FILE};
use std::alloc::{AllocError, Global};

/// The change that takes texts out of the header block of a file of at most 16 MiB: of each text the
/// first run of contents that is the same one, one text after the other, and then blank contents at
/// the ends of what is left. None is the answer where the file has no header block, or where it
/// holds none of the texts.
///
/// The new block takes the old one's place and no other byte. It has the old one's form and tags,
/// and its other contents.
///
/// # Errors
/// The first reason in the order of `HeaderRefusal`. `NotText` isn't one of them.
pub fn amend_file_without(
    alloc: Global,
    file: &[u8],
    style: &Style<'_>,
    texts: &[HeaderText],
) -> Result<Option<Splice>, HeaderRefusal>
    requires { length file.now ≤ LONGEST_FILE }
    ensures { IsExpected (edit_answer file.now (without_texts_of style.now texts.now file.now)) result }
{
    match find(file, style).block {
        None => Ok(None),
        Some(block) => amend_block(alloc, file, style, block, texts),
    }
}

// The change that takes texts out of a header block.
fn amend_block(
    alloc: Global,
    file: &[u8],
    style: &Style<'_>,
    block: Block,
    texts: &[HeaderText],
) -> Result<Option<Splice>, HeaderRefusal>
    requires within { IsWithin file.now (Some (block_view block)) }
    requires short { length file.now ≤ LONGEST_FILE }
    ensures { IsExpected (edit_answer file.now
        (block_without style.now texts.now file.now (block_view block.entry))) result }
{
    let info = read_block(alloc, style, block)?;
    let gap = gap_of(style, block.form);
    match free_without(alloc, info.free(), texts, gap, style.punctuation())? {
        None => Ok(None),
        Some(free) => write_free(alloc, file, style, block, &info, free.as_slice()),
    }
}

// The change that writes a block with other free contents in its place.
fn write_free(
    alloc: Global,
    file: &[u8],
    style: &Style<'_>,
    block: Block,
    info: &Info,
    free: &[Bytes],
) -> Result<Option<Splice>, HeaderRefusal>
    requires within { IsWithin file.now (Some (block_view block)) }
    requires short { length file.now ≤ LONGEST_FILE }
    ensures { IsExpected (answer_of file.now (written_by style.now file.now (Some (block_view block.entry))
        (with_free (punctuation_of style.now) info.now free.now) (marks_of style.now block.entry.form))) result }
{
    let info = with_free(alloc, info, free, style.punctuation())?;
    write_header(alloc, file, style, Some(block), block.form, &info)
}

// Free contents without texts, if they are others.
fn free_without(
    alloc: Global,
    free: &[Bytes],
    texts: &[HeaderText],
    gap: &[u8],
    punct: &[u8],
) -> Result<Option<Vec<Bytes>>, AllocError>
    ensures { IfOk result (λ made. option_map (λ list. list.items) made ≡ free_to_write free.now
        (without_texts punct.now (map (text_in gap.now) texts.now) free.now)) }
{
    let left = without_texts(alloc, free, texts, gap, punct)?;
    if are_same(left.as_slice(), free) {
        return Ok(None);
    }
    Ok(Some(left))
}

// Whether contents are the same.
fn are_same(contents: &[Bytes], others: &[Bytes]) -> bool
    ensures { result ≡ same_texts contents.now others.now }
{
    contents == others
}

/// What becomes of a neighbour file of at most 16 MiB (`NAME.license`) without texts, of each the
/// first run of contents that is the same text, and without blank contents at the ends of what is
/// left. Its tags stay.
///
/// # Errors
/// `NotText`, then `TooLong` and `Unsettled`, in the order of `HeaderRefusal`.
pub fn amend_neighbour_without(
    alloc: Global,
    file: &[u8],
    texts: &[HeaderText],
) -> Result<NeighbourChange, HeaderRefusal>
    requires { length file.now ≤ LONGEST_FILE }
    ensures { IsExpectedChange (neighbour_answer file.now (neighbour_without_texts_of texts.now file.now)) result }
{
    match amend_neighbour(alloc, file, texts) {
        Ok(splice) => Ok(neighbour_change_of(file, splice)),
        Err(refusal) => Err(refusal),
    }
}

// The change that takes texts out of a neighbour file.
fn amend_neighbour(
    alloc: Global,
    file: &[u8],
    texts: &[HeaderText],
) -> Result<Option<Splice>, HeaderRefusal>
    requires { length file.now ≤ LONGEST_FILE }
    ensures { IsExpected (edit_answer file.now (neighbour_without_texts_of texts.now file.now)) result }
{
    if is_text_file(file) {
        amend_text(alloc, file, texts)
    } else {
        Err(HeaderRefusal::NotText)
    }
}

// The change that takes texts out of a neighbour file, one that is text.
fn amend_text(
    alloc: Global,
    file: &[u8],
    texts: &[HeaderText],
) -> Result<Option<Splice>, HeaderRefusal>
    requires short { length file.now ≤ LONGEST_FILE }
    requires text { is_text file.now ≡ true }
    ensures { IsExpected (edit_answer file.now (neighbour_without_texts_of texts.now file.now)) result }
{
    let info = read_neighbour(alloc, file)?;
    match free_without(alloc, info.free(), texts, b"", b"")? {
        None => Ok(None),
        Some(free) => write_free_neighbour(alloc, file, &info, free.as_slice()),
    }
}

// The change that writes a neighbour with other free contents.
fn write_free_neighbour(
    alloc: Global,
    file: &[u8],
    info: &Info,
    free: &[Bytes],
) -> Result<Option<Splice>, HeaderRefusal>
    requires { length file.now ≤ LONGEST_FILE }
    ensures { IsExpected (answer_of file.now
        (neighbour_written true file.now (with_free [] info.now free.now))) result }
{
    let info = with_free(alloc, info, free, b"")?;
    write_neighbour(alloc, file, true, &info)
}
