//! The change that amends the licensing information of a file, in the place where it stands.
ghost use Rattle.std.specs.Prelude.{◌≤◌, [], Some, Ok, true, length};
ghost use Rattle.reuse_notice.specs.Infos.{info_of};
ghost use Rattle.reuse_header.specs.Found.{block_view};
ghost use Rattle.reuse_header.specs.Neighbour.{replaced_contents, neighbour_written};
ghost use Rattle.reuse_header.specs.Marks.{marks_of};
ghost use Rattle.reuse_header.specs.Annotation.{written_by};
ghost use Rattle.reuse_header.specs.Drafts.{IsWithin};
ghost use Rattle.reuse_header.specs.Amendment.{amended_information, block_amendment, written_if};
ghost use Rattle.reuse_header.specs.Amendment.{amendment_of, neighbour_amendment_of, amendment_answer};
ghost use Rattle.reuse_header.specs.Amendment.{IsExpectedAmendment};

use crate::amendment::AmendHeaderRefusal;
use crate::annotate::{read_block, write_header};
use crate::annotation::{HeaderRefusal, Splice};
use crate::finder::{Block, find};
use crate::neighbour::{is_text_file, read_neighbour, write_neighbour};
use reuse_amend::{AmendRefusal, Amendments, amend_info};
use reuse_notice::Info;
use reuse_style::Style;
use reuse_text::LONGEST_FILE;
use std::alloc::Global;

/// The change that amends what the header block of a file says, for a file of at most 16 MiB. None
/// is the answer where the file has no header block, or where the amendments change nothing that it
/// says.
///
/// The new block takes the old one's place and no other byte. It has the old one's form, and its
/// contents without a tag stay.
///
/// # Errors
/// The first reason in the order of `AmendHeaderRefusal`.
pub fn amend_file(
    alloc: Global,
    file: &[u8],
    style: &Style<'_>,
    amendments: &Amendments,
) -> Result<Option<Splice>, AmendHeaderRefusal>
    requires { length file.now ≤ LONGEST_FILE }
    ensures { IsExpectedAmendment (amendment_answer file.now (amendment_of style.now amendments.now file.now)) result }
{
    match find(file, style).block {
        None => Ok(None),
        Some(block) => amend_block(alloc, file, style, block, amendments),
    }
}

// The change that amends what a block says.
fn amend_block(
    alloc: Global,
    file: &[u8],
    style: &Style<'_>,
    block: Block,
    amendments: &Amendments,
) -> Result<Option<Splice>, AmendHeaderRefusal>
    requires within { IsWithin file.now (Some (block_view block)) }
    requires short { length file.now ≤ LONGEST_FILE }
    ensures { IsExpectedAmendment (amendment_answer file.now
        (block_amendment style.now amendments.now file.now (block_view block.entry))) result }
{
    let info = read_block(alloc, style, block)?;
    match amend_information(alloc, &info, amendments) {
        Ok(new) => write_new(alloc, file, style, block, new),
        Err(refusal) => Err(refusal),
    }
}

// The change that writes new information, if there is some to be written.
fn write_new(
    alloc: Global,
    file: &[u8],
    style: &Style<'_>,
    block: Block,
    new: Option<Info>,
) -> Result<Option<Splice>, AmendHeaderRefusal>
    requires within { IsWithin file.now (Some (block_view block)) }
    requires short { length file.now ≤ LONGEST_FILE }
    ensures { IsExpectedAmendment (amendment_answer file.now (written_if (λ info. written_by style.now file.now
        (Some (block_view block.entry)) info (marks_of style.now block.entry.form)) (Ok new))) result }
{
    match new {
        None => Ok(None),
        Some(info) => Ok(write_header(alloc, file, style, Some(block), block.form, &info)?),
    }
}

/// The change that amends what a neighbour file says, one that has another's licensing information
/// (`NAME.license`), for a file of at most 16 MiB. None is the answer where the amendments change
/// nothing that it says.
///
/// # Errors
/// That the neighbour isn't text comes first, then the others in the order of `AmendHeaderRefusal`.
pub fn amend_neighbour(
    alloc: Global,
    file: &[u8],
    amendments: &Amendments,
) -> Result<Option<Splice>, AmendHeaderRefusal>
    requires { length file.now ≤ LONGEST_FILE }
    ensures { IsExpectedAmendment (amendment_answer file.now (neighbour_amendment_of amendments.now file.now)) result }
{
    if is_text_file(file) {
        amend_text(alloc, file, amendments)
    } else {
        Err(AmendHeaderRefusal::Header(HeaderRefusal::NotText))
    }
}

// The change that amends what a neighbour file says, one that is text.
fn amend_text(
    alloc: Global,
    file: &[u8],
    amendments: &Amendments,
) -> Result<Option<Splice>, AmendHeaderRefusal>
    requires { length file.now ≤ LONGEST_FILE }
    ensures { IsExpectedAmendment (amendment_answer file.now (written_if (neighbour_written true file.now)
        (amended_information amendments.now (info_of [] (replaced_contents true file.now))))) result }
{
    let info = read_neighbour(alloc, file)?;
    match amend_information(alloc, &info, amendments) {
        Ok(new) => write_new_neighbour(alloc, file, new),
        Err(refusal) => Err(refusal),
    }
}

// The change that writes new information, if there is some to be written.
fn write_new_neighbour(
    alloc: Global,
    file: &[u8],
    new: Option<Info>,
) -> Result<Option<Splice>, AmendHeaderRefusal>
    requires { length file.now ≤ LONGEST_FILE }
    ensures { IsExpectedAmendment
        (amendment_answer file.now (written_if (neighbour_written true file.now) (Ok new))) result }
{
    match new {
        None => Ok(None),
        Some(info) => Ok(write_neighbour(alloc, file, true, &info)?),
    }
}

// The amended information that is to be written.
fn amend_information(
    alloc: Global,
    info: &Info,
    amendments: &Amendments,
) -> Result<Option<Info>, AmendHeaderRefusal>
    ensures { IsExpectedAmendment (amended_information amendments.now info.now) result }
{
    let new = match amend_info(alloc, info, amendments) {
        Ok(new) => new,
        Err(AmendRefusal::BadExpression) => return Err(AmendHeaderRefusal::BadExpression),
        Err(AmendRefusal::Memory(e)) => return Err(AmendHeaderRefusal::from(e)),
    };
    if info.says_the_same(&new) {
        return Ok(None);
    }
    if new.says_nothing() {
        return Err(AmendHeaderRefusal::NothingLeft);
    }
    Ok(Some(new))
}
