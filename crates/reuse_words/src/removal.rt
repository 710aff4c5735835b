//! The change that takes the header out of a file: its tags, and the block where it says nothing
//! else.
ghost use Rattle.std.specs.Prelude.{◌≡◌, ◌≤◌, Some, length};
ghost use Rattle.reuse_header.specs.Drafts.{IsWithin};
ghost use Rattle.reuse_header.specs.Found.{block_view};
ghost use Rattle.reuse_header.specs.Splices.{IsExpected};
ghost use Rattle.reuse_words.specs.Removal.{empty_line_len, gap_behind, block_untagged, untagged_of};
ghost use Rattle.reuse_words.specs.Removal.{neighbour_untagged_of, neighbour_change_of, edit_answer};
ghost use Rattle.reuse_words.specs.Removal.{neighbour_answer, leaves_nothing, IsExpectedChange};

use reuse_header::{
    Block, HeaderRefusal, Splice, find, is_text_file, read_block, read_neighbour, remove_range,
    write_comment, write_neighbour_comment,
};
use reuse_style::Style;
use reuse_text::{LONGEST_FILE, mark_len};
use std::alloc::Global;

/// What becomes of a neighbour file.
#[derive(Debug, Drop)]
pub enum NeighbourChange {
    /// No byte changes.
    Unchanged,
    /// One range of it changes.
    Changed(Splice),
    /// No byte would be left but a byte order mark: the file is to be removed.
    Emptied,
}

/// The change that takes the header out of a file of at most 16 MiB. None is the answer where the
/// file has no header block.
///
/// All tags go. Where contents are left, a comment of them stays, in the form of the old block. Else
/// the block goes, and with it an empty line behind it, where a line that isn't empty follows that.
///
/// # Errors
/// `NoSuchForm`, `HoldsCloser` and then `TooLong`, in the order of `HeaderRefusal`.
pub fn remove_header(
    alloc: Global,
    file: &[u8],
    style: &Style<'_>,
) -> Result<Option<Splice>, HeaderRefusal>
    requires { length file.now ≤ LONGEST_FILE }
    ensures { IsExpected (edit_answer file.now (untagged_of style.now file.now)) result }
{
    match find(file, style).block {
        None => Ok(None),
        Some(block) => untag_block(alloc, file, style, block),
    }
}

// The change that takes the tags out of a header block.
#[tactic(auto, unfolding(crate::specs::Removal::block_untagged))]
fn untag_block(
    alloc: Global,
    file: &[u8],
    style: &Style<'_>,
    block: Block,
) -> Result<Option<Splice>, HeaderRefusal>
    requires within { IsWithin file.now (Some (block_view block)) }
    requires short { length file.now ≤ LONGEST_FILE }
    ensures { IsExpected
        (edit_answer file.now (block_untagged style.now file.now (block_view block.entry))) result }
{
    let info = read_block(alloc, style, block)?;
    if info.free().is_empty() {
        let end = block.end + gap_behind(&file[block.end..]);
        return remove_range(alloc, file, block.start, end);
    }
    write_comment(alloc, file, style, block, info.free())
}

// How many bytes go behind a block that goes: an empty line, where a line that isn't empty follows.
fn gap_behind(rest: &[u8]) -> usize
    ensures gap { result ≡ gap_behind rest.now }
    ensures within { result ≤ length rest.now }
{
    let len = empty_line_len(rest);
    let behind = &rest[len..];
    if behind.is_empty() || empty_line_len(behind) > 0 {
        0
    } else {
        len
    }
}

// How many bytes an empty line has that bytes begin with.
fn empty_line_len(bytes: &[u8]) -> usize
    ensures len { result ≡ empty_line_len bytes.now }
    ensures within { result ≤ length bytes.now }
{
    if bytes.starts_with(b"\n") {
        1
    } else if bytes.starts_with(b"\r\n") {
        2
    } else {
        0
    }
}

/// What becomes of a neighbour file of at most 16 MiB (`NAME.license`) whose tags are taken out.
/// Contents without a tag stay, in order. A file without a tag is unchanged.
///
/// # Errors
/// `NotText` and then `TooLong`, in the order of `HeaderRefusal`.
pub fn remove_neighbour_header(alloc: Global, file: &[u8]) -> Result<NeighbourChange, HeaderRefusal>
    requires { length file.now ≤ LONGEST_FILE }
    ensures { IsExpectedChange (neighbour_answer file.now (neighbour_untagged_of file.now)) result }
{
    match untag_neighbour(alloc, file) {
        Ok(splice) => Ok(neighbour_change_of(file, splice)),
        Err(refusal) => Err(refusal),
    }
}

// The change that takes the tags out of a neighbour file.
#[tactic(auto, unfolding(crate::specs::Removal::neighbour_untagged_of))]
fn untag_neighbour(alloc: Global, file: &[u8]) -> Result<Option<Splice>, HeaderRefusal>
    requires { length file.now ≤ LONGEST_FILE }
    ensures { IsExpected (edit_answer file.now (neighbour_untagged_of file.now)) result }
{
    if !is_text_file(file) {
        return Err(HeaderRefusal::NotText);
    }
    let info = read_neighbour(alloc, file)?;
    if info.says_nothing() {
        return Ok(None);
    }
    write_neighbour_comment(alloc, file, info.free())
}

/// What becomes of a neighbour file by a change, if there is one.
pub(crate) fn neighbour_change_of(file: &[u8], splice: Option<Splice>) -> NeighbourChange
    ensures { result ≡ neighbour_change_of file.now splice }
{
    match splice {
        None => NeighbourChange::Unchanged,
        Some(splice) => {
            if leaves_nothing(file, &splice) {
                NeighbourChange::Emptied
            } else {
                NeighbourChange::Changed(splice)
            }
        }
    }
}

// Whether a change takes all bytes of a file away but its byte order mark.
fn leaves_nothing(file: &[u8], splice: &Splice) -> bool
    ensures { result ≡ leaves_nothing file.now splice.now }
{
    splice.new.is_empty()
        && splice.at == mark_len(file)
        && splice.at <= file.len()
        && file.len() - splice.at == splice.old.len()
}
