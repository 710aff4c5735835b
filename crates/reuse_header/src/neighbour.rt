//! The change that adds licensing information to a neighbour file.
ghost use Rattle.std.specs.Prelude.{◌≡◌, ◌≤◌, [], true, IfOk, length, map};
ghost use Rattle.reuse_notice.specs.Infos.{info_of};
ghost use Rattle.reuse_header.specs.Open.{open_left};
ghost use Rattle.reuse_header.specs.Blocks.{without_returns};
ghost use Rattle.reuse_header.specs.Neighbour.{is_text, neighbour_annotation_of, neighbour_stands, neighbour_written};
ghost use Rattle.reuse_header.specs.Neighbour.{replaced_contents};
ghost use Rattle.reuse_header.specs.Splices.{IsExpected, answer_of};

use crate::annotate::{into_splice, new_info};
use crate::annotation::{HeaderRefusal, How, Splice};
use crate::body::OpenContents;
use crate::draft::make_draft;
use crate::place::{neighbour_end, neighbour_place};
use crate::search::trim_returns;
use crate::writer::{BlockText, Marks};
use reuse_notice::{Additions, Info};
use reuse_text::{LONGEST_FILE, Lines, is_text, line_kind, mark_len};
use std::alloc::{AllocError, Global};

// A neighbour file has no marks of a comment.
pub(crate) const NEIGHBOUR_MARKS: Marks<'static> = Marks {
    lead: b"",
    mark: b"",
    first: None,
    last: None,
    closer: None,
};

/// The change that adds licensing information to a neighbour file of at most 16 MiB, one that has
/// another's licensing information (`NAME.license`). None is the answer where no byte changes. A
/// neighbour that is made is what comes of an empty one.
///
/// All that stands between the mark and the first barrier line is the block, whose lines are its
/// contents. It is replaced, or the new block is inserted in front of it.
#[tactic(auto, unfolding(crate::specs::Neighbour::neighbour_annotation_of))]
pub fn annotate_neighbour(
    alloc: Global,
    file: &[u8],
    additions: &Additions,
    how: &How,
) -> Result<Option<Splice>, HeaderRefusal>
    requires { length file.now ≤ LONGEST_FILE }
    ensures { IsExpected (answer_of file.now (neighbour_annotation_of how.now additions.now file.now)) result }
{
    if !is_text_file(file) {
        return Err(HeaderRefusal::NotText);
    }
    let contents = replaced_contents(alloc, file, how.replace)?;
    let info = new_info(alloc, contents.as_slice(), b"", how.merge, additions)?;
    write_neighbour(alloc, file, how.replace, &info)
}

/// Whether a file is UTF-8 without a NUL byte, as a neighbour has to be.
pub fn is_text_file(file: &[u8]) -> bool
    ensures { result ≡ is_text file.now }
{
    is_text(file)
}

/// The change that writes information as the block of a neighbour file of at most 16 MiB: in the
/// place of all that stands in front of the first barrier, if that is replaced, else in front of
/// it. None is the answer where no byte changes.
///
/// # Errors
/// `TooLong` and then `Unsettled`, in the order of `HeaderRefusal`.
#[tactic(auto, unfolding(crate::specs::Neighbour::neighbour_written))]
pub fn write_neighbour(
    alloc: Global,
    file: &[u8],
    replace: bool,
    info: &Info,
) -> Result<Option<Splice>, HeaderRefusal>
    requires { length file.now ≤ LONGEST_FILE }
    ensures { IsExpected (answer_of file.now (neighbour_written replace file.now info.now)) result }
{
    let place = neighbour_place(file, replace);
    let text = BlockText::Header(info);
    let draft = make_draft(alloc, file, place, line_kind(file), NEIGHBOUR_MARKS, text)?;
    let made = draft.made(alloc, file)?;
    if !neighbour_stands(replace, made.as_slice(), draft.text_start, draft.text_end) {
        return Err(HeaderRefusal::Unsettled);
    }
    into_splice(alloc, file, draft)
}

// Whether the block of a neighbour file is what stands from one place to another, or, for an
// insertion, begins with it.
fn neighbour_stands(replace: bool, file: &[u8], start: usize, end: usize) -> bool
    ensures { result ≡ neighbour_stands replace file.now start end }
{
    let block_end = neighbour_end(file);
    mark_len(file) == start
        && if replace {
            block_end == end
        } else {
            end <= block_end
        }
}

/// What a neighbour file says.
pub fn read_neighbour(alloc: Global, file: &[u8]) -> Result<Info, AllocError>
    ensures { IfOk result (λ info. info ≡ info_of [] (replaced_contents true file.now)) }
{
    let contents = replaced_contents(alloc, file, true)?;
    Info::read(alloc, contents.as_slice(), b"")
}

/// The contents of a neighbour file's block, if that is replaced, else none.
pub fn replaced_contents<'a>(
    alloc: Global,
    file: &'a [u8],
    replace: bool,
) -> Result<Vec<&'a [u8]>, AllocError>
    ensures { IfOk result (λ list. map (λ content. content.now) list.items ≡ replaced_contents replace file.now) }
{
    if !replace {
        return Ok(Vec::new(alloc));
    }
    collected(alloc, OpenContents::new(Lines::new(file)))
}

// The contents that are left, without CR bytes at their ends.
fn collected<'a>(alloc: Global, contents: OpenContents<'a>) -> Result<Vec<&'a [u8]>, AllocError>
    ensures { IfOk result
        (λ list. map (λ content. content.now) list.items ≡ map without_returns (open_left contents.entry)) }
{
    let mut list = Vec::new(alloc);
    let mut rest = contents;
    while let Some(content) = rest.next() {
        list.push(trim_returns(content))?;
    }
    Ok(list)
}
