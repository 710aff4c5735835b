//! The marks of comments, and whether they are good: what is written between good marks is read
//! back. A `Style` has good marks.
ghost use Rattle.std.specs.Prelude.{◌≡◌, [], IfOk, OnOk, not, true, map, fold, flat_map, unwrap_or, option_and_then};
ghost use Rattle.std.specs.List.{list_all};
ghost use Rattle.std.specs.Option.{option_copied, option_map, option_map_or};
ghost use Rattle.reuse_style.specs.Marks.{with_sign, punctuation_in, marks_in, is_plain, mark_fault, first_mark_fault};
ghost use Rattle.reuse_style.specs.Marks.{is_filling, is_lead, closes, is_middle, if_line, if_block, leads_follow};
ghost use Rattle.reuse_style.specs.Marks.{begin_apart, forms_fault, marks_fault};
ghost use Rattle.reuse_style.specs.Search.{holds};
ghost use Rattle.reuse_style.specs.MarkViews.{block_view, comments_view};

use crate::mark::first_mark_fault;
use crate::prefix_marks::prefix_fault;
use crate::search::{find_text, holds};
use reuse_text::Bytes;
use std::alloc::{AllocError, Global};
use thiserror::Error;

/// The form of a comment block: each line by itself, or one comment over all lines.
#[derive(Clone, Copy, Debug, PartialEq, Eq)]
pub enum Form {
    /// Each line is a comment by itself.
    Single,
    /// One comment from the opener to the closer.
    Multi,
}

/// How a style writes a comment on one line.
#[derive(Clone, Copy, Debug)]
pub struct LineComment<'a> {
    /// What the line begins with.
    pub marker: &'a [u8],
    /// What a tag is written after.
    pub lead: &'a [u8],
}

/// How a style writes a comment over several lines.
#[derive(Clone, Copy, Debug)]
pub struct BlockComment<'a> {
    /// What opens the comment, and is its first line in writing.
    pub opener: &'a [u8],
    /// What stands before a content without a tag, if anything does.
    pub middle: Option<&'a [u8]>,
    /// What closes the comment in reading.
    pub closer: &'a [u8],
    /// The last line in writing.
    pub last_line: &'a [u8],
    /// What a tag is written after.
    pub lead: &'a [u8],
}

impl<'a> BlockComment<'a> {
    /// What stands before a content without a tag: the middle, or nothing.
    pub fn middle_or_nothing(self) -> &'a [u8]
        ensures { result.now ≡ unwrap_or (block_view self.entry).middle [] }
    {
        or_none(self.middle)
    }
}

/// The line, directly behind an interpreter line, that stays in front of comments.
#[derive(Clone, Copy, Debug, PartialEq, Eq)]
pub enum Declaration {
    /// None does.
    Nothing,
    /// The encoding of a Python file.
    Encoding,
    /// PHP's opening tag.
    PhpTag,
    /// The declaration of XML.
    XmlDeclaration,
}

/// Front matter that stays in front of comments: the lines from one that is the first line's text,
/// blanks at its end apart, up to the next one that is the last line's.
#[derive(Clone, Copy, Debug)]
pub struct FrontMatter<'a> {
    /// The text of its first line.
    pub first_line: &'a [u8],
    /// The text of its last line.
    pub last_line: &'a [u8],
}

/// The comments of a style.
#[derive(Clone, Copy, Debug)]
pub struct Comments<'a> {
    /// Those on single lines, if it has them.
    pub line: Option<LineComment<'a>>,
    /// Those over several lines, if it has them.
    pub block: Option<BlockComment<'a>>,
    /// The line that stays in front of them.
    pub declaration: Declaration,
    /// What the lines begin with that stay in front of them behind that one.
    pub first_lines: &'a [Bytes],
    /// The front matter that stays in front of them behind those, if there is such.
    pub front_matter: Option<FrontMatter<'a>>,
}

/// Why marks are not good, in the order in which the reasons are looked for.
#[derive(Clone, Copy, Debug, Drop, PartialEq, Eq, Error)]
pub enum MarksFault {
    /// A mark has a byte that is not printable ASCII.
    #[error("a mark has a byte that is not printable ASCII")]
    NotPlain,
    /// A mark is empty.
    #[error("a mark is empty")]
    Empty,
    /// A mark ends in a space.
    #[error("a mark ends in a space")]
    EndsInSpace,
    /// A lead is not the marker, or the middle, with spaces and punctuation behind it.
    #[error("a lead is not the marker, or the middle, with spaces and punctuation behind it")]
    Lead,
    /// The marker begins with the opener, or the opener with the marker.
    #[error("the marker begins with the opener, or the opener with the marker")]
    BeginAlike,
    /// The closer stands in the opener.
    #[error("the closer stands in the opener")]
    CloserInOpener,
    /// The last line is not the closer behind spaces and punctuation, or holds it before.
    #[error("the last line is not the closer behind spaces and punctuation, or holds it before")]
    LastLine,
    /// The middle is not one byte of punctuation behind spaces.
    #[error("the middle is not one byte of punctuation behind spaces")]
    Middle,
    /// A beginning of first lines is empty, or has a byte that is not printable ASCII, or a
    /// comment begins with it.
    #[error("first lines begin with nothing, with no printable ASCII, or as a comment does")]
    FirstLines,
    /// A line of front matter is no good mark, or its first one is a first line or the opener.
    #[error("a line of front matter is no good mark, or its first one is a first line or the opener")]
    FrontMatter,
}

// The marks, of which some may be missing.
fn given_marks<'a>(comments: Comments<'a>) -> [Option<&'a [u8]>; 5]
    ensures { map (λ mark. option_copied mark) result ≡ marks_in (comments_view comments.entry) }
{
    let marker = marker_of(comments);
    match comments.block {
        None => [marker, None, None, None, None],
        Some(block) => [
            marker,
            Some(block.opener),
            block.middle,
            Some(block.closer),
            Some(block.last_line),
        ],
    }
}

fn marker_of<'a>(comments: Comments<'a>) -> Option<&'a [u8]>
    ensures { option_copied result ≡ option_map (λ line. line.marker) (comments_view comments.entry).line }
{
    match comments.line {
        None => None,
        Some(line) => Some(line.marker),
    }
}

/// The punctuation of comments: the bytes of their marks that are neither letters, digits nor
/// spaces, each once.
#[tactic(auto, unfolding(crate::specs::Marks::punctuation_in))]
pub fn punctuation_of(alloc: Global, comments: Comments<'_>) -> Result<Bytes, AllocError>
    ensures { IfOk result (λ signs. signs ≡ punctuation_in (comments_view comments.entry)) }
{
    let marks = given_marks(comments);
    let mut signs = Vec::new(alloc);
    add_signs_of(&mut signs, &marks)?;
    Ok(Bytes::from_vec(signs))
}

// Adds the signs of marks.
fn add_signs_of(signs: &mut Vec<u8>, mut marks: &[Option<&[u8]>]) -> Result<(), AllocError>
    ensures { OnOk result (signs.new.items ≡ fold with_sign signs.old.items
        (flat_map (λ mark. unwrap_or mark []) (map (λ mark. option_copied mark) marks.entry.now))) }
{
    while let [mark, others @ ..] = marks {
        add_signs(signs, or_none(*mark))?;
        marks = others;
    }
    Ok(())
}

// A mark, or no bytes.
fn or_none<'a>(mark: Option<&'a [u8]>) -> &'a [u8]
    ensures { result.now ≡ unwrap_or (option_copied mark.entry) [] }
{
    match mark {
        None => &[],
        Some(mark) => mark,
    }
}

// Adds the signs of one mark.
fn add_signs(signs: &mut Vec<u8>, mut mark: &[u8]) -> Result<(), AllocError>
    ensures { OnOk result (signs.new.items ≡ fold with_sign signs.old.items mark.entry.now) }
{
    while let [byte, others @ ..] = mark {
        if byte.is_ascii_punctuation() && !signs.contains(byte) {
            signs.push(*byte)?;
        }
        mark = others;
    }
    Ok(())
}

/// What is wrong with marks, of which `punct` are the punctuation. They are good if nothing is.
pub fn marks_fault(comments: Comments<'_>, punct: &[u8]) -> Option<MarksFault>
    requires { punct.now ≡ punctuation_in (comments_view comments) }
    ensures { result ≡ marks_fault (comments_view comments.entry) }
{
    let marks = given_marks(comments);
    if let Some(fault) = first_mark_fault(&marks) {
        return Some(fault);
    }
    if let Some(fault) = forms_fault(comments, punct) {
        return Some(fault);
    }
    prefix_fault(comments)
}

// What is wrong with marks beside each other.
#[tactic(auto, unfolding(crate::specs::Marks::forms_fault))]
fn forms_fault(comments: Comments<'_>, punct: &[u8]) -> Option<MarksFault>
    ensures { result ≡ forms_fault punct.now (comments_view comments.entry) }
{
    if !leads_follow(comments, punct) {
        Some(MarksFault::Lead)
    } else if !begin_apart(comments) {
        Some(MarksFault::BeginAlike)
    } else if !opens_alone(comments) {
        Some(MarksFault::CloserInOpener)
    } else if !ends_at_closer(comments, punct) {
        Some(MarksFault::LastLine)
    } else if !has_short_middle(comments) {
        Some(MarksFault::Middle)
    } else {
        None
    }
}

// Whether a tag is written behind the marker, or the middle.
fn leads_follow(comments: Comments<'_>, punct: &[u8]) -> bool
    ensures { result ≡ leads_follow punct.now (comments_view comments.entry) }
{
    line_lead_follows(comments, punct) && block_lead_follows(comments, punct)
}

fn line_lead_follows(comments: Comments<'_>, punct: &[u8]) -> bool
    ensures { result ≡ if_line (λ line. is_lead punct.now line.marker line.lead) (comments_view comments.entry) }
{
    match comments.line {
        None => true,
        Some(line) => is_lead(punct, line.marker, line.lead),
    }
}

fn block_lead_follows(comments: Comments<'_>, punct: &[u8]) -> bool
    ensures { result ≡ if_block (λ block. is_lead punct.now (unwrap_or block.middle []) block.lead)
        (comments_view comments.entry) }
{
    match comments.block {
        None => true,
        Some(block) => is_lead(punct, block.middle_or_nothing(), block.lead),
    }
}

// Whether a lead is a mark with spaces and punctuation behind it.
fn is_lead(punct: &[u8], mark: &[u8], lead: &[u8]) -> bool
    ensures { result ≡ is_lead punct.now mark.now lead.now }
{
    lead.starts_with(mark) && are_fillings(punct, &lead[mark.len()..])
}

// Whether all bytes are spaces and punctuation.
fn are_fillings(punct: &[u8], bytes: &[u8]) -> bool
    ensures { result ≡ list_all (is_filling punct.now) bytes.now }
{
    bytes.iter().all(|b| *b == b' ' || punct.contains(b))
}

// Whether neither of marker and opener begins with the other.
fn begin_apart(comments: Comments<'_>) -> bool
    ensures { result ≡ begin_apart (comments_view comments.entry) }
{
    let Some(line) = comments.line else {
        return true;
    };
    match comments.block {
        None => true,
        Some(block) => {
            !line.marker.starts_with(block.opener) && !block.opener.starts_with(line.marker)
        }
    }
}

// Whether the closer does not stand in the opener.
fn opens_alone(comments: Comments<'_>) -> bool
    ensures { result ≡ if_block (λ block. not (holds block.closer block.opener)) (comments_view comments.entry) }
{
    match comments.block {
        None => true,
        Some(block) => !holds(block.opener, block.closer),
    }
}

// Whether the last line is the closer behind spaces and punctuation.
fn ends_at_closer(comments: Comments<'_>, punct: &[u8]) -> bool
    ensures { result ≡ if_block (λ block. closes punct.now block.closer block.last_line)
        (comments_view comments.entry) }
{
    match comments.block {
        None => true,
        Some(block) => closes(punct, block.closer, block.last_line),
    }
}

fn closes(punct: &[u8], closer: &[u8], last_line: &[u8]) -> bool
    ensures { result ≡ closes punct.now closer.now last_line.now }
{
    match find_text(last_line, closer) {
        None => false,
        Some(place) => {
            are_fillings(punct, &last_line[..place]) && place + closer.len() == last_line.len()
        }
    }
}

// Whether the middle, if there is one, is one byte of punctuation behind spaces.
fn has_short_middle(comments: Comments<'_>) -> bool
    ensures { result ≡ if_block (λ block. option_map_or is_middle block.middle true) (comments_view comments.entry) }
{
    match comments.block {
        None => true,
        Some(block) => match block.middle {
            None => true,
            Some(middle) => is_middle(middle),
        },
    }
}

fn is_middle(middle: &[u8]) -> bool
    ensures { result ≡ is_middle middle.now }
{
    let mut rest = middle;
    while let [byte, others @ ..] = rest {
        if others.is_empty() {
            return byte.is_ascii_punctuation();
        }
        if *byte != b' ' {
            return false;
        }
        rest = others;
    }
    false
}
