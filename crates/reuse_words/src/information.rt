//! Information with texts among its free contents, and without them.
ghost use Rattle.std.specs.Prelude.{◌≡◌, IfOk, map, length, drop};
ghost use Rattle.reuse_notice.specs.Sets.{IsSorted};
ghost use Rattle.reuse_header.specs.Marks.{marks_of};
ghost use Rattle.reuse_words.specs.Information.{gap_of, set_in, text_in, with_texts, without_texts, with_free};
ghost use Rattle.reuse_words.specs.Information.{info_with};

use crate::lists::push_all;
use crate::runs::{with_text, without_text};
use crate::text::HeaderText;
use reuse_notice::{Info, TextSet, sets_are_one};
use reuse_style::{Form, Style};
use reuse_text::Bytes;
use std::alloc::{AllocError, Global};

/// Information with texts behind its free contents, where these don't hold them yet.
pub(crate) fn info_with(
    alloc: Global,
    info: &Info,
    texts: &[HeaderText],
    gap: &[u8],
    punct: &[u8],
) -> Result<Info, AllocError>
    ensures { IfOk result (λ new. new ≡ info_with punct.now (map (text_in gap.now) texts.now) info.now) }
{
    let free = with_texts(alloc, info.free(), texts, gap, punct)?;
    with_free(alloc, info, free.as_slice(), punct)
}

// Contents with texts behind them.
fn with_texts(
    alloc: Global,
    contents: &[Bytes],
    texts: &[HeaderText],
    gap: &[u8],
    punct: &[u8],
) -> Result<Vec<Bytes>, AllocError>
    ensures { IfOk result
        (λ made. made.items ≡ with_texts punct.now (map (text_in gap.now) texts.now) contents.now) }
{
    let mut made = copied(alloc, contents)?;
    let mut rest = texts;
    while let [text, others @ ..] = rest {
        let text = text_in(alloc, text.lines(), gap)?;
        made = with_text(alloc, made, text.as_slice(), punct)?;
        rest = others;
    }
    Ok(made)
}

/// Contents without texts, as they are set in behind `gap`.
pub(crate) fn without_texts(
    alloc: Global,
    contents: &[Bytes],
    texts: &[HeaderText],
    gap: &[u8],
    punct: &[u8],
) -> Result<Vec<Bytes>, AllocError>
    ensures { IfOk result
        (λ made. made.items ≡ without_texts punct.now (map (text_in gap.now) texts.now) contents.now) }
{
    let mut made = copied(alloc, contents)?;
    let mut rest = texts;
    while let [text, others @ ..] = rest {
        let text = text_in(alloc, text.lines(), gap)?;
        made = without_text(alloc, made, text.as_slice(), punct)?;
        rest = others;
    }
    Ok(made)
}

/// Information with other free contents, without blank ones at their outer ends.
pub(crate) fn with_free(
    alloc: Global,
    info: &Info,
    free: &[Bytes],
    punct: &[u8],
) -> Result<Info, AllocError>
    ensures { IfOk result (λ new. new ≡ with_free punct.now info.now free.now) }
{
    let lent = lent(alloc, free)?;
    let notices = copied_set(alloc, info.notices())?;
    let contributors = copied_set(alloc, info.contributors())?;
    let licences = copied_set(alloc, info.licences())?;
    Info::read(alloc, lent.as_slice(), punct)?.with_tags(alloc, notices, contributors, licences)
}

/// What stands between the mark of a style's form and its tags.
pub(crate) fn gap_of<'a>(style: &Style<'a>, form: Form) -> &'a [u8]
    ensures { result.now ≡ gap_of (marks_of style.now form) }
{
    match form {
        Form::Single => match style.line_comment() {
            None => b"",
            Some(comment) => behind(comment.marker, comment.lead),
        },
        Form::Multi => match style.block_comment() {
            None => b"",
            Some(comment) => behind(comment.middle_or_nothing(), comment.lead),
        },
    }
}

// A lead behind as many bytes as its mark has.
fn behind<'a>(mark: &[u8], lead: &'a [u8]) -> &'a [u8]
    ensures { result.now ≡ drop (length mark.now) lead.now }
{
    if mark.len() > lead.len() {
        return b"";
    }
    &lead[mark.len()..]
}

/// A text as contents: each line that isn't empty behind `gap`.
pub(crate) fn text_in(alloc: Global, lines: &[Bytes], gap: &[u8]) -> Result<Vec<Bytes>, AllocError>
    ensures { IfOk result (λ made. made.items ≡ text_in gap.now lines.now) }
{
    let mut made = Vec::new(alloc);
    for line in lines {
        made.push(set_in(alloc, line.as_slice(), gap)?)?;
    }
    Ok(made)
}

// A line as a content.
fn set_in(alloc: Global, line: &[u8], gap: &[u8]) -> Result<Bytes, AllocError>
    ensures { IfOk result (λ made. made ≡ set_in gap.now line.now) }
{
    let mut made = Bytes::new(alloc);
    if !line.is_empty() {
        made.push_slice(gap)?;
        made.push_slice(line)?;
    }
    Ok(made)
}

// Copies of contents.
fn copied(alloc: Global, contents: &[Bytes]) -> Result<Vec<Bytes>, AllocError>
    ensures { IfOk result (λ made. made.items ≡ contents.now) }
{
    let mut made = Vec::new(alloc);
    push_all(alloc, &mut made, contents)?;
    Ok(made)
}

// A set of texts again.
fn copied_set(alloc: Global, texts: &[Bytes]) -> Result<TextSet, AllocError>
    requires { IsSorted texts.now }
    ensures { IfOk result (λ set. set ≡ texts.now) }
{
    // That a set in byte order is the set of its own texts.
    sets_are_one();
    Ok(TextSet::new(copied(alloc, texts)?))
}

// Contents as they are lent.
fn lent(alloc: Global, contents: &[Bytes]) -> Result<Vec<&[u8]>, AllocError>
    ensures { IfOk result (λ list. map (λ content. content.now) list.items ≡ contents.now) }
{
    let mut list = Vec::new(alloc);
    for content in contents {
        list.push(content.as_slice())?;
    }
    Ok(list)
}
