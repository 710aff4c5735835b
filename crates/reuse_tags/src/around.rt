//! A line around the value of one of its tags, and with another value there.
ghost use Rattle.std.specs.Prelude.{◌≡◌, IfOk, length, drop};
ghost use Rattle.reuse_notice.specs.Tags.{is_blank, trimmed};
ghost use Rattle.reuse_amend.specs.YearSpans.{upto};
ghost use Rattle.reuse_tags.specs.Reading.{tag_view};
ghost use Rattle.reuse_tags.specs.Around.{around_view, around_of, is_comment_byte, is_all, is_repeated, is_line_mark};
ghost use Rattle.reuse_tags.specs.Around.{is_only, is_comment, is_bare, with_value};

use crate::reading::{TagPlace, value_of};
use reuse_notice::{is_all_blank, trim_blank_end, trim_blank_start};
use reuse_text::Bytes;
use std::alloc::{AllocError, Global};

/// A line in front of a tag and in front of its value, the value, and what stands behind it.
#[derive(Clone, Copy)]
pub(crate) struct Around<'a> {
    pub(crate) front: &'a [u8],
    pub(crate) before: &'a [u8],
    pub(crate) value: &'a [u8],
    pub(crate) behind: &'a [u8],
}

/// A line around a tag of the part of it that is read.
pub(crate) fn around_of<'a>(line: &'a [u8], part: &'a [u8], place: TagPlace<'a>) -> Around<'a>
    ensures { around_view result ≡ around_of line.now part.now (tag_view place.entry) }
{
    let before = upto(part, place.rest);
    let value = value_of(place);
    Around {
        front: upto(part, place.tag),
        before,
        value,
        behind: pass(value, pass(before, line)),
    }
}

/// A line with a new value. Without one a bare line goes, and another one stays.
pub(crate) fn with_value(
    alloc: Global,
    around: Around<'_>,
    line: &[u8],
    value: Option<Bytes>,
) -> Result<Option<Bytes>, AllocError>
    ensures { IfOk result (λ made. made ≡ with_value (around_view around.entry) line.now value) }
{
    match value {
        None if is_bare(around) => Ok(None),
        None => Ok(Some(Bytes::from_slice(alloc, line)?)),
        Some(new) => {
            let mut made = Bytes::from_slice(alloc, around.before)?;
            made.push_slice(new.as_slice())?;
            made.push_slice(around.behind)?;
            Ok(Some(made))
        }
    }
}

// A text up to an end of it.
fn upto<'a>(text: &'a [u8], end: &[u8]) -> &'a [u8]
    ensures { result.now ≡ upto text.now end.now }
{
    &text[..text.len().saturating_sub(end.len())]
}

// A text behind as many bytes as a part of it has.
fn pass<'a>(part: &[u8], text: &'a [u8]) -> &'a [u8]
    ensures { result.now ≡ drop (length part.now) text.now }
{
    if part.len() > text.len() {
        return b"";
    }
    &text[part.len()..]
}

// A text without the blanks around it.
fn trim_blanks(text: &[u8]) -> &[u8]
    ensures { result.now ≡ trimmed is_blank text.now }
{
    trim_blank_end(trim_blank_start(text))
}

// Whether a byte is one of the marks of line comments, and of the lines within others.
fn is_comment_byte(b: u8) -> bool
    ensures { result ≡ is_comment_byte b }
{
    b == b'#' || b == b'/' || b == b'*' || b == b';' || b == b'-' || b == b'%'
}

// Whether there is nothing but a byte, perhaps repeated.
fn is_all(mark: u8, bytes: &[u8]) -> bool
    ensures { result ≡ is_all mark bytes.now }
{
    bytes.iter().all(|b| *b == mark)
}

// Whether a text is one of these bytes, perhaps repeated, or none.
fn is_repeated(text: &[u8]) -> bool
    ensures { result ≡ is_repeated text.now }
{
    match text.split_first() {
        None => true,
        Some((mark, others)) => is_comment_byte(*mark) && is_all(*mark, others),
    }
}

// Whether a text is the mark of a line comment, with blanks, perhaps, around it.
fn is_line_mark(text: &[u8]) -> bool
    ensures { result ≡ is_line_mark text.now }
{
    is_repeated(trim_blanks(text))
}

// Whether a text is another one with blanks around it.
fn is_only(part: &[u8], text: &[u8]) -> bool
    ensures { result ≡ is_only part.now text.now }
{
    trim_blanks(text) == part
}

// Whether what opens and closes a comment stands around a value.
fn is_comment(around: Around<'_>) -> bool
    ensures { result ≡ is_comment (around_view around.entry) }
{
    is_only(b"/*", around.front) && is_only(b"*/", around.behind)
        || is_only(b"<!--", around.front) && is_only(b"-->", around.behind)
        || is_only(b"(*", around.front) && is_only(b"*)", around.behind)
}

// Whether a line says nothing without its tag, and opens or closes no comment.
fn is_bare(around: Around<'_>) -> bool
    ensures { result ≡ is_bare (around_view around.entry) }
{
    is_line_mark(around.front) && is_all_blank(around.behind) || is_comment(around)
}
