//! The tags of a text amended where they stand: only the bytes of their values change.
ghost use Rattle.std.specs.Prelude.{◌≡◌, ◌++◌, IfOk, OnOk, unwrap_or};
ghost use Rattle.reuse_text.specs.Text.{ending_bytes, line_bytes};
ghost use Rattle.reuse_text.specs.Lines.{line_view};
ghost use Rattle.reuse_amend.specs.AmendmentViews.{IsAnswer};
ghost use Rattle.reuse_tags.specs.Everywhere.{licence_amended_in, contributor_amended_in, notice_amended_in};
ghost use Rattle.reuse_tags.specs.Everywhere.{names_amended_in, line_amended, bytes_made, has_tag, IsLineAnswer};
ghost use Rattle.reuse_tags.specs.Everywhere.{amended_everywhere};

use crate::around::{around_of, with_value};
use crate::ignored::{ignores_next, read_part};
use crate::reading::{contributor_tag, licence_tag, notice_tag};
use reuse_amend::{
    AmendRefusal, Amendments, amend_one_contributor, amend_one_licence, amend_one_notice,
};
use reuse_text::{Bytes, Line, LineKind, Lines, mark_len};
use std::alloc::{AllocError, Global};

/// A text with each of its tags amended where it stands. A tag whose value is removed takes its
/// line with it, if nothing but marks and blanks is left of that.
///
/// # Errors
/// `BadExpression` where an identifier is replaced by what can't stand in its place.
#[tactic(auto, unfolding(crate::specs::Everywhere::lines_made))]
pub fn amend_everywhere(
    alloc: Global,
    text: &[u8],
    amendments: &Amendments,
) -> Result<Bytes, AmendRefusal>
    ensures { IsAnswer (amended_everywhere amendments.now text.now) result }
{
    let mut amended = Bytes::from_slice(alloc, &text[..mark_len(text)])?;
    let mut lines = Lines::new(text);
    let mut ignored = false;
    'lines: while let Some(line) = lines.next() {
        let made = match make_line(alloc, line, ignored, amendments) {
            Ok(made) => made,
            Err(refusal) => return Err(refusal),
        };
        push_line(&mut amended, line, made)?;
        ignored = ignores_next(ignored, line.content);
    }
    Ok(amended)
}

// Adds the bytes that a line becomes, or its own.
fn push_line(amended: &mut Bytes, line: Line<'_>, made: Option<Bytes>) -> Result<(), AllocError>
    ensures { OnOk result (amended.new ≡ amended.old ++ unwrap_or made (line_bytes (line_view line.entry).1)) }
{
    match made {
        None => {
            amended.push_slice(line.content)?;
            amended.push_slice(ending_text(line.ending))
        }
        Some(bytes) => amended.push_slice(bytes.as_slice()),
    }
}

// The bytes that a line becomes, none where it stays.
fn make_line(
    alloc: Global,
    line: Line<'_>,
    ignored: bool,
    amendments: &Amendments,
) -> Result<Option<Bytes>, AmendRefusal>
    ensures { let own = (line_view line.entry).1 in
        IsLineAnswer (bytes_made amendments.now ignored own) (line_bytes own) result }
{
    if ignored || !has_tag(line.content) {
        return Ok(None);
    }
    match amend_line(alloc, line.content, amendments) {
        Ok(None) => Ok(Some(Bytes::new(alloc))),
        Ok(Some(content)) => Ok(Some(end_line(alloc, content.as_slice(), line.ending)?)),
        Err(refusal) => Err(refusal),
    }
}

// Whether a line has a tag.
fn has_tag(line: &[u8]) -> bool
    ensures { result ≡ has_tag line.now }
{
    let part = read_part(line);
    licence_tag(part).is_some() || contributor_tag(part).is_some() || notice_tag(part).is_some()
}

// A line's content and its ending.
fn end_line(alloc: Global, content: &[u8], ending: Option<LineKind>) -> Result<Bytes, AllocError>
    ensures { IfOk result (λ made. made ≡ content.now ++ ending_bytes ending) }
{
    let mut made = Bytes::from_slice(alloc, content)?;
    made.push_slice(ending_text(ending))?;
    Ok(made)
}

// The bytes of an ending.
fn ending_text(ending: Option<LineKind>) -> &'static [u8]
    ensures { result.now ≡ ending_bytes ending }
{
    match ending {
        None => b"",
        Some(LineKind::Lf) => b"\n",
        Some(LineKind::Crlf) => b"\r\n",
    }
}

// A line whose tags are amended, none where it goes.
fn amend_line(
    alloc: Global,
    line: &[u8],
    amendments: &Amendments,
) -> Result<Option<Bytes>, AmendRefusal>
    ensures { IsAnswer (line_amended amendments.now line.now) result }
{
    match amend_licence_in(alloc, line, amendments) {
        Ok(None) => Ok(None),
        Ok(Some(line)) => Ok(amend_names_in(alloc, line.as_slice(), amendments)?),
        Err(refusal) => Err(refusal),
    }
}

// A line whose licence is amended.
fn amend_licence_in(
    alloc: Global,
    line: &[u8],
    amendments: &Amendments,
) -> Result<Option<Bytes>, AmendRefusal>
    ensures { IsAnswer (licence_amended_in amendments.now line.now) result }
{
    let part = read_part(line);
    let Some(place) = licence_tag(part) else {
        return Ok(Some(Bytes::from_slice(alloc, line)?));
    };
    let around = around_of(line, part, place);
    match amend_one_licence(alloc, around.value, amendments) {
        Ok(value) => Ok(with_value(alloc, around, line, value)?),
        Err(refusal) => Err(refusal),
    }
}

// A line whose contributor and whose notice are amended.
fn amend_names_in(
    alloc: Global,
    line: &[u8],
    amendments: &Amendments,
) -> Result<Option<Bytes>, AllocError>
    ensures { IfOk result (λ made. made ≡ names_amended_in amendments.now line.now) }
{
    match amend_contributor_in(alloc, line, amendments)? {
        None => Ok(None),
        Some(line) => amend_notice_in(alloc, line.as_slice(), amendments),
    }
}

// A line whose contributor is amended.
fn amend_contributor_in(
    alloc: Global,
    line: &[u8],
    amendments: &Amendments,
) -> Result<Option<Bytes>, AllocError>
    ensures { IfOk result (λ made. made ≡ contributor_amended_in amendments.now line.now) }
{
    let part = read_part(line);
    let Some(place) = contributor_tag(part) else {
        return Ok(Some(Bytes::from_slice(alloc, line)?));
    };
    let around = around_of(line, part, place);
    let value = amend_one_contributor(alloc, around.value, amendments)?;
    with_value(alloc, around, line, value)
}

// A line whose notice is amended.
fn amend_notice_in(
    alloc: Global,
    line: &[u8],
    amendments: &Amendments,
) -> Result<Option<Bytes>, AllocError>
    ensures { IfOk result (λ made. made ≡ notice_amended_in amendments.now line.now) }
{
    let part = read_part(line);
    let Some(place) = notice_tag(part) else {
        return Ok(Some(Bytes::from_slice(alloc, line)?));
    };
    let around = around_of(line, part, place);
    let value = amend_one_notice(alloc, around.value, amendments)?;
    with_value(alloc, around, line, value)
}
