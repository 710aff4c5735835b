//! Whether a line of a new block would end it.
ghost use Rattle.std.specs.Prelude.{◌≡◌, ◌++◌, map, IfOk, not, ◌&&◌, ◌||◌};
ghost use Rattle.std.specs.List.{list_any};
ghost use Rattle.reuse_style.specs.Search.{holds};
ghost use Rattle.reuse_header.specs.MarkViews.{marks_view};
ghost use Rattle.reuse_header.specs.Writing.{holds_closer, inner_lines, no_lines};

use crate::writer::{Marks, is_joined};
use reuse_notice::{Info, trim_blank_end};
use reuse_style::holds;
use reuse_text::Bytes;
use std::alloc::{AllocError, Global};

// Whether a line between the first and the last of a new block holds the closer.
#[tactic(auto, unfolding(crate::specs::Writing::holds_closer))]
pub(crate) fn holds_closer(alloc: Global, marks: Marks<'_>, info: &Info) -> Result<bool, AllocError>
    ensures { IfOk result (λ answer. answer ≡ holds_closer (marks_view marks.entry) info.now) }
{
    match marks.closer {
        None => Ok(false),
        Some(closer) => any_line_holds(alloc, closer, marks, info),
    }
}

// Whether a line between the first and the last of a new block holds a text.
fn any_line_holds(
    alloc: Global,
    text: &[u8],
    marks: Marks<'_>,
    info: &Info,
) -> Result<bool, AllocError>
    ensures { IfOk result
        (λ answer. answer ≡ list_any (holds text.now) (inner_lines (marks_view marks.entry) info.now)) }
{
    let separator = has_separator(info) & holds(trim_blank_end(marks.lead), text);
    let notices = line_holds(alloc, text, marks.lead, b"", info.notices())?;
    let tag = b"SPDX-FileContributor: ";
    let contributors = line_holds(alloc, text, marks.lead, tag, info.contributors())?;
    // REUSE-IgnoreStart
    let tag = b"SPDX-License-Identifier: ";
    // REUSE-IgnoreEnd
    let licences = line_holds(alloc, text, marks.lead, tag, info.licences())?;
    let free = line_holds(alloc, text, marks.mark, b"", info.free())?;
    Ok(separator | notices | contributors | licences | free)
}

// Whether parts of a block are set off from each other.
fn has_separator(info: &Info) -> bool
    ensures { result ≡ not ((no_lines info.now.notices && no_lines info.now.contributors) || no_lines info.now.licences)
        || not (no_lines info.now.free) }
{
    is_joined(info) || !info.free().is_empty()
}

// Whether the line of one of these values, behind the lead and the tag, holds a text.
pub(crate) fn line_holds(
    alloc: Global,
    text: &[u8],
    lead: &[u8],
    tag: &[u8],
    values: &[Bytes],
) -> Result<bool, AllocError>
    ensures { IfOk result
        (λ answer. answer ≡ list_any (holds text.now) (map (λ value. lead.now ++ (tag.now ++ value)) values.now)) }
{
    let mut line = Vec::new(alloc);
    let mut rest = values;
    while let [value, others @ ..] = rest {
        line.clear();
        line.extend_from_slice(lead)?;
        line.extend_from_slice(tag)?;
        line.extend_from_slice(value.as_slice())?;
        if holds(line.as_slice(), text) {
            return Ok(true);
        }
        rest = others;
    }
    Ok(false)
}
