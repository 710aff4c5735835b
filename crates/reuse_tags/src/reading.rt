//! The tags of a line, wherever they stand in it: each kind once at most.
ghost use Rattle.std.specs.Prelude.{◌≡◌, option_map};
ghost use Rattle.reuse_tags.specs.Reading.{tag_view, value_of, tag_with, licence_tag, contributor_tag, is_mark};
ghost use Rattle.reuse_tags.specs.Reading.{if_notice, notice_from, notice_tag};

use crate::ends::trim_closers;
use reuse_notice::{trim_blank_start, trim_start_with};
use reuse_style::find_text;

/// Where a tag stands: its line from the tag on, and from its value on.
#[derive(Clone, Copy)]
pub(crate) struct TagPlace<'a> {
    pub(crate) tag: &'a [u8],
    pub(crate) rest: &'a [u8],
}

/// The licence of a line.
pub(crate) fn licence_tag(line: &[u8]) -> Option<TagPlace<'_>>
    ensures { option_map tag_view result ≡ licence_tag line.now }
{
    tag_with(b"SPDX-License-Identifier:", line)
}

/// The contributor of a line.
pub(crate) fn contributor_tag(line: &[u8]) -> Option<TagPlace<'_>>
    ensures { option_map tag_view result ≡ contributor_tag line.now }
{
    tag_with(b"SPDX-FileContributor:", line)
}

/// The notice of a line, which is read with its tag.
pub(crate) fn notice_tag(line: &[u8]) -> Option<TagPlace<'_>>
    ensures { option_map tag_view result ≡ notice_tag line.now }
{
    let text = notice_from(line)?;
    Some(TagPlace {
        tag: text,
        rest: text,
    })
}

/// The value of a tag, which ends in front of the closers at its line's end.
pub(crate) fn value_of(place: TagPlace<'_>) -> &[u8]
    ensures { result.now ≡ value_of (tag_view place.entry) }
{
    trim_closers(place.rest)
}

// The first tag of a line that begins with a lead.
fn tag_with<'a>(lead: &[u8], line: &'a [u8]) -> Option<TagPlace<'a>>
    ensures { option_map tag_view result ≡ tag_with lead.now line.now }
{
    let place = find_text(line, lead)?;
    Some(TagPlace {
        tag: &line[place..],
        rest: trim_blank_start(&line[place + lead.len()..]),
    })
}

// A line from its notice on: from the tag of SPDX, wherever it stands, or else from behind the
// marks in front.
fn notice_from(line: &[u8]) -> Option<&[u8]>
    ensures { option_map (λ text. text.now) result ≡ notice_from line.now }
{
    match find_text(line, b"SPDX-FileCopyrightText:") {
        Some(place) => Some(&line[place..]),
        None => if_notice(trim_start_with(line, is_mark)),
    }
}

// A text that begins as a notice does without the tag of SPDX.
fn if_notice(text: &[u8]) -> Option<&[u8]>
    ensures { option_map (λ text. text.now) result ≡ if_notice text.now }
{
    if text.starts_with(b"Copyright") || text.starts_with("©".as_bytes()) {
        Some(text)
    } else {
        None
    }
}

// Whether a byte is ASCII, and neither a letter nor a digit.
fn is_mark(b: u8) -> bool
    ensures { result ≡ is_mark b }
{
    b < 0x80 && !b.is_ascii_alphanumeric()
}
