//! The edit that writes a header block or a comment in its place, before it is seen whether the
//! block would be found again.
ghost use Rattle.std.specs.Prelude.{◌≡◌, ◌+◌, ◌-◌, ◌^◌, ◌<◌, ◌≤◌, IfOk, length};
ghost use Rattle.reuse_text.specs.Text.{spliced};
ghost use Rattle.reuse_header.specs.MarkViews.{marks_view, whole_text};
ghost use Rattle.reuse_header.specs.Drafts.{edit_at, Drafts};

use crate::annotation::HeaderRefusal;
use crate::place::Place;
use crate::writer::{BlockText, Format, LineWriter, Marks};
use reuse_text::{Bytes, LONGEST_FILE, LineKind, splice};
use std::alloc::{AllocError, Global};

// The bytes that take the place of others, and where the block's text stands in the new file.
#[derive(Drop)]
pub(crate) struct Draft {
    pub(crate) start: usize,
    pub(crate) old_len: usize,
    pub(crate) new: Bytes,
    pub(crate) text_start: usize,
    pub(crate) text_end: usize,
}

impl Draft {
    // The file that the edit makes.
    pub(crate) fn made(&self, alloc: Global, file: &[u8]) -> Result<Vec<u8>, AllocError>
        requires within { self.now.start + self.now.old_len ≤ length file.now }
        requires fits { length file.now - self.now.old_len + length self.now.new < 2 ^ 64 }
        ensures { IfOk result (λ made. made.items ≡ spliced file.now self.now.start self.now.old_len self.now.new) }
    {
        splice(alloc, file, self.start, self.old_len, self.new.as_slice())
    }
}

// The edit that writes a text into a place, unless it makes the file too long.
pub(crate) fn make_draft(
    alloc: Global,
    file: &[u8],
    place: Place,
    kind: LineKind,
    marks: Marks<'_>,
    text: BlockText<'_>,
) -> Result<Draft, HeaderRefusal>
    requires within { place.start + place.old_len ≤ length file.now }
    requires short { length file.now ≤ LONGEST_FILE }
    ensures { Drafts file.now (edit_at place kind (whole_text (marks_view marks.entry) kind text.entry)) result }
{
    let room = LONGEST_FILE - (file.len() - place.old_len);
    let mut writer = LineWriter::new(alloc, Format { kind, room });
    writer.empty_line_if(place.ends_line)?;
    writer.empty_line_if(place.empty_before)?;
    let text_start = place.start + writer.len();
    writer.text(marks, text)?;
    let text_end = place.start + writer.len();
    writer.empty_line_if(place.empty_behind)?;
    match writer.into_text() {
        None => Err(HeaderRefusal::TooLong),
        Some(new) => Ok(Draft {
            start: place.start,
            old_len: place.old_len,
            new,
            text_start,
            text_end,
        }),
    }
}
