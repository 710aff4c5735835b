//! Marks that a project says itself: own copies, which comments are lent from.
ghost use Rattle.std.specs.Prelude.{◌≡◌, ◌++◌, ◌∷◌, [], IfOk, unwrap_or};
ghost use Rattle.std.specs.Option.{option_copied, option_map};
ghost use Rattle.reuse_style.specs.MarkViews.{line_view, block_view, comments_view};
ghost use Rattle.reuse_style.specs.CommentFile.{line_of, block_of, block_between, marks_of, default_lead};
ghost use Rattle.reuse_style.specs.CommentViews.{texts_view};

use crate::comment_texts::CommentTexts;
use crate::marks::{BlockComment, Comments, Declaration, LineComment};
use crate::own_prefix::{OwnFrontMatter, first_lines_of};
use reuse_text::Bytes;
use std::alloc::{AllocError, Global};
use std::marker::Model;

/// Own marks of comments on single lines.
#[derive(Debug, Drop)]
pub(crate) struct OwnLine {
    marker: Bytes,
    lead: Bytes,
}

impl Model for OwnLine {
    ghost use Rattle.reuse_style.specs.Marks.{LineForm};

    ghost Value = { LineForm };

    ghost view = { λ line. record { marker = line.marker; lead = line.lead } };
}

impl OwnLine {
    // Those that texts say, if they say any.
    fn of_texts(alloc: Global, texts: &CommentTexts<'_>) -> Result<Option<OwnLine>, AllocError>
        ensures { IfOk result (λ line. line ≡ line_of (texts_view texts.now)) }
    {
        let Some(marker) = texts.marker else {
            return Ok(None);
        };
        let marker = Bytes::from_slice(alloc, marker.as_bytes())?;
        let lead = lead_behind(alloc, texts.line_lead, Some(marker.as_slice()))?;
        Ok(Some(OwnLine { marker, lead }))
    }

    // The marks, lent.
    fn lent(&self) -> LineComment<'_>
        ensures { line_view result ≡ self.now }
    {
        LineComment {
            marker: self.marker.as_slice(),
            lead: self.lead.as_slice(),
        }
    }
}

// A lead that is said, or else a mark and a space, or nothing without a mark.
fn lead_behind(alloc: Global, lead: Option<&str>, mark: Option<&[u8]>) -> Result<Bytes, AllocError>
    ensures { IfOk result (λ bytes. bytes ≡ unwrap_or (option_copied lead.entry)
        (default_lead (option_copied mark.entry))) }
{
    if let Some(lead) = lead {
        return Bytes::from_slice(alloc, lead.as_bytes());
    }
    let Some(mark) = mark else {
        return Ok(Bytes::new(alloc));
    };
    let mut lead = Bytes::from_slice(alloc, mark)?;
    lead.push_slice(b" ")?;
    Ok(lead)
}

/// Own marks of comments over several lines.
#[derive(Debug, Drop)]
pub(crate) struct OwnBlock {
    opener: Bytes,
    middle: Option<Bytes>,
    closer: Bytes,
    last_line: Bytes,
    lead: Bytes,
}

impl Model for OwnBlock {
    ghost use Rattle.reuse_style.specs.Marks.{BlockForm};

    ghost Value = { BlockForm };

    ghost view = { λ block. record {
      opener = block.opener;
      middle = block.middle;
      closer = block.closer;
      last_line = block.last_line;
      lead = block.lead;
    } };
}

impl OwnBlock {
    // Those that texts say, if they say any.
    fn of_texts(alloc: Global, texts: &CommentTexts<'_>) -> Result<Option<OwnBlock>, AllocError>
        ensures { IfOk result (λ block. block ≡ block_of (texts_view texts.now)) }
    {
        let (Some(opener), Some(closer)) = (texts.opener, texts.closer) else {
            return Ok(None);
        };
        Ok(Some(OwnBlock::between(alloc, texts, opener, closer)?))
    }

    // Those between an opener and a closer.
    fn between(
        alloc: Global,
        texts: &CommentTexts<'_>,
        opener: &str,
        closer: &str,
    ) -> Result<OwnBlock, AllocError>
        ensures { IfOk result (λ block. block ≡ block_between (texts_view texts.now) opener.now closer.now) }
    {
        let last_line = match texts.last_line {
            None => closer,
            Some(last_line) => last_line,
        };
        let middle = match texts.middle {
            None => None,
            Some(middle) => Some(middle.as_bytes()),
        };
        let lead = lead_behind(alloc, texts.lead, middle)?;
        Ok(OwnBlock {
            opener: Bytes::from_slice(alloc, opener.as_bytes())?,
            middle: copy_if(alloc, middle)?,
            closer: Bytes::from_slice(alloc, closer.as_bytes())?,
            last_line: Bytes::from_slice(alloc, last_line.as_bytes())?,
            lead,
        })
    }

    // The marks, lent.
    fn lent(&self) -> BlockComment<'_>
        ensures { block_view result ≡ self.now }
    {
        BlockComment {
            opener: self.opener.as_slice(),
            middle: match &self.middle {
                None => None,
                Some(middle) => Some(middle.as_slice()),
            },
            closer: self.closer.as_slice(),
            last_line: self.last_line.as_slice(),
            lead: self.lead.as_slice(),
        }
    }
}

// A copy of bytes, if they are there.
fn copy_if(alloc: Global, bytes: Option<&[u8]>) -> Result<Option<Bytes>, AllocError>
    ensures { IfOk result (λ copy. copy ≡ option_copied bytes.entry) }
{
    match bytes {
        None => Ok(None),
        Some(bytes) => Ok(Some(Bytes::from_slice(alloc, bytes)?)),
    }
}

/// Own marks of comments.
#[derive(Debug, Drop)]
pub(crate) struct OwnComments {
    line: Option<OwnLine>,
    block: Option<OwnBlock>,
    first_lines: Vec<Bytes>,
    front_matter: Option<OwnFrontMatter>,
}

impl Model for OwnComments {
    ghost use Rattle.reuse_style.specs.Marks.{CommentMarks};
    ghost use Rattle.reuse_style.specs.declared.marks.Declaration.TheVariants.{Nothing};

    ghost Value = { CommentMarks };

    ghost view = { λ comments. record {
      line = comments.line;
      block = comments.block;
      declaration = Nothing;
      first_lines = comments.first_lines.items;
      front_matter = comments.front_matter;
    } };
}

impl OwnComments {
    /// The marks that texts say.
    pub(crate) fn of_texts(
        alloc: Global,
        texts: &CommentTexts<'_>,
    ) -> Result<OwnComments, AllocError>
        ensures { IfOk result (λ comments. comments ≡ marks_of (texts_view texts.now)) }
    {
        let line = OwnLine::of_texts(alloc, texts)?;
        let block = OwnBlock::of_texts(alloc, texts)?;
        let first_lines = first_lines_of(alloc, texts)?;
        let front_matter = OwnFrontMatter::of_texts(alloc, texts)?;
        Ok(OwnComments {
            line,
            block,
            first_lines,
            front_matter,
        })
    }

    /// The comments, lent.
    pub(crate) fn lent(&self) -> Comments<'_>
        ensures { comments_view result ≡ self.now }
    {
        Comments {
            line: match &self.line {
                None => None,
                Some(line) => Some(line.lent()),
            },
            block: match &self.block {
                None => None,
                Some(block) => Some(block.lent()),
            },
            declaration: Declaration::Nothing,
            first_lines: self.first_lines.as_slice(),
            front_matter: match &self.front_matter {
                None => None,
                Some(matter) => Some(matter.lent()),
            },
        }
    }
}
