//! Prefix lines that a project says itself: own copies of their texts.
ghost use Rattle.std.specs.Prelude.{◌≡◌, [], IfOk, map, unwrap_or, option_and_then};
ghost use Rattle.reuse_style.specs.MarkViews.{front_matter_view};
ghost use Rattle.reuse_style.specs.CommentFile.{front_matter_between};
ghost use Rattle.reuse_style.specs.CommentViews.{texts_view};

use crate::comment_texts::CommentTexts;
use crate::marks::FrontMatter;
use reuse_text::Bytes;
use std::alloc::{AllocError, Global};
use std::marker::Model;

/// Own copies of the beginnings of first lines that texts say.
pub(crate) fn first_lines_of(
    alloc: Global,
    texts: &CommentTexts<'_>,
) -> Result<Vec<Bytes>, AllocError>
    ensures { IfOk result (λ copies. copies.items ≡ unwrap_or (texts_view texts.now).first_lines []) }
{
    match &texts.first_lines {
        None => Ok(Vec::new(alloc)),
        Some(beginnings) => copies_of(alloc, beginnings.as_slice()),
    }
}

// Own copies of texts.
fn copies_of(alloc: Global, mut texts: &[&str]) -> Result<Vec<Bytes>, AllocError>
    ensures { IfOk result (λ copies. copies.items ≡ map (λ text. text.now) texts.entry.now) }
{
    let mut copies = Vec::new(alloc);
    while let [text, others @ ..] = texts {
        copies.push(Bytes::from_slice(alloc, text.as_bytes())?)?;
        texts = others;
    }
    Ok(copies)
}

/// Own texts of front matter.
#[derive(Debug, Drop)]
pub(crate) struct OwnFrontMatter {
    first_line: Bytes,
    last_line: Bytes,
}

impl Model for OwnFrontMatter {
    ghost use Rattle.reuse_style.specs.Marks.{FrontMatterForm};

    ghost Value = { FrontMatterForm };

    ghost view = { λ matter. record { first_line = matter.first_line; last_line = matter.last_line } };
}

impl OwnFrontMatter {
    /// Those that texts say, if they say any.
    pub(crate) fn of_texts(
        alloc: Global,
        texts: &CommentTexts<'_>,
    ) -> Result<Option<OwnFrontMatter>, AllocError>
        ensures { IfOk result
            (λ matter. matter ≡ option_and_then front_matter_between (texts_view texts.now).front_matter) }
    {
        match &texts.front_matter {
            None => Ok(None),
            Some(lines) => OwnFrontMatter::between(alloc, lines.as_slice()),
        }
    }

    // Those of two lines.
    fn between(alloc: Global, lines: &[&str]) -> Result<Option<OwnFrontMatter>, AllocError>
        ensures { IfOk result (λ matter. matter ≡ front_matter_between (map (λ line. line.now) lines.now)) }
    {
        let [first_line, last_line] = lines else {
            return Ok(None);
        };
        Ok(Some(OwnFrontMatter {
            first_line: Bytes::from_slice(alloc, first_line.as_bytes())?,
            last_line: Bytes::from_slice(alloc, last_line.as_bytes())?,
        }))
    }

    /// The texts, lent.
    pub(crate) fn lent(&self) -> FrontMatter<'_>
        ensures { front_matter_view result ≡ self.now }
    {
        FrontMatter {
            first_line: self.first_line.as_slice(),
            last_line: self.last_line.as_slice(),
        }
    }
}
