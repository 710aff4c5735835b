//! A style that a project says itself.
ghost use Rattle.std.specs.Prelude.{◌≡◌, true, Some, None, IfOk, IfErr};
ghost use Rattle.std.specs.List.{list_all};
ghost use Rattle.reuse_style.specs.Marks.{is_good, punctuation_in};
ghost use Rattle.reuse_style.specs.CommentFile.{style_refusal, good_style, is_bad_style_name, is_name_byte};
ghost use Rattle.reuse_style.specs.CommentFile.{IsFirstRefusal};
ghost use Rattle.reuse_style.specs.CommentViews.{texts_view};

use crate::comment_texts::CommentTexts;
use crate::comments_refusal::CommentsRefusal;
use crate::marks::{marks_fault, punctuation_of};
use crate::own_comments::OwnComments;
use crate::style::{Kind, Style};
use reuse_text::Bytes;
use std::alloc::{AllocError, Global};
use std::marker::Model;

/// A style that a project says itself. Its marks are good.
#[derive(Debug, Drop)]
pub(crate) struct OwnStyle {
    name: String,
    comments: OwnComments,
    punctuation: Bytes,
    ghost good: { is_good comments ≡ true },
    ghost derived: { punctuation ≡ punctuation_in comments },
}

impl Model for OwnStyle {
    ghost use Rattle.std.specs.Prelude.{string_bytes};
    ghost use Rattle.reuse_style.specs.Marks.{GoodStyle};

    ghost Value = { GoodStyle };

    ghost view = { λ style. record { name = string_bytes style.name; marks = style.comments; good = style.good } };
}

impl OwnStyle {
    /// The style of a name and texts, if its name and its marks are good.
    pub(crate) fn of_texts(
        alloc: Global,
        name: &str,
        texts: &CommentTexts<'_>,
    ) -> Result<OwnStyle, CommentsRefusal>
        ensures good { IfOk result (λ _. style_refusal (name.now, texts_view texts.now) ≡ None) }
        ensures style { IfOk result (λ style. good_style (name.now, texts_view texts.now) ≡ Some style) }
        ensures refused { IfErr result (IsFirstRefusal (style_refusal (name.now, texts_view texts.now))) }
    {
        if is_bad_name(name) {
            return Err(CommentsRefusal::BadName(copy_of(alloc, name)?));
        }
        let comments = OwnComments::of_texts(alloc, texts)?;
        let punctuation = punctuation_of(alloc, comments.lent())?;
        if let Some(fault) = marks_fault(comments.lent(), punctuation.as_slice()) {
            return Err(CommentsRefusal::BadMarks(copy_of(alloc, name)?, fault));
        }
        let name = String::from_str(alloc, name)?;
        Ok(OwnStyle {
            name,
            comments,
            punctuation,
        })
    }

    /// The style, lent.
    pub(crate) fn lent(&self) -> Style<'_>
        ensures { result ≡ self.now }
    {
        Style::new(
            self.name.as_str(),
            self.comments.lent(),
            self.punctuation.as_slice(),
        )
    }
}

// The bytes of a name.
fn copy_of(alloc: Global, name: &str) -> Result<Bytes, AllocError>
    ensures { IfOk result (λ copy. copy ≡ name.now) }
{
    Bytes::from_slice(alloc, name.as_bytes())
}

// Whether a style can't have the name.
fn is_bad_name(name: &str) -> bool
    ensures { result ≡ is_bad_style_name name.now }
{
    name.is_empty()
        || name.len() > 40
        || !has_name_bytes(name.as_bytes())
        || Kind::of_name(name).is_some()
}

// Whether all bytes are lower-case letters, digits or `-`.
fn has_name_bytes(name: &[u8]) -> bool
    ensures { result ≡ list_all is_name_byte name.now }
{
    name.iter().all(|b| b.is_ascii_lowercase() || b.is_ascii_digit() || *b == b'-')
}
