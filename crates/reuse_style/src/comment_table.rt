//! The comment styles that a project says itself (`.reuse/comments.toml`).
ghost use Rattle.std.specs.Prelude.{◌≡◌, [], None, Ok, IfOk, IfErr, map, find, is_some};
ghost use Rattle.std.specs.List.{filter_map};
ghost use Rattle.std.specs.Str.{bytes_eq};
ghost use Rattle.reuse_style.specs.Styles.{style_name};
ghost use Rattle.reuse_style.specs.CommentFile.{checked_styles, first_style_refusal, good_style, IsFirstRefusal};
ghost use Rattle.reuse_style.specs.StyleFile.{own_style_named};
ghost use Rattle.reuse_style.specs.CommentViews.{texts_view};

use crate::comment_texts::CommentTexts;
use crate::comments_refusal::CommentsRefusal;
use crate::own_style::OwnStyle;
use crate::style::Style;
use std::alloc::{AllocError, Global};
use std::marker::Model;

/// The comment styles that a project says itself. Contracts see them as a list.
#[derive(Debug, Drop)]
pub(crate) struct CommentTable {
    styles: Vec<OwnStyle>,
}

impl Model for CommentTable {
    ghost use Rattle.std.specs.Prelude.{List};
    ghost use Rattle.reuse_style.specs.Marks.{GoodStyle};

    ghost Value = { List GoodStyle };

    ghost view = { λ table. table.styles.items };
}

impl CommentTable {
    /// No styles.
    pub(crate) fn none(alloc: Global) -> CommentTable
        ensures { result ≡ [] }
    {
        CommentTable {
            styles: Vec::new(alloc),
        }
    }

    /// The styles that texts say, if all texts have the shape of styles.
    pub(crate) fn of_texts(
        alloc: Global,
        named: &[(&str, CommentTexts<'_>)],
    ) -> Result<CommentTable, CommentsRefusal>
        ensures ok { IfOk result (λ table. checked_styles (map (λ t. (t.0.now, texts_view t.1)) named.now)
            (first_style_refusal (map (λ t. (t.0.now, texts_view t.1)) named.now)) ≡ Ok table) }
        ensures refused { IfErr result
            (IsFirstRefusal (first_style_refusal (map (λ t. (t.0.now, texts_view t.1)) named.now))) }
    {
        let styles = good_styles(alloc, named)?;
        Ok(CommentTable { styles })
    }

    /// Whether a style has a name.
    pub(crate) fn has(&self, name: &[u8]) -> bool
        ensures { result ≡ is_some (own_style_named self.now name.now) }
    {
        find_named(self.styles.as_slice(), name).is_some()
    }

    /// The style that has a name, if one has.
    pub(crate) fn named(&self, name: &str) -> Option<Style<'_>>
        ensures { result ≡ own_style_named self.now name.now }
    {
        find_named(self.styles.as_slice(), name.as_bytes())
    }
}

// The first of some styles that has a name.
fn find_named<'a>(mut styles: &'a [OwnStyle], name: &[u8]) -> Option<Style<'a>>
    ensures { result ≡ find (λ style. bytes_eq (style_name style) name.now) styles.entry.now }
{
    while let [own, others @ ..] = styles {
        let style = own.lent();
        if style.name().as_bytes() == name {
            return Some(style);
        }
        styles = others;
    }
    None
}

// The styles that texts say, if all are good.
fn good_styles(
    alloc: Global,
    named: &[(&str, CommentTexts<'_>)],
) -> Result<Vec<OwnStyle>, CommentsRefusal>
    ensures ok { IfOk result
        (λ styles. (first_style_refusal (map (λ t. (t.0.now, texts_view t.1)) named.now) ≡ None)
        × (styles.items ≡ filter_map good_style (map (λ t. (t.0.now, texts_view t.1)) named.now))) }
    ensures refused { IfErr result
        (IsFirstRefusal (first_style_refusal (map (λ t. (t.0.now, texts_view t.1)) named.now))) }
{
    let mut styles = Vec::new(alloc);
    for (name, texts) in named {
        let style = OwnStyle::of_texts(alloc, name, texts)?;
        let Ok(()) = styles.push(style) else {
            return Err(CommentsRefusal::Memory(AllocError));
        };
    }
    Ok(styles)
}
