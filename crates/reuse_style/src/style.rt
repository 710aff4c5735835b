//! A comment style: its name, and its marks, which are good.
ghost use Rattle.std.specs.Prelude.{◌≡◌, true};
ghost use Rattle.std.specs.Option.{option_map};
ghost use Rattle.reuse_style.specs.Marks.{is_good, punctuation_in};
ghost use Rattle.reuse_style.specs.MarkViews.{line_view, block_view, front_matter_view, comments_view};

use crate::comment_table::CommentTable;
use crate::marks::{BlockComment, Comments, Declaration, FrontMatter, LineComment};
use crate::table::TableStyle;
use reuse_text::Bytes;
use std::marker::Model;

/// A comment style. Its marks are good, and contracts see its name with them.
#[derive(Debug, Drop)]
pub struct Style<'a> {
    name: &'a str,
    comments: Comments<'a>,
    punctuation: &'a [u8],
    ghost good: { is_good (comments_view comments) ≡ true },
    ghost derived: { punctuation.now ≡ punctuation_in (comments_view comments) },
}

impl<'a> Model for Style<'a> {
    ghost use Rattle.reuse_style.specs.Marks.{GoodStyle};

    ghost Value = { GoodStyle };

    ghost use Rattle.reuse_style.specs.MarkViews.{comments_view};

    ghost view = { λ style. record { name = style.name.now; marks = comments_view style.comments; good = style.good } };
}

impl<'a> Style<'a> {
    ghost use Rattle.reuse_style.specs.Styles.{style_named, line_comment_of, block_comment_of, punctuation_of};
    ghost use Rattle.reuse_style.specs.Styles.{declaration_of, first_lines_of, front_matter_of};

    /// The style of a name and of good comments, with their punctuation.
    pub fn new(name: &'a str, comments: Comments<'a>, punctuation: &'a [u8]) -> Style<'a>
        requires good { is_good (comments_view comments) ≡ true }
        requires derived { punctuation.now ≡ punctuation_in (comments_view comments) }
        ensures name { result.name ≡ name.now }
        ensures marks { result.marks ≡ comments_view comments.entry }
    {
        Style {
            name,
            comments,
            punctuation,
        }
    }

    /// The style of the table that has a name, if one has.
    pub fn of_name(name: &str) -> Option<Style<'static>>
        ensures { result ≡ style_named name.now }
    {
        match TableStyle::of_name(name) {
            None => None,
            Some(style) => Some(style.style()),
        }
    }

    /// The same style, lent.
    pub fn lent(&self) -> Style<'a>
        ensures { result ≡ self.now }
    {
        Style::new(self.name, self.comments, self.punctuation)
    }

    /// Its name.
    pub fn name(&self) -> &'a str
        ensures { result.now ≡ self.now.name }
    {
        self.name
    }

    /// How it writes comments on single lines, if it does.
    pub fn line_comment(&self) -> Option<LineComment<'a>>
        ensures { option_map line_view result ≡ line_comment_of self.now }
    {
        self.comments.line
    }

    /// How it writes comments over several lines, if it does.
    pub fn block_comment(&self) -> Option<BlockComment<'a>>
        ensures { option_map block_view result ≡ block_comment_of self.now }
    {
        self.comments.block
    }

    /// The line that stays in front of its comments.
    pub fn declaration(&self) -> Declaration
        ensures { result ≡ declaration_of self.now }
    {
        self.comments.declaration
    }

    /// What further lines in front of its comments begin with.
    pub fn first_lines(&self) -> &'a [Bytes]
        ensures { result.now ≡ first_lines_of self.now }
    {
        self.comments.first_lines
    }

    /// The front matter that stays in front of its comments, if there is such.
    pub fn front_matter(&self) -> Option<FrontMatter<'a>>
        ensures { option_map front_matter_view result ≡ front_matter_of self.now }
    {
        self.comments.front_matter
    }

    /// The bytes that count as its punctuation.
    pub fn punctuation(&self) -> &'a [u8]
        ensures { result.now ≡ punctuation_of self.now }
    {
        self.punctuation
    }
}

/// What a file name says about comments in the file.
#[derive(Debug, Drop)]
pub enum Kind<'a> {
    /// The file has comments of this style.
    Style(Style<'a>),
    /// The file can hold no comment.
    Uncommentable,
    /// The table does not have the name.
    Unknown,
}

impl<'a> Kind<'a> {
    ghost use Rattle.std.specs.Prelude.{◌≡◌};
    ghost use Rattle.reuse_style.specs.StyleFile.{table_kind_named, kind_named};

    // The kind that a text names by itself, if it names one: a style's name, or `uncommentable`.
    pub(crate) fn of_name(name: &str) -> Option<Kind<'static>>
        ensures { result ≡ table_kind_named name.now }
    {
        if name == "uncommentable" {
            return Some(Kind::Uncommentable);
        }
        match Style::of_name(name) {
            None => None,
            Some(style) => Some(Kind::Style(style)),
        }
    }

    // The kind that a text names beside a project's own comments, if it names one.
    pub(crate) fn named(name: &str, comments: &'a CommentTable) -> Option<Kind<'a>>
        ensures { result ≡ kind_named comments.now name.now }
    {
        if let Some(kind) = Kind::of_name(name) {
            return Some(kind);
        }
        match comments.named(name) {
            None => None,
            Some(style) => Some(Kind::Style(style)),
        }
    }

    // The same kind, lent.
    pub(crate) fn lent(&self) -> Kind<'a>
        ensures { result ≡ self.now }
    {
        match self {
            Kind::Style(style) => Kind::Style(style.lent()),
            Kind::Uncommentable => Kind::Uncommentable,
            Kind::Unknown => Kind::Unknown,
        }
    }
}
