//! Comment styles: their marks, and which marks are good; the style that a name of a file has by
//! the table of names, and the names that a project gives styles itself (`.reuse/styles.toml`).
#![tactic(auto)]

mod comment_rules;
mod comment_table;
mod comment_texts;
mod comments_refusal;
mod documents;
mod glob;
mod laws;
mod mark;
mod marks;
mod named_style;
mod own_comments;
mod own_prefix;
mod own_style;
mod prefix_marks;
mod rule;
mod rule_texts;
mod search;
mod style;
mod style_file;
mod style_refusal;
mod style_table;
mod table;

pub use comment_rules::CommentRules;
pub use comments_refusal::CommentsRefusal;
pub use glob::{Glob, GlobPiece, Letters};
pub use laws::{
    comment_documents_are_stated, own_names_stand_first, own_rules_name_styles,
    own_styles_have_their_marks, punctuation_keeps_tags, rules_stand_behind_own_names,
    style_documents_are_stated,
};
pub use marks::{
    BlockComment, Comments, Declaration, Form, FrontMatter, LineComment, MarksFault, marks_fault,
    punctuation_of,
};
pub use named_style::NamedStyle;
pub use prefix_marks::begins_with_one;
pub use rule::Rule;
pub use search::{find_text, holds};
pub use style::{Kind, Style};
pub use style_refusal::StylesRefusal;
pub use style_table::StyleTable;
pub use table::{NAMES, STYLES, TableKind, TableStyle, ending, style_names, style_of};
