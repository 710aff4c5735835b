//! The ready styles of names and the ready comments, the names of some paths with them, and what of
//! them goes into a tree's own files (`.reuse/styles.toml`, `.reuse/comments.toml`).
#![tactic(auto)]

mod additions;
mod comments;
mod name_count;
mod other_lines;
mod own_lines;
mod rule_lines;
mod rules;
mod table_lines;
mod tables;
mod texts;
mod uncommentable_lines;

pub use additions::{NameAddition, RuleAddition, StyleAdditions, TableAddition, additions_of};
pub use comments::READY_COMMENTS;
pub use name_count::{NameCount, name_of, tally};
pub use other_lines::OTHER_LINES;
pub use own_lines::{AddedLines, AdditionRefusal, OwnStyles, lines_added};
pub use rules::{READY_FRONTS, READY_NAME_RULES, READY_RULES};
pub use table_lines::TABLE_LINES;
pub use tables::{ReadyComment, ReadyLine, ReadyRule, has_ready_rules, ready_comment, ready_style};
pub use texts::{ready_comments_text, ready_styles_text};
pub use uncommentable_lines::UNCOMMENTABLE_LINES;
