//! Copyright notices, contributors and licences of a file: the tags of a comment, what a command
//! adds, and their merge, after REUSE Specification 3.3.
#![tactic(auto)]

mod adding;
mod blanks;
mod expressions;
mod infos;
mod laws;
mod merging;
mod prefixes;
mod tags;
mod text_lists;
mod trims;

pub use adding::{Additions, NoticeRefusal, copy_text, has_part, is_unfit, push_year, trim_spaces};
pub use blanks::{is_all_blank, is_all_filler, is_blank_byte, trim_blank_end, trim_blank_start};
pub use expressions::{
    BadExpression, Token, check_expression, count_token, find_fault, read_token,
};
pub use infos::Info;
pub use laws::{
    faults_are_the_grammars, holders_are_values, longest_prefix_counts, longest_years_count,
    merged_notices_are_one, merged_notices_are_written, merging_keeps_holders,
    repeating_adds_nothing, sets_are_one,
};
pub use prefixes::Prefix;
pub use tags::{LONGEST_FIRST, Notice, Tag, Years, has_value_behind, parse_year, read_tag};
pub use text_lists::{TextSet, Texts, is_among};
pub use trims::{trim_end_with, trim_start_with};
