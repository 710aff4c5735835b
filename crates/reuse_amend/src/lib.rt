//! Amendments: what a command changes in the licensing information of a file. Licences are replaced
//! within expressions, holders and contributors as a whole, and notices get other years and another
//! prefix.
#![tactic(auto)]

mod amend_laws;
mod amending;
mod amendments;
mod named;
mod notice_parts;
mod replacements;
mod replacing;
mod searched;
mod year_spans;

pub use amend_laws::{
    additions_stay_additions, amended_years_include_the_old, expressions_have_one_meaning,
    licences_are_their_pieces, licences_replaced_in_turn_keep_their_meaning,
    notices_are_changed_in_place, replaced_licences_keep_their_meaning, replacing_texts_are_plain,
    second_amendments_change_nothing, second_amendments_of_written_notices_change_nothing,
    texts_settle_if_the_old_ones_do, the_same_is_said_by_the_same, unnamed_information_stays,
    unnamed_values_stay, what_is_named_is_left, written_notices_are_read, years_are_read_alike,
};
pub use amending::{amend_info, amend_one_contributor, amend_one_licence, amend_one_notice};
pub use amendments::{AmendRefusal, Amendments};
pub use named::{leaves_contributor, leaves_licence, leaves_notice};
pub use replacements::{Replacement, Replacements};
pub use searched::{holds_named, may_change};
