//! What amendments leave of what they name, in any text. It includes what they could not change.
ghost use Rattle.std.specs.Prelude.{◌≡◌};
ghost use Rattle.reuse_tags.specs.Left.{left_by, has_licence, has_contributor, has_notice, has_in_line};
ghost use Rattle.reuse_tags.specs.Left.{leaves_values};

use crate::ignored::{ignores_next, read_part};
use crate::reading::{contributor_tag, licence_tag, notice_tag, value_of};
use reuse_amend::{Amendments, holds_named, leaves_contributor, leaves_licence, leaves_notice};
use reuse_text::Lines;

/// Whether a tag of a text has a value that the amendments leave, outside of
/// `REUSE-IgnoreStart .. REUSE-IgnoreEnd`.
#[tactic(auto, using(crate::proofs::LeftLemmas::unheld_text))]
pub fn leaves(amendments: &Amendments, text: &[u8]) -> bool
    ensures { result ≡ leaves_values amendments.now text.now }
{
    // Most texts hold nothing that is named, and need not be read line by line.
    holds_named(amendments, text) && leaves_in_lines(amendments, text)
}

// Whether a tag of one of its lines has.
#[tactic(auto, unfolding(crate::specs::Left::has_in_lines))]
fn leaves_in_lines(amendments: &Amendments, text: &[u8]) -> bool
    ensures { result ≡ leaves_values amendments.now text.now }
{
    let mut lines = Lines::new(text);
    let mut ignored = false;
    'lines: while let Some(line) = lines.next() {
        if leaves_in_line(amendments, ignored, line.content) {
            return true;
        }
        ignored = ignores_next(ignored, line.content);
    }
    false
}

// Whether a tag of a line has a value that the amendments leave, outside of a region that isn't
// read.
fn leaves_in_line(amendments: &Amendments, ignored: bool, line: &[u8]) -> bool
    ensures { result ≡ has_in_line (left_by amendments.now) ignored line.now }
{
    if ignored {
        return false;
    }
    let part = read_part(line);
    leaves_licence_in(amendments, part)
        || leaves_contributor_in(amendments, part)
        || leaves_notice_in(amendments, part)
}

// Whether the amendments leave the licence of a line.
fn leaves_licence_in(amendments: &Amendments, line: &[u8]) -> bool
    ensures { result ≡ has_licence (left_by amendments.now) line.now }
{
    match licence_tag(line) {
        None => false,
        Some(place) => leaves_licence(amendments, value_of(place)),
    }
}

// Whether they leave the contributor of a line.
fn leaves_contributor_in(amendments: &Amendments, line: &[u8]) -> bool
    ensures { result ≡ has_contributor (left_by amendments.now) line.now }
{
    match contributor_tag(line) {
        None => false,
        Some(place) => leaves_contributor(amendments, value_of(place)),
    }
}

// Whether they leave the notice of a line.
fn leaves_notice_in(amendments: &Amendments, line: &[u8]) -> bool
    ensures { result ≡ has_notice (left_by amendments.now) line.now }
{
    match notice_tag(line) {
        None => false,
        Some(place) => leaves_notice(amendments, value_of(place)),
    }
}
