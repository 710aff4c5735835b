//! Whether the marks of prefix lines are good: no comment that is written is taken for one of them.
ghost use Rattle.std.specs.Prelude.{◌≡◌, ◌&&◌, not, true, is_none};
ghost use Rattle.std.specs.List.{list_all};
ghost use Rattle.std.specs.Option.{option_map_or};
ghost use Rattle.std.specs.Str.{bytes_eq};
ghost use Rattle.reuse_text.specs.Text.{is_empty};
ghost use Rattle.reuse_style.specs.Marks.{is_plain, mark_fault, if_line, if_block, begins_with_one, are_beginnings};
ghost use Rattle.reuse_style.specs.Marks.{begin_unlike_first_lines, is_front_matter, prefix_fault};
ghost use Rattle.reuse_style.specs.MarkViews.{front_matter_view, comments_view};

use crate::mark::{is_plain, mark_fault};
use crate::marks::{Comments, FrontMatter, MarksFault};
use reuse_text::Bytes;

// What is wrong with the marks of prefix lines.
#[tactic(auto, unfolding(crate::specs::Marks::prefix_fault))]
pub(crate) fn prefix_fault(comments: Comments<'_>) -> Option<MarksFault>
    ensures { result ≡ prefix_fault (comments_view comments.entry) }
{
    if !are_beginnings(comments.first_lines) || !begin_unlike_first_lines(comments) {
        Some(MarksFault::FirstLines)
    } else if !has_front_matter(comments) {
        Some(MarksFault::FrontMatter)
    } else {
        None
    }
}

// Whether first lines begin with printable ASCII.
fn are_beginnings(mut beginnings: &[Bytes]) -> bool
    ensures { result ≡ are_beginnings beginnings.entry.now }
{
    while let [beginning, others @ ..] = beginnings {
        if !is_plain(beginning.as_slice()) || beginning.is_empty() {
            return false;
        }
        beginnings = others;
    }
    true
}

// Whether no comment that is written begins as a first line does.
fn begin_unlike_first_lines(comments: Comments<'_>) -> bool
    ensures { result ≡ begin_unlike_first_lines (comments_view comments.entry) }
{
    leads_unlike_first_lines(comments) && opens_unlike_first_lines(comments)
}

fn leads_unlike_first_lines(comments: Comments<'_>) -> bool
    ensures { result ≡ if_line (λ line. not (begins_with_one (comments_view comments.entry).first_lines line.lead))
        (comments_view comments.entry) }
{
    match comments.line {
        None => true,
        Some(line) => !begins_with_one(comments.first_lines, line.lead),
    }
}

fn opens_unlike_first_lines(comments: Comments<'_>) -> bool
    ensures { result ≡ if_block (λ block. not (begins_with_one (comments_view comments.entry).first_lines block.opener))
        (comments_view comments.entry) }
{
    match comments.block {
        None => true,
        Some(block) => !begins_with_one(comments.first_lines, block.opener),
    }
}

/// Whether a text begins with one of some beginnings.
pub fn begins_with_one(mut beginnings: &[Bytes], text: &[u8]) -> bool
    ensures { result ≡ begins_with_one beginnings.entry.now text.now }
{
    while let [beginning, others @ ..] = beginnings {
        if text.starts_with(beginning.as_slice()) {
            return true;
        }
        beginnings = others;
    }
    false
}

// Whether the front matter, if there is such, is good.
fn has_front_matter(comments: Comments<'_>) -> bool
    ensures { result ≡ option_map_or (is_front_matter (comments_view comments.entry))
        (comments_view comments.entry).front_matter true }
{
    match comments.front_matter {
        None => true,
        Some(matter) => is_front_matter(comments, matter),
    }
}

fn is_front_matter(comments: Comments<'_>, matter: FrontMatter<'_>) -> bool
    ensures { result ≡ is_front_matter (comments_view comments.entry) (front_matter_view matter.entry) }
{
    mark_fault(matter.first_line).is_none()
        && mark_fault(matter.last_line).is_none()
        && !begins_with_one(comments.first_lines, matter.first_line)
        && opens_unlike(comments, matter.first_line)
}

// Whether no comment is opened by a text.
fn opens_unlike(comments: Comments<'_>, text: &[u8]) -> bool
    ensures { result ≡ if_block (λ block. not (bytes_eq block.opener text.now)) (comments_view comments.entry) }
{
    match comments.block {
        None => true,
        Some(block) => block.opener != text,
    }
}
