//! Where the text of a header block goes in a file, and which endings set it off.
ghost use Rattle.std.specs.Prelude.{◌≡◌, ℕ, List, ◌+◌, ◌-◌, ◌≤◌, length, true, false, is_some, None};
ghost use Rattle.std.specs.Option.{option_map, option_map_or};
ghost use Rattle.reuse_text.specs.Text.{file_lines, mark_len_of};
ghost use Rattle.reuse_text.specs.Lines.{lines_left};
ghost use Rattle.reuse_header.specs.Body.{body_lines, place_in};
ghost use Rattle.reuse_header.specs.Found.{block_view};
ghost use Rattle.reuse_header.specs.Annotation.{begins_full, kind_of_file, edit_of};
ghost use Rattle.reuse_header.specs.Neighbour.{closed_lines, neighbour_end, neighbour_edit};
ghost use Rattle.reuse_header.specs.Drafts.{IsWithin, edit_at};
ghost use Rattle.reuse_style.specs.declared.style.Style.{Style};

use crate::body::{is_barrier, place_in};
use crate::finder::Block;
use crate::prefix::pass_prefix;
use reuse_style::Style;
use reuse_text::{Line, Lines, lines_are_one, mark_len};

// The range of a file that a block's text takes, and the endings round the text: one that ends the
// last line in front, and empty lines in front and behind.
#[derive(Clone, Copy)]
pub(crate) struct Place {
    pub(crate) start: usize,
    pub(crate) old_len: usize,
    pub(crate) ends_line: bool,
    pub(crate) empty_before: bool,
    pub(crate) empty_behind: bool,
}

impl Place {
    // The place of the bytes from `start` to `end`.
    pub(crate) fn of_range(start: usize, end: usize) -> Place
        requires { start ≤ end }
        ensures { result
            ≡ record {
              start = start;
              old_len = end - start;
              ends_line = false;
              empty_before = false;
              empty_behind = false;
            } }
    {
        Place {
            start,
            old_len: end - start,
            ends_line: false,
            empty_before: false,
            empty_behind: false,
        }
    }
}

// The place of the old block, if that is replaced, else behind the prefix lines.
#[tactic(auto, unfolding(crate::specs::Annotation::edit_of))]
pub(crate) fn file_place(file: &[u8], style: &Style<'_>, old: Option<Block>) -> Place
    requires { IsWithin file.now (option_map block_view old) }
    ensures edit { (text : List ℕ) → edit_at result (kind_of_file file.now) text ≡ edit_of style.now file.now
        (option_map block_view old.entry) text }
    ensures within { result.start + result.old_len ≤ length file.now }
{
    match old {
        Some(block) => Place::of_range(block.start, block.end),
        None => place_behind_prefix(file, style),
    }
}

// The place behind the prefix lines.
#[tactic(auto, unfolding(crate::specs::Annotation::edit_of))]
fn place_behind_prefix(file: &[u8], style: &Style<'_>) -> Place
    ensures edit { (text : List ℕ)
        → edit_at result (kind_of_file file.now) text ≡ edit_of style.now file.now None text }
    ensures within { result.start + result.old_len ≤ length file.now }
{
    places_fit();
    let prefix = pass_prefix(file, style);
    Place {
        start: place_in(file, prefix.rest),
        old_len: 0,
        ends_line: !is_ended(prefix.last),
        empty_before: prefix.last.is_some(),
        empty_behind: begins_full(prefix.rest),
    }
}

// Whether a line, if there is one, is ended.
fn is_ended(line: Option<Line>) -> bool
    ensures { result ≡ option_map_or (λ line. is_some line.ending) line.entry true }
{
    match line {
        None => true,
        Some(line) => line.ending.is_some(),
    }
}

// Whether there are lines, the first of them with a content.
fn begins_full(lines: Lines) -> bool
    ensures { result ≡ begins_full (lines_left lines.entry) }
{
    let mut rest = lines;
    match rest.next() {
        None => false,
        Some(line) => !line.content.is_empty(),
    }
}

// The place of a neighbour file's block, if that is replaced, else in front of it.
#[tactic(auto, unfolding(crate::specs::Neighbour::neighbour_edit))]
pub(crate) fn neighbour_place(file: &[u8], replace: bool) -> Place
    ensures edit { (text : List ℕ)
        → edit_at result (kind_of_file file.now) text ≡ neighbour_edit replace file.now text }
    ensures within { result.start + result.old_len ≤ length file.now }
{
    places_fit();
    let start = mark_len(file);
    if replace {
        return neighbour_range(file);
    }
    Place {
        start,
        old_len: 0,
        ends_line: false,
        empty_before: false,
        empty_behind: begins_full(Lines::new(file)),
    }
}

// The place of a neighbour file's block.
pub(crate) fn neighbour_range(file: &[u8]) -> Place
    ensures range { result
        ≡ record {
          start = mark_len_of file.now;
          old_len = neighbour_end file.now - mark_len_of file.now;
          ends_line = false;
          empty_before = false;
          empty_behind = false;
        } }
    ensures within { result.start + result.old_len ≤ length file.now }
{
    places_fit();
    Place::of_range(mark_len(file), neighbour_end(file))
}

// The place at which a neighbour file's block ends.
pub(crate) fn neighbour_end(file: &[u8]) -> usize
    ensures { result ≡ neighbour_end file.now }
{
    place_in(file, closed_lines(Lines::new(file)))
}

// The lines from the first barrier on.
fn closed_lines<'a>(lines: Lines<'a>) -> Lines<'a>
    ensures { lines_left result ≡ closed_lines (lines_left lines.entry) }
{
    let mut rest = lines;
    loop {
        let mut behind = rest;
        match behind.next() {
            Some(line) if !is_barrier(line.content) => rest = behind,
            _ => return rest,
        }
    }
}

// Where lines of a file begin is within the file, and not before its mark's end.
fn places_fit()
    ensures body { (style : Style) (file : List ℕ) → place_in file (body_lines style (file_lines file)) ≤ length file }
    ensures mark { (file : List ℕ) → mark_len_of file ≤ neighbour_end file }
    ensures end { (file : List ℕ) → neighbour_end file ≤ length file }
{
    lines_are_one();
}
