//! The prefix lines of a file: those that stay in front of its header block. They are passed in one
//! go, and the last of them is kept.
ghost use Rattle.std.specs.Prelude.{◌≡◌, List, Option, drop, take};
ghost use Rattle.std.specs.Option.{option_map, option_to_list};
ghost use Rattle.reuse_text.specs.Text.{file_lines};
ghost use Rattle.reuse_text.specs.Lines.{line_view, lines_left};
ghost use Rattle.reuse_style.specs.MarkViews.{front_matter_view};
ghost use Rattle.reuse_header.specs.Body.{is_shebang, declares, is_declaration, without_first, first_lines_count};
ghost use Rattle.reuse_header.specs.Body.{is_whole_line, count_to, front_matter_count, body_lines};
ghost use Rattle.reuse_header.specs.Annotation.{first_if, prefix_lines};
ghost use Rattle.reuse_header.specs.Passed.{IsLastOf, LeadsTo};

use crate::search::has_tag;
use reuse_notice::trim_blank_end;
use reuse_style::{Declaration, FrontMatter, Style, begins_with_one, holds};
use reuse_text::{Bytes, Line, Lines};

// Lines that were passed, by the last of them, if there is one, and the lines behind them.
#[derive(Clone, Copy, Debug)]
pub(crate) struct Passed<'a> {
    pub(crate) last: Option<Line<'a>>,
    pub(crate) rest: Lines<'a>,
}

// Passes the prefix lines of a file.
#[tactic(auto, unfolding(crate::specs::Body::body_lines, crate::specs::Annotation::prefix_lines))]
pub(crate) fn pass_prefix<'a>(file: &'a [u8], style: &Style<'_>) -> Passed<'a>
    ensures rest { lines_left result.rest ≡ body_lines style.now (file_lines file.now) }
    ensures last { IsLastOf result.last (prefix_lines style.now (file_lines file.now)) }
{
    let shebang = pass_shebang(Lines::new(file));
    let declaration = pass_declaration(shebang.rest, style);
    let first = pass_first_lines(declaration.rest, style.first_lines());
    let matter = pass_front_matter(first.rest, style.front_matter());
    Passed {
        last: matter
            .last
            .or(first.last)
            .or(declaration.last)
            .or(shebang.last),
        rest: matter.rest,
    }
}

// Passes an interpreter line.
#[tactic(auto, unfolding(crate::specs::Body::is_shebang))]
fn pass_shebang<'a>(lines: Lines<'a>) -> Passed<'a>
    ensures rest { lines_left result.rest ≡ without_first is_shebang (lines_left lines.entry) }
    ensures last { option_to_list (option_map line_view result.last) ≡ first_if is_shebang (lines_left lines.entry) }
{
    let mut rest = lines;
    match rest.next() {
        Some(line) if line.content.starts_with(b"#!") => Passed {
            last: Some(line),
            rest,
        },
        _ => none_passed(lines),
    }
}

// Passes a line that has to stay in front in the style.
fn pass_declaration<'a>(lines: Lines<'a>, style: &Style<'_>) -> Passed<'a>
    ensures rest { lines_left result.rest ≡ without_first (is_declaration style.now) (lines_left lines.entry) }
    ensures last { option_to_list (option_map line_view result.last) ≡ first_if (is_declaration style.now)
        (lines_left lines.entry) }
{
    let mut rest = lines;
    match rest.next() {
        Some(line) if is_declaration(line.content, style) => Passed {
            last: Some(line),
            rest,
        },
        _ => none_passed(lines),
    }
}

// No line passed.
fn none_passed<'a>(lines: Lines<'a>) -> Passed<'a>
    ensures { result ≡ record { last = Option.None; rest = lines.entry } }
{
    Passed {
        last: None,
        rest: lines,
    }
}

// Passes the lines that begin with one of some beginnings.
#[tactic(auto, unfolding(crate::specs::Body::first_lines_count))]
fn pass_first_lines<'a>(lines: Lines<'a>, beginnings: &[Bytes]) -> Passed<'a>
    ensures rest { lines_left result.rest ≡ drop
        (first_lines_count beginnings.now (lines_left lines.entry))
        (lines_left lines.entry) }
    ensures last { IsLastOf result.last
        (take (first_lines_count beginnings.now (lines_left lines.entry))
        (lines_left lines.entry)) }
{
    let mut passed = none_passed(lines);
    if beginnings.is_empty() {
        return passed;
    }
    loop {
        let mut behind = passed.rest;
        match behind.next() {
            Some(line) if begins_with_one(beginnings, line.content) => {
                passed = Passed {
                    last: Some(line),
                    rest: behind,
                };
            }
            _ => return passed,
        }
    }
}

// Passes front matter.
#[tactic(auto, unfolding(crate::specs::Body::front_matter_count))]
fn pass_front_matter<'a>(lines: Lines<'a>, matter: Option<FrontMatter<'_>>) -> Passed<'a>
    ensures rest { lines_left result.rest ≡ drop
        (front_matter_count (option_map front_matter_view matter.entry) (lines_left lines.entry))
        (lines_left lines.entry) }
    ensures last { IsLastOf result.last
        (take (front_matter_count (option_map front_matter_view matter.entry) (lines_left lines.entry))
        (lines_left lines.entry)) }
{
    let Some(matter) = matter else {
        return none_passed(lines);
    };
    let mut behind = lines;
    match behind.next() {
        Some(line) if is_whole_line(line.content, matter.first_line) => {
            match pass_to(behind, matter.last_line) {
                None => none_passed(lines),
                Some(passed) => passed,
            }
        }
        _ => none_passed(lines),
    }
}

// Passes the lines up to the first that is a text as a whole, if one is.
#[tactic(auto, unfolding(crate::specs::Body::count_to))]
pub(crate) fn pass_to<'a>(lines: Lines<'a>, text: &[u8]) -> Option<Passed<'a>>
    ensures { LeadsTo result (count_to text.now (lines_left lines.entry)) (lines_left lines.entry) }
{
    let mut rest = lines;
    while let Some(line) = rest.next() {
        if is_whole_line(line.content, text) {
            return Some(Passed {
                last: Some(line),
                rest,
            });
        }
    }
    None
}

// Whether a line is a text as a whole, blanks at its end apart.
#[tactic(auto, unfolding(crate::specs::Body::is_whole_line))]
pub(crate) fn is_whole_line(content: &[u8], text: &[u8]) -> bool
    ensures { result ≡ is_whole_line text.now content.now }
{
    trim_blank_end(content) == text
}

// Whether a line has to stay in front in the style.
#[tactic(auto, unfolding(crate::specs::Body::is_declaration, crate::specs::Body::declares))]
fn is_declaration(content: &[u8], style: &Style<'_>) -> bool
    ensures { result ≡ is_declaration style.now content.now }
{
    match style.declaration() {
        Declaration::Nothing => false,
        Declaration::Encoding => is_encoding(content),
        Declaration::PhpTag => content.starts_with(b"<?php"),
        Declaration::XmlDeclaration => content.starts_with(b"<?xml"),
    }
}

// Whether a line gives the encoding of a Python file.
#[tactic(auto, unfolding(crate::specs::Body::declares))]
fn is_encoding(content: &[u8]) -> bool
    ensures { result ≡ declares Declaration.Encoding content.now }
{
    content.starts_with(b"#")
        && !has_tag(content, b"#")
        && (holds(content, b"coding:") || holds(content, b"coding="))
}
