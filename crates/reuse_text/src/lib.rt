//! Lines, byte order mark, line ending and kind of text files, and an edit of one range of bytes.
#![tactic(auto)]

ghost use Rattle.std.specs.Prelude.{◌≡◌, ◌+◌, ◌-◌, ◌^◌, ◌<◌, ◌≤◌, ◌↔◌, IsTrue, IfOk, All, List, ℕ, length, take, drop};
ghost use Rattle.std.specs.Prelude.{◌∷◌, ◌==◌};
ghost use Rattle.std.specs.List.{after_last};
ghost use Rattle.reuse_text.specs.Text.{IsText, TextLine, AreLines, text_of, lines_of, after_mark, mark_len_of};
ghost use Rattle.reuse_text.specs.Text.{kind_of, ending_bytes, file_lines, StandsIn, spliced};

mod bytes;
mod difference;

pub use bytes::Bytes;
pub use difference::{Difference, difference_of};
use memchr::{memchr, memrchr};
use simdutf8::is_utf8_baseline;
use std::alloc::{AllocError, Global};

/// The most bytes of a file that is read to be changed, or that is made: 16 MiB.
pub const LONGEST_FILE: usize = 16_777_216;

/// The ending of a line: LF or CR LF.
#[derive(Clone, Copy, Debug, PartialEq, Eq)]
pub enum LineKind {
    Lf,
    Crlf,
}

/// A line of a text: the place of its first byte, its content, and its ending, which a last line
/// may lack.
#[derive(Clone, Copy, Debug)]
pub struct Line<'a> {
    pub start: usize,
    pub content: &'a [u8],
    pub ending: Option<LineKind>,
}

/// The lines of a text, in order. The mark at the text's start belongs to none.
#[derive(Clone, Copy, Debug)]
pub struct Lines<'a> {
    text: &'a [u8],
    start: usize,
    ghost within: { start ≤ length text.now },
}

impl<'a> Lines<'a> {
    ghost use Rattle.reuse_text.specs.Lines.{lines_left};

    /// The lines of `text`, whose places count from its first byte.
    pub fn new(text: &'a [u8]) -> Lines<'a>
        ensures { lines_left result ≡ file_lines text.now }
    {
        let start = mark_len(text);
        Lines { text, start }
    }
}

impl<'a> Iterator for Lines<'a> {
    ghost use Rattle.std.specs.Iterator.{YieldsFirstBy, item_count};
    ghost use Rattle.reuse_text.specs.Lines.{line_view, lines_left};

    type Item = Line<'a>;

    ghost next_gives = { YieldsFirstBy line_view lines_left };

    ghost remaining = { item_count lines_left };

    fn next(&mut self) -> Option<Line<'a>> {
        let start = self.start;
        let rest = &self.text[start..];
        if rest.is_empty() {
            return None;
        }
        let (content_len, ending) = first_line(rest);
        self.start = start + content_len + ending_len(ending);
        Some(Line {
            start,
            content: &rest[..content_len],
            ending,
        })
    }
}

// The length of the first line's content, and its ending.
fn first_line(text: &[u8]) -> (usize, Option<LineKind>)
    requires { 0 < length text.now }
    ensures within { result.0 + length (ending_bytes result.1) ≤ length text.now }
    ensures first { lines_of text.now ≡ record { content = take result.0 text.now; ending = result.1 }
        ∷ lines_of (drop (result.0 + length (ending_bytes result.1)) text.now) }
{
    match memchr(b'\n', text) {
        None => (text.len(), None),
        Some(feed) => {
            if feed > 0 && text[feed - 1] == b'\r' {
                (feed - 1, Some(LineKind::Crlf))
            } else {
                (feed, Some(LineKind::Lf))
            }
        }
    }
}

// How many bytes an ending has.
fn ending_len(ending: Option<LineKind>) -> usize
    ensures { result ≡ length (ending_bytes ending) }
{
    match ending {
        None => 0,
        Some(LineKind::Lf) => 1,
        Some(LineKind::Crlf) => 2,
    }
}

/// The ending of the first line of `text` that has one, and LF if none has.
pub fn line_kind(text: &[u8]) -> LineKind
    ensures { result ≡ kind_of (lines_of (after_mark text.now)) }
{
    match Lines::new(text).next() {
        None => LineKind::Lf,
        Some(line) => line.ending.unwrap_or(LineKind::Lf),
    }
}

/// How many bytes of `file` are its byte order mark: 3 or 0.
pub fn mark_len(file: &[u8]) -> usize
    ensures length { result ≡ mark_len_of file.now }
    ensures within { result ≤ length file.now }
{
    if file.starts_with(b"\xEF\xBB\xBF") {
        3
    } else {
        0
    }
}

/// Whether `file` is UTF-8 without a NUL byte.
pub fn is_text(file: &[u8]) -> bool
    ensures { IsTrue result ↔ IsText file.now }
{
    memchr(0, file).is_none() && is_utf8_baseline(file)
}

/// The bytes of `file` with `new` in the place of the `old_len` bytes from `at` on.
pub fn splice(
    alloc: Global,
    file: &[u8],
    at: usize,
    old_len: usize,
    new: &[u8],
) -> Result<Vec<u8>, AllocError>
    requires within { at + old_len ≤ length file.now }
    requires fits { length file.now - old_len + length new.now < 2 ^ 64 }
    ensures { IfOk result (λ bytes. bytes.items ≡ spliced file.now at old_len new.now) }
{
    let mut bytes = Vec::with_capacity(alloc, file.len() - old_len + new.len())?;
    bytes.extend_from_slice(&file[..at])?;
    bytes.extend_from_slice(new)?;
    bytes.extend_from_slice(&file[at + old_len..])?;
    Ok(bytes)
}

/// What stands after the last slash of a path, or all of it where it has none.
pub fn last_part(path: &[u8]) -> &[u8]
    ensures { result.now ≡ after_last (λ b. b == 47) path.now }
{
    match memrchr(b'/', path) {
        None => path,
        Some(slash) => &path[slash + 1..],
    }
}

/// The lines of a text are the one list of well-formed lines that joins to it, and each stands in
/// its file at the place that it has.
pub fn lines_are_one()
    ensures joined { (text : List ℕ) → text_of (lines_of text) ≡ text }
    ensures well_formed { (text : List ℕ) → AreLines (lines_of text) }
    ensures only { (text : List ℕ) (lines : List TextLine) → AreLines lines → text_of lines ≡ text
        → lines ≡ lines_of text }
    ensures placed { (file : List ℕ) → All (StandsIn file) (file_lines file) }
{}
