//! A text that a header may have beside its tags, as it is read from a file.
ghost use Rattle.std.specs.Prelude.{◌≡◌, IfOk, List, ℕ, map};
ghost use Rattle.std.specs.List.{list_any};
ghost use Rattle.reuse_text.specs.Lines.{lines_left};
ghost use Rattle.reuse_notice.specs.Tags.{is_blank, drop_end};
ghost use Rattle.reuse_header.specs.Tagged.{has_tag};
ghost use Rattle.reuse_header.specs.Body.{is_barrier};
ghost use Rattle.reuse_words.specs.Texts.{every_mark, is_control, lines_in, has_control, text_of_lines, text_of};
ghost use Rattle.reuse_words.specs.Texts.{IsExpectedText};

use crate::lists::push_all;
use reuse_header::{has_tag, is_barrier, is_text_file};
use reuse_notice::{Info, trim_blank_end};
use reuse_text::{Bytes, Lines};
use std::alloc::{AllocError, Global};
use std::marker::Model;
use thiserror::Error;

/// The most bytes of a file that is read as a text: 64 KiB.
pub const LONGEST_TEXT: usize = 65_536;

// The marks that a style's punctuation may have.
const EVERY_MARK: &[u8] = b"!\"#$%&'()*+,-./:;<=>?@[\\]^_`{|}~";

/// Why a file is no text of a header, in the order in which the reasons are looked for.
#[derive(Debug, Drop, Error)]
pub enum TextRefusal {
    /// The file is over 64 KiB.
    #[error("text is too long")]
    TooLong,
    /// The file is not UTF-8, or has a NUL byte.
    #[error("text is not UTF-8")]
    NotText,
    /// A line has a control byte other than a tab.
    #[error("text has a control byte")]
    ControlByte,
    /// A line would be a tag in some style.
    #[error("text has a tag")]
    HoldsTag,
    /// A line would end the part of a file that comment blocks are made of.
    #[error("text has a barrier")]
    HoldsBarrier,
    /// Each line is blank.
    #[error("text is empty")]
    Empty,
    /// A growth was refused.
    #[error("out of memory")]
    Memory(AllocError),
}

impl From<AllocError> for TextRefusal {
    ghost use Rattle.std.specs.Prelude.{◌≡◌};
    ghost use Rattle.reuse_words.specs.declared.text.TextRefusal.TheVariants.{Memory};

    ghost from_gives = { λ e r. r ≡ Memory e };

    fn from(e: AllocError) -> TextRefusal {
        TextRefusal::Memory(e)
    }
}

/// A text that a header may have beside its tags: its lines.
#[derive(Debug, Drop)]
pub struct HeaderText {
    lines: Vec<Bytes>,
}

impl Model for HeaderText {
    ghost Value = { List (List ℕ) };

    ghost view = { λ t. t.lines.items };
}

impl HeaderText {
    /// The text that a file is: its lines without blanks at their ends, and without blank ones at
    /// both ends. A byte order mark at its start is left out.
    ///
    /// # Errors
    /// The first reason in the order of `TextRefusal`.
    pub fn read(alloc: Global, file: &[u8]) -> Result<HeaderText, TextRefusal>
        ensures { IsExpectedText (text_of file.now) result }
    {
        if file.len() > LONGEST_TEXT {
            return Err(TextRefusal::TooLong);
        }
        if !is_text_file(file) {
            return Err(TextRefusal::NotText);
        }
        if has_control(file) {
            return Err(TextRefusal::ControlByte);
        }
        let lines = lines_in(alloc, file)?;
        read_lines(alloc, lines.as_slice())
    }

    /// The lines, in order.
    pub fn lines(&self) -> &[Bytes]
        ensures { result.now ≡ self.now }
    {
        self.lines.as_slice()
    }
}

// The text that lines are.
fn read_lines(alloc: Global, lines: &[&[u8]]) -> Result<HeaderText, TextRefusal>
    ensures { IsExpectedText (text_of_lines (map (λ line. line.now) lines.now)) result }
{
    if has_tag_among(lines) {
        return Err(TextRefusal::HoldsTag);
    }
    if has_barrier_among(lines) {
        return Err(TextRefusal::HoldsBarrier);
    }
    let info = Info::read(alloc, lines, b"")?;
    if info.free().is_empty() {
        return Err(TextRefusal::Empty);
    }
    let mut lines = Vec::new(alloc);
    push_all(alloc, &mut lines, info.free())?;
    Ok(HeaderText { lines })
}

// Whether a line has a tag, whatever the style.
fn has_tag_among(lines: &[&[u8]]) -> bool
    ensures { result ≡ list_any (has_tag every_mark) (map (λ line. line.now) lines.now) }
{
    let mut rest = lines;
    while let [line, others @ ..] = rest {
        if has_tag(line, EVERY_MARK) {
            return true;
        }
        rest = others;
    }
    false
}

// Whether a line is a barrier.
fn has_barrier_among(lines: &[&[u8]]) -> bool
    ensures { result ≡ list_any is_barrier (map (λ line. line.now) lines.now) }
{
    let mut rest = lines;
    while let [line, others @ ..] = rest {
        if is_barrier(line) {
            return true;
        }
        rest = others;
    }
    false
}

// The lines of a file, without blanks at their ends.
fn lines_in(alloc: Global, file: &[u8]) -> Result<Vec<&[u8]>, AllocError>
    ensures { IfOk result (λ list. map (λ line. line.now) list.items ≡ lines_in file.now) }
{
    let mut list = Vec::new(alloc);
    let mut rest = Lines::new(file);
    while let Some(line) = rest.next() {
        list.push(trim_blank_end(line.content))?;
    }
    Ok(list)
}

// Whether a line of a file has a control byte.
fn has_control(file: &[u8]) -> bool
    ensures { result ≡ has_control file.now }
{
    let mut rest = Lines::new(file);
    while let Some(line) = rest.next() {
        if has_control_byte(line.content) {
            return true;
        }
    }
    false
}

// Whether bytes have a control byte.
fn has_control_byte(bytes: &[u8]) -> bool
    ensures { result ≡ list_any is_control bytes.now }
{
    bytes.iter().any(|b| is_control(*b))
}

// Whether a byte is a control byte other than a tab.
fn is_control(b: u8) -> bool
    ensures { result ≡ is_control b }
{
    b < 32 && b != b'\t' || b == 127
}
