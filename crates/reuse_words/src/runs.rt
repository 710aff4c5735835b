//! Where a text stands among contents, contents with it and without it.
ghost use Rattle.std.specs.Prelude.{◌≡◌, ◌≤◌, ◌+◌, IfOk, IfSome, length};
ghost use Rattle.std.specs.Option.{option_map};
ghost use Rattle.reuse_words.specs.Runs.{words_behind, run_count, first_run, run_of, holds_text, without_run};
ghost use Rattle.reuse_words.specs.Runs.{with_text, without_text};

use crate::lists::push_all;
use crate::words::{rows_of, words_of};
use reuse_text::Bytes;
use std::alloc::{AllocError, Global};

/// Contents that follow one another: the place of the first, and how many they are.
#[derive(Clone, Copy, Debug)]
pub struct Run {
    pub start: usize,
    pub count: usize,
}

/// Whether contents hold a text: a run of them is the same text, or it has no words. `punct` is the
/// punctuation of their comment's style.
pub fn holds_text(
    alloc: Global,
    contents: &[Bytes],
    text: &[Bytes],
    punct: &[u8],
) -> Result<bool, AllocError>
    ensures { IfOk result (λ answer. answer ≡ holds_text punct.now text.now contents.now) }
{
    let words = words_of(alloc, text, punct)?;
    Ok(words.is_empty() || run_of(alloc, contents, text, punct)?.is_some())
}

/// Contents with a text behind them, and an empty content in between, where they don't hold it yet.
pub fn with_text(
    alloc: Global,
    contents: Vec<Bytes>,
    text: &[Bytes],
    punct: &[u8],
) -> Result<Vec<Bytes>, AllocError>
    ensures { IfOk result (λ made. made.items ≡ with_text punct.now text.now contents.items) }
{
    let mut contents = contents;
    if holds_text(alloc, contents.as_slice(), text, punct)? {
        return Ok(contents);
    }
    if !contents.is_empty() {
        contents.push(Bytes::new(alloc))?;
    }
    push_all(alloc, &mut contents, text)?;
    Ok(contents)
}

/// Contents without the first run of them that is the same text. All stay where none is.
pub fn without_text(
    alloc: Global,
    contents: Vec<Bytes>,
    text: &[Bytes],
    punct: &[u8],
) -> Result<Vec<Bytes>, AllocError>
    ensures { IfOk result (λ made. made.items ≡ without_text punct.now text.now contents.items) }
{
    match run_of(alloc, contents.as_slice(), text, punct)? {
        None => Ok(contents),
        Some(run) => without_run(alloc, contents.as_slice(), run),
    }
}

// The contents without a run of them.
fn without_run(alloc: Global, contents: &[Bytes], run: Run) -> Result<Vec<Bytes>, AllocError>
    requires { run.start + run.count ≤ length contents.now }
    ensures { IfOk result (λ made. made.items ≡ without_run contents.now run) }
{
    let mut made = Vec::new(alloc);
    push_all(alloc, &mut made, &contents[..run.start])?;
    push_all(alloc, &mut made, &contents[run.start + run.count..])?;
    Ok(made)
}

/// The first run of contents that is the same text as another one, which has words.
#[tactic(auto, unfolding(crate::specs::Runs::run_of))]
pub fn run_of(
    alloc: Global,
    contents: &[Bytes],
    text: &[Bytes],
    punct: &[u8],
) -> Result<Option<Run>, AllocError>
    ensures run { IfOk result (λ run. run ≡ run_of punct.now text.now contents.now) }
    ensures within { IfOk result (λ run. IfSome run (λ run. run.start + run.count ≤ length contents.now)) }
{
    let words = words_of(alloc, text, punct)?;
    if words.is_empty() {
        return Ok(None);
    }
    let rows = rows_of(alloc, contents, punct)?;
    Ok(first_run(words.as_slice(), rows.as_slice()))
}

// The run of rows with these words that begins at the least row.
#[tactic(auto, unfolding(crate::specs::Runs::first_run))]
fn first_run(words: &[u8], rows: &[Bytes]) -> Option<Run>
    ensures { result ≡ first_run words.now rows.now }
{
    let mut rest = rows;
    let mut start = 0;
    while let [row, others @ ..] = rest {
        if !row.is_empty() {
            if let Some(count) = run_count(words, rest) {
                return Some(Run { start, count });
            }
        }
        start += 1;
        rest = others;
    }
    None
}

// How many rows, from the first on, have these words together.
#[tactic(auto, unfolding(crate::specs::Runs::run_count))]
fn run_count(words: &[u8], rows: &[Bytes]) -> Option<usize>
    ensures { result ≡ run_count words.now rows.now }
{
    let mut left = words;
    let mut rest = rows;
    let mut count = 0;
    while !left.is_empty() {
        let [row, others @ ..] = rest else {
            return None;
        };
        left = behind(row.as_slice(), left)?;
        rest = others;
        count += 1;
    }
    Some(count)
}

// The words that are left behind those of a row, if they begin with these.
fn behind<'a>(row: &[u8], words: &'a [u8]) -> Option<&'a [u8]>
    ensures { option_map (λ left. left.now) result ≡ words_behind row.now words.now }
{
    if words.starts_with(row) {
        Some(&words[row.len()..])
    } else {
        None
    }
}
