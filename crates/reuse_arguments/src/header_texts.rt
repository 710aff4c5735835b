//! The texts of headers that a line names by files: those that `annotate` adds, or `amend` takes out.
ghost use Rattle.std.specs.Prelude.{◌≡◌, IfOk, IfSome, map, string_bytes};
ghost use Rattle.reuse_words.specs.Texts.{text_of};
ghost use Rattle.reuse_arguments.specs.HeaderTexts.{any_bytes, text_read, HasText, HaveTexts, IsWithTexts};
ghost use Rattle.reuse_arguments.specs.LineFaults.{IsExpected};

use crate::line::{Line, LineFault};
use crate::request::set_header_texts;
use reuse_command::command::HeaderTexts;
use reuse_system::reading::read_front;
use reuse_words::{HeaderText, LONGEST_TEXT, TextRefusal};
use std::alloc::Global;
use std::fs;
use std::io::{self, ErrorKind, Read};
use std::rt::Files;

/// What has the files of texts. What it gives for a file it says itself. So the texts of a line are
/// what was given for just the files that it names.
pub trait TextSource {
    ghost use Rattle.std.specs.Prelude.{ℕ, List, IfOk};

    /// It may give these bytes for a file of this name.
    ghost gives: { Self → List ℕ → List ℕ → Type 0 };

    /// The bytes of a file. Of a longer one than a text may have, only so many that it is too long.
    fn bytes_of(&self, alloc: Global, file: &str) -> io::Result<Vec<u8>>
        ensures { IfOk result (λ bytes. gives self.now file.now bytes.items) };
}

/// The files of the working folder, and standard input as `-`.
#[derive(Clone, Copy)]
pub struct WorkingFiles<'a, R> {
    rt: &'a R,
}

impl<'a, R> WorkingFiles<'a, R> {
    /// Those of this system.
    pub fn of(rt: &'a R) -> WorkingFiles<'a, R> {
        WorkingFiles { rt }
    }
}

impl<'a, R: Files + Input> TextSource for WorkingFiles<'a, R> {
    ghost gives = { λ _. any_bytes };

    fn bytes_of(&self, alloc: Global, file: &str) -> io::Result<Vec<u8>> {
        if file == "-" {
            front_of(self.rt.reader(), alloc)
        } else {
            front_of(fs::open(self.rt, file)?, alloc)
        }
    }
}

/// The bytes that a reader has, or more of them than a text may have. They are the same text as all,
/// or refused as all would be.
fn front_of<R: Read + Drop>(reader: R, alloc: Global) -> io::Result<Vec<u8>>
    ensures { IfOk result (λ front. IfSome (R.remaining reader) (λ bytes. text_of front.items ≡ text_of bytes)) }
{
    read_front(reader, alloc, LONGEST_TEXT as u64 + 1)
}

/// The line with the texts that the files hold, in their order. The first file that can't be read,
/// or holds no text, is a fault.
pub fn with_header_texts<S: TextSource>(
    source: &S,
    alloc: Global,
    line: Line,
    files: &[String],
) -> Result<Line, LineFault>
    ensures { IsWithTexts (S.gives source.now) (map string_bytes files.now) line result }
{
    if files.is_empty() {
        return Ok(line);
    }
    let mut line = line;
    match texts_of(source, alloc, files) {
        Ok(texts) => {
            set_header_texts(&mut line.request, HeaderTexts::new(texts));
            Ok(line)
        }
        Err(fault) => {
            drop(line);
            Err(fault)
        }
    }
}

fn texts_of<S: TextSource>(
    source: &S,
    alloc: Global,
    files: &[String],
) -> Result<Vec<HeaderText>, LineFault>
    ensures { HaveTexts (S.gives source.now) (map string_bytes files.now) result }
{
    let mut texts = Vec::new(alloc);
    for file in files {
        texts.push(text_in(source, alloc, file.as_str())?)?;
    }
    Ok(texts)
}

// The text that a file holds.
fn text_in<S: TextSource>(source: &S, alloc: Global, file: &str) -> Result<HeaderText, LineFault>
    ensures { HasText (S.gives source.now) file.now result }
{
    match source.bytes_of(alloc, file) {
        Ok(bytes) => read_text(alloc, file, &bytes),
        Err(error) if error.kind() == ErrorKind::OutOfMemory => Err(LineFault::Memory),
        Err(_) => Err(LineFault::Unreadable(String::from_str(alloc, file)?)),
    }
}

// The text that the bytes of a file are.
fn read_text(alloc: Global, file: &str, bytes: &[u8]) -> Result<HeaderText, LineFault>
    ensures { IsExpected (text_read file.now bytes.now) result }
{
    match HeaderText::read(alloc, bytes) {
        Ok(text) => Ok(text),
        Err(TextRefusal::Memory(_)) => Err(LineFault::Memory),
        Err(refusal) => Err(LineFault::BadText(String::from_str(alloc, file)?, refusal)),
    }
}
