//! The paragraphs of a dep5: the header, `Files` paragraphs and stand-alone licences.
ghost use Rattle.std.specs.Prelude.{◌≡◌, ◌||◌, IfOk, option_to_list};
ghost use Rattle.reuse_dep5.specs.SourceText.{is_nil};
ghost use Rattle.reuse_dep5.specs.Fields.{text_of, value_of};
ghost use Rattle.reuse_dep5.specs.Answers.{IsAnswer};
ghost use Rattle.reuse_dep5.specs.PatternText.{words_of};
ghost use Rattle.reuse_dep5.specs.Dep5.{first_number, files_value, header_of, files_of, later_of};

use crate::dep5::{FilesParagraph, Header};
use crate::faults::first_line_fault;
use crate::fields::{find_value, first_text, value_lines, value_text};
use crate::parse::parse_patterns;
use crate::refusal::{Dep5Cause, Dep5Refusal};
use crate::source::{SourceLine, next_word};
use std::alloc::{AllocError, Global};

/// The number of a paragraph's first line.
fn number_of(lines: &[SourceLine]) -> usize
    ensures { result ≡ first_number lines.now }
{
    match lines.first() {
        None => 0,
        Some(line) => line.number,
    }
}

/// The text of the first field of this name.
fn find_text(alloc: Global, lines: &[SourceLine], name: &[u8]) -> Result<Vec<u8>, AllocError>
    ensures { IfOk result (λ text. text.items ≡ text_of (value_of name.now lines.now)) }
{
    let value = find_value(alloc, lines, name)?;
    value_text(alloc, &value)
}

/// Whether a list has no element.
pub(crate) fn has_none<T>(items: &[T]) -> bool
    ensures { result ≡ is_nil items.now }
{
    match items.first() {
        None => true,
        Some(_) => false,
    }
}

/// The header.
pub(crate) fn read_header(alloc: Global, lines: &[SourceLine]) -> Result<Header, Dep5Refusal>
    ensures { IsAnswer (λ header. header) result (header_of lines.now) }
{
    let fault = first_line_fault(alloc, lines)?;
    if let Some(refusal) = fault {
        return Err(refusal);
    }
    let format = find_text(alloc, lines, b"Format")?;
    if has_none(&format) {
        return Err(Dep5Refusal::BadDep5(number_of(lines), Dep5Cause::NoFormat));
    }
    let name = find_text(alloc, lines, b"Upstream-Name")?;
    let contact = find_text(alloc, lines, b"Upstream-Contact")?;
    let source = find_text(alloc, lines, b"Source")?;
    let comment = find_text(alloc, lines, b"Comment")?;
    Ok(Header {
        name,
        contact,
        source,
        comment,
    })
}

/// Whether a value has no word.
fn has_no_word(value: &[SourceLine]) -> bool
    ensures { result ≡ is_nil (words_of value.now) }
{
    for line in value {
        if next_word(line.content).is_some() {
            return false;
        }
    }
    true
}

/// Whether a `Files` paragraph lacks a pattern, a notice or a short name.
fn lacks_part(files: &[SourceLine], notices: &[Vec<u8>], license: &[u8]) -> bool
    ensures { result ≡ ((is_nil (words_of files.now) || is_nil notices.now) || is_nil license.now) }
{
    has_no_word(files) || has_none(notices) || has_none(license)
}

/// A `Files` paragraph, by the value of its `Files`.
fn read_files(
    alloc: Global,
    lines: &[SourceLine],
    files: &[SourceLine],
) -> Result<FilesParagraph, Dep5Refusal>
    requires { files.now ≡ files_value lines.now }
    ensures { IsAnswer (λ paragraph. paragraph) result (files_of lines.now) }
{
    let copyright = find_value(alloc, lines, b"Copyright")?;
    let notices = value_lines(alloc, &copyright)?;
    let licenses = find_value(alloc, lines, b"License")?;
    let license = first_text(alloc, &licenses)?;
    if lacks_part(files, &notices, &license) {
        return Err(Dep5Refusal::BadDep5(number_of(lines), Dep5Cause::Missing));
    }
    let patterns = parse_patterns(alloc, files)?;
    let comment = find_text(alloc, lines, b"Comment")?;
    Ok(FilesParagraph {
        patterns,
        notices,
        license,
        comment,
    })
}

/// A paragraph after the header: a `Files` paragraph, or none where it is a stand-alone licence.
pub(crate) fn read_later(
    alloc: Global,
    lines: &[SourceLine],
) -> Result<Option<FilesParagraph>, Dep5Refusal>
    ensures { IsAnswer option_to_list result (later_of lines.now) }
{
    let fault = first_line_fault(alloc, lines)?;
    if let Some(refusal) = fault {
        return Err(refusal);
    }
    let files = find_value(alloc, lines, b"Files")?;
    if has_none(&files) {
        let licenses = find_value(alloc, lines, b"License")?;
        if has_none(&licenses) {
            return Err(Dep5Refusal::BadDep5(number_of(lines), Dep5Cause::NoKind));
        }
        return Ok(None);
    }
    let paragraph = read_files(alloc, lines, &files)?;
    Ok(Some(paragraph))
}
