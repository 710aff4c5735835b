//! The text of the `REUSE.toml` that says what a dep5 says (REUSE Specification 3.3, "REUSE.toml").
ghost use Rattle.std.specs.Prelude.{◌≡◌, ◌++◌, map, flat_map, ℕ, Vec, OnOk, IfOk};
ghost use Rattle.std.specs.declared.alloc.Global.{Global};
ghost use Rattle.reuse_dep5.specs.PatternValue.{PatternValue};
ghost use Rattle.reuse_dep5.specs.Translation.{translated};
ghost use Rattle.reuse_toml.specs.GlobText.{glob_text};
ghost use Rattle.reuse_toml.specs.TomlText.{quoted};
ghost use Rattle.reuse_dep5.specs.ReuseTable.{more_items, list_text, key_line, text_line, annotation_of};
ghost use Rattle.reuse_dep5.specs.ReuseTable.{annotation_text, header_text, toml_text};

use crate::convert::translate_pieces;
use crate::dep5::{Dep5, FilesParagraph, Header};
use crate::pattern::Pattern;
use reuse_toml::{push_quoted, written_glob};
use std::alloc::{AllocError, Global};

/// Writes the items of a list after its first at the end.
fn push_more_items(out: &mut Vec<u8>, texts: &[Vec<u8>]) -> Result<(), AllocError>
    ensures { OnOk result
        (out.new.items ≡ out.old.items ++ more_items (map (λ (t : Vec ℕ Global). t.items) texts.now)) }
{
    for text in texts {
        out.extend_from_slice(b", ")?;
        push_quoted(out, text)?;
    }
    Ok(())
}

/// Writes a list of texts at the end.
fn push_list(out: &mut Vec<u8>, texts: &[Vec<u8>]) -> Result<(), AllocError>
    ensures { OnOk result (out.new.items ≡ out.old.items ++ list_text (map (λ (t : Vec ℕ Global). t.items) texts.now)) }
{
    let Some((first, more)) = texts.split_first() else {
        return out.extend_from_slice(b"[]");
    };
    if more.is_empty() {
        return push_quoted(out, first);
    }
    out.extend_from_slice(b"[")?;
    push_quoted(out, first)?;
    push_more_items(out, more)?;
    out.extend_from_slice(b"]")
}

/// Writes a line with a text at the end, where the text is not empty.
fn push_text_line(out: &mut Vec<u8>, key: &[u8], text: &[u8]) -> Result<(), AllocError>
    ensures { OnOk result (out.new.items ≡ out.old.items ++ text_line key.now text.now) }
{
    if text.is_empty() {
        return Ok(());
    }
    push_quoted_line(out, key, text)
}

/// Writes a line with a text at the end.
fn push_quoted_line(out: &mut Vec<u8>, key: &[u8], text: &[u8]) -> Result<(), AllocError>
    ensures { OnOk result (out.new.items ≡ out.old.items ++ key_line key.now (quoted text.now)) }
{
    out.extend_from_slice(key)?;
    out.extend_from_slice(b" = ")?;
    push_quoted(out, text)?;
    out.extend_from_slice(b"\n")
}

/// Writes a line with a list of texts at the end.
fn push_list_line(out: &mut Vec<u8>, key: &[u8], texts: &[Vec<u8>]) -> Result<(), AllocError>
    ensures { OnOk result (out.new.items ≡ out.old.items ++ key_line key.now
        (list_text (map (λ (t : Vec ℕ Global). t.items) texts.now))) }
{
    out.extend_from_slice(key)?;
    out.extend_from_slice(b" = ")?;
    push_list(out, texts)?;
    out.extend_from_slice(b"\n")
}

/// The globs of patterns without `?`, as they are written.
pub(crate) fn written_globs(alloc: Global, patterns: &[Pattern]) -> Result<Vec<Vec<u8>>, AllocError>
    ensures { IfOk result (λ texts. map (λ (t : Vec ℕ Global). t.items) texts.items ≡ map glob_text
        (map (λ (p : PatternValue). translated p.pieces) patterns.now)) }
{
    let mut texts = Vec::new(alloc);
    for pattern in patterns {
        let pieces = translate_pieces(alloc, &pattern.pieces)?;
        let text = written_glob(alloc, &pieces)?;
        texts.push(text)?;
    }
    Ok(texts)
}

/// Writes the `[[annotations]]` of a `Files` paragraph without `?` at the end.
fn push_annotation(
    alloc: Global,
    out: &mut Vec<u8>,
    paragraph: &FilesParagraph,
) -> Result<(), AllocError>
    ensures { OnOk result (out.new.items ≡ out.old.items ++ annotation_text (annotation_of paragraph.now)) }
{
    let paths = written_globs(alloc, &paragraph.patterns)?;
    out.extend_from_slice(b"\n[[annotations]]\n")?;
    push_list_line(out, b"path", &paths)?;
    push_quoted_line(out, b"precedence", b"aggregate")?;
    push_list_line(out, b"SPDX-FileCopyrightText", &paragraph.notices)?;
    push_quoted_line(out, b"SPDX-License-Identifier", &paragraph.license)?;
    push_text_line(out, b"SPDX-FileComment", &paragraph.comment)?;
    Ok(())
}

/// Writes the `[[annotations]]` of `Files` paragraphs without `?` at the end.
fn push_annotations(
    alloc: Global,
    out: &mut Vec<u8>,
    files: &[FilesParagraph],
) -> Result<(), AllocError>
    ensures { OnOk result (out.new.items ≡ out.old.items ++ flat_map annotation_text (map annotation_of files.now)) }
{
    for paragraph in files {
        push_annotation(alloc, out, paragraph)?;
    }
    Ok(())
}

/// Writes the lines of a header at the end.
fn push_header(out: &mut Vec<u8>, header: &Header) -> Result<(), AllocError>
    ensures { OnOk result (out.new.items ≡ out.old.items ++ header_text header.now) }
{
    push_text_line(out, b"SPDX-PackageName", &header.name)?;
    push_text_line(out, b"SPDX-PackageSupplier", &header.contact)?;
    push_text_line(out, b"SPDX-PackageDownloadLocation", &header.source)?;
    push_text_line(out, b"SPDX-PackageComment", &header.comment)?;
    Ok(())
}

/// The text of the `REUSE.toml` that says what a dep5 without `?` says.
pub(crate) fn written_dep5(alloc: Global, dep5: &Dep5) -> Result<Vec<u8>, AllocError>
    ensures { IfOk result (λ text. text.items ≡ toml_text dep5.now) }
{
    let mut out = Vec::new(alloc);
    out.extend_from_slice(b"version = 1\n")?;
    push_header(&mut out, &dep5.header)?;
    push_annotations(alloc, &mut out, &dep5.files)?;
    Ok(out)
}
