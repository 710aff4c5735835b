//! A `REUSE.toml` amended: strings in it are written anew, and all else stays byte for byte. The
//! new text is read back, and must be the old table with these values amended.
ghost use Rattle.std.specs.Prelude.{◌≡◌, ◌≤◌, ◌++◌, IfOk, OnOk, option_map, length, reverse, Some, ◌&&◌, nat_lt};
ghost use Rattle.std.specs.Prelude.{nat_eq, slice_index};
ghost use Rattle.toml.specs.View.{table_view};
ghost use Rattle.reuse_toml.specs.TomlText.{read_toml};
ghost use Rattle.reuse_toml.specs.TomlAnswers.{IsTomlAnswer};
ghost use Rattle.reuse_toml.specs.TomlAmending.{is_removed_piece, new_bytes, text_amended, same_front, same_end};
ghost use Rattle.reuse_toml.specs.TomlAmending.{change_behind, change_between, change_judged, text_judged};
ghost use Rattle.reuse_toml.specs.TomlAmending.{table_amended, toml_amendment_of};

use crate::toml_judge::{TomlLevel, are_members_amended};
use crate::toml_pieces::{piece_kind, split_piece};
use crate::toml_places::{TomlPlace, place_behind};
use crate::toml_values::{AmendTomlRefusal, NewPiece, amend_piece};
use reuse_amend::Amendments;
use reuse_text::{Bytes, LONGEST_FILE};
use std::alloc::{AllocError, Global};
use toml::Table;

/// A change of one range of a file's bytes.
#[derive(Debug, Drop)]
pub struct TomlSplice {
    /// Where the range begins.
    pub at: usize,
    /// How many bytes it has.
    pub old: usize,
    /// The bytes that take its place.
    pub new: Bytes,
}

// The table that bytes are, read as TOML.
fn read_table(alloc: Global, bytes: &[u8]) -> Result<Option<Table>, AllocError>
    ensures { IfOk result (λ found. read_toml bytes.now ≡ option_map table_view found) }
{
    match toml::table_from_slice(alloc, bytes) {
        Ok(table) => Ok(Some(table)),
        Err(error) => {
            if error.is_memory() {
                return Err(AllocError);
            }
            Ok(None)
        }
    }
}

// The text with its strings amended.
fn amend_text(
    alloc: Global,
    file: &[u8],
    amendments: &Amendments,
) -> Result<Bytes, AmendTomlRefusal>
    ensures { IsTomlAnswer (text_amended amendments.now file.now) result }
{
    let mut text = Bytes::new(alloc);
    let mut place = TomlPlace::Line(false);
    let mut rest = file;
    while !rest.is_empty() {
        let (piece, more) = split_piece(rest);
        let kind = piece_kind(piece);
        let new = match amend_piece(alloc, amendments, place, kind, piece) {
            Ok(new) => new,
            Err(refusal) => return Err(refusal),
        };
        place = place_behind(place, kind, piece, is_removed_piece(&new));
        push_piece(&mut text, piece, &new)?;
        rest = more;
    }
    Ok(text)
}

fn is_removed_piece(new: &NewPiece) -> bool
    ensures { result ≡ is_removed_piece new.now }
{
    matches!(new, NewPiece::Removed)
}

// Adds the bytes in the place of a piece.
fn push_piece(text: &mut Bytes, piece: &[u8], new: &NewPiece) -> Result<(), AllocError>
    ensures { OnOk result (text.new ≡ text.old ++ new_bytes piece.now new.now) }
{
    match new {
        NewPiece::Same => text.push_slice(piece),
        NewPiece::Removed => Ok(()),
        NewPiece::Changed(bytes) => text.push_slice(bytes.as_slice()),
    }
}

// Whether this byte stands at a place.
fn is_at(bytes: &[u8], i: usize, b: u8) -> bool
    ensures { result ≡ (nat_lt i (length bytes.now) && nat_eq b (slice_index bytes.now i)) }
{
    i < bytes.len() && b == bytes[i]
}

// How many bytes two texts begin with alike.
fn same_front(text: &[u8], other: &[u8]) -> usize
    ensures within { result ≤ length text.now }
    ensures within_other { result ≤ length other.now }
    ensures count { result ≡ same_front text.now other.now }
{
    for (i, b) in text.iter().enumerate() {
        if !is_at(other, i, *b) {
            return i;
        }
    }
    text.len()
}

// The bytes from the last one on.
fn reversed(alloc: Global, text: &[u8]) -> Result<Vec<u8>, AllocError>
    ensures { IfOk result (λ bytes. bytes.items ≡ reverse text.now) }
{
    let mut bytes = Vec::from_slice(alloc, text)?;
    bytes.reverse();
    Ok(bytes)
}

// How many bytes two texts end with alike.
fn same_end(alloc: Global, text: &[u8], other: &[u8]) -> Result<usize, AllocError>
    ensures within { IfOk result (λ len. len ≤ length text.now) }
    ensures within_other { IfOk result (λ len. len ≤ length other.now) }
    ensures count { IfOk result (λ len. len ≡ same_end text.now other.now) }
{
    let backward = reversed(alloc, text)?;
    let other_backward = reversed(alloc, other)?;
    Ok(same_front(&backward, &other_backward))
}

// The shortest change of one range that makes the one text the other.
fn change_between(alloc: Global, file: &[u8], text: &[u8]) -> Result<TomlSplice, AllocError>
    ensures { IfOk result (λ change. change ≡ change_between file.now text.now) }
{
    let at = same_front(file, text);
    let old = &file[at..];
    let new = &text[at..];
    let end = same_end(alloc, old, new)?;
    Ok(TomlSplice {
        at,
        old: old.len() - end,
        new: Bytes::from_slice(alloc, &new[..new.len() - end])?,
    })
}

// The change, if the new table is the amended one; none if it is the same table.
fn judge_tables(
    alloc: Global,
    file: &[u8],
    amendments: &Amendments,
    text: &[u8],
    old: &Table,
    new: &Table,
) -> Result<Option<TomlSplice>, AmendTomlRefusal>
    ensures { IsTomlAnswer (change_judged amendments.now file.now text.now (table_view old.now)
        (Some (table_view new.now))) result }
{
    if !are_members_amended(alloc, amendments, TomlLevel::Document, old, new)? {
        return Err(AmendTomlRefusal::CannotBeAmended);
    }
    if are_members_amended(alloc, amendments, TomlLevel::Plain, old, new)? {
        return Ok(None);
    }
    Ok(Some(change_between(alloc, file, text)?))
}

// The same, if the text is read as a table.
fn judge_read(
    alloc: Global,
    file: &[u8],
    amendments: &Amendments,
    old: &Table,
    text: &[u8],
) -> Result<Option<TomlSplice>, AmendTomlRefusal>
    ensures { IsTomlAnswer (change_judged amendments.now file.now text.now (table_view old.now)
        (read_toml text.now)) result }
{
    match read_table(alloc, text)? {
        None => Err(AmendTomlRefusal::CannotBeAmended),
        Some(new) => judge_tables(alloc, file, amendments, text, old, &new),
    }
}

// The same, if the text isn't too long.
fn judge_text(
    alloc: Global,
    file: &[u8],
    amendments: &Amendments,
    old: &Table,
    text: &[u8],
) -> Result<Option<TomlSplice>, AmendTomlRefusal>
    ensures { IsTomlAnswer (text_judged amendments.now file.now (table_view old.now) text.now) result }
{
    if text.len() > LONGEST_FILE {
        return Err(AmendTomlRefusal::TooLong);
    }
    judge_read(alloc, file, amendments, old, text)
}

// The change of a file that is read as a table.
fn amend_table(
    alloc: Global,
    file: &[u8],
    amendments: &Amendments,
    old: &Table,
) -> Result<Option<TomlSplice>, AmendTomlRefusal>
    ensures { IsTomlAnswer (table_amended amendments.now file.now (Some (table_view old.now))) result }
{
    match amend_text(alloc, file, amendments) {
        Err(refusal) => Err(refusal),
        Ok(text) => judge_text(alloc, file, amendments, old, text.as_slice()),
    }
}

/// The change of one range of bytes that amends a `REUSE.toml`, or none where no value changes.
///
/// Values of `SPDX-License-Identifier` and `SPDX-FileCopyrightText` in `[[annotations]]` are
/// amended, each by itself. A value that is removed from a list goes, with the comma behind it.
///
/// # Errors
/// `BadExpression` where a licence leaves the grammar, and `TooLong` where the result is over 16
/// MiB. `CannotBeAmended` where the file is no TOML in UTF-8, where a string on several lines or
/// one that stands alone would have to go or to change, and where the new text, read back, isn't
/// the old table with these values amended.
pub fn amend_toml(
    alloc: Global,
    file: &[u8],
    amendments: &Amendments,
) -> Result<Option<TomlSplice>, AmendTomlRefusal>
    ensures { IsTomlAnswer (toml_amendment_of amendments.now file.now) result }
{
    match read_table(alloc, file)? {
        None => Err(AmendTomlRefusal::CannotBeAmended),
        Some(old) => amend_table(alloc, file, amendments, &old),
    }
}
