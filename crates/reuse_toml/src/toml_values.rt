//! What amendments make of a value of a `REUSE.toml`, and of the string that writes it.
ghost use Rattle.std.specs.Prelude.{◌≡◌, IfOk, OnOk, ◌++◌, option_map, Some};
ghost use Rattle.std.specs.Option.{option_and_then};
ghost use Rattle.toml.specs.Data.{as_str};
ghost use Rattle.toml.specs.View.{view};
ghost use Rattle.toml.specs.Parse.{parse_value};
ghost use Rattle.reuse_amend.specs.AmendmentViews.{IsAnswer};
ghost use Rattle.reuse_toml.specs.TomlValues.{notice_lead, without_lead, value_amended, value_written, spelled};
ghost use Rattle.reuse_toml.specs.TomlValues.{is_literal, goes_over_lines, respelled, piece_becomes, string_amended};
ghost use Rattle.reuse_toml.specs.TomlValues.{unless_removed, piece_amended};
ghost use Rattle.reuse_toml.specs.TomlAnswers.{IsTomlAnswer};

use crate::toml_pieces::{PieceKind, is_multi_line};
use crate::toml_places::{TomlKey, TomlPlace};
use crate::toml_text::push_quoted;
use reuse_amend::{AmendRefusal, Amendments, amend_one_licence, amend_one_notice};
use reuse_text::Bytes;
use std::alloc::{AllocError, Global};
use thiserror::Error;
use toml::Value;

const NOTICE_LEAD: &[u8] = b"SPDX-FileCopyrightText: ";

/// Why a `REUSE.toml` is not amended.
#[derive(Debug, Drop, Error)]
pub enum AmendTomlRefusal {
    /// A licence would leave the grammar.
    #[error("bad licence expression")]
    BadExpression,
    /// The text can't be changed so that it is read as the amended table.
    #[error("cannot be amended")]
    CannotBeAmended,
    /// The result would be over 16 MiB.
    #[error("too long")]
    TooLong,
    /// There was no memory.
    #[error("out of memory")]
    Memory(AllocError),
}

impl From<AllocError> for AmendTomlRefusal {
    ghost use Rattle.reuse_toml.specs.declared.toml_values.AmendTomlRefusal.TheVariants.{Memory};

    ghost from_gives = { λ e r. r ≡ Memory e };

    fn from(e: AllocError) -> AmendTomlRefusal {
        AmendTomlRefusal::Memory(e)
    }
}

/// What becomes of a piece.
#[derive(Debug, Drop)]
pub(crate) enum NewPiece {
    /// It stays.
    Same,
    /// It goes.
    Removed,
    /// These bytes take its place.
    Changed(Bytes),
}

// ---- values

// A notice without the lead of a comment, if it has it.
fn without_lead(text: &[u8]) -> &[u8]
    ensures { result.now ≡ without_lead text.now }
{
    if text.starts_with(NOTICE_LEAD) {
        return &text[24..];
    }
    text
}

// A notice with the lead of a comment.
fn with_lead(alloc: Global, value: &[u8]) -> Result<Bytes, AllocError>
    ensures { IfOk result (λ text. text ≡ notice_lead ++ value.now) }
{
    let mut text = Bytes::from_slice(alloc, NOTICE_LEAD)?;
    text.push_slice(value)?;
    Ok(text)
}

// A notice without the lead, if there is a notice.
fn drop_lead(alloc: Global, notice: Option<Bytes>) -> Result<Option<Bytes>, AllocError>
    ensures { IfOk result (λ value. value ≡ option_map without_lead notice) }
{
    match notice {
        None => Ok(None),
        Some(text) => Ok(Some(Bytes::from_slice(alloc, without_lead(text.as_slice()))?)),
    }
}

// What becomes of a value of `SPDX-FileCopyrightText`.
fn amend_notice_value(
    alloc: Global,
    amendments: &Amendments,
    value: &[u8],
) -> Result<Option<Bytes>, AllocError>
    ensures { IfOk result (λ new. value_amended amendments.now TomlKey.Notice value.now ≡ Some new) }
{
    let text = with_lead(alloc, value)?;
    let new = amend_one_notice(alloc, text.as_slice(), amendments)?;
    drop_lead(alloc, new)
}

// What becomes of a value: none where it is removed.
pub(crate) fn amend_value(
    alloc: Global,
    amendments: &Amendments,
    key: TomlKey,
    value: &[u8],
) -> Result<Option<Bytes>, AmendRefusal>
    ensures { IsAnswer (value_amended amendments.now key value.now) result }
{
    match key {
        TomlKey::Licence => amend_one_licence(alloc, value, amendments),
        TomlKey::Notice => Ok(amend_notice_value(alloc, amendments, value)?),
    }
}

// ---- strings

// The value that a text of TOML is.
fn read_value(alloc: Global, text: &str) -> Result<Option<Value>, AllocError>
    ensures { IfOk result (λ found. parse_value text.now ≡ option_map view found) }
{
    match Value::from_str(alloc, text) {
        Ok(value) => Ok(Some(value)),
        Err(error) => {
            if error.is_memory() {
                return Err(AllocError);
            }
            Ok(None)
        }
    }
}

// The text that a value is.
fn text_of(alloc: Global, value: &Value) -> Result<Option<Bytes>, AllocError>
    ensures { IfOk result (λ text. text ≡ as_str (view value.now)) }
{
    match value.as_str() {
        None => Ok(None),
        Some(text) => Ok(Some(Bytes::from_slice(alloc, text.as_bytes())?)),
    }
}

// The text that a text of TOML writes.
fn read_text(alloc: Global, text: &str) -> Result<Option<Bytes>, AllocError>
    ensures { IfOk result (λ value. value ≡ option_and_then as_str (parse_value text.now)) }
{
    match read_value(alloc, text)? {
        None => Ok(None),
        Some(value) => text_of(alloc, &value),
    }
}

// The value that a string writes.
fn read_string(alloc: Global, piece: &[u8]) -> Result<Option<Bytes>, AllocError>
    ensures { IfOk result (λ value. value ≡ value_written piece.now) }
{
    match str::from_utf8(piece) {
        Err(_) => Ok(None),
        Ok(text) => read_text(alloc, text),
    }
}

fn is_literal(piece: &[u8]) -> bool
    ensures { result ≡ is_literal piece.now }
{
    match piece.split_first() {
        None => false,
        Some((b, _)) => *b == b'\'',
    }
}

fn goes_over_lines(piece: &[u8]) -> bool
    ensures { result ≡ goes_over_lines piece.now }
{
    match piece.split_first() {
        None => false,
        Some((b, _)) => is_multi_line(*b, piece),
    }
}

// The string that writes a value.
fn spell(alloc: Global, is_literal: bool, value: &[u8]) -> Result<Bytes, AllocError>
    ensures { IfOk result (λ text. text ≡ spelled is_literal value.now) }
{
    let mut text = Vec::new(alloc);
    if is_literal {
        text.extend_from_slice(b"'")?;
        text.extend_from_slice(value)?;
        text.extend_from_slice(b"'")?;
    } else {
        push_quoted(&mut text, value)?;
    }
    Ok(Bytes::from_vec(text))
}

fn respell(
    alloc: Global,
    piece: &[u8],
    value: &[u8],
    new: &[u8],
) -> Result<NewPiece, AmendTomlRefusal>
    ensures { IsTomlAnswer (respelled piece.now value.now new.now) result }
{
    if new == value {
        return Ok(NewPiece::Same);
    }
    if goes_over_lines(piece) {
        return Err(AmendTomlRefusal::CannotBeAmended);
    }
    Ok(NewPiece::Changed(spell(alloc, is_literal(piece), new)?))
}

fn amend_string_of(
    alloc: Global,
    amendments: &Amendments,
    key: TomlKey,
    piece: &[u8],
    value: &[u8],
) -> Result<NewPiece, AmendTomlRefusal>
    ensures { IsTomlAnswer (piece_becomes piece.now value.now (value_amended amendments.now key value.now)) result }
{
    match amend_value(alloc, amendments, key, value) {
        Ok(None) => Ok(NewPiece::Removed),
        Ok(Some(new)) => respell(alloc, piece, value, new.as_slice()),
        Err(AmendRefusal::BadExpression) => Err(AmendTomlRefusal::BadExpression),
        Err(AmendRefusal::Memory(e)) => Err(AmendTomlRefusal::Memory(e)),
    }
}

// What becomes of a string that is a value of the key.
fn amend_string(
    alloc: Global,
    amendments: &Amendments,
    key: TomlKey,
    piece: &[u8],
) -> Result<NewPiece, AmendTomlRefusal>
    ensures { IsTomlAnswer (string_amended amendments.now key piece.now (value_written piece.now)) result }
{
    match read_string(alloc, piece)? {
        None => Err(AmendTomlRefusal::CannotBeAmended),
        Some(value) => amend_string_of(alloc, amendments, key, piece, value.as_slice()),
    }
}

// A string that stands alone can't be removed.
fn amend_single(
    alloc: Global,
    amendments: &Amendments,
    key: TomlKey,
    piece: &[u8],
) -> Result<NewPiece, AmendTomlRefusal>
    ensures { IsTomlAnswer (unless_removed (string_amended amendments.now key piece.now
        (value_written piece.now))) result }
{
    match amend_string(alloc, amendments, key, piece) {
        Ok(NewPiece::Removed) => Err(AmendTomlRefusal::CannotBeAmended),
        other => other,
    }
}

/// What becomes of a piece at its place.
pub(crate) fn amend_piece(
    alloc: Global,
    amendments: &Amendments,
    place: TomlPlace,
    kind: PieceKind,
    piece: &[u8],
) -> Result<NewPiece, AmendTomlRefusal>
    ensures { IsTomlAnswer (piece_amended amendments.now place kind piece.now) result }
{
    match (place, kind) {
        (TomlPlace::Value(key), PieceKind::Text) => amend_single(alloc, amendments, key, piece),
        (TomlPlace::Values(key, _), PieceKind::Text) => amend_string(alloc, amendments, key, piece),
        (TomlPlace::Values(_, true), PieceKind::Comma) => Ok(NewPiece::Removed),
        _ => Ok(NewPiece::Same),
    }
}
