//! Where a piece of a `REUSE.toml` stands. It knows the headers `[[annotations]]`, the two keys
//! whose values are amended, and lists of values. All else is passed over with its brackets
//! counted. What it misses is found when the result is read back.
ghost use Rattle.std.specs.Prelude.{◌≡◌};
ghost use Rattle.std.specs.Prelude.{codes};
ghost use Rattle.reuse_toml.specs.TomlPlaces.{key_named, is_name, key_of_piece, behind_word, deeper, at_line};
ghost use Rattle.reuse_toml.specs.TomlPlaces.{in_header, in_array_header, behind_name, behind_key, at_value, in_values};
ghost use Rattle.reuse_toml.specs.TomlPlaces.{in_rest, place_behind};

use crate::toml_pieces::PieceKind;

/// A key whose values are amended.
#[derive(Clone, Copy, Debug, PartialEq, Eq)]
pub(crate) enum TomlKey {
    /// `SPDX-License-Identifier`
    Licence,
    /// `SPDX-FileCopyrightText`
    Notice,
}

/// Where the next piece stands.
#[derive(Clone, Copy, Debug, PartialEq, Eq)]
pub(crate) enum TomlPlace {
    /// At the start of a line, of `[[annotations]]` or not.
    Line(bool),
    /// Behind a line's `[`.
    Header,
    /// Behind a line's `[[`.
    ArrayHeader,
    /// Behind a line's `[[annotations`.
    Named,
    /// Behind the key.
    Key(TomlKey),
    /// Before the key's value.
    Value(TomlKey),
    /// In the key's list, behind a value that was removed or not.
    Values(TomlKey, bool),
    /// In what isn't amended, of `[[annotations]]` or not, with so many brackets open.
    Rest(bool, usize),
}

// The key with this name.
pub(crate) fn key_named(name: &str) -> Option<TomlKey>
    ensures { result ≡ key_named name.now }
{
    if name == "SPDX-License-Identifier" {
        Some(TomlKey::Licence)
    } else if name == "SPDX-FileCopyrightText" {
        Some(TomlKey::Notice)
    } else {
        None
    }
}

// The key that a piece is, as a word or between quotes.
fn key_of_piece(piece: &[u8]) -> Option<TomlKey>
    ensures { result ≡ key_of_piece piece.now }
{
    if is_licence_key(piece) {
        Some(TomlKey::Licence)
    } else if is_notice_key(piece) {
        Some(TomlKey::Notice)
    } else {
        None
    }
}

fn is_licence_key(piece: &[u8]) -> bool
    ensures { result ≡ is_name (codes "SPDX-License-Identifier") piece.now }
{
    piece == b"SPDX-License-Identifier".as_slice()
        || piece == b"\"SPDX-License-Identifier\"".as_slice()
        || piece == b"'SPDX-License-Identifier'".as_slice()
}

fn is_notice_key(piece: &[u8]) -> bool
    ensures { result ≡ is_name (codes "SPDX-FileCopyrightText") piece.now }
{
    piece == b"SPDX-FileCopyrightText".as_slice()
        || piece == b"\"SPDX-FileCopyrightText\"".as_slice()
        || piece == b"'SPDX-FileCopyrightText'".as_slice()
}

fn is_annotations(piece: &[u8]) -> bool
    ensures { result ≡ is_name (codes "annotations") piece.now }
{
    piece == b"annotations".as_slice()
        || piece == b"\"annotations\"".as_slice()
        || piece == b"'annotations'".as_slice()
}

fn behind_word(here: bool, piece: &[u8]) -> TomlPlace
    ensures { result ≡ behind_word here piece.now }
{
    if !here {
        return TomlPlace::Rest(false, 0);
    }
    match key_of_piece(piece) {
        None => TomlPlace::Rest(true, 0),
        Some(key) => TomlPlace::Key(key),
    }
}

fn deeper(depth: usize) -> usize
    ensures { result ≡ deeper depth }
{
    if depth < 1000 { depth + 1 } else { depth }
}

fn at_line(here: bool, kind: PieceKind, piece: &[u8]) -> TomlPlace
    ensures { result ≡ at_line here kind piece.now }
{
    match kind {
        PieceKind::Gap | PieceKind::LineEnd => TomlPlace::Line(here),
        PieceKind::Open => TomlPlace::Header,
        _ => behind_word(here, piece),
    }
}

fn in_header(kind: PieceKind) -> TomlPlace
    ensures { result ≡ in_header kind }
{
    match kind {
        PieceKind::Gap => TomlPlace::Header,
        PieceKind::Open => TomlPlace::ArrayHeader,
        _ => TomlPlace::Rest(false, 0),
    }
}

fn in_array_header(kind: PieceKind, piece: &[u8]) -> TomlPlace
    ensures { result ≡ in_array_header kind piece.now }
{
    match kind {
        PieceKind::Gap => TomlPlace::ArrayHeader,
        _ => {
            if is_annotations(piece) {
                TomlPlace::Named
            } else {
                TomlPlace::Rest(false, 0)
            }
        }
    }
}

fn behind_name(kind: PieceKind) -> TomlPlace
    ensures { result ≡ behind_name kind }
{
    match kind {
        PieceKind::Gap => TomlPlace::Named,
        PieceKind::Close => TomlPlace::Rest(true, 0),
        _ => TomlPlace::Rest(false, 0),
    }
}

fn behind_key(key: TomlKey, kind: PieceKind) -> TomlPlace
    ensures { result ≡ behind_key key kind }
{
    match kind {
        PieceKind::Gap => TomlPlace::Key(key),
        PieceKind::Equals => TomlPlace::Value(key),
        _ => TomlPlace::Rest(true, 0),
    }
}

fn at_value(key: TomlKey, kind: PieceKind) -> TomlPlace
    ensures { result ≡ at_value key kind }
{
    match kind {
        PieceKind::Gap => TomlPlace::Value(key),
        PieceKind::Open => TomlPlace::Values(key, false),
        PieceKind::OpenBrace => TomlPlace::Rest(true, 1),
        _ => TomlPlace::Rest(true, 0),
    }
}

fn in_values(key: TomlKey, before: bool, now: bool, kind: PieceKind) -> TomlPlace
    ensures { result ≡ in_values key before now kind }
{
    match kind {
        PieceKind::Gap | PieceKind::LineEnd => TomlPlace::Values(key, before),
        PieceKind::Text => TomlPlace::Values(key, now),
        PieceKind::Comma => TomlPlace::Values(key, false),
        PieceKind::Close => TomlPlace::Rest(true, 0),
        PieceKind::Open | PieceKind::OpenBrace => TomlPlace::Rest(true, 2),
        _ => TomlPlace::Rest(true, 1),
    }
}

fn in_rest(here: bool, depth: usize, kind: PieceKind) -> TomlPlace
    ensures { result ≡ in_rest here depth kind }
{
    match kind {
        PieceKind::Open | PieceKind::OpenBrace => TomlPlace::Rest(here, deeper(depth)),
        PieceKind::Close | PieceKind::CloseBrace => TomlPlace::Rest(here, depth.saturating_sub(1)),
        PieceKind::LineEnd => {
            if depth == 0 {
                TomlPlace::Line(here)
            } else {
                TomlPlace::Rest(here, depth)
            }
        }
        _ => TomlPlace::Rest(here, depth),
    }
}

// The place behind a piece, which was removed or not.
pub(crate) fn place_behind(
    place: TomlPlace,
    kind: PieceKind,
    piece: &[u8],
    removed: bool,
) -> TomlPlace
    ensures { result ≡ place_behind place kind piece.now removed }
{
    match place {
        TomlPlace::Line(here) => at_line(here, kind, piece),
        TomlPlace::Header => in_header(kind),
        TomlPlace::ArrayHeader => in_array_header(kind, piece),
        TomlPlace::Named => behind_name(kind),
        TomlPlace::Key(key) => behind_key(key, kind),
        TomlPlace::Value(key) => at_value(key, kind),
        TomlPlace::Values(key, before) => in_values(key, before, removed, kind),
        TomlPlace::Rest(here, depth) => in_rest(here, depth, kind),
    }
}
