//! The name of a file in a diff.
ghost use Rattle.std.specs.Prelude.{◌≡◌, ◌&&◌, ◌==◌, not, OnOk};
ghost use Rattle.std.specs.List.{flat_map, list_any};
ghost use Rattle.std.specs.Io.KnownBytes.{Appends};
ghost use Rattle.reuse_diff.specs.DiffText.{escape_letter, is_printable, is_quoted, name_text, plain_text, quoted_text};

use reuse_change::PathText;
use std::io::{self, Write};

/// Prints a path behind `a/` or `b/`, quoted as git quotes it.
pub fn print_name<W: Write>(out: &mut W, side: &str, path: &PathText) -> io::Result<()>
    ensures { OnOk result (Appends (W.contents out.old) (W.contents out.new) (name_text side.now path.now)) }
{
    if !is_name_quoted(path) {
        return write!(out, "{side}{}", path.text());
    }
    write!(out, "\"{side}")?;
    print_quoted(out, path.as_bytes())?;
    write!(out, "\"")
}

/// Whether a path stands in quotes: if a byte of it does.
pub fn is_name_quoted(path: &PathText) -> bool
    ensures { result ≡ list_any is_quoted path.now }
{
    path.as_bytes().iter().any(|byte| is_quoted(*byte))
}

/// Whether a path has a space, and stands without quotes.
pub fn is_name_spaced(path: &PathText) -> bool
    ensures { result ≡ (list_any (λ byte. byte == 32) path.now && not (list_any is_quoted path.now)) }
{
    has_space(path) && !is_name_quoted(path)
}

fn has_space(path: &PathText) -> bool
    ensures { result ≡ list_any (λ byte. byte == 32) path.now }
{
    path.as_bytes().iter().any(|byte| *byte == b' ')
}

// Whether a name with this byte stands in quotes.
fn is_quoted(byte: u8) -> bool
    ensures { result ≡ is_quoted byte }
{
    !is_printable(byte) || byte == b'"' || byte == b'\\'
}

fn is_printable(byte: u8) -> bool
    ensures { result ≡ is_printable byte }
{
    b' ' <= byte && byte <= b'~'
}

fn print_quoted<W: Write>(out: &mut W, bytes: &[u8]) -> io::Result<()>
    ensures { OnOk result (Appends (W.contents out.old) (W.contents out.new) (flat_map quoted_text bytes.now)) }
{
    for byte in bytes {
        print_byte(out, *byte)?;
    }
    Ok(())
}

fn print_byte<W: Write>(out: &mut W, byte: u8) -> io::Result<()>
    ensures { OnOk result (Appends (W.contents out.old) (W.contents out.new) (quoted_text byte)) }
{
    match escape_letter(byte) {
        Some(letter) => out.write_all(&[b'\\', letter]),
        None => print_plain(out, byte),
    }
}

fn print_plain<W: Write>(out: &mut W, byte: u8) -> io::Result<()>
    ensures { OnOk result (Appends (W.contents out.old) (W.contents out.new) (plain_text byte)) }
{
    if is_printable(byte) {
        return out.write_all(&[byte]);
    }
    out.write_all(&[
        b'\\',
        b'0' + byte / 64,
        b'0' + byte / 8 % 8,
        b'0' + byte % 8,
    ])
}

// The letter that stands for a byte behind a backslash.
fn escape_letter(byte: u8) -> Option<u8>
    ensures { result ≡ escape_letter byte }
{
    match byte {
        b'"' => Some(b'"'),
        b'\\' => Some(b'\\'),
        7 => Some(b'a'),
        8 => Some(b'b'),
        b'\t' => Some(b't'),
        b'\n' => Some(b'n'),
        11 => Some(b'v'),
        12 => Some(b'f'),
        b'\r' => Some(b'r'),
        _ => None,
    }
}
