//! How names are shown: to a file or a pipe as they are, and on a terminal with no control byte, so
//! that a name can't drive it.
//!
//! Paths are printed so on standard output, and all lines of our own on standard error. JSON
//! escapes control bytes always.
ghost use Rattle.std.specs.Prelude.{◌≡◌, ◌<◌, if◌then◌else◌, IfOk, IfSome, OnOk};
ghost use Rattle.std.specs.List.{flat_map};
ghost use Rattle.std.specs.Io.KnownBytes.{Appends};
ghost use Rattle.reuse_shown.specs.ShownNames.{hex_digit, is_control, shown, shown_byte, shown_on_terminal};
ghost use Rattle.reuse_shown.specs.declared.shown_name.NameDisplay.TheVariants as names;

use reuse_text::Bytes;
use std::alloc::Global;
use std::fmt::Display;
use std::io::{self, Write};

/// How the bytes of names are shown.
#[derive(Clone, Copy, PartialEq, Eq)]
pub enum NameDisplay {
    /// As they are.
    AsTheyAre,
    /// A control byte as `\x1B`, by its two hexadecimal digits.
    Escaped,
}

impl NameDisplay {
    /// As a terminal needs it, or as they are.
    pub fn on(is_terminal: bool) -> NameDisplay
        ensures { result ≡ (if is_terminal then names.Escaped else names.AsTheyAre) }
    {
        if is_terminal {
            NameDisplay::Escaped
        } else {
            NameDisplay::AsTheyAre
        }
    }
}

/// Prints a name.
pub fn print_name<W: Write>(out: &mut W, names: NameDisplay, name: &[u8]) -> io::Result<()>
    ensures { OnOk result (Appends (W.contents out.old) (W.contents out.new) (shown names name.now)) }
{
    match names {
        NameDisplay::AsTheyAre => out.write_all(name),
        NameDisplay::Escaped => print_escaped(out, name),
    }
}

fn print_escaped<W: Write>(out: &mut W, name: &[u8]) -> io::Result<()>
    ensures { OnOk result (Appends (W.contents out.old) (W.contents out.new) (shown_on_terminal name.now)) }
{
    for byte in name {
        print_byte(out, *byte)?;
    }
    Ok(())
}

fn print_byte<W: Write>(out: &mut W, byte: u8) -> io::Result<()>
    ensures { OnOk result (Appends (W.contents out.old) (W.contents out.new) (shown_byte byte)) }
{
    if is_control(byte) {
        out.write_all(&[b'\\', b'x', hex_digit(byte / 16), hex_digit(byte % 16)])
    } else {
        out.write_all(&[byte])
    }
}

fn is_control(byte: u8) -> bool
    ensures { result ≡ is_control byte }
{
    byte < 32 || byte == 127
}

fn hex_digit(value: u8) -> u8
    requires { value < 16 }
    ensures { result ≡ hex_digit value }
{
    if value < 10 { 48 + value } else { 55 + value }
}

/// The text of a value, as a terminal is to show it. It fails for an allocation failure.
pub fn text_on_terminal<T: Display>(alloc: Global, value: &T) -> io::Result<Bytes>
    ensures { IfOk result (λ text. IfSome (T.output value.now) (λ plain. text ≡ shown_on_terminal plain)) }
{
    let mut plain = Vec::new(alloc);
    write!(plain, "{value}")?;
    let mut shown = Vec::new(alloc);
    print_escaped(&mut shown, plain.as_slice())?;
    Ok(Bytes::from_vec(shown))
}
