//! The strings of a `REUSE.toml`, as they are written (TOML 1.0, "String").
ghost use Rattle.std.specs.Prelude.{◌≡◌, ◌++◌, ◌+◌, ◌<◌, OnOk};
ghost use Rattle.reuse_toml.specs.TomlText.{hex_digit, escaped, quoted};

use std::alloc::AllocError;

/// A digit of 0 to 15, in capitals.
fn hexadecimal(digit: u8) -> u8
    requires { digit < 16 }
    ensures { result ≡ hex_digit digit }
{
    if digit < 10 {
        b'0' + digit
    } else {
        b'A' - 10 + digit
    }
}

/// Writes a byte of a basic string at the end.
fn push_escaped(out: &mut Vec<u8>, b: u8) -> Result<(), AllocError>
    ensures { OnOk result (out.new.items ≡ out.old.items ++ escaped b) }
{
    if b == b'"' {
        return out.extend_from_slice(b"\\\"");
    }
    if b == b'\\' {
        return out.extend_from_slice(b"\\\\");
    }
    if b == b'\n' {
        return out.extend_from_slice(b"\\n");
    }
    if b == b'\t' {
        return out.extend_from_slice(b"\\t");
    }
    if b < 32 || b == 127 {
        return out.extend_from_slice(&[
            b'\\',
            b'u',
            b'0',
            b'0',
            hexadecimal(b / 16),
            hexadecimal(b % 16),
        ]);
    }
    out.push(b)?;
    Ok(())
}

/// Writes a text as a basic string at the end.
pub fn push_quoted(out: &mut Vec<u8>, text: &[u8]) -> Result<(), AllocError>
    ensures { OnOk result (out.new.items ≡ out.old.items ++ quoted text.now) }
{
    out.push(b'"')?;
    for b in text {
        push_escaped(out, *b)?;
    }
    out.push(b'"')?;
    Ok(())
}
