//! Pieces of JSON text, put at the end of the text so far.
ghost use Rattle.std.specs.Prelude.{◌≡◌, ◌++◌, OnOk, decimal};
ghost use Rattle.std.specs.List.{list_all};
ghost use Rattle.json.specs.Print.{quoted};
ghost use Rattle.json.specs.Run.{is_plain};
ghost use Rattle.hex.specs.Hex.{encode_lower};
ghost use Rattle.reuse_json.specs.EntryText.{digest_text, hex_text};

use itoa::Buffer;
use json::Writer;
use reuse_change::Digest;
use std::alloc::{AllocError, Global};

// How many bytes are turned into digits at a time.
const BLOCK: usize = 64;

/// A member whose value is a digest, and a comma, where one is recorded.
pub fn append_digest(
    text: &mut Vec<u8>,
    key: &[u8],
    digest: Option<Digest>,
) -> Result<(), AllocError>
    ensures { OnOk result (text.new.items ≡ text.old.items ++ digest_text key.now digest) }
{
    let Some(digest) = digest else {
        return Ok(());
    };
    text.extend_from_slice(b"\"")?;
    text.extend_from_slice(key)?;
    text.extend_from_slice(b"\":")?;
    append_hex(text, digest.as_slice())?;
    text.extend_from_slice(b",")
}

/// Bytes as a string of small hexadecimal digits.
pub fn append_hex(text: &mut Vec<u8>, bytes: &[u8]) -> Result<(), AllocError>
    ensures { OnOk result (text.new.items ≡ text.old.items ++ hex_text bytes.now) }
{
    text.extend_from_slice(b"\"")?;
    append_digits(text, bytes)?;
    text.extend_from_slice(b"\"")
}

fn append_digits(text: &mut Vec<u8>, bytes: &[u8]) -> Result<(), AllocError>
    ensures { OnOk result (text.new.items ≡ text.old.items ++ encode_lower bytes.now) }
{
    let mut digits = [0; 2 * BLOCK];
    let mut done = 0;
    while done < bytes.len() {
        let count = (bytes.len() - done).min(BLOCK);
        let block = &bytes[done..done + count];
        let room = &mut digits[..2 * count];
        let Ok(()) = hex::encode_to_slice(block, room) else {
            unreachable!()
        };
        text.extend_from_slice(room)?;
        done += count;
    }
    Ok(())
}

/// A string.
pub fn append_string(alloc: Global, text: &mut Vec<u8>, content: &str) -> Result<(), AllocError>
    ensures { OnOk result (text.new.items ≡ text.old.items ++ quoted content.now) }
{
    if !is_plain(content.as_bytes()) {
        return append_escaped(alloc, text, content);
    }
    text.extend_from_slice(b"\"")?;
    text.extend_from_slice(content.as_bytes())?;
    text.extend_from_slice(b"\"")
}

// Whether nothing in a string needs an escape.
fn is_plain(content: &[u8]) -> bool
    ensures { result ≡ list_all is_plain content.now }
{
    content
        .iter()
        .all(|byte| *byte != b'"' && *byte != b'\\' && *byte >= 0x20)
}

fn append_escaped(alloc: Global, text: &mut Vec<u8>, content: &str) -> Result<(), AllocError>
    ensures { OnOk result (text.new.items ≡ text.old.items ++ quoted content.now) }
{
    let mut writer = Writer::new(Vec::new(alloc));
    writer.string(content)?;
    let string = writer.into_inner();
    text.extend_from_slice(string.as_slice())
}

/// A whole number.
pub fn append_number(text: &mut Vec<u8>, number: u64) -> Result<(), AllocError>
    ensures { OnOk result (text.new.items ≡ text.old.items ++ decimal number) }
{
    let mut buffer = Buffer::new();
    text.extend_from_slice(buffer.format(number).as_bytes())
}
