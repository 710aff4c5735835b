//! The texts of licences in a folder. A text that can't be read is none, and none is longer than
//! one may be. The program calls it for a download. Tested by `tests/large_files.sh` and
//! `tests/worked_lines.sh`.
ghost use Rattle.std.specs.Prelude.{◌≡◌, IfOk, IfSome, map, string_bytes, take};
ghost use Rattle.std.specs.Option.{option_map};
ghost use Rattle.reuse_report.specs.Texts.{IsTextOf, licence_named, licences_among, text_file};

use reuse_command::licence::{Ids, LicenceText, LicenceTexts};
use reuse_edit::licence_id::is_id;
use reuse_system::reading::read_front;
use reuse_text::Bytes;
use std::alloc::{AllocError, Global};
use std::fs;
use std::io::{self, ErrorKind, Read};
use std::rt::Files;

/// One byte more than the text of a licence may have.
const MOST_READ: u64 = 16_777_217;

/// The texts of the ids: `ID.txt` in the folder, for each that is the id of a licence. One that
/// can't be read is none.
pub fn find_texts(
    rt: &impl Files,
    alloc: Global,
    folder: &str,
    ids: &Ids,
) -> Result<LicenceTexts, AllocError>
    ensures { IfOk result (λ texts. map (λ text. text.id) texts ≡ licences_among ids.now) }
{
    Ok(LicenceTexts::new(texts_of(rt, alloc, folder, ids.as_slice())?))
}

fn texts_of(
    rt: &impl Files,
    alloc: Global,
    folder: &str,
    ids: &[Bytes],
) -> Result<Vec<LicenceText>, AllocError>
    ensures { IfOk result (λ texts. map (λ text. text.id) texts.items ≡ licences_among ids.now) }
{
    let mut texts = Vec::new(alloc);
    for id in ids {
        if let Some(name) = name_of(id) {
            let text = find_text(rt, alloc, folder, name)?;
            let id = Bytes::from_slice(alloc, id.as_slice())?;
            texts.push(LicenceText { id, text })?;
        }
    }
    Ok(texts)
}

fn name_of(id: &Bytes) -> Option<&str>
    ensures { option_map (λ name. name.now) result ≡ licence_named id.now }
{
    match str::from_utf8(id.as_slice()) {
        Ok(name) => name_if_id(name),
        Err(_) => None,
    }
}

fn name_if_id(name: &str) -> Option<&str>
    ensures { option_map (λ name. name.now) result ≡ licence_named name.now }
{
    if is_id(name) { Some(name) } else { None }
}

fn find_text(
    rt: &impl Files,
    alloc: Global,
    folder: &str,
    name: &str,
) -> Result<Option<Bytes>, AllocError> {
    if folder.is_empty() {
        return Ok(None);
    }
    let path = file_of_text(alloc, folder, name)?;
    text_read(read_file(rt, alloc, path.as_str()))
}

fn file_of_text(alloc: Global, folder: &str, name: &str) -> Result<String, AllocError>
    ensures { IfOk result (λ path. string_bytes path ≡ text_file folder.now name.now) }
{
    let path = format!(in alloc; "{folder}/{name}.txt")?;
    Ok(path)
}

// What can't be read is no text.
fn text_read(read: io::Result<Bytes>) -> Result<Option<Bytes>, AllocError>
    ensures { IsTextOf read result }
{
    match read {
        Ok(text) => Ok(Some(text)),
        Err(error) if error.kind() == ErrorKind::OutOfMemory => Err(AllocError),
        Err(_) => Ok(None),
    }
}

// (What is no file isn't opened: a pipe would make the run wait for a writer.)
fn read_file(rt: &impl Files, alloc: Global, path: &str) -> io::Result<Bytes> {
    if !fs::metadata(rt, path)?.is_file() {
        return Err(io::Error::from(ErrorKind::InvalidInput));
    }
    text_from(fs::open(rt, path)?, alloc)
}

/// The text that a reader has: all of it, if it isn't longer than a text may be.
fn text_from<R: Read + Drop>(reader: R, alloc: Global) -> io::Result<Bytes>
    ensures { IfOk result (λ text. IfSome (R.remaining reader) (λ had. text ≡ take MOST_READ had)) }
{
    Ok(Bytes::from_vec(read_front(reader, alloc, MOST_READ)?))
}
