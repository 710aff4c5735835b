//! What is wrong with the files of a journal, for notes. It only reads, and no call depends on it.
//! `diagnostics` calls it, and `notes` prints its words. Tested by `tests/notes.sh`.
ghost use Rattle.std.specs.Prelude.{◌≡◌};
ghost use Rattle.reuse_store.specs.Asked.{OnlyReads};

use reuse_change::PathText;
use reuse_change::layout::{
    ABOVE_JOURNAL, BEHIND_NUMBER, FIRST_NAME, HEAD_NAME, JOURNAL, LARGEST_ENTRY, LATEST_FORMAT,
};
use reuse_folder::HostStore;
use reuse_store::{Reading, Store};
use reuse_text::LONGEST_FILE;
use serde_json::Value;
use std::alloc::{AllocError, Global};
use std::fs::{self, File};
use std::io;
use std::rt::Files;

/// What is wrong with a file of the journal.
#[derive(Clone, Copy, PartialEq, Eq)]
pub enum JournalDamage {
    /// A file stands where a folder of the journal is to be.
    NoFolder,
    /// The head names the file, and it isn't there.
    Gone,
    /// It has no bytes.
    Empty,
    /// It is longer than such a file can be.
    TooLong,
    /// It is no JSON, as one that was written in part.
    Torn,
    /// A later version of the program wrote it.
    LaterFormat,
    /// It is JSON, and doesn't say what such a file says.
    Wrong,
}

impl JournalDamage {
    /// The words for it, behind the path of the file.
    pub fn words(self) -> &'static str {
        match self {
            JournalDamage::NoFolder => "is a file, where the folder of the journal is to be",
            JournalDamage::Gone => "is gone, and the head of the journal names it",
            JournalDamage::Empty => "is empty, as after a loss of power",
            JournalDamage::TooLong => "is longer than such a file can be",
            JournalDamage::Torn => "is torn: it breaks off, or is no JSON",
            JournalDamage::LaterFormat => "was written by a later version of reuse-undo",
            JournalDamage::Wrong =>
                "says what no file of the journal says: it was edited, or is damaged",
        }
    }

    /// What can be done about it.
    pub fn advice(self) -> &'static str {
        match self {
            JournalDamage::NoFolder => "move it away",
            JournalDamage::LaterFormat => "use that version",
            _ => {
                "put it back from a backup; or delete the folder .reuse/undo, which forgets the history and \
                changes no other file"
            }
        }
    }
}

/// What is wrong with the file that a journal was refused for. An allocation failure or a fault
/// leaves it out.
pub fn damage_of<R: Files<File = File> + AllocGlobal + Clone + Drop>(
    alloc: Global,
    store: &mut HostStore<R>,
    path: &PathText,
) -> Option<JournalDamage>
    ensures reads { OnlyReads ⟦<HostStore<R> as Store>⟧ store.old store.new }
    ensures noted { store.new.folder.unsynced ≡ store.old.folder.unsynced }
{
    let text = path.text();
    if text == ABOVE_JOURNAL || text == JOURNAL {
        return Some(JournalDamage::NoFolder);
    }
    let limit = if text.ends_with(HEAD_NAME) {
        LONGEST_FILE
    } else {
        LARGEST_ENTRY
    };
    match store.read(alloc, path, limit) {
        Ok(Reading::Absent) => Some(JournalDamage::Gone),
        Ok(Reading::TooLong) => Some(JournalDamage::TooLong),
        Ok(Reading::Found(bytes)) => damage_in(alloc, bytes.as_slice()),
        Err(_) => None,
    }
}

/// What is wrong with a text that can't be read.
fn damage_in(alloc: Global, text: &[u8]) -> Option<JournalDamage> {
    if text.is_empty() {
        return Some(JournalDamage::Empty);
    }
    match Value::from_slice(alloc, text) {
        Ok(value) => Some(damage_of_value(&value)),
        Err(error) if error.is_memory() => None,
        Err(_) => Some(JournalDamage::Torn),
    }
}

fn damage_of_value(value: &Value) -> JournalDamage {
    match value.get("format").and_then(Value::as_u64) {
        Some(format) if format > u64::from(LATEST_FORMAT) => JournalDamage::LaterFormat,
        _ => JournalDamage::Wrong,
    }
}

/// The files of steps in a journal that has no head.
#[derive(Clone, Copy, PartialEq, Eq)]
pub enum MissingHead {
    /// The first step's alone: its head is gone, or its run was stopped before it changed a file.
    First,
    /// This many, of which the head is gone.
    Steps(usize),
}

/// The files of steps in the folder of the journal, where none of them is a head.
pub fn steps_without_head<R: Files + AllocGlobal + Clone + Drop>(
    rt: &R,
    alloc: Global,
    root: &str,
) -> Option<MissingHead> {
    let mut folder = String::from_str(alloc, root).ok()?;
    folder.push_str("/").ok()?;
    folder.push_str(JOURNAL).ok()?;
    match count_steps(rt, folder.as_str()) {
        Ok(counted) => counted,
        Err(_) => None,
    }
}

fn count_steps<R: Files + AllocGlobal + Clone + Drop>(
    rt: &R,
    folder: &str,
) -> io::Result<Option<MissingHead>> {
    let mut count: usize = 0;
    let mut is_first = false;
    for entry in fs::read_dir(rt, folder)? {
        let entry = entry?;
        let name = entry.file_name();
        if name == HEAD_NAME {
            return Ok(None);
        }
        if is_step_name(name) {
            count = count.saturating_add(1);
            is_first = name == FIRST_NAME;
        }
    }
    Ok(match count {
        0 => None,
        1 if is_first => Some(MissingHead::First),
        _ => Some(MissingHead::Steps(count)),
    })
}

/// Whether a file of a step has such a name.
fn is_step_name(name: &str) -> bool {
    match name.strip_suffix(BEHIND_NUMBER) {
        Some(number) => number.len() == 6 && number.bytes().all(|byte| byte.is_ascii_digit()),
        None => false,
    }
}

/// Whether nothing at all has the path, in this root.
pub fn is_gone(
    rt: &impl Files,
    alloc: Global,
    root: &str,
    path: &PathText,
) -> Result<bool, AllocError> {
    let mut place = String::from_str(alloc, root)?;
    place.push_str("/")?;
    place.push_str(path.text())?;
    Ok(match fs::symlink_metadata(rt, place.as_str()) {
        Ok(_) => false,
        Err(error) => error.kind() == io::ErrorKind::NotFound,
    })
}
