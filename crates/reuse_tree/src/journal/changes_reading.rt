//! The changes of an entry, read from its text one by one. Each is a tree of values only while it
//! is read. What stands beside the changes, and what a later list supersedes, is passed over.
ghost use Rattle.std.specs.Prelude.{◌≡◌, ◌<◌, None, Some, IfErr, IfOk, OnOk, codes, if◌then◌else◌, length, option_map};
ghost use Rattle.std.specs.Str.{bytes_eq};
ghost use Rattle.json.specs.Json.{items, members, value};
ghost use Rattle.serde_json.specs.Data.{Data, Items, Members, no_members, object};
ghost use Rattle.serde_json.specs.Read.{converted, of_items, of_json, of_members};
ghost use Rattle.serde_json.specs.View.{view};
ghost use Rattle.reuse_json.specs.EntryReading.{change_in, changes_in, if_few_changes, listed_in, with_next};
ghost use Rattle.reuse_json.specs.Json.{IsJson};
ghost use Rattle.reuse_json.specs.JsonReading.{read_items};

use crate::journal::entry_reading::change_of;
use json::{Reader, Scratch, Token};
use reuse_change::{Change, MOST_CHANGES};
use reuse_json::trimmed::{DEEPEST, read, read_from};
use reuse_json::{DecodeFault, LengthLimit};
use serde_json::Value;
use std::alloc::Global;

const IN_OBJECT: usize = DEEPEST - 1;

const IN_LIST: usize = DEEPEST - 2;

/// The changes of the object that the text is, where that is an entry of the second format, or of
/// the first.
pub(crate) fn read_changes(
    alloc: Global,
    text: &[u8],
    sealed: bool,
) -> Result<Vec<Change>, DecodeFault>
    ensures ok { IfOk result (λ changes. (ms : Members) × IsJson text.now (object ms)
        × (listed_in sealed ms ≡ Some changes.items)) }
    ensures refused { result ≡ Err DecodeFault.NotGood
        → (ms : Members) → IsJson text.now (object ms) → listed_in sealed ms ≡ None }
{
    let Ok(text) = str::from_utf8(text) else {
        return Err(DecodeFault::NotGood);
    };
    let mut scratch = Scratch::new(alloc);
    let mut reader = Reader::new(text, &mut scratch)?;
    let token = reader.next().ok_or(DecodeFault::NotGood)?;
    let Token::BeginObject = token else {
        return Err(DecodeFault::NotGood);
    };
    let found = list_in_object(alloc, &mut reader, sealed)?;
    if reader.next().is_some() {
        return Err(DecodeFault::NotGood);
    }
    match found {
        Some(changes) => Ok(changes),
        None => Err(DecodeFault::NotGood),
    }
}

// The changes of an object whose members come next. The last list counts.
fn list_in_object(
    alloc: Global,
    reader: &mut Reader<'_>,
    sealed: bool,
) -> Result<Option<Vec<Change>>, DecodeFault>
    ensures ok { IfOk result (λ found. (ms : Members)
        × (converted (λ js. of_members js no_members) (members (value 126) (length reader.old) reader.old)
        ≡ Some (ms, reader.new))
        × (option_map (λ v. v.items) found ≡ listed_in sealed ms)) }
    ensures refused { result ≡ Err DecodeFault.NotGood
        → converted (λ js. of_members js no_members) (members (value 126) (length reader.old) reader.old)
        ≡ None }
{
    let mut found = None;
    'members: while let Some(name) = reader.next_key()? {
        found = list_after(alloc, reader, name, sealed, found)?;
    }
    Ok(found)
}

// The changes after one more member, whose value comes next.
fn list_after(
    alloc: Global,
    reader: &mut Reader<'_>,
    name: &str,
    sealed: bool,
    found: Option<Vec<Change>>,
) -> Result<Option<Vec<Change>>, DecodeFault>
    ensures ok { IfOk result (λ next. (d : Data) × (converted of_json (value 126 reader.old) ≡ Some (d, reader.new))
        × (option_map (λ v. v.items) next ≡ (if bytes_eq name.now (codes "changes")
        then if_few_changes (changes_in sealed d) else option_map (λ v. v.items) found))) }
    ensures shorter { OnOk result (length reader.new < length reader.old) }
    ensures refused { result ≡ Err DecodeFault.NotGood → converted of_json (value 126 reader.old) ≡ None }
{
    if name == "changes" {
        drop(found);
        return list_in_value(alloc, reader, sealed);
    }
    drop(read(alloc, reader, IN_OBJECT, LengthLimit::Leaf)?);
    Ok(found)
}

// The changes of the next value, where it is a list of them.
fn list_in_value(
    alloc: Global,
    reader: &mut Reader<'_>,
    sealed: bool,
) -> Result<Option<Vec<Change>>, DecodeFault>
    ensures ok { IfOk result (λ found. (d : Data) × (converted of_json (value 126 reader.old) ≡ Some (d, reader.new))
        × (option_map (λ v. v.items) found ≡ if_few_changes (changes_in sealed d))) }
    ensures shorter { OnOk result (length reader.new < length reader.old) }
    ensures refused { result ≡ Err DecodeFault.NotGood → converted of_json (value 126 reader.old) ≡ None }
{
    let token = reader.next().ok_or(DecodeFault::NotGood)?;
    if let Token::BeginArray = token {
        return change_list(alloc, reader, sealed);
    }
    drop(read_from(alloc, token, reader, IN_OBJECT, LengthLimit::Leaf)?);
    Ok(None)
}

// The changes of a list whose items come next. A change that is none, and one too many, ends the
// keeping, but not the reading: a later list may be good.
fn change_list(
    alloc: Global,
    reader: &mut Reader<'_>,
    sealed: bool,
) -> Result<Option<Vec<Change>>, DecodeFault>
    ensures ok { IfOk result (λ found. (ds : Items)
        × (converted of_items (items (value 125) (length reader.old) reader.old) ≡ Some (ds, reader.new))
        × (option_map (λ v. v.items) found ≡ if_few_changes (read_items (change_in sealed) ds))) }
    ensures shorter { OnOk result (length reader.new < length reader.old) }
    ensures refused { result ≡ Err DecodeFault.NotGood
        → converted of_items (items (value 125) (length reader.old) reader.old) ≡ None }
{
    let mut found = Some(Vec::new(alloc));
    'items: while !reader.take_end_array() {
        let value = read(alloc, reader, IN_LIST, LengthLimit::Change)?;
        found = with_change(alloc, found, &value, sealed)?;
    }
    Ok(found)
}

// The changes so far, and the one that the value is.
fn with_change(
    alloc: Global,
    found: Option<Vec<Change>>,
    value: &Value,
    sealed: bool,
) -> Result<Option<Vec<Change>>, DecodeFault>
    ensures ok { IfOk result (λ next. option_map (λ v. v.items) next
        ≡ with_next (option_map (λ v. v.items) found) (change_in sealed (view value.now))) }
    ensures fault { IfErr result (λ e. e ≡ DecodeFault.Memory) }
{
    let Some(mut changes) = found else {
        return Ok(None);
    };
    if changes.len() >= MOST_CHANGES {
        return Ok(None);
    }
    match change_of(alloc, value, sealed) {
        Ok(change) => {
            changes.push(change)?;
            Ok(Some(changes))
        }
        Err(DecodeFault::NotGood) => Ok(None),
        Err(DecodeFault::Memory) => Err(DecodeFault::Memory),
    }
}
