//! A JSON value that is read token by token, without the lists and objects that are too long for
//! a text of the journal. They are passed over and take no memory, so a hostile text takes little.
ghost use Rattle.std.specs.Prelude.{◌≡◌, ◌<◌, ◌≤◌, ◌∷◌, ◌++◌, [], length, None, IfOk, OnOk};
ghost use Rattle.std.specs.BTreeMap.{insert_entry};
ghost use Rattle.std.specs.Prelude.{string_cmp};
ghost use Rattle.json.specs.Json.{value, items, members};
ghost use Rattle.json.specs.Reads.{token_of};
ghost use Rattle.serde_json.specs.Data.{Data, array, object, no_members};
ghost use Rattle.serde_json.specs.Read.{converted, of_items, of_json, of_members};
ghost use Rattle.serde_json.specs.View.{view, items_view, members_view};
ghost use Rattle.reuse_json.specs.Json.{IsJson};
ghost use Rattle.reuse_json.specs.Trimmed.{if_few, one_more, trim, ReadsItems, ReadsMembers, ReadsValue};

use crate::fault::DecodeFault;
use crate::json_number::number_value;
use crate::length_limit::LengthLimit;
use json::{Reader, Scratch, Token};
use serde_json::{Map, Value};
use std::alloc::{AllocError, Global};

/// How deep arrays and objects may nest.
pub const DEEPEST: usize = 127;

/// The value that the text is, trimmed.
pub fn parse_trimmed(alloc: Global, text: &[u8], room: LengthLimit) -> Result<Value, DecodeFault>
    ensures ok { IfOk result (λ v. (d : Data) × IsJson text.now d × (view v ≡ trim room d)) }
    ensures refused { result ≡ Err DecodeFault.NotGood → (d : Data) → IsJson text.now d → ⊥ }
{
    let Ok(text) = str::from_utf8(text) else {
        return Err(DecodeFault::NotGood);
    };
    let mut scratch = Scratch::new(alloc);
    let mut reader = Reader::new(text, &mut scratch)?;
    let value = read(alloc, &mut reader, DEEPEST, room)?;
    if reader.next().is_some() {
        return Err(DecodeFault::NotGood);
    }
    Ok(value)
}

/// The next value, trimmed. Arrays and objects may nest `depth` deep.
#[cycle(read)]
pub fn read(
    alloc: Global,
    reader: &mut Reader<'_>,
    depth: usize,
    room: LengthLimit,
) -> Result<Value, DecodeFault>
    ensures ok { IfOk result (ReadsValue depth room reader.old reader.new) }
    ensures shorter { OnOk result (length reader.new < length reader.old) }
    ensures refused { result ≡ Err DecodeFault.NotGood → converted of_json (value depth reader.old) ≡ None }
{
    let token = reader.next().ok_or(DecodeFault::NotGood)?;
    read_from(alloc, token, reader, depth, room)
}

/// The value that begins with this token, trimmed.
#[cycle(read)]
pub fn read_from(
    alloc: Global,
    token: Token<'_>,
    reader: &mut Reader<'_>,
    depth: usize,
    room: LengthLimit,
) -> Result<Value, DecodeFault>
    ensures ok { IfOk result (ReadsValue depth room (token_of token.entry ∷ reader.old) reader.new) }
    ensures shorter { OnOk result (length reader.new ≤ length reader.old) }
    ensures refused { result ≡ Err DecodeFault.NotGood
        → converted of_json (value depth (token_of token.entry ∷ reader.old)) ≡ None }
{
    match token {
        Token::String(text) => Ok(Value::String(String::from_str(alloc, text)?)),
        Token::Number(text) => number_value(text),
        Token::Bool(b) => Ok(Value::Bool(b)),
        Token::Null => Ok(Value::Null),
        Token::EndObject | Token::EndArray | Token::Key(_) | Token::Bad => {
            Err(DecodeFault::NotGood)
        }
        Token::BeginArray => {
            if depth == 0 {
                return Err(DecodeFault::NotGood);
            }
            read_items(alloc, reader, depth - 1, room)
        }
        Token::BeginObject => {
            if depth == 0 {
                return Err(DecodeFault::NotGood);
            }
            read_members(alloc, reader, depth - 1, room)
        }
    }
}

// The items of an array, as far as its end.
#[cycle(read)]
fn read_items(
    alloc: Global,
    reader: &mut Reader<'_>,
    depth: usize,
    room: LengthLimit,
) -> Result<Value, DecodeFault>
    ensures ok { IfOk result (ReadsItems depth room reader.old reader.new) }
    ensures shorter { OnOk result (length reader.new < length reader.old) }
    ensures refused { result ≡ Err DecodeFault.NotGood
        → converted of_items (items (value depth) (length reader.old) reader.old) ≡ None }
{
    let mut found = Vec::new(alloc);
    'items: while !reader.take_end_array() {
        let item = read(alloc, reader, depth, room.inner())?;
        keep_item(&mut found, item, room)?;
    }
    Ok(array_of(found, room))
}

// The members of an object, as far as its end.
#[cycle(read)]
fn read_members(
    alloc: Global,
    reader: &mut Reader<'_>,
    depth: usize,
    room: LengthLimit,
) -> Result<Value, DecodeFault>
    ensures ok { IfOk result (ReadsMembers depth room reader.old reader.new) }
    ensures shorter { OnOk result (length reader.new < length reader.old) }
    ensures refused { result ≡ Err DecodeFault.NotGood
        → converted (λ ms. of_members ms no_members) (members (value depth) (length reader.old) reader.old)
        ≡ None }
{
    let mut found = Map::new(alloc);
    'members: while let Some(name) = reader.next_key()? {
        let key = String::from_str(alloc, name)?;
        let member = read(alloc, reader, depth, room.inner())?;
        keep_member(&mut found, key, member, room)?;
    }
    Ok(object_of(found, room))
}

// Puts an item behind those that were found, unless there are too many.
fn keep_item(found: &mut Vec<Value>, item: Value, room: LengthLimit) -> Result<(), AllocError>
    ensures { OnOk result (found.new.items ≡ one_more room (found.old.items ++ item ∷ []) found.old.items) }
{
    if found.len() <= room.most() {
        found.push(item)?;
    }
    Ok(())
}

// Puts a member among those that were found, unless there are too many.
fn keep_member(
    found: &mut Map<String, Value>,
    key: String,
    member: Value,
    room: LengthLimit,
) -> Result<(), AllocError>
    ensures { OnOk result (found.new.entries
        ≡ one_more room (insert_entry string_cmp found.old.entries key member) found.old.entries) }
{
    if found.len() <= room.most() {
        drop(found.insert(key, member)?);
    }
    Ok(())
}

// The items as an array, unless there are too many.
fn array_of(found: Vec<Value>, room: LengthLimit) -> Value
    ensures { view result ≡ if_few room (length found.items) (array (items_view found.items)) }
{
    if found.len() <= room.most() {
        Value::Array(found)
    } else {
        Value::Bool(false)
    }
}

// The members as an object, unless there are too many.
fn object_of(found: Map<String, Value>, room: LengthLimit) -> Value
    ensures { view result ≡ if_few room (length found.entries) (object (members_view found.entries)) }
{
    if found.len() <= room.most() {
        Value::Object(found)
    } else {
        Value::Bool(false)
    }
}
