//! A JSON value taken apart, member by member.
ghost use Rattle.serde_json.specs.Find.{as_object, as_str};
ghost use Rattle.serde_json.specs.View.{view, items_view, members_view};
ghost use Rattle.reuse_json.specs.Decoded.{Gives, GivesBy};
ghost use Rattle.reuse_json.specs.EntryReading.{digest_in, first_digest, hex_in, if_text, moment_in, path_in};
ghost use Rattle.reuse_json.specs.JsonReading.{field_in, first_member, if_none_left, format_in, number_in, small_in};
ghost use Rattle.reuse_json.specs.JsonReading.{smalls_in, read_items};

use crate::fault::DecodeFault;
use hex::FromHexError;
use reuse_change::{Digest, EntryNumbers, Moment, PathError, PathText};
use reuse_text::Bytes;
use serde_json::Value;
use std::alloc::Global;
use std::collections::btree_map::Iter;

/// The members of an object that are left, in the order of their keys.
pub type Fields<'a> = Iter<'a, String, Value>;

/// The members of an object.
pub fn fields(value: &Value) -> Result<Fields<'_>, DecodeFault>
    ensures { GivesBy members_view result (as_object (view value.now)) }
{
    match value {
        Value::Object(map) => Ok(map.iter()),
        _ => Err(DecodeFault::NotGood),
    }
}

/// The value of the next member, which has to have this key.
pub fn field<'a>(fields: &mut Fields<'a>, key: &str) -> Result<&'a Value, DecodeFault>
    ensures { GivesBy (λ v. (view v.now, members_view fields.new)) result
        (first_member key.now (members_view fields.old)) }
{
    match fields.next() {
        Some((name, value)) => if name.as_str() == key {
            Ok(value)
        } else {
            Err(DecodeFault::NotGood)
        },
        None => Err(DecodeFault::NotGood),
    }
}

/// Tests that no member is left.
pub fn finish(mut fields: Fields<'_>) -> Result<(), DecodeFault>
    ensures { Gives result (if_none_left (members_view fields.entry)) }
{
    match fields.next() {
        Some(_) => Err(DecodeFault::NotGood),
        None => Ok(()),
    }
}

/// A text.
pub fn text_of(value: &Value) -> Result<&str, DecodeFault>
    ensures { GivesBy (λ s. s.now) result (as_str (view value.now)) }
{
    value.as_str().ok_or(DecodeFault::NotGood)
}

// Tests that a value is this text.
fn expect_text(value: &Value, text: &str) -> Result<(), DecodeFault>
    ensures { Gives result (if_text text.now (view value.now)) }
{
    if text_of(value)? == text {
        Ok(())
    } else {
        Err(DecodeFault::NotGood)
    }
}

/// Tests that the next member has this key, and this text as its value.
pub fn expect_next(fields: &mut Fields<'_>, key: &str, text: &str) -> Result<(), DecodeFault>
    ensures { GivesBy (λ found. (found, members_view fields.new)) result
        (field_in (if_text text.now) key.now (members_view fields.old)) }
{
    expect_text(field(fields, key)?, text)
}

// The bytes of a text of hexadecimal digits.
fn bytes_of(alloc: Global, value: &Value) -> Result<Bytes, DecodeFault>
    ensures { Gives result (hex_in (view value.now)) }
{
    match hex::decode(alloc, text_of(value)?) {
        Ok(bytes) => Ok(Bytes::from_vec(bytes)),
        Err(FromHexError::OutOfMemory) => Err(DecodeFault::Memory),
        Err(_) => Err(DecodeFault::NotGood),
    }
}

/// The bytes of the next member, which has to have this key.
pub fn next_bytes(alloc: Global, fields: &mut Fields<'_>, key: &str) -> Result<Bytes, DecodeFault>
    ensures { GivesBy (λ bytes. (bytes, members_view fields.new)) result
        (field_in hex_in key.now (members_view fields.old)) }
{
    bytes_of(alloc, field(fields, key)?)
}

// A digest.
fn digest_of(alloc: Global, value: &Value) -> Result<Digest, DecodeFault>
    ensures { Gives result (digest_in (view value.now)) }
{
    let bytes = bytes_of(alloc, value)?;
    Digest::from_slice(bytes.as_slice()).ok_or(DecodeFault::NotGood)
}

/// The digest of the next member, which has to have this key. Where changes are not sealed, none.
#[tactic(auto, unfolding(crate::specs::EntryReading::first_digest))]
pub fn next_digest<'a>(
    alloc: Global,
    fields: &mut Fields<'a>,
    key: &str,
    sealed: bool,
) -> Result<Option<Digest>, DecodeFault>
    ensures { GivesBy (λ digest. (digest, members_view fields.new)) result
        (first_digest sealed key.now (members_view fields.old)) }
{
    if sealed {
        Ok(Some(digest_of(alloc, field(fields, key)?)?))
    } else {
        Ok(None)
    }
}

// A path.
fn path_of(alloc: Global, value: &Value) -> Result<PathText, DecodeFault>
    ensures { Gives result (path_in (view value.now)) }
{
    match PathText::new(alloc, text_of(value)?) {
        Ok(path) => Ok(path),
        Err(PathError::BadPath) => Err(DecodeFault::NotGood),
        Err(PathError::Memory) => Err(DecodeFault::Memory),
    }
}

/// The path of the next member, which has to have this key.
pub fn next_path(alloc: Global, fields: &mut Fields<'_>, key: &str) -> Result<PathText, DecodeFault>
    ensures { GivesBy (λ path. (path, members_view fields.new)) result
        (field_in path_in key.now (members_view fields.old)) }
{
    path_of(alloc, field(fields, key)?)
}

// A moment.
fn moment_of(value: &Value) -> Result<Moment, DecodeFault>
    ensures { Gives result (moment_in (view value.now)) }
{
    Moment::new(number_of(value)?).ok_or(DecodeFault::NotGood)
}

/// The moment of the next member, which has to have this key.
pub fn next_moment(fields: &mut Fields<'_>, key: &str) -> Result<Moment, DecodeFault>
    ensures { GivesBy (λ moment. (moment, members_view fields.new)) result
        (field_in moment_in key.now (members_view fields.old)) }
{
    moment_of(field(fields, key)?)
}

// A number of 64 bits.
fn number_of(value: &Value) -> Result<u64, DecodeFault>
    ensures { Gives result (number_in (view value.now)) }
{
    value.as_u64().ok_or(DecodeFault::NotGood)
}

/// The number of the next member, which has to have this key.
pub fn next_number(fields: &mut Fields<'_>, key: &str) -> Result<u64, DecodeFault>
    ensures { GivesBy (λ number. (number, members_view fields.new)) result
        (field_in number_in key.now (members_view fields.old)) }
{
    number_of(field(fields, key)?)
}

// A number of 32 bits.
fn small_of(value: &Value) -> Result<u32, DecodeFault>
    ensures { Gives result (small_in (view value.now)) }
{
    let number = number_of(value)?;
    if number <= u64::from(u32::MAX) {
        Ok(number as u32)
    } else {
        Err(DecodeFault::NotGood)
    }
}

/// The number of 32 bits of the next member, which has to have this key.
pub fn next_small(fields: &mut Fields<'_>, key: &str) -> Result<u32, DecodeFault>
    ensures { GivesBy (λ number. (number, members_view fields.new)) result
        (field_in small_in key.now (members_view fields.old)) }
{
    small_of(field(fields, key)?)
}

// Whether the format is the second, in which entries are sealed, and not the first.
fn is_second_format(value: &Value) -> Result<bool, DecodeFault>
    ensures { Gives result (format_in (view value.now)) }
{
    match number_of(value)? {
        1 => Ok(false),
        2 => Ok(true),
        _ => Err(DecodeFault::NotGood),
    }
}

/// Whether the format of the next member, which has to have this key, is the second.
pub fn next_format(fields: &mut Fields<'_>, key: &str) -> Result<bool, DecodeFault>
    ensures { GivesBy (λ second. (second, members_view fields.new)) result
        (field_in format_in key.now (members_view fields.old)) }
{
    is_second_format(field(fields, key)?)
}

// A list of numbers of 32 bits.
#[tactic(auto, unfolding(crate::specs::JsonReading::smalls_in))]
fn numbers_of(alloc: Global, value: &Value) -> Result<EntryNumbers, DecodeFault>
    ensures { Gives result (smalls_in (view value.now)) }
{
    match value {
        Value::Array(values) => {
            let numbers = numbers_in(alloc, values.as_slice())?;
            Ok(EntryNumbers::new(numbers))
        }
        _ => Err(DecodeFault::NotGood),
    }
}

/// The list of numbers of the next member, which has to have this key.
pub fn next_numbers(
    alloc: Global,
    fields: &mut Fields<'_>,
    key: &str,
) -> Result<EntryNumbers, DecodeFault>
    ensures { GivesBy (λ numbers. (numbers, members_view fields.new)) result
        (field_in smalls_in key.now (members_view fields.old)) }
{
    numbers_of(alloc, field(fields, key)?)
}

fn numbers_in(alloc: Global, values: &[Value]) -> Result<Vec<u32>, DecodeFault>
    ensures { GivesBy (λ v. v.items) result (read_items small_in (items_view values.now)) }
{
    let mut numbers = Vec::with_capacity(alloc, values.len())?;
    for value in values {
        numbers.push(small_of(value)?)?;
    }
    Ok(numbers)
}
