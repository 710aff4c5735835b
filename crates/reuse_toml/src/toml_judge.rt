//! Whether a table of TOML is another one with its values amended. A `REUSE.toml` is amended only
//! where its new text, read back, is judged so.
ghost use Rattle.std.specs.Prelude.{◌≡◌, IfOk};
ghost use Rattle.toml.specs.View.{view, items_view, members_view, table_view};
ghost use Rattle.reuse_toml.specs.TomlAmending.{level_of_member, level_of_item, is_text_amended, is_removed_text};
ghost use Rattle.reuse_toml.specs.TomlAmending.{is_removed, is_no_items, is_emptied, is_amended, are_amended};
ghost use Rattle.reuse_toml.specs.TomlAmending.{members_amended};

use crate::toml_places::{TomlKey, key_named};
use crate::toml_values::amend_value;
use reuse_amend::{AmendRefusal, Amendments};
use std::alloc::{AllocError, Global};
use toml::{Table, Value};

/// What a value is in a `REUSE.toml`.
#[derive(Clone, Copy, Debug, PartialEq, Eq)]
pub(crate) enum TomlLevel {
    /// The whole document.
    Document,
    /// The value of `annotations`.
    Annotations,
    /// A table of it.
    Annotation,
    /// A value of a key that is amended, or one of a list of them.
    ValuesOf(TomlKey),
    /// Another value, which stays.
    Plain,
}

fn level_of_member(level: TomlLevel, name: &str) -> TomlLevel
    ensures { result ≡ level_of_member level name.now }
{
    match level {
        TomlLevel::Document => {
            if name == "annotations" {
                TomlLevel::Annotations
            } else {
                TomlLevel::Plain
            }
        }
        TomlLevel::Annotation => match key_named(name) {
            None => TomlLevel::Plain,
            Some(key) => TomlLevel::ValuesOf(key),
        },
        _ => TomlLevel::Plain,
    }
}

fn level_of_item(level: TomlLevel) -> TomlLevel
    ensures { result ≡ level_of_item level }
{
    match level {
        TomlLevel::Annotations => TomlLevel::Annotation,
        TomlLevel::ValuesOf(key) => TomlLevel::ValuesOf(key),
        _ => TomlLevel::Plain,
    }
}

// Whether a text is what has become of another.
fn is_text_amended(
    alloc: Global,
    amendments: &Amendments,
    level: TomlLevel,
    old: &str,
    new: &str,
) -> Result<bool, AllocError>
    ensures { IfOk result (λ is. is ≡ is_text_amended amendments.now level old.now new.now) }
{
    let TomlLevel::ValuesOf(key) = level else {
        return Ok(new == old);
    };
    match amend_value(alloc, amendments, key, old.as_bytes()) {
        Ok(None) => Ok(false),
        Ok(Some(text)) => Ok(new.as_bytes() == text.as_slice()),
        Err(AmendRefusal::BadExpression) => Ok(false),
        Err(AmendRefusal::Memory(e)) => Err(e),
    }
}

// Whether a text goes.
fn is_removed_text(
    alloc: Global,
    amendments: &Amendments,
    level: TomlLevel,
    text: &str,
) -> Result<bool, AllocError>
    ensures { IfOk result (λ is. is ≡ is_removed_text amendments.now level text.now) }
{
    let TomlLevel::ValuesOf(key) = level else {
        return Ok(false);
    };
    match amend_value(alloc, amendments, key, text.as_bytes()) {
        Ok(left) => Ok(left.is_none()),
        Err(AmendRefusal::BadExpression) => Ok(false),
        Err(AmendRefusal::Memory(e)) => Err(e),
    }
}

// Whether a value goes.
fn is_removed(
    alloc: Global,
    amendments: &Amendments,
    level: TomlLevel,
    value: &Value,
) -> Result<bool, AllocError>
    ensures { IfOk result (λ is. is ≡ is_removed amendments.now level (view value.now)) }
{
    match value {
        Value::String(text) => is_removed_text(alloc, amendments, level, text.as_str()),
        _ => Ok(false),
    }
}

#[tactic(auto, using(crate::proofs::JudgeLemmas::none_left))]
fn has_none(values: &[Value]) -> bool
    ensures { result ≡ is_no_items (items_view values.now) }
{
    values.len() == 0
}

// Whether a list that has items would be left with none.
fn is_emptied(items: &[Value], others: &[Value]) -> bool
    ensures { result ≡ is_emptied (items_view items.now) (items_view others.now) }
{
    !has_none(items) && has_none(others)
}

// Whether a value is another one amended.
#[cycle(judge)]
fn is_amended(
    alloc: Global,
    amendments: &Amendments,
    level: TomlLevel,
    old: &Value,
    new: &Value,
) -> Result<bool, AllocError>
    ensures { IfOk result (λ is. is ≡ is_amended amendments.now level (view old.now) (view new.now)) }
{
    match (old, new) {
        (Value::String(text), Value::String(other)) => {
            is_text_amended(alloc, amendments, level, text.as_str(), other.as_str())
        }
        (Value::Integer(number), Value::Integer(other)) => Ok(*number == *other),
        (Value::Boolean(truth), Value::Boolean(other)) => Ok(*truth == *other),
        (Value::Array(items), Value::Array(others)) => {
            if is_emptied(items, others) {
                return Ok(false);
            }
            are_amended(alloc, amendments, level_of_item(level), items, others)
        }
        (Value::Table(members), Value::Table(others)) => {
            are_members_amended(alloc, amendments, level, members, others)
        }
        _ => Ok(false),
    }
}

// Whether values are others amended, of which some may be removed.
#[cycle(judge)]
fn are_amended(
    alloc: Global,
    amendments: &Amendments,
    level: TomlLevel,
    items: &[Value],
    others: &[Value],
) -> Result<bool, AllocError>
    ensures { IfOk result (λ is. is ≡ are_amended amendments.now level (items_view items.now) (items_view others.now)) }
{
    let mut left = others;
    for value in items {
        if !is_removed(alloc, amendments, level, value)? {
            let Some((other, more)) = left.split_first() else {
                return Ok(false);
            };
            if !is_amended(alloc, amendments, level, value, other)? {
                return Ok(false);
            }
            left = more;
        }
    }
    Ok(has_none(left))
}

// Whether a table is another one amended.
#[cycle(judge)]
pub(crate) fn are_members_amended(
    alloc: Global,
    amendments: &Amendments,
    level: TomlLevel,
    members: &Table,
    others: &Table,
) -> Result<bool, AllocError>
    ensures { IfOk result (λ is. is ≡ members_amended amendments.now level (table_view members.now)
        (table_view others.now)) }
{
    let mut left = others.iter();
    for (name, value) in members.iter() {
        let Some((other_name, other)) = left.next() else {
            return Ok(false);
        };
        if name.as_str() != other_name.as_str() {
            return Ok(false);
        }
        let inner = level_of_member(level, name.as_str());
        if !is_amended(alloc, amendments, inner, value, other)? {
            return Ok(false);
        }
    }
    Ok(left.next().is_none())
}
