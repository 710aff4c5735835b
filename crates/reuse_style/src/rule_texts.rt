//! The rules of a project's file of comments as texts.
ghost use Rattle.std.specs.Prelude.{◌≡◌, IfOk, map, codes};
ghost use Rattle.std.specs.Option.{option_map};
ghost use Rattle.toml.specs.Data.{as_bool};
ghost use Rattle.toml.specs.View.{view, items_view, table_view, members_view};
ghost use Rattle.reuse_style.specs.Taken.{take_value};
ghost use Rattle.reuse_style.specs.RuleTexts.{rule_of_data, texts_of_rule, rules_of_data, rules_of_items};
ghost use Rattle.reuse_style.specs.RuleViews.{rule_view, rules_view};

use crate::comment_texts::take_text;
use std::alloc::{AllocError, Global};
use std::collections::btree_map::Iter;
use toml::{Table, Value};

/// The texts of a rule: its globs, if they are there, and the name of its style; and whether it says
/// that it stands before the table.
#[derive(Clone, Copy, Debug)]
pub(crate) struct RuleTexts<'t> {
    /// `first-line`.
    pub(crate) first_line: Option<&'t str>,
    /// `name`.
    pub(crate) name: Option<&'t str>,
    /// `over-table`.
    pub(crate) over_table: Option<bool>,
    /// `style`.
    pub(crate) style: &'t str,
}

/// The rules of a value, if it is an array of rules' tables alone.
pub(crate) fn rules_of_data<'t>(
    alloc: Global,
    value: &'t Value,
) -> Result<Option<Vec<RuleTexts<'t>>>, AllocError>
    ensures { IfOk result (λ rules. rules_view rules ≡ rules_of_data (view value.now)) }
{
    match value.as_array() {
        None => Ok(None),
        Some(items) => rules_of_items(alloc, items.as_slice()),
    }
}

#[tactic(auto, unfolding(crate::specs::RuleTexts::rules_of_items))]
fn rules_of_items<'t>(
    alloc: Global,
    mut items: &'t [Value],
) -> Result<Option<Vec<RuleTexts<'t>>>, AllocError>
    ensures { IfOk result (λ rules. rules_view rules ≡ rules_of_items (items_view items.entry.now)) }
{
    let mut rules = Vec::new(alloc);
    while let Some((item, others)) = items.split_first() {
        let Some(rule) = rule_of_data(item)? else {
            return Ok(None);
        };
        rules.push(rule)?;
        items = others;
    }
    Ok(Some(rules))
}

// The texts of a value that is a rule's table.
fn rule_of_data(value: &Value) -> Result<Option<RuleTexts<'_>>, AllocError>
    ensures { IfOk result (λ rule. option_map rule_view rule ≡ rule_of_data (view value.now)) }
{
    match value.as_table() {
        None => Ok(None),
        Some(rule) => texts_of_rule(rule),
    }
}

// The texts of a rule's table, if it has no other keys.
#[tactic(auto, unfolding(crate::specs::RuleTexts::texts_of_rule))]
fn texts_of_rule(rule: &Table) -> Result<Option<RuleTexts<'_>>, AllocError>
    ensures { IfOk result (λ texts. option_map rule_view texts ≡ texts_of_rule (table_view rule.now)) }
{
    let mut entries = rule.iter();
    let first_line = take_text(&mut entries, "first-line")?;
    let name = take_text(&mut entries, "name")?;
    let over_table = take_flag(&mut entries, "over-table")?;
    let style = take_text(&mut entries, "style")?;
    if entries.next().is_some() {
        return Ok(None);
    }
    match style {
        None => Ok(None),
        Some(style) => Ok(Some(RuleTexts {
            first_line,
            name,
            over_table,
            style,
        })),
    }
}

// Takes the truth value of a key off, if the next entry has it.
#[tactic(auto, unfolding(crate::specs::Taken::take_value))]
fn take_flag(entries: &mut Iter<'_, String, Value>, key: &str) -> Result<Option<bool>, AllocError>
    ensures { IfOk result
        (λ flag. (flag, members_view entries.new) ≡ take_value as_bool key.now (members_view entries.old)) }
{
    let mut others = entries.clone()?;
    let Some((name, value)) = others.next() else {
        return Ok(None);
    };
    if name.as_str() != key {
        return Ok(None);
    }
    let Some(flag) = value.as_bool() else {
        return Ok(None);
    };
    *entries = others;
    Ok(Some(flag))
}
