//! What the ready tables add for counted names.
ghost use Rattle.std.specs.Prelude.{◌≡◌, ◌∷◌, ◌++◌, [], IfOk, OnOk, false, map, filter};
ghost use Rattle.std.specs.List.{filter_map, list_any};
ghost use Rattle.std.specs.Option.{option_map_or};
ghost use Rattle.std.specs.Str.{bytes_eq, str_eq_ignore_ascii_case};
ghost use Rattle.reuse_ready.specs.Needed.{additions_of, name_addition, table_addition, is_needed};
ghost use Rattle.reuse_ready.specs.Needed.{needed_rules, rule_addition, is_bare};
ghost use Rattle.reuse_ready.specs.Needed.{is_counted, name_rules_addition, needed_name_rules};

use crate::name_count::NameCount;
use crate::tables::{
    ReadyComment, ReadyRule, ready_comments, ready_name_rules, ready_rules, same_name,
};
use crate::texts::{push_name_rule_line, push_pattern_line, push_pattern_rule};
use reuse_change::FixedList;
use reuse_text::Bytes;
use std::alloc::{AllocError, Global};

/// A name that is to get a style in a file of styles.
#[derive(Debug, Drop)]
pub struct NameAddition {
    /// The name.
    pub name: Bytes,
    /// The name of its style, or `uncommentable`.
    pub style: Bytes,
}

/// A comment style that is to stand in a file of comments.
#[derive(Debug, Drop)]
pub struct TableAddition {
    /// The name of the style.
    pub name: Bytes,
    /// Its table, with a comment above it.
    pub table: Bytes,
}

/// Rules that are to stand in a file of comments.
#[derive(Debug, Drop)]
pub struct RuleAddition {
    /// The line that says for which files they are, by which a file of comments has them already.
    pub line: Bytes,
    /// The rules, as they stand there.
    pub rules: Bytes,
}

/// What is to be added to a tree's own files, where they lack it.
#[derive(Debug, Drop)]
pub struct StyleAdditions {
    /// For the file of styles.
    pub names: FixedList<NameAddition>,
    /// For the file of comments.
    pub tables: FixedList<TableAddition>,
    /// For the file of comments, behind these.
    pub rules: FixedList<RuleAddition>,
}

/// The counted names that have a ready style, the ready comments that are styles of them, and the
/// ready rules for counted names. Where a name without an ending has no style, the ready rules for
/// first lines, too, since the file may be a script.
#[tactic(auto, unfolding(crate::specs::Needed::additions_of))]
pub fn additions_of(alloc: Global, rows: &[NameCount]) -> Result<StyleAdditions, AllocError>
    ensures { IfOk result (λ additions. additions ≡ additions_of rows.now) }
{
    let names = names_with_styles(alloc, rows)?;
    let tables = needed_tables(alloc, ready_comments(), rows)?;
    let mut rules = needed_rules(alloc, ready_rules(), rows)?;
    push_name_rules(alloc, &mut rules, ready_name_rules(), rows)?;
    Ok(StyleAdditions {
        names: FixedList::new(names),
        tables: FixedList::new(tables),
        rules: FixedList::new(rules),
    })
}

// The counted names that have a ready style.
fn names_with_styles(alloc: Global, rows: &[NameCount]) -> Result<Vec<NameAddition>, AllocError>
    ensures { IfOk result (λ names. names.items ≡ filter_map name_addition rows.now) }
{
    let mut names = Vec::new(alloc);
    for row in rows {
        push_name(alloc, &mut names, row)?;
    }
    Ok(names)
}

// Adds a counted name, if it has a ready style.
fn push_name(
    alloc: Global,
    names: &mut Vec<NameAddition>,
    row: &NameCount,
) -> Result<(), AllocError>
    ensures { OnOk result (names.new.items ≡ names.old.items ++ filter_map name_addition (row.now ∷ [])) }
{
    if let Some(style) = &row.style {
        let name = row.name.try_clone(alloc)?;
        let style = style.try_clone(alloc)?;
        names.push(NameAddition { name, style })?;
    }
    Ok(())
}

// The comments that are styles of counted names.
fn needed_tables(
    alloc: Global,
    comments: &[ReadyComment<'_>],
    rows: &[NameCount],
) -> Result<Vec<TableAddition>, AllocError>
    ensures { IfOk result (λ tables. tables.items ≡ filter (λ addition. is_needed rows.now addition.name)
        (map table_addition (map (λ comment. (comment.0.now, comment.1.now)) comments.now))) }
{
    let mut tables = Vec::new(alloc);
    for (style, text) in comments {
        if is_needed(rows, style.as_bytes()) {
            let name = Bytes::from_slice(alloc, style.as_bytes())?;
            let table = Bytes::from_slice(alloc, text.as_bytes())?;
            tables.push(TableAddition { name, table })?;
        }
    }
    Ok(tables)
}

// Whether a counted name has this style.
fn is_needed(rows: &[NameCount], style: &[u8]) -> bool
    ensures { result ≡ is_needed rows.now style.now }
{
    rows.iter().any(|row| has_style(row, style))
}

fn has_style(row: &NameCount, style: &[u8]) -> bool
    ensures { result ≡ option_map_or (λ own. bytes_eq own style.now) row.now.style false }
{
    match &row.style {
        None => false,
        Some(own) => own.as_slice() == style,
    }
}

// The rules, where a counted name may be a script's.
fn needed_rules(
    alloc: Global,
    rules: &[ReadyRule<'_>],
    rows: &[NameCount],
) -> Result<Vec<RuleAddition>, AllocError>
    ensures { IfOk result (λ needed. needed.items ≡
        needed_rules rows.now (map (λ rule. (rule.0.now, rule.1.now)) rules.now)) }
{
    if is_any_bare(rows) {
        rule_additions(alloc, rules)
    } else {
        Ok(Vec::new(alloc))
    }
}

// Whether a counted name may be a script's.
fn is_any_bare(rows: &[NameCount]) -> bool
    ensures { result ≡ list_any is_bare rows.now }
{
    rows.iter().any(|row| is_bare(row))
}

// Whether a counted name has no ending and no ready style.
fn is_bare(row: &NameCount) -> bool
    ensures { result ≡ is_bare row.now }
{
    row.style.is_none() && !row.name.as_slice().contains(&b'.')
}

// All of some rules.
fn rule_additions(alloc: Global, rules: &[ReadyRule<'_>]) -> Result<Vec<RuleAddition>, AllocError>
    ensures { IfOk result (λ additions. additions.items ≡
        map rule_addition (map (λ rule. (rule.0.now, rule.1.now)) rules.now)) }
{
    let mut additions = Vec::new(alloc);
    for rule in rules {
        additions.push(rule_addition(alloc, rule)?)?;
    }
    Ok(additions)
}

fn rule_addition(alloc: Global, rule: &ReadyRule<'_>) -> Result<RuleAddition, AllocError>
    ensures { IfOk result (λ addition. addition ≡ rule_addition (rule.now.0.now, rule.now.1.now)) }
{
    let mut line = Bytes::new(alloc);
    push_pattern_line(&mut line, rule.0.as_bytes())?;
    let mut rules = Bytes::new(alloc);
    push_pattern_rule(&mut rules, rule.0.as_bytes(), rule.1.as_bytes())?;
    Ok(RuleAddition { line, rules })
}

// Adds the rules that are for counted names.
fn push_name_rules(
    alloc: Global,
    needed: &mut Vec<RuleAddition>,
    rules: &[ReadyRule<'_>],
    rows: &[NameCount],
) -> Result<(), AllocError>
    ensures { OnOk result (needed.new.items ≡ needed.old.items
        ++ needed_name_rules rows.now (map (λ rule. (rule.0.now, rule.1.now)) rules.now)) }
{
    for rule in rules {
        if is_counted(rows, rule.0) {
            needed.push(name_rules_addition(alloc, rule)?)?;
        }
    }
    Ok(())
}

// Whether a name is a counted one.
fn is_counted(rows: &[NameCount], name: &str) -> bool
    ensures { result ≡ is_counted rows.now name.now }
{
    rows.iter().any(|row| same_name(name, row.name.as_slice()))
}

fn name_rules_addition(alloc: Global, rule: &ReadyRule<'_>) -> Result<RuleAddition, AllocError>
    ensures { IfOk result (λ addition. addition ≡ name_rules_addition (rule.now.0.now, rule.now.1.now)) }
{
    let mut line = Bytes::new(alloc);
    push_name_rule_line(&mut line, rule.0.as_bytes())?;
    let rules = Bytes::from_slice(alloc, rule.1.as_bytes())?;
    Ok(RuleAddition { line, rules })
}
