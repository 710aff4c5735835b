//! The texts of a project's file of comments, by their keys.
ghost use Rattle.std.specs.Prelude.{◌≡◌, codes, IfOk, is_some};
ghost use Rattle.std.specs.Option.{option_copied, option_map};
ghost use Rattle.toml.specs.View.{view, items_view, table_view, members_view};
ghost use Rattle.reuse_style.specs.Taken.{take_text, take_value};
ghost use Rattle.reuse_style.specs.CommentFile.{texts_of_data, texts_of_style, comments_in_table, comments_of_data};
ghost use Rattle.reuse_style.specs.CommentFile.{comments_of_document, is_version_alone, is_shaped, says_block};
ghost use Rattle.reuse_style.specs.CommentFile.{block_of, take_texts, texts_of_array, texts_of_items, has_two_lines};
ghost use Rattle.reuse_style.specs.CommentViews.{list_view, texts_view, named_view, stated_view};
ghost use Rattle.reuse_style.specs.RuleTexts.{rules_of_data};
ghost use Rattle.reuse_style.specs.RuleViews.{rules_view};

use crate::documents::is_version;
use crate::rule_texts::{RuleTexts, rules_of_data};
use std::alloc::{AllocError, Global};
use std::collections::btree_map::Iter;
use toml::{Table, Value};

/// The texts of a style's table, each if its key is there.
#[derive(Drop)]
pub(crate) struct CommentTexts<'t> {
    /// `line`.
    pub(crate) marker: Option<&'t str>,
    /// `line-lead`.
    pub(crate) line_lead: Option<&'t str>,
    /// `open`.
    pub(crate) opener: Option<&'t str>,
    /// `close`.
    pub(crate) closer: Option<&'t str>,
    /// `middle`.
    pub(crate) middle: Option<&'t str>,
    /// `lead`.
    pub(crate) lead: Option<&'t str>,
    /// `last`.
    pub(crate) last_line: Option<&'t str>,
    /// `first-lines`.
    pub(crate) first_lines: Option<Vec<&'t str>>,
    /// `front-matter`.
    pub(crate) front_matter: Option<Vec<&'t str>>,
}

/// Names of styles, each with its texts.
pub(crate) type NamedComments<'t> = Vec<(&'t str, CommentTexts<'t>)>;

/// What a document states: styles and rules, each if its key is there.
#[derive(Drop)]
pub(crate) struct StatedComments<'t> {
    /// `comments`.
    pub(crate) styles: Option<NamedComments<'t>>,
    /// `rules`.
    pub(crate) rules: Option<Vec<RuleTexts<'t>>>,
}

/// What a document states, if its keys and values are as they have to be.
#[tactic(auto, unfolding(crate::specs::CommentFile::comments_of_document))]
pub(crate) fn comments_of_document<'t>(
    alloc: Global,
    document: &'t Table,
) -> Result<Option<StatedComments<'t>>, AllocError>
    ensures { IfOk result
        (λ stated. option_map stated_view stated ≡ comments_of_document (table_view document.now)) }
{
    let mut entries = document.iter();
    let styles = take_comments(alloc, &mut entries)?;
    let rules = take_rules(alloc, &mut entries)?;
    if !is_version_alone(&mut entries) || (styles.is_none() && rules.is_none()) {
        return Ok(None);
    }
    Ok(Some(StatedComments { styles, rules }))
}

// Whether the only entry is the version.
fn is_version_alone(entries: &mut Iter<'_, String, Value>) -> bool
    ensures { result ≡ is_version_alone (members_view entries.old) }
{
    let Some((name, value)) = entries.next() else {
        return false;
    };
    entries.next().is_none() && name.as_str() == "version" && is_version(value)
}

// Takes the table of styles off, if the next entry has it.
#[tactic(auto, unfolding(crate::specs::Taken::take_value))]
fn take_comments<'t>(
    alloc: Global,
    entries: &mut Iter<'t, String, Value>,
) -> Result<Option<NamedComments<'t>>, AllocError>
    ensures { IfOk result (λ named. (named_view named, members_view entries.new)
        ≡ take_value comments_of_data (codes "comments") (members_view entries.old)) }
{
    let mut others = entries.clone()?;
    let Some((name, value)) = others.next() else {
        return Ok(None);
    };
    if name.as_str() != "comments" {
        return Ok(None);
    }
    let Some(named) = comments_of_data(alloc, value)? else {
        return Ok(None);
    };
    *entries = others;
    Ok(Some(named))
}

// Takes the array of rules off, if the next entry has it.
#[tactic(auto, unfolding(crate::specs::Taken::take_value))]
fn take_rules<'t>(
    alloc: Global,
    entries: &mut Iter<'t, String, Value>,
) -> Result<Option<Vec<RuleTexts<'t>>>, AllocError>
    ensures { IfOk result (λ rules. (rules_view rules, members_view entries.new)
        ≡ take_value rules_of_data (codes "rules") (members_view entries.old)) }
{
    let mut others = entries.clone()?;
    let Some((name, value)) = others.next() else {
        return Ok(None);
    };
    if name.as_str() != "rules" {
        return Ok(None);
    }
    let Some(rules) = rules_of_data(alloc, value)? else {
        return Ok(None);
    };
    *entries = others;
    Ok(Some(rules))
}

// The names and texts of a value that is a table of styles' tables.
fn comments_of_data<'t>(
    alloc: Global,
    value: &'t Value,
) -> Result<Option<NamedComments<'t>>, AllocError>
    ensures { IfOk result (λ named. named_view named ≡ comments_of_data (view value.now)) }
{
    match value.as_table() {
        None => Ok(None),
        Some(comments) => comments_in_table(alloc, comments),
    }
}

// The names and texts of a table, if each value is a style's table.
#[tactic(auto, unfolding(crate::specs::CommentFile::comments_in_table))]
fn comments_in_table<'t>(
    alloc: Global,
    comments: &'t Table,
) -> Result<Option<NamedComments<'t>>, AllocError>
    ensures { IfOk result (λ named. comments_in_table (table_view comments.now) ≡ named_view named) }
{
    let mut named = Vec::new(alloc);
    let mut entries = comments.iter();
    while let Some((name, value)) = entries.next() {
        let Some(texts) = texts_of_data(alloc, value)? else {
            return Ok(None);
        };
        named.push((name.as_str(), texts))?;
    }
    Ok(Some(named))
}

// The texts of a value that is a style's table.
fn texts_of_data<'t>(
    alloc: Global,
    value: &'t Value,
) -> Result<Option<CommentTexts<'t>>, AllocError>
    ensures { IfOk result (λ texts. option_map texts_view texts ≡ texts_of_data (view value.now)) }
{
    match value.as_table() {
        None => Ok(None),
        Some(style) => texts_of_style(alloc, style),
    }
}

// The texts of a style's table, if it has no other keys.
#[tactic(auto, unfolding(crate::specs::CommentFile::texts_of_style))]
fn texts_of_style<'t>(
    alloc: Global,
    style: &'t Table,
) -> Result<Option<CommentTexts<'t>>, AllocError>
    ensures { IfOk result (λ texts. option_map texts_view texts ≡ texts_of_style (table_view style.now)) }
{
    let mut entries = style.iter();
    let closer = take_text(&mut entries, "close")?;
    let first_lines = take_texts(alloc, &mut entries, "first-lines")?;
    let front_matter = take_texts(alloc, &mut entries, "front-matter")?;
    let last_line = take_text(&mut entries, "last")?;
    let lead = take_text(&mut entries, "lead")?;
    let marker = take_text(&mut entries, "line")?;
    let line_lead = take_text(&mut entries, "line-lead")?;
    let middle = take_text(&mut entries, "middle")?;
    let opener = take_text(&mut entries, "open")?;
    let None = entries.next() else {
        return Ok(None);
    };
    Ok(Some(CommentTexts {
        marker,
        line_lead,
        opener,
        closer,
        middle,
        lead,
        last_line,
        first_lines,
        front_matter,
    }))
}

/// Takes the text of a key off, if the next entry has it.
#[tactic(auto, unfolding(crate::specs::Taken::take_text))]
pub(crate) fn take_text<'t>(
    entries: &mut Iter<'t, String, Value>,
    key: &str,
) -> Result<Option<&'t str>, AllocError>
    ensures { IfOk result
        (λ text. (option_copied text, members_view entries.new) ≡ take_text key.now (members_view entries.old)) }
{
    let mut others = entries.clone()?;
    let Some((name, value)) = others.next() else {
        return Ok(None);
    };
    if name.as_str() != key {
        return Ok(None);
    }
    let Some(text) = value.as_str() else {
        return Ok(None);
    };
    *entries = others;
    Ok(Some(text))
}

// Takes the list of texts of a key off, if the next entry has it.
#[tactic(auto, unfolding(crate::specs::CommentFile::take_texts))]
fn take_texts<'t>(
    alloc: Global,
    entries: &mut Iter<'t, String, Value>,
    key: &str,
) -> Result<Option<Vec<&'t str>>, AllocError>
    ensures { IfOk result
        (λ texts. (list_view texts, members_view entries.new) ≡ take_texts key.now (members_view entries.old)) }
{
    let mut others = entries.clone()?;
    let Some((name, value)) = others.next() else {
        return Ok(None);
    };
    if name.as_str() != key {
        return Ok(None);
    }
    let Some(texts) = texts_of_array(alloc, value)? else {
        return Ok(None);
    };
    *entries = others;
    Ok(Some(texts))
}

// The texts of an array, if it has nothing else.
fn texts_of_array<'t>(alloc: Global, value: &'t Value) -> Result<Option<Vec<&'t str>>, AllocError>
    ensures { IfOk result (λ texts. list_view texts ≡ texts_of_array (view value.now)) }
{
    match value.as_array() {
        None => Ok(None),
        Some(items) => texts_of_items(alloc, items.as_slice()),
    }
}

#[tactic(auto, unfolding(crate::specs::CommentFile::texts_of_items))]
fn texts_of_items<'t>(
    alloc: Global,
    mut items: &'t [Value],
) -> Result<Option<Vec<&'t str>>, AllocError>
    ensures { IfOk result (λ texts. list_view texts ≡ texts_of_items (items_view items.entry.now)) }
{
    let mut texts = Vec::new(alloc);
    while let [item, others @ ..] = items {
        let Some(text) = item.as_str() else {
            return Ok(None);
        };
        texts.push(text)?;
        items = others;
    }
    Ok(Some(texts))
}

// Whether front matter, if it is said, is two lines.
fn has_two_lines(matter: &Option<Vec<&str>>) -> bool
    ensures { result ≡ has_two_lines (list_view matter.now) }
{
    match matter {
        None => true,
        Some(lines) => matches!(lines.as_slice(), [_, _]),
    }
}

impl<'t> CommentTexts<'t> {
    /// Whether the texts say a form, and nothing of one whose marks they don't say.
    pub(crate) fn is_shaped(&self) -> bool
        ensures { result ≡ is_shaped (texts_view self.now) }
    {
        let has_line = self.marker.is_some();
        let has_block = self.has_block();
        (has_line || has_block)
            && (has_line || self.line_lead.is_none())
            && (has_block || !self.says_block())
            && has_two_lines(&self.front_matter)
    }

    // Whether they say how a comment opens and closes.
    fn has_block(&self) -> bool
        ensures { result ≡ is_some (block_of (texts_view self.now)) }
    {
        self.opener.is_some() && self.closer.is_some()
    }

    // Whether they say what is only of a comment over several lines.
    fn says_block(&self) -> bool
        ensures { result ≡ says_block (texts_view self.now) }
    {
        self.opener.is_some()
            || self.closer.is_some()
            || self.middle.is_some()
            || self.lead.is_some()
            || self.last_line.is_some()
    }
}
