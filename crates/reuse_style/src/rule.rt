//! Rules that give files a style by globs of their names and of their first lines.
ghost use Rattle.std.specs.Prelude.{◌≡◌, ◌&&◌, IfOk, MatchOption, option_and_then, true, false, find, is_some};
ghost use Rattle.std.specs.List.{filter};
ghost use Rattle.std.specs.Option.{option_copied, option_map_or};
ghost use Rattle.reuse_style.specs.Globs.{read_glob};
ghost use Rattle.reuse_style.specs.Rules.{first_line_of, is_glob, is_rule, line_fits, may_fit, rule_of};
ghost use Rattle.reuse_style.specs.RuleViews.{rule_view};
ghost use Rattle.reuse_style.specs.Passing.{passes};

use crate::glob::{Glob, Letters};
use crate::rule_texts::RuleTexts;
use reuse_text::Lines;
use std::alloc::{AllocError, Global};
use std::marker::Model;

/// A rule of a project. Contracts see its globs and the name of its style.
#[derive(Debug, Drop)]
pub struct Rule {
    name: Option<Glob>,
    first_line: Option<Glob>,
    over_table: bool,
    style: String,
}

impl Model for Rule {
    ghost use Rattle.std.specs.Prelude.{string_bytes};
    ghost use Rattle.reuse_style.specs.Rules.{Rule as SpecRule};

    ghost Value = { SpecRule };

    ghost view = { λ rule. record {
      name = rule.name;
      first_line = rule.first_line;
      over_table = rule.over_table;
      style = string_bytes rule.style;
    } };
}

impl Rule {
    /// The rule that texts say, if they say one.
    pub(crate) fn of_texts(alloc: Global, texts: &RuleTexts<'_>) -> Result<Option<Rule>, AllocError>
        ensures { IfOk result (λ found. MatchOption found (is_rule (rule_view texts.now) ≡ false)
            (λ rule. (is_rule (rule_view texts.now) ≡ true) × (rule ≡ rule_of (rule_view texts.now)))) }
    {
        if texts.name.is_none() && texts.first_line.is_none() {
            return Ok(None);
        }
        let Some(name) = glob_of(alloc, texts.name)? else {
            return Ok(None);
        };
        let Some(first_line) = glob_of(alloc, texts.first_line)? else {
            return Ok(None);
        };
        Ok(Some(Rule {
            name,
            first_line,
            over_table: texts.over_table.unwrap_or(false),
            style: String::from_str(alloc, texts.style)?,
        }))
    }

    /// The name of its style.
    pub(crate) fn style(&self) -> &str
        ensures { result.now ≡ self.now.style }
    {
        self.style.as_str()
    }

    /// Whether it may fit a file of this name, which the table of names has or hasn't.
    pub(crate) fn may_fit(&self, in_table: bool, name: &[u8]) -> bool
        ensures { result ≡ may_fit in_table name.now self.now }
    {
        if in_table && !self.over_table {
            return false;
        }
        match &self.name {
            None => true,
            Some(glob) => glob.fits(Letters::AnyCase, name),
        }
    }

    /// Whether it fits a file of this first line, if its name fits.
    pub(crate) fn line_fits(&self, line: Option<&[u8]>) -> bool
        ensures { result ≡ line_fits (option_copied line.entry) self.now }
    {
        match (&self.first_line, line) {
            (None, _) => true,
            (Some(_), None) => false,
            (Some(glob), Some(content)) => glob.fits(Letters::Exact, content),
        }
    }
}

/// Whether a rule, if there is one, asks for a first line.
pub(crate) fn asks_for_line(rule: Option<&Rule>) -> bool
    ensures { result ≡ option_map_or (λ asked. is_some asked.first_line) (option_copied rule.entry) false }
{
    match rule {
        None => false,
        Some(rule) => rule.first_line.is_some(),
    }
}

// The glob that a text spells, if it is there. There is none where the text spells none.
fn glob_of(alloc: Global, text: Option<&str>) -> Result<Option<Option<Glob>>, AllocError>
    ensures { IfOk result (λ found. MatchOption found (is_glob (option_copied text.entry) ≡ false)
        (λ glob. (is_glob (option_copied text.entry) ≡ true)
        × (glob ≡ option_and_then read_glob (option_copied text.entry)))) }
{
    let Some(text) = text else {
        return Ok(Some(None));
    };
    match Glob::read(alloc, text.as_bytes())? {
        None => Ok(None),
        glob => Ok(Some(glob)),
    }
}

/// The content of a file's first line, if there is one.
pub(crate) fn first_line(file: &[u8]) -> Option<&[u8]>
    ensures { option_copied result ≡ first_line_of file.now }
{
    match Lines::new(file).next() {
        None => None,
        Some(line) => Some(line.content),
    }
}

/// What is known of a file's first line.
#[derive(Clone, Copy, Debug)]
pub(crate) enum FirstLine<'f> {
    /// Nothing: the file wasn't read.
    Unread,
    /// Its content, if there is one.
    Read(Option<&'f [u8]>),
}

// Whether a rule may fit a file of this name, and passes by what is known of the first line.
fn can_be_first(rule: &Rule, in_table: bool, name: &[u8], line: FirstLine<'_>) -> bool
    ensures { result ≡ (may_fit in_table name.now rule.now && passes line.entry rule.now) }
{
    rule.may_fit(in_table, name)
        && match line {
            FirstLine::Unread => true,
            FirstLine::Read(line) => rule.line_fits(line),
        }
}

/// The first of some rules that may fit a file of this name, which the table of names has or
/// hasn't, and that passes by what is known of the first line.
pub(crate) fn first_fit<'r>(
    mut rules: &'r [Rule],
    in_table: bool,
    name: &[u8],
    line: FirstLine<'_>,
) -> Option<&'r Rule>
    ensures { option_copied result ≡ find (passes line.entry) (filter (may_fit in_table name.now) rules.entry.now) }
{
    while let Some((rule, others)) = rules.split_first() {
        if can_be_first(rule, in_table, name, line) {
            return Some(rule);
        }
        rules = others;
    }
    None
}
