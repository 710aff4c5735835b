//! The styles and the rules that a project says itself (`.reuse/comments.toml`).
ghost use Rattle.std.specs.Prelude.{◌≡◌, [], None, Ok, IfOk, IfErr, IsOk, MatchOption, map};
ghost use Rattle.std.specs.Prelude.{false, true, Some, Err, is_some};
ghost use Rattle.std.specs.List.{list_all};
ghost use Rattle.std.specs.Option.{option_copied};
ghost use Rattle.reuse_style.specs.CommentFile.{comments_of, comments_in, comments_by, is_shaped, IsCommentsRefused};
ghost use Rattle.reuse_style.specs.CommentFile.{checked_rules, first_stray, own_comments};
ghost use Rattle.reuse_style.specs.CommentViews.{texts_view, stated_view};
ghost use Rattle.reuse_style.specs.Documents.{read_document};
ghost use Rattle.reuse_style.specs.RuleViews.{rule_view};
ghost use Rattle.reuse_style.specs.Rules.{is_rule, rule_of};
ghost use Rattle.reuse_style.specs.StyleFile.{own_style_named};

use crate::comment_table::CommentTable;
use crate::comment_texts::{CommentTexts, StatedComments, comments_of_document};
use crate::comments_refusal::CommentsRefusal;
use crate::documents::read_document;
use crate::rule::Rule;
use crate::rule_texts::RuleTexts;
use crate::style::Kind;
use std::alloc::{AllocError, Global};
use std::marker::Model;

/// The styles and the rules that a project says itself.
#[derive(Debug, Drop)]
pub struct CommentRules {
    pub(crate) comments: CommentTable,
    pub(crate) rules: Vec<Rule>,
}

impl Model for CommentRules {
    ghost use Rattle.reuse_style.specs.Rules.{CommentRules as SpecRules};

    ghost Value = { SpecRules };

    ghost view = { λ own. record { styles = own.comments; rules = own.rules.items } };
}

impl CommentRules {
    /// No styles and no rules.
    pub fn none(alloc: Global) -> CommentRules
        ensures { result ≡ record { styles = []; rules = [] } }
    {
        CommentRules {
            comments: CommentTable::none(alloc),
            rules: Vec::new(alloc),
        }
    }

    /// The styles and rules by a project's file of comments. Where there is no file, there are none.
    pub fn read(alloc: Global, file: Option<&[u8]>) -> Result<CommentRules, CommentsRefusal>
        ensures ok { IfOk result (λ own. comments_of (option_copied file.entry) ≡ Ok own) }
        ensures refused { IfErr result (λ refusal. IsCommentsRefused (comments_of (option_copied file.entry)) refusal) }
        ensures absent { file.entry ≡ None → IsOk result }
    {
        let Some(bytes) = file else {
            return Ok(CommentRules::none(alloc));
        };
        read_comments(alloc, bytes)
    }

    /// Whether one of the styles has a name.
    pub fn has_style(&self, name: &[u8]) -> bool
        ensures { result ≡ is_some (own_style_named self.now.styles name.now) }
    {
        self.comments.has(name)
    }
}

// The styles and rules that a file says.
fn read_comments(alloc: Global, file: &[u8]) -> Result<CommentRules, CommentsRefusal>
    ensures ok { IfOk result (λ own. comments_in (read_document file.now) ≡ Ok own) }
    ensures refused { IfErr result (IsCommentsRefused (comments_in (read_document file.now))) }
{
    let Some(document) = read_document(alloc, file)? else {
        return Err(CommentsRefusal::NotToml);
    };
    let Some(stated) = comments_of_document(alloc, &document)? else {
        return Err(CommentsRefusal::BadShape);
    };
    comments_stated(alloc, stated)
}

// The styles and rules of what is stated.
fn comments_stated(
    alloc: Global,
    stated: StatedComments<'_>,
) -> Result<CommentRules, CommentsRefusal>
    ensures ok { IfOk result (λ own. own_comments (Some (stated_view stated.entry)) ≡ Ok own) }
    ensures refused { IfErr result (IsCommentsRefused (own_comments (Some (stated_view stated.entry)))) }
{
    let named = stated.styles.unwrap_or(Vec::new(alloc));
    let rules = stated.rules.unwrap_or(Vec::new(alloc));
    comments_by(alloc, named.as_slice(), rules.as_slice())
}

// The styles and rules of texts.
fn comments_by(
    alloc: Global,
    named: &[(&str, CommentTexts<'_>)],
    texts: &[RuleTexts<'_>],
) -> Result<CommentRules, CommentsRefusal>
    ensures ok { IfOk result (λ own. comments_by (map (λ t. (t.0.now, texts_view t.1)) named.now)
        (map rule_view texts.now) ≡ Ok own) }
    ensures refused { IfErr result (IsCommentsRefused
        (comments_by (map (λ t. (t.0.now, texts_view t.1)) named.now) (map rule_view texts.now))) }
{
    if !are_styles(named) {
        return Err(CommentsRefusal::BadShape);
    }
    let Some(rules) = rules_of_texts(alloc, texts)? else {
        return Err(CommentsRefusal::BadShape);
    };
    let comments = CommentTable::of_texts(alloc, named)?;
    beside(comments, rules)
}

// Whether all texts say forms, and nothing else.
fn are_styles(named: &[(&str, CommentTexts<'_>)]) -> bool
    ensures { result ≡ list_all (λ t. is_shaped (texts_view t.1)) named.now }
{
    named.iter().all(|style| style.1.is_shaped())
}

// The rules that texts say, if each says one.
fn rules_of_texts(
    alloc: Global,
    mut texts: &[RuleTexts<'_>],
) -> Result<Option<Vec<Rule>>, AllocError>
    ensures { IfOk result (λ found. MatchOption found (list_all is_rule (map rule_view texts.entry.now) ≡ false)
        (λ rules. (list_all is_rule (map rule_view texts.entry.now) ≡ true)
        × (rules.items ≡ map rule_of (map rule_view texts.entry.now)))) }
{
    let mut rules = Vec::new(alloc);
    while let [said, others @ ..] = texts {
        let Some(rule) = Rule::of_texts(alloc, said)? else {
            return Ok(None);
        };
        rules.push(rule)?;
        texts = others;
    }
    Ok(Some(rules))
}

// Rules beside styles, unless one names no style.
fn beside(comments: CommentTable, rules: Vec<Rule>) -> Result<CommentRules, CommentsRefusal>
    ensures ok { IfOk result (λ own. checked_rules rules.items (Ok comments) ≡ Ok own) }
    ensures refused { IfErr result (λ refusal. checked_rules rules.items (Ok comments) ≡ Err refusal) }
{
    match first_stray(rules.as_slice(), &comments) {
        Some(number) => Err(CommentsRefusal::BadRule(number)),
        None => Ok(CommentRules { comments, rules }),
    }
}

// The number of the first rule that names no style.
fn first_stray(mut rules: &[Rule], comments: &CommentTable) -> Option<usize>
    ensures { result ≡ first_stray comments.now rules.entry.now }
{
    let mut number = 1;
    while let [rule, others @ ..] = rules {
        if Kind::named(rule.style(), comments).is_none() {
            return Some(number);
        }
        number += 1;
        rules = others;
    }
    None
}
