//! The kinds of files: by a project's own names, by its rules and by the table of names.
ghost use Rattle.std.specs.Prelude.{◌≡◌, ℕ, List, IfOk, IfErr, IsOk, None, Ok, find};
ghost use Rattle.std.specs.Option.{option_copied};
ghost use Rattle.std.specs.Ordering.{nat_cmp};
ghost use Rattle.std.specs.Cmp.Lexicographic.{slice_cmp};
ghost use Rattle.std.specs.Str.{str_to_ascii_lowercase};
ghost use Rattle.reuse_style.specs.Names.{lookup, joined, kind_in, table_of_names};
ghost use Rattle.reuse_style.specs.StyleFile.{styles_of, IsRefused};
ghost use Rattle.reuse_style.specs.Keyed.{AreKeys};
ghost use Rattle.reuse_style.specs.Kinds.{candidates, kind_by, kind_of_file, kind_unread, kinds_by, has_part, part_of};
ghost use Rattle.reuse_style.specs.Passing.{passes};

use crate::comment_rules::CommentRules;
use crate::rule::{FirstLine, Rule, asks_for_line, first_fit, first_line};
use crate::style::Kind;
use crate::style_file::read_names;
use crate::style_refusal::StylesRefusal;
use crate::table::{ending, table_kind_of};
use reuse_text::{Bytes, last_part};
use std::alloc::{AllocError, Global};
use std::cmp::Ordering;
use std::collections::BTreeMap;
use std::marker::Model;

/// What a project says of the kinds of its files: its own names, and its styles with its rules.
/// Contracts see the kinds that the names have, and the styles and rules.
#[derive(Debug, Drop)]
pub struct StyleTable<'a> {
    // In lower case and in byte order.
    entries: Vec<(Bytes, Kind<'a>)>,
    comments: &'a CommentRules,
}

impl<'a> Model for StyleTable<'a> {
    ghost use Rattle.reuse_style.specs.Keyed.{AreKeys};
    ghost use Rattle.reuse_style.specs.Kinds.{OwnEntries};

    ghost Value = { OwnEntries };

    ghost view = { λ table. record { entries = table.entries.items; comments = table.comments.now } };

    ghost invariant = { λ table. AreKeys table.entries.items };
}

impl<'a> StyleTable<'a> {
    /// What a project's file of styles says, which may name the project's own comments, beside its
    /// comments and rules. Where there is no file, there are no own names.
    pub fn read(
        alloc: Global,
        comments: &'a CommentRules,
        file: Option<&[u8]>,
    ) -> Result<StyleTable<'a>, StylesRefusal>
        ensures names { IfOk result
            (λ table. styles_of comments.now.styles (option_copied file.entry) ≡ Ok (lookup table.entries)) }
        ensures comments { IfOk result (λ table. table.comments ≡ comments.now) }
        ensures refused { IfErr result
            (λ refusal. IsRefused (styles_of comments.now.styles (option_copied file.entry)) refusal) }
        ensures absent { file.entry ≡ None → IsOk result }
    {
        let Some(bytes) = file else {
            let entries = Vec::new(alloc);
            return Ok(StyleTable { entries, comments });
        };
        let names = read_names(alloc, &comments.comments, bytes)?;
        Ok(StyleTable::of_names(alloc, comments, names)?)
    }

    // The names in lower case, beside comments and rules.
    fn of_names(
        alloc: Global,
        comments: &'a CommentRules,
        names: BTreeMap<Bytes, Kind<'a>>,
    ) -> Result<StyleTable<'a>, AllocError>
        requires { AreKeys names.entries }
        ensures { IfOk result
            (λ table. table ≡ record { entries = names.entry.entries; comments = comments.now }) }
    {
        let entries = names.into_iter().collect(alloc)?;
        Ok(StyleTable { entries, comments })
    }

    /// The kind of a file by its path and its bytes: that of the first rule that fits it, and else
    /// that of the path's last part, by its whole name or else by its ending. A rule fits no file of
    /// an own name, and none of a name of the table unless it stands before that.
    pub fn style_of(&self, name: &str, file: &[u8]) -> Kind<'a>
        ensures { result ≡ kind_of_file (kinds_by self.now) name.now file.now }
    {
        self.kind_by(
            name,
            self.first_rule(name, FirstLine::Read(first_line(file))),
        )
    }

    /// The kind of a file by its path, if it is the same whatever the file holds: unless the first
    /// rule that may fit it asks for a first line.
    pub fn style_unread(&self, name: &str) -> Option<Kind<'a>>
        ensures { result ≡ kind_unread (kinds_by self.now) name.now }
    {
        let rule = self.first_rule(name, FirstLine::Unread);
        if asks_for_line(rule) {
            None
        } else {
            Some(self.kind_by(name, rule))
        }
    }

    // The kind by a rule, or by the name if there is none.
    fn kind_by(&self, name: &str, rule: Option<&Rule>) -> Kind<'a>
        ensures { result ≡ kind_by (kinds_by self.now) name.now (option_copied rule.entry) }
    {
        match rule {
            None => self.kind_in(last_part(name.as_bytes())),
            Some(rule) => {
                let own = self.comments;
                Kind::named(rule.style(), &own.comments).unwrap_or(Kind::Unknown)
            }
        }
    }

    // The first of the rules that may give a file of this path its kind which a first line passes.
    fn first_rule(&self, name: &str, line: FirstLine<'_>) -> Option<&'a Rule>
        ensures { option_copied result ≡ find (passes line.entry) (candidates (kinds_by self.now) name.now) }
    {
        let part = last_part(name.as_bytes());
        if self.has_part(part) {
            return None;
        }
        let own = self.comments;
        first_fit(own.rules.as_slice(), table_has_part(part), part, line)
    }

    // Whether the own names have a path's last part, or its ending.
    fn has_part(&self, part: &[u8]) -> bool
        ensures { result ≡ has_part (lookup self.now.entries) part.now }
    {
        self.own_kind(part)
            .or(self.own_kind(ending(part)))
            .is_some()
    }

    // The kind of a path's last part, by its whole name or else by its ending, where letters of
    // either case are the same, and the project's own names come before the table's.
    fn kind_in(&self, part: &[u8]) -> Kind<'a>
        ensures { (path : List ℕ) → part.now ≡ part_of path → result ≡ kind_in (lookup self.now.entries) path }
    {
        self.joined(part)
            .or(self.joined(ending(part)))
            .unwrap_or(Kind::Unknown)
    }

    // The kind of a name, its own or else the table's.
    fn joined(&self, name: &[u8]) -> Option<Kind<'a>>
        ensures { result ≡ joined (lookup self.now.entries) name.now }
    {
        match self.own_kind(name) {
            None => table_kind_of(name),
            own => own,
        }
    }

    /// The kind that the project's own names give a name.
    pub fn own_kind(&self, name: &[u8]) -> Option<Kind<'a>>
        ensures { result ≡ lookup self.now.entries name.now }
    {
        let found = self
            .entries
            .binary_search_by(|entry| compare_lowered(entry.0.as_slice(), name));
        match found {
            Ok(place) => Some(self.entries[place].1.lent()),
            Err(_) => None,
        }
    }
}

// How bytes compare to a name in lower case.
fn compare_lowered(mut lowered: &[u8], mut name: &[u8]) -> Ordering
    ensures { result ≡ slice_cmp nat_cmp lowered.entry.now (str_to_ascii_lowercase name.entry.now) }
{
    while let [first, others @ ..] = lowered {
        let [other, rest @ ..] = name else {
            return Ordering::Greater;
        };
        match first.cmp(&other.to_ascii_lowercase()) {
            Ordering::Equal => {}
            unequal => return unequal,
        }
        lowered = others;
        name = rest;
    }
    if name.is_empty() {
        Ordering::Equal
    } else {
        Ordering::Less
    }
}

// Whether the table of names has a path's last part, or its ending.
fn table_has_part(part: &[u8]) -> bool
    ensures { result ≡ has_part (lookup table_of_names) part.now }
{
    table_kind_of(part)
        .or(table_kind_of(ending(part)))
        .is_some()
}
