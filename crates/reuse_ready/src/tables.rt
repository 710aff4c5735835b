//! The ready tables: which style a name has, and the table of a ready comment.
ghost use Rattle.std.specs.Prelude.{◌≡◌, ℕ, List, map, find};
ghost use Rattle.std.specs.List.{filter_map, list_any};
ghost use Rattle.std.specs.Option.{option_copied, option_map};
ghost use Rattle.std.specs.Str.{bytes_eq, str_eq_ignore_ascii_case};
ghost use Rattle.reuse_style.specs.Names.{lookup};
ghost use Rattle.reuse_ready.specs.Ready.{ready_style, ready_comment, ready_comments, named, table_names, other_names};
ghost use Rattle.reuse_ready.specs.Ready.{uncommentable_names, later_names};
ghost use Rattle.reuse_ready.specs.Ready.{ready_fronts, ready_rules, listed_style, front_style, begins_with};
ghost use Rattle.reuse_ready.specs.Ready.{ready_name_rules, has_ready_rules, is_named_in};

use crate::comments::READY_COMMENTS;
use crate::other_lines::OTHER_LINES;
use crate::rules::{READY_FRONTS, READY_NAME_RULES, READY_RULES};
use crate::table_lines::TABLE_LINES;
use crate::uncommentable_lines::UNCOMMENTABLE_LINES;

/// A title, or a name with its style, which is the name of a style or `uncommentable`. A name is a
/// last part of paths, or what stands there from the last dot on.
pub type ReadyLine<'a> = (&'a str, Option<&'a str>);

/// The name of a comment style that is none of the table of styles, with its table.
pub type ReadyComment<'a> = (&'a str, &'a str);

/// The beginning of names, or the pattern of first lines, with the style that it gives; or the
/// ending of names, with their rules.
pub type ReadyRule<'a> = (&'a str, &'a str);

/// The lines of the ready names whose style is one of the table.
#[tactic(auto, unfolding(crate::specs::Ready::table_names))]
pub(crate) fn table_names() -> &'static [ReadyLine<'static>]
    ensures { map (λ line. (line.0.now, option_copied line.1)) result.now ≡ table_names }
{
    &TABLE_LINES
}

/// The lines of the ready names without comments.
#[tactic(auto, unfolding(crate::specs::Ready::uncommentable_names))]
pub(crate) fn uncommentable_names() -> &'static [ReadyLine<'static>]
    ensures { map (λ line. (line.0.now, option_copied line.1)) result.now ≡ uncommentable_names }
{
    &UNCOMMENTABLE_LINES
}

/// The lines of the other ready names.
#[tactic(auto, unfolding(crate::specs::Ready::other_names))]
pub(crate) fn other_names() -> &'static [ReadyLine<'static>]
    ensures { map (λ line. (line.0.now, option_copied line.1)) result.now ≡ other_names }
{
    &OTHER_LINES
}

/// The ready comments.
#[tactic(auto, unfolding(crate::specs::Ready::ready_comments))]
pub(crate) fn ready_comments() -> &'static [ReadyComment<'static>]
    ensures { map (λ comment. (comment.0.now, comment.1.now)) result.now ≡ ready_comments }
{
    &READY_COMMENTS
}

/// The beginnings of names that have a ready style.
#[tactic(auto, unfolding(crate::specs::Ready::ready_fronts))]
pub(crate) fn ready_fronts() -> &'static [ReadyRule<'static>]
    ensures { map (λ front. (front.0.now, front.1.now)) result.now ≡ ready_fronts }
{
    &READY_FRONTS
}

/// The patterns of first lines that have a ready style.
#[tactic(auto, unfolding(crate::specs::Ready::ready_rules))]
pub(crate) fn ready_rules() -> &'static [ReadyRule<'static>]
    ensures { map (λ rule. (rule.0.now, rule.1.now)) result.now ≡ ready_rules }
{
    &READY_RULES
}

/// The endings of names that have ready rules.
#[tactic(auto, unfolding(crate::specs::Ready::ready_name_rules))]
pub(crate) fn ready_name_rules() -> &'static [ReadyRule<'static>]
    ensures { map (λ rules. (rules.0.now, rules.1.now)) result.now ≡ ready_name_rules }
{
    &READY_NAME_RULES
}

/// Whether there are ready rules for a name, where letters of either case are the same.
pub fn has_ready_rules(name: &[u8]) -> bool
    ensures { result ≡ has_ready_rules name.now }
{
    is_named_in(ready_name_rules(), name)
}

// Whether a name is one of those that some rules are for.
fn is_named_in(mut rules: &[ReadyRule<'_>], name: &[u8]) -> bool
    ensures { result ≡ is_named_in (map (λ rules. (rules.0.now, rules.1.now)) rules.entry.now) name.now }
{
    while let [first, others @ ..] = rules {
        if same_name(first.0, name) {
            return true;
        }
        rules = others;
    }
    false
}

/// The ready style of a name, where letters of either case are the same: by the whole name, or else
/// by its beginning.
pub fn ready_style(name: &[u8]) -> Option<&'static str>
    ensures { option_copied result ≡ ready_style name.now }
{
    match listed_style(name) {
        None => front_style(ready_fronts(), name),
        Some(style) => Some(style),
    }
}

// The style of the ready name that is the same.
fn listed_style(name: &[u8]) -> Option<&'static str>
    ensures { option_copied result ≡ listed_style name.now }
{
    match table_style(name) {
        None => later_style(name),
        Some(style) => Some(style),
    }
}

// The style of a name that is none of these of the table.
fn later_style(name: &[u8]) -> Option<&'static str>
    ensures { option_copied result ≡ lookup (filter_map named later_names) name.now }
{
    match uncommentable_style(name) {
        None => other_style(name),
        Some(style) => Some(style),
    }
}

// The style of a name, if it is one of the table of styles.
fn table_style(name: &[u8]) -> Option<&'static str>
    ensures { option_copied result ≡ lookup (filter_map named table_names) name.now }
{
    style_in(table_names(), name)
}

// What a name has that has no comment.
fn uncommentable_style(name: &[u8]) -> Option<&'static str>
    ensures { option_copied result ≡ lookup (filter_map named uncommentable_names) name.now }
{
    style_in(uncommentable_names(), name)
}

// The style of another name.
fn other_style(name: &[u8]) -> Option<&'static str>
    ensures { option_copied result ≡ lookup (filter_map named other_names) name.now }
{
    style_in(other_names(), name)
}

// The style that some lines have for a name.
#[tactic(auto, unfolding(reuse_style::specs::Names::lookup))]
fn style_in<'a>(mut lines: &[ReadyLine<'a>], name: &[u8]) -> Option<&'a str>
    ensures { option_copied result ≡ lookup
        (filter_map named (map (λ line. (line.0.now, option_copied line.1)) lines.entry.now)) name.now }
{
    while let [line, others @ ..] = lines {
        if let (other, Some(style)) = line {
            if same_name(other, name) {
                return Some(style);
            }
        }
        lines = others;
    }
    None
}

// The style of the first of some beginnings that a name has.
fn front_style<'a>(mut fronts: &[ReadyRule<'a>], name: &[u8]) -> Option<&'a str>
    ensures { option_copied result ≡
        front_style (map (λ front. (front.0.now, front.1.now)) fronts.entry.now) name.now }
{
    while let [front, others @ ..] = fronts {
        if begins_with(front.0, name) {
            return Some(front.1);
        }
        fronts = others;
    }
    None
}

// Whether a name begins so, but for the case of ASCII letters.
fn begins_with(front: &str, name: &[u8]) -> bool
    ensures { result ≡ begins_with front.now name.now }
{
    if name.len() < front.len() {
        return false;
    }
    same_name(front, &name[..front.len()])
}

/// Whether two names are the same but for the case of ASCII letters.
pub(crate) fn same_name(a: &str, b: &[u8]) -> bool
    ensures { result ≡ str_eq_ignore_ascii_case a.now b.now }
{
    a.as_bytes().eq_ignore_ascii_case(b)
}

/// The table of the ready comment that has a name.
pub fn ready_comment(name: &str) -> Option<&'static str>
    ensures { option_copied result ≡ ready_comment name.now }
{
    table_named(ready_comments(), name)
}

// The table of the first of some comments that has a name.
fn table_named<'a>(mut comments: &[ReadyComment<'a>], name: &str) -> Option<&'a str>
    ensures { option_copied result ≡ option_map (λ (comment : List ℕ × List ℕ). comment.1)
        (find (λ comment. bytes_eq comment.0 name.now)
        (map (λ comment. (comment.0.now, comment.1.now)) comments.entry.now)) }
{
    while let [comment, others @ ..] = comments {
        if comment.0 == name {
            return Some(comment.1);
        }
        comments = others;
    }
    None
}
