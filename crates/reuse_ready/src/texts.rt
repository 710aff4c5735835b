//! The texts that list the ready tables, as a tree's own files have them.
ghost use Rattle.std.specs.Prelude.{◌≡◌, ◌++◌, IfOk, OnOk, codes, map};
ghost use Rattle.std.specs.Option.{option_copied};
ghost use Rattle.std.specs.List.{flat_map};
ghost use Rattle.reuse_ready.specs.Ready.{ready_styles_text, ready_comments_text, line_text, title_line, comment_text};
ghost use Rattle.reuse_ready.specs.Ready.{front_text, rule_text, fronts_text, rules_text, ready_name_rules};
ghost use Rattle.reuse_ready.specs.Ready.{pattern_line, pattern_rule, name_rule_line};
ghost use Rattle.reuse_ready.specs.Additions.{name_line};

use crate::tables::{
    ReadyComment, ReadyLine, ReadyRule, other_names, ready_comments, ready_fronts,
    ready_name_rules, ready_rules, table_names, uncommentable_names,
};
use reuse_text::Bytes;
use std::alloc::{AllocError, Global};

/// What stands above the names.
pub const STYLES_TOP: &str = "\
# Ready styles for names that the program doesn't know by itself. `reuse-undo styles --add` adds to a
# tree's .reuse/styles.toml those that it needs, and to its .reuse/comments.toml the ready comments
# that these need. Whoever copies this file there copies comments.toml, too, which the last groups
# name. A name is a whole last part of a path, or what stands from its last dot on; letters of either
# case are the same. Each style is of a comment that may stand at the very top of such a file. What
# is in doubt is left out, but for the groups that say so.
version = 1

[styles]
";

/// What stands above the comments.
pub const COMMENTS_TOP: &str = "\
# Ready comments, which ready styles name. Each is of a comment that may stand at the very top of a
# file, or behind the lines that it names. Behind them are the ready rules.
version = 1
";

/// What stands above the rules for names.
pub const FRONTS_TITLE: &str = "Files for one purpose each, such as Dockerfile.dev";

/// What stands above the rules for first lines.
pub const RULES_TITLE: &str =
    "Scripts without an ending, by the interpreter that their first line names";

/// The file of styles that has all ready names.
#[tactic(auto, unfolding(crate::specs::Ready::ready_styles_text))]
pub fn ready_styles_text(alloc: Global) -> Result<Bytes, AllocError>
    ensures { IfOk result (λ text. text ≡ ready_styles_text) }
{
    let mut text = Bytes::from_slice(alloc, STYLES_TOP.as_bytes())?;
    push_lines(&mut text, table_names())?;
    push_lines(&mut text, uncommentable_names())?;
    push_lines(&mut text, other_names())?;
    Ok(text)
}

/// The file of comments that has all ready comments and rules.
#[tactic(auto, unfolding(crate::specs::Ready::ready_comments_text))]
pub fn ready_comments_text(alloc: Global) -> Result<Bytes, AllocError>
    ensures { IfOk result (λ text. text ≡ ready_comments_text) }
{
    let mut text = Bytes::from_slice(alloc, COMMENTS_TOP.as_bytes())?;
    push_comments(&mut text, ready_comments())?;
    push_ready_fronts(&mut text)?;
    push_ready_rules(&mut text)?;
    push_comments(&mut text, ready_name_rules())?;
    Ok(text)
}

// Adds the ready rules for names.
#[tactic(auto, unfolding(crate::specs::Ready::fronts_text))]
fn push_ready_fronts(text: &mut Bytes) -> Result<(), AllocError>
    ensures { OnOk result (text.new ≡ text.old ++ fronts_text) }
{
    push_title(text, FRONTS_TITLE)?;
    push_fronts(text, ready_fronts())
}

// Adds the ready rules for first lines.
#[tactic(auto, unfolding(crate::specs::Ready::rules_text))]
fn push_ready_rules(text: &mut Bytes) -> Result<(), AllocError>
    ensures { OnOk result (text.new ≡ text.old ++ rules_text) }
{
    push_title(text, RULES_TITLE)?;
    push_rules(text, ready_rules())
}

// Adds lines of the list of ready names.
fn push_lines(text: &mut Bytes, lines: &[ReadyLine<'_>]) -> Result<(), AllocError>
    ensures { OnOk result (text.new ≡ text.old ++ flat_map line_text
        (map (λ line. (line.0.now, option_copied line.1)) lines.now)) }
{
    for line in lines {
        match line {
            (title, None) => push_title(text, title)?,
            (name, Some(style)) => push_name_line(text, name.as_bytes(), style.as_bytes())?,
        }
    }
    Ok(())
}

// Adds a title, as a comment behind an empty line.
#[tactic(auto, unfolding(crate::specs::Ready::title_line))]
fn push_title(text: &mut Bytes, title: &str) -> Result<(), AllocError>
    ensures { OnOk result (text.new ≡ text.old ++ title_line title.now) }
{
    text.push_slice(b"\n# ")?;
    text.push_slice(title.as_bytes())?;
    text.push_slice(b"\n")
}

/// Adds the line of a file of styles that gives a name a style.
pub(crate) fn push_name_line(text: &mut Bytes, name: &[u8], style: &[u8]) -> Result<(), AllocError>
    ensures { OnOk result (text.new ≡ text.old ++ name_line (record { name = name.now; style = style.now })) }
{
    text.push_slice(b"\"")?;
    text.push_slice(name)?;
    text.push_slice(b"\" = \"")?;
    text.push_slice(style)?;
    text.push_slice(b"\"\n")
}

// Adds the tables of comments, or the rules for names.
fn push_comments(text: &mut Bytes, comments: &[ReadyComment<'_>]) -> Result<(), AllocError>
    ensures { OnOk result
        (text.new ≡ text.old ++ flat_map comment_text (map (λ comment. (comment.0.now, comment.1.now)) comments.now)) }
{
    for comment in comments {
        push_table(text, comment.1.as_bytes())?;
    }
    Ok(())
}

// Adds rules for names that begin so.
fn push_fronts(text: &mut Bytes, fronts: &[ReadyRule<'_>]) -> Result<(), AllocError>
    ensures { OnOk result
        (text.new ≡ text.old ++ flat_map front_text (map (λ front. (front.0.now, front.1.now)) fronts.now)) }
{
    for (front, style) in fronts {
        push_front(text, front.as_bytes(), style.as_bytes())?;
    }
    Ok(())
}

// Adds a rule for names that begin so, behind an empty line.
#[tactic(auto, unfolding(crate::specs::Ready::front_text))]
fn push_front(text: &mut Bytes, front: &[u8], style: &[u8]) -> Result<(), AllocError>
    ensures { OnOk result (text.new ≡ text.old ++ front_text (front.now, style.now)) }
{
    text.push_slice(b"\n[[rules]]\nname = \"")?;
    text.push_slice(front)?;
    text.push_slice(b"*\"\nstyle = \"")?;
    text.push_slice(style)?;
    text.push_slice(b"\"\n")
}

// Adds rules for first lines.
fn push_rules(text: &mut Bytes, rules: &[ReadyRule<'_>]) -> Result<(), AllocError>
    ensures { OnOk result
        (text.new ≡ text.old ++ flat_map rule_text (map (λ rule. (rule.0.now, rule.1.now)) rules.now)) }
{
    for (pattern, style) in rules {
        push_ready_rule(text, pattern.as_bytes(), style.as_bytes())?;
    }
    Ok(())
}

// Adds a ready rule for first lines.
#[tactic(auto, unfolding(crate::specs::Ready::rule_text))]
fn push_ready_rule(text: &mut Bytes, pattern: &[u8], style: &[u8]) -> Result<(), AllocError>
    ensures { OnOk result (text.new ≡ text.old ++ rule_text (pattern.now, style.now)) }
{
    text.push_slice(b"\n")?;
    push_pattern_rule(text, pattern, style)
}

/// Adds a rule for first lines.
#[tactic(auto, unfolding(crate::specs::Ready::pattern_rule))]
pub(crate) fn push_pattern_rule(
    text: &mut Bytes,
    pattern: &[u8],
    style: &[u8],
) -> Result<(), AllocError>
    ensures { OnOk result (text.new ≡ text.old ++ pattern_rule (pattern.now, style.now)) }
{
    text.push_slice(b"[[rules]]\n")?;
    push_pattern_line(text, pattern)?;
    text.push_slice(b"\nstyle = \"")?;
    text.push_slice(style)?;
    text.push_slice(b"\"\n")
}

/// Adds the line of a rule's pattern of first lines.
pub(crate) fn push_pattern_line(text: &mut Bytes, pattern: &[u8]) -> Result<(), AllocError>
    ensures { OnOk result (text.new ≡ text.old ++ pattern_line pattern.now) }
{
    text.push_slice(b"first-line = \"")?;
    text.push_slice(pattern)?;
    text.push_slice(b"\"")
}

/// Adds the line of a rule for names that end so.
pub(crate) fn push_name_rule_line(text: &mut Bytes, ending: &[u8]) -> Result<(), AllocError>
    ensures { OnOk result (text.new ≡ text.old ++ name_rule_line ending.now) }
{
    text.push_slice(b"name = \"*")?;
    text.push_slice(ending)?;
    text.push_slice(b"\"")
}

/// Adds a table of a file of comments, or rules, behind an empty line.
pub(crate) fn push_table(text: &mut Bytes, table: &[u8]) -> Result<(), AllocError>
    ensures { OnOk result (text.new ≡ text.old ++ codes "\n" ++ table.now) }
{
    text.push_slice(b"\n")?;
    text.push_slice(table)
}
