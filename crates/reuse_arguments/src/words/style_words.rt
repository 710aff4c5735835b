//! From the words of `styles` to the annotation that finds names without a style, and to what
//! becomes of these names.
ghost use Rattle.std.specs.Prelude.{◌≡◌, IfOk, string_bytes};
ghost use Rattle.reuse_arguments.specs.Found.{found_in};
ghost use Rattle.reuse_arguments.specs.LineFaults.{IsExpected};
ghost use Rattle.reuse_arguments.specs.StyleWords.{annotation_read, any_additions, is_without_objects, names_use_of};
ghost use Rattle.reuse_arguments.specs.StyleWords.{ready_table, scope_of, styles_read, usual_how};

use crate::context::Context;
use crate::line::{LineFault, NamesUse};
use crate::words::choices::is_dry_run;
use crate::words::command_words::tags_alone;
use crate::words::file_words::{read_globs, read_places};
use crate::words::found::flag;
use crate::words::unread_words::unread;
use clap::ArgMatches;
use reuse_change::Moment;
use reuse_command::choice::Globs;
use reuse_command::command::{Command, Scope, Unknown};
use reuse_header::How;
use reuse_notice::{Additions, Prefix};
use reuse_ready::{ready_comments_text, ready_styles_text};
use std::alloc::{AllocError, Global};

/// The annotation that `styles` previews. With `--all` a ready table is asked for, and no tree.
pub fn read_styles(
    alloc: Global,
    matches: &ArgMatches<'_>,
    context: &Context<'_>,
) -> Result<Command, LineFault>
    ensures { IsExpected (styles_read (found_in matches.now) context.now) result }
{
    if flag(matches, "all") {
        return Err(LineFault::Help(ready_table(alloc, flag(matches, "comments"))?));
    }
    if is_without_objects(matches) {
        let text = "with --add, --json goes with --dry-run or --check alone";
        Err(unread(alloc, text)?)
    } else {
        read_annotation(alloc, matches, context)
    }
}

// A ready table as text, of styles or of comments.
fn ready_table(alloc: Global, of_comments: bool) -> Result<String, AllocError>
    ensures { IfOk result (λ text. string_bytes text ≡ ready_table of_comments) }
{
    let table = if of_comments {
        ready_comments_text(alloc)?
    } else {
        ready_styles_text(alloc)?
    };
    let text = format!(in alloc; "{table}")?;
    Ok(text)
}

// Whether objects are asked for of a call that is made, which has none.
fn is_without_objects(matches: &ArgMatches<'_>) -> bool
    ensures { result ≡ is_without_objects (found_in matches.now) }
{
    flag(matches, "add") && flag(matches, "json") && !is_dry_run(matches)
}

// The annotation that is refused for the names without a style. It is previewed alone, so what it
// would add says nothing.
fn read_annotation(
    alloc: Global,
    matches: &ArgMatches<'_>,
    context: &Context<'_>,
) -> Result<Command, LineFault>
    ensures { IsExpected (annotation_read (found_in matches.now) context.now) result }
{
    let places = read_places(alloc, matches, context)?;
    let additions = any_additions(alloc)?;
    let excluded = read_globs(alloc, matches)?;
    Ok(Command::Annotate {
        places,
        additions: tags_alone(alloc, additions),
        how: usual_how(),
        scope: scope_of(excluded),
    })
}

fn any_additions(alloc: Global) -> Result<Additions, LineFault>
    ensures { IsExpected any_additions result }
{
    Ok(Additions::new(alloc, &[], &[], &["x"], &[], true, 0, Prefix::Spdx)?)
}

fn usual_how() -> How
    ensures { result ≡ usual_how }
{
    How {
        form: None,
        merge: false,
        replace: true,
    }
}

// Of the files beneath the places those that no glob excludes; names without a style are refused.
fn scope_of(excluded: Globs) -> Scope
    ensures { result ≡ scope_of excluded }
{
    Scope {
        recursive: true,
        style: None,
        force_dot_license: false,
        unknown: Unknown::Refuse,
        skip_existing: true,
        listed: None,
        excluded,
    }
}

/// What becomes of the names without a style: those of `styles` are listed or added.
pub fn names_use_of(name: &str, matches: &ArgMatches<'_>, when: Moment) -> NamesUse
    ensures { result ≡ names_use_of name.now (found_in matches.now) when }
{
    if name != "styles" {
        NamesUse::Unused
    } else if flag(matches, "add") {
        NamesUse::Added {
            when,
            dry_run: is_dry_run(matches),
        }
    } else {
        NamesUse::Listed
    }
}
