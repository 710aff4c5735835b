//! From the words of `annotate` and `amend` to the commands that they ask for.
ghost use Rattle.std.specs.Prelude.{◌≡◌, ◌≤◌};
ghost use Rattle.std.specs.Option.{option_map};
ghost use Rattle.reuse_arguments.specs.CommandWords.{additions_read, amend_read, amendment_of, annotate_read};
ghost use Rattle.reuse_arguments.specs.CommandWords.{named_prefix, scope_read, tags_alone};
ghost use Rattle.reuse_arguments.specs.Found.{found_in};
ghost use Rattle.reuse_arguments.specs.LineFaults.{IsExpected};

use crate::context::Context;
use crate::line::LineFault;
use crate::words::amend_words::{prefix_in, read_amendments};
use crate::words::choices::{read_how, read_unknown};
use crate::words::file_words::{read_globs, read_places, read_style};
use crate::words::found::{flag, is_given, value, values};
use clap::ArgMatches;
use reuse_amend::Amendments;
use reuse_command::command::{
    Command, FileAmendment, HeaderAdditions, HeaderRemoval, HeaderTexts, Scope,
};
use reuse_notice::{Additions, Prefix};
use std::alloc::Global;

/// What `annotate` is asked for.
pub fn read_annotate(
    alloc: Global,
    matches: &ArgMatches<'_>,
    context: &Context<'_>,
) -> Result<Command, LineFault>
    ensures { IsExpected (annotate_read (found_in matches.now) context.now) result }
{
    let places = read_places(alloc, matches, context)?;
    let additions = read_additions(alloc, matches, context)?;
    let scope = read_scope(alloc, matches)?;
    Ok(Command::Annotate {
        places,
        additions: tags_alone(alloc, additions),
        how: read_how(matches),
        scope,
    })
}

/// What is added to headers: these tags. Texts are read later.
pub fn tags_alone(alloc: Global, tags: Additions) -> HeaderAdditions
    ensures { result ≡ tags_alone tags }
{
    HeaderAdditions {
        tags,
        texts: HeaderTexts::new(Vec::new(alloc)),
    }
}

/// What `amend` is asked for.
pub fn read_amend(
    alloc: Global,
    matches: &ArgMatches<'_>,
    context: &Context<'_>,
) -> Result<Command, LineFault>
    ensures { IsExpected (amend_read (found_in matches.now) context.now) result }
{
    let places = read_places(alloc, matches, context)?;
    let amendments = read_amendments(alloc, matches)?;
    let scope = read_scope(alloc, matches)?;
    Ok(Command::Amend {
        places,
        amendment: amendment_of(alloc, matches, amendments),
        scope,
    })
}

/// What becomes of a file, everywhere or in its header. Texts are read later.
fn amendment_of(alloc: Global, matches: &ArgMatches<'_>, amendments: Amendments) -> FileAmendment
    ensures { result ≡ amendment_of (found_in matches.now) amendments }
{
    if flag(matches, "everywhere") {
        FileAmendment::Everywhere(amendments)
    } else if flag(matches, "remove-header") {
        FileAmendment::Remove(amendments, HeaderRemoval::Header)
    } else if is_given(matches, "remove-text") {
        let none = HeaderTexts::new(Vec::new(alloc));
        FileAmendment::Remove(amendments, HeaderRemoval::Texts(none))
    } else {
        FileAmendment::InHeader(amendments)
    }
}

fn read_additions(
    alloc: Global,
    matches: &ArgMatches<'_>,
    context: &Context<'_>,
) -> Result<Additions, LineFault>
    ensures { IsExpected (additions_read (found_in matches.now) context.now.year) result }
{
    additions_in(alloc, matches, context.year())
}

/// What is to be added in this year.
fn additions_in(alloc: Global, matches: &ArgMatches<'_>, year: u16) -> Result<Additions, LineFault>
    requires { year ≤ 9999 }
    ensures { IsExpected (additions_read (found_in matches.now) year) result }
{
    let prefix = prefix_named(alloc, value(matches, "copyright-prefix"))?;
    Ok(Additions::new(
        alloc,
        values(matches, "copyright"),
        values(matches, "license"),
        values(matches, "contributor"),
        values(matches, "year"),
        flag(matches, "exclude-year"),
        year,
        prefix,
    )?)
}

fn prefix_named(alloc: Global, name: Option<&str>) -> Result<Prefix, LineFault>
    ensures { IsExpected (named_prefix (option_map (λ text. text.now) name.entry)) result }
{
    match name {
        Some(name) => prefix_in(alloc, name),
        None => Ok(Prefix::Spdx),
    }
}

/// Which files are taken. Options that a subcommand hasn't are as if they weren't given.
fn read_scope(alloc: Global, matches: &ArgMatches<'_>) -> Result<Scope, LineFault>
    ensures { IsExpected (scope_read (found_in matches.now)) result }
{
    let style = read_style(alloc, matches)?;
    let excluded = read_globs(alloc, matches)?;
    Ok(Scope {
        recursive: flag(matches, "recursive"),
        style,
        force_dot_license: flag(matches, "force-dot-license"),
        unknown: read_unknown(matches),
        skip_existing: flag(matches, "skip-existing"),
        listed: None,
        excluded,
    })
}
