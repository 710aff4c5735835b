//! The command line that clap reads, made from the tables of options and subcommands.
use crate::help::{ABOUT, AFTER};
use crate::options::{Argument, ArgumentKind, BEFORE, Choice, Constraint, Subcommand};
use crate::prefix_name::prefix_names;
use crate::subcommands::{ADDING, CHANGING, HISTORY, NAMES, STEPS};
use clap::builder::ValueParser;
use clap::{Arg, ArgAction, ArgGroup, Command};
use reuse_header::style_names;
use std::alloc::{AllocError, Global};

/// The largest number that a step may be asked for by.
const MOST_NUMBER: u64 = 4_294_967_295;

/// The version, the formats of the journal, and a line on the proof of this build. If all is
/// proved, `install.sh` writes a line of the same length over the last one, which says so.
const VERSION: &str = "\
1.2.0
journal formats: reads 1 and 2, writes 2
this build says nothing about a proof";

fn one_of<'a>(arg: Arg<'a>, names: &'static [&'static str]) -> Arg<'a> {
    arg.value_name("NAME")
        .action(ArgAction::Set)
        .value_parser(ValueParser::Names(names))
}

/// What takes this: the option of this long name, or words without an option.
fn taking<'a>(arg: Arg<'a>, id: &'static str, kind: ArgumentKind) -> Arg<'a> {
    match kind {
        ArgumentKind::Nothing => arg.long(id).action(ArgAction::SetTrue),
        ArgumentKind::Value(name) => arg.long(id).value_name(name).action(ArgAction::Set),
        ArgumentKind::Values(name) => arg.long(id).value_name(name).action(ArgAction::Append),
        ArgumentKind::Pairs(names) => arg
            .long(id)
            .value_names(names)
            .num_args(2)
            .action(ArgAction::Append),
        ArgumentKind::Style => one_of(arg.long(id), style_names()),
        ArgumentKind::Prefix => one_of(arg.long(id), prefix_names()),
        ArgumentKind::Words => arg.num_args(1..).action(ArgAction::Append),
        ArgumentKind::WordsOr(word) => arg
            .num_args(1..)
            .action(ArgAction::Append)
            .default_value(word),
        ArgumentKind::Number => arg.value_parser(ValueParser::unsigned(0, MOST_NUMBER)),
        ArgumentKind::Numbers => arg
            .num_args(1..)
            .action(ArgAction::Append)
            .value_parser(ValueParser::unsigned(0, MOST_NUMBER)),
    }
}

fn constrained<'a>(arg: Arg<'a>, constraint: Constraint) -> Result<Arg<'a>, AllocError> {
    match constraint {
        Constraint::Free => Ok(arg),
        Constraint::Required => Ok(arg.required(true)),
        Constraint::RequiredUnless(other) => arg.required_unless_present(other),
        Constraint::Requires(other) => arg.requires_arg(other),
        Constraint::Excludes(other) => arg.conflicts_with(other),
        Constraint::ExcludesAll(others) => arg.conflicts_with_all(others),
        Constraint::Alias(name) => arg.visible_alias(name),
        Constraint::Global(order) => Ok(arg.global(true).display_order(order)),
        Constraint::Excluding(order, other) => {
            arg.global(true).display_order(order).conflicts_with(other)
        }
    }
}

fn arg_of<'a>(alloc: Global, argument: Argument) -> Result<Arg<'a>, AllocError> {
    let Argument(id, short, kind, constraint, help) = argument;
    let arg = taking(Arg::new(alloc, id).help(help), id, kind);
    match short {
        Some(letter) => constrained(arg.short(letter), constraint),
        None => constrained(arg, constraint),
    }
}

fn with_arguments<'a>(
    alloc: Global,
    command: Command<'a>,
    arguments: &[Argument],
) -> Result<Command<'a>, AllocError> {
    let mut command = command;
    for argument in arguments {
        command = command.arg(arg_of(alloc, *argument)?)?;
    }
    Ok(command)
}

fn group_of<'a>(alloc: Global, choice: Choice) -> Result<ArgGroup<'a>, AllocError> {
    let (name, one, other, both) = match choice {
        Choice::OneOf(name, one, other) => (name, one, other, false),
        Choice::AnyOf(name, one, other) => (name, one, other, true),
    };
    Ok(
        ArgGroup::new(alloc, name)
            .arg(one)?
            .arg(other)?
            .multiple(both),
    )
}

fn with_choices<'a>(
    alloc: Global,
    command: Command<'a>,
    choices: &[Choice],
) -> Result<Command<'a>, AllocError> {
    let mut command = command;
    for choice in choices {
        command = command.group(group_of(alloc, *choice)?)?;
    }
    Ok(command)
}

fn command_of<'a>(alloc: Global, subcommand: Subcommand) -> Result<Command<'a>, AllocError> {
    let Subcommand(name, about, after, arguments, choices) = subcommand;
    let command = Command::new(alloc, name).about(about).after_help(after);
    with_choices(alloc, with_arguments(alloc, command, arguments)?, choices)
}

fn with_subcommands<'a>(
    alloc: Global,
    command: Command<'a>,
    subcommands: &[Subcommand],
) -> Result<Command<'a>, AllocError> {
    let mut command = command;
    for subcommand in subcommands {
        command = command.subcommand(command_of(alloc, *subcommand)?)?;
    }
    Ok(command)
}

// The tables are large: each is added by a function of its own, so that no proof reads two.
fn with_adding<'a>(alloc: Global, command: Command<'a>) -> Result<Command<'a>, AllocError> {
    with_subcommands(alloc, command, ADDING)
}

fn with_changing<'a>(alloc: Global, command: Command<'a>) -> Result<Command<'a>, AllocError> {
    with_subcommands(alloc, command, CHANGING)
}

fn with_names<'a>(alloc: Global, command: Command<'a>) -> Result<Command<'a>, AllocError> {
    with_subcommands(alloc, command, NAMES)
}

fn with_steps<'a>(alloc: Global, command: Command<'a>) -> Result<Command<'a>, AllocError> {
    with_subcommands(alloc, command, STEPS)
}

fn with_history<'a>(alloc: Global, command: Command<'a>) -> Result<Command<'a>, AllocError> {
    with_subcommands(alloc, command, HISTORY)
}

fn with_options<'a>(alloc: Global, command: Command<'a>) -> Result<Command<'a>, AllocError> {
    with_arguments(alloc, command, BEFORE)
}

/// The whole command line.
pub fn whole<'a>(alloc: Global) -> Result<Command<'a>, AllocError> {
    let command = Command::new(alloc, "reuse-undo")
        .bin_name("reuse-undo")?
        .version(VERSION)
        .about(ABOUT)
        .after_help(AFTER)
        .subcommand_required(true);
    let command = with_options(alloc, command)?;
    let command = with_changing(alloc, with_adding(alloc, command)?)?;
    let command = with_names(alloc, command)?;
    with_history(alloc, with_steps(alloc, command)?)
}
