//! From the words of a command line to what they ask for.
ghost use Rattle.std.specs.Prelude.{◌≡◌, IfOk, Result, map, string_bytes};
ghost use Rattle.clap.specs.Simple.{subcommand_rows_of};
ghost use Rattle.clap.specs.Values.{kind_of};
ghost use Rattle.clap.specs.declared.error.Error.{Error};
ghost use Rattle.clap.specs.declared.parser.matches.ArgMatches.{ArgMatches};
ghost use Rattle.std.specs.Option.{option_map};
ghost use Rattle.reuse_arguments.specs.Asking.{asked_in};
ghost use Rattle.reuse_arguments.specs.CommandLine.{IsReadAs, IsRefused, Says, call_read, download_of};
ghost use Rattle.reuse_arguments.specs.CommandLine.{line_at, line_read};
ghost use Rattle.reuse_arguments.specs.CommandLine.{no_line, request_read, said_at, subcommand_read, texts_read};
ghost use Rattle.reuse_arguments.specs.FileWords.{files_from_of, text_files_of};
ghost use Rattle.reuse_arguments.specs.Found.{found_in};
ghost use Rattle.reuse_arguments.specs.LineFaults.{IsExpected, IsExpectedAs, IsReportedAs};

mod amend_words;
mod choices;
mod command_words;
mod file_words;
pub mod finder;
mod found;
mod style_words;
mod unread_words;

use crate::context::Context;
use crate::line::{Line, LineFault};
use crate::request::made_or_seen;
use crate::settings::Settings;
use choices::{is_dry_run, read_change_status, read_format, read_settings};
use clap::error::ErrorKind;
use clap::{ArgMatches, Error};
use command_words::{read_amend, read_annotate};
use file_words::{
    read_files_from, read_ids, read_root, read_step, read_steps, read_text_files, read_texts,
};
use finder::Finder;
use found::{flag, subcommand};
use reuse_change::{FixedList, Moment};
use reuse_command::command::Command;
use reuse_command::licence::LicenceTexts;
use reuse_command::request::{Call, Request};
use std::alloc::{AllocError, Global};
use style_words::{names_use_of, read_styles};
use unread_words::unread;

/// What the words of a command line say.
#[derive(Drop)]
pub struct ParsedArguments {
    /// Whether notes are asked for.
    pub verbose: bool,
    /// Whether the root is the nearest folder, from the working one upwards, that is one of a tree.
    pub up: bool,
    /// What is asked for of all calls alike.
    pub settings: Settings,
    /// The file that lists the files to be annotated or amended, where one is named.
    pub files_from: Option<String>,
    /// The files of the texts that are added to headers, or taken out, in order.
    pub text_files: FixedList<String>,
    pub line: Result<Line, LineFault>,
}

impl ParsedArguments {
    /// Words that are no line.
    pub fn fault(alloc: Global, fault: LineFault) -> ParsedArguments
        ensures { result ≡ no_line fault }
    {
        ParsedArguments {
            verbose: false,
            up: false,
            settings: Settings::usual(),
            files_from: None,
            text_files: FixedList::new(Vec::new(alloc)),
            line: Err(fault),
        }
    }

    /// The same of the tree below this root.
    pub fn at_root(self, root: String) -> ParsedArguments
        ensures { result ≡ said_at self root }
    {
        let ParsedArguments {
            verbose,
            up,
            settings,
            files_from,
            text_files,
            line,
        } = self;
        ParsedArguments {
            verbose,
            up,
            settings,
            files_from,
            text_files,
            line: line_at(line, root),
        }
    }
}

/// Reads the words, of which the first is the program's name. The current year is that of the
/// moment. Words of files start at the folder of the tree, or at its root where none is given.
///
/// Faults come in this order: those of the words themselves, the first word that names no place,
/// those of what `annotate` is to add or `amend` to change, and the first glob that is none.
pub fn words_to_command<F: Finder>(
    finder: &F,
    alloc: Global,
    words: &[String],
    moment: Moment,
    folder: Option<&str>,
) -> ParsedArguments
    ensures { (found : Result ArgMatches Error) × F.answers finder.now (map string_bytes words.now) found
        × IsReadAs found moment (option_map (λ text. text.now) folder.entry) result }
{
    match finder.find(alloc, words) {
        Ok(matches) => said_in(alloc, &matches, moment, folder),
        Err(error) => refused(alloc, &error),
    }
}

fn line_at(line: Result<Line, LineFault>, root: String) -> Result<Line, LineFault>
    ensures { result ≡ line_at line root }
{
    match line {
        Ok(line) => {
            let mut line = line;
            line.root = root;
            Ok(line)
        }
        Err(fault) => {
            drop(root);
            Err(fault)
        }
    }
}

/// What the words say, of which clap found this.
fn said_in(
    alloc: Global,
    matches: &ArgMatches<'_>,
    moment: Moment,
    folder: Option<&str>,
) -> ParsedArguments
    ensures { Says matches.now moment (option_map (λ text. text.now) folder.entry) result }
{
    let context = Context::of(moment, folder);
    match read_files(alloc, matches) {
        Ok((files_from, text_files)) => ParsedArguments {
            verbose: flag(matches, "verbose"),
            up: flag(matches, "up"),
            settings: read_settings(matches),
            files_from,
            text_files,
            line: read_line(alloc, matches, moment, &context),
        },
        Err(error) => ParsedArguments::fault(alloc, LineFault::from(error)),
    }
}

/// The file that lists files, where one is named, and the files of texts.
fn read_files(
    alloc: Global,
    matches: &ArgMatches<'_>,
) -> Result<(Option<String>, FixedList<String>), AllocError>
    ensures { IfOk result (λ files. (option_map string_bytes files.0 ≡ files_from_of (subcommand_rows_of matches.now))
        × (map string_bytes files.1 ≡ text_files_of (subcommand_rows_of matches.now))) }
{
    let files_from = read_files_from(alloc, matches)?;
    let text_files = read_text_files(alloc, matches)?;
    Ok((files_from, text_files))
}

/// Words that clap refuses with this error.
fn refused(alloc: Global, error: &Error) -> ParsedArguments
    ensures { IsRefused error.now result }
{
    match fault_of(alloc, error) {
        Ok(fault) => ParsedArguments::fault(alloc, fault),
        Err(error) => ParsedArguments::fault(alloc, LineFault::from(error)),
    }
}

fn fault_of(alloc: Global, error: &Error) -> Result<LineFault, AllocError>
    ensures { IfOk result (IsReportedAs (kind_of error.now)) }
{
    if error.kind() == ErrorKind::OutOfMemory {
        return Ok(LineFault::Memory);
    }
    let text = error.to_string(alloc)?;
    if error.use_stderr() {
        Ok(LineFault::Usage(text))
    } else {
        Ok(LineFault::Help(text))
    }
}

fn read_line(
    alloc: Global,
    matches: &ArgMatches<'_>,
    moment: Moment,
    context: &Context<'_>,
) -> Result<Line, LineFault>
    ensures { IsExpectedAs asked_in
        (line_read (found_in matches.now) (subcommand_rows_of matches.now) moment context.now) result }
{
    let root = read_root(alloc, matches)?;
    match subcommand(matches) {
        Some((name, inner)) => read_subcommand(alloc, root, name, inner, moment, context),
        None => Err(unread(alloc, "no subcommand")?),
    }
}

/// What the subcommand asks for in the tree under this folder.
fn read_subcommand(
    alloc: Global,
    root: String,
    name: &str,
    matches: &ArgMatches<'_>,
    moment: Moment,
    context: &Context<'_>,
) -> Result<Line, LineFault>
    ensures { IsExpectedAs asked_in
        (subcommand_read (string_bytes root) name.now (found_in matches.now) moment context.now) result }
{
    let request = read_request(alloc, name, matches, moment, context)?;
    Ok(Line {
        root,
        request,
        names: names_use_of(name, matches, moment),
        texts: read_texts_folder(alloc, name, matches)?,
        format: read_format(matches),
        change_status: read_change_status(matches),
    })
}

/// What a session is asked for.
fn read_request(
    alloc: Global,
    name: &str,
    matches: &ArgMatches<'_>,
    moment: Moment,
    context: &Context<'_>,
) -> Result<Request, LineFault>
    ensures { IsExpected (request_read name.now (found_in matches.now) moment context.now) result }
{
    match name {
        "log" => Ok(Request::Log),
        "show" => Ok(Request::Show(read_step(alloc, matches)?)),
        "forget" => Ok(Request::Forget(read_steps(alloc, matches)?)),
        "recover" => Ok(Request::Recover {
            skip_moved: flag(matches, "skip-moved"),
        }),
        "styles" => {
            let annotation = read_styles(alloc, matches, context)?;
            Ok(Request::Preview(Call::Run(annotation)))
        }
        _ => {
            let call = read_call(alloc, name, matches, context)?;
            Ok(made_or_seen(call, moment, is_dry_run(matches)))
        }
    }
}

fn read_call(
    alloc: Global,
    name: &str,
    matches: &ArgMatches<'_>,
    context: &Context<'_>,
) -> Result<Call, LineFault>
    ensures { IsExpected (call_read name.now (found_in matches.now) context.now) result }
{
    match name {
        "annotate" => Ok(Call::Run(read_annotate(alloc, matches, context)?)),
        "amend" => Ok(Call::Run(read_amend(alloc, matches, context)?)),
        "convert-dep5" => Ok(Call::Run(Command::ConvertDep5)),
        "download" => Ok(Call::Run(read_download(alloc, matches)?)),
        "undo" => Ok(Call::Undo),
        "redo" => Ok(Call::Redo),
        "revert" => {
            let number = read_step(alloc, matches)?;
            Ok(Call::Revert {
                number,
                skip_moved: flag(matches, "skip-moved"),
            })
        }
        _ => Err(unread(alloc, "a subcommand that nothing reads")?),
    }
}

/// A download of these ids, without texts.
fn read_download(alloc: Global, matches: &ArgMatches<'_>) -> Result<Command, AllocError>
    ensures { IfOk result (λ command. command ≡ download_of (found_in matches.now)) }
{
    let ids = read_ids(alloc, matches)?;
    let texts = LicenceTexts::new(Vec::new(alloc));
    Ok(Command::Download { ids, texts })
}

/// The folder of the texts of a download.
fn read_texts_folder(
    alloc: Global,
    name: &str,
    matches: &ArgMatches<'_>,
) -> Result<Option<String>, LineFault>
    ensures { IsExpectedAs (option_map string_bytes) (texts_read name.now (found_in matches.now)) result }
{
    match name {
        "download" => Ok(Some(read_texts(alloc, matches)?)),
        _ => Ok(None),
    }
}
