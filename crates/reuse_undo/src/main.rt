//! `reuse-undo`: adds licensing information to the files of a tree, and takes it back.
//!
//! It reads the words of the command line, runs what they ask for (`run`), prints what there is to
//! say, and ends with the status of that (reuse_report). Every script of `tests/` runs it.
#![tactic(auto)]

ghost use Rattle.std.specs.Prelude.{◌≡◌, if◌then◌else◌, map, string_bytes, true};
ghost use Rattle.std.specs.Option.{option_map};
ghost use Rattle.reuse_arguments.specs.HeaderTexts.{IsReadWhole};
ghost use Rattle.reuse_shown.specs.declared.shown_name.NameDisplay.TheVariants as names;

mod laws;
mod run;

use reuse_arguments::file_list::with_list;
use reuse_arguments::header_texts::{WorkingFiles, with_header_texts};
use reuse_arguments::line::{Line, LineFault};
use reuse_arguments::words::finder::Clap;
use reuse_arguments::words::{ParsedArguments, words_to_command};
use reuse_report::around::{SurroundingTree, surrounding_tree};
use reuse_report::report::{report_arguments, report_outcome};
use reuse_report::run_result::RunResult;
use reuse_report::status::{Ending, exit_status};
use reuse_session::Moment;
use reuse_shown::error_output::ErrorOutput;
use reuse_shown::shown_name::NameDisplay;
use run::locked::{RunOptions, run_line};
use std::alloc::Global;
use std::env;
use std::fs::File;
use std::io::{ErrorKind, IsTerminal};
use std::process::ExitCode;
use std::rt::{Clock, Env, Files, Runtime};
use std::time::{SystemTime, UNIX_EPOCH};

/// The moment now, or none where it is out of range.
fn moment_now(rt: &impl Clock) -> Option<Moment> {
    let now = SystemTime::now(rt).ok()?;
    let since = now.duration_since(UNIX_EPOCH).ok()?;
    Moment::new(since.as_secs())
}

/// The words that the program was called with.
fn read_words<R: Env + AllocGlobal>(rt: &R, alloc: Global) -> Result<Vec<String>, LineFault> {
    match env::args(rt) {
        Ok(words) => Ok(words.collect(alloc)?),
        Err(error) if error.kind() == ErrorKind::InvalidData => {
            let text = "reuse-undo: the words are not UTF-8\n";
            Err(LineFault::Usage(String::from_str(alloc, text)?))
        }
        Err(_) => Err(LineFault::Memory),
    }
}

/// What the words say that the program was called with, and the folder of the tree at which words
/// of files start, if they don't start at the root.
fn said_in<R: Env + Files + AllocGlobal>(
    rt: &R,
    alloc: Global,
    moment: Moment,
) -> (ParsedArguments, Option<String>) {
    let words = match read_words(rt, alloc) {
        Ok(words) => words,
        Err(fault) => return (ParsedArguments::fault(alloc, fault), None),
    };
    let said = words_to_command(&Clap, alloc, words.as_slice(), moment, None);
    if said.up {
        said_around(rt, alloc, words.as_slice(), moment)
    } else {
        (said, None)
    }
}

/// What the words say of the tree around the working folder.
fn said_around<R: Files + AllocGlobal>(
    rt: &R,
    alloc: Global,
    words: &[String],
    moment: Moment,
) -> (ParsedArguments, Option<String>) {
    match surrounding_tree(rt, alloc) {
        Ok(SurroundingTree { root, folder }) => {
            let start = Some(folder.as_str());
            let said = words_to_command(&Clap, alloc, words, moment, start);
            (said.at_root(root), Some(folder))
        }
        Err(fault) => (ParsedArguments::fault(alloc, fault), None),
    }
}

/// The line that was said, with the list of files that it names, whose words start at the folder,
/// and then with the texts of headers that it names.
fn whole_line<R: Files + Input>(
    rt: &R,
    alloc: Global,
    said: ParsedArguments,
    folder: Option<String>,
) -> Result<Line, LineFault>
    ensures { IsReadWhole (option_map string_bytes said.files_from) (map string_bytes said.text_files) said.line
        result }
{
    let ParsedArguments {
        verbose: _,
        up: _,
        settings: _,
        files_from,
        text_files,
        line,
    } = said;
    let start = match &folder {
        Some(folder) => Some(folder.as_str()),
        None => None,
    };
    let listed = with_list(rt, alloc, line?, files_from, start)?;
    with_header_texts(&WorkingFiles::of(rt), alloc, listed, text_files.as_slice())
}

/// Which streams are terminals.
#[derive(Clone, Copy)]
struct Terminals {
    output: bool,
    errors: bool,
}

impl Terminals {
    /// What is reported beside the answer, and how a call works, by what the words say.
    fn run_options(self, said: &ParsedArguments) -> RunOptions
        ensures settings { result.settings ≡ said.now.settings }
        ensures notes { result.notes ≡ (if self.errors then true else said.now.verbose) }
        ensures progress { result.progress ≡ self.errors }
        ensures names { result.names ≡ (if self.output then names.Escaped else names.AsTheyAre) }
    {
        RunOptions {
            notes: self.errors || said.verbose,
            progress: self.errors,
            names: NameDisplay::on(self.output),
            settings: said.settings,
        }
    }
}

/// Carries out a line, and reports what came of it.
fn run_and_report<R: Runtime + Files<File = File> + AllocGlobal>(
    rt: &R,
    errors: &ErrorOutput<'_, R>,
    alloc: Global,
    line: Line,
    run_options: RunOptions,
) -> Ending {
    let on_change = line.change_status;
    let run_result = run_line(rt, alloc, line, run_options);
    report_outcome(errors, &run_result, run_options.notes);
    let RunResult {
        ending,
        rolled_back: _,
        diagnostics: _,
    } = run_result;
    Ending::of_call(ending, on_change)
}

fn run_program<R: Runtime + Files<File = File> + AllocGlobal>(
    rt: &R,
    alloc: Global,
    moment: Moment,
    terminals: Terminals,
) -> Ending {
    let (said, folder) = said_in(rt, alloc, moment);
    let errors = ErrorOutput::new(rt, alloc, NameDisplay::on(terminals.errors));
    let run_options = terminals.run_options(&said);
    match whole_line(rt, alloc, said, folder) {
        Ok(line) => run_and_report(rt, &errors, alloc, line, run_options),
        Err(fault) => {
            let is_reported = report_arguments(rt, &errors, &fault, run_options.notes);
            Ending::NoLine { fault, is_reported }
        }
    }
}

fn main(rt: HostRuntime) -> ExitCode {
    let terminals = Terminals {
        output: rt.stdout().is_terminal(),
        errors: rt.stderr().is_terminal(),
    };
    let ending = match moment_now(&rt) {
        Some(moment) => run_program(&rt, rt.alloc(), moment, terminals),
        None => {
            let _ = eprintln!(rt; "reuse-undo: bad clock");
            Ending::BadClock
        }
    };
    let status = exit_status(&ending);
    drop(ending);
    ExitCode::from(status)
}
