//! The lines that an answer is printed as.
ghost use Rattle.std.specs.Prelude.{◌≡◌, OnOk, count_by};
ghost use Rattle.std.specs.Io.KnownBytes.{Appends};
ghost use Rattle.std.specs.List.{flat_map};
ghost use Rattle.reuse_print.specs.Lines.{line_of, lines_of, path_outcome_line, path_outcome_lines, would_change};
ghost use Rattle.reuse_print.specs.Lines.{change_lines, kind_word, path_count, IsResponseText, IsShownText};
ghost use Rattle.reuse_print.specs.Lines.{forgotten_line, forgotten_text, recovered_text, changed_text, reverted_text};
ghost use Rattle.reuse_print.specs.Lines.{done_text, some_paths_text};
ghost use Rattle.reuse_shown.specs.JoinedTexts.{AppendsSome};

use crate::rows::{print_row, print_rows};
use reuse_change::{Change, PathText};
use reuse_command::path_outcome::PathOutcome;
use reuse_command::reply::{Recovered, Response, Reverted, Shown};
use reuse_shown::shown_name::{NameDisplay, print_name};
use std::io::{self, Write};

fn print_path<W: Write>(
    out: &mut W,
    names: NameDisplay,
    word: &str,
    path: &PathText,
) -> io::Result<()>
    ensures { OnOk result (Appends (W.contents out.old) (W.contents out.new) (line_of names word.now path.now)) }
{
    write!(out, "{word} ")?;
    print_name(out, names, path.as_bytes())?;
    writeln!(out)
}

/// Prints a line for each path: the word, a space and the path, as names are shown.
pub fn print_paths<W: Write>(
    out: &mut W,
    names: NameDisplay,
    word: &str,
    paths: &[PathText],
) -> io::Result<()>
    ensures { OnOk result (Appends (W.contents out.old) (W.contents out.new) (lines_of names word.now paths.now)) }
{
    for path in paths {
        print_path(out, names, word, path)?;
    }
    Ok(())
}

/// Prints a response: a line for each path or row. That a session was opened is not printed, nor
/// the refusals of a preview.
pub fn print_response<W: Write>(out: &mut W, names: NameDisplay, reply: &Response) -> io::Result<()>
    ensures { OnOk result (AppendsSome (W.contents out.old) (W.contents out.new) (IsResponseText names reply.now)) }
{
    match reply {
        Response::Changed { paths, left } => {
            print_changed(out, names, paths.as_slice(), left.as_slice())
        }
        Response::Undone(paths) => print_paths(out, names, "undone", paths.as_slice()),
        Response::Redone(paths) => print_paths(out, names, "redone", paths.as_slice()),
        Response::NothingChanged { left } => print_changed(out, names, &[], left.as_slice()),
        Response::Log(rows) => print_rows(out, rows.as_slice()),
        Response::Preview(path_outcomes) => print_path_outcomes(
            out,
            names,
            path_outcomes.as_slice(),
        ),
        Response::Shown(shown) => print_shown(out, names, shown),
        Response::Reverted(reverted) => print_reverted(out, names, reverted),
        Response::Forgotten(numbers) => print_forgotten(out, numbers.as_slice()),
        Response::Recovered(recovered) => print_recovered(out, names, recovered),
        Response::Opened => Ok(()),
    }
}

/// Prints a line for each path outcome that is no refusal.
fn print_path_outcomes<W: Write>(
    out: &mut W,
    names: NameDisplay,
    path_outcomes: &[PathOutcome],
) -> io::Result<()>
    ensures { OnOk result
        (Appends (W.contents out.old) (W.contents out.new) (path_outcome_lines names path_outcomes.now)) }
{
    for path_outcome in path_outcomes {
        print_path_outcome(out, names, path_outcome)?;
    }
    Ok(())
}

fn print_path_outcome<W: Write>(
    out: &mut W,
    names: NameDisplay,
    path_outcome: &PathOutcome,
) -> io::Result<()>
    ensures { OnOk result
        (Appends (W.contents out.old) (W.contents out.new) (path_outcome_line names path_outcome.now)) }
{
    match path_outcome {
        PathOutcome::Changes { path, harm: _harm } => print_path(out, names, "would change", path),
        PathOutcome::Unchanged(path) => print_path(out, names, "unchanged", path),
        PathOutcome::Skipped(path) => print_path(out, names, "skipped", path),
        PathOutcome::Refused(_) => Ok(()),
        PathOutcome::Left(path) => print_path(out, names, "would leave", path),
    }
}

/// Prints a step: its row of the log, and a line for each path.
fn print_shown<W: Write>(out: &mut W, names: NameDisplay, shown: &Shown) -> io::Result<()>
    ensures { OnOk result (AppendsSome (W.contents out.old) (W.contents out.new) (IsShownText names shown.now)) }
{
    print_row(out, &shown.row)?;
    print_changes(out, names, shown.changes.as_slice())
}

fn print_changes<W: Write>(out: &mut W, names: NameDisplay, changes: &[Change]) -> io::Result<()>
    ensures { OnOk result (Appends (W.contents out.old) (W.contents out.new) (change_lines names changes.now)) }
{
    for change in changes {
        print_path(out, names, kind_word(change), change.path())?;
    }
    Ok(())
}

/// What a change made of its path.
pub fn kind_word(change: &Change) -> &'static str
    ensures { result.now ≡ kind_word change.now }
{
    match change {
        Change::Make { .. } => "made",
        Change::Drop { .. } => "removed",
        Change::Splice { .. } => "changed",
    }
}

/// Prints what a run did: the paths that changed, and then those that an amendment left.
fn print_changed<W: Write>(
    out: &mut W,
    names: NameDisplay,
    paths: &[PathText],
    left: &[PathText],
) -> io::Result<()>
    ensures { OnOk result
        (Appends (W.contents out.old) (W.contents out.new) (changed_text names paths.now left.now)) }
{
    print_done(out, names, "changed", paths, "left", left)
}

/// Prints what a revert did: the paths that changed, and then those that were left.
fn print_reverted<W: Write>(out: &mut W, names: NameDisplay, reverted: &Reverted) -> io::Result<()>
    ensures { OnOk result (Appends (W.contents out.old) (W.contents out.new) (reverted_text names reverted.now)) }
{
    let changed = reverted.changed.as_slice();
    print_done(
        out,
        names,
        "changed",
        changed,
        "skipped",
        reverted.skipped.as_slice(),
    )
}

/// Prints what a recovery did: the paths that were rolled back, and then those that were left.
fn print_recovered<W: Write>(
    out: &mut W,
    names: NameDisplay,
    recovered: &Recovered,
) -> io::Result<()>
    ensures { OnOk result (Appends (W.contents out.old) (W.contents out.new) (recovered_text names recovered.now)) }
{
    let changed = recovered.changed.as_slice();
    print_done(
        out,
        names,
        "set back",
        changed,
        "skipped",
        recovered.skipped.as_slice(),
    )
}

/// Prints a line for each path that changed, or that nothing did, and then one for each that was
/// left.
fn print_done<W: Write>(
    out: &mut W,
    names: NameDisplay,
    word: &str,
    changed: &[PathText],
    left_word: &str,
    left: &[PathText],
) -> io::Result<()>
    ensures { OnOk result (Appends (W.contents out.old) (W.contents out.new)
        (done_text names word.now changed.now left_word.now left.now)) }
{
    print_some_paths(out, names, word, changed)?;
    print_paths(out, names, left_word, left)
}

/// Prints a line for each path, or that nothing changed.
fn print_some_paths<W: Write>(
    out: &mut W,
    names: NameDisplay,
    word: &str,
    paths: &[PathText],
) -> io::Result<()>
    ensures { OnOk result
        (Appends (W.contents out.old) (W.contents out.new) (some_paths_text names word.now paths.now)) }
{
    if paths.is_empty() {
        writeln!(out, "nothing changed")
    } else {
        print_paths(out, names, word, paths)
    }
}

/// Prints a line for each number, or that nothing changed.
fn print_forgotten<W: Write>(out: &mut W, numbers: &[u32]) -> io::Result<()>
    ensures { OnOk result (Appends (W.contents out.old) (W.contents out.new) (forgotten_text numbers.now)) }
{
    if numbers.is_empty() {
        writeln!(out, "nothing changed")
    } else {
        print_numbers(out, numbers)
    }
}

fn print_numbers<W: Write>(out: &mut W, numbers: &[u32]) -> io::Result<()>
    ensures { OnOk result (Appends (W.contents out.old) (W.contents out.new) (flat_map forgotten_line numbers.now)) }
{
    for number in numbers {
        print_number(out, *number)?;
    }
    Ok(())
}

fn print_number<W: Write>(out: &mut W, number: u32) -> io::Result<()>
    ensures { OnOk result (Appends (W.contents out.old) (W.contents out.new) (forgotten_line number)) }
{
    writeln!(out, "forgot {number}")
}

/// How many paths a response reports that changed, or that would change or be left.
pub fn path_count(reply: &Response) -> usize
    ensures { result ≡ path_count reply.now }
{
    match reply {
        Response::Changed { paths, left: _ } | Response::Undone(paths) | Response::Redone(paths) =>
            paths.as_slice().len(),
        Response::Preview(path_outcomes) => change_count(path_outcomes.as_slice()),
        Response::Reverted(reverted) => reverted.changed.as_slice().len(),
        Response::Recovered(recovered) => recovered.changed.as_slice().len(),
        Response::NothingChanged { .. }
        | Response::Log(_)
        | Response::Shown(_)
        | Response::Opened
        | Response::Forgotten(_) => 0,
    }
}

fn change_count(path_outcomes: &[PathOutcome]) -> usize
    ensures { result ≡ count_by would_change path_outcomes.now }
{
    let mut count = 0;
    for path_outcome in path_outcomes {
        if would_change(path_outcome) {
            count += 1;
        }
    }
    count
}

fn would_change(path_outcome: &PathOutcome) -> bool
    ensures { result ≡ would_change path_outcome.now }
{
    matches!(
        path_outcome,
        PathOutcome::Changes { .. } | PathOutcome::Left(_)
    )
}
