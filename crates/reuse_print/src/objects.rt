//! The JSON objects that rows, steps and dry runs are printed as.
ghost use Rattle.std.specs.Prelude.{◌≡◌, false, option_map, IfOk, OnOk, List, ℕ};
ghost use Rattle.std.specs.List.{flat_map};
ghost use Rattle.std.specs.Io.KnownBytes.{Appends};
ghost use Rattle.serde_json.specs.View.{view};
ghost use Rattle.serde_json.specs.Written.{has_float};
ghost use Rattle.reuse_command.specs.RefusalTexts.{refusal_text};
ghost use Rattle.reuse_print.specs.Objects.{row_value, shown_value, change_value, changes_value, outcome_value};
ghost use Rattle.reuse_print.specs.Objects.{refused_path, refused_value, json_byte, object_line, ArePathOutcomeObjects};
ghost use Rattle.reuse_print.specs.Objects.{change_outcome_value, harm_word};
ghost use Rattle.reuse_print.specs.Objects.{AreRowObjects, IsPathOutcomeObject, IsRowObject, IsShownObject};
ghost use Rattle.reuse_shown.specs.JoinedTexts.{AppendsSome};

use crate::lines::kind_word;
use crate::rows::command_word;
use jiff::civil::Date;
use reuse_change::{Change, PathText};
use reuse_command::path_outcome::PathOutcome;
use reuse_command::reply::{Refusal, Row, Shown};
use reuse_dep5::Dep5Refusal;
use reuse_header::Harm;
use reuse_shown::date::date_of;
use serde_json::{Value, json};
use std::alloc::{AllocError, Global};
use std::io::{self, Write};

/// Prints an object for each row, on a line of its own.
pub fn print_row_objects<W: Write>(out: &mut W, alloc: Global, rows: &[Row]) -> io::Result<()>
    ensures { OnOk result (AppendsSome (W.contents out.old) (W.contents out.new) (AreRowObjects rows.now)) }
{
    for row in rows {
        print_row_object(out, alloc, row)?;
    }
    Ok(())
}

fn print_row_object<W: Write>(out: &mut W, alloc: Global, row: &Row) -> io::Result<()>
    ensures { OnOk result (AppendsSome (W.contents out.old) (W.contents out.new) (IsRowObject row.now)) }
{
    let value = row_value(alloc, row, date_of(row.when))?;
    print_value(out, alloc, &value)
}

/// Prints a step as one object.
pub fn print_shown_object<W: Write>(out: &mut W, alloc: Global, shown: &Shown) -> io::Result<()>
    ensures { OnOk result (AppendsSome (W.contents out.old) (W.contents out.new) (IsShownObject shown.now)) }
{
    let value = shown_value(alloc, shown, date_of(shown.row.when))?;
    print_value(out, alloc, &value)
}

// Prints a value without floats on a line.
pub(crate) fn print_value<W: Write>(out: &mut W, alloc: Global, value: &Value) -> io::Result<()>
    requires { has_float (view value.now) ≡ false }
    ensures { OnOk result (Appends (W.contents out.old) (W.contents out.new) (object_line (view value.now))) }
{
    let text = value.to_string(alloc)?;
    print_json(out, text.as_bytes())?;
    writeln!(out)
}

// Prints a JSON text, with no control byte.
fn print_json<W: Write>(out: &mut W, text: &[u8]) -> io::Result<()>
    ensures { OnOk result (Appends (W.contents out.old) (W.contents out.new) (flat_map json_byte text.now)) }
{
    for byte in text {
        print_json_byte(out, *byte)?;
    }
    Ok(())
}

fn print_json_byte<W: Write>(out: &mut W, byte: u8) -> io::Result<()>
    ensures { OnOk result (Appends (W.contents out.old) (W.contents out.new) (json_byte byte)) }
{
    if byte == 127 {
        out.write_all(b"\\u007f")
    } else {
        out.write_all(&[byte])
    }
}

fn row_value(alloc: Global, row: &Row, date: Date) -> Result<Value, AllocError>
    ensures { IfOk result (λ value. view value ≡ row_value row.now date) }
{
    let date = format!(in alloc; "{date}")?;
    json!(in alloc; {
        "command": command_word(row.command),
        "count": row.count,
        "date": date,
        "done": row.done,
        "number": row.number,
        "when": row.when.seconds()
    })
}

fn shown_value(alloc: Global, shown: &Shown, date: Date) -> Result<Value, AllocError>
    ensures { IfOk result (λ value. view value ≡ shown_value shown.now date) }
{
    let row = &shown.row;
    let date = format!(in alloc; "{date}")?;
    let changes = changes_value(alloc, shown.changes.as_slice())?;
    json!(in alloc; {
        "changes": changes,
        "command": command_word(row.command),
        "count": row.count,
        "date": date,
        "done": row.done,
        "number": row.number,
        "when": row.when.seconds()
    })
}

fn changes_value(alloc: Global, changes: &[Change]) -> Result<Value, AllocError>
    ensures { IfOk result (λ value. view value ≡ changes_value changes.now) }
{
    let mut values = Vec::with_capacity(alloc, changes.len())?;
    for change in changes {
        values.push(change_value(alloc, change)?)?;
    }
    Ok(Value::Array(values))
}

fn change_value(alloc: Global, change: &Change) -> Result<Value, AllocError>
    ensures { IfOk result (λ value. view value ≡ change_value change.now) }
{
    json!(in alloc; {"kind": kind_word(change), "path": change.path().text()})
}

/// Prints an object for what would become of each path, on a line of its own.
pub fn print_path_outcome_objects<W: Write>(
    out: &mut W,
    alloc: Global,
    path_outcomes: &[PathOutcome],
) -> io::Result<()>
    ensures { OnOk result
        (AppendsSome (W.contents out.old) (W.contents out.new) (ArePathOutcomeObjects path_outcomes.now)) }
{
    for path_outcome in path_outcomes {
        print_path_outcome_object(out, alloc, path_outcome)?;
    }
    Ok(())
}

fn print_path_outcome_object<W: Write>(
    out: &mut W,
    alloc: Global,
    path_outcome: &PathOutcome,
) -> io::Result<()>
    ensures { OnOk result
        (AppendsSome (W.contents out.old) (W.contents out.new) (IsPathOutcomeObject path_outcome.now)) }
{
    match path_outcome {
        PathOutcome::Changes { path, harm } => print_change_outcome(out, alloc, path, *harm),
        PathOutcome::Unchanged(path) => print_outcome(out, alloc, "unchanged", path),
        PathOutcome::Skipped(path) => print_outcome(out, alloc, "skipped", path),
        PathOutcome::Refused(refusal) => print_refused(out, alloc, refusal),
        PathOutcome::Left(path) => print_outcome(out, alloc, "left", path),
    }
}

fn print_outcome<W: Write>(
    out: &mut W,
    alloc: Global,
    outcome: &str,
    path: &PathText,
) -> io::Result<()>
    ensures { OnOk result
        (Appends (W.contents out.old) (W.contents out.new) (object_line (outcome_value outcome.now path.now))) }
{
    let value = outcome_value(alloc, outcome, path)?;
    print_value(out, alloc, &value)
}

fn print_change_outcome<W: Write>(
    out: &mut W,
    alloc: Global,
    path: &PathText,
    harm: Option<Harm>,
) -> io::Result<()>
    ensures { OnOk result
        (Appends (W.contents out.old) (W.contents out.new) (object_line (change_outcome_value path.now harm))) }
{
    let value = change_outcome_value(alloc, path, harm)?;
    print_value(out, alloc, &value)
}

fn change_outcome_value(
    alloc: Global,
    path: &PathText,
    harm: Option<Harm>,
) -> Result<Value, AllocError>
    ensures { IfOk result (λ value. view value ≡ change_outcome_value path.now harm) }
{
    match harm {
        None => outcome_value(alloc, "would change", path),
        Some(harm) => {
            let word = harm_word(harm);
            json!(in alloc; {"could_break": word, "outcome": "would change", "path": path.text()})
        }
    }
}

/// What has to stay in front of a header, what shows it, or what it may be in.
pub fn harm_word(harm: Harm) -> &'static str
    ensures { result.now ≡ harm_word harm }
{
    match harm {
        Harm::InnerAttribute => "inner attribute",
        Harm::FrontMatter => "front matter",
        Harm::Directive => "directive",
        Harm::ModeLine => "mode line",
        Harm::CloudConfig => "cloud-config",
        Harm::Charset => "charset",
        Harm::Markup => "markup",
        Harm::BelowText => "string",
    }
}

fn outcome_value(alloc: Global, outcome: &str, path: &PathText) -> Result<Value, AllocError>
    ensures { IfOk result (λ value. view value ≡ outcome_value outcome.now path.now) }
{
    json!(in alloc; {"outcome": outcome, "path": path.text()})
}

// Prints a refusal with its text.
fn print_refused<W: Write>(out: &mut W, alloc: Global, refusal: &Refusal) -> io::Result<()>
    ensures { OnOk result (AppendsSome (W.contents out.old) (W.contents out.new)
        (IsPathOutcomeObject (PathOutcome.Refused refusal.now))) }
{
    let value = refused_value(alloc, refusal)?;
    print_value(out, alloc, &value)
}

fn refused_value(alloc: Global, refusal: &Refusal) -> Result<Value, AllocError>
    ensures { IfOk result (λ value. view value ≡ refused_value refusal.now) }
{
    let reason = format!(in alloc; "{refusal}")?;
    refused_with(alloc, refusal, reason.as_str())
}

// A refusal of this text.
fn refused_with(alloc: Global, refusal: &Refusal, reason: &str) -> Result<Value, AllocError>
    ensures { reason.now ≡ refusal_text refusal.now → IfOk result (λ value. view value ≡ refused_value refusal.now) }
{
    match refused_path(refusal) {
        Some(path) => { json!(in alloc; {"outcome": "refused", "path": path, "reason": reason}) }
        None => json!(in alloc; {"outcome": "refused", "path": null, "reason": reason}),
    }
}

// The path that a refusal names.
fn refused_path(refusal: &Refusal) -> Option<&str>
    ensures { option_map (λ path. path.now) result ≡ refused_path refusal.now }
{
    match refusal {
        Refusal::IsFolder(place) => Some(place.text()),
        Refusal::NoSuchPath(path)
        | Refusal::NotCovered(path)
        | Refusal::TooLong(path)
        | Refusal::Unrecognised(path)
        | Refusal::Header(path, _)
        | Refusal::Amend(path, _)
        | Refusal::Exists(path)
        | Refusal::Clash(path)
        | Refusal::Moved(path)
        | Refusal::BadJournal(path) => Some(path.text()),
        Refusal::Dep5(Dep5Refusal::Memory) => None,
        Refusal::NoDep5 | Refusal::Dep5(_) => Some(".reuse/dep5"),
        Refusal::BadStyles(_) => Some(".reuse/styles.toml"),
        Refusal::BadComments(_) => Some(".reuse/comments.toml"),
        _ => None,
    }
}
