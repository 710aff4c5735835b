//! What is printed of a response, in the form that the line asks for. Nothing is written before the
//! text is whole. The program calls it. Tested by `dry_run.sh` and `show_and_revert.sh` in
//! `tests/`.
ghost use Rattle.std.specs.Prelude.{◌≡◌, Err, IfOk, IfErr, IsOkAnd, OnOk};
ghost use Rattle.reuse_diff.specs.DiffText.{AreRecords};
ghost use Rattle.reuse_print.specs.Outputs.{AddsSome};
ghost use Rattle.reuse_shown.specs.JoinedTexts.{AppendsSome};
ghost use Rattle.reuse_report.specs.WriterFaults.{IfNoDiff};
ghost use Rattle.reuse_report.specs.Responses.{Accepts, Finishes, HasBehind, is_refusal, is_refused, IsBehind};
ghost use Rattle.reuse_report.specs.Responses.{IsDiffBehind, IsDiffOf, IsDrawnPreview, IsTextIn, IsPrintedText};
ghost use Rattle.reuse_report.specs.Responses.{ReportsFailure};
ghost use Rattle.reuse_print.specs.declared.fault.Fault.TheVariants as faults;

use reuse_arguments::line::{OutputFormat, PrintOptions};
use reuse_change::Change;
use reuse_command::path_outcome::{PathOutcome, PathOutcomes};
use reuse_command::reply::Response;
use reuse_diff::print_record;
use reuse_print::fault::{Fault, in_memory};
use reuse_print::lines::{path_count, print_response};
use reuse_print::objects::{print_path_outcome_objects, print_row_objects, print_shown_object};
use reuse_print::output::{Sink, write_text};
use reuse_shown::shown_name::NameDisplay;
use std::alloc::Global;
use std::io::{self, Write};

/// Prints a response, and behind it the diff where one is wanted; how many paths it reports that
/// changed, or that would change. A preview of a call that would be refused is a fault.
pub fn finish<O: Sink>(
    out: &mut O,
    alloc: Global,
    response: Response,
    options: PrintOptions,
    diff: Result<Vec<u8>, Fault>,
) -> Result<usize, Fault>
    requires { IsDiffOf options response diff }
    ensures finishes { Finishes options response (O.contents out.old) (O.contents out.new) result }
    ensures behind { IsDrawnPreview options response → IfOk result (λ count. IsOkAnd diff
        (λ text. AddsSome (O.contents out.old) (O.contents out.new) (HasBehind options.names response text.items))) }
    ensures undrawn { IfNoDiff result (λ refusal. (diff ≡ Err (faults.NoDiff refusal)) × (out.new ≡ out.old)) }
    ensures failed { ReportsFailure (O.failed out.old) (O.failed out.new) result }
{
    match print(out, alloc, &response, options, diff) {
        Ok(()) => accept(response),
        Err(fault) => {
            drop(response);
            Err(fault)
        }
    }
}

// Prints a response, and the diff behind it.
fn print<O: Sink>(
    out: &mut O,
    alloc: Global,
    response: &Response,
    options: PrintOptions,
    diff: Result<Vec<u8>, Fault>,
) -> Result<(), Fault>
    requires { IsDiffOf options response.now diff }
    ensures printed { OnOk result
        (AddsSome (O.contents out.old) (O.contents out.new) (IsPrintedText options response.now)) }
    ensures behind { IsDrawnPreview options response.now → OnOk result (IsOkAnd diff
        (λ text. AddsSome (O.contents out.old) (O.contents out.new)
        (HasBehind options.names response.now text.items))) }
    ensures kept { OnOk result (O.failed out.new ≡ O.failed out.old) }
    ensures finishes { IfErr result
        (λ fault. Finishes options response.now (O.contents out.old) (O.contents out.new) (Err fault)) }
    ensures undrawn { IfNoDiff result (λ refusal. (diff ≡ Err (faults.NoDiff refusal)) × (out.new ≡ out.old)) }
    ensures failed { IfErr result (λ fault. ReportsFailure (O.failed out.old) (O.failed out.new) (Err fault)) }
{
    let diff = whole_diff(alloc, response, options, diff)?;
    let text = text_of(alloc, response, options, diff.as_slice())?;
    write_text(out, text.as_slice())?;
    Ok(())
}

// What is printed of a response. No part of it is written before it is whole.
fn text_of(
    alloc: Global,
    response: &Response,
    options: PrintOptions,
    diff: &[u8],
) -> Result<Vec<u8>, Fault>
    ensures text { (options.format ≡ OutputFormat.Diff → IsDiffBehind response.now diff.now)
        → IfOk result (λ text. IsPrintedText options response.now text.items) }
    ensures behind { options.format ≡ OutputFormat.Diff
        → IfOk result (λ text. HasBehind options.names response.now diff.now text.items) }
    ensures fault { IfErr result (λ fault. fault ≡ faults.Memory) }
{
    let mut text = Vec::new(alloc);
    in_memory(print_in_format(&mut text, alloc, response, options, diff))?;
    Ok(text)
}

// The diff of what would change, or that of a step that is shown.
fn whole_diff(
    alloc: Global,
    response: &Response,
    options: PrintOptions,
    diff: Result<Vec<u8>, Fault>,
) -> Result<Vec<u8>, Fault>
    requires { IsDiffOf options response.now diff }
    ensures behind { IsBehind options response.now result }
    ensures same { IsDrawnPreview options response.now → result ≡ diff }
    ensures undrawn { IfNoDiff result (λ refusal. diff ≡ Err (faults.NoDiff refusal)) }
{
    match (options.format, response) {
        (OutputFormat::Diff, Response::Shown(shown)) => {
            drop(diff);
            records_of(alloc, shown.changes.as_slice())
        }
        _ => diff,
    }
}

// What the changes of a step have recorded.
fn records_of(alloc: Global, changes: &[Change]) -> Result<Vec<u8>, Fault>
    ensures records { IfOk result (λ text. AreRecords changes.now text.items) }
    ensures fault { IfErr result (λ fault. fault ≡ faults.Memory) }
{
    let mut text = Vec::new(alloc);
    for change in changes {
        in_memory(print_record(&mut text, alloc, change))?;
    }
    Ok(text)
}

fn print_in_format<W: Write>(
    out: &mut W,
    alloc: Global,
    response: &Response,
    options: PrintOptions,
    diff: &[u8],
) -> io::Result<()>
    ensures text { (options.format ≡ OutputFormat.Diff → IsDiffBehind response.now diff.now)
        → OnOk result (AppendsSome (W.contents out.old) (W.contents out.new) (IsPrintedText options response.now)) }
    ensures behind { options.format ≡ OutputFormat.Diff
        → OnOk result
        (AppendsSome (W.contents out.old) (W.contents out.new) (HasBehind options.names response.now diff.now)) }
{
    match options.format {
        OutputFormat::Lines => print_response(out, options.names, response),
        OutputFormat::Diff => {
            print_response(out, options.names, response)?;
            out.write_all(diff)
        }
        OutputFormat::Json => print_objects(out, alloc, options.names, response),
    }
}

// Rows, steps and dry runs as objects, and all else in lines.
fn print_objects<W: Write>(
    out: &mut W,
    alloc: Global,
    names: NameDisplay,
    response: &Response,
) -> io::Result<()>
    ensures { OnOk result
        (AppendsSome (W.contents out.old) (W.contents out.new) (IsTextIn OutputFormat.Json names response.now)) }
{
    match response {
        Response::Log(rows) => print_row_objects(out, alloc, rows.as_slice()),
        Response::Preview(path_outcomes) => print_path_outcome_objects(
            out,
            alloc,
            path_outcomes.as_slice(),
        ),
        Response::Shown(shown) => print_shown_object(out, alloc, shown),
        reply => print_response(out, names, reply),
    }
}

// How many paths a response reports that changed, or would change, unless it is a preview with a
// refusal.
fn accept(response: Response) -> Result<usize, Fault>
    ensures { Accepts response result }
{
    match response {
        Response::Preview(path_outcomes) => accept_path_outcomes(path_outcomes),
        reply => Ok(path_count(&reply)),
    }
}

fn accept_path_outcomes(path_outcomes: PathOutcomes) -> Result<usize, Fault>
    ensures { Accepts (Response.Preview path_outcomes) result }
{
    if is_refused(path_outcomes.as_slice()) {
        Err(Fault::WouldRefuse(path_outcomes))
    } else {
        Ok(path_count(&Response::Preview(path_outcomes)))
    }
}

/// Whether one of the path outcomes is a refusal.
pub fn is_refused(path_outcomes: &[PathOutcome]) -> bool
    ensures { result ≡ is_refused path_outcomes.now }
{
    path_outcomes
        .iter()
        .any(|path_outcome| is_refusal(path_outcome))
}

fn is_refusal(path_outcome: &PathOutcome) -> bool
    ensures { result ≡ is_refusal path_outcome.now }
{
    matches!(path_outcome, PathOutcome::Refused(_))
}
