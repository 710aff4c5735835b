//! What is printed on standard error of a run: why the words are no line, the fault or the refusal,
//! a step that was rolled back, and the notes. The root of the program calls it. Tested by
//! `refusals.sh` and `notes.sh` in `tests/`.
use crate::notes::{note_access_refusal, note_call, note_rolled_back, note_words};
use crate::run_result::RunResult;
use reuse_arguments::line::LineFault;
use reuse_command::path_outcome::PathOutcome;
use reuse_print::fault::Fault;
use reuse_shown::error_output::ErrorOutput;
use std::io;

/// Prints why the words are no line, and what to do about that where notes are asked for; whether
/// it could be printed.
pub fn report_arguments<R: Print + Eprint + Drop>(
    rt: &R,
    errors: &ErrorOutput<'_, R>,
    fault: &LineFault,
    notes: bool,
) -> bool {
    let reported = report(rt, errors, fault);
    if notes {
        note_words(errors, fault);
    }
    reported.is_ok()
}

/// Prints why the words are no line: help on standard output, all else on standard error. The texts
/// of the command line have lines of their own.
fn report<R: Print + Eprint + Drop>(
    rt: &R,
    errors: &ErrorOutput<'_, R>,
    fault: &LineFault,
) -> io::Result<()> {
    match fault {
        LineFault::Help(text) => {
            let printed = print!(rt; "{text}");
            if printed.is_err() {
                // Where standard error can't be written either, the status reports it.
                let _ = eprintln!(errors; "reuse-undo: {}", Fault::Write);
            }
            printed
        }
        LineFault::Usage(text) => errors.eprint_lines(text.as_str()),
        _ => eprintln!(errors; "reuse-undo: {fault}"),
    }
}

/// Prints the fault of what was carried out, or its denial; that a step was rolled back; and the
/// notes. Where standard error can't be written either, the status reports it.
pub fn report_outcome(errors: &impl Eprint, run_result: &RunResult, notes: bool) {
    match &run_result.ending {
        Ok(Ok(_)) => {}
        Ok(Err(fault)) => report_fault(errors, fault),
        Err(access_refusal) => {
            let _ = eprintln!(errors; "reuse-undo: {access_refusal}");
        }
    }
    if let Some((step, files)) = run_result.rolled_back {
        note_rolled_back(errors, step, files);
    }
    match &run_result.ending {
        Ok(outcome) => {
            if let Some(diagnostics) = &run_result.diagnostics {
                note_call(errors, diagnostics, outcome);
            }
        }
        Err(access_refusal) => {
            if notes {
                note_access_refusal(errors, access_refusal);
            }
        }
    }
}

fn report_fault(errors: &impl Eprint, fault: &Fault) {
    let Fault::WouldRefuse(path_outcomes) = fault else {
        let _ = eprintln!(errors; "reuse-undo: {fault}");
        return;
    };
    for path_outcome in path_outcomes.as_slice() {
        if let PathOutcome::Refused(refusal) = path_outcome {
            let _ = eprintln!(errors; "reuse-undo: {refusal}");
        }
    }
}
