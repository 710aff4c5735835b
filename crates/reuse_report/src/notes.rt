//! Notes: what a fault is about, what can be done about it, and what a call has done. They go to
//! standard error, and no status depends on them. `report` alone calls it. Tested by
//! `tests/notes.sh`.
use crate::access_refusal::AccessRefusal;
use crate::damage::MissingHead;
use crate::diagnostics::{Diagnostics, RequestKind};
use crate::walk_notes::{note_harms, note_left, note_unrecognised, note_unused};
use reuse_arguments::advice::line_advice;
use reuse_arguments::line::LineFault;
use reuse_command::amend_fault::AmendFault;
use reuse_command::failure::Failure;
use reuse_command::path_outcome::PathOutcome;
use reuse_command::reply::Refusal;
use reuse_dep5::{Dep5Cause, Dep5Refusal};
use reuse_folder::OwnerReport;
use reuse_print::advice::path_advice;
use reuse_print::fault::Fault;
use reuse_store::Cause;
use std::fmt::Display;

/// Prints a note. Where standard error can't be written, there is nobody to read it.
fn note(rt: &impl Eprint, text: impl Display + Drop) {
    let _ = eprintln!(rt; "reuse-undo: note: {text}");
}

/// Prints what to do about words that are no line.
pub fn note_words(rt: &impl Eprint, fault: &LineFault) {
    if let Some(advice) = line_advice(fault) {
        note(rt, advice);
    }
}

const BAD_JOURNAL: &str =
    "this file of the journal is damaged, missing or of a later version: put it \
    back from a backup; or delete the folder .reuse/undo, which forgets the history and changes no \
    other file";

const DEP5: &str = ".reuse/dep5";

/// What can be done about a refusal, where a note says that.
fn advice(refusal: &Refusal, is_begun: bool, diagnostics: &Diagnostics) -> Option<&'static str> {
    match refusal {
        Refusal::Moved(_) if is_begun => Some(pending_advice(diagnostics)),
        Refusal::Moved(_) if diagnostics.is_gone => Some(gone_advice(diagnostics.kind)),
        Refusal::Moved(_) => Some(moved_advice(diagnostics.kind)),
        Refusal::NoSuchStep(_) => Some("reuse-undo log tells the numbers of the steps"),
        Refusal::Failed(Failure::Interrupted(cause)) => {
            Some(interrupted_advice(is_begun, *cause, diagnostics))
        }
        Refusal::BadJournal(_) => Some(BAD_JOURNAL),
        Refusal::Dep5(refusal) => dep5_advice(refusal),
        Refusal::NotCovered(path) if path.text() == DEP5 => Some(
            "this file is neither annotated nor amended: convert it first, by reuse-undo convert-dep5, \
            which puts a REUSE.toml in its place",
        ),
        Refusal::Amend(path, _) if path.text().starts_with(".reuse/") => Some(
            "behind the last line of this file no name or table can be added, as behind an inline table: write \
            the names below a line [styles], or add the lines by hand that reuse-undo styles --all prints",
        ),
        Refusal::Amend(_, fault) => Some(amend_advice(*fault)),
        refusal => path_advice(refusal, diagnostics.unrecognised.is_any_left),
    }
}

/// What can be done about a call that stopped when a step was pending.
fn interrupted_advice(is_begun: bool, cause: Cause, diagnostics: &Diagnostics) -> &'static str {
    let (is_changed, is_foreign) = match &diagnostics.failure {
        Some(failure) => (failure.is_change(), failure.is_foreign()),
        None => (cause == Cause::Moved, false),
    };
    if is_changed {
        "what another program wrote meanwhile stays; the next call on this tree, log too, takes back what was begun, \
        or names the file that was changed since: then reuse-undo recover --skip-moved leaves that one as it is"
    } else if !is_begun {
        "the next call on this tree, log too, takes back what was begun"
    } else if is_foreign {
        "a stopped run had begun this step, and what stands there is in its way: take that away and call again, \
        or call reuse-undo recover --skip-moved, which leaves it as it is"
    } else {
        "a stopped run had begun this step, and it can't be taken back as long as that file can't be written: \
        make it writable, and call again"
    }
}

/// What can be done about a file of a step that a stopped run had begun.
fn pending_advice(diagnostics: &Diagnostics) -> &'static str {
    match (diagnostics.kind, diagnostics.is_gone) {
        (RequestKind::Recover, false) => {
            "a stopped run had begun to change this file, and it was changed since: with --skip-moved it is left \
            as it is, and the other files are set back"
        }
        (RequestKind::Recover, true) => {
            "a stopped run had begun to change this file, and it is gone: with --skip-moved it is left out, and the \
            other files are set back"
        }
        (_, false) => {
            "a stopped run had begun to change this file, and it was changed since: put it back as it was before that \
            run, or as that run would have left it; or call reuse-undo recover --skip-moved, which leaves it as it is \
            and sets the other files back"
        }
        (_, true) => {
            "a stopped run had begun to change this file, and it is gone: put it back as it was before that run, \
            or as that run would have left it; or call reuse-undo recover --skip-moved, which leaves it out and sets \
            the other files back"
        }
    }
}

/// What can be done about a file that is gone.
fn gone_advice(kind: RequestKind) -> &'static str {
    match kind {
        RequestKind::Revert | RequestKind::PreviewRevert => {
            "this file is gone: put it back and call again, or leave it out with --skip-moved; \
            or reuse-undo forget takes the step out of the history, and leaves all files"
        }
        RequestKind::Redo => "this file is gone: put it back and call again",
        _ => {
            "this file is gone: put it back and call again; or reuse-undo revert --skip-moved takes the step out of \
            the other files, and reuse-undo forget out of the history alone"
        }
    }
}

/// What can be done about a file that isn't as a step left it.
fn moved_advice(kind: RequestKind) -> &'static str {
    match kind {
        RequestKind::Revert | RequestKind::PreviewRevert => {
            "what the step wrote doesn't stand in this file as it did: take that change back and call again, \
            or leave the file as it is with --skip-moved; or reuse-undo forget takes the step out of the history, \
            and leaves all files"
        }
        RequestKind::Redo => {
            "this file was changed since the step was taken back: take that change back and call again"
        }
        _ => {
            "this file was changed since: take that change back and call again, or keep it; \
            reuse-undo revert takes a step out of files that were edited below what it wrote, \
            and reuse-undo forget out of the history alone"
        }
    }
}

fn dep5_advice(refusal: &Dep5Refusal) -> Option<&'static str> {
    match refusal {
        Dep5Refusal::BadDep5(_, Dep5Cause::Missing) => Some(
            "the fields Files, Copyright and License are asked for in this paragraph, none of them empty",
        ),
        Dep5Refusal::BadDep5(_, Dep5Cause::Orphan) => Some(
            "an empty line ends a paragraph: within a licence's text write a blank and a dot there",
        ),
        Dep5Refusal::Question(_) => Some(
            "REUSE.toml has no sign for one character: write * in place of ?, or list the files",
        ),
        _ => None,
    }
}

/// What can be done about licensing information that can't be amended.
fn amend_advice(fault: AmendFault) -> &'static str {
    match fault {
        AmendFault::BadExpression => {
            "a licence of this file would be no expression any more: in front of WITH stands an identifier alone, \
            and behind it one without a plus sign"
        }
        AmendFault::NothingLeft => {
            "neither a licence nor a notice nor a contributor would be left: remove the header by hand, \
            or take the step back that wrote it, by reuse-undo revert"
        }
        AmendFault::CannotBeAmended => {
            "a value over several lines would change, a single one would go, or the file isn't TOML of texts, \
            whole numbers and truth values: write the value on one line, or amend the file by hand"
        }
    }
}

/// Prints what a refusal is about.
fn note_refusal(rt: &impl Eprint, diagnostics: &Diagnostics, refusal: &Refusal) {
    if let (Refusal::Failed(Failure::Fault(_) | Failure::Interrupted(_)), Some(failure)) = (
        refusal,
        &diagnostics.failure,
    ) {
        note(rt, failure);
    }
    if let (Refusal::Failed(Failure::Fault(_)), Some(root)) = (refusal, &diagnostics.missing_root) {
        let _ = eprintln!(rt; "reuse-undo: note: there is no folder {root}");
    }
    if let (Refusal::NoText(id), Some(folder)) = (refusal, &diagnostics.texts) {
        let _ = eprintln!(rt; "reuse-undo: note: the text was sought in {folder}/{id}.txt");
    }
    note_own_files(rt, refusal);
    if let (Refusal::BadJournal(path), Some(damage)) = (refusal, diagnostics.damage) {
        let (path, words, advice) = (path.text(), damage.words(), damage.advice());
        let _ = eprintln!(rt; "reuse-undo: note: {path} {words}: {advice}");
        return;
    }
    let is_begun = diagnostics.pending.is_some() && !diagnostics.is_rolled_back;
    if let Some(advice) = advice(refusal, is_begun, diagnostics) {
        note(rt, advice);
    }
}

/// Prints what is wrong with a tree's own files of styles and comments.
fn note_own_files(rt: &impl Eprint, refusal: &Refusal) {
    if let Refusal::BadStyles(cause) = refusal {
        let _ = eprintln!(rt; "reuse-undo: note: what is wrong with .reuse/styles.toml: {cause}");
    }
    if let Refusal::BadComments(cause) = refusal {
        let _ = eprintln!(rt; "reuse-undo: note: what is wrong with .reuse/comments.toml: {cause}");
    }
}

/// Prints what the refusals among path outcomes are about, each advice once.
fn note_path_outcomes(rt: &impl Eprint, diagnostics: &Diagnostics, path_outcomes: &[PathOutcome]) {
    let mut last = None;
    for path_outcome in path_outcomes {
        if let PathOutcome::Refused(refusal) = path_outcome {
            let reported = advice(refusal, false, diagnostics);
            if reported.is_none() || reported != last {
                note_refusal(rt, diagnostics, refusal);
            }
            last = reported;
        }
    }
}

/// Prints how many files a call changed, and how that is taken back.
fn note_change(rt: &impl Eprint, kind: RequestKind, count: usize) {
    let files = if count == 1 { "file" } else { "files" };
    let _ = match kind {
        RequestKind::Step | RequestKind::Conversion | RequestKind::Redo | RequestKind::Revert
            if count > 0 => {
            eprintln!(rt;
                "reuse-undo: note: {count} {files} changed; reuse-undo undo takes that back"
            )
        }
        RequestKind::Revert => {
            eprintln!(rt;
                "reuse-undo: note: the step couldn't be taken out of any file, and stays done; reuse-undo forget takes \
                it out of the history"
            )
        }
        RequestKind::Undo => {
            eprintln!(rt;
                "reuse-undo: note: {count} {files} changed back; reuse-undo redo makes that step again"
            )
        }
        _ => Ok(()),
    };
}

/// Prints that the journal has files of steps, and no head.
fn note_missing_head(rt: &impl Eprint, missing_head: MissingHead) {
    match missing_head {
        MissingHead::First => note(
            rt,
            "the history was found empty, though .reuse/undo/000001.json is there: the head of the journal is gone, or \
            the first run was stopped before it changed a file; if it is gone, put .reuse/undo/head.json back from a \
            backup",
        ),
        MissingHead::Steps(count) => {
            let _ = eprintln!(rt;
                "reuse-undo: note: the history was found empty, though .reuse/undo has the files of {count} steps: the \
                head of the journal is gone; put .reuse/undo/head.json back from a backup, or the next steps take the \
                places of these"
            );
        }
    }
}

/// Prints that a step was rolled back which a stopped run had begun, and how many files of it. That
/// is printed always, since the call before may have been another user's.
pub fn note_rolled_back(rt: &impl Eprint, step: u32, count: usize) {
    let files = if count == 1 { "file" } else { "files" };
    let _ = eprintln!(rt;
        "reuse-undo: note: step {step}, which a stopped run had begun, was set back ({count} {files})"
    );
}

/// Prints what can be done about a call that the program itself refused.
pub fn note_access_refusal(rt: &impl Eprint, access_refusal: &AccessRefusal) {
    let text = match access_refusal {
        AccessRefusal::JournalOfAnother => {
            "files of .reuse/undo are another user's, who could have any file here changed by this call: \
            --trust-journal opens that journal all the same"
        }
        AccessRefusal::CannotKeepOwner(_) => {
            "written anew, this file would have another owner or group, and somebody more or less access than now: \
            --allow-owner-change writes it all the same"
        }
        AccessRefusal::NameTooLong(_) => {
            "the file that would be made has a name of more than 255 bytes, which none can have: \
            with --style annotate writes into the file itself"
        }
    };
    note(rt, text);
}

/// Prints how many files have another owner or group now, and how many had further names.
fn note_owners(rt: &impl Eprint, owners: OwnerReport) {
    if owners.changed > 0 {
        let files = if owners.changed == 1 { "file" } else { "files" };
        let _ = eprintln!(rt;
            "reuse-undo: note: {} {files} could not keep owner or group",
            owners.changed
        );
    }
    if owners.linked > 0 {
        let files = if owners.linked == 1 {
            "file has"
        } else {
            "files have"
        };
        let _ = eprintln!(rt;
            "reuse-undo: note: {} {files} further names (hard links), which keep the old bytes",
            owners.linked
        );
    }
}

/// Prints what a call did, or what its fault is about.
pub fn note_call(rt: &impl Eprint, diagnostics: &Diagnostics, outcome: &Result<usize, Fault>) {
    note_owners(rt, diagnostics.owners);
    if let Some(missing_head) = diagnostics.missing_head {
        note_missing_head(rt, missing_head);
    }
    match outcome {
        Ok(count) => note_change(rt, diagnostics.kind, *count),
        Err(Fault::Refused(refusal) | Fault::NoDiff(refusal)) => {
            note_refusal(rt, diagnostics, refusal)
        }
        Err(Fault::WouldRefuse(path_outcomes)) => note_path_outcomes(
            rt,
            diagnostics,
            path_outcomes.as_slice(),
        ),
        Err(_) => {}
    }
    note_unrecognised(rt, diagnostics.unrecognised, outcome.is_ok());
    if let Ok(_) | Err(Fault::WouldRefuse(_)) = outcome {
        note_unused(rt, diagnostics);
        let is_made = diagnostics.kind == RequestKind::Step;
        note_harms(rt, diagnostics.counts.harms.as_slice(), is_made);
        note_left(rt, diagnostics.counts.left, diagnostics.is_everywhere);
    }
    if diagnostics.is_table_empty && outcome.is_ok() {
        note(
            rt,
            "REUSE.toml says nothing of any file, since .reuse/dep5 has no paragraph with Files",
        );
    }
    note_surroundings(rt, diagnostics, outcome);
}

/// Prints what no other program or run may do meanwhile, and that a folder above has a journal.
fn note_surroundings(rt: &impl Eprint, diagnostics: &Diagnostics, outcome: &Result<usize, Fault>) {
    if diagnostics.is_by_path {
        note(
            rt,
            "there is no /proc: no other program may move folders or make links here meanwhile",
        );
    }
    if let Some(error) = diagnostics.lock_error {
        let _ = eprintln!(rt;
            "reuse-undo: note: no lock can be had here ({error}): no other run may work on this tree meanwhile"
        );
    }
    if let Some(folder) = &diagnostics.above {
        note_above(rt, folder.as_str(), diagnostics.begins_journal(outcome));
    }
}

/// Prints that a folder above has a journal too, and what to do if the call began a second one.
fn note_above(rt: &impl Eprint, folder: &str, begins_journal: bool) {
    let _ = eprintln!(rt;
        "reuse-undo: note: a folder above has a journal too: with --root {folder} a call uses that one, \
        and PATHs start there"
    );
    if begins_journal {
        note(
            rt,
            "this call began a second journal: reuse-undo undo takes the call back; then delete .reuse/undo here, \
            and .reuse if it is empty",
        );
    }
}
