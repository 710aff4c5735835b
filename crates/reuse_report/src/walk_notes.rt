//! Notes on the files that a call goes through: for how many names no style is known, which globs
//! and listed paths have no file, and what a new header could break. `notes` alone calls it. Tested
//! by `tests/notes.sh`.
use crate::diagnostics::Diagnostics;
use crate::unrecognised::Unrecognised;
use reuse_header::Harm;
use reuse_plan::counts::Harmed;
use reuse_print::advice::{harm_listing, name_listing};
use reuse_print::objects::harm_word;

/// Prints how many files of how many names aren't recognised, where one is refused for that, or how
/// many were passed over. Of these the names aren't known, nor whether a ready style is left.
pub fn note_unrecognised(rt: &impl Eprint, unrecognised: Unrecognised, passed_over: bool) {
    let Unrecognised {
        files,
        names,
        is_any_left,
    } = unrecognised;
    let listing = name_listing(is_any_left);
    let word = if files == 1 { "file" } else { "files" };
    let name = if names == 1 { "name" } else { "names" };
    let _ = match (passed_over, files) {
        (true, 1..) => {
            eprintln!(rt;
                "reuse-undo: note: {files} {word} passed over, since no comment style is known for the names; \
                reuse-undo styles lists them, with the ready styles that styles --add adds"
            )
        }
        (false, 2..) => {
            eprintln!(rt;
                "reuse-undo: note: {files} files of {names} {name} aren't recognised; {listing}"
            )
        }
        _ => Ok(()),
    };
}

/// Prints which globs left nothing out, and how many listed paths are no covered file beneath a
/// PATH.
pub fn note_unused(rt: &impl Eprint, diagnostics: &Diagnostics) {
    for glob in diagnostics.idle_globs.as_slice() {
        let _ = eprintln!(rt; "reuse-undo: note: --exclude {glob} left no file out");
    }
    let _ = match diagnostics.counts.unused.names {
        0 => Ok(()),
        1 => {
            eprintln!(rt; "reuse-undo: note: 1 path of the list is no covered file beneath a PATH")
        }
        count => {
            eprintln!(rt;
                "reuse-undo: note: {count} paths of the list are no covered files beneath a PATH"
            )
        }
    };
}

/// Prints how many paths an amendment left, and why: by its kind.
pub fn note_left(rt: &impl Eprint, count: usize, is_everywhere: bool) {
    let (word, verb) = if count == 1 {
        ("path", "holds")
    } else {
        ("paths", "hold")
    };
    let why = if is_everywhere { BESIDE } else { HEADERS };
    if count > 0 {
        let _ = eprintln!(rt;
            "reuse-undo: note: {count} {word} still {verb} what the call names: {why}"
        );
    }
}

/// Why paths are left if header blocks are amended.
const HEADERS: &str = "amend changes header blocks, neighbours and REUSE.toml alone, \
    and with --everywhere each tag of a text";

/// Why paths are left if each tag is amended.
const BESIDE: &str = "what is removed stays if other text stands on its line";

/// Prints in which files a header could break something: the first of them, how many more, and which
/// call lists these, where the call was made or not. Those whose header may be in a string are told
/// apart.
pub fn note_harms(rt: &impl Eprint, harms: &[Harmed], is_made: bool) {
    let listing = harm_listing(is_made);
    let count = harms.iter().filter(|harmed| is_below_text(harmed)).count();
    if let Some(first) = harms.iter().find(|harmed| !is_below_text(harmed)) {
        note_first_lines(rt, first, harms.len().saturating_sub(count), listing);
    }
    if let Some(first) = harms.iter().find(|harmed| is_below_text(harmed)) {
        note_below_text(rt, first.path.text(), count, listing);
    }
}

fn is_below_text(harmed: &Harmed) -> bool {
    harmed.harm == Harm::BelowText
}

// Prints which of some files has a header below text that is no comment.
fn note_below_text(rt: &impl Eprint, path: &str, count: usize, listing: &str) {
    let _ = match count {
        0 | 1 => {
            eprintln!(rt;
                "reuse-undo: note: the header of {path} stands below other text: it may be in a string"
            )
        }
        count => {
            let more = count - 1;
            eprintln!(rt;
                "reuse-undo: note: the headers of {count} files stand below other text: \
                they may be in strings: {path} and {more} more ({listing})"
            )
        }
    };
}

// Prints which of some files has a first line that a header at the top may break.
fn note_first_lines(rt: &impl Eprint, first: &Harmed, count: usize, listing: &str) {
    let (path, word) = (first.path.text(), harm_word(first.harm));
    let way = if first.harm == Harm::Markup {
        RULED
    } else {
        KEPT
    };
    let _ = match count {
        0 | 1 => {
            eprintln!(rt; "reuse-undo: note: a header at the top may break {path} ({word}); {way}")
        }
        count => {
            let more = count - 1;
            eprintln!(rt;
                "reuse-undo: note: a header at the top may break {count} files: {path} ({word}) and {more} more \
                ({listing}); {way}"
            )
        }
    };
}

/// How files that begin with markup get another style.
const RULED: &str = "rules in .reuse/comments.toml give such files another style, or a neighbour: \
    see reuse-undo styles";

/// How lines are kept in front of a header.
const KEPT: &str = "first-lines and front-matter in .reuse/comments.toml keep such lines in front: \
    see reuse-undo(1)";
