//! The files whose names aren't recognised, of which notes say how many there are, and whether ready
//! styles are left for their names. The program and `diagnostics` call it. Tested by `tests/notes.sh`.
use reuse_command::command::{Scope, Unknown};
use reuse_command::path_outcome::PathOutcome;
use reuse_command::reply::Refusal;
use reuse_print::fault::Fault;
use reuse_print::ready_left::{OwnFiles, is_any_left};
use reuse_ready::tally;
use std::alloc::Global;

/// Files whose names aren't recognised.
#[derive(Clone, Copy)]
pub struct Unrecognised {
    /// How many there are.
    pub files: usize,
    /// How many names they have, as far as that was counted.
    pub names: usize,
    /// Whether ready styles are left for the names, or whether that isn't known.
    pub is_any_left: bool,
}

impl Unrecognised {
    /// So many files, of which the names aren't known.
    pub fn unnamed(files: usize) -> Unrecognised {
        Unrecognised {
            files,
            names: 0,
            is_any_left: true,
        }
    }
}

/// Whether a call was refused for a name, or paths would be refused.
pub fn is_unrecognised(outcome: &Result<usize, Fault>) -> bool {
    matches!(
        outcome,
        Err(Fault::Refused(Refusal::Unrecognised(_)) | Fault::WouldRefuse(_))
    )
}

/// Whether the files that are skipped are those whose names aren't recognised.
pub fn passes_over(scope: &Scope) -> bool {
    scope.unknown == Unknown::Skip && !scope.skip_existing
}

/// The files that are refused among the path outcomes, since their names aren't recognised, beside
/// the tree's own files.
pub fn unrecognised_among(
    alloc: Global,
    path_outcomes: &[PathOutcome],
    own: &OwnFiles,
) -> Option<Unrecognised> {
    let mut paths = Vec::new(alloc);
    for path_outcome in path_outcomes {
        if let PathOutcome::Refused(Refusal::Unrecognised(path)) = path_outcome {
            paths.push(path.try_clone(alloc).ok()?).ok()?;
        }
    }
    let rows = tally(alloc, paths.as_slice()).ok()?;
    Some(Unrecognised {
        files: paths.len(),
        names: rows.len(),
        is_any_left: is_any_left(alloc, rows.as_slice(), own).unwrap_or(true),
    })
}
