//! What a call would do, path by path.
ghost use Rattle.std.specs.Prelude.{◌≡◌, IfOk, IfErr};
ghost use Rattle.reuse_command.specs.Answer.{IsFailure};
ghost use Rattle.reuse_command.specs.Answer.{IsNoFailure};

use crate::reply::Refusal;
use reuse_change::{FixedList, PathText};
use reuse_header::Harm;
use reuse_json::Changes;

/// What a call would do at a path.
#[derive(Debug, Drop)]
pub enum PathOutcome {
    /// The path changes, and what the header could break where that is the file's first.
    Changes { path: PathText, harm: Option<Harm> },
    /// The file is gone through and stays as it is.
    Unchanged(PathText),
    /// The file is skipped, as that was asked for.
    Skipped(PathText),
    /// The call is refused so.
    Refused(Refusal),
    /// The path is left: what tells its licensing would still hold what the call names.
    Left(PathText),
}

/// The outcomes of the paths that a call goes through, in their order.
pub type PathOutcomes = FixedList<PathOutcome>;

/// What a call would do, and the changes that this comes of: both are of one plan.
#[derive(Debug, Drop)]
pub struct Previewed {
    /// The outcomes of the paths that the call goes through.
    pub path_outcomes: PathOutcomes,
    /// The changes that it would make; of an undo those that it would take back.
    pub changes: Changes,
}

/// The refusal, unless it is a failure.
pub fn unless_failure(refusal: Refusal) -> Result<Refusal, Refusal>
    ensures reported { IfOk result (λ reported. (reported ≡ refusal) × IsNoFailure reported) }
    ensures failed { IfErr result (λ failed. (failed ≡ refusal) × IsFailure failed) }
{
    match refusal {
        Refusal::Failed(failure) => Err(Refusal::Failed(failure)),
        refusal => Ok(refusal),
    }
}
