//! What comes of what was asked for: how it ended, what was rolled back, and what notes report.
//! The program makes it, and `report` prints it.
ghost use Rattle.std.specs.Prelude.{◌≡◌, Ok, Err};

use crate::access_refusal::AccessRefusal;
use crate::diagnostics::Diagnostics;
use reuse_print::fault::Fault;

/// How a call ends: its outcome, or why it isn't begun.
pub type CallEnding = Result<Result<usize, Fault>, AccessRefusal>;

/// What comes of what was asked for.
#[derive(Drop)]
pub struct RunResult {
    /// How many paths changed, or would change in a dry run; or why it wasn't begun.
    pub ending: CallEnding,
    /// The step that was rolled back, which a stopped run had begun, and how many files.
    pub rolled_back: Option<(u32, usize)>,
    /// What notes report, where they are asked for.
    pub diagnostics: Option<Diagnostics>,
}

impl RunResult {
    ghost use Rattle.reuse_report.specs.Endings.{result_of};

    /// It failed before it was begun.
    pub fn fault(fault: Fault) -> RunResult
        ensures { result ≡ result_of (Ok (Err fault)) }
    {
        RunResult::of(Ok(Err(fault)))
    }

    /// It was denied.
    pub fn denied(access_refusal: AccessRefusal) -> RunResult
        ensures { result ≡ result_of (Err access_refusal) }
    {
        RunResult::of(Err(access_refusal))
    }

    /// No more than how it ended.
    fn of(ending: CallEnding) -> RunResult
        ensures { result ≡ result_of ending }
    {
        RunResult {
            ending,
            rolled_back: None,
            diagnostics: None,
        }
    }
}

/// The step that was pending and isn't any more, and how many files were rolled back.
pub fn rolled_back_step(pending: Option<u32>, files: Option<usize>) -> Option<(u32, usize)> {
    Some((pending?, files?))
}
