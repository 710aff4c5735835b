//! What the program exits with, of each way in which a run can end. The root of the program calls
//! it. Its contracts say every case; `tests/refusals.sh` shows them.
ghost use Rattle.std.specs.Prelude.{◌≡◌};
ghost use Rattle.reuse_report.specs.Statuses.{call_status_of, ending_of, exit_status_of, line_status_of};

use crate::access_refusal::AccessRefusal;
use reuse_arguments::line::{ChangeStatus, LineFault};
use reuse_notice::NoticeRefusal;
use reuse_print::fault::Fault;
use reuse_words::TextRefusal;

/// How a run of the program ended.
#[derive(Drop)]
pub enum Ending {
    /// The clock is out of range.
    BadClock,
    /// The words are no line.
    NoLine {
        fault: LineFault,
        /// Whether that, or the help that was asked for, could be printed.
        is_reported: bool,
    },
    /// The program itself refused the call, which wasn't begun.
    Denied(AccessRefusal),
    /// A call was made, or was to be made.
    Called {
        /// How many paths changed, or would change in a dry run.
        outcome: Result<usize, Fault>,
        on_change: ChangeStatus,
    },
}

impl Ending {
    /// How a call ended, of which this came.
    pub fn of_call(
        ending: Result<Result<usize, Fault>, AccessRefusal>,
        on_change: ChangeStatus,
    ) -> Ending
        ensures { result ≡ ending_of on_change ending }
    {
        match ending {
            Ok(outcome) => Ending::Called { outcome, on_change },
            Err(access_refusal) => Ending::Denied(access_refusal),
        }
    }
}

/// The status that says how it ended.
pub fn exit_status(ending: &Ending) -> u8
    ensures { result ≡ exit_status_of ending.now }
{
    match ending {
        Ending::BadClock | Ending::Denied(_) => 1,
        Ending::NoLine {
            fault,
            is_reported: true,
        } => line_status(fault),
        Ending::NoLine {
            fault,
            is_reported: false,
        } => line_status(fault).max(1),
        Ending::Called { outcome, on_change } => call_status(outcome, *on_change),
    }
}

/// After a call: its outcome is how many paths changed, or would change in a dry run.
fn call_status(outcome: &Result<usize, Fault>, on_change: ChangeStatus) -> u8
    ensures { result ≡ call_status_of on_change outcome.now }
{
    match (outcome, on_change) {
        (Err(_), _) => 1,
        (Ok(1..), ChangeStatus::One) => 1,
        (Ok(_), _) => 0,
    }
}

/// After words that are no line.
fn line_status(fault: &LineFault) -> u8
    ensures { result ≡ line_status_of fault.now }
{
    match fault {
        LineFault::Help(_) => 0,
        LineFault::Memory
        | LineFault::BadAdditions(NoticeRefusal::Memory(_))
        | LineFault::BadText(_, TextRefusal::Memory(_)) => 1,
        LineFault::Usage(_)
        | LineFault::BadPath(_)
        | LineFault::BadAdditions(_)
        | LineFault::NothingToAmend
        | LineFault::BadGlob(_)
        | LineFault::Unreadable(_)
        | LineFault::BadText(_, _)
        | LineFault::NoTree => 2,
    }
}
