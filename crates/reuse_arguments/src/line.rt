//! What a command line asks for.
ghost use Rattle.std.specs.Prelude.{◌≡◌, Some, if◌then◌else◌};
ghost use Rattle.reuse_arguments.specs.RefusalTexts.{line_fault_text, text_refusal_text};
ghost use Rattle.reuse_arguments.specs.declared.line.ChangeStatus.TheVariants as statuses;

use reuse_change::Moment;
use reuse_command::request::Request;
use reuse_notice::NoticeRefusal;
use reuse_shown::shown_name::NameDisplay;
use reuse_words::TextRefusal;
use std::alloc::{AllocError, AllocFailed};
use std::error::Error;
use std::fmt;

/// In which form an answer is printed.
#[derive(Clone, Copy, PartialEq, Eq)]
pub enum OutputFormat {
    /// A line for each path or row.
    Lines,
    /// These lines, and what changes as a diff.
    Diff,
    /// A JSON object on each line.
    Json,
}

/// How an answer is printed.
#[derive(Clone, Copy)]
pub struct PrintOptions {
    pub format: OutputFormat,
    /// How the names in lines are shown. JSON escapes their control bytes always, and a diff as git
    /// does.
    pub names: NameDisplay,
}

/// The status of a call that changed a path, or that would change one and was only looked at.
#[derive(Clone, Copy, PartialEq, Eq)]
pub enum ChangeStatus {
    /// 0, as if nothing had changed.
    Zero,
    /// 1, as if the call had been refused.
    One,
}

impl ChangeStatus {
    /// 1 if that is asked for.
    pub fn of(is_asked: bool) -> ChangeStatus
        ensures { result ≡ (if is_asked then statuses.One else statuses.Zero) }
    {
        if is_asked {
            ChangeStatus::One
        } else {
            ChangeStatus::Zero
        }
    }
}

/// What a line does with the names of a tree that have no comment style. These are the names for
/// which its request, then a preview of an annotation, is refused.
#[derive(Clone, Copy)]
pub enum NamesUse {
    /// Nothing: the answer to the request is printed.
    Unused,
    /// They are listed.
    Listed,
    /// Ready styles are added for them.
    Added {
        /// The moment of that step.
        when: Moment,
        /// Whether it is only looked at.
        dry_run: bool,
    },
}

/// A command line that was read.
#[derive(Drop)]
pub struct Line {
    /// The folder of the tree, relative to the working folder.
    pub root: String,
    /// What a session is asked for. The texts of a download are found later, and so are a list of
    /// files and the texts of headers.
    pub request: Request,
    /// What becomes of the names without a style that the request finds.
    pub names: NamesUse,
    /// The folder of the texts of a download, relative to the working folder.
    pub texts: Option<String>,
    pub format: OutputFormat,
    pub change_status: ChangeStatus,
}

/// Why words are no line.
#[derive(Debug, Drop)]
pub enum LineFault {
    /// A mistake in the words, with the text for the user.
    Usage(String),
    /// Help, the version or a ready table was asked for, with the text.
    Help(String),
    /// A word names no place of a tree.
    BadPath(String),
    /// The arguments of `annotate` or `amend` can't be written, or add nothing.
    BadAdditions(NoticeRefusal),
    /// Nothing that `amend` is to change is given.
    NothingToAmend,
    /// A word is no glob.
    BadGlob(String),
    /// The list of files, or the file of a text, can't be read.
    Unreadable(String),
    /// What a file holds is no text of a header.
    BadText(String, TextRefusal),
    /// No folder, from the working one upwards, is that of a tree.
    NoTree,
    /// Memory ran out.
    Memory,
}

impl fmt::Display for LineFault {
    ghost output = { λ fault. Some (line_fault_text fault) };

    fn fmt<W: fmt::Write>(&self, f: &mut fmt::Formatter<W>) -> fmt::Result {
        match self {
            LineFault::Usage(text) | LineFault::Help(text) => f.write_str(text.as_str()),
            LineFault::BadPath(word) => write!(f, "bad path: {word}"),
            LineFault::BadAdditions(refusal) => write!(f, "{refusal}"),
            LineFault::NothingToAmend => f.write_str("nothing to amend"),
            LineFault::BadGlob(word) => write!(f, "bad glob: {word}"),
            LineFault::Unreadable(file) => write!(f, "{file}: cannot be read"),
            LineFault::BadText(file, refusal) => {
                let reason = reason_of(refusal);
                write!(f, "bad text: {file}: {reason}")
            }
            LineFault::NoTree => f.write_str("no folder from here upwards has .reuse or .git"),
            LineFault::Memory => f.write_str("out of memory"),
        }
    }
}

impl Error for LineFault {}

/// Why a file is no text of a header, as the refusal itself says it.
fn reason_of(refusal: &TextRefusal) -> &'static str
    ensures { result.now ≡ text_refusal_text refusal.now }
{
    match refusal {
        TextRefusal::TooLong => "text is too long",
        TextRefusal::NotText => "text is not UTF-8",
        TextRefusal::ControlByte => "text has a control byte",
        TextRefusal::HoldsTag => "text has a tag",
        TextRefusal::HoldsBarrier => "text has a barrier",
        TextRefusal::Empty => "text is empty",
        TextRefusal::Memory(_) => "out of memory",
    }
}

impl From<AllocError> for LineFault {
    ghost use Rattle.reuse_arguments.specs.declared.line.LineFault.TheVariants as faults;

    ghost from_gives = { λ _ fault. fault ≡ faults.Memory };

    fn from(_: AllocError) -> LineFault {
        LineFault::Memory
    }
}

impl<T: Drop> From<AllocFailed<T>> for LineFault {
    ghost use Rattle.reuse_arguments.specs.declared.line.LineFault.TheVariants as faults;

    ghost from_gives = { λ _ fault. fault ≡ faults.Memory };

    fn from(_: AllocFailed<T>) -> LineFault {
        LineFault::Memory
    }
}

impl From<NoticeRefusal> for LineFault {
    ghost use Rattle.reuse_arguments.specs.declared.line.LineFault.TheVariants as faults;

    ghost from_gives = { λ refusal fault. fault ≡ faults.BadAdditions refusal };

    fn from(refusal: NoticeRefusal) -> LineFault {
        LineFault::BadAdditions(refusal)
    }
}
