//! What a session answers.
ghost use Rattle.std.specs.Prelude.{◌≡◌, Some};
ghost use Rattle.reuse_command.specs.declared.failure.Failure.TheVariants.{Memory};
ghost use Rattle.reuse_command.specs.Answer.{nothing_recovered};
ghost use Rattle.reuse_command.specs.RefusalTexts.{refusal_text};
ghost use Rattle.reuse_command.specs.declared.reply.Refusal.TheVariants.{Failed};

use crate::amend_fault::AmendFault;
use crate::command::Place;
use crate::failure::{Failure, Fault};
use crate::header_fault::HeaderFault;
use crate::path_outcome::PathOutcomes;
use reuse_change::{CommandName, EntryNumbers, FixedList, Moment, PathText};
use reuse_dep5::Dep5Refusal;
use reuse_header::{CommentsRefusal, StylesRefusal};
use reuse_json::EntryChanges;
use reuse_store::StoreFault;
use reuse_text::Bytes;
use std::alloc::{AllocError, AllocFailed, Global};
use std::error::Error;
use std::fmt;

/// Paths, in byte order.
pub type Paths = FixedList<PathText>;

/// A row of the log.
#[derive(Clone, Copy, Debug)]
pub struct Row {
    /// The number of the entry.
    pub number: u32,
    /// When its command ran.
    pub when: Moment,
    /// Which command it was.
    pub command: CommandName,
    /// How many paths it changed.
    pub count: usize,
    /// Whether it is done, and not undone.
    pub done: bool,
}

/// The rows of a log: the entries done, the oldest first, then those undone, the next to be redone
/// first.
pub type Rows = FixedList<Row>;

/// A step that the journal lists, with what it changed.
#[derive(Debug, Drop)]
pub struct Shown {
    /// Its row of the log.
    pub row: Row,
    /// What it changed.
    pub changes: EntryChanges,
}

/// What a revert did.
#[derive(Debug, Drop)]
pub struct Reverted {
    /// The paths at which the step was taken back.
    pub changed: Paths,
    /// The paths of the step that were left, since it can't be taken back there.
    pub skipped: Paths,
}

/// What a recovery did.
#[derive(Debug, Drop)]
pub struct Recovered {
    /// The number of the step that was pending. Where none was, nothing changed.
    pub number: Option<u32>,
    /// The paths that were rolled back.
    pub changed: Paths,
    /// The paths of the step that were left, since they can't be rolled back.
    pub skipped: Paths,
}

impl Recovered {
    /// No step was pending.
    pub fn nothing(alloc: Global) -> Recovered
        ensures { result ≡ nothing_recovered }
    {
        Recovered {
            number: None,
            changed: Paths::new(Vec::new(alloc)),
            skipped: Paths::new(Vec::new(alloc)),
        }
    }
}

/// What a call did.
#[derive(Debug, Drop)]
pub enum Response {
    /// A session was opened.
    Opened,
    /// A command changed these paths, and an amendment left those: what tells their licensing still
    /// holds what it names.
    Changed { paths: Paths, left: Paths },
    /// A command would have changed nothing, and an amendment left these paths.
    NothingChanged { left: Paths },
    /// These paths were taken back.
    Undone(Paths),
    /// These paths were changed again.
    Redone(Paths),
    /// The rows of the log.
    Log(Rows),
    /// The outcomes of the paths of a call that was looked at, and not made.
    Preview(PathOutcomes),
    /// A step of the journal.
    Shown(Shown),
    /// A step was taken back by a new one.
    Reverted(Reverted),
    /// The steps of these numbers were taken out of the history, ascending, each once.
    Forgotten(EntryNumbers),
    /// What was pending was rolled back.
    Recovered(Recovered),
}

/// Why a call was refused, or that it failed.
#[derive(Debug, Drop)]
pub enum Refusal {
    /// An earlier call of this session was interrupted.
    Broken,
    /// No further entry fits the journal.
    JournalFull,
    /// Neither a file nor a folder of the tree.
    NoSuchPath(PathText),
    /// A folder.
    IsFolder(Place),
    /// A path that is not covered.
    NotCovered(PathText),
    /// A file that is too long.
    TooLong(PathText),
    /// A text file whose name has no style.
    Unrecognised(PathText),
    /// A file whose header can't be written.
    Header(PathText, HeaderFault),
    /// A file whose licensing information can't be amended.
    Amend(PathText, AmendFault),
    /// There is no `.reuse/dep5`.
    NoDep5,
    /// A file that would be made is there.
    Exists(PathText),
    /// The `.reuse/dep5` can't be read, or not be said as a `REUSE.toml`.
    Dep5(Dep5Refusal),
    /// Not the id of a licence.
    BadId(Bytes),
    /// No text was found for the id of a licence.
    NoText(Bytes),
    /// A path to be made that is a folder, or that has a file above it.
    Clash(PathText),
    /// More changes than an entry holds, or longer ones.
    TooMany,
    /// The `.reuse/styles.toml` can't be read.
    BadStyles(StylesRefusal),
    /// The `.reuse/comments.toml` can't be read.
    BadComments(CommentsRefusal),
    /// No entry is done.
    NothingToUndo,
    /// A file isn't in the state that the call needs, or a path to be made clashes.
    Moved(PathText),
    /// No entry is undone.
    NothingToRedo,
    /// No step of the journal has the number.
    NoSuchStep(u32),
    /// The folder of the journal is a file, or its head or an entry can't be read.
    BadJournal(PathText),
    /// No rule refused the call: the store or memory failed.
    Failed(Failure),
}

impl fmt::Display for Refusal {
    ghost output = { λ refusal. Some (refusal_text refusal) };

    fn fmt<W: fmt::Write>(&self, f: &mut fmt::Formatter<W>) -> fmt::Result {
        match self {
            Refusal::Broken => f.write_str("broken"),
            Refusal::JournalFull => f.write_str("journal full"),
            Refusal::NoSuchPath(path) => write!(f, "{}: no such path", path.text()),
            Refusal::IsFolder(place) => write!(f, "{}: is a folder", place.text()),
            Refusal::NotCovered(path) => write!(f, "{}: not covered", path.text()),
            Refusal::TooLong(path) => write!(f, "{}: too long", path.text()),
            Refusal::Unrecognised(path) => write!(f, "{}: unrecognised", path.text()),
            Refusal::Header(path, fault) => write!(f, "{}: {fault}", path.text()),
            Refusal::Amend(path, fault) => write!(f, "{}: {fault}", path.text()),
            Refusal::NoDep5 => f.write_str(".reuse/dep5: absent"),
            Refusal::Exists(path) => write!(f, "{}: exists", path.text()),
            Refusal::Dep5(refusal) => write!(f, "{refusal}"),
            Refusal::BadId(id) => write!(f, "bad id: {id}"),
            Refusal::NoText(id) => write!(f, "no text: {id}"),
            Refusal::Clash(path) => write!(f, "{}: clash", path.text()),
            Refusal::TooMany => f.write_str("too many changes"),
            Refusal::BadStyles(_) => f.write_str(".reuse/styles.toml: bad styles"),
            Refusal::BadComments(_) => f.write_str(".reuse/comments.toml: bad comments"),
            Refusal::NothingToUndo => f.write_str("nothing to undo"),
            Refusal::Moved(path) => write!(f, "{}: moved", path.text()),
            Refusal::NothingToRedo => f.write_str("nothing to redo"),
            Refusal::NoSuchStep(number) => write!(f, "no such step: {number}"),
            Refusal::BadJournal(path) => write!(f, "{}: bad journal", path.text()),
            Refusal::Failed(failure) => write!(f, "{failure}"),
        }
    }
}

impl Error for Refusal {}

/// A reply or a refusal.
pub type Answer = Result<Response, Refusal>;

impl From<AllocError> for Refusal {
    ghost from_gives = { λ _ refusal. refusal ≡ Failed Memory };

    fn from(_: AllocError) -> Self {
        Refusal::Failed(Failure::Memory)
    }
}

impl<T: Drop> From<AllocFailed<T>> for Refusal {
    ghost from_gives = { λ _ refusal. refusal ≡ Failed Memory };

    fn from(_: AllocFailed<T>) -> Self {
        Refusal::Failed(Failure::Memory)
    }
}

impl From<StoreFault> for Refusal {
    ghost use Rattle.reuse_command.specs.Cause.{refusal_of};

    ghost from_gives = { λ fault refusal. refusal ≡ refusal_of fault };

    fn from(fault: StoreFault) -> Self {
        Refusal::Failed(match fault {
            StoreFault::Device => Failure::Fault(Fault::Device),
            StoreFault::Clash => Failure::Fault(Fault::Clash),
            StoreFault::Memory => Failure::Memory,
        })
    }
}
