//! Why the program itself refuses a call, before it is begun: nothing is changed then. The program
//! says so, and `report` prints it. Tested by `tests/owners.sh`.
ghost use Rattle.std.specs.Prelude.{◌≡◌, Some};
ghost use Rattle.reuse_report.specs.RefusalTexts.{access_refusal_text};

use crate::printed::is_refused;
use reuse_change::PathText;
use reuse_command::path_outcome::PathOutcome;
use reuse_folder::HostStore;
use reuse_system::place::ends_in_long_name;
use std::alloc::Global;
use std::error::Error;
use std::fmt;
use std::fs::File;
use std::rt::Files;

/// Why a call isn't begun; its text is printed on standard error.
#[derive(Debug, Drop)]
pub enum AccessRefusal {
    /// The journal belongs to another user. Nothing of it was read.
    JournalOfAnother,
    /// A file that the call would change can't keep its owner or its group.
    CannotKeepOwner(PathText),
    /// The call would make this file or its neighbour, and no name can be that long.
    NameTooLong(PathText),
}

impl fmt::Display for AccessRefusal {
    ghost output = { λ access_refusal. Some (access_refusal_text access_refusal) };

    fn fmt<W: fmt::Write>(&self, f: &mut fmt::Formatter<W>) -> fmt::Result {
        match self {
            AccessRefusal::JournalOfAnother => f.write_str("journal of another user"),
            AccessRefusal::CannotKeepOwner(path) => write!(
                f,
                "{}: cannot keep its owner",
                path.text()
            ),
            AccessRefusal::NameTooLong(path) => write!(f, "{}: too long", path.text()),
        }
    }
}

impl Error for AccessRefusal {}

/// Why the first path can't be written that would change and can't be, if there is one. A refusal
/// among the path outcomes is reported by the call itself.
pub fn access_refusal_among<R: Files<File = File> + AllocGlobal + Clone + Drop>(
    alloc: Global,
    folder: &mut HostStore<R>,
    path_outcomes: &[PathOutcome],
) -> Option<AccessRefusal>
    ensures { folder.new.folder.unsynced ≡ folder.old.folder.unsynced }
{
    if is_refused(path_outcomes) {
        return None;
    }
    for path_outcome in path_outcomes {
        if let PathOutcome::Changes { path, harm: _ } = path_outcome
            && let Some(access_refusal) = access_refusal_of(alloc, folder, path)
        {
            return Some(access_refusal);
        }
    }
    None
}

/// Why the file at this path can't be written, if that shows before.
fn access_refusal_of<R: Files<File = File> + AllocGlobal + Clone + Drop>(
    alloc: Global,
    folder: &mut HostStore<R>,
    path: &PathText,
) -> Option<AccessRefusal>
    ensures { folder.new.folder.unsynced ≡ folder.old.folder.unsynced }
{
    if ends_in_long_name(path.text()) {
        return Some(AccessRefusal::NameTooLong(file_of(alloc, path)?));
    }
    let is_lost = folder.may_write(alloc, path) == Ok(false);
    let path = path.try_clone(alloc).ok()?;
    is_lost.then_some(AccessRefusal::CannotKeepOwner(path))
}

/// The file that the one at this path is the neighbour of, if it is one.
fn file_of(alloc: Global, path: &PathText) -> Option<PathText> {
    let file = path.text().strip_suffix(".license");
    PathText::new(alloc, file.unwrap_or(path.text())).ok()
}
