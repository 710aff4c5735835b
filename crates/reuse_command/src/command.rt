//! Commands: what a session can be asked to do.
ghost use Rattle.std.specs.Prelude.{◌≡◌, IfOk};

use crate::choice::{Globs, PathList};
use crate::licence::{Ids, LicenceTexts};
use reuse_amend::Amendments;
use reuse_change::{CommandName, FixedList, PathText};
use reuse_header::{How, NamedStyle};
use reuse_json::EntryChanges;
use reuse_notice::Additions;
use reuse_ready::StyleAdditions;
use reuse_words::HeaderText;
use std::alloc::{AllocError, Global};

/// A place of a tree that a command is given.
#[derive(Debug, Drop)]
pub enum Place {
    /// The folder that holds all.
    Root,
    /// A file or a folder in it.
    Path(PathText),
}

impl Place {
    ghost use Rattle.reuse_command.specs.Command.{place_text};

    /// Its text: the path, or `.` for the root.
    pub fn text(&self) -> &str
        ensures { result.now ≡ place_text self.now }
    {
        match self {
            Place::Root => ".",
            Place::Path(path) => path.text(),
        }
    }

    /// A copy of it.
    pub fn try_clone(&self, alloc: Global) -> Result<Place, AllocError>
        ensures { IfOk result (λ copy. copy ≡ self.now) }
    {
        match self {
            Place::Root => Ok(Place::Root),
            Place::Path(path) => Ok(Place::Path(path.try_clone(alloc)?)),
        }
    }
}

/// Places, in any order.
pub type Places = FixedList<Place>;

/// What annotate does with a text file whose name has no style.
#[derive(Clone, Copy, Debug, PartialEq, Eq)]
pub enum Unknown {
    /// It is refused.
    Refuse,
    /// Its neighbour is written.
    Neighbour,
    /// It is skipped.
    Skip,
}

/// Which files annotate writes.
#[derive(Debug, Drop)]
pub struct Scope {
    /// In place of a folder, the covered files beneath it that are asked for.
    pub recursive: bool,
    /// The style of all files, in place of that of their names.
    pub style: Option<NamedStyle>,
    /// Neighbours (`NAME.license`) alone.
    pub force_dot_license: bool,
    /// What is done where the name has no style.
    pub unknown: Unknown,
    /// Files with licensing information in the place that would be written are skipped.
    pub skip_existing: bool,
    /// Beneath folders, of the covered files those that are listed; all where there is no list.
    pub listed: Option<PathList>,
    /// Beneath folders, none that one of these globs matches.
    pub excluded: Globs,
}

/// Texts of a header, in order.
pub type HeaderTexts = FixedList<HeaderText>;

/// What annotate adds to a header.
#[derive(Debug, Drop)]
pub struct HeaderAdditions {
    /// The licensing information.
    pub tags: Additions,
    /// The texts beside it.
    pub texts: HeaderTexts,
}

/// What is taken out of a header.
#[derive(Debug, Drop)]
pub enum HeaderRemoval {
    /// Of each text, in order, the first run of contents that is the same one. The tags stay.
    Texts(HeaderTexts),
    /// All tags, and the block where nothing else is left of it.
    Header,
}

/// What amend does with a file.
#[derive(Debug, Drop)]
pub enum FileAmendment {
    /// It amends the values in the file's header block, or in its neighbour.
    InHeader(Amendments),
    /// It amends the values of each tag of its text, or of its neighbour's, where they stand.
    Everywhere(Amendments),
    /// It amends the values in the file's header block, or in its neighbour, and then takes something
    /// out of what that makes. A neighbour that is left empty goes.
    Remove(Amendments, HeaderRemoval),
}

impl FileAmendment {
    ghost use Rattle.reuse_command.specs.Command.{values_of};

    /// What is amended.
    pub fn values(&self) -> &Amendments
        ensures { result.now ≡ values_of self.now }
    {
        match self {
            FileAmendment::InHeader(values) => values,
            FileAmendment::Everywhere(values) => values,
            FileAmendment::Remove(values, _) => values,
        }
    }
}

/// What a session can be asked to do.
#[derive(Debug, Drop)]
pub enum Command {
    /// Adds licensing information to files.
    Annotate {
        /// The files.
        places: Places,
        /// What is added to each.
        additions: HeaderAdditions,
        /// How a block is written.
        how: How,
        /// Which files are written, and where.
        scope: Scope,
    },
    /// Amends the licensing information that files have, and gives none to files without it.
    Amend {
        /// The files.
        places: Places,
        /// What is amended in each, and where in it.
        amendment: FileAmendment,
        /// Which files are gone through, and their style. Of the scope only `recursive`, `style`,
        /// `listed` and `excluded` count.
        scope: Scope,
    },
    /// Puts a `REUSE.toml` in the place of `.reuse/dep5`.
    ConvertDep5,
    /// Makes a file of the text of each licence. The texts are those that were found for the ids.
    Download {
        ids: Ids,
        texts: LicenceTexts,
    },
    /// Adds names and comments to the tree's own styles. What the tree has for a name stays.
    AddStyles(StyleAdditions),
    /// Takes the changes of a step back on whatever the tree is now.
    Revert {
        /// The changes.
        changes: EntryChanges,
        /// Paths that later steps touched: a change of one of them can't be taken back.
        touched: PathList,
        /// A change that can't be taken back is left out, and not refused.
        skip_moved: bool,
    },
}

impl Command {
    ghost use Rattle.reuse_command.specs.Command.{name_of};

    /// Its name.
    pub fn name(&self) -> CommandName
        ensures { result ≡ name_of self.now }
    {
        match self {
            Command::Annotate { .. } => CommandName::Annotate,
            Command::Amend { .. } => CommandName::Amend,
            Command::ConvertDep5 => CommandName::ConvertDep5,
            Command::Download { .. } => CommandName::Download,
            Command::AddStyles(_) => CommandName::AddStyles,
            Command::Revert { .. } => CommandName::Revert,
        }
    }
}
