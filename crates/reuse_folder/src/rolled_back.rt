//! How many files a run set back that finds a step pending. It writes and removes them first, and
//! then the head, which is the first file of the journal that it writes.
ghost use Rattle.std.specs.Prelude.{◌≡◌, if◌then◌else◌, false, true};
ghost use Rattle.reuse_system.specs.Ignored.{begins_journal};
ghost use Rattle.reuse_system.specs.Names.{between_slashes};
ghost use Rattle.reuse_folder.specs.RolledBack.{after_write, foreign_of, rolled_back_by};

use reuse_system::ignored::is_in_journal;

/// What reading a path reports at which something stands that is neither a regular file nor a
/// folder, as a link or a pipe.
#[derive(Clone, Copy, PartialEq, Eq)]
pub enum Foreign {
    /// That no file of the tree is there.
    Absent,
    /// That a file is there which is too long to be read: so no change is made or taken back there.
    TooLong,
}

/// The files that were written or removed before the journal was first written.
#[derive(Clone, Copy)]
pub struct RolledBack {
    files: usize,
    /// Whether the journal was written.
    is_over: bool,
    /// Whether a step is known to be pending.
    is_pending: bool,
}

impl RolledBack {
    /// Nothing so far.
    pub fn nothing() -> RolledBack
        ensures { result ≡ record { files = 0; is_over = false; is_pending = false } }
    {
        RolledBack {
            files: 0,
            is_over: false,
            is_pending: false,
        }
    }

    /// A step is pending, and is to be rolled back.
    pub fn expect(&mut self)
        ensures { self.new ≡ record self.old { is_pending = true } }
    {
        self.is_pending = true;
    }

    /// What reading a path reports at which no file and no folder stands: while a step is rolled
    /// back, such a path is none without a file.
    pub fn foreign(&self) -> Foreign
        ensures { result ≡ foreign_of self.now }
    {
        if self.is_pending && !self.is_over {
            Foreign::TooLong
        } else {
            Foreign::Absent
        }
    }

    /// The file at this path was written or removed, if that was done.
    pub fn note(&mut self, path: &str, is_done: bool)
        ensures { self.new
            ≡ (if is_done then after_write (begins_journal (between_slashes path.now)) self.old else self.old) }
    {
        if self.is_over || !is_done {
            return;
        }
        if is_in_journal(path) {
            self.is_over = true;
        } else {
            self.files = self.files.saturating_add(1);
        }
    }

    /// Whether the journal was written.
    pub fn is_over(&self) -> bool
        ensures { result ≡ self.now.is_over }
    {
        self.is_over
    }

    /// How many files were rolled back, if the step was pending and isn't any more.
    pub fn files(&self) -> Option<usize>
        ensures { result ≡ rolled_back_by self.now }
    {
        if self.is_over { Some(self.files) } else { None }
    }
}
