//! How the files of a folder keep their owners. A file that can't keep its owner is not written
//! anew, unless that is allowed. A call is held before its first put if it has read such a file, or
//! asked for one whose name is too long, so that it can be looked at, before it begins, whether it
//! would write that file.
ghost use Rattle.std.specs.Prelude.{◌≡◌, ◌↔◌, ℕ, List, IsErr, IfErr, IfOk, IsTrue, is_err, length};
ghost use Rattle.std.specs.Prelude.{nat_lt, true};
ghost use Rattle.reuse_system.specs.Ignored.{begins_journal};
ghost use Rattle.reuse_system.specs.Owners.{cannot_keep, rights_of_mode};
ghost use Rattle.reuse_folder.specs.OwnerChanges.{after_asking, is_due, is_lost, is_lost_at, may_write, owner_for};
ghost use Rattle.reuse_folder.specs.OwnerChanges.{report_after, MayReplace};
ghost use Rattle.reuse_system.specs.Names.{between_slashes, IsNameOf};
ghost use Rattle.reuse_system.specs.declared.fault.FolderFault.TheVariants.{Device};
ghost use Rattle.reuse_system.specs.declared.fault.IoReason.TheVariants.{Owned};

use reuse_disk::Wanted;
use reuse_system::fault::{FolderFault, IoReason};
use reuse_system::handle::OpenFolder;
use reuse_system::ignored::is_in_journal;
use reuse_system::owner::{Owner, OwnerChange, Process};
use reuse_system::place::{FileStatus, ends_in_long_name};
use reuse_system::process::ProcessIds;

/// Whether a call is held before its first put.
#[derive(Clone, Copy, PartialEq, Eq)]
enum PutGuard {
    /// It isn't.
    Off,
    /// It is if it asks for a file that can't be written.
    Watching,
    /// It has asked for one.
    Due,
    /// It was held.
    Held,
}

/// What a run did to owners and names.
#[derive(Clone, Copy)]
pub struct OwnerReport {
    /// How many files have another owner or group than before.
    pub changed: usize,
    /// How many files had further names, which keep the old bytes.
    pub linked: usize,
}

/// What a folder knows of the owners of its files.
#[derive(Drop)]
pub struct OwnershipPolicy {
    process: Process,
    owner_change: OwnerChange,
    guard: PutGuard,
    report: OwnerReport,
}

impl OwnershipPolicy {
    /// For files of this process.
    pub fn new(process: Process, owner_change: OwnerChange) -> OwnershipPolicy
        ensures { result.owner_change ≡ owner_change }
    {
        OwnershipPolicy {
            process,
            owner_change,
            guard: PutGuard::Off,
            report: OwnerReport {
                changed: 0,
                linked: 0,
            },
        }
    }

    /// The process' user.
    pub fn user(&self) -> u32
        ensures { result ≡ self.now.process.user }
    {
        self.process.user
    }

    /// Which process it is, and whose.
    pub fn process(&self) -> ProcessIds
        ensures number { result.number ≡ self.now.process.number }
        ensures user { result.user ≡ self.now.process.user }
    {
        self.process.ids()
    }

    /// What was done so far.
    pub fn owner_report(&self) -> OwnerReport
        ensures { result ≡ self.now.report }
    {
        self.report
    }

    /// From now on a call is held before its first put if it reads a file that can't keep its
    /// owner, unless such files may be written, or if it asks for a name that no file can have.
    pub fn watch(&mut self)
        ensures { self.new ≡ record self.old { guard = PutGuard.Watching } }
    {
        self.guard = PutGuard::Watching;
    }

    /// No call is held any more; whether one was.
    pub fn release(&mut self) -> bool
        ensures held { IsTrue result ↔ (self.old.guard ≡ PutGuard.Held) }
        ensures off { self.new ≡ record self.old { guard = PutGuard.Off } }
    {
        let was_held = self.guard == PutGuard::Held;
        self.guard = PutGuard::Off;
        was_held
    }

    /// Whether a file can be written anew: it keeps its owner, or needn't.
    pub fn may_write(&self, status: FileStatus) -> bool
        ensures { result ≡ may_write self.now.owner_change
            (cannot_keep self.now.process status.owner (rights_of_mode status.mode)) }
    {
        self.owner_change == OwnerChange::Allowed
            || !self.process.cannot_keep(status.owner, status.rights())
    }

    /// The file at this path was read.
    pub fn note_read(&mut self, path: &str, status: FileStatus)
        ensures { self.new ≡ after_asking (is_lost_at self.old path.now status) self.old }
    {
        if self.guard == PutGuard::Watching && self.check(path, status).is_err() {
            self.guard = PutGuard::Due;
        }
    }

    /// This path was asked for: whether a file stands there, or below.
    pub fn note_path(&mut self, path: &str)
        ensures { (name : List ℕ) × IsNameOf path.now name
            × (self.new ≡ after_asking (nat_lt 255 (length name)) self.old) }
    {
        let is_long = ends_in_long_name(path);
        if self.guard == PutGuard::Watching && is_long {
            self.guard = PutGuard::Due;
        }
    }

    /// Fails before the first put of a call that is to be held.
    pub fn check_guard(&mut self) -> Result<(), FolderFault>
        ensures process { self.new.process ≡ self.old.process }
        ensures owner_change { self.new.owner_change ≡ self.old.owner_change }
        ensures held { is_err result ≡ is_due self.old.guard }
        ensures fault { IfErr result (λ fault. (fault ≡ Device Owned) × (self.new.guard ≡ PutGuard.Held)) }
        ensures report { self.new.report ≡ self.old.report }
    {
        if matches!(self.guard, PutGuard::Due | PutGuard::Held) {
            self.guard = PutGuard::Held;
            return Err(FolderFault::Device(IoReason::Owned));
        }
        Ok(())
    }

    /// Fails if the file at this path can't be written anew. The journal's own files always can:
    /// whose it is was looked at before.
    pub fn check(&self, path: &str, status: FileStatus) -> Result<(), FolderFault>
        ensures refused { IsErr result ↔ (is_lost (begins_journal (between_slashes path.now)) self.now.owner_change
            (cannot_keep self.now.process status.owner (rights_of_mode status.mode)) ≡ true) }
        ensures fault { IfErr result (λ fault. fault ≡ Device Owned) }
        ensures may { IfOk result (λ _. MayReplace self.now path.now status) }
    {
        if is_in_journal(path) || self.may_write(status) {
            Ok(())
        } else {
            Err(FolderFault::Device(IoReason::Owned))
        }
    }

    /// Whose a file in this folder is to be: as it was, if it was there.
    pub fn wanted(&self, folder: &OpenFolder, found: Option<FileStatus>) -> Wanted<'_>
        ensures owner { result.owner
            ≡ owner_for self.now.process found folder.now.owner folder.now.passes_group }
        ensures process { result.process.now ≡ self.now.process }
    {
        let owner = match found {
            Some(status) => status.owner,
            None => self
                .process
                .owner_of_new(folder.owner(), folder.passes_group()),
        };
        Wanted {
            owner,
            process: &self.process,
        }
    }

    /// A file was written anew, and has this owner.
    pub fn note_written(&mut self, path: &str, found: Option<FileStatus>, owner: Option<Owner>)
        ensures { self.new ≡ record self.old {
          report = report_after (begins_journal (between_slashes path.now)) found owner self.old.report;
        } }
    {
        let Some(status) = found else {
            return;
        };
        if is_in_journal(path) {
            return;
        }
        if owner.is_some_and(|owner| owner != status.owner) {
            self.report.changed = self.report.changed.saturating_add(1);
        }
        if status.links > 1 {
            self.report.linked = self.report.linked.saturating_add(1);
        }
    }
}
