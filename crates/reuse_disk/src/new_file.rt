//! Writing a file as a whole or not at all: a new one is written to a temporary file, and its data
//! is synced before it is given its name.
ghost use Rattle.std.specs.Prelude.{◌≡◌, ◌⊎◌, ◌↔◌, ◌<◌, ◌^◌, [], None, Some, MatchResult, false, is_ok, IfOk, IsErr, IsTrue, codes};
ghost use Rattle.reuse_change.specs.Parts.{joined};
ghost use Rattle.reuse_system.specs.NameChanges.{IsGuarded, OnlyChanges};
ghost use Rattle.reuse_system.specs.NewFiles.{made_mode, made_status, IsAsDue, IsSameFile};
ghost use Rattle.reuse_system.specs.Owners.{kept_owner};
ghost use Rattle.reuse_system.specs.SystemLaws.{IsAlikeBut, IsAlikeButFile, IsFilled};
ghost use Rattle.reuse_system.specs.TempFiles.{name_in, place_of, key_of, beside_name, IsNewNameIn};
ghost use Rattle.reuse_system.specs.TempFiles.{IsNewPlace};
ghost use Rattle.reuse_system.specs.declared.owner.Owner.{Owner};
ghost use Rattle.reuse_disk.specs.Due.{IsOwnerFor, asked_for, due_of};
ghost use Rattle.reuse_disk.specs.Noted.{StayNoted};
ghost use Rattle.reuse_disk.specs.Written.{StandsAlone, IsWritten, IsPlaced, LeavesNone, is_kept, is_named};

mod numbered;

use crate::naming::{Target, name_temp_file};
use crate::syncs::Unsynced;
use reuse_change::Pieces;
use reuse_change::layout::NEW;
use reuse_system::fault::{FolderFault, IoReason};
use reuse_system::handle::OpenFolder;
use reuse_system::ignored::{is_beside_name, is_new_name};
use reuse_system::new_name::beside_name;
use reuse_system::owner::{Owner, Process};
use reuse_system::parts_writer::write_parts;
use reuse_system::place::FileStatus;
use reuse_system::system::{Grants, System, TempFile};
use std::alloc::Global;
use std::io::{self, ErrorKind};

/// Whose a file is to be, as far as this process may give it.
#[derive(Clone, Copy)]
pub struct Wanted<'a> {
    /// Its owner and its group.
    pub owner: Owner,
    /// The process that writes it.
    pub process: &'a Process,
}

/// What a file is to hold, whose it is to be, and the file that it replaces, as that was seen: it
/// keeps the bits of its mode.
#[derive(Clone, Copy)]
pub struct Content<'a> {
    /// The bytes, in parts.
    pub parts: Pieces<'a>,
    /// Whose it is to be.
    pub wanted: Wanted<'a>,
    /// The file that it replaces, if there is one.
    pub found: Option<FileStatus>,
}

impl Content<'_> {
    /// The bits that the file is to have in place of those of a new file.
    fn mode(&self) -> Option<u32>
        ensures { result ≡ asked_for self.now.found }
    {
        self.found.map(|status| status.mode)
    }
}

/// The folder in which each file is written before it is given its name.
#[derive(Drop)]
pub struct NewFile {
    folder: OpenFolder,
    /// What the system gives to files that are made here.
    grants: Grants,
    /// Whose the last file is that was written.
    kept: Option<Owner>,
    /// The parts of the last short file, joined: its memory serves the next one.
    joined: Vec<u8>,
}

/// An empty file of a name for new files in this folder. One that a stopped run has left there is
/// removed first; a link there is not followed.
fn make<S: System>(
    system: &mut S,
    folder: &OpenFolder,
    name: &str,
    mode: Option<u32>,
) -> io::Result<TempFile>
    ensures made { IfOk result (λ temp_file. (place_of temp_file ≡ name_in folder.now name.now)
        × StandsAlone (place_of temp_file) (key_of temp_file) [] false (S.holds system.new)) }
    ensures status { IfOk result (λ temp_file. temp_file.status ≡ made_status mode) }
    ensures others { IsAlikeBut (name_in folder.now name.now) (S.holds system.old) (S.holds system.new) }
    ensures still { S.folders system.new ≡ S.folders system.old }
    ensures earlier { S.honest system.new → S.honest system.old }
    ensures changes { OnlyChanges (λ place. place ≡ name_in folder.now name.now) (S.changes system.old)
        (S.changes system.new) }
{
    match system.make(folder, name, mode) {
        Err(error) if error.kind() == ErrorKind::AlreadyExists => {
            system.remove(folder, name)?;
            system.make(folder, name, mode)
        }
        made => made,
    }
}

impl NewFile {
    /// The new files in this folder.
    pub fn in_folder(alloc: Global, folder: OpenFolder) -> NewFile
        ensures { result.folder ≡ folder }
    {
        NewFile {
            folder,
            grants: Grants::none(),
            kept: None,
            joined: Vec::new(alloc),
        }
    }

    /// Whether this is the folder of the new files.
    pub fn is_in(&self, folder: &OpenFolder) -> bool
        ensures same { IsTrue result ↔ (self.now.folder.identity ≡ folder.now.identity) }
        ensures number { self.now.folder.identity.number < 2 ^ 64 }
    {
        self.folder.identity() == folder.identity()
    }

    /// Whose the file is that was written last.
    pub fn kept(&self) -> Option<Owner>
        ensures { result ≡ self.now.kept }
    {
        self.kept
    }

    /// Gives a file that was created here to the owner that it is to have, as far as may be.
    /// Nothing is written to it before, so nobody reads what he may not.
    fn keep_owner(&mut self, temp_file: &mut TempFile, wanted: Wanted<'_>) -> io::Result<()>
        ensures folder { self.new.folder ≡ self.old.folder }
        ensures same { IsSameFile temp_file.old temp_file.new }
        ensures mode { temp_file.new.status.mode ≡ temp_file.old.status.mode }
        ensures owner { IfOk result (λ _. (made : Owner)
            × (temp_file.new.status.owner ≡ Some (kept_owner wanted.entry.process.now wanted.entry.owner made))) }
        ensures reported { IfOk result (λ _. self.new.kept ≡ temp_file.new.status.owner) }
    {
        let made = self.grants.owner_of(temp_file)?;
        let owner = wanted.process.kept_owner(wanted.owner, made);
        self.kept = Some(owner);
        temp_file.give_to(owner)
    }

    /// Writes the content to a file that was created with its bits.
    fn fill<S: System>(
        &mut self,
        system: &mut S,
        temp_file: &mut TempFile,
        content: Content<'_>,
    ) -> io::Result<()>
        ensures folder { self.new.folder ≡ self.old.folder }
        ensures filled { MatchResult result
            (λ _. IsFilled (key_of temp_file.old) (joined content.entry.parts) false (S.holds system.old)
            (S.holds system.new))
            (λ _. IsAlikeButFile (key_of temp_file.old) (S.holds system.old) (S.holds system.new)) }
        ensures same { IsSameFile temp_file.old temp_file.new }
        ensures kept { temp_file.old.status.mode ≡ made_mode (asked_for content.entry.found)
            → IfOk result (λ _. IsAsDue (due_of content.entry) temp_file.new.status) }
        ensures reported { IfOk result (λ _. IsOwnerFor (due_of content.entry) self.new.kept) }
        ensures still { S.folders system.new ≡ S.folders system.old }
        ensures earlier { S.honest system.new → S.honest system.old }
        ensures changes { S.changes system.new ≡ S.changes system.old }
    {
        self.keep_owner(temp_file, content.wanted)?;
        write_parts(system, temp_file, &mut self.joined, content.parts)?;
        match content.mode() {
            Some(mode) => self.grants.give_mode(temp_file, mode),
            None => Ok(()),
        }
    }

    /// Writes the content to such a file, which is to get this path, and makes its data durable.
    fn complete<S: System>(
        &mut self,
        system: &mut S,
        temp_file: &mut TempFile,
        path: &str,
        content: Content<'_>,
        unsynced: &mut Unsynced,
    ) -> io::Result<()>
        ensures folder { self.new.folder ≡ self.old.folder }
        ensures syncs { unsynced.new.syncs ≡ unsynced.old.syncs }
        ensures noted { StayNoted unsynced.old unsynced.new }
        ensures filled { MatchResult result
            (λ _. IsFilled (key_of temp_file.old) (joined content.entry.parts) (is_kept unsynced.old.syncs)
            (S.holds system.old) (S.holds system.new))
            (λ _. IsAlikeButFile (key_of temp_file.old) (S.holds system.old) (S.holds system.new)) }
        ensures same { IsSameFile temp_file.old temp_file.new }
        ensures kept { temp_file.old.status.mode ≡ made_mode (asked_for content.entry.found)
            → IfOk result (λ _. IsAsDue (due_of content.entry) temp_file.new.status) }
        ensures reported { IfOk result (λ _. IsOwnerFor (due_of content.entry) self.new.kept) }
        ensures still { S.folders system.new ≡ S.folders system.old }
        ensures earlier { S.honest system.new → S.honest system.old }
        ensures changes { S.changes system.new ≡ S.changes system.old }
    {
        self.fill(system, temp_file, content)?;
        unsynced.sync_data(system, temp_file, path)
    }

    /// Writes the content to a temporary file, makes its data durable, and gives it the
    /// name of the target, if that lies on the same device: says whether it does.
    fn put_in_place<S: System>(
        &mut self,
        system: &mut S,
        temp_file: &mut TempFile,
        target: Target<'_>,
        content: Content<'_>,
        unsynced: &mut Unsynced,
    ) -> Result<bool, FolderFault>
        ensures folder { self.new.folder ≡ self.old.folder }
        ensures syncs { unsynced.new.syncs ≡ unsynced.old.syncs }
        ensures noted { StayNoted unsynced.old unsynced.new }
        ensures placed { StandsAlone (place_of temp_file.old) (key_of temp_file.old) [] false (S.holds system.old)
            → IsPlaced (S.honest system.new) (place_of temp_file.old)
            (name_in target.entry.folder.now target.entry.name.now) (joined content.entry.parts)
            (is_kept unsynced.old.syncs) (S.holds system.old) (S.holds system.new) (is_named result) (is_named result) }
        ensures same { IsSameFile temp_file.old temp_file.new }
        ensures still { S.folders system.new ≡ S.folders system.old }
        ensures earlier { S.honest system.new → S.honest system.old }
        ensures reported { IfOk result (λ _. IsOwnerFor (due_of content.entry) self.new.kept) }
        ensures guarded { StandsAlone (place_of temp_file.old) (key_of temp_file.old) [] false (S.holds system.old)
            → temp_file.old.status.mode ≡ made_mode (asked_for content.entry.found)
            → IsGuarded (λ place. place ≡ place_of temp_file.old)
            (name_in target.entry.folder.now target.entry.name.now) (due_of content.entry)
            (S.changes system.old) (S.changes system.new) (S.holds system.old) (S.holds system.new) }
    {
        self.complete(system, temp_file, target.path, content, unsynced)?;
        name_temp_file(system, temp_file, target, content.found)
    }

    /// Does so, or removes the temporary file.
    fn put_or_discard<S: System>(
        &mut self,
        system: &mut S,
        temp_file: &mut TempFile,
        target: Target<'_>,
        content: Content<'_>,
        unsynced: &mut Unsynced,
    ) -> Result<bool, FolderFault>
        ensures folder { self.new.folder ≡ self.old.folder }
        ensures syncs { unsynced.new.syncs ≡ unsynced.old.syncs }
        ensures noted { StayNoted unsynced.old unsynced.new }
        ensures placed { StandsAlone (place_of temp_file.old) (key_of temp_file.old) [] false (S.holds system.old)
            → IsPlaced (S.honest system.new) (place_of temp_file.old)
            (name_in target.entry.folder.now target.entry.name.now) (joined content.entry.parts)
            (is_kept unsynced.old.syncs) (S.holds system.old) (S.holds system.new) (is_named result) (is_ok result) }
        ensures same { IsSameFile temp_file.old temp_file.new }
        ensures still { S.folders system.new ≡ S.folders system.old }
        ensures earlier { S.honest system.new → S.honest system.old }
        ensures reported { IfOk result (λ _. IsOwnerFor (due_of content.entry) self.new.kept) }
        ensures guarded { StandsAlone (place_of temp_file.old) (key_of temp_file.old) [] false (S.holds system.old)
            → temp_file.old.status.mode ≡ made_mode (asked_for content.entry.found)
            → IsGuarded (λ place. place ≡ place_of temp_file.old)
            (name_in target.entry.folder.now target.entry.name.now) (due_of content.entry)
            (S.changes system.old) (S.changes system.new) (S.holds system.old) (S.holds system.new) }
    {
        let named = self.put_in_place(system, temp_file, target, content, unsynced);
        if let Ok(true) = named {
            return named;
        }
        let removed = system.discard(temp_file);
        if named.is_ok() {
            removed?;
        }
        named
    }

    /// What was granted, and to whom, is known of the one folder alone.
    fn forget_granted(&mut self)
        ensures folder { self.new.folder ≡ self.old.folder }
        ensures kept { self.new.kept ≡ self.old.kept }
    {
        self.grants = Grants::none();
    }

    /// Fails if a file of the target could be taken for one that is written to a temporary file
    /// here or beside it.
    pub fn check(&self, target: Target<'_>) -> Result<(), FolderFault>
        ensures apart { IfOk result (λ _. ¬ (IsNewPlace self.now.folder.identity target.entry.folder.now.identity
            (name_in target.entry.folder.now target.entry.name.now))) }
        ensures refused { IsErr result
            → IsNewNameIn self.now.folder.identity target.entry.folder.now.identity target.entry.name.now }
    {
        let is_here = target.folder.identity() == self.folder.identity();
        if is_beside_name(target.name) || (is_here && is_new_name(target.name)) {
            return Err(FolderFault::Device(IoReason::Foreign));
        }
        Ok(())
    }

    /// Writes the content in the folder of new files and gives it the name of the target, if that
    /// lies on the same device: says whether it does.
    fn write_here<S: System>(
        &mut self,
        system: &mut S,
        target: Target<'_>,
        content: Content<'_>,
        unsynced: &mut Unsynced,
    ) -> Result<bool, FolderFault>
        ensures folder { self.new.folder ≡ self.old.folder }
        ensures syncs { unsynced.new.syncs ≡ unsynced.old.syncs }
        ensures noted { StayNoted unsynced.old unsynced.new }
        ensures placed { IsPlaced (S.honest system.new) (name_in self.old.folder (codes "new"))
            (name_in target.entry.folder.now target.entry.name.now) (joined content.entry.parts)
            (is_kept unsynced.old.syncs) (S.holds system.old) (S.holds system.new) (is_named result) (is_ok result) }
        ensures still { S.folders system.new ≡ S.folders system.old }
        ensures earlier { S.honest system.new → S.honest system.old }
        ensures reported { IfOk result (λ _. IsOwnerFor (due_of content.entry) self.new.kept) }
        ensures guarded { IsGuarded (IsNewPlace self.old.folder.identity target.entry.folder.now.identity)
            (name_in target.entry.folder.now target.entry.name.now) (due_of content.entry)
            (S.changes system.old) (S.changes system.new) (S.holds system.old) (S.holds system.new) }
    {
        let mut temp_file = make(system, &self.folder, NEW, content.mode())?;
        self.put_or_discard(system, &mut temp_file, target, content, unsynced)
    }

    /// Writes the content beside the file that it is to be, and gives it the name of that.
    pub fn write_beside<S: System>(
        &mut self,
        system: &mut S,
        alloc: Global,
        target: Target<'_>,
        content: Content<'_>,
        unsynced: &mut Unsynced,
    ) -> Result<(), FolderFault>
        ensures folder { self.new.folder ≡ self.old.folder }
        ensures syncs { unsynced.new.syncs ≡ unsynced.old.syncs }
        ensures noted { StayNoted unsynced.old unsynced.new }
        ensures placed { IsPlaced (S.honest system.new)
            (name_in target.entry.folder.now (beside_name self.old.folder.identity))
            (name_in target.entry.folder.now target.entry.name.now) (joined content.entry.parts)
            (is_kept unsynced.old.syncs) (S.holds system.old) (S.holds system.new) (is_ok result) (is_ok result) }
        ensures still { S.folders system.new ≡ S.folders system.old }
        ensures earlier { S.honest system.new → S.honest system.old }
        ensures reported { IfOk result (λ _. IsOwnerFor (due_of content.entry) self.new.kept) }
        ensures guarded { IsGuarded (IsNewPlace self.old.folder.identity target.entry.folder.now.identity)
            (name_in target.entry.folder.now target.entry.name.now) (due_of content.entry)
            (S.changes system.old) (S.changes system.new) (S.holds system.old) (S.holds system.new) }
    {
        let name = beside_name(alloc, self.folder.identity())?;
        let mut temp_file = make(system, target.folder, name.as_str(), content.mode())?;
        self.forget_granted();
        let named = self.put_or_discard(system, &mut temp_file, target, content, unsynced);
        self.forget_granted();
        if named? {
            return Ok(());
        }
        let error: io::Error = ErrorKind::CrossesDevices.into();
        Err(error.into())
    }

    /// Writes the content and gives the file the name of the target. Where that leads to another
    /// device, as below a mount, the new file is written beside the one that it is to be.
    pub fn write<S: System>(
        &mut self,
        system: &mut S,
        alloc: Global,
        target: Target<'_>,
        content: Content<'_>,
        unsynced: &mut Unsynced,
    ) -> Result<(), FolderFault>
        ensures folder { self.new.folder ≡ self.old.folder }
        ensures syncs { unsynced.new.syncs ≡ unsynced.old.syncs }
        ensures noted { StayNoted unsynced.old unsynced.new }
        ensures written { IsWritten (IsNewPlace self.old.folder.identity target.entry.folder.now.identity)
            (name_in target.entry.folder.now target.entry.name.now) (joined content.entry.parts)
            (is_kept unsynced.old.syncs) (S.holds system.old) (S.holds system.new) (is_ok result) }
        // The target is no place of new files, or nothing is done.
        ensures apart { ((is_ok result ≡ false) × (S.holds system.new ≡ S.holds system.old))
            ⊎ ¬ (IsNewPlace self.old.folder.identity target.entry.folder.now.identity
            (name_in target.entry.folder.now target.entry.name.now)) }
        ensures none_left { S.honest system.new
            → IfOk result (λ _. LeavesNone (IsNewPlace self.old.folder.identity target.entry.folder.now.identity)
            (S.holds system.old) (S.holds system.new)) }
        ensures still { S.folders system.new ≡ S.folders system.old }
        ensures earlier { S.honest system.new → S.honest system.old }
        ensures reported { IfOk result (λ _. IsOwnerFor (due_of content.entry) self.new.kept) }
        ensures guarded { IsGuarded (IsNewPlace self.old.folder.identity target.entry.folder.now.identity)
            (name_in target.entry.folder.now target.entry.name.now) (due_of content.entry)
            (S.changes system.old) (S.changes system.new) (S.holds system.old) (S.holds system.new) }
    {
        self.check(target)?;
        if self.write_here(system, target, content, unsynced)? {
            return Ok(());
        }
        self.write_beside(system, alloc, target, content, unsynced)
    }
}
