//! Reading a file. The file that is read is the one that was looked at: if something else has taken
//! its place, a link too, it isn't read.
ghost use Rattle.std.specs.Prelude.{◌≡◌, ◌≤◌, ◌<◌, ◌⊎◌, ℕ, [], IfOk, IfSome, IsTrue, MatchOption, None, Some};
ghost use Rattle.std.specs.Prelude.{length};
ghost use Rattle.reuse_folder.specs.Seen.{expected_of, IsNoted, IsReadOnceMore, IsSeenBefore};
ghost use Rattle.reuse_system.specs.Ignored.{is_ignored};
ghost use Rattle.reuse_system.specs.Within.{IsWithin};

use super::RootFolder;
use super::seen::ReadPath;
use crate::rolled_back::Foreign;
use reuse_change::PathText;
use reuse_disk::DiskSystem;
use reuse_store::Reading;
use reuse_system::fault::{FolderFault, IoReason};
use reuse_system::ignored::is_ignored;
use reuse_system::place::{FileStatus, Place, folder_and_name};
use reuse_text::Bytes;
use std::alloc::{AllocError, Global};

/// How many paths that were read are remembered at most. A batch has fewer than half as many.
const MOST_SEEN: usize = 1_024;

impl<S: DiskSystem + Drop> RootFolder<S> {
    ghost use Rattle.reuse_folder.specs.FolderReads.{IsFoundAt, IsPlaceAt, IsReadAt, IsReadIn, IsReadWith, LiesIn};
    ghost use Rattle.reuse_disk.specs.OpenFolders.{current_of};
    ghost use Rattle.reuse_disk.specs.ReadsOnly.{ReadsOnly};

    /// The bytes of the regular file at the path, where they are at most `limit`. One that is
    /// longer isn't opened, so it needn't be readable.
    pub fn read(
        &mut self,
        alloc: Global,
        path: &PathText,
        limit: usize,
    ) -> Result<Reading, FolderFault>
        ensures within { IfOk result (IsWithin limit) }
        ensures ignored { IsTrue (is_ignored path.now) → IfOk result (λ reading. reading ≡ Reading.Absent) }
        ensures reads { ReadsOnly S.System self.old.system self.new.system }
        ensures unsynced { self.new.unsynced ≡ self.old.unsynced }
        // Of a file that is remembered the bytes aren't read again.
        ensures read { S.honest self.new.system → self.old.remembered.files.items ≡ []
            → IfOk result (IsReadAt (S.folders self.new.system) (S.holds self.new.system) path.now limit) }
        ensures noted { IfOk result (λ _. IsNoted self.new.reads.items path.now) }
        ensures once_more { IfOk result (λ _. IsReadOnceMore self.old.reads.items self.new.reads.items path.now) }
    {
        match self.find_file(alloc, path)? {
            Some(status) => match self.take_remembered(path, status, limit) {
                Some(bytes) => {
                    self.note_read(alloc, path, Some(status))?;
                    Ok(Reading::Found(bytes))
                }
                None => self.read_seen(alloc, path, limit, status),
            },
            None => Ok(Reading::Absent),
        }
    }

    /// The regular file that is seen at the path. If there is none, that is what was read there.
    fn find_file(
        &mut self,
        alloc: Global,
        path: &PathText,
    ) -> Result<Option<FileStatus>, FolderFault>
        ensures ignored { IsTrue (is_ignored path.now) → IfOk result (λ seen. seen ≡ None) }
        ensures reads { ReadsOnly S.System self.old.system self.new.system }
        ensures unsynced { self.new.unsynced ≡ self.old.unsynced }
        ensures remembered { IfOk result
            (λ seen. IfSome seen (λ _. self.new.remembered ≡ self.old.remembered)) }
        ensures found { S.honest self.new.system
            → IfOk result (IsFoundAt (S.folders self.new.system) (S.holds self.new.system) path.now
            (current_of self.new.open_folders)) }
        ensures noted { IfOk result (λ seen. seen ≡ None → IsNoted self.new.reads.items path.now) }
        ensures once_more { IfOk result
            (λ seen. MatchOption seen (IsReadOnceMore self.old.reads.items self.new.reads.items path.now)
            (λ _. self.new.reads ≡ self.old.reads)) }
    {
        match self.look(alloc, path)? {
            Place::File(status) => {
                self.ownership.note_read(path.text(), status);
                Ok(Some(status))
            }
            _ => {
                self.note_read(alloc, path, None)?;
                Ok(None)
            }
        }
    }

    /// The same; what stands at the path and is neither a file nor a folder is reported so.
    pub fn read_with(
        &mut self,
        alloc: Global,
        path: &PathText,
        limit: usize,
        foreign: Foreign,
    ) -> Result<Reading, FolderFault>
        ensures within { IfOk result (IsWithin limit) }
        ensures reads { ReadsOnly S.System self.old.system self.new.system }
        ensures unsynced { self.new.unsynced ≡ self.old.unsynced }
        ensures read { S.honest self.new.system → self.old.remembered.files.items ≡ []
            → IfOk result (IsReadWith foreign (S.folders self.new.system) (S.holds self.new.system) path.now limit) }
        ensures once_more { IfOk result (λ _. IsReadOnceMore self.old.reads.items self.new.reads.items path.now) }
    {
        let reading = self.read(alloc, path, limit)?;
        self.mounted.note(alloc, &self.open_folders);
        match (&reading, foreign) {
            (Reading::Absent, Foreign::TooLong) if !is_ignored(path.text()) => {
                self.foreign_or(alloc, path, reading)
            }
            _ => Ok(reading),
        }
    }

    /// What was read, or a file that is too long where something stands at the path that is neither
    /// a file nor a folder.
    fn foreign_or(
        &mut self,
        alloc: Global,
        path: &PathText,
        reading: Reading,
    ) -> Result<Reading, FolderFault>
        ensures within { (limit : ℕ) → IsWithin limit reading → IfOk result (IsWithin limit) }
        ensures same_reads { self.new.reads ≡ self.old.reads }
        ensures reads { ReadsOnly S.System self.old.system self.new.system }
        ensures unsynced { self.new.unsynced ≡ self.old.unsynced }
        ensures reported { S.honest self.new.system
            → IfOk result (λ reported. (reported ≡ reading) ⊎ ((reported ≡ Reading.TooLong)
            × IsPlaceAt (S.folders self.new.system) (S.holds self.new.system) path.now
            (current_of self.new.open_folders) Place.Other)) }
    {
        match self.look(alloc, path)? {
            Place::Other => Ok(Reading::TooLong),
            _ => Ok(reading),
        }
    }

    /// The bytes of the file that was seen at the path, if they are remembered and are at most
    /// `limit`.
    fn take_remembered(
        &mut self,
        path: &PathText,
        status: FileStatus,
        limit: usize,
    ) -> Option<Bytes>
        ensures system { self.new.system ≡ self.old.system }
        ensures unsynced { self.new.unsynced ≡ self.old.unsynced }
        ensures open_folders { self.new.open_folders ≡ self.old.open_folders }
        ensures same_reads { self.new.reads ≡ self.old.reads }
        ensures within { IfSome result (λ bytes. length bytes ≤ limit) }
        ensures none { self.old.remembered.files.items ≡ [] → result ≡ None }
    {
        if status.len > limit as u64 {
            return None;
        }
        let bytes = self.remembered.take(path, &status)?;
        if bytes.len() <= limit {
            Some(bytes)
        } else {
            None
        }
    }

    /// Reads the file that was seen at the path. If another one has taken its place, the path is
    /// looked at once more.
    fn read_seen(
        &mut self,
        alloc: Global,
        path: &PathText,
        limit: usize,
        status: FileStatus,
    ) -> Result<Reading, FolderFault>
        ensures within { IfOk result (IsWithin limit) }
        ensures reads { ReadsOnly S.System self.old.system self.new.system }
        ensures unsynced { self.new.unsynced ≡ self.old.unsynced }
        ensures read { S.honest self.new.system
            → LiesIn (S.folders self.old.system) path.now (current_of self.old.open_folders) (Place.File status)
            → IsPlaceAt (S.folders self.old.system) (S.holds self.old.system) path.now
            (current_of self.old.open_folders) (Place.File status)
            → IfOk result (IsReadAt (S.folders self.new.system) (S.holds self.new.system) path.now limit) }
        ensures noted { IfOk result (λ _. IsNoted self.new.reads.items path.now) }
        ensures once_more { IfOk result (λ _. IsReadOnceMore self.old.reads.items self.new.reads.items path.now) }
    {
        match self.read_anew(alloc, path, limit, status)? {
            Some(reading) => Ok(reading),
            None => self.read_again(alloc, path, limit),
        }
    }

    /// Looks at the path once more, and reads the file that is there now.
    fn read_again(
        &mut self,
        alloc: Global,
        path: &PathText,
        limit: usize,
    ) -> Result<Reading, FolderFault>
        ensures within { IfOk result (IsWithin limit) }
        ensures reads { ReadsOnly S.System self.old.system self.new.system }
        ensures unsynced { self.new.unsynced ≡ self.old.unsynced }
        ensures read { S.honest self.new.system
            → IfOk result (IsReadAt (S.folders self.new.system) (S.holds self.new.system) path.now limit) }
        ensures noted { IfOk result (λ _. IsNoted self.new.reads.items path.now) }
        ensures once_more { IfOk result (λ _. IsReadOnceMore self.old.reads.items self.new.reads.items path.now) }
    {
        match self.find_file(alloc, path)? {
            Some(status) => match self.read_anew(alloc, path, limit, status)? {
                Some(reading) => Ok(reading),
                None => Err(FolderFault::Device(IoReason::Changing)),
            },
            None => Ok(Reading::Absent),
        }
    }

    /// Reads the file that was seen at the path, or gives nothing if another one has taken its
    /// place.
    fn read_anew(
        &mut self,
        alloc: Global,
        path: &PathText,
        limit: usize,
        status: FileStatus,
    ) -> Result<Option<Reading>, FolderFault>
        ensures within { IfOk result (λ read. IfSome read (IsWithin limit)) }
        ensures reads { ReadsOnly S.System self.old.system self.new.system }
        ensures unsynced { self.new.unsynced ≡ self.old.unsynced }
        ensures open_folders { self.new.open_folders ≡ self.old.open_folders }
        ensures read { S.honest self.new.system
            → IsPlaceAt (S.folders self.old.system) (S.holds self.old.system) path.now
            (current_of self.old.open_folders) (Place.File status)
            → IfOk result (λ read. IfSome read (IsReadIn (current_of self.old.open_folders) path.now limit
            (S.holds self.old.system))) }
        ensures noted { IfOk result (λ read. IfSome read (λ _. IsNoted self.new.reads.items path.now)) }
        ensures once_more { IfOk result (λ read. MatchOption read (self.new.reads ≡ self.old.reads)
            (λ _. IsReadOnceMore self.old.reads.items self.new.reads.items path.now)) }
    {
        if status.len > limit as u64 {
            self.note_read(alloc, path, Some(status))?;
            return Ok(Some(Reading::TooLong));
        }
        let (_, name) = folder_and_name(path.text());
        let folder = self.open_folders.current()?;
        let Some(file) = self.system.open(folder, name, status)? else {
            return Ok(None);
        };
        let reading = self.system.read(alloc, file, status.len, limit)?;
        self.remember(alloc, path, status, &reading)?;
        Ok(Some(reading))
    }

    /// This was read of the file at the path.
    fn remember(
        &mut self,
        alloc: Global,
        path: &PathText,
        status: FileStatus,
        reading: &Reading,
    ) -> Result<(), AllocError>
        ensures system { self.new.system ≡ self.old.system }
        ensures unsynced { self.new.unsynced ≡ self.old.unsynced }
        ensures open_folders { self.new.open_folders ≡ self.old.open_folders }
        ensures noted { IfOk result (λ _. IsNoted self.new.reads.items path.now) }
        ensures once_more { IfOk result (λ _. IsReadOnceMore self.old.reads.items self.new.reads.items path.now) }
    {
        if let Reading::Found(bytes) = reading {
            self.remembered.note(alloc, path, &status, bytes);
        }
        self.note_read(alloc, path, Some(status))
    }

    /// Forgets the older half of the paths that were read, if there are too many.
    fn forget_older_reads(&mut self)
        ensures system { self.new.system ≡ self.old.system }
        ensures unsynced { self.new.unsynced ≡ self.old.unsynced }
        ensures open_folders { self.new.open_folders ≡ self.old.open_folders }
        ensures few { length self.old.reads.items < 1_024 → self.new.reads ≡ self.old.reads }
    {
        if self.reads.len() >= MOST_SEEN {
            self.reads.reverse();
            self.reads.truncate(MOST_SEEN / 2);
            self.reads.reverse();
        }
    }

    /// The path was read, and this was reported of the regular file there, if there was one.
    fn note_read(
        &mut self,
        alloc: Global,
        path: &PathText,
        seen: Option<FileStatus>,
    ) -> Result<(), AllocError>
        ensures system { self.new.system ≡ self.old.system }
        ensures unsynced { self.new.unsynced ≡ self.old.unsynced }
        ensures open_folders { self.new.open_folders ≡ self.old.open_folders }
        ensures seen { IfOk result (λ _. IsSeenBefore self.new.reads.items path.now (expected_of seen)) }
        ensures noted { IfOk result (λ _. IsNoted self.new.reads.items path.now) }
        ensures once_more { IfOk result (λ _. IsReadOnceMore self.old.reads.items self.new.reads.items path.now) }
    {
        self.forget_older_reads();
        let path = path.try_clone(alloc)?;
        match self.reads.push(ReadPath { path, seen }) {
            Ok(()) => Ok(()),
            Err(full) => Err(AllocError::from(full)),
        }
    }
}
