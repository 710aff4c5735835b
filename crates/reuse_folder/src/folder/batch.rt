//! Writing several files at once. All are written to temporary files before the data of the first
//! is synced, so that the system syncs them together; then each is given its name, in order.
ghost use Rattle.std.specs.Prelude.{◌≡◌, ◌<◌, ◌≤◌, [], ◌∷◌, ◌++◌, is_ok, IfErr, IfOk, IsTrue};
ghost use Rattle.std.specs.Prelude.{length};
ghost use Rattle.std.specs.List.{All};
ghost use Rattle.reuse_system.specs.TempFiles.{place_of, IsNewIn};
ghost use Rattle.reuse_system.specs.NameChanges.{OnlyChanges};
ghost use Rattle.reuse_system.specs.SystemLaws.{IsAlikeBut, IsAlikeUnless};
ghost use Rattle.reuse_system.specs.declared.place.Identity.{Identity};
ghost use Rattle.reuse_system.specs.declared.syncs.Syncs.TheVariants.{Kept};
ghost use Rattle.reuse_change.specs.Parts.{joined};
ghost use Rattle.reuse_disk.specs.Noted.{StayNoted};
ghost use Rattle.reuse_disk.specs.Written.{is_kept};
ghost use Rattle.reuse_folder.specs.Barriers.{AreNotedAbove, HaveNoted, IsNotedAbove};
ghost use Rattle.reuse_folder.specs.Batches.{made_of, BeginsWithFile, IsBatch};
ghost use Rattle.reuse_folder.specs.Disk.{disk_of, IsSameTree};
ghost use Rattle.reuse_folder.specs.NewFileFolder.{IsJournal, KeepsTree};
ghost use Rattle.reuse_change.specs.Layout.{journal_folder};
ghost use Rattle.reuse_system.specs.Folders.{folder_at};
ghost use Rattle.reuse_folder.specs.Rounds.{new_place, AreBegun, IsAdded};
ghost use Rattle.reuse_folder.specs.Rounds.{IsRound, IsRoundOf};
ghost use Rattle.reuse_folder.specs.Seen.{AreKnown, IsKnownTempFile, IsNewFile, IsSeenBefore, LoseNoEdits};
ghost use Rattle.reuse_folder.specs.declared.folder.seen.ReadPath.{ReadPath};

use super::RootFolder;
use super::seen::{Expected, ReadPath, expected_at};
use reuse_change::{PathText, Pieces};
use reuse_disk::{Content, DiskSystem, NewFile};
use reuse_store::FileWrite;
use reuse_system::fault::FolderFault;
use reuse_system::place::{FileStatus, folder_and_name};
use reuse_system::system::{System, TempFile};
use std::alloc::Global;
use std::mem;

/// Why writes stopped, and how many were made before.
#[derive(Clone, Copy)]
pub struct Stop {
    pub made: usize,
    pub fault: FolderFault,
}

impl Stop {
    pub(super) fn at_first(fault: FolderFault) -> Stop
        ensures { result.made ≡ 0 }
    {
        Stop { made: 0, fault }
    }
}

/// The paths that were read before some writes, in order.
#[derive(Drop)]
struct Seen {
    reads: Vec<ReadPath>,
    /// The next one that is likely to be written.
    at: usize,
}

impl Seen {
    /// These, of which the last one of this path is written first.
    fn before(reads: Vec<ReadPath>, first: Option<&FileWrite>) -> Seen
        ensures { result.reads ≡ reads }
    {
        let at = match first {
            Some(write) => reads.iter().rposition(|read| read.path == *write.path),
            None => None,
        };
        Seen {
            reads,
            at: at.unwrap_or(0),
        }
    }

    /// What is expected at this path. Most are written in the order in which they were read.
    fn next_at(&mut self, path: &PathText) -> Expected
        ensures reads { self.new.reads ≡ self.old.reads }
        ensures expected { IsSeenBefore self.old.reads.items path.now result }
    {
        match self.reads.get(self.at) {
            Some(read) if read.path == *path => {
                self.at = self.at.saturating_add(1);
                Expected::of(read.seen)
            }
            _ => expected_at(&self.reads, path),
        }
    }
}

/// A temporary file that is written, and what is to stand at its path directly before it gets its
/// name.
#[derive(Drop)]
pub(super) struct NewContent {
    pub(super) temp_file: TempFile,
    pub(super) seen: Option<FileStatus>,
}

/// New temporary files that are written, in the order of their writes, and the folder of new files.
#[derive(Drop)]
struct Round {
    new_file: NewFile,
    temp_files: Vec<NewContent>,
}

/// Removes new files that get no name.
pub(super) fn remove_all<S: System>(system: &mut S, temp_files: &[NewContent])
    ensures others { (new_files : Identity) → All (λ one. IsNewIn new_files (place_of one.temp_file)) temp_files.now
        → IsAlikeUnless (IsNewIn new_files) (S.holds system.old) (S.holds system.new) }
    ensures still { S.folders system.new ≡ S.folders system.old }
    ensures earlier { S.honest system.new → S.honest system.old }
    ensures changes { All (λ one. IsNewFile (place_of one.temp_file)) temp_files.now
        → OnlyChanges IsNewFile (S.changes system.old) (S.changes system.new) }
{
    for one in temp_files {
        // A fault of that reports no more.
        let _ = system.discard(&one.temp_file);
    }
}

impl<S: DiskSystem + Drop> RootFolder<S> {
    /// Makes each path hold what it is given, one after the other, up to the first that fails. New
    /// files that follow on each other are all written to temporary files before the data of the
    /// first is synced: so the system syncs them together.
    pub fn write_all(&mut self, alloc: Global, writes: &[FileWrite]) -> Result<(), Stop>
        ensures stop { IfErr result (λ stop. stop.made < length writes.now) }
        // The disk is as single writes make it, one after the other. If all were made, no new file
        // is left.
        ensures made { S.honest self.new.system
            → (batch : IsBatch (is_kept self.old.unsynced.syncs) writes.now (disk_of S.System self.old.system)
            (disk_of S.System self.new.system) (is_ok result)) × (batch.made ≡ made_of (length writes.now) result) }
        // The folder above each path that got or lost a file is noted for the next barrier.
        ensures noted { self.old.unsynced.syncs ≡ Kept
            → HaveNoted self.new.unsynced writes.now (S.changes self.old.system) (S.changes self.new.system) }
        ensures syncs { self.new.unsynced.syncs ≡ self.old.unsynced.syncs }
        ensures stay_noted { StayNoted self.old.unsynced self.new.unsynced }
        // No path changes at which something else stands than was read there.
        ensures keeps_edits { LoseNoEdits self.old.reads.items writes.now (S.changes self.old.system)
            (S.changes self.new.system) }
    {
        let reads = mem::replace(&mut self.reads, Vec::new(alloc));
        let mut seen = Seen::before(reads, writes.first());
        let mut made = 0;
        while made < writes.len() {
            match self.write_some(alloc, &writes[made..], &mut seen) {
                Ok(count) => made += count,
                Err(stop) => {
                    let made = made + stop.made;
                    return Err(Stop { made, ..stop });
                }
            }
        }
        Ok(())
    }

    /// Makes the first removal, or the new files up to the first removal, and says how many.
    fn write_some(
        &mut self,
        alloc: Global,
        writes: &[FileWrite],
        seen: &mut Seen,
    ) -> Result<usize, Stop>
        requires { 0 < length writes.now }
        ensures some { IfOk result (λ count. (0 < count) × (count ≤ length writes.now)) }
        ensures stop { IfErr result (λ stop. stop.made < length writes.now) }
        ensures made { S.honest self.new.system
            → IsRound (is_kept self.old.unsynced.syncs) writes.now self.old.new_file self.new.new_file
            (disk_of S.System self.old.system) (disk_of S.System self.new.system) result }
        ensures syncs { self.new.unsynced.syncs ≡ self.old.unsynced.syncs }
        ensures stay_noted { StayNoted self.old.unsynced self.new.unsynced }
        ensures noted { self.old.unsynced.syncs ≡ Kept
            → HaveNoted self.new.unsynced writes.now (S.changes self.old.system) (S.changes self.new.system) }
        ensures earlier { S.honest self.new.system → S.honest self.old.system }
        ensures keeps_edits { LoseNoEdits seen.old.reads.items writes.now (S.changes self.old.system)
            (S.changes self.new.system) }
        ensures reads { seen.new.reads ≡ seen.old.reads }
    {
        let write = &writes[0];
        if write.file.is_none() {
            let expected = seen.next_at(write.path);
            self.remove_expected(alloc, write.path, expected)
                .map_err(Stop::at_first)?;
            return Ok(1);
        }
        match self.write_temp_file(alloc, writes, seen) {
            Ok(
                Round {
                    mut new_file,
                    temp_files,
                },
            ) => {
                let named = self.name_all(alloc, writes, &mut new_file, &temp_files);
                self.new_file = Some(new_file);
                named?;
                Ok(temp_files.len())
            }
            Err(fault) => Err(Stop::at_first(fault)),
        }
    }

    /// Writes the new files up to the first removal to temporary files, or up to one that can't be
    /// written now, if it isn't the first.
    fn write_temp_file(
        &mut self,
        alloc: Global,
        writes: &[FileWrite],
        seen: &mut Seen,
    ) -> Result<Round, FolderFault>
        requires { BeginsWithFile writes.now }
        ensures round { IsRoundOf (S.honest self.new.system) writes.now self.old.new_file (S.holds self.old.system)
            (S.holds self.new.system) result }
        ensures tree { S.honest self.new.system
            → IsSameTree (disk_of S.System self.old.system) (disk_of S.System self.new.system) }
        ensures home { S.honest self.new.system
            → IfOk result (λ round. IsJournal (folder_at (S.folders self.new.system) journal_folder)
            round.new_file.folder.identity) }
        ensures syncs { self.new.unsynced.syncs ≡ self.old.unsynced.syncs }
        ensures stay_noted { StayNoted self.old.unsynced self.new.unsynced }
        ensures above { self.old.unsynced.syncs ≡ Kept
            → IfOk result (λ round. AreNotedAbove self.new.unsynced writes.now (length round.temp_files.items)) }
        ensures earlier { S.honest self.new.system → S.honest self.old.system }
        ensures changes { OnlyChanges IsNewFile (S.changes self.old.system) (S.changes self.new.system) }
        ensures known { IfOk result (λ round. AreKnown seen.old.reads.items writes.now round.temp_files.items) }
        ensures reads { seen.new.reads ≡ seen.old.reads }
    {
        self.ownership.check_guard()?;
        let mut round = Round {
            new_file: self.take_new_file(alloc)?,
            temp_files: Vec::new(alloc),
        };
        match self.fill_round(alloc, writes, &mut round, seen) {
            Ok(()) => Ok(round),
            Err(fault) => {
                remove_all(&mut self.system, &round.temp_files);
                self.new_file = Some(round.new_file);
                Err(fault)
            }
        }
    }

    /// Writes these new files aside, in a round that has none yet.
    fn fill_round(
        &mut self,
        alloc: Global,
        writes: &[FileWrite],
        round: &mut Round,
        seen: &mut Seen,
    ) -> Result<(), FolderFault>
        requires { round.old.temp_files.items ≡ [] }
        ensures folder { round.new.new_file.folder ≡ round.old.new_file.folder }
        ensures begun { AreBegun (S.honest self.new.system × IsTrue (is_ok result)) round.old.new_file.folder.identity
            writes.now round.new.temp_files.items (S.holds self.old.system) (S.holds self.new.system) }
        ensures some { BeginsWithFile writes.now → IfOk result (λ _. 0 < length round.new.temp_files.items) }
        ensures tree { S.honest self.new.system → KeepsTree round.old.new_file.folder.identity
            (disk_of S.System self.old.system) (disk_of S.System self.new.system) }
        ensures syncs { self.new.unsynced.syncs ≡ self.old.unsynced.syncs }
        ensures stay_noted { StayNoted self.old.unsynced self.new.unsynced }
        ensures above { self.old.unsynced.syncs ≡ Kept
            → AreNotedAbove self.new.unsynced writes.now (length round.new.temp_files.items) }
        ensures earlier { S.honest self.new.system → S.honest self.old.system }
        ensures changes { OnlyChanges IsNewFile (S.changes self.old.system) (S.changes self.new.system) }
        ensures known { AreKnown seen.old.reads.items writes.now round.new.temp_files.items }
        ensures reads { seen.new.reads ≡ seen.old.reads }
    {
        for write in writes {
            let Some(parts) = write.file else {
                return Ok(());
            };
            let number = round.temp_files.len();
            if let Err(fault) = self.add_temp_file(alloc, write, parts, round, seen) {
                if number == 0 {
                    return Err(fault);
                }
                return round.new_file.check_free(&mut self.system, alloc, number);
            }
        }
        Ok(())
    }

    /// Writes one more new temporary file, if there is room for a file at its path.
    fn add_temp_file(
        &mut self,
        alloc: Global,
        write: &FileWrite,
        parts: Pieces,
        round: &mut Round,
        seen: &mut Seen,
    ) -> Result<(), FolderFault>
        ensures folder { round.new.new_file.folder ≡ round.old.new_file.folder }
        ensures others { IsAlikeBut (new_place round.old.new_file.folder.identity (length round.old.temp_files.items))
            (S.holds self.old.system) (S.holds self.new.system) }
        ensures added { IsAdded round.old.new_file.folder.identity (S.holds self.new.system)
            (joined parts.entry) round.old.temp_files.items round.new.temp_files.items (is_ok result) }
        ensures tree { S.honest self.new.system → KeepsTree round.old.new_file.folder.identity
            (disk_of S.System self.old.system) (disk_of S.System self.new.system) }
        ensures syncs { self.new.unsynced.syncs ≡ self.old.unsynced.syncs }
        ensures stay_noted { StayNoted self.old.unsynced self.new.unsynced }
        ensures above { self.old.unsynced.syncs ≡ Kept
            → IfOk result (λ _. IsNotedAbove self.new.unsynced write.now.path.now) }
        ensures earlier { S.honest self.new.system → S.honest self.old.system }
        ensures changes { OnlyChanges IsNewFile (S.changes self.old.system) (S.changes self.new.system) }
        ensures known { IfOk result
            (λ _. (one : NewContent) × (round.new.temp_files.items ≡ round.old.temp_files.items ++ one ∷ [])
            × IsKnownTempFile seen.old.reads.items write.now.path.now one) }
        ensures reads { seen.new.reads ≡ seen.old.reads }
    {
        let (folder, _) = folder_and_name(write.path.text());
        let found = self.make_room(alloc, write.path, seen.next_at(write.path))?;
        self.unsynced.note(alloc, folder)?;
        self.open_folders
            .enter_seen(&mut self.system, alloc, folder)?;
        let content = Content {
            parts,
            wanted: self.ownership.wanted(self.open_folders.current()?, found),
            found,
        };
        let number = round.temp_files.len();
        let temp_file = round
            .new_file
            .write_one_temp_file(&mut self.system, alloc, number, content)?;
        self.ownership
            .note_written(write.path.text(), found, round.new_file.kept());
        let one = NewContent {
            temp_file,
            seen: found,
        };
        match round.temp_files.push(one) {
            Ok(()) => Ok(()),
            Err(full) => {
                let _ = self.system.discard(&full.value.temp_file);
                Err(FolderFault::Memory)
            }
        }
    }
}
