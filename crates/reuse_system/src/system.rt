//! The calls of the system that make, remove and open folders, and those that change regular files,
//! look at them or read them: what they make of these, and what they report of them. What is
//! reported holds as long as nobody else writes in the folders.
ghost use Rattle.std.specs.Prelude.{◌≡◌, ◌∷◌, List, Option, Some, is_ok, IfOk, IfSome, MatchResult};
ghost use Rattle.reuse_system.specs.FileStates.{FileState};
ghost use Rattle.reuse_system.specs.Folders.{Folders};
ghost use Rattle.reuse_system.specs.NameChanges.{Look, NameChange};
ghost use Rattle.reuse_system.specs.NameTree.{IsNameTree};
ghost use Rattle.reuse_system.specs.declared.place.Identity.{Identity};

mod grants;
mod host;
mod make_file;
mod new_status;
mod open_file;
mod record;

use crate::fault::FolderFault;
use crate::handle::{Below, OpenFolder, Start};
use crate::place::{FileStatus, Found, Identity};
use crate::process::ProcessIds;
pub use grants::Grants;
pub use host::HostSystem;
pub use new_status::{NewMode, NewStatus};
use reuse_store::Reading;
use std::alloc::Global;
use std::fs::File;
use std::io;

/// A new temporary file that is written and has no name of its own yet.
#[derive(Drop)]
pub struct TempFile {
    file: File,
    /// Where it was made, as the system takes it.
    path: String,
    /// The folder in which it was made, and its name there.
    folder: Identity,
    name: String,
    /// How many files were made before.
    number: u64,
    /// What is known of its bits and its owner.
    status: NewStatus,
}

/// A regular file that is open for reading.
#[derive(Drop)]
pub struct OpenedFile {
    file: File,
    /// The folder in which it was opened, and its name there.
    folder: Identity,
    name: String,
}

/// The calls of the system on folders and files. What a call reports of them holds if the system is
/// honest after the call; what is said of `holds` and `folders` holds always.
pub trait System {
    ghost use Rattle.reuse_system.specs.SystemLaws.{IsAlikeBut, IsAlikeButFile, IsMade, IsAppended, IsSynced};
    ghost use Rattle.reuse_system.specs.SystemLaws.{IsRenamed, IsLeft, IsRemoved, IsLinked, MayBeLinked, MayBeRenamed};
    ghost use Rattle.reuse_system.specs.SystemLaws.{IsFolderMade, IsFolderRemoved, IsSeen, IsReadOf, IsOpenedBelow};
    ghost use Rattle.reuse_system.specs.TempFiles.{name_in, place_of, opened_at, key_of};
    ghost use Rattle.reuse_system.specs.NameChanges.{change_at, change_of_free, change_to};
    ghost use Rattle.reuse_system.specs.NewFiles.{made_status};
    ghost use Rattle.reuse_system.specs.Within.{IsWithin};

    /// The regular file that each name in a folder leads to.
    ghost holds: { Self → FileState };

    /// The root, and what else names lead to.
    ghost folders: { Self → Folders };

    /// What the last call reported, if it was a look.
    ghost looked: { Self → Option Look };

    /// The names that files were given or lost so far, the newest first, each with what a look
    /// directly before reported of it, and with what is known of a file that was given it. A look
    /// reports what was there, whoever has written it.
    ghost changes: { Self → List NameChange };

    /// The folders that were synced so far, the newest first.
    ghost synced: { Self → List Identity };

    /// So far nobody else has written in the folders, what was reported of a file is what it is,
    /// and the names below the root formed a tree. A call can lose this, and never gain it.
    ghost honest: { Self → Type 0 };

    /// Makes an empty file of this name, and of this mode where one is given. It fails where
    /// anything has the name.
    fn make(&mut self, folder: &OpenFolder, name: &str, mode: Option<u32>) -> io::Result<TempFile>
        ensures made { MatchResult result
            (λ temp_file. (place_of temp_file ≡ name_in folder.now name.now)
            × IsMade (name_in folder.now name.now) (key_of temp_file) (holds self.old) (holds self.new))
            (λ _. IsAlikeBut (name_in folder.now name.now) (holds self.old) (holds self.new)) }
        ensures status { IfOk result (λ temp_file. temp_file.status ≡ made_status mode) }
        ensures still { folders self.new ≡ folders self.old }
        ensures earlier { honest self.new → honest self.old }
        ensures changes { changes self.new ≡ changes self.old }
        ensures no_sync { synced self.new ≡ synced self.old };

    /// Writes these bytes to the end of the file. Where that fails, any may be written.
    fn append(&mut self, temp_file: &TempFile, bytes: &[u8]) -> io::Result<()>
        ensures appended { MatchResult result
            (λ _. IsAppended (key_of temp_file.now) bytes.now (holds self.old) (holds self.new))
            (λ _. IsAlikeButFile (key_of temp_file.now) (holds self.old) (holds self.new)) }
        ensures still { folders self.new ≡ folders self.old }
        ensures earlier { honest self.new → honest self.old }
        ensures changes { changes self.new ≡ changes self.old }
        ensures no_sync { synced self.new ≡ synced self.old };

    /// Makes the bytes of the file durable.
    fn sync_data(&mut self, temp_file: &TempFile) -> io::Result<()>
        ensures synced { MatchResult result
            (λ _. IsSynced (key_of temp_file.now) (holds self.old) (holds self.new))
            (λ _. IsAlikeButFile (key_of temp_file.now) (holds self.old) (holds self.new)) }
        ensures still { folders self.new ≡ folders self.old }
        ensures earlier { honest self.new → honest self.old }
        ensures changes { changes self.new ≡ changes self.old }
        ensures no_sync { synced self.new ≡ synced self.old };

    /// Gives the file another name, in place of what has it. Where that fails, it may be done.
    fn rename(&mut self, temp_file: &TempFile, folder: &OpenFolder, name: &str) -> io::Result<()>
        ensures renamed { MatchResult result
            (λ _. IsRenamed (place_of temp_file.now) (name_in folder.now name.now) (holds self.old) (holds self.new))
            (λ _. MayBeRenamed (place_of temp_file.now) (name_in folder.now name.now) (holds self.old)
            (holds self.new)) }
        ensures left { IfOk result
            (λ _. IsLeft (place_of temp_file.now) (name_in folder.now name.now) (holds self.old) (holds self.new)) }
        ensures still { folders self.new ≡ folders self.old }
        ensures earlier { honest self.new → honest self.old }
        ensures changes { changes self.new ≡ change_to (looked self.old)
            (name_in folder.now name.now) temp_file.now.status ∷ changes self.old }
        ensures no_sync { synced self.new ≡ synced self.old };

    /// Gives the file this name too. It fails where anything has the name; where it fails
    /// otherwise, it may be done.
    fn link(&mut self, temp_file: &TempFile, folder: &OpenFolder, name: &str) -> io::Result<()>
        ensures linked { MatchResult result
            (λ _. IsLinked (place_of temp_file.now) (name_in folder.now name.now) (holds self.old) (holds self.new))
            (λ _. MayBeLinked (place_of temp_file.now) (name_in folder.now name.now) (holds self.old)
            (holds self.new)) }
        ensures still { folders self.new ≡ folders self.old }
        ensures earlier { honest self.new → honest self.old }
        ensures changes { changes self.new ≡ change_of_free (name_in folder.now name.now)
            temp_file.now.status ∷ changes self.old }
        ensures no_sync { synced self.new ≡ synced self.old };

    /// Removes what stands where the file was made. Where that fails, it may be done.
    fn discard(&mut self, temp_file: &TempFile) -> io::Result<()>
        ensures removed { MatchResult result
            (λ _. IsRemoved (place_of temp_file.now) (holds self.old) (holds self.new))
            (λ _. IsAlikeBut (place_of temp_file.now) (holds self.old) (holds self.new)) }
        ensures still { folders self.new ≡ folders self.old }
        ensures earlier { honest self.new → honest self.old }
        ensures changes { changes self.new ≡ change_at (looked self.old) (place_of temp_file.now) ∷ changes self.old }
        ensures no_sync { synced self.new ≡ synced self.old };

    /// Removes the file of this name. Where that fails, it may be done.
    fn remove(&mut self, folder: &OpenFolder, name: &str) -> io::Result<()>
        ensures removed { MatchResult result
            (λ _. IsRemoved (name_in folder.now name.now) (holds self.old) (holds self.new))
            (λ _. IsAlikeBut (name_in folder.now name.now) (holds self.old) (holds self.new)) }
        ensures still { folders self.new ≡ folders self.old }
        ensures earlier { honest self.new → honest self.old }
        ensures changes { changes self.new ≡ change_at (looked self.old)
            (name_in folder.now name.now) ∷ changes self.old }
        ensures no_sync { synced self.new ≡ synced self.old };

    /// Makes durable which names the folder has. A file system that can't sync folders does that in
    /// its own way.
    fn sync_folder(&mut self, folder: &OpenFolder) -> Result<(), FolderFault>
        ensures synced { MatchResult result (λ _. synced self.new ≡ folder.now.identity ∷ synced self.old)
            (λ _. synced self.new ≡ synced self.old) }
        ensures kept { holds self.new ≡ holds self.old }
        ensures still { folders self.new ≡ folders self.old }
        ensures earlier { honest self.new → honest self.old }
        ensures changes { changes self.new ≡ changes self.old };

    /// Makes a folder of this name. Where that fails, it may be done.
    fn make_folder(&mut self, above: &OpenFolder, name: &str) -> io::Result<()>
        ensures kept { holds self.new ≡ holds self.old }
        ensures made { IsFolderMade (name_in above.now name.now) (folders self.old) (folders self.new) (is_ok result) }
        ensures earlier { honest self.new → honest self.old }
        ensures changes { changes self.new ≡ changes self.old }
        ensures no_sync { synced self.new ≡ synced self.old };

    /// Removes the empty folder of this name. Where that fails, it may be done.
    fn remove_folder(&mut self, above: &OpenFolder, name: &str) -> io::Result<()>
        ensures kept { holds self.new ≡ holds self.old }
        ensures removed { IsFolderRemoved (name_in above.now name.now) (folders self.old) (folders self.new)
            (is_ok result) }
        ensures earlier { honest self.new → honest self.old }
        ensures changes { changes self.new ≡ changes self.old }
        ensures no_sync { synced self.new ≡ synced self.old };

    /// Opens the root, which is at this path.
    fn open_root(
        &mut self,
        alloc: Global,
        path: &str,
        process: ProcessIds,
        start: Start,
    ) -> Result<OpenFolder, FolderFault>
        ensures kept { holds self.new ≡ holds self.old }
        ensures still { folders self.new ≡ folders self.old }
        ensures earlier { honest self.new → honest self.old }
        ensures root { honest self.new → IfOk result (λ folder. folder.identity ≡ (folders self.new).root) }
        ensures changes { changes self.new ≡ changes self.old }
        ensures no_sync { synced self.new ≡ synced self.old };

    /// The folder of this name, opened, or what stands there in its place.
    fn open_below(
        &mut self,
        alloc: Global,
        above: &OpenFolder,
        name: &str,
    ) -> Result<Below, FolderFault>
        ensures kept { holds self.new ≡ holds self.old }
        ensures still { folders self.new ≡ folders self.old }
        ensures earlier { honest self.new → honest self.old }
        ensures opened { honest self.new
            → IsOpenedBelow (folders self.new) (holds self.new) above.now.identity name.now result }
        ensures changes { changes self.new ≡ changes self.old }
        ensures no_sync { synced self.new ≡ synced self.old };

    /// What stands at this name. No link is followed.
    fn look(&mut self, folder: &OpenFolder, name: &str) -> Result<Found, FolderFault>
        ensures kept { holds self.new ≡ holds self.old }
        ensures still { folders self.new ≡ folders self.old }
        ensures earlier { honest self.new → honest self.old }
        ensures seen { honest self.new → IsSeen (holds self.new (name_in folder.now name.now)) result }
        ensures changes { changes self.new ≡ changes self.old }
        ensures looked { IfOk result
            (λ found. looked self.new ≡ Some (record { place = name_in folder.now name.now; reported = found })) }
        ensures no_sync { synced self.new ≡ synced self.old };

    /// Opens the regular file that was seen at this name just before, or gives nothing if something
    /// else has taken its place.
    fn open(
        &self,
        folder: &OpenFolder,
        name: &str,
        seen: FileStatus,
    ) -> Result<Option<OpenedFile>, FolderFault>
        ensures { IfOk result (λ opened. IfSome opened (λ file. opened_at file ≡ name_in folder.now name.now)) };

    /// The bytes of a file that was opened just now and is said to have so many, where they are at
    /// most `limit`.
    fn read(
        &mut self,
        alloc: Global,
        opened: OpenedFile,
        said: u64,
        limit: usize,
    ) -> Result<Reading, FolderFault>
        ensures kept { holds self.new ≡ holds self.old }
        ensures still { folders self.new ≡ folders self.old }
        ensures earlier { honest self.new → honest self.old }
        ensures within { IfOk result (IsWithin limit) }
        ensures read { honest self.new → IsReadOf said limit (holds self.new (opened_at opened)) result }
        ensures changes { changes self.new ≡ changes self.old }
        ensures no_sync { synced self.new ≡ synced self.old };

    /// No folder has two names, as by a mount of it at a second place, and one that is made or
    /// removed is empty.
    ghost is_tree: { (system : Self) → honest system → IsNameTree (folders system) (holds system) };
}
