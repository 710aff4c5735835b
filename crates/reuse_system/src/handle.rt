//! A folder that is open. It was looked at before it was opened and after, and is the very folder
//! that was looked at: a value of this type is made in no other way. Each call on a name in it goes
//! through its handle, so a folder that is moved or replaced meanwhile is worked where it is, and
//! no link is followed that has taken its place. Races with other programs are tested by
//! tests/races.sh.
ghost use Rattle.std.specs.Prelude.{◌≡◌, ◌≢◌, ◌++◌, ◌∷◌, [], Err, IfErr, IfOk, IfSome, IsTrue};
ghost use Rattle.std.specs.Prelude.{MatchResult, Ok, OnErr, bit_and, false, length, nat_lt, string_bytes, true};
ghost use Rattle.std.specs.Fd.{file_raw_fd};
ghost use Rattle.std.specs.Fs.{metadata_mode};
ghost use Rattle.reuse_system.specs.Handles.{handle_path, IsOpenedWell, IsThroughHandle};

mod errors;

use crate::bare::is_bare_repository;
use crate::fault::{FolderFault, IoReason};
use crate::owner::Owner;
use crate::place::{FileStatus, Found, Identity, is_long_name, look_at};
use crate::process::ProcessIds;
use errors::{is_of_change, is_of_writing, is_without_sync, seen_file};
use std::alloc::{AllocError, Global};
use std::fs::{self, File, Metadata, OpenOptions};
use std::os::fd::AsRawFd;
use std::os::unix::fs::{MetadataExt, fchown};
use std::rt::Files;

/// The bits of a folder's mode by which others than its owner may give it names and take them away.
const WRITTEN_BY_OTHERS: u32 = 0o022;

/// The bit of a folder's mode by which it passes its group on to what is made in it.
const PASSES_GROUP: u32 = 0o2000;

/// A folder that is open, and the very one that was looked at.
#[derive(Drop)]
pub struct OpenFolder {
    handle: File,
    identity: Identity,
    /// What stands before a name in the folder, where a call takes a path.
    prefix: String,
    environment: Environment,
    /// Whether others than the process' user, and root, may put something else at a name in the
    /// folder.
    is_shared: bool,
    owner: Owner,
    passes_group: bool,
}

/// Where paths through an open folder start.
#[derive(Clone, Copy)]
pub enum Start {
    /// From the root of the file system.
    Root,
    /// From where the system shows the handles of the process, which is there.
    Handles,
}

/// What holds for all folders of a run.
#[derive(Clone, Copy)]
struct Environment {
    /// Whether the system shows a handle as a path, so that calls go through it.
    is_shown: bool,
    process: ProcessIds,
    start: Start,
}

/// What stands at a name: a folder, which is opened, or anything else.
#[derive(Drop)]
pub enum Below {
    /// The folder.
    Folder(OpenFolder),
    /// What stands there in its place.
    Other(Found),
}

impl OpenFolder {
    /// The root at this path, opened by this process. A root that is a link to a folder will do.
    ///
    /// # Errors
    /// `NoRoot` if the path is empty; `Changing` if another folder took its place; else what the
    /// system says.
    pub fn root(
        rt: &impl Files<File = File>,
        alloc: Global,
        root: &str,
        process: ProcessIds,
        start: Start,
    ) -> Result<OpenFolder, FolderFault>
        ensures through { IfOk result IsThroughHandle }
        ensures empty { root.now ≡ [] → result ≡ Err (FolderFault.Device IoReason.NoRoot) }
    {
        let path = root_path(alloc, root)?;
        let identity = root_identity(rt, path.as_str())?;
        let handle = open_folder(rt, path.as_str())?;
        let environment = Environment {
            is_shown: true,
            process,
            start,
        };
        let shown = handle_path(alloc, &handle, environment)?;
        let environment = Environment {
            is_shown: identity.is_at(rt, shown.as_str()),
            ..environment
        };
        OpenFolder::of(alloc, handle, path, environment)?.seen_as(identity)
    }

    /// The folder that was opened at this path, which has a slash at its end.
    fn of(
        alloc: Global,
        handle: File,
        path: String,
        environment: Environment,
    ) -> Result<OpenFolder, FolderFault>
        ensures through { IfOk result IsThroughHandle }
        ensures environment { IfOk result (λ folder. folder.environment ≡ environment) }
    {
        let metadata = handle.metadata()?;
        let prefix = if environment.is_shown {
            handle_path(alloc, &handle, environment)?
        } else {
            path
        };
        Ok(OpenFolder {
            handle,
            identity: Identity::of(&metadata),
            prefix,
            environment,
            is_shared: is_shared(&metadata, environment.process.user),
            owner: Owner::of(&metadata),
            passes_group: metadata.mode() & PASSES_GROUP != 0,
        })
    }

    /// From now on paths through the folder, and through those below it, start there. If
    /// handles aren't shown they stay.
    pub fn set_path_start(&mut self, alloc: Global, start: Start) -> Result<(), AllocError>
        ensures identity { self.new.identity ≡ self.old.identity }
        ensures through { IsThroughHandle self.old → IsThroughHandle self.new }
        ensures start { IsTrue self.old.environment.is_shown
            → IfOk result (λ _. self.new.environment ≡ record self.old.environment { start = start }) }
        ensures stays { self.old.environment.is_shown ≡ false → self.new ≡ self.old }
        ensures err { OnErr result (self.new ≡ self.old) }
    {
        if self.environment.is_shown {
            let environment = Environment {
                start,
                ..self.environment
            };
            self.prefix = handle_path(alloc, &self.handle, environment)?;
            self.environment = environment;
        }
        Ok(())
    }

    /// This folder, if it is the one that was looked at.
    fn seen_as(self, seen: Identity) -> Result<OpenFolder, FolderFault>
        ensures { MatchResult result (λ folder. (folder ≡ self) × (self.identity ≡ seen))
            (λ fault. (fault ≡ FolderFault.Device IoReason.Changing) × (self.identity ≢ seen)) }
    {
        if self.identity == seen {
            Ok(self)
        } else {
            Err(FolderFault::Device(IoReason::Changing))
        }
    }

    /// The path of this name in the folder, as the system takes it; of an empty name, the folder's
    /// own.
    pub fn path_of(&self, alloc: Global, name: &str) -> Result<String, AllocError>
        ensures { IfOk result (λ path. string_bytes path ≡ string_bytes self.now.prefix ++ name.now) }
    {
        let mut path = String::with_capacity(alloc, self.prefix.len().saturating_add(name.len()))?;
        path.push_str(self.prefix.as_str())?;
        path.push_str(name)?;
        Ok(path)
    }

    /// The folder's own path, as the system takes it.
    pub fn path(&self) -> &str
        ensures { result.now ≡ string_bytes self.now.prefix }
    {
        self.prefix.as_str()
    }

    /// Fails if this open root isn't what stands at its path any more.
    ///
    /// # Errors
    /// `Changing` if another folder stands there; else what the system says.
    pub fn check_root(
        &self,
        rt: &impl Files,
        alloc: Global,
        root: &str,
    ) -> Result<(), FolderFault> {
        let path = root_path(alloc, root)?;
        if root_identity(rt, path.as_str())? == self.identity {
            Ok(())
        } else {
            Err(FolderFault::Device(IoReason::Changing))
        }
    }

    /// Which folder it is.
    pub fn identity(&self) -> Identity
        ensures { result ≡ self.now.identity }
    {
        self.identity
    }

    /// Whether calls go through the handle, and not by the folder's path.
    pub fn is_shown(&self) -> bool
        ensures { result ≡ self.now.environment.is_shown }
    {
        self.environment.is_shown
    }

    /// Whose the folder is.
    pub fn owner(&self) -> Owner
        ensures { result ≡ self.now.owner }
    {
        self.owner
    }

    /// Whether the folder passes its group on to what is made in it.
    pub fn passes_group(&self) -> bool
        ensures { result ≡ self.now.passes_group }
    {
        self.passes_group
    }

    /// Gives the folder to this owner.
    pub fn give_to(&self, owner: Owner) -> Result<(), FolderFault> {
        fchown(&self.handle, Some(owner.user), Some(owner.group))?;
        Ok(())
    }

    /// What stands at this name. Where it is longer than any name can be, nothing does, though the
    /// system reports that as a fault.
    pub fn look(&self, rt: &impl Files, alloc: Global, name: &str) -> Result<Found, FolderFault>
        ensures long { nat_lt 255 (length name.now) ≡ true → result ≡ Ok Found.Nothing }
    {
        if is_long_name(name) {
            return Ok(Found::Nothing);
        }
        look_at(rt, self.path_of(alloc, name)?.as_str())
    }

    /// The folder of this name, opened, or what stands there in its place. A bare repository of git
    /// is no folder of a tree, and is reported as a link is.
    ///
    /// # Errors
    /// `Changing` if something took its place while it was opened; else what the system says.
    pub fn open_below(
        &self,
        rt: &impl Files<File = File>,
        alloc: Global,
        name: &str,
    ) -> Result<Below, FolderFault>
        ensures long { nat_lt 255 (length name.now) ≡ true → result ≡ Ok (Below.Other Found.Nothing) }
        ensures opened { IfOk result IsOpenedWell }
    {
        let identity = match self.look(rt, alloc, name)? {
            Found::Folder(identity) => identity,
            found => return Ok(Below::Other(found)),
        };
        let mut path = self.path_of(alloc, name)?;
        path.push('/')?;
        let handle = open_folder(rt, path.as_str())?;
        let folder = OpenFolder::of(alloc, handle, path, self.environment)?.seen_as(identity)?;
        if is_bare_repository(rt, alloc, &folder)? {
            return Ok(Below::Other(Found::Other));
        }
        Ok(Below::Folder(folder))
    }

    /// Opens the regular file that was seen at this name just before, or gives nothing if something
    /// else has taken its place. That is closed again, and nothing of it is read.
    ///
    /// Opening a pipe for reading would wait for a writer, and opening it for reading and writing
    /// doesn't wait. So where others may put a pipe there, the file is opened for both, if the
    /// system allows it.
    pub fn open_file(
        &self,
        rt: &impl Files<File = File>,
        alloc: Global,
        name: &str,
        seen: FileStatus,
    ) -> Result<Option<File>, FolderFault> {
        let path = self.path_of(alloc, name)?;
        if self.is_shared {
            match OpenOptions::new()
                .read(true)
                .write(true)
                .open(rt, path.as_str())
            {
                Err(error) if is_of_writing(&error) => {
                    let Found::File(_) = look_at(rt, path.as_str())? else {
                        return Ok(None);
                    };
                }
                opened => return seen_file(opened, seen),
            }
        }
        seen_file(fs::open(rt, path.as_str()), seen)
    }

    /// A second handle of this folder.
    pub fn try_clone(&self, alloc: Global) -> Result<OpenFolder, FolderFault>
        ensures through { IfOk result IsThroughHandle }
        ensures environment { IfOk result (λ folder. folder.environment ≡ self.now.environment) }
    {
        let handle = self.handle.try_clone()?;
        let path = String::from_str(alloc, self.prefix.as_str())?;
        OpenFolder::of(alloc, handle, path, self.environment)
    }

    /// Makes durable which names the folder has. A file system that can't sync folders does that in
    /// its own way.
    pub fn sync(&self) -> Result<(), FolderFault> {
        match self.handle.sync_all() {
            Err(error) if !is_without_sync(&error) => {
                Err(FolderFault::Device(IoReason::System(error)))
            }
            Ok(()) | Err(_) => Ok(()),
        }
    }
}

/// The path of the root with a slash at its end, which leads to a folder or nowhere.
fn root_path(alloc: Global, root: &str) -> Result<String, FolderFault>
    ensures path { IfOk result (λ path. string_bytes path ≡ root.now ++ 47 ∷ []) }
    ensures empty { root.now ≡ [] → result ≡ Err (FolderFault.Device IoReason.NoRoot) }
    ensures memory { root.now ≢ [] → IfErr result (λ fault. fault ≡ FolderFault.Memory) }
{
    if root.is_empty() {
        return Err(FolderFault::Device(IoReason::NoRoot));
    }
    let mut path = String::from_str(alloc, root)?;
    path.push('/')?;
    Ok(path)
}

/// The identity of the folder at this path, which has a slash at its end. The root may be a link to
/// a folder.
fn root_identity(rt: &impl Files, path: &str) -> Result<Identity, FolderFault> {
    Ok(Identity::of(&fs::metadata(rt, path)?))
}

/// Opens the folder at this path. The slash at the end of the path keeps anything else from being
/// opened, such as a pipe, which would wait.
fn open_folder(rt: &impl Files<File = File>, path: &str) -> Result<File, FolderFault> {
    match fs::open(rt, path) {
        Ok(handle) => Ok(handle),
        Err(error) if is_of_change(&error) => Err(FolderFault::Device(IoReason::Changing)),
        Err(error) => Err(error.into()),
    }
}

/// Whether others than this user, and root, may put something else at a name in this folder.
fn is_shared(folder: &Metadata, user: u32) -> bool
    ensures { bit_and (metadata_mode folder.now) 0o022 ≢ 0 → IsTrue result }
{
    let owner = folder.uid();
    let is_of_other = owner != 0 && owner != user;
    is_of_other || folder.mode() & WRITTEN_BY_OTHERS != 0
}

/// The path at which the system shows an open folder of this process. By the number of the process
/// the system comes there sooner than by `self`, which is a link.
fn handle_path(alloc: Global, handle: &File, environment: Environment) -> Result<String, AllocError>
    ensures { IfOk result (λ path. string_bytes path
        ≡ handle_path environment.start environment.process.number (file_raw_fd handle.now)) }
{
    let handle = handle.as_raw_fd();
    match (environment.start, environment.process.number) {
        (Start::Handles, _) => format!(in alloc; "{handle}/"),
        (Start::Root, Some(number)) => format!(in alloc; "/proc/{number}/fd/{handle}/"),
        (Start::Root, None) => format!(in alloc; "/proc/self/fd/{handle}/"),
    }
}
