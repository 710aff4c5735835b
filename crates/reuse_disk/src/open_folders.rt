//! The folders that are open: the root, and those along the path that was worked in last. Calls
//! come in the order of their paths, so most find their folder open. A folder is opened through the
//! handle of the one above it.
ghost use Rattle.std.specs.Prelude.{◌≡◌, ◌≢◌, ◌∷◌, [], IfOk, IfSome, MatchOption, None, Some, string_bytes};
ghost use Rattle.reuse_system.specs.FolderPlaces.{IsNoFile};
ghost use Rattle.reuse_system.specs.Folders.{Folders, folder_along, folder_at};
ghost use Rattle.reuse_disk.specs.OpenFolders.{IsNext, IsRest};

mod making;

use crate::disk_system::DiskSystem;
use crate::empty_folders::path_in;
use crate::start_folder::StartFolder;
use reuse_system::fault::{FolderFault, IoReason};
use reuse_system::handle::{Below, OpenFolder, Start};
use reuse_system::place::{Found, Place, folder_and_name};
use reuse_system::process::ProcessIds;
use reuse_system::system::System;
use std::alloc::{AllocError, Global};
use std::rt::{Env, Files};

/// How many folders below the root are open at most. Where a path has more, those next to the root
/// are closed.
const MOST_OPEN: usize = 15;

/// An open folder, and its path below the root.
#[derive(Drop)]
struct Step {
    path: String,
    folder: OpenFolder,
}

/// The root and the open folders along a path, each below the one before it.
#[derive(Drop)]
pub struct OpenFolders {
    /// The path of the root.
    root_path: String,
    /// The process. What root makes is given to the owner of the folder above.
    process: ProcessIds,
    /// The root, from when it is asked for.
    root: Option<OpenFolder>,
    /// Those below it.
    steps: Vec<Step>,
    /// The folder that the process was called in, while it is where its handles are shown.
    start_folder: Option<StartFolder>,
}

impl OpenFolders {
    ghost use Rattle.reuse_disk.specs.OpenFolders.{current_of, AreOpened, AreOpenedIf, HasNoSlash, IsEntered, IsOnWay};
    ghost use Rattle.reuse_disk.specs.OpenFolders.{IsOpenedInLast, IsRootOpened, path_of};
    ghost use Rattle.reuse_disk.specs.ReadsOnly.{EntersOnly};

    /// The open folders of this process, from the root at this path on. Nothing is asked of the
    /// system yet.
    pub fn new(alloc: Global, root_path: String, process: ProcessIds) -> OpenFolders
        ensures opened { (folders : Folders) → AreOpened folders result }
        ensures root { result.root_path ≡ root_path }
    {
        OpenFolders {
            root_path,
            process,
            root: None,
            steps: Vec::new(alloc),
            start_folder: None,
        }
    }

    /// Goes to where the system shows the handles of the process, so that paths through open
    /// folders are short, until `come_back`. If the root can't be opened, or handles aren't shown,
    /// the process stays where it is.
    pub fn go_to_handles<S: DiskSystem>(&mut self, system: &mut S, env: &impl Env, alloc: Global)
        ensures enters { EntersOnly S.System system.old system.new self.old self.new }
    {
        if self.go_back(system, alloc, "").is_err() || self.is_by_path() {
            return;
        }
        self.start_folder = StartFolder::leave(system.rt(), env, alloc, self.process);
        self.reset_path_start(alloc);
    }

    /// Comes back to the folder that the process was called in.
    pub fn come_back(&mut self, env: &impl Env, alloc: Global)
        ensures { (folders : Folders) → AreOpened folders self.old → AreOpened folders self.new }
    {
        if let Some(start_folder) = self.start_folder.take() {
            start_folder.come_back(env, alloc);
            self.reset_path_start(alloc);
        }
    }

    /// Lets paths through the root start where the process is, and closes all other folders. For
    /// an allocation failure the root is closed, too.
    fn reset_path_start(&mut self, alloc: Global)
        ensures { (folders : Folders) → AreOpened folders self.old → AreOpened folders self.new }
    {
        self.close();
        let start = self.start();
        let Some(mut root) = self.root.take() else {
            return;
        };
        if root.set_path_start(alloc, start).is_ok() {
            self.root = Some(root);
        }
    }

    fn start(&self) -> Start {
        match self.start_folder {
            Some(_) => Start::Handles,
            None => Start::Root,
        }
    }

    /// The path of the root, as the system takes it from where the process is.
    fn root_path(&self, alloc: Global) -> Result<String, AllocError> {
        let path = self.root_path.as_str();
        match &self.start_folder {
            Some(start_folder) if !path.is_empty() => start_folder.path_from(alloc, path),
            _ => String::from_str(alloc, path),
        }
    }

    /// The folder that was entered last.
    pub fn current(&self) -> Result<&OpenFolder, FolderFault>
        ensures { IfOk result (λ folder. current_of self.now ≡ Some folder.now.identity) }
    {
        match (self.steps.last(), &self.root) {
            (Some(step), _) => Ok(&step.folder),
            (None, Some(root)) => Ok(root),
            (None, None) => Err(FolderFault::Device(IoReason::NoRoot)),
        }
    }

    /// The path of that folder, which is empty for the root.
    pub fn path(&self) -> &str
        ensures { result.now ≡ path_of self.now }
    {
        match self.steps.last() {
            Some(step) => step.path.as_str(),
            None => "",
        }
    }

    /// Opens the root, if it isn't open.
    fn open_root<S: System>(&mut self, system: &mut S, alloc: Global) -> Result<(), FolderFault>
        ensures enters { EntersOnly S.System system.old system.new self.old self.new }
        ensures no_sync { S.synced system.new ≡ S.synced system.old }
        ensures root { IfOk result (λ _. self.new.root ≢ None) }
    {
        if self.root.is_none() {
            let path = self.root_path(alloc)?;
            let root = system.open_root(alloc, path.as_str(), self.process, self.start())?;
            self.root = Some(root);
        }
        Ok(())
    }

    /// Opens the root, and closes the folders that aren't on the way to this one. Gives what of its
    /// path lies below the one that was entered last.
    fn go_back<'a, S: System>(
        &mut self,
        system: &mut S,
        alloc: Global,
        folder: &'a str,
    ) -> Result<&'a str, FolderFault>
        ensures enters { EntersOnly S.System system.old system.new self.old self.new }
        ensures no_sync { S.synced system.new ≡ S.synced system.old }
        ensures way { AreOpenedIf (S.honest system.old) (S.folders system.old) self.old → S.honest system.new
            → IfOk result
            (λ rest. IsOnWay (S.folders system.new) (S.holds system.new) (current_of self.new) rest.now folder.now) }
    {
        self.open_root(system, alloc)?;
        while !self.steps.is_empty() {
            if let Some(rest) = rest_below(self.path(), folder) {
                return Ok(rest);
            }
            self.steps.pop();
        }
        Ok(folder)
    }

    fn push(&mut self, path: String, folder: OpenFolder) -> Result<(), AllocError>
        ensures opened { (folders : Folders) → AreOpened folders self.old
            → folder_at folders (string_bytes path) ≡ Some folder.identity → AreOpened folders self.new }
        ensures current { IfOk result (λ _. current_of self.new ≡ Some folder.identity) }
    {
        if self.steps.len() >= MOST_OPEN {
            self.steps.remove(0);
        }
        self.steps.push(Step { path, folder })?;
        Ok(())
    }

    /// Takes a step into the folder of this name in the one that was entered last.
    fn step_into(&mut self, alloc: Global, name: &str, folder: OpenFolder) -> Result<(), AllocError>
        ensures opened { (folders : Folders) → HasNoSlash name.now → AreOpened folders self.old
            → folder_along folders (current_of self.old) (name.now ∷ []) ≡ Some folder.identity
            → AreOpened folders self.new }
        ensures current { IfOk result (λ _. current_of self.new ≡ Some folder.identity) }
    {
        let path = path_in(alloc, self.path(), name)?;
        self.push(path, folder)
    }

    /// Closes all folders below the root but the one that was entered last.
    fn keep_last(&mut self)
        ensures opened { (folders : Folders) → AreOpened folders self.old → AreOpened folders self.new }
        ensures current { current_of self.new ≡ current_of self.old }
        ensures path { path_of self.new ≡ path_of self.old }
    {
        while self.steps.len() > 1 {
            self.steps.remove(0);
        }
    }

    /// Opens what has this name in the folder that was entered last. If that fails, the folders
    /// above that one are closed, and it is tried once more: no handle may have been left.
    fn open_next<S: System>(
        &mut self,
        system: &mut S,
        alloc: Global,
        name: &str,
    ) -> Result<Below, FolderFault>
        ensures enters { EntersOnly S.System system.old system.new self.old self.new }
        ensures no_sync { S.synced system.new ≡ S.synced system.old }
        ensures current { current_of self.new ≡ current_of self.old }
        ensures below { S.honest system.new
            → IsOpenedInLast (S.folders system.new) (S.holds system.new) (current_of self.old) name.now result }
    {
        let below = system.open_below(alloc, self.current()?, name);
        if below.is_ok() || self.steps.len() <= 1 {
            return below;
        }
        self.keep_last();
        system.open_below(alloc, self.current()?, name)
    }

    /// Enters the folder at this path, which is empty for the root. If a part of the path is no
    /// folder, what a path below it is; the folder that was entered last is then the one that this
    /// part would lie in.
    pub fn enter<S: System>(
        &mut self,
        system: &mut S,
        alloc: Global,
        folder: &str,
    ) -> Result<Option<Place>, FolderFault>
        ensures enters { EntersOnly S.System system.old system.new self.old self.new }
        ensures no_sync { S.synced system.new ≡ S.synced system.old }
        ensures no_file { IfOk result (λ place. IfSome place IsNoFile) }
        ensures entered { AreOpenedIf (S.honest system.old) (S.folders system.old) self.old → S.honest system.new
            → IfOk result (IsEntered (S.folders system.new) (S.holds system.new) folder.now (current_of self.new)) }
    {
        let mut rest = self.go_back(system, alloc, folder)?;
        while let Some((name, below)) = next_name(rest) {
            match self.open_next(system, alloc, name)? {
                Below::Folder(opened) => self.step_into(alloc, name, opened)?,
                Below::Other(found) => return Ok(Some(found.into_place_below())),
            }
            rest = below;
        }
        Ok(None)
    }

    /// Enters the folder at this path where it is to be there.
    ///
    /// # Errors
    /// `Changing` if a part of the path is no folder; else what the system says.
    pub fn enter_seen<S: System>(
        &mut self,
        system: &mut S,
        alloc: Global,
        folder: &str,
    ) -> Result<(), FolderFault>
        ensures enters { EntersOnly S.System system.old system.new self.old self.new }
        ensures no_sync { S.synced system.new ≡ S.synced system.old }
        ensures entered { AreOpenedIf (S.honest system.old) (S.folders system.old) self.old → S.honest system.new
            → IfOk result (λ _. folder_at (S.folders system.new) folder.now ≡ current_of self.new) }
    {
        match self.enter(system, alloc, folder)? {
            None => Ok(()),
            Some(_) => Err(FolderFault::Device(IoReason::Changing)),
        }
    }

    /// Enters the folder at this path where it is to be there, unless it is a bare repository: says
    /// whether.
    ///
    /// # Errors
    /// As `enter_seen`.
    pub fn enter_listed<S: DiskSystem>(
        &mut self,
        system: &mut S,
        alloc: Global,
        folder: &str,
    ) -> Result<bool, FolderFault>
        ensures enters { EntersOnly S.System system.old system.new self.old self.new }
    {
        match self.enter(system, alloc, folder)? {
            None => Ok(true),
            // What stands there is a folder that wasn't entered.
            Some(Place::Other) => {
                let (_, name) = folder_and_name(folder);
                match self.current()?.look(system.rt(), alloc, name)? {
                    Found::Folder(_) => Ok(false),
                    _ => Err(FolderFault::Device(IoReason::Changing)),
                }
            }
            Some(_) => Err(FolderFault::Device(IoReason::Changing)),
        }
    }

    /// Fails if another folder than the open one stands at the path of the root, or none.
    pub fn check_root(&self, rt: &impl Files, alloc: Global) -> Result<(), FolderFault> {
        match &self.root {
            Some(root) => {
                let path = self.root_path(alloc)?;
                root.check_root(rt, alloc, path.as_str())
            }
            None => Err(FolderFault::Device(IoReason::NoRoot)),
        }
    }

    /// Whether folders are searched for by their paths, since the system doesn't show open ones.
    pub fn is_by_path(&self) -> bool {
        match &self.root {
            Some(root) => !root.is_shown(),
            None => false,
        }
    }

    /// Closes all folders but the root, so that each is looked at anew.
    pub fn close(&mut self)
        ensures { (folders : Folders) → IsRootOpened folders self.old → AreOpened folders self.new }
    {
        self.steps.clear();
    }
}

/// What of a path lies below this folder, without a slash before it, or none where the path isn't
/// the folder and doesn't lie below it.
fn rest_below<'a>(folder: &str, path: &'a str) -> Option<&'a str>
    ensures { IfSome result (λ rest. IsRest folder.now path.now rest.now) }
{
    if folder.is_empty() {
        return Some(path);
    }
    let rest = path.strip_prefix(folder)?;
    if rest.is_empty() {
        return Some(rest);
    }
    rest.strip_prefix('/')
}

/// The name that a path begins with, and what lies behind that and its slash; none for no path.
fn next_name(path: &str) -> Option<(&str, &str)>
    ensures { MatchOption result (path.now ≡ []) (λ next. IsNext path.now next.0.now next.1.now) }
{
    if path.is_empty() {
        return None;
    }
    Some(path.split_once('/').unwrap_or((path, "")))
}
