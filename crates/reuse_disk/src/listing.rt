//! The files below a folder.
ghost use Rattle.std.specs.Prelude.{◌≡◌, ◌++◌, ◌∷◌, [], All, IfOk, OnErr, false, map, not, string_bytes};
ghost use Rattle.std.specs.List.Sorted.{IsPermutation, IsSorted};
ghost use Rattle.std.specs.Ordering.{nat_cmp};
ghost use Rattle.std.specs.Cmp.Lexicographic.{slice_cmp};
ghost use Rattle.reuse_system.specs.Ignored.{is_ignored};
ghost use Rattle.reuse_disk.specs.Listings.{is_looked_at, is_passed_over, with_if};
ghost use Rattle.reuse_disk.specs.ReadsOnly.{EntersOnly};

use crate::disk_system::DiskSystem;
use crate::empty_folders::path_in;
use crate::open_folders::OpenFolders;
use reuse_change::{NoPruning, PathText, Pruning};
use reuse_system::fault::{FolderFault, IoReason};
use reuse_system::ignored::{is_folder_ignored, is_ignored};
use std::alloc::{AllocError, Global};
use std::fs::{self, DirEntry, File};
use std::rt::Files;

/// A listing that finds more names than this fails.
pub const MOST_NAMES: usize = 100_000_000;

/// Adds a text to others.
pub fn push_text(alloc: Global, texts: &mut Vec<String>, text: &str) -> Result<(), AllocError>
    ensures pushed { IfOk result
        (λ _. map string_bytes texts.new.items ≡ map string_bytes texts.old.items ++ text.now ∷ []) }
    ensures err { OnErr result (texts.new.items ≡ texts.old.items) }
{
    texts.push(String::from_str(alloc, text)?)?;
    Ok(())
}

/// A listing, with what it has found so far.
#[derive(Drop)]
pub struct Listing<'a, P: Pruning> {
    pruning: &'a P,
    names: usize,
    folders: Vec<String>,
    files: Vec<PathText>,
    // The folders that were found and pruned.
    passed: Vec<String>,
    ghost in_tree: { All (λ path. is_ignored path ≡ false) files.items },
}

impl<'a, P: Pruning> Listing<'a, P> {
    /// Nothing found, and nothing to look at.
    pub fn new(alloc: Global, pruning: &'a P) -> Listing<'a, P>
        ensures pruning { result.pruning.now ≡ pruning.now }
        ensures none { (result.folders.items ≡ []) × (result.files.items ≡ []) × (result.passed.items ≡ []) }
    {
        Listing {
            pruning,
            names: 0,
            folders: Vec::new(alloc),
            files: Vec::new(alloc),
            passed: Vec::new(alloc),
        }
    }

    /// Takes in a folder that is to be looked at; empty for the root, which is always looked at.
    /// One that is no part of the tree, or is pruned, is passed over.
    pub fn take_folder(&mut self, alloc: Global, folder: &str) -> Result<(), FolderFault>
        ensures looked_at { IfOk result (λ _. map string_bytes self.new.folders.items
            ≡ with_if (is_looked_at (P.prunes self.old.pruning.now folder.now) folder.now)
            (map string_bytes self.old.folders.items) folder.now) }
        ensures passed_over { IfOk result (λ _. map string_bytes self.new.passed.items
            ≡ with_if (is_passed_over (P.prunes self.old.pruning.now folder.now) folder.now)
            (map string_bytes self.old.passed.items) folder.now) }
        ensures pruning { self.new.pruning.now ≡ self.old.pruning.now }
        ensures files { self.new.files ≡ self.old.files }
        ensures err { OnErr result
            ((self.new.folders.items ≡ self.old.folders.items) × (self.new.passed.items ≡ self.old.passed.items)) }
    {
        if !folder.is_empty() {
            if is_folder_ignored(folder) {
                return Ok(());
            }
            if self.passes_over(folder) {
                push_text(alloc, &mut self.passed, folder)?;
                return Ok(());
            }
        }
        push_text(alloc, &mut self.folders, folder)?;
        Ok(())
    }

    /// Takes in a regular file.
    pub fn take_file(&mut self, alloc: Global, text: &str) -> Result<(), FolderFault>
        ensures taken { IfOk result
            (λ _. self.new.files.items ≡ with_if (not (is_ignored text.now)) self.old.files.items text.now) }
        ensures pruning { self.new.pruning.now ≡ self.old.pruning.now }
        ensures folders { self.new.folders ≡ self.old.folders }
        ensures passed { self.new.passed ≡ self.old.passed }
        ensures err { OnErr result (self.new.files.items ≡ self.old.files.items) }
    {
        if !is_ignored(text) {
            let path = PathText::new(alloc, text)?;
            self.files.push(path).map_err(AllocError::from)?;
        }
        Ok(())
    }

    /// Whether the folder is pruned.
    pub fn passes_over(&self, folder: &str) -> bool
        ensures { result ≡ P.prunes self.now.pruning.now folder.now }
    {
        self.pruning.prunes(folder)
    }

    fn next_folder(&mut self) -> Option<String> {
        self.folders.pop()
    }

    /// Takes in one name of this folder. Links, devices and pipes are left out.
    fn take<R: Files>(
        &mut self,
        alloc: Global,
        folder: &str,
        entry: &DirEntry<R>,
    ) -> Result<(), FolderFault> {
        if self.names >= MOST_NAMES {
            return Err(FolderFault::Device(IoReason::TooManyNames));
        }
        self.names += 1;
        let metadata = entry.metadata()?;
        let whole = path_in(alloc, folder, entry.file_name())?;
        if metadata.is_dir() {
            self.take_folder(alloc, whole.as_str())?;
        } else if metadata.is_file() {
            self.take_file(alloc, whole.as_str())?;
        }
        Ok(())
    }

    /// Takes in the names of one folder, which is the root where it is empty.
    fn look_into<S: DiskSystem>(
        &mut self,
        system: &mut S,
        alloc: Global,
        open_folders: &mut OpenFolders,
        folder: &str,
    ) -> Result<(), FolderFault>
        ensures enters { EntersOnly S.System system.old system.new open_folders.old open_folders.new }
    {
        if !open_folders.enter_listed(system, alloc, folder)? {
            return Ok(());
        }
        for entry in fs::read_dir(system.rt(), open_folders.current()?.path())? {
            self.take(alloc, folder, &entry?)?;
        }
        Ok(())
    }

    /// Looks into each folder that was taken in, and into those below it. `last` becomes the folder
    /// that was looked at last, where a listing that fails has failed.
    pub fn walk<S: DiskSystem>(
        &mut self,
        system: &mut S,
        alloc: Global,
        open_folders: &mut OpenFolders,
        last: &mut String,
    ) -> Result<(), FolderFault>
        ensures enters { EntersOnly S.System system.old system.new open_folders.old open_folders.new }
    {
        for _ in 0..=MOST_NAMES {
            match self.next_folder() {
                Some(folder) => {
                    *last = folder;
                    self.look_into(system, alloc, open_folders, last.as_str())?;
                }
                None => return Ok(()),
            }
        }
        Err(FolderFault::Device(IoReason::TooManyNames))
    }

    /// The files that were found, in byte order, and the folders that were pruned.
    pub fn into_found(self) -> (Vec<PathText>, Vec<String>)
        ensures sorted { IsSorted (slice_cmp nat_cmp) result.0.items }
        ensures ignored { All (λ path. is_ignored path ≡ false) result.0.items }
        ensures all { IsPermutation self.entry.files.items result.0.items }
        ensures passed { result.1 ≡ self.entry.passed }
    {
        let mut files = self.files;
        files.sort_unstable();
        (files, self.passed)
    }
}

/// The paths of the regular files below this folder, in byte order. `last` becomes the folder that
/// was looked at last, where a listing that fails has failed.
pub fn list_below<S: DiskSystem>(
    system: &mut S,
    alloc: Global,
    open_folders: &mut OpenFolders,
    folder: &str,
    last: &mut String,
) -> Result<Vec<PathText>, FolderFault>
    ensures enters { EntersOnly S.System system.old system.new open_folders.old open_folders.new }
{
    let mut listing = Listing::new(alloc, &NoPruning);
    listing.take_folder(alloc, folder)?;
    listing.walk(system, alloc, open_folders, last)?;
    let (paths, _) = listing.into_found();
    Ok(paths)
}
