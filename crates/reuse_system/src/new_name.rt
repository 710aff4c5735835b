//! Names of new files: in the journal's folder, or beside the files that they are to be.
ghost use Rattle.std.specs.Prelude.{◌≡◌, IfOk, IsTrue, MatchOption, false, string_bytes, true};
ghost use Rattle.reuse_system.specs.TempFiles.{beside_name, new_name};
ghost use Rattle.reuse_system.specs.Ignored.{is_new_name};

use crate::fault::FolderFault;
use crate::handle::OpenFolder;
use crate::ignored::is_new_name;
use crate::place::Identity;
use reuse_change::layout::{NEW, NEW_BESIDE};
use std::alloc::{AllocError, Global};
use std::fs::{self, File};
use std::rt::Files;

/// The name of a new file.
#[derive(Drop)]
pub struct NewName {
    name: String,
    ghost is_new: { is_new_name (string_bytes name) ≡ true },
}

impl NewName {
    /// This name, if it is one of a new file.
    fn of(alloc: Global, name: &str) -> Result<Option<NewName>, AllocError>
        ensures { IfOk result (λ new. MatchOption new (is_new_name name.now ≡ false)
            (λ new. string_bytes new.name ≡ name.now)) }
    {
        if !is_new_name(name) {
            return Ok(None);
        }
        let name = String::from_str(alloc, name)?;
        Ok(Some(NewName { name }))
    }

    /// That of the file of this number.
    pub fn of_number(alloc: Global, number: usize) -> Result<NewName, AllocError>
        ensures { IfOk result (λ new. string_bytes new.name ≡ new_name number) }
    {
        let name = if number == 0 {
            String::from_str(alloc, NEW)?
        } else {
            format!(in alloc; "{NEW}.{number}")?
        };
        Ok(NewName { name })
    }

    pub fn as_str(&self) -> &str
        ensures value { result.now ≡ string_bytes self.now.name }
        ensures is_new { IsTrue (is_new_name result.now) }
    {
        self.name.as_str()
    }
}

/// The name of a file that is written beside the one that it is to be, if this is the folder of new
/// files: no run with another journal takes it, and nobody else would.
pub fn beside_name(alloc: Global, new_files: Identity) -> Result<String, AllocError>
    ensures { IfOk result (λ name. string_bytes name ≡ beside_name new_files) }
{
    let number = new_files.number();
    Ok(format!(in alloc; "{NEW_BESIDE}.{number}")?)
}

/// The names of the new files that a stopped run has left in this folder.
pub fn new_names<R: Files<File = File> + AllocGlobal + Clone + Drop>(
    rt: &R,
    alloc: Global,
    folder: &OpenFolder,
) -> Result<Vec<NewName>, FolderFault> {
    let mut names = Vec::new(alloc);
    for entry in fs::read_dir(rt, folder.path())? {
        let entry = entry?;
        if let Some(name) = NewName::of(alloc, entry.file_name())?
            && entry.file_type()?.is_file()
        {
            names.push(name).map_err(AllocError::from)?;
        }
    }
    Ok(names)
}
