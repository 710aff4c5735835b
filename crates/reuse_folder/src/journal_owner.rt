//! Whose the journal of a tree is. What a journal lists is carried out: the next call writes files
//! of a pending step, and `undo` those of a step. So a journal of another user is not opened.
ghost use Rattle.std.specs.Prelude.{◌≡◌};
ghost use Rattle.reuse_folder.specs.JournalOwners.{is_of_other, is_journal_of_other};
ghost use Rattle.reuse_disk.specs.ReadsOnly.{EntersOnly};

use reuse_change::layout::{ABOVE_JOURNAL, HEAD_NAME, JOURNAL};
use reuse_disk::{DiskSystem, OpenFolders};
use reuse_system::fault::FolderFault;
use reuse_system::place::Found;
use reuse_system::system::System;
use std::alloc::Global;

/// The users to whom the folders of the journal and its head belong, as far as they are there.
#[derive(Clone, Copy)]
pub struct JournalOwners {
    /// Of the folder that the journal's folder lies in.
    pub above: Option<u32>,
    /// Of the journal's folder.
    pub folder: Option<u32>,
    /// Of the head.
    pub head: Option<u32>,
}

/// Whether what belongs to this owner, if it is there, belongs to another user.
fn is_of_other(user: u32, owner: Option<u32>) -> bool
    ensures { result ≡ is_of_other user owner }
{
    match owner {
        Some(owner) => owner != user,
        None => false,
    }
}

impl JournalOwners {
    /// Whether the journal is not this user's. Root is no exception.
    pub fn is_journal_of_other(self, user: u32) -> bool
        ensures { result ≡ is_journal_of_other user self }
    {
        is_of_other(user, self.above)
            || is_of_other(user, self.folder)
            || is_of_other(user, self.head)
    }
}

/// Whose the journal below the root of these open folders is. Nothing of it is read. What is opened
/// is what is looked at, and stays open.
pub fn journal_owners<S: DiskSystem>(
    system: &mut S,
    alloc: Global,
    open_folders: &mut OpenFolders,
) -> Result<JournalOwners, FolderFault>
    ensures enters { EntersOnly S.System system.old system.new open_folders.old open_folders.new }
{
    let above = folder_owner(system, alloc, open_folders, ABOVE_JOURNAL)?;
    let folder = folder_owner(system, alloc, open_folders, JOURNAL)?;
    let head = match folder {
        Some(_) => match open_folders.current()?.look(system.rt(), alloc, HEAD_NAME)? {
            Found::File(status) => Some(status.owner.user),
            _ => None,
        },
        None => None,
    };
    Ok(JournalOwners {
        above,
        folder,
        head,
    })
}

fn folder_owner<S: System>(
    system: &mut S,
    alloc: Global,
    open_folders: &mut OpenFolders,
    folder: &str,
) -> Result<Option<u32>, FolderFault>
    ensures enters { EntersOnly S.System system.old system.new open_folders.old open_folders.new }
{
    match open_folders.enter(system, alloc, folder)? {
        None => Ok(Some(open_folders.current()?.owner().user)),
        Some(_) => Ok(None),
    }
}
