//! The system itself. Each method makes the one call that it notes: that it does is not proved, and
//! has to be read here.
ghost use Rattle.std.specs.Prelude.{◌≡◌, ◌≢◌, IfOk};
ghost use Rattle.reuse_system.specs.TempFiles.{name_in, place_of};
ghost use Rattle.reuse_system.specs.SystemCall.{made_of};

use crate::fault::FolderFault;
use crate::file_reading::read_file;
use crate::handle::{Below, OpenFolder, Start};
use crate::place::{FileStatus, Found};
use crate::process::ProcessIds;
use crate::system::make_file::make_file;
use crate::system::open_file::open_file;
use crate::system::record::{CallKind, SystemRecord};
use crate::system::{OpenedFile, System, TempFile};
use reuse_store::Reading;
use std::alloc::Global;
use std::fs::{self, File};
use std::io::{self, ErrorKind, Write};
use std::rt::Files;

/// The system that the program runs on. The folders and the files that names lead to are those of
/// its record: those of the start, which no code knows, as the calls have left them. So the
/// contract holds for whatever folders and files there were.
#[derive(Drop)]
pub struct HostSystem<R: Files<File = File> + AllocGlobal + Drop> {
    rt: R,
    /// How many files were to be made.
    made: u64,
    noted: SystemRecord,
    ghost counted: { made ≡ made_of noted.calls },
}

impl<R: Files<File = File> + AllocGlobal + Drop> HostSystem<R> {
    ghost use Rattle.reuse_system.specs.SystemCalls.{SystemStart, folders_of, held_at_start};

    /// The system, of which nothing is asked yet.
    pub fn new(rt: R) -> HostSystem<R>
        ghost start: { SystemStart }
        ensures files { ⟦<HostSystem<R> as System>⟧.holds result ≡ held_at_start start.files }
        ensures folders { ⟦<HostSystem<R> as System>⟧.folders result ≡ folders_of start.folders }
    {
        HostSystem {
            rt,
            made: 0,
            noted: SystemRecord::new(),
        }
    }

    /// For the calls that change no regular file.
    pub fn rt(&self) -> &R {
        &self.rt
    }
}

fn append_to(file: &File, bytes: &[u8]) -> io::Result<()> {
    let mut out = file;
    out.write_all(bytes)
}

fn rename_to<R: Files<File = File> + AllocGlobal>(
    rt: &R,
    temp_file: &TempFile,
    folder: &OpenFolder,
    name: &str,
) -> io::Result<()> {
    let path = folder.path_of(rt.alloc(), name)?;
    fs::rename(rt, temp_file.path.as_str(), path.as_str())
}

/// Links the temporary file to this name, which is another one than its own.
fn link_to<R: Files<File = File> + AllocGlobal>(
    rt: &R,
    temp_file: &TempFile,
    folder: &OpenFolder,
    name: &str,
) -> io::Result<()>
    ensures { IfOk result (λ _. place_of temp_file.now ≢ name_in folder.now name.now) }
{
    if temp_file.folder == folder.identity() && temp_file.name.as_str() == name {
        return Err(ErrorKind::AlreadyExists.into());
    }
    let path = folder.path_of(rt.alloc(), name)?;
    fs::hard_link(rt, temp_file.path.as_str(), path.as_str())
}

fn remove_in<R: Files<File = File> + AllocGlobal>(
    rt: &R,
    folder: &OpenFolder,
    name: &str,
) -> io::Result<()> {
    let path = folder.path_of(rt.alloc(), name)?;
    fs::remove_file(rt, path.as_str())
}

fn make_folder_in<R: Files<File = File> + AllocGlobal>(
    rt: &R,
    above: &OpenFolder,
    name: &str,
) -> io::Result<()> {
    let path = above.path_of(rt.alloc(), name)?;
    fs::create_dir(rt, path.as_str())
}

fn remove_folder_in<R: Files<File = File> + AllocGlobal>(
    rt: &R,
    above: &OpenFolder,
    name: &str,
) -> io::Result<()> {
    let path = above.path_of(rt.alloc(), name)?;
    fs::remove_dir(rt, path.as_str())
}

impl<R: Files<File = File> + AllocGlobal + Drop> System for HostSystem<R> {
    ghost use Rattle.reuse_system.specs.SystemCalls.{changes_of, folders_after, held_after, looked_of, synced_of};
    ghost use Rattle.reuse_system.specs.SystemCalls.{names_form_a_tree, IsHonest};

    ghost holds = { λ system. held_after system.noted.files system.noted.effects system.noted.calls };

    ghost folders = { λ system. folders_after system.noted.folders system.noted.effects system.noted.calls };

    ghost looked = { λ system. looked_of system.noted.calls };

    ghost changes = { λ system. changes_of system.noted.calls };

    ghost synced = { λ system. synced_of system.noted.calls };

    ghost honest = { λ system.
        IsHonest system.noted.folders system.noted.files system.noted.effects system.noted.calls };

    fn make(&mut self, folder: &OpenFolder, name: &str, mode: Option<u32>) -> io::Result<TempFile> {
        let number = self.made;
        let Some(made) = number.checked_add(1) else {
            return Err(ErrorKind::Other.into());
        };
        let answer = make_file(&self.rt, folder, name, mode, number);
        let kind = CallKind::Make(folder.identity(), answer.is_ok());
        self.noted.note(&kind, name.as_bytes(), b"");
        self.made = made;
        answer
    }

    fn append(&mut self, temp_file: &TempFile, bytes: &[u8]) -> io::Result<()> {
        let answer = append_to(&temp_file.file, bytes);
        let kind = CallKind::Append(temp_file.number, answer.is_ok());
        self.noted.note(&kind, bytes, b"");
        answer
    }

    fn sync_data(&mut self, temp_file: &TempFile) -> io::Result<()> {
        let answer = temp_file.file.sync_data();
        let kind = CallKind::Sync(temp_file.number, answer.is_ok());
        self.noted.note(&kind, b"", b"");
        answer
    }

    fn rename(&mut self, temp_file: &TempFile, folder: &OpenFolder, name: &str) -> io::Result<()> {
        let answer = rename_to(&self.rt, temp_file, folder, name);
        let kind = CallKind::Rename(
            temp_file.folder,
            folder.identity(),
            temp_file.status,
            answer.is_ok(),
        );
        self.noted
            .note(&kind, temp_file.name.as_bytes(), name.as_bytes());
        answer
    }

    fn link(&mut self, temp_file: &TempFile, folder: &OpenFolder, name: &str) -> io::Result<()> {
        let answer = link_to(&self.rt, temp_file, folder, name);
        let kind = CallKind::Link(
            temp_file.folder,
            folder.identity(),
            temp_file.status,
            answer.is_ok(),
        );
        self.noted
            .note(&kind, temp_file.name.as_bytes(), name.as_bytes());
        answer
    }

    fn discard(&mut self, temp_file: &TempFile) -> io::Result<()> {
        let answer = fs::remove_file(&self.rt, temp_file.path.as_str());
        let kind = CallKind::Remove(temp_file.folder, answer.is_ok());
        self.noted.note(&kind, temp_file.name.as_bytes(), b"");
        answer
    }

    fn remove(&mut self, folder: &OpenFolder, name: &str) -> io::Result<()> {
        let answer = remove_in(&self.rt, folder, name);
        let kind = CallKind::Remove(folder.identity(), answer.is_ok());
        self.noted.note(&kind, name.as_bytes(), b"");
        answer
    }

    fn sync_folder(&mut self, folder: &OpenFolder) -> Result<(), FolderFault> {
        let answer = folder.sync();
        let kind = CallKind::SyncFolder(folder.identity(), answer.is_ok());
        self.noted.note(&kind, b"", b"");
        answer
    }

    fn make_folder(&mut self, above: &OpenFolder, name: &str) -> io::Result<()> {
        let answer = make_folder_in(&self.rt, above, name);
        let kind = CallKind::MakeFolder(above.identity(), answer.is_ok());
        self.noted.note(&kind, name.as_bytes(), b"");
        answer
    }

    fn remove_folder(&mut self, above: &OpenFolder, name: &str) -> io::Result<()> {
        let answer = remove_folder_in(&self.rt, above, name);
        let kind = CallKind::RemoveFolder(above.identity(), answer.is_ok());
        self.noted.note(&kind, name.as_bytes(), b"");
        answer
    }

    fn open_root(
        &mut self,
        alloc: Global,
        path: &str,
        process: ProcessIds,
        start: Start,
    ) -> Result<OpenFolder, FolderFault> {
        let answer = OpenFolder::root(&self.rt, alloc, path, process, start);
        if let Ok(root) = &answer {
            self.noted.note(&CallKind::Root(root.identity()), b"", b"");
        }
        answer
    }

    fn open_below(
        &mut self,
        alloc: Global,
        above: &OpenFolder,
        name: &str,
    ) -> Result<Below, FolderFault> {
        let answer = above.open_below(&self.rt, alloc, name);
        let kind = match &answer {
            Ok(Below::Folder(folder)) => CallKind::Open(above.identity(), folder.identity()),
            Ok(Below::Other(found)) => CallKind::NoFolder(above.identity(), *found),
            Err(_) => return answer,
        };
        self.noted.note(&kind, name.as_bytes(), b"");
        answer
    }

    fn look(&mut self, folder: &OpenFolder, name: &str) -> Result<Found, FolderFault> {
        let answer = folder.look(&self.rt, self.rt.alloc(), name);
        let kind = CallKind::Look(folder.identity(), answer);
        self.noted.note(&kind, name.as_bytes(), b"");
        answer
    }

    fn open(
        &self,
        folder: &OpenFolder,
        name: &str,
        seen: FileStatus,
    ) -> Result<Option<OpenedFile>, FolderFault> {
        open_file(&self.rt, folder, name, seen)
    }

    fn read(
        &mut self,
        alloc: Global,
        opened: OpenedFile,
        said: u64,
        limit: usize,
    ) -> Result<Reading, FolderFault> {
        let OpenedFile { file, folder, name } = opened;
        let answer = read_file(file, alloc, said, limit);
        self.noted
            .note_read(folder, name.as_str(), said, limit, &answer);
        answer
    }

    ghost is_tree = { λ system.
        names_form_a_tree system.noted.folders system.noted.files system.noted.effects system.noted.calls };
}
