//! What stands at a path below a root. No link is followed.
ghost use Rattle.std.specs.Prelude.{◌≡◌, ◌↔◌, ℕ, List, IsTrue, length, nat_lt};
ghost use Rattle.std.specs.Duration.{as_nanos};
ghost use Rattle.std.specs.Fs.{IsFile, file_type, metadata_len, metadata_mode};
ghost use Rattle.reuse_system.specs.TempFiles.{is_elsewhere};
ghost use Rattle.reuse_system.specs.Owners.{kept_bits, rights_of_mode};
ghost use Rattle.reuse_system.specs.Stamps.{is_settled, is_settled_stamp};
ghost use Rattle.reuse_system.specs.Names.{IsNameOf, IsSplit};

use crate::fault::FolderFault;
use crate::owner::{Owner, Rights};
use std::fs::{self, Metadata};
use std::io::ErrorKind;
use std::os::unix::fs::{MetadataExt, PermissionsExt};
use std::rt::Files;
use std::time::Duration;

/// The bits of a file's mode that a rewritten file keeps: who may read, write and run it.
const KEPT_BITS: u32 = 0o777;

/// The most bytes that a name can have on Linux.
const LONGEST_NAME: usize = 255;

/// A device, and a number on it: no two files or folders have both.
#[derive(Clone, Copy, PartialEq, Eq)]
pub struct Identity {
    device: u64,
    number: u64,
}

impl Identity {
    /// That of the file or folder of which the system reports this.
    pub fn of(metadata: &Metadata) -> Identity {
        Identity {
            device: metadata.dev(),
            number: metadata.ino(),
        }
    }

    /// The number on the device.
    pub(crate) fn number(self) -> u64
        ensures { result ≡ self.number }
    {
        self.number
    }

    /// Whether the other one lies on another device.
    pub fn is_elsewhere(self, other: Identity) -> bool
        ensures { result ≡ is_elsewhere self other }
    {
        self.device != other.device
    }

    /// Whether the file or folder of this identity is found at this path.
    pub fn is_at(self, rt: &impl Files, path: &str) -> bool {
        match fs::metadata(rt, path) {
            Ok(metadata) => Identity::of(&metadata) == self,
            Err(_) => false,
        }
    }
}

impl Owner {
    /// That of the file or folder of which the system reports this.
    pub fn of(metadata: &Metadata) -> Owner {
        Owner {
            user: metadata.uid(),
            group: metadata.gid(),
        }
    }
}

/// When something was done with a file, as the system reports it.
#[derive(Clone, Copy, PartialEq, Eq)]
struct Stamp {
    seconds: i64,
    nanos: i64,
}

/// How many nanoseconds the system's stamps may lie behind its clock: it takes them at its ticks.
const TICKS: u128 = 50_000_000;

/// The same of a file system whose stamps are of whole seconds, or of two.
const WHOLE_SECONDS: u128 = 3_000_000_000;

const NANOS_OF_SECOND: u128 = 1_000_000_000;

impl Stamp {
    /// Whether what is done at this time since 1970 or later has another stamp.
    fn is_settled_at(&self, since: Duration) -> bool
        ensures { result ≡ is_settled_stamp self.now (as_nanos since) }
    {
        let (Ok(seconds), Ok(nanos)) = (u64::try_from(self.seconds), u64::try_from(self.nanos))
        else {
            return false;
        };
        let behind = if nanos == 0 { WHOLE_SECONDS } else { TICKS };
        seconds as u128 * NANOS_OF_SECOND + nanos as u128 + behind < since.as_nanos()
    }
}

/// Which file it is, how long, and when it was written and changed last. As long as these stay, so
/// do its bytes.
#[derive(Clone, Copy, PartialEq, Eq)]
pub struct FileVersion {
    identity: Identity,
    len: u64,
    written: Stamp,
    changed: Stamp,
}

impl FileVersion {
    fn of(metadata: &Metadata) -> FileVersion
        ensures { result.len ≡ metadata_len metadata.now }
    {
        FileVersion {
            identity: Identity::of(metadata),
            len: metadata.len(),
            written: Stamp {
                seconds: metadata.mtime(),
                nanos: metadata.mtime_nsec(),
            },
            changed: Stamp {
                seconds: metadata.ctime(),
                nanos: metadata.ctime_nsec(),
            },
        }
    }

    /// Whether a file that is changed at this time since 1970 or later has another version.
    pub fn is_settled_at(&self, since: Duration) -> bool
        ensures { result ≡ is_settled self.now (as_nanos since) }
    {
        self.written.is_settled_at(since) && self.changed.is_settled_at(since)
    }
}

/// What the system reports of a regular file.
#[derive(Clone, Copy)]
pub struct FileStatus {
    /// How many bytes it has.
    pub len: u64,
    /// The bits of its mode that a rewritten file keeps.
    pub mode: u32,
    /// Whose it is.
    pub owner: Owner,
    /// How many names it has.
    pub links: u64,
    version: FileVersion,
}

impl FileStatus {
    /// What the system reports here.
    pub fn of(metadata: &Metadata) -> FileStatus
        ensures len { result.len ≡ metadata_len metadata.now }
        ensures mode { result.mode ≡ kept_bits (metadata_mode metadata.now) }
        ensures version { result.version.len ≡ result.len }
    {
        FileStatus {
            len: metadata.len(),
            mode: kept_bits(metadata),
            owner: Owner::of(metadata),
            links: metadata.nlink(),
            version: FileVersion::of(metadata),
        }
    }

    /// What its owner, its group and all others may do with it.
    pub fn rights(&self) -> Rights
        ensures { result ≡ rights_of_mode self.now.mode }
    {
        Rights::of_mode(self.mode)
    }

    /// Whether the system reports this of the same regular file.
    pub fn is_of(&self, metadata: &Metadata) -> bool
        ensures { IsTrue result → IsFile (file_type metadata.now) }
    {
        metadata.is_file() && Identity::of(metadata) == self.version.identity
    }

    /// Whether the system reports this of the same file with the same bytes.
    pub fn is_same(&self, other: &FileStatus) -> bool
        ensures { IsTrue result ↔ (self.now.version ≡ other.now.version) }
    {
        self.version == other.version
    }

    /// Which file it is, and which bytes it has.
    pub fn version(&self) -> FileVersion
        ensures { result ≡ self.now.version }
    {
        self.version
    }
}

/// The bits of a file's mode that a rewritten file keeps.
pub fn kept_bits(metadata: &Metadata) -> u32
    ensures { result ≡ kept_bits (metadata_mode metadata.now) }
{
    metadata.permissions().mode() & KEPT_BITS
}

/// What stands at a path whose folders are all there.
#[derive(Clone, Copy)]
pub enum Found {
    /// Nothing.
    Nothing,
    /// A regular file.
    File(FileStatus),
    /// A folder.
    Folder(Identity),
    /// A link, a device or a pipe.
    Other,
}

/// What a path is, with the parts above it.
#[derive(Drop)]
pub enum Place {
    /// Nothing; folders above it may be missing too.
    Nothing,
    /// Nothing, since a part above the path is a regular file.
    BelowFile,
    /// A regular file.
    File(FileStatus),
    /// A folder.
    Folder,
    /// A link, a device or a pipe stands there or above it.
    Other,
}

impl Found {
    ghost use Rattle.reuse_system.specs.FolderPlaces.{place_of_found, place_below};

    /// What a path is at which this stands.
    pub fn into_place(self) -> Place
        ensures { result ≡ place_of_found self }
    {
        match self {
            Found::Nothing => Place::Nothing,
            Found::File(status) => Place::File(status),
            Found::Folder(_) => Place::Folder,
            Found::Other => Place::Other,
        }
    }

    /// What a path is that lies below one at which this stands.
    pub fn into_place_below(self) -> Place
        ensures { result ≡ place_below self }
    {
        match self {
            Found::Nothing | Found::Folder(_) => Place::Nothing,
            Found::File(_) => Place::BelowFile,
            Found::Other => Place::Other,
        }
    }
}

/// The folder that the path lies in, which is empty for the root, and the name there.
pub fn folder_and_name(path: &str) -> (&str, &str)
    ensures name { IsNameOf path.now result.1.now }
    ensures split { IsSplit path.now result.0.now result.1.now }
{
    path.rsplit_once('/').unwrap_or(("", path))
}

/// Whether a name is longer than any can be.
pub fn is_long_name(name: &str) -> bool
    ensures { result ≡ nat_lt 255 (length name.now) }
{
    name.len() > LONGEST_NAME
}

/// Whether the name at the end of the path is longer than any can be.
pub fn ends_in_long_name(path: &str) -> bool
    ensures { (name : List ℕ) × IsNameOf path.now name × (result ≡ nat_lt 255 (length name)) }
{
    let (_, name) = folder_and_name(path);
    is_long_name(name)
}

/// What stands at this place, as the system takes it.
pub fn look_at(rt: &impl Files, path: &str) -> Result<Found, FolderFault> {
    match fs::symlink_metadata(rt, path) {
        Ok(metadata) if metadata.is_file() => Ok(Found::File(FileStatus::of(&metadata))),
        Ok(metadata) if metadata.is_dir() => Ok(Found::Folder(Identity::of(&metadata))),
        Ok(_) => Ok(Found::Other),
        Err(error) if error.kind() == ErrorKind::NotFound => Ok(Found::Nothing),
        Err(error) => Err(error.into()),
    }
}
