//! Why a call on a folder fails.
ghost use Rattle.std.specs.Prelude.{◌≡◌};
ghost use Rattle.reuse_system.specs.FolderFault.{fault_of_system, fault_of_path, fault_of_store};
ghost use Rattle.reuse_system.specs.declared.fault.FolderFault.TheVariants.{Memory};

use reuse_change::PathError;
use reuse_store::StoreFault;
use std::alloc::AllocError;
use std::io::{self, ErrorKind};
use thiserror::Error;

/// What keeps a folder from doing what it is asked.
#[derive(Clone, Copy, Debug, Error)]
pub enum IoReason {
    /// The system refused a call.
    #[error("{0}")]
    System(io::Error),
    /// The root is no folder.
    #[error("the root is no folder")]
    NoRoot,
    /// Something that is no part of a tree stands there.
    #[error("a link, a device or version control stands there")]
    Foreign,
    /// A name makes no path.
    #[error("a name there makes no path")]
    BadName,
    /// There are more names than a listing takes.
    #[error("too many names")]
    TooManyNames,
    /// Other files took the place of the one that was looked at.
    #[error("another program changes it")]
    Changing,
    /// A file can't be written anew and keep its owner.
    #[error("it can't keep its owner")]
    Owned,
}

/// Why a call on a folder failed.
#[derive(Clone, Copy, Debug, Error)]
pub enum FolderFault {
    /// The system refused a call, or what stands there is nothing that a store may hold.
    #[error("{0}")]
    Device(IoReason),
    /// The path is a folder with files in it, or a part above it is a file.
    #[error("a folder with files stands there, or a file above")]
    Clash,
    /// Memory ran out.
    #[error("out of memory")]
    Memory,
}

impl From<io::Error> for FolderFault {
    ghost from_gives = { λ error fault. fault ≡ fault_of_system error };

    fn from(error: io::Error) -> FolderFault {
        if error.kind() == ErrorKind::OutOfMemory {
            FolderFault::Memory
        } else {
            FolderFault::Device(IoReason::System(error))
        }
    }
}

impl From<AllocError> for FolderFault {
    ghost from_gives = { λ _ fault. fault ≡ Memory };

    fn from(_: AllocError) -> FolderFault {
        FolderFault::Memory
    }
}

/// A name that makes no path, as one that is too long, is a fault of the folder.
impl From<PathError> for FolderFault {
    ghost from_gives = { λ error fault. fault ≡ fault_of_path error };

    fn from(error: PathError) -> FolderFault {
        match error {
            PathError::BadPath => FolderFault::Device(IoReason::BadName),
            PathError::Memory => FolderFault::Memory,
        }
    }
}

impl From<FolderFault> for StoreFault {
    ghost from_gives = { λ fault of_store. of_store ≡ fault_of_store fault };

    fn from(fault: FolderFault) -> StoreFault {
        match fault {
            FolderFault::Device(_) => StoreFault::Device,
            FolderFault::Clash => StoreFault::Clash,
            FolderFault::Memory => StoreFault::Memory,
        }
    }
}
