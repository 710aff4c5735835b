//! Why a root can't be locked.
ghost use Rattle.std.specs.Prelude.{◌≡◌};

use std::alloc::AllocError;
use thiserror::Error;

/// Why a root can't be locked.
#[derive(Clone, Copy, Debug, PartialEq, Eq, Error)]
pub enum LockFault {
    /// Another run holds a lock that doesn't go with this one.
    #[error("in use by another run")]
    InUse,
    /// Memory ran out.
    #[error("out of memory")]
    Memory,
}

impl From<AllocError> for LockFault {
    ghost use Rattle.reuse_lock.specs.declared.fault.LockFault.TheVariants as faults;

    ghost from_gives = { λ error fault. fault ≡ faults.Memory };

    fn from(_: AllocError) -> LockFault {
        LockFault::Memory
    }
}
