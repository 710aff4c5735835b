//! Why going through changes stopped.
ghost use Rattle.std.specs.Prelude.{◌≡◌};
ghost use Rattle.reuse_store.specs.declared.cause.Cause.TheVariants.{Memory};

use crate::StoreFault;
use std::alloc::AllocError;
use thiserror::Error;

/// Why going through changes stopped, before all were made or rolled back.
#[derive(Clone, Copy, Debug, PartialEq, Eq, Error)]
pub enum Cause {
    /// The device failed.
    #[error("device fault")]
    Device,
    /// A path was a folder, or a part above it was a file.
    #[error("clash")]
    Clash,
    /// Memory ran out.
    #[error("out of memory")]
    Memory,
    /// A file that was read again had changed.
    #[error("moved")]
    Moved,
}

impl From<AllocError> for Cause {
    ghost from_gives = { λ _ cause. cause ≡ Memory };

    fn from(_: AllocError) -> Self {
        Cause::Memory
    }
}

impl From<StoreFault> for Cause {
    ghost use Rattle.reuse_store.specs.Apply.{cause_of};

    ghost from_gives = { λ fault cause. cause ≡ cause_of fault };

    fn from(fault: StoreFault) -> Self {
        match fault {
            StoreFault::Device => Cause::Device,
            StoreFault::Clash => Cause::Clash,
            StoreFault::Memory => Cause::Memory,
        }
    }
}
