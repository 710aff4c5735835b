//! What a store answers where a call fails.
ghost use Rattle.std.specs.Prelude.{◌≡◌};
ghost use Rattle.reuse_store.specs.declared.fault.StoreFault.TheVariants.{Memory};

use std::alloc::AllocError;
use thiserror::Error;

/// Why a call of a store failed.
#[derive(Clone, Copy, Debug, PartialEq, Eq, Error)]
pub enum StoreFault {
    /// The device failed.
    #[error("device fault")]
    Device,
    /// The path is a folder, or a part above it is a file.
    #[error("clash")]
    Clash,
    /// Memory ran out.
    #[error("out of memory")]
    Memory,
}

impl From<AllocError> for StoreFault {
    ghost from_gives = { λ _ fault. fault ≡ Memory };

    fn from(_: AllocError) -> Self {
        StoreFault::Memory
    }
}
