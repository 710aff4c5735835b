//! Why a text of the journal was not read.
ghost use Rattle.std.specs.Prelude.{◌≡◌};
ghost use Rattle.reuse_json.specs.declared.fault.DecodeFault.TheVariants.{Memory, NotGood};

use json::Invalid;
use std::alloc::{AllocError, AllocFailed};
use thiserror::Error;

/// Why a journal text was not decoded.
#[derive(Clone, Copy, Debug, PartialEq, Eq, Error)]
pub enum DecodeFault {
    /// No head or entry has this text.
    #[error("not a good journal text")]
    NotGood,
    /// Memory ran out.
    #[error("out of memory")]
    Memory,
}

impl From<AllocError> for DecodeFault {
    ghost from_gives = { λ _ e. e ≡ Memory };

    fn from(_error: AllocError) -> DecodeFault {
        DecodeFault::Memory
    }
}

impl<T: Drop> From<AllocFailed<T>> for DecodeFault {
    ghost from_gives = { λ _ e. e ≡ Memory };

    fn from(_error: AllocFailed<T>) -> DecodeFault {
        DecodeFault::Memory
    }
}

impl From<Invalid> for DecodeFault {
    ghost from_gives = { λ _ e. e ≡ NotGood };

    fn from(_error: Invalid) -> DecodeFault {
        DecodeFault::NotGood
    }
}
