//! Why a call failed.
ghost use Rattle.std.specs.Prelude.{◌≡◌, ◌↔◌, IfErr, IsOk, Some};
ghost use Rattle.reuse_print.specs.RefusalTexts.{fault_text};
ghost use Rattle.reuse_print.specs.declared.fault.Fault.TheVariants as faults;

use reuse_command::path_outcome::PathOutcomes;
use reuse_command::reply::Refusal;
use reuse_lock::LockFault;
use std::alloc::AllocError;
use std::error::Error;
use std::{fmt, io};

/// Why a call failed; its text is printed on standard error, but for that of a preview.
#[derive(Debug, Drop)]
pub enum Fault {
    /// The session refused.
    Refused(Refusal),
    /// A call of which a preview was asked for would be refused: each refusal is printed among
    /// the path outcomes.
    WouldRefuse(PathOutcomes),
    /// What would change can't be printed as a diff, since a file or the journal can't be read
    /// again.
    NoDiff(Refusal),
    /// Another run works on the tree. Nothing was read or written.
    InUse,
    /// The reply couldn't be written. What the call changed stands.
    Write,
    /// Memory ran out outside of the session's call. What the call changed stands.
    Memory,
}

impl fmt::Display for Fault {
    ghost output = { λ fault. Some (fault_text fault) };

    fn fmt<W: fmt::Write>(&self, f: &mut fmt::Formatter<W>) -> fmt::Result {
        match self {
            Fault::Refused(refusal) | Fault::NoDiff(refusal) => write!(f, "{refusal}"),
            Fault::WouldRefuse(_) => f.write_str("would be refused"),
            Fault::InUse => f.write_str("in use by another run"),
            Fault::Write => f.write_str("write fault"),
            Fault::Memory => f.write_str("out of memory"),
        }
    }
}

impl Error for Fault {}

impl From<AllocError> for Fault {
    ghost use Rattle.reuse_print.specs.declared.fault.Fault.TheVariants as faults;

    ghost from_gives = { λ error fault. fault ≡ faults.Memory };

    fn from(_: AllocError) -> Fault {
        Fault::Memory
    }
}

impl From<LockFault> for Fault {
    ghost use Rattle.reuse_print.specs.RefusalTexts.{fault_of_lock};

    ghost from_gives = { λ error fault. fault ≡ fault_of_lock error };

    fn from(fault: LockFault) -> Fault {
        match fault {
            LockFault::InUse => Fault::InUse,
            LockFault::Memory => Fault::Memory,
        }
    }
}

/// What is printed into memory fails for an allocation failure alone.
pub fn in_memory(printed: io::Result<()>) -> Result<(), Fault>
    ensures fault { IfErr result (λ fault. fault ≡ faults.Memory) }
    ensures done { IsOk result ↔ IsOk printed }
{
    match printed {
        Ok(()) => Ok(()),
        Err(_) => Err(Fault::Memory),
    }
}
