//! What the last call of a store that failed was.
ghost use Rattle.std.specs.Prelude.{◌≡◌, ◌↔◌, IsTrue, None};
ghost use Rattle.reuse_system.specs.declared.fault.FolderFault.TheVariants.{Device};

use reuse_store::StoreRequest;
use reuse_system::fault::{FolderFault, IoReason};
use std::alloc::Global;
use std::fmt;

/// A call that failed: what it asked for, at which path, and why it failed.
#[derive(Drop)]
pub struct Failure {
    asked: StoreRequest,
    /// Empty for the root.
    path: String,
    fault: FolderFault,
}

impl Failure {
    /// Whether it failed since another program had changed what stands there.
    pub fn is_change(&self) -> bool
        ensures { IsTrue result ↔ (self.now.fault ≡ Device IoReason.Changing) }
    {
        matches!(self.fault, FolderFault::Device(IoReason::Changing))
    }

    /// Whether it failed since something stands there that is neither a file nor a folder.
    pub fn is_foreign(&self) -> bool
        ensures { IsTrue result ↔ (self.now.fault ≡ Device IoReason.Foreign) }
    {
        matches!(self.fault, FolderFault::Device(IoReason::Foreign))
    }
}

impl fmt::Display for Failure {
    fn fmt<W: fmt::Write>(&self, f: &mut fmt::Formatter<W>) -> fmt::Result {
        let asked = match self.asked {
            StoreRequest::List => "list",
            StoreRequest::Read => "read",
            StoreRequest::Write => "write",
            StoreRequest::Remove => "remove",
            StoreRequest::Sync => "sync",
        };
        let path = self.path.as_str();
        let place = if path.is_empty() { "." } else { path };
        write!(f, "can't {asked} {place}: {}", self.fault)
    }
}

/// The last call that failed, if one did.
#[derive(Drop)]
pub struct LastFailure {
    failure: Option<Failure>,
}

impl LastFailure {
    /// None has failed.
    pub fn none() -> LastFailure
        ensures { result.failure ≡ None }
    {
        LastFailure { failure: None }
    }

    /// Remembers the call if it failed. For an allocation failure that may be left out.
    pub fn note<T>(
        &mut self,
        alloc: Global,
        asked: StoreRequest,
        path: &str,
        answer: &Result<T, FolderFault>,
    ) {
        if let Err(fault) = answer
            && let Ok(path) = String::from_str(alloc, path)
        {
            self.failure = Some(Failure {
                asked,
                path,
                fault: *fault,
            });
        }
    }

    /// The call that failed, which is forgotten here.
    pub fn take(&mut self) -> Option<Failure>
        ensures failure { result ≡ self.old.failure }
        ensures forgotten { self.new.failure ≡ None }
    {
        self.failure.take()
    }
}
