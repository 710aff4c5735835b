//! The system of a folder as a store: beside the calls of `System`, it has a runtime for those that
//! change no regular file, such as a listing.
use reuse_system::system::{HostSystem, System};
use std::fs::File;
use std::rt::Files;

/// A system that has a runtime beside its calls.
pub trait DiskSystem: System {
    /// What gives files to the process.
    type Runtime: Files<File = File> + AllocGlobal + Clone + Drop;

    /// For calls that change no regular file.
    fn rt(&self) -> &Self::Runtime;
}

impl<R: Files<File = File> + AllocGlobal + Clone + Drop> DiskSystem for HostSystem<R> {
    type Runtime = R;

    fn rt(&self) -> &R {
        HostSystem::rt(self)
    }
}
