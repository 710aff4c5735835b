//! The locks that were asked for, which only contracts see.
ghost use Rattle.std.specs.Prelude.{List};
ghost use Rattle.std.specs.Borrow.{ftrue};
ghost use Rattle.reuse_lock.specs.LockCall.{LockCall};

use reuse_record::Record;
use std::marker::{Model, PhantomData};

/// How a folder is locked.
#[derive(Clone, Copy)]
pub enum LockMode {
    /// By one run alone.
    Exclusive,
    /// By any number of runs, none of them exclusively.
    Shared,
}

/// What the system answers that was asked for the lock on a folder.
#[derive(Clone, Copy)]
pub enum LockAnswer {
    Granted,
    /// Somebody else holds one that doesn't go with it.
    HeldByAnother,
    /// There is none to be had, as on a file system without locks.
    NoLocks,
    /// The folder can't be opened, so no lock on it was asked for.
    NotOpened,
}

/// The calls with their answers, the newest first, as a ghost list.
pub struct LockCalls {
    marker: PhantomData<u8>,
    pub ghost calls: { List LockCall },
}

impl Model for LockCalls {
    ghost also_owns = { λ _. ftrue };
}

pub type LockRecord = Record<LockCalls>;
