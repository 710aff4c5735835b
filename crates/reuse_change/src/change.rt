//! A change of one file, and its inverse.
ghost use Rattle.std.specs.Prelude.{◌≡◌, ◌↔◌, ℕ, List, IfOk, IsTrue, length};
ghost use Rattle.std.specs.Option.{option_copied, option_map};
ghost use Rattle.reuse_text.specs.Text.{spliced};
ghost use Rattle.reuse_change.specs.Digest.{IsDigestOf, IsSealOf, NothingHas, swapped};
ghost use Rattle.reuse_change.specs.Change.{HoldsPart, IsBefore};
ghost use Rattle.reuse_change.specs.Entry.{HasOwnDigest};

use crate::file_range::{holds_part, is_file, spliced};
use crate::{Digest, PathText, Seal};
use reuse_text::Bytes;
use std::alloc::{AllocError, Global};

/// Where a file stands to a change.
#[derive(Clone, Copy, Debug, PartialEq, Eq)]
pub enum ChangeState {
    /// The change can be made.
    Before,
    /// The change has been made.
    After,
    /// Neither.
    Neither,
}

/// A change of the file at one path. Where it is sealed it holds the digest of the whole file
/// before it and after it.
#[derive(Debug, Drop)]
pub enum Change {
    /// The file is made.
    Make {
        path: PathText,
        new: Bytes,
        after: Option<Digest>,
    },
    /// The file is removed.
    Drop {
        path: PathText,
        old: Bytes,
        before: Option<Digest>,
    },
    /// The bytes `old` at `at` give way to `new`; `rest` bytes follow them.
    Splice {
        path: PathText,
        at: usize,
        old: Bytes,
        new: Bytes,
        rest: usize,
        seal: Option<Seal>,
    },
}

impl Change {
    ghost use Rattle.reuse_change.specs.Change.{path_of, inverse_of, is_sealed, sealed_make, sealed_drop};
    ghost use Rattle.reuse_change.specs.Change.{sealed_splice, IsProper, IsAfter, IsBeforeByRange, IsAfterByRange};
    ghost use Rattle.reuse_change.specs.Change.{Records, Applies};

    /// A file made of these bytes, sealed.
    pub fn sealed_make(path: PathText, new: Bytes) -> Change
        ensures { result ≡ sealed_make path new }
    {
        let after = Digest::of(new.as_slice());
        Change::Make {
            path,
            new,
            after: Some(after),
        }
    }

    /// A file of these bytes removed, sealed.
    pub fn sealed_drop(path: PathText, old: Bytes) -> Change
        ensures { result ≡ sealed_drop path old }
    {
        let before = Digest::of(old.as_slice());
        Change::Drop {
            path,
            old,
            before: Some(before),
        }
    }

    /// The bytes `old` of this file, which stand at `at`, give way to `new`, sealed.
    pub fn sealed_splice(path: PathText, file: &[u8], at: usize, old: Bytes, new: Bytes) -> Change
        ensures change { result ≡ sealed_splice path file.now at old new }
        ensures applies { (rest : ℕ) → HoldsPart (Some file.now) old at rest
            → Applies result (Some file.now) (Some (spliced file.now at (length old) new)) }
    {
        let seal = Seal::of(file, at, old.len(), new.as_slice());
        let rest = file.len().saturating_sub(at).saturating_sub(old.len());
        Change::splice(path, at, old, new, rest, Some(seal))
    }

    /// The bytes `old` at `at` give way to `new`; `rest` bytes follow them.
    pub fn splice(
        path: PathText,
        at: usize,
        old: Bytes,
        new: Bytes,
        rest: usize,
        seal: Option<Seal>,
    ) -> Change
        ensures { result ≡ Change.Splice path at old new rest seal }
    {
        Change::Splice {
            path,
            at,
            old,
            new,
            rest,
            seal,
        }
    }

    /// Lends the path that the change is of.
    pub fn path(&self) -> &PathText
        ensures { result.now ≡ path_of self.now }
    {
        match self {
            Change::Make { path, .. } => path,
            Change::Drop { path, .. } => path,
            Change::Splice { path, .. } => path,
        }
    }

    /// Whether the digests of its files are recorded.
    pub fn is_sealed(&self) -> bool
        ensures { result ≡ is_sealed self.now }
    {
        match self {
            Change::Make { after, .. } => after.is_some(),
            Change::Drop { before, .. } => before.is_some(),
            Change::Splice { seal, .. } => seal.is_some(),
        }
    }

    /// A copy.
    pub fn try_clone(&self, alloc: Global) -> Result<Change, AllocError>
        ensures { IfOk result (λ change. change ≡ self.now) }
    {
        match self {
            Change::Make { path, new, after } => Ok(Change::Make {
                path: path.try_clone(alloc)?,
                new: new.try_clone(alloc)?,
                after: *after,
            }),
            Change::Drop { path, old, before } => Ok(Change::Drop {
                path: path.try_clone(alloc)?,
                old: old.try_clone(alloc)?,
                before: *before,
            }),
            Change::Splice {
                path,
                at,
                old,
                new,
                rest,
                seal,
            } => {
                let path = path.try_clone(alloc)?;
                let old = old.try_clone(alloc)?;
                let new = new.try_clone(alloc)?;
                Ok(Change::splice(path, *at, old, new, *rest, *seal))
            }
        }
    }

    /// The change that leads back.
    pub fn inverse(self) -> Change
        ensures { result ≡ inverse_of self }
    {
        match self {
            Change::Make {
                path,
                new: old,
                after: before,
            } => Change::Drop { path, old, before },
            Change::Drop {
                path,
                old: new,
                before: after,
            } => Change::Make { path, new, after },
            Change::Splice {
                path,
                at,
                old,
                new,
                rest,
                seal,
            } => Change::splice(path, at, new, old, rest, swapped(seal)),
        }
    }

    /// Where a file stands, or its absence. Where it is at both ends, as only a change of nothing
    /// allows, `Before`. It hashes only where range and length fit, and takes no memory.
    pub fn state(&self, file: Option<&[u8]>) -> ChangeState
        ensures before { (result ≡ ChangeState.Before) ↔ IsBefore self.now (option_copied file.entry) }
        ensures after { (result ≡ ChangeState.After)
            ↔ (IsAfter self.now (option_copied file.entry) × ¬ (IsBefore self.now (option_copied file.entry))) }
        ensures neither { (result ≡ ChangeState.Neither)
            ↔ (¬ (IsAfter self.now (option_copied file.entry)) × ¬ (IsBefore self.now (option_copied file.entry))) }
        // A digest that nothing has is that of no file.
        ensures unmatched { (digest : List ℕ) → Records self.now digest → NothingHas digest
            → result ≡ ChangeState.Neither }
        ensures apart { IsProper self.now → IsBefore self.now (option_copied file.entry)
            → ¬ (IsAfter self.now (option_copied file.entry)) }
    {
        match self.state_by_range(file) {
            ChangeState::Before if self.is_sealed_before(file) => ChangeState::Before,
            ChangeState::After if self.is_sealed_after(file) => ChangeState::After,
            _ => ChangeState::Neither,
        }
    }

    /// Where a file stands, or its absence, by range and length alone: it hashes nothing. So it is
    /// a cheap second test of a file that was at an end by `state`.
    pub fn state_by_range(&self, file: Option<&[u8]>) -> ChangeState
        ensures before { (result ≡ ChangeState.Before) ↔ IsBeforeByRange self.now (option_copied file.entry) }
        ensures after { (result ≡ ChangeState.After)
            ↔ (IsAfterByRange self.now (option_copied file.entry)
            × ¬ (IsBeforeByRange self.now (option_copied file.entry))) }
        ensures neither { (result ≡ ChangeState.Neither)
            ↔ (¬ (IsAfterByRange self.now (option_copied file.entry))
            × ¬ (IsBeforeByRange self.now (option_copied file.entry))) }
        // It answers the end at which `state` finds the file.
        ensures at_before { IsBefore self.now (option_copied file.entry) → result ≡ ChangeState.Before }
        ensures at_after { IsAfter self.now (option_copied file.entry)
            → ¬ (IsBefore self.now (option_copied file.entry)) → result ≡ ChangeState.After }
    {
        if self.is_before_by_range(file) {
            ChangeState::Before
        } else if self.is_after_by_range(file) {
            ChangeState::After
        } else {
            ChangeState::Neither
        }
    }

    // Whether the change can be made, by range and length alone.
    fn is_before_by_range(&self, file: Option<&[u8]>) -> bool
        ensures { IsTrue result ↔ IsBeforeByRange self.now (option_copied file.entry) }
    {
        match self {
            Change::Make { .. } => file.is_none(),
            Change::Drop { old, .. } => is_file(file, old),
            Change::Splice { at, old, rest, .. } => holds_part(file, *at, old, *rest),
        }
    }

    // Whether the change has been made, by range and length alone.
    fn is_after_by_range(&self, file: Option<&[u8]>) -> bool
        ensures { IsTrue result ↔ IsAfterByRange self.now (option_copied file.entry) }
    {
        match self {
            Change::Make { new, .. } => is_file(file, new),
            Change::Drop { .. } => file.is_none(),
            Change::Splice { at, new, rest, .. } => holds_part(file, *at, new, *rest),
        }
    }

    /// Whether the digest that is recorded of a file that is made or removed is that of its bytes.
    pub fn has_own_digest(&self) -> bool
        ensures { IsTrue result ↔ HasOwnDigest self.now }
    {
        match self {
            Change::Make { new, after, .. } => is_digest_of(*after, new.as_slice()),
            Change::Drop { old, before, .. } => is_digest_of(*before, old.as_slice()),
            Change::Splice { .. } => true,
        }
    }

    // Whether a file before the change has its digest, and so what the change makes of it.
    fn is_sealed_before(&self, file: Option<&[u8]>) -> bool
        requires { IsBeforeByRange self.now (option_copied file) }
        ensures { IsTrue result ↔ IsBefore self.now (option_copied file.entry) }
    {
        match self {
            Change::Make { .. } | Change::Drop { .. } => self.has_own_digest(),
            Change::Splice {
                at,
                old,
                new,
                seal,
                ..
            } => has_seal(file, *at, old, new, *seal),
        }
    }

    // Whether a file after the change has its digest, and so what the way back makes of it.
    fn is_sealed_after(&self, file: Option<&[u8]>) -> bool
        requires { IsAfterByRange self.now (option_copied file) }
        ensures { IsTrue result ↔ IsAfter self.now (option_copied file.entry) }
    {
        match self {
            Change::Make { .. } | Change::Drop { .. } => self.has_own_digest(),
            Change::Splice {
                at,
                old,
                new,
                seal,
                ..
            } => has_seal(file, *at, new, old, swapped(*seal)),
        }
    }

    /// What the path holds after the change.
    pub fn apply(&self, alloc: Global, file: Option<&[u8]>) -> Result<Option<Bytes>, AllocError>
        requires { IsBefore self.now (option_copied file) }
        ensures { IfOk result (λ after. Applies self.now (option_copied file.entry) after) }
    {
        match self {
            Change::Make { new, .. } => Ok(Some(new.try_clone(alloc)?)),
            Change::Drop { .. } => Ok(None),
            Change::Splice { at, old, new, .. } => {
                let Some(file) = file else { unreachable!() };
                Ok(Some(spliced(alloc, file, *at, old.len(), new.as_slice())?))
            }
        }
    }
}

// Whether these bytes have the digest, where there is one.
fn is_digest_of(digest: Option<Digest>, bytes: &[u8]) -> bool
    ensures { IsTrue result ↔ IsDigestOf digest (Some bytes.now) }
{
    match digest {
        None => true,
        Some(digest) => Digest::of(bytes) == digest,
    }
}

// Whether a file that holds the part `old` at `at` is sealed with what `new` in its place makes of
// it.
fn has_seal(file: Option<&[u8]>, at: usize, old: &Bytes, new: &Bytes, seal: Option<Seal>) -> bool
    ensures { (path : List ℕ) (rest : ℕ) → HoldsPart (option_copied file.entry) old.now at rest
        → (IsTrue result ↔ IsBefore (Change.Splice path at old.now new.now rest seal) (option_copied file.entry)) }
{
    match file {
        None => false,
        Some(file) => is_seal_of(seal, file, at, old.len(), new.as_slice()),
    }
}

// Whether the seal, where there is one, is that of the file and of the file with new bytes in place
// of those from `at` on.
fn is_seal_of(seal: Option<Seal>, file: &[u8], at: usize, old_len: usize, new: &[u8]) -> bool
    ensures { IsTrue result ↔ IsSealOf seal file.now (spliced file.now at old_len new.now) }
{
    match seal {
        None => true,
        Some(seal) => Seal::of(file, at, old_len, new) == seal,
    }
}

// The seal of the way back.
fn swapped(seal: Option<Seal>) -> Option<Seal>
    ensures { result ≡ option_map swapped seal }
{
    seal.map(|seal| seal.swapped())
}
