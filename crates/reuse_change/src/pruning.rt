//! Which folders a listing passes over.
ghost use Rattle.std.specs.Prelude.{◌≡◌, ℕ, Bool, List, false};

/// A test of folders. One that passes it is passed over by a listing, with all that lies under it.
pub trait Pruning {
    /// Whether the folder of this path is passed over.
    ghost prunes: { Self → List ℕ → Bool };

    /// Whether the folder of this path is passed over.
    fn prunes(&self, folder: &str) -> bool
        ensures { result ≡ prunes self.now folder.now };
}

/// No folder is passed over.
#[derive(Clone, Copy, Debug)]
pub struct NoPruning;

impl Pruning for NoPruning {
    ghost prunes = { λ _ folder. false };

    fn prunes(&self, _folder: &str) -> bool {
        false
    }
}
