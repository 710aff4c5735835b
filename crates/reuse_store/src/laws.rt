//! What changes and their inverses do, whatever the files, and what keeps files good.
ghost use Rattle.std.specs.Prelude.{◌≡◌, ◌↔◌, List, ℕ, Option, IsTrue};
ghost use Rattle.std.specs.FinMap as map;
ghost use Rattle.std.specs.Option.{option_map};
ghost use Rattle.sha2.specs.Sha256.{sha256};
ghost use Rattle.reuse_change.specs.declared.change.Change.{Change};
ghost use Rattle.reuse_change.specs.Files.{Files, AreFiles};
ghost use Rattle.reuse_change.specs.Path.{is_path};
ghost use Rattle.reuse_store.specs.Store.{Puts};
ghost use Rattle.reuse_store.specs.declared.memory.MemoryStore.{MemoryStore};
ghost use Rattle.reuse_change.specs.Change.{inverse_of, is_sealed, IsProper, IsBefore, IsAfter, Applies, Leads};

use crate::{MemoryStore, Store};

/// A change and its inverse.
pub fn inverse_leads_back()
    ensures back { (change : Change) (before after : Files) → Leads change before after
        → Leads (inverse_of change) after before }
    ensures before { (change : Change) (file : Option (List ℕ))
        → IsBefore (inverse_of change) file ↔ IsAfter change file }
    ensures after { (change : Change) (file : Option (List ℕ))
        → IsAfter (inverse_of change) file ↔ IsBefore change file }
    ensures twice { (change : Change) → inverse_of (inverse_of change) ≡ change }
{}

/// No file is at both ends of a change, and a change leads from a file to one file.
pub fn change_has_two_ends()
    ensures apart { (change : Change) (file : Option (List ℕ)) → IsProper change → IsBefore change file
        → ¬ (IsAfter change file) }
    ensures once { (change : Change) (before after other : Option (List ℕ)) → Applies change before after
        → Applies change before other → after ≡ other }
{}

/// What a seal says of files: one that is at an end of a sealed change has the digest of the file
/// that was there. So it is that very file, unless another file has been found that has the same
/// digest.
pub fn seal_distinguishes_files()
    ensures after { (change : Change) (before after file : Option (List ℕ)) → Applies change before after
        → IsTrue (is_sealed change)
        → IsAfter change file → option_map sha256 file ≡ option_map sha256 after }
    ensures before { (change : Change) (before after file : Option (List ℕ)) → Applies change before after
        → IsTrue (is_sealed change)
        → IsBefore change file → option_map sha256 file ≡ option_map sha256 before }
    ensures inverse { (change : Change) → is_sealed (inverse_of change) ≡ is_sealed change }
{}

/// No files are good files, and a put at a good path and a removal keep them so.
pub fn files_stay_good()
    ensures none { AreFiles map.empty }
    ensures put { (path bytes : List ℕ) (before after : Files) → AreFiles before → IsTrue (is_path path)
        → Puts path bytes before after → AreFiles after }
    ensures remove { (files : Files) (path : List ℕ) → AreFiles files → AreFiles (map.remove files path) }
{}

/// A store in memory is honest at any time.
pub fn memory_is_honest()
    ensures { (store : MemoryStore) → ⟦<MemoryStore as Store>⟧.honest store }
{}
