//! The note of a listing that a store was asked for.
ghost use Rattle.std.specs.Prelude.{◌≡◌, ℕ, ◌∷◌, List};
ghost use Rattle.std.specs.Result.{result_map_both};
ghost use Rattle.reuse_store.specs.Calls.Call.{ListCall};

use reuse_change::{PathText, Pruning};
use reuse_store::{CallRecord, StoreFault};

/// Notes a listing and its answer. Which folders it was to pass over is a ghost value: no record
/// holds a function, so it is the list of those that the pruning names, picked where the pruning is
/// at hand.
pub fn note_listing<P: Pruning>(
    calls: &mut CallRecord,
    folders: &[PathText],
    _pruning: &P,
    answer: &Result<Vec<PathText>, StoreFault>,
)
    ghost pruned: { List (List ℕ) }
    ensures { calls.new ≡ record calls.old {
      calls = ListCall folders.now pruned
          (result_map_both (λ paths. paths.items) (λ fault. fault) answer.now) ∷ calls.old.calls;
    } }
{
    calls.note_list(folders, answer);
}
