//! What the record of a folder's calls says of a loss of power: the function has no body, and its
//! contract is the law. The laws of the program use it.
ghost use Rattle.std.specs.Prelude.{◌≡◌, ℕ, List, false};
ghost use Rattle.std.specs.FinMap.{get};
ghost use Rattle.reuse_change.specs.Files.{Files};
ghost use Rattle.reuse_change.specs.Layout.{journal_folder};
ghost use Rattle.reuse_change.specs.Path.{lies_under};
ghost use Rattle.reuse_store.specs.Calls.{Call};
ghost use Rattle.reuse_folder.specs.Honesty.{IsCrashState};
ghost use Rattle.reuse_folder.specs.PathLosses.{SupposesDurableTree, IsLeftByPaths, IsNeverSynced};

/// What a loss of power may leave is said for any start. Let each file of the tree be supposed to be
/// durable at the start, and nothing of the journal. What may really be left is at each path one of
/// what is said then. But a path that no barrier was over since may be what it might have been left
/// as at the start (`paths`). Then the path may also be left as it was there (`unsynced`): so no
/// call has changed it that is said to be durable.
pub fn losses_stay_at_their_paths()
    ensures paths { (start : Files) (initial supposed : List Files) (calls : List Call) (left : Files)
        → SupposesDurableTree start initial supposed → IsCrashState start initial calls left
        → IsLeftByPaths start initial supposed calls left }
    ensures unsynced { (start : Files) (supposed : List Files) (calls : List Call) (path : List ℕ)
        → lies_under path journal_folder ≡ false → IsNeverSynced path calls
        → (other : Files) × IsCrashState start supposed calls other × (get other path ≡ get start path) }
{}
