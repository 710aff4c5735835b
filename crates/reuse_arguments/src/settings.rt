//! What is asked for of all calls alike.
ghost use Rattle.std.specs.Prelude.{◌≡◌};
ghost use Rattle.reuse_arguments.specs.Choices.{usual_settings};

use reuse_system::owner::OwnerChange;
use reuse_system::syncs::Syncs;

/// How a call works with the folder, by the options before the subcommand.
#[derive(Clone, Copy)]
pub struct Settings {
    /// Whether what is written is made durable.
    pub syncs: Syncs,
    /// Whether a file may be written anew that can't keep its owner.
    pub owner_change: OwnerChange,
    /// Whether a journal of another user is opened.
    pub trusts_journal: bool,
}

impl Settings {
    /// Those without an option.
    pub fn usual() -> Settings
        ensures { result ≡ usual_settings }
    {
        Settings {
            syncs: Syncs::Kept,
            owner_change: OwnerChange::Refused,
            trusts_journal: false,
        }
    }
}
