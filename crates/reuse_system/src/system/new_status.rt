//! What is known of the bits and the owner of a file that was made in this run.

use crate::owner::Owner;

/// What is known of the bits of its mode.
#[derive(Clone, Copy)]
pub enum NewMode {
    /// None were asked for and none were set: it has those of a new file.
    Usual,
    /// These were asked for when it was made. It may lack some.
    Asked(u32),
    /// It has these.
    Known(u32),
}

/// What is known of it.
#[derive(Clone, Copy)]
pub struct NewStatus {
    pub mode: NewMode,
    /// Whose it is, if that was looked at.
    pub owner: Option<Owner>,
}

impl NewStatus {
    ghost use Rattle.std.specs.Prelude.{◌≡◌};
    ghost use Rattle.reuse_system.specs.NewFiles.{made_status};

    /// What is known of a file that was just made, and asked for these bits, or for none.
    pub fn of_made(asked: Option<u32>) -> NewStatus
        ensures { result ≡ made_status asked }
    {
        NewStatus {
            mode: match asked {
                None => NewMode::Usual,
                Some(bits) => NewMode::Asked(bits),
            },
            owner: None,
        }
    }
}
