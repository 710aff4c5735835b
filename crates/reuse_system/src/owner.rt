//! Whose files are, and when a file that is written anew can't keep its owner. A file is rewritten
//! as a new one, which belongs to the process. It is given to the old one's owner and group, if the
//! process may do that. These are the rules alone; tests/owners.sh tests that they are followed.
ghost use Rattle.std.specs.Prelude.{◌≡◌, ◌≢◌, ℕ, Bool, IsTrue, false};
ghost use Rattle.reuse_system.specs.Owners.{access, covers, gives_user, gives_group, kept_owner, cannot_keep};
ghost use Rattle.reuse_system.specs.Owners.{owner_of_new, rights_of_mode};

/// The owner and the group of a file or a folder, by number.
#[derive(Clone, Copy, PartialEq, Eq)]
pub struct Owner {
    pub user: u32,
    pub group: u32,
}

/// What its owner, its group and all others may do with a file: three bits each.
#[derive(Clone, Copy)]
pub struct Rights {
    pub owner: u32,
    pub group: u32,
    pub others: u32,
}

impl Rights {
    /// Those of a file of this mode.
    pub fn of_mode(mode: u32) -> Rights
        ensures { result ≡ rights_of_mode mode }
    {
        Rights {
            owner: mode / 64 % 8,
            group: mode / 8 % 8,
            others: mode % 8,
        }
    }
}

/// Whether a file may be written anew that can't keep its owner.
#[derive(Clone, Copy, Debug, PartialEq, Eq)]
pub enum OwnerChange {
    /// It may not.
    Refused,
    /// It may.
    Allowed,
}

/// Whom the process acts for.
#[derive(Drop)]
pub struct Process {
    /// The number of the process itself, if the system shows it.
    pub number: Option<u32>,
    /// The effective user.
    pub user: u32,
    /// The effective group.
    pub group: u32,
    /// All groups of the process, as far as they are known.
    pub groups: Vec<u32>,
}

impl Process {
    /// Whether the process may give a file of its own to this user.
    fn gives_user(&self, user: u32) -> bool
        ensures { result ≡ gives_user self.now user }
    {
        self.user == 0 || user == self.user
    }

    /// Whether the process may give a file of its own to this group.
    fn gives_group(&self, group: u32) -> bool
        ensures { result ≡ gives_group self.now group }
    {
        self.user == 0 || self.groups.as_slice().contains(&group)
    }

    /// The owner that a new file gets in place of `wanted`: user and group each, if the process may
    /// give it. The new file belongs to `made` so far.
    pub fn kept_owner(&self, wanted: Owner, made: Owner) -> Owner
        ensures { result ≡ kept_owner self.now wanted made }
    {
        Owner {
            user: if self.gives_user(wanted.user) {
                wanted.user
            } else {
                made.user
            },
            group: if self.gives_group(wanted.group) {
                wanted.group
            } else {
                made.group
            },
        }
    }

    /// Whether a file of this owner and these rights can't be written anew without its owner
    /// losing access, or somebody gaining it.
    #[tactic(auto, using(crate::proofs::OwnerLemmas::same_access, crate::proofs::OwnerLemmas::no_loss))]
    pub fn cannot_keep(&self, owner: Owner, rights: Rights) -> bool
        ensures exact { result ≡ cannot_keep self.now owner rights }
        // Else whoever owns neither the old file nor the new one has the access that he had, and
        // the owner, a member of the file's group, has all that he had.
        ensures same { result ≡ false → (made : Owner) → (user : ℕ) → (is_member : ℕ → Bool) → user ≢ owner.user
            → user ≢ made.user
            → access user is_member (kept_owner self.now owner made) rights ≡ access user is_member owner rights }
        ensures kept { result ≡ false → (made : Owner) → (is_member : ℕ → Bool) → IsTrue (is_member owner.group)
            → IsTrue (covers (access owner.user is_member (kept_owner self.now owner made) rights)
            (access owner.user is_member owner rights)) }
    {
        let loses_user = !self.gives_user(owner.user);
        let loses_group = !self.gives_group(owner.group);
        (loses_user && !covers(rights.group, rights.owner))
            || (loses_group && rights.group != rights.others)
    }

    /// The owner of a file that is made anew in a folder of this owner, which may pass its group on
    /// to what is made in it.
    pub fn owner_of_new(&self, folder: Owner, passes_group: bool) -> Owner
        ensures { result ≡ owner_of_new self.now folder passes_group }
    {
        if self.user == 0 {
            return folder;
        }
        Owner {
            user: self.user,
            group: if passes_group {
                folder.group
            } else {
                self.group
            },
        }
    }
}

/// Whether whoever has these rights may do all that those allow.
fn covers(rights: u32, less: u32) -> bool
    ensures { result ≡ covers rights less }
{
    less & rights == less
}
