//! The calls of the system on the bits and the owner of a new file. What they answer is noted in the
//! file's own value, and the contracts speak of that: that each method makes the call that it notes
//! has to be read here. All files that a run makes in one folder belong to one owner, and bits that
//! were granted to one of them are granted to the next one that asks for them.
ghost use Rattle.std.specs.Prelude.{◌≡◌, ◌⊎◌, IfErr, IfOk, IfSome, IsOk, None, Ok, OnErr, Some, true};
ghost use Rattle.reuse_system.specs.NewFiles.{IsSameFile};
ghost use Rattle.reuse_system.specs.declared.system.new_status.NewMode.TheVariants.{Asked, Known};

use crate::owner::Owner;
use crate::place::kept_bits;
use crate::system::TempFile;
use crate::system::new_status::NewMode;
use std::fs::Permissions;
use std::io;
use std::os::unix::fs::{PermissionsExt, fchown};

/// What the system has given to files that were made in one folder.
#[derive(Clone, Copy)]
pub struct Grants {
    /// Bits that a file asked for, and that it was seen to have.
    mode: Option<u32>,
    /// Whose a file is that was made there.
    owner: Option<Owner>,
}

impl Grants {
    /// Of a folder in which nothing was made yet.
    pub fn none() -> Grants
        ensures mode { result.mode ≡ None }
        ensures owner { result.owner ≡ None }
    {
        Grants {
            mode: None,
            owner: None,
        }
    }

    /// Whose a file is that was made in the folder, and not given to anybody yet.
    pub fn owner_of(&mut self, temp_file: &mut TempFile) -> io::Result<Owner>
        ensures same { IsSameFile temp_file.old temp_file.new }
        ensures mode { temp_file.new.status.mode ≡ temp_file.old.status.mode }
        ensures owner { IfOk result (λ owner. temp_file.new.status.owner ≡ Some owner) }
        ensures noted { IfOk result (λ owner. self.new ≡ record self.old { owner = Some owner }) }
        ensures known { IfSome self.old.owner (λ owner. result ≡ Ok owner) }
        ensures err { OnErr result ((self.new ≡ self.old) × (temp_file.new ≡ temp_file.old)) }
    {
        let owner = match self.owner {
            Some(owner) => owner,
            None => Owner::of(&temp_file.file.metadata()?),
        };
        self.owner = Some(owner);
        temp_file.status.owner = Some(owner);
        Ok(owner)
    }

    /// Gives these bits to a file that was made in the folder, if it lacks one. It does if the
    /// user's mask takes away some that it asked for.
    pub fn give_mode(&mut self, temp_file: &mut TempFile, mode: u32) -> io::Result<()>
        ensures same { IsSameFile temp_file.old temp_file.new }
        ensures owner { temp_file.new.status.owner ≡ temp_file.old.status.owner }
        ensures mode { IfOk result (λ _. temp_file.new.status.mode ≡ Known mode) }
        ensures granted { self.new.owner ≡ self.old.owner }
        ensures err { OnErr result (temp_file.new ≡ temp_file.old) }
    {
        if !self.has_mode(temp_file, mode)? {
            temp_file
                .file
                .set_permissions(Permissions::from_mode(mode))?;
        }
        temp_file.status.mode = NewMode::Known(mode);
        Ok(())
    }

    /// Whether a file that was made in the folder has these bits. One that asked for them has them if
    /// another one got them so.
    fn has_mode(&mut self, temp_file: &TempFile, mode: u32) -> io::Result<bool>
        ensures known { temp_file.now.status.mode ≡ Asked mode → self.old.mode ≡ Some mode → result ≡ Ok true }
        ensures noted { (self.new ≡ self.old) ⊎ ((temp_file.now.status.mode ≡ Asked mode)
            × (result ≡ Ok true) × (self.new ≡ record self.old { mode = Some mode })) }
    {
        let asked = matches!(temp_file.status.mode, NewMode::Asked(bits) if bits == mode);
        if asked && self.mode == Some(mode) {
            return Ok(true);
        }
        let has = kept_bits(&temp_file.file.metadata()?) == mode;
        if asked && has {
            self.mode = Some(mode);
        }
        Ok(has)
    }
}

impl TempFile {
    /// Gives it to this owner, if it isn't known to be his.
    pub fn give_to(&mut self, owner: Owner) -> io::Result<()>
        ensures same { IsSameFile self.old self.new }
        ensures mode { self.new.status.mode ≡ self.old.status.mode }
        ensures owner { IfOk result (λ _. self.new.status.owner ≡ Some owner) }
        ensures known { self.old.status.owner ≡ Some owner → IsOk result }
        ensures err { OnErr result (self.new ≡ self.old) }
    {
        let had = self.status.owner;
        if had == Some(owner) {
            return Ok(());
        }
        let user = had.is_none_or(|had| had.user != owner.user);
        let group = had.is_none_or(|had| had.group != owner.group);
        fchown(
            &self.file,
            user.then_some(owner.user),
            group.then_some(owner.group),
        )?;
        self.status.owner = Some(owner);
        Ok(())
    }
}
