//! New files that stand beside each other, each under a number, before they are given their names.
ghost use Rattle.std.specs.Prelude.{◌≡◌, None, false, IfOk};
ghost use Rattle.reuse_change.specs.Parts.{joined};
ghost use Rattle.reuse_system.specs.NameChanges.{OnlyChanges};
ghost use Rattle.reuse_system.specs.NewFiles.{IsAsDue};
ghost use Rattle.reuse_system.specs.SystemLaws.{IsAlikeBut, IsAlikeUnless};
ghost use Rattle.reuse_system.specs.TempFiles.{name_in, place_of, key_of, new_name, IsNewIn};
ghost use Rattle.reuse_disk.specs.Due.{IsOwnerFor, due_of};
ghost use Rattle.reuse_disk.specs.ReadsOnly.{ReadsOnly};
ghost use Rattle.reuse_disk.specs.Written.{StandsAlone, LeavesNone};

use super::{Content, NewFile, make};
use reuse_system::fault::{FolderFault, IoReason};
use reuse_system::new_name::NewName;
use reuse_system::place::Found;
use reuse_system::system::{System, TempFile};
use std::alloc::Global;

impl NewFile {
    /// Writes the content to the temporary file of this number.
    pub fn write_one_temp_file<S: System>(
        &mut self,
        system: &mut S,
        alloc: Global,
        number: usize,
        content: Content<'_>,
    ) -> Result<TempFile, FolderFault>
        ensures folder { self.new.folder ≡ self.old.folder }
        ensures filled { IfOk result (λ temp_file. (place_of temp_file ≡ name_in self.old.folder (new_name number))
            × StandsAlone (place_of temp_file) (key_of temp_file) (joined content.entry.parts) false
            (S.holds system.new)) }
        ensures kept { IfOk result (λ temp_file. IsAsDue (due_of content.entry) temp_file.status) }
        ensures reported { IfOk result (λ _. IsOwnerFor (due_of content.entry) self.new.kept) }
        ensures others { IsAlikeBut (name_in self.old.folder (new_name number)) (S.holds system.old)
            (S.holds system.new) }
        ensures still { S.folders system.new ≡ S.folders system.old }
        ensures earlier { S.honest system.new → S.honest system.old }
        ensures changes { OnlyChanges (IsNewIn self.old.folder.identity) (S.changes system.old) (S.changes system.new) }
    {
        let name = NewName::of_number(alloc, number)?;
        let mut temp_file = make(system, &self.folder, name.as_str(), content.mode())?;
        if let Err(error) = self.fill(system, &mut temp_file, content) {
            let _ = system.discard(&temp_file);
            return Err(error.into());
        }
        Ok(temp_file)
    }

    /// Fails if a file of this number stands here, though it couldn't be written.
    pub fn check_free<S: System>(
        &self,
        system: &mut S,
        alloc: Global,
        number: usize,
    ) -> Result<(), FolderFault>
        ensures reads { ReadsOnly S.System system.old system.new }
        ensures free { S.honest system.new
            → IfOk result (λ _. S.holds system.new (name_in self.now.folder (new_name number)) ≡ None) }
    {
        let name = NewName::of_number(alloc, number)?;
        match system.look(&self.folder, name.as_str())? {
            Found::File(_) => Err(FolderFault::Device(IoReason::Changing)),
            _ => Ok(()),
        }
    }

    /// Removes what a stopped run has left of new files here, which have these names.
    pub fn clear<S: System>(&self, system: &mut S, names: &[NewName]) -> Result<(), FolderFault>
        ensures others { IsAlikeUnless (IsNewIn self.now.folder.identity) (S.holds system.old) (S.holds system.new) }
        ensures none_left { IfOk result
            (λ _. LeavesNone (IsNewIn self.now.folder.identity) (S.holds system.old) (S.holds system.new)) }
        ensures still { S.folders system.new ≡ S.folders system.old }
        ensures earlier { S.honest system.new → S.honest system.old }
        ensures changes { OnlyChanges (IsNewIn self.now.folder.identity) (S.changes system.old) (S.changes system.new) }
    {
        for name in names {
            system.remove(&self.folder, name.as_str())?;
        }
        Ok(())
    }
}
