//! A session shows what a step changed, as its entry says. It only reads. `Session::answer` and
//! callers of the library use it. Tested by `tests/sessions` and `tests/show_and_revert.sh`.
ghost use Rattle.std.specs.Prelude.{◌≡◌, ◌↔◌, ◌||◌, true, false, IfOk};

use crate::session::Session;
use reuse_command::reply::{Refusal, Shown};
use reuse_journal::files::read_entry;
use reuse_json::EntryChanges;
use reuse_store::Store;
use std::alloc::Global;

impl<S: Store + Drop> Session<S> {
    ghost use Rattle.reuse_store.specs.Asked.{OnlyReads};
    ghost use Rattle.reuse_command.specs.Answer.{DidNotFail, RefusedAsRead};
    ghost use Rattle.reuse_session.specs.session.Calls.{IsCall};
    ghost use Rattle.reuse_journal.specs.Journal.{State};
    ghost use Rattle.reuse_session.specs.session.Machine.{Snapshots};
    ghost use Rattle.reuse_session.specs.session.Session.{store_of, is_broken, memory_of, IsKept, SimulatesState};
    ghost use Rattle.reuse_session.specs.session.Session.{SimulatesInSession};
    ghost use Rattle.reuse_session.specs.session.Showing.{ShowsIn, ShowsAt};
    ghost use Rattle.reuse_journal.specs.Numbered.{lists};

    /// The step of this number, done or undone: its row of the log, and what it changed.
    ///
    /// It is refused as `Broken`, as `NoSuchStep` where no step has the number, as `BadJournal`
    /// where the step's entry has changed since the journal was opened, or for an I/O error or an
    /// allocation failure.
    pub fn show(&mut self, alloc: Global, number: u32) -> Result<Shown, Refusal>
        ensures broken { (result ≡ Err Refusal.Broken) ↔ (is_broken self.old ≡ true) }
        ensures absent { (result ≡ Err (Refusal.NoSuchStep number))
            ↔ ((is_broken self.old ≡ false)
            × ((lists (memory_of self.old).done number || lists (memory_of self.old).undone number) ≡ false)) }
        // Unless it reports an I/O error or an allocation failure, it shows a step of the number,
        // or reports that there is none.
        ensures exact { S.honest (store_of self.new) → (held : State) → SimulatesState S.files self.old held
            → DidNotFail result → ShowsIn held.journal number result }
        ensures machine { S.honest (store_of self.new) → (state : Snapshots) → SimulatesInSession S.files self.old state
            → IfOk result (ShowsAt state number) }
        // It only reads, and what is remembered stays.
        ensures reads { OnlyReads S.Store (store_of self.old) (store_of self.new) }
        ensures kept { IsKept self.old self.new }
        ensures fails { RefusedAsRead S.Store (store_of self.old) (store_of self.new) result }
        ensures call { IsCall S.Store result self.old self.new }
    {
        if self.broken {
            return Err(Refusal::Broken);
        }
        let Some(row) = self.history.row(number) else {
            return Err(Refusal::NoSuchStep(number));
        };
        let entry = read_entry(alloc, &mut self.store, number)?;
        Ok(Shown {
            row,
            changes: EntryChanges::new(entry.changes),
        })
    }
}
