//! What a revert takes back: the changes of a step that is done, and which of its paths later steps
//! touched.
ghost use Rattle.std.specs.Prelude.{◌≡◌, ◌≢◌, ◌↔◌, ◌⊎◌, ℕ, List, None, IfErr, IfOk, false, filter, map};
ghost use Rattle.std.specs.List.{All};
ghost use Rattle.std.specs.FinMap.{get};
ghost use Rattle.reuse_store.specs.Asked.{OnlyReads};
ghost use Rattle.reuse_change.specs.Entry.{paths_of, IsEntry};
ghost use Rattle.reuse_json.specs.EntryText.{HavePaths};
ghost use Rattle.reuse_change.specs.Tree.{undo_folder_of};
ghost use Rattle.reuse_json.specs.declared.entry.Entry.{Entry};
ghost use Rattle.reuse_command.specs.Answer.{IsReadRefusal, RefusedAsRead};
ghost use Rattle.reuse_journal.specs.Journal.{Recorded, Journal};
ghost use Rattle.reuse_journal.specs.JournalFiles.{entry_path, number_of, EntrySays, IsKeptIn, KeepsJournal};
ghost use Rattle.reuse_session.specs.session.RevertCalls.{left_of, touched_by, IsBackOf};
ghost use Rattle.reuse_journal.specs.Remembered.{Remembers};
ghost use Rattle.reuse_journal.specs.Numbered.{lists};

use crate::session::revert::left_of;
use reuse_change::{Change, PathText};
use reuse_command::choice::PathList;
use reuse_command::reply::Refusal;
use reuse_journal::files::read_entry;
use reuse_journal::history::History;
use reuse_journal::prepare::paths_of;
use reuse_json::EntryChanges;
use reuse_store::Store;
use std::alloc::Global;

// The changes of the step of this number that is done, and those of their paths that later steps
// touched. Its entry and each later one is read once.
pub(crate) fn read_back<S: Store>(
    alloc: Global,
    store: &mut S,
    history: &History,
    number: u32,
) -> Result<(EntryChanges, PathList), Refusal>
    ensures absent { (result ≡ Err (Refusal.NoSuchStep number)) ↔ (lists history.now.done number ≡ false) }
    ensures unread { result ≡ Err (Refusal.NoSuchStep number) → store.new ≡ store.old }
    ensures back { S.honest store.new → (journal : Journal) → Remembers history.now journal
        → KeepsJournal (undo_folder_of (S.files store.old)) journal None
        → IfOk result (λ back. IsBackOf number journal back.0 back.1) }
    ensures good { S.honest store.new → (journal : Journal) → Remembers history.now journal
        → KeepsJournal (undo_folder_of (S.files store.old)) journal None
        → (path : List ℕ) → result ≢ Err (Refusal.BadJournal path) }
    ensures says { IfOk result (λ back. (entry : Entry)
        × (S.honest store.new → EntrySays (get (undo_folder_of (S.files store.old)) (entry_path number)) entry)
        × (back.0 ≡ entry.changes)) }
    ensures refusal { IfErr result (λ refusal. (refusal ≡ Refusal.NoSuchStep number) ⊎ IsReadRefusal refusal) }
    ensures fails { RefusedAsRead S.Store store.old store.new result }
    ensures reads { OnlyReads S.Store store.old store.new }
{
    if !history.is_done(number) {
        return Err(Refusal::NoSuchStep(number));
    }
    let later = history.numbers_after(alloc, number)?;
    let entry = read_entry(alloc, store, number)?;
    let touched = touched_paths(alloc, store, entry.changes.as_slice(), &later)?;
    Ok((EntryChanges::new(entry.changes), touched))
}

// The paths of these changes that the entries of these numbers touch.
fn touched_paths<S: Store>(
    alloc: Global,
    store: &mut S,
    changes: &[Change],
    later: &[u32],
) -> Result<PathList, Refusal>
    ensures touched { S.honest store.new → IsEntry changes.now → (steps : List Recorded)
        → later.now ≡ map number_of steps
        → All (IsKeptIn (undo_folder_of (S.files store.old))) steps
        → IfOk result (λ touched. touched ≡ filter (touched_by steps) (paths_of changes.now)) }
    ensures good { S.honest store.new → (steps : List Recorded) → later.now ≡ map number_of steps
        → All (IsKeptIn (undo_folder_of (S.files store.old))) steps → (path : List ℕ)
        → result ≢ Err (Refusal.BadJournal path) }
    ensures refusal { IfErr result IsReadRefusal }
    ensures fails { RefusedAsRead S.Store store.old store.new result }
    ensures reads { OnlyReads S.Store store.old store.new }
{
    let mut left = paths_of(alloc, changes)?.into_vec();
    for number in later {
        left = without_touched(alloc, store, left, *number)?;
    }
    let paths = paths_of(alloc, changes)?.into_vec();
    Ok(PathList::new(left_of(paths, &left)))
}

// The paths that the entry of the number doesn't touch.
fn without_touched<S: Store>(
    alloc: Global,
    store: &mut S,
    paths: Vec<PathText>,
    number: u32,
) -> Result<Vec<PathText>, Refusal>
    ensures left { S.honest store.new
        → IfOk result (λ left. (entry : Entry)
        × EntrySays (get (undo_folder_of (S.files store.old)) (entry_path number)) entry
        × (left.items ≡ left_of paths.items (paths_of entry.changes))) }
    ensures bad { S.honest store.new → (path : List ℕ) → result ≡ Err (Refusal.BadJournal path)
        → (entry : Entry) → ¬ (EntrySays (get (undo_folder_of (S.files store.old)) (entry_path number)) entry) }
    ensures refusal { IfErr result IsReadRefusal }
    ensures fails { RefusedAsRead S.Store store.old store.new result }
    ensures reads { OnlyReads S.Store store.old store.new }
{
    let entry = read_entry(alloc, store, number)?;
    let touched = paths_of(alloc, entry.changes.as_slice())?;
    Ok(left_of(paths, touched.as_slice()))
}
