//! A session forgets steps: they are taken out of the history, and the tree stays.
//!
//! The head that no longer lists them is put first, with a barrier behind it, and then their
//! entries are removed. So what a stop leaves is the history from before or the one from behind; an
//! entry that is still there then is one that no head names, and its number isn't given out again.
ghost use Rattle.std.specs.Prelude.{◌≡◌, ◌≢◌, ◌↔◌, ◌⊎◌, ◌<◌, ◌≤◌, ◌+◌, ℕ, List, [], None, Some, false, true, IfOk};
ghost use Rattle.std.specs.Prelude.{IfErr, OnOk, OnErr, IsErrOf, length, map, reverse, take};
ghost use Rattle.std.specs.List.{Contains};
ghost use Rattle.std.specs.List.Sorted.{IsStrictlyIncreasing};
ghost use Rattle.reuse_store.specs.Asked.{Leaves, IsLater};
ghost use Rattle.reuse_change.specs.Files.{Files, Clashes, tree_of};
ghost use Rattle.reuse_session.specs.session.Forgetting.{AreInOrder, PutsAndRemoves, PutsAndRemovesSome, Removes};
ghost use Rattle.reuse_session.specs.session.Forgetting.{RemovesSome, StopsWithRemovals};
ghost use Rattle.reuse_journal.specs.Numbered.{memory_besides};
ghost use Rattle.reuse_journal.specs.History.{head_listing};
ghost use Rattle.reuse_journal.specs.Remembered.{head_room, listed_count};
ghost use Rattle.reuse_tree.specs.Head.{head_text, IsGoodHead, IsSoundHead};
ghost use Rattle.reuse_journal.specs.JournalFiles.{head_path, entry_path};
ghost use Rattle.reuse_journal.specs.Losses.{HaveTree};

use crate::session::Session;
use reuse_change::{EntryNumbers, PathText};
use reuse_command::failure::Failure;
use reuse_command::reply::Refusal;
use reuse_journal::files::{HeadPath, entry_path, put_head};
use reuse_journal::history::History;
use reuse_store::{Cause, Store};
use std::alloc::{AllocError, Global};

impl<S: Store + Drop> Session<S> {
    ghost use Rattle.reuse_command.specs.Answer.{IsEarly, IsFailure, DidNotFail};
    ghost use Rattle.reuse_session.specs.session.Calls.{IsCall};
    ghost use Rattle.reuse_session.specs.session.Forgetting.{AreInOrder, Forgets, IsForgetRefusal, IsWithoutOldest};
    ghost use Rattle.reuse_session.specs.session.Forgetting.{LeavesForgetting, SurvivesToForget, alone, numbers_in};
    ghost use Rattle.reuse_session.specs.session.Forgetting.{snapshots_besides};
    ghost use Rattle.reuse_journal.specs.Numbered.{all_numbers, first_unlisted, memory_besides, state_besides};
    ghost use Rattle.reuse_journal.specs.Journal.{State};
    ghost use Rattle.reuse_session.specs.session.Machine.{Snapshots};
    ghost use Rattle.reuse_session.specs.session.Session.{store_of, is_broken, memory_of, SimulatesState};
    ghost use Rattle.reuse_session.specs.session.Session.{SimulatesInSession};

    /// Takes the steps of these numbers out of the history, done and undone ones, and removes their
    /// entries. The tree stays, and no number is given out again. It isn't a step, and no undo
    /// takes it back. It answers the numbers, ascending, each once.
    ///
    /// It is refused as `Broken`, as `NoSuchStep` at the first number that no step has, or for an
    /// allocation failure, before it has put anything. Where it stops later it is `Interrupted`.
    pub fn forget(&mut self, alloc: Global, numbers: &[u32]) -> Result<EntryNumbers, Refusal>
        ensures broken { (result ≡ Err Refusal.Broken) ↔ (is_broken self.old ≡ true) }
        ensures absent { (number : ℕ) → (result ≡ Err (Refusal.NoSuchStep number))
            ↔ ((is_broken self.old ≡ false) × (first_unlisted (memory_of self.old) numbers.now ≡ Some number)) }
        ensures stays { IfErr result (λ refusal. IsEarly refusal → self.new ≡ self.old) }
        ensures refusal { IfErr result IsForgetRefusal }

        // Unless the answer reports an allocation failure or a stop, each number is that of a step
        // and these are gone, from any committed state.
        ensures exact { S.honest (store_of self.new) → (held : State) → SimulatesState S.files self.old held
            → DidNotFail result → (left : State) × SimulatesState S.files self.new left
            × Forgets numbers.now held result left }
        // The session stands at the state of the model without these steps. If they are the
        // oldest that are done, that lacks its oldest trees.
        ensures machine { S.honest (store_of self.new) → (state : Snapshots) → SimulatesInSession S.files self.old state
            → OnOk result (SimulatesInSession S.files self.new (snapshots_besides numbers.now state)) }
        ensures oldest { S.honest (store_of self.new) → (state next : Snapshots)
            → SimulatesInSession S.files self.old state
            → IsWithoutOldest numbers.now state next → OnOk result (SimulatesInSession S.files self.new next) }
        // The same, whatever the store: what is remembered, and the numbers.
        ensures forgotten { IfOk result (λ forgotten. AreInOrder numbers.now forgotten
            × (memory_of self.new ≡ memory_besides numbers.now (memory_of self.old))) }
        // Without a number nothing is asked of the store.
        ensures nothing { numbers.now ≡ [] → self.new ≡ self.old }

        // After a loss of power, at any moment of the call, what is left opens on the committed
        // state before it or on that after it; or on the one before these two, where a call that
        // was stopped led here and nothing was put since.
        ensures survives { SurvivesToForget S.Store numbers.now result self.old self.new }
        // What any call leaves, and what this one leaves of the files, whatever it answers.
        ensures call { IsCall S.Store result self.old self.new }
        ensures leaves { LeavesForgetting S.Store numbers.now result self.old self.new }
    {
        if self.broken {
            return Err(Refusal::Broken);
        }
        if let Some(number) = self.history.first_unlisted(numbers) {
            return Err(Refusal::NoSuchStep(number));
        }
        if numbers.is_empty() {
            return Ok(EntryNumbers::new(Vec::new(alloc)));
        }
        self.forget_listed(alloc, numbers)
    }

    /// Takes all steps out of the history, as `forget` does.
    pub fn forget_all(&mut self, alloc: Global) -> Result<EntryNumbers, Refusal>
        ensures broken { (result ≡ Err Refusal.Broken) ↔ (is_broken self.old ≡ true) }
        ensures absent { (number : ℕ) → result ≢ Err (Refusal.NoSuchStep number) }
        ensures stays { IfErr result (λ refusal. IsEarly refusal → self.new ≡ self.old) }
        ensures refusal { IfErr result IsForgetRefusal }
        ensures exact { S.honest (store_of self.new) → (held : State) → SimulatesState S.files self.old held
            → DidNotFail result → (left : State) × SimulatesState S.files self.new left
            × Forgets (numbers_in held.journal) held result left }
        // No step is left.
        ensures machine { S.honest (store_of self.new) → (state : Snapshots) → SimulatesInSession S.files self.old state
            → OnOk result (SimulatesInSession S.files self.new (alone state)) }
        ensures forgotten { IfOk result (λ forgotten. AreInOrder (all_numbers (memory_of self.old)) forgotten
            × (memory_of self.new ≡ record { done = []; undone = []; used = (memory_of self.old).used })) }
        ensures nothing { all_numbers (memory_of self.old) ≡ [] → self.new ≡ self.old }
        ensures survives { SurvivesToForget S.Store (all_numbers (memory_of self.old)) result self.old self.new }
        ensures call { IsCall S.Store result self.old self.new }
        ensures leaves { LeavesForgetting S.Store (all_numbers (memory_of self.old)) result self.old self.new }
    {
        if self.broken {
            return Err(Refusal::Broken);
        }
        let numbers = self.history.all_numbers(alloc)?;
        self.forget(alloc, &numbers)
    }

    // Forgets the steps of these numbers, of which there are some, each of a step.
    fn forget_listed(&mut self, alloc: Global, numbers: &[u32]) -> Result<EntryNumbers, Refusal>
        requires some { numbers.now ≢ [] }
        requires listed { first_unlisted (memory_of self.now) numbers.now ≡ None }
        ensures forgotten { IfOk result (λ forgotten. AreInOrder numbers.now forgotten
            × (memory_of self.new ≡ memory_besides numbers.now (memory_of self.old))) }
        ensures stands { S.honest (store_of self.new) → (held : State) → SimulatesState S.files self.old held
            → OnOk result (SimulatesState S.files self.new (state_besides numbers.now held)) }
        ensures stays { IfErr result (λ refusal. IsEarly refusal → self.new ≡ self.old) }
        ensures refusal { IfErr result IsForgetRefusal }
        ensures kinds { IfErr result IsFailure }
        ensures survives { SurvivesToForget S.Store numbers.now result self.old self.new }
        ensures call { IsCall S.Store result self.old self.new }
        ensures leaves { LeavesForgetting S.Store numbers.now result self.old self.new }
    {
        let Forgetting {
            numbers,
            left,
            text,
            head,
            paths,
        } = Forgetting::new(alloc, &self.history, numbers)?;
        match put_and_remove(alloc, &mut self.store, &head, &text, &paths) {
            Ok(()) => {
                self.history = left;
                Ok(EntryNumbers::new(numbers))
            }
            Err(cause) => {
                self.broken = true;
                Err(Refusal::Failed(Failure::Interrupted(cause)))
            }
        }
    }
}

// What forgetting puts and removes. It is made before the put, so that an allocation failure for it
// is no stop.
#[derive(Drop)]
struct Forgetting {
    // The numbers, ascending, each once.
    numbers: Vec<u32>,
    // What is remembered without them.
    left: History,
    // The text of its head.
    text: Vec<u8>,
    // The path of the head.
    head: HeadPath,
    // The paths of their entries, from the highest number on.
    paths: Vec<PathText>,
}

impl Forgetting {
    // Forgets the entries of these numbers.
    fn new(alloc: Global, history: &History, numbers: &[u32]) -> Result<Forgetting, AllocError>
        ensures ordered { IfOk result (λ forgetting. AreInOrder numbers.now forgetting.numbers.items) }
        ensures few { IfOk result (λ forgetting. length forgetting.numbers.items ≤ length numbers.now) }
        ensures left { IfOk result (λ forgetting. forgetting.left ≡ memory_besides numbers.now history.now) }
        ensures text { IfOk result (λ forgetting. forgetting.text.items ≡ head_text
            (head_listing (memory_besides numbers.now history.now) None)) }
        ensures good { IsSoundHead (head_listing (memory_besides numbers.now history.now) None)
            → IfOk result (λ forgetting. IsGoodHead forgetting.text.items
            (head_listing (memory_besides numbers.now history.now) None)) }
        ensures bound { IsSoundHead (head_listing (memory_besides numbers.now history.now) None)
            → IfOk result (λ forgetting. length forgetting.text.items ≤ head_room
            (listed_count (memory_besides numbers.now history.now))) }
        ensures paths { IfOk result
            (λ forgetting. forgetting.paths.items ≡ map entry_path (reverse forgetting.numbers.items)) }
    {
        let ordered = in_order(alloc, numbers)?;
        let left = history.without(alloc, numbers)?;
        let text = left.head_text(alloc, None)?;
        let paths = paths_from_the_top(alloc, &ordered)?;
        Ok(Forgetting {
            numbers: ordered,
            left,
            text,
            head: HeadPath::new(alloc)?,
            paths,
        })
    }
}

// The numbers, ascending, each once.
fn in_order(alloc: Global, numbers: &[u32]) -> Result<Vec<u32>, AllocError>
    ensures order { IfOk result (λ ordered. AreInOrder numbers.now ordered.items) }
    ensures few { IfOk result (λ ordered. length ordered.items ≤ length numbers.now) }
{
    let mut ordered = Vec::from_slice(alloc, numbers)?;
    sort_once(&mut ordered);
    Ok(ordered)
}

fn sort_once(numbers: &mut Vec<u32>)
    ensures ascending { IsStrictlyIncreasing numbers.new.items }
    ensures all { (number : ℕ) → Contains numbers.old.items number → Contains numbers.new.items number }
    ensures only { (number : ℕ) → Contains numbers.new.items number → Contains numbers.old.items number }
    ensures few { length numbers.new.items ≤ length numbers.old.items }
{
    numbers.sort_unstable();
    numbers.dedup();
}

// The paths of the entries of these numbers, from the last one on.
fn paths_from_the_top(alloc: Global, numbers: &[u32]) -> Result<Vec<PathText>, AllocError>
    ensures { IfOk result (λ paths. paths.items ≡ map entry_path (reverse numbers.now)) }
{
    let mut paths = Vec::with_capacity(alloc, numbers.len())?;
    for number in numbers.iter().rev() {
        paths.push(entry_path(alloc, *number)?)?;
    }
    Ok(paths)
}

// Puts this text of a head, and behind it a barrier, and then removes the files of these paths.
fn put_and_remove<S: Store>(
    alloc: Global,
    store: &mut S,
    head: &HeadPath,
    text: &[u8],
    paths: &[PathText],
) -> Result<(), Cause>
    ensures done { S.honest store.new
        → OnOk result (PutsAndRemoves text.now paths.now (S.files store.old) (S.files store.new)) }
    ensures stopped { S.honest store.new → OnErr result ((S.files store.new ≡ S.files store.old)
        ⊎ ((count : ℕ) × PutsAndRemoves text.now (take count paths.now) (S.files store.old) (S.files store.new))) }
    // After a loss of power, if nothing but the journal was in doubt before: once it is done, the
    // head is there, and some of the paths are removed; and where it stops, what might be there
    // before, or with the head, and behind it with some of the removals.
    ensures durable { S.honest store.new → HaveTree S.Store store.old (tree_of (S.files store.old))
        → OnOk result (Leaves S.Store store.new (PutsAndRemovesSome text.now paths.now (S.files store.old))) }
    ensures doubt { S.honest store.new → HaveTree S.Store store.old (tree_of (S.files store.old))
        → OnErr result (StopsWithRemovals S.Store text.now paths.now store.old store.new) }
    ensures clash { S.honest store.new → result ≡ Err Cause.Clash → Clashes (S.files store.old) head_path }
    ensures moved { result ≢ Err Cause.Moved }
    ensures device { IsErrOf result Cause.Device → S.failures store.old < S.failures store.new }
    ensures written { S.written store.new ≤ S.written store.old + length text.now }
    ensures asked { S.mutations store.old < S.mutations store.new }
    ensures mutations { S.mutations store.new ≤ S.mutations store.old + 1 + length paths.now }
    ensures later { IsLater S.Store store.old store.new }
{
    put_head(alloc, store, head, text)?;
    remove_each(alloc, store, paths)
}

// Removes the files of these paths, one after the other.
fn remove_each<S: Store>(alloc: Global, store: &mut S, paths: &[PathText]) -> Result<(), Cause>
    ensures removed { S.honest store.new → OnOk result (Removes paths.now (S.files store.old) (S.files store.new)) }
    ensures stopped { S.honest store.new
        → OnErr result ((count : ℕ) × Removes (take count paths.now) (S.files store.old) (S.files store.new)) }
    // A loss of power may leave what it might before, with some of the removals.
    ensures left { Leaves S.Store store.new (λ left. (kept : Files) × S.crash_states store.old kept
        × RemovesSome paths.now kept left) }
    ensures clash { S.honest store.new → result ≢ Err Cause.Clash }
    ensures moved { result ≢ Err Cause.Moved }
    ensures device { IsErrOf result Cause.Device → S.failures store.old < S.failures store.new }
    ensures written { S.written store.new ≡ S.written store.old }
    ensures mutations { S.mutations store.new ≤ S.mutations store.old + length paths.now }
    ensures later { IsLater S.Store store.old store.new }
{
    for path in paths {
        store.remove(alloc, path)?;
    }
    Ok(())
}
