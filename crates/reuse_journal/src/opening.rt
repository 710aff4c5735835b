//! Opens the journal of a store: reads the head and each entry that it names, and rolls back what
//! is pending.
ghost use Rattle.std.specs.Prelude.{◌≡◌, ◌≢◌, ◌⊎◌, ◌<◌, ◌≤◌, ◌+◌, ℕ, List, IfOk, IfErr, OnOk, IsSome, IsTrue, Some};
ghost use Rattle.std.specs.Prelude.{None, length, MatchResult};
ghost use Rattle.std.specs.FinMap as map;
ghost use Rattle.std.specs.List.{All, AllZip};
ghost use Rattle.reuse_change.specs.Layout.{above_journal};
ghost use Rattle.reuse_change.specs.Path.{is_path, journal_folder};
ghost use Rattle.reuse_command.specs.Answer.{HasCause, IsEarly, IsNoClash, IsFailure, IsReadRefusal, IsOpenRefusal};
ghost use Rattle.reuse_command.specs.Answer.{RefusedAsRead};
ghost use Rattle.reuse_tree.specs.Head.{listed, IsSoundHead};
ghost use Rattle.reuse_tree.specs.declared.journal.head.Head.{Head};
ghost use Rattle.reuse_journal.specs.Journal.{Recorded, Journal, State};
ghost use Rattle.reuse_journal.specs.JournalFiles.{head_path, entry_path, number_of, HeadSays, EntrySays};
ghost use Rattle.reuse_journal.specs.Opening.{least, listed_entry, named, IsReadable, IsListedIn, IsFoundAt};
ghost use Rattle.reuse_journal.specs.Opening.{IsLeastFound, NoFileAbove, IsFirstUnreadable, IsFirstBad, IsRead};
ghost use Rattle.reuse_journal.specs.Opening.{IsSettled, IsStuckAt, MutationsToOpen, MutationsFor, OpensOn};
ghost use Rattle.reuse_journal.specs.Opening.{StopsOpening};
ghost use Rattle.reuse_journal.specs.Remembered.{head_room, listed_count, HasHeadText, IsSameBut, Remembers};
ghost use Rattle.reuse_journal.specs.CommittedState.{IsCommittedState, IsPending, BetweenStates};
ghost use Rattle.reuse_journal.specs.Losses.{AllRecoverToTree, AreBetweenStates, Earlier, beyond};
ghost use Rattle.reuse_change.specs.Tree.{undo_folder_of};
ghost use Rattle.reuse_store.specs.declared.cause.Cause.{Cause};
ghost use Rattle.reuse_store.specs.declared.cause.Cause.TheVariants as causes;
ghost use Rattle.reuse_store.specs.Asked.{OnlyReads, IsLater};
ghost use Rattle.reuse_command.specs.declared.failure.Failure.TheVariants as failures;

use crate::files::{HeadPath, NewHead, entry_path, read_entry, read_head};
use crate::history::{History, ListedEntry};
use crate::roll_back::roll_back;
use reuse_change::layout::{ABOVE_JOURNAL, JOURNAL};
use reuse_command::known_path::known_path;
use reuse_command::reply::Refusal;
use reuse_json::Entry;
use reuse_store::{Reading, Store};
use reuse_tree::{Head, Pending};
use std::alloc::{AllocError, Global};

/// Reads the journal of a store, and rolls back what is pending. It answers what the head lists
/// then.
pub fn open_journal<S: Store>(alloc: Global, store: &mut S) -> Result<History, Refusal>
    ensures opened { S.honest store.new
        → IfOk result (λ memory. (held : State) × Remembers memory held.journal
        × OpensOn (S.files store.old) held (S.files store.new)) }
    ensures bad { S.honest store.new → (path : List ℕ) → result ≡ Err (Refusal.BadJournal path)
        → IsFirstBad (S.files store.old) path }
    ensures moved { S.honest store.new → (path : List ℕ) → result ≡ Err (Refusal.Moved path)
        → IsStuckAt (S.files store.old) path }
    // It stops only where a step was pending, which is still, or is rolled back.
    ensures interrupted { S.honest store.new → (cause : Cause)
        → result ≡ Err (Refusal.Failed (failures.Interrupted cause))
        → StopsOpening (S.files store.old) (S.files store.new) }
    // Of files in doubt it makes one of the two committed states, or leaves them in doubt where it
    // fails.
    ensures recovers { S.honest store.new → (first second : State) → BetweenStates first second (S.files store.old)
        → MatchResult result (λ memory. (IsCommittedState (S.files store.new) first × Remembers memory first.journal)
        ⊎ (IsCommittedState (S.files store.new) second × Remembers memory second.journal))
        (λ refusal. IsFailure refusal × BetweenStates first second (S.files store.new)) }
    // Where all that a loss of power may leave is in doubt too, it is safe on that committed state
    // then, or still in doubt.
    ensures survives { S.honest store.new → (earlier : Earlier) → (held next : State)
        → AreBetweenStates S.Store earlier held next store.old
        → MatchResult result (λ memory. (IsCommittedState (S.files store.new) held × Remembers memory held.journal
        × AllRecoverToTree S.Store earlier held store.new)
        ⊎ (IsCommittedState (S.files store.new) next × Remembers memory next.journal
        × AllRecoverToTree S.Store (beyond earlier held) next store.new))
        (λ refusal. AreBetweenStates S.Store earlier held next store.new) }
    // Where a step was rolled back the head is the very text of what is remembered.
    ensures texts { S.honest store.new
        → IfOk result (λ memory. (S.files store.new ≡ S.files store.old) ⊎ HasHeadText memory (S.files store.new)) }
    // At most one head is put.
    ensures written { S.honest store.new → (head : Head)
        → HeadSays (map.get (undo_folder_of (S.files store.old)) head_path) head
        → S.written store.new ≤ S.written store.old + head_room (length (listed head)) }
    ensures mutations { S.honest store.new → MutationsToOpen S.Store store.old store.new }
    // Nothing is put or removed before a refusal, nor where nothing is pending; and of the journal's
    // folder nothing but the head changes.
    ensures early { IfErr result (λ refusal. IsEarly refusal → OnlyReads S.Store store.old store.new) }
    ensures late { (cause : Cause) → result ≡ Err (Refusal.Failed (failures.Interrupted cause)) → cause ≢ causes.Moved
        → S.mutations store.old < S.mutations store.new }
    ensures quiet { S.honest store.new → (held : State) → IsCommittedState (S.files store.old) held
        → OnlyReads S.Store store.old store.new }
    ensures folder { S.honest store.new
        → IsSameBut head_path (undo_folder_of (S.files store.old)) (undo_folder_of (S.files store.new)) }
    ensures refusal { IfErr result IsOpenRefusal }
    ensures clash { S.honest store.new → IfErr result IsNoClash }
    ensures fault { IfErr result (HasCause (S.failures store.old < S.failures store.new)) }
    ensures later { IsLater S.Store store.old store.new }
{
    let (pending, history) = read_journal(alloc, store)?;
    match pending {
        None => Ok(history),
        Some(pending) => {
            recover_pending(alloc, store, pending, &history)?;
            Ok(history)
        }
    }
}

/// Reads the head and each entry that it names. It answers what is pending, and what the head
/// lists.
pub fn read_journal<S: Store>(
    alloc: Global,
    store: &mut S,
) -> Result<(Option<Pending>, History), Refusal>
    ensures ok { S.honest store.new
        → IfOk result (λ read. (journal : Journal) × IsRead (S.files store.old) read.0 read.1 journal) }
    ensures bad { S.honest store.new → (path : List ℕ) → result ≡ Err (Refusal.BadJournal path)
        → IsFirstBad (S.files store.old) path }
    ensures refusal { IfErr result IsReadRefusal }
    ensures fails { RefusedAsRead S.Store store.old store.new result }
    ensures reads { OnlyReads S.Store store.old store.new }
{
    test_folders(alloc, store)?;
    let head = read_head(alloc, store)?;
    let history = read_entries(alloc, store, &head)?;
    Ok((head.pending, history))
}

// Rolls back what is pending in a journal that was read.
fn recover_pending<S: Store>(
    alloc: Global,
    store: &mut S,
    pending: Pending,
    history: &History,
) -> Result<(), Refusal>
    ensures done { S.honest store.new → (journal : Journal)
        → IsRead (S.files store.old) (Some pending) history.now journal
        → OnOk result (IsSettled pending journal (S.files store.old) (S.files store.new)) }
    ensures moved { S.honest store.new → (journal : Journal)
        → IsRead (S.files store.old) (Some pending) history.now journal
        → (path : List ℕ) → result ≡ Err (Refusal.Moved path) → IsStuckAt (S.files store.old) path }
    ensures recovers { S.honest store.new → (journal : Journal)
        → IsRead (S.files store.old) (Some pending) history.now journal
        → (step : Recorded) → (first : State) → number_of step ≡ pending.entry
        → IsPending pending.direction step first (S.files store.old)
        → MatchResult result (λ done. IsCommittedState (S.files store.new) first)
        (λ refusal. IsFailure refusal
        × (IsCommittedState (S.files store.new) first ⊎ IsPending pending.direction step first (S.files store.new))) }
    ensures survives { S.honest store.new → (journal : Journal)
        → IsRead (S.files store.old) (Some pending) history.now journal
        → (earlier : Earlier) → (held next : State) → AreBetweenStates S.Store earlier held next store.old
        → MatchResult result (λ done. IsCommittedState (S.files store.new) held
        × AllRecoverToTree S.Store earlier held store.new)
        (λ refusal. AreBetweenStates S.Store earlier held next store.new) }
    ensures interrupted { S.honest store.new → (journal : Journal)
        → IsRead (S.files store.old) (Some pending) history.now journal
        → (cause : Cause) → result ≡ Err (Refusal.Failed (failures.Interrupted cause))
        → StopsOpening (S.files store.old) (S.files store.new) }
    ensures early { IfErr result (λ refusal. IsEarly refusal → OnlyReads S.Store store.old store.new) }
    ensures late { (cause : Cause) → result ≡ Err (Refusal.Failed (failures.Interrupted cause)) → cause ≢ causes.Moved
        → S.mutations store.old < S.mutations store.new }
    ensures folder { S.honest store.new → (journal : Journal)
        → IsRead (S.files store.old) (Some pending) history.now journal
        → IsSameBut head_path (undo_folder_of (S.files store.old)) (undo_folder_of (S.files store.new)) }
    ensures texts { S.honest store.new → (journal : Journal)
        → IsRead (S.files store.old) (Some pending) history.now journal
        → OnOk result (HasHeadText history.now (S.files store.new)) }
    ensures no_bad { S.honest store.new → (journal : Journal)
        → IsRead (S.files store.old) (Some pending) history.now journal
        → (path : List ℕ) → result ≢ Err (Refusal.BadJournal path) }
    ensures written { S.honest store.new → (journal : Journal)
        → IsRead (S.files store.old) (Some pending) history.now journal
        → S.written store.new ≤ S.written store.old + head_room (listed_count history.now) }
    ensures mutations { S.honest store.new → MutationsFor S.Store
        (EntrySays (map.get (undo_folder_of (S.files store.old)) (entry_path pending.entry))) store.old store.new }
    ensures refusal { IfErr result IsOpenRefusal }
    ensures clash { S.honest store.new → (journal : Journal)
        → IsRead (S.files store.old) (Some pending) history.now journal → IfErr result IsNoClash }
    ensures fault { IfErr result (HasCause (S.failures store.old < S.failures store.new)) }
    ensures later { IsLater S.Store store.old store.new }
{
    let entry = read_entry(alloc, store, pending.entry)?;
    let settled = history.head_text(alloc, None)?;
    let path = HeadPath::new(alloc)?;
    let changes = entry.changes.as_slice();
    let head = NewHead {
        path: &path,
        text: settled.as_slice(),
    };
    roll_back(alloc, store, changes, pending.direction.direction(), &head)
}

// Neither `.reuse` nor `.reuse/undo` is a file.
fn test_folders<S: Store>(alloc: Global, store: &mut S) -> Result<(), Refusal>
    ensures ok { S.honest store.new → OnOk result (NoFileAbove (S.files store.old)) }
    ensures bad { S.honest store.new → (path : List ℕ) → result ≡ Err (Refusal.BadJournal path)
        → ((path ≡ above_journal) × IsSome (map.get (S.files store.old) path))
        ⊎ ((map.get (S.files store.old) above_journal ≡ None) × (path ≡ journal_folder)
        × IsSome (map.get (S.files store.old) path)) }
    ensures refusal { IfErr result IsReadRefusal }
    ensures fails { RefusedAsRead S.Store store.old store.new result }
    ensures reads { OnlyReads S.Store store.old store.new }
{
    test_folder(alloc, store, ABOVE_JOURNAL)?;
    test_folder(alloc, store, JOURNAL)
}

// No file has the path.
fn test_folder<S: Store>(alloc: Global, store: &mut S, text: &str) -> Result<(), Refusal>
    requires { IsTrue (is_path text.now) }
    ensures ok { S.honest store.new → OnOk result (map.get (S.files store.old) text.now ≡ None) }
    ensures bad { S.honest store.new → (path : List ℕ) → result ≡ Err (Refusal.BadJournal path)
        → (path ≡ text.now) × IsSome (map.get (S.files store.old) path) }
    ensures refusal { IfErr result IsReadRefusal }
    ensures fails { RefusedAsRead S.Store store.old store.new result }
    ensures reads { OnlyReads S.Store store.old store.new }
{
    let path = known_path(alloc, text)?;
    match store.read(alloc, &path, 0)? {
        Reading::Absent => Ok(()),
        Reading::Found(_) | Reading::TooLong => Err(Refusal::BadJournal(path)),
    }
}

// Reads each entry that the head names, and answers what it lists. It is refused at the least
// number whose entry can't be read.
fn read_entries<S: Store>(alloc: Global, store: &mut S, head: &Head) -> Result<History, Refusal>
    requires { IsSoundHead head.now }
    ensures ok { S.honest store.new → IfOk result (λ memory.
        AllZip (IsListedIn (undo_folder_of (S.files store.old))) head.now.done memory.done
        × AllZip (IsListedIn (undo_folder_of (S.files store.old))) head.now.undone memory.undone
        × All (IsReadable (undo_folder_of (S.files store.old))) (named head.now)
        × (memory.used + 1 ≡ head.now.next)) }
    ensures bad { S.honest store.new → (path : List ℕ) → result ≡ Err (Refusal.BadJournal path)
        → IsFirstUnreadable (undo_folder_of (S.files store.old)) (named head.now) path }
    ensures refusal { IfErr result IsReadRefusal }
    ensures fails { RefusedAsRead S.Store store.old store.new result }
    ensures reads { OnlyReads S.Store store.old store.new }
{
    let numbers = named_numbers(alloc, head)?;
    let (entries, unreadable) = read_all(alloc, store, numbers.as_slice())?;
    if let Some(number) = unreadable {
        return Err(Refusal::BadJournal(entry_path(alloc, number)?));
    }
    let done = head.done.as_slice().len();
    let listed = done + head.undone.as_slice().len();
    Ok(History::new(
        Vec::from_slice(alloc, &entries[..done])?,
        Vec::from_slice(alloc, &entries[done..listed])?,
        head.next - 1,
    ))
}

// The numbers of the entries that the head names.
fn named_numbers(alloc: Global, head: &Head) -> Result<Vec<u32>, AllocError>
    ensures { IfOk result (λ numbers. numbers.items ≡ named head.now) }
{
    let mut numbers = Vec::from_slice(alloc, head.done.as_slice())?;
    numbers.extend_from_slice(head.undone.as_slice())?;
    if let Some(pending) = head.pending {
        numbers.push(pending.entry)?;
    }
    Ok(numbers)
}

// Reads the entries of these numbers, and answers what they are listed as, and the least number
// whose entry can't be read.
fn read_all<S: Store>(
    alloc: Global,
    store: &mut S,
    numbers: &[u32],
) -> Result<(Vec<ListedEntry>, Option<u32>), Refusal>
    ensures listed { S.honest store.new
        → IfOk result (λ read. read.1 ≡ None
        → AllZip (IsListedIn (undo_folder_of (S.files store.old))) numbers.now read.0.items) }
    ensures all { IfOk result (λ read. read.1 ≡ None → length read.0.items ≡ length numbers.now) }
    ensures found { S.honest store.new
        → IfOk result (λ read. IsLeastFound (undo_folder_of (S.files store.old)) numbers.now read.1) }
    ensures refusal { IfErr result IsReadRefusal }
    ensures no_bad { (path : List ℕ) → result ≢ Err (Refusal.BadJournal path) }
    ensures fails { RefusedAsRead S.Store store.old store.new result }
    ensures reads { OnlyReads S.Store store.old store.new }
{
    let mut entries = Vec::new(alloc);
    let mut unreadable = None;
    for number in numbers {
        match listed_at(alloc, store, *number)? {
            Some(entry) => entries.push(entry)?,
            None => unreadable = Some(least(unreadable, *number)),
        }
    }
    Ok((entries, unreadable))
}

// What the entry of the number is listed as, if it can be read.
fn listed_at<S: Store>(
    alloc: Global,
    store: &mut S,
    number: u32,
) -> Result<Option<ListedEntry>, Refusal>
    ensures ok { S.honest store.new → IfOk result (IsFoundAt (undo_folder_of (S.files store.old)) number) }
    ensures refusal { IfErr result IsReadRefusal }
    ensures no_bad { (path : List ℕ) → result ≢ Err (Refusal.BadJournal path) }
    ensures fails { RefusedAsRead S.Store store.old store.new result }
    ensures reads { OnlyReads S.Store store.old store.new }
{
    match read_entry(alloc, store, number) {
        Ok(entry) => Ok(Some(listed(number, &entry))),
        Err(Refusal::BadJournal(_path)) => Ok(None),
        Err(refusal) => Err(refusal),
    }
}

// What an entry is listed as.
fn listed(number: u32, entry: &Entry) -> ListedEntry
    ensures { result ≡ listed_entry number entry.now }
{
    ListedEntry {
        number,
        when: entry.when,
        command: entry.command,
        count: entry.changes.as_slice().len(),
    }
}

// The lesser number.
fn least(one: Option<u32>, other: u32) -> u32
    ensures { result ≡ least one other }
{
    match one {
        Some(one) if one < other => one,
        _ => other,
    }
}
