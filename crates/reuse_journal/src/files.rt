//! The files of the journal: reads and puts its head and its entries.
ghost use Rattle.std.specs.Prelude.{◌≡◌, ◌≢◌, ◌⊎◌, ◌<◌, ◌≤◌, ◌+◌, ℕ, List, Option, Some, true, IfOk, IfErr, OnOk};
ghost use Rattle.std.specs.Prelude.{OnErr, IsErrOf, length};
ghost use Rattle.std.specs.FinMap as map;
ghost use Rattle.reuse_change.specs.Files.{Clashes, tree_of};
ghost use Rattle.reuse_store.specs.Store.{reading_of};
ghost use Rattle.reuse_command.specs.declared.failure.Fault.TheVariants as faults;
ghost use Rattle.reuse_command.specs.Answer.{IsReadRefusal, bad_text, RefusedAsRead, IsEarlyFailure};
ghost use Rattle.reuse_change.specs.Entry.{IsEntry, entry_size};
ghost use Rattle.reuse_json.specs.EntryText.{entry_text, is_any_sealed, HavePaths};
ghost use Rattle.reuse_json.specs.Format.{knows};
ghost use Rattle.reuse_tree.specs.Head.{IsSoundHead};
ghost use Rattle.reuse_journal.specs.Remembered.{HasEntryText, IsSameBut};
ghost use Rattle.reuse_change.specs.Tree.{Sets, undo_folder_of};
ghost use Rattle.reuse_journal.specs.JournalFiles.{digit, head_path, entry_path, HeadSays, EntrySays};
ghost use Rattle.reuse_tree.specs.declared.journal.head.Head.{Head};
ghost use Rattle.reuse_json.specs.declared.entry.Entry.{Entry};
ghost use Rattle.reuse_store.specs.Asked.{OnlyReads, IsLater, IsSynced, MaySet};
ghost use Rattle.reuse_journal.specs.Losses.{HaveTree};
ghost use Rattle.reuse_command.specs.declared.failure.Fault.{Fault};
ghost use Rattle.reuse_command.specs.declared.failure.Failure.TheVariants as failures;

use reuse_change::layout::{BEFORE_NUMBER, BEHIND_NUMBER, HEAD, LARGEST_ENTRY};
use reuse_change::{EntryNumbers, PathText};
use reuse_command::failure::Failure;
use reuse_command::known_path::known_path;
use reuse_command::reply::Refusal;
use reuse_json::{DecodeFault, Entry};
use reuse_store::{Cause, Reading, Store};
use reuse_text::LONGEST_FILE;
use reuse_tree::{Head, decode_entry, decode_head, encode_entry};
use std::alloc::{AllocError, Global};
use std::marker::Model;

/// The path of the head.
pub fn head_path(alloc: Global) -> Result<PathText, AllocError>
    ensures { IfOk result (λ path. path ≡ head_path) }
{
    known_path(alloc, HEAD)
}

/// The path of the head. It is made before the first put, so that an allocation failure for it is
/// no stop.
#[derive(Drop)]
pub struct HeadPath {
    path: PathText,
}

impl Model for HeadPath {
    ghost Value = { List ℕ };

    ghost view = { λ p. p.path };

    ghost invariant = { λ p. p.path ≡ head_path };
}

impl HeadPath {
    /// Makes the path.
    pub fn new(alloc: Global) -> Result<HeadPath, AllocError>
        ensures { IfOk result (λ path. path ≡ head_path) }
    {
        Ok(HeadPath {
            path: head_path(alloc)?,
        })
    }
}

/// A head that is to be put: its path and its text.
#[derive(Clone, Copy)]
pub struct NewHead<'a> {
    /// Where it is put.
    pub path: &'a HeadPath,
    /// What it says.
    pub text: &'a [u8],
}

/// The path of the entry of this number.
pub fn entry_path(alloc: Global, number: u32) -> Result<PathText, AllocError>
    ensures { IfOk result (λ path. path ≡ entry_path number) }
{
    let mut text = String::from_str(alloc, BEFORE_NUMBER)?;
    text.push(digit(number, 100_000))?;
    text.push(digit(number, 10_000))?;
    text.push(digit(number, 1_000))?;
    text.push(digit(number, 100))?;
    text.push(digit(number, 10))?;
    text.push(digit(number, 1))?;
    text.push_str(BEHIND_NUMBER)?;
    known_path(alloc, text.as_str())
}

// The digit of a number at this place.
fn digit(number: u32, place: u32) -> char
    requires { 0 < place }
    ensures { result ≡ digit number place }
{
    char::from(b'0' + (number / place % 10) as u8)
}

/// The head; that of an empty journal where it has no file.
pub fn read_head<S: Store>(alloc: Global, store: &mut S) -> Result<Head, Refusal>
    ensures ok { S.honest store.new → IfOk result (HeadSays (map.get (undo_folder_of (S.files store.old)) head_path)) }
    ensures bad { S.honest store.new → (path : List ℕ) → result ≡ Err (Refusal.BadJournal path)
        → (path ≡ head_path)
        × ((head : Head) → ¬ (HeadSays (map.get (undo_folder_of (S.files store.old)) head_path) head)) }
    ensures sound { IfOk result IsSoundHead }
    ensures refusal { IfErr result IsReadRefusal }
    ensures fails { RefusedAsRead S.Store store.old store.new result }
    ensures reads { OnlyReads S.Store store.old store.new }
{
    let path = head_path(alloc)?;
    let reading = store.read(alloc, &path, LONGEST_FILE)?;
    head_in(alloc, path, reading)
}

// The head that was read at the path.
fn head_in(alloc: Global, path: PathText, reading: Reading) -> Result<Head, Refusal>
    ensures ok { (file : Option (List ℕ)) → reading ≡ reading_of file LONGEST_FILE → IfOk result (HeadSays file) }
    ensures bad { (file : Option (List ℕ)) → reading ≡ reading_of file LONGEST_FILE → (place : List ℕ)
        → result ≡ Err (Refusal.BadJournal place)
        → (place ≡ path) × ((head : Head) → ¬ (HeadSays file head)) }
    ensures sound { IfOk result IsSoundHead }
    ensures refusal { IfErr result IsReadRefusal }
    ensures no_fault { (fault : Fault) → result ≢ Err (Refusal.Failed (failures.Fault fault)) }
{
    match reading {
        Reading::Absent => Ok(Head {
            done: EntryNumbers::new(Vec::new(alloc)),
            undone: EntryNumbers::new(Vec::new(alloc)),
            next: 1,
            pending: None,
        }),
        Reading::Found(text) => match decode_head(alloc, text.as_slice()) {
            Ok(head) => Ok(head),
            Err(fault) => Err(bad_text(path, fault)),
        },
        Reading::TooLong => Err(Refusal::BadJournal(path)),
    }
}

/// The entry of this number.
pub fn read_entry<S: Store>(alloc: Global, store: &mut S, number: u32) -> Result<Entry, Refusal>
    ensures ok { S.honest store.new
        → IfOk result (EntrySays (map.get (undo_folder_of (S.files store.old)) (entry_path number))) }
    ensures good { IfOk result (λ entry. IsEntry entry.changes) }
    ensures paths { IfOk result (λ entry. HavePaths entry.changes) }
    ensures bad { S.honest store.new → (path : List ℕ) → result ≡ Err (Refusal.BadJournal path)
        → (path ≡ entry_path number)
        × ((entry : Entry) → ¬ (EntrySays (map.get (undo_folder_of (S.files store.old)) (entry_path number)) entry)) }
    ensures refusal { IfErr result IsReadRefusal }
    ensures fails { RefusedAsRead S.Store store.old store.new result }
    ensures reads { OnlyReads S.Store store.old store.new }
{
    let path = entry_path(alloc, number)?;
    let reading = store.read(alloc, &path, LARGEST_ENTRY)?;
    entry_in(alloc, path, reading)
}

// The entry that was read at the path.
fn entry_in(alloc: Global, path: PathText, reading: Reading) -> Result<Entry, Refusal>
    ensures ok { (file : Option (List ℕ)) → reading ≡ reading_of file LARGEST_ENTRY → IfOk result (EntrySays file) }
    ensures good { IfOk result (λ entry. IsEntry entry.changes) }
    ensures paths { IfOk result (λ entry. HavePaths entry.changes) }
    ensures bad { (file : Option (List ℕ)) → reading ≡ reading_of file LARGEST_ENTRY → (place : List ℕ)
        → result ≡ Err (Refusal.BadJournal place)
        → (place ≡ path) × ((entry : Entry) → ¬ (EntrySays file entry)) }
    ensures refusal { IfErr result IsReadRefusal }
    ensures no_fault { (fault : Fault) → result ≢ Err (Refusal.Failed (failures.Fault fault)) }
{
    match reading {
        Reading::Found(text) => match decode_entry(alloc, text.as_slice()) {
            Ok(entry) => Ok(entry),
            Err(fault) => Err(bad_text(path, fault)),
        },
        Reading::Absent | Reading::TooLong => Err(Refusal::BadJournal(path)),
    }
}

// The refusal of a text of the journal.
fn bad_text(path: PathText, fault: DecodeFault) -> Refusal
    ensures { result ≡ bad_text path fault }
{
    match fault {
        DecodeFault::NotGood => Refusal::BadJournal(path),
        DecodeFault::Memory => Refusal::Failed(Failure::Memory),
    }
}

/// Puts the entry's file, and behind it a barrier.
pub fn put_entry<S: Store>(
    alloc: Global,
    store: &mut S,
    number: u32,
    entry: &Entry,
) -> Result<(), Refusal>
    ensures ok { S.honest store.new → IsEntry entry.now.changes
        → knows (is_any_sealed entry.now.changes) entry.now.command ≡ true
        → OnOk result (EntrySays (map.get (S.files store.new) (entry_path number)) entry.now) }
    ensures text { S.honest store.new → OnOk result (HasEntryText number entry.now (S.files store.new)) }
    ensures counted { OnOk result (S.written store.new ≡ S.written store.old + length (entry_text entry.now)) }
    // No other path holds something else, whatever it answers.
    ensures others { S.honest store.new → IsSameBut (entry_path number) (S.files store.old) (S.files store.new) }
    // A loss of power may leave what it might before, with the entry or without; and behind the
    // barrier what is there, if the tree was certain.
    ensures left { IsEntry entry.now.changes → knows (is_any_sealed entry.now.changes) entry.now.command ≡ true
        → MaySet S.Store (entry_path number) (λ file. EntrySays file entry.now) store.old store.new }
    ensures durable { S.honest store.new → HaveTree S.Store store.old (tree_of (S.files store.old))
        → OnOk result (IsSynced S.Store store.new) }
    ensures refusal { IfErr result IsEarlyFailure }
    ensures clash { S.honest store.new → result ≡ Err (Refusal.Failed (failures.Fault faults.Clash))
        → Clashes (S.files store.old) (entry_path number) }
    ensures device { result ≡ Err (Refusal.Failed (failures.Fault faults.Device))
        → S.failures store.old < S.failures store.new }
    ensures written { IsEntry entry.now.changes
        → S.written store.new ≤ S.written store.old + entry_size entry.now.changes }
    ensures mutations { S.mutations store.new ≤ S.mutations store.old + 1 }
    ensures later { IsLater S.Store store.old store.new }
{
    let path = entry_path(alloc, number)?;
    let text = encode_entry(alloc, entry)?;
    store.put(alloc, &path, text.as_slice())?;
    store.sync(alloc, &[])?;
    Ok(())
}

/// Puts this text of a head, and behind it a barrier.
pub fn put_head<S: Store>(
    alloc: Global,
    store: &mut S,
    head: &HeadPath,
    text: &[u8],
) -> Result<(), Cause>
    ensures ok { S.honest store.new
        → OnOk result (Sets head_path (Some text.now) (S.files store.old) (S.files store.new)) }
    ensures err { S.honest store.new → OnErr result ((S.files store.new ≡ S.files store.old)
        ⊎ Sets head_path (Some text.now) (S.files store.old) (S.files store.new)) }
    ensures clash { S.honest store.new → result ≡ Err Cause.Clash → Clashes (S.files store.old) head_path }
    ensures moved { result ≢ Err Cause.Moved }
    // A loss of power may leave what it might before, with this head or without; and behind the
    // barrier what is there, if the tree was certain.
    ensures left { MaySet S.Store head_path (λ file. file ≡ Some text.now) store.old store.new }
    ensures durable { S.honest store.new → HaveTree S.Store store.old (tree_of (S.files store.old))
        → OnOk result (IsSynced S.Store store.new) }
    ensures device { IsErrOf result Cause.Device → S.failures store.old < S.failures store.new }
    ensures written { S.written store.new ≤ S.written store.old + length text.now }
    ensures counted { S.written store.old + length text.now ≤ S.written store.new }
    ensures mutations { S.mutations store.new ≡ S.mutations store.old + 1 }
    ensures later { IsLater S.Store store.old store.new }
{
    store.put(alloc, &head.path, text)?;
    Ok(store.sync(alloc, &[])?)
}
