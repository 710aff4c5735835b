//! What a session remembers of the journal: its entries' labels, and not their changes.
ghost use Rattle.std.specs.Prelude.{◌≡◌, ◌<◌, ◌≤◌, ◌+◌, ◌*◌, ◌++◌, ◌∷◌, [], Option, None, Some, List, IfOk, length};
ghost use Rattle.std.specs.Prelude.{map, not, reverse, take_while, ◌==◌, true, false};
ghost use Rattle.std.specs.Option.{option_copied};
ghost use Rattle.reuse_tree.specs.Head.{head_text, IsGoodHead, IsSoundHead};
ghost use Rattle.reuse_journal.specs.History.{Memory, head_listing, row_listing, rows_listing, remember_run};
ghost use Rattle.reuse_journal.specs.History.{entries_ahead, remember_moved, numbers_after};
ghost use Rattle.reuse_journal.specs.Labels.{is_full};
ghost use Rattle.reuse_journal.specs.Numbered.{all_numbers, entries_besides, first_unlisted, is_listed, is_one_of};
ghost use Rattle.reuse_journal.specs.Numbered.{memory_besides};
ghost use Rattle.reuse_journal.specs.Numbered.{entry_of, row_in};
ghost use Rattle.reuse_journal.specs.Numbered.{lists};
ghost use Rattle.reuse_change.specs.declared.layout.TheConstants.{LAST_NUMBER};
ghost use Rattle.reuse_journal.specs.declared.history.ListedEntry.{ListedEntry};

use reuse_change::layout::{LAST_NUMBER, MOST_LISTED};
use reuse_change::{CommandName, Direction, EntryNumbers, Moment};
use reuse_command::reply::{Row, Rows};
use reuse_tree::{Head, Pending, encode_head};
use std::alloc::{AllocError, Global};
use std::marker::Model;

/// An entry that the head lists: what names it, and how many paths it changed.
#[derive(Clone, Copy, Debug)]
pub struct ListedEntry {
    pub number: u32,
    pub when: Moment,
    pub command: CommandName,
    pub count: usize,
}

impl ListedEntry {
    /// Its number.
    pub fn number(&self) -> u32
        ensures { result ≡ self.now.number }
    {
        self.number
    }
}

/// The entries of a session in the head's order: those done, the oldest first, and those undone,
/// the next to be redone last.
#[derive(Drop)]
pub struct History {
    done: Vec<ListedEntry>,
    undone: Vec<ListedEntry>,
    // How many numbers are used.
    used: u32,
    ghost within: { used ≤ LAST_NUMBER },
}

impl Model for History {
    ghost use Rattle.reuse_journal.specs.History.{Memory};

    ghost Value = { Memory };

    ghost view = { λ h. record { done = h.done.items; undone = h.undone.items; used = h.used } };
}

impl History {
    /// These entries.
    pub fn new(done: Vec<ListedEntry>, undone: Vec<ListedEntry>, used: u32) -> History
        requires { used ≤ LAST_NUMBER }
        ensures { result ≡ record { done = done.items; undone = undone.items; used = used } }
    {
        History { done, undone, used }
    }

    /// How many numbers are used.
    pub fn used(&self) -> u32
        ensures { result ≡ self.now.used }
    {
        self.used
    }

    /// Whether no further entry can be done.
    pub fn is_full(&self) -> bool
        ensures { result ≡ is_full (length self.now.done) self.now.used }
    {
        self.done.len() >= MOST_LISTED || self.used >= LAST_NUMBER
    }

    /// The entry that this way goes on with: an undo undoes it, or a redo makes it again.
    pub fn next(&self, direction: Direction) -> Option<ListedEntry>
        ensures none { result ≡ None → entries_ahead direction self.now ≡ [] }
        ensures some { (entry : ListedEntry) → result ≡ Some entry → (front : List ListedEntry)
            × (entries_ahead direction self.now ≡ front ++ entry ∷ []) }
    {
        match direction {
            Direction::Forward => self.undone.last().copied(),
            Direction::Backward => self.done.last().copied(),
        }
    }

    /// What is remembered after a run: the entry is done, and none is undone.
    pub fn after_run(&self, alloc: Global, entry: ListedEntry) -> Result<History, AllocError>
        requires { self.now.used < LAST_NUMBER }
        ensures { IfOk result (λ history. history ≡ remember_run self.now entry) }
    {
        Ok(History {
            done: with_entry(alloc, self.done.as_slice(), entry)?,
            undone: Vec::new(alloc),
            used: self.used + 1,
        })
    }

    /// What is remembered after the entry that this way goes on with.
    pub fn after(
        &self,
        alloc: Global,
        entry: ListedEntry,
        direction: Direction,
    ) -> Result<History, AllocError>
        ensures { (front : List ListedEntry) → entries_ahead direction self.now ≡ front ++ entry ∷ []
            → IfOk result (λ history. history ≡ remember_moved direction front entry self.now) }
    {
        match direction {
            Direction::Forward => Ok(History {
                done: with_entry(alloc, self.done.as_slice(), entry)?,
                undone: without_last(alloc, self.undone.as_slice())?,
                used: self.used,
            }),
            Direction::Backward => Ok(History {
                done: without_last(alloc, self.done.as_slice())?,
                undone: with_entry(alloc, self.undone.as_slice(), entry)?,
                used: self.used,
            }),
        }
    }

    /// The text of the head that lists the entries.
    pub fn head_text(&self, alloc: Global, pending: Option<Pending>) -> Result<Vec<u8>, AllocError>
        ensures text { IfOk result (λ text. text.items ≡ head_text (head_listing self.now pending)) }
        ensures good { IsSoundHead (head_listing self.now pending)
            → IfOk result (λ text. IsGoodHead text.items (head_listing self.now pending)) }
        ensures bound { IsSoundHead (head_listing self.now pending)
            → IfOk result (λ text. length text.items ≤ 128 + 7 * (length self.now.done + length self.now.undone)) }
    {
        let head = Head {
            done: numbers_of(alloc, self.done.as_slice())?,
            undone: numbers_of(alloc, self.undone.as_slice())?,
            next: self.used + 1,
            pending,
        };
        encode_head(alloc, &head)
    }

    /// Whether an entry of this number is done.
    pub fn is_done(&self, number: u32) -> bool
        ensures { result ≡ lists self.now.done number }
    {
        self.done.iter().any(|entry| entry.number == number)
    }

    /// The numbers of the entries that were done after that of this number, the newest first.
    pub fn numbers_after(&self, alloc: Global, number: u32) -> Result<Vec<u32>, AllocError>
        ensures { IfOk result (λ numbers. numbers.items ≡ numbers_after self.now.done number) }
    {
        let later = self.done.len() - count_after(self.done.as_slice(), number);
        numbers_back(alloc, &self.done[later..])
    }

    /// The first of these numbers that no entry has, done or undone.
    pub fn first_unlisted(&self, numbers: &[u32]) -> Option<u32>
        ensures { result ≡ first_unlisted self.now numbers.now }
    {
        first_unlisted(self, numbers).copied()
    }

    // Whether an entry has the number, done or undone.
    fn lists(&self, number: u32) -> bool
        ensures { result ≡ is_listed self.now number }
    {
        lists(self.done.as_slice(), number) || lists(self.undone.as_slice(), number)
    }

    /// What is remembered without the entries of these numbers.
    pub fn without(&self, alloc: Global, numbers: &[u32]) -> Result<History, AllocError>
        ensures { IfOk result (λ history. history ≡ memory_besides numbers.now self.now) }
    {
        Ok(History {
            done: entries_besides(Vec::from_slice(alloc, self.done.as_slice())?, numbers),
            undone: entries_besides(Vec::from_slice(alloc, self.undone.as_slice())?, numbers),
            used: self.used,
        })
    }

    /// The numbers of all entries.
    pub fn all_numbers(&self, alloc: Global) -> Result<Vec<u32>, AllocError>
        ensures { IfOk result (λ numbers. numbers.items ≡ all_numbers self.now) }
    {
        let mut numbers = numbers_of(alloc, self.done.as_slice())?.into_vec();
        let mut more = numbers_of(alloc, self.undone.as_slice())?.into_vec();
        numbers.append(&mut more)?;
        Ok(numbers)
    }

    /// The row of the entry of this number, done or undone.
    pub fn row(&self, number: u32) -> Option<Row>
        ensures { result ≡ row_in self.now number }
    {
        match entry_of(self.done.as_slice(), number) {
            Some(entry) => Some(row_of(entry, true)),
            None => match entry_of(self.undone.as_slice(), number) {
                Some(entry) => Some(row_of(entry, false)),
                None => None,
            },
        }
    }

    /// The rows of a log.
    pub fn rows(&self, alloc: Global) -> Result<Rows, AllocError>
        ensures { IfOk result (λ rows. rows ≡ rows_listing self.now) }
    {
        let mut rows = Vec::new(alloc);
        for entry in &self.done {
            rows.push(row_of(entry, true))?;
        }
        for entry in self.undone.iter().rev() {
            rows.push(row_of(entry, false))?;
        }
        Ok(Rows::new(rows))
    }
}

// The first entry of this number.
fn entry_of(entries: &[ListedEntry], number: u32) -> Option<&ListedEntry>
    ensures { option_copied result ≡ entry_of entries.now number }
{
    entries.iter().find(|entry| entry.number == number)
}

// How many entries are behind the last of this number.
fn count_after(entries: &[ListedEntry], number: u32) -> usize
    ensures count { result ≡ length
        (take_while (λ (entry : ListedEntry). not (entry.number == number)) (reverse entries.now)) }
    ensures room { result ≤ length entries.now }
{
    entries
        .iter()
        .rev()
        .take_while(|entry| entry.number != number)
        .count()
}

// The numbers of the entries, from the last on back.
fn numbers_back(alloc: Global, entries: &[ListedEntry]) -> Result<Vec<u32>, AllocError>
    ensures { IfOk result
        (λ numbers. numbers.items ≡ map (λ (entry : ListedEntry). entry.number) (reverse entries.now)) }
{
    let mut numbers = Vec::with_capacity(alloc, entries.len())?;
    for entry in entries.iter().rev() {
        numbers.push(entry.number)?;
    }
    Ok(numbers)
}

// The row of an entry.
fn row_of(entry: &ListedEntry, done: bool) -> Row
    ensures { result ≡ row_listing done entry.now }
{
    Row {
        number: entry.number,
        when: entry.when,
        command: entry.command,
        count: entry.count,
        done,
    }
}

// The entries, and one more.
fn with_entry(
    alloc: Global,
    entries: &[ListedEntry],
    entry: ListedEntry,
) -> Result<Vec<ListedEntry>, AllocError>
    ensures { IfOk result (λ list. list.items ≡ entries.now ++ entry ∷ []) }
{
    let mut list = Vec::from_slice(alloc, entries)?;
    list.push(entry)?;
    Ok(list)
}

// The entries without the last.
fn without_last(alloc: Global, entries: &[ListedEntry]) -> Result<Vec<ListedEntry>, AllocError>
    ensures { (front : List ListedEntry) → (entry : ListedEntry) → entries.now ≡ front ++ entry ∷ []
        → IfOk result (λ list. list.items ≡ front) }
{
    let mut list = Vec::from_slice(alloc, entries)?;
    list.pop();
    Ok(list)
}

// Whether one of the entries has the number.
fn lists(entries: &[ListedEntry], number: u32) -> bool
    ensures { result ≡ lists entries.now number }
{
    entries.iter().any(|entry| entry.number == number)
}

// The first of the numbers that no entry has.
fn first_unlisted<'a>(history: &History, numbers: &'a [u32]) -> Option<&'a u32>
    ensures { option_copied result ≡ first_unlisted history.now numbers.now }
{
    numbers.iter().find(|number| !history.lists(**number))
}

// The entries whose number is none of these.
fn entries_besides(entries: Vec<ListedEntry>, numbers: &[u32]) -> Vec<ListedEntry>
    ensures { result.items ≡ entries_besides numbers.now entries.items }
{
    let mut left = entries;
    left.retain(|entry| is_besides(numbers, entry));
    left
}

fn is_besides(numbers: &[u32], entry: &ListedEntry) -> bool
    ensures { result ≡ not (is_one_of numbers.now entry.now.number) }
{
    !is_one_of(numbers, entry.number)
}

fn is_one_of(numbers: &[u32], number: u32) -> bool
    ensures { result ≡ is_one_of numbers.now number }
{
    numbers.iter().any(|other| *other == number)
}

// The numbers of the entries.
fn numbers_of(alloc: Global, entries: &[ListedEntry]) -> Result<EntryNumbers, AllocError>
    ensures { IfOk result (λ numbers. numbers ≡ map (λ (entry : ListedEntry). entry.number) entries.now) }
{
    let mut numbers = Vec::with_capacity(alloc, entries.len())?;
    for entry in entries {
        numbers.push(entry.number)?;
    }
    Ok(EntryNumbers::new(numbers))
}
