//! Whether changes are more than an entry holds.
ghost use Rattle.std.specs.Prelude.{◌≡◌, ◌-◌, ◌*◌, ◌<◌, ◌≤◌, ◌||◌, length, nat_lt, SomeIff};
ghost use Rattle.reuse_change.specs.Entry.{change_size, entry_size, fixed_size, removed_by, written_by};
ghost use Rattle.reuse_change.specs.Change.{is_sealed};

use crate::change::Change;
use crate::layout::{LARGEST_ENTRY, MOST_CHANGES};

/// Whether the changes are more than an entry has, or their entry size is over the largest.
pub fn is_too_many(changes: &[Change]) -> bool
    ensures { result ≡ (nat_lt MOST_CHANGES (length changes.now) || nat_lt LARGEST_ENTRY (entry_size changes.now)) }
{
    if changes.len() > MOST_CHANGES {
        return true;
    }
    let mut room = LARGEST_ENTRY - 256;
    for change in changes {
        match room_after(room, change) {
            None => return true,
            Some(left) => room = left,
        }
    }
    false
}

// What is left of the room after a change, if that fits.
fn room_after(room: usize, change: &Change) -> Option<usize>
    ensures { SomeIff result (change_size change.now ≤ room) (room - change_size change.now) }
{
    let (removed, written) = lengths(change);
    let room = without(room, 1, fixed_size(change))?;
    let room = without(room, 6, change.path().as_bytes().len())?;
    let room = without(room, 2, removed)?;
    without(room, 2, written)
}

// What a change counts for beside its path and its bytes.
fn fixed_size(change: &Change) -> usize
    ensures { result ≡ fixed_size (is_sealed change.now) }
{
    if change.is_sealed() { 512 } else { 256 }
}

// How many bytes a change takes away, and how many it writes.
fn lengths(change: &Change) -> (usize, usize)
    ensures removed { result.0 ≡ length (removed_by change.now) }
    ensures written { result.1 ≡ length (written_by change.now) }
{
    match change {
        Change::Make { new, .. } => (0, new.len()),
        Change::Drop { old, .. } => (old.len(), 0),
        Change::Splice { old, new, .. } => (old.len(), new.len()),
    }
}

// What is left of the room without `count` times `each`, if that fits.
fn without(room: usize, each: usize, count: usize) -> Option<usize>
    requires { 0 < each }
    ensures { SomeIff result (each * count ≤ room) (room - each * count) }
{
    if count > room / each {
        return None;
    }
    Some(room - each * count)
}
