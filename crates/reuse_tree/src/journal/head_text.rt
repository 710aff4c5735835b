//! The head as text, and back.
ghost use Rattle.std.specs.Prelude.{◌≡◌, ◌≢◌, ◌≤◌, ◌+◌, ◌*◌, ◌↔◌, true, AllPairs, IfOk, IsTrue, codes, length};
ghost use Rattle.serde_json.specs.View.{view, members_view};
ghost use Rattle.reuse_json.specs.Decoded.{Gives, GivesBy, IsAnswer};
ghost use Rattle.reuse_tree.specs.Head.{head_text, listed, head_value, pending_value as value_of_pending, IsGoodHead};
ghost use Rattle.reuse_tree.specs.Head.{IsJsonHead, IsSoundHead, PendingFits};
ghost use Rattle.reuse_tree.specs.HeadReading.{head_in, pending_in, some_pending_in, direction_from};
ghost use Rattle.reuse_json.specs.Json.{counts};
ghost use Rattle.reuse_json.specs.JsonReading.{field_in};
ghost use Rattle.reuse_tree.specs.declared.journal.head.Head.{Head};

use crate::journal::head::{Head, Pending, PendingDirection};
use reuse_change::layout::{LATEST_FORMAT, MOST_LISTED};
use reuse_json::fields::{
    Fields, field, fields, finish, next_format, next_numbers, next_small, text_of,
};
use reuse_json::trimmed::parse_trimmed;
use reuse_json::{DecodeFault, LengthLimit};
use reuse_text::LONGEST_FILE;
use serde_json::{Value, json};
use std::alloc::{AllocError, Global};

// One more than the greatest number of an entry.
const LARGEST_NEXT: u32 = 1_000_000;

/// The compact JSON text of a head.
pub fn encode_head(alloc: Global, head: &Head) -> Result<Vec<u8>, AllocError>
    ensures text { IfOk result (λ text. text.items ≡ head_text head.now) }
    ensures good { IsSoundHead head.now → IfOk result (λ text. IsGoodHead text.items head.now) }
    ensures bound { IsSoundHead head.now
        → IfOk result (λ text. length text.items ≤ 128 + 7 * length (listed head.now)) }
{
    let value = head_json(alloc, head)?;
    value.to_vec(alloc)
}

fn head_json(alloc: Global, head: &Head) -> Result<Value, AllocError>
    ensures { IfOk result (λ v. view v ≡ head_value true head.now) }
{
    json!(in alloc; {
        "done": numbers_value(alloc, head.done.as_slice())?,
        "format": LATEST_FORMAT,
        "next": head.next,
        "pending": pending_value(alloc, head.pending)?,
        "undone": numbers_value(alloc, head.undone.as_slice())?
    })
}

fn numbers_value(alloc: Global, numbers: &[u32]) -> Result<Value, AllocError>
    ensures { IfOk result (λ v. view v ≡ counts numbers.now) }
{
    let mut values = Vec::with_capacity(alloc, numbers.len())?;
    for number in numbers {
        values.push(Value::from(*number))?;
    }
    Ok(Value::Array(values))
}

fn pending_value(alloc: Global, pending: Option<Pending>) -> Result<Value, AllocError>
    ensures { IfOk result (λ v. view v ≡ value_of_pending pending) }
{
    match pending {
        None => Ok(Value::Null),
        Some(pending) => {
            json!(in alloc; {"entry": pending.entry, "way": pending.direction.name()})
        }
    }
}

/// The head that a text stands for; `NotGood` where there is none.
pub fn decode_head(alloc: Global, text: &[u8]) -> Result<Head, DecodeFault>
    ensures ok { IfOk result (IsGoodHead text.now) }
    ensures only { (head : Head) → IsGoodHead text.now head → IsAnswer result head }
{
    if text.len() > LONGEST_FILE {
        return Err(DecodeFault::NotGood);
    }
    let head = read_head(alloc, text)?;
    if is_sound(alloc, &head)? {
        Ok(head)
    } else {
        Err(DecodeFault::NotGood)
    }
}

// The head whose value the text is, sound or not.
fn read_head(alloc: Global, text: &[u8]) -> Result<Head, DecodeFault>
    ensures ok { IfOk result (IsJsonHead text.now) }
    ensures only { (h : Head) → IsSoundHead h → IsJsonHead text.now h → IsAnswer result h }
{
    let value = parse_trimmed(alloc, text, LengthLimit::Head)?;
    head_of(alloc, &value)
}

#[tactic(auto, unfolding(crate::specs::HeadReading::head_in))]
fn head_of(alloc: Global, value: &Value) -> Result<Head, DecodeFault>
    ensures { Gives result (head_in (view value.now)) }
{
    let mut members = fields(value)?;
    let done = next_numbers(alloc, &mut members, "done")?;
    let _second = next_format(&mut members, "format")?;
    let next = next_small(&mut members, "next")?;
    let pending = next_pending(&mut members)?;
    let undone = next_numbers(alloc, &mut members, "undone")?;
    finish(members)?;
    Ok(Head {
        done,
        undone,
        next,
        pending,
    })
}

fn next_pending(members: &mut Fields<'_>) -> Result<Option<Pending>, DecodeFault>
    ensures { GivesBy (λ pending. (pending, members_view members.new)) result
        (field_in pending_in (codes "pending") (members_view members.old)) }
{
    pending_of(field(members, "pending")?)
}

fn pending_of(value: &Value) -> Result<Option<Pending>, DecodeFault>
    ensures { Gives result (pending_in (view value.now)) }
{
    if value.is_null() {
        return Ok(None);
    }
    Ok(Some(some_pending_of(value)?))
}

#[tactic(auto, unfolding(crate::specs::HeadReading::some_pending_in))]
fn some_pending_of(value: &Value) -> Result<Pending, DecodeFault>
    ensures { Gives result (some_pending_in (view value.now)) }
{
    let mut members = fields(value)?;
    let entry = next_small(&mut members, "entry")?;
    let direction = direction_of(text_of(field(&mut members, "way")?)?)?;
    finish(members)?;
    Ok(Pending { entry, direction })
}

fn direction_of(name: &str) -> Result<PendingDirection, DecodeFault>
    ensures { Gives result (direction_from name.now) }
{
    if name == "do" {
        Ok(PendingDirection::Do)
    } else if name == "undo" {
        Ok(PendingDirection::Undo)
    } else if name == "redo" {
        Ok(PendingDirection::Redo)
    } else {
        Err(DecodeFault::NotGood)
    }
}

// Whether the numbers of a head fit one another.
fn is_sound(alloc: Global, head: &Head) -> Result<bool, AllocError>
    ensures { IfOk result (λ sound. IsTrue sound ↔ IsSoundHead head.now) }
{
    if head.next < 1 || head.next > LARGEST_NEXT {
        return Ok(false);
    }
    let done = head.done.as_slice();
    let undone = head.undone.as_slice();
    if done.len() > MOST_LISTED || undone.len() > MOST_LISTED - done.len() {
        return Ok(false);
    }
    let mut listed = Vec::from_slice(alloc, done)?;
    listed.extend_from_slice(undone)?;
    Ok(
        listed.iter().all(|n| 1 <= *n && *n < head.next)
            && are_distinct(listed.as_slice())
            && pending_fits(head.pending, head.next, done, undone),
    )
}

// Whether no number comes twice. It looks at each pair, so it is for a few thousand numbers.
fn are_distinct(numbers: &[u32]) -> bool
    ensures { IsTrue result ↔ AllPairs (λ m n. m ≢ n) numbers.now }
{
    for (i, number) in numbers.iter().enumerate() {
        if numbers[..i].contains(number) {
            return false;
        }
    }
    true
}

fn pending_fits(pending: Option<Pending>, next: u32, done: &[u32], undone: &[u32]) -> bool
    ensures { IsTrue result ↔ PendingFits pending next done.now undone.now }
{
    let Some(pending) = pending else {
        return true;
    };
    match pending.direction {
        PendingDirection::Do => pending.entry == next && pending.entry < LARGEST_NEXT,
        PendingDirection::Undo => done.last().copied() == Some(pending.entry),
        PendingDirection::Redo => undone.last().copied() == Some(pending.entry),
    }
}
