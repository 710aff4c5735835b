//! An entry's text, read.
ghost use Rattle.std.specs.Prelude.{◌≡◌, ◌≤◌, None, Some, IfOk, codes, length};
ghost use Rattle.serde_json.specs.Data.{Data};
ghost use Rattle.serde_json.specs.View.{view, members_view};
ghost use Rattle.reuse_json.specs.Decoded.{Gives, GivesBy, IsAnswer};
ghost use Rattle.reuse_json.specs.EntryText.{HavePaths, IsGoodEntry, IsJsonEntry};
ghost use Rattle.reuse_json.specs.EntryReading.{change_in, command_from, command_in, drop_in, frame_in, if_known};
ghost use Rattle.reuse_json.specs.EntryReading.{make_in, seal_of, splice_bytes_in, splice_end_in, splice_in, whole_in};
ghost use Rattle.reuse_json.specs.Json.{IsJson};
ghost use Rattle.reuse_json.specs.JsonReading.{field_in};
ghost use Rattle.reuse_json.specs.Trimmed.{trim};
ghost use Rattle.reuse_json.specs.declared.entry.Entry.{Entry};

use crate::journal::changes_reading::read_changes;
use crate::journal::entry_checks::are_sound;
use crate::journal::written_entry::{knows, read_written};
use reuse_change::layout::{LARGEST_ENTRY, MOST_CHANGES};
use reuse_change::{Change, CommandName, Digest, Moment, PathText, Seal};
use reuse_json::fields::{
    Fields, expect_next, field, fields, finish, next_bytes, next_digest, next_format, next_moment,
    next_number, next_path, text_of,
};
use reuse_json::trimmed::parse_trimmed;
use reuse_json::{Changes, DecodeFault, Entry, LengthLimit};
use reuse_text::Bytes;
use serde_json::Value;
use std::alloc::Global;

/// The entry that a text stands for; `NotGood` where there is none.
pub fn decode_entry(alloc: Global, text: &[u8]) -> Result<Entry, DecodeFault>
    ensures ok { IfOk result (IsGoodEntry text.now) }
    ensures only { (entry : Entry) → IsGoodEntry text.now entry → IsAnswer result entry }
{
    if text.len() > LARGEST_ENTRY {
        return Err(DecodeFault::NotGood);
    }
    match read_written(alloc, text) {
        Ok(entry) => Ok(entry),
        Err(DecodeFault::Memory) => Err(DecodeFault::Memory),
        Err(DecodeFault::NotGood) => judge(alloc, text),
    }
}

// The same, however the text is spelled.
fn judge(alloc: Global, text: &[u8]) -> Result<Entry, DecodeFault>
    requires { length text.now ≤ LARGEST_ENTRY }
    ensures ok { IfOk result (IsGoodEntry text.now) }
    ensures only { (entry : Entry) → IsGoodEntry text.now entry → IsAnswer result entry }
{
    let entry = read_entry(alloc, text)?;
    if are_sound(entry.changes.as_slice()) {
        Ok(entry)
    } else {
        Err(DecodeFault::NotGood)
    }
}

// The entry whose value the text is, sound or not. It reads the text twice: the format, which may
// stand behind the changes, says how each of them is read.
fn read_entry(alloc: Global, text: &[u8]) -> Result<Entry, DecodeFault>
    ensures ok { IfOk result (λ entry. IsJsonEntry text.now entry × (entry.when ≤ 250_000_000_000)) }
    ensures only { (entry : Entry) → HavePaths entry.changes → entry.when ≤ 250_000_000_000
        → length entry.changes ≤ MOST_CHANGES → IsJsonEntry text.now entry → IsAnswer result entry }
{
    let frame = read_frame(alloc, text)?;
    let (command, sealed, when) = frame;
    let changes = read_changes(alloc, text, sealed)?;
    Ok(Entry {
        changes: Changes::new(changes),
        command,
        when,
    })
}

// Of the entry whose value the text is, all but the changes.
fn read_frame(alloc: Global, text: &[u8]) -> Result<(CommandName, bool, Moment), DecodeFault>
    ensures ok { IfOk result
        (λ frame. (d : Data) × IsJson text.now d × (frame_in (trim LengthLimit.Entry d) ≡ Some frame)) }
    ensures refused { result ≡ Err DecodeFault.NotGood
        → (d : Data) → IsJson text.now d → frame_in (trim LengthLimit.Entry d) ≡ None }
{
    let value = parse_trimmed(alloc, text, LengthLimit::Entry)?;
    frame_of(&value)
}

#[tactic(auto, unfolding(reuse_json::specs::EntryReading::frame_in))]
fn frame_of(value: &Value) -> Result<(CommandName, bool, Moment), DecodeFault>
    ensures { Gives result (frame_in (view value.now)) }
{
    let mut members = fields(value)?;
    let _changes = field(&mut members, "changes")?;
    let command = next_command(&mut members)?;
    let sealed = next_format(&mut members, "format")?;
    expect_known(sealed, command)?;
    let when = next_moment(&mut members, "when")?;
    finish(members)?;
    Ok((command, sealed, when))
}

fn next_command(members: &mut Fields<'_>) -> Result<CommandName, DecodeFault>
    ensures { GivesBy (λ command. (command, members_view members.new)) result
        (field_in command_in (codes "command") (members_view members.old)) }
{
    command_of(text_of(field(members, "command")?)?)
}

fn command_of(name: &str) -> Result<CommandName, DecodeFault>
    ensures { Gives result (command_from name.now) }
{
    if name == "annotate" {
        Ok(CommandName::Annotate)
    } else if name == "convert-dep5" {
        Ok(CommandName::ConvertDep5)
    } else if name == "download" {
        Ok(CommandName::Download)
    } else if name == "revert" {
        Ok(CommandName::Revert)
    } else if name == "amend" {
        Ok(CommandName::Amend)
    } else if name == "styles" {
        Ok(CommandName::AddStyles)
    } else {
        Err(DecodeFault::NotGood)
    }
}

// The first format doesn't know each command.
fn expect_known(sealed: bool, command: CommandName) -> Result<(), DecodeFault>
    ensures { Gives result (if_known sealed command) }
{
    if knows(sealed, command) {
        Ok(())
    } else {
        Err(DecodeFault::NotGood)
    }
}

/// The change that the value is.
#[tactic(auto, unfolding(reuse_json::specs::EntryReading::change_in))]
pub(crate) fn change_of(alloc: Global, value: &Value, sealed: bool) -> Result<Change, DecodeFault>
    ensures { Gives result (change_in sealed (view value.now)) }
{
    let kind = value.get("kind").ok_or(DecodeFault::NotGood)?;
    let name = text_of(kind)?;
    if name == "make" {
        make_of(alloc, value, sealed)
    } else if name == "drop" {
        drop_of(alloc, value, sealed)
    } else if name == "splice" {
        splice_of(alloc, value, sealed)
    } else {
        Err(DecodeFault::NotGood)
    }
}

#[tactic(auto, unfolding(reuse_json::specs::EntryReading::make_in))]
fn make_of(alloc: Global, value: &Value, sealed: bool) -> Result<Change, DecodeFault>
    ensures { Gives result (make_in sealed (view value.now)) }
{
    let (path, new, after) = whole_of(alloc, value, sealed, "after", "make", "new")?;
    Ok(Change::Make { path, new, after })
}

#[tactic(auto, unfolding(reuse_json::specs::EntryReading::drop_in))]
fn drop_of(alloc: Global, value: &Value, sealed: bool) -> Result<Change, DecodeFault>
    ensures { Gives result (drop_in sealed (view value.now)) }
{
    let (path, old, before) = whole_of(alloc, value, sealed, "before", "drop", "old")?;
    Ok(Change::Drop { path, old, before })
}

// Of a whole file that is made or removed: the path, the bytes under this name, and the digest
// under this key.
#[tactic(auto, unfolding(reuse_json::specs::EntryReading::whole_in))]
fn whole_of(
    alloc: Global,
    value: &Value,
    sealed: bool,
    key: &str,
    kind: &str,
    name: &str,
) -> Result<(PathText, Bytes, Option<Digest>), DecodeFault>
    ensures { Gives result (whole_in sealed key.now kind.now name.now (view value.now)) }
{
    let mut members = fields(value)?;
    let digest = next_digest(alloc, &mut members, key, sealed)?;
    expect_next(&mut members, "kind", kind)?;
    let bytes = next_bytes(alloc, &mut members, name)?;
    let path = next_path(alloc, &mut members, "path")?;
    finish(members)?;
    Ok((path, bytes, digest))
}

#[tactic(auto, unfolding(reuse_json::specs::EntryReading::splice_in))]
fn splice_of(alloc: Global, value: &Value, sealed: bool) -> Result<Change, DecodeFault>
    ensures { Gives result (splice_in sealed (view value.now)) }
{
    let mut members = fields(value)?;
    let after = next_digest(alloc, &mut members, "after", sealed)?;
    let at = next_number(&mut members, "at")? as usize;
    let before = next_digest(alloc, &mut members, "before", sealed)?;
    splice_bytes_of(alloc, members, at, seal_of(before, after))
}

// Of a splice: from the kind on.
#[tactic(auto, unfolding(reuse_json::specs::EntryReading::splice_bytes_in))]
fn splice_bytes_of(
    alloc: Global,
    mut members: Fields<'_>,
    at: usize,
    seal: Option<Seal>,
) -> Result<Change, DecodeFault>
    ensures { Gives result (splice_bytes_in at seal (members_view members.entry)) }
{
    expect_next(&mut members, "kind", "splice")?;
    let new = next_bytes(alloc, &mut members, "new")?;
    let old = next_bytes(alloc, &mut members, "old")?;
    splice_end_of(alloc, members, at, new, old, seal)
}

// Of a splice: from the path on.
#[tactic(auto, unfolding(reuse_json::specs::EntryReading::splice_end_in))]
fn splice_end_of(
    alloc: Global,
    mut members: Fields<'_>,
    at: usize,
    new: Bytes,
    old: Bytes,
    seal: Option<Seal>,
) -> Result<Change, DecodeFault>
    ensures { Gives result (splice_end_in at new old seal (members_view members.entry)) }
{
    let path = next_path(alloc, &mut members, "path")?;
    let rest = next_number(&mut members, "rest")? as usize;
    finish(members)?;
    Ok(Change::splice(path, at, old, new, rest, seal))
}

// Both digests, or none.
fn seal_of(before: Option<Digest>, after: Option<Digest>) -> Option<Seal>
    ensures { result ≡ seal_of before after }
{
    match (before, after) {
        (Some(before), Some(after)) => Some(Seal { before, after }),
        _ => None,
    }
}
