//! An entry as text.
ghost use Rattle.std.specs.Prelude.{◌≡◌, ◌≤◌, ◌++◌, true, Some, IfOk, OnOk, length, map};
ghost use Rattle.std.specs.List.{All, join_with_byte};
ghost use Rattle.std.specs.Option.{option_map};
ghost use Rattle.hex.specs.Hex.{IsBytes};
ghost use Rattle.reuse_change.specs.Entry.{entry_size, IsEntry};
ghost use Rattle.reuse_change.specs.declared.change.Change.TheVariants.{Splice};
ghost use Rattle.reuse_json.specs.EntryText.{change_text, entry_text, comma_before, is_any_sealed};
ghost use Rattle.reuse_json.specs.EntryText.{whole_text, AreDigestBytes, IsChangeInMemory, IsGoodEntry};
ghost use Rattle.reuse_json.specs.Format.{format_number, knows};

use reuse_change::{Change, Digest, PathText, Seal};
use reuse_json::Entry;
use reuse_json::json_writing::{append_digest, append_hex, append_number, append_string};
use std::alloc::{AllocError, Global};

/// The compact JSON text of an entry.
pub fn encode_entry(alloc: Global, entry: &Entry) -> Result<Vec<u8>, AllocError>
    ensures text { IfOk result (λ text. text.items ≡ entry_text entry.now) }
    ensures good { IsEntry entry.now.changes → knows (is_any_sealed entry.now.changes) entry.now.command ≡ true
        → IfOk result (λ text. IsGoodEntry text.items entry.now) }
    ensures bound { IsEntry entry.now.changes
        → IfOk result (λ text. length text.items ≤ entry_size entry.now.changes) }
{
    is_in_memory(entry);
    let mut text = Vec::with_capacity(alloc, room_for(entry.changes.as_slice()))?;
    append_entry(alloc, &mut text, entry)?;
    Ok(text)
}

// What the types of an entry's parts keep, for the proof alone.
fn is_in_memory(entry: &Entry)
    ensures changes { All IsChangeInMemory entry.now.changes }
    ensures when { entry.now.when ≤ 250_000_000_000 }
{
    let _when = entry.when.seconds();
    are_in_memory(entry.changes.as_slice());
}

fn are_in_memory(changes: &[Change])
    ensures { All IsChangeInMemory changes.now }
{
    for change in changes {
        is_change_in_memory(change);
    }
}

fn is_change_in_memory(change: &Change)
    ensures { IsChangeInMemory change.now }
{
    let _path = change.path().text();
    match change {
        Change::Make { new, after, .. } => {
            are_bytes(new.as_slice());
            is_digest(*after);
        }
        Change::Drop { old, before, .. } => {
            are_bytes(old.as_slice());
            is_digest(*before);
        }
        Change::Splice { old, new, seal, .. } => {
            are_bytes(old.as_slice());
            are_bytes(new.as_slice());
            is_digest(before(*seal));
            is_digest(after(*seal));
        }
    }
}

fn are_bytes(bytes: &[u8])
    ensures { IsBytes bytes.now }
{
    let _len = bytes.len();
}

fn is_digest(digest: Option<Digest>)
    ensures { AreDigestBytes digest }
{
    if let Some(digest) = digest {
        let _digest = digest.as_slice();
    }
}

// About how long the text is. It only spares the text from being moved as it grows.
fn room_for(changes: &[Change]) -> usize {
    let mut room: usize = 128;
    for change in changes {
        room = room.saturating_add(room_for_one(change));
    }
    room
}

fn room_for_one(change: &Change) -> usize {
    let fixed: usize = if change.is_sealed() { 288 } else { 128 };
    let bytes = match change {
        Change::Make { new, .. } => new.len(),
        Change::Drop { old, .. } => old.len(),
        Change::Splice { old, new, .. } => old.len().saturating_add(new.len()),
    };
    fixed
        .saturating_add(change.path().text().len())
        .saturating_add(bytes.saturating_mul(2))
}

fn append_entry(alloc: Global, text: &mut Vec<u8>, entry: &Entry) -> Result<(), AllocError>
    ensures { OnOk result (text.new.items ≡ text.old.items ++ entry_text entry.now) }
{
    text.extend_from_slice(b"{\"changes\":[")?;
    append_changes(alloc, text, entry.changes.as_slice())?;
    text.extend_from_slice(b"],\"command\":\"")?;
    text.extend_from_slice(entry.command.as_str().as_bytes())?;
    text.extend_from_slice(b"\",\"format\":")?;
    append_number(text, format_of(entry.changes.as_slice()))?;
    text.extend_from_slice(b",\"when\":")?;
    append_number(text, entry.when.seconds())?;
    text.extend_from_slice(b"}")
}

// The number of the format of these changes: the second where they are sealed.
fn format_of(changes: &[Change]) -> u64
    ensures { result ≡ format_number (is_any_sealed changes.now) }
{
    if is_any_sealed(changes) { 2 } else { 1 }
}

// Whether one of the changes is sealed.
fn is_any_sealed(changes: &[Change]) -> bool
    ensures { result ≡ is_any_sealed changes.now }
{
    changes.iter().any(|change| change.is_sealed())
}

fn append_changes(alloc: Global, text: &mut Vec<u8>, changes: &[Change]) -> Result<(), AllocError>
    ensures { OnOk result (text.new.items ≡ text.old.items ++ join_with_byte 44 (map change_text changes.now)) }
{
    for (i, change) in changes.iter().enumerate() {
        text.extend_from_slice(comma_before(i).as_bytes())?;
        append_change(alloc, text, change)?;
    }
    Ok(())
}

fn comma_before(i: usize) -> &'static str
    ensures { result.now ≡ comma_before i }
{
    if i == 0 { "" } else { "," }
}

fn append_change(alloc: Global, text: &mut Vec<u8>, change: &Change) -> Result<(), AllocError>
    ensures { OnOk result (text.new.items ≡ text.old.items ++ change_text change.now) }
{
    match change {
        Change::Make { path, new, after } => {
            let kind = b"\"kind\":\"make\",\"new\":";
            append_whole(alloc, text, b"after", *after, kind, new.as_slice(), path)
        }
        Change::Drop { path, old, before } => {
            let kind = b"\"kind\":\"drop\",\"old\":";
            append_whole(alloc, text, b"before", *before, kind, old.as_slice(), path)
        }
        Change::Splice {
            path,
            at,
            old,
            new,
            rest,
            seal,
        } => append_splice(
            alloc,
            text,
            path,
            *at,
            old.as_slice(),
            new.as_slice(),
            *rest,
            seal,
        ),
    }
}

// The making or the removal of a whole file: `kind` is its kind and the key of its bytes.
fn append_whole(
    alloc: Global,
    text: &mut Vec<u8>,
    digest_key: &[u8],
    digest: Option<Digest>,
    kind: &[u8],
    bytes: &[u8],
    path: &PathText,
) -> Result<(), AllocError>
    ensures { OnOk result
        (text.new.items ≡ text.old.items ++ whole_text digest_key.now digest kind.now bytes.now path.now) }
{
    text.extend_from_slice(b"{")?;
    append_digest(text, digest_key, digest)?;
    text.extend_from_slice(kind)?;
    append_hex(text, bytes)?;
    text.extend_from_slice(b",\"path\":")?;
    append_string(alloc, text, path.text())?;
    text.extend_from_slice(b"}")
}

fn append_splice(
    alloc: Global,
    text: &mut Vec<u8>,
    path: &PathText,
    at: usize,
    old: &[u8],
    new: &[u8],
    rest: usize,
    seal: &Option<Seal>,
) -> Result<(), AllocError>
    ensures { OnOk result
        (text.new.items ≡ text.old.items ++ change_text (Splice path.now at old.now new.now rest seal.now)) }
{
    text.extend_from_slice(b"{")?;
    append_digest(text, b"after", after(*seal))?;
    text.extend_from_slice(b"\"at\":")?;
    append_number(text, at as u64)?;
    text.extend_from_slice(b",")?;
    append_digest(text, b"before", before(*seal))?;
    text.extend_from_slice(b"\"kind\":\"splice\",\"new\":")?;
    append_hex(text, new)?;
    text.extend_from_slice(b",\"old\":")?;
    append_hex(text, old)?;
    text.extend_from_slice(b",\"path\":")?;
    append_string(alloc, text, path.text())?;
    text.extend_from_slice(b",\"rest\":")?;
    append_number(text, rest as u64)?;
    text.extend_from_slice(b"}")
}

fn after(seal: Option<Seal>) -> Option<Digest>
    ensures { result ≡ option_map (λ s. s.after) seal }
{
    seal.map(|seal| seal.after)
}

fn before(seal: Option<Seal>) -> Option<Digest>
    ensures { result ≡ option_map (λ s. s.before) seal }
{
    seal.map(|seal| seal.before)
}
