//! An entry's text as this program writes it, read in one pass and without a tree of values.
ghost use Rattle.std.specs.Prelude.{◌≡◌, ◌++◌, ◌≤◌, ◌<◌, ◌↔◌, IfOk, OnOk, IsTrue, Some, true, codes, decimal, length};
ghost use Rattle.std.specs.Prelude.{map};
ghost use Rattle.std.specs.List.{All, join_with_byte};
ghost use Rattle.std.specs.Option.{option_map};
ghost use Rattle.reuse_change.specs.declared.digest.Seal.{Seal};
ghost use Rattle.reuse_change.specs.Entry.{AreAllSealed};
ghost use Rattle.reuse_tree.specs.EntryTests.{Passes};
ghost use Rattle.reuse_change.specs.CommandNames.{command_name};
ghost use Rattle.reuse_json.specs.EntryText.{change_text, digest_text, AreDigestBytes, IsChangeInMemory};
ghost use Rattle.reuse_json.specs.EntryText.{IsGoodEntry};
ghost use Rattle.reuse_json.specs.Format.{format_number, knows};

use crate::journal::entry_checks::are_sound;
use reuse_change::{Change, CommandName, Digest, MOST_CHANGES, Moment, Seal};
use reuse_json::{Changes, DecodeFault, Entry, WrittenText};
use std::alloc::Global;

/// The entry that a text stands for, where this program wrote it so. Any other spelling is
/// `NotGood` here, also that of a good text.
pub(crate) fn read_written(alloc: Global, text: &[u8]) -> Result<Entry, DecodeFault>
    ensures { IfOk result (IsGoodEntry text.now) }
{
    let mut rest = WrittenText::new(text);
    rest.expect("{\"changes\":[")?;
    let changes = read_changes(alloc, &mut rest)?;
    rest.expect("],\"command\":\"")?;
    let command = read_command(&mut rest)?;
    rest.expect("\",\"format\":")?;
    let sealed = is_second_format(&mut rest)?;
    rest.expect(",\"when\":")?;
    let when = read_moment(&mut rest)?;
    rest.expect("}")?;
    rest.finish()?;
    expect_good(changes.as_slice(), sealed, command)?;
    Ok(Entry {
        changes: Changes::new(changes),
        command,
        when,
    })
}

// Tests what an entry's text doesn't show by itself.
fn expect_good(changes: &[Change], sealed: bool, command: CommandName) -> Result<(), DecodeFault>
    ensures tests { OnOk result (Passes changes.now) }
    ensures alike { OnOk result (AreAllSealed sealed changes.now) }
    ensures known { OnOk result (knows sealed command ≡ true) }
{
    if knows(sealed, command) && are_all_sealed(changes, sealed) && are_sound(changes) {
        Ok(())
    } else {
        Err(DecodeFault::NotGood)
    }
}

/// Whether the format, the second or the first, knows the command.
pub(crate) fn knows(sealed: bool, command: CommandName) -> bool
    ensures { result ≡ knows sealed command }
{
    match command {
        CommandName::Revert | CommandName::Amend | CommandName::AddStyles => sealed,
        _ => true,
    }
}

// Whether all changes are sealed, or none is.
fn are_all_sealed(changes: &[Change], sealed: bool) -> bool
    ensures { IsTrue result ↔ AreAllSealed sealed changes.now }
{
    changes.iter().all(|change| change.is_sealed() == sealed)
}

fn read_moment(text: &mut WrittenText<'_>) -> Result<Moment, DecodeFault>
    ensures text { IfOk result (λ when. text.old ≡ decimal when ++ text.new) }
    ensures when { IfOk result (λ when. when ≤ 250_000_000_000) }
{
    let seconds = text.number()?;
    Moment::new(seconds).ok_or(DecodeFault::NotGood)
}

// Whether the format is the second, and not the first.
fn is_second_format(text: &mut WrittenText<'_>) -> Result<bool, DecodeFault>
    ensures { IfOk result (λ sealed. text.old ≡ decimal (format_number sealed) ++ text.new) }
{
    match text.number()? {
        1 => Ok(false),
        2 => Ok(true),
        _ => Err(DecodeFault::NotGood),
    }
}

fn read_command(text: &mut WrittenText<'_>) -> Result<CommandName, DecodeFault>
    ensures { IfOk result (λ command. text.old ≡ command_name command ++ text.new) }
{
    if text.skip("annotate") {
        Ok(CommandName::Annotate)
    } else if text.skip("convert-dep5") {
        Ok(CommandName::ConvertDep5)
    } else if text.skip("download") {
        Ok(CommandName::Download)
    } else if text.skip("revert") {
        Ok(CommandName::Revert)
    } else if text.skip("amend") {
        Ok(CommandName::Amend)
    } else if text.skip("styles") {
        Ok(CommandName::AddStyles)
    } else {
        Err(DecodeFault::NotGood)
    }
}

// One change or more, with commas between. One too many ends the reading.
fn read_changes(alloc: Global, text: &mut WrittenText<'_>) -> Result<Vec<Change>, DecodeFault>
    ensures text { IfOk result (λ changes. text.old ≡ join_with_byte 44 (map change_text changes.items) ++ text.new) }
    ensures some { IfOk result (λ changes. 0 < length changes.items) }
    ensures changes { IfOk result (λ changes. All IsChangeInMemory changes.items) }
{
    let mut changes = Vec::new(alloc);
    'changes: loop {
        if changes.len() >= MOST_CHANGES {
            return Err(DecodeFault::NotGood);
        }
        changes.push(read_change(alloc, text)?)?;
        if !text.skip(",") {
            return Ok(changes);
        }
    }
}

fn read_change(alloc: Global, text: &mut WrittenText<'_>) -> Result<Change, DecodeFault>
    ensures text { IfOk result (λ change. text.old ≡ change_text change ++ text.new) }
    ensures change { IfOk result IsChangeInMemory }
{
    text.expect("{")?;
    let after = text.digest("\"after\":")?;
    if text.skip("\"at\":") {
        return read_splice(alloc, text, after);
    }
    if text.skip("\"kind\":\"make\",\"new\":") {
        return read_make(alloc, text, after);
    }
    match after {
        None => read_drop(alloc, text),
        Some(_) => Err(DecodeFault::NotGood),
    }
}

// A file made, from its bytes on.
fn read_make(
    alloc: Global,
    text: &mut WrittenText<'_>,
    after: Option<Digest>,
) -> Result<Change, DecodeFault>
    requires { AreDigestBytes after }
    ensures text { IfOk result (λ change. codes "{" ++ digest_text
        (codes "after") after ++ codes "\"kind\":\"make\",\"new\":" ++ text.old ≡ change_text change ++ text.new) }
    ensures change { IfOk result IsChangeInMemory }
{
    let new = text.bytes(alloc)?;
    text.expect(",\"path\":")?;
    let path = text.path(alloc)?;
    text.expect("}")?;
    Ok(Change::Make { path, new, after })
}

// A file removed, from the first member on.
fn read_drop(alloc: Global, text: &mut WrittenText<'_>) -> Result<Change, DecodeFault>
    ensures text { IfOk result (λ change. codes "{" ++ text.old ≡ change_text change ++ text.new) }
    ensures change { IfOk result IsChangeInMemory }
{
    let before = text.digest("\"before\":")?;
    text.expect("\"kind\":\"drop\",\"old\":")?;
    let old = text.bytes(alloc)?;
    text.expect(",\"path\":")?;
    let path = text.path(alloc)?;
    text.expect("}")?;
    Ok(Change::Drop { path, old, before })
}

// A range exchanged, from its place on.
fn read_splice(
    alloc: Global,
    text: &mut WrittenText<'_>,
    after: Option<Digest>,
) -> Result<Change, DecodeFault>
    requires { AreDigestBytes after }
    ensures text { IfOk result (λ change. codes "{" ++ digest_text
        (codes "after") after ++ codes "\"at\":" ++ text.old ≡ change_text change ++ text.new) }
    ensures change { IfOk result IsChangeInMemory }
{
    let at = text.number()? as usize;
    text.expect(",")?;
    let before = text.digest("\"before\":")?;
    let seal = seal_of(before, after)?;
    text.expect("\"kind\":\"splice\",\"new\":")?;
    let new = text.bytes(alloc)?;
    text.expect(",\"old\":")?;
    let old = text.bytes(alloc)?;
    text.expect(",\"path\":")?;
    let path = text.path(alloc)?;
    text.expect(",\"rest\":")?;
    let rest = text.number()? as usize;
    text.expect("}")?;
    Ok(Change::splice(path, at, old, new, rest, seal))
}

// The seal of these digests: both are there, or none is.
fn seal_of(before: Option<Digest>, after: Option<Digest>) -> Result<Option<Seal>, DecodeFault>
    ensures before { IfOk result (λ seal. option_map (λ s. s.before) seal ≡ before) }
    ensures after { IfOk result (λ seal. option_map (λ s. s.after) seal ≡ after) }
{
    match (before, after) {
        (Some(before), Some(after)) => Ok(Some(Seal { before, after })),
        (None, None) => Ok(None),
        _ => Err(DecodeFault::NotGood),
    }
}
