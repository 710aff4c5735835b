//! The diff of what a call would change: of each path that it would change, the file as it is and
//! as the call would leave it. It only reads. The program calls it. Tested by `tests/dry_run.sh`.
ghost use Rattle.std.specs.Prelude.{◌≡◌, ℕ, List, [], None, Some, IfErr, IfOk, IsSomeAnd, OnOk, length, unwrap_or};
ghost use Rattle.std.specs.FinMap.{get};
ghost use Rattle.std.specs.Option.{option_copied};
ghost use Rattle.reuse_text.specs.Text.{spliced};
ghost use Rattle.reuse_store.specs.Asked.{OnlyReads};
ghost use Rattle.reuse_change.specs.Change.{path_of};
ghost use Rattle.reuse_change.specs.Entry.{IsSmall, AppliesBy};
ghost use Rattle.reuse_change.specs.Files.{Files, tree_of};
ghost use Rattle.reuse_diff.specs.DiffText.{part_before, part_after, IsDiff};
ghost use Rattle.reuse_report.specs.Drawn.{gone, AreDiffs, AreSmallSteps, IsPathDiff, IsRangeWithin, WouldLead};
ghost use Rattle.reuse_report.specs.Drawn.{IsTreeDiff, LeadsAsPreviewed};
ghost use Rattle.reuse_report.specs.Responses.{IsNoDiff};
ghost use Rattle.reuse_shown.specs.JoinedTexts.{AppendsSome};
ghost use Rattle.reuse_report.specs.WriterFaults.{IsOfDiff};
ghost use Rattle.reuse_print.specs.declared.fault.Fault.TheVariants as faults;

use reuse_change::{Change, Direction};
use reuse_command::reply::Refusal;
use reuse_diff::{DiffInput, bytes_of, print_diff};
use reuse_json::Changes;
use reuse_print::fault::{Fault, in_memory};
use reuse_store::{Reading, Store};
use reuse_text::{LONGEST_FILE, splice};
use std::alloc::Global;

/// What a call would change, and which way the changes are gone through.
#[derive(Drop)]
pub struct PlannedChanges {
    pub changes: Changes,
    pub direction: Direction,
}

/// The diff of what would change, or none. It only reads.
pub fn draw_planned<S: Store + Drop>(
    alloc: Global,
    store: S,
    planned: Option<PlannedChanges>,
) -> (S, Result<Vec<u8>, Fault>)
    ensures drawn { S.honest result.0 → (before : Files) → (after : Files) → tree_of (S.files store) ≡ before
        → IsSomeAnd planned (λ planned. LeadsAsPreviewed planned before after)
        → IfOk result.1 (λ text. IsTreeDiff before after text.items) }
    ensures none { planned ≡ None → IsNoDiff result.1 }
    ensures reads { OnlyReads S.Store store result.0 }
    ensures diff { IfErr result.1 (IsOfDiff S.Store store result.0) }
{
    match planned {
        Some(planned) => draw_from(alloc, store, &planned),
        None => (store, Ok(Vec::new(alloc))),
    }
}

fn draw_from<S: Store + Drop>(
    alloc: Global,
    store: S,
    planned: &PlannedChanges,
) -> (S, Result<Vec<u8>, Fault>)
    ensures drawn { S.honest result.0 → (before : Files) → (after : Files) → tree_of (S.files store) ≡ before
        → LeadsAsPreviewed planned.now before after
        → IfOk result.1 (λ text. IsTreeDiff before after text.items) }
    ensures reads { OnlyReads S.Store store result.0 }
    ensures diff { IfErr result.1 (IsOfDiff S.Store store result.0) }
{
    let mut store = store;
    let diff = draw(alloc, &mut store, planned);
    (store, diff)
}

// The diff of what would change: of each path that the file as it is and as the call leaves it, in
// the order of the changes. It only reads.
fn draw<S: Store>(alloc: Global, store: &mut S, planned: &PlannedChanges) -> Result<Vec<u8>, Fault>
    ensures drawn { S.honest store.new → (before : Files) → (after : Files) → tree_of (S.files store.old) ≡ before
        → WouldLead planned.now before after
        → IfOk result (λ text. AreDiffs before after planned.now.changes text.items) }
    ensures reads { OnlyReads S.Store store.old store.new }
    ensures fault { IfErr result (IsOfDiff S.Store store.old store.new) }
{
    draw_all(alloc, store, planned.changes.as_slice(), planned.direction)
}

// The diff of changes that are gone through this way.
fn draw_all<S: Store>(
    alloc: Global,
    store: &mut S,
    changes: &[Change],
    direction: Direction,
) -> Result<Vec<u8>, Fault>
    ensures drawn { S.honest store.new → (before : Files) → (after : Files) → tree_of (S.files store.old) ≡ before
        → AreSmallSteps direction changes.now before after
        → IfOk result (λ text. AreDiffs before after changes.now text.items) }
    ensures reads { OnlyReads S.Store store.old store.new }
    ensures fault { IfErr result (IsOfDiff S.Store store.old store.new) }
{
    let mut text = Vec::new(alloc);
    for change in changes {
        draw_one(alloc, store, &mut text, change, direction)?;
    }
    Ok(text)
}

fn draw_one<S: Store>(
    alloc: Global,
    store: &mut S,
    text: &mut Vec<u8>,
    change: &Change,
    direction: Direction,
) -> Result<(), Fault>
    ensures drawn { S.honest store.new → (before : Files) → (after : Files) → tree_of (S.files store.old) ≡ before
        → IsSmall change.now
        → AppliesBy direction change.now (get before (path_of change.now)) (get after (path_of change.now))
        → OnOk result
        (AppendsSome (Some text.old.items) (Some text.new.items) (IsPathDiff before after (path_of change.now))) }
    ensures reads { OnlyReads S.Store store.old store.new }
    ensures fault { IfErr result (IsOfDiff S.Store store.old store.new) }
{
    let turn = diff_input_of(change, direction);
    match change {
        Change::Splice { at, .. } => draw_range(alloc, store, text, turn, *at),
        _ => in_memory(print_diff(text, alloc, turn)),
    }
}

// What a change records, gone through this way.
fn diff_input_of(change: &Change, direction: Direction) -> DiffInput<'_>
    ensures path { result.path.now ≡ path_of change.now }
    ensures before { option_copied result.before ≡ part_before (gone direction change.now) }
    ensures after { option_copied result.after ≡ part_after (gone direction change.now) }
{
    match direction {
        Direction::Forward => DiffInput::of(change),
        Direction::Backward => DiffInput::of(change).back(),
    }
}

// A file of which a range gives way.
fn draw_range<S: Store>(
    alloc: Global,
    store: &mut S,
    text: &mut Vec<u8>,
    range: DiffInput<'_>,
    at: usize,
) -> Result<(), Fault>
    ensures drawn { S.honest store.new → (file : List ℕ)
        → get (tree_of (S.files store.old)) range.entry.path.now ≡ Some file
        → IsRangeWithin file at (unwrap_or (option_copied range.entry.before) [])
        (unwrap_or (option_copied range.entry.after) [])
        → OnOk result (AppendsSome (Some text.old.items) (Some text.new.items)
        (IsDiff range.entry.path.now (Some file) (Some (spliced file at (length
        (unwrap_or (option_copied range.entry.before) [])) (unwrap_or (option_copied range.entry.after) []))))) }
    ensures reads { OnlyReads S.Store store.old store.new }
    ensures fault { IfErr result (IsOfDiff S.Store store.old store.new) }
{
    match store.read(alloc, range.path, LONGEST_FILE) {
        Ok(Reading::Found(file)) => draw_within(text, alloc, range, file.as_slice(), at),
        Ok(Reading::Absent) => Ok(()),
        Ok(Reading::TooLong) => Ok(()),
        Err(fault) => Err(Fault::NoDiff(Refusal::from(fault))),
    }
}

// The same, of a file that was read. Where the range isn't within it, it isn't as it was looked at,
// and nothing is printed.
fn draw_within<'a>(
    text: &mut Vec<u8>,
    alloc: Global,
    range: DiffInput<'a>,
    file: &'a [u8],
    at: usize,
) -> Result<(), Fault>
    ensures drawn { IsRangeWithin file.now at (unwrap_or (option_copied range.entry.before) [])
        (unwrap_or (option_copied range.entry.after) [])
        → OnOk result (AppendsSome (Some text.old.items) (Some text.new.items)
        (IsDiff range.entry.path.now (Some file.now) (Some (spliced file.now at (length
        (unwrap_or (option_copied range.entry.before) [])) (unwrap_or (option_copied range.entry.after) []))))) }
    ensures fault { IfErr result (λ fault. fault ≡ faults.Memory) }
{
    let old_len = bytes_of(range.before).len();
    let new = bytes_of(range.after);
    if at > file.len() || old_len > file.len() - at || new.len() > LONGEST_FILE {
        return Ok(());
    }
    let after = splice(alloc, file, at, old_len, new)?;
    let turn = DiffInput {
        path: range.path,
        before: Some(file),
        after: Some(after.as_slice()),
    };
    in_memory(print_diff(text, alloc, turn))
}
