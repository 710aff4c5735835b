//! A change of a file as a unified diff, which `git apply` and `patch -p1` read.
//!
//! Every text that is printed is one that turns the file before into the file after, line by line.
//! A name that a tool could misread stands in quotes. The program prints diffs of dry runs and of
//! recorded steps with it. Tested by `dry_run.sh` and `show_and_revert.sh` in `tests/`.
#![tactic(auto)]

ghost use Rattle.std.specs.Prelude.{◌≡◌, OnOk, ◌++◌, unwrap_or, []};
ghost use Rattle.std.specs.Option.{option_copied};
ghost use Rattle.std.specs.Io.KnownBytes.{Appends};
ghost use Rattle.reuse_change.specs.Change.{path_of};
ghost use Rattle.reuse_diff.specs.DiffText.{head_text, title_text, both_text, mode_text, names_text, side_text};
ghost use Rattle.reuse_diff.specs.DiffText.{end_text, binary_text, is_binary};
ghost use Rattle.reuse_diff.specs.DiffText.{is_either_binary, part_before, part_after, same_side, IsDiff, IsBody};
ghost use Rattle.reuse_diff.specs.DiffText.{IsTextBody, IsRange, IsRangeBody, IsRangeLines, IsRecord};
ghost use Rattle.reuse_diff.specs.Hunks.{hunk_text};
ghost use Rattle.reuse_shown.specs.JoinedTexts.{AppendsSome};

mod compare;
mod hunk;
mod name;
mod pieces;
mod text_lines;

use compare::{hunk_between, pieces_of};
use hunk::Hunk;
use name::{is_name_spaced, print_name};
use pieces::{print_hunk, print_pieces};
use reuse_change::{Change, PathText};
use std::alloc::Global;
use std::io::{self, Write};

/// What a path holds before a change and after it, where no bytes are no file.
#[derive(Clone, Copy)]
pub struct DiffInput<'a> {
    pub path: &'a PathText,
    pub before: Option<&'a [u8]>,
    pub after: Option<&'a [u8]>,
}

impl<'a> DiffInput<'a> {
    /// What a change records: a file that is made or removed, or of a range the bytes that give way
    /// and those in their place.
    pub fn of(change: &'a Change) -> DiffInput<'a>
        ensures path { result.path.now ≡ path_of change.now }
        ensures before { option_copied result.before ≡ part_before change.now }
        ensures after { option_copied result.after ≡ part_after change.now }
    {
        let (before, after) = match change {
            Change::Make { new, .. } => (None, Some(new.as_slice())),
            Change::Drop { old, .. } => (Some(old.as_slice()), None),
            Change::Splice { old, new, .. } => (Some(old.as_slice()), Some(new.as_slice())),
        };
        DiffInput {
            path: change.path(),
            before,
            after,
        }
    }

    /// The same path with the two sides exchanged.
    pub fn back(self) -> DiffInput<'a>
        ensures path { result.path.now ≡ self.entry.path.now }
        ensures before { option_copied result.before ≡ option_copied self.entry.after }
        ensures after { option_copied result.after ≡ option_copied self.entry.before }
    {
        DiffInput {
            path: self.path,
            before: self.after,
            after: self.before,
        }
    }
}

/// Prints how the file of a path changes: a hunk with three lines around what changes, or a line of
/// its own for a binary. Nothing where it doesn't change.
pub fn print_diff<W: Write>(out: &mut W, alloc: Global, input: DiffInput<'_>) -> io::Result<()>
    ensures { OnOk result (AppendsSome (W.contents out.old) (W.contents out.new)
        (IsDiff input.entry.path.now (option_copied input.entry.before) (option_copied input.entry.after))) }
{
    if is_same_side(input.before, input.after) {
        return Ok(());
    }
    print_head(out, input)?;
    print_body(out, alloc, input)?;
    Ok(())
}

/// Prints what a change has recorded: all lines of a file that is made or removed, and of a range
/// of a file the bytes that gave way and those that stand in their place, by the byte at which they
/// stand.
pub fn print_record<W: Write>(out: &mut W, alloc: Global, change: &Change) -> io::Result<()>
    ensures { OnOk result (AppendsSome (W.contents out.old) (W.contents out.new) (IsRecord change.now)) }
{
    let input = DiffInput::of(change);
    match change {
        Change::Splice { at, .. } => print_range(out, alloc, input, *at),
        Change::Make { .. } => print_diff(out, alloc, input),
        Change::Drop { .. } => print_diff(out, alloc, input),
    }
}

// What becomes of a range of a file.
fn print_range<W: Write>(
    out: &mut W,
    alloc: Global,
    input: DiffInput<'_>,
    at: usize,
) -> io::Result<()>
    ensures { OnOk result (AppendsSome (W.contents out.old) (W.contents out.new)
        (IsRange input.entry.path.now (option_copied input.entry.before) (option_copied input.entry.after) at)) }
{
    print_head(out, input)?;
    print_range_body(out, alloc, input, at)?;
    Ok(())
}

// What stands behind the head of a range.
fn print_range_body<W: Write>(
    out: &mut W,
    alloc: Global,
    input: DiffInput<'_>,
    at: usize,
) -> io::Result<()>
    ensures { OnOk result (AppendsSome (W.contents out.old) (W.contents out.new)
        (IsRangeBody input.entry.path.now (option_copied input.entry.before) (option_copied input.entry.after) at)) }
{
    if is_either_binary(bytes_of(input.before), bytes_of(input.after)) {
        return print_binary(out, input);
    }
    print_range_lines(out, alloc, input, at)
}

// The names of two texts, and how the one range gives way to the other.
fn print_range_lines<W: Write>(
    out: &mut W,
    alloc: Global,
    input: DiffInput<'_>,
    at: usize,
) -> io::Result<()>
    ensures { OnOk result (AppendsSome (W.contents out.old) (W.contents out.new)
        (IsRangeLines (names_text input.entry.path.now (option_copied input.entry.before)
        (option_copied input.entry.after)) at (unwrap_or (option_copied input.entry.before) [])
        (unwrap_or (option_copied input.entry.after) []))) }
{
    let pieces = pieces_of(alloc, bytes_of(input.before), bytes_of(input.after))?;
    print_names(out, input)?;
    writeln!(out, "@@ byte {at} @@")?;
    print_pieces(out, pieces.as_slice())?;
    Ok(())
}

// What stands behind the head.
fn print_body<W: Write>(out: &mut W, alloc: Global, input: DiffInput<'_>) -> io::Result<()>
    ensures { OnOk result (AppendsSome (W.contents out.old) (W.contents out.new)
        (IsBody input.entry.path.now (option_copied input.entry.before) (option_copied input.entry.after))) }
{
    if is_either_binary(bytes_of(input.before), bytes_of(input.after)) {
        return print_binary(out, input);
    }
    print_texts(out, alloc, input)
}

// The names of two texts, and the hunk between them.
fn print_texts<W: Write>(out: &mut W, alloc: Global, input: DiffInput<'_>) -> io::Result<()>
    ensures { OnOk result (AppendsSome (W.contents out.old) (W.contents out.new)
        (IsTextBody
        (names_text input.entry.path.now (option_copied input.entry.before) (option_copied input.entry.after))
        (unwrap_or (option_copied input.entry.before) []) (unwrap_or (option_copied input.entry.after) []))) }
{
    if let Some(hunk) = hunk_between(alloc, bytes_of(input.before), bytes_of(input.after))? {
        print_named(out, input, &hunk)?;
    }
    Ok(())
}

fn print_named<W: Write>(out: &mut W, input: DiffInput<'_>, hunk: &Hunk<'_>) -> io::Result<()>
    ensures { OnOk result (Appends (W.contents out.old) (W.contents out.new) (names_text input.entry.path.now
        (option_copied input.entry.before) (option_copied input.entry.after) ++ hunk_text hunk.now)) }
{
    print_names(out, input)?;
    print_hunk(out, hunk)
}

/// The bytes of a file, none of one that isn't there.
pub fn bytes_of<'a>(file: Option<&'a [u8]>) -> &'a [u8]
    ensures { result.now ≡ unwrap_or (option_copied file.entry) [] }
{
    match file {
        Some(bytes) => bytes,
        None => b"",
    }
}

fn is_either_binary(before: &[u8], after: &[u8]) -> bool
    ensures { result ≡ is_either_binary before.now after.now }
{
    is_binary(before) || is_binary(after)
}

fn is_same_side(before: Option<&[u8]>, after: Option<&[u8]>) -> bool
    ensures { result ≡ same_side (option_copied before.entry) (option_copied after.entry) }
{
    match (before, after) {
        (None, None) => true,
        (Some(before), Some(after)) => before == after,
        _ => false,
    }
}

/// Whether a file is shown as a binary: it holds a NUL, as git asks.
fn is_binary(file: &[u8]) -> bool
    ensures { result ≡ is_binary file.now }
{
    file.iter().any(|byte| *byte == 0)
}

// The line that begins the diff of a file, and what becomes of the file.
fn print_head<W: Write>(out: &mut W, input: DiffInput<'_>) -> io::Result<()>
    ensures { OnOk result (Appends (W.contents out.old) (W.contents out.new)
        (head_text input.entry.path.now (option_copied input.entry.before) (option_copied input.entry.after))) }
{
    print_title(out, input.path)?;
    print_mode(out, input)
}

fn print_title<W: Write>(out: &mut W, path: &PathText) -> io::Result<()>
    ensures { OnOk result (Appends (W.contents out.old) (W.contents out.new) (title_text path.now)) }
{
    write!(out, "diff --git ")?;
    print_both(out, path)?;
    writeln!(out)?;
    Ok(())
}

fn print_both<W: Write>(out: &mut W, path: &PathText) -> io::Result<()>
    ensures { OnOk result (Appends (W.contents out.old) (W.contents out.new) (both_text path.now)) }
{
    print_name(out, "a/", path)?;
    write!(out, " ")?;
    print_name(out, "b/", path)?;
    Ok(())
}

fn print_mode<W: Write>(out: &mut W, input: DiffInput<'_>) -> io::Result<()>
    ensures { OnOk result (Appends (W.contents out.old) (W.contents out.new)
        (mode_text (option_copied input.entry.before) (option_copied input.entry.after))) }
{
    if input.before.is_none() {
        writeln!(out, "new file mode 100644")?;
    }
    if input.after.is_none() {
        writeln!(out, "deleted file mode 100644")?;
    }
    Ok(())
}

fn print_names<W: Write>(out: &mut W, input: DiffInput<'_>) -> io::Result<()>
    ensures { OnOk result (Appends (W.contents out.old) (W.contents out.new)
        (names_text input.entry.path.now (option_copied input.entry.before) (option_copied input.entry.after))) }
{
    write!(out, "--- ")?;
    print_side(out, "a/", input.path, input.before)?;
    print_end(out, input.path, input.before)?;
    write!(out, "+++ ")?;
    print_side(out, "b/", input.path, input.after)?;
    print_end(out, input.path, input.after)
}

// The end of the line of one side. Behind a name with a space a tab shows where it ends.
fn print_end<W: Write>(out: &mut W, path: &PathText, file: Option<&[u8]>) -> io::Result<()>
    ensures { OnOk result
        (Appends (W.contents out.old) (W.contents out.new) (end_text path.now (option_copied file.entry))) }
{
    if file.is_some() && is_name_spaced(path) {
        return writeln!(out, "\t");
    }
    writeln!(out)
}

fn print_binary<W: Write>(out: &mut W, input: DiffInput<'_>) -> io::Result<()>
    ensures { OnOk result (Appends (W.contents out.old) (W.contents out.new)
        (binary_text input.entry.path.now (option_copied input.entry.before) (option_copied input.entry.after))) }
{
    write!(out, "Binary files ")?;
    print_side(out, "a/", input.path, input.before)?;
    write!(out, " and ")?;
    print_side(out, "b/", input.path, input.after)?;
    writeln!(out, " differ")?;
    Ok(())
}

fn print_side<W: Write>(
    out: &mut W,
    side: &str,
    path: &PathText,
    file: Option<&[u8]>,
) -> io::Result<()>
    ensures { OnOk result
        (Appends (W.contents out.old) (W.contents out.new) (side_text side.now path.now (option_copied file.entry))) }
{
    match file {
        Some(_) => print_name(out, side, path),
        None => write!(out, "/dev/null"),
    }
}
