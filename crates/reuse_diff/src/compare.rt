//! Compares two files line by line.
ghost use Rattle.std.specs.Prelude.{◌≡◌, ◌≢◌, ◌-◌, ◌+◌, ◌<◌, ◌≤◌, ◌↔◌, ◌++◌, IfOk, OnOk, IsTrue, IsNone, IfSome};
ghost use Rattle.std.specs.Prelude.{length, take, drop};
ghost use Rattle.std.specs.List.{prefix_len, suffix_len, flat_map};
ghost use Rattle.reuse_diff.specs.Hunks.{IsHunk, IsHunkOf, KeepsEnds, is_kept, old_line, new_line, old_lines};
ghost use Rattle.reuse_diff.specs.Hunks.{new_lines, pieces_with, same_end, same_front};
ghost use Rattle.reuse_diff.specs.TextLines.{AreLinesOf, texts_of};

use crate::hunk::{Hunk, Piece, Sign};
use crate::text_lines::lines_of;
use std::alloc::{AllocError, Global};

/// How many lines are shown above and below what changes.
const AROUND: usize = 3;

/// Blocks of no more pairs of lines are compared line by line.
const MOST_PAIRS: usize = 1_000_000;

/// The one hunk between two files, or none where they are the same.
pub fn hunk_between<'a>(
    alloc: Global,
    before: &'a [u8],
    after: &'a [u8],
) -> Result<Option<Hunk<'a>>, AllocError>
    ensures same { IfOk result (λ hunk. IsNone hunk ↔ (before.now ≡ after.now)) }
    ensures hunk { IfOk result (λ hunk. IfSome hunk (IsHunk before.now after.now)) }
{
    if is_same(before, after) {
        return Ok(None);
    }
    let pieces = pieces_of(alloc, before, after)?;
    Ok(hunk_of(alloc, &pieces)?)
}

/// The lines of two texts beside one another: those of the longest list of lines that both have are
/// kept, if the texts are short enough.
pub fn pieces_of<'a>(
    alloc: Global,
    before: &'a [u8],
    after: &'a [u8],
) -> Result<Vec<Piece<'a>>, AllocError>
    ensures old { IfOk result (λ pieces. AreLinesOf before.now (old_lines pieces.items)) }
    ensures new { IfOk result (λ pieces. AreLinesOf after.now (new_lines pieces.items)) }
    ensures ends { IfOk result (λ pieces. KeepsEnds pieces.items) }
{
    let old = lines_of(alloc, before)?;
    let new = lines_of(alloc, after)?;
    Ok(pieces_between(alloc, &old, &new)?)
}

// The hunk of some pieces: those that change, with the lines around them, or none if each is kept.
fn hunk_of<'a>(alloc: Global, pieces: &[Piece<'a>]) -> Result<Option<Hunk<'a>>, AllocError>
    ensures none { IfOk result (λ hunk. IsNone hunk ↔ (prefix_len is_kept pieces.now ≡ length pieces.now)) }
    ensures some { IfOk result (λ hunk. IfSome hunk (IsHunkOf pieces.now)) }
{
    let first = kept_above(pieces);
    if first == pieces.len() {
        return Ok(None);
    }
    let last = kept_below(pieces);
    Ok(Some(part(alloc, pieces, hidden(first), hidden(last))?))
}

// How many of the lines that are kept on one side aren't shown.
fn hidden(kept: usize) -> usize
    ensures { result ≡ kept - 3 }
{
    kept.saturating_sub(AROUND)
}

// The pieces without so many at both ends.
fn part<'a>(
    alloc: Global,
    pieces: &[Piece<'a>],
    above: usize,
    below: usize,
) -> Result<Hunk<'a>, AllocError>
    requires { above + below ≤ length pieces.now }
    ensures number { IfOk result (λ hunk. hunk.lines_above ≡ above) }
    ensures pieces { IfOk result
        (λ hunk. hunk.pieces.items ≡ take (length pieces.now - below - above) (drop above pieces.now)) }
{
    let (pieces, _) = pieces.split_at(pieces.len() - below);
    let (_, pieces) = pieces.split_at(above);
    Ok(Hunk {
        lines_above: above,
        pieces: Vec::from_slice(alloc, pieces)?,
    })
}

fn is_kept(piece: &Piece<'_>) -> bool
    ensures { result ≡ is_kept piece.now }
{
    match piece.sign {
        Sign::Kept => true,
        Sign::Removed | Sign::Added => false,
    }
}

// How many pieces are kept before the first that isn't.
fn kept_above(pieces: &[Piece<'_>]) -> usize
    ensures { result ≡ prefix_len is_kept pieces.now }
{
    for (count, piece) in pieces.iter().enumerate() {
        if !is_kept(piece) {
            return count;
        }
    }
    pieces.len()
}

// How many pieces are kept behind the last that isn't.
fn kept_below(pieces: &[Piece<'_>]) -> usize
    ensures { result ≡ suffix_len is_kept pieces.now }
{
    for count in 0..pieces.len() {
        if !is_kept(&pieces[pieces.len() - 1 - count]) {
            return count;
        }
    }
    pieces.len()
}

// The lines of both beside one another.
fn pieces_between<'a>(
    alloc: Global,
    old: &[&'a [u8]],
    new: &[&'a [u8]],
) -> Result<Vec<Piece<'a>>, AllocError>
    ensures old { IfOk result (λ pieces. old_lines pieces.items ≡ texts_of old.now) }
    ensures new { IfOk result (λ pieces. new_lines pieces.items ≡ texts_of new.now) }
    ensures ends { IfOk result (λ pieces. KeepsEnds pieces.items) }
{
    let above = common_above(old, new);
    let (kept_above, old) = old.split_at(above);
    let (_, new) = new.split_at(above);
    let below = common_below(old, new);
    let (old, kept_below) = old.split_at(old.len() - below);
    let (new, _) = new.split_at(new.len() - below);
    let mut pieces = Vec::new(alloc);
    push_all(&mut pieces, Sign::Kept, kept_above)?;
    push_compared(alloc, &mut pieces, old, new)?;
    push_all(&mut pieces, Sign::Kept, kept_below)?;
    Ok(pieces)
}

// Adds the lines, of which the same becomes.
fn push_all<'a>(
    pieces: &mut Vec<Piece<'a>>,
    sign: Sign,
    lines: &[&'a [u8]],
) -> Result<(), AllocError>
    ensures old { OnOk result
        (old_lines pieces.new.items ≡ old_lines pieces.old.items ++ flat_map (old_line sign) (texts_of lines.now)) }
    ensures new { OnOk result
        (new_lines pieces.new.items ≡ new_lines pieces.old.items ++ flat_map (new_line sign) (texts_of lines.now)) }
    ensures pieces { OnOk result (pieces.new.items ≡ pieces.old.items ++ pieces_with sign lines.now) }
{
    for line in lines {
        pieces.push(Piece { sign, line })?;
    }
    Ok(())
}

fn is_same(line: &[u8], other: &[u8]) -> bool
    ensures { IsTrue result ↔ (line.now ≡ other.now) }
{
    line == other
}

// How many lines are the same at the start of both.
fn common_above(old: &[&[u8]], new: &[&[u8]]) -> usize
    ensures old { result ≤ length old.now }
    ensures new { result ≤ length new.now }
    ensures same { take result (texts_of old.now) ≡ take result (texts_of new.now) }
    ensures all { result ≡ same_front (texts_of old.now) (texts_of new.now) }
{
    let most = old.len().min(new.len());
    for count in 0..most {
        if !is_same(old[count], new[count]) {
            return count;
        }
    }
    most
}

// How many lines are the same at the end of both.
fn common_below(old: &[&[u8]], new: &[&[u8]]) -> usize
    ensures old { result ≤ length old.now }
    ensures new { result ≤ length new.now }
    ensures same { drop (length old.now - result) (texts_of old.now) ≡ drop (length new.now - result)
        (texts_of new.now) }
    ensures all { result ≡ same_end (texts_of old.now) (texts_of new.now) }
{
    let most = new.len().min(old.len());
    for count in 0..most {
        if !is_same(old[old.len() - 1 - count], new[new.len() - 1 - count]) {
            return count;
        }
    }
    most
}

// Adds the lines of both beside one another.
fn push_compared<'a>(
    alloc: Global,
    pieces: &mut Vec<Piece<'a>>,
    old: &[&'a [u8]],
    new: &[&'a [u8]],
) -> Result<(), AllocError>
    ensures old { OnOk result (old_lines pieces.new.items ≡ old_lines pieces.old.items ++ texts_of old.now) }
    ensures new { OnOk result (new_lines pieces.new.items ≡ new_lines pieces.old.items ++ texts_of new.now) }
    ensures front { OnOk result (take (length pieces.old.items) pieces.new.items ≡ pieces.old.items) }
{
    let counts = common_counts(alloc, old, new)?;
    let mut old_at = 0usize;
    let mut new_at = 0usize;
    while old_at < old.len() && new_at < new.len() {
        let piece = next_piece(&counts, old.split_at(old_at).1, new.split_at(new_at).1);
        pieces.push(piece)?;
        old_at += usize::from(piece.sign != Sign::Added);
        new_at += usize::from(piece.sign != Sign::Removed);
    }
    push_all(pieces, Sign::Removed, old.split_at(old_at).1)?;
    push_all(pieces, Sign::Added, new.split_at(new_at).1)?;
    Ok(())
}

// What becomes of the next lines, of which so many are left of both: the same line is kept, and
// else the old one goes, or the new one comes, whichever leaves more lines in common.
fn next_piece<'a>(counts: &[Vec<u32>], old: &[&'a [u8]], new: &[&'a [u8]]) -> Piece<'a>
    requires some_old { 0 < length old.now }
    requires some_new { 0 < length new.now }
    ensures old { texts_of old.now ≡ old_line result.sign result.line.now ++ texts_of
        (drop (length (old_line result.sign result.line.now)) old.now) }
    ensures new { texts_of new.now ≡ new_line result.sign result.line.now ++ texts_of
        (drop (length (new_line result.sign result.line.now)) new.now) }
{
    let line = old[0];
    let other = new[0];
    if is_same(line, other) {
        return Piece {
            sign: Sign::Kept,
            line,
        };
    }
    if count_of(counts, old.len() - 1, new.len()) >= count_of(counts, old.len(), new.len() - 1) {
        Piece {
            sign: Sign::Removed,
            line,
        }
    } else {
        Piece {
            sign: Sign::Added,
            line: other,
        }
    }
}

/// How many lines the last lines of both, so many of each, have in common in order; none where
/// there are too many lines.
fn common_counts(alloc: Global, old: &[&[u8]], new: &[&[u8]]) -> Result<Vec<Vec<u32>>, AllocError> {
    let mut rows = Vec::new(alloc);
    if old.len().saturating_mul(new.len()) > MOST_PAIRS {
        return Ok(rows);
    }
    let mut row = vec![in alloc; 0; new.len() + 1]?;
    for line in old.iter().rev() {
        let next = next_row(alloc, row.as_slice(), line, new)?;
        rows.push(row)?;
        row = next;
    }
    rows.push(row)?;
    Ok(rows)
}

fn next_row(
    alloc: Global,
    row: &[u32],
    line: &[u8],
    new: &[&[u8]],
) -> Result<Vec<u32>, AllocError> {
    let mut next = Vec::new(alloc);
    next.push(0)?;
    let mut left = 0u32;
    let mut corner = 0u32;
    for (other, above) in new.iter().rev().zip(row.iter().skip(1)) {
        let count = if line == *other {
            corner.saturating_add(1)
        } else {
            left.max(*above)
        };
        next.push(count)?;
        left = count;
        corner = *above;
    }
    Ok(next)
}

fn count_of(counts: &[Vec<u32>], old: usize, new: usize) -> u32 {
    match counts.get(old) {
        Some(row) => row.get(new).copied().unwrap_or(0),
        None => 0,
    }
}
