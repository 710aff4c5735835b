//! The text of a hunk.
ghost use Rattle.std.specs.Prelude.{◌≡◌, ◌<◌, OnOk, length, List, ℕ};
ghost use Rattle.std.specs.List.{flat_map};
ghost use Rattle.std.specs.Io.KnownBytes.{Appends};
ghost use Rattle.reuse_diff.specs.Hunks.{old_lines, new_lines, sign_byte, first_line, piece_text, hunk_text};

use crate::hunk::{Hunk, Piece, Sign};
use std::io::{self, Write};

pub fn print_hunk<W: Write>(out: &mut W, hunk: &Hunk<'_>) -> io::Result<()>
    ensures { OnOk result (Appends (W.contents out.old) (W.contents out.new) (hunk_text hunk.now)) }
{
    let pieces = hunk.pieces.as_slice();
    let old = old_count(pieces);
    let new = new_count(pieces);
    let old_first = first_line(hunk.lines_above, old);
    let new_first = first_line(hunk.lines_above, new);
    writeln!(out, "@@ -{old_first},{old} +{new_first},{new} @@")?;
    print_pieces(out, pieces)
}

// How many lines the file before has there.
fn old_count(pieces: &[Piece<'_>]) -> usize
    ensures { result ≡ length (old_lines pieces.now) }
{
    let mut count = 0usize;
    for piece in pieces {
        count += usize::from(piece.sign != Sign::Added);
    }
    count
}

// How many lines the file after has there.
fn new_count(pieces: &[Piece<'_>]) -> usize
    ensures { result ≡ length (new_lines pieces.now) }
{
    let mut count = 0usize;
    for piece in pieces {
        count += usize::from(piece.sign != Sign::Removed);
    }
    count
}

// The number of the first of so many lines, from 1; of no lines that of the line above.
fn first_line(above: usize, count: usize) -> usize
    requires { above < 9223372036854775808 }
    ensures { result ≡ first_line above count }
{
    if count == 0 { above } else { above + 1 }
}

pub fn print_pieces<W: Write>(out: &mut W, pieces: &[Piece<'_>]) -> io::Result<()>
    ensures { OnOk result (Appends (W.contents out.old) (W.contents out.new) (flat_map piece_text pieces.now)) }
{
    for piece in pieces {
        print_piece(out, *piece)?;
    }
    Ok(())
}

fn print_piece<W: Write>(out: &mut W, piece: Piece<'_>) -> io::Result<()>
    ensures { OnOk result (Appends (W.contents out.old) (W.contents out.new) (piece_text piece.entry)) }
{
    out.write_all(&[sign_byte(piece.sign)])?;
    out.write_all(piece.line)?;
    if !piece.line.ends_with(b"\n") {
        out.write_all(b"\n\\ No newline at end of file\n")?;
    }
    Ok(())
}

fn sign_byte(sign: Sign) -> u8
    ensures { result ≡ sign_byte sign }
{
    match sign {
        Sign::Kept => b' ',
        Sign::Removed => b'-',
        Sign::Added => b'+',
    }
}
