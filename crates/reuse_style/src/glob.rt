//! Globs over bytes.
ghost use Rattle.std.specs.Prelude.{◌≡◌, ◌≤◌, ◌∷◌, ◌==◌, ◌||◌, IfOk, IfSome, MatchOption, length, is_some, None};
ghost use Rattle.reuse_style.specs.Globs.{read_glob, onto_glob, is_same, glob_fits, single_piece};
ghost use Rattle.reuse_style.specs.GlobSteps.{Decides, IsEarliest, left_len};

use std::alloc::{AllocError, Global};
use std::marker::Model;

/// A piece of a glob.
#[derive(Clone, Copy, Debug, PartialEq, Eq)]
pub enum GlobPiece {
    /// This byte.
    Byte(u8),
    /// Any run of bytes, written `*`.
    AnyRun,
}

/// Which letters are the same.
#[derive(Clone, Copy, Debug, PartialEq, Eq)]
pub enum Letters {
    /// Each is itself alone.
    Exact,
    /// Those of either case are.
    AnyCase,
}

/// A glob over bytes. Contracts see its pieces.
#[derive(Debug, Drop)]
pub struct Glob {
    pieces: Vec<GlobPiece>,
}

impl Model for Glob {
    ghost use Rattle.std.specs.Prelude.{List};
    ghost use Rattle.reuse_style.specs.declared.glob.GlobPiece.{GlobPiece};

    ghost Value = { List GlobPiece };

    ghost view = { λ glob. glob.pieces.items };
}

impl Glob {
    /// The glob that a text spells: `*` is any run, and a backslash makes a `*` or a backslash
    /// literal. There is none where a backslash is before another byte or at the end.
    pub(crate) fn read(alloc: Global, text: &[u8]) -> Result<Option<Glob>, AllocError>
        ensures { IfOk result (λ glob. glob ≡ read_glob text.now) }
    {
        let mut pieces = Vec::new(alloc);
        let mut rest = text;
        while let Some((first, tail)) = rest.split_first() {
            let Some((piece, left)) = next_piece(*first, tail) else {
                return Ok(None);
            };
            pieces.push(piece)?;
            rest = left;
        }
        Ok(Some(Glob { pieces }))
    }

    /// Whether it fits a whole text.
    ///
    /// Without memory, and in time of the text's length by the glob's at most. No run is taken back.
    pub(crate) fn fits(&self, letters: Letters, text: &[u8]) -> bool
        ensures { result ≡ glob_fits letters self.now text.now }
    {
        let mut front = fit_front(letters, &self.pieces, text);
        while let Front::Run(left, rest) = front {
            front = fit_behind_run(letters, left, rest);
        }
        matches!(front, Front::Whole)
    }
}

// The piece that a byte and what follows it begin with, and what is left behind the piece.
fn next_piece(first: u8, tail: &[u8]) -> Option<(GlobPiece, &[u8])>
    ensures piece { MatchOption result (read_glob (first ∷ tail.now) ≡ None)
        (λ found. read_glob (first ∷ tail.now) ≡ onto_glob found.0 (read_glob found.1.now)) }
    ensures shorter { IfSome result (λ found. length found.1.now ≤ length tail.now) }
{
    if first != b'\\' {
        return Some((single_piece(first), tail));
    }
    let Some((escaped, left)) = tail.split_first() else {
        return None;
    };
    if can_be_escaped(*escaped) {
        Some((GlobPiece::Byte(*escaped), left))
    } else {
        None
    }
}

// Whether a backslash makes a byte literal.
fn can_be_escaped(byte: u8) -> bool
    ensures { result ≡ (byte == 42 || byte == 92) }
{
    byte == b'*' || byte == b'\\'
}

// What a byte stands for that no backslash stands in front of.
fn single_piece(byte: u8) -> GlobPiece
    ensures { result ≡ single_piece byte }
{
    if byte == b'*' {
        GlobPiece::AnyRun
    } else {
        GlobPiece::Byte(byte)
    }
}

// How far the pieces up to a run fit the front of a text.
#[derive(Drop)]
enum Front<'a> {
    // All pieces fit the whole text.
    Whole,
    // They don't.
    Mismatch,
    // The pieces before a run fit; these pieces follow it, and this text is left for both.
    Run(&'a [GlobPiece], &'a [u8]),
}

// Fits the pieces up to the first run to the front of the text.
fn fit_front<'a>(letters: Letters, pieces: &'a [GlobPiece], text: &'a [u8]) -> Front<'a>
    ensures decides { Decides letters (glob_fits letters pieces.now text.now) result }
    ensures earliest { IsEarliest letters pieces.now text.now result }
    ensures fewer { left_len result ≤ length pieces.now }
{
    let mut left = pieces;
    let mut rest = text;
    while let Some((piece, others)) = left.split_first() {
        match piece {
            GlobPiece::AnyRun => return Front::Run(others, rest),
            GlobPiece::Byte(wanted) => {
                let Some((first, tail)) = rest.split_first() else {
                    return Front::Mismatch;
                };
                if !is_same(letters, *wanted, *first) {
                    return Front::Mismatch;
                }
                left = others;
                rest = tail;
            }
        }
    }
    if rest.is_empty() {
        Front::Whole
    } else {
        Front::Mismatch
    }
}

// Fits the pieces behind a run, which is the shortest that lets the pieces up to the next run fit.
fn fit_behind_run<'a>(letters: Letters, pieces: &'a [GlobPiece], text: &'a [u8]) -> Front<'a>
    ensures decides { Decides letters (glob_fits letters (GlobPiece.AnyRun ∷ pieces.now) text.now) result }
    ensures fewer { left_len result ≤ length pieces.now }
{
    let mut rest = text;
    loop {
        match fit_front(letters, pieces, rest) {
            Front::Mismatch => {}
            front => return front,
        }
        let Some((_, tail)) = rest.split_first() else {
            return Front::Mismatch;
        };
        rest = tail;
    }
}

// Whether two bytes are the same.
fn is_same(letters: Letters, a: u8, b: u8) -> bool
    ensures { result ≡ is_same letters a b }
{
    match letters {
        Letters::Exact => a == b,
        Letters::AnyCase => a.eq_ignore_ascii_case(&b),
    }
}
