//! The globs of a `path` in `REUSE.toml` (REUSE Specification 3.3, "REUSE.toml").
ghost use Rattle.std.specs.Prelude.{◌≡◌, ◌<◌, ◌≤◌, ◌↔◌, ◌∷◌, IsTrue, IfOk, IfSome, MatchOption, length};
ghost use Rattle.std.specs.Str.{chars, IsUtf8};
ghost use Rattle.reuse_toml.specs.GlobMatch.{GlobMatches};
ghost use Rattle.reuse_toml.specs.GlobText.{glob_text, onto_glob, read_glob, single_piece};
ghost use Rattle.reuse_toml.specs.Steps.GlobMatching.{IsGlobFit, IsGlobFitAfterRun, IsPastPart, glob_fit_len};

use crate::characters::split_first_char;
use crate::glob_text::written_glob;
use std::alloc::{AllocError, Global};
use std::marker::Model;

/// A piece of a glob.
#[derive(Clone, Copy, Debug, PartialEq, Eq)]
pub enum GlobPiece {
    /// This character.
    Literal(char),
    /// Any run of characters without `/`, written `*`.
    RunInPart,
    /// Any run of characters, with or without `/`, written `**`.
    AnyRun,
}

/// A glob of a `path` in `REUSE.toml`.
#[derive(Debug, Drop)]
pub struct Glob {
    /// Its pieces, in order.
    pub pieces: Vec<GlobPiece>,
}

impl Model for Glob {
    ghost use Rattle.std.specs.Prelude.{List};
    ghost use Rattle.reuse_toml.specs.declared.glob.GlobPiece.{GlobPiece};

    ghost Value = { List GlobPiece };

    ghost view = { λ g. g.pieces.items };
}

impl Glob {
    /// The glob that a text spells: `**` is any run, another `*` a run without `/`, and a backslash
    /// makes a `*` or a backslash literal. There is none where a backslash is before another
    /// character or at the end.
    pub fn read(alloc: Global, text: &str) -> Result<Option<Glob>, AllocError>
        ensures { IfOk result (λ glob. glob ≡ read_glob (chars text.now)) }
    {
        let mut pieces = Vec::new(alloc);
        let mut rest = text;
        while let Some((first, tail)) = split_first_char(rest) {
            let Some((piece, left)) = next_piece(first, tail) else {
                return Ok(None);
            };
            pieces.push(piece)?;
            rest = left;
        }
        Ok(Some(Glob { pieces }))
    }

    /// The text that spells it.
    pub fn written(&self, alloc: Global) -> Result<Vec<u8>, AllocError>
        ensures { IfOk result (λ text. text.items ≡ glob_text self.now) }
    {
        written_glob(alloc, &self.pieces)
    }
}

/// The piece that a character and what follows it begin with, and what is left behind the piece.
fn next_piece(first: char, tail: &str) -> Option<(GlobPiece, &str)>
    ensures piece { MatchOption result (read_glob (first ∷ chars tail.now) ≡ None)
        (λ found. read_glob (first ∷ chars tail.now) ≡ onto_glob found.0 (read_glob (chars found.1.now))) }
    ensures shorter { IfSome result (λ found. length (chars found.1.now) ≤ length (chars tail.now)) }
    ensures utf8 { IfSome result (λ found. IsUtf8 found.1.now) }
{
    let Some((second, rest)) = split_first_char(tail) else {
        return if first == '\\' {
            None
        } else {
            Some((single_piece(first), tail))
        };
    };
    if first == '\\' {
        if second == '*' || second == '\\' {
            return Some((GlobPiece::Literal(second), rest));
        }
        return None;
    }
    if first == '*' && second == '*' {
        return Some((GlobPiece::AnyRun, rest));
    }
    Some((single_piece(first), tail))
}

/// What a character stands for where neither a backslash nor another `*` is beside it.
fn single_piece(character: char) -> GlobPiece
    ensures { result ≡ single_piece character }
{
    if character == '*' {
        GlobPiece::RunInPart
    } else {
        GlobPiece::Literal(character)
    }
}

/// How far the pieces up to a run match the front of a text.
#[derive(Drop)]
enum GlobFit<'a> {
    /// All pieces match the whole text.
    Whole,
    /// They do not.
    Mismatch,
    /// The pieces before a `*` match; these pieces follow it, and this text is left for both.
    PartRun(&'a [GlobPiece], &'a str),
    /// The same for a `**`.
    Run(&'a [GlobPiece], &'a str),
}

/// Matches the pieces up to the first run against the front of the text.
fn glob_front<'a>(pieces: &'a [GlobPiece], text: &'a str) -> GlobFit<'a>
    ensures fit { IsGlobFit pieces.now (chars text.now) result }
    ensures fewer { glob_fit_len result ≤ length pieces.now }
{
    let mut left = pieces;
    let mut rest = text;
    while let Some((piece, others)) = left.split_first() {
        match piece {
            GlobPiece::RunInPart => return GlobFit::PartRun(others, rest),
            GlobPiece::AnyRun => return GlobFit::Run(others, rest),
            GlobPiece::Literal(wanted) => {
                let Some((first, tail)) = split_first_char(rest) else {
                    return GlobFit::Mismatch;
                };
                if *wanted != first {
                    return GlobFit::Mismatch;
                }
                left = others;
                rest = tail;
            }
        }
    }
    match split_first_char(rest) {
        None => GlobFit::Whole,
        Some(_) => GlobFit::Mismatch,
    }
}

/// Matches the pieces after a `*`, with the shortest run that lets the pieces up to the next run
/// match.
fn glob_after_part_run<'a>(pieces: &'a [GlobPiece], text: &'a str) -> GlobFit<'a>
    ensures fit { IsGlobFit (GlobPiece.RunInPart ∷ pieces.now) (chars text.now) result }
    ensures fewer { glob_fit_len result ≤ length pieces.now }
{
    let mut rest = text;
    loop {
        match glob_front(pieces, rest) {
            GlobFit::Mismatch => {}
            fit => return fit,
        }
        match split_first_char(rest) {
            None => return GlobFit::Mismatch,
            Some((first, tail)) => {
                if first == '/' {
                    return GlobFit::Mismatch;
                }
                rest = tail;
            }
        }
    }
}

/// Matches the pieces up to the first `**` against the front of the text.
fn glob_block<'a>(pieces: &'a [GlobPiece], text: &'a str) -> GlobFit<'a>
    ensures fit { IsGlobFit pieces.now (chars text.now) result }
    ensures past_part { IsPastPart result }
    ensures fewer { glob_fit_len result ≤ length pieces.now }
{
    let mut fit = glob_front(pieces, text);
    while let GlobFit::PartRun(left, rest) = fit {
        fit = glob_after_part_run(left, rest);
    }
    fit
}

/// Matches the pieces after a `**`, with the shortest run that lets the pieces up to the next `**`
/// match.
fn glob_after_run<'a>(pieces: &'a [GlobPiece], text: &'a str) -> GlobFit<'a>
    ensures fit { IsGlobFitAfterRun pieces.now (chars text.now) result }
    ensures fewer { glob_fit_len result ≤ length pieces.now }
{
    let mut rest = text;
    loop {
        match glob_block(pieces, rest) {
            GlobFit::Mismatch => {}
            fit => return fit,
        }
        match split_first_char(rest) {
            None => return GlobFit::Mismatch,
            Some((_, tail)) => rest = tail,
        }
    }
}

/// Whether the glob matches the whole path.
///
/// Without memory, and in time of the path's length by the glob's where it has no `*`, as a
/// translated pattern; else by the path's length once more. No run is taken back.
pub fn glob_matches(glob: &Glob, path: &str) -> bool
    ensures { IsTrue result ↔ GlobMatches glob.now (chars path.now) }
{
    let mut fit = glob_block(&glob.pieces, path);
    while let GlobFit::Run(left, rest) = fit {
        fit = glob_after_run(left, rest);
    }
    matches!(fit, GlobFit::Whole)
}
