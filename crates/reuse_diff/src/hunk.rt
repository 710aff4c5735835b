//! The part of two files in which they differ, line by line.
ghost use Rattle.std.specs.Prelude.{◌<◌};

/// What becomes of a line.
#[derive(Clone, Copy, PartialEq, Eq)]
pub enum Sign {
    Kept,
    Removed,
    Added,
}

/// A line with its end, and what becomes of it.
#[derive(Clone, Copy)]
pub struct Piece<'a> {
    pub sign: Sign,
    pub line: &'a [u8],
}

/// The part of two files in which they differ, with the lines around it.
#[derive(Drop)]
pub struct Hunk<'a> {
    /// How many lines stand above it.
    pub lines_above: usize,
    pub pieces: Vec<Piece<'a>>,
    ghost small: { lines_above < 9223372036854775808 },
}
