//! The text of a glob in `REUSE.toml` (REUSE Specification 3.3, "REUSE.toml").
ghost use Rattle.std.specs.Prelude.{◌≡◌, ◌++◌, OnOk, IfOk};
ghost use Rattle.reuse_toml.specs.GlobText.{piece_text, glob_text};

use crate::glob::GlobPiece;
use std::alloc::{AllocError, Global};

/// Writes a piece of a glob at the end.
fn push_piece(out: &mut Vec<u8>, piece: GlobPiece) -> Result<(), AllocError>
    ensures { OnOk result (out.new.items ≡ out.old.items ++ piece_text piece) }
{
    match piece {
        GlobPiece::RunInPart => out.extend_from_slice(b"*"),
        GlobPiece::AnyRun => out.extend_from_slice(b"**"),
        GlobPiece::Literal('*') => out.extend_from_slice(b"\\*"),
        GlobPiece::Literal('\\') => out.extend_from_slice(b"\\\\"),
        GlobPiece::Literal(c) => {
            let mut buffer = [0u8; 4];
            out.extend_from_slice(c.encode_utf8(&mut buffer).as_bytes())
        }
    }
}

/// A glob as it is written.
pub fn written_glob(alloc: Global, pieces: &[GlobPiece]) -> Result<Vec<u8>, AllocError>
    ensures { IfOk result (λ text. text.items ≡ glob_text pieces.now) }
{
    let mut text = Vec::new(alloc);
    for piece in pieces {
        push_piece(&mut text, *piece)?;
    }
    Ok(text)
}
