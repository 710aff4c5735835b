//! Laws of globs and of their texts: each holds of the definitions alone.
ghost use Rattle.std.specs.Prelude.{◌≡◌, ◌↔◌, List, ℕ, true, Some};
ghost use Rattle.std.specs.Str.{chars, all_scalars};
ghost use Rattle.reuse_toml.specs.GlobMatch.{GlobMatches, matches_glob};
ghost use Rattle.reuse_toml.specs.GlobText.{glob_text, read_glob, glob_literals, HasRunsApart};

use crate::glob::GlobPiece;

/// The text of a glob, read as a glob again, is that glob, where no `*` stands directly before
/// another run.
pub fn glob_text_is_read_back()
    ensures { (glob : List GlobPiece) → HasRunsApart glob → all_scalars (glob_literals glob) ≡ true
        → read_glob (chars (glob_text glob)) ≡ Some glob }
{}

/// The test of a glob is true of a path exactly where the glob matches the path.
pub fn globs_are_decided()
    ensures { (glob : List GlobPiece) (path : List ℕ) → (matches_glob glob path ≡ true) ↔ GlobMatches glob path }
{}
