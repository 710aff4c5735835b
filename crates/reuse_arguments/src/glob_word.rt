//! The globs that a word of the command line stands for.
ghost use Rattle.std.specs.Prelude.{◌≡◌, IfOk, MatchOption, None, Some};
ghost use Rattle.std.specs.Option.{option_map};
ghost use Rattle.reuse_arguments.specs.Globs.{behind_any_folder, glob_texts, globs_of_word, read_globs};

use crate::place_word::place_of_word;
use reuse_command::command::Place;
use reuse_toml::Glob;
use std::alloc::{AllocError, Global};

/// The globs that the word stands for. It is written as a place is: parts `.` and a slash at the
/// end are dropped. A leading `**/` also stands for nothing, so such a word stands for two globs.
/// There is none where the word is no path, as `/a`, `a//b`, `a/../b` and `.`, or spells no glob.
pub fn globs_of_word(alloc: Global, word: &str) -> Result<Option<Vec<Glob>>, AllocError>
    ensures { IfOk result (λ found. MatchOption found (globs_of_word word.now ≡ None)
        (λ globs. globs_of_word word.now ≡ Some globs.items)) }
{
    match place_of_word(alloc, None, word)? {
        Some(Place::Path(path)) => read_globs(alloc, path.text()),
        _ => Ok(None),
    }
}

fn read_globs(alloc: Global, text: &str) -> Result<Option<Vec<Glob>>, AllocError>
    ensures { IfOk result (λ found. MatchOption found (read_globs (glob_texts text.now) ≡ None)
        (λ globs. read_globs (glob_texts text.now) ≡ Some globs.items)) }
{
    let Some(glob) = Glob::read(alloc, text)? else {
        return Ok(None);
    };
    let mut globs = Vec::new(alloc);
    globs.push(glob)?;
    let Some(rest) = behind_any_folder(text) else {
        return Ok(Some(globs));
    };
    let Some(other) = Glob::read(alloc, rest)? else {
        return Ok(None);
    };
    globs.push(other)?;
    Ok(Some(globs))
}

fn behind_any_folder(text: &str) -> Option<&str>
    ensures { option_map (λ rest. rest.now) result ≡ behind_any_folder text.now }
{
    text.strip_prefix("**/")
}
