//! From a dep5 to a `REUSE.toml`.
ghost use Rattle.std.specs.Prelude.{◌≡◌, ◌↔◌, List, ℕ, Some, IfOk, IfErr};
ghost use Rattle.reuse_dep5.specs.ReuseTable.{annotations_of};
ghost use Rattle.toml.specs.Data.{Members};
ghost use Rattle.reuse_dep5.specs.LastMatch.{IsDep5Answer, IsTableAnswer, IsWrittenAnswer};
ghost use Rattle.reuse_toml.specs.TomlText.{read_toml};
ghost use Rattle.reuse_dep5.specs.ReuseToml.{question_in, question_of, IsReuseToml, IsTomlRefusal};

use crate::convert::has_question_mark;
use crate::dep5::{Dep5, FilesParagraph};
use crate::pattern::Pattern;
use crate::read_back::reads_back;
use crate::refusal::Dep5Refusal;
use crate::table_text::written_dep5;
use reuse_text::LONGEST_FILE;
use std::alloc::Global;

/// The line of the first pattern with an unescaped `?`.
fn first_question(patterns: &[Pattern]) -> Option<usize>
    ensures { result ≡ question_in patterns.now }
{
    for pattern in patterns {
        if has_question_mark(&pattern.pieces) {
            return Some(pattern.line);
        }
    }
    None
}

/// The line of the first pattern with an unescaped `?` in `Files` paragraphs.
fn first_question_of(files: &[FilesParagraph]) -> Option<usize>
    ensures { result ≡ question_of files.now }
{
    for paragraph in files {
        if let Some(line) = first_question(&paragraph.patterns) {
            return Some(line);
        }
    }
    None
}

/// The text of the `REUSE.toml` that says what a dep5 says (REUSE Specification 3.3, "REUSE.toml").
///
/// Refused are, in this order, `Question` at the first pattern with an unescaped `?`, `TooLong`
/// where the text is over 16 MiB, and `NotToml` where the text, read as TOML, is not the table of
/// the dep5.
pub fn to_toml(alloc: Global, dep5: &Dep5) -> Result<Vec<u8>, Dep5Refusal>
    ensures ok { IfOk result (λ text. IsReuseToml dep5.now text.items) }
    ensures refused { IfErr result (IsTomlRefusal dep5.now) }

    // The first `?` is refused before any memory is asked for.
    ensures question { (line : ℕ)
        → (result ≡ Err (Dep5Refusal.Question line)) ↔ (question_of dep5.now.files ≡ Some line) }

    // For every path the last matching record of the text, read with `toml` and its paths as globs,
    // is the record of the last matching paragraph.
    ensures written_agrees { IfOk result
        (λ text. (document : Members) → read_toml text.items ≡ Some document → (path : List ℕ) (k : ℕ)
        → IsWrittenAnswer document path k ↔ IsDep5Answer dep5.now path k) }

    // So is that of the records as they are meant.
    ensures agrees { IfOk result
        (λ _. (path : List ℕ) (k : ℕ) → IsTableAnswer (annotations_of dep5.now) path k ↔ IsDep5Answer dep5.now path k) }
{
    if let Some(line) = first_question_of(&dep5.files) {
        return Err(Dep5Refusal::Question(line));
    }
    let text = written_dep5(alloc, dep5)?;
    if text.len() > LONGEST_FILE {
        return Err(Dep5Refusal::TooLong);
    }
    if !reads_back(alloc, &text, dep5)? {
        return Err(Dep5Refusal::NotToml);
    }
    Ok(text)
}
