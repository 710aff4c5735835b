//! Laws of what the contracts speak of: each holds of the definitions alone.
ghost use Rattle.std.specs.Prelude.{◌≡◌, ◌≢◌, ◌↔◌, ◌⊎◌, ◌≤◌, List, ℕ, length, true, Ok, Err};
ghost use Rattle.std.specs.Str.{IsUtf8};
ghost use Rattle.reuse_dep5.specs.SourceText.{NumberedLine, dep5_lines, paragraphs};
ghost use Rattle.reuse_dep5.specs.Fields.{value_of};
ghost use Rattle.reuse_dep5.specs.PatternText.{words_of};
ghost use Rattle.reuse_dep5.specs.LastMatch.{EachPasses};
ghost use Rattle.toml.specs.Data.{Members};
ghost use Rattle.reuse_dep5.specs.Dep5.{Dep5Value, paragraphs_of, dep5_of};
ghost use Rattle.reuse_dep5.specs.Grammar.{IsGrammatical, IsFirstFault, IsDep5Text, IsTextFault};
ghost use Rattle.reuse_dep5.specs.ReadBack.{table_of};
ghost use Rattle.reuse_dep5.specs.ReuseToml.{IsReuseToml, IsTomlRefusal};
ghost use Rattle.reuse_dep5.specs.SameData.{same_members};
ghost use Rattle.reuse_dep5.specs.Conversion.{converted};

use crate::refusal::{Dep5Cause, Dep5Refusal};
use reuse_text::LONGEST_FILE;
pub use reuse_toml::{glob_text_is_read_back, globs_are_decided};

/// Paragraphs are read as a dep5 exactly where they are grammatical, and refused exactly by their
/// first fault.
pub fn dep5_is_grammatical()
    ensures accepted { (ps : List (List NumberedLine))
        → ((dep5 : Dep5Value) × (paragraphs_of ps ≡ Ok dep5)) ↔ IsGrammatical ps }
    ensures refused { (ps : List (List NumberedLine)) (e : Dep5Refusal) → (paragraphs_of ps ≡ Err e)
        ↔ ((number : ℕ) × (cause : Dep5Cause) × (Dep5Refusal.BadDep5 number cause ≡ e) × IsFirstFault ps number cause) }
{}

/// A text is the text of a dep5, or there is one thing that is wrong with it, and then it is
/// refused for that.
pub fn texts_have_one_answer()
    ensures accepted { (bytes : List ℕ) → ((dep5 : Dep5Value) × (dep5_of bytes ≡ Ok dep5)) ↔ IsDep5Text bytes }
    ensures refused { (bytes : List ℕ) (e : Dep5Refusal) → (dep5_of bytes ≡ Err e) ↔ IsTextFault bytes e }
    ensures some { (bytes : List ℕ) → IsDep5Text bytes ⊎ ((e : Dep5Refusal) × IsTextFault bytes e) }
    ensures either { (bytes : List ℕ) (e : Dep5Refusal) → IsTextFault bytes e → ¬ IsDep5Text bytes }
    ensures one { (bytes : List ℕ) (e other : Dep5Refusal) → IsTextFault bytes e → IsTextFault bytes other → e ≡ other }
{}

/// Each line of each value of a UTF-8 text, and each word of it, is UTF-8. So a word is refused for
/// a backslash alone.
pub fn values_are_text()
    ensures lines { (bytes : List ℕ) → IsUtf8 bytes
        → EachPasses (λ (p : List NumberedLine). (name : List ℕ)
        → EachPasses (λ (l : NumberedLine). IsUtf8 l.content) (value_of name p)) (paragraphs (dep5_lines bytes)) }
    ensures words { (bytes : List ℕ) → IsUtf8 bytes
        → EachPasses (λ (p : List NumberedLine). (name : List ℕ) → EachPasses (λ (w : NumberedLine). IsUtf8 w.content)
        (words_of (value_of name p))) (paragraphs (dep5_lines bytes)) }
{
    reuse_text::lines_are_one();
}

/// A table passes the test against the stated table of a dep5 exactly where it is that table.
pub fn stated_tables_are_known()
    ensures { (members : Members) (dep5 : Dep5Value)
        → (same_members members (table_of dep5) ≡ true) ↔ (members ≡ table_of dep5) }
{}

/// Bytes convert to a text exactly where they are a dep5 and the text is its `REUSE.toml`, which
/// has at most 16 MiB. They are refused exactly as the dep5 or its text is, and never for want of
/// memory.
pub fn conversions_are_stated()
    ensures text { (bytes text : List ℕ)
        → (converted bytes ≡ Ok text) ↔ ((dep5 : Dep5Value) × (dep5_of bytes ≡ Ok dep5) × IsReuseToml dep5 text) }
    ensures fits { (bytes text : List ℕ) → converted bytes ≡ Ok text → length text ≤ LONGEST_FILE }
    ensures refused { (bytes : List ℕ) (e : Dep5Refusal) → (converted bytes ≡ Err e)
        ↔ ((e ≢ Dep5Refusal.Memory)
        × ((dep5_of bytes ≡ Err e) ⊎ ((dep5 : Dep5Value) × (dep5_of bytes ≡ Ok dep5) × IsTomlRefusal dep5 e))) }
{}
