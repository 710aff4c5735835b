//! Laws of an amended `REUSE.toml`.
ghost use Rattle.std.specs.Prelude.{◌≡◌, ◌≢◌, ◌≤◌, ◌+◌, length, ℕ, List, Some, None, Ok, flat_map};
ghost use Rattle.reuse_text.specs.Text.{spliced};
ghost use Rattle.reuse_text.specs.declared.TheConstants.{LONGEST_FILE};
ghost use Rattle.reuse_amend.specs.declared.amendments.Amendments.{Amendments};
ghost use Rattle.reuse_toml.specs.declared.toml_change.TomlSplice.{TomlSplice};
ghost use Rattle.reuse_toml.specs.TomlPieces.{pieces_of};
ghost use Rattle.reuse_toml.specs.TomlAmending.{toml_amendment_of};
ghost use Rattle.reuse_toml.specs.TomlLaws.{IsAmendedText, IsChangedText, DiffersInStrings};

/// A text is its pieces, put together: comments, strings, words and the bytes between them.
pub fn toml_texts_are_their_pieces()
    ensures { (text : List ℕ) → flat_map (λ piece. piece) (pieces_of text) ≡ text }
{}

/// A changed file is read as the old table with the values of the two keys amended, which is
/// another table, and all of it but strings and commas stays byte for byte, its comments too. The
/// change stands in the file, and the result is another file of at most 16 MiB. A file that stays
/// is read as a table in which no value changes.
pub fn amended_files_are_read_as_amended_tables()
    ensures judged { (a : Amendments) (file : List ℕ) (change : TomlSplice)
        → toml_amendment_of a file ≡ Ok (Some change)
        → IsChangedText a file (spliced file change.at change.old change.new) }
    ensures kept { (a : Amendments) (file : List ℕ) (change : TomlSplice) → toml_amendment_of a file ≡ Ok (Some change)
        → DiffersInStrings file (spliced file change.at change.old change.new) }
    ensures within { (a : Amendments) (file : List ℕ) (change : TomlSplice)
        → toml_amendment_of a file ≡ Ok (Some change)
        → change.at + change.old ≤ length file }
    ensures fits { (a : Amendments) (file : List ℕ) (change : TomlSplice) → toml_amendment_of a file ≡ Ok (Some change)
        → length (spliced file change.at change.old change.new) ≤ LONGEST_FILE }
    ensures another { (a : Amendments) (file : List ℕ) (change : TomlSplice)
        → toml_amendment_of a file ≡ Ok (Some change)
        → spliced file change.at change.old change.new ≢ file }
    ensures unchanged { (a : Amendments) (file : List ℕ) → toml_amendment_of a file ≡ Ok None
        → IsAmendedText a file file }
{}
