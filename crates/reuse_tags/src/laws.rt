//! Laws of the tags amended where they stand.
ghost use Rattle.std.specs.Prelude.{◌≡◌, ℕ, false, List, Option, None, Some};
ghost use Rattle.reuse_amend.specs.declared.amendments.Amendments.{Amendments};
ghost use Rattle.reuse_tags.specs.Left.{names_values};
ghost use Rattle.reuse_tags.specs.Everywhere.{line_amended, amended_everywhere};
ghost use Rattle.reuse_tags.specs.Placed.{IsChangedInValues};

/// A line is amended in the values of its tags alone: all in front of them and behind them stays
/// byte for byte. It goes only if nothing else is said on it.
pub fn values_alone_are_amended()
    ensures { (a : Amendments) (line : List ℕ) (kept : Option (List ℕ)) → line_amended a line ≡ Some kept
        → IsChangedInValues line kept }
{}

/// A text that says nothing that the amendments name stays byte for byte, if they set neither years
/// nor a prefix.
pub fn unnamed_texts_stay()
    ensures { (a : Amendments) (text : List ℕ) → names_values a text ≡ false → a.until ≡ None → a.prefix ≡ None
        → amended_everywhere a text ≡ Some text }
{}
