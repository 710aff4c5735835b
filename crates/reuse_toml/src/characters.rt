//! The characters of a text, one at a time.
ghost use Rattle.std.specs.Prelude.{◌≡◌, [], ◌∷◌, MatchOption, IfSome};
ghost use Rattle.std.specs.Str.{chars, IsUtf8};

/// The first character of a text and what follows it, or `None` where the text is empty.
pub fn split_first_char(text: &str) -> Option<(char, &str)>
    ensures characters { MatchOption result (chars text.now ≡ [])
        (λ found. chars text.now ≡ found.0 ∷ chars found.1.now) }
    ensures utf8 { IfSome result (λ found. IsUtf8 found.1.now) }
{
    let mut characters = text.chars();
    match characters.next() {
        None => None,
        Some(first) => Some((first, characters.as_str())),
    }
}
