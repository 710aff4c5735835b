//! The words of contents: what stands between blanks, without punctuation at the start of a content.
ghost use Rattle.std.specs.Prelude.{◌≡◌, ◌++◌, ◌∷◌, [], IfOk, OnOk, map, if◌then◌else◌};
ghost use Rattle.reuse_notice.specs.Tags.{is_filler, drop_front};
ghost use Rattle.reuse_words.specs.Words.{ends_word, spaced_words, words_in, words_of, is_same_text};

use reuse_notice::{is_blank_byte, trim_start_with};
use reuse_text::Bytes;
use std::alloc::{AllocError, Global};

/// Whether contents are the same text: their words are equal, in order, where `punct` is the
/// punctuation of their comment's style.
pub fn is_same_text(
    alloc: Global,
    contents: &[Bytes],
    others: &[Bytes],
    punct: &[u8],
) -> Result<bool, AllocError>
    ensures { IfOk result (λ answer. answer ≡ is_same_text punct.now contents.now others.now) }
{
    let words = words_of(alloc, contents, punct)?;
    let others = words_of(alloc, others, punct)?;
    Ok(words.as_slice() == others.as_slice())
}

/// The words of contents, each with a space behind it.
pub(crate) fn words_of(
    alloc: Global,
    contents: &[Bytes],
    punct: &[u8],
) -> Result<Vec<u8>, AllocError>
    ensures { IfOk result (λ words. words.items ≡ words_of punct.now contents.now) }
{
    let mut words = Vec::new(alloc);
    for content in contents {
        push_words(&mut words, after_filler(content.as_slice(), punct))?;
    }
    Ok(words)
}

/// The words of each content.
pub(crate) fn rows_of(
    alloc: Global,
    contents: &[Bytes],
    punct: &[u8],
) -> Result<Vec<Bytes>, AllocError>
    ensures { IfOk result (λ rows. rows.items ≡ map (words_in punct.now) contents.now) }
{
    let mut rows = Vec::new(alloc);
    for content in contents {
        let mut words = Vec::new(alloc);
        push_words(&mut words, after_filler(content.as_slice(), punct))?;
        rows.push(Bytes::from_vec(words))?;
    }
    Ok(rows)
}

// Adds the words of a text, each with a space behind it.
#[tactic(auto, unfolding(crate::specs::Words::spaced_words))]
fn push_words(words: &mut Vec<u8>, text: &[u8]) -> Result<(), AllocError>
    ensures { OnOk result (words.new.items ≡ words.old.items ++ spaced_words text.now) }
{
    let mut rest = text;
    while let [byte, others @ ..] = rest {
        if !is_blank_byte(*byte) {
            push_byte(words, *byte, others)?;
        }
        rest = others;
    }
    Ok(())
}

// Adds a byte of a word, and a space where the word ends behind it.
fn push_byte(words: &mut Vec<u8>, byte: u8, others: &[u8]) -> Result<(), AllocError>
    ensures { OnOk result (words.new.items ≡ words.old.items ++ byte
        ∷ (if ends_word others.now then 32 ∷ [] else [])) }
{
    words.push(byte)?;
    if ends_word(others) {
        words.push(b' ')?;
    }
    Ok(())
}

// Whether a word ends in front of some bytes.
fn ends_word(bytes: &[u8]) -> bool
    ensures { result ≡ ends_word bytes.now }
{
    match bytes {
        [] => true,
        [byte, ..] => is_blank_byte(*byte),
    }
}

// The bytes from the first one on that is neither blank nor punctuation.
fn after_filler<'a>(bytes: &'a [u8], punct: &[u8]) -> &'a [u8]
    ensures { result.now ≡ drop_front (is_filler punct.now) bytes.now }
{
    trim_start_with(bytes, |b| is_blank_byte(b) || punct.contains(&b))
}
