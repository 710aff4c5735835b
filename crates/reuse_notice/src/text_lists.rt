//! Lists of texts, and sets of them in byte order.
ghost use Rattle.std.specs.Prelude.{◌≡◌, [], ◌∷◌, ◌++◌, IfOk, OnOk, OnErr, List, ℕ};
ghost use Rattle.std.specs.List.{list_any};
ghost use Rattle.std.specs.Str.{bytes_eq};
ghost use Rattle.std.specs.Cmp.Lexicographic.{pointwise};
ghost use Rattle.reuse_notice.specs.TextLists.{without};
ghost use Rattle.reuse_notice.specs.Sets.{set_of, IsSorted};

use reuse_text::Bytes;
use std::alloc::{AllocError, Global};
use std::marker::Model;

/// Texts in some order.
#[derive(Debug, Drop)]
pub struct Texts {
    texts: Vec<Bytes>,
}

impl Model for Texts {
    ghost Value = { List (List ℕ) };

    ghost view = { λ s. s.texts.items };
}

impl Texts {
    /// The texts in this order.
    pub fn new(texts: Vec<Bytes>) -> Texts
        ensures { result ≡ texts.items }
    {
        Texts { texts }
    }

    /// The texts, in order.
    pub fn as_slice(&self) -> &[Bytes]
        ensures { result.now ≡ self.now }
    {
        self.texts.as_slice()
    }

    // The same texts again.
    pub(crate) fn copy(&self, alloc: Global) -> Result<Texts, AllocError>
        ensures { IfOk result (λ copied. copied ≡ self.now) }
    {
        copy_all(alloc, self.as_slice())
    }

    /// Those that are not to be removed.
    pub fn without(self, removed: &[Bytes]) -> Texts
        ensures { result ≡ without removed.now self }
    {
        let Texts { texts } = self;
        Texts {
            texts: without(texts, removed),
        }
    }

    /// The set of the texts.
    pub fn into_set(self) -> TextSet
        ensures { result ≡ set_of self }
    {
        let Texts { texts } = self;
        TextSet::new(texts)
    }

    /// Adds a text.
    ///
    /// # Errors
    /// There was no memory, and the texts stay.
    pub fn push(&mut self, text: Bytes) -> Result<(), AllocError>
        ensures ok { OnOk result (self.new ≡ self.old ++ text ∷ []) }
        ensures err { OnErr result (self.new ≡ self.old) }
    {
        self.texts.push(text)?;
        Ok(())
    }
}

// The same texts again.
fn copy_all(alloc: Global, from: &[Bytes]) -> Result<Texts, AllocError>
    ensures { IfOk result (λ copied. copied ≡ from.now) }
{
    let mut texts = Vec::new(alloc);
    for text in from {
        texts.push(text.try_clone(alloc)?)?;
    }
    Ok(Texts { texts })
}

// The texts that are not to be removed.
fn without(texts: Vec<Bytes>, removed: &[Bytes]) -> Vec<Bytes>
    ensures { result.items ≡ without removed.now texts.items }
{
    let mut kept = texts;
    kept.retain(|text| !is_among(removed, text.as_slice()));
    kept
}

// Whether texts are the same.
pub(crate) fn are_same(texts: &[Bytes], others: &[Bytes]) -> bool
    ensures { result ≡ pointwise bytes_eq texts.now others.now }
{
    texts == others
}

/// Whether a text is one of some.
pub fn is_among(texts: &[Bytes], text: &[u8]) -> bool
    ensures { result ≡ list_any (λ other. bytes_eq other text.now) texts.now }
{
    texts.iter().any(|other| other.as_slice() == text)
}

/// A set of texts, in byte order without repeats.
#[derive(Debug, Drop)]
pub struct TextSet {
    texts: Texts,
}

impl Model for TextSet {
    ghost Value = { List (List ℕ) };

    ghost view = { λ s. s.texts };

    ghost invariant = { λ s. IsSorted s.texts };
}

impl TextSet {
    /// The set of the texts.
    pub fn new(texts: Vec<Bytes>) -> TextSet
        ensures { result ≡ set_of texts.items }
    {
        let mut texts = texts;
        texts.sort_unstable();
        texts.dedup();
        TextSet {
            texts: Texts { texts },
        }
    }

    pub(crate) fn as_slice(&self) -> &[Bytes]
        ensures texts { result.now ≡ self.now }
        ensures sorted { IsSorted result.now }
    {
        self.texts.as_slice()
    }

    // The set of these texts and more.
    pub(crate) fn union(self, alloc: Global, more: &[Bytes]) -> Result<TextSet, AllocError>
        ensures { IfOk result (λ set. set ≡ set_of (self ++ more.now)) }
    {
        let TextSet {
            texts: Texts { texts },
        } = self;
        let mut texts = texts;
        for text in more {
            texts.push(text.try_clone(alloc)?)?;
        }
        Ok(TextSet::new(texts))
    }
}
