//! The names and kinds of a project's file of styles.
ghost use Rattle.std.specs.Prelude.{◌≡◌, List, ℕ, [], ◌∷◌, ◌++◌, Option, None, Some, Ok, IfOk, IfErr, map, codes, ◌&&◌};
ghost use Rattle.std.specs.Option.{option_map};
ghost use Rattle.std.specs.Str.{bytes_eq};
ghost use Rattle.toml.specs.View.{table_view};
ghost use Rattle.reuse_style.specs.declared.style.Kind.{Kind};
ghost use Rattle.reuse_style.specs.StyleFile.{kind_named, texts_in, texts_of_document, is_bad_name};
ghost use Rattle.reuse_style.specs.StyleFile.{refusal_at, own_names, styles_in, IsRefused, IsFirst};
ghost use Rattle.reuse_style.specs.Documents.{read_document};
ghost use Rattle.reuse_style.specs.Keyed.{Keyed, IsKeyed};

use crate::comment_table::CommentTable;
use crate::documents::is_version;
use crate::style::Kind;
use crate::style_refusal::StylesRefusal;
use reuse_text::Bytes;
use std::alloc::{AllocError, Global};
use std::collections::BTreeMap;
use toml::Table;

// Names, each with the text that stands for its kind.
type NamedTexts<'t> = Vec<(&'t str, &'t str)>;

/// The names of a file in lower case, with their kinds.
pub(crate) fn read_names<'a>(
    alloc: Global,
    comments: &'a CommentTable,
    file: &[u8],
) -> Result<BTreeMap<Bytes, Kind<'a>>, StylesRefusal>
    ensures ok { IfOk result
        (λ names. (own : List ℕ → Option Kind) × (styles_in comments.now (read_document file.now) ≡ Ok own)
        × IsKeyed names own) }
    ensures refused { IfErr result (IsRefused (styles_in comments.now (read_document file.now))) }
{
    let document = match toml::table_from_slice(alloc, file) {
        Ok(document) => document,
        Err(error) => {
            if error.is_memory() {
                return Err(StylesRefusal::Memory(AllocError));
            }
            return Err(StylesRefusal::NotToml);
        }
    };
    match texts_of_document(alloc, &document)? {
        None => Err(StylesRefusal::BadShape),
        Some(texts) => names_of_texts(alloc, comments, &texts),
    }
}

// The names and texts of a document, where its keys and values are as they have to be.
#[tactic(auto, unfolding(crate::specs::StyleFile::texts_of_document))]
fn texts_of_document<'t>(
    alloc: Global,
    document: &'t Table,
) -> Result<Option<NamedTexts<'t>>, AllocError>
    ensures { IfOk result (λ texts. texts_of_document (table_view document.now) ≡ option_map
        (λ v. map (λ t. (t.0.now, t.1.now)) v.items) texts) }
{
    let mut entries = document.iter();
    let Some((first, names)) = entries.next() else {
        return Ok(None);
    };
    let Some((second, version)) = entries.next() else {
        return Ok(None);
    };
    if entries.next().is_some() || !are_keys(first, second) || !is_version(version) {
        return Ok(None);
    }
    match names.as_table() {
        None => Ok(None),
        Some(names) => texts_of_table(alloc, names),
    }
}

// Whether these are the keys of a document, in byte order.
fn are_keys(first: &str, second: &str) -> bool
    ensures { result ≡ (bytes_eq first.now (codes "styles") && bytes_eq second.now (codes "version")) }
{
    first == "styles" && second == "version"
}

// The names and texts of a table, where each value is a text.
#[tactic(auto, unfolding(crate::specs::StyleFile::texts_in))]
fn texts_of_table<'t>(alloc: Global, names: &'t Table) -> Result<Option<NamedTexts<'t>>, AllocError>
    ensures { IfOk result
        (λ texts. texts_in (table_view names.now) ≡ option_map (λ v. map (λ t. (t.0.now, t.1.now)) v.items) texts) }
{
    let mut texts = Vec::new(alloc);
    let mut entries = names.iter();
    while let Some((name, value)) = entries.next() {
        let Some(text) = value.as_str() else {
            return Ok(None);
        };
        texts.push((name.as_str(), text))?;
    }
    Ok(Some(texts))
}

// The names of texts in lower case, with the kinds that the texts name.
fn names_of_texts<'a>(
    alloc: Global,
    comments: &'a CommentTable,
    texts: &[(&str, &str)],
) -> Result<BTreeMap<Bytes, Kind<'a>>, StylesRefusal>
    ensures ok { IfOk result (λ names. (own : List ℕ → Option Kind)
        × (own_names comments.now (Some (map (λ t. (t.0.now, t.1.now)) texts.now)) ≡ Ok own) × IsKeyed names own) }
    ensures refused { IfErr result (IsRefused (own_names comments.now (Some (map (λ t. (t.0.now, t.1.now)) texts.now)))) }
{
    let mut names = BTreeMap::new(alloc);
    for (name, text) in texts {
        add_name(alloc, comments, &mut names, name, text)?;
    }
    Ok(names)
}

// Adds a name, with the kind that its text names.
fn add_name<'a>(
    alloc: Global,
    comments: &'a CommentTable,
    names: &mut BTreeMap<Bytes, Kind<'a>>,
    name: &str,
    text: &str,
) -> Result<(), StylesRefusal>
    ensures ok { (earlier : List (List ℕ)) (entries : List (List ℕ × Kind)) → Keyed names.old earlier entries
        → IfOk result
        (λ _. (kind : Kind) × (kind_named comments.now text.now ≡ Some kind)
        × (refusal_at comments.now earlier (name.now, text.now) ≡ None)
        × Keyed names.new (earlier ++ name.now ∷ []) (entries ++ (name.now, kind) ∷ [])) }
    ensures refused { (earlier : List (List ℕ)) (entries : List (List ℕ × Kind)) → Keyed names.old earlier entries
        → IfErr result (IsFirst (refusal_at comments.now earlier (name.now, text.now))) }
{
    if is_bad_name(name) {
        return Err(StylesRefusal::BadName(copy_of(alloc, name)?));
    }
    let Some(kind) = Kind::named(text, comments) else {
        return Err(StylesRefusal::BadStyle(copy_of(alloc, name)?));
    };
    let lowered = Bytes::from_vec(name.as_bytes().to_ascii_lowercase(alloc)?);
    let Ok(before) = names.insert(lowered, kind) else {
        return Err(StylesRefusal::Memory(AllocError));
    };
    if before.is_some() {
        return Err(StylesRefusal::Repeated(copy_of(alloc, name)?));
    }
    Ok(())
}

// The bytes of a name.
fn copy_of(alloc: Global, name: &str) -> Result<Bytes, AllocError>
    ensures { IfOk result (λ copy. copy ≡ name.now) }
{
    Bytes::from_slice(alloc, name.as_bytes())
}

// Whether a name is empty, or has a `/`.
fn is_bad_name(name: &str) -> bool
    ensures { result ≡ is_bad_name name.now }
{
    name.is_empty() || name.as_bytes().contains(&b'/')
}
