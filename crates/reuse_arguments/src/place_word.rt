//! The place that a word of the command line names.
ghost use Rattle.std.specs.Prelude.{◌≡◌, ◌++◌, ◌∷◌, IfOk, OnOk, map, string_bytes, if◌then◌else◌};
ghost use Rattle.std.specs.Option.{option_map};
ghost use Rattle.reuse_arguments.specs.Places.{without_end_slash, parts_of, path_along, is_named};
ghost use Rattle.reuse_arguments.specs.Places.{place_along, place_at};
ghost use Rattle.reuse_arguments.specs.Places.{place_of_word, walked};
ghost use Rattle.reuse_system.specs.Names.{between_slashes};

use reuse_change::{PathError, PathText};
use reuse_command::command::Place;
use std::alloc::{AllocError, Global};

/// The place that the word names: parts `.` and a slash at the end are dropped, and `.` is the
/// root. There is none where what is left is no path, as `/a` or `a/../b`. Where words start at a
/// folder of the tree, this is its path, or `.` for the root: then the word's parts lead on from
/// there, a part `..` to the folder above, and there is no place above the root.
pub fn place_of_word(
    alloc: Global,
    folder: Option<&str>,
    word: &str,
) -> Result<Option<Place>, AllocError>
    ensures { IfOk result
        (λ place. place ≡ place_of_word (option_map (λ text. text.now) folder.entry) word.now) }
{
    let parts = parts_of(alloc, word)?;
    match folder {
        None => place_along(alloc, parts.as_slice()),
        Some(folder) => match walk(parts_of(alloc, folder)?, parts.as_slice())? {
            Some(reached) => place_along(alloc, reached.as_slice()),
            None => Ok(None),
        },
    }
}

// The place along these parts from the root.
fn place_along(alloc: Global, parts: &[&str]) -> Result<Option<Place>, AllocError>
    ensures { IfOk result (λ place. place ≡ place_at (path_along (map (λ part. part.now) parts.now))) }
{
    match path_along(alloc, parts)? {
        Some(path) => place_at(alloc, path.as_str()),
        None => Ok(Some(Place::Root)),
    }
}

fn place_at(alloc: Global, path: &str) -> Result<Option<Place>, AllocError>
    ensures { IfOk result (λ place. place ≡ place_at (Some path.now)) }
{
    match PathText::new(alloc, path) {
        Ok(path) => Ok(Some(Place::Path(path))),
        Err(PathError::BadPath) => Ok(None),
        Err(PathError::Memory) => Err(AllocError),
    }
}

// Where these parts lead from a folder, which is given by its parts.
#[tactic(auto, unfolding(crate::specs::Places::walked))]
fn walk<'a>(
    mut folder: Vec<&'a str>,
    mut parts: &[&'a str],
) -> Result<Option<Vec<&'a str>>, AllocError>
    ensures { IfOk result (λ reached. option_map (λ v. map (λ part. part.now) v.items) reached
        ≡ walked (map (λ part. part.now) folder.entry.items) (map (λ part. part.now) parts.entry.now)) }
{
    while let [part, others @ ..] = parts {
        if *part != ".." {
            folder.push(*part)?;
        } else if folder.pop().is_none() {
            return Ok(None);
        }
        parts = others;
    }
    Ok(Some(folder))
}

// The path along these parts, or none where there is no part.
fn path_along(alloc: Global, parts: &[&str]) -> Result<Option<String>, AllocError>
    ensures { IfOk result
        (λ path. option_map string_bytes path ≡ path_along (map (λ part. part.now) parts.now)) }
{
    let mut path = String::new(alloc);
    let mut is_empty = true;
    for part in parts {
        push_part(&mut path, is_empty, part)?;
        is_empty = false;
    }
    Ok(if is_empty { None } else { Some(path) })
}

// The word's parts that count.
fn parts_of<'a>(alloc: Global, word: &'a str) -> Result<Vec<&'a str>, AllocError>
    ensures { IfOk result (λ parts. map (λ part. part.now) parts.items ≡ parts_of word.now) }
{
    let mut parts = Vec::new(alloc);
    for part in split_at_slashes(alloc, without_end_slash(word))?.as_slice() {
        if is_named(part) {
            parts.push(*part)?;
        }
    }
    Ok(parts)
}

// The word without a slash at its end.
fn without_end_slash(word: &str) -> &str
    ensures { result.now ≡ without_end_slash word.now }
{
    match word.strip_suffix('/') {
        Some(front) => front,
        None => word,
    }
}

// What stands between the slashes.
fn split_at_slashes<'a>(alloc: Global, word: &'a str) -> Result<Vec<&'a str>, AllocError>
    ensures { IfOk result (λ parts. map (λ part. part.now) parts.items ≡ between_slashes word.now) }
{
    word.split('/').collect(alloc)
}

fn is_named(part: &str) -> bool
    ensures { result ≡ is_named part.now }
{
    part != "."
}

// Adds a part, after a slash unless it is the first.
fn push_part(path: &mut String, is_first: bool, part: &str) -> Result<(), AllocError>
    ensures { OnOk result (string_bytes path.new
        ≡ (if is_first then string_bytes path.old ++ part.now else string_bytes path.old ++ 47 ∷ part.now)) }
{
    if !is_first {
        path.push('/')?;
    }
    path.push_str(part)
}
