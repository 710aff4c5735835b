//! From words to the files that they name, and to what else they name one by one.
ghost use Rattle.std.specs.Prelude.{◌≡◌, IfOk, map, string_bytes};
ghost use Rattle.std.specs.Option.{option_map};
ghost use Rattle.clap.specs.Simple.{subcommand_rows_of};
ghost use Rattle.reuse_arguments.specs.FileWords.{files_from_of, globs_of, globs_read, ids_of, number_read, place_read};
ghost use Rattle.reuse_arguments.specs.FileWords.{places_read, root_of, step_read, steps_read, style_read};
ghost use Rattle.reuse_arguments.specs.FileWords.{text_files_of, text_option, texts_folder_read};
ghost use Rattle.reuse_arguments.specs.Found.{found_in};
ghost use Rattle.reuse_arguments.specs.LineFaults.{IsExpected, IsExpectedAs, all_read, each_read};

use crate::context::Context;
use crate::glob_word::globs_of_word;
use crate::line::LineFault;
use crate::place_word::place_of_word;
use crate::words::found::{flag, number, number_of, subcommand, value, values};
use crate::words::unread_words::{or_unread, unread};
use clap::ArgMatches;
use reuse_change::{EntryNumbers, FixedList};
use reuse_command::choice::Globs;
use reuse_command::command::{Place, Places};
use reuse_command::licence::Ids;
use reuse_command::request::Steps;
use reuse_header::NamedStyle;
use reuse_text::Bytes;
use reuse_toml::Glob;
use std::alloc::{AllocError, Global};

/// The folder of the tree.
pub fn read_root(alloc: Global, matches: &ArgMatches<'_>) -> Result<String, AllocError>
    ensures { IfOk result (λ root. string_bytes root ≡ root_of (found_in matches.now)) }
{
    String::from_str(alloc, value(matches, "root").unwrap_or("."))
}

/// The file that lists the files, where the subcommand names one.
pub fn read_files_from(
    alloc: Global,
    matches: &ArgMatches<'_>,
) -> Result<Option<String>, AllocError>
    ensures { IfOk result (λ file. option_map string_bytes file ≡ files_from_of (subcommand_rows_of matches.now)) }
{
    let Some((_, inner)) = subcommand(matches) else {
        return Ok(None);
    };
    match value(inner, "files-from") {
        Some(file) => Ok(Some(String::from_str(alloc, file)?)),
        None => Ok(None),
    }
}

/// The files of texts that the subcommand names, which `annotate` adds and `amend` takes out.
pub fn read_text_files(
    alloc: Global,
    matches: &ArgMatches<'_>,
) -> Result<FixedList<String>, AllocError>
    ensures { IfOk result (λ files. map string_bytes files ≡ text_files_of (subcommand_rows_of matches.now)) }
{
    let Some((name, inner)) = subcommand(matches) else {
        return Ok(FixedList::new(Vec::new(alloc)));
    };
    Ok(FixedList::new(strings_of(alloc, values(inner, text_option(name)))?))
}

// The option of a subcommand that names files of texts.
fn text_option(name: &str) -> &'static str
    ensures { result.now ≡ text_option name.now }
{
    if name == "annotate" {
        "text"
    } else {
        "remove-text"
    }
}

fn strings_of(alloc: Global, words: &[&str]) -> Result<Vec<String>, AllocError>
    ensures { IfOk result (λ texts. map string_bytes texts.items ≡ map (λ word. word.now) words.now) }
{
    let mut texts = Vec::new(alloc);
    for word in words {
        texts.push(String::from_str(alloc, word)?)?;
    }
    Ok(texts)
}

/// The places.
pub fn read_places(
    alloc: Global,
    matches: &ArgMatches<'_>,
    context: &Context<'_>,
) -> Result<Places, LineFault>
    ensures { IsExpected (places_read context.now.folder (found_in matches.now)) result }
{
    let words = values(matches, "PATH");
    Ok(Places::new(places_of(alloc, context.folder(), words)?))
}

fn places_of(alloc: Global, folder: Option<&str>, words: &[&str]) -> Result<Vec<Place>, LineFault>
    ensures { IsExpectedAs (λ places. places.items)
        (each_read (place_read (option_map (λ text. text.now) folder.entry)) (map (λ word. word.now) words.now))
        result }
{
    let mut places = Vec::new(alloc);
    for word in words {
        places.push(read_place(alloc, folder, word)?)?;
    }
    Ok(places)
}

fn read_place(alloc: Global, folder: Option<&str>, word: &str) -> Result<Place, LineFault>
    ensures { IsExpected (place_read (option_map (λ text. text.now) folder.entry) word.now) result }
{
    match place_of_word(alloc, folder, word)? {
        Some(place) => Ok(place),
        None => Err(LineFault::BadPath(String::from_str(alloc, word)?)),
    }
}

/// The globs that exclude files.
pub fn read_globs(alloc: Global, matches: &ArgMatches<'_>) -> Result<Globs, LineFault>
    ensures { IsExpected (globs_read (found_in matches.now)) result }
{
    Ok(Globs::new(globs_in(alloc, values(matches, "exclude"))?))
}

fn globs_in(alloc: Global, words: &[&str]) -> Result<Vec<Glob>, LineFault>
    ensures { IsExpectedAs (λ globs. globs.items) (all_read globs_of (map (λ word. word.now) words.now)) result }
{
    let mut globs = Vec::new(alloc);
    for word in words {
        let mut found = read_glob(alloc, word)?;
        globs.append(&mut found)?;
    }
    Ok(globs)
}

fn read_glob(alloc: Global, word: &str) -> Result<Vec<Glob>, LineFault>
    ensures { IsExpectedAs (λ globs. globs.items) (globs_of word.now) result }
{
    match globs_of_word(alloc, word)? {
        Some(globs) => Ok(globs),
        None => Err(LineFault::BadGlob(String::from_str(alloc, word)?)),
    }
}

/// The style of all files, where one is named.
pub fn read_style(alloc: Global, matches: &ArgMatches<'_>) -> Result<Option<NamedStyle>, LineFault>
    ensures { IsExpected (style_read (found_in matches.now)) result }
{
    let Some(name) = value(matches, "style") else {
        return Ok(None);
    };
    let style = or_unread(
        alloc,
        NamedStyle::of_name(name),
        "a style that nothing reads",
    )?;
    Ok(Some(style))
}

/// The folder of the licence texts.
pub fn read_texts(alloc: Global, matches: &ArgMatches<'_>) -> Result<String, LineFault>
    ensures { IsExpectedAs string_bytes (texts_folder_read (found_in matches.now)) result }
{
    match value(matches, "texts") {
        Some(folder) => Ok(String::from_str(alloc, folder)?),
        None => Err(unread(alloc, "no folder of texts")?),
    }
}

/// The ids of licences.
pub fn read_ids(alloc: Global, matches: &ArgMatches<'_>) -> Result<Ids, AllocError>
    ensures { IfOk result (λ ids. ids ≡ ids_of (found_in matches.now)) }
{
    Ok(Ids::new(ids_in(alloc, values(matches, "ID"))?))
}

fn ids_in(alloc: Global, words: &[&str]) -> Result<Vec<Bytes>, AllocError>
    ensures { IfOk result (λ ids. ids.items ≡ map (λ word. word.now) words.now) }
{
    let mut ids = Vec::new(alloc);
    for word in words {
        ids.push(Bytes::from_slice(alloc, word.as_bytes())?)?;
    }
    Ok(ids)
}

/// The number of a step.
pub fn read_step(alloc: Global, matches: &ArgMatches<'_>) -> Result<u32, LineFault>
    ensures { IsExpected (step_read (found_in matches.now)) result }
{
    or_unread(alloc, number(matches, "NUMBER"), "no number of a step")
}

/// The steps to be forgotten.
pub fn read_steps(alloc: Global, matches: &ArgMatches<'_>) -> Result<Steps, LineFault>
    ensures { IsExpected (steps_read (found_in matches.now)) result }
{
    if flag(matches, "all") {
        return Ok(Steps::All);
    }
    let numbers = numbers_in(alloc, values(matches, "NUMBER"))?;
    Ok(Steps::Numbers(EntryNumbers::new(numbers)))
}

fn numbers_in(alloc: Global, words: &[&str]) -> Result<Vec<u32>, LineFault>
    ensures { IsExpectedAs (λ numbers. numbers.items)
        (each_read number_read (map (λ word. word.now) words.now)) result }
{
    let mut numbers = Vec::new(alloc);
    for word in words {
        numbers.push(read_number(alloc, word)?)?;
    }
    Ok(numbers)
}

fn read_number(alloc: Global, word: &str) -> Result<u32, LineFault>
    ensures { IsExpected (number_read word.now) result }
{
    or_unread(alloc, number_of(word), "a number that nothing reads")
}
