//! Lists of files: of the files beneath folders, those that are annotated or amended.
ghost use Rattle.std.specs.Prelude.{◌≡◌, ◌++◌, IfErr, IfOk, IfSome, OnOk, string_bytes};
ghost use Rattle.std.specs.Option.{option_map, option_to_list};
ghost use Rattle.reuse_notice.specs.Sets.{set_of};
ghost use Rattle.reuse_arguments.specs.LineFaults.{mistake_of, unreadable};
ghost use Rattle.reuse_arguments.specs.ListedCommands.{IsWithList};
ghost use Rattle.reuse_arguments.specs.FileLists.{has_nul, separator_of, path_of_word, path_listed, listed_paths};
ghost use Rattle.reuse_arguments.specs.FileLists.{paths_within, without_return};

use crate::line::{Line, LineFault};
use crate::place_word::place_of_word;
use crate::request::set_listed;
use reuse_change::PathText;
use reuse_command::choice::PathList;
use reuse_command::command::Place;
use reuse_system::reading::read_front;
use std::alloc::{AllocError, Global};
use std::fs;
use std::io::{self, ErrorKind, Read};
use std::rt::Files;

/// The most bytes that a list may have.
const LONGEST_LIST: u64 = 268_435_456;

/// The line with the list of files that it names, whose words start at the folder. One that can't
/// be read is a fault.
pub fn with_list<R: Files + Input>(
    rt: &R,
    alloc: Global,
    line: Line,
    files_from: Option<String>,
    folder: Option<&str>,
) -> Result<Line, LineFault>
    ensures { IsWithList (option_map string_bytes files_from) line result }
{
    let Some(file) = files_from else {
        return Ok(line);
    };
    let mut line = line;
    match read_list(rt, alloc, file.as_str(), folder) {
        Ok(listed) => {
            set_listed(&mut line.request, listed);
            Ok(line)
        }
        Err(fault) => {
            drop(line);
            Err(fault)
        }
    }
}

fn read_list<R: Files + Input>(
    rt: &R,
    alloc: Global,
    file: &str,
    folder: Option<&str>,
) -> Result<PathList, LineFault>
    ensures { IfErr result (λ fault. IfSome (mistake_of fault) (λ mistake. mistake ≡ unreadable file.now)) }
{
    match read_paths(rt, alloc, file, folder) {
        Ok(Some(paths)) => Ok(paths),
        Err(error) if error.kind() == ErrorKind::OutOfMemory => Err(LineFault::Memory),
        _ => Err(LineFault::Unreadable(String::from_str(alloc, file)?)),
    }
}

/// The paths of the list in a file, or on standard input for `-`; none if the list is too long.
fn read_paths<R: Files + Input>(
    rt: &R,
    alloc: Global,
    file: &str,
    folder: Option<&str>,
) -> io::Result<Option<PathList>> {
    if file == "-" {
        paths_from(rt.reader(), alloc, folder)
    } else {
        paths_from(fs::open(rt, file)?, alloc, folder)
    }
}

/// The paths of the list that a reader has, all of it; none if the list is too long.
fn paths_from<R: Read + Drop>(
    reader: R,
    alloc: Global,
    folder: Option<&str>,
) -> io::Result<Option<PathList>>
    ensures { IfOk result (λ paths. IfSome (R.remaining reader)
        (λ list. paths ≡ paths_within (option_map (λ text. text.now) folder.entry) LONGEST_LIST list)) }
{
    let list = read_front(reader, alloc, LONGEST_LIST + 1)?;
    if list.len() as u64 > LONGEST_LIST {
        return Ok(None);
    }
    Ok(Some(paths_of_list(alloc, folder, &list)?))
}

/// The paths that a list names, one a line, which ends in LF or CR LF, or, where it holds a NUL,
/// one between two NULs. Words start at the folder, or at the root where none is given. A word that
/// names no path is passed over.
pub fn paths_of_list(
    alloc: Global,
    folder: Option<&str>,
    list: &[u8],
) -> Result<PathList, AllocError>
    ensures { IfOk result
        (λ paths. paths ≡ set_of (listed_paths (option_map (λ text. text.now) folder.entry) list.now)) }
{
    let separator = separator_of(list);
    let mut paths = Vec::new(alloc);
    for word in list.split(|byte| *byte == separator) {
        push_listed(alloc, &mut paths, folder, separator, word)?;
    }
    Ok(PathList::new(paths))
}

// What stands between two words.
fn separator_of(list: &[u8]) -> u8
    ensures { result ≡ separator_of list.now }
{
    if has_nul(list) { 0 } else { b'\n' }
}

fn has_nul(list: &[u8]) -> bool
    ensures { result ≡ has_nul list.now }
{
    list.iter().any(|byte| *byte == 0)
}

// Adds the path that a word names in a list with this separator, if it names one.
fn push_listed(
    alloc: Global,
    paths: &mut Vec<PathText>,
    folder: Option<&str>,
    separator: u8,
    word: &[u8],
) -> Result<(), AllocError>
    ensures { OnOk result (paths.new.items ≡ paths.old.items ++ option_to_list
        (path_listed (option_map (λ text. text.now) folder.entry) separator word.now)) }
{
    if let Some(path) = path_listed(alloc, folder, separator, word)? {
        paths.push(path)?;
    }
    Ok(())
}

// The path that a word names in a list with this separator, if it names one.
fn path_listed(
    alloc: Global,
    folder: Option<&str>,
    separator: u8,
    word: &[u8],
) -> Result<Option<PathText>, AllocError>
    ensures { IfOk result
        (λ path. path ≡ path_listed (option_map (λ text. text.now) folder.entry) separator word.now) }
{
    if separator == b'\n' {
        path_of_word(alloc, folder, without_return(word))
    } else {
        path_of_word(alloc, folder, word)
    }
}

// A line without the carriage return of its end.
fn without_return(line: &[u8]) -> &[u8]
    ensures { result.now ≡ without_return line.now }
{
    match line.strip_suffix(b"\r") {
        Some(front) => front,
        None => line,
    }
}

// The path that a word names, if it names one.
fn path_of_word(
    alloc: Global,
    folder: Option<&str>,
    word: &[u8],
) -> Result<Option<PathText>, AllocError>
    ensures { IfOk result
        (λ path. path ≡ path_of_word (option_map (λ text. text.now) folder.entry) word.now) }
{
    match str::from_utf8(word) {
        Ok(word) => match place_of_word(alloc, folder, word)? {
            Some(Place::Path(path)) => Ok(Some(path)),
            _ => Ok(None),
        },
        Err(_) => Ok(None),
    }
}
