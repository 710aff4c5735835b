//! The names for which an annotation that was previewed is refused, since they have no comment
//! style, and those that a ready style or ready rules are better for; and the list of them.
ghost use Rattle.std.specs.Prelude.{◌≡◌, ◌++◌, Err, IfErr, IfOk, List, None, Ok, OnOk, Result, Some};
ghost use Rattle.std.specs.Option.{option_to_list};
ghost use Rattle.reuse_command.specs.Refused.{IsRefused};
ghost use Rattle.reuse_print.specs.FoundNames.{IsNoRefusal, ReportsNames, TellsFailure, names_text};
ghost use Rattle.reuse_print.specs.declared.fault.Fault.TheVariants as faults;
ghost use Rattle.reuse_command.specs.declared.reply.Refusal.{Refusal};
ghost use Rattle.reuse_ready.specs.declared.name_count.NameCount.{NameCount};
ghost use Rattle.reuse_print.specs.FoundNames.{IsFound, is_for_all, is_own_file, names_found, refusal_for_all};
ghost use Rattle.reuse_print.specs.FoundNames.{is_helped, listed_path};
ghost use Rattle.reuse_print.specs.FoundNames.{listed_paths, unless_for_all};

use crate::fault::{Fault, in_memory};
use crate::names::{print_name_objects, print_names};
use crate::output::{Sink, write_text};
use reuse_change::PathText;
use reuse_command::path_outcome::{PathOutcome, PathOutcomes};
use reuse_command::reply::Refusal;
use reuse_header::Harm;
use reuse_ready::{NameCount, has_ready_rules, name_of, ready_style, tally};
use reuse_shown::shown_name::NameDisplay;
use std::alloc::{AllocError, Global};

/// The names of the files that are refused as unrecognised, and of those that a header could break,
/// if a ready style or ready rules of the name help; each with how many of these files have it.
/// Other refusals of single files are passed over; one that is of the whole call is the answer.
pub fn names_found(alloc: Global, path_outcomes: PathOutcomes) -> Result<Vec<NameCount>, Refusal>
    ensures { IsFound (names_found path_outcomes) result }
{
    let paths = listed_paths(alloc, path_outcomes)?;
    Ok(tally(alloc, paths.as_slice())?)
}

// The paths of these files; or the first refusal that is of the whole call.
fn listed_paths(alloc: Global, path_outcomes: PathOutcomes) -> Result<Vec<PathText>, Refusal>
    ensures { IsFound (unless_for_all path_outcomes (listed_paths path_outcomes)) result }
{
    let mut paths = Vec::new(alloc);
    for path_outcome in path_outcomes.into_vec() {
        match path_outcome {
            PathOutcome::Refused(refusal) => push_unrecognised(&mut paths, refusal)?,
            PathOutcome::Changes { path, harm } => push_harmed(&mut paths, path, harm)?,
            other => drop(other),
        }
    }
    Ok(paths)
}

// Adds the path that is refused as unrecognised; a refusal that is of the whole call is handed back.
fn push_unrecognised(paths: &mut Vec<PathText>, refusal: Refusal) -> Result<(), Refusal>
    ensures pushed { OnOk result ((refusal_for_all (PathOutcome.Refused refusal) ≡ None)
        × (paths.new.items ≡ paths.old.items ++ option_to_list (listed_path (PathOutcome.Refused refusal)))) }
    ensures refused { IfErr result (IsRefused (refusal_for_all (PathOutcome.Refused refusal))) }
{
    match refusal {
        Refusal::Unrecognised(path) => {
            paths.push(path)?;
            Ok(())
        }
        refusal => {
            if is_for_all(&refusal) {
                return Err(refusal);
            }
            drop(refusal);
            Ok(())
        }
    }
}

// Adds the path of a file that a header could break, if the ready tables help.
fn push_harmed(
    paths: &mut Vec<PathText>,
    path: PathText,
    harm: Option<Harm>,
) -> Result<(), AllocError>
    ensures { OnOk result (paths.new.items ≡ paths.old.items
        ++ option_to_list (listed_path (PathOutcome.Changes path harm))) }
{
    if is_helped(harm, name_of(path.as_bytes())) {
        paths.push(path)?;
    } else {
        drop(path);
    }
    Ok(())
}

// Whether a ready style of a name may keep what a header could break in front, or ready rules give
// a file that begins with markup another style.
fn is_helped(harm: Option<Harm>, name: &[u8]) -> bool
    ensures { result ≡ is_helped harm name.now }
{
    match harm {
        None | Some(Harm::BelowText) => false,
        Some(Harm::Markup) => has_ready_rules(name),
        Some(_) => ready_style(name).is_some(),
    }
}

// Whether the refusal is of the whole call: a PATH that isn't there, or a file of the tree's own
// styles or comments.
fn is_for_all(refusal: &Refusal) -> bool
    ensures { result ≡ is_for_all refusal.now }
{
    match refusal {
        Refusal::NoSuchPath(_) | Refusal::BadStyles(_) | Refusal::BadComments(_) => true,
        Refusal::TooLong(path) => is_own_file(path.text()),
        _ => false,
    }
}

fn is_own_file(path: &str) -> bool
    ensures { result ≡ is_own_file path.now }
{
    path == ".reuse/styles.toml" || path == ".reuse/comments.toml"
}

/// Writes the list of the names that were found, as lines or as objects. No path changed.
pub fn report_names<O: Sink>(
    out: &mut O,
    alloc: Global,
    found: Result<Vec<NameCount>, Refusal>,
    as_objects: bool,
    names: NameDisplay,
) -> Result<usize, Fault>
    ensures reports { (expected : Result (List NameCount) Refusal) → IsFound expected found
        → ReportsNames (names_text as_objects names) expected (O.contents out.old) (O.contents out.new) result }
    ensures quiet { (refusal : Refusal) → result ≡ Err (faults.Refused refusal) → out.new ≡ out.old }
    ensures failed { TellsFailure (O.failed out.old) (O.failed out.new) result }
{
    match found {
        Ok(rows) => write_names(out, alloc, rows.as_slice(), as_objects, names),
        Err(refusal) => Err(Fault::Refused(refusal)),
    }
}

fn write_names<O: Sink>(
    out: &mut O,
    alloc: Global,
    rows: &[NameCount],
    as_objects: bool,
    names: NameDisplay,
) -> Result<usize, Fault>
    ensures reports { ReportsNames (names_text as_objects names) (Ok rows.now) (O.contents out.old) (O.contents out.new)
        result }
    ensures unrefused { IfErr result IsNoRefusal }
    ensures failed { TellsFailure (O.failed out.old) (O.failed out.new) result }
{
    let text = text_of_names(alloc, rows, as_objects, names)?;
    write_text(out, text.as_slice())?;
    Ok(0)
}

fn text_of_names(
    alloc: Global,
    rows: &[NameCount],
    as_objects: bool,
    names: NameDisplay,
) -> Result<Vec<u8>, Fault>
    ensures text { IfOk result (λ text. text.items ≡ names_text as_objects names rows.now) }
    ensures fault { IfErr result (λ fault. fault ≡ faults.Memory) }
{
    let mut text = Vec::new(alloc);
    if as_objects {
        in_memory(print_name_objects(&mut text, alloc, rows))?;
    } else {
        in_memory(print_names(&mut text, names, rows))?;
    }
    Ok(text)
}
