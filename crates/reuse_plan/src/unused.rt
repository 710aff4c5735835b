//! What of a command's choice of the files beneath folders came to nothing: globs that left nothing
//! out, and listed paths that are no file beneath a place on which the command works. It is found by
//! what the walk listed anyway. `tests/notes.sh` shows what is reported of it.
ghost use Rattle.std.specs.Prelude.{◌≡◌, [], IfOk, map};
ghost use Rattle.reuse_change.specs.Listing.{ArePaths};
ghost use Rattle.reuse_plan.specs.FileTask.{scope_of, works_on};
ghost use Rattle.reuse_plan.specs.Unused.{is_left_out_by, is_unmet, leaves_none_out, unmet_count};

use crate::file_task::FileTask;
use crate::select::is_listed;
use reuse_change::{PathText, is_among};
use reuse_command::choice::{leaves_out, matches_one};
use reuse_command::command::Scope;
use reuse_toml::Glob;
use std::alloc::{AllocError, Global};

/// What of a choice came to nothing.
#[derive(Debug, Drop)]
pub struct Unused {
    /// How many paths of the list are no file beneath a place on which the command works, and left
    /// out by no glob.
    pub names: usize,
    /// Of each glob, in their order, whether it left none of the files out that were found. A file
    /// beneath a folder that is passed over isn't found.
    pub globs: Vec<bool>,
}

impl Unused {
    /// Of no choice.
    pub(crate) fn none(alloc: Global) -> Unused
        ensures names { result.names ≡ 0 }
        ensures globs { result.globs.items ≡ [] }
    {
        Unused {
            names: 0,
            globs: Vec::new(alloc),
        }
    }

    /// Of the one that is asked for, where these paths were found, and those of them are selected.
    pub(crate) fn of(
        alloc: Global,
        asked: &FileTask<'_, '_>,
        selected: &[PathText],
        found: &[PathText],
    ) -> Result<Unused, AllocError>
        requires { ArePaths selected.now }
        ensures names { IfOk result (λ unused. unused.names ≡ unmet_count (scope_of asked.now) selected.now
            (scope_of asked.now).listed) }
        ensures globs { IfOk result (λ unused. unused.globs.items ≡ map (leaves_none_out (works_on asked.now)
            (scope_of asked.now) selected.now found.now) (scope_of asked.now).excluded) }
    {
        Ok(Unused {
            names: unmet_count(asked.scope(), selected),
            globs: idle_globs(alloc, asked, selected, found)?,
        })
    }
}

fn unmet_count(scope: &Scope, selected: &[PathText]) -> usize
    requires { ArePaths selected.now }
    ensures { result ≡ unmet_count scope.now selected.now scope.now.listed }
{
    match &scope.listed {
        None => 0,
        Some(names) => names
            .as_slice()
            .iter()
            .filter(|name| is_unmet(scope, selected, name))
            .count(),
    }
}

fn is_unmet(scope: &Scope, selected: &[PathText], path: &PathText) -> bool
    requires { ArePaths selected.now }
    ensures { result ≡ is_unmet scope.now selected.now path.now }
{
    !is_among(selected, path.as_bytes()) && !matches_one(&scope.excluded, path)
}

// Of each glob whether it left none out.
fn idle_globs(
    alloc: Global,
    asked: &FileTask<'_, '_>,
    selected: &[PathText],
    found: &[PathText],
) -> Result<Vec<bool>, AllocError>
    requires { ArePaths selected.now }
    ensures { IfOk result (λ idle. idle.items ≡ map (leaves_none_out (works_on asked.now) (scope_of asked.now)
        selected.now found.now) (scope_of asked.now).excluded) }
{
    asked
        .scope()
        .excluded
        .as_slice()
        .iter()
        .map(|glob| leaves_none_out(asked, selected, found, glob))
        .collect(alloc)
}

fn leaves_none_out(
    asked: &FileTask<'_, '_>,
    selected: &[PathText],
    found: &[PathText],
    glob: &Glob,
) -> bool
    requires { ArePaths selected.now }
    ensures { result ≡ leaves_none_out (works_on asked.now) (scope_of asked.now) selected.now found.now glob.now }
{
    !found
        .iter()
        .any(|path| is_left_out_by(asked, selected, glob, path))
}

fn is_left_out_by(
    asked: &FileTask<'_, '_>,
    selected: &[PathText],
    glob: &Glob,
    path: &PathText,
) -> bool
    requires { ArePaths selected.now }
    ensures { result ≡ is_left_out_by (works_on asked.now) (scope_of asked.now) selected.now glob.now path.now }
{
    leaves_out(glob, path)
        && asked.works_on(path)
        && is_listed(asked.scope(), path)
        && !is_among(selected, path.as_bytes())
}
