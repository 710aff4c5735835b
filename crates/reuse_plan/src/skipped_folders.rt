//! Which folders a listing passes over where folders are gone through: those beneath which no file
//! is selected.
ghost use Rattle.std.specs.Prelude.{◌≡◌};
ghost use Rattle.reuse_command.specs.Choice.{is_passed_over, lists_none};

use reuse_change::{PathText, Pruning};
use reuse_command::choice::{has_one_under, matches_folder};
use reuse_command::command::Scope;

/// The folders beneath which no file is asked for, and no path lies that is given.
#[derive(Clone, Copy)]
pub(crate) struct SkippedFolders<'a> {
    pub(crate) scope: &'a Scope,
    pub(crate) given: &'a [PathText],
}

impl Pruning for SkippedFolders<'_> {
    ghost prunes = { λ skipped_folders folder.
        is_passed_over skipped_folders.scope.now skipped_folders.given.now folder };

    fn prunes(&self, folder: &str) -> bool {
        is_passed_over(self.scope, self.given, folder)
    }
}

fn is_passed_over(scope: &Scope, given: &[PathText], folder: &str) -> bool
    ensures { result ≡ is_passed_over scope.now given.now folder.now }
{
    (lists_none(scope, folder) || matches_folder(&scope.excluded, folder))
        && !has_one_under(given, folder)
}

// Whether no path of the list, where there is one, lies under the folder.
fn lists_none(scope: &Scope, folder: &str) -> bool
    ensures { result ≡ lists_none scope.now.listed folder.now }
{
    match &scope.listed {
        None => false,
        Some(listed) => !listed.has_under(folder),
    }
}
