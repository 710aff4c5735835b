//! What is asked of each file that a command goes through.
ghost use Rattle.std.specs.Prelude.{◌≡◌};
ghost use Rattle.reuse_plan.specs.FileTask.{scope_of, works_on};

use reuse_change::PathText;
use reuse_command::command::Scope;
use reuse_edit::annotation::{Amendment, Annotation};
use reuse_edit::covered::{is_amendable, is_covered};

/// What is asked of each file: one walk serves both commands.
#[derive(Clone, Copy)]
pub(crate) enum FileTask<'a, 'own> {
    Annotation(Annotation<'a, 'own>),
    Amendment(Amendment<'a, 'own>),
}

impl<'a, 'own> FileTask<'a, 'own> {
    /// Which files are gone through.
    pub(crate) fn scope(&self) -> &'a Scope
        ensures { result.now ≡ scope_of self.now }
    {
        match self {
            FileTask::Annotation(asked) => asked.scope,
            FileTask::Amendment(asked) => asked.scope,
        }
    }

    /// Whether it works on a file of this path.
    pub(crate) fn works_on(&self, path: &PathText) -> bool
        ensures { result ≡ works_on self.now path.now }
    {
        match self {
            FileTask::Annotation(_) => is_covered(path.as_bytes()),
            FileTask::Amendment(_) => is_amendable(path.as_bytes()),
        }
    }
}
