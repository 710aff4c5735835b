//! The names of commands, as entries of the journal and the log have them.
ghost use Rattle.std.specs.Prelude.{◌≡◌};
ghost use Rattle.reuse_change.specs.CommandNames.{command_name};

/// The name of a command.
#[derive(Clone, Copy, Debug, PartialEq, Eq)]
pub enum CommandName {
    /// `annotate`.
    Annotate,
    /// `convert-dep5`.
    ConvertDep5,
    /// `download`.
    Download,
    /// `revert`.
    Revert,
    /// `amend`.
    Amend,
    /// `styles`.
    AddStyles,
}

impl CommandName {
    /// The name as text.
    pub fn as_str(self) -> &'static str
        ensures { result.now ≡ command_name self }
    {
        match self {
            CommandName::Annotate => "annotate",
            CommandName::ConvertDep5 => "convert-dep5",
            CommandName::Download => "download",
            CommandName::Revert => "revert",
            CommandName::Amend => "amend",
            CommandName::AddStyles => "styles",
        }
    }
}
