//! What words are read by, beside themselves.
ghost use Rattle.reuse_shown.specs.Dates.{IsYearOf};
ghost use Rattle.std.specs.Prelude.{◌≡◌, ◌≤◌};
ghost use Rattle.std.specs.Option.{option_map};

use reuse_change::Moment;
use reuse_shown::date::year_of;
use std::marker::Model;

/// The current year, and the folder of the tree at which words of files start, if they don't start
/// at the root.
#[derive(Drop)]
pub struct Context<'a> {
    year: u16,
    folder: Option<&'a str>,
}

impl<'a> Model for Context<'a> {
    ghost use Rattle.std.specs.Prelude.{◌≤◌};
    ghost use Rattle.std.specs.Option.{option_map};
    ghost use Rattle.reuse_arguments.specs.Contexts.{ContextView};

    ghost Value = { ContextView };

    ghost view = { λ context. record {
      year = context.year;
      folder = option_map (λ text. text.now) context.folder;
    } };

    ghost invariant = { λ context. context.year ≤ 9999 };
}

impl<'a> Context<'a> {
    /// That of a moment, in a folder.
    pub fn of(moment: Moment, folder: Option<&'a str>) -> Context<'a>
        ensures year { IsYearOf moment result.year }
        ensures folder { result.folder ≡ option_map (λ text. text.now) folder.entry }
    {
        Context {
            year: year_of(moment),
            folder,
        }
    }

    /// The year, which is at most 9999.
    pub fn year(&self) -> u16
        ensures year { result ≡ self.now.year }
        ensures in_range { result ≤ 9999 }
    {
        self.year
    }

    /// The folder.
    pub fn folder(&self) -> Option<&'a str>
        ensures { option_map (λ text. text.now) result ≡ self.now.folder }
    {
        self.folder
    }
}
