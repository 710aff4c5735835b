//! What finds options and arguments in the words of a command line.
ghost use Rattle.std.specs.Prelude.{IfOk, map, string_bytes};
ghost use Rattle.reuse_arguments.specs.CommandLine.{IsFoundIn};

use crate::arguments::whole;
use clap::{ArgMatches, Error};
use std::alloc::Global;

/// Finds options and arguments in the words of a command line, or refuses them. What it answers to
/// which words it says itself. So what the program says of words is what was answered to just
/// these.
pub trait Finder {
    ghost use Rattle.std.specs.Prelude.{ℕ, List, Result, map, string_bytes};
    ghost use Rattle.clap.specs.declared.error.Error.{Error};
    ghost use Rattle.clap.specs.declared.parser.matches.ArgMatches.{ArgMatches};

    /// It may answer this to these words.
    ghost answers: { Self → List (List ℕ) → Result ArgMatches Error → Type 0 };

    /// What it answers to the words, of which the first is the program's name.
    fn find<'a>(&self, alloc: Global, words: &'a [String]) -> Result<ArgMatches<'a>, Error>
        ensures { answers self.now (map string_bytes words.now) result };
}

/// clap, by this program's tables of options.
#[derive(Clone, Copy)]
pub struct Clap;

impl Finder for Clap {
    ghost answers = { λ _ words found. IfOk found (IsFoundIn words) };

    fn find<'a>(&self, alloc: Global, words: &'a [String]) -> Result<ArgMatches<'a>, Error> {
        whole(alloc)?.try_get_matches_from(words)
    }
}
