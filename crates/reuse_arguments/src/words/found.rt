//! What clap found on a command line, by the names of options and arguments.
ghost use Rattle.std.specs.Prelude.{◌≡◌, map};
ghost use Rattle.std.specs.Option.{option_map};
ghost use Rattle.clap.specs.Simple.{subcommand_rows_of};
ghost use Rattle.reuse_arguments.specs.Found.{found_in, flag, value, values, is_given, number, number_of};

use clap::ArgMatches;

/// Whether a flag is set.
pub fn flag(matches: &ArgMatches<'_>, name: &str) -> bool
    ensures { result ≡ flag (found_in matches.now) name.now }
{
    matches.get_one(name).unwrap_or(false)
}

/// The first value of an option, if it has one.
pub fn value<'a>(matches: &ArgMatches<'a>, name: &str) -> Option<&'a str>
    ensures { option_map (λ text. text.now) result ≡ value (found_in matches.now) name.now }
{
    matches.get_str(name)
}

/// The values of an option or argument, in the order of the words.
pub fn values<'a>(matches: &'a ArgMatches<'_>, name: &str) -> &'a [&'a str]
    ensures { map (λ text. text.now) result.now ≡ values (found_in matches.now) name.now }
{
    matches.get_strs(name).unwrap_or(&[])
}

/// Whether an option was given.
pub fn is_given(matches: &ArgMatches<'_>, name: &str) -> bool
    ensures { result ≡ is_given (found_in matches.now) name.now }
{
    matches.get_strs(name).is_some()
}

/// The number that a text spells, if it is one of 32 bits.
pub fn number_of(text: &str) -> Option<u32>
    ensures { result ≡ number_of text.now }
{
    match text.parse() {
        Ok(number) => Some(number),
        Err(_) => None,
    }
}

/// The number of an argument, if it has one.
pub fn number(matches: &ArgMatches<'_>, name: &str) -> Option<u32>
    ensures { result ≡ number (found_in matches.now) name.now }
{
    matches.get_one(name)
}

/// The subcommand, and what was found behind it.
pub fn subcommand<'b, 'a>(matches: &'b ArgMatches<'a>) -> Option<(&'a str, &'b ArgMatches<'a>)>
    ensures { option_map (λ sub. (sub.0.now, found_in sub.1.now)) result ≡ subcommand_rows_of matches.now }
{
    matches.subcommand()
}
