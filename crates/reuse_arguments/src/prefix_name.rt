//! The prefixes of a copyright notice by their names.
ghost use Rattle.std.specs.Prelude.{◌≡◌, map, find};
ghost use Rattle.std.specs.Str.{bytes_eq};
ghost use Rattle.reuse_arguments.specs.PrefixNames.{all_prefixes, prefix_name, prefix_named};

use reuse_notice::Prefix;

const PREFIXES: [Prefix; 10] = [
    Prefix::Spdx,
    Prefix::SpdxC,
    Prefix::SpdxSymbol,
    Prefix::SpdxString,
    Prefix::SpdxStringC,
    Prefix::SpdxStringSymbol,
    Prefix::String,
    Prefix::StringC,
    Prefix::StringSymbol,
    Prefix::Symbol,
];

const NAMES: [&str; 10] = [
    "spdx",
    "spdx-c",
    "spdx-symbol",
    "spdx-string",
    "spdx-string-c",
    "spdx-string-symbol",
    "string",
    "string-c",
    "string-symbol",
    "symbol",
];

/// The names of all prefixes.
#[tactic(auto, unfolding(crate::specs::PrefixNames::all_prefixes))]
pub fn prefix_names() -> &'static [&'static str]
    ensures { map (λ name. name.now) result.now ≡ map prefix_name all_prefixes }
{
    &NAMES
}

fn name_of(prefix: Prefix) -> &'static str
    ensures { result.now ≡ prefix_name prefix }
{
    NAMES[prefix as usize]
}

/// The prefix that has a name, if one has.
#[tactic(auto, unfolding(crate::specs::PrefixNames::all_prefixes))]
pub fn prefix_of_name(name: &str) -> Option<Prefix>
    ensures { result ≡ prefix_named name.now }
{
    find_named(&PREFIXES, name.as_bytes())
}

fn find_named(mut prefixes: &[Prefix], name: &[u8]) -> Option<Prefix>
    ensures { result ≡ find (λ prefix. bytes_eq (prefix_name prefix) name.now) prefixes.entry.now }
{
    while let [prefix, others @ ..] = prefixes {
        if name_of(*prefix).as_bytes() == name {
            return Some(*prefix);
        }
        prefixes = others;
    }
    None
}
