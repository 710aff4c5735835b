//! What flags choose.
ghost use Rattle.std.specs.Prelude.{◌≡◌};
ghost use Rattle.reuse_arguments.specs.Choices.{change_status_of, form_of, format_of, how_of, is_dry_run, settings_of};
ghost use Rattle.reuse_arguments.specs.Choices.{unknown_of};
ghost use Rattle.reuse_arguments.specs.Found.{found_in};

use crate::line::{ChangeStatus, OutputFormat};
use crate::settings::Settings;
use crate::words::found::flag;
use clap::ArgMatches;
use reuse_command::command::Unknown;
use reuse_header::{Form, How};
use reuse_system::owner::OwnerChange;
use reuse_system::syncs::Syncs;

/// What is asked for of all calls alike.
pub fn read_settings(matches: &ArgMatches<'_>) -> Settings
    ensures { result ≡ settings_of (found_in matches.now) }
{
    Settings {
        syncs: read_syncs(matches),
        owner_change: read_owner_change(matches),
        trusts_journal: flag(matches, "trust-journal"),
    }
}

fn read_syncs(matches: &ArgMatches<'_>) -> Syncs
    ensures { result ≡ (settings_of (found_in matches.now)).syncs }
{
    if flag(matches, "no-sync") {
        Syncs::LeftOut
    } else {
        Syncs::Kept
    }
}

fn read_owner_change(matches: &ArgMatches<'_>) -> OwnerChange
    ensures { result ≡ (settings_of (found_in matches.now)).owner_change }
{
    if flag(matches, "allow-owner-change") {
        OwnerChange::Allowed
    } else {
        OwnerChange::Refused
    }
}

/// Whether the call is only looked at.
pub fn is_dry_run(matches: &ArgMatches<'_>) -> bool
    ensures { result ≡ is_dry_run (found_in matches.now) }
{
    flag(matches, "dry-run") || flag(matches, "check")
}

/// The status where a path changed, or would change.
pub fn read_change_status(matches: &ArgMatches<'_>) -> ChangeStatus
    ensures { result ≡ change_status_of (found_in matches.now) }
{
    let is_reported = flag(matches, "check") || flag(matches, "exit-non-zero-on-change");
    ChangeStatus::of(is_reported)
}

/// In which form the answer is printed.
pub fn read_format(matches: &ArgMatches<'_>) -> OutputFormat
    ensures { result ≡ format_of (found_in matches.now) }
{
    if flag(matches, "json") {
        OutputFormat::Json
    } else if flag(matches, "diff") {
        OutputFormat::Diff
    } else {
        OutputFormat::Lines
    }
}

/// How licensing information is added.
pub fn read_how(matches: &ArgMatches<'_>) -> How
    ensures { result ≡ how_of (found_in matches.now) }
{
    How {
        form: read_form(matches),
        merge: flag(matches, "merge-copyrights"),
        replace: !flag(matches, "no-replace"),
    }
}

fn read_form(matches: &ArgMatches<'_>) -> Option<Form>
    ensures { result ≡ form_of (found_in matches.now) }
{
    if flag(matches, "single-line") {
        Some(Form::Single)
    } else if flag(matches, "multi-line") {
        Some(Form::Multi)
    } else {
        None
    }
}

/// What is done with a text file whose name has no style.
pub fn read_unknown(matches: &ArgMatches<'_>) -> Unknown
    ensures { result ≡ unknown_of (found_in matches.now) }
{
    if flag(matches, "fallback-dot-license") {
        Unknown::Neighbour
    } else if flag(matches, "skip-unrecognised") {
        Unknown::Skip
    } else {
        Unknown::Refuse
    }
}
