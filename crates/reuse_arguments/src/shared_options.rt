//! The options that several subcommands have, with their help.
use crate::options::{Argument, ArgumentKind, Choice, Constraint};

/// What each subcommand that makes a step has: to look at it beforehand, and how that is printed.
pub const DRY_RUN: Argument = Argument(
    "dry-run",
    Some('n'),
    ArgumentKind::Nothing,
    Constraint::Free,
    "Print what would change and what is refused, and make no step",
);

pub const CHECK: Argument = Argument(
    "check",
    None,
    ArgumentKind::Nothing,
    Constraint::Free,
    "As --dry-run, with status 1 if a file would change",
);

pub const DIFF: Argument = Argument(
    "diff",
    None,
    ArgumentKind::Nothing,
    Constraint::Requires("look"),
    "With --dry-run or --check, print a diff of what would change",
);

pub const LOOK_JSON: Argument = Argument(
    "json",
    None,
    ArgumentKind::Nothing,
    Constraint::Requires("look"),
    "With --dry-run or --check, print JSON objects; not with --diff",
);

/// A dry run may be asked for by either name, and is printed in one way.
pub const LOOK: Choice = Choice::AnyOf("look", "dry-run", "check");

pub const PRINTED: Choice = Choice::OneOf("printed", "diff", "json");

pub const LOOKS: &[Choice] = &[LOOK, PRINTED];

pub const EXIT_NON_ZERO: Argument = Argument(
    "exit-non-zero-on-change",
    None,
    ArgumentKind::Nothing,
    Constraint::Free,
    "Exit with status 1 if a file changes",
);

pub const JSON: Argument = Argument(
    "json",
    None,
    ArgumentKind::Nothing,
    Constraint::Free,
    "Print a JSON object on each line",
);

/// Which files beneath folders are taken, and the files and folders themselves.
pub const FILES_FROM: Argument = Argument(
    "files-from",
    None,
    ArgumentKind::Value("FILE"),
    Constraint::Requires("recursive"),
    "Take beneath folders only what FILE lists; `-`: standard input",
);

pub const EXCLUDE: Argument = Argument(
    "exclude",
    None,
    ArgumentKind::Values("GLOB"),
    Constraint::Requires("recursive"),
    "Exclude files beneath folders that GLOB matches, itself or by a folder; may be repeated",
);

pub const PATH: Argument = Argument(
    "PATH",
    None,
    ArgumentKind::Words,
    Constraint::Required,
    "A file, or with --recursive a folder; `.` is the root",
);
