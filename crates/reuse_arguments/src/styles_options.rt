//! The options of `styles`, with their help, as a table.
use crate::options::{Argument, ArgumentKind, Constraint};
use crate::shared_options::DIFF;

pub const STYLES: &[Argument] = &[
    Argument(
        "add",
        None,
        ArgumentKind::Nothing,
        Constraint::Excludes("all"),
        "Add ready styles for the names to .reuse/styles.toml; not with --all",
    ),
    Argument(
        "all",
        None,
        ArgumentKind::Nothing,
        Constraint::Free,
        "Print all ready styles, as a text for .reuse/styles.toml",
    ),
    Argument(
        "comments",
        None,
        ArgumentKind::Nothing,
        Constraint::Requires("all"),
        "With --all, print all ready comments, as a text for .reuse/comments.toml",
    ),
    Argument(
        "files-from",
        None,
        ArgumentKind::Value("FILE"),
        Constraint::Excludes("all"),
        "Take beneath folders only what FILE lists; `-`: standard input",
    ),
    Argument(
        "exclude",
        None,
        ArgumentKind::Values("GLOB"),
        Constraint::Excludes("all"),
        "Exclude files beneath folders that GLOB matches, itself or by a folder; may be repeated",
    ),
    Argument(
        "PATH",
        None,
        ArgumentKind::WordsOr("."),
        Constraint::Excludes("all"),
        "A file or a folder; `.` is the root",
    ),
    Argument(
        "dry-run",
        Some('n'),
        ArgumentKind::Nothing,
        Constraint::Requires("add"),
        "With --add, print what would change and what is refused, and make no step",
    ),
    Argument(
        "check",
        None,
        ArgumentKind::Nothing,
        Constraint::Requires("add"),
        "As --dry-run, with status 1 if a file would change",
    ),
    DIFF,
    Argument(
        "json",
        None,
        ArgumentKind::Nothing,
        Constraint::Excludes("all"),
        "Print a JSON object on each line; with --add only in a dry run",
    ),
    Argument(
        "exit-non-zero-on-change",
        None,
        ArgumentKind::Nothing,
        Constraint::Requires("add"),
        "With --add, exit with status 1 if a file changes",
    ),
];
