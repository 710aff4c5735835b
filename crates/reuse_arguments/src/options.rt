//! The options of the command line, with their help, as tables, and what the tables are made of.
use crate::shared_options::{
    CHECK, DIFF, DRY_RUN, EXCLUDE, EXIT_NON_ZERO, FILES_FROM, LOOK_JSON, PATH,
};

/// What a part of the command line takes.
#[derive(Clone, Copy)]
pub enum ArgumentKind {
    /// An option that takes nothing.
    Nothing,
    /// An option that takes one value, which the help calls so.
    Value(&'static str),
    /// An option that may be repeated, each time with a value.
    Values(&'static str),
    /// An option that may be repeated, each time with two values.
    Pairs(&'static [&'static str]),
    /// An option that takes the name of a comment style.
    Style,
    /// An option that takes the name of a prefix.
    Prefix,
    /// Words without an option, one or more.
    Words,
    /// Words without an option, and this one where none is given.
    WordsOr(&'static str),
    /// The number of a step, without an option.
    Number,
    /// The numbers of steps, one or more, without an option.
    Numbers,
}

/// What else holds of a part of the command line.
#[derive(Clone, Copy)]
pub enum Constraint {
    /// Nothing.
    Free,
    /// It must be there.
    Required,
    /// It must be there where this option isn't.
    RequiredUnless(&'static str),
    /// It goes with this option alone.
    Requires(&'static str),
    /// It doesn't go with this option.
    Excludes(&'static str),
    /// It doesn't go with any of these options.
    ExcludesAll(&'static [&'static str]),
    /// It has this name too.
    Alias(&'static str),
    /// It may stand behind the subcommand as well, and is the one of this order in its help.
    Global(usize),
    /// So it may, and it doesn't go with this option.
    Excluding(usize, &'static str),
}

/// An option, or words without one: its long name, its short one, what it takes, what else holds of
/// it, and its help.
#[derive(Clone, Copy)]
pub struct Argument(
    pub &'static str,
    pub Option<char>,
    pub ArgumentKind,
    pub Constraint,
    pub &'static str,
);

/// Two options of one purpose, which has a name of its own.
#[derive(Clone, Copy)]
pub enum Choice {
    /// At most one of the two may be asked for.
    OneOf(&'static str, &'static str, &'static str),
    /// Both may be asked for.
    AnyOf(&'static str, &'static str, &'static str),
}

/// A subcommand: its name, what it does, what the help ends with, its arguments in the order of the
/// help, and its choices.
#[derive(Clone, Copy)]
pub struct Subcommand(
    pub &'static str,
    pub &'static str,
    pub &'static str,
    pub &'static [Argument],
    pub &'static [Choice],
);

/// What stands before the subcommands.
pub const BEFORE: &[Argument] = &[
    Argument(
        "root",
        None,
        ArgumentKind::Value("DIR"),
        Constraint::Global(101),
        "Work on the source tree below DIR [default: .]",
    ),
    Argument(
        "up",
        None,
        ArgumentKind::Nothing,
        Constraint::Excluding(102, "root"),
        "Work on the tree around the working folder, at which PATHs start",
    ),
    Argument(
        "verbose",
        Some('v'),
        ArgumentKind::Nothing,
        Constraint::Global(103),
        "Print notes on standard error, as on a terminal",
    ),
    Argument(
        "no-sync",
        None,
        ArgumentKind::Nothing,
        Constraint::Global(104),
        "Leave out all syncs: faster, but a loss of power can empty files",
    ),
    Argument(
        "allow-owner-change",
        None,
        ArgumentKind::Nothing,
        Constraint::Global(105),
        "Change files even if they can't keep owner and group",
    ),
    Argument(
        "trust-journal",
        None,
        ArgumentKind::Nothing,
        Constraint::Global(106),
        "Open the journal even if it belongs to another user",
    ),
];

const NUMBER: Argument = Argument(
    "NUMBER",
    None,
    ArgumentKind::Number,
    Constraint::Required,
    "The number of a step, as printed by log",
);

pub const ANNOTATE: &[Argument] = &[
    Argument(
        "copyright",
        Some('c'),
        ArgumentKind::Values("TEXT"),
        Constraint::Free,
        "Add a copyright holder; may be repeated",
    ),
    Argument(
        "license",
        Some('l'),
        ArgumentKind::Values("EXPR"),
        Constraint::Free,
        "Add an SPDX licence expression; may be repeated",
    ),
    Argument(
        "contributor",
        None,
        ArgumentKind::Values("TEXT"),
        Constraint::Free,
        "Add a contributor; may be repeated",
    ),
    Argument(
        "text",
        None,
        ArgumentKind::Values("FILE"),
        Constraint::Free,
        "Add the text that FILE holds below the tags; `-`: standard input; may be repeated",
    ),
    Argument(
        "year",
        Some('y'),
        ArgumentKind::Values("YEAR"),
        Constraint::Free,
        "Write YEAR; repeated, a range [default: the current year in UTC]",
    ),
    Argument(
        "exclude-year",
        None,
        ArgumentKind::Nothing,
        Constraint::Free,
        "Write no year; not with --year",
    ),
    Argument(
        "style",
        Some('s'),
        ArgumentKind::Style,
        Constraint::Free,
        "Write comments of this style, whatever the names of PATHs",
    ),
    Argument(
        "copyright-prefix",
        None,
        ArgumentKind::Prefix,
        Constraint::Alias("copyright-style"),
        "Begin notices this way [default: spdx]",
    ),
    Argument(
        "merge-copyrights",
        None,
        ArgumentKind::Nothing,
        Constraint::Free,
        "Write the notices of one holder as one, with a range of years",
    ),
    Argument(
        "single-line",
        None,
        ArgumentKind::Nothing,
        Constraint::Free,
        "Write single-line comments; not with --multi-line",
    ),
    Argument(
        "multi-line",
        None,
        ArgumentKind::Nothing,
        Constraint::Free,
        "Write multi-line comments; not with --single-line",
    ),
    Argument(
        "no-replace",
        None,
        ArgumentKind::Nothing,
        Constraint::Free,
        "Put a new header above the one that is there",
    ),
    Argument(
        "recursive",
        Some('r'),
        ArgumentKind::Nothing,
        Constraint::Free,
        "Annotate the files beneath folders",
    ),
    FILES_FROM,
    EXCLUDE,
    Argument(
        "force-dot-license",
        None,
        ArgumentKind::Nothing,
        Constraint::Free,
        "Write PATH.license, whatever PATH is",
    ),
    Argument(
        "fallback-dot-license",
        None,
        ArgumentKind::Nothing,
        Constraint::Free,
        "Write PATH.license if PATH's style is unknown",
    ),
    Argument(
        "skip-unrecognised",
        None,
        ArgumentKind::Nothing,
        Constraint::Free,
        "Skip PATH if its style is unknown; not with --fallback-dot-license",
    ),
    Argument(
        "skip-existing",
        None,
        ArgumentKind::Nothing,
        Constraint::Free,
        "Skip PATH if the place to be written has licensing information",
    ),
    PATH,
    DRY_RUN,
    CHECK,
    DIFF,
    LOOK_JSON,
    EXIT_NON_ZERO,
];

pub const DOWNLOAD: &[Argument] = &[
    Argument(
        "texts",
        None,
        ArgumentKind::Value("DIR"),
        Constraint::Required,
        "Take the text of ID from the file DIR/ID.txt",
    ),
    Argument(
        "ID",
        None,
        ArgumentKind::Words,
        Constraint::Required,
        "The identifier of a licence",
    ),
    DRY_RUN,
    CHECK,
    DIFF,
    LOOK_JSON,
];

pub const REVERT: &[Argument] = &[
    DRY_RUN,
    CHECK,
    DIFF,
    LOOK_JSON,
    Argument(
        "skip-moved",
        None,
        ArgumentKind::Nothing,
        Constraint::Free,
        "Leave a file as it is if the step can't be taken back there",
    ),
    NUMBER,
];

pub const RECOVER: &[Argument] = &[Argument(
    "skip-moved",
    None,
    ArgumentKind::Nothing,
    Constraint::Free,
    "Leave a file as it is if it can't be rolled back",
)];

pub const FORGET: &[Argument] = &[
    Argument(
        "all",
        None,
        ArgumentKind::Nothing,
        Constraint::Excludes("NUMBER"),
        "Forget all steps; not with NUMBER",
    ),
    Argument(
        "NUMBER",
        None,
        ArgumentKind::Numbers,
        Constraint::RequiredUnless("all"),
        "The number of a step, as printed by log",
    ),
];

pub const SHOW: &[Argument] = &[
    Argument(
        "diff",
        None,
        ArgumentKind::Nothing,
        Constraint::Excludes("json"),
        "Print the lines that the step took away and wrote; not with --json",
    ),
    Argument(
        "json",
        None,
        ArgumentKind::Nothing,
        Constraint::Free,
        "Print one JSON object; not with --diff",
    ),
    NUMBER,
];
