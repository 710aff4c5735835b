//! The options of `amend`, with their help, as tables.
use crate::options::{Argument, ArgumentKind, Choice, Constraint};
use crate::shared_options::{
    CHECK, DIFF, DRY_RUN, EXCLUDE, EXIT_NON_ZERO, FILES_FROM, LOOK, LOOK_JSON, PATH, PRINTED,
};

const OLD_NEW: &[&str] = &["OLD", "NEW"];

pub const AMEND: &[Argument] = &[
    Argument(
        "replace-license",
        None,
        ArgumentKind::Pairs(OLD_NEW),
        Constraint::Free,
        "Write the licence NEW in place of OLD, also within expressions; may be repeated",
    ),
    Argument(
        "remove-license",
        None,
        ArgumentKind::Values("EXPR"),
        Constraint::Free,
        "Remove licences that are EXPR as a whole; may be repeated",
    ),
    Argument(
        "replace-holder",
        None,
        ArgumentKind::Pairs(OLD_NEW),
        Constraint::Free,
        "Write the holder NEW in place of OLD in notices; may be repeated",
    ),
    Argument(
        "remove-holder",
        None,
        ArgumentKind::Values("HOLDER"),
        Constraint::Free,
        "Remove the notices of HOLDER; may be repeated",
    ),
    Argument(
        "replace-contributor",
        None,
        ArgumentKind::Pairs(OLD_NEW),
        Constraint::Free,
        "Write the contributor NEW in place of OLD; may be repeated",
    ),
    Argument(
        "remove-contributor",
        None,
        ArgumentKind::Values("TEXT"),
        Constraint::Free,
        "Remove the contributor TEXT; may be repeated",
    ),
    Argument(
        "remove-text",
        None,
        ArgumentKind::Values("FILE"),
        Constraint::Excludes("everywhere"),
        "Remove the text that FILE holds from headers; `-`: standard input; may be repeated",
    ),
    Argument(
        "remove-header",
        None,
        ArgumentKind::Nothing,
        Constraint::ExcludesAll(OTHER_CHANGES),
        "Remove headers, all their tags; a text beside these stays; not with another change",
    ),
    Argument(
        "until",
        None,
        ArgumentKind::Value("YEAR"),
        Constraint::Free,
        "Let the years of notices reach YEAR; notices without years stay",
    ),
    Argument(
        "copyright-prefix",
        None,
        ArgumentKind::Prefix,
        Constraint::Free,
        "Begin notices this way",
    ),
    Argument(
        "holder",
        None,
        ArgumentKind::Value("HOLDER"),
        Constraint::Requires("notices"),
        "With --until or --copyright-prefix, change the notices of HOLDER alone",
    ),
    Argument(
        "everywhere",
        None,
        ArgumentKind::Nothing,
        Constraint::Excludes("style"),
        "Amend each tag of a text, wherever it stands; not with --style",
    ),
    Argument(
        "style",
        Some('s'),
        ArgumentKind::Style,
        Constraint::Free,
        "Read comments of this style, whatever the names of PATHs",
    ),
    Argument(
        "recursive",
        Some('r'),
        ArgumentKind::Nothing,
        Constraint::Free,
        "Amend the files beneath folders",
    ),
    FILES_FROM,
    EXCLUDE,
    PATH,
    DRY_RUN,
    CHECK,
    DIFF,
    LOOK_JSON,
    EXIT_NON_ZERO,
];

/// The options with values that change something, of which a call has one, or `--remove-header`.
pub const AMENDING: &[&str] = &[
    "replace-license",
    "remove-license",
    "replace-holder",
    "remove-holder",
    "replace-contributor",
    "remove-contributor",
    "until",
    "copyright-prefix",
    "remove-text",
];

/// What `--remove-header` doesn't go with.
const OTHER_CHANGES: &[&str] = &[
    "replace-license",
    "remove-license",
    "replace-holder",
    "remove-holder",
    "replace-contributor",
    "remove-contributor",
    "until",
    "copyright-prefix",
    "remove-text",
    "everywhere",
];

/// What is changed of notices alone, and those of each dry run.
pub const AMEND_CHOICES: &[Choice] = &[
    Choice::AnyOf("notices", "until", "copyright-prefix"),
    LOOK,
    PRINTED,
];
