//! The subcommands of the command line, as tables.
use crate::amend_options::{AMEND, AMEND_CHOICES};
use crate::help::{
    AFTER_AMEND, AFTER_ANNOTATE, AFTER_CONVERT, AFTER_DOWNLOAD, AFTER_FORGET, AFTER_LOG,
    AFTER_RECOVER, AFTER_REDO, AFTER_REVERT, AFTER_SHOW, AFTER_STYLES, AFTER_UNDO,
};
use crate::options::{ANNOTATE, Choice, DOWNLOAD, FORGET, RECOVER, REVERT, SHOW, Subcommand};
use crate::shared_options::{
    CHECK, DIFF, DRY_RUN, EXIT_NON_ZERO, JSON, LOOK, LOOK_JSON, LOOKS, PRINTED,
};
use crate::styles_options::STYLES;

/// The form of the comments, what is done if a style is unknown, and those of each dry run.
const ANNOTATE_CHOICES: &[Choice] = &[
    Choice::OneOf("form", "single-line", "multi-line"),
    Choice::OneOf("unknown", "fallback-dot-license", "skip-unrecognised"),
    LOOK,
    PRINTED,
];

/// The subcommand that adds to the headers of files.
pub const ADDING: &[Subcommand] = &[Subcommand(
    "annotate",
    "Add copyright and licensing information to files",
    AFTER_ANNOTATE,
    ANNOTATE,
    ANNOTATE_CHOICES,
)];

/// The subcommand that changes them.
pub const CHANGING: &[Subcommand] = &[Subcommand(
    "amend",
    "Change the copyright and licensing information that files have",
    AFTER_AMEND,
    AMEND,
    AMEND_CHOICES,
)];

/// The subcommand for the names that have no style.
pub const NAMES: &[Subcommand] = &[Subcommand(
    "styles",
    "List the names of files that have no comment style, and add ready ones",
    AFTER_STYLES,
    STYLES,
    LOOKS,
)];

/// The other subcommands that make steps, and those that take them back and make them again.
pub const STEPS: &[Subcommand] = &[
    Subcommand(
        "convert-dep5",
        "Put a REUSE.toml in the place of .reuse/dep5",
        AFTER_CONVERT,
        &[DRY_RUN, CHECK, DIFF, LOOK_JSON, EXIT_NON_ZERO],
        LOOKS,
    ),
    Subcommand(
        "download",
        "Copy licence texts into LICENSES",
        AFTER_DOWNLOAD,
        DOWNLOAD,
        LOOKS,
    ),
    Subcommand(
        "undo",
        "Take the last step back",
        AFTER_UNDO,
        &[DRY_RUN, CHECK, DIFF, LOOK_JSON],
        LOOKS,
    ),
    Subcommand(
        "redo",
        "Make the step again that was undone last",
        AFTER_REDO,
        &[DRY_RUN, CHECK, DIFF, LOOK_JSON],
        LOOKS,
    ),
    Subcommand(
        "revert",
        "Take the step NUMBER back, by a new step",
        AFTER_REVERT,
        REVERT,
        LOOKS,
    ),
];

/// The subcommands of the history: one that rolls back what a stopped run left, one that takes
/// steps out, and those that print the steps.
pub const HISTORY: &[Subcommand] = &[
    Subcommand(
        "recover",
        "Roll back a step that a stopped run left half made",
        AFTER_RECOVER,
        RECOVER,
        &[],
    ),
    Subcommand(
        "forget",
        "Take steps out of the history",
        AFTER_FORGET,
        FORGET,
        &[],
    ),
    Subcommand("log", "List the steps", AFTER_LOG, &[JSON], &[]),
    Subcommand("show", "Print what a step changed", AFTER_SHOW, SHOW, &[]),
];
