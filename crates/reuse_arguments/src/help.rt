//! The texts of the help, above and below its lists.

pub const ABOUT: &str =
    "Add licensing information to the files of a source tree, and take it back.";

pub const AFTER: &str = "\
Each command that changes something is one step: undo takes it back and redo makes it again, byte
for byte. The steps are kept in DIR/.reuse/undo.

Examples:
  reuse-undo annotate -c \"Jane Doe\" -l MIT -r src
  reuse-undo annotate -c \"Jane Doe\" -l MIT -r src --dry-run --diff
  reuse-undo undo

Status: 0 on success, 1 if a call was refused, 2 if the arguments are wrong. With --check it is 1
too if a file would change, and with --exit-non-zero-on-change if one changed.";

pub const AFTER_ANNOTATE: &str = "\
PATHs are relative to the root. A file that can't hold a comment gets its information in
PATH.license. If one file is refused, none is changed.

DIR/.reuse/styles.toml gives styles to the tree's own names. Its lines are `version = 1`,
`[styles]`, and for each name or ending a style, such as `\".proto\" = \"c\"` or
`\".blend\" = \"uncommentable\"`.

FILE lists paths relative to the root, one a line, or, if FILE holds a NUL, one between two NULs.
What is listed and isn't a file beneath a PATH is passed over. GLOB is a glob as in REUSE.toml, of
paths relative to the root: `*` is any run without `/`, `**` any run, `**/` in front also none. It
leaves out what it matches, and what lies in a folder that it matches. A PATH that is a file itself
is annotated all the same.

The FILE of --text holds a text of at most 64 KiB without comment marks and tags. It is added behind
an empty line where the header doesn't have its words yet. FILEs are relative to the working folder.

Examples: the licence and this year's copyright for all files beneath src, for all files that git
tracks, and a check of these in CI:
  reuse-undo annotate --copyright \"Jane Doe\" --license MIT --recursive src
  git ls-files -z | reuse-undo annotate -c \"Jane Doe\" -l MIT -r --files-from - .
  git ls-files -z | reuse-undo annotate -c \"Jane Doe\" -l MIT -r --skip-existing --check \\
    --files-from - .";

pub const AFTER_AMEND: &str = "\
PATHs, FILE and GLOB are as those of annotate. No header is made: a PATH without one is unchanged,
and so is one whose header has nothing of what is named. If one file is refused, none is changed.

A REUSE.toml is amended if it is a PATH, or lies beneath one with --recursive. The values of
SPDX-License-Identifier and SPDX-FileCopyrightText in its [[annotations]] change, and all else stays.

Values are compared byte for byte, without their outer spaces. If OLD is an identifier such as
GPL-2.0, it is replaced within expressions, too, and GPL-2.0+ and GPL-2.0-only are others. First
licences are replaced, then removed; then holders and contributors; last come years and prefix.
So HOLDER is as --replace-holder leaves it. A value that begins with `-` takes a space in front.

The FILE of --remove-text is as that of annotate --text: the first lines of a header with its words
go, after all other changes. With --remove-header a header goes, or a neighbour; lines without a tag
stay.

With --everywhere the value of each tag changes where it stands, below the header, behind code and
in files without a style, too. All else stays, but a line on which nothing is left goes.

Examples: another licence, the same in each tag, another name of a holder, this year in all notices
of a holder, and the files without a contributor:
  reuse-undo amend --replace-license GPL-2.0 GPL-2.0-or-later --recursive .
  reuse-undo amend --replace-license GPL-2.0 GPL-2.0-or-later --everywhere --recursive .
  reuse-undo amend --replace-holder \"Jane Doe\" \"Jane Roe\" --recursive . --dry-run --diff
  reuse-undo amend --until 2026 --holder \"Jane Doe\" --recursive src
  reuse-undo amend --remove-contributor \"Joe Bloggs\" --recursive .";

pub const AFTER_STYLES: &str = "\
Each text file counts that annotate would refuse as unrecognised: no style is known for its name, and
it has no neighbour PATH.license. So does one that a header could break, if the ready styles and rules
help: one whose first line has to stay the first, as that of front matter, or one that begins with
markup, as PHP may. A line is COUNT NAME STYLE: how many files have this name, which is the last part
of their paths or its ending, and the ready style for it. It is `rules` where ready rules give it by
the first line of a file, and `-` where there is none. FILE and GLOB are as those of annotate.

With --add the names that have a ready style are written into DIR/.reuse/styles.toml, and the ready
comments that these styles take into DIR/.reuse/comments.toml. The ready rules of a name go there in
its place. Where a name has neither an ending nor a ready style, ready rules for scripts go there,
too. What is there stays.

Examples: which names have no style, ready styles for them, and all ready styles:
  reuse-undo styles
  reuse-undo styles --add
  reuse-undo styles --all > .reuse/styles.toml
  reuse-undo styles --all --comments > .reuse/comments.toml";

pub const AFTER_DOWNLOAD: &str = "\
Nothing is fetched from a network: the text of ID is DIR/ID.txt. DIR is relative to the working
folder.

Example:
  reuse-undo download --texts ~/license-list-data/text MIT";

pub const AFTER_CONVERT: &str = "\
.reuse/dep5 is removed. A pattern with an unescaped `?` can't be said in REUSE.toml and is refused.

Example:
  reuse-undo convert-dep5";

pub const AFTER_UNDO: &str = "\
The call is refused, and changes nothing, if a file of the step isn't as the step left it.

Example:
  reuse-undo --root ~/demo undo";

pub const AFTER_REDO: &str = "\
The call is refused, and changes nothing, if a file of the step isn't as it was before the step.

Example:
  reuse-undo redo";

pub const AFTER_REVERT: &str = "\
This makes a new step, which undo takes back in turn. In each file of step NUMBER, what the step
wrote must stand where it was written, whatever follows it. A file that the step made must be as it
was made, and where it removed a file there must be none. If the step only took bytes away, the file
must be as the step left it. A file that a later step touched waits until that step is taken back.
If one file isn't so, none is changed.

Example:
  reuse-undo revert 3 --dry-run --diff";

pub const AFTER_RECOVER: &str = "\
Each file that is as the step left it is rolled back, and each that is as before the step stays. If
a file is neither, since it was edited after the run was stopped, it is refused as `PATH: moved`,
and none is changed. With --skip-moved such files are left as they are, and the others are rolled
back. The history then lists the steps that were done before. If no step is half made, nothing is
changed.

Example:
  reuse-undo recover --skip-moved";

pub const AFTER_FORGET: &str = "\
The files stay as they are. A step that is forgotten is listed no more and can't be taken back, and
its number is given to no other step. The other steps can be undone and redone as before if what is
forgotten are the oldest ones. No undo brings a forgotten step back.

Example:
  reuse-undo forget 1 2";

pub const AFTER_SHOW: &str = "\
The first line is that of `log`. A line `made PATH`, `removed PATH` or `changed PATH` follows for
each path.

Example:
  reuse-undo show 3 --diff";

pub const AFTER_LOG: &str = "\
A line is NUMBER DATE COMMAND COUNT STATE: the step's number, its date in UTC, the command, how many
paths it changed, and `done` or `undone`. The steps done come first, in order; the first one undone
is the next that redo makes.

Example:
  reuse-undo log";
