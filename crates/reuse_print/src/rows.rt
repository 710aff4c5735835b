//! The lines that the rows of a log are printed as.
ghost use Rattle.std.specs.Prelude.{◌≡◌, ◌++◌, ◌∷◌, [], OnOk};
ghost use Rattle.std.specs.Io.KnownBytes.{Appends};
ghost use Rattle.std.specs.Fmt.{decimal};
ghost use Rattle.jiff.specs.Words.{date_text};
ghost use Rattle.reuse_print.specs.RowLines.{IsRowLine, AreRowLines, row_line, command_word, state_word};
ghost use Rattle.reuse_shown.specs.JoinedTexts.{AppendsSome};

use jiff::civil::Date;
use reuse_change::CommandName;
use reuse_command::reply::Row;
use reuse_shown::date::date_of;
use std::io::{self, Write};

/// Prints a line for each row.
pub fn print_rows<W: Write>(out: &mut W, rows: &[Row]) -> io::Result<()>
    ensures { OnOk result (AppendsSome (W.contents out.old) (W.contents out.new) (AreRowLines rows.now)) }
{
    for row in rows {
        print_row(out, row)?;
    }
    Ok(())
}

pub fn print_row<W: Write>(out: &mut W, row: &Row) -> io::Result<()>
    ensures { OnOk result (AppendsSome (W.contents out.old) (W.contents out.new) (IsRowLine row.now)) }
{
    print_dated(out, row, date_of(row.when))
}

fn print_dated<W: Write>(out: &mut W, row: &Row, date: Date) -> io::Result<()>
    ensures { OnOk result (Appends (W.contents out.old) (W.contents out.new) (row_line row.now date)) }
{
    print_front(out, row.number, date)?;
    print_back(
        out,
        command_word(row.command),
        row.count,
        state_word(row.done),
    )
}

// The number of a step, and its date.
fn print_front<W: Write>(out: &mut W, number: u32, date: Date) -> io::Result<()>
    ensures { OnOk result
        (Appends (W.contents out.old) (W.contents out.new) (decimal number ++ 32 ∷ [] ++ date_text date ++ 32 ∷ [])) }
{
    write!(out, "{number} {date} ")
}

// What a step was, and its state.
fn print_back<W: Write>(out: &mut W, command: &str, count: usize, state: &str) -> io::Result<()>
    ensures { OnOk result (Appends (W.contents out.old) (W.contents out.new)
        (command.now ++ 32 ∷ [] ++ decimal count ++ 32 ∷ [] ++ state.now ++ 10 ∷ [])) }
{
    writeln!(out, "{command} {count} {state}")
}

pub fn command_word(command: CommandName) -> &'static str
    ensures { result.now ≡ command_word command }
{
    match command {
        CommandName::Annotate => "annotate",
        CommandName::ConvertDep5 => "convert-dep5",
        CommandName::Download => "download",
        CommandName::Revert => "revert",
        CommandName::Amend => "amend",
        CommandName::AddStyles => "styles",
    }
}

fn state_word(done: bool) -> &'static str
    ensures { result.now ≡ state_word done }
{
    if done { "done" } else { "undone" }
}
