//! The names without a comment style, as lines or as JSON objects.
ghost use Rattle.std.specs.Prelude.{◌≡◌, IfOk, OnOk, codes, unwrap_or};
ghost use Rattle.std.specs.Option.{option_copied};
ghost use Rattle.std.specs.Io.KnownBytes.{Appends};
ghost use Rattle.serde_json.specs.View.{view};
ghost use Rattle.reuse_print.specs.Names.{name_line, name_lines, name_object, name_objects, name_value};
ghost use Rattle.reuse_print.specs.Names.{ready_word};

use crate::objects::print_value;
use reuse_ready::{NameCount, has_ready_rules};
use reuse_shown::shown_name::{NameDisplay, print_name};
use reuse_text::Bytes;
use serde_json::{Value, json};
use std::alloc::{AllocError, Global};
use std::io::{self, Write};

/// Prints a line for each name: how many files have it, the name, and its ready style, `rules` or
/// `-`.
pub fn print_names<W: Write>(out: &mut W, names: NameDisplay, rows: &[NameCount]) -> io::Result<()>
    ensures { OnOk result (Appends (W.contents out.old) (W.contents out.new) (name_lines names rows.now)) }
{
    for row in rows {
        print_name_line(out, names, row)?;
    }
    Ok(())
}

fn print_name_line<W: Write>(out: &mut W, names: NameDisplay, row: &NameCount) -> io::Result<()>
    ensures { OnOk result (Appends (W.contents out.old) (W.contents out.new) (name_line names row.now)) }
{
    write!(out, "{} ", row.count)?;
    print_name(out, names, row.name.as_slice())?;
    out.write_all(b" ")?;
    out.write_all(ready_word(row).unwrap_or(b"-"))?;
    writeln!(out)
}

// The ready style of a name, or that there are ready rules for it.
fn ready_word(row: &NameCount) -> Option<&[u8]>
    ensures { option_copied result ≡ ready_word row.now }
{
    match &row.style {
        Some(style) => Some(style.as_slice()),
        None if has_ready_rules(row.name.as_slice()) => Some(b"rules"),
        None => None,
    }
}

/// Prints an object for each name, on a line of its own.
pub fn print_name_objects<W: Write>(
    out: &mut W,
    alloc: Global,
    rows: &[NameCount],
) -> io::Result<()>
    ensures { OnOk result (Appends (W.contents out.old) (W.contents out.new) (name_objects rows.now)) }
{
    for row in rows {
        print_name_object(out, alloc, row)?;
    }
    Ok(())
}

fn print_name_object<W: Write>(out: &mut W, alloc: Global, row: &NameCount) -> io::Result<()>
    ensures { OnOk result (Appends (W.contents out.old) (W.contents out.new) (name_object row.now)) }
{
    let value = name_value(alloc, row)?;
    print_value(out, alloc, &value)
}

fn name_value(alloc: Global, row: &NameCount) -> Result<Value, AllocError>
    ensures { IfOk result (λ value. view value ≡ name_value row.now) }
{
    let name = format!(in alloc; "{}", row.name)?;
    match ready_word(row) {
        Some(word) => {
            let word = Bytes::from_slice(alloc, word)?;
            let style = format!(in alloc; "{word}")?;
            json!(in alloc; {"count": row.count, "name": name, "style": style})
        }
        None => json!(in alloc; {"count": row.count, "name": name, "style": null}),
    }
}
