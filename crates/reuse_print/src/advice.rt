//! What can be done about refusals of paths, and which call lists what a note only counts, as the
//! notes say it. `notes` and `walk_notes` of the program call it. Its contracts say every case;
//! `tests/notes.sh` shows them.
ghost use Rattle.std.specs.Prelude.{◌≡◌, Some};
ghost use Rattle.std.specs.Option.{option_map};
ghost use Rattle.reuse_print.specs.Advice.{harm_listing, name_listing, path_advice, style_advice};

use reuse_command::reply::Refusal;

/// What can be done about the refusal of a path that is a folder, or has no style. Ready styles may
/// be left for the names of the call.
pub fn path_advice(refusal: &Refusal, is_any_left: bool) -> Option<&'static str>
    ensures { option_map (λ text. text.now) result ≡ path_advice refusal.now is_any_left }
{
    match refusal {
        Refusal::IsFolder(_) => Some("with --recursive a folder stands for the files beneath it"),
        Refusal::Unrecognised(_) => Some(style_advice(is_any_left)),
        _ => None,
    }
}

// What can be done about a name without a style.
fn style_advice(is_any_left: bool) -> &'static str
    ensures { result.now ≡ style_advice is_any_left }
{
    if is_any_left {
        "no comment style is known for this name: add ready ones by reuse-undo styles --add, name one with \
        --style or in .reuse/styles.toml, write the information beside the file with \
        --fallback-dot-license, or pass it over with --skip-unrecognised"
    } else {
        "no comment style is known for this name, and no ready one is left: name one with --style or by a line in \
        .reuse/styles.toml, write the information beside the file with --fallback-dot-license, \
        or pass it over with --skip-unrecognised"
    }
}

/// Which call lists names without a style, and which one adds ready styles, if some are left.
pub fn name_listing(is_any_left: bool) -> &'static str
    ensures { result.now ≡ name_listing is_any_left }
{
    if is_any_left {
        "reuse-undo styles lists them, styles --add adds ready ones"
    } else {
        "reuse-undo styles lists their names"
    }
}

/// Which call lists the files that a header could break, before a call is made or after that.
pub fn harm_listing(is_made: bool) -> &'static str
    ensures { result.now ≡ harm_listing is_made }
{
    if is_made {
        "after reuse-undo undo, --dry-run --json lists each, with could_break"
    } else {
        "--dry-run --json lists each, with could_break"
    }
}
