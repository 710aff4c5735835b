//! What can be done about words that are no line, as a note says it. `notes` of the program calls it.
//! Its contracts say every case; `tests/notes.sh` shows them.
ghost use Rattle.std.specs.Prelude.{◌≡◌};
ghost use Rattle.std.specs.Option.{option_map};
ghost use Rattle.reuse_arguments.specs.LineAdvice.{additions_advice, line_advice, text_advice};

use crate::line::LineFault;
use reuse_notice::NoticeRefusal;

/// What can be done about a fault, where there is a note on it.
pub fn line_advice(fault: &LineFault) -> Option<&'static str>
    ensures { option_map (λ text. text.now) result ≡ line_advice fault.now }
{
    match fault {
        LineFault::BadPath(_) => Some(
            "a PATH starts at the root: it has no slash in front, no part .. and no empty part; \
            with --up it starts at the working folder",
        ),
        LineFault::NothingToAmend => Some(
            "say what is to be changed, as by --replace-license OLD NEW, --replace-holder OLD NEW or --until YEAR; \
            reuse-undo amend --help lists the options",
        ),
        LineFault::BadAdditions(refusal) => additions_advice(refusal),
        _ => None,
    }
}

// What can be done about arguments that can't be written, or add nothing.
fn additions_advice(refusal: &NoticeRefusal) -> Option<&'static str>
    ensures { option_map (λ text. text.now) result ≡ additions_advice refusal.now }
{
    match refusal {
        NoticeRefusal::NothingToAdd => Some(
            "say what is to be added, by --copyright, --license or --contributor; \
            --text, --year and --copyright-prefix alone add nothing",
        ),
        NoticeRefusal::BadYear(_) => Some(
            "a year has four digits; annotate takes a range as two years, as in --year 2019 --year 2024",
        ),
        NoticeRefusal::BadText(text) => Some(text_advice(text.as_slice())),
        _ => None,
    }
}

// What a holder or a contributor may be, which this is not.
fn text_advice(text: &[u8]) -> &'static str
    ensures { result.now ≡ text_advice text.now }
{
    if text.is_empty() {
        "a holder or a contributor is empty: give its text, or leave the option out"
    } else {
        "a holder or a contributor has no control character, and neither REUSE-IgnoreStart nor SPDX-SnippetBegin"
    }
}
