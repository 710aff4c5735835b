//! A notice as people write it: its parts, which put together are its text.
ghost use Rattle.std.specs.Prelude.{◌≡◌, ◌≤◌, option_map, IfSome, IsTrue, length, drop};
ghost use Rattle.std.specs.Option.{option_and_then};
ghost use Rattle.reuse_notice.specs.Prefixes.{prefix_text};
ghost use Rattle.reuse_notice.specs.Tags.{drop_front, is_blank};
ghost use Rattle.reuse_amend.specs.YearSpans.{run_front};
ghost use Rattle.reuse_amend.specs.NoticeParts.{unless_nil, past, past_sign, value_behind, has_colon, is_begun_by};
ghost use Rattle.reuse_amend.specs.NoticeParts.{wide_prefix_of, starts_blank, past_by, holder_behind, behind_comma};
ghost use Rattle.reuse_amend.specs.NoticeParts.{leaves_holder, if_leaves_holder, is_no_comma, unless_blank};
ghost use Rattle.reuse_amend.specs.NoticeParts.{next_searched, years_tail, tail_of, cut_years_first, cut_holder_first};
ghost use Rattle.reuse_amend.specs.NoticeParts.{parts_behind, parts_of};
ghost use Rattle.reuse_amend.specs.PartViews.{run_view, parts_view};

use crate::year_spans::{Run, behind, beyond, read_run, upto};
use reuse_notice::{
    LONGEST_FIRST, Prefix, has_value_behind, is_all_blank, is_blank_byte, trim_blank_end,
    trim_blank_start, trim_start_with,
};

/// The parts of a notice: all in front of its years and its holder, the years, what stands between
/// years and holder, the holder, and the blank bytes behind. The years come first, or the holder;
/// there may be no years.
#[derive(Clone, Copy)]
pub(crate) struct NoticeParts<'a> {
    pub(crate) prefix: Prefix,
    pub(crate) front: &'a [u8],
    pub(crate) years: &'a [u8],
    pub(crate) between: &'a [u8],
    pub(crate) holder: &'a [u8],
    pub(crate) trailing: &'a [u8],
    pub(crate) years_first: bool,
}

// ---- what may stand in front of years and holder

// A text from the next one on, or the text itself where nothing is left.
fn unless_empty<'a>(text: &'a [u8], rest: &'a [u8]) -> &'a [u8]
    ensures { result.now ≡ unless_nil text.now rest.now }
{
    if rest.is_empty() { text } else { rest }
}

// What follows some bytes and the blank ones behind them, if a text begins so and anything follows;
// else the text itself.
fn past<'a>(lead: &[u8], text: &'a [u8]) -> &'a [u8]
    ensures { result.now ≡ past lead.now text.now }
{
    match behind(lead, text) {
        None => text,
        Some(rest) => unless_empty(text, trim_blank_start(rest)),
    }
}

// Past one of the signs.
fn past_sign(text: &[u8]) -> &[u8]
    ensures { result.now ≡ past_sign text.now }
{
    if text.starts_with(b"(c)") {
        past(b"(c)", text)
    } else if text.starts_with(b"(C)") {
        past(b"(C)", text)
    } else {
        past("©".as_bytes(), text)
    }
}

// Years and holder, from what follows the prefix.
fn value_behind(text: &[u8]) -> &[u8]
    ensures { result.now ≡ value_behind text.now }
{
    past_sign(past(b":", trim_blank_start(text)))
}

// Whether a text begins with a prefix, followed by a colon and then more than blank bytes.
fn has_colon(text: &[u8], prefix: Prefix) -> bool
    ensures colon { result ≡ has_colon text.now prefix }
    ensures within { IsTrue result → length (prefix_text prefix) ≤ length text.now }
{
    let lead = prefix.text().as_bytes();
    if !text.starts_with(lead) {
        return false;
    }
    let rest = &text[lead.len()..];
    rest.starts_with(b":") && !is_all_blank(&rest[1..])
}

// Whether a text begins with a prefix that leaves a value, behind a space or a colon.
fn is_begun_by(text: &[u8], prefix: Prefix) -> bool
    ensures begun { result ≡ is_begun_by text.now prefix }
    ensures within { IsTrue result → length (prefix_text prefix) ≤ length text.now }
{
    has_value_behind(text, prefix) || has_colon(text, prefix)
}

// The longest such prefix.
fn find_prefix(text: &[u8]) -> Option<Prefix>
    ensures found { result ≡ wide_prefix_of text.now }
    ensures within { IfSome result (λ prefix. length (prefix_text prefix) ≤ length text.now) }
{
    for prefix in LONGEST_FIRST {
        if is_begun_by(text, prefix) {
            return Some(prefix);
        }
    }
    None
}

// ---- what may stand between years and holder

fn starts_blank(text: &[u8]) -> bool
    ensures { result ≡ starts_blank text.now }
{
    match text.split_first() {
        None => false,
        Some((b, _)) => is_blank_byte(*b),
    }
}

// Past the word `by`.
fn past_by(text: &[u8]) -> &[u8]
    ensures { result.now ≡ past_by text.now }
{
    if text.len() > 2 && starts_blank(&text[2..]) {
        past(b"by", text)
    } else {
        text
    }
}

// The holder, from what follows the years.
fn holder_behind(rest: &[u8]) -> &[u8]
    ensures { result.now ≡ holder_behind rest.now }
{
    past_by(past(b",", trim_blank_start(rest)))
}

// What follows blank bytes and a comma, or the text itself.
fn behind_comma(rest: &[u8]) -> &[u8]
    ensures { result.now ≡ behind_comma rest.now }
{
    match behind(b",", trim_blank_start(rest)) {
        Some(more) => more,
        None => rest,
    }
}

// Whether years end in front of a blank byte or a comma, and leave a holder.
fn leaves_holder(rest: &[u8]) -> bool
    ensures { result ≡ leaves_holder rest.now }
{
    (starts_blank(rest) || rest.starts_with(b",")) && !is_all_blank(behind_comma(rest))
}

// The years at the front of a value, if they leave a holder.
fn read_leading(value: &[u8]) -> Option<Run<'_>>
    ensures { option_map run_view result ≡ option_and_then if_leaves_holder (run_front value.now) }
{
    let run = read_run(value)?;
    if leaves_holder(run.rest) {
        Some(run)
    } else {
        None
    }
}

// ---- years behind the holder

// Text that is more than blank bytes.
fn unless_blank(rest: &[u8]) -> Option<&[u8]>
    ensures { option_map (λ rest. rest.now) result ≡ unless_blank rest.now }
{
    if is_all_blank(rest) { None } else { Some(rest) }
}

// Where years are searched for next, behind a text that begins with a comma: behind the comma, or
// behind the years that follow it; none where these reach to the end.
fn next_searched(text: &[u8]) -> Option<&[u8]>
    ensures { option_map (λ rest. rest.now) result ≡ next_searched text.now }
{
    let (_, bytes) = text.split_first()?;
    match read_run(trim_blank_start(bytes)) {
        None => Some(bytes),
        Some(run) => unless_blank(run.rest),
    }
}

fn is_no_comma(b: u8) -> bool
    ensures { result ≡ is_no_comma b }
{
    b != b','
}

// A text from its first comma on.
fn from_comma(text: &[u8]) -> &[u8]
    ensures { result.now ≡ drop_front is_no_comma text.now }
{
    trim_start_with(text, is_no_comma)
}

// The end of a text from the first comma on that years follow to the end, or else no bytes.
fn find_tail(text: &[u8], limit: usize) -> &[u8]
    ensures { result.now ≡ years_tail limit text.now }
{
    let mut rest = text;
    for _count in 0..limit {
        let tail = from_comma(rest);
        match next_searched(tail) {
            None => return tail,
            Some(more) => rest = more,
        }
    }
    b""
}

// The tail of a text that begins with the holder, of which at least a byte is left.
fn tail_of(named: &[u8]) -> &[u8]
    ensures { result.now ≡ tail_of named.now }
{
    match named.split_first() {
        None => find_tail(named, named.len()),
        Some((_, more)) => find_tail(more, named.len()),
    }
}

// ---- the notice

/// The parts of a text that is a notice.
pub(crate) fn read_parts(text: &[u8]) -> Option<NoticeParts<'_>>
    ensures { option_map parts_view result ≡ parts_of text.now }
{
    let prefix = find_prefix(text)?;
    Some(cut_behind(text, prefix))
}

// The parts of a notice with this prefix.
fn cut_behind(text: &[u8], prefix: Prefix) -> NoticeParts<'_>
    requires { length (prefix_text prefix) ≤ length text.now }
    ensures { parts_view result ≡ parts_behind text.now prefix }
{
    let value = value_behind(&text[prefix.text().len()..]);
    match read_leading(value) {
        Some(run) => cut_years_first(text, prefix, value, run),
        None => cut_holder_first(text, prefix, holder_behind(value)),
    }
}

// The parts, where the years come first: `value` begins with them.
fn cut_years_first<'a>(
    text: &'a [u8],
    prefix: Prefix,
    value: &'a [u8],
    run: Run<'a>,
) -> NoticeParts<'a>
    ensures { parts_view result ≡ cut_years_first text.now prefix value.now (run_view run.entry) }
{
    let named = holder_behind(run.rest);
    let holder = trim_blank_end(named);
    NoticeParts {
        prefix,
        front: upto(text, value),
        years: upto(value, run.rest),
        between: upto(run.rest, named),
        holder,
        trailing: beyond(holder, named),
        years_first: true,
    }
}

// What follows the first byte, and blank ones.
fn behind_first(text: &[u8]) -> &[u8]
    ensures { result.now ≡ drop_front is_blank (drop 1 text.now) }
{
    match text.split_first() {
        None => trim_blank_start(text),
        Some((_, rest)) => trim_blank_start(rest),
    }
}

// The parts, where the holder comes first: the text from it on is `named`.
fn cut_holder_first<'a>(text: &'a [u8], prefix: Prefix, named: &'a [u8]) -> NoticeParts<'a>
    ensures { parts_view result ≡ cut_holder_first text.now prefix named.now (tail_of named.now) }
{
    let tail = tail_of(named);
    let holder = trim_blank_end(upto(named, tail));
    let dated = behind_first(tail);
    let years = trim_blank_end(dated);
    NoticeParts {
        prefix,
        front: upto(text, named),
        years,
        between: beyond(holder, upto(named, dated)),
        holder,
        trailing: beyond(years, dated),
        years_first: false,
    }
}
