//! Years as people write them in a notice: single years and spans of years, with commas, `and` or
//! `&` between them.
ghost use Rattle.std.specs.Prelude.{◌≡◌, ◌≤◌, option_map, length, drop};
ghost use Rattle.reuse_amend.specs.YearSpans.{ends_word, upto, behind, if_word_ends, behind_word, year_front};
ghost use Rattle.reuse_amend.specs.YearSpans.{today_front, end_front, is_in_order, range_end, lone_end, behind_dash};
ghost use Rattle.reuse_amend.specs.YearSpans.{span_from, span_front, behind_and, past_and, separated, next_span};
ghost use Rattle.reuse_amend.specs.YearSpans.{ends_by, with_span, run_front};
ghost use Rattle.reuse_amend.specs.PartViews.{ahead, span_view, run_view};

use reuse_notice::{is_blank_byte, parse_year, trim_blank_start};

/// Years from `low` to `high`, which is none where they last until today: where they begin in a
/// text, and what follows them.
#[derive(Clone, Copy)]
pub(crate) struct Span<'a> {
    pub(crate) start: &'a [u8],
    pub(crate) rest: &'a [u8],
    pub(crate) low: u16,
    pub(crate) high: Option<u16>,
}

/// Spans with which a text begins: the one that ends last, of equal ones the last, and what follows
/// them all.
#[derive(Clone, Copy)]
pub(crate) struct Run<'a> {
    pub(crate) latest: Span<'a>,
    pub(crate) rest: &'a [u8],
}

// ---- pieces of a text

// Whether a word ends in front of a text.
fn ends_word(text: &[u8]) -> bool
    ensures { result ≡ ends_word text.now }
{
    match text.split_first() {
        None => true,
        Some((b, _)) => is_blank_byte(*b) || *b == b',' || *b == b'&',
    }
}

/// A text up to an end of it.
pub(crate) fn upto<'a>(text: &'a [u8], end: &[u8]) -> &'a [u8]
    ensures { result.now ≡ upto text.now end.now }
{
    &text[..text.len().saturating_sub(end.len())]
}

/// A text behind as many bytes as a part of it has.
pub(crate) fn beyond<'a>(part: &[u8], text: &'a [u8]) -> &'a [u8]
    ensures { result.now ≡ drop (length part.now) text.now }
{
    if part.len() <= text.len() {
        &text[part.len()..]
    } else {
        b""
    }
}

/// What follows some bytes, if a text begins with them.
pub(crate) fn behind<'a>(lead: &[u8], text: &'a [u8]) -> Option<&'a [u8]>
    ensures { option_map (λ rest. rest.now) result ≡ behind lead.now text.now }
{
    if text.starts_with(lead) {
        Some(&text[lead.len()..])
    } else {
        None
    }
}

// A text at which a word ends.
fn if_word_ends(rest: &[u8]) -> Option<&[u8]>
    ensures { option_map (λ rest. rest.now) result ≡ if_word_ends rest.now }
{
    if ends_word(rest) { Some(rest) } else { None }
}

// What follows a word, if a text begins with it.
fn behind_word<'a>(word: &[u8], text: &'a [u8]) -> Option<&'a [u8]>
    ensures { option_map (λ rest. rest.now) result ≡ behind_word word.now text.now }
{
    if_word_ends(behind(word, text)?)
}

// ---- a span

// A year, and what follows it.
fn read_year(text: &[u8]) -> Option<(u16, &[u8])>
    ensures { option_map ahead result ≡ year_front text.now }
{
    if text.len() < 4 || !ends_word(&text[4..]) {
        return None;
    }
    let year = parse_year(&text[..4])?;
    Some((year, &text[4..]))
}

// What follows a word for today.
fn behind_today(text: &[u8]) -> Option<&[u8]>
    ensures { option_map (λ rest. rest.now) result ≡ today_front text.now }
{
    if let Some(rest) = behind_word(b"present", text) {
        return Some(rest);
    }
    if let Some(rest) = behind_word(b"now", text) {
        return Some(rest);
    }
    behind_word(b"today", text)
}

// The end of a span, a year or today, and what follows it.
fn read_end(text: &[u8]) -> Option<(Option<u16>, &[u8])>
    ensures { option_map ahead result ≡ end_front text.now }
{
    if let Some((year, rest)) = read_year(text) {
        return Some((Some(year), rest));
    }
    let rest = behind_today(text)?;
    Some((None, rest))
}

// Whether an end doesn't come before the beginning.
fn is_in_order(low: u16, high: Option<u16>) -> bool
    ensures { result ≡ is_in_order low high }
{
    match high {
        None => true,
        Some(high) => low <= high,
    }
}

// What follows a minus or an en dash, and blank bytes.
fn behind_dash(text: &[u8]) -> Option<&[u8]>
    ensures { option_map (λ rest. rest.now) result ≡ behind_dash text.now }
{
    if let Some(rest) = behind(b"-", text) {
        return Some(trim_blank_start(rest));
    }
    let rest = behind("–".as_bytes(), text)?;
    Some(trim_blank_start(rest))
}

// The end of the span that a year begins, from what follows the year.
fn read_range(low: u16, text: &[u8]) -> Option<(Option<u16>, &[u8])>
    ensures { option_map ahead result ≡ range_end low text.now }
{
    let text = behind_dash(trim_blank_start(text))?;
    let (high, rest) = read_end(text)?;
    if is_in_order(low, high) {
        Some((high, rest))
    } else {
        None
    }
}

// A year alone, from what follows it.
fn read_alone(year: u16, rest: &[u8]) -> Option<(Option<u16>, &[u8])>
    ensures { option_map ahead result ≡ lone_end year rest.now }
{
    let rest = if_word_ends(rest)?;
    Some((Some(year), rest))
}

// The span that a year begins at the front of a text.
fn read_span_from(text: &[u8], low: u16) -> Option<Span<'_>>
    requires { 4 ≤ length text.now }
    ensures { option_map span_view result ≡ span_from text.now low }
{
    let (high, rest) = match read_range(low, &text[4..]) {
        Some(end) => end,
        None => read_alone(low, &text[4..])?,
    };
    Some(Span {
        start: text,
        rest,
        low,
        high,
    })
}

// The span at the front of a text.
fn read_span(text: &[u8]) -> Option<Span<'_>>
    ensures { option_map span_view result ≡ span_front text.now }
{
    if text.len() < 4 {
        return None;
    }
    let low = parse_year(&text[..4])?;
    read_span_from(text, low)
}

// ---- several spans

// What follows `and` or `&`, and blank bytes.
fn behind_and(text: &[u8]) -> Option<&[u8]>
    ensures { option_map (λ rest. rest.now) result ≡ behind_and text.now }
{
    if let Some(rest) = behind(b"&", text) {
        return Some(trim_blank_start(rest));
    }
    let rest = behind_word(b"and", text)?;
    Some(trim_blank_start(rest))
}

// The same, or the text itself.
fn past_and(text: &[u8]) -> &[u8]
    ensures { result.now ≡ past_and text.now }
{
    match behind_and(text) {
        Some(rest) => rest,
        None => text,
    }
}

// What follows a comma, `and` or `&`, or a comma and one of them.
fn behind_separator(text: &[u8]) -> Option<&[u8]>
    ensures { option_map (λ rest. rest.now) result ≡ separated text.now }
{
    let front = trim_blank_start(text);
    if let Some(rest) = behind(b",", front) {
        return Some(past_and(trim_blank_start(rest)));
    }
    behind_and(front)
}

// The span that follows, behind a separator.
fn read_next(text: &[u8]) -> Option<Span<'_>>
    ensures { option_map span_view result ≡ next_span text.now }
{
    read_span(behind_separator(text)?)
}

// Whether years end no later than others; today is later than each year.
fn ends_by(high: Option<u16>, other: Option<u16>) -> bool
    ensures { result ≡ ends_by high other }
{
    match (high, other) {
        (_, None) => true,
        (None, Some(_)) => false,
        (Some(high), Some(other)) => high <= other,
    }
}

impl<'a> Run<'a> {
    // With one span more, which follows.
    fn with_span(self, span: Span<'a>) -> Run<'a>
        ensures { run_view result ≡ with_span (run_view self.entry) (span_view span.entry) }
    {
        let latest = if ends_by(self.latest.high, span.high) {
            span
        } else {
            self.latest
        };
        Run {
            latest,
            rest: span.rest,
        }
    }
}

/// The spans at the front of a text.
pub(crate) fn read_run(text: &[u8]) -> Option<Run<'_>>
    ensures { option_map run_view result ≡ run_front text.now }
{
    let first = read_span(text)?;
    let mut run = Run {
        latest: first,
        rest: first.rest,
    };
    // There are fewer spans than bytes.
    for _count in 1..text.len() {
        match read_next(run.rest) {
            None => return Some(run),
            Some(span) => run = run.with_span(span),
        }
    }
    Some(run)
}
