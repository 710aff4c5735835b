//! What a command adds to the licensing information of a file.
ghost use Rattle.std.specs.Prelude.{◌≡◌, ◌≤◌, ◌<◌, ◌++◌, IfOk, IfErr, IfSome, OnOk, None, Some, All, IsUtf8, map, find};
ghost use Rattle.std.specs.Prelude.{filter_map, fold, min, max};
ghost use Rattle.std.specs.Option.{option_map, option_to_list};
ghost use Rattle.std.specs.List.{list_any};
ghost use Rattle.reuse_notice.specs.Tags.{year_of};
ghost use Rattle.reuse_notice.specs.Adding.{without_spaces, holds, is_bad_text, is_bad_year, is_control};
ghost use Rattle.reuse_notice.specs.Adding.{bad_expression, bad_licence, four_digits, chosen_years, notice_written};
ghost use Rattle.reuse_notice.specs.Keeping.{HaveFourDigits};
ghost use Rattle.reuse_notice.specs.RefusalTexts.{refusal_text};
ghost use Rattle.reuse_notice.specs.Texts.{texts_of};

use crate::expressions::find_fault;
use crate::prefixes::Prefix;
use crate::tags::{Years, parse_year};
use crate::text_lists::Texts;
use crate::trims::{trim_end_with, trim_start_with};
use memchr::memmem;
use reuse_text::Bytes;
use std::alloc::{AllocError, Global};
use std::error::Error;
use std::fmt;

/// Texts of notices, contributors and licences to be added to a file, in the order of the
/// arguments.
#[derive(Debug, Drop)]
pub struct Additions {
    pub(crate) notices: Texts,
    pub(crate) contributors: Texts,
    pub(crate) licences: Texts,
}

/// Why arguments add nothing.
#[derive(Debug, Drop)]
pub enum NoticeRefusal {
    /// There is no copyright, licence or contributor.
    NothingToAdd,
    /// Years were given and excluded.
    YearAndExclude,
    /// A year is not four ASCII digits.
    BadYear(Bytes),
    /// A holder or a contributor is empty, has a control character or holds a barrier text.
    BadText(Bytes),
    /// A licence is outside the grammar, at this place.
    BadExpression(Bytes, usize),
    /// There was no memory.
    Memory(AllocError),
}

impl fmt::Display for NoticeRefusal {
    ghost output = { λ refusal. Some (refusal_text refusal) };

    fn fmt<W: fmt::Write>(&self, f: &mut fmt::Formatter<W>) -> fmt::Result {
        match self {
            NoticeRefusal::NothingToAdd => f.write_str("nothing to add"),
            NoticeRefusal::YearAndExclude => f.write_str("--year and --exclude-year"),
            NoticeRefusal::BadYear(text) => write!(f, "bad year: {text}"),
            NoticeRefusal::BadText(text) => write!(f, "bad text: {text}"),
            NoticeRefusal::BadExpression(text, place) => {
                write!(f, "bad licence expression at {place}: {text}")
            }
            NoticeRefusal::Memory(_) => f.write_str("out of memory"),
        }
    }
}

impl Error for NoticeRefusal {}

impl From<AllocError> for NoticeRefusal {
    ghost use Rattle.reuse_notice.specs.declared.adding.NoticeRefusal.TheVariants.{Memory};

    ghost from_gives = { λ e r. r ≡ Memory e };

    fn from(e: AllocError) -> NoticeRefusal {
        NoticeRefusal::Memory(e)
    }
}

impl Additions {
    ghost use Rattle.reuse_notice.specs.Adding.{refusal_of, additions_of};
    ghost use Rattle.reuse_notice.specs.Refusals.{refusal_view, arguments};
    ghost use Rattle.reuse_notice.specs.Plain.{ArePlain, AreUtf8};

    /// What a command with these arguments adds. The notices have the years from the lowest to the
    /// highest of `years`, or else the `current` one, unless they are excluded. Outer spaces of
    /// arguments are dropped, and no text is empty or holds a control character. The first fault is
    /// refused, in the order of `NoticeRefusal`.
    pub fn new(
        alloc: Global,
        copyrights: &[&str],
        licences: &[&str],
        contributors: &[&str],
        years: &[&str],
        exclude: bool,
        current: u16,
        prefix: Prefix,
    ) -> Result<Additions, NoticeRefusal>
        requires { current ≤ 9999 }
        ensures added { IfOk result (λ additions.
            let given = arguments copyrights.now licences.now contributors.now years.now exclude current prefix in
            (refusal_of given ≡ None) × (additions ≡ additions_of given)) }
        ensures plain { IfOk result (λ additions. ArePlain additions) }
        ensures utf8 { IfOk result (λ additions. AreUtf8 additions) }
        ensures refused { IfErr result
            (λ e. let given = arguments copyrights.now licences.now contributors.now years.now exclude current prefix in
            IfSome (refusal_view e) (λ refusal. refusal_of given ≡ Some refusal)) }
    {
        if copyrights.is_empty() && licences.is_empty() && contributors.is_empty() {
            return Err(NoticeRefusal::NothingToAdd);
        }
        if exclude && !years.is_empty() {
            return Err(NoticeRefusal::YearAndExclude);
        }
        if let Some(text) = find_bad_year(years) {
            return Err(NoticeRefusal::BadYear(Bytes::from_slice(alloc, text)?));
        }
        if let Some(text) = find_bad_text(copyrights) {
            return Err(NoticeRefusal::BadText(Bytes::from_slice(alloc, text)?));
        }
        if let Some(text) = find_bad_text(contributors) {
            return Err(NoticeRefusal::BadText(Bytes::from_slice(alloc, text)?));
        }
        if let Some((text, place)) = find_bad_licence(licences) {
            let text = Bytes::from_slice(alloc, text)?;
            return Err(NoticeRefusal::BadExpression(text, place));
        }
        let years = choose_years(years, exclude, current);
        Ok(Additions {
            notices: write_notices(alloc, prefix, years, copyrights)?,
            contributors: copy_texts(alloc, contributors)?,
            licences: copy_texts(alloc, licences)?,
        })
    }
}

// The first year that is not four ASCII digits, without its outer spaces.
fn find_bad_year<'a>(years: &[&'a str]) -> Option<&'a [u8]>
    ensures { option_map (λ t. t.now) result ≡ find is_bad_year (texts_of years.now) }
{
    for year in years {
        let text = trim_spaces(year);
        if parse_year(text).is_none() {
            return Some(text);
        }
    }
    None
}

// The first holder or contributor that can't be written, without its outer spaces.
fn find_bad_text<'a>(texts: &[&'a str]) -> Option<&'a [u8]>
    ensures { option_map (λ t. t.now) result ≡ find is_bad_text (texts_of texts.now) }
{
    for text in texts {
        let text = trim_spaces(text);
        if is_unfit(text) {
            return Some(text);
        }
    }
    None
}

/// Whether a holder or a contributor can't be written.
pub fn is_unfit(text: &[u8]) -> bool
    ensures { result ≡ is_bad_text text.now }
{
    text.is_empty()
        || has_control(text)
        || has_part(text, b"REUSE-IgnoreStart")
        || has_part(text, b"SPDX-SnippetBegin")
}

// Whether a byte is below 20 hex or is 7F.
fn has_control(text: &[u8]) -> bool
    ensures { result ≡ list_any is_control text.now }
{
    text.iter().any(|b| *b < 0x20 || *b == 0x7f)
}

/// Whether some bytes stand in a text.
pub fn has_part(text: &[u8], part: &[u8]) -> bool
    ensures { result ≡ holds part.now text.now }
{
    memmem::find(text, part).is_some()
}

// The first licence outside the grammar, without its outer spaces, and the place.
fn find_bad_licence<'a>(licences: &[&'a str]) -> Option<(&'a [u8], usize)>
    ensures { option_map (λ t. bad_expression t.0.now t.1) result ≡ bad_licence (texts_of licences.now) }
{
    for licence in licences {
        let text = trim_spaces(licence);
        if let Some(place) = find_fault(text) {
            return Some((text, place));
        }
    }
    None
}

/// The bytes of a text without outer spaces.
pub fn trim_spaces(text: &str) -> &[u8]
    ensures value { result.now ≡ without_spaces text.now }
    ensures utf8 { IsUtf8 result.now }
{
    let text = trim_start_with(text.as_bytes(), |b| b == b' ');
    trim_end_with(text, |b| b == b' ')
}

// The years from the lowest to the highest, or else the current one, unless they are excluded.
fn choose_years(years: &[&str], exclude: bool, current: u16) -> Option<Years>
    ensures { result ≡ chosen_years (texts_of years.now) exclude current }
{
    if exclude {
        None
    } else if years.is_empty() {
        Some(Years {
            low: current,
            high: current,
        })
    } else {
        Some(span_years(years))
    }
}

// The years from the lowest to the highest.
fn span_years(years: &[&str]) -> Years
    ensures low { result.low ≡ fold min 9999 (filter_map year_of (texts_of years.now)) }
    ensures high { result.high ≡ fold max 0 (filter_map year_of (texts_of years.now)) }
{
    let mut low = 9999;
    let mut high = 0;
    for year in years {
        let number = parse_year(trim_spaces(year));
        low = lower(low, number);
        high = higher(high, number);
    }
    Years { low, high }
}

// The lower of two years, if there are two.
fn lower(low: u16, year: Option<u16>) -> u16
    ensures { result ≡ fold min low (option_to_list year) }
{
    match year {
        Some(year) => low.min(year),
        None => low,
    }
}

// The higher of two years, if there are two.
fn higher(high: u16, year: Option<u16>) -> u16
    ensures { result ≡ fold max high (option_to_list year) }
{
    match year {
        Some(year) => high.max(year),
        None => high,
    }
}

// The notices of the holders, with this prefix and these years.
fn write_notices(
    alloc: Global,
    prefix: Prefix,
    years: Option<Years>,
    holders: &[&str],
) -> Result<Texts, AllocError>
    ensures written { IfOk result (λ notices. notices ≡ map (notice_written prefix years) (texts_of holders.now)) }
    ensures utf8 { HaveFourDigits years → IfOk result (λ notices. All IsUtf8 notices) }
{
    let mut notices = Vec::new(alloc);
    for holder in holders {
        notices.push(write_notice(alloc, prefix, years, trim_spaces(holder))?)?;
    }
    Ok(Texts::new(notices))
}

// The text of a notice.
pub(crate) fn write_notice(
    alloc: Global,
    prefix: Prefix,
    years: Option<Years>,
    holder: &[u8],
) -> Result<Bytes, AllocError>
    ensures { IfOk result (λ text. text ≡ notice_written prefix years holder.now) }
{
    let mut bytes = Vec::from_slice(alloc, prefix.text().as_bytes())?;
    bytes.push(b' ')?;
    if let Some(years) = years {
        push_year(&mut bytes, years.low)?;
        if years.low != years.high {
            bytes.extend_from_slice(b" - ")?;
            push_year(&mut bytes, years.high)?;
        }
        bytes.push(b' ')?;
    }
    bytes.extend_from_slice(holder)?;
    Ok(Bytes::from_vec(bytes))
}

/// Adds a year in four digits.
///
/// # Errors
/// There was no memory.
pub fn push_year(bytes: &mut Vec<u8>, year: u16) -> Result<(), AllocError>
    ensures { OnOk result (bytes.new.items ≡ bytes.old.items ++ four_digits year) }
{
    let digits = [
        b'0' + (year / 1000) as u8,
        b'0' + (year / 100 % 10) as u8,
        b'0' + (year / 10 % 10) as u8,
        b'0' + (year % 10) as u8,
    ];
    bytes.extend_from_slice(&digits)
}

// Copies of the texts without their outer spaces.
fn copy_texts(alloc: Global, texts: &[&str]) -> Result<Texts, AllocError>
    ensures texts { IfOk result (λ copied. copied ≡ texts_of texts.now) }
    ensures utf8 { IfOk result (λ copied. All IsUtf8 copied) }
{
    let mut copied = Vec::new(alloc);
    for text in texts {
        copied.push(Bytes::from_slice(alloc, trim_spaces(text))?)?;
    }
    Ok(Texts::new(copied))
}

/// A copy of a text without its outer spaces.
///
/// # Errors
/// There was no memory.
pub fn copy_text(alloc: Global, text: &str) -> Result<Bytes, AllocError>
    ensures { IfOk result (λ copied. copied ≡ without_spaces text.now) }
{
    Bytes::from_slice(alloc, trim_spaces(text))
}
