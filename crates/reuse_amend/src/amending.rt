//! What amendments make of notices, contributors and licences.
ghost use Rattle.std.specs.Prelude.{◌≡◌, ◌++◌, IfOk, OnOk, if◌then◌else◌};
ghost use Rattle.std.specs.Option.{option_map_or, option_to_list};
ghost use Rattle.reuse_amend.specs.NoticeParts.{parts_text};
ghost use Rattle.reuse_amend.specs.PartViews.{span_view, parts_view};
ghost use Rattle.reuse_amend.specs.Amending.{amended, each_made, licence_amended, text_amended, text_replaced};
ghost use Rattle.reuse_amend.specs.Amending.{range_text, is_before, span_until, years_until, is_front, front_with};
ghost use Rattle.reuse_amend.specs.Amending.{parts_amended, holder_amended, notice_amended, notices_amended};
ghost use Rattle.reuse_amend.specs.Amending.{contributors_amended, licences_amended, licence_alone, unless_removed};
ghost use Rattle.reuse_amend.specs.Amending.{contributor_alone};
ghost use Rattle.reuse_amend.specs.AmendmentViews.{IsAnswer};

use crate::amendments::{AmendRefusal, Amendments};
use crate::notice_parts::{NoticeParts, read_parts};
use crate::replacements::Replacement;
use crate::replacing::amend_licence;
use crate::year_spans::{Span, read_run, upto};
use reuse_notice::{Info, Prefix, TextSet, Texts, is_all_blank, is_among, push_year};
use reuse_text::Bytes;
use std::alloc::{AllocError, Global};

/// The information with the amendments: licences, holders and contributors replaced and then
/// removed, then years and prefixes of notices. Texts that become equal are one. What is not named
/// stays, and so do the free contents.
///
/// # Errors
/// `BadExpression` where an identifier is replaced by what can't stand in its place.
pub fn amend_info(alloc: Global, info: &Info, amendments: &Amendments) -> Result<Info, AmendRefusal>
    ensures { IsAnswer (amended amendments.now info.now) result }
{
    let licences = amend_licences(alloc, info.licences(), amendments)?;
    let notices = amend_notices(alloc, info.notices(), amendments)?;
    let contributors = amend_contributors(alloc, info.contributors(), amendments)?;
    Ok(info.with_tags(alloc, notices, contributors, licences)?)
}

// ---- licences

// The licences amended.
fn amend_licences(
    alloc: Global,
    licences: &[Bytes],
    amendments: &Amendments,
) -> Result<TextSet, AmendRefusal>
    ensures { IsAnswer (licences_amended amendments.now licences.now) result }
{
    let texts = amend_each(alloc, licences, amendments.replaced_licences.as_slice())?;
    let removed = amendments.removed_licences.as_slice();
    Ok(texts.without(removed).into_set())
}

/// What the amendments make of one licence: none where it is removed.
///
/// # Errors
/// `BadExpression` where an identifier is replaced by what can't stand in its place.
pub fn amend_one_licence(
    alloc: Global,
    value: &[u8],
    amendments: &Amendments,
) -> Result<Option<Bytes>, AmendRefusal>
    ensures { IsAnswer (licence_alone amendments.now value.now) result }
{
    match amend_licence(alloc, value, amendments.replaced_licences.as_slice()) {
        Ok(text) => Ok(unless_removed(text, amendments.removed_licences.as_slice())),
        Err(refusal) => Err(refusal),
    }
}

// A text that is not to be removed.
fn unless_removed(text: Bytes, removed: &[Bytes]) -> Option<Bytes>
    ensures { result ≡ unless_removed removed.now text }
{
    if is_among(removed, text.as_slice()) {
        None
    } else {
        Some(text)
    }
}

// Each licence as the replacements make it.
fn amend_each(
    alloc: Global,
    licences: &[Bytes],
    replacements: &[Replacement],
) -> Result<Texts, AmendRefusal>
    ensures { IsAnswer (each_made (licence_amended replacements.now) licences.now) result }
{
    let mut texts = Texts::new(Vec::new(alloc));
    for value in licences {
        let text = match amend_licence(alloc, value.as_slice(), replacements) {
            Ok(text) => text,
            Err(refusal) => return Err(refusal),
        };
        texts.push(text)?;
    }
    Ok(texts)
}

// ---- contributors

// The contributors amended.
fn amend_contributors(
    alloc: Global,
    contributors: &[Bytes],
    amendments: &Amendments,
) -> Result<TextSet, AllocError>
    ensures { IfOk result (λ set. set ≡ contributors_amended amendments.now contributors.now) }
{
    let mut texts = Vec::new(alloc);
    for value in contributors {
        let text = amend_text(
            value.as_slice(),
            amendments.replaced_contributors.as_slice(),
        );
        texts.push(Bytes::from_slice(alloc, text)?)?;
    }
    let removed = amendments.removed_contributors.as_slice();
    Ok(Texts::new(texts).without(removed).into_set())
}

/// What the amendments make of one contributor: none where it is removed.
///
/// # Errors
/// There was no memory.
pub fn amend_one_contributor(
    alloc: Global,
    value: &[u8],
    amendments: &Amendments,
) -> Result<Option<Bytes>, AllocError>
    ensures { IfOk result (λ amended. amended ≡ contributor_alone amendments.now value.now) }
{
    let text = amend_text(value, amendments.replaced_contributors.as_slice());
    let removed = amendments.removed_contributors.as_slice();
    Ok(unless_removed(Bytes::from_slice(alloc, text)?, removed))
}

// A whole text replaced by one replacement after the other.
fn amend_text<'a>(text: &'a [u8], replacements: &'a [Replacement]) -> &'a [u8]
    ensures { result.now ≡ text_amended replacements.now text.now }
{
    let mut amended = text;
    for replacement in replacements {
        amended = replace_text(amended, replacement);
    }
    amended
}

// The new text in place of the old one, where a whole text is that.
fn replace_text<'a>(text: &'a [u8], replacement: &'a Replacement) -> &'a [u8]
    ensures { result.now ≡ text_replaced text.now replacement.now }
{
    if text == replacement.old.as_slice() {
        replacement.new.as_slice()
    } else {
        text
    }
}

// ---- notices

// The notices amended.
fn amend_notices(
    alloc: Global,
    notices: &[Bytes],
    amendments: &Amendments,
) -> Result<TextSet, AllocError>
    ensures { IfOk result (λ set. set ≡ notices_amended amendments.now notices.now) }
{
    let mut texts = Vec::new(alloc);
    for text in notices {
        push_if(
            &mut texts,
            amend_notice(alloc, text.as_slice(), amendments)?,
        )?;
    }
    Ok(TextSet::new(texts))
}

// Adds a text, if there is one.
fn push_if(texts: &mut Vec<Bytes>, text: Option<Bytes>) -> Result<(), AllocError>
    ensures { OnOk result (texts.new.items ≡ texts.old.items ++ option_to_list text) }
{
    if let Some(text) = text {
        texts.push(text)?;
    }
    Ok(())
}

/// What the amendments make of one notice: none where its holder is removed.
///
/// # Errors
/// There was no memory.
pub fn amend_one_notice(
    alloc: Global,
    text: &[u8],
    amendments: &Amendments,
) -> Result<Option<Bytes>, AllocError>
    ensures { IfOk result (λ amended. amended ≡ notice_amended amendments.now text.now) }
{
    amend_notice(alloc, text, amendments)
}

// What a notice becomes, none where its holder is removed.
fn amend_notice(
    alloc: Global,
    text: &[u8],
    amendments: &Amendments,
) -> Result<Option<Bytes>, AllocError>
    ensures { IfOk result (λ amended. amended ≡ notice_amended amendments.now text.now) }
{
    match read_parts(text) {
        None => Ok(Some(Bytes::from_slice(alloc, text)?)),
        Some(parts) => {
            let holder = amend_text(parts.holder, amendments.replaced_holders.as_slice());
            amend_parts(alloc, amendments, parts, holder)
        }
    }
}

// What a notice becomes whose holder becomes this one, none where it is removed.
fn amend_parts(
    alloc: Global,
    amendments: &Amendments,
    parts: NoticeParts<'_>,
    holder: &[u8],
) -> Result<Option<Bytes>, AllocError>
    ensures { IfOk result (λ amended. amended ≡ holder_amended amendments.now (parts_view parts.entry) holder.now) }
{
    if is_among(amendments.removed_holders.as_slice(), holder) {
        Ok(None)
    } else {
        Ok(Some(write_amended(alloc, amendments, parts, holder)?))
    }
}

// The text of a notice whose holder becomes this one: its own, but for the parts that change.
fn write_amended(
    alloc: Global,
    amendments: &Amendments,
    parts: NoticeParts<'_>,
    holder: &[u8],
) -> Result<Bytes, AllocError>
    ensures { IfOk result
        (λ text. text ≡ parts_text (parts_amended amendments.now (parts_view parts.entry) holder.now)) }
{
    let (until, prefix) = amendments.chosen_for(holder);
    let years = reach(alloc, until, parts.years)?;
    let (first, last) = in_turn(parts.years_first, years.as_slice(), holder);
    let mut text = write_front(alloc, prefix, parts)?;
    text.push_slice(first)?;
    text.push_slice(parts.between)?;
    text.push_slice(last)?;
    text.push_slice(parts.trailing)?;
    Ok(text)
}

// Years and holder, as one of them comes first.
fn in_turn<'a>(years_first: bool, years: &'a [u8], holder: &'a [u8]) -> (&'a [u8], &'a [u8])
    ensures first { result.0.now ≡ (if years_first then years.now else holder.now) }
    ensures last { result.1.now ≡ (if years_first then holder.now else years.now) }
{
    if years_first {
        (years, holder)
    } else {
        (holder, years)
    }
}

// All in front of the years and the holder, with another prefix if one is chosen.
fn write_front(
    alloc: Global,
    prefix: Option<Prefix>,
    parts: NoticeParts<'_>,
) -> Result<Bytes, AllocError>
    ensures { IfOk result
        (λ front. front ≡ option_map_or (front_with (parts_view parts.entry)) prefix (parts_view parts.entry).front) }
{
    match prefix {
        Some(prefix) if !is_front(prefix, parts) => {
            let mut front = Bytes::from_slice(alloc, prefix.text().as_bytes())?;
            front.push_slice(b" ")?;
            Ok(front)
        }
        _ => Bytes::from_slice(alloc, parts.front),
    }
}

// Whether all in front of the years and the holder is this prefix and blank bytes.
fn is_front(prefix: Prefix, parts: NoticeParts<'_>) -> bool
    ensures { result ≡ is_front prefix (parts_view parts.entry) }
{
    let own = parts.prefix.text();
    own == prefix.text()
        && (own.len() >= parts.front.len() || is_all_blank(&parts.front[own.len()..]))
}

// ---- years

// The years, of which the span that ends last reaches a year if one is chosen.
fn reach(alloc: Global, until: Option<u16>, years: &[u8]) -> Result<Bytes, AllocError>
    ensures { IfOk result (λ reached. reached ≡ option_map_or (λ year. years_until year years.now) until years.now) }
{
    match until {
        None => Bytes::from_slice(alloc, years),
        Some(year) => reach_year(alloc, year, years),
    }
}

// Years of which the span that ends last reaches a year.
fn reach_year(alloc: Global, year: u16, years: &[u8]) -> Result<Bytes, AllocError>
    ensures { IfOk result (λ reached. reached ≡ years_until year years.now) }
{
    match read_run(years) {
        None => Bytes::from_slice(alloc, years),
        Some(run) => reach_span(alloc, year, years, run.latest),
    }
}

// Years of which a span reaches a year, if it doesn't yet.
fn reach_span(alloc: Global, year: u16, years: &[u8], span: Span<'_>) -> Result<Bytes, AllocError>
    ensures { IfOk result (λ reached. reached ≡ span_until year years.now (span_view span.entry)) }
{
    if !is_before(year, span.high) {
        return Bytes::from_slice(alloc, years);
    }
    let mut text = Vec::from_slice(alloc, upto(years, span.start))?;
    push_range(&mut text, span.low, year)?;
    text.extend_from_slice(span.rest)?;
    Ok(Bytes::from_vec(text))
}

// Adds years from one to another.
fn push_range(text: &mut Vec<u8>, low: u16, high: u16) -> Result<(), AllocError>
    ensures { OnOk result (text.new.items ≡ text.old.items ++ range_text low high) }
{
    push_year(text, low)?;
    text.extend_from_slice(b" - ")?;
    push_year(text, high)
}

// Whether years end before a year; those that last until today don't.
fn is_before(year: u16, high: Option<u16>) -> bool
    ensures { result ≡ is_before year high }
{
    match high {
        None => false,
        Some(high) => high < year,
    }
}
