//! The merge of notices: those of one holder become one.
ghost use Rattle.std.specs.Prelude.{◌≡◌, IfOk, List, ℕ, Some, unwrap_or};
ghost use Rattle.std.specs.Option.{option_and_then};
ghost use Rattle.reuse_notice.specs.Tags.{notice_of};
ghost use Rattle.reuse_notice.specs.TagViews.{notice_view};
ghost use Rattle.reuse_notice.specs.Merging.{class_of, joined_years, same_years, says, merged};
ghost use Rattle.reuse_notice.specs.MergeSteps.{is_among, grown, summary, summed_text, class_at, has_text};

use crate::adding::write_notice;
use crate::prefixes::Prefix;
use crate::tags::{Notice, Years, read_notice};
use crate::text_lists::TextSet;
use reuse_text::Bytes;
use std::alloc::{AllocError, Global};
use std::collections::{BTreeMap, BTreeSet};

// What the notices of one holder say together: whether there are two or more, their years from the
// lowest to the highest, the prefix of the first of them, and that of the first that is the
// command's.
#[derive(Clone, Copy)]
pub(crate) struct Class {
    pub(crate) several: bool,
    pub(crate) years: Option<Years>,
    pub(crate) first: Prefix,
    pub(crate) commanded: Option<Prefix>,
}

// The notices merged, where `command` has those of the command.
pub(crate) fn merge_notices(
    alloc: Global,
    notices: &[Bytes],
    command: &[Bytes],
) -> Result<TextSet, AllocError>
    ensures { IfOk result (λ set. set ≡ merged command.now notices.now) }
{
    let classes = gather_classes(alloc, notices, command)?;
    let mut texts = Vec::new(alloc);
    for text in notices {
        texts.push(merge_one(alloc, text.as_slice(), &classes)?)?;
    }
    Ok(TextSet::new(texts))
}

// The class of each holder.
fn gather_classes<'a>(
    alloc: Global,
    notices: &'a [Bytes],
    command: &[Bytes],
) -> Result<BTreeMap<&'a [u8], Class>, AllocError>
    ensures { IfOk result
        (λ classes. (holder : List ℕ) → class_at classes holder ≡ summary command.now (class_of notices.now holder)) }
{
    let commanded = gather_texts(alloc, command)?;
    let mut classes = BTreeMap::new(alloc);
    for text in notices {
        if let Some(notice) = read_notice(text.as_slice()) {
            let is_commanded = commanded.contains(notice.text);
            let old = classes.get(notice.holder).copied();
            classes.insert(notice.holder, grow_class(old, is_commanded, notice))?;
        }
    }
    Ok(classes)
}

// The set of the texts.
fn gather_texts(alloc: Global, texts: &[Bytes]) -> Result<BTreeSet<&[u8]>, AllocError>
    ensures { IfOk result (λ set. (text : List ℕ) → has_text set text ≡ is_among texts.now text) }
{
    let mut set = BTreeSet::new(alloc);
    for text in texts {
        set.insert(text.as_slice())?;
    }
    Ok(set)
}

// A class with one notice more.
fn grow_class(class: Option<Class>, is_commanded: bool, notice: Notice<'_>) -> Class
    ensures { result ≡ grown class is_commanded (notice_view notice.entry) }
{
    let commanded = if is_commanded {
        Some(notice.prefix)
    } else {
        None
    };
    match class {
        None => Class {
            several: false,
            years: notice.years,
            first: notice.prefix,
            commanded,
        },
        Some(class) => Class {
            several: true,
            years: join_years(class.years, notice.years),
            first: class.first,
            commanded: class.commanded.or(commanded),
        },
    }
}

// Years from the lower to the higher of two, where there are any.
fn join_years(a: Option<Years>, b: Option<Years>) -> Option<Years>
    ensures { result ≡ joined_years a b }
{
    match (a, b) {
        (None, b) => b,
        (Some(a), None) => Some(a),
        (Some(a), Some(b)) => Some(Years {
            low: a.low.min(b.low),
            high: a.high.max(b.high),
        }),
    }
}

// What a notice becomes: the text of its class, or else itself.
fn merge_one(
    alloc: Global,
    text: &[u8],
    classes: &BTreeMap<&[u8], Class>,
) -> Result<Bytes, AllocError>
    ensures { IfOk result (λ merged. merged ≡ unwrap_or
        (option_and_then (λ n. summed_text (class_at classes.now n.holder) n.holder) (notice_of text.now)) text.now) }
{
    if let Some(notice) = read_notice(text) {
        if let Some(class) = classes.get(notice.holder) {
            if let Some(merged) = settle_class(alloc, *class, notice.holder)? {
                return Ok(merged);
            }
        }
    }
    Bytes::from_slice(alloc, text)
}

// The text that a class of two or more becomes, if it reads back.
fn settle_class(alloc: Global, class: Class, holder: &[u8]) -> Result<Option<Bytes>, AllocError>
    ensures { IfOk result (λ text. text ≡ summed_text (Some class) holder.now) }
{
    if !class.several {
        return Ok(None);
    }
    let prefix = class.commanded.unwrap_or(class.first);
    let text = write_notice(alloc, prefix, class.years, holder)?;
    if reads_as(text.as_slice(), prefix, class.years, holder) {
        Ok(Some(text))
    } else {
        Ok(None)
    }
}

// Whether a text reads as a notice with this prefix, these years and this holder.
fn reads_as(text: &[u8], prefix: Prefix, years: Option<Years>, holder: &[u8]) -> bool
    ensures { result ≡ says prefix years holder.now (notice_of text.now) }
{
    match read_notice(text) {
        None => false,
        Some(notice) => says(notice, prefix, years, holder),
    }
}

// Whether a notice has this prefix, these years and this holder.
fn says(notice: Notice<'_>, prefix: Prefix, years: Option<Years>, holder: &[u8]) -> bool
    ensures { result ≡ says prefix years holder.now (Some (notice_view notice.entry)) }
{
    notice.prefix.text() == prefix.text()
        && are_same_years(notice.years, years)
        && notice.holder == holder
}

// Whether two notices have the same years.
fn are_same_years(a: Option<Years>, b: Option<Years>) -> bool
    ensures { result ≡ same_years a b }
{
    match (a, b) {
        (None, None) => true,
        (Some(a), Some(b)) => a.low == b.low && a.high == b.high,
        _ => false,
    }
}
