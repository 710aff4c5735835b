//! Whether a value is one that amendments leave: one that they replace or remove, and not what the
//! replacement itself writes. It says no more than that: the value need not be one that they can
//! change.
ghost use Rattle.std.specs.Prelude.{◌≡◌};
ghost use Rattle.reuse_amend.specs.Named.{is_new, has_token, is_old_licence, is_left_licence, is_left_text};
ghost use Rattle.reuse_amend.specs.Named.{leaves_licence, leaves_contributor, leaves_holder, leaves_notice};
ghost use Rattle.std.specs.List.{list_any};

use crate::amendments::Amendments;
use crate::notice_parts::read_parts;
use crate::replacements::Replacement;
use crate::replacing::{after_token, front_token, is_identifier};
use reuse_notice::{find_fault, is_among};

/// Whether a value is a licence that is replaced or removed, or an expression with an identifier
/// that is replaced. What a replacement writes isn't left by it.
pub fn leaves_licence(amendments: &Amendments, value: &[u8]) -> bool
    ensures { result ≡ leaves_licence amendments.now value.now }
{
    is_one_left_licence(amendments.replaced_licences.as_slice(), value)
        || is_among(amendments.removed_licences.as_slice(), value)
}

/// Whether a value is a contributor that is replaced or removed. What a replacement writes isn't
/// left by it.
pub fn leaves_contributor(amendments: &Amendments, value: &[u8]) -> bool
    ensures { result ≡ leaves_contributor amendments.now value.now }
{
    is_one_left(amendments.replaced_contributors.as_slice(), value)
        || is_among(amendments.removed_contributors.as_slice(), value)
}

/// Whether a text is a notice whose holder, as amend reads notices, is replaced or removed. What a
/// replacement writes isn't left by it.
pub fn leaves_notice(amendments: &Amendments, notice: &[u8]) -> bool
    ensures { result ≡ leaves_notice amendments.now notice.now }
{
    match read_parts(notice) {
        None => false,
        Some(parts) => leaves_holder(amendments, parts.holder),
    }
}

// Whether a holder is left.
fn leaves_holder(amendments: &Amendments, holder: &[u8]) -> bool
    ensures { result ≡ leaves_holder amendments.now holder.now }
{
    is_one_left(amendments.replaced_holders.as_slice(), holder)
        || is_among(amendments.removed_holders.as_slice(), holder)
}

// Whether one of some replacements leaves a whole text.
fn is_one_left(replacements: &[Replacement], text: &[u8]) -> bool
    ensures { result ≡ list_any (is_left_text text.now) replacements.now }
{
    replacements
        .iter()
        .any(|replacement| is_left_text(text, replacement))
}

// Whether a whole text is the one that is replaced, and not the one that takes its place.
fn is_left_text(text: &[u8], replacement: &Replacement) -> bool
    ensures { result ≡ is_left_text text.now replacement.now }
{
    text == replacement.old.as_slice() && !is_new(text, replacement)
}

// Whether one of some replacements leaves a licence.
fn is_one_left_licence(replacements: &[Replacement], value: &[u8]) -> bool
    ensures { result ≡ list_any (is_left_licence value.now) replacements.now }
{
    replacements
        .iter()
        .any(|replacement| is_left_licence(value, replacement))
}

// Whether a replacement names a licence that it doesn't write.
fn is_left_licence(value: &[u8], replacement: &Replacement) -> bool
    ensures { result ≡ is_left_licence value.now replacement.now }
{
    is_old_licence(value, replacement) && !is_new(value, replacement)
}

// Whether a text is the one that a replacement writes.
fn is_new(text: &[u8], replacement: &Replacement) -> bool
    ensures { result ≡ is_new text.now replacement.now }
{
    text == replacement.new.as_slice()
}

// Whether a licence is the one that is replaced, or an expression with it.
fn is_old_licence(value: &[u8], replacement: &Replacement) -> bool
    ensures { result ≡ is_old_licence value.now replacement.now }
{
    let old = replacement.old.as_slice();
    value == old || (is_identifier(old) && find_fault(value).is_none() && has_token(old, value))
}

// Whether a text has a token that is another text.
fn has_token(token: &[u8], text: &[u8]) -> bool
    ensures { result ≡ has_token token.now text.now }
{
    let mut rest = text;
    while !rest.is_empty() {
        if front_token(rest) == token {
            return true;
        }
        rest = after_token(rest);
    }
    false
}
