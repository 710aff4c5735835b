//! An identifier of a licence expression, replaced by an expression. All else of the text stays
//! byte for byte, and the result is answered only where it is an expression again.
ghost use Rattle.std.specs.Prelude.{◌≡◌, ◌++◌, ◌<◌, IfOk, length, take, drop};
ghost use Rattle.std.specs.Prelude.{◌&&◌, ◌||◌, not, if◌then◌else◌};
ghost use Rattle.std.specs.Str.{bytes_eq};
ghost use Rattle.reuse_notice.specs.Expressions.{token_len};
ghost use Rattle.reuse_amend.specs.Pieces.{is_identifier, has_operator, is_operator, is_name};
ghost use Rattle.reuse_amend.specs.Amending.{operand, is_behind_with, piece_replaced, expression_replaced};
ghost use Rattle.reuse_amend.specs.Amending.{licence_replaced, licence_amended};
ghost use Rattle.reuse_amend.specs.AmendmentViews.{IsAnswer};

use crate::amendments::AmendRefusal;
use crate::replacements::Replacement;
use reuse_notice::{Token, count_token, find_fault, read_token};
use reuse_text::Bytes;
use std::alloc::{AllocError, Global};

// The bytes of the token, or of the stray byte, at the front.
pub(crate) fn front_token(bytes: &[u8]) -> &[u8]
    requires { 0 < length bytes.now }
    ensures { result.now ≡ take (token_len bytes.now) bytes.now }
{
    &bytes[..count_token(bytes)]
}

// The bytes behind it.
pub(crate) fn after_token(bytes: &[u8]) -> &[u8]
    requires { 0 < length bytes.now }
    ensures rest { result.now ≡ drop (token_len bytes.now) bytes.now }
    ensures some { 0 < token_len bytes.now }
    ensures shorter { length result.now < length bytes.now }
{
    &bytes[count_token(bytes)..]
}

// Whether a whole text is one identifier.
pub(crate) fn is_identifier(text: &[u8]) -> bool
    ensures { result ≡ is_identifier text.now }
{
    if text.is_empty() {
        return false;
    }
    is_name(read_token(text)) && count_token(text) == text.len()
}

// Whether a token is a licence or an exception.
fn is_name(token: Token) -> bool
    ensures { result ≡ is_name token }
{
    matches!(token, Token::Identifier(_))
}

// Whether a token is AND, OR or WITH.
fn is_operator(token: Token) -> bool
    ensures { result ≡ is_operator token }
{
    matches!(token, Token::Operator | Token::With)
}

// Whether AND, OR or WITH stands in a text.
fn has_operator(text: &[u8]) -> bool
    ensures { result ≡ has_operator text.now }
{
    let mut rest = text;
    while !rest.is_empty() {
        if is_operator(read_token(rest)) {
            return true;
        }
        rest = after_token(rest);
    }
    false
}

// An expression as an operand of another: in parentheses, if it has an operator.
fn write_operand(alloc: Global, text: &[u8]) -> Result<Bytes, AllocError>
    ensures { IfOk result (λ written. written ≡ operand text.now) }
{
    if !has_operator(text) {
        return Bytes::from_slice(alloc, text);
    }
    let mut written = Bytes::from_slice(alloc, b"(")?;
    written.push_slice(text)?;
    written.push_slice(b")")?;
    Ok(written)
}

// Whether an exception comes next.
fn is_behind_with(before: bool, token: Token) -> bool
    ensures { result ≡ is_behind_with before token }
{
    match token {
        Token::With => true,
        Token::Stray => before,
        _ => false,
    }
}

// An expression with each token that is the old text replaced.
fn replace_tokens(
    alloc: Global,
    text: &[u8],
    replacement: &Replacement,
) -> Result<Bytes, AllocError>
    ensures { IfOk result (λ replaced. replaced ≡ expression_replaced replacement.now text.now) }
{
    let operand = write_operand(alloc, replacement.new.as_slice())?;
    let is_alone = is_identifier(replacement.new.as_slice());
    let mut replaced = Bytes::new(alloc);
    let mut rest = text;
    let mut behind_with = false;
    while !rest.is_empty() {
        let piece = choose_piece(
            front_token(rest),
            replacement.old.as_slice(),
            operand.as_slice(),
            is_alone,
            behind_with,
        );
        replaced.push_slice(piece)?;
        behind_with = is_behind_with(behind_with, read_token(rest));
        rest = after_token(rest);
    }
    Ok(replaced)
}

// The new text for a piece that is the old one, where it may be replaced: behind WITH by an
// identifier alone.
fn choose_piece<'a>(
    piece: &'a [u8],
    old: &[u8],
    new: &'a [u8],
    is_alone: bool,
    behind_with: bool,
) -> &'a [u8]
    ensures { result.now
        ≡ (if bytes_eq piece.now old.now && (is_alone || not behind_with) then new.now else piece.now) }
{
    if piece == old && (is_alone || !behind_with) {
        new
    } else {
        piece
    }
}

// What a licence becomes by a replacement.
fn replace_licence(
    alloc: Global,
    value: &[u8],
    replacement: &Replacement,
) -> Result<Bytes, AmendRefusal>
    ensures { IsAnswer (licence_replaced replacement.now value.now) result }
{
    let old = replacement.old.as_slice();
    if value == old {
        return Ok(replacement.new.try_clone(alloc)?);
    }
    if !is_identifier(old) || find_fault(value).is_some() {
        return Ok(Bytes::from_slice(alloc, value)?);
    }
    let replaced = replace_tokens(alloc, value, replacement)?;
    if find_fault(replaced.as_slice()).is_some() {
        return Err(AmendRefusal::BadExpression);
    }
    Ok(replaced)
}

// What a licence becomes by one replacement after the other.
pub(crate) fn amend_licence(
    alloc: Global,
    value: &[u8],
    replacements: &[Replacement],
) -> Result<Bytes, AmendRefusal>
    ensures { IsAnswer (licence_amended replacements.now value.now) result }
{
    let mut text = Bytes::from_slice(alloc, value)?;
    for replacement in replacements {
        text = match replace_licence(alloc, text.as_slice(), replacement) {
            Ok(next) => next,
            Err(refusal) => return Err(refusal),
        };
    }
    Ok(text)
}
