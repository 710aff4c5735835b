//! Where a tag's value ends: before the blanks, the quotes and the closers at its line's end.
ghost use Rattle.std.specs.Prelude.{◌≡◌, option_map};
ghost use Rattle.reuse_notice.specs.Tags.{drop_end};
ghost use Rattle.reuse_tags.specs.Ends.{before, is_quote, is_blank_or_quote, is_slash, if_quoted, before_comment_end};
ghost use Rattle.reuse_tags.specs.Ends.{before_element_end, before_bracket_end, before_closer, ended};

use reuse_notice::{is_blank_byte, trim_blank_end, trim_end_with};

/// A text up to the blanks, quotes and closers at its end.
pub(crate) fn trim_closers(text: &[u8]) -> &[u8]
    ensures { result.now ≡ ended text.now }
{
    let mut rest = trim_blanks_and_quotes(text);
    for _count in 0..text.len() {
        match before_closer(rest) {
            None => return rest,
            Some(front) => rest = trim_blanks_and_quotes(front),
        }
    }
    rest
}

// What stands in front of an ending, if a text ends with it.
fn before<'a>(ending: &[u8], text: &'a [u8]) -> Option<&'a [u8]>
    ensures { option_map (λ front. front.now) result ≡ before ending.now text.now }
{
    if text.ends_with(ending) {
        Some(&text[..text.len() - ending.len()])
    } else {
        None
    }
}

fn is_quote(b: u8) -> bool
    ensures { result ≡ is_quote b }
{
    b == b'"' || b == b'\''
}

fn is_blank_or_quote(b: u8) -> bool
    ensures { result ≡ is_blank_or_quote b }
{
    is_blank_byte(b) || is_quote(b)
}

fn is_slash(b: u8) -> bool
    ensures { result ≡ is_slash b }
{
    b == b'/'
}

// A text up to the last byte that is neither blank nor a quote.
fn trim_blanks_and_quotes(text: &[u8]) -> &[u8]
    ensures { result.now ≡ drop_end is_blank_or_quote text.now }
{
    trim_end_with(text, is_blank_or_quote)
}

// A text up to the last byte that is no slash.
fn trim_slashes(text: &[u8]) -> &[u8]
    ensures { result.now ≡ drop_end is_slash text.now }
{
    trim_end_with(text, is_slash)
}

// A text that ends in a quote.
fn if_quoted(text: &[u8]) -> Option<&[u8]>
    ensures { option_map (λ quoted. quoted.now) result ≡ if_quoted text.now }
{
    if text.ends_with(b"\"") || text.ends_with(b"'") {
        Some(text)
    } else {
        None
    }
}

// What stands in front of what closes a comment.
fn before_comment_end(text: &[u8]) -> Option<&[u8]>
    ensures { option_map (λ front. front.now) result ≡ before_comment_end text.now }
{
    if let Some(front) = before(b"*/", text) {
        return Some(front);
    }
    if let Some(front) = before(b"-->", text) {
        return Some(front);
    }
    before(b"*)", text)
}

// What stands in front of what closes an element behind a quoted value.
fn before_element_end(text: &[u8]) -> Option<&[u8]>
    ensures { option_map (λ front. front.now) result ≡ before_element_end text.now }
{
    let front = before(b">", text)?;
    if_quoted(trim_blank_end(trim_slashes(front)))
}

// What stands in front of what closes a value in brackets.
fn before_bracket_end(text: &[u8]) -> Option<&[u8]>
    ensures { option_map (λ front. front.now) result ≡ before_bracket_end text.now }
{
    let front = before(b"::", text)?;
    before(b"]", trim_blank_end(front))
}

// What stands in front of one of them.
fn before_closer(text: &[u8]) -> Option<&[u8]>
    ensures { option_map (λ front. front.now) result ≡ before_closer text.now }
{
    if let Some(front) = before_comment_end(text) {
        return Some(front);
    }
    if let Some(front) = before_element_end(text) {
        return Some(front);
    }
    before_bracket_end(text)
}
