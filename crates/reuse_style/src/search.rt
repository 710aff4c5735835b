//! Where a text stands in bytes.
ghost use Rattle.std.specs.Prelude.{◌≡◌, ◌+◌, ◌≤◌, IfSome, length};
ghost use Rattle.reuse_style.specs.Search.{place_of, holds};

use memchr::memchr;

/// The place at which a text first stands in bytes. Texts are short, so each place of the first
/// byte is tried.
pub fn find_text(bytes: &[u8], text: &[u8]) -> Option<usize>
    ensures place { result ≡ place_of text.now bytes.now }
    ensures within { IfSome result (λ place. place + length text.now ≤ length bytes.now) }
{
    let Some(first) = text.first() else {
        return Some(0);
    };
    if bytes.len() < text.len() {
        return None;
    }
    // From this place on the text does not fit.
    let end = bytes.len() - text.len() + 1;
    let mut start = 0;
    while start < end {
        let place = start + memchr(*first, &bytes[start..end])?;
        if bytes[place..].starts_with(text) {
            return Some(place);
        }
        start = place + 1;
    }
    None
}

/// Whether bytes hold a text.
pub fn holds(bytes: &[u8], text: &[u8]) -> bool
    ensures { result ≡ holds text.now bytes.now }
{
    find_text(bytes, text).is_some()
}
