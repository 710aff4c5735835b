//! The pieces of a TOML text, from the front on: comments, strings, words and single bytes. Put
//! together they are the text, whether or not it is TOML.
ghost use Rattle.std.specs.Prelude.{◌≡◌, ◌<◌, ◌≤◌, length, take, drop, false, ◌==◌, ◌||◌, nat_le};
ghost use Rattle.std.specs.List.{prefix_len};
ghost use Rattle.reuse_toml.specs.TomlPieces.{is_word_byte, is_quote, kind_of_byte, kind_of, string_step, string_len};
ghost use Rattle.reuse_toml.specs.TomlPieces.{is_multi_line, quoted_len, is_no_line_end, first_len, piece_len};

/// What a piece is.
#[derive(Clone, Copy, Debug, PartialEq, Eq)]
pub(crate) enum PieceKind {
    /// A blank, a comment, or the byte order mark.
    Gap,
    /// A line feed.
    LineEnd,
    /// `[`
    Open,
    /// `]`
    Close,
    /// `{`
    OpenBrace,
    /// `}`
    CloseBrace,
    /// `,`
    Comma,
    /// `=`
    Equals,
    /// A string.
    Text,
    /// A word, or a byte that is none of these.
    Other,
}

fn is_word_byte(b: u8) -> bool
    ensures { result ≡ is_word_byte b }
{
    b.is_ascii_alphanumeric() || b == b'-' || b == b'_'
}

fn is_quote(b: u8) -> bool
    ensures { result ≡ is_quote b }
{
    b == b'"' || b == b'\''
}

fn is_gap(b: u8) -> bool
    ensures { result ≡ (b == 32 || b == 9 || b == 13 || b == 35 || nat_le 128 b) }
{
    b == b' ' || b == b'\t' || b == b'\r' || b == b'#' || b >= 128
}

fn kind_of_byte(b: u8) -> PieceKind
    ensures { result ≡ kind_of_byte b }
{
    if is_gap(b) {
        PieceKind::Gap
    } else if b == b'\n' {
        PieceKind::LineEnd
    } else if b == b'[' {
        PieceKind::Open
    } else if b == b']' {
        PieceKind::Close
    } else if b == b'{' {
        PieceKind::OpenBrace
    } else if b == b'}' {
        PieceKind::CloseBrace
    } else if b == b',' {
        PieceKind::Comma
    } else if b == b'=' {
        PieceKind::Equals
    } else if is_quote(b) {
        PieceKind::Text
    } else {
        PieceKind::Other
    }
}

// What a piece is, by its first byte.
pub(crate) fn piece_kind(piece: &[u8]) -> PieceKind
    ensures { result ≡ kind_of piece.now }
{
    match piece.split_first() {
        None => PieceKind::Gap,
        Some((b, _)) => kind_of_byte(*b),
    }
}

// One byte more of a string: how many quotes are left, and whether the next byte is escaped.
fn string_step(quote: u8, need: usize, state: (usize, bool), b: u8) -> Option<(usize, bool)>
    ensures { result ≡ string_step quote need state b }
{
    let (left, is_escaped) = state;
    if is_escaped {
        return Some((need, false));
    }
    if b == quote {
        return Some((left.saturating_sub(1), false));
    }
    if left == 0 {
        return None;
    }
    Some((need, b == b'\\' && quote == b'"'))
}

// How many bytes belong to a string behind its opening quotes.
fn string_len(quote: u8, need: usize, text: &[u8]) -> usize
    ensures within { result ≤ length text.now }
    ensures count { result ≡ string_len quote need (need, false) text.now }
{
    let mut state = (need, false);
    for (i, b) in text.iter().enumerate() {
        match string_step(quote, need, state, *b) {
            None => return i,
            Some(next) => state = next,
        }
    }
    text.len()
}

// Whether a string may go over lines.
pub(crate) fn is_multi_line(quote: u8, text: &[u8]) -> bool
    ensures { result ≡ is_multi_line quote text.now }
{
    text.starts_with(&[quote, quote, quote])
}

// How many bytes a string has.
fn quoted_len(quote: u8, text: &[u8]) -> usize
    requires { 0 < length text.now }
    ensures some { 0 < result }
    ensures within { result ≤ length text.now }
    ensures count { result ≡ quoted_len quote text.now }
{
    if is_multi_line(quote, text) {
        3 + string_len(quote, 3, &text[3..])
    } else {
        1 + string_len(quote, 1, &text[1..])
    }
}

// How many bytes there are before the line ends.
fn comment_len(text: &[u8]) -> usize
    ensures within { result ≤ length text.now }
    ensures count { result ≡ prefix_len is_no_line_end text.now }
{
    text.iter().take_while(|b| **b != b'\n').count()
}

// How many bytes of words there are.
fn word_len(text: &[u8]) -> usize
    ensures within { result ≤ length text.now }
    ensures count { result ≡ prefix_len is_word_byte text.now }
{
    text.iter().take_while(|b| is_word_byte(**b)).count()
}

// How many bytes the first piece has.
fn piece_len(text: &[u8]) -> usize
    requires { 0 < length text.now }
    ensures some { 0 < result }
    ensures within { result ≤ length text.now }
    ensures count { result ≡ piece_len text.now }
{
    let b = text[0];
    if b == b'#' {
        1 + comment_len(&text[1..])
    } else if is_quote(b) {
        quoted_len(b, text)
    } else if is_word_byte(b) {
        1 + word_len(&text[1..])
    } else {
        1
    }
}

// The first piece, and what follows it.
pub(crate) fn split_piece(text: &[u8]) -> (&[u8], &[u8])
    requires { 0 < length text.now }
    ensures some { 0 < piece_len text.now }
    ensures within { piece_len text.now ≤ length text.now }
    ensures front { result.0.now ≡ take (piece_len text.now) text.now }
    ensures rest { result.1.now ≡ drop (piece_len text.now) text.now }
{
    text.split_at(piece_len(text))
}
