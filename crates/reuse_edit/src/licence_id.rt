//! Ids of licences.
ghost use Rattle.std.specs.Prelude.{◌≡◌, MatchOption, true, false};
ghost use Rattle.std.specs.List.{list_all};
ghost use Rattle.reuse_edit.specs.Licence.{is_id, is_id_byte};

const LONGEST_ID: usize = 200;

/// Whether a text is the id of a licence: 1 to 200 ASCII letters, digits, `.` and `-`.
pub fn is_id(text: &str) -> bool
    ensures { result ≡ is_id text.now }
{
    0 < text.len() && text.len() <= LONGEST_ID && has_id_bytes(text.as_bytes())
}

fn has_id_bytes(text: &[u8]) -> bool
    ensures { result ≡ list_all is_id_byte text.now }
{
    text.iter().all(|byte| is_id_byte(*byte))
}

fn is_id_byte(byte: u8) -> bool
    ensures { result ≡ is_id_byte byte }
{
    byte.is_ascii_alphanumeric() || byte == b'.' || byte == b'-'
}

/// Bytes as the id of a licence, if they are one.
pub fn as_id(bytes: &[u8]) -> Option<&str>
    ensures { MatchOption result (is_id bytes.now ≡ false) (λ id. (id.now ≡ bytes.now) × (is_id bytes.now ≡ true)) }
{
    match str::from_utf8(bytes) {
        Ok(text) => if is_id(text) { Some(text) } else { None },
        Err(_) => None,
    }
}
