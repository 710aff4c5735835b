//! Whether amendments may change a file, by the bytes of the file alone, so that most files need
//! not be read further.
ghost use Rattle.std.specs.Prelude.{◌≡◌};
ghost use Rattle.reuse_amend.specs.Searched.{holds_any, holds_old, holds_named, may_change};

use crate::amendments::Amendments;
use crate::replacements::Replacement;
use reuse_notice::has_part;
use reuse_text::Bytes;

/// Whether the amendments set years or a prefix, or the bytes hold a text that they replace or
/// remove. A file of which this is false says nothing that they name.
pub fn may_change(amendments: &Amendments, bytes: &[u8]) -> bool
    ensures { result ≡ may_change amendments.now bytes.now }
{
    amendments.until.is_some() || amendments.prefix.is_some() || holds_named(amendments, bytes)
}

/// Whether the bytes hold a text that the amendments replace or remove.
pub fn holds_named(amendments: &Amendments, bytes: &[u8]) -> bool
    ensures { result ≡ holds_named amendments.now bytes.now }
{
    holds_old(amendments.replaced_licences.as_slice(), bytes)
        || holds_any(amendments.removed_licences.as_slice(), bytes)
        || holds_old(amendments.replaced_holders.as_slice(), bytes)
        || holds_any(amendments.removed_holders.as_slice(), bytes)
        || holds_old(amendments.replaced_contributors.as_slice(), bytes)
        || holds_any(amendments.removed_contributors.as_slice(), bytes)
}

// Whether bytes hold one of some texts.
fn holds_any(texts: &[Bytes], bytes: &[u8]) -> bool
    ensures { result ≡ holds_any texts.now bytes.now }
{
    texts.iter().any(|text| has_part(bytes, text.as_slice()))
}

// Whether bytes hold one of the texts that are replaced.
fn holds_old(replacements: &[Replacement], bytes: &[u8]) -> bool
    ensures { result ≡ holds_old replacements.now bytes.now }
{
    replacements
        .iter()
        .any(|replacement| has_part(bytes, replacement.old.as_slice()))
}
