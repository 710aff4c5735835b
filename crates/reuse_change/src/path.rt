//! Paths of a tree, as text.
ghost use Rattle.std.specs.Prelude.{◌≡◌, List, ℕ, IfOk, IsTrue, IsErrOf, ◌↔◌, false, string_bytes, slice_index, nat_eq};
ghost use Rattle.std.specs.Prelude.{refl, Some};
ghost use Rattle.std.specs.Ordering.{nat_cmp};
ghost use Rattle.std.specs.Cmp.{partial_equiv_from_equiv};
ghost use Rattle.std.specs.Cmp.Lexicographic.{slice_cmp, pointwise, nat_list_eq_equiv, nat_list_cmp_total, texts_po};
ghost use Rattle.std.specs.Cmp.Lexicographic.{texts_ties};
ghost use Rattle.reuse_change.specs.Path.{is_path, is_part, has_no_nul, has_good_parts, lies_under, journal_folder};

use crate::layout::JOURNAL;
use std::alloc::{AllocError, Global};
use std::cmp::Ordering;
use std::marker::Model;
use thiserror::Error;

const LONGEST_PATH: usize = 4096;

/// Why a text was not taken as a path.
#[derive(Debug, Drop, Error)]
pub enum PathError {
    /// It has no bytes, more than 4,096, a NUL, or a part that is empty, `.` or `..`.
    #[error("bad path")]
    BadPath,
    /// Memory ran out.
    #[error("out of memory")]
    Memory,
}

/// A path of 1 to 4,096 bytes without NUL, in parts separated by `/`, none of which is empty, `.`
/// or `..`.
#[derive(Debug, Drop)]
pub struct PathText {
    text: String,
}

impl Model for PathText {
    ghost Value = { List ℕ };

    ghost view = { λ p. string_bytes p.text };

    ghost invariant = { λ p. IsTrue (is_path (string_bytes p.text)) };
}

impl PartialEq for PathText {
    ghost eq = { pointwise nat_eq };

    ghost laws = { partial_equiv_from_equiv nat_list_eq_equiv };

    fn eq(&self, other: &PathText) -> bool {
        self.as_bytes() == other.as_bytes()
    }
}

impl Eq for PathText {
    ghost laws = { nat_list_eq_equiv };
}

impl PartialOrd for PathText {
    ghost partial_cmp = { λ path other. Some (slice_cmp nat_cmp path other) };

    ghost laws = { texts_po };

    fn partial_cmp(&self, other: &PathText) -> Option<Ordering> {
        Some(self.cmp(other))
    }
}

/// In byte order.
impl Ord for PathText {
    ghost cmp = { slice_cmp nat_cmp };

    ghost total = { nat_list_cmp_total };

    ghost matches_partial_cmp = { λ path other. refl };

    ghost matches_eq = { texts_ties };

    fn cmp(&self, other: &PathText) -> Ordering {
        self.as_bytes().cmp(&other.as_bytes())
    }
}

impl PathText {
    /// The text as a path.
    pub fn new(alloc: Global, text: &str) -> Result<PathText, PathError>
        ensures ok { IfOk result (λ path. path ≡ text.now) }
        ensures bad { IsErrOf result PathError.BadPath ↔ (is_path text.now ≡ false) }
    {
        if !is_path(text.as_bytes()) {
            return Err(PathError::BadPath);
        }
        match String::from_str(alloc, text) {
            Ok(text) => Ok(PathText { text }),
            Err(_) => Err(PathError::Memory),
        }
    }

    /// Lends the text.
    pub fn text(&self) -> &str
        ensures text { result.now ≡ self.now }
        ensures path { IsTrue (is_path self.now) }
    {
        self.text.as_str()
    }

    /// Lends the text's bytes.
    pub fn as_bytes(&self) -> &[u8]
        ensures bytes { result.now ≡ self.now }
        ensures path { IsTrue (is_path self.now) }
    {
        self.text.as_bytes()
    }

    /// A copy.
    pub fn try_clone(&self, alloc: Global) -> Result<PathText, AllocError>
        ensures { IfOk result (λ path. path ≡ self.now) }
    {
        let text = String::from_str(alloc, self.text())?;
        Ok(PathText { text })
    }

    /// Whether this path lies under the folder, at any depth.
    pub fn lies_under(&self, folder: &PathText) -> bool
        ensures { result ≡ lies_under self.now folder.now }
    {
        bytes_lie_under(self.as_bytes(), folder.as_bytes())
    }

    /// Whether this path lies under the folder of this text, at any depth.
    pub fn lies_under_text(&self, folder: &str) -> bool
        ensures { result ≡ lies_under self.now folder.now }
    {
        bytes_lie_under(self.as_bytes(), folder.as_bytes())
    }

    /// Whether this path lies under `.reuse/undo`, the folder of the journal.
    pub fn is_in_journal(&self) -> bool
        ensures { result ≡ lies_under self.now journal_folder }
    {
        bytes_lie_under(self.as_bytes(), JOURNAL.as_bytes())
    }
}

fn bytes_lie_under(path: &[u8], folder: &[u8]) -> bool
    ensures { result ≡ lies_under path.now folder.now }
{
    path.starts_with(folder) && byte_at(path, folder.len()) == b'/'
}

// The byte at a place, or 0 past the end.
fn byte_at(bytes: &[u8], at: usize) -> u8
    ensures { result ≡ slice_index bytes.now at }
{
    if at < bytes.len() { bytes[at] } else { 0 }
}

fn is_part(part: &[u8]) -> bool
    ensures { result ≡ is_part part.now }
{
    !part.is_empty() && part != b".".as_slice() && part != b"..".as_slice()
}

fn has_no_nul(text: &[u8]) -> bool
    ensures { result ≡ has_no_nul text.now }
{
    text.iter().all(|byte| *byte != 0)
}

fn has_good_parts(text: &[u8]) -> bool
    ensures { result ≡ has_good_parts text.now }
{
    text.split(|byte| *byte == b'/').all(|part| is_part(part))
}

fn is_path(text: &[u8]) -> bool
    ensures { result ≡ is_path text.now }
{
    0 < text.len() && text.len() <= LONGEST_PATH && has_no_nul(text) && has_good_parts(text)
}
