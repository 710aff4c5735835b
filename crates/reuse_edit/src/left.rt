//! What amend does at a path, and whether it leaves the path: whether what tells its licensing
//! still holds a value that the call names.
ghost use Rattle.std.specs.Prelude.{◌≡◌, ◌+◌, ◌-◌, ◌≤◌, ℕ, List, IfOk, Some, length};
ghost use Rattle.reuse_text.specs.Text.{spliced};
ghost use Rattle.reuse_text.specs.declared.TheConstants.{LONGEST_FILE};
ghost use Rattle.reuse_command.specs.Reading.{reading_of};
ghost use Rattle.reuse_edit.specs.Left.{still_names};

use reuse_amend::Amendments;
use reuse_change::Change;
use reuse_header::Splice;
use reuse_store::Reading;
use reuse_tags::leaves;
use reuse_text::{LONGEST_FILE, is_text, splice};
use std::alloc::{AllocError, Global};

/// What amend does at a path.
#[derive(Drop)]
pub struct Amended {
    /// The change of the path, if there is one.
    pub change: Option<Change>,
    /// Whether it leaves the path.
    pub is_left: bool,
}

/// Whether bytes are a text in which a value stands that the amendments name.
pub(crate) fn still_names(amendments: &Amendments, bytes: &[u8]) -> bool
    ensures { result ≡ still_names amendments.now bytes.now }
{
    bytes.len() <= LONGEST_FILE && leaves(amendments, bytes) && is_text(bytes)
}

/// Whether it is so of a file of these bytes behind a change of it.
pub(crate) fn still_names_behind(
    alloc: Global,
    amendments: &Amendments,
    file: &[u8],
    made: &Splice,
) -> Result<bool, AllocError>
    requires within { made.now.at + length made.now.old ≤ length file.now }
    requires fits { length file.now - length made.now.old + length made.now.new ≤ LONGEST_FILE }
    ensures { IfOk result (λ names. names
        ≡ still_names amendments.now (spliced file.now made.now.at (length made.now.old) made.now.new)) }
{
    let text = splice(alloc, file, made.at, made.old.len(), made.new.as_slice())?;
    Ok(still_names(amendments, &text))
}

/// Whether it is so of a file, by what was read of it.
pub(crate) fn still_names_read(amendments: &Amendments, reading: &Reading) -> bool
    ensures { (bytes : List ℕ) → reading.now ≡ reading_of (Some bytes) LONGEST_FILE
        → result ≡ still_names amendments.now bytes }
{
    match reading {
        Reading::Found(bytes) => still_names(amendments, bytes.as_slice()),
        Reading::Absent | Reading::TooLong => false,
    }
}
