//! The files that hold the texts of licences.
ghost use Rattle.std.specs.Prelude.{◌≡◌, ◌≤◌, true, length, IfOk};
ghost use Rattle.std.specs.Option.{option_copied};
ghost use Rattle.reuse_edit.specs.Licence.{is_id, licence_path, licence_id};
ghost use Rattle.reuse_edit.specs.Licence.{text_for};

use reuse_change::PathText;
use reuse_command::known_path::known_path;
use reuse_command::licence::LicenceText;
use reuse_text::Bytes;
use std::alloc::{AllocError, Global};

/// The path of the file that holds the text of a licence (REUSE Specification 3.3).
pub fn licence_path(alloc: Global, id: &str) -> Result<PathText, AllocError>
    requires { is_id id.now ≡ true }
    ensures { IfOk result (λ path. path ≡ licence_path id.now) }
{
    let mut text = String::from_str(alloc, "LICENSES/")?;
    text.push_str(id)?;
    text.push_str(".txt")?;
    known_path(alloc, text.as_str())
}

/// The id of the licence whose text stands at the path.
pub fn licence_id(path: &[u8]) -> &[u8]
    requires { 13 ≤ length path.now }
    ensures { result.now ≡ licence_id path.now }
{
    &path[9..path.len() - 4]
}

/// The text that was found for an id: the first that is given for it counts.
pub fn text_for<'a>(texts: &'a [LicenceText], id: &[u8]) -> Option<&'a Bytes>
    ensures { option_copied result ≡ text_for texts.now id.now }
{
    for given in texts {
        if given.id.as_slice() == id {
            return given.text.as_ref();
        }
    }
    None
}
