//! Documents of a project's own files.
ghost use Rattle.std.specs.Prelude.{◌≡◌, IfOk};
ghost use Rattle.std.specs.Option.{option_map};
ghost use Rattle.toml.specs.View.{view, table_view};
ghost use Rattle.reuse_style.specs.Documents.{read_document, is_version};

use std::alloc::{AllocError, Global};
use toml::{Table, Value};

/// The document that a file is, if it is TOML.
pub(crate) fn read_document(alloc: Global, file: &[u8]) -> Result<Option<Table>, AllocError>
    ensures { IfOk result (λ document. option_map table_view document ≡ read_document file.now) }
{
    match toml::table_from_slice(alloc, file) {
        Ok(document) => Ok(Some(document)),
        Err(error) => if error.is_memory() {
            Err(AllocError)
        } else {
            Ok(None)
        },
    }
}

/// Whether a value is the version of a file's form.
pub(crate) fn is_version(version: &Value) -> bool
    ensures { result ≡ is_version (view version.now) }
{
    version.as_integer() == Some(1)
}
