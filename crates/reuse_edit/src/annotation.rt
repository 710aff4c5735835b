//! What is asked of the files that a command goes through.
use reuse_command::command::{FileAmendment, HeaderAdditions, Scope};
use reuse_header::{How, StyleTable};

/// What is asked of an annotation, and the styles of the tree that it is of.
#[derive(Clone, Copy)]
pub struct Annotation<'a, 'own> {
    pub additions: &'a HeaderAdditions,
    pub how: &'a How,
    pub scope: &'a Scope,
    pub styles: &'a StyleTable<'own>,
}

/// What is asked of an amendment, and the styles of the tree that it is of.
#[derive(Clone, Copy)]
pub struct Amendment<'a, 'own> {
    pub amendment: &'a FileAmendment,
    pub scope: &'a Scope,
    pub styles: &'a StyleTable<'own>,
}
