//! The scope of a library.

use crate::elements::Namespace;
use dart_types::LibId;
use element_terms::{Combinators, LibraryElement};
use plain_text::PlainText;
use std::rc::Rc;

/// An import.
#[derive(Debug, Drop)]
pub struct Import {
    /// The imported library.
    pub library: LibId,
    /// The prefix, if there is one.
    pub prefix: Option<PlainText>,
    /// The combinators, as they are written.
    pub combinators: Combinators,
    /// What the imported library exports.
    pub exported: Rc<Namespace>,
}

/// What the top level of a library sees: what the library declares, and what it imports.
#[derive(Debug, Drop)]
pub struct Scope {
    /// The library.
    pub library: Rc<LibraryElement>,
    /// Its imports, as they are written.
    pub imports: Vec<Import>,
    /// What `dart:core` exports, which a library imports that doesn't say so.
    pub core: Rc<Namespace>,
}
