//! Libraries.

ghost use Rattle.std.specs.Prelude.{◌≡◌, find, position};
ghost use Rattle.std.specs.Option.{option_copied};
ghost use Rattle.element_terms.specs.Declarations.{declares};

use crate::combinators::Combinators;
use crate::declarations::{Declarations, Declared};
use dart_types::LibId;
use plain_text::PlainText;
use std::marker::Model;

/// An export.
#[derive(Debug, Drop)]
pub struct ExportEdge {
    /// The library that is exported.
    pub library: LibId,
    /// The combinators, as they are written.
    pub combinators: Combinators,
}

/// The exports of a library in the order in which they are written.
#[derive(Debug, Drop)]
pub struct Exports {
    exports: Vec<ExportEdge>,
}

impl Model for Exports {
    ghost use Rattle.std.specs.Prelude.{List};
    ghost use Rattle.element_terms.specs.declared.libraries.ExportEdge.{ExportEdge};

    ghost Value = { List ExportEdge };

    ghost view = { λ e. e.exports.items };
}

impl Exports {
    /// The exports that the vector holds, which takes no memory.
    pub fn from_vec(exports: Vec<ExportEdge>) -> Exports
        ensures { result ≡ exports.items }
    {
        Exports { exports }
    }

    /// The exports.
    pub fn as_slice(&self) -> &[ExportEdge]
        ensures { result.now ≡ self.now }
    {
        self.exports.as_slice()
    }
}

/// A library with its parts.
#[derive(Debug, Drop)]
pub struct LibraryElement {
    /// Its number.
    pub id: LibId,
    /// The path of its file, absolute and normalized, or `dart:core`.
    pub path: PlainText,
    /// What it and its parts declare.
    pub declared: Declarations,
    /// Its exports.
    pub exports: Exports,
}

/// The declaration that gives a name its meaning in a library: the first that has it. None exactly
/// where the library declares no such name.
pub fn declared<'a>(library: &'a LibraryElement, name: &str) -> Option<&'a Declared>
    ensures { option_copied result ≡ find (λ d. declares d name.now) library.now.declared }
{
    library
        .declared
        .as_slice()
        .iter()
        .find(|d| d.declares(name))
}

/// The place of that declaration among those of the library, in the time of log n of n names.
pub fn declared_place(library: &LibraryElement, name: &str) -> Option<usize>
    ensures { result ≡ position (λ d. declares d name.now) library.now.declared }
{
    library.declared.place(name)
}
