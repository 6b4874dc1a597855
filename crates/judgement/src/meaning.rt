//! What names mean.

use dart_types::ClassId;
use flow_model::LocalId;

/// What a name means at a point of a body.
#[derive(Clone, Copy, Debug, PartialEq, Eq)]
pub enum Meaning {
    /// Nothing.
    Nothing,
    /// A local.
    Local(LocalId),
    /// The function `print` of dart:core.
    Print,
    /// A class without type parameters.
    Class(ClassId),
    /// A declaration of the library or of dart:core of which the rules don't speak yet.
    Other,
}
