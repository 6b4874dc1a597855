//! What is wrong in a text.

use crate::code::DiagnosticCode;
use dart_tree::Span;

/// Something wrong in a text, and where: in UTF-16 code units, from 0.
///
/// Diagnostics are ordered by where they stand, and those of one place by their codes' names.
#[derive(Clone, Copy, Debug, PartialEq, Eq, PartialOrd, Ord)]
pub struct Fault {
    /// The part of the text that is wrong.
    pub span: Span,
    /// What is wrong with it.
    pub code: DiagnosticCode,
}
