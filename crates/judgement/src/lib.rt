//! The rules: what each form of a body gives, from what is known before it.
//!
//! For an expression these are its static type, the flow models after it, where it is true and where
//! it is false, its diagnostics, and what is said of its nodes; for a statement the flow model after
//! it, the jumps out of it and the types that it returns, its diagnostics and its nodes. There is one
//! row of a table for each form (`specs/ExpressionRows.antt`, `specs/StatementRows.antt`), and the
//! recursion over trees that cites them (`specs/Judgement.antt`). The rules are those of the Dart
//! specification and its null safety, restated in docs/LANGUAGE.md. The crate has these definitions,
//! the plain types of what they say, diagnostics among them, one function, `integer_of`, that the
//! judge and the elaboration both call: the value of an integer literal, and a law of the types whose
//! members receivers have. It stands on the trees, the types, their bounds and the flow models, and the
//! judge proves its code against it.
#![tactic(auto)]

mod code;
mod fault;
mod laws;
mod literals;
mod meaning;
mod operation;
mod typed;

pub use code::DiagnosticCode;
pub use fault::Fault;
pub use laws::members_are_those_of_bounds;
pub use literals::integer_of;
pub use meaning::Meaning;
pub use operation::Operation;
pub use typed::TypedNode;
