//! Trees in a short notation, for tests and measurements.
//!
//! A node is its operator or its word and its parts, in parentheses; names, literals and marks stand as
//! they are written. What a tree says is told by its notation; where its nodes stand is told beside them
//! where that is asked for. `unit_notation` writes whole texts in it. No contract says what the notation
//! is: the tests of the parser show it.
#![tactic(auto)]

mod expressions;
mod functions;
mod literals;
mod operators;
mod pieces;
mod statements;
mod types;

pub use functions::{body_of, function, variables};
pub use literals::{arguments_of, string};
pub use pieces::{Pieces, Ranges, expression_text, statement_text, text_of};
pub use types::{parameters_of, type_parameters};
