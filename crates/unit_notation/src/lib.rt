//! Trees of whole texts in the notation of `tree_notation`, for tests.
//!
//! A text is its directives and declarations with blanks between them, each its word and its parts in
//! parentheses, behind its annotations; the members of a class stand in braces. What derives nothing is
//! `(error)`. No contract says what the notation is: the tests of whole texts show it.
#![tactic(auto)]

mod declarations;
mod directives;
mod members;
mod units;

pub use tree_notation::Ranges;
pub use units::unit_text;
