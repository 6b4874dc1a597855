//! The parser of functions of libraries and classes, and of members, over whatever reads the parts of
//! a node.
//!
//! There is a function for each production; `parts.rt` has what is held of a member before it is made.
//! `members.rt` has the lists of members, which read the longest member at each place, or else an error
//! over a segment.
#![tactic(auto)]

mod constructors;
mod functions;
mod leaves;
mod members;
mod operators;
mod parts;
mod plain;

pub use leaves::{heads_word, some_token};
pub use members::member_list;
pub use parts::{Bodies, FunctionOrVariables};
pub use plain::function_or_variables;
