//! The errors of a tree: where the nodes in it stand that derive nothing, in reading order.
//!
//! An item, a member or a statement that derives nothing is an error node over its tokens. Errors lie
//! anywhere in a tree, since an expression may hold a function with statements in it, and a type may
//! hold an expression, as the default value of a parameter. `specs/Errors.antt` says which errors a
//! tree has, and `error_nodes` finds them in one walk over the tree.
#![tactic(auto)]

mod expressions;
mod functions;
mod laws;
mod members;
mod statements;
mod types;
mod units;

pub use laws::error_laws;
pub use units::error_nodes;
