//! From a text to its tree: the tokens, their groups, and the directives and declarations that are
//! read of them.
//!
//! `parse_unit` answers the tree that `grammar` gives for the tokens of the text, and keeps beside it
//! what the tree leaves out: the tokens, the words, and the faults of lexemes and groups. Nodes are
//! numbered in reading order. Each unit that is answered counts as one text parsed. `tree_faults` says what is wrong
//! with each segment of the text that derives nothing.
#![tactic(auto)]

mod faults;
mod unit;

pub use faults::{TreeFault, tree_faults};
pub use unit::parse_unit;
