//! How many nodes the tree of a text has: no more than a constant for each of its tokens.
//!
//! The contracts of `laws.rt` state the bound, over the definitions of `grammar` and `dart_tree`: the
//! nodes of a text can be numbered in a few more bits than its tokens. The crate has no other code.
#![tactic(auto)]

mod laws;

pub use laws::{grammar_tokens_rise, nodes_are_bounded, nodes_of_texts_are_bounded};
