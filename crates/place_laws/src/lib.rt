//! Where the nodes of a text's tree stand.
//!
//! The contracts of `laws.rt` state it, over the definitions of `grammar` and `dart_tree`: each node
//! stands from the first to the last of the tokens that begin within it, and its parts stand within
//! it, one behind the other. `specs/Standing.antt` says what that means. The crate has no other code.
#![tactic(auto)]

mod laws;

pub use laws::{nodes_of_texts_stand_in_order, nodes_stand_in_order};
